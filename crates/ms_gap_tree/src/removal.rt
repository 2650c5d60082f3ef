//! Taking items out of a tree.

ghost use Rattle.std.specs.Prelude.{◌≡◌, ◌+◌, ◌≤◌, ◌^◌, ℕ, length, Some, true, false};
ghost use Rattle.ms_gap_tree.specs.refinement.Arena.{at, tree_of};
ghost use Rattle.ms_gap_tree.specs.refinement.Tree.{freed, has, link_first, pop, remove, removed, IsApart, IsWithinArena};

use crate::node::{Link, Node};
use crate::tree::half;

/// What is left of a tree, and the slot that it no longer has.
#[derive(Clone, Copy, PartialEq, Eq)]
pub struct Popped {
    pub rest: Option<Link>,
    pub slot: u32,
}

/// Whether the root of the first tree has no less room than that of the second.
fn is_first(left: Option<Link>, right: Option<Link>) -> bool
    ensures { result ≡ link_first left right }
{
    match left {
        None => false,
        Some(left) => match right {
            None => true,
            Some(right) => right.item.room <= left.item.room,
        },
    }
}

/// Takes the item at the root out. The items below go up, and the slot of the lowest one is free then.
pub fn pop(nodes: &mut [Node], level: u32, root: Link) -> Popped
    requires within { IsWithinArena (length nodes.old) (tree_of nodes.old level (Some root)) }
    requires apart { IsApart (tree_of nodes.old level (Some root)) }
    ensures rest { tree_of nodes.new level result.rest ≡ pop (tree_of nodes.old level (Some root)) }
    ensures slot { result.slot ≡ freed (tree_of nodes.old level (Some root)) }
    ensures others { (j : ℕ) → has j (tree_of nodes.old level (Some root)) ≡ false → at nodes.new j ≡ at nodes.old j }
{
    let last = Popped {
        rest: None,
        slot: root.at,
    };
    if level == 0 {
        return last;
    }
    let node = nodes[root.at as usize];
    if is_first(node.left, node.right) {
        match node.left {
            None => last,
            Some(child) => {
                let below = pop(nodes, level - 1, child);
                nodes[root.at as usize] = Node {
                    left: below.rest,
                    right: node.right,
                };
                Popped {
                    rest: Some(Link {
                        at: root.at,
                        item: child.item,
                    }),
                    slot: below.slot,
                }
            }
        }
    } else {
        match node.right {
            None => last,
            Some(child) => {
                let below = pop(nodes, level - 1, child);
                nodes[root.at as usize] = Node {
                    left: node.left,
                    right: below.rest,
                };
                Popped {
                    rest: Some(Link {
                        at: root.at,
                        item: child.item,
                    }),
                    slot: below.slot,
                }
            }
        }
    }
}

/// What is left of a tree, and the slot that it no longer has, where it had the key.
#[derive(Clone, Copy, PartialEq, Eq)]
pub struct Removed {
    pub rest: Option<Link>,
    pub slot: Option<u32>,
}

/// Takes the item of this key out.
pub fn remove(nodes: &mut [Node], level: u32, low: u64, link: Option<Link>, key: u64) -> Removed
    requires levels { level ≤ 64 }
    requires range { low + 2 ^ level ≤ 2 ^ 64 }
    requires within { IsWithinArena (length nodes.old) (tree_of nodes.old level link) }
    requires apart { IsApart (tree_of nodes.old level link) }
    ensures rest { tree_of nodes.new level result.rest ≡ remove level low key (tree_of nodes.old level link) }
    ensures slot { result.slot ≡ removed level low key (tree_of nodes.old level link) }
    ensures others { (j : ℕ) → has j (tree_of nodes.old level link) ≡ false → at nodes.new j ≡ at nodes.old j }
{
    if level == 0 {
        return Removed {
            rest: link,
            slot: None,
        };
    }
    match link {
        None => Removed {
            rest: None,
            slot: None,
        },
        Some(root) => {
            if key == root.item.key {
                let popped = pop(nodes, level, root);
                return Removed {
                    rest: popped.rest,
                    slot: Some(popped.slot),
                };
            }
            let node = nodes[root.at as usize];
            let middle = low + half(level - 1);
            if key < middle {
                let below = remove(nodes, level - 1, low, node.left, key);
                nodes[root.at as usize] = Node {
                    left: below.rest,
                    right: node.right,
                };
                Removed {
                    rest: Some(root),
                    slot: below.slot,
                }
            } else {
                let below = remove(nodes, level - 1, middle, node.right, key);
                nodes[root.at as usize] = Node {
                    left: node.left,
                    right: below.rest,
                };
                Removed {
                    rest: Some(root),
                    slot: below.slot,
                }
            }
        }
    }
}
