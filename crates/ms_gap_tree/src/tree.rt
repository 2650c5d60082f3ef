//! The halves of a range, finding a key, and adding one.

ghost use Rattle.std.specs.Prelude.{◌≡◌, ◌+◌, ◌<◌, ◌≤◌, ◌^◌, ◌≢◌, ℕ, length, true, false, MatchOption};
ghost use Rattle.ms_gap_tree.specs.refinement.Arena.{at, tree_of};
ghost use Rattle.ms_gap_tree.specs.refinement.Tree.{exchange, half, has, insert, link_below, look, lower, upper, yields, IsApart, IsWithinArena};

use crate::node::{Item, Link, Node};

/// Half of the range of a tree of one level more than these.
pub fn half(level: u32) -> u64
    requires { level ≤ 64 }
    ensures { result ≡ half level }
{
    if level == 0 {
        return 0;
    }
    1 << (level - 1)
}

/// Of two items the one with more room.
fn upper(x: Item, y: Item) -> Item
    ensures { result ≡ upper x y }
{
    if x.room < y.room { y } else { x }
}

/// The other one.
fn lower(x: Item, y: Item) -> Item
    ensures { result ≡ lower x y }
{
    if x.room < y.room { x } else { y }
}

/// The room that is kept under the key.
pub fn find(nodes: &[Node], level: u32, low: u64, link: Option<Link>, key: u64) -> Option<u64>
    requires levels { level ≤ 64 }
    requires range { low + 2 ^ level ≤ 2 ^ 64 }
    requires within { IsWithinArena (length nodes.now) (tree_of nodes.now level link) }
    ensures { result ≡ look level low key (tree_of nodes.now level link) }
{
    if level == 0 {
        return None;
    }
    let root = link?;
    if key == root.item.key {
        return Some(root.item.room);
    }
    let node = nodes[root.at as usize];
    let middle = low + half(level - 1);
    if key < middle {
        find(nodes, level - 1, low, node.left, key)
    } else {
        find(nodes, level - 1, middle, node.right, key)
    }
}

/// An item more, in a slot that the tree does not have. Gives the link to the tree.
pub fn insert(
    nodes: &mut [Node],
    level: u32,
    low: u64,
    link: Option<Link>,
    slot: u32,
    new: Item,
) -> Option<Link>
    requires levels { level ≤ 64 }
    requires range { low + 2 ^ level ≤ 2 ^ 64 }
    requires within { IsWithinArena (length nodes.old) (tree_of nodes.old level link) }
    requires apart { IsApart (tree_of nodes.old level link) }
    requires fresh { has slot (tree_of nodes.old level link) ≡ false }
    requires there { slot < length nodes.old }
    ensures tree { tree_of nodes.new level result ≡ insert level low slot new (tree_of nodes.old level link) }
    ensures others { (j : ℕ) → has j (tree_of nodes.old level link) ≡ false → j ≢ slot → at nodes.new j ≡ at nodes.old j }
{
    if level == 0 {
        return link;
    }
    match link {
        None => {
            nodes[slot as usize] = Node {
                left: None,
                right: None,
            };
            Some(Link {
                at: slot,
                item: new,
            })
        }
        Some(root) => {
            let node = nodes[root.at as usize];
            let top = upper(root.item, new);
            let rest = lower(root.item, new);
            let middle = low + half(level - 1);
            if rest.key < middle {
                let left = insert(nodes, level - 1, low, node.left, slot, rest);
                nodes[root.at as usize] = Node {
                    left,
                    right: node.right,
                };
                Some(Link {
                    at: root.at,
                    item: top,
                })
            } else {
                let right = insert(nodes, level - 1, middle, node.right, slot, rest);
                nodes[root.at as usize] = Node {
                    left: node.left,
                    right,
                };
                Some(Link {
                    at: root.at,
                    item: top,
                })
            }
        }
    }
}

/// Whether the root has at most this room.
fn is_below(link: Option<Link>, room: u64) -> bool
    ensures { result ≡ link_below room link }
{
    match link {
        None => true,
        Some(root) => root.item.room <= room,
    }
}

/// The link to the tree with another item at its root, where the one that is there has this key, and neither half has
/// more room than the other item.
pub fn exchange(nodes: &[Node], level: u32, link: Option<Link>, key: u64, new: Item) -> Option<Link>
    requires within { IsWithinArena (length nodes.now) (tree_of nodes.now level link) }
    ensures { MatchOption result (yields level key new.room (tree_of nodes.now level link) ≡ false) (λ root. (yields level key new.room (tree_of nodes.now level link) ≡ true) × (tree_of nodes.now level (Some root) ≡ exchange new (tree_of nodes.now level link))) }
{
    if level == 0 {
        return None;
    }
    let root = link?;
    if root.item.key != key {
        return None;
    }
    let node = nodes[root.at as usize];
    if !is_below(node.left, new.room) {
        return None;
    }
    if !is_below(node.right, new.room) {
        return None;
    }
    Some(Link {
        at: root.at,
        item: new,
    })
}
