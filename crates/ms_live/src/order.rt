//! A tree by identities: counting, searching, adding and taking out.

ghost use Rattle.std.specs.Prelude.{◌≡◌, ◌≢◌, ◌+◌, ◌-◌, ◌<◌, ◌≤◌, ◌^◌, ℕ, List, length, true, false, Some};
ghost use Rattle.ms_gap_tree.specs.refinement.Tree.{half};
ghost use Rattle.ms_live.specs.declared.gaps.TheConstants.{MOST_LIVE};
ghost use Rattle.ms_live.specs.refinement.Ordered.{at, count, freed, has, lifted, pick, pop, push, remove, removed, seek, segments, tree_of, IsApart, IsInOrder, IsWithinArena};

use crate::branch::{BLANK, Branch, Halves};
use crate::gaps::Live;
use ms_gap_tree::half;

/// How many segments there are from a branch on.
fn count(branch: Option<Branch>) -> u32
    ensures { (nodes : List Halves) → (level : ℕ) → result ≡ count (tree_of nodes level branch) }
{
    match branch {
        None => 0,
        Some(root) => root.count,
    }
}

/// The segment of this identity.
pub(crate) fn seek(
    nodes: &[Halves],
    level: u32,
    low: u64,
    branch: Option<Branch>,
    id: u64,
) -> Option<Live>
    requires levels { level ≤ 65 }
    requires range { low + half level ≤ 2 ^ 64 }
    requires within { IsWithinArena (length nodes.now) (tree_of nodes.now level branch) }
    ensures { result ≡ seek level low id (tree_of nodes.now level branch) }
{
    if level == 0 {
        return None;
    }
    let root = branch?;
    if root.segment.id == id {
        return Some(root.segment);
    }
    let node = nodes[root.at as usize];
    let middle = low + half(level - 1);
    if id < middle {
        seek(nodes, level - 1, low, node.lower, id)
    } else {
        seek(nodes, level - 1, middle, node.upper, id)
    }
}

/// The segment with `k` older ones.
pub(crate) fn pick(nodes: &[Halves], level: u32, branch: Option<Branch>, k: u32) -> Option<Live>
    requires within { IsWithinArena (length nodes.now) (tree_of nodes.now level branch) }
    ensures { result ≡ pick level k (tree_of nodes.now level branch) }
{
    if level == 0 {
        return None;
    }
    let root = branch?;
    if k == 0 {
        return Some(root.segment);
    }
    let node = nodes[root.at as usize];
    let lower = count(node.lower);
    if k - 1 < lower {
        pick(nodes, level - 1, node.lower, k - 1)
    } else {
        pick(nodes, level - 1, node.upper, k - 1 - lower)
    }
}

/// A segment more, of the newest identity, in a slot that the tree does not have. Gives the branch to the tree.
pub(crate) fn push(
    nodes: &mut [Halves],
    level: u32,
    low: u64,
    branch: Option<Branch>,
    slot: u32,
    new: Live,
) -> Option<Branch>
    requires levels { level ≤ 65 }
    requires range { low + half level ≤ 2 ^ 64 }
    requires within { IsWithinArena (length nodes.old) (tree_of nodes.old level branch) }
    requires apart { IsApart (tree_of nodes.old level branch) }
    requires fresh { has slot (tree_of nodes.old level branch) ≡ false }
    requires there { slot < length nodes.old }
    requires in_order { IsInOrder level low (tree_of nodes.old level branch) }
    requires few { length (segments (tree_of nodes.old level branch)) < MOST_LIVE }
    ensures tree { tree_of nodes.new level result ≡ push level low slot new (tree_of nodes.old level branch) }
    ensures others { (j : ℕ) → has j (tree_of nodes.old level branch) ≡ false → j ≢ slot → at nodes.new j ≡ at nodes.old j }
{
    if level == 0 {
        return branch;
    }
    match branch {
        None => {
            nodes[slot as usize] = BLANK;
            Some(Branch {
                at: slot,
                count: 1,
                segment: new,
            })
        }
        Some(root) => {
            let node = nodes[root.at as usize];
            let middle = low + half(level - 1);
            let more = Branch {
                at: root.at,
                count: root.count + 1,
                segment: root.segment,
            };
            if new.id < middle {
                let lower = push(nodes, level - 1, low, node.lower, slot, new);
                nodes[root.at as usize] = Halves {
                    lower,
                    upper: node.upper,
                };
                Some(more)
            } else {
                let upper = push(nodes, level - 1, middle, node.upper, slot, new);
                nodes[root.at as usize] = Halves {
                    lower: node.lower,
                    upper,
                };
                Some(more)
            }
        }
    }
}

/// What is left of a tree, and the slot that it no longer has.
#[derive(Clone, Copy, PartialEq, Eq)]
pub(crate) struct Popped {
    pub(crate) rest: Option<Branch>,
    pub(crate) slot: u32,
}

/// Takes the oldest segment out. The oldest of a half goes up, and the slot of the lowest one that did is free then.
pub(crate) fn pop(nodes: &mut [Halves], level: u32, root: Branch) -> Popped
    requires within { IsWithinArena (length nodes.old) (tree_of nodes.old level (Some root)) }
    requires apart { IsApart (tree_of nodes.old level (Some root)) }
    ensures rest { tree_of nodes.new level result.rest ≡ pop (tree_of nodes.old level (Some root)) }
    ensures slot { result.slot ≡ freed (tree_of nodes.old level (Some root)) }
    ensures others { (j : ℕ) → has j (tree_of nodes.old level (Some root)) ≡ false → at nodes.new j ≡ at nodes.old j }
{
    let last = Popped {
        rest: None,
        slot: root.at,
    };
    if level == 0 {
        return last;
    }
    let node = nodes[root.at as usize];
    match node.lower {
        Some(child) => {
            let below = pop(nodes, level - 1, child);
            nodes[root.at as usize] = Halves {
                lower: below.rest,
                upper: node.upper,
            };
            Popped {
                rest: Some(fewer(root, child.segment)),
                slot: below.slot,
            }
        }
        None => match node.upper {
            None => last,
            Some(child) => {
                let below = pop(nodes, level - 1, child);
                nodes[root.at as usize] = Halves {
                    lower: None,
                    upper: below.rest,
                };
                Popped {
                    rest: Some(fewer(root, child.segment)),
                    slot: below.slot,
                }
            }
        },
    }
}

/// The branch to a tree with a segment less, and with this one at its root.
fn fewer(root: Branch, segment: Live) -> Branch
    ensures { result ≡ record { at = root.at; count = root.count - 1; segment = segment } }
{
    Branch {
        at: root.at,
        count: root.count.saturating_sub(1),
        segment,
    }
}

/// What is left of a tree, and the slot that it no longer has, where it had the identity.
#[derive(Clone, Copy, PartialEq, Eq)]
pub(crate) struct Removed {
    pub(crate) rest: Option<Branch>,
    pub(crate) slot: Option<u32>,
}

/// Takes the segment of this identity out, which the tree has.
pub(crate) fn remove(
    nodes: &mut [Halves],
    level: u32,
    low: u64,
    branch: Option<Branch>,
    id: u64,
) -> Removed
    requires levels { level ≤ 65 }
    requires range { low + half level ≤ 2 ^ 64 }
    requires within { IsWithinArena (length nodes.old) (tree_of nodes.old level branch) }
    requires apart { IsApart (tree_of nodes.old level branch) }
    ensures rest { tree_of nodes.new level result.rest ≡ remove level low id (tree_of nodes.old level branch) }
    ensures slot { result.slot ≡ removed level low id (tree_of nodes.old level branch) }
    ensures others { (j : ℕ) → has j (tree_of nodes.old level branch) ≡ false → at nodes.new j ≡ at nodes.old j }
{
    if level == 0 {
        return Removed {
            rest: branch,
            slot: None,
        };
    }
    match branch {
        None => Removed {
            rest: None,
            slot: None,
        },
        Some(root) => {
            if root.segment.id == id {
                let popped = pop(nodes, level, root);
                return Removed {
                    rest: popped.rest,
                    slot: Some(popped.slot),
                };
            }
            let node = nodes[root.at as usize];
            let middle = low + half(level - 1);
            if id < middle {
                let below = remove(nodes, level - 1, low, node.lower, id);
                nodes[root.at as usize] = Halves {
                    lower: below.rest,
                    upper: node.upper,
                };
                Removed {
                    rest: Some(fewer(root, root.segment)),
                    slot: below.slot,
                }
            } else {
                let below = remove(nodes, level - 1, middle, node.upper, id);
                nodes[root.at as usize] = Halves {
                    lower: node.lower,
                    upper: below.rest,
                };
                Removed {
                    rest: Some(fewer(root, root.segment)),
                    slot: below.slot,
                }
            }
        }
    }
}

/// The same segments as a tree of one level more.
pub(crate) fn lift(nodes: &mut [Halves], level: u32, root: Branch) -> Branch
    requires level { level < 65 }
    requires within { IsWithinArena (length nodes.old) (tree_of nodes.old level (Some root)) }
    requires apart { IsApart (tree_of nodes.old level (Some root)) }
    ensures tree { tree_of nodes.new (level + 1) (Some result) ≡ lifted (tree_of nodes.old level (Some root)) }
{
    let popped = pop(nodes, level, root);
    nodes[popped.slot as usize] = Halves {
        lower: popped.rest,
        upper: None,
    };
    Branch {
        at: popped.slot,
        count: root.count,
        segment: root.segment,
    }
}
