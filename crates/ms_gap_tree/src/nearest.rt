//! The greatest key up to one.

ghost use Rattle.std.specs.Prelude.{◌≡◌, ◌+◌, ◌≤◌, ◌^◌, length};
ghost use Rattle.ms_gap_tree.specs.refinement.Arena.{tree_of};
ghost use Rattle.ms_gap_tree.specs.refinement.Tree.{last, nearer, IsWithinArena};

use crate::node::{Item, Link, Node};
use crate::tree::half;

/// Of an item and one that may be there the one whose key is the greatest up to this one.
fn nearer(key: u64, item: Item, other: Option<Item>) -> Option<Item>
    ensures { result ≡ nearer key item other }
{
    match other {
        None => {
            if item.key <= key {
                return Some(item);
            }
            None
        }
        Some(x) => {
            if item.key <= key {
                if x.key <= item.key {
                    return Some(item);
                }
                return Some(x);
            }
            Some(x)
        }
    }
}

/// The item of the greatest key up to this one.
pub fn last(nodes: &[Node], level: u32, low: u64, link: Option<Link>, key: u64) -> Option<Item>
    requires levels { level ≤ 64 }
    requires range { low + 2 ^ level ≤ 2 ^ 64 }
    requires within { IsWithinArena (length nodes.now) (tree_of nodes.now level link) }
    ensures { result ≡ last level low key (tree_of nodes.now level link) }
{
    if level == 0 {
        return None;
    }
    let root = link?;
    let node = nodes[root.at as usize];
    let middle = low + half(level - 1);
    if key < middle {
        let lower = last(nodes, level - 1, low, node.left, key);
        return nearer(key, root.item, lower);
    }
    let upper = last(nodes, level - 1, middle, node.right, key);
    if upper.is_some() {
        return nearer(key, root.item, upper);
    }
    let lower = last(nodes, level - 1, low, node.left, key);
    nearer(key, root.item, lower)
}
