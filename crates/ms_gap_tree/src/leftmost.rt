//! The least key with room enough.

ghost use Rattle.std.specs.Prelude.{◌≡◌, ◌+◌, ◌≤◌, cond, length};
ghost use Rattle.ms_gap_tree.specs.refinement.Arena.{tree_of};
ghost use Rattle.ms_gap_tree.specs.refinement.Tree.{least, link_fits, looked, lowest, IsWithinArena};

use crate::node::{Link, Node};
use crate::steps::Steps;
use std::sync::ledger::Ledger;

/// Whether the root has this room.
fn fits(link: Option<Link>, n: u64) -> bool
    ensures { result ≡ link_fits n link }
{
    match link {
        None => false,
        Some(root) => n <= root.item.room,
    }
}

/// Where the least key with this room lies: the lower half, if it has it, and else the upper one.
fn way(node: Node, n: u64) -> Option<Link>
    ensures { result ≡ cond (link_fits n node.left) node.left node.right }
{
    if fits(node.left, n) {
        node.left
    } else {
        node.right
    }
}

/// The less of a key and one that may be there.
fn least(key: u64, other: Option<u64>) -> u64
    ensures { result ≡ least key other }
{
    match other {
        None => key,
        Some(other) => key.min(other),
    }
}

/// The least key with this room. It looks at one node of a level at most.
pub fn lowest<L: Ledger>(
    nodes: &[Node],
    level: u32,
    link: Option<Link>,
    n: u64,
    steps: &mut Steps<L>,
) -> Option<u64>
    requires within { IsWithinArena (length nodes.now) (tree_of nodes.now level link) }
    ensures found { result ≡ lowest n (tree_of nodes.now level link) }
    ensures looked { steps.new ≡ steps.old + looked level n (tree_of nodes.now level link) }
    ensures cost { steps.new ≤ steps.old + level }
{
    match link {
        None => None,
        Some(root) => {
            if root.item.room < n {
                return None;
            }
            if level == 0 {
                return Some(root.item.key);
            }
            steps.tick();
            let node = nodes[root.at as usize];
            let below = lowest(nodes, level - 1, way(node, n), n, steps);
            Some(least(root.item.key, below))
        }
    }
}
