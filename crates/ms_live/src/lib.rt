//! Where segments lie: the live segments of the segment memory, and the gaps between them. `Gaps` is the contract, over the
//! definitions in `specs/Place.antt`, which are to be read first. `TreeGaps` keeps it with two trees, on `ms_gap_tree`:
//! `specs/refinement` says how gaps lie (`Layout.antt`), how segments are kept by identity (`Ordered.antt`), and where most of
//! them are found at once (`Hints.antt`). `ListGaps` is the plain counterpart.
#![tactic(auto)]

mod branch;
mod gaps;
mod hinted;
mod ids;
mod least_gap;
mod list_gaps;
mod order;
mod tree_gaps;

pub use gaps::{ALIGNMENT, Gaps, Live, MOST_LIVE};
pub use list_gaps::ListGaps;
pub use tree_gaps::{TreeGaps, levels_for};
