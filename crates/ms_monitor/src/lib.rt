//! The judge of traces: whether the colour monitor accepts an event after those that it has seen.
//!
//! It decides the definition `May` of `ms_event/specs/Monitor.antt`, which is to be read first; `specs/Judging.antt` says what
//! one call answers, and `specs/Showing.antt` which states a monitor stands for. `specs/Traces.antt` has traces as texts, and
//! what judging a whole trace answers. Colours are kept by identity, shades as a set, and unpainted addresses as gaps in a
//! tree, so that no call goes over all of them. It stands on `ms_event`, `ms_gap_tree` and the layouts of `ms_live`.
#![tactic(auto)]

mod colours;
mod gaps;
mod judgement;
mod laws;
mod lines;
mod monitor;
mod shades;
mod trace;

pub use judgement::{JudgeFault, judge};
pub use laws::written_traces_are_read;
pub use monitor::{Monitor, Verdict};
pub use trace::{TraceFault, parse_trace, print_trace};
