//! What happens to the segment memory, as events with a text of one line each, and which traces of events are safe.
//!
//! The colour monitor stands in `specs/Monitor.antt`: it paints addresses with the colour of an allocation and a place in
//! it, and knows no handle, tag or byte. Read it first; `specs/Text.antt` has the text of an event. The crate stands on
//! `ms_bytes`.
#![tactic(auto)]

mod event;
mod fields;
mod laws;
mod number;
mod tally;
mod text;

pub use event::Event;
pub use laws::{accepted_by_steps, one_text, prefixes_are_accepted};
pub use tally::Tally;
