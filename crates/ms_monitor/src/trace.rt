//! Traces as texts, an event a line.

ghost use Rattle.std.specs.Prelude.{◌≡◌, IfOk, MatchOption, MatchResult, Ok, Err};
ghost use Rattle.ms_event.specs.declared.event.Event.{Event};
ghost use Rattle.ms_monitor.specs.refinement.Answers.{ReadsTrace};
ghost use Rattle.ms_monitor.specs.Traces.{IsOf, trace_text};

use crate::lines::split_line;
use ms_event::Event;
use std::alloc::{AllocError, Global};

/// Why a text is no trace.
#[derive(Clone, Copy, PartialEq, Eq)]
pub enum TraceFault {
    /// The line of this number, counted from 1, is the first that is no event.
    Line { n: usize },
    /// Memory ran out.
    Memory,
}

/// The text of a trace: that of each event, ended by LF.
pub fn print_trace(alloc: Global, events: &[Event]) -> Result<Vec<u8>, AllocError>
    ensures { IfOk result (λ t. t.items ≡ trace_text events.now) }
{
    let mut text = Vec::new(alloc);
    for event in events {
        let line = event.print(alloc)?;
        text.extend_from_slice(line.as_slice())?;
        text.push(b'\n')?;
    }
    Ok(text)
}

/// The events of a trace, of which each line is one. Lines are ended by LF, the last one perhaps by nothing.
///
/// # Errors
///
/// `Line` exactly where a line is no event, with the number of the first one; `Memory` may stand in place of any answer.
pub fn parse_trace(alloc: Global, text: &[u8]) -> Result<Vec<Event>, TraceFault>
    ensures { MatchResult result (λ events. ReadsTrace text.now (Ok events.items)) (λ fault. ReadsTrace text.now (Err fault)) }
{
    let mut events = Vec::new(alloc);
    let mut left = text;
    while !left.is_empty() {
        let (line, rest) = split_line(left);
        let Some(event) = event_of(line) else {
            return Err(TraceFault::Line {
                n: events.len() + 1,
            });
        };
        let Ok(()) = events.push(event) else {
            return Err(TraceFault::Memory);
        };
        left = rest;
    }
    Ok(events)
}

/// The event of a line. `None` exactly where the line tells none.
fn event_of(line: &[u8]) -> Option<Event>
    ensures { MatchOption result ((e : Event) → ¬ (IsOf line.now e)) (λ e. IsOf line.now e) }
{
    Event::parse(line)
}
