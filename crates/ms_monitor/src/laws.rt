//! What is true of all traces.

ghost use Rattle.std.specs.Prelude.{List, All};
ghost use Rattle.ms_event.specs.declared.event.Event.{Event};
ghost use Rattle.ms_event.specs.Text.{IsInRange};
ghost use Rattle.ms_monitor.specs.Traces.{IsTrace, trace_text};

/// The text of a trace is read as its events.
pub fn written_traces_are_read()
    ensures { (events : List Event) → All IsInRange events → IsTrace (trace_text events) events }
{}
