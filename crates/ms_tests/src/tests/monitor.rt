//! Traces that were judged by hand, each with the event that is rejected, counted from 1.

use ms_event::Event;
use ms_monitor::{JudgeFault, Monitor, TraceFault, Verdict, judge, parse_trace, print_trace};
use std::alloc::{AllocError, Global};
use std::test::Fail;

/// A trace that is accepted.
const EVENTS: [Event; 4] = [
    Event::Alloc {
        id: 1,
        addr: 0,
        size: 4,
    },
    Event::Free { id: 1 },
    Event::Alloc {
        id: 2,
        addr: 0,
        size: 4,
    },
    Event::Write {
        id: 2,
        lo: 0,
        hi: 4,
        addr: 0,
        width: 4,
    },
];

/// Its text.
const TEXT: &str = "alloc 1 0 4\nfree 1\nalloc 2 0 4\nwrite 2 0 4 0 4\n";

#[test]
fn a_trace_is_printed(rt: HostRuntime) -> Result<(), Fail> {
    let text = print_trace(rt.alloc(), &EVENTS)?;
    assert_eq!(rt; text.as_slice(), TEXT.as_bytes());
    Ok(())
}

#[test]
fn a_trace_is_read(rt: HostRuntime) -> Result<(), Fail> {
    let read = parse_trace(rt.alloc(), TEXT.as_bytes());
    assert!(rt; matches!(&read, Ok(events) if events.as_slice() == EVENTS.as_slice()));
    let cut_off = parse_trace(rt.alloc(), b"alloc 1 0");
    assert!(rt; matches!(cut_off, Err(TraceFault::Line { n: 1 })));
    Ok(())
}

#[test]
fn a_trace_is_judged(rt: HostRuntime) -> Result<(), Fail> {
    assert!(rt; judge(rt.alloc(), 64, &EVENTS) == Ok(()));
    let painted_twice = [EVENTS[0], EVENTS[2]];
    assert!(rt; judge(rt.alloc(), 64, &painted_twice) == Err(JudgeFault::Rejected { n: 2 }));
    Ok(())
}

/// The first event of a trace that is rejected, counted from 1, or 0 where none is.
fn first_rejected(alloc: Global, capacity: u32, lines: &[&str]) -> Result<usize, AllocError> {
    let mut monitor = Monitor::new(alloc, capacity)?;
    for (i, line) in lines.iter().enumerate() {
        let Some(event) = Event::parse(line.as_bytes()) else {
            return Ok(i + 1);
        };
        match monitor.see(&event) {
            Ok(()) => {}
            Err(Verdict::Reject) => return Ok(i + 1),
            Err(Verdict::Memory) => return Err(AllocError),
        }
    }
    Ok(0)
}

/// Of a capacity, which line is rejected first, counted from 1, or 0, and the lines.
const TRACES: [(u32, usize, &[&str]); 21] = [
    // accepted
    (64, 0, &[]),
    (64, 0, &["alloc 1 0 4", "free 1", "alloc 2 0 4"]),
    (64, 0, &["alloc 1 0 64", "refused 1"]),
    (
        64,
        0,
        &[
            "alloc 3 16 0",
            "alloc 2 16 0",
            "alloc 1 4294967280 0",
            "refused 65",
            "free 2",
        ],
    ),
    // painted by another colour; by the same
    (64, 2, &["alloc 1 0 4", "alloc 2 0 4"]),
    (
        64,
        4,
        &[
            "alloc 1 32 8",
            "alloc 2 0 16",
            "alloc 3 16 16",
            "alloc 4 16 32",
        ],
    ),
    // a colour that was used
    (64, 3, &["alloc 1 0 4", "free 1", "alloc 1 0 4"]),
    // not divisible by 16; beyond the capacity
    (64, 1, &["alloc 1 8 4"]),
    (64, 1, &["alloc 1 48 17"]),
    // places outside the shade; a shade that isn't known
    (64, 3, &["alloc 1 0 8", "slice 1 0 8 4 8", "read 1 4 8 0 4"]),
    (
        64,
        4,
        &[
            "alloc 1 0 8",
            "slice 1 0 8 2 6",
            "write 1 2 6 2 4",
            "write 1 2 6 3 4",
        ],
    ),
    (64, 2, &["alloc 1 0 8", "read 1 0 7 0 1"]),
    // the next allocation's address
    (
        64,
        5,
        &[
            "alloc 1 32 8",
            "alloc 2 0 32",
            "read 1 0 8 32 8",
            "write 2 0 32 24 8",
            "read 2 0 32 24 9",
        ],
    ),
    // after the end; shades stay known, and no address is touched by an access of no bytes
    (64, 3, &["alloc 1 0 8", "free 1", "read 1 0 8 0 1"]),
    (
        64,
        5,
        &[
            "alloc 1 0 8",
            "free 1",
            "slice 1 0 8 2 4",
            "read 1 2 4 0 0",
            "write 1 2 4 2 1",
        ],
    ),
    (64, 3, &["alloc 1 0 8", "free 1", "free 1"]),
    (64, 1, &["free 7"]),
    // a part that is no part
    (
        64,
        3,
        &["alloc 1 0 8", "slice 1 0 8 4 8", "slice 1 4 8 3 5"],
    ),
    (64, 2, &["alloc 1 0 8", "slice 1 0 8 6 4"]),
    // there is room, between two and behind the last
    (
        64,
        6,
        &[
            "alloc 1 16 16",
            "alloc 18446744073709551615 0 16",
            "alloc 0 32 32",
            "free 1",
            "refused 17",
            "refused 16",
        ],
    ),
    (
        20,
        6,
        &[
            "alloc 1 0 4",
            "alloc 2 16 4",
            "refused 1",
            "free 2",
            "refused 5",
            "refused 4",
        ],
    ),
];

#[test]
fn traces_judged_by_hand(rt: HostRuntime) -> Result<(), Fail> {
    for (capacity, rejected, lines) in &TRACES {
        let first = first_rejected(rt.alloc(), *capacity, lines)?;
        assert_eq!(rt; first, *rejected, "{lines:?}");
    }
    Ok(())
}
