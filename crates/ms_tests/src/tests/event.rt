//! That printing succeeds with ample memory. Which texts are those of which events is proved.

use ms_event::Event;
use std::alloc::{AllocError, Global};
use std::process::Abort;
use std::test::Fail;

fn expect_event<R: Abort>(
    rt: &R,
    alloc: Global,
    event: &Event,
    text: &str,
) -> Result<(), AllocError> {
    let printed = event.print(alloc)?;
    assert_eq!(rt; printed.as_slice(), text.as_bytes(), "printed {text}");
    assert!(rt;
        Event::parse(text.as_bytes()) == Some(*event),
        "read {text}"
    );
    Ok(())
}

#[test]
fn texts_and_events(rt: HostRuntime) -> Result<(), Fail> {
    let table: [(Event, &str); 4] = [
        (
            Event::Alloc {
                id: u64::MAX,
                addr: u32::MAX,
                size: 0,
            },
            "alloc 18446744073709551615 4294967295 0",
        ),
        (
            Event::Seal {
                id: 7,
                lo: 0,
                hi: 4,
            },
            "seal 7 0 4",
        ),
        (
            Event::Slice {
                sealed: true,
                id: 1,
                lo: 2,
                hi: 30,
                lo2: 4,
                hi2: 5,
            },
            "slice 1 2 30 4 5 sealed",
        ),
        (Event::Free { id: 0 }, "free 0"),
    ];
    for (event, text) in &table {
        expect_event(&rt, rt.alloc(), event, text)?;
    }
    assert!(rt; Event::parse(b"free 01") == None);
    Ok(())
}
