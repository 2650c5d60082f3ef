//! That the segment memory over its two parts begins with ample memory, in each of the forms that these have. What each call
//! does is proved.

use ms_event::Event;
use ms_handle::Kind;
use ms_live::{Gaps, ListGaps, TreeGaps};
use ms_segment::{SegTrap, SegmentMemory, Segments};
use ms_tagged::{ByteTags, Granules, Tagged};
use std::alloc::{AllocError, Global};
use std::process::Abort;
use std::test::Fail;

/// Makes a segment, writes and reads it, and frees it.
fn use_a_segment<G: Gaps, T: Tagged>(rt: &impl Abort, alloc: Global) -> Result<(), AllocError> {
    let mut memory: Segments<G, T> = Segments::new(alloc, 64)?;
    let (handle, event) = memory.make(32, Kind::Heap);
    let (id, lo, hi, addr, width) = (1, 0, 32, 0, 8);
    assert!(rt; event == Event::Alloc { id, addr, size: hi });
    assert!(rt;
        memory.store(handle, width, 7)
            == Ok(Event::Write {
                id,
                lo,
                hi,
                addr,
                width
            })
    );
    assert!(rt;
        memory.load(handle, width)
            == Ok((
                7,
                Event::Read {
                    sealed: false,
                    id,
                    lo,
                    hi,
                    addr,
                    width
                }
            ))
    );
    assert!(rt; memory.free(handle, Kind::Heap) == Ok(Event::Free { id }));
    assert!(rt; memory.load(handle, width) == Err(SegTrap::Freed));
    assert_eq!(rt; memory.live(), 0);
    Ok(())
}

#[test]
fn a_segment_in_plain_lists(rt: HostRuntime) -> Result<(), Fail> {
    use_a_segment::<ListGaps, ByteTags>(&rt, rt.alloc())?;
    Ok(())
}

#[test]
fn a_segment_in_trees_and_granules(rt: HostRuntime) -> Result<(), Fail> {
    use_a_segment::<TreeGaps, Granules>(&rt, rt.alloc())?;
    Ok(())
}
