//! Calls in a row over both forms, every answer compared.

ghost use Rattle.std.specs.Prelude.{◌≤◌, All};

use ms_handle::Kind;
use ms_live::{Gaps, ListGaps, Live, MOST_LIVE, TreeGaps};
use std::alloc::{AllocError, Global};
use std::process::Abort;
use std::test::Fail;

/// The live segments and the newest identity.
#[derive(Drop)]
struct Memory<G: Gaps> {
    gaps: G,
    newest: u64,
    ghost oldest_first: { All (λ segment. segment.id ≤ newest) (G.live gaps) },
}

impl<G: Gaps> Memory<G> {
    fn new(alloc: Global, capacity: u32) -> Result<Self, AllocError> {
        Ok(Memory {
            gaps: G::new(alloc, capacity)?,
            newest: 0,
        })
    }

    fn count(&self) -> u32 {
        self.gaps.count()
    }

    fn place(&self, size: u32) -> Option<u32> {
        self.gaps.place(size)
    }

    fn find(&self, id: u64) -> Option<Live> {
        self.gaps.find(id)
    }

    /// The live segment with `i` older ones. There is one.
    fn nth<R: Abort>(&self, rt: &R, i: usize) -> Live {
        assert!(rt; i < self.gaps.count() as usize);
        self.gaps.nth(i as u32)
    }

    /// A segment of this size becomes live. Gives its base, or none where there is no place.
    fn enter<R: Abort>(&mut self, rt: &R, size: u32) -> Option<u32> {
        assert!(rt; self.gaps.count() < MOST_LIVE);
        assert!(rt; self.newest < 1_000_000);
        let base = self.gaps.place(size)?;
        self.newest += 1;
        self.gaps.enter(Live {
            id: self.newest,
            base,
            size,
            kind: Kind::Heap,
        });
        Some(base)
    }

    /// The segment ends.
    fn leave<R: Abort>(&mut self, rt: &R, id: u64) {
        let found = self.gaps.find(id).is_some();
        assert!(rt; found);
        self.gaps.leave(id);
    }
}

/// What happens to the segments.
#[derive(Clone, Copy)]
enum Step {
    /// One of this size becomes live at this base. Its identity is the newest one, counted from 1.
    Enter(u32, u32),
    /// There is no place for this size.
    Full(u32),
    /// The one of this identity ends.
    Leave(u64),
}

/// Takes the steps in turn, and then sees that those of these identities are live.
fn run<G: Gaps, R: Abort>(
    rt: &R,
    alloc: Global,
    capacity: u32,
    steps: &[Step],
    live: &[u64],
) -> Result<(), Fail> {
    let mut memory: Memory<G> = Memory::new(alloc, capacity)?;
    for step in steps {
        match *step {
            Step::Enter(size, base) => {
                assert_eq!(rt;
                    memory.enter(rt, size),
                    Some(base),
                    "{size} bytes at {capacity}"
                );
            }
            Step::Full(size) => {
                assert!(rt; memory.place(size) == None, "{size} bytes at {capacity}");
            }
            Step::Leave(id) => memory.leave(rt, id),
        }
    }
    lists(rt, &memory, live);
    Ok(())
}

/// The live segment with `i` older ones has this identity, and is found by it.
fn is_nth<G: Gaps, R: Abort>(rt: &R, memory: &Memory<G>, i: usize, id: u64) {
    let segment = memory.nth(rt, i);
    assert_eq!(rt; segment.id, id);
    assert!(rt; memory.find(id) == Some(segment), "identity {id}");
}

/// Of the identities up to the newest, these and no others are live, in this order.
fn lists<G: Gaps, R: Abort>(rt: &R, memory: &Memory<G>, live: &[u64]) {
    assert_eq!(rt; memory.count() as usize, live.len());
    for (i, id) in live.iter().enumerate() {
        is_nth(rt, memory, i, *id);
    }
    for id in 1..=memory.newest {
        if !live.contains(&id) {
            assert!(rt; memory.find(id) == None, "identity {id}");
        }
    }
}

/// Of a capacity, what is done, and which segments are live then.
const FIRST_FITS: [(u32, &[Step], &[u64]); 7] = [
    (
        0,
        &[
            Step::Full(1),
            Step::Enter(0, 0),
            Step::Full(1),
            Step::Full(u32::MAX),
        ],
        &[1],
    ),
    (
        16,
        &[
            Step::Full(17),
            Step::Enter(16, 0),
            Step::Full(1),
            Step::Full(16),
            Step::Full(u32::MAX),
            Step::Enter(0, 0),
            Step::Leave(1),
            Step::Enter(1, 0),
            Step::Full(1),
            Step::Enter(0, 0),
        ],
        &[2, 3, 4],
    ),
    // A gap between two segments, and the bytes behind a segment that no place begins in.
    (
        128,
        &[
            Step::Enter(16, 0),
            Step::Enter(16, 16),
            Step::Enter(16, 32),
            Step::Leave(2),
            Step::Enter(17, 48),
            Step::Enter(16, 16),
            Step::Full(49),
            Step::Enter(48, 80),
            Step::Full(1),
            Step::Leave(4),
            Step::Full(33),
            Step::Enter(32, 48),
            Step::Full(1),
        ],
        &[1, 3, 5, 6, 7],
    ),
    (
        100,
        &[
            Step::Enter(1, 0),
            Step::Enter(16, 16),
            Step::Enter(17, 32),
            Step::Enter(1, 64),
            Step::Full(21),
            Step::Enter(20, 80),
            Step::Full(1),
            Step::Leave(1),
            Step::Leave(2),
            Step::Full(33),
            Step::Enter(32, 0),
        ],
        &[3, 4, 5, 6],
    ),
    (
        64,
        &[
            Step::Enter(0, 0),
            Step::Enter(40, 0),
            Step::Enter(0, 0),
            Step::Enter(16, 48),
            Step::Full(1),
            Step::Leave(2),
            Step::Enter(48, 0),
            Step::Full(1),
        ],
        &[1, 3, 4, 5],
    ),
    (
        u32::MAX,
        &[
            Step::Enter(u32::MAX, 0),
            Step::Full(1),
            Step::Full(u32::MAX),
            Step::Enter(0, 0),
            Step::Leave(2),
        ],
        &[1],
    ),
    (
        u32::MAX,
        &[
            Step::Enter(u32::MAX - 15, 0),
            Step::Full(16),
            Step::Enter(15, u32::MAX - 15),
            Step::Full(1),
            Step::Leave(1),
            Step::Enter(16, 0),
        ],
        &[2, 3],
    ),
];

#[test]
fn first_fit(rt: HostRuntime) -> Result<(), Fail> {
    for (capacity, steps, live) in FIRST_FITS {
        run::<ListGaps, HostRuntime>(&rt, rt.alloc(), capacity, steps, live)?;
        run::<TreeGaps, HostRuntime>(&rt, rt.alloc(), capacity, steps, live)?;
    }
    Ok(())
}

/// As many segments as may be live at once, each of no bytes.
fn fill<G: Gaps, R: Abort>(rt: &R, memory: &mut Memory<G>) {
    for _i in 0..MOST_LIVE {
        assert_eq!(rt; memory.enter(rt, 0), Some(0));
    }
    assert_eq!(rt; memory.count(), 65_536);
    assert!(rt; memory.find(65_537) == None);
    is_nth(rt, memory, 65_535, 65_536);
}

/// Behind them there is room for 16 bytes, once one has ended.
fn use_room<G: Gaps, R: Abort>(rt: &R, memory: &mut Memory<G>) {
    assert_eq!(rt; memory.place(16), Some(0));
    assert_eq!(rt; memory.place(17), None);
    memory.leave(rt, 1);
    assert_eq!(rt; memory.count(), 65_535);
    assert_eq!(rt; memory.enter(rt, 16), Some(0));
    assert_eq!(rt; memory.place(1), None);
}

fn fill_and_use<G: Gaps, R: Abort>(rt: &R, alloc: Global) -> Result<(), Fail> {
    let mut memory: Memory<G> = Memory::new(alloc, 16)?;
    fill(rt, &mut memory);
    use_room(rt, &mut memory);
    Ok(())
}

#[test]
fn most_live(rt: HostRuntime) -> Result<(), Fail> {
    fill_and_use::<ListGaps, HostRuntime>(&rt, rt.alloc())?;
    fill_and_use::<TreeGaps, HostRuntime>(&rt, rt.alloc())
}

fn end_in_both<R: Abort>(
    rt: &R,
    list: &mut Memory<ListGaps>,
    trees: &mut Memory<TreeGaps>,
    i: usize,
) {
    let segment = list.nth(rt, i);
    assert!(rt; trees.nth(rt, i) == segment);
    assert!(rt; trees.find(segment.id) == Some(segment));
    list.leave(rt, segment.id);
    trees.leave(rt, segment.id);
    assert!(rt; trees.find(segment.id) == None);
}

/// A segment ends or begins in both, by the draw.
fn turn_both<R: Abort>(
    rt: &R,
    list: &mut Memory<ListGaps>,
    trees: &mut Memory<TreeGaps>,
    draw: u32,
) {
    let count = list.count();
    assert_eq!(rt; trees.count(), count);
    if count > 0 && draw % 5 < 2 {
        end_in_both(rt, list, trees, (draw % count) as usize);
    } else {
        let size = draw / 8 % 90;
        assert_eq!(rt; trees.enter(rt, size), list.enter(rt, size));
    }
}

/// Makes the same calls on a list and on trees, and compares each answer.
fn both<R: Abort>(rt: &R, alloc: Global, capacity: u32) -> Result<(), Fail> {
    let mut list: Memory<ListGaps> = Memory::new(alloc, capacity)?;
    let mut trees: Memory<TreeGaps> = Memory::new(alloc, capacity)?;
    let mut seed = u64::from(capacity);
    for _turn in 0..300 {
        seed = seed
            .wrapping_mul(6_364_136_223_846_793_005)
            .wrapping_add(1_442_695_040_888_963_407);
        turn_both(rt, &mut list, &mut trees, (seed >> 33) as u32 % 65_536);
    }
    Ok(())
}

#[test]
fn both_alike(rt: HostRuntime) -> Result<(), Fail> {
    for capacity in [0, 15, 333, 2000] {
        both::<HostRuntime>(&rt, rt.alloc(), capacity)?;
    }
    Ok(())
}
