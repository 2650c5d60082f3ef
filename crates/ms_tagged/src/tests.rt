//! Writes and reads over both forms of tagged bytes, by a table.

ghost use Rattle.std.specs.Prelude.{◌≡◌, IfOk, length};

use crate::lanes::{any_piece, wipe};
use crate::{ByteTags, Granules, Tagged};
use ms_handle::Handle;
use std::alloc::{AllocError, Global};
use std::process::Abort;
use std::test::Fail;

/// A write.
#[derive(Clone, Copy)]
enum Step {
    /// The lowest bytes of a number: address, width and number.
    Put(u32, u32, u64),
    /// A handle, at an address.
    PutHandle(u32, Handle),
    /// Zeros: address and size.
    Clear(u32, u32),
}

/// What a read is to answer.
#[derive(Clone, Copy)]
enum Want {
    /// `get` at an address, of a width.
    Number(u32, u32, Option<u64>),
    /// `get_handle` at an address.
    At(u32, Handle),
    /// `shown` from an address on, for so many bytes.
    Shown(u32, u32, Option<u8>),
    /// `held` at an address.
    Held(u32, Option<Handle>),
}

/// A number each of whose eight bytes is above 127.
const HIGH: u64 = 0xffee_ddcc_bbaa_9988;

/// Two good handles, of which the second is sealed.
const FIRST: Handle = Handle::Good {
    sealed: false,
    id: 7,
    base: 16,
    length: 64,
    offset: -3,
};

const SECOND: Handle = Handle::Good {
    sealed: true,
    id: 8,
    base: 16,
    length: 64,
    offset: -3,
};

/// Writes into new bytes, and the reads after them.
struct Row {
    name: &'static str,
    capacity: u32,
    steps: &'static [Step],
    wants: &'static [Want],
}

/// Makes a write that fits.
fn write<T: Tagged>(rt: &impl Abort, memory: &mut T, capacity: u32, step: &Step)
    requires { length (T.bytes memory.old) ≡ capacity }
    ensures { length (T.bytes memory.new) ≡ capacity }
{
    match *step {
        Step::Put(address, width, value) => {
            assert!(rt; matches!(width, 1 | 2 | 4 | 8));
            assert!(rt; address <= capacity && width <= capacity - address);
            memory.put(address, width, value);
        }
        Step::PutHandle(address, handle) => {
            assert!(rt; address % 16 == 0 && address <= capacity && 16 <= capacity - address);
            memory.put_handle(address, handle);
        }
        Step::Clear(address, size) => {
            assert!(rt; address <= capacity && size <= capacity - address);
            memory.clear(address, size);
        }
    }
}

/// Compares a read with what it is to answer.
fn compare<T: Tagged>(rt: &impl Abort, memory: &T, capacity: u32, want: &Want, name: &str)
    requires { length (T.bytes memory.now) ≡ capacity }
{
    match *want {
        Want::Number(address, width, number) => {
            assert!(rt; matches!(width, 1 | 2 | 4 | 8));
            assert!(rt; address <= capacity && width <= capacity - address);
            assert_eq!(rt;
                memory.get(address, width),
                number,
                "{name}: {width} bytes at {address}"
            );
        }
        Want::At(address, handle) => {
            assert!(rt; address % 16 == 0 && address <= capacity && 16 <= capacity - address);
            assert!(rt;
                memory.get_handle(address) == handle,
                "{name}: handle at {address}"
            );
        }
        Want::Shown(address, size, byte) => {
            assert!(rt; address <= capacity && size <= capacity - address);
            for at in address..address + size {
                assert_eq!(rt; memory.shown(at), byte, "{name}: byte at {at}");
            }
        }
        Want::Held(address, handle) => {
            assert!(rt; address < capacity);
            assert!(rt;
                memory.held(address) == handle,
                "{name}: handle of the byte at {address}"
            );
        }
    }
}

/// New bytes after these writes.
fn written<T: Tagged>(
    rt: &impl Abort,
    alloc: Global,
    capacity: u32,
    steps: &[Step],
) -> Result<T, AllocError>
    ensures { IfOk result (λ memory. length (T.bytes memory) ≡ capacity) }
{
    let mut memory = T::new(alloc, capacity)?;
    for step in steps {
        write(rt, &mut memory, capacity, step);
    }
    Ok(memory)
}

use Step::{Clear, Put, PutHandle};
use Want::{At, Held, Number, Shown};

const ROWS: [Row; 16] = [
    Row {
        name: "new",
        capacity: 72,
        steps: &[],
        wants: &[
            Shown(0, 72, Some(0)),
            Number(64, 8, Some(0)),
            At(48, Handle::Null),
        ],
    },
    Row {
        name: "numbers, lowest byte first",
        capacity: 72,
        steps: &[
            Put(3, 8, HIGH),
            Put(20, 4, HIGH),
            Put(30, 2, HIGH),
            Put(40, 1, HIGH),
        ],
        wants: &[
            Number(3, 8, Some(HIGH)),
            Number(20, 4, Some(0xbbaa_9988)),
            Number(30, 2, Some(0x9988)),
            Number(40, 1, Some(0x88)),
            Number(19, 4, Some(0xaa99_8800)),
            Number(39, 8, Some(0x8800)),
            Shown(3, 1, Some(0x88)),
            Shown(10, 1, Some(0xff)),
            Shown(11, 9, Some(0)),
            Shown(24, 6, Some(0)),
            Shown(41, 31, Some(0)),
        ],
    },
    Row {
        name: "a number in two granules",
        capacity: 72,
        steps: &[Put(12, 8, HIGH), Put(14, 2, 0x1234)],
        wants: &[
            Number(12, 8, Some(0xffee_ddcc_1234_9988)),
            Number(15, 2, Some(0xcc12)),
            At(0, Handle::Broken),
            At(16, Handle::Broken),
            At(32, Handle::Null),
        ],
    },
    Row {
        name: "a number at the end",
        capacity: 24,
        steps: &[Put(16, 8, HIGH), Clear(24, 0)],
        wants: &[Number(16, 8, Some(HIGH)), Shown(23, 1, Some(0xff))],
    },
    Row {
        name: "only zeros are null",
        capacity: 48,
        steps: &[Put(15, 1, 1), Put(31, 1, 1), Put(31, 1, 0)],
        wants: &[
            At(0, Handle::Broken),
            At(16, Handle::Null),
            At(32, Handle::Null),
        ],
    },
    Row {
        name: "handles",
        capacity: 72,
        steps: &[
            PutHandle(16, FIRST),
            PutHandle(32, Handle::Null),
            PutHandle(48, Handle::Broken),
        ],
        wants: &[
            At(0, Handle::Null),
            At(16, FIRST),
            At(32, Handle::Null),
            At(48, Handle::Broken),
            Shown(0, 16, Some(0)),
            Shown(16, 48, None),
            Number(15, 1, Some(0)),
            Number(15, 2, None),
            Number(16, 8, None),
            Number(63, 2, None),
            Number(64, 8, Some(0)),
        ],
    },
    Row {
        name: "a handle over another",
        capacity: 32,
        steps: &[PutHandle(16, FIRST), Put(20, 4, 5), PutHandle(16, SECOND)],
        wants: &[At(16, SECOND), Shown(16, 16, None)],
    },
    Row {
        name: "one byte of a handle",
        capacity: 48,
        steps: &[PutHandle(16, FIRST), Put(21, 1, HIGH)],
        wants: &[
            At(16, Handle::Broken),
            Shown(16, 5, None),
            Shown(21, 1, Some(0x88)),
            Shown(22, 10, None),
            Number(21, 1, Some(0x88)),
            Number(20, 2, None),
            Number(21, 2, None),
        ],
    },
    Row {
        name: "the ends of handles",
        capacity: 64,
        steps: &[
            PutHandle(16, FIRST),
            PutHandle(32, SECOND),
            Put(12, 8, HIGH),
            Put(47, 1, 0),
        ],
        wants: &[
            Number(12, 8, Some(HIGH)),
            At(16, Handle::Broken),
            Shown(20, 27, None),
            Held(19, None),
            Held(20, Some(FIRST)),
            Held(46, Some(SECOND)),
            Held(48, None),
            Shown(47, 1, Some(0)),
            At(32, Handle::Broken),
            At(48, Handle::Null),
        ],
    },
    Row {
        name: "a part cleared",
        capacity: 64,
        steps: &[
            PutHandle(16, FIRST),
            PutHandle(32, FIRST),
            PutHandle(48, FIRST),
            Clear(20, 36),
        ],
        wants: &[
            At(16, Handle::Broken),
            At(32, Handle::Null),
            At(48, Handle::Broken),
            Shown(16, 4, None),
            Shown(20, 36, Some(0)),
            Shown(56, 8, None),
        ],
    },
    Row {
        name: "a part of one handle cleared",
        capacity: 32,
        steps: &[PutHandle(16, FIRST), Clear(20, 4)],
        wants: &[
            At(16, Handle::Broken),
            Shown(16, 4, None),
            Shown(20, 4, Some(0)),
            Shown(24, 8, None),
        ],
    },
    Row {
        name: "many granules cleared",
        capacity: 400,
        steps: &[
            PutHandle(0, FIRST),
            PutHandle(16, FIRST),
            PutHandle(320, FIRST),
            PutHandle(336, FIRST),
            Clear(16, 320),
        ],
        wants: &[
            At(0, FIRST),
            Shown(16, 320, Some(0)),
            At(336, FIRST),
            Shown(352, 48, Some(0)),
        ],
    },
    Row {
        name: "a number in two blocks, of which the second is cleared",
        capacity: 12_340,
        steps: &[Put(4092, 8, HIGH), Put(8190, 1, 1), Clear(4096, 4096)],
        wants: &[
            Number(4092, 4, Some(0xbbaa_9988)),
            Shown(4096, 8244, Some(0)),
            At(4080, Handle::Broken),
        ],
    },
    Row {
        name: "a part of a block cleared, then all of it",
        capacity: 12_340,
        steps: &[
            Put(0, 1, 1),
            PutHandle(4080, FIRST),
            Put(4096, 1, 2),
            Clear(0, 4090),
            Clear(0, 4096),
        ],
        wants: &[
            Shown(0, 4096, Some(0)),
            At(4080, Handle::Null),
            Shown(4096, 1, Some(2)),
        ],
    },
    Row {
        name: "from the middle of a block to the end",
        capacity: 12_340,
        steps: &[
            PutHandle(4080, FIRST),
            PutHandle(4096, SECOND),
            Put(8191, 2, 0xffff),
            Put(12_339, 1, 3),
            Clear(4104, 8236),
        ],
        wants: &[
            At(4080, FIRST),
            At(4096, Handle::Broken),
            Held(4103, Some(SECOND)),
            Shown(4104, 8236, Some(0)),
        ],
    },
    Row {
        name: "nothing",
        capacity: 0,
        steps: &[Clear(0, 0)],
        wants: &[],
    },
];

/// Makes the writes of each row in new bytes, and compares the reads after them.
fn compare_rows<T: Tagged>(rt: &impl Abort, alloc: Global) -> Result<(), AllocError> {
    for row in &ROWS {
        let memory: T = written(rt, alloc, row.capacity, row.steps)?;
        for want in row.wants {
            compare(rt, &memory, row.capacity, want, row.name);
        }
    }
    Ok(())
}

#[test]
fn byte_tags_answer_the_rows(rt: HostRuntime) -> Result<(), Fail> {
    compare_rows::<ByteTags>(&rt, rt.alloc())?;
    Ok(())
}

#[test]
fn granules_answer_the_rows(rt: HostRuntime) -> Result<(), Fail> {
    compare_rows::<Granules>(&rt, rt.alloc())?;
    Ok(())
}

/// How many bytes drawn steps write: three blocks of 4,096 bytes, and a part of a fourth.
const MANY: u32 = 12_340;

/// The step that a number draws, at a border of blocks or at the end.
fn drawn_step(draw: u32) -> Step {
    let block = draw / 8 % 4 * 4096;
    let near = (block + 4072 + draw / 32 % 48).min(MANY - 16);
    match draw % 8 {
        0 | 1 | 2 | 3 => Put(near, 1 << (draw % 4), HIGH - u64::from(draw)),
        4 => PutHandle(near / 16 * 16, FIRST),
        5 => PutHandle(near / 16 * 16, SECOND),
        6 => Clear(near, (draw / 2048 % 10_000).min(MANY - near)),
        _ => Clear(block, 4096.min(MANY - block)),
    }
}

/// The steps that a seed draws.
fn drawn(seed: u64) -> [Step; 60] {
    let mut steps = [Clear(0, 0); 60];
    let mut state = seed;
    for at in 0..60 {
        state = state
            .wrapping_mul(6_364_136_223_846_793_005)
            .wrapping_add(1_442_695_040_888_963_407);
        steps[at] = drawn_step((state >> 33) as u32);
    }
    steps
}

/// Compares all bytes of both forms.
fn compare_both<S: Tagged, T: Tagged>(rt: &impl Abort, one: &S, other: &T, capacity: u32)
    requires one { length (S.bytes one.now) ≡ capacity }
    requires other { length (T.bytes other.now) ≡ capacity }
{
    for at in 0..capacity {
        assert_eq!(rt; one.shown(at), other.shown(at), "byte at {at}");
        assert!(rt;
            one.held(at) == other.held(at),
            "handle of the byte at {at}"
        );
    }
}

/// Both forms are the same after drawn steps.
#[test]
fn both_alike(rt: HostRuntime) -> Result<(), Fail> {
    for seed in 0..40 {
        let steps = drawn(seed);
        for len in [3, 8, 20, 60] {
            let tags: ByteTags = written(&rt, rt.alloc(), MANY, &steps[..len])?;
            let granules: Granules = written(&rt, rt.alloc(), MANY, &steps[..len])?;
            compare_both(&rt, &tags, &granules, MANY);
        }
    }
    Ok(())
}

/// From one place up to another all masks are 0, and all others are 1.
#[test]
fn lanes_of_every_length(rt: HostRuntime) {
    for from in 0..20 {
        for to in from..=20 {
            let mut masks = [1; 20];
            assert_eq!(rt; any_piece(&masks, from, to), from < to, "{from} to {to}");
            wipe(&mut masks, from, to);
            for (place, mask) in masks.iter().enumerate() {
                let is_inside = from <= place && place < to;
                assert_eq!(rt; *mask == 0, is_inside, "{from} to {to}, at {place}");
            }
            assert!(rt; !any_piece(&masks, from, to));
        }
    }
}
