//! Instructions on handles and segments, each in a small function, over any `SegmentMemory`: they see no byte but by its loads.

ghost use Rattle.std.specs.Prelude.{◌≡◌, ◌≢◌, ◌<◌, ◌^◌, List, [], ◌∷◌, false, IsTrue, None};
ghost use Rattle.ms_event.specs.refinement.Tally.{LeavesRoom};
ghost use Rattle.ms_handle.specs.Handle.{HasBounds};
ghost use Rattle.ms_machine.specs.refinement.Doing.{CountsTold, DoesCounted, DoesInSegments, IsStill};
ghost use Rattle.ms_machine.specs.refinement.Holding.{Each, Fits};
ghost use Rattle.ms_machine.specs.Segments.{Gives, Stuck, is_null, seal_event, segment_on, slice_event};
ghost use Rattle.ms_module.specs.declared.access.Segment.TheVariants as instr;

use crate::fault::{Fault, of_segment};
use crate::near::near;
use ms_event::{Event, Tally};
use ms_handle::{Handle, Kind, add, diff, eq, seal, slice};
use ms_host::TrapKind;
use ms_linear::{Cell, Operands, Value};
use ms_module::{LoadOp, Segment, StoreOp};
use ms_operate::{number_for, value_of};
use ms_segment::SegmentMemory;

/// Carries out an instruction on handles and segments. Where it stops the program nothing has changed, and where memory runs
/// out the segment memory is as before.
#[inline(never)]
pub(crate) fn segment<S: SegmentMemory>(
    i: Segment,
    segments: &mut S,
    operands: &mut Operands,
) -> Result<Option<Event>, Fault>
    requires there { segment_on i (S.memory segments.old) operands.old ≢ Stuck }
    requires few { (S.memory segments.old).made < 2 ^ 63 }
    requires fit { Each (Fits (S.memory segments.old)) operands.old }
    ensures { DoesInSegments (segment_on i (S.memory segments.old) operands.old) operands.old operands.new (S.memory segments.old) (S.memory segments.new) result }
{
    match i {
        Segment::Null => null(segments, operands),
        Segment::New(kind) => new(kind, segments, operands),
        Segment::Free(kind) => free(kind, segments, operands),
        Segment::Add(scale) => add_to(scale, segments, operands),
        Segment::Slice => slice_of(segments, operands),
        Segment::Eq => are_equal(segments, operands),
        Segment::IsNull => is_null(segments, operands),
        Segment::Diff => difference(segments, operands),
        Segment::LoadHandle => load_handle(segments, operands),
        Segment::StoreHandle => store_handle(segments, operands),
        Segment::Load(op) => load(op, segments, operands),
        Segment::Store(op) => store(op, segments, operands),
        Segment::Seal => seal_top(segments, operands),
    }
}

/// Carries out an instruction on handles alone, or says that it didn't: it traps, memory has run out, it is a rare move, or it is
/// another one. Then nothing has changed.
#[inline(always)]
pub(crate) fn on_handles<S: SegmentMemory>(
    i: Segment,
    segments: &S,
    operands: &mut Operands,
) -> bool
    requires there { segment_on i (S.memory segments.now) operands.old ≢ Stuck }
    requires fit { Each (Fits (S.memory segments.now)) operands.old }
    ensures on { IsTrue result → segment_on i (S.memory segments.now) operands.old ≡ Gives operands.new (S.memory segments.now) None }
    ensures off { result ≡ false → operands.new ≡ operands.old }
{
    match i {
        Segment::Null => null(segments, operands).is_ok(),
        Segment::IsNull => is_null(segments, operands).is_ok(),
        Segment::Eq => are_equal(segments, operands).is_ok(),
        Segment::Diff => difference(segments, operands).is_ok(),
        Segment::Add(scale) => add_near(scale, segments, operands),
        _ => false,
    }
}

/// `handle.null`.
#[inline(always)]
fn null<S: SegmentMemory>(segments: &S, operands: &mut Operands) -> Result<Option<Event>, Fault>
    ensures does { DoesInSegments (segment_on instr.Null (S.memory segments.now) operands.old) operands.old operands.new (S.memory segments.now) (S.memory segments.now) result }
    ensures still { IsStill operands.old operands.new result }
{
    let _ = segments;
    match operands.push(Value::Handle(Handle::Null)) {
        Ok(()) => Ok(None),
        Err(_) => Err(Fault::Memory),
    }
}

/// `segment.new`.
fn new<S: SegmentMemory>(
    kind: Kind,
    segments: &mut S,
    operands: &mut Operands,
) -> Result<Option<Event>, Fault>
    requires there { segment_on (instr.New kind) (S.memory segments.old) operands.old ≢ Stuck }
    requires few { (S.memory segments.old).made < 2 ^ 63 }
    ensures { DoesInSegments (segment_on (instr.New kind) (S.memory segments.old) operands.old) operands.old operands.new (S.memory segments.old) (S.memory segments.new) result }
{
    let Value::I32(n) = operands.get(0) else {
        unreachable!()
    };
    let (handle, event) = segments.make(n, kind);
    operands.set_top(Value::Handle(handle));
    Ok(Some(event))
}

/// `segment.free`.
fn free<S: SegmentMemory>(
    kind: Kind,
    segments: &mut S,
    operands: &mut Operands,
) -> Result<Option<Event>, Fault>
    requires there { segment_on (instr.Free kind) (S.memory segments.old) operands.old ≢ Stuck }
    requires fit { Each (Fits (S.memory segments.old)) operands.old }
    ensures { DoesInSegments (segment_on (instr.Free kind) (S.memory segments.old) operands.old) operands.old operands.new (S.memory segments.old) (S.memory segments.new) result }
{
    let Value::Handle(handle) = operands.get(0) else {
        unreachable!()
    };
    match segments.free(handle, kind) {
        Ok(event) => {
            operands.cut(1);
            Ok(Some(event))
        }
        Err(trap) => Err(Fault::Trap(of_segment(trap))),
    }
}

/// `handle.add`.
#[inline(always)]
fn add_to<S: SegmentMemory>(
    scale: u32,
    segments: &S,
    operands: &mut Operands,
) -> Result<Option<Event>, Fault>
    requires there { segment_on (instr.Add scale) (S.memory segments.now) operands.old ≢ Stuck }
    requires fit { Each (Fits (S.memory segments.now)) operands.old }
    ensures does { DoesInSegments (segment_on (instr.Add scale) (S.memory segments.now) operands.old) operands.old operands.new (S.memory segments.now) (S.memory segments.now) result }
    ensures still { IsStill operands.old operands.new result }
{
    let _ = segments;
    let Value::I64(delta) = operands.get(0) else {
        unreachable!()
    };
    let Value::Handle(handle) = operands.get(1) else {
        unreachable!()
    };
    operands.pop();
    operands.set_top(Value::Handle(add(handle, delta.cast_signed(), scale)));
    Ok(None)
}

/// `handle.add` in the cases that programs have most, in which alone it is carried out here; in others it says that nothing
/// has changed.
#[inline(always)]
fn add_near<S: SegmentMemory>(scale: u32, segments: &S, operands: &mut Operands) -> bool
    requires there { segment_on (instr.Add scale) (S.memory segments.now) operands.old ≢ Stuck }
    ensures on { IsTrue result → segment_on (instr.Add scale) (S.memory segments.now) operands.old ≡ Gives operands.new (S.memory segments.now) None }
    ensures off { result ≡ false → operands.new ≡ operands.old }
{
    let _ = segments;
    let Value::I64(delta) = operands.get(0) else {
        unreachable!()
    };
    let Some(handle) = operands.cell(1).good() else {
        return false;
    };
    let Some(there) = near(handle, delta.cast_signed(), scale) else {
        return false;
    };
    operands.set_top_two(Cell::of(Value::Handle(there)));
    true
}

/// What a slice of a handle that gave this tells.
fn event_of_slice(handle: Handle, part: Handle) -> Option<Event>
    requires whole { HasBounds handle }
    requires bounds { HasBounds part }
    ensures { result ≡ slice_event handle part }
{
    match (handle, part) {
        (
            Handle::Good {
                sealed,
                id,
                base,
                length,
                ..
            },
            Handle::Good {
                base: base2,
                length: length2,
                ..
            },
        ) => Some(Event::Slice {
            sealed,
            id,
            lo: base,
            hi: base + length,
            lo2: base2,
            hi2: base2 + length2,
        }),
        _ => None,
    }
}

/// `handle.slice`.
#[inline(always)]
fn slice_of<S: SegmentMemory>(segments: &S, operands: &mut Operands) -> Result<Option<Event>, Fault>
    requires there { segment_on instr.Slice (S.memory segments.now) operands.old ≢ Stuck }
    requires fit { Each (Fits (S.memory segments.now)) operands.old }
    ensures { DoesInSegments (segment_on instr.Slice (S.memory segments.now) operands.old) operands.old operands.new (S.memory segments.now) (S.memory segments.now) result }
{
    let _ = segments;
    let (Value::I32(len), Value::I32(from)) = (operands.get(0), operands.get(1)) else {
        unreachable!()
    };
    let Value::Handle(handle) = operands.get(2) else {
        unreachable!()
    };
    let part = slice(handle, from, len);
    operands.cut(2);
    operands.set_top(Value::Handle(part));
    Ok(event_of_slice(handle, part))
}

/// `handle.eq`.
#[inline(always)]
fn are_equal<S: SegmentMemory>(
    segments: &S,
    operands: &mut Operands,
) -> Result<Option<Event>, Fault>
    requires there { segment_on instr.Eq (S.memory segments.now) operands.old ≢ Stuck }
    requires fit { Each (Fits (S.memory segments.now)) operands.old }
    ensures does { DoesInSegments (segment_on instr.Eq (S.memory segments.now) operands.old) operands.old operands.new (S.memory segments.now) (S.memory segments.now) result }
    ensures still { IsStill operands.old operands.new result }
{
    let _ = segments;
    let (Value::Handle(b), Value::Handle(a)) = (operands.get(0), operands.get(1)) else {
        unreachable!()
    };
    operands.pop();
    operands.set_top(Value::I32(u32::from(eq(a, b))));
    Ok(None)
}

/// `handle.is_null`.
#[inline(always)]
fn is_null<S: SegmentMemory>(segments: &S, operands: &mut Operands) -> Result<Option<Event>, Fault>
    requires there { segment_on instr.IsNull (S.memory segments.now) operands.old ≢ Stuck }
    ensures does { DoesInSegments (segment_on instr.IsNull (S.memory segments.now) operands.old) operands.old operands.new (S.memory segments.now) (S.memory segments.now) result }
    ensures still { IsStill operands.old operands.new result }
{
    let _ = segments;
    let Value::Handle(handle) = operands.get(0) else {
        unreachable!()
    };
    operands.set_top(Value::I32(u32::from(matches!(handle, Handle::Null))));
    Ok(None)
}

/// `handle.diff`.
#[inline(always)]
fn difference<S: SegmentMemory>(
    segments: &S,
    operands: &mut Operands,
) -> Result<Option<Event>, Fault>
    requires there { segment_on instr.Diff (S.memory segments.now) operands.old ≢ Stuck }
    requires fit { Each (Fits (S.memory segments.now)) operands.old }
    ensures does { DoesInSegments (segment_on instr.Diff (S.memory segments.now) operands.old) operands.old operands.new (S.memory segments.now) (S.memory segments.now) result }
    ensures still { IsStill operands.old operands.new result }
{
    let _ = segments;
    let (Value::Handle(b), Value::Handle(a)) = (operands.get(0), operands.get(1)) else {
        unreachable!()
    };
    match diff(a, b) {
        Ok(distance) => {
            operands.pop();
            operands.set_top(Value::I64(distance.cast_unsigned()));
            Ok(None)
        }
        Err(_) => Err(Fault::Trap(TrapKind::Apart)),
    }
}

/// `handle.load`.
#[inline(always)]
fn load_handle<S: SegmentMemory>(
    segments: &mut S,
    operands: &mut Operands,
) -> Result<Option<Event>, Fault>
    requires there { segment_on instr.LoadHandle (S.memory segments.old) operands.old ≢ Stuck }
    requires fit { Each (Fits (S.memory segments.old)) operands.old }
    ensures { DoesInSegments (segment_on instr.LoadHandle (S.memory segments.old) operands.old) operands.old operands.new (S.memory segments.old) (S.memory segments.new) result }
{
    let Value::Handle(handle) = operands.get(0) else {
        unreachable!()
    };
    match segments.load_handle(handle) {
        Ok((value, event)) => {
            operands.set_top(Value::Handle(value));
            Ok(Some(event))
        }
        Err(trap) => Err(Fault::Trap(of_segment(trap))),
    }
}

/// `handle.store`.
#[inline(always)]
fn store_handle<S: SegmentMemory>(
    segments: &mut S,
    operands: &mut Operands,
) -> Result<Option<Event>, Fault>
    requires there { segment_on instr.StoreHandle (S.memory segments.old) operands.old ≢ Stuck }
    requires fit { Each (Fits (S.memory segments.old)) operands.old }
    ensures { DoesInSegments (segment_on instr.StoreHandle (S.memory segments.old) operands.old) operands.old operands.new (S.memory segments.old) (S.memory segments.new) result }
{
    let (Value::Handle(value), Value::Handle(place)) = (operands.get(0), operands.get(1)) else {
        unreachable!()
    };
    match segments.store_handle(place, value) {
        Ok(event) => {
            operands.cut(2);
            Ok(Some(event))
        }
        Err(trap) => Err(Fault::Trap(of_segment(trap))),
    }
}

/// What the sealing of a handle tells.
fn event_of_seal(handle: Handle) -> Option<Event>
    requires { HasBounds handle }
    ensures { result ≡ seal_event handle }
{
    match handle {
        Handle::Good {
            sealed: false,
            id,
            base,
            length,
            ..
        } => Some(Event::Seal {
            id,
            lo: base,
            hi: base + length,
        }),
        _ => None,
    }
}

/// `handle.seal`.
fn seal_top<S: SegmentMemory>(segments: &S, operands: &mut Operands) -> Result<Option<Event>, Fault>
    requires there { segment_on instr.Seal (S.memory segments.now) operands.old ≢ Stuck }
    requires fit { Each (Fits (S.memory segments.now)) operands.old }
    ensures { DoesInSegments (segment_on instr.Seal (S.memory segments.now) operands.old) operands.old operands.new (S.memory segments.now) (S.memory segments.now) result }
{
    let _ = segments;
    let Value::Handle(handle) = operands.get(0) else {
        unreachable!()
    };
    operands.set_top(Value::Handle(seal(handle)));
    Ok(event_of_seal(handle))
}

/// `i32.segload` and its kin.
#[inline(always)]
fn load<S: SegmentMemory>(
    op: LoadOp,
    segments: &mut S,
    operands: &mut Operands,
) -> Result<Option<Event>, Fault>
    requires there { segment_on (instr.Load op) (S.memory segments.old) operands.old ≢ Stuck }
    requires fit { Each (Fits (S.memory segments.old)) operands.old }
    ensures { DoesInSegments (segment_on (instr.Load op) (S.memory segments.old) operands.old) operands.old operands.new (S.memory segments.old) (S.memory segments.new) result }
{
    let Value::Handle(handle) = operands.get(0) else {
        unreachable!()
    };
    match segments.load(handle, op.bytes()) {
        Ok((number, event)) => {
            operands.set_top_cell(value_of(op, number));
            Ok(Some(event))
        }
        Err(trap) => Err(Fault::Trap(of_segment(trap))),
    }
}

/// `i32.segstore` and its kin.
#[inline(always)]
fn store<S: SegmentMemory>(
    op: StoreOp,
    segments: &mut S,
    operands: &mut Operands,
) -> Result<Option<Event>, Fault>
    requires there { segment_on (instr.Store op) (S.memory segments.old) operands.old ≢ Stuck }
    requires fit { Each (Fits (S.memory segments.old)) operands.old }
    ensures { DoesInSegments (segment_on (instr.Store op) (S.memory segments.old) operands.old) operands.old operands.new (S.memory segments.old) (S.memory segments.new) result }
{
    let number = number_for(op, operands.cell(0));
    let Value::Handle(handle) = operands.get(1) else {
        unreachable!()
    };
    match segments.store(handle, op.bytes(), number) {
        Ok(event) => {
            operands.cut(2);
            Ok(Some(event))
        }
        Err(trap) => Err(Fault::Trap(of_segment(trap))),
    }
}

// ---- the same, where what is told is only counted

/// What came of an instruction whose event is only counted.
#[derive(Clone, Copy)]
pub(crate) enum Told {
    /// It was carried out, and its event, if there was one, is counted.
    Done,
    /// It was not carried out. Nothing has changed.
    Not,
    /// Memory has run out.
    Memory,
}

/// An instruction on handles and segments, where what it tells is only counted.
///
/// Loads and stores have functions of their own, in which an event is counted where it is made.
#[inline(always)]
pub(crate) fn segment_counted<S: SegmentMemory>(
    i: Segment,
    segments: &mut S,
    operands: &mut Operands,
    tally: &mut Tally,
) -> Told
    requires there { segment_on i (S.memory segments.old) operands.old ≢ Stuck }
    requires few { (S.memory segments.old).made < 2 ^ 63 }
    requires fit { Each (Fits (S.memory segments.old)) operands.old }
    requires room { LeavesRoom 1 tally.old }
    ensures { DoesCounted (segment_on i (S.memory segments.old) operands.old) operands.old operands.new (S.memory segments.old) (S.memory segments.new) tally.old tally.new result }
{
    match i {
        Segment::Load(op) => load_counted(op, segments, operands, tally),
        Segment::Store(op) => store_counted(op, segments, operands, tally),
        Segment::LoadHandle => load_handle_counted(segments, operands, tally),
        Segment::StoreHandle => store_handle_counted(segments, operands, tally),
        Segment::Slice => slice_counted(segments, operands, tally),
        _ => others_counted(i, segments, operands, tally),
    }
}

/// Counts what was told.
#[inline(always)]
fn counted(outcome: Result<Option<Event>, Fault>, tally: &mut Tally) -> Told
    requires { LeavesRoom 1 tally.old }
    ensures { CountsTold outcome tally.old tally.new result }
{
    match outcome {
        Ok(None) => Told::Done,
        Ok(Some(event)) => {
            tally.count(event);
            Told::Done
        }
        Err(Fault::Trap(_)) => Told::Not,
        Err(Fault::Host(_)) => Told::Not,
        Err(Fault::Memory) => Told::Memory,
    }
}

/// Any instruction.
#[inline(always)]
#[tactic(auto, using(crate::proofs::Counted::counted_does))]
fn others_counted<S: SegmentMemory>(
    i: Segment,
    segments: &mut S,
    operands: &mut Operands,
    tally: &mut Tally,
) -> Told
    requires there { segment_on i (S.memory segments.old) operands.old ≢ Stuck }
    requires few { (S.memory segments.old).made < 2 ^ 63 }
    requires fit { Each (Fits (S.memory segments.old)) operands.old }
    requires room { LeavesRoom 1 tally.old }
    ensures { DoesCounted (segment_on i (S.memory segments.old) operands.old) operands.old operands.new (S.memory segments.old) (S.memory segments.new) tally.old tally.new result }
{
    counted(segment(i, segments, operands), tally)
}

/// `handle.load`.
#[inline(never)]
#[tactic(auto, using(crate::proofs::Counted::counted_does))]
fn load_handle_counted<S: SegmentMemory>(
    segments: &mut S,
    operands: &mut Operands,
    tally: &mut Tally,
) -> Told
    requires there { segment_on instr.LoadHandle (S.memory segments.old) operands.old ≢ Stuck }
    requires fit { Each (Fits (S.memory segments.old)) operands.old }
    requires room { LeavesRoom 1 tally.old }
    ensures { DoesCounted (segment_on instr.LoadHandle (S.memory segments.old) operands.old) operands.old operands.new (S.memory segments.old) (S.memory segments.new) tally.old tally.new result }
{
    counted(load_handle(segments, operands), tally)
}

/// `handle.store`.
#[inline(never)]
#[tactic(auto, using(crate::proofs::Counted::counted_does))]
fn store_handle_counted<S: SegmentMemory>(
    segments: &mut S,
    operands: &mut Operands,
    tally: &mut Tally,
) -> Told
    requires there { segment_on instr.StoreHandle (S.memory segments.old) operands.old ≢ Stuck }
    requires fit { Each (Fits (S.memory segments.old)) operands.old }
    requires room { LeavesRoom 1 tally.old }
    ensures { DoesCounted (segment_on instr.StoreHandle (S.memory segments.old) operands.old) operands.old operands.new (S.memory segments.old) (S.memory segments.new) tally.old tally.new result }
{
    counted(store_handle(segments, operands), tally)
}

/// `handle.slice`.
#[inline(never)]
#[tactic(auto, using(crate::proofs::Counted::counted_does))]
fn slice_counted<S: SegmentMemory>(segments: &S, operands: &mut Operands, tally: &mut Tally) -> Told
    requires there { segment_on instr.Slice (S.memory segments.now) operands.old ≢ Stuck }
    requires fit { Each (Fits (S.memory segments.now)) operands.old }
    requires room { LeavesRoom 1 tally.old }
    ensures { DoesCounted (segment_on instr.Slice (S.memory segments.now) operands.old) operands.old operands.new (S.memory segments.now) (S.memory segments.now) tally.old tally.new result }
{
    counted(slice_of(segments, operands), tally)
}

/// `i32.segload` and its kin.
///
/// The operations are told apart here, so that each is a constant in what is done with it.
#[inline(never)]
fn load_counted<S: SegmentMemory>(
    op: LoadOp,
    segments: &mut S,
    operands: &mut Operands,
    tally: &mut Tally,
) -> Told
    requires there { segment_on (instr.Load op) (S.memory segments.old) operands.old ≢ Stuck }
    requires fit { Each (Fits (S.memory segments.old)) operands.old }
    requires room { LeavesRoom 1 tally.old }
    ensures { DoesCounted (segment_on (instr.Load op) (S.memory segments.old) operands.old) operands.old operands.new (S.memory segments.old) (S.memory segments.new) tally.old tally.new result }
{
    match op {
        LoadOp::I32Load => load_counted_by(LoadOp::I32Load, segments, operands, tally),
        LoadOp::I64Load => load_counted_by(LoadOp::I64Load, segments, operands, tally),
        LoadOp::I32Load8S => load_counted_by(LoadOp::I32Load8S, segments, operands, tally),
        LoadOp::I32Load8U => load_counted_by(LoadOp::I32Load8U, segments, operands, tally),
        LoadOp::I32Load16S => load_counted_by(LoadOp::I32Load16S, segments, operands, tally),
        LoadOp::I32Load16U => load_counted_by(LoadOp::I32Load16U, segments, operands, tally),
        LoadOp::I64Load8S => load_counted_by(LoadOp::I64Load8S, segments, operands, tally),
        LoadOp::I64Load8U => load_counted_by(LoadOp::I64Load8U, segments, operands, tally),
        LoadOp::I64Load16S => load_counted_by(LoadOp::I64Load16S, segments, operands, tally),
        LoadOp::I64Load16U => load_counted_by(LoadOp::I64Load16U, segments, operands, tally),
        LoadOp::I64Load32S => load_counted_by(LoadOp::I64Load32S, segments, operands, tally),
        LoadOp::I64Load32U => load_counted_by(LoadOp::I64Load32U, segments, operands, tally),
    }
}

/// The same, by one operation.
#[inline(always)]
fn load_counted_by<S: SegmentMemory>(
    op: LoadOp,
    segments: &mut S,
    operands: &mut Operands,
    tally: &mut Tally,
) -> Told
    requires there { segment_on (instr.Load op) (S.memory segments.old) operands.old ≢ Stuck }
    requires fit { Each (Fits (S.memory segments.old)) operands.old }
    requires room { LeavesRoom 1 tally.old }
    ensures { DoesCounted (segment_on (instr.Load op) (S.memory segments.old) operands.old) operands.old operands.new (S.memory segments.old) (S.memory segments.new) tally.old tally.new result }
{
    let Some(handle) = operands.cell(0).good() else {
        return Told::Not;
    };
    match segments.load(handle, op.bytes()) {
        Ok((number, event)) => {
            operands.set_top_cell(value_of(op, number));
            tally.count(event);
            Told::Done
        }
        Err(_) => Told::Not,
    }
}

/// `i32.segstore` and its kin. The operations are told apart in the same way.
#[inline(never)]
fn store_counted<S: SegmentMemory>(
    op: StoreOp,
    segments: &mut S,
    operands: &mut Operands,
    tally: &mut Tally,
) -> Told
    requires there { segment_on (instr.Store op) (S.memory segments.old) operands.old ≢ Stuck }
    requires fit { Each (Fits (S.memory segments.old)) operands.old }
    requires room { LeavesRoom 1 tally.old }
    ensures { DoesCounted (segment_on (instr.Store op) (S.memory segments.old) operands.old) operands.old operands.new (S.memory segments.old) (S.memory segments.new) tally.old tally.new result }
{
    match op {
        StoreOp::I32Store => store_counted_by(StoreOp::I32Store, segments, operands, tally),
        StoreOp::I64Store => store_counted_by(StoreOp::I64Store, segments, operands, tally),
        StoreOp::I32Store8 => store_counted_by(StoreOp::I32Store8, segments, operands, tally),
        StoreOp::I32Store16 => store_counted_by(StoreOp::I32Store16, segments, operands, tally),
        StoreOp::I64Store8 => store_counted_by(StoreOp::I64Store8, segments, operands, tally),
        StoreOp::I64Store16 => store_counted_by(StoreOp::I64Store16, segments, operands, tally),
        StoreOp::I64Store32 => store_counted_by(StoreOp::I64Store32, segments, operands, tally),
    }
}

/// The same, by one operation.
#[inline(always)]
fn store_counted_by<S: SegmentMemory>(
    op: StoreOp,
    segments: &mut S,
    operands: &mut Operands,
    tally: &mut Tally,
) -> Told
    requires there { segment_on (instr.Store op) (S.memory segments.old) operands.old ≢ Stuck }
    requires fit { Each (Fits (S.memory segments.old)) operands.old }
    requires room { LeavesRoom 1 tally.old }
    ensures { DoesCounted (segment_on (instr.Store op) (S.memory segments.old) operands.old) operands.old operands.new (S.memory segments.old) (S.memory segments.new) tally.old tally.new result }
{
    let number = number_for(op, operands.cell(0));
    let Some(handle) = operands.cell(1).good() else {
        return Told::Not;
    };
    match segments.store(handle, op.bytes(), number) {
        Ok(event) => {
            operands.cut(2);
            tally.count(event);
            Told::Done
        }
        Err(_) => Told::Not,
    }
}
