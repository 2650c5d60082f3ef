//! The locals of all calls that are open.

// The locals of all frames, one frame's after another's.

ghost use Rattle.std.specs.Prelude.{◌≡◌, ℕ, ◌+◌, ◌<◌, ◌≤◌, [], ◌++◌, ◌∷◌, length, drop, map, reverse, take, slice_get, slice_set, false, IfOk, IfSome, IsTrue, OnOk, OnErr, Some};
ghost use Rattle.ms_linear.specs.Values.{default_of};
ghost use Rattle.ms_linear.specs.declared.value.Value.{Value};

use crate::far::{Far, NEAR, Written, count_of, cut, first_near, last, push, read};
use crate::locals::SharedLocals;
use crate::near::fill;
use ms_linear::{Cell, Operands, Room};
use std::alloc::{AllocError, Global};
use std::marker::Model;

/// The locals of the kept frames, and those of the current frame.
///
/// Of each frame the arguments and the first declared locals are near: one after the other in a vector. The far ones, which
/// are behind them, have a place once they are written, and are what a local is at first until then. So a call takes time by
/// its arguments and near locals alone.
#[derive(Drop)]
pub struct Frames {
    /// The near locals of all frames.
    items: Vec<Cell>,
    /// The far locals of those frames that have them.
    far: Vec<Far>,
    /// For each far local, the place of what was written to it.
    directory: Vec<u32>,
    /// What was written to far locals.
    written: Vec<Written>,
    /// Where the near locals of the current frame begin, which are the last ones.
    start: usize,
    /// How many locals lie below the current frame.
    base: usize,
    /// How many locals all frames have.
    len: usize,
    room: Room,
}

impl Model for Frames {
    ghost use Rattle.std.specs.Prelude.{List, length, reverse};
    ghost use Rattle.ms_linear.specs.declared.value.Value.{Value as V};
    ghost use Rattle.ms_task.specs.refinement.Frames.{AreLaid, split, whole};

    ghost Value = { List V × List V };

    ghost view = { λ l. split l.base (whole l.far.items l.items.items l.directory.items l.written.items l.len) };

    ghost invariant = { λ l. AreLaid (reverse l.far.items) (length l.items.items) (length l.directory.items) (length l.written.items) l.start l.base l.len };
}

impl Frames {
    /// No frames, which will take their memory of a room. Takes none yet.
    pub fn new(alloc: Global, room: Room) -> Self
        ensures { result ≡ ([], []) }
    {
        Frames {
            items: Vec::new(alloc),
            far: Vec::new(alloc),
            directory: Vec::new(alloc),
            written: Vec::new(alloc),
            start: 0,
            base: 0,
            len: 0,
            room,
        }
    }

    /// The local of this index of the current frame, where it is near.
    #[inline(always)]
    pub fn get_near(&self, i: usize) -> Option<Cell>
        requires { i < length self.now.1 }
        ensures { IfSome result (λ v. slice_get self.now.1 i ≡ Some v) }
    {
        let at = self.start.checked_add(i)?;
        if at < self.items.len() {
            return Some(self.items[at]);
        }
        None
    }

    /// Puts the local of this index of the current frame on top of operands. It fails as that does; then nothing has changed.
    #[inline(never)]
    pub fn push_to(&self, i: usize, operands: &mut Operands) -> Result<(), AllocError>
        requires { i < length self.now.1 }
        ensures ok { OnOk result ((v : Value) × (slice_get self.now.1 i ≡ Some v) × (operands.new ≡ v ∷ operands.old)) }
        ensures err { OnErr result (operands.new ≡ operands.old) }
    {
        operands.push_cell(self.get(i))
    }

    /// The local of this index of the current frame.
    fn get(&self, i: usize) -> Cell
        requires { i < length self.now.1 }
        ensures { slice_get self.now.1 i ≡ Some result }
    {
        let behind = self.len - self.base - i;
        read(
            &self.items,
            &self.far,
            &self.directory,
            &self.written,
            self.len - behind,
        )
    }

    /// How many locals the current frame has.
    pub fn len(&self) -> usize
        ensures { result ≡ length self.now.1 }
    {
        self.len - self.base
    }

    /// How many locals all frames have.
    pub fn total(&self) -> usize
        ensures { result ≡ length (self.now.0 ++ self.now.1) }
    {
        self.len
    }

    /// The local of this number of all frames: those of the kept ones, and behind them those of the current one.
    pub fn local(&self, p: usize) -> Cell
        requires { p < length (self.now.0 ++ self.now.1) }
        ensures { slice_get (self.now.0 ++ self.now.1) p ≡ Some result }
    {
        read(&self.items, &self.far, &self.directory, &self.written, p)
    }

    /// How many locals the kept frames have.
    pub fn base(&self) -> usize
        ensures { result ≡ length self.now.0 }
    {
        self.base
    }

    /// Writes the local of this index of the current frame where it is near, and says whether it is; else nothing has changed.
    #[inline(always)]
    fn set_near(&mut self, i: usize, v: Cell) -> bool
        requires { i < length self.old.1 }
        ensures near { IsTrue result → self.new ≡ (self.old.0, slice_set self.old.1 i v) }
        ensures far { result ≡ false → self.new ≡ self.old }
    {
        let Some(at) = self.start.checked_add(i) else {
            return false;
        };
        if at < self.items.len() {
            self.items[at] = v;
            return true;
        }
        false
    }

    /// Writes the topmost operand to the local of this index of the current frame. It fails where that isn't near and its memory or
    /// room has ended; then nothing has changed.
    #[inline(always)]
    pub fn set_to_top(&mut self, i: usize, operands: &Operands) -> Result<(), AllocError>
        requires index { i < length self.old.1 }
        requires some { 0 < length operands.now }
        ensures ok { OnOk result ((v : Value) → slice_get operands.now 0 ≡ Some v → self.new ≡ (self.old.0, slice_set self.old.1 i v)) }
        ensures err { OnErr result (self.new ≡ self.old) }
    {
        if self.set_near(i, operands.cell(0)) {
            return Ok(());
        }
        self.set_far_to_top(i, operands)
    }

    /// The same of a local that isn't near.
    #[inline(never)]
    fn set_far_to_top(&mut self, i: usize, operands: &Operands) -> Result<(), AllocError>
        requires index { i < length self.old.1 }
        requires some { 0 < length operands.now }
        ensures ok { OnOk result ((v : Value) → slice_get operands.now 0 ≡ Some v → self.new ≡ (self.old.0, slice_set self.old.1 i v)) }
        ensures err { OnErr result (self.new ≡ self.old) }
    {
        self.set_far(i, operands.cell(0))
    }

    /// Writes the local of this index of the current frame, which isn't near. It fails where its memory or room has ended; then
    /// nothing has changed.
    fn set_far(&mut self, i: usize, v: Cell) -> Result<(), AllocError>
        requires { i < length self.old.1 }
        ensures ok { OnOk result (self.new ≡ (self.old.0, slice_set self.old.1 i v)) }
        ensures err { OnErr result (self.new ≡ self.old) }
    {
        let p = self.base + i;
        let Some((f, _)) = last(&self.far) else {
            return Err(AllocError);
        };
        if p < f.first || f.end <= p {
            return Err(AllocError);
        }
        f.put(
            &mut self.directory,
            &mut self.written,
            &self.room,
            p - f.first,
            v,
        )
    }

    /// Opens a frame, with so many operands as arguments, of which the last is topmost, and declared locals. It gives how many
    /// locals lay below the frame that was current.
    #[inline(always)]
    pub(crate) fn open(
        &mut self,
        operands: &Operands,
        n: usize,
        types: &SharedLocals,
    ) -> Result<usize, AllocError>
        requires { n ≤ length operands.now }
        ensures base { IfOk result (λ base. base ≡ length self.old.0) }
        ensures locals { OnOk result (self.new ≡ (self.old.0 ++ self.old.1, reverse (take n operands.now) ++ map default_of types.now)) }
    {
        if !self.far.is_empty() {
            return self.open_far(operands, n, types);
        }
        let declared = types.len();
        if declared > NEAR as usize {
            return self.open_far(operands, n, types);
        }
        let kept = self.base;
        let start = self.items.len();
        if self.len != start {
            return Err(AllocError);
        }
        let Some(near) = n.checked_add(declared) else {
            return Err(AllocError);
        };
        self.room.reserve(&mut self.items, near, size_of::<Cell>())?;
        fill(&mut self.items, operands, n, types);
        self.start = start;
        self.base = start;
        self.len = self.items.len();
        Ok(kept)
    }

    /// The same where a frame has far locals, or this one will.
    #[inline(never)]
    fn open_far(
        &mut self,
        operands: &Operands,
        n: usize,
        types: &SharedLocals,
    ) -> Result<usize, AllocError>
        requires { n ≤ length operands.now }
        ensures base { IfOk result (λ base. base ≡ length self.old.0) }
        ensures locals { OnOk result (self.new ≡ (self.old.0 ++ self.old.1, reverse (take n operands.now) ++ map default_of types.now)) }
    {
        let kept = self.base;
        let below = self.len;
        let start = self.items.len();
        let hidden = count_of(&self.far, start);
        if below < hidden || below - hidden != start {
            return Err(AllocError);
        }
        let declared = types.len();
        let Some(near) = n.checked_add(declared.min(NEAR as usize)) else {
            return Err(AllocError);
        };
        let Some(first) = below.checked_add(near) else {
            return Err(AllocError);
        };
        self.room.reserve(&mut self.items, near, size_of::<Cell>())?;
        if declared <= NEAR as usize {
            fill(&mut self.items, operands, n, types);
            self.start = start;
            self.base = below;
            self.len = first;
            return Ok(kept);
        }
        let len = push(
            &mut self.far,
            &mut self.directory,
            self.written.len(),
            &self.room,
            start + near,
            first,
            types,
        )?;
        fill(&mut self.items, operands, n, types);
        self.start = start;
        self.base = below;
        self.len = len;
        Ok(kept)
    }

    /// Leaves the current frame, for one below which so many locals lie.
    pub(crate) fn leave(&mut self, base: usize)
        ensures { self.new ≡ (take base self.old.0, drop base self.old.0) }
    {
        if !self.far.is_empty() {
            self.leave_far(base);
            return;
        }
        self.items.truncate(self.base);
        self.len = self.base;
        self.base = base.min(self.len);
        self.start = self.base;
    }

    /// The same where a frame has far locals.
    #[inline(never)]
    fn leave_far(&mut self, base: usize)
        ensures { self.new ≡ (take base self.old.0, drop base self.old.0) }
    {
        let len = self.base;
        cut(
            &mut self.far,
            &mut self.items,
            &self.directory,
            &mut self.written,
            len,
        );
        self.len = len;
        self.base = base.min(len);
        self.start = first_near(&self.far, self.items.len(), self.base);
    }
}
