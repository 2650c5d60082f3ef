//! A work list: addresses that are marked, and ranges of others that are still to be looked at.

ghost use Rattle.std.specs.Prelude.{◌≡◌, ◌<◌, ◌≤◌, ◌^◌, ◌+◌, ◌-◌, ◌++◌, ◌∷◌, ℕ, [], Some, None, false, true, OnOk, MatchOption, length, replicate, slice_get, slice_set, Contains};
ghost use Rattle.ms_live.specs.declared.gaps.Live.{Live as LiveSegment};
ghost use Rattle.ms_tagged.specs.Bytes.{held_at, range};
ghost use Rattle.ms_reach.specs.Count.{IsCount};
ghost use Rattle.ms_reach.specs.refinement.Closing.{Adds, AddsHeld, Advances, Gathers, HasMark, IsOver, State};
ghost use Rattle.ms_reach.specs.refinement.Leading.{EndBelow, IsInside, IsRising, IsValueInside, range_of};
ghost use Rattle.ms_reach.specs.refinement.Marking.{AllMarked, trues};

use crate::leading::{Range, range_of};
use crate::marked::Marked;
use ms_handle::Handle;
use ms_linear::Value;
use ms_live::{Gaps, Live};
use ms_segment::Segments;
use ms_tagged::Tagged;
use std::alloc::{AllocError, Global};
use std::marker::Model;

/// What is known to be reached: bytes that are marked, each of which was looked at, and ranges of bytes that are to be looked at.
#[derive(Drop)]
pub struct Closing {
    marked: Marked,
    todo: Vec<Range>,
}

impl Model for Closing {
    ghost use Rattle.ms_reach.specs.refinement.Closing.{State};

    ghost Value = { State };

    ghost view = { λ c. record { marks = c.marked; todo = c.todo.items } };
}

impl Closing {
    /// Nothing is known of so many addresses.
    pub fn new(alloc: Global, n: u32) -> Self
        ensures { result ≡ record { marks = replicate n false; todo = [] } }
    {
        Closing {
            marked: Marked::new(alloc, n),
            todo: Vec::new(alloc),
        }
    }

    /// How many bytes are marked.
    pub fn count(&self) -> u32
        ensures { result ≡ trues self.now.marks }
    {
        self.marked.count()
    }

    /// How many of the segments have a byte that is marked.
    pub fn touched(&self, live: &[Live]) -> u32
        requires few { length live.now < 2 ^ 32 }
        requires covers { EndBelow live.now (length self.now.marks) }
        ensures { IsCount (HasMark self.now.marks live.now) result }
    {
        let mut count = 0;
        for i in 0..live.len() {
            if self.touches(live[i]) {
                count += 1;
            }
        }
        count
    }

    /// Whether a byte of the segment is marked.
    fn touches(&self, segment: Live) -> bool
        requires { segment.base + segment.size ≤ length self.now.marks }
        ensures some { result ≡ true → (k : ℕ) × (segment.base ≤ k) × (k < segment.base + segment.size) × (slice_get self.now.marks k ≡ Some true) }
        ensures none { result ≡ false → (k : ℕ) → segment.base ≤ k → k < segment.base + segment.size → slice_get self.now.marks k ≡ Some false }
    {
        let from = segment.base as usize;
        self.marked.any(from, from + segment.size as usize)
    }

    /// What a value leads to is to be looked at.
    pub fn add_value(&mut self, live: &[Live], value: Value) -> Result<(), AllocError>
        requires rising { IsRising live.now }
        requires end { EndBelow live.now (2 ^ 32 - 1) }
        requires inside { IsValueInside live.now value }
        ensures { OnOk result (Gathers live.now (value ∷ []) self.old self.new) }
    {
        let Value::Handle(handle) = value else {
            return Ok(());
        };
        self.add(live, handle)
    }

    /// What a handle leads to is to be looked at. The pieces of a handle stand side by side, so that a range is often the last one
    /// again.
    fn add(&mut self, live: &[Live], handle: Handle) -> Result<(), AllocError>
        requires rising { IsRising live.now }
        requires end { EndBelow live.now (2 ^ 32 - 1) }
        requires inside { IsInside live.now handle }
        ensures marks { self.new.marks ≡ self.old.marks }
        ensures todo { OnOk result (Adds (range_of live.now handle) self.old.todo self.new.todo) }
    {
        let Some(range) = range_of(live, handle) else {
            return Ok(());
        };
        if self.is_last(range) {
            return Ok(());
        }
        self.todo.push(range)?;
        Ok(())
    }

    /// Whether the range is the last one that is to be looked at.
    fn is_last(&self, range: Range) -> bool
        ensures { result ≡ true → Contains self.now.todo range }
    {
        match self.todo.last() {
            Some(last) => *last == range,
            None => false,
        }
    }

    /// Looks at all that is to be looked at, and at all that this leads to.
    pub fn close<G: Gaps, T: Tagged>(
        &mut self,
        segments: &Segments<G, T>,
        live: &[Live],
    ) -> Result<(), AllocError>
        requires over { IsOver segments.now self.old }
        requires live { live.now ≡ segments.now.live }
        ensures closed { OnOk result (Advances segments.now self.old 0 0 self.new 0 0) }
        ensures done { OnOk result (self.new.todo ≡ []) }
    {
        while let Some(range) = self.take() {
            self.follow(segments, live, range)?;
        }
        Ok(())
    }

    /// Takes a range that is to be looked at.
    fn take(&mut self) -> Option<Range>
        ensures marks { self.new.marks ≡ self.old.marks }
        ensures taken { MatchOption result ((self.old.todo ≡ []) × (self.new.todo ≡ [])) (λ r. self.old.todo ≡ self.new.todo ++ r ∷ []) }
    {
        self.todo.pop()
    }

    /// Looks at the bytes of a range that aren't marked.
    fn follow<G: Gaps, T: Tagged>(
        &mut self,
        segments: &Segments<G, T>,
        live: &[Live],
        range: Range,
    ) -> Result<(), AllocError>
        requires over { IsOver segments.now self.old }
        requires live { live.now ≡ segments.now.live }
        requires order { range.from ≤ range.to }
        requires within { range.to ≤ length self.old.marks }
        ensures { OnOk result (Advances segments.now self.old range.from range.to self.new 0 0) }
    {
        let mut at = self.next(range.from, range.to);
        while at < range.to {
            self.visit(segments, live, at)?;
            at = self.next(at + 1, range.to);
        }
        Ok(())
    }

    /// The first address from one on that isn't marked, below another; that other one where there is none.
    fn next(&mut self, from: u32, to: u32) -> u32
        requires order { from ≤ to }
        requires within { to ≤ length self.old.marks }
        ensures state { self.new ≡ self.old }
        ensures from { from ≤ result }
        ensures to { result ≤ to }
        ensures marked { AllMarked self.old.marks from result }
        ensures first { result < to → slice_get self.old.marks result ≡ Some false }
    {
        self.marked.next(from as usize, to as usize) as u32
    }

    /// Marks a byte, and looks at it: what the handle of which it is a piece leads to is to be looked at, too.
    fn visit<G: Gaps, T: Tagged>(
        &mut self,
        segments: &Segments<G, T>,
        live: &[Live],
        at: u32,
    ) -> Result<(), AllocError>
        requires over { IsOver segments.now self.old }
        requires live { live.now ≡ segments.now.live }
        requires free { slice_get self.old.marks at ≡ Some false }
        ensures marks { OnOk result (self.new.marks ≡ slice_set self.old.marks at true) }
        ensures todo { OnOk result (AddsHeld segments.now.live (held_at (range at 1 segments.now.bytes)) self.old.todo self.new.todo) }
    {
        self.mark(at)?;
        match segments.held(at) {
            Some(handle) => self.add(live, handle),
            None => Ok(()),
        }
    }

    /// Marks an address.
    fn mark(&mut self, at: u32) -> Result<(), AllocError>
        requires { slice_get self.old.marks at ≡ Some false }
        ensures marks { OnOk result (self.new.marks ≡ slice_set self.old.marks at true) }
        ensures todo { self.new.todo ≡ self.old.todo }
    {
        self.marked.mark(at as usize)
    }
}
