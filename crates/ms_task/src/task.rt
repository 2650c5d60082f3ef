//! A task, the start of one, and the places of instructions.

ghost use Rattle.std.specs.Prelude.{◌≡◌, ◌≢◌, ◌↔◌, ℕ, ◌*◌, ◌^◌, ◌<◌, List, [], ◌∷◌, Some, IfOk, IfSome, IsTrue, MatchOption, drop, length, nat_lt, slice_get};
ghost use Rattle.ms_task.specs.Control.{deepest, exited, started};
ghost use Rattle.ms_task.specs.Thread.{Begins, depth_of, sequence, with_first};
ghost use Rattle.ms_task.specs.refinement.View.{IsAt, at_next, before, frame_of, items_of, exit_one, thread_of};
ghost use Rattle.ms_task.specs.declared.func.FuncInst.{FuncInst};

use crate::control::DEEPEST;
use crate::frames::Frames;
use crate::func::FuncInst;
use crate::marks::{Mark, Marks};
use ms_linear::{Operands, Room};
use ms_module::Instr;
use std::alloc::{AllocError, Global};

/// A task: the place of its next instruction, its operands, the locals of its frames, and its open blocks and calls.
///
/// Contracts see it, among the functions of its store, as the thread `thread_of`.
#[derive(Drop)]
pub struct Task {
    pub(crate) function: usize,
    pub(crate) sequence: usize,
    pub(crate) place: usize,
    /// The operands, the last one topmost.
    pub operands: Operands,
    /// The locals of the current frame, over those of its callers.
    pub frames: Frames,
    pub(crate) marks: Marks,
}

/// The next instruction of a task.
#[derive(Clone, Copy)]
pub struct Fetched<'a> {
    /// The instruction.
    pub instr: &'a Instr,
    /// The place of what follows it.
    pub next: usize,
    /// Whether an instruction follows it in its sequence.
    pub more: bool,
}

impl Task {
    /// A task that carries out the function of an address, which has no parameters, and takes its memory of a room. It may have
    /// nothing to do.
    pub fn start(
        alloc: Global,
        room: &Room,
        funcs: &[FuncInst],
        address: u32,
    ) -> Result<Task, AllocError>
        requires { (g : FuncInst) × (slice_get funcs.now address ≡ Some g) × (g.ty.params ≡ []) }
        ensures { (g : FuncInst) → slice_get funcs.now address ≡ Some g → IfOk result (λ t. thread_of funcs.now t ≡ exited (started funcs.now address g)) }
    {
        let func = &funcs[address as usize];
        let operands = Operands::new(alloc, room.share()?);
        let mut frames = Frames::new(alloc, room.share()?);
        let base = frames.open(&operands, 0, &func.locals)?;
        let mut marks = Marks::new(alloc, room.share()?);
        marks.push_call(func.result(), 0, funcs.len(), 0, 0, base)?;
        let mut task = Task {
            function: address as usize,
            sequence: 0,
            place: 0,
            operands,
            frames,
            marks,
        };
        task.exit_ended(funcs);
        Ok(task)
    }

    /// Whether nothing is left to do.
    pub fn has_ended(&self, funcs: &[FuncInst]) -> bool
        ensures { IsTrue result ↔ ((thread_of funcs.now self.now).work ≡ []) }
    {
        self.marks.is_empty() && self.is_at_end(funcs)
    }

    /// The address of the function that is carried out.
    pub fn function(&self) -> usize
        ensures { result ≡ (frame_of self.now).function }
    {
        self.function
    }

    /// The marks of its open blocks and calls.
    pub fn marks(&self) -> &Marks
        ensures { result.now ≡ self.now.marks }
    {
        &self.marks
    }

    /// Whether one more call may be open.
    pub fn may_call(&self) -> bool
        ensures { (funcs : List FuncInst) (next : ℕ) → result ≡ nat_lt (depth_of (at_next funcs self.now next).work) deepest }
    {
        self.marks.depth() < DEEPEST
    }

    /// The next instruction.
    pub fn fetch<'a>(&self, funcs: &'a [FuncInst]) -> Fetched<'a>
        requires { Begins (thread_of funcs.now self.now).work }
        ensures instr { thread_of funcs.now self.now ≡ with_first result.instr.now (at_next funcs.now self.now result.next) }
        ensures before { before funcs.now self.now result.next ≡ Some result.instr.now }
        ensures more { IsTrue result.more → Begins (at_next funcs.now self.now result.next).work }
    {
        let sequence = funcs[self.function].body.sequence(self.sequence);
        Fetched {
            instr: &sequence[self.place],
            next: self.place + 1,
            more: sequence.len() - self.place > 1,
        }
    }

    /// The sequence in which the next instruction stands.
    #[inline(always)]
    pub fn code<'a>(&self, funcs: &'a [FuncInst]) -> &'a [Instr]
        requires { Begins (thread_of funcs.now self.now).work }
        ensures code { result.now ≡ sequence funcs.now self.now.function self.now.sequence }
        ensures within { self.now.place < length result.now }
    {
        funcs[self.function].body.sequence(self.sequence)
    }

    /// The place of the next instruction in its sequence.
    pub fn place(&self) -> usize
        ensures { result ≡ self.now.place }
    {
        self.place
    }

    /// Goes on at a place of the current sequence.
    pub fn go_to(&mut self, next: usize)
        ensures thread { (funcs : List FuncInst) → thread_of funcs self.new ≡ at_next funcs self.old next }
        ensures others { (funcs : List FuncInst) (place : ℕ) → at_next funcs self.new place ≡ at_next funcs self.old place }
        ensures place { IsAt self.old next self.new }
    {
        self.place = next;
    }

    /// Exits blocks and calls that are at their ends, and says whether nothing is left to do.
    #[inline(always)]
    pub fn exit_ended(&mut self, funcs: &[FuncInst]) -> bool
        ensures thread { thread_of funcs.now self.new ≡ exited (thread_of funcs.now self.old) }
        ensures ended { IsTrue result ↔ ((thread_of funcs.now self.new).work ≡ []) }
    {
        self.resume(funcs).is_none()
    }

    /// Exits blocks and calls that are at their ends, and gives the sequence in which the next instruction then stands, or
    /// nothing where nothing is left to do.
    #[inline(always)]
    pub fn resume<'a>(&mut self, funcs: &'a [FuncInst]) -> Option<&'a [Instr]>
        ensures thread { thread_of funcs.now self.new ≡ exited (thread_of funcs.now self.old) }
        ensures code { MatchOption result
            ((thread_of funcs.now self.new).work ≡ [])
            (λ code. (code.now ≡ sequence funcs.now self.new.function self.new.sequence) × (self.new.place < length code.now) × ((thread_of funcs.now self.new).work ≢ [])) }
        ensures small { IfSome result (λ code. length code.now * 16 < 2 ^ 63) }
    {
        let mut code = self.current(funcs);
        while self.place >= code.len() {
            if self.marks.is_empty() {
                return None;
            }
            let mark = self.marks.pop();
            self.go_on_behind(mark);
            code = self.current(funcs);
        }
        Some(code)
    }

    /// The current sequence.
    #[inline(always)]
    fn current<'a>(&self, funcs: &'a [FuncInst]) -> &'a [Instr]
        ensures { result.now ≡ sequence funcs.now self.now.function self.now.sequence }
    {
        self.sequence_at(funcs, self.sequence)
    }

    /// The sequence of this number of the current function. It has no instructions where there is no such function or
    /// sequence.
    #[inline(always)]
    pub(crate) fn sequence_at<'a>(&self, funcs: &'a [FuncInst], number: usize) -> &'a [Instr]
        ensures { result.now ≡ sequence funcs.now self.now.function number }
    {
        if self.function >= funcs.len() {
            return &[];
        }
        let body = &funcs[self.function].body;
        if number >= body.len() {
            return &[];
        }
        body.sequence(number)
    }

    /// Whether the current sequence has ended.
    fn is_at_end(&self, funcs: &[FuncInst]) -> bool
        ensures { IsTrue result ↔ (drop self.now.place (sequence funcs.now self.now.function self.now.sequence) ≡ []) }
    {
        self.place >= self.current(funcs).len()
    }

    /// Goes on behind a block or call.
    fn go_on_behind(&mut self, mark: Mark)
        ensures marks { self.new.marks ≡ self.old.marks }
        ensures thread { (funcs : List FuncInst) → thread_of funcs self.new ≡ exit_one (frame_of self.old) self.old.operands (items_of funcs self.old.function self.old.frames.0 (mark ∷ self.old.marks)) }
    {
        match mark {
            Mark::Label { sequence, next, .. } => {
                self.sequence = sequence;
                self.place = next;
            }
            Mark::Activation {
                function,
                sequence,
                next,
                base,
                ..
            } => {
                self.function = function;
                self.sequence = sequence;
                self.place = next;
                self.frames.leave(base);
            }
        }
    }
}
