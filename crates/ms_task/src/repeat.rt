//! Branches that begin a loop again, with the loop's own instruction: two steps at once (WebAssembly 1.0, 4.4.5).

ghost use Rattle.std.specs.Prelude.{◌≡◌, ◌≢◌, ◌*◌, ◌^◌, ◌<◌, IfSome, MatchOption, Option, Some, drop, length, true};
ghost use Rattle.ms_module.specs.declared.instr.Instr.TheVariants as instr;
ghost use Rattle.ms_task.specs.Control.{Repeats, Stuck, br_if_on, branch};
ghost use Rattle.ms_task.specs.Thread.{sequence};
ghost use Rattle.ms_task.specs.refinement.View.{IsLoop, again_at, at_next, frame_of, outer_of, thread_of};
ghost use Rattle.ms_types.specs.declared.types.ValType.{ValType};

use crate::func::FuncInst;
use crate::marks::Mark;
use crate::task::Task;
use ms_linear::Value;
use ms_module::Instr;

/// A loop that a branch begins again.
#[derive(Clone, Copy)]
pub(crate) struct Again<'a> {
    /// The number of operands below it.
    pub(crate) height: usize,
    /// The number of its sequence.
    pub(crate) body: u32,
    /// Its sequence, which is not empty.
    pub(crate) code: &'a [Instr],
}

impl Task {
    /// Where the label is a loop's, branches to it and begins it again. It gives the loop's sequence; `None` where it did
    /// nothing.
    #[inline(always)]
    pub fn repeat<'a>(&mut self, funcs: &'a [FuncInst], label: u32) -> Option<&'a [Instr]>
        requires { branch label (frame_of self.old) self.old.operands (outer_of funcs.now self.old) ≢ Stuck }
        ensures repeats { MatchOption result
            (self.new ≡ self.old)
            (λ code. Repeats funcs.now (branch label (frame_of self.old) self.old.operands (outer_of funcs.now self.old)) (thread_of funcs.now self.new) × (code.now ≡ sequence funcs.now self.new.function self.new.sequence) × (self.new.place < length code.now)) }
        ensures small { IfSome result (λ code. length code.now * 16 < 2 ^ 63) }
    {
        let again = self.loop_of(funcs, label)?;
        self.begin_again(funcs, label, again);
        Some(again.code)
    }

    /// The same at an operand that is not 0.
    #[inline(always)]
    pub fn repeat_if<'a>(
        &mut self,
        funcs: &'a [FuncInst],
        label: u32,
        next: usize,
    ) -> Option<&'a [Instr]>
        requires { br_if_on label (at_next funcs.now self.old next) ≢ Stuck }
        ensures repeats { MatchOption result
            (self.new ≡ self.old)
            (λ code. Repeats funcs.now (br_if_on label (at_next funcs.now self.old next)) (thread_of funcs.now self.new) × (code.now ≡ sequence funcs.now self.new.function self.new.sequence) × (self.new.place < length code.now)) }
        ensures small { IfSome result (λ code. length code.now * 16 < 2 ^ 63) }
    {
        let _ = next;
        let Value::I32(n) = self.operands.get(0) else {
            unreachable!()
        };
        if n == 0 {
            return None;
        }
        let again = self.loop_of(funcs, label)?;
        self.operands.cut(1);
        self.begin_again(funcs, label, again);
        Some(again.code)
    }

    /// The loop of a label, if it is a loop's.
    #[inline(always)]
    fn loop_of<'a>(&self, funcs: &'a [FuncInst], label: u32) -> Option<Again<'a>>
        requires { label < length self.now.marks }
        ensures { IfSome result (IsLoop funcs.now self.now label) }
    {
        let Mark::Label {
            keeps: None,
            height,
            sequence,
            next,
            again: true,
        } = self.marks.get(label as usize)
        else {
            return None;
        };
        let body = self.loop_before(funcs, sequence, next)?;
        let code = self.sequence_at(funcs, body as usize);
        if code.is_empty() {
            return None;
        }
        Some(Again { height, body, code })
    }

    /// The number of the sequence of the loop that stands before a place of a sequence, if one does.
    #[inline(always)]
    fn loop_before(&self, funcs: &[FuncInst], number: usize, next: usize) -> Option<u32>
        ensures { IfSome result (λ body. (ty : Option ValType) × (again_at true next (sequence funcs.now self.now.function number) ≡ Some (instr.Loop ty body))) }
    {
        let code = self.sequence_at(funcs, number);
        if next == 0 || next > code.len() {
            return None;
        }
        match code[next - 1] {
            Instr::Loop { body, .. } => Some(body),
            _ => None,
        }
    }

    /// Goes to the beginning of a loop, whose label stays.
    #[inline(always)]
    fn begin_again(&mut self, funcs: &[FuncInst], label: u32, again: Again)
        requires branches { branch label (frame_of self.old) self.old.operands (outer_of funcs.now self.old) ≢ Stuck }
        requires there { IsLoop funcs.now self.old label again }
        ensures repeats { Repeats funcs.now (branch label (frame_of self.old) self.old.operands (outer_of funcs.now self.old)) (thread_of funcs.now self.new) }
        ensures code { again.entry.code.now ≡ sequence funcs.now self.new.function self.new.sequence }
        ensures place { self.new.place ≡ 0 }
    {
        let _ = funcs;
        self.marks.cut(label as usize);
        self.operands.cut(self.operands.len() - again.height);
        self.sequence = again.body as usize;
        self.place = 0;
    }
}
