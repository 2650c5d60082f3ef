//! The control instructions, each in a small function (WebAssembly 1.0, 4.4.5).

ghost use Rattle.std.specs.Prelude.{◌≡◌, ◌≢◌, ℕ, ◌≤◌, List, length, slice_get, unwrap_or, IsTrue, OnErr, OnOk, Option, Some, None, Err, false};
ghost use Rattle.ms_task.specs.Control.{To, Stuck, TooDeep, block_on, br_if_on, br_table_on, branch, call_on, if_on, keep, return_on};
ghost use Rattle.ms_task.specs.Thread.{sequence};
ghost use Rattle.ms_task.specs.refinement.View.{IsAt, again_at, at_next, frame_of, outer_of, resume, thread_of};
ghost use Rattle.ms_task.specs.declared.func.FuncInst.{FuncInst};
ghost use Rattle.ms_task.specs.declared.control.CallFault.{CallFault};

use crate::func::FuncInst;
use crate::marks::Mark;
use crate::task::Task;
use ms_linear::{Operands, Value};
use ms_module::BrTable;
use ms_types::ValType;
use std::alloc::AllocError;

/// How many calls may be open at once.
pub(crate) const DEEPEST: usize = 16384;

/// Why a function was not called.
#[derive(Clone, Copy, PartialEq, Eq)]
pub enum CallFault {
    /// 16,384 calls are open.
    TooDeep,
    /// Memory or the room of the tasks has run out.
    Memory,
}

impl From<AllocError> for CallFault {
    ghost from_gives = { λ _ e. e ≡ CallFault.Memory };

    fn from(_: AllocError) -> Self {
        CallFault::Memory
    }
}

/// Keeps the topmost operand, or none, and the lowest ones.
fn keep_operands(operands: &mut Operands, keeps: Option<ValType>, height: usize)
    requires { keep keeps height operands.old ≢ None }
    ensures { Some operands.new ≡ keep keeps height operands.old }
{
    match keeps {
        None => operands.cut(operands.len() - height),
        Some(_) => {
            let cell = operands.cell(0);
            operands.cut(operands.len() - 1 - height);
            operands.set_top_cell(cell);
        }
    }
}

/// Where the work goes on after a branch.
fn resume_at(again: bool, next: usize) -> usize
    ensures { result ≡ resume again next }
{
    if again { next.saturating_sub(1) } else { next }
}

/// The label for an operand.
pub(crate) fn label_at(table: &BrTable, operand: u32) -> u32
    ensures { result ≡ unwrap_or (slice_get table.now.labels operand) table.now.default }
{
    let labels = table.labels();
    if (operand as usize) < labels.len() {
        labels[operand as usize]
    } else {
        table.default()
    }
}

impl Task {
    /// Enters a sequence of the current function, behind which the work goes on at `next`. A branch to its label keeps
    /// what `keeps` says, and goes to the instruction before `next` where it is to begin again. After an error nothing has
    /// changed.
    pub fn block(
        &mut self,
        body: u32,
        keeps: Option<ValType>,
        next: usize,
        again: bool,
    ) -> Result<(), AllocError>
        ensures ok { (funcs : List FuncInst) → OnOk result (To (thread_of funcs self.new) ≡ block_on funcs body keeps (again_at again next (sequence funcs self.old.function self.old.sequence)) (at_next funcs self.old next)) }
        ensures err { OnErr result (self.new ≡ self.old) }
    {
        self.marks
            .push_label(keeps, self.operands.len(), self.sequence, next, again)?;
        self.sequence = body as usize;
        self.place = 0;
        Ok(())
    }

    /// Enters one of two sequences, by the operand.
    pub fn if_else(
        &mut self,
        funcs: &[FuncInst],
        then: u32,
        other: Option<u32>,
        ty: Option<ValType>,
        next: usize,
    ) -> Result<(), AllocError>
        requires { if_on funcs.now then other ty (at_next funcs.now self.old next) ≢ Stuck }
        ensures { OnOk result (To (thread_of funcs.now self.new) ≡ if_on funcs.now then other ty (at_next funcs.now self.old next)) }
    {
        let _ = funcs;
        let Value::I32(n) = self.operands.pop() else {
            unreachable!()
        };
        if n != 0 {
            return self.block(then, ty, next, false);
        }
        match other {
            Some(other) => self.block(other, ty, next, false),
            None => {
                self.place = next;
                Ok(())
            }
        }
    }

    /// Leaves blocks up to the label's, or the call.
    #[inline(always)]
    pub fn branch(&mut self, funcs: &[FuncInst], label: usize)
        requires { branch label (frame_of self.old) self.old.operands (outer_of funcs.now self.old) ≢ Stuck }
        ensures { To (thread_of funcs.now self.new) ≡ branch label (frame_of self.old) self.old.operands (outer_of funcs.now self.old) }
    {
        self.marks.cut(label);
        let mark = self.marks.pop();
        match mark {
            Mark::Label {
                keeps,
                height,
                sequence,
                next,
                again,
            } => {
                keep_operands(&mut self.operands, keeps, height);
                self.sequence = sequence;
                self.place = resume_at(again, next);
            }
            Mark::Activation {
                keeps,
                height,
                function,
                sequence,
                next,
                base,
                ..
            } => {
                keep_operands(&mut self.operands, keeps, height);
                self.function = function;
                self.sequence = sequence;
                self.place = next;
                self.frames.leave(base);
            }
        }
    }

    /// Branches at an operand that is not 0.
    #[inline(always)]
    pub fn branch_if(&mut self, funcs: &[FuncInst], label: u32, next: usize)
        requires { br_if_on label (at_next funcs.now self.old next) ≢ Stuck }
        ensures { To (thread_of funcs.now self.new) ≡ br_if_on label (at_next funcs.now self.old next) }
    {
        let Value::I32(n) = self.operands.pop() else {
            unreachable!()
        };
        if n != 0 {
            self.branch(funcs, label as usize);
        } else {
            self.place = next;
        }
    }

    /// Passes a branch at an operand that is not 0, where it is 0, and says whether it is; else nothing has changed. The work goes on
    /// at `next`, where the task is not put.
    #[inline(always)]
    pub fn pass(&mut self, funcs: &[FuncInst], label: u32, next: usize) -> bool
        requires { br_if_on label (at_next funcs.now self.old next) ≢ Stuck }
        ensures on { IsTrue result → To (at_next funcs.now self.new next) ≡ br_if_on label (at_next funcs.now self.old next) }
        ensures place { IsTrue result → IsAt self.old self.old.place self.new }
        ensures off { result ≡ false → self.new ≡ self.old }
    {
        let _ = funcs;
        let _ = label;
        let _ = next;
        let Value::I32(n) = self.operands.get(0) else {
            unreachable!()
        };
        if n != 0 {
            return false;
        }
        self.operands.cut(1);
        true
    }

    /// Branches to the label for the operand.
    pub fn branch_by_table(&mut self, funcs: &[FuncInst], table: &BrTable, next: usize)
        requires { br_table_on table.now.labels table.now.default (at_next funcs.now self.old next) ≢ Stuck }
        ensures { To (thread_of funcs.now self.new) ≡ br_table_on table.now.labels table.now.default (at_next funcs.now self.old next) }
    {
        let _ = next;
        let Value::I32(operand) = self.operands.pop() else {
            unreachable!()
        };
        self.branch(funcs, label_at(table, operand) as usize);
    }

    /// Leaves the current call.
    pub fn return_from(&mut self, funcs: &[FuncInst])
        requires { return_on self.old.operands (outer_of funcs.now self.old) ≢ Stuck }
        ensures { To (thread_of funcs.now self.new) ≡ return_on self.old.operands (outer_of funcs.now self.old) }
    {
        let label = self.marks.labels();
        self.branch(funcs, label);
    }

    /// Calls the function of an address, behind which the work goes on at `next`. Where that would be too deep nothing
    /// has changed.
    #[inline(always)]
    pub fn call(&mut self, funcs: &[FuncInst], address: u32, next: usize) -> Result<(), CallFault>
        requires { call_on funcs.now address (at_next funcs.now self.old next) ≢ Stuck }
        ensures ok { OnOk result (To (thread_of funcs.now self.new) ≡ call_on funcs.now address (at_next funcs.now self.old next)) }
        ensures too_deep { result ≡ Err CallFault.TooDeep → (TooDeep ≡ call_on funcs.now address (at_next funcs.now self.old next)) × (self.new ≡ self.old) }
    {
        if self.marks.depth() >= DEEPEST {
            return Err(CallFault::TooDeep);
        }
        let func = &funcs[address as usize];
        let n = func.ty.params().len();
        let base = self.frames.open(&self.operands, n, &func.locals)?;
        self.operands.cut(n);
        self.marks.push_call(
            func.result(),
            self.operands.len(),
            self.function,
            self.sequence,
            next,
            base,
        )?;
        self.function = address as usize;
        self.sequence = 0;
        self.place = 0;
        Ok(())
    }
}
