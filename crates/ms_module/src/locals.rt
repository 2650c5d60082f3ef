//! The declared locals of a body, as runs of one type.

ghost use Rattle.std.specs.Prelude.{◌≡◌, ◌==◌, ◌+◌, ◌<◌, ◌^◌, ◌++◌, List, [], ◌∷◌, length, replicate, slice_get, is_ok, nat_le, OnErr, OnOk, if◌then◌else◌};
ghost use Rattle.ms_module.specs.refinement.Locals.{Differ, Rise, types_of};

use ms_types::ValType;
use std::alloc::{AllocError, Global};
use std::marker::Model;

/// Locals of one type that follow each other, from where the run before them ends.
#[derive(Clone, Copy, PartialEq, Eq)]
pub struct Run {
    /// The index behind the last one.
    pub end: u32,
    /// Their type.
    pub ty: ValType,
}

/// The types of the locals that a function declares (WebAssembly 1.0, 2.5.3), at most 2^32 - 1. Contracts see them as a
/// list; equal ones that follow each other are kept together.
#[derive(Drop)]
pub struct Locals {
    runs: Vec<Run>,
}

impl Model for Locals {
    ghost use Rattle.std.specs.Prelude.{List};
    ghost use Rattle.ms_types.specs.declared.types.ValType.{ValType};
    ghost use Rattle.ms_module.specs.refinement.Locals.{Differ, Rise, types_of};

    ghost Value = { List ValType };

    ghost view = { λ l. types_of 0 l.runs.items };

    ghost invariant = { λ l. Rise 0 l.runs.items × Differ l.runs.items };
}

impl Locals {
    /// No locals. Takes no memory.
    pub fn new(alloc: Global) -> Self
        ensures { result ≡ [] }
    {
        Locals {
            runs: Vec::new(alloc),
        }
    }

    /// How many locals there are.
    pub fn len(&self) -> usize
        ensures len { result ≡ length self.now }
        ensures few { result < 2 ^ 32 }
    {
        self.end() as usize
    }

    /// Whether there are none.
    pub fn is_empty(&self) -> bool
        ensures { result ≡ (length self.now == 0) }
    {
        self.end() == 0
    }

    /// The type of the local of this index.
    pub fn get(&self, index: u32) -> Option<ValType>
        ensures { result ≡ slice_get self.now index }
    {
        let run = self.runs.partition_point(
            |run: &Run| -> bool
                ensures { result ≡ nat_le run.now.end index }
            { run.end <= index },
        );
        self.runs.get(run).map(|run| run.ty)
    }

    /// Adds so many locals of a type at the end. After an error nothing has changed.
    pub fn push(&mut self, count: u32, ty: ValType) -> Result<(), AllocError>
        requires { length self.old + count < 2 ^ 32 }
        ensures { self.new ≡ (if is_ok result then self.old ++ replicate count ty else self.old) }
    {
        if count == 0 {
            return Ok(());
        }
        let end = self.end() + count;
        match self.runs.last_mut() {
            Some(run) if run.ty == ty => run.end = end,
            _ => add(&mut self.runs, Run { end, ty })?,
        }
        Ok(())
    }

    /// The locals as the fewest runs.
    pub fn runs(&self) -> &[Run]
        ensures types { types_of 0 result.now ≡ self.now }
        ensures rise { Rise 0 result.now }
        ensures differ { Differ result.now }
    {
        self.runs.as_slice()
    }

    /// The index behind the last local.
    fn end(&self) -> u32
        ensures { result ≡ length self.now }
    {
        match self.runs.last() {
            None => 0,
            Some(run) => run.end,
        }
    }
}

/// Adds a run. Most functions have one, which takes no more room than it needs.
fn add(runs: &mut Vec<Run>, run: Run) -> Result<(), AllocError>
    ensures items { OnOk result (runs.new.items ≡ runs.old.items ++ run ∷ []) }
    ensures err { OnErr result (runs.new.items ≡ runs.old.items) }
{
    if runs.is_empty() {
        runs.reserve_exact(1)?;
    }
    runs.push(run)?;
    Ok(())
}
