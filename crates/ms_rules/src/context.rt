//! What the instructions of a module refer to.

ghost use Rattle.std.specs.Prelude.{◌≡◌, ◌≢◌, IfOk, MatchOption, Some, length, slice_get};
ghost use Rattle.std.specs.Option.{option_copied};
ghost use Rattle.ms_types.specs.declared.types.FuncType.{FuncType};
ghost use Rattle.ms_rules.specs.Context.{context_of};

use crate::spaces::{all_globals, all_memories, all_tables, sigs_of_funcs};
use ms_module::Module;
use ms_types::{FuncType, GlobalType, Limits};
use std::alloc::{AllocError, Global};
use std::marker::Model;

/// The types that the instructions of a module refer to by indices (WebAssembly 1.0, 3.1.1).
#[derive(Drop)]
pub struct Context<'a> {
    sigs: &'a [FuncType],
    funcs: Vec<u32>,
    tables: Vec<Limits>,
    memories: Vec<Limits>,
    globals: Vec<GlobalType>,
}

impl<'a> Model for Context<'a> {
    ghost use Rattle.std.specs.Prelude.{[], None, map, slice_get};
    ghost use Rattle.ms_rules.specs.Context.{Context as Types};

    ghost Value = { Types };

    ghost view = { λ c. record {
      sigs = c.sigs.now;
      funcs = map (λ i. slice_get c.sigs.now i) c.funcs.items;
      tables = c.tables.items;
      memories = c.memories.items;
      globals = c.globals.items;
      locals = [];
      returns = None;
    } };
}

impl<'a> Context<'a> {
    /// The context of a module.
    pub fn of(alloc: Global, module: &'a Module) -> Result<Self, AllocError>
        ensures { IfOk result (λ c. c ≡ context_of «module».now) }
    {
        Ok(Context {
            sigs: module.sigs.as_slice(),
            funcs: sigs_of_funcs(alloc, module)?,
            tables: all_tables(alloc, module)?,
            memories: all_memories(alloc, module)?,
            globals: all_globals(alloc, module)?,
        })
    }

    /// The function type of this index.
    pub fn sig(&self, index: u32) -> Option<&'a FuncType>
        ensures { option_copied result ≡ slice_get self.now.sigs index }
    {
        self.sigs.get(index as usize)
    }

    /// The type of the function of this index.
    pub fn func(&self, index: u32) -> Option<&'a FuncType>
        ensures { MatchOption result ((t : FuncType) → slice_get self.now.funcs index ≢ Some (Some t)) (λ t. slice_get self.now.funcs index ≡ Some (Some t.now)) }
    {
        let sig = self.funcs.get(index as usize).copied()?;
        self.sig(sig)
    }

    /// The type of the global of this index.
    pub fn global(&self, index: u32) -> Option<GlobalType>
        ensures { result ≡ slice_get self.now.globals index }
    {
        self.globals.get(index as usize).copied()
    }

    /// How many functions there are.
    pub fn funcs_len(&self) -> usize
        ensures { result ≡ length self.now.funcs }
    {
        self.funcs.len()
    }

    /// The sizes of all tables.
    pub fn tables(&self) -> &[Limits]
        ensures { result.now ≡ self.now.tables }
    {
        self.tables.as_slice()
    }

    /// The sizes of all memories.
    pub fn memories(&self) -> &[Limits]
        ensures { result.now ≡ self.now.memories }
    {
        self.memories.as_slice()
    }

    /// The types of all globals.
    pub fn globals(&self) -> &[GlobalType]
        ensures { result.now ≡ self.now.globals }
    {
        self.globals.as_slice()
    }
}
