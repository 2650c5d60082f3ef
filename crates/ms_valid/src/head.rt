//! Whether a module meets every rule but those on the bodies of functions (WebAssembly 1.0, 3.4).

ghost use Rattle.std.specs.Prelude.{◌≡◌, ◌↔◌, ◌<◌, All, IfOk, IsTrue};
ghost use Rattle.ms_rules.specs.Context.{context_of};
ghost use Rattle.ms_rules.specs.Modules.{Head, ImportTyped, MemoryTyped, SigTyped, TableTyped};
ghost use Rattle.ms_valid.specs.refinement.Heads.{DeclarationsTyped, IndicesTyped, PartsTyped, StartIn};

use crate::exports::{are_names_distinct, is_export_typed};
use crate::expressions::are_expressions_typed;
use crate::limits::{is_memory_typed, is_sig_typed, is_table_typed};
use ms_module::{Func, Import, ImportDesc, Module};
use ms_rules::Context;
use ms_types::{FuncType, Limits};
use std::alloc::{AllocError, Global};

/// Whether a module is well typed but for the bodies of its functions.
pub fn is_head_typed(alloc: Global, module: &Module, context: &Context) -> Result<bool, AllocError>
    requires { context.now ≡ context_of «module».now }
    ensures { IfOk result (λ b. IsTrue b ↔ Head «module».now) }
{
    if !are_parts_typed(module, context) {
        return Ok(false);
    }
    are_names_distinct(alloc, module.exports.as_slice())
}

/// Whether it is but for the names of exports.
fn are_parts_typed(module: &Module, context: &Context) -> bool
    requires { context.now ≡ context_of «module».now }
    ensures { IsTrue result ↔ PartsTyped context.now «module».now }
{
    are_declarations_typed(module)
        && are_expressions_typed(module, context)
        && are_indices_typed(module, context)
}

/// Whether the types, the imports, and the types of the functions, tables and memories are.
#[tactic(auto, unfolding(crate::specs::refinement::Heads::DeclarationsTyped))]
fn are_declarations_typed(module: &Module) -> bool
    ensures { IsTrue result ↔ DeclarationsTyped «module».now }
{
    are_sigs_typed(module.sigs.as_slice())
        && are_imports_typed(module, module.imports.as_slice())
        && are_funcs_typed(module.sigs.len(), module.funcs.as_slice())
        && are_tables_typed(module.tables.as_slice())
        && are_memories_typed(module.memories.as_slice())
}

fn are_sigs_typed(sigs: &[FuncType]) -> bool
    ensures { IsTrue result ↔ All SigTyped sigs.now }
{
    sigs.iter().all(is_sig_typed)
}

fn are_imports_typed(module: &Module, imports: &[Import]) -> bool
    ensures { IsTrue result ↔ All (λ i. ImportTyped «module».now i.desc) imports.now }
{
    imports.iter().all(|i| is_import_typed(module, i.desc))
}

/// Whether each function has one of so many types.
fn are_funcs_typed(sigs: usize, funcs: &[Func]) -> bool
    ensures { IsTrue result ↔ All (λ f. f.sig < sigs) funcs.now }
{
    funcs.iter().all(|f| (f.sig as usize) < sigs)
}

fn are_tables_typed(tables: &[Limits]) -> bool
    ensures { IsTrue result ↔ All TableTyped tables.now }
{
    tables.iter().all(|limits| is_table_typed(*limits))
}

fn are_memories_typed(memories: &[Limits]) -> bool
    ensures { IsTrue result ↔ All MemoryTyped memories.now }
{
    memories.iter().all(|limits| is_memory_typed(*limits))
}

fn is_import_typed(module: &Module, desc: ImportDesc) -> bool
    ensures { IsTrue result ↔ ImportTyped «module».now desc }
{
    match desc {
        ImportDesc::Func(sig) => (sig as usize) < module.sigs.len(),
        ImportDesc::Table(limits) => is_table_typed(limits),
        ImportDesc::Memory(limits) => is_memory_typed(limits),
        ImportDesc::Global(_) => true,
    }
}

/// Whether the start function and what is exported are, and there is one table and one memory at most.
#[tactic(auto, unfolding(crate::specs::refinement::Heads::IndicesTyped))]
fn are_indices_typed(module: &Module, context: &Context) -> bool
    ensures { IsTrue result ↔ IndicesTyped context.now «module».now }
{
    is_start_typed(context, module.start)
        && module
            .exports
            .as_slice()
            .iter()
            .all(|e| is_export_typed(context, e.desc))
        && context.tables().len() <= 1
        && context.memories().len() <= 1
}

fn is_start_typed(context: &Context, start: Option<u32>) -> bool
    ensures { IsTrue result ↔ StartIn context.now start }
{
    let Some(index) = start else {
        return true;
    };
    match context.func(index) {
        Some(t) => t.params.is_empty() && t.results.is_empty(),
        None => false,
    }
}
