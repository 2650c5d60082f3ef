//! From fields to a module.

ghost use Rattle.std.specs.Prelude.{◌≡◌, ◌++◌, [], IfOk};
ghost use Rattle.ms_text_grammar.specs.TypeUses.{scope_of};
ghost use Rattle.ms_text_grammar.specs.Elaborating.{module_of};
ghost use Rattle.ms_text_grammar.specs.refinement.Balance.{AreWhole};
ghost use Rattle.ms_text_resolve.specs.refinement.Answers.{IsLeast, Resolves};
ghost use Rattle.ms_text_resolve.specs.refinement.Assembled.{parts_of};
ghost use Rattle.ms_text_names.specs.refinement.Answers.{Adds};

use crate::exports::{exports_of, start_of};
use crate::funcs::{funcs_of, globals_of};
use crate::imports::{imports_of, sizes_of};
use crate::segments::{elements_of, fills_of};
use ms_module::Module;
use ms_text_grammar::{ExternKind, Field, TextFault};
use ms_text_names::Context;
use ms_types::Vector;
use std::alloc::{AllocError, Global};

/// The module of fields in their context, but for its types.
fn parts_of(
    alloc: Global,
    context: &Context,
    fields: &[Field],
    wrong: &mut Vec<usize>,
) -> Result<Module, AllocError>
    requires { AreWhole fields.now }
    ensures { IfOk result (λ m. Adds wrong.old.items wrong.new.items m (parts_of context.now fields.now)) }
{
    let imports = imports_of(alloc, context, fields, wrong)?;
    let funcs = funcs_of(alloc, context, fields, wrong)?;
    let tables = sizes_of(alloc, context.source(), ExternKind::Table, fields)?;
    let memories = sizes_of(alloc, context.source(), ExternKind::Memory, fields)?;
    let globals = globals_of(alloc, context, fields, wrong)?;
    let exports = exports_of(alloc, context, fields, wrong)?;
    let start = start_of(context, fields, wrong)?;
    let elements = elements_of(alloc, context, fields, wrong)?;
    let fills = fills_of(alloc, context, fields, wrong)?;
    Ok(Module {
        sigs: Vector::new(alloc),
        imports,
        funcs,
        tables,
        memories,
        globals,
        exports,
        elements,
        fills,
        start,
    })
}

/// The module of fields; the places of wrong identifiers are those of the definition.
fn module_of(
    alloc: Global,
    source: &[u8],
    fields: &[Field],
    wrong: &mut Vec<usize>,
) -> Result<Module, AllocError>
    requires { AreWhole fields.now }
    ensures { IfOk result (λ m. Adds wrong.old.items wrong.new.items m (module_of source.now fields.now)) }
{
    let context = Context::new(alloc, source, fields, wrong)?;
    let mut module = parts_of(alloc, &context, fields, wrong)?;
    module.sigs = context.into_types();
    Ok(module)
}

/// The least of places.
fn least(places: &[usize]) -> Option<usize>
    ensures { IsLeast places.now result }
{
    places.iter().copied().min()
}

/// The module that fields are, with identifiers replaced by indices (WebAssembly 1.0, 6.1.3 and 6.6).
///
/// Where an identifier is unknown, or stands a second time in its index space, the fault is `Name`, at the least place of
/// one. `Memory` where memory ran out. There are no other faults.
pub fn resolve(alloc: Global, source: &[u8], fields: &[Field]) -> Result<Module, TextFault>
    // Each body is balanced, as the grammar spells them.
    requires { AreWhole fields.now }
    ensures { Resolves (module_of source.now fields.now) result }
{
    let mut wrong = Vec::new(alloc);
    let module = module_of(alloc, source, fields, &mut wrong)?;
    match least(wrong.as_slice()) {
        None => Ok(module),
        Some(at) => Err(TextFault::Name { at }),
    }
}
