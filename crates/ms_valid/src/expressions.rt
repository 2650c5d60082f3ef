//! The constant expressions of a module: first values of globals, and places of elements and fills.

ghost use Rattle.std.specs.Prelude.{◌≡◌, ◌↔◌, ◌<◌, All, IsTrue};
ghost use Rattle.ms_rules.specs.Context.{context_of, imported_globals};
ghost use Rattle.ms_valid.specs.refinement.Heads.{ElementIn, ExpressionsTyped, FillIn, GlobalIn};

use crate::constants::is_constant;
use ms_module::{Element, Fill, Global, Module};
use ms_rules::Context;
use ms_types::{GlobalType, ValType};

/// Whether the expressions of globals, elements and fills are.
#[tactic(auto, unfolding(crate::specs::refinement::Heads::ExpressionsTyped))]
pub fn are_expressions_typed(module: &Module, context: &Context) -> bool
    requires { context.now ≡ context_of «module».now }
    ensures { IsTrue result ↔ ExpressionsTyped context.now «module».now }
{
    are_globals_typed(imported_globals(module, context), module.globals.as_slice())
        && are_elements_typed(context, module.elements.as_slice())
        && are_fills_typed(context, module.fills.as_slice())
}

fn are_globals_typed(imported: &[GlobalType], globals: &[Global]) -> bool
    ensures { IsTrue result ↔ All (GlobalIn imported.now) globals.now }
{
    globals.iter().all(|g| is_global_typed(imported, g))
}

#[tactic(auto, unfolding(crate::specs::refinement::Heads::GlobalIn))]
fn is_global_typed(imported: &[GlobalType], global: &Global) -> bool
    ensures { IsTrue result ↔ GlobalIn imported.now global.now }
{
    is_constant(imported, global.ty.ty, &global.init)
}

fn are_elements_typed(context: &Context, elements: &[Element]) -> bool
    ensures { IsTrue result ↔ All (ElementIn context.now) elements.now }
{
    elements.iter().all(|e| is_element_typed(context, e))
}

fn are_fills_typed(context: &Context, fills: &[Fill]) -> bool
    ensures { IsTrue result ↔ All (FillIn context.now) fills.now }
{
    fills.iter().all(|f| is_fill_typed(context, f))
}

/// The types of the imported globals, which alone the first values of globals may read.
fn imported_globals<'a>(module: &Module, context: &'a Context) -> &'a [GlobalType]
    requires { context.now ≡ context_of «module».now }
    ensures { result.now ≡ imported_globals «module».now.imports }
{
    let globals = context.globals();
    &globals[..globals.len() - module.globals.len()]
}

#[tactic(auto, unfolding(crate::specs::refinement::Heads::ElementIn))]
fn is_element_typed(context: &Context, element: &Element) -> bool
    ensures { IsTrue result ↔ ElementIn context.now element.now }
{
    (element.table as usize) < context.tables().len()
        && is_constant(context.globals(), ValType::I32, &element.offset)
        && are_within(context.funcs_len(), element.funcs.as_slice())
}

/// Whether each index is below a count.
fn are_within(count: usize, indices: &[u32]) -> bool
    ensures { IsTrue result ↔ All (λ i. i < count) indices.now }
{
    indices.iter().all(|i| (*i as usize) < count)
}

#[tactic(auto, unfolding(crate::specs::refinement::Heads::FillIn))]
fn is_fill_typed(context: &Context, fill: &Fill) -> bool
    ensures { IsTrue result ↔ FillIn context.now fill.now }
{
    (fill.memory as usize) < context.memories().len()
        && is_constant(context.globals(), ValType::I32, &fill.offset)
}
