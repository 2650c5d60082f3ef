//! Functions and globals that are not imported (WebAssembly 1.0, 6.6.5 and 6.6.8).

ghost use Rattle.std.specs.Prelude.{◌≡◌, ◌++◌, IfOk, OnOk};
ghost use Rattle.ms_text_grammar.specs.FieldKinds.{entries_in};
ghost use Rattle.ms_text_grammar.specs.ResolvedParts.{defined, func_of, funcs_of, global_of, globals_of};
ghost use Rattle.ms_text_grammar.specs.refinement.Balance.{AreWhole, FieldIsWhole, IsWhole};
ghost use Rattle.ms_text_grammar.specs.Shapes.{param_types};
ghost use Rattle.ms_text_names.specs.refinement.Answers.{Adds};
ghost use Rattle.ms_text_resolve.specs.refinement.Gathered.{onto};

use crate::body::code_of;
use crate::gather::{Part, gathered};
use ms_module::{Func, Global as GlobalVar, Locals};
use ms_text_grammar::{Body, Field, Item, Param, TypeUse};
use ms_text_names::{Context, LocalIds};
use ms_types::{GlobalType, Vector};
use std::alloc::{AllocError, Global};

/// The types of locals.
fn local_types(alloc: Global, params: &[Param]) -> Result<Locals, AllocError>
    ensures { IfOk result (λ locals. locals ≡ param_types params.now) }
{
    let mut locals = Locals::new(alloc);
    for param in params {
        // Never comes: the grammar bounds the locals of a function. Fields of another origin have the only answer that is left,
        // want of memory, since locals are at most 2^32 - 1.
        if locals.len() >= u32::MAX as usize {
            return Err(AllocError);
        }
        locals.push(1, param.ty)?;
    }
    Ok(locals)
}

/// A function.
fn func_of(
    alloc: Global,
    context: &Context,
    sig: &TypeUse,
    locals: &[Param],
    body: &Body,
    wrong: &mut Vec<usize>,
) -> Result<Func, AllocError>
    requires { IsWhole body.now }
    ensures { IfOk result (λ f. Adds wrong.old.items wrong.new.items f (func_of context.now.source context.now.scope sig.now locals.now body.now)) }
{
    let index = context.use_index(alloc, sig, wrong)?;
    let ids = LocalIds::of_func(alloc, context, index, sig, locals, wrong)?;
    let body = code_of(alloc, context, &ids, body, wrong)?;
    Ok(Func {
        sig: index,
        locals: local_types(alloc, locals)?,
        body,
    })
}

impl Part for Vector<Func> {
    type Item = Func;

    ghost all = { λ s made fields. onto made (funcs_of s.source s.scope (defined (entries_in fields))) };

    ghost fits = { FieldIsWhole };

    fn add(
        &mut self,
        alloc: Global,
        context: &Context,
        field: &Field,
        wrong: &mut Vec<usize>,
    ) -> Result<(), AllocError> {
        let Field::Entry(entry) = field else {
            return Ok(());
        };
        if entry.import.is_some() {
            return Ok(());
        }
        let Item::Func { sig, locals, body } = &entry.item else {
            return Ok(());
        };
        self.push(func_of(alloc, context, sig, locals.as_slice(), body, wrong)?)?;
        Ok(())
    }
}

/// The functions of fields.
#[tactic(auto, using(crate::proofs::Wholes::each_whole))]
pub fn funcs_of(
    alloc: Global,
    context: &Context,
    fields: &[Field],
    wrong: &mut Vec<usize>,
) -> Result<Vector<Func>, AllocError>
    requires { AreWhole fields.now }
    ensures { IfOk result (λ funcs. Adds wrong.old.items wrong.new.items funcs (funcs_of context.now.source context.now.scope (defined (entries_in fields.now)))) }
{
    let mut funcs = Vector::new(alloc);
    gathered(alloc, context, &mut funcs, fields, wrong)?;
    Ok(funcs)
}

/// A global.
fn global_of(
    alloc: Global,
    context: &Context,
    ty: GlobalType,
    init: &Body,
    wrong: &mut Vec<usize>,
) -> Result<GlobalVar, AllocError>
    requires { IsWhole init.now }
    ensures { IfOk result (λ g. Adds wrong.old.items wrong.new.items g (global_of context.now.source context.now.scope ty init.now)) }
{
    let none = LocalIds::none(alloc, context.source());
    let init = code_of(alloc, context, &none, init, wrong)?;
    Ok(GlobalVar { ty, init })
}

impl Part for Vector<GlobalVar> {
    type Item = GlobalVar;

    ghost all = { λ s made fields. onto made (globals_of s.source s.scope (defined (entries_in fields))) };

    ghost fits = { FieldIsWhole };

    fn add(
        &mut self,
        alloc: Global,
        context: &Context,
        field: &Field,
        wrong: &mut Vec<usize>,
    ) -> Result<(), AllocError> {
        let Field::Entry(entry) = field else {
            return Ok(());
        };
        if entry.import.is_some() {
            return Ok(());
        }
        let Item::Global { ty, init } = &entry.item else {
            return Ok(());
        };
        self.push(global_of(alloc, context, *ty, init, wrong)?)?;
        Ok(())
    }
}

/// The globals of fields.
#[tactic(auto, using(crate::proofs::Wholes::each_whole))]
pub fn globals_of(
    alloc: Global,
    context: &Context,
    fields: &[Field],
    wrong: &mut Vec<usize>,
) -> Result<Vector<GlobalVar>, AllocError>
    requires { AreWhole fields.now }
    ensures { IfOk result (λ globals. Adds wrong.old.items wrong.new.items globals (globals_of context.now.source context.now.scope (defined (entries_in fields.now)))) }
{
    let mut globals = Vector::new(alloc);
    gathered(alloc, context, &mut globals, fields, wrong)?;
    Ok(globals)
}
