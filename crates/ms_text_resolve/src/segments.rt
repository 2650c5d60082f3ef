//! Elements and data (WebAssembly 1.0, 6.6.11 and 6.6.12), those of tables and memories at their places.

ghost use Rattle.std.specs.Prelude.{◌≡◌, ◌++◌, [], IfOk};
ghost use Rattle.ms_text_grammar.specs.FieldKinds.{no_entries};
ghost use Rattle.ms_text_grammar.specs.ResolvedBodies.{code_of};
ghost use Rattle.ms_text_grammar.specs.ResolvedParts.{at_zero, element_at_zero, element_of, elements_from, fill_at_zero, fill_of, fills_from};
ghost use Rattle.ms_text_grammar.specs.refinement.Balance.{AreWhole, FieldIsWhole, IsWhole};
ghost use Rattle.ms_text_names.specs.refinement.Answers.{Adds};
ghost use Rattle.ms_text_resolve.specs.refinement.Gathered.{onto};

use crate::body::code_of;
use crate::gather::{Part, gathered};
use crate::texts::text_values;
use ms_module::{Builder, Code, Element, Fill, Instr};
use ms_text_grammar::{Body, ExternKind, Field, Index, Item};
use ms_text_lex::Token;
use ms_text_names::{Context, LocalIds, Tally, kind_of};
use ms_types::Vector;
use std::alloc::{AllocError, Global};

/// The constant 0.
fn at_zero(alloc: Global) -> Result<Code, AllocError>
    ensures { IfOk result (λ code. code ≡ at_zero) }
{
    let mut builder = Builder::new(alloc)?;
    builder.add(Instr::I32Const(0))?;
    Ok(builder.finish())
}

/// The code of a constant expression.
fn offset_of(
    alloc: Global,
    context: &Context,
    offset: &Body,
    wrong: &mut Vec<usize>,
) -> Result<Code, AllocError>
    requires { IsWhole offset.now }
    ensures { IfOk result (λ code. Adds wrong.old.items wrong.new.items code (code_of context.now.source context.now.scope [] offset.now)) }
{
    let none = LocalIds::none(alloc, context.source());
    code_of(alloc, context, &none, offset, wrong)
}

/// An element field.
fn element_of(
    alloc: Global,
    context: &Context,
    table: Index,
    offset: &Body,
    funcs: &[Index],
    wrong: &mut Vec<usize>,
) -> Result<Element, AllocError>
    requires { IsWhole offset.now }
    ensures { IfOk result (λ e. Adds wrong.old.items wrong.new.items e (element_of context.now.source context.now.scope table offset.now funcs.now)) }
{
    let table = context.resolved(ExternKind::Table, table, wrong)?;
    let offset = offset_of(alloc, context, offset, wrong)?;
    let funcs = context.funcs_resolved(alloc, funcs, wrong)?;
    Ok(Element {
        table,
        offset,
        funcs,
    })
}

/// An element that the table of this index begins with.
fn element_at_zero(
    alloc: Global,
    context: &Context,
    table: u32,
    funcs: &[Index],
    wrong: &mut Vec<usize>,
) -> Result<Element, AllocError>
    ensures { IfOk result (λ e. Adds wrong.old.items wrong.new.items e (element_at_zero context.now.source context.now.scope table funcs.now)) }
{
    let funcs = context.funcs_resolved(alloc, funcs, wrong)?;
    Ok(Element {
        table,
        offset: at_zero(alloc)?,
        funcs,
    })
}

/// The elements of fields so far, and how many entries stood before.
#[derive(Drop)]
struct Elements {
    elements: Vector<Element>,
    before: Tally,
}

impl Part for Elements {
    type Item = Element;

    ghost all = { λ s e fields. onto e.elements (elements_from s.source s.scope e.before fields) };

    ghost fits = { FieldIsWhole };

    fn add(
        &mut self,
        alloc: Global,
        context: &Context,
        field: &Field,
        wrong: &mut Vec<usize>,
    ) -> Result<(), AllocError> {
        if let Field::Element {
            table,
            offset,
            funcs,
        } = field
        {
            self.elements.push(element_of(
                alloc,
                context,
                *table,
                offset,
                funcs.as_slice(),
                wrong,
            )?)?;
            return Ok(());
        }
        let Field::Entry(entry) = field else {
            return Ok(());
        };
        let table = self.before.of(ExternKind::Table);
        self.before.add(kind_of(&entry.item))?;
        let Item::Elements(funcs) = &entry.item else {
            return Ok(());
        };
        self.elements.push(element_at_zero(alloc, context, table, funcs.as_slice(), wrong)?)?;
        Ok(())
    }
}

/// The elements of fields.
#[tactic(auto, using(crate::proofs::Wholes::each_whole))]
pub fn elements_of(
    alloc: Global,
    context: &Context,
    fields: &[Field],
    wrong: &mut Vec<usize>,
) -> Result<Vector<Element>, AllocError>
    requires { AreWhole fields.now }
    ensures { IfOk result (λ elements. Adds wrong.old.items wrong.new.items elements (elements_from context.now.source context.now.scope no_entries fields.now)) }
{
    let mut elements = Elements {
        elements: Vector::new(alloc),
        before: Tally::new(),
    };
    gathered(alloc, context, &mut elements, fields, wrong)?;
    Ok(elements.elements)
}

/// A data field.
fn fill_of(
    alloc: Global,
    context: &Context,
    memory: Index,
    offset: &Body,
    strings: &[Token],
    wrong: &mut Vec<usize>,
) -> Result<Fill, AllocError>
    requires { IsWhole offset.now }
    ensures { IfOk result (λ f. Adds wrong.old.items wrong.new.items f (fill_of context.now.source context.now.scope memory offset.now strings.now)) }
{
    let memory = context.resolved(ExternKind::Memory, memory, wrong)?;
    let offset = offset_of(alloc, context, offset, wrong)?;
    let bytes = text_values(alloc, context.source(), strings)?;
    Ok(Fill {
        memory,
        offset,
        bytes: Vector::from_vec(bytes),
    })
}

/// The bytes that the memory of this index begins with.
fn fill_at_zero(
    alloc: Global,
    context: &Context,
    memory: u32,
    strings: &[Token],
) -> Result<Fill, AllocError>
    ensures { IfOk result (λ f. f ≡ fill_at_zero context.now.source context.now.scope memory strings.now) }
{
    let bytes = text_values(alloc, context.source(), strings)?;
    Ok(Fill {
        memory,
        offset: at_zero(alloc)?,
        bytes: Vector::from_vec(bytes),
    })
}

/// The data of fields so far, and how many entries stood before.
#[derive(Drop)]
struct Fills {
    fills: Vector<Fill>,
    before: Tally,
}

impl Part for Fills {
    type Item = Fill;

    ghost all = { λ s e fields. onto e.fills (fills_from s.source s.scope e.before fields) };

    ghost fits = { FieldIsWhole };

    fn add(
        &mut self,
        alloc: Global,
        context: &Context,
        field: &Field,
        wrong: &mut Vec<usize>,
    ) -> Result<(), AllocError> {
        if let Field::Data {
            memory,
            offset,
            strings,
        } = field
        {
            self.fills.push(fill_of(alloc, context, *memory, offset, strings.as_slice(), wrong)?)?;
            return Ok(());
        }
        let Field::Entry(entry) = field else {
            return Ok(());
        };
        let memory = self.before.of(ExternKind::Memory);
        self.before.add(kind_of(&entry.item))?;
        let Item::Data(strings) = &entry.item else {
            return Ok(());
        };
        self.fills
            .push(fill_at_zero(alloc, context, memory, strings.as_slice())?)?;
        Ok(())
    }
}

/// The data of fields.
#[tactic(auto, using(crate::proofs::Wholes::each_whole))]
pub fn fills_of(
    alloc: Global,
    context: &Context,
    fields: &[Field],
    wrong: &mut Vec<usize>,
) -> Result<Vector<Fill>, AllocError>
    requires { AreWhole fields.now }
    ensures { IfOk result (λ fills. Adds wrong.old.items wrong.new.items fills (fills_from context.now.source context.now.scope no_entries fields.now)) }
{
    let mut fills = Fills {
        fills: Vector::new(alloc),
        before: Tally::new(),
    };
    gathered(alloc, context, &mut fills, fields, wrong)?;
    Ok(fills.fills)
}
