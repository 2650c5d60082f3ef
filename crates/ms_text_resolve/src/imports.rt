//! Imports (WebAssembly 1.0, 6.6.4), and the sizes of tables and memories (6.6.6 and 6.6.7).

ghost use Rattle.std.specs.Prelude.{◌≡◌, ◌++◌, IfOk};
ghost use Rattle.ms_text_grammar.specs.FieldKinds.{entries_in, of_kind};
ghost use Rattle.ms_text_grammar.specs.ResolvedParts.{defined, desc_of, exactly, import_of, imports_of, limits_of, pages, sizes_of};
ghost use Rattle.ms_text_names.specs.refinement.Answers.{Adds};
ghost use Rattle.ms_text_resolve.specs.refinement.Gathered.{onto};

use crate::gather::{Part, gathered};
use crate::texts::{name_of, text_values};
use ms_module::{Import, ImportDesc};
use ms_text_grammar::{ExternKind, Field, ImportNames, Item};
use ms_text_names::{Context, Space, enter_all, kind_of, number, same_kind};
use ms_types::{Limits, PAGE, Vector};
use std::alloc::{AllocError, Global};

/// Exactly so many entries or pages.
fn exactly(n: usize) -> Result<Limits, AllocError>
    ensures { IfOk result (λ limits. limits ≡ exactly n) }
{
    // Never fails on a text of less than 2^32 bytes, in which each entry, and each byte of data, takes one. Want of memory is
    // the only answer that is left where it does, since limits can't hold the number.
    let n = number(n)?;
    Ok(Limits {
        min: n,
        max: Some(n),
    })
}

/// The pages of so many bytes.
fn pages(n: usize) -> usize
    ensures { result ≡ pages n }
{
    n.div_ceil(PAGE)
}

/// The size of a table or a memory.
fn limits_of(alloc: Global, source: &[u8], item: &Item) -> Result<Limits, AllocError>
    ensures { IfOk result (λ limits. limits ≡ limits_of source.now item.now) }
{
    match item {
        Item::Table(limits) => Ok(*limits),
        Item::Memory(limits) => Ok(*limits),
        Item::Elements(funcs) => exactly(funcs.len()),
        Item::Data(strings) => {
            let bytes = text_values(alloc, source, strings.as_slice())?;
            exactly(pages(bytes.len()))
        }
        _ => exactly(0),
    }
}

/// What an imported entry asks for; the places of repeated identifiers of its parameters are wrong.
fn desc_of(
    alloc: Global,
    context: &Context,
    item: &Item,
    wrong: &mut Vec<usize>,
) -> Result<ImportDesc, AllocError>
    ensures { IfOk result (λ d. Adds wrong.old.items wrong.new.items d (desc_of context.now.source context.now.scope item.now)) }
{
    match item {
        Item::Func { sig, .. } => {
            let index = context.use_index(alloc, sig, wrong)?;
            let mut params = Space::new(alloc, context.source());
            enter_all(&mut params, sig.params.as_slice(), wrong)?;
            Ok(ImportDesc::Func(index))
        }
        Item::Table(limits) => Ok(ImportDesc::Table(*limits)),
        Item::Elements(_) => Ok(ImportDesc::Table(limits_of(alloc, context.source(), item)?)),
        Item::Memory(limits) => Ok(ImportDesc::Memory(*limits)),
        Item::Data(_) => Ok(ImportDesc::Memory(limits_of(alloc, context.source(), item)?)),
        Item::Global { ty, .. } => Ok(ImportDesc::Global(*ty)),
    }
}

fn import_of(
    alloc: Global,
    context: &Context,
    names: ImportNames,
    item: &Item,
    wrong: &mut Vec<usize>,
) -> Result<Import, AllocError>
    ensures { IfOk result (λ i. Adds wrong.old.items wrong.new.items i (import_of context.now.source context.now.scope names item.now)) }
{
    let module = name_of(alloc, context.source(), names.module)?;
    let name = name_of(alloc, context.source(), names.name)?;
    let desc = desc_of(alloc, context, item, wrong)?;
    Ok(Import { module, name, desc })
}

impl Part for Vector<Import> {
    type Item = Import;

    ghost all = { λ s made fields. onto made (imports_of s.source s.scope (entries_in fields)) };

    fn add(
        &mut self,
        alloc: Global,
        context: &Context,
        field: &Field,
        wrong: &mut Vec<usize>,
    ) -> Result<(), AllocError> {
        let Field::Entry(entry) = field else {
            return Ok(());
        };
        let Some(names) = entry.import else {
            return Ok(());
        };
        self.push(import_of(alloc, context, names, &entry.item, wrong)?)?;
        Ok(())
    }
}

/// The imports of fields.
pub fn imports_of(
    alloc: Global,
    context: &Context,
    fields: &[Field],
    wrong: &mut Vec<usize>,
) -> Result<Vector<Import>, AllocError>
    ensures { IfOk result (λ imports. Adds wrong.old.items wrong.new.items imports (imports_of context.now.source context.now.scope (entries_in fields.now))) }
{
    let mut imports = Vector::new(alloc);
    gathered(alloc, context, &mut imports, fields, wrong)?;
    Ok(imports)
}

/// The sizes of the tables, or of the memories, that are not imported.
pub fn sizes_of(
    alloc: Global,
    source: &[u8],
    kind: ExternKind,
    fields: &[Field],
) -> Result<Vector<Limits>, AllocError>
    ensures { IfOk result (λ sizes. sizes ≡ sizes_of source.now (of_kind kind (defined (entries_in fields.now)))) }
{
    let mut sizes = Vector::new(alloc);
    for field in fields {
        let Field::Entry(entry) = field else {
            continue;
        };
        if entry.import.is_some() {
            continue;
        }
        if !same_kind(kind_of(&entry.item), kind) {
            continue;
        }
        sizes.push(limits_of(alloc, source, &entry.item)?)?;
    }
    Ok(sizes)
}
