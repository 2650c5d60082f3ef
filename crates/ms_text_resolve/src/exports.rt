//! Exports and the start function (WebAssembly 1.0, 6.6.9 and 6.6.10), exports of entries at their places.

ghost use Rattle.std.specs.Prelude.{◌≡◌, ◌++◌, IfOk, OnOk};
ghost use Rattle.ms_text_grammar.specs.FieldKinds.{no_entries};
ghost use Rattle.ms_text_grammar.specs.ResolvedParts.{export_desc, export_of, exports_from, inline_exports, starts_in};
ghost use Rattle.ms_text_names.specs.refinement.Answers.{Adds};
ghost use Rattle.ms_text_resolve.specs.refinement.Gathered.{onto};

use crate::gather::{Part, gathered};
use crate::texts::name_of;
use ms_module::{Export, ExportDesc};
use ms_text_grammar::{ExternKind, Field, Index};
use ms_text_lex::Token;
use ms_text_names::{Context, Tally, kind_of};
use ms_types::Vector;
use std::alloc::{AllocError, Global};

/// What an export of this kind and index gives.
fn export_desc(kind: ExternKind, index: u32) -> ExportDesc
    ensures { result ≡ export_desc kind index }
{
    match kind {
        ExternKind::Func => ExportDesc::Func(index),
        ExternKind::Table => ExportDesc::Table(index),
        ExternKind::Memory => ExportDesc::Memory(index),
        ExternKind::Global => ExportDesc::Global(index),
    }
}

/// Adds exports of these names, all of one entry.
fn add_inline(
    alloc: Global,
    source: &[u8],
    exports: &mut Vector<Export>,
    names: &[Token],
    desc: ExportDesc,
) -> Result<(), AllocError>
    ensures { OnOk result (exports.new ≡ exports.old ++ inline_exports source.now names.now desc) }
{
    for name in names {
        let name = name_of(alloc, source, *name)?;
        exports.push(Export { name, desc })?;
    }
    Ok(())
}

/// An export field.
fn export_of(
    alloc: Global,
    context: &Context,
    name: Token,
    kind: ExternKind,
    index: Index,
    wrong: &mut Vec<usize>,
) -> Result<Export, AllocError>
    ensures { IfOk result (λ e. Adds wrong.old.items wrong.new.items e (export_of context.now.source context.now.scope name kind index)) }
{
    let name = name_of(alloc, context.source(), name)?;
    let index = context.resolved(kind, index, wrong)?;
    Ok(Export {
        name,
        desc: export_desc(kind, index),
    })
}

/// The exports of fields so far, and how many entries stood before.
#[derive(Drop)]
struct Exports {
    exports: Vector<Export>,
    before: Tally,
}

impl Part for Exports {
    type Item = Export;

    ghost all = { λ s e fields. onto e.exports (exports_from s.source s.scope e.before fields) };

    fn add(
        &mut self,
        alloc: Global,
        context: &Context,
        field: &Field,
        wrong: &mut Vec<usize>,
    ) -> Result<(), AllocError> {
        if let Field::Export { name, kind, index } = field {
            self.exports
                .push(export_of(alloc, context, *name, *kind, *index, wrong)?)?;
            return Ok(());
        }
        let Field::Entry(entry) = field else {
            return Ok(());
        };
        let kind = kind_of(&entry.item);
        let desc = export_desc(kind, self.before.of(kind));
        add_inline(
            alloc,
            context.source(),
            &mut self.exports,
            entry.exports.as_slice(),
            desc,
        )?;
        self.before.add(kind)
    }
}

/// The exports of fields.
pub fn exports_of(
    alloc: Global,
    context: &Context,
    fields: &[Field],
    wrong: &mut Vec<usize>,
) -> Result<Vector<Export>, AllocError>
    ensures { IfOk result (λ exports. Adds wrong.old.items wrong.new.items exports (exports_from context.now.source context.now.scope no_entries fields.now)) }
{
    let mut exports = Exports {
        exports: Vector::new(alloc),
        before: Tally::new(),
    };
    gathered(alloc, context, &mut exports, fields, wrong)?;
    Ok(exports.exports)
}

/// The start function, if there is one: the first that a field names.
pub fn start_of(
    context: &Context,
    fields: &[Field],
    wrong: &mut Vec<usize>,
) -> Result<Option<u32>, AllocError>
    ensures { IfOk result (λ start. Adds wrong.old.items wrong.new.items start (starts_in context.now.source context.now.scope fields.now)) }
{
    for field in fields {
        if let Field::Start(index) = field {
            return Ok(Some(context.resolved(ExternKind::Func, *index, wrong)?));
        }
    }
    Ok(None)
}
