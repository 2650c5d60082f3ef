//! The index spaces of fields, and their types (WebAssembly 1.0, 6.1.3 and 6.6.3).

ghost use Rattle.std.specs.Prelude.{◌≡◌, ◌++◌, ◌∷◌, [], List, Option, OnOk};
ghost use Rattle.ms_text_lex.specs.declared.token.Token.{Token};
ghost use Rattle.ms_text_grammar.specs.declared.surface.Field.{Field};
ghost use Rattle.ms_text_grammar.specs.declared.surface.ExternKind.TheVariants as kind;
ghost use Rattle.ms_text_names.specs.refinement.Spaces.{entered};
ghost use Rattle.ms_text_grammar.specs.Identifiers.{repeats};
ghost use Rattle.ms_text_grammar.specs.FieldKinds.{entries_in, entry_ids, of_kind, type_ids, types_in};
ghost use Rattle.ms_text_grammar.specs.TypeUses.{all_uses, field_types, item_uses, uses_of, with_uses};

use crate::kinds::{kind_of, same_kind};
use crate::names::enter;
use crate::sigs::Sigs;
use crate::space::Space;
use ms_text_grammar::{ExternKind, Field, Item};
use ms_text_lex::Token;
use std::alloc::{AllocError, Global};

/// Which fields of a module are the entries of an index space.
pub trait IndexSpace {
    /// The identifiers of the entries among fields.
    ghost ids: { Self → List Field → List (Option Token) };

    /// The identifier of the entry that a field is, if it is one.
    fn entry(&self, field: &Field) -> Option<Option<Token>>
        ensures { (rest : List Field) → ids self.now (field.now ∷ rest) ≡ entered result (ids self.now rest) };

    /// Where there are no fields, there are no entries.
    ghost nothing: { (entries : Self) → ids entries [] ≡ [] };
}

/// The index space of types.
#[derive(Clone, Copy)]
pub struct Types;

impl IndexSpace for Types {
    ghost use Rattle.std.specs.Prelude.{refl};

    ghost ids = { λ _ fields. type_ids (types_in fields) };

    ghost nothing = { λ _. refl };

    fn entry(&self, field: &Field) -> Option<Option<Token>> {
        match field {
            Field::Type(field) => Some(field.id),
            _ => None,
        }
    }
}

/// The index space of the entries of a kind.
#[derive(Clone, Copy)]
pub struct OfKind {
    pub kind: ExternKind,
}

impl IndexSpace for OfKind {
    ghost use Rattle.std.specs.Prelude.{refl};

    ghost ids = { λ of fields. entry_ids (of_kind of.kind (entries_in fields)) };

    ghost nothing = { λ _. refl };

    fn entry(&self, field: &Field) -> Option<Option<Token>> {
        let Field::Entry(entry) = field else {
            return None;
        };
        if !same_kind(kind_of(&entry.item), self.kind) {
            return None;
        }
        Some(entry.id)
    }
}

/// Adds the entries of an index space; the place of an identifier that stands a second time is wrong.
pub fn fill<S: IndexSpace>(
    space: &mut Space,
    entries: &S,
    fields: &[Field],
    wrong: &mut Vec<usize>,
) -> Result<(), AllocError>
    ensures ids { OnOk result (space.new.ids ≡ space.old.ids ++ S.ids entries.now fields.now) }
    ensures source { OnOk result (space.new.source ≡ space.old.source) }
    ensures wrong { OnOk result (wrong.new.items ≡ wrong.old.items ++ repeats space.old.source space.old.ids (S.ids entries.now fields.now)) }
{
    for field in fields {
        let Some(id) = entries.entry(field) else {
            continue;
        };
        enter(space, id, wrong)?;
    }
    Ok(())
}

/// Adds the entries of the index spaces of a module, those of types first.
pub fn fill_all(
    types: &mut Space,
    funcs: &mut Space,
    tables: &mut Space,
    memories: &mut Space,
    globals: &mut Space,
    fields: &[Field],
    wrong: &mut Vec<usize>,
) -> Result<(), AllocError>
    ensures types { OnOk result (types.new.ids ≡ types.old.ids ++ type_ids (types_in fields.now)) }
    ensures funcs { OnOk result (funcs.new.ids ≡ funcs.old.ids ++ entry_ids (of_kind kind.Func (entries_in fields.now))) }
    ensures tables { OnOk result (tables.new.ids ≡ tables.old.ids ++ entry_ids (of_kind kind.Table (entries_in fields.now))) }
    ensures memories { OnOk result (memories.new.ids ≡ memories.old.ids ++ entry_ids (of_kind kind.Memory (entries_in fields.now))) }
    ensures globals { OnOk result (globals.new.ids ≡ globals.old.ids ++ entry_ids (of_kind kind.Global (entries_in fields.now))) }
    ensures sources { OnOk result ((types.new.source ≡ types.old.source) × (funcs.new.source ≡ funcs.old.source) × (tables.new.source ≡ tables.old.source) × (memories.new.source ≡ memories.old.source) × (globals.new.source ≡ globals.old.source)) }
    ensures wrong { OnOk result (wrong.new.items ≡ wrong.old.items ++ repeats types.old.source types.old.ids (type_ids (types_in fields.now)) ++ repeats funcs.old.source funcs.old.ids (entry_ids (of_kind kind.Func (entries_in fields.now))) ++ repeats tables.old.source tables.old.ids (entry_ids (of_kind kind.Table (entries_in fields.now))) ++ repeats memories.old.source memories.old.ids (entry_ids (of_kind kind.Memory (entries_in fields.now))) ++ repeats globals.old.source globals.old.ids (entry_ids (of_kind kind.Global (entries_in fields.now)))) }
{
    fill(types, &Types, fields, wrong)?;
    fill(
        funcs,
        &OfKind {
            kind: ExternKind::Func,
        },
        fields,
        wrong,
    )?;
    fill(
        tables,
        &OfKind {
            kind: ExternKind::Table,
        },
        fields,
        wrong,
    )?;
    fill(
        memories,
        &OfKind {
            kind: ExternKind::Memory,
        },
        fields,
        wrong,
    )?;
    fill(
        globals,
        &OfKind {
            kind: ExternKind::Global,
        },
        fields,
        wrong,
    )?;
    Ok(())
}

/// Adds the types of type fields.
fn add_types(alloc: Global, sigs: &mut Sigs, fields: &[Field]) -> Result<(), AllocError>
    ensures { OnOk result (sigs.new ≡ sigs.old ++ field_types (types_in fields.now)) }
{
    for field in fields {
        let Field::Type(field) = field else {
            continue;
        };
        sigs.add(alloc, field.params.as_slice(), field.results.as_slice())?;
    }
    Ok(())
}

/// Adds the types that an item's uses write.
fn add_item(alloc: Global, sigs: &mut Sigs, item: &Item) -> Result<(), AllocError>
    ensures { OnOk result (sigs.new ≡ with_uses (item_uses item.now) sigs.old) }
{
    match item {
        Item::Func { sig, body, .. } => {
            sigs.add_use(alloc, sig)?;
            sigs.add_uses(alloc, body.uses.as_slice())
        }
        Item::Global { init, .. } => sigs.add_uses(alloc, init.uses.as_slice()),
        _ => Ok(()),
    }
}

/// Adds the types that a field's uses write.
fn add_field(alloc: Global, sigs: &mut Sigs, field: &Field) -> Result<(), AllocError>
    ensures { OnOk result (sigs.new ≡ with_uses (uses_of field.now) sigs.old) }
{
    match field {
        Field::Entry(entry) => add_item(alloc, sigs, &entry.item),
        Field::Element { offset, .. } => sigs.add_uses(alloc, offset.uses.as_slice()),
        Field::Data { offset, .. } => sigs.add_uses(alloc, offset.uses.as_slice()),
        _ => Ok(()),
    }
}

/// Adds the types that the uses of fields write.
fn add_fields(alloc: Global, sigs: &mut Sigs, fields: &[Field]) -> Result<(), AllocError>
    ensures { OnOk result (sigs.new ≡ with_uses (all_uses fields.now) sigs.old) }
{
    for field in fields {
        add_field(alloc, sigs, field)?;
    }
    Ok(())
}

/// Adds the types of type fields, and behind them those that uses add.
pub fn add_all(alloc: Global, sigs: &mut Sigs, fields: &[Field]) -> Result<(), AllocError>
    ensures { OnOk result (sigs.new ≡ with_uses (all_uses fields.now) (sigs.old ++ field_types (types_in fields.now))) }
{
    add_types(alloc, sigs, fields)?;
    add_fields(alloc, sigs, fields)
}
