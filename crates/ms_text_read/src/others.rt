//! Exports, elements and data (WebAssembly 1.0, 6.6.9, 6.6.11 and 6.6.12).

ghost use Rattle.std.specs.Prelude.{◌≡◌, length};
ghost use Rattle.ms_text_grammar.specs.Bounds.{usual};
ghost use Rattle.ms_text_grammar.specs.Entries.{data_field, element_field, export_field, offset};
ghost use Rattle.ms_text_parts.specs.refinement.Readers.{Reads};

use crate::entries::take_kind;
use crate::lists::{indices, strings};
use ms_text_bodies::{body, folded_body};
use ms_text_grammar::{Body, Field, TextFault, Word};
use ms_text_parts::{Words, closing, index, name, next_begins, opening, optional_index, the};
use std::alloc::Global;

/// Takes an export, behind its word.
#[tactic(auto, unfolding(ms_text_grammar::specs::Entries::export_field))]
pub fn export_field(alloc: Global, c: &mut Words) -> Result<Field, TextFault>
    ensures { Reads c.old c.new result ((export_field c.old.source usual).read (length c.old.source) c.old.left) }
{
    let name = name(alloc, c)?;
    opening(c)?;
    let kind = take_kind(c)?;
    let index = index(c)?;
    closing(c)?;
    Ok(Field::Export { name, kind, index })
}

/// Takes an offset.
#[tactic(auto, unfolding(ms_text_grammar::specs::Entries::offset, ms_text_grammar::specs::Entries::offset_by))]
fn offset(alloc: Global, c: &mut Words) -> Result<Body, TextFault>
    ensures { Reads c.old c.new result ((offset c.old.source usual).read (length c.old.source) c.old.left) }
{
    if next_begins(Word::Offset, c) {
        opening(c)?;
        the(Word::Offset, c)?;
        let code = body(alloc, c)?;
        closing(c)?;
        return Ok(code);
    }
    folded_body(alloc, c)
}

/// Takes elements, behind their word.
#[tactic(auto, unfolding(ms_text_grammar::specs::Entries::element_field))]
pub fn element_field(alloc: Global, c: &mut Words) -> Result<Field, TextFault>
    ensures { Reads c.old c.new result ((element_field c.old.source usual).read (length c.old.source) c.old.left) }
{
    let table = optional_index(c)?;
    let offset = offset(alloc, c)?;
    let funcs = indices(alloc, c)?;
    Ok(Field::Element {
        table,
        offset,
        funcs,
    })
}

/// Takes data, behind their word.
#[tactic(auto, unfolding(ms_text_grammar::specs::Entries::data_field))]
pub fn data_field(alloc: Global, c: &mut Words) -> Result<Field, TextFault>
    ensures { Reads c.old c.new result ((data_field c.old.source usual).read (length c.old.source) c.old.left) }
{
    let memory = optional_index(c)?;
    let offset = offset(alloc, c)?;
    let strings = strings(alloc, c)?;
    Ok(Field::Data {
        memory,
        offset,
        strings,
    })
}
