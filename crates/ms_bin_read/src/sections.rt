//! Reading sections (WebAssembly 1.0, 5.5.2).

ghost use Rattle.std.specs.Prelude.{◌≡◌};
ghost use Rattle.ms_bin_grammar.specs.Sizes.{sized};
ghost use Rattle.ms_bin_grammar.specs.Numbers.{vec};
ghost use Rattle.ms_bin_grammar.specs.Types.{table_type};
ghost use Rattle.ms_bin_grammar.specs.Module.{custom, funcs, has_more, module_of, nothing_yet, section};
ghost use Rattle.ms_bin_grammar.specs.Bounds.{usual};
ghost use Rattle.ms_bin_read.specs.refinement.Readers.{Reads, StepsTo};

use crate::funcs::funcs_of;
use crate::items::{Item, bounded, byte_of, ended, sized_of};
use crate::names::text_of;
use crate::steps::Steps;
use crate::types::tables_of;
use ms_bin_grammar::{ReadFault, Sections};
use ms_bytes::Cursor;
use ms_module::{Func, Module};
use ms_types::{Limits, Vector};
use std::alloc::Global;
use std::mem;

/// Goes over a custom section's name and the bytes behind it.
#[tactic(auto, unfolding(ms_bin_grammar::specs::Module::custom))]
fn custom_of(c: &mut Cursor) -> Result<(), ReadFault>
    ensures { Reads c.old c.new result (custom.read c.old.end c.old.left) }
{
    let _name = text_of(c)?;
    c.skip(c.len());
    Ok(())
}

/// Goes over a custom section whose size stands before it.
#[tactic(auto, unfolding(ms_bin_grammar::specs::Inside::sized_at))]
fn sized_custom_of(c: &mut Cursor) -> Result<(), ReadFault>
    ensures { Reads c.old c.new result ((sized custom).read c.old.end c.old.left) }
{
    let mut inside = bounded(c)?;
    custom_of(&mut inside)?;
    ended(&inside)
}

/// Reads the code section, whose size stands before it, for functions of these types.
#[tactic(auto, unfolding(ms_bin_grammar::specs::Inside::sized_at))]
fn sized_funcs_of(alloc: Global, sigs: &[u32], c: &mut Cursor) -> Result<Vector<Func>, ReadFault>
    ensures { Reads c.old c.new result ((sized (funcs usual sigs.now)).read c.old.end c.old.left) }
{
    let mut inside = bounded(c)?;
    let funcs = funcs_of(alloc, sigs, &mut inside)?;
    ended(&inside)?;
    Ok(funcs)
}

/// Reads the table section, whose size stands before it.
#[tactic(auto, unfolding(ms_bin_grammar::specs::Inside::sized_at))]
fn sized_tables_of(alloc: Global, c: &mut Cursor) -> Result<Vector<Limits>, ReadFault>
    ensures { Reads c.old c.new result ((sized (vec table_type)).read c.old.end c.old.left) }
{
    let mut inside = bounded(c)?;
    let tables = tables_of(alloc, &mut inside)?;
    ended(&inside)?;
    Ok(tables)
}

/// Reads an item, whose size stands before it, into this place.
fn read_into<T: Item>(place: &mut T, alloc: Global, c: &mut Cursor) -> Result<(), ReadFault>
    ensures { StepsTo place.new c.old c.new result ((sized T.format).read c.old.end c.old.left) }
{
    *place = sized_of(alloc, c)?;
    Ok(())
}

/// Reads the table section into this place.
fn tables_into(place: &mut Vector<Limits>, alloc: Global, c: &mut Cursor) -> Result<(), ReadFault>
    ensures { StepsTo place.new c.old c.new result ((sized (vec table_type)).read c.old.end c.old.left) }
{
    *place = sized_tables_of(alloc, c)?;
    Ok(())
}

/// Reads the code section, for functions of these types, into this place.
fn funcs_into(
    place: &mut Vector<Func>,
    sigs: &[u32],
    alloc: Global,
    c: &mut Cursor,
) -> Result<(), ReadFault>
    ensures { StepsTo place.new c.old c.new result ((sized (funcs usual sigs.now)).read c.old.end c.old.left) }
{
    *place = sized_funcs_of(alloc, sigs, c)?;
    Ok(())
}

/// No section so far.
pub fn no_sections(alloc: Global) -> Sections
    ensures { result ≡ nothing_yet }
{
    Sections {
        last: 0,
        sigs: Vector::new(alloc),
        imports: Vector::new(alloc),
        indices: Vector::new(alloc),
        tables: Vector::new(alloc),
        memories: Vector::new(alloc),
        globals: Vector::new(alloc),
        exports: Vector::new(alloc),
        start: None,
        elements: Vector::new(alloc),
        funcs: Vector::new(alloc),
        fills: Vector::new(alloc),
    }
}

/// The module of all sections.
pub fn module_of(sections: Sections) -> Module
    ensures { result ≡ module_of sections }
{
    let Sections {
        last: _,
        sigs,
        imports,
        indices: _,
        tables,
        memories,
        globals,
        exports,
        start,
        elements,
        funcs,
        fills,
    } = sections;
    Module {
        sigs,
        imports,
        funcs,
        tables,
        memories,
        globals,
        exports,
        elements,
        fills,
        start,
    }
}

impl Steps for Sections {
    ghost going = { has_more };

    ghost step = { section usual };

    fn goes(&self, c: &Cursor) -> bool {
        !c.is_empty()
    }

    /// Reads a section.
    #[tactic(auto, unfolding(ms_bin_grammar::specs::Module::section, ms_bin_grammar::specs::Module::section_rows))]
    fn step(&mut self, alloc: Global, c: &mut Cursor) -> Result<(), ReadFault> {
        let at = c.at();
        let id = byte_of(c)?;
        if id == 0 {
            return sized_custom_of(c);
        }
        let last = mem::replace(&mut self.last, id);
        match id {
            1 if last < 1 => read_into(&mut self.sigs, alloc, c),
            2 if last < 2 => read_into(&mut self.imports, alloc, c),
            3 if last < 3 => read_into(&mut self.indices, alloc, c),
            4 if last < 4 => tables_into(&mut self.tables, alloc, c),
            5 if last < 5 => read_into(&mut self.memories, alloc, c),
            6 if last < 6 => read_into(&mut self.globals, alloc, c),
            7 if last < 7 => read_into(&mut self.exports, alloc, c),
            8 if last < 8 => {
                self.start = Some(sized_of(alloc, c)?);
                Ok(())
            }
            9 if last < 9 => read_into(&mut self.elements, alloc, c),
            10 if last < 10 => funcs_into(&mut self.funcs, self.indices.as_slice(), alloc, c),
            11 if last < 11 => read_into(&mut self.fills, alloc, c),
            _ => Err(ReadFault::Malformed { at }),
        }
    }
}
