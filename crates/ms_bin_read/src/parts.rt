//! What sections hold (WebAssembly 1.0, 5.5), but for code.

ghost use Rattle.std.specs.Prelude.{◌≡◌};
ghost use Rattle.ms_bin_grammar.specs.Sizes.{bytes};
ghost use Rattle.ms_bin_grammar.specs.Module.{element, export, export_desc, fill, global, import, import_desc};
ghost use Rattle.ms_bin_grammar.specs.Bounds.{usual};
ghost use Rattle.ms_bin_read.specs.refinement.Readers.{Reads};

use crate::body::body_of;
use crate::items::{Item, byte_of};
use crate::numbers::u32_of;
use crate::types::table_type_of;
use ms_bin_grammar::ReadFault;
use ms_bytes::Cursor;
use ms_module::{Element, Export, ExportDesc, Fill, Import, ImportDesc, Name};
use ms_types::{GlobalType, Limits, Vector};
use std::alloc::Global;

impl Item for ImportDesc {
    ghost format = { import_desc };

    #[tactic(auto, unfolding(ms_bin_grammar::specs::Module::import_desc))]
    fn read(alloc: Global, c: &mut Cursor) -> Result<Self, ReadFault> {
        let at = c.at();
        match byte_of(c)? {
            0x00 => Ok(ImportDesc::Func(u32_of(c)?)),
            0x01 => Ok(ImportDesc::Table(table_type_of(alloc, c)?)),
            0x02 => Ok(ImportDesc::Memory(Limits::read(alloc, c)?)),
            0x03 => Ok(ImportDesc::Global(GlobalType::read(alloc, c)?)),
            _ => Err(ReadFault::Malformed { at }),
        }
    }
}

impl Item for Import {
    ghost format = { import };

    #[tactic(auto, unfolding(ms_bin_grammar::specs::Module::import))]
    fn read(alloc: Global, c: &mut Cursor) -> Result<Self, ReadFault> {
        let module = Name::read(alloc, c)?;
        let name = Name::read(alloc, c)?;
        let desc = ImportDesc::read(alloc, c)?;
        Ok(Import { module, name, desc })
    }
}

impl Item for ms_module::Global {
    ghost format = { global usual };

    #[tactic(auto, unfolding(ms_bin_grammar::specs::Module::global))]
    fn read(alloc: Global, c: &mut Cursor) -> Result<Self, ReadFault> {
        let ty = GlobalType::read(alloc, c)?;
        let init = body_of(alloc, c)?;
        Ok(ms_module::Global { ty, init })
    }
}

impl Item for ExportDesc {
    ghost format = { export_desc };

    #[tactic(auto, unfolding(ms_bin_grammar::specs::Module::export_desc))]
    fn read(_alloc: Global, c: &mut Cursor) -> Result<Self, ReadFault> {
        let at = c.at();
        match byte_of(c)? {
            0x00 => Ok(ExportDesc::Func(u32_of(c)?)),
            0x01 => Ok(ExportDesc::Table(u32_of(c)?)),
            0x02 => Ok(ExportDesc::Memory(u32_of(c)?)),
            0x03 => Ok(ExportDesc::Global(u32_of(c)?)),
            _ => Err(ReadFault::Malformed { at }),
        }
    }
}

impl Item for Export {
    ghost format = { export };

    #[tactic(auto, unfolding(ms_bin_grammar::specs::Module::export))]
    fn read(alloc: Global, c: &mut Cursor) -> Result<Self, ReadFault> {
        let name = Name::read(alloc, c)?;
        let desc = ExportDesc::read(alloc, c)?;
        Ok(Export { name, desc })
    }
}

impl Item for Element {
    ghost format = { element usual };

    #[tactic(auto, unfolding(ms_bin_grammar::specs::Module::element))]
    fn read(alloc: Global, c: &mut Cursor) -> Result<Self, ReadFault> {
        let table = u32_of(c)?;
        let offset = body_of(alloc, c)?;
        let funcs = Item::read(alloc, c)?;
        Ok(Element {
            table,
            offset,
            funcs,
        })
    }
}

/// Reads so many bytes. A missing one is where the bytes end.
fn bytes_of(alloc: Global, count: u32, c: &mut Cursor) -> Result<Vector<u8>, ReadFault>
    ensures { Reads c.old c.new result ((bytes count).read c.old.end c.old.left) }
{
    let end = c.end();
    match c.take_n(count as usize) {
        Some(bytes) => Ok(Vector::from_vec(Vec::from_slice(alloc, bytes)?)),
        None => Err(ReadFault::Malformed { at: end }),
    }
}

impl Item for Fill {
    ghost format = { fill usual };

    #[tactic(auto, unfolding(ms_bin_grammar::specs::Module::fill))]
    fn read(alloc: Global, c: &mut Cursor) -> Result<Self, ReadFault> {
        let memory = u32_of(c)?;
        let offset = body_of(alloc, c)?;
        let count = u32_of(c)?;
        let bytes = bytes_of(alloc, count, c)?;
        Ok(Fill {
            memory,
            offset,
            bytes,
        })
    }
}
