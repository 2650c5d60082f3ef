//! Writing the fields of a module (WebAssembly 1.0, 6.6), but for functions.

ghost use Rattle.std.specs.Prelude.{◌≡◌, ◌++◌, ◌<◌, ◌^◌, OnOk};
ghost use Rattle.ms_text_write.specs.Parts.{string_text};
ghost use Rattle.ms_flat.specs.refinement.Ranges.{CodeFits, ElementFits, ExportDescFits, GlobalFits, ImportDescFits};
ghost use Rattle.ms_text_write.specs.refinement.Ranges.{ExportFits, FillFits, ImportFits, NameFits};
ghost use Rattle.ms_text_write.specs.Shown.{element_text, export_desc_text, export_text, fill_text, global_text, import_desc_text, import_text, place_text};

use crate::body::write_body;
use crate::parts::{Show, write_behind, write_indexed, write_number, write_opened, write_string};
use crate::types::{write_global_type, write_memory, write_table};
use ms_module::{Code, Element, Export, ExportDesc, Fill, Import, ImportDesc, Name};
use ms_text_grammar::Word;
use std::alloc::{AllocError, Global};

/// Writes a name between quotes.
fn write_name(name: &Name, out: &mut Vec<u8>) -> Result<(), AllocError>
    ensures written { OnOk result (out.new.items ≡ out.old.items ++ string_text name.now) }
    ensures within { OnOk result (NameFits name.now) }
{
    write_string(name.as_str().as_bytes(), out)
}

/// Writes what an import asks for.
#[tactic(auto, unfolding(crate::specs::Shown::import_desc_text))]
fn write_import_desc(desc: ImportDesc, out: &mut Vec<u8>) -> Result<(), AllocError>
    ensures written { OnOk result (out.new.items ≡ out.old.items ++ import_desc_text desc) }
    ensures within { ImportDescFits desc }
{
    match desc {
        ImportDesc::Func(sig) => {
            write_opened(Word::Func, out)?;
            out.push(b' ')?;
            write_indexed(Word::Type, sig, out)?;
            out.push(b')')?;
            Ok(())
        }
        ImportDesc::Table(limits) => write_table(limits, out),
        ImportDesc::Memory(limits) => write_memory(limits, out),
        ImportDesc::Global(ty) => {
            write_opened(Word::Global, out)?;
            out.push(b' ')?;
            write_global_type(ty, out)?;
            out.push(b')')?;
            Ok(())
        }
    }
}

impl Show for Import {
    ghost text = { import_text };

    ghost fits = { ImportFits };

    #[tactic(auto, unfolding(crate::specs::Shown::import_text))]
    fn show(&self, _alloc: Global, out: &mut Vec<u8>) -> Result<(), AllocError> {
        write_opened(Word::Import, out)?;
        out.push(b' ')?;
        write_name(&self.module, out)?;
        out.push(b' ')?;
        write_name(&self.name, out)?;
        out.push(b' ')?;
        write_import_desc(self.desc, out)?;
        out.push(b')')?;
        Ok(())
    }
}

/// Writes what an export gives.
fn write_export_desc(desc: ExportDesc, out: &mut Vec<u8>) -> Result<(), AllocError>
    ensures written { OnOk result (out.new.items ≡ out.old.items ++ export_desc_text desc) }
    ensures within { ExportDescFits desc }
{
    match desc {
        ExportDesc::Func(index) => write_indexed(Word::Func, index, out),
        ExportDesc::Table(index) => write_indexed(Word::Table, index, out),
        ExportDesc::Memory(index) => write_indexed(Word::Memory, index, out),
        ExportDesc::Global(index) => write_indexed(Word::Global, index, out),
    }
}

impl Show for Export {
    ghost text = { export_text };

    ghost fits = { ExportFits };

    #[tactic(auto, unfolding(crate::specs::Shown::export_text))]
    fn show(&self, _alloc: Global, out: &mut Vec<u8>) -> Result<(), AllocError> {
        write_opened(Word::Export, out)?;
        out.push(b' ')?;
        write_name(&self.name, out)?;
        out.push(b' ')?;
        write_export_desc(self.desc, out)?;
        out.push(b')')?;
        Ok(())
    }
}

impl Show for ms_module::Global {
    ghost text = { global_text };

    ghost fits = { GlobalFits };

    #[tactic(auto, unfolding(crate::specs::Shown::global_text))]
    fn show(&self, alloc: Global, out: &mut Vec<u8>) -> Result<(), AllocError> {
        write_opened(Word::Global, out)?;
        out.push(b' ')?;
        write_global_type(self.ty, out)?;
        write_body(alloc, b" ", &self.init, out)?;
        out.push(b')')?;
        Ok(())
    }
}

/// Writes the index of a table or a memory, and the place in it.
#[tactic(auto, unfolding(crate::specs::Shown::place_text))]
fn write_place(
    alloc: Global,
    index: u32,
    offset: &Code,
    out: &mut Vec<u8>,
) -> Result<(), AllocError>
    ensures written { OnOk result (out.new.items ≡ out.old.items ++ place_text index offset.now) }
    ensures within { OnOk result ((index < 2 ^ 32) × CodeFits offset.now) }
{
    out.push(b' ')?;
    write_number(index, out)?;
    out.push(b' ')?;
    write_opened(Word::Offset, out)?;
    write_body(alloc, b" ", offset, out)?;
    out.push(b')')?;
    Ok(())
}

impl Show for Element {
    ghost text = { element_text };

    ghost fits = { ElementFits };

    #[tactic(auto, unfolding(crate::specs::Shown::element_text))]
    fn show(&self, alloc: Global, out: &mut Vec<u8>) -> Result<(), AllocError> {
        write_opened(Word::Elem, out)?;
        write_place(alloc, self.table, &self.offset, out)?;
        write_behind(alloc, b" ", self.funcs.as_slice(), out)?;
        out.push(b')')?;
        Ok(())
    }
}

impl Show for Fill {
    ghost text = { fill_text };

    ghost fits = { FillFits };

    #[tactic(auto, unfolding(crate::specs::Shown::fill_text))]
    fn show(&self, alloc: Global, out: &mut Vec<u8>) -> Result<(), AllocError> {
        write_opened(Word::Data, out)?;
        write_place(alloc, self.memory, &self.offset, out)?;
        out.push(b' ')?;
        write_string(self.bytes.as_slice(), out)?;
        out.push(b')')?;
        Ok(())
    }
}
