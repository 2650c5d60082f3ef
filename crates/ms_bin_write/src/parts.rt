//! What sections hold (WebAssembly 1.0, 5.5), but for code.

ghost use Rattle.std.specs.Prelude.{◌≡◌};
ghost use Rattle.ms_bin_write.specs.Parts.{sized_bytes};
ghost use Rattle.ms_bin_write.specs.Written.{element_bytes, export_bytes, export_desc_bytes, fill_bytes, global_bytes, import_bytes, import_desc_bytes};
ghost use Rattle.ms_flat.specs.refinement.Ranges.{ElementFits, ExportDescFits, GlobalFits, ImportDescFits};
ghost use Rattle.ms_bin_write.specs.refinement.Ranges.{ExportFits, FillFits, ImportFits, NameFits};

use crate::items::{Item, write_sized, write_vec};
use ms_bin_grammar::ANY_FUNC;
use ms_module::{Element, Export, ExportDesc, Fill, Import, ImportDesc, Name};
use std::alloc::{AllocError, Global};

impl Item for Name {
    ghost bytes = { sized_bytes };

    ghost fits = { NameFits };

    fn write(&self, _alloc: Global, out: &mut Vec<u8>) -> Result<(), AllocError> {
        write_sized(self.as_str().as_bytes(), out)
    }
}

impl Item for ImportDesc {
    ghost bytes = { import_desc_bytes };

    ghost fits = { ImportDescFits };

    fn write(&self, alloc: Global, out: &mut Vec<u8>) -> Result<(), AllocError> {
        match self {
            ImportDesc::Func(sig) => {
                out.push(0x00)?;
                sig.write(alloc, out)
            }
            ImportDesc::Table(limits) => {
                out.push(0x01)?;
                out.push(ANY_FUNC)?;
                limits.write(alloc, out)
            }
            ImportDesc::Memory(limits) => {
                out.push(0x02)?;
                limits.write(alloc, out)
            }
            ImportDesc::Global(ty) => {
                out.push(0x03)?;
                ty.write(alloc, out)
            }
        }
    }
}

impl Item for Import {
    ghost bytes = { import_bytes };

    ghost fits = { ImportFits };

    fn write(&self, alloc: Global, out: &mut Vec<u8>) -> Result<(), AllocError> {
        self.module.write(alloc, out)?;
        self.name.write(alloc, out)?;
        self.desc.write(alloc, out)
    }
}

impl Item for ms_module::Global {
    ghost bytes = { global_bytes };

    ghost fits = { GlobalFits };

    fn write(&self, alloc: Global, out: &mut Vec<u8>) -> Result<(), AllocError> {
        self.ty.write(alloc, out)?;
        self.init.write(alloc, out)
    }
}

impl Item for ExportDesc {
    ghost bytes = { export_desc_bytes };

    ghost fits = { ExportDescFits };

    fn write(&self, alloc: Global, out: &mut Vec<u8>) -> Result<(), AllocError> {
        let (kind, index) = match *self {
            ExportDesc::Func(index) => (0x00, index),
            ExportDesc::Table(index) => (0x01, index),
            ExportDesc::Memory(index) => (0x02, index),
            ExportDesc::Global(index) => (0x03, index),
        };
        out.push(kind)?;
        index.write(alloc, out)
    }
}

impl Item for Export {
    ghost bytes = { export_bytes };

    ghost fits = { ExportFits };

    fn write(&self, alloc: Global, out: &mut Vec<u8>) -> Result<(), AllocError> {
        self.name.write(alloc, out)?;
        self.desc.write(alloc, out)
    }
}

impl Item for Element {
    ghost bytes = { element_bytes };

    ghost fits = { ElementFits };

    fn write(&self, alloc: Global, out: &mut Vec<u8>) -> Result<(), AllocError> {
        self.table.write(alloc, out)?;
        self.offset.write(alloc, out)?;
        write_vec(alloc, self.funcs.as_slice(), out)
    }
}

impl Item for Fill {
    ghost bytes = { fill_bytes };

    ghost fits = { FillFits };

    fn write(&self, alloc: Global, out: &mut Vec<u8>) -> Result<(), AllocError> {
        self.memory.write(alloc, out)?;
        self.offset.write(alloc, out)?;
        write_sized(self.bytes.as_slice(), out)
    }
}
