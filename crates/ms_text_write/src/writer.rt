//! Writing a module (WebAssembly 1.0, 6.6.13).

ghost use Rattle.std.specs.Prelude.{◌≡◌, ◌++◌, OnOk, IfOk};
ghost use Rattle.ms_module.specs.declared.module.Module.{Module};
ghost use Rattle.ms_text_grammar.specs.Bounds.{Bounds};
ghost use Rattle.ms_text_grammar.specs.TextSpells.{TextSpellsUnbounded, TextSpellsWithin};
ghost use Rattle.ms_text_write.specs.refinement.Limits.{KeepsBounds};
ghost use Rattle.ms_text_write.specs.Types.{memory_text, table_text};
ghost use Rattle.ms_flat.specs.refinement.Ranges.{AllFit, LimitsFit, NumberFitsIf};
ghost use Rattle.ms_text_write.specs.refinement.Ranges.{PartsFit, UsesFit};
ghost use Rattle.ms_text_write.specs.Shown.{lines, parts_text, shown, start_line, uses_text};

use crate::parts::{Show, write_behind, write_indexed, write_opened};
use crate::types::{write_memory, write_table};
use ms_module::Module;
use ms_text_grammar::Word;
use ms_types::Limits;
use std::alloc::{AllocError, Global};

/// Writes fields, each behind the beginning of a line.
#[tactic(auto, unfolding(crate::specs::Shown::lines))]
fn write_lines<T: Show>(alloc: Global, fields: &[T], out: &mut Vec<u8>) -> Result<(), AllocError>
    ensures written { OnOk result (out.new.items ≡ out.old.items ++ lines T.text fields.now) }
    ensures within { OnOk result (AllFit T.fits fields.now) }
{
    write_behind(alloc, b"\n  ", fields, out)
}

/// Writes tables, a line each.
#[tactic(auto, unfolding(crate::specs::Shown::lines))]
fn write_tables(tables: &[Limits], out: &mut Vec<u8>) -> Result<(), AllocError>
    ensures written { OnOk result (out.new.items ≡ out.old.items ++ lines table_text tables.now) }
    ensures within { OnOk result (AllFit LimitsFit tables.now) }
{
    for limits in tables {
        out.extend_from_slice(b"\n  ")?;
        write_table(*limits, out)?;
    }
    Ok(())
}

/// Writes memories, a line each.
#[tactic(auto, unfolding(crate::specs::Shown::lines))]
fn write_memories(memories: &[Limits], out: &mut Vec<u8>) -> Result<(), AllocError>
    ensures written { OnOk result (out.new.items ≡ out.old.items ++ lines memory_text memories.now) }
    ensures within { OnOk result (AllFit LimitsFit memories.now) }
{
    for limits in memories {
        out.extend_from_slice(b"\n  ")?;
        write_memory(*limits, out)?;
    }
    Ok(())
}

/// Writes the line of the start function, if there is one.
fn write_start(start: Option<u32>, out: &mut Vec<u8>) -> Result<(), AllocError>
    ensures written { OnOk result (out.new.items ≡ out.old.items ++ start_line start) }
    ensures within { NumberFitsIf start }
{
    let Some(index) = start else {
        return Ok(());
    };
    out.extend_from_slice(b"\n  ")?;
    write_indexed(Word::Start, index, out)
}

/// Writes what the module is made of: types, imports, functions, tables, memories and globals.
#[tactic(auto, unfolding(crate::specs::Shown::parts_text))]
fn write_parts(alloc: Global, module: &Module, out: &mut Vec<u8>) -> Result<(), AllocError>
    ensures written { OnOk result (out.new.items ≡ out.old.items ++ parts_text «module».now) }
    ensures within { OnOk result (PartsFit «module».now) }
{
    write_lines(alloc, module.sigs.as_slice(), out)?;
    write_lines(alloc, module.imports.as_slice(), out)?;
    write_lines(alloc, module.funcs.as_slice(), out)?;
    write_tables(module.tables.as_slice(), out)?;
    write_memories(module.memories.as_slice(), out)?;
    write_lines(alloc, module.globals.as_slice(), out)
}

/// Writes what the module gives, and what it begins with: exports, the start function, elements and data.
#[tactic(auto, unfolding(crate::specs::Shown::uses_text))]
fn write_uses(alloc: Global, module: &Module, out: &mut Vec<u8>) -> Result<(), AllocError>
    ensures written { OnOk result (out.new.items ≡ out.old.items ++ uses_text «module».now) }
    ensures within { OnOk result (UsesFit «module».now) }
{
    write_lines(alloc, module.exports.as_slice(), out)?;
    write_start(module.start, out)?;
    write_lines(alloc, module.elements.as_slice(), out)?;
    write_lines(alloc, module.fills.as_slice(), out)
}

/// How much room a text has at first. An allocator gives so much as pages of their own, which take memory once they are written,
/// and grow without a copy.
const ROOM: usize = 0x20_0000;

/// Writes a module as text, the same for the same module. The one error is want of memory.
///
/// With at most 500 blocks in one another in each body, and 50,000 locals in each function, the text is read as the module.
pub fn write(alloc: Global, module: &Module) -> Result<Vec<u8>, AllocError>
    ensures written { IfOk result (λ text. text.items ≡ shown «module».now) }
    // The text spells the module, and within all bounds that it keeps.
    ensures spelled { IfOk result (λ text. TextSpellsUnbounded text.items «module».now) }
    ensures within { IfOk result (λ text. (bounds : Bounds) → KeepsBounds bounds «module».now → TextSpellsWithin bounds text.items «module».now) }
    // It spells no other module.
    ensures only { IfOk result (λ text. (other : Module) → TextSpellsUnbounded text.items other → other ≡ «module».now) }
{
    let mut out = Vec::with_capacity(alloc, ROOM)?;
    write_opened(Word::Module, &mut out)?;
    write_parts(alloc, module, &mut out)?;
    write_uses(alloc, module, &mut out)?;
    out.extend_from_slice(b")\n")?;
    Ok(out)
}
