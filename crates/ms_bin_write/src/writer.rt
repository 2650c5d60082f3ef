//! Writing a module (WebAssembly 1.0, 5.5.15).

ghost use Rattle.std.specs.Prelude.{◌≡◌, ◌≢◌, ◌<◌, ◌^◌, ◌++◌, length, IfOk, OnOk, Err};
ghost use Rattle.ms_module.specs.declared.module.Module.{Module};
ghost use Rattle.ms_bin_grammar.specs.Bounds.{Bounds};
ghost use Rattle.ms_bin_grammar.specs.Module.{Spells, SpellsWithin};
ghost use Rattle.ms_bin_write.specs.declared.fault.BinFault.TheVariants.{Large};
ghost use Rattle.ms_bin_write.specs.Parts.{number_bytes, vec_bytes};
ghost use Rattle.ms_flat.specs.refinement.Ranges.{AllFit, NumberFits, NumberFitsIf};
ghost use Rattle.ms_bin_write.specs.refinement.Ranges.{ModuleFits};
ghost use Rattle.ms_bin_write.specs.Written.{IsLarge, IsTooMany, KeepsBounds, part_bytes, sections_bytes, sigs_of, start_bytes, written};

use crate::fault::BinFault;
use crate::funcs::{write_code_section, write_table_section};
use crate::items::{Item, write_part, write_section};
use ms_module::{Func, Module};
use ms_types::Vector;
use std::alloc::Global;

/// Writes the start section, if there is a start function.
fn write_start(alloc: Global, start: Option<u32>, out: &mut Vec<u8>) -> Result<(), BinFault>
    ensures written { OnOk result (out.new.items ≡ out.old.items ++ start_bytes start) }
    ensures within { NumberFitsIf start }
    ensures large { result ≢ Err Large }
{
    let Some(index) = start else {
        return Ok(());
    };
    let mut content = Vec::new(alloc);
    index.write(alloc, &mut content)?;
    write_section(8, content.as_slice(), out)
}

/// Writes the function section. Without functions there is none.
fn write_function_section(
    alloc: Global,
    funcs: &Vector<Func>,
    out: &mut Vec<u8>,
) -> Result<(), BinFault>
    ensures written { OnOk result (out.new.items ≡ out.old.items ++ part_bytes 3 number_bytes (sigs_of funcs.now)) }
    ensures within { OnOk result (AllFit NumberFits (sigs_of funcs.now)) }
    ensures small { OnOk result (length (vec_bytes number_bytes (sigs_of funcs.now)) < 2 ^ 32) }
    ensures large { result ≡ Err Large → IsTooMany number_bytes (sigs_of funcs.now) }
{
    let sigs: Vec<u32> = funcs.as_slice().iter().map(|func| func.sig).collect(alloc)?;
    write_part(alloc, 3, &Vector::from_vec(sigs), out)
}

/// Writes the sections of a module behind the markers.
#[tactic(auto, unfolding(crate::specs::Written::sections_bytes))]
fn write_sections(alloc: Global, module: &Module, out: &mut Vec<u8>) -> Result<(), BinFault>
    ensures written { OnOk result (out.new.items ≡ out.old.items ++ sections_bytes «module».now) }
    ensures within { OnOk result (ModuleFits «module».now) }
    ensures small { OnOk result (¬ IsLarge «module».now) }
    ensures large { result ≡ Err Large → IsLarge «module».now }
{
    write_part(alloc, 1, &module.sigs, out)?;
    write_part(alloc, 2, &module.imports, out)?;
    write_function_section(alloc, &module.funcs, out)?;
    write_table_section(alloc, &module.tables, out)?;
    write_part(alloc, 5, &module.memories, out)?;
    write_part(alloc, 6, &module.globals, out)?;
    write_part(alloc, 7, &module.exports, out)?;
    write_start(alloc, module.start, out)?;
    write_part(alloc, 9, &module.elements, out)?;
    write_code_section(alloc, &module.funcs, out)?;
    write_part(alloc, 11, &module.fills, out)
}

/// Writes a module in bytes, the same for the same module.
///
/// `Large` exactly where a section, or the body of a function, would have 2^32 bytes or more. `Memory` where memory ran out.
pub fn write(alloc: Global, module: &Module) -> Result<Vec<u8>, BinFault>
    ensures written { IfOk result (λ bytes. bytes.items ≡ written «module».now) }
    // `Large` is told only where it is so, and where it is so nothing is written.
    ensures large { result ≡ Err Large → IsLarge «module».now }
    ensures small { OnOk result (¬ IsLarge «module».now) }
    // The bytes spell the module, and within all bounds that it keeps.
    ensures spelled { IfOk result (λ bytes. Spells bytes.items «module».now) }
    ensures within { IfOk result (λ bytes. (bounds : Bounds) → KeepsBounds bounds «module».now → SpellsWithin bounds bytes.items «module».now) }
    // They spell no other module.
    ensures only { IfOk result (λ bytes. (other : Module) → Spells bytes.items other → other ≡ «module».now) }
{
    let mut out = Vec::from_slice(alloc, &[0x00, 0x61, 0x73, 0x6D, 0x01, 0x00, 0x00, 0x00])?;
    write_sections(alloc, module, &mut out)?;
    Ok(out)
}
