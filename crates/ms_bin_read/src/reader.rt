//! Reading a module (WebAssembly 1.0, 5.5.15).

ghost use Rattle.std.specs.Prelude.{◌≡◌, ◌⊎◌, IfErr, IfOk, Ok, Err};
ghost use Rattle.ms_bin_grammar.specs.declared.fault.ReadFault.{ReadFault};
ghost use Rattle.ms_bin_grammar.specs.declared.fault.ReadFault.TheVariants.{Memory};
ghost use Rattle.ms_bin_grammar.specs.Module.{SpellsWithin, Stops, module_format};
ghost use Rattle.ms_bin_grammar.specs.Bounds.{usual};
ghost use Rattle.ms_module.specs.declared.module.Module.{Module};
ghost use Rattle.ms_bin_read.specs.refinement.Readers.{IsFirstFault, Reads};

use crate::items::marks_of;
use crate::sections::{module_of, no_sections};
use crate::steps::run;
use ms_bin_grammar::ReadFault;
use ms_bytes::Cursor;
use ms_module::Module;
use std::alloc::Global;

/// Reads the markers, the sections, and that the functions are as many as their bodies.
#[tactic(auto, unfolding(ms_bin_grammar::specs::Module::module_format))]
fn whole_module(alloc: Global, c: &mut Cursor) -> Result<Module, ReadFault>
    ensures { Reads c.old c.new result ((module_format usual).read c.old.end c.old.left) }
{
    marks_of(&[0x00, 0x61, 0x73, 0x6D], c)?;
    marks_of(&[0x01, 0x00, 0x00, 0x00], c)?;
    let sections = run(alloc, no_sections(alloc), c)?;
    if sections.funcs.len() != sections.indices.len() {
        return Err(ReadFault::Malformed { at: c.at() });
    }
    Ok(module_of(sections))
}

/// Reads the module that the bytes spell, of any length below 2^64, with at most 500 blocks in one another and 50,000
/// declared locals in a function.
///
/// Any other bytes have a first fault, and its place is that of the first item that is wrong: `Malformed`, `Float`, or
/// `Limit`. `Memory` where memory ran out.
pub fn read(alloc: Global, bytes: &[u8]) -> Result<Module, ReadFault>
    // What is read is spelled so.
    ensures found { IfOk result (SpellsWithin usual bytes.now) }
    // What is spelled so is read, unless memory runs out.
    ensures only { (m : Module) → SpellsWithin usual bytes.now m → (result ≡ Ok m) ⊎ (result ≡ Err Memory) }
    // A fault is the first that the bytes have, and at its place.
    ensures fault { IfErr result (IsFirstFault bytes.now) }
    // The first fault that the bytes have is told, unless memory runs out.
    ensures stops { (first : ReadFault) → Stops bytes.now first → (result ≡ Err first) ⊎ (result ≡ Err Memory) }
{
    let mut c = Cursor::new(bytes);
    match whole_module(alloc, &mut c) {
        Ok(module) => Ok(module),
        Err(fault) => Err(fault),
    }
}
