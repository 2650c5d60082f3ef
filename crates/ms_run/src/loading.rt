//! Reading and validating the module of a file.

ghost use Rattle.std.specs.Prelude.{◌≡◌, ◌==◌, ◌⊎◌, Ok, Err, IfErr, IfOk};
ghost use Rattle.std.specs.List.{ends_with};
ghost use Rattle.ms_module.specs.declared.module.Module.{Module};
ghost use Rattle.ms_rules.specs.Modules.{WellTyped};
ghost use Rattle.ms_run.specs.Answers.{HasModule, Unloaded};
ghost use Rattle.ms_run.specs.Observed.{reported, shelved};
ghost use Rattle.ms_run.specs.Reporting.{Holds, IsFound, IsUntouched, Tells};
ghost use Rattle.ms_run.specs.Loading.{Binary, IsOfReading, ReadsForm, Refuses, Source, Spells, Text, form_of, source_ending, text_ending};
ghost use Rattle.ms_run.specs.declared.loading.LoadFault.TheVariants.{Memory};

use crate::fetch::fetch;
use crate::report::answer_fault;
use crate::source::{SourceFault, module_of};
use crate::status::Status;
use ms_bin_read::ReadFault;
use ms_module::Module;
use ms_outside::{Shelf, Sink};
use ms_text_grammar::TextFault;
use ms_valid::{Refusal, Valid, validate};
use std::alloc::Global;
use thiserror::Error;

/// Why the bytes of a file are no valid module. A fault that is carried is not want of memory.
#[derive(Clone, Copy, Debug, PartialEq, Eq, Error)]
pub enum LoadFault {
    /// The file is a binary module by its name, and its bytes spell none: the first fault, with its place.
    #[error("{0}")]
    Read(ReadFault),
    /// The file is a text by its name, and its bytes spell no module: why, with its place.
    #[error("{0}")]
    Text(TextFault),
    /// The file is C by its name, and its bytes are no unit that is compiled: why, with its place.
    #[error("{0}")]
    Source(SourceFault),
    /// They spell a module that is not well typed: its first part that is wrong.
    #[error("{0}")]
    Invalid(Refusal),
    /// Memory ran out.
    #[error("memory ran out")]
    Memory,
}

/// Whether a file of this name is a text: its name ends in `.wat`.
fn is_text(name: &str) -> bool
    ensures { result ≡ ends_with ◌==◌ name.now text_ending }
{
    name.as_bytes().ends_with(b".wat")
}

/// Whether a file of this name is C: its name ends in `.c`.
fn is_source(name: &str) -> bool
    ensures { result ≡ ends_with ◌==◌ name.now source_ending }
{
    name.as_bytes().ends_with(b".c")
}

/// Reads the module that the bytes of a binary file spell.
pub fn read_binary(alloc: Global, bytes: &[u8]) -> Result<Module, LoadFault>
    ensures reads { ReadsForm Binary bytes.now result }
    ensures reading { IfErr result IsOfReading }
{
    match ms_bin_read::read(alloc, bytes) {
        Ok(module) => Ok(module),
        Err(ReadFault::Memory) => Err(LoadFault::Memory),
        Err(fault) => Err(LoadFault::Read(fault)),
    }
}

/// Reads the module that the bytes of a text file spell.
pub fn read_text(alloc: Global, bytes: &[u8]) -> Result<Module, LoadFault>
    ensures reads { ReadsForm Text bytes.now result }
    ensures reading { IfErr result IsOfReading }
{
    match ms_text_read::read(alloc, bytes) {
        Ok(module) => Ok(module),
        Err(TextFault::Memory) => Err(LoadFault::Memory),
        Err(fault) => Err(LoadFault::Text(fault)),
    }
}

/// Reads the module of the unit that the bytes of a file of C are.
pub fn read_source(alloc: Global, bytes: &[u8]) -> Result<Module, LoadFault>
    ensures reads { ReadsForm Source bytes.now result }
    ensures reading { IfErr result IsOfReading }
{
    match module_of(alloc, bytes) {
        Ok(module) => Ok(module),
        Err(SourceFault::Memory) => Err(LoadFault::Memory),
        Err(fault) => Err(LoadFault::Source(fault)),
    }
}

/// Reads the module of a file of this name.
fn read_module(alloc: Global, name: &str, bytes: &[u8]) -> Result<Module, LoadFault>
    ensures { ReadsForm (form_of name.now) bytes.now result }
{
    if is_source(name) {
        return read_source(alloc, bytes);
    }
    if is_text(name) {
        read_text(alloc, bytes)
    } else {
        read_binary(alloc, bytes)
    }
}

/// Reads and validates the module of a file: that of a unit of C (C11, 6.9) where its name ends in `.c`, a text (WebAssembly 1.0,
/// chapter 6) where it ends in `.wat`, else a binary module (chapter 5). At most 500 blocks may be in one another, 1,000 parentheses, and 50,000 locals in a
/// function.
///
/// An error says why the bytes are no valid module, with its place; `Memory` may stand in place of any answer.
pub fn load_module(alloc: Global, name: &str, bytes: &[u8]) -> Result<Valid, LoadFault>
    // What is loaded is spelled so, and is well typed.
    ensures found { IfOk result (λ m. Spells (form_of name.now) bytes.now m × WellTyped m) }
    // What is spelled so and is well typed is loaded, unless memory runs out.
    ensures only { (m : Module) → Spells (form_of name.now) bytes.now m → WellTyped m
        → (result ≡ Ok m) ⊎ (result ≡ Err Memory) }
    // An error is the cause that it names.
    ensures refused { IfErr result (Refuses (form_of name.now) bytes.now) }
{
    let module = match read_module(alloc, name, bytes) {
        Ok(module) => module,
        Err(fault) => return Err(fault),
    };
    match validate(alloc, module) {
        Ok(valid) => Ok(valid),
        Err((_, Refusal::Invalid { part })) => {
            Err(LoadFault::Invalid(Refusal::Invalid { part }))
        }
        Err((_, Refusal::Memory)) => Err(LoadFault::Memory),
    }
}

/// The module of a file, or the status where there is none, with its line put into the report: `what` is refused.
pub fn load_file<F: Shelf, R: Sink>(
    alloc: Global,
    what: &str,
    file: &str,
    shelf: &mut F,
    report: &mut R,
) -> Result<Valid, Status>
    ensures module { IfOk result (HasModule (Holds (F.files shelf.old)) file.now) }
    ensures untouched { IfOk result (λ _. IsUntouched
        (shelved F.files F.read_faults F.write_faults shelf.old shelf.new)
        (reported R.held R.faults report.old report.new)) }
    ensures printed { IfErr result (Tells
        (Unloaded (IsFound (shelved F.files F.read_faults F.write_faults shelf.old shelf.new)) what.now file.now)
        (shelved F.files F.read_faults F.write_faults shelf.old shelf.new)
        (reported R.held R.faults report.old report.new)) }
{
    let bytes = match fetch(alloc, file, shelf, report) {
        Ok(bytes) => bytes,
        Err(status) => return Err(status),
    };
    match load_module(alloc, file, bytes.as_slice()) {
        Ok(valid) => Ok(valid),
        Err(fault) => Err(answer_fault(alloc, what, fault, report)),
    }
}
