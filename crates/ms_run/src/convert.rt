//! `asm`, `compile` and `dis`: a module is read in one form and written in another.

ghost use Rattle.std.specs.Prelude.{◌≡◌, ℕ, IfErr, List, Some, length};
ghost use Rattle.ms_outside.specs.Shelf.{SameCounts};
ghost use Rattle.ms_run.specs.Answers.{Assembles, Disassembles, OnFile, writes};
ghost use Rattle.ms_run.specs.Lines.{written_line};
ghost use Rattle.ms_run.specs.Loading.{Binary, Form, IsOfReading, ReadsForm, Source, Text};
ghost use Rattle.ms_run.specs.Reporting.{Delivers, Did, IsFound, Makes};
ghost use Rattle.ms_run.specs.declared.status.Status.{Status};
ghost use Rattle.ms_run.specs.Observed.{reported, shelved};

use crate::fetch::fetch;
use crate::lines::{large_line, written_line};
use crate::loading::{LoadFault, read_binary, read_source, read_text};
use crate::report::{answer, answer_fault, write_and_answer};
use crate::status::Status;
use ms_bin_write::BinFault;
use ms_module::Module;
use ms_outside::{Shelf, Sink, Source};
use std::alloc::Global;

/// Writes a file, and reports how many bytes it has.
fn deliver<F: Shelf, R: Sink>(
    alloc: Global,
    name: &str,
    bytes: &[u8],
    shelf: &mut F,
    report: &mut R,
) -> Status
    ensures delivered { Delivers (writes name.now bytes.now)
        (shelved F.files F.read_faults F.write_faults shelf.old shelf.new)
        (reported R.held R.faults report.old report.new)
        result }
    ensures reads { SameCounts (F.read_faults shelf.old) (F.read_faults shelf.new) }
{
    let Ok(line) = written_line(alloc, bytes.len()) else {
        return Status::OutOfMemory;
    };
    write_and_answer(
        alloc,
        name,
        bytes,
        Status::Done,
        line.as_bytes(),
        shelf,
        report,
    )
}

/// Writes a module in binary to a file.
fn assemble<F: Shelf, R: Sink>(
    alloc: Global,
    read: Result<Module, LoadFault>,
    target: &str,
    shelf: &mut F,
    report: &mut R,
) -> Status
    ensures makes { (form : Form) (bytes : List ℕ) → ReadsForm form bytes read → IfErr read IsOfReading
        → Makes (Assembles form target.now) bytes
        (shelved F.files F.read_faults F.write_faults shelf.old shelf.new)
        (reported R.held R.faults report.old report.new)
        result }
    ensures reads { SameCounts (F.read_faults shelf.old) (F.read_faults shelf.new) }
{
    let module = match read {
        Ok(module) => module,
        Err(fault) => return answer_fault(alloc, "", fault, report),
    };
    match ms_bin_write::write(alloc, &module) {
        Ok(binary) => deliver(alloc, target, binary.as_slice(), shelf, report),
        Err(BinFault::Large) => answer(report, Status::Refused, large_line()),
        Err(BinFault::Memory) => Status::OutOfMemory,
    }
}

fn asm_bytes<F: Shelf, R: Sink>(
    alloc: Global,
    bytes: Vec<u8>,
    target: &str,
    shelf: &mut F,
    report: &mut R,
) -> Status
    ensures makes { Makes (Assembles Text target.now) bytes.items
        (shelved F.files F.read_faults F.write_faults shelf.old shelf.new)
        (reported R.held R.faults report.old report.new)
        result }
    ensures reads { SameCounts (F.read_faults shelf.old) (F.read_faults shelf.new) }
{
    let module = take_text(alloc, bytes);
    assemble(alloc, module, target, shelf, report)
}

fn compile_bytes<F: Shelf, R: Sink>(
    alloc: Global,
    bytes: Vec<u8>,
    target: &str,
    shelf: &mut F,
    report: &mut R,
) -> Status
    ensures makes { Makes (Assembles Source target.now) bytes.items
        (shelved F.files F.read_faults F.write_faults shelf.old shelf.new)
        (reported R.held R.faults report.old report.new)
        result }
    ensures reads { SameCounts (F.read_faults shelf.old) (F.read_faults shelf.new) }
{
    let module = take_source(alloc, bytes);
    assemble(alloc, module, target, shelf, report)
}

/// `asm FILE OUT`: reads a module in text, whatever the file's name, and writes it in binary to the file `target`, the
/// module being valid or not. How many bytes were written goes to the report, or the first fault with its place.
pub fn asm_file<F: Shelf, I: Source, O: Sink, R: Sink>(
    alloc: Global,
    file: &str,
    target: &str,
    shelf: &mut F,
    _input: &mut I,
    _out: &mut O,
    report: &mut R,
) -> Status
    ensures did { Did (OnFile (IsFound (shelved F.files F.read_faults F.write_faults shelf.old shelf.new)) file.now (Assembles Text target.now))
        (shelved F.files F.read_faults F.write_faults shelf.old shelf.new)
        (reported R.held R.faults report.old report.new)
        result }
    ensures input { (I.left _input.new ≡ I.left _input.old) × (I.faults _input.new ≡ I.faults _input.old) }
    ensures out { (O.held _out.new ≡ O.held _out.old) × (O.faults _out.new ≡ O.faults _out.old) }
{
    match fetch(alloc, file, shelf, report) {
        Ok(bytes) => asm_bytes(alloc, bytes, target, shelf, report),
        Err(status) => status,
    }
}

/// `compile FILE OUT`: reads a unit of C, whatever the file's name, and writes its module in binary to the file `target`. How many bytes were written goes to the report, or the first fault with its place.
pub fn compile_file<F: Shelf, I: Source, O: Sink, R: Sink>(
    alloc: Global,
    file: &str,
    target: &str,
    shelf: &mut F,
    _input: &mut I,
    _out: &mut O,
    report: &mut R,
) -> Status
    ensures did { Did (OnFile (IsFound (shelved F.files F.read_faults F.write_faults shelf.old shelf.new)) file.now (Assembles Source target.now))
        (shelved F.files F.read_faults F.write_faults shelf.old shelf.new)
        (reported R.held R.faults report.old report.new)
        result }
    ensures input { (I.left _input.new ≡ I.left _input.old) × (I.faults _input.new ≡ I.faults _input.old) }
    ensures out { (O.held _out.new ≡ O.held _out.old) × (O.faults _out.new ≡ O.faults _out.old) }
{
    match fetch(alloc, file, shelf, report) {
        Ok(bytes) => compile_bytes(alloc, bytes, target, shelf, report),
        Err(status) => status,
    }
}

/// Reads a module, and gives back the memory of the bytes that spelled it.
fn take_binary(alloc: Global, bytes: Vec<u8>) -> Result<Module, LoadFault>
    ensures reads { ReadsForm Binary bytes.items result }
    ensures reading { IfErr result IsOfReading }
{
    read_binary(alloc, bytes.as_slice())
}

/// The same of a text.
fn take_text(alloc: Global, bytes: Vec<u8>) -> Result<Module, LoadFault>
    ensures reads { ReadsForm Text bytes.items result }
    ensures reading { IfErr result IsOfReading }
{
    read_text(alloc, bytes.as_slice())
}

/// The same of a file of C.
fn take_source(alloc: Global, bytes: Vec<u8>) -> Result<Module, LoadFault>
    ensures reads { ReadsForm Source bytes.items result }
    ensures reading { IfErr result IsOfReading }
{
    read_source(alloc, bytes.as_slice())
}

fn dis_bytes<F: Shelf, R: Sink>(
    alloc: Global,
    bytes: Vec<u8>,
    target: &str,
    shelf: &mut F,
    report: &mut R,
) -> Status
    ensures makes { Makes (Disassembles target.now) bytes.items
        (shelved F.files F.read_faults F.write_faults shelf.old shelf.new)
        (reported R.held R.faults report.old report.new)
        result }
    ensures reads { SameCounts (F.read_faults shelf.old) (F.read_faults shelf.new) }
{
    let module = match take_binary(alloc, bytes) {
        Ok(module) => module,
        Err(fault) => return answer_fault(alloc, "", fault, report),
    };
    match ms_text_write::write(alloc, &module) {
        Ok(text) => deliver(alloc, target, text.as_slice(), shelf, report),
        Err(_) => Status::OutOfMemory,
    }
}

/// `dis FILE OUT`: reads a module in binary, whatever the file's name, and writes it in text to the file `target`, the
/// module being valid or not. How many bytes were written goes to the report, or the first fault with its place.
pub fn dis_file<F: Shelf, I: Source, O: Sink, R: Sink>(
    alloc: Global,
    file: &str,
    target: &str,
    shelf: &mut F,
    _input: &mut I,
    _out: &mut O,
    report: &mut R,
) -> Status
    ensures did { Did (OnFile (IsFound (shelved F.files F.read_faults F.write_faults shelf.old shelf.new)) file.now (Disassembles target.now))
        (shelved F.files F.read_faults F.write_faults shelf.old shelf.new)
        (reported R.held R.faults report.old report.new)
        result }
    ensures input { (I.left _input.new ≡ I.left _input.old) × (I.faults _input.new ≡ I.faults _input.old) }
    ensures out { (O.held _out.new ≡ O.held _out.old) × (O.faults _out.new ≡ O.faults _out.old) }
{
    match fetch(alloc, file, shelf, report) {
        Ok(bytes) => dis_bytes(alloc, bytes, target, shelf, report),
        Err(status) => status,
    }
}
