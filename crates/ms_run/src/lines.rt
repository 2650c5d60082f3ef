//! The lines of the report.

ghost use Rattle.std.specs.Prelude.{◌≡◌, ◌++◌, IfOk, codes, string_bytes};
ghost use Rattle.std.specs.Fmt.{decimal};
ghost use Rattle.ms_num.specs.Integers.{signed};
ghost use Rattle.ms_run.specs.Lines.{accepted_line, budget_line, climit_words, counted_word, fault_words, input_fault_line, job_line, large_line, lexing_words, line, link_line, parsing_words, part_words, reach_line, refused_line, rejected_line, result_line, schedule_line, source_fault_words, task_line, text_counted_word, text_fault_words, token_words, trace_line, trap_line, typing_words, valid_line, why_word, written_line};
ghost use Rattle.ms_run.specs.Loading.{load_words, refusal_words};

use crate::loading::LoadFault;
use crate::source::SourceFault;
use c_check::CCheck;
use c_compile::Limit;
use c_lex::CLex;
use c_parse::CParse;
use ms_bin_read::{Counted, ReadFault};
use ms_host::TrapKind;
use ms_job::JobFault;
use ms_linear::Value;
use ms_machine::Why;
use ms_text_grammar::{Counted as TextCounted, TextFault};
use ms_text_lex::LexFault;
use ms_valid::{Part, Refusal};
use std::alloc::{AllocError, Global};

/// The input of a program failed.
pub fn input_fault_line() -> &'static [u8]
    ensures { result.now ≡ input_fault_line }
{
    b"read fault\n"
}

/// A module is valid.
pub fn valid_line() -> &'static [u8]
    ensures { result.now ≡ valid_line }
{
    b"valid\n"
}

/// A section or a body of what is written would have 2^32 bytes or more.
pub fn large_line() -> &'static [u8]
    ensures { result.now ≡ large_line }
{
    b"refused large\n"
}

/// What happened to a file.
pub fn file_line(alloc: Global, what: &str, file: &str) -> Result<String, AllocError>
    ensures { IfOk result (λ t. string_bytes t ≡ line (what.now ++ file.now)) }
{
    format!(in alloc; "{what}{file}\n")
}

fn counted_word(which: Counted) -> &'static str
    ensures { result.now ≡ counted_word which }
{
    match which {
        Counted::Blocks => "blocks",
        Counted::Locals => "locals",
    }
}

/// The first fault of bytes that spell no module. Want of memory has no words.
fn fault_words(alloc: Global, fault: ReadFault) -> Result<String, AllocError>
    ensures { IfOk result (λ t. string_bytes t ≡ fault_words fault) }
{
    match fault {
        ReadFault::Malformed { at } => format!(in alloc; "malformed {at}"),
        ReadFault::Float { at } => format!(in alloc; "float {at}"),
        ReadFault::Limit { which, at } => limit_words(alloc, counted_word(which), at),
        ReadFault::Memory => Err(AllocError),
    }
}

fn limit_words(alloc: Global, which: &str, at: usize) -> Result<String, AllocError>
    ensures { IfOk result (λ t. string_bytes t ≡ codes "limit " ++ which.now ++ codes " " ++ decimal at) }
{
    format!(in alloc; "limit {which} {at}")
}

fn text_counted_word(which: TextCounted) -> &'static str
    ensures { result.now ≡ text_counted_word which }
{
    match which {
        TextCounted::Blocks => "blocks",
        TextCounted::Locals => "locals",
        TextCounted::Parens => "parens",
    }
}

fn lexing_words(alloc: Global, fault: LexFault) -> Result<String, AllocError>
    ensures { IfOk result (λ t. string_bytes t ≡ lexing_words fault) }
{
    match fault {
        LexFault::Char { at } => format!(in alloc; "char {at}"),
        LexFault::Unclosed { at } => format!(in alloc; "unclosed {at}"),
        LexFault::Memory => Err(AllocError),
    }
}

/// Why a text spells no module. Want of memory has no words.
fn text_fault_words(alloc: Global, fault: TextFault) -> Result<String, AllocError>
    ensures { IfOk result (λ t. string_bytes t ≡ text_fault_words fault) }
{
    match fault {
        TextFault::Lex(fault) => lexing_words(alloc, fault),
        TextFault::Syntax { at } => format!(in alloc; "syntax {at}"),
        TextFault::Range { at } => format!(in alloc; "range {at}"),
        TextFault::Float { at } => format!(in alloc; "float {at}"),
        TextFault::Limit { which, at } => limit_words(alloc, text_counted_word(which), at),
        TextFault::Name { at } => format!(in alloc; "name {at}"),
        TextFault::Memory => Err(AllocError),
    }
}

fn token_words(alloc: Global, fault: CLex) -> Result<String, AllocError>
    ensures { IfOk result (λ t. string_bytes t ≡ token_words fault) }
{
    match fault {
        CLex::Char { at } => format!(in alloc; "c char {at}"),
        CLex::Unclosed { at } => format!(in alloc; "c unclosed {at}"),
        CLex::Directive { at } => format!(in alloc; "c directive {at}"),
        CLex::TooBig { at } => format!(in alloc; "c number {at}"),
        CLex::Memory => Err(AllocError),
    }
}

fn parsing_words(alloc: Global, fault: CParse) -> Result<String, AllocError>
    ensures { IfOk result (λ t. string_bytes t ≡ parsing_words fault) }
{
    match fault {
        CParse::Syntax { at } => format!(in alloc; "c syntax {at}"),
        CParse::TooDeep { at } => format!(in alloc; "c deep {at}"),
        CParse::Memory => Err(AllocError),
    }
}

fn typing_words(alloc: Global, fault: CCheck) -> Result<String, AllocError>
    ensures { IfOk result (λ t. string_bytes t ≡ typing_words fault) }
{
    match fault {
        CCheck::NoTyping { at } => format!(in alloc; "c type {at}"),
        CCheck::Memory => Err(AllocError),
    }
}

fn climit_words(alloc: Global, limit: Limit) -> Result<String, AllocError>
    ensures { IfOk result (λ t. string_bytes t ≡ climit_words limit) }
{
    match limit {
        Limit::Locals => format!(in alloc; "c limit locals"),
        Limit::Copy => format!(in alloc; "c limit copy"),
        Limit::Functions => format!(in alloc; "c limit functions"),
    }
}

/// Why a file of C has no module. Want of memory has no words.
fn source_fault_words(alloc: Global, fault: SourceFault) -> Result<String, AllocError>
    ensures { IfOk result (λ t. string_bytes t ≡ source_fault_words fault) }
{
    match fault {
        SourceFault::Lex(fault) => token_words(alloc, fault),
        SourceFault::Parse(fault) => parsing_words(alloc, fault),
        SourceFault::Check(fault) => typing_words(alloc, fault),
        SourceFault::Limit(limit) => climit_words(alloc, limit),
        SourceFault::Memory => Err(AllocError),
    }
}

/// The part of a module that isn't well typed.
fn part_words(alloc: Global, part: Part) -> Result<String, AllocError>
    ensures { IfOk result (λ t. string_bytes t ≡ part_words part) }
{
    match part {
        Part::Head => format!(in alloc; "invalid head"),
        Part::Function(index) => format!(in alloc; "invalid function {index}"),
    }
}

fn refusal_words(alloc: Global, refusal: Refusal) -> Result<String, AllocError>
    ensures { IfOk result (λ t. string_bytes t ≡ refusal_words refusal) }
{
    match refusal {
        Refusal::Invalid { part } => part_words(alloc, part),
        Refusal::Memory => Err(AllocError),
    }
}

/// Why a file is no valid module. Want of memory has no words.
fn load_words(alloc: Global, fault: LoadFault) -> Result<String, AllocError>
    ensures { IfOk result (λ t. string_bytes t ≡ load_words fault) }
{
    match fault {
        LoadFault::Read(fault) => fault_words(alloc, fault),
        LoadFault::Text(fault) => text_fault_words(alloc, fault),
        LoadFault::Source(fault) => source_fault_words(alloc, fault),
        LoadFault::Invalid(refusal) => refusal_words(alloc, refusal),
        LoadFault::Memory => Err(AllocError),
    }
}

fn refused_line(alloc: Global, what: &str, words: &str) -> Result<String, AllocError>
    ensures { IfOk result (λ t. string_bytes t ≡ refused_line what.now words.now) }
{
    format!(in alloc; "refused {what}{words}\n")
}

/// Why a file is no valid module, `what` being refused. Want of memory has no line.
pub fn load_line(alloc: Global, what: &str, fault: LoadFault) -> Result<String, AllocError>
    ensures { IfOk result (λ t. string_bytes t ≡ refused_line what.now (load_words fault)) }
{
    let words = load_words(alloc, fault)?;
    refused_line(alloc, what, words.as_str())
}

/// Why a text is no job. Want of memory has no line.
pub fn job_line(alloc: Global, fault: JobFault) -> Result<String, AllocError>
    ensures { IfOk result (λ t. string_bytes t ≡ job_line fault) }
{
    match fault {
        JobFault::Line { n } => format!(in alloc; "refused job line {n}\n"),
        JobFault::NoTask => format!(in alloc; "refused job task\n"),
        JobFault::Budget => format!(in alloc; "refused job budget\n"),
        JobFault::Memory => Err(AllocError),
    }
}

/// The place of the first word of a schedule that is no number.
pub fn schedule_line(alloc: Global, at: usize) -> Result<String, AllocError>
    ensures { IfOk result (λ t. string_bytes t ≡ schedule_line at) }
{
    format!(in alloc; "refused schedule {at}\n")
}

fn why_word(why: Why) -> &'static str
    ensures { result.now ≡ why_word why }
{
    match why {
        Why::NoModule => "nomodule",
        Why::NoExport => "noexport",
        Why::Kind => "kind",
        Why::Signature => "signature",
        Why::TooLarge => "toolarge",
        Why::Fit => "fit",
    }
}

/// The item of a module that isn't linked, both by their numbers.
pub fn link_line(alloc: Global, number: u32, item: u32, why: Why) -> Result<String, AllocError>
    ensures { IfOk result (λ t. string_bytes t ≡ link_line (record { «module» = number; item = item; why = why })) }
{
    let word = why_word(why);
    format!(in alloc; "refused link {number} {item} {word}\n")
}

/// The task that has no function.
pub fn task_line(alloc: Global, number: u32) -> Result<String, AllocError>
    ensures { IfOk result (λ t. string_bytes t ≡ task_line number) }
{
    format!(in alloc; "refused task {number}\n")
}

/// That a file of so many bytes was written.
pub fn written_line(alloc: Global, size: usize) -> Result<String, AllocError>
    ensures { IfOk result (λ t. string_bytes t ≡ written_line size) }
{
    format!(in alloc; "written {size}\n")
}

/// The first line of a trace that is no event.
pub fn trace_line(alloc: Global, number: usize) -> Result<String, AllocError>
    ensures { IfOk result (λ t. string_bytes t ≡ trace_line number) }
{
    format!(in alloc; "refused trace line {number}\n")
}

/// The first event of a trace that isn't accepted.
pub fn rejected_line(alloc: Global, number: usize) -> Result<String, AllocError>
    ensures { IfOk result (λ t. string_bytes t ≡ rejected_line number) }
{
    format!(in alloc; "rejected {number}\n")
}

/// That a trace of so many events is accepted.
pub fn accepted_line(alloc: Global, count: usize) -> Result<String, AllocError>
    ensures { IfOk result (λ t. string_bytes t ≡ accepted_line count) }
{
    format!(in alloc; "accepted {count}\n")
}

/// Why a program was stopped.
pub fn trap_line(alloc: Global, kind: TrapKind) -> Result<String, AllocError>
    ensures { IfOk result (λ t. string_bytes t ≡ trap_line kind) }
{
    let word = kind.word();
    format!(in alloc; "trap {word}\n")
}

/// That the budget of a run is used up.
pub fn budget_line(alloc: Global) -> Result<String, AllocError>
    ensures { IfOk result (λ t. string_bytes t ≡ budget_line) }
{
    format!(in alloc; "out of budget\n")
}

/// What a task gives, read as signed.
pub fn result_line(alloc: Global, value: Option<Value>) -> Result<String, AllocError>
    ensures { IfOk result (λ t. string_bytes t ≡ result_line value) }
{
    match value {
        Some(Value::I32(n)) => {
            let number = signed_of_32(n);
            format!(in alloc; "result {number}\n")
        }
        Some(Value::I64(n)) => {
            let number = signed_of_64(n);
            format!(in alloc; "result {number}\n")
        }
        Some(Value::Handle(_)) | None => format!(in alloc; "done\n"),
    }
}

/// What is reached for the set of modules of this number.
pub fn reach_line(
    alloc: Global,
    number: usize,
    segments: u32,
    bytes: u32,
) -> Result<String, AllocError>
    ensures { IfOk result (λ t. string_bytes t ≡ reach_line number segments bytes) }
{
    format!(in alloc; "reach {number} {segments} {bytes}\n")
}

fn signed_of_32(n: u32) -> i32
    ensures { result ≡ signed 32 n }
{
    n.cast_signed()
}

fn signed_of_64(n: u64) -> i64
    ensures { result ≡ signed 64 n }
{
    n.cast_signed()
}
