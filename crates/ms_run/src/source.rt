//! A file of C: its tokens, its unit, the typing of that, and its module.

ghost use Rattle.std.specs.Prelude.{◌≡◌, ◌⊎◌, ℕ, List, length, true, Err, IfErr, IfOk, Ok};
ghost use Rattle.c_token.specs.declared.word.Token.{Token};
ghost use Rattle.c_lex.specs.Lexing.{Lexes};
ghost use Rattle.c_lex.specs.Readers.{FirstFault, fault_of};
ghost use Rattle.c_parse.specs.Units as parsing;
ghost use Rattle.c_typed.specs.refinement.Views.{typed_of};
ghost use Rattle.ms_module.specs.declared.module.Module.{Module};
ghost use Rattle.ms_run.specs.Source.{IsModule, IsParsed, IsUnit, Tells};
ghost use Rattle.ms_run.specs.declared.source.SourceFault.TheVariants.{Memory};

use c_check::{CCheck, check};
use c_compile::{CFault, Limit, compile};
use c_lex::{CLex, lex};
use c_parse::{CParse, parse};
use c_token::Token;
use c_tree::Unit;
use c_typed::Typed;
use ms_module::Module;
use std::alloc::Global;
use thiserror::Error;

/// Why the bytes of a file of C give no module. A fault that is carried is not want of memory.
#[derive(Clone, Copy, Debug, PartialEq, Eq, Error)]
pub enum SourceFault {
    /// They are no tokens: the first fault, with its place.
    #[error("{0}")]
    Lex(CLex),
    /// Their tokens are no unit: where they cease to be one.
    #[error("{0}")]
    Parse(CParse),
    /// The unit has no typing: where the first declaration begins up to which there is none.
    #[error("{0}")]
    Check(CCheck),
    /// The unit is past this limit of the compiler.
    #[error("{0}")]
    Limit(Limit),
    /// Memory ran out.
    #[error("memory ran out")]
    Memory,
}

/// Of a fault of the lexer.
fn of_lexing(fault: CLex) -> SourceFault
    ensures { (bytes : List ℕ) → FirstFault bytes (fault_of fault) → Tells bytes result }
{
    match fault {
        CLex::Char { at } => SourceFault::Lex(CLex::Char { at }),
        CLex::Unclosed { at } => SourceFault::Lex(CLex::Unclosed { at }),
        CLex::Directive { at } => SourceFault::Lex(CLex::Directive { at }),
        CLex::TooBig { at } => SourceFault::Lex(CLex::TooBig { at }),
        CLex::Memory => SourceFault::Memory,
    }
}

/// Of a fault of the parser.
fn of_parsing(fault: CParse) -> SourceFault
    ensures { (bytes : List ℕ) (tokens : List Token) → Lexes bytes tokens → parsing.Tells tokens (length bytes) fault → Tells bytes result }
{
    match fault {
        CParse::Syntax { at } => SourceFault::Parse(CParse::Syntax { at }),
        CParse::TooDeep { at } => SourceFault::Parse(CParse::TooDeep { at }),
        CParse::Memory => SourceFault::Memory,
    }
}

/// The tokens of the bytes.
fn tokens(alloc: Global, bytes: &[u8]) -> Result<Vec<Token>, SourceFault>
    ensures found { IfOk result (λ v. Lexes bytes.now v.items) }
    ensures fault { IfErr result (Tells bytes.now) }
{
    match lex(alloc, bytes) {
        Ok(tokens) => Ok(tokens),
        Err(fault) => Err(of_lexing(fault)),
    }
}

/// Their unit.
fn unit(alloc: Global, bytes: &[u8]) -> Result<Unit, SourceFault>
    ensures found { IfOk result (IsParsed bytes.now) }
    ensures fault { IfErr result (Tells bytes.now) }
{
    let tokens = match tokens(alloc, bytes) {
        Ok(tokens) => tokens,
        Err(fault) => return Err(fault),
    };
    match parse(alloc, &tokens, bytes.len()) {
        Ok(unit) => Ok(unit),
        Err(fault) => Err(of_parsing(fault)),
    }
}

/// Their unit with its types.
fn typed(alloc: Global, bytes: &[u8]) -> Result<Typed, SourceFault>
    ensures found { IfOk result (λ t. IsUnit bytes.now (typed_of t)) }
    ensures fault { IfErr result (Tells bytes.now) }
{
    let unit = match unit(alloc, bytes) {
        Ok(unit) => unit,
        Err(fault) => return Err(fault),
    };
    match check(alloc, unit) {
        Ok(typed) => Ok(typed),
        Err(CCheck::NoTyping { at }) => Err(SourceFault::Check(CCheck::NoTyping { at })),
        Err(CCheck::Memory) => Err(SourceFault::Memory),
    }
}

/// Reads the module of a file of C (C11, 5.1.1.2): the bytes are a unit that has a typing, and this is its module.
///
/// An error is the first thing that is wrong, with its place: the tokens, the syntax, the typing, and then a
/// limit of the compiler.
/// `Memory` may stand in place of any answer.
pub fn module_of(alloc: Global, bytes: &[u8]) -> Result<Module, SourceFault>
    // What is given is the module of the bytes.
    ensures found { IfOk result (IsModule bytes.now) }
    // The module of the bytes is given, unless memory runs out.
    ensures only { (m : Module) → IsModule bytes.now m → (result ≡ Ok m) ⊎ (result ≡ Err Memory) }
    // An error is the cause that it names.
    ensures fault { IfErr result (Tells bytes.now) }
{
    let typed = match typed(alloc, bytes) {
        Ok(typed) => typed,
        Err(fault) => return Err(fault),
    };
    match compile(alloc, &typed) {
        Ok(module) => Ok(module),
        Err(CFault::Limit(limit)) => Err(SourceFault::Limit(limit)),
        Err(CFault::Memory) => Err(SourceFault::Memory),
    }
}
