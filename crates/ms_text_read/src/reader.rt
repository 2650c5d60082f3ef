//! Reading a text.

ghost use Rattle.std.specs.Prelude.{◌≡◌, ◌⊎◌, IfErr, IfOk, Ok, Err};
ghost use Rattle.ms_module.specs.declared.module.Module.{Module};
ghost use Rattle.ms_text_grammar.specs.declared.fault.TextFault.TheVariants.{Memory};
ghost use Rattle.ms_text_grammar.specs.TextSpells.{Stops, TextSpells, TextStop};
ghost use Rattle.ms_text_read.specs.Answers.{ReadsText, Tells, lexing_fault, error_of};

use crate::fields::fields;
use ms_module::Module;
use ms_text_grammar::TextFault;
use ms_text_lex::{LexFault, lex};
use ms_text_resolve::resolve;
use std::alloc::Global;

/// The fault of a lexer, as one of texts.
fn lexing_fault(fault: LexFault) -> TextFault
    ensures { result ≡ lexing_fault fault }
{
    match fault {
        LexFault::Memory => TextFault::Memory,
        LexFault::Char { .. } => TextFault::Lex(fault),
        LexFault::Unclosed { .. } => TextFault::Lex(fault),
    }
}

/// Lexes the text, reads its fields, and replaces their identifiers.
fn read_text(alloc: Global, source: &[u8]) -> Result<Module, TextFault>
    ensures { ReadsText source.now result }
{
    let tokens = match lex(alloc, source) {
        Ok(tokens) => tokens,
        Err(fault) => return Err(lexing_fault(fault)),
    };
    let fields = match fields(alloc, source, tokens.as_slice()) {
        Ok(fields) => fields,
        Err(fault) => return Err(fault),
    };
    match resolve(alloc, source, fields.as_slice()) {
        Ok(module) => Ok(module),
        Err(fault) => Err(fault),
    }
}

/// Reads the module that the text spells (WebAssembly 1.0, chapter 6), of any length below 2^64, with at most 500 blocks
/// and 1,000 parentheses in one another and 50,000 declared locals in a function.
///
/// Any other text has a fault, with its place in bytes: the first one of its tokens (`Lex`), else the first one of its
/// grammar (`Syntax`, `Range`, `Float`, `Limit`), else the least place of an identifier that is unknown or repeated
/// (`Name`). `Memory` where memory ran out.
pub fn read(alloc: Global, source: &[u8]) -> Result<Module, TextFault>
    // What is read is spelled so.
    ensures found { IfOk result (TextSpells source.now) }
    // What is spelled so is read, unless memory runs out.
    ensures only { (m : Module) → TextSpells source.now m → (result ≡ Ok m) ⊎ (result ≡ Err Memory) }
    // A fault says why the text spells no module.
    ensures fault { IfErr result (Tells source.now) }
    // Why the text spells no module is told, unless memory runs out.
    ensures stops { (why : TextStop) → Stops source.now why → (result ≡ Err (error_of why)) ⊎ (result ≡ Err Memory) }
{
    match read_text(alloc, source) {
        Ok(module) => Ok(module),
        Err(fault) => Err(fault),
    }
}
