//! Lexing (WebAssembly 1.0, 6.2).

ghost use Rattle.std.specs.Prelude.{◌≡◌, ◌⊎◌, All, List, length, IfErr, IfOk, MatchResult, Ok, Err};
ghost use Rattle.ms_text_lex.specs.declared.token.Token.{Token};
ghost use Rattle.ms_text_lex.specs.Fault.{Fault};
ghost use Rattle.ms_text_lex.specs.Lexing.{LexStops, Lexes, lexeme, lexemes, lexing_goes, word};
ghost use Rattle.ms_text_lex.specs.Readers.{FirstFault, Reads, fault_of, error_of};
ghost use Rattle.ms_text_lex.specs.Tokens.{Rises};
ghost use Rattle.ms_text_lex.specs.Values.{HasValue};

use crate::class::{Class, run_len};
use crate::comments::{block_comment, line_comment};
use crate::fault::LexFault;
use crate::leads::{Lead, lead_of};
use crate::steps::{Steps, first, run, text_before};
use crate::strings::string;
use crate::token::{Kind, Token};
use crate::words::kind_of;
use ms_bytes::Cursor;
use ms_types::Vector;
use std::alloc::Global;

/// Goes over the longest run of identifier characters, and says what it is.
#[tactic(auto, unfolding(crate::specs::Lexing::word))]
fn word(c: &mut Cursor) -> Result<Kind, LexFault>
    ensures { Reads c.old c.new result (word.read c.old.end c.old.left) }
{
    let before = c.rest();
    first(c)?;
    c.skip(run_len(Class::IdChar, c.rest()));
    Ok(kind_of(text_before(before, c)))
}

impl Steps for Vector<Token> {
    ghost going = { lexing_goes };

    ghost step = { lexeme };

    fn goes(&self, c: &Cursor) -> bool {
        match c.rest() {
            [] => false,
            [_, ..] => true,
        }
    }

    #[tactic(auto, unfolding(crate::specs::Lexing::lexeme, crate::specs::Lexing::behind, crate::specs::Lexing::here))]
    fn step(&mut self, c: &mut Cursor) -> Result<(), LexFault> {
        let at = c.at();
        match lead_of(c) {
            Lead::Blanks => {
                first(c)?;
                c.skip(run_len(Class::Blank, c.rest()));
            }
            Lead::LineComment => line_comment(c)?,
            Lead::BlockComment => block_comment(c)?,
            Lead::Open => {
                first(c)?;
                let kind = Kind::Open;
                let end = c.at();
                self.push(Token { kind, at, end })?;
            }
            Lead::Close => {
                first(c)?;
                let kind = Kind::Close;
                let end = c.at();
                self.push(Token { kind, at, end })?;
            }
            Lead::Quote => {
                string(c)?;
                let kind = Kind::Text;
                let end = c.at();
                self.push(Token { kind, at, end })?;
            }
            Lead::Word => {
                let kind = word(c)?;
                let end = c.at();
                self.push(Token { kind, at, end })?;
            }
            Lead::Nothing => return Err(LexFault::Char { at }),
        }
        Ok(())
    }
}

/// Lexes up to the end.
#[tactic(auto, unfolding(crate::specs::Lexing::lexemes))]
fn lexemes(alloc: Global, c: &mut Cursor) -> Result<Vector<Token>, LexFault>
    ensures { Reads c.old c.new result ((lexemes c.old.end).read c.old.end c.old.left) }
{
    run(Vector::new(alloc), c)
}

/// The tokens that the source is, in order.
///
/// Any other bytes have a first fault, `Char` or `Unclosed`, with its place. `Memory` where memory ran out.
pub fn lex(alloc: Global, source: &[u8]) -> Result<Vector<Token>, LexFault>
    // The tokens are those of the source.
    ensures found { IfOk result (λ v. Lexes source.now v) }
    // The tokens of the source are given, unless memory runs out.
    ensures only { (tokens : List Token) → Lexes source.now tokens → MatchResult result (λ v. v ≡ tokens) (λ e. e ≡ LexFault.Memory) }
    // A fault is the first that the source has, and at its place.
    ensures fault { IfErr result (λ e. FirstFault source.now (fault_of e)) }
    // The first fault that the source has is told, unless memory runs out.
    ensures stops { (first : Fault) → LexStops source.now first → (result ≡ Err (error_of first)) ⊎ (result ≡ Err LexFault.Memory) }
    // Tokens rise in the source and don't overlap.
    ensures rises { (tokens : List Token) → Lexes source.now tokens → Rises 0 (length source.now) tokens }
    // Each string token is a string, and stands for its value.
    ensures strings { (tokens : List Token) → Lexes source.now tokens → All (HasValue source.now) tokens }
    // The source has one list of tokens at most.
    ensures one { (tokens others : List Token) → Lexes source.now tokens → Lexes source.now others → tokens ≡ others }
{
    let mut c = Cursor::new(source);
    match lexemes(alloc, &mut c) {
        Ok(tokens) => Ok(tokens),
        Err(fault) => Err(fault),
    }
}
