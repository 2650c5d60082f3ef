//! Lexing (C11, 6.4).

ghost use Rattle.std.specs.Prelude.{◌≡◌, ◌⊎◌, ℕ, List, length, IfErr, IfOk, MatchResult, Ok, Err};
ghost use Rattle.c_token.specs.declared.word.Token.{Token};
ghost use Rattle.c_lex.specs.Fault.{Fault};
ghost use Rattle.c_lex.specs.Lexing.{Lexes, Stops, behind, lexeme, lexemes, lexing_goes, constant_word, token_list, tokens_of, with_fresh, with_text, with_word, word_text};
ghost use Rattle.c_lex.specs.refinement.Places.{Rises};
ghost use Rattle.c_lex.specs.Readers.{FailsBy, FirstFault, Reads, ReadsPart, fault_of, error_of};

use crate::class::{Class, run_len};
use crate::comments::{block_comment, inclusion, line_comment};
use crate::fault::CLex;
use crate::keywords::word_of;
use crate::leads::{Lead, lead_of};
use crate::literals::{Literal, character_constant, string_literal};
use crate::numbers::{Constant, constant_of};
use crate::steps::{Steps, any, run};
use c_token::{Bytes, Token, Word};
use ms_bytes::Cursor;
use std::alloc::Global;
use std::marker::Model;

/// What was lexed so far.
#[derive(Drop)]
struct Lexer {
    alloc: Global,
    /// The tokens, but for a string literal at their end.
    done: Vec<Token>,
    /// The string literal at their end, which the next one may join.
    text: Option<Literal>,
    /// Whether the line, which did not begin inside a comment, has only blanks so far.
    fresh: bool,
}

impl Model for Lexer {
    ghost use Rattle.c_lex.specs.Lexing.{Lexed};

    ghost Value = { Lexed };

    ghost view = { λ l. record { done = l.done.items; text = l.text; fresh = l.fresh } };
}

impl Lexer {
    /// Puts the string literal at the end, if there is one, to the tokens.
    fn close(&mut self) -> Result<(), CLex>
        ensures closed { IfOk result (λ _. self.new ≡ record { done = tokens_of self.old; text = None; fresh = self.old.fresh }) }
        ensures fails { IfErr result (λ e. e ≡ CLex.Memory) }
    {
        if let Some(Literal { at, bytes }) = self.text.take() {
            self.done.push(Token {
                at,
                word: Word::String(Bytes::new(bytes)),
            })?;
        }
        Ok(())
    }

    /// Puts a word to the tokens.
    fn add(&mut self, at: usize, word: Word) -> Result<(), CLex>
        ensures added { IfOk result (λ _. self.new ≡ with_word self.old at word) }
        ensures fails { IfErr result (λ e. e ≡ CLex.Memory) }
    {
        self.close()?;
        self.done.push(Token { at, word })?;
        self.fresh = false;
        Ok(())
    }

    /// Joins a string literal to the one at the end, if there is one.
    fn join(&mut self, text: Literal) -> Result<(), CLex>
        ensures joined { IfOk result (λ _. self.new ≡ with_text self.old text) }
        ensures fails { IfErr result (λ e. e ≡ CLex.Memory) }
    {
        self.fresh = false;
        match &mut self.text {
            None => self.text = Some(text),
            Some(first) => first.bytes.extend_from_slice(text.bytes.as_slice())?,
        }
        Ok(())
    }
}

/// Takes the longest run of letters, digits and `_`.
#[tactic(auto, unfolding(crate::specs::Lexing::word_text))]
fn word_text<'a>(c: &mut Cursor<'a>) -> Result<&'a [u8], CLex>
    ensures { ReadsPart c.old c.new result (word_text.read c.old.end c.old.left) }
{
    let before = c.rest();
    any(c)?;
    c.skip(run_len(Class::Name, c.rest()));
    Ok(&before[..before.len().saturating_sub(c.len())])
}

/// The word of a constant that begins at `at`.
#[tactic(auto, unfolding(crate::specs::Lexing::constant_word))]
fn constant_word(at: usize, constant: Constant, c: &mut Cursor) -> Result<Word, CLex>
    ensures { Reads c.old c.new result ((constant_word at constant).read c.old.end c.old.left) }
{
    let _ = c.len();
    match constant {
        Constant::Is(value, ty) => Ok(Word::Integer(value, ty)),
        Constant::TooLarge => Err(CLex::TooBig { at }),
        Constant::Wrong => Err(CLex::Char { at }),
    }
}

impl Steps for Lexer {
    ghost going = { lexing_goes };

    ghost step = { lexeme };

    fn goes(&self, c: &Cursor) -> bool {
        match c.rest() {
            [] => false,
            [_, ..] => true,
        }
    }

    #[tactic(auto, unfolding(crate::specs::Lexing::lexeme, crate::specs::Lexing::behind))]
    fn step(&mut self, c: &mut Cursor) -> Result<(), CLex> {
        let at = c.at();
        match lead_of(self.fresh, c) {
            Lead::Blanks => {
                any(c)?;
                c.skip(run_len(Class::Blank, c.rest()));
            }
            Lead::LineEnd => {
                any(c)?;
                self.fresh = true;
            }
            Lead::LineComment => {
                line_comment(c)?;
                self.fresh = false;
            }
            Lead::Comment => {
                block_comment(at, c)?;
                self.fresh = false;
            }
            Lead::Hash => {
                inclusion(at, c)?;
                self.fresh = false;
            }
            Lead::Identifier => {
                let text = word_text(c)?;
                let word = word_of(self.alloc, text)?;
                self.add(at, word)?;
            }
            Lead::Number => {
                let text = word_text(c)?;
                let word = constant_word(at, constant_of(text), c)?;
                self.add(at, word)?;
            }
            Lead::Quote => {
                let text = string_literal(self.alloc, at, c)?;
                self.join(text)?;
            }
            Lead::Apostrophe => {
                let byte = character_constant(at, c)?;
                self.add(at, Word::Character(byte))?;
            }
            Lead::One(mark) => {
                any(c)?;
                self.add(at, Word::Mark(mark))?;
            }
            Lead::Two(mark) => {
                any(c)?;
                any(c)?;
                self.add(at, Word::Mark(mark))?;
            }
            Lead::Three(mark) => {
                any(c)?;
                any(c)?;
                any(c)?;
                self.add(at, Word::Mark(mark))?;
            }
            Lead::Nothing => return Err(CLex::Char { at }),
        }
        Ok(())
    }
}

/// Lexes up to the end.
#[tactic(auto, unfolding(crate::specs::Lexing::lexemes))]
fn lexemes(alloc: Global, c: &mut Cursor) -> Result<Lexer, CLex>
    ensures { Reads c.old c.new result ((lexemes c.old.end).read c.old.end c.old.left) }
{
    let done = Vec::new(alloc);
    run(
        Lexer {
            alloc,
            done,
            text: None,
            fresh: true,
        },
        c,
    )
}

/// The tokens up to the end.
#[tactic(auto, unfolding(crate::specs::Lexing::token_list))]
fn token_list(alloc: Global, c: &mut Cursor) -> Result<Vec<Token>, CLex>
    ensures read { IfOk result (λ v. (token_list c.old.end).read c.old.end c.old.left ≡ Ok (v.items, c.new.left)) }
    ensures fails { IfErr result (λ e. FailsBy (fault_of e) ((token_list c.old.end).read c.old.end c.old.left)) }
{
    let mut lexer = lexemes(alloc, c)?;
    lexer.close()?;
    let Lexer {
        alloc: _,
        done,
        text: _,
        fresh: _,
    } = lexer;
    Ok(done)
}

/// The tokens of C that the bytes are, in order; adjacent string literals are one.
///
/// Any other bytes have a first fault: `Char`, `Unclosed`, `Directive` or `TooBig`, each with its place. `Memory` where
/// memory ran out.
pub fn lex(alloc: Global, bytes: &[u8]) -> Result<Vec<Token>, CLex>
    // The tokens are those of the bytes.
    ensures found { IfOk result (λ v. Lexes bytes.now v.items) }
    // The tokens of the bytes are given, unless memory runs out.
    ensures only { (tokens : List Token) → Lexes bytes.now tokens → MatchResult result (λ v. v.items ≡ tokens) (λ e. e ≡ CLex.Memory) }
    // A fault is the first that the bytes have, and at its place.
    ensures fault { IfErr result (λ e. FirstFault bytes.now (fault_of e)) }
    // The first fault that the bytes have is told, unless memory runs out.
    ensures stops { (first : Fault) → Stops bytes.now first → (result ≡ Err (error_of first)) ⊎ (result ≡ Err CLex.Memory) }
    // Each token begins within the bytes, behind the place where the one before it begins.
    ensures rises { (tokens : List Token) → Lexes bytes.now tokens → Rises 0 (length bytes.now) tokens }
{
    let mut c = Cursor::new(bytes);
    match token_list(alloc, &mut c) {
        Ok(tokens) => Ok(tokens),
        Err(fault) => Err(fault),
    }
}
