//! Strings (WebAssembly 1.0, 6.3.3).

ghost use Rattle.std.specs.Prelude.{◌≡◌, ◌≤◌, ◌<◌, ℕ, Ok, IfOk, IfSome, OnOk, drop, length};
ghost use Rattle.ms_bytes.specs.Items.{item_at};
ghost use Rattle.ms_bytes.specs.Runs.{run_at};
ghost use Rattle.ms_bytes.specs.Texts.{run_len};
ghost use Rattle.ms_text_lex.specs.Classes.{hex};
ghost use Rattle.ms_text_lex.specs.Fault.{broken};
ghost use Rattle.ms_bytes.specs.Spot.{place_of};
ghost use Rattle.ms_text_lex.specs.declared.strings.Piece.TheVariants.{Byte};
ghost use Rattle.ms_text_lex.specs.Readers.{Reads, fault_of, inside_of};
ghost use Rattle.ms_text_lex.specs.Strings.{after_bytes, behind_escape, behind_first, code_digit, code_digits, code_goes, code_point, code_step, code_text, escape, escape_of, hex_escape, is_plain, no_quote, piece, piece_step, plain_byte, quoted, skip_piece, skip_pieces, string, string_goes, string_text};

use crate::class::{hex, is_utf8, may_be_utf8};
use crate::fault::LexFault;
use crate::steps::{Steps, broken, run, text_before, this};
use ms_bytes::Cursor;
use std::alloc::AllocError;

/// What stands behind a backslash.
#[derive(Clone, Copy)]
pub enum Escape {
    /// A byte by its letter.
    Simple(u8),
    /// A byte by two hexadecimal digits, of which the first is worth so much.
    High(u8),
    /// A character by its code.
    Unicode,
}

/// An element of a string.
#[derive(Clone, Copy)]
pub enum Piece {
    Byte(u8),
    Scalar(char),
}

/// Takes a hexadecimal digit.
fn hex_digit(c: &mut Cursor) -> Result<u8, LexFault>
    ensures read { Reads c.old c.new result (item_at broken hex c.old.end c.old.left) }
    ensures small { IfOk result (λ d. d < 16) }
{
    let at = c.at();
    match c.take() {
        None => Err(LexFault::Unclosed { at }),
        Some(next) => match hex(next) {
            None => Err(LexFault::Char { at }),
            Some(digit) => Ok(digit),
        },
    }
}

/// What a byte behind a backslash begins.
fn escape_of(byte: u8) -> Option<Escape>
    ensures value { result ≡ escape_of byte }
    ensures small { (h : ℕ) → result ≡ Some (Escape.High h) → h < 16 }
{
    match byte {
        b't' => Some(Escape::Simple(b'\t')),
        b'n' => Some(Escape::Simple(b'\n')),
        b'r' => Some(Escape::Simple(b'\r')),
        b'"' => Some(Escape::Simple(b'"')),
        b'\'' => Some(Escape::Simple(b'\'')),
        b'\\' => Some(Escape::Simple(b'\\')),
        b'u' => Some(Escape::Unicode),
        _ => match hex(byte) {
            None => None,
            Some(high) => Some(Escape::High(high)),
        },
    }
}

/// Takes what a byte behind a backslash begins.
fn escape_letter(c: &mut Cursor) -> Result<Escape, LexFault>
    ensures read { Reads c.old c.new result (item_at broken escape_of c.old.end c.old.left) }
    ensures small { (h : ℕ) → result ≡ Ok (Escape.High h) → h < 16 }
{
    let at = c.at();
    match c.take() {
        None => Err(LexFault::Unclosed { at }),
        Some(next) => match escape_of(next) {
            None => Err(LexFault::Char { at }),
            Some(escape) => Ok(escape),
        },
    }
}

/// The digits of a character's code: what they are worth so far, and whether a digit must come.
#[derive(Clone, Copy)]
pub struct Digits {
    value: u32,
    bare: bool,
}

/// With one byte more.
fn with_byte(digits: Digits, byte: u8) -> Option<Digits>
    requires { digits.value ≤ 1114111 }
    ensures value { result ≡ code_step digits byte }
    ensures small { IfSome result (λ d. d.value ≤ 1114111) }
{
    if byte == b'_' && !digits.bare {
        return Some(Digits {
            value: digits.value,
            bare: true,
        });
    }
    let digit = hex(byte)?;
    let value = digits.value * 16 + u32::from(digit);
    if value > 0x10FFFF {
        return None;
    }
    Some(Digits { value, bare: false })
}

impl Steps for Digits {
    ghost going = { code_goes };

    ghost step = { λ _. code_digit };

    ghost fits = { λ d _. d.value ≤ 1114111 };

    fn goes(&self, c: &Cursor) -> bool {
        match c.rest() {
            [] => true,
            [next, ..] => !(*next == b'}' && !self.bare),
        }
    }

    #[tactic(auto, unfolding(crate::specs::Strings::code_digit))]
    fn step(&mut self, c: &mut Cursor) -> Result<(), LexFault> {
        let at = c.at();
        match c.take() {
            None => Err(LexFault::Unclosed { at }),
            Some(next) => match with_byte(*self, next) {
                None => Err(LexFault::Char { at }),
                Some(digits) => {
                    *self = digits;
                    Ok(())
                }
            },
        }
    }
}

/// Takes the digits of a character's code.
#[tactic(auto, unfolding(crate::specs::Strings::code_digits))]
fn code_digits(c: &mut Cursor) -> Result<Digits, LexFault>
    ensures { Reads c.old c.new result (code_digits.read c.old.end c.old.left) }
{
    run(
        Digits {
            value: 0,
            bare: true,
        },
        c,
    )
}

/// Takes a code in braces.
#[tactic(auto, unfolding(crate::specs::Strings::code_text))]
fn code_text(c: &mut Cursor) -> Result<Digits, LexFault>
    ensures { Reads c.old c.new result (code_text.read c.old.end c.old.left) }
{
    this(b'{', c)?;
    let digits = code_digits(c)?;
    this(b'}', c)?;
    Ok(digits)
}

/// Takes a character by its code in braces.
#[tactic(auto, unfolding(crate::specs::Strings::code_point))]
fn code_point(c: &mut Cursor) -> Result<Piece, LexFault>
    ensures { Reads c.old c.new result (code_point.read c.old.end c.old.left) }
{
    let at = c.at();
    let code = code_text(c)?;
    match char::from_u32(code.value) {
        None => Err(LexFault::Char { at }),
        Some(character) => Ok(Piece::Scalar(character)),
    }
}

/// Takes what stands behind a backslash.
#[tactic(auto, unfolding(crate::specs::Strings::escape, crate::specs::Strings::behind_escape))]
fn escaped(c: &mut Cursor) -> Result<Piece, LexFault>
    ensures { Reads c.old c.new result (escape.read c.old.end c.old.left) }
{
    match escape_letter(c)? {
        Escape::Simple(byte) => Ok(Piece::Byte(byte)),
        Escape::High(high) => {
            let low = hex_digit(c)?;
            Ok(Piece::Byte(high * 16 + low))
        }
        Escape::Unicode => code_point(c),
    }
}

/// Takes a byte that is no control character.
fn plain_byte(c: &mut Cursor) -> Result<u8, LexFault>
    ensures { Reads c.old c.new result (item_at broken plain_byte c.old.end c.old.left) }
{
    let at = c.at();
    match c.take() {
        None => Err(LexFault::Unclosed { at }),
        Some(next) => {
            if next < 32 || next == 127 {
                return Err(LexFault::Char { at });
            }
            Ok(next)
        }
    }
}

/// The byte that an escape of two digits in front tells.
#[inline(always)]
fn hex_escape(bytes: &[u8]) -> Option<u8>
    ensures { result ≡ hex_escape bytes.now }
{
    let [first, high, low, ..] = bytes else {
        return None;
    };
    if *first != b'\\' {
        return None;
    }
    let high = hex(*high)?;
    let low = hex(*low)?;
    Some(high * 16 + low)
}

/// Takes a byte or an escape.
#[inline(always)]
#[tactic(auto, unfolding(crate::specs::Strings::piece, crate::specs::Strings::behind_first))]
pub fn next_piece(c: &mut Cursor) -> Result<Piece, LexFault>
    ensures { Reads c.old c.new result (piece.read c.old.end c.old.left) }
{
    if let Some(byte) = hex_escape(c.rest()) {
        c.skip(3);
        return Ok(Piece::Byte(byte));
    }
    let byte = plain_byte(c)?;
    if byte == b'\\' {
        return escaped(c);
    }
    Ok(Piece::Byte(byte))
}

/// Whether the next byte is no closing quote.
pub fn no_quote(c: &Cursor) -> bool
    ensures { result ≡ no_quote c.now.left }
{
    match c.rest() {
        [] => true,
        [next, ..] => *next != b'"',
    }
}

/// How many bytes in front stand for themselves: no control character, quote or backslash is among them.
fn plain_len(bytes: &[u8]) -> usize
    ensures run { result ≡ run_len is_plain bytes.now }
    ensures within { result ≤ length bytes.now }
{
    for (i, byte) in bytes.iter().enumerate() {
        if !is_plain(*byte) {
            return i;
        }
    }
    bytes.len()
}

fn is_plain(byte: u8) -> bool
    ensures { result ≡ is_plain byte }
{
    if byte > b'\\' {
        return byte != 127;
    }
    !(byte < 32 || byte == b'"' || byte == b'\\')
}

/// What is made of the elements of a string.
pub trait Pieces: Sized + Drop {
    ghost use Rattle.ms_text_lex.specs.declared.strings.Piece.{Piece};

    ghost after: { Self → Piece → Self };

    /// Adds an element.
    fn add(&mut self, piece: Piece) -> Result<(), AllocError>
        ensures { OnOk result (self.new ≡ after self.old piece) };

    /// Adds bytes that stand for themselves.
    fn add_bytes(&mut self, bytes: &[u8]) -> Result<(), AllocError>
        ensures { OnOk result (self.new ≡ after_bytes after self.old bytes.now) };
}

/// Takes all elements up to a quote, the bytes that stand for themselves a run at a time.
pub fn take_pieces<S: Pieces>(first: S, c: &mut Cursor) -> Result<S, LexFault>
    ensures { Reads c.old c.new result (run_at broken string_goes (piece_step S.after) (length c.old.left) first c.old.end c.old.left) }
{
    let mut state = first;
    let most = c.len();
    for _ in 0..most {
        let text = c.rest();
        let n = plain_len(text);
        state.add_bytes(&text[..n])?;
        c.skip(n);
        if !no_quote(c) {
            return Ok(state);
        }
        let piece = next_piece(c)?;
        state.add(piece)?;
    }
    Err(broken(c))
}

/// The elements of a string, of which only their being there counts.
#[derive(Clone, Copy)]
pub struct Elements {}

impl Pieces for Elements {
    ghost after = { λ st _. st };

    fn add(&mut self, _piece: Piece) -> Result<(), AllocError> {
        let _ = *self;
        Ok(())
    }

    fn add_bytes(&mut self, _bytes: &[u8]) -> Result<(), AllocError> {
        let _ = *self;
        Ok(())
    }
}

/// Goes over what stands between quotes.
#[tactic(auto, unfolding(crate::specs::Strings::skip_pieces, crate::specs::Strings::skip_piece, crate::specs::Strings::piece_step))]
fn skip_pieces(c: &mut Cursor) -> Result<Elements, LexFault>
    ensures { Reads c.old c.new result (skip_pieces.read c.old.end c.old.left) }
{
    take_pieces(Elements {}, c)
}

/// Goes over a string in its quotes.
#[tactic(auto, unfolding(crate::specs::Strings::quoted))]
fn quoted(c: &mut Cursor) -> Result<(), LexFault>
    ensures { Reads c.old c.new result (quoted.read c.old.end c.old.left) }
{
    this(b'"', c)?;
    skip_pieces(c)?;
    this(b'"', c)?;
    Ok(())
}

/// Goes over a string of UTF-8 in its quotes.
#[tactic(auto, unfolding(crate::specs::Strings::string_text))]
fn string_text(c: &mut Cursor) -> Result<(), LexFault>
    ensures { Reads c.old c.new result (string_text.read c.old.end c.old.left) }
{
    let at = c.at();
    let before = c.rest();
    quoted(c)?;
    if !is_utf8(text_before(before, c)) {
        return Err(LexFault::Char { at });
    }
    Ok(())
}

/// A fault inside of what begins at `at` with `before`.
pub fn inside(at: usize, before: &[u8], fault: LexFault) -> LexFault
    ensures { (end : ℕ) → at ≡ place_of end before.now → fault_of result ≡ inside_of end before.now (fault_of fault) }
{
    match fault {
        LexFault::Char { at: _ } => LexFault::Char { at },
        LexFault::Unclosed { at: _ } => {
            if may_be_utf8(before) {
                LexFault::Unclosed { at }
            } else {
                LexFault::Char { at }
            }
        }
        LexFault::Memory => LexFault::Memory,
    }
}

/// Goes over a string. Its faults stand at its opening quote.
#[tactic(auto, unfolding(crate::specs::Strings::string))]
pub fn string(c: &mut Cursor) -> Result<(), LexFault>
    ensures { Reads c.old c.new result (string.read c.old.end c.old.left) }
{
    let at = c.at();
    let before = c.rest();
    match string_text(c) {
        Ok(()) => Ok(()),
        Err(fault) => Err(inside(at, before, fault)),
    }
}
