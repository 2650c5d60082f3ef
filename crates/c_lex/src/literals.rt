//! Character constants (C11, 6.4.4.4) and string literals (6.4.5).

ghost use Rattle.std.specs.Prelude.{◌≡◌, ◌<◌, ◌≤◌, ◌+◌, ◌*◌, IfOk, IfSome, Some, None};
ghost use Rattle.ms_bytes.specs.Items.{item_at};
ghost use Rattle.c_lex.specs.declared.class.Base.TheVariants.{Hexadecimal, Octal};
ghost use Rattle.c_lex.specs.Fault.{char_here, unclosed};
ghost use Rattle.c_lex.specs.Literals.{after, broken, broken_by, character, character_goes, character_inside, character_step, digit_of, escape, escape_of, hexadecimal_escape, in_line, in_range, more_octal, octal_escape, octal_next, only_one, piece, piece_at, simple_rows, string, string_goes, string_inside, string_step, this};
ghost use Rattle.c_lex.specs.Marks.{named};
ghost use Rattle.c_lex.specs.Readers.{Reads, fault_of};

use crate::class::{Base, Class, is_digit, run_len, worth};
use crate::comments::any_of;
use crate::fault::CLex;
use crate::numbers::value_of;
use crate::steps::{Steps, any, run};
use ms_bytes::Cursor;
use std::alloc::Global;
use std::marker::Model;

/// What stands behind a backslash.
#[derive(Clone, Copy)]
pub enum Escape {
    /// A letter, and the byte that it stands for.
    Simple(u8),
    Octal,
    Hexadecimal,
    /// No escape.
    Wrong,
}

/// The byte that a letter behind a backslash stands for.
fn simple(letter: u8) -> Option<u8>
    ensures { result ≡ named simple_rows letter }
{
    match letter {
        b'\'' => Some(b'\''),
        b'"' => Some(b'"'),
        b'?' => Some(b'?'),
        b'\\' => Some(b'\\'),
        b'a' => Some(7),
        b'b' => Some(8),
        b'f' => Some(12),
        b'n' => Some(b'\n'),
        b'r' => Some(b'\r'),
        b't' => Some(b'\t'),
        b'v' => Some(11),
        _ => None,
    }
}

/// What stands behind a backslash.
fn escape_of(c: &Cursor) -> Escape
    ensures { result ≡ escape_of c.now.left }
{
    let [next, ..] = c.rest() else {
        return Escape::Wrong;
    };
    let next = *next;
    if is_digit(Base::Octal, next) {
        return Escape::Octal;
    }
    if next == b'x' {
        return Escape::Hexadecimal;
    }
    match simple(next) {
        None => Escape::Wrong,
        Some(byte) => Escape::Simple(byte),
    }
}

/// What is wrong with the escape at `back` of the literal at `at`.
fn broken(at: usize, back: usize, rest: &[u8]) -> CLex
    ensures { fault_of result ≡ Some (broken_by at back rest.now) }
{
    match rest {
        [] => CLex::Unclosed { at },
        [next, ..] => {
            if *next == b'\n' {
                CLex::Unclosed { at }
            } else {
                CLex::Char { at: back }
            }
        }
    }
}

/// The value of the escape at `back`, which is to be one byte.
#[tactic(auto, unfolding(crate::specs::Literals::in_range))]
fn in_range(back: usize, value: u64, c: &mut Cursor) -> Result<u8, CLex>
    ensures { Reads c.old c.new result ((in_range back value).read c.old.end c.old.left) }
{
    let _ = c.len();
    if value > 255 {
        return Err(CLex::Char { at: back });
    }
    Ok(value as u8)
}

/// The octal digit that is next.
fn octal_next(c: &Cursor) -> Option<u8>
    ensures value { result ≡ octal_next c.now.left }
    ensures small { IfSome result (λ d. d < 8) }
{
    let [next, ..] = c.rest() else {
        return None;
    };
    if is_digit(Base::Octal, *next) {
        Some(*next - b'0')
    } else {
        None
    }
}

/// Takes one octal digit more, if one is next.
#[tactic(auto, unfolding(crate::specs::Literals::more_octal, crate::specs::Literals::with_octal))]
fn more_octal(value: u64, c: &mut Cursor) -> Result<u64, CLex>
    requires { value < 64 }
    ensures read { Reads c.old c.new result ((more_octal value).read c.old.end c.old.left) }
    ensures small { IfOk result (λ v. v < value * 8 + 8) }
{
    match octal_next(c) {
        None => Ok(value),
        Some(digit) => {
            any(c)?;
            Ok(value * 8 + u64::from(digit))
        }
    }
}

/// Takes an octal digit.
fn octal_digit(c: &mut Cursor) -> Result<u64, CLex>
    ensures read { Reads c.old c.new result (item_at char_here (digit_of Octal) c.old.end c.old.left) }
    ensures small { IfOk result (λ d. d < 8) }
{
    let at = c.at();
    match c.take() {
        None => Err(CLex::Char { at }),
        Some(next) => {
            if is_digit(Base::Octal, next) {
                Ok(u64::from(worth(next)))
            } else {
                Err(CLex::Char { at })
            }
        }
    }
}

/// Takes the first hexadecimal digit of an escape.
fn first_hexadecimal(at: usize, back: usize, c: &mut Cursor) -> Result<u64, CLex>
    ensures { Reads c.old c.new result (item_at (broken at back) (digit_of Hexadecimal) c.old.end c.old.left) }
{
    let rest = c.rest();
    match c.take() {
        None => Err(broken(at, back, rest)),
        Some(next) => {
            if is_digit(Base::Hexadecimal, next) {
                Ok(u64::from(worth(next)))
            } else {
                Err(broken(at, back, rest))
            }
        }
    }
}

/// Takes one to three octal digits.
#[tactic(auto, unfolding(crate::specs::Literals::octal_escape))]
fn octal_escape(back: usize, c: &mut Cursor) -> Result<u8, CLex>
    ensures { Reads c.old c.new result ((octal_escape back).read c.old.end c.old.left) }
{
    let first = octal_digit(c)?;
    let second = more_octal(first, c)?;
    let third = more_octal(second, c)?;
    in_range(back, third, c)
}

/// Takes x, and all hexadecimal digits behind it.
#[tactic(auto, unfolding(crate::specs::Literals::hexadecimal_escape, crate::specs::Literals::in_range))]
fn hexadecimal_escape(at: usize, back: usize, c: &mut Cursor) -> Result<u8, CLex>
    ensures { Reads c.old c.new result ((hexadecimal_escape at back).read c.old.end c.old.left) }
{
    any(c)?;
    let first = first_hexadecimal(at, back, c)?;
    let rest = c.rest();
    let n = run_len(Class::Digit(Base::Hexadecimal), rest);
    c.skip(n);
    match value_of(Base::Hexadecimal, first, &rest[..n]) {
        None => Err(CLex::Char { at: back }),
        Some(value) => in_range(back, value, c),
    }
}

/// Takes what stands behind the backslash at `back` of the literal at `at`.
#[tactic(auto, unfolding(crate::specs::Literals::escape, crate::specs::Literals::behind_escape))]
fn escaped(at: usize, back: usize, c: &mut Cursor) -> Result<u8, CLex>
    ensures { Reads c.old c.new result ((escape at back).read c.old.end c.old.left) }
{
    match escape_of(c) {
        Escape::Simple(byte) => {
            any(c)?;
            Ok(byte)
        }
        Escape::Octal => octal_escape(back, c),
        Escape::Hexadecimal => hexadecimal_escape(at, back, c),
        Escape::Wrong => Err(broken(at, back, c.rest())),
    }
}

/// Takes a byte of the literal at `at` that doesn't end the line.
fn in_line(at: usize, c: &mut Cursor) -> Result<u8, CLex>
    ensures { Reads c.old c.new result (item_at (unclosed at) in_line c.old.end c.old.left) }
{
    match c.take() {
        None => Err(CLex::Unclosed { at }),
        Some(next) => {
            if next == b'\n' {
                Err(CLex::Unclosed { at })
            } else {
                Ok(next)
            }
        }
    }
}

/// Takes a byte or an escape of the literal at `at`.
#[tactic(auto, unfolding(crate::specs::Literals::piece, crate::specs::Literals::piece_at, crate::specs::Literals::behind_first))]
fn piece(at: usize, c: &mut Cursor) -> Result<u8, CLex>
    ensures { Reads c.old c.new result ((piece c.old.end at).read c.old.end c.old.left) }
{
    let back = c.at();
    let byte = in_line(at, c)?;
    if byte == b'\\' {
        return escaped(at, back, c);
    }
    Ok(byte)
}

/// Takes this byte, which ends the literal at `at`.
fn this(at: usize, byte: u8, c: &mut Cursor) -> Result<u8, CLex>
    ensures { Reads c.old c.new result (item_at (unclosed at) (this byte) c.old.end c.old.left) }
{
    match c.take() {
        None => Err(CLex::Unclosed { at }),
        Some(next) => {
            if next == byte {
                Ok(next)
            } else {
                Err(CLex::Unclosed { at })
            }
        }
    }
}

/// A string literal: where it begins, and its bytes so far.
#[derive(Drop)]
pub struct Literal {
    pub at: usize,
    pub bytes: Vec<u8>,
}

impl Model for Literal {
    ghost use Rattle.c_lex.specs.Literals.{Text};

    ghost Value = { Text };

    ghost view = { λ l. record { at = l.at; bytes = l.bytes.items } };
}

impl Steps for Literal {
    ghost going = { string_goes };

    ghost step = { string_step };

    fn goes(&self, c: &Cursor) -> bool {
        match c.rest() {
            [] => false,
            [next, ..] => !(*next == b'"'),
        }
    }

    #[tactic(auto, unfolding(crate::specs::Literals::string_step))]
    fn step(&mut self, c: &mut Cursor) -> Result<(), CLex> {
        let byte = piece(self.at, c)?;
        self.bytes.push(byte)?;
        Ok(())
    }
}

#[tactic(auto, unfolding(crate::specs::Literals::string_inside))]
fn string_inside(alloc: Global, at: usize, c: &mut Cursor) -> Result<Literal, CLex>
    ensures { Reads c.old c.new result ((string_inside c.old.end at).read c.old.end c.old.left) }
{
    let bytes = Vec::new(alloc);
    run(Literal { at, bytes }, c)
}

/// Takes the string literal that begins here, at `at`.
#[tactic(auto, unfolding(crate::specs::Literals::string))]
pub fn string_literal(alloc: Global, at: usize, c: &mut Cursor) -> Result<Literal, CLex>
    ensures { Reads c.old c.new result ((string c.old.end at).read c.old.end c.old.left) }
{
    any_of(at, c)?;
    let text = string_inside(alloc, at, c)?;
    this(at, b'"', c)?;
    Ok(text)
}

/// What a character constant has so far.
#[derive(Clone, Copy)]
pub enum Seen {
    Nothing,
    One(u8),
    Many,
}

fn after(seen: Seen, byte: u8) -> Seen
    ensures { result ≡ after seen byte }
{
    match seen {
        Seen::Nothing => Seen::One(byte),
        Seen::One(_) | Seen::Many => Seen::Many,
    }
}

/// A character constant: where it begins, and what it has so far.
#[derive(Clone, Copy)]
pub struct Character {
    pub at: usize,
    pub seen: Seen,
}

impl Steps for Character {
    ghost going = { character_goes };

    ghost step = { character_step };

    fn goes(&self, c: &Cursor) -> bool {
        match c.rest() {
            [] => false,
            [next, ..] => !(*next == b'\''),
        }
    }

    #[tactic(auto, unfolding(crate::specs::Literals::character_step))]
    fn step(&mut self, c: &mut Cursor) -> Result<(), CLex> {
        let byte = piece(self.at, c)?;
        self.seen = after(self.seen, byte);
        Ok(())
    }
}

#[tactic(auto, unfolding(crate::specs::Literals::character_inside))]
fn character_inside(at: usize, c: &mut Cursor) -> Result<Character, CLex>
    ensures { Reads c.old c.new result ((character_inside c.old.end at).read c.old.end c.old.left) }
{
    let seen = Seen::Nothing;
    run(Character { at, seen }, c)
}

/// Takes the character constant that begins here, at `at`.
#[tactic(auto, unfolding(crate::specs::Literals::character, crate::specs::Literals::only_one))]
pub fn character_constant(at: usize, c: &mut Cursor) -> Result<u8, CLex>
    ensures { Reads c.old c.new result ((character c.old.end at).read c.old.end c.old.left) }
{
    any_of(at, c)?;
    let constant = character_inside(at, c)?;
    this(at, b'\'', c)?;
    match constant.seen {
        Seen::One(byte) => Ok(byte),
        Seen::Nothing => Err(CLex::Char { at }),
        Seen::Many => Err(CLex::Char { at }),
    }
}
