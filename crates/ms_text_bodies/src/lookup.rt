//! The keyword that a text is.

ghost use Rattle.std.specs.Prelude.{◌≡◌, ◌<◌, ◌≤◌, get_or, codes};
ghost use Rattle.ms_module.specs.Instructions.{begins_with, by_word};
ghost use Rattle.ms_text_grammar.specs.Instructions.{form_of};
ghost use Rattle.ms_text_bodies.specs.refinement.Classes.{Finds, class_of, class_with_width, class_without, rows_in};

use crate::words::{narrow_word, other_word, wide_word};
use ms_text_grammar::Keyword;

/// The byte at a place, or 0 where there is none.
fn letter(text: &[u8], at: usize) -> u8
    ensures { result ≡ get_or text.now at 0 }
{
    match text.get(at) {
        Some(byte) => *byte,
        None => 0,
    }
}

fn class_with_width(a: u8, b: u8) -> u8
    ensures is { result ≡ class_with_width a b }
    ensures small { result ≤ 9 }
{
    if a < b'd' {
        return 0;
    }
    if a < b'g' {
        return 1;
    }
    if a < b'l' {
        return 2;
    }
    if a == b'l' {
        return if b == b'o' { 4 } else { 3 };
    }
    if a < b'r' {
        return 5;
    }
    if a == b'r' {
        return 6;
    }
    if a == b's' {
        return if b == b'e' { 8 } else { 7 };
    }
    9
}

fn class_without(a: u8) -> u8
    ensures is { result ≡ class_without a }
    ensures small { result ≤ 24 }
{
    if a < b'e' {
        return 20;
    }
    if a < b'h' {
        return 21;
    }
    if a == b'h' {
        return 22;
    }
    if a < b'm' {
        return 21;
    }
    if a < b's' {
        return 23;
    }
    24
}

/// The class of a keyword, by its letters.
#[tactic(auto, unfolding(crate::specs::refinement::Classes::class_of))]
fn class_of(text: &[u8]) -> u8
    ensures is { result ≡ class_of text.now }
    ensures small { result ≤ 24 }
{
    if text.starts_with(b"i32.") {
        return class_with_width(letter(text, 4), letter(text, 5));
    }
    if text.starts_with(b"i64.") {
        return 10 + class_with_width(letter(text, 4), letter(text, 5));
    }
    class_without(letter(text, 0))
}

/// The keyword of this class that a text is, if it is one.
fn in_class(class: u8, text: &[u8]) -> Option<Keyword>
    requires { class ≤ 24 }
    ensures { Finds result (by_word (rows_in class) text.now) }
{
    if class < 10 {
        return narrow_word(class, text);
    }
    if class < 20 {
        return wide_word(class, text);
    }
    other_word(class, text)
}

/// The keyword that a text is, if it is one of an instruction that is no block.
pub fn keyword_of(text: &[u8]) -> Option<Keyword>
    ensures { Finds result (form_of text.now) }
{
    in_class(class_of(text), text)
}
