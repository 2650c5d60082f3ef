//! Punctuators (C11, 6.4.6), by their bytes.

ghost use Rattle.std.specs.Prelude.{◌≡◌};
ghost use Rattle.c_lex.specs.Marks.{equals_rows, named, one, shift_rows, three, twice_rows, two};

use c_token::Mark;

/// The punctuator of one byte.
pub fn one(a: u8) -> Option<Mark>
    ensures { result ≡ one a }
{
    match a {
        b'(' => Some(Mark::OpenParen),
        b')' => Some(Mark::CloseParen),
        b'[' => Some(Mark::OpenBracket),
        b']' => Some(Mark::CloseBracket),
        b'{' => Some(Mark::OpenBrace),
        b'}' => Some(Mark::CloseBrace),
        b';' => Some(Mark::Semicolon),
        b',' => Some(Mark::Comma),
        b'.' => Some(Mark::Dot),
        b'&' => Some(Mark::Ampersand),
        b'*' => Some(Mark::Star),
        b'+' => Some(Mark::Plus),
        b'-' => Some(Mark::Minus),
        b'~' => Some(Mark::Tilde),
        b'!' => Some(Mark::Bang),
        b'/' => Some(Mark::Slash),
        b'%' => Some(Mark::Percent),
        b'<' => Some(Mark::Less),
        b'>' => Some(Mark::Greater),
        b'^' => Some(Mark::Caret),
        b'|' => Some(Mark::Bar),
        b'?' => Some(Mark::Question),
        b':' => Some(Mark::Colon),
        b'=' => Some(Mark::Equals),
        _ => None,
    }
}

/// The punctuator of a byte with `=` behind it.
fn with_equals(a: u8) -> Option<Mark>
    ensures { result ≡ named equals_rows a }
{
    match a {
        b'<' => Some(Mark::LessEqual),
        b'>' => Some(Mark::GreaterEqual),
        b'=' => Some(Mark::EqualEqual),
        b'!' => Some(Mark::NotEqual),
        b'+' => Some(Mark::PlusEqual),
        b'-' => Some(Mark::MinusEqual),
        b'*' => Some(Mark::StarEqual),
        b'/' => Some(Mark::SlashEqual),
        b'%' => Some(Mark::PercentEqual),
        b'&' => Some(Mark::AmpersandEqual),
        b'|' => Some(Mark::BarEqual),
        b'^' => Some(Mark::CaretEqual),
        _ => None,
    }
}

/// The punctuator of a byte that stands twice.
fn twice(a: u8) -> Option<Mark>
    ensures { result ≡ named twice_rows a }
{
    match a {
        b'+' => Some(Mark::PlusPlus),
        b'-' => Some(Mark::MinusMinus),
        b'<' => Some(Mark::LessLess),
        b'>' => Some(Mark::GreaterGreater),
        b'&' => Some(Mark::AndAnd),
        b'|' => Some(Mark::OrOr),
        _ => None,
    }
}

/// The punctuator of a byte that stands twice with `=` behind.
fn shift(a: u8) -> Option<Mark>
    ensures { result ≡ named shift_rows a }
{
    match a {
        b'<' => Some(Mark::LessLessEqual),
        b'>' => Some(Mark::GreaterGreaterEqual),
        _ => None,
    }
}

/// The punctuator of two bytes.
pub fn two(a: u8, b: u8) -> Option<Mark>
    ensures { result ≡ two a b }
{
    if b == b'=' {
        return with_equals(a);
    }
    if a == b {
        return twice(a);
    }
    if a == b'-' && b == b'>' {
        return Some(Mark::Arrow);
    }
    None
}

/// The punctuator of three bytes.
pub fn three(a: u8, b: u8, c: u8) -> Option<Mark>
    ensures { result ≡ three a b c }
{
    if a == b && c == b'=' {
        return shift(a);
    }
    None
}
