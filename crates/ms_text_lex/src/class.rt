//! Classes of bytes (WebAssembly 1.0, 6.2 and 6.3), and UTF-8.

ghost use Rattle.std.specs.Prelude.{◌≡◌, ◌≤◌, ◌<◌, IfSome, length};
ghost use Rattle.std.specs.Str.{is_utf8};
ghost use Rattle.ms_bytes.specs.Texts.{run_len};
ghost use Rattle.ms_text_lex.specs.Classes.{hex, is_blank, is_decimal, is_idchar, is_in};
ghost use Rattle.ms_text_lex.specs.Fault.{may_be_utf8};

use ms_names::utf8;

/// What a run of bytes may be made of.
#[derive(Clone, Copy)]
pub enum Class {
    /// White space.
    Blank,
    /// Identifier characters.
    IdChar,
    /// Anything but the line's end.
    Line,
}

pub fn is_blank(byte: u8) -> bool
    ensures { result ≡ is_blank byte }
{
    byte == b' ' || byte == b'\t' || byte == b'\n' || byte == b'\r'
}

pub fn is_idchar(byte: u8) -> bool
    ensures { result ≡ is_idchar byte }
{
    byte >= 33
        && byte <= 126
        && !(byte == b'"'
            || byte == b'('
            || byte == b')'
            || byte == b','
            || byte == b';'
            || byte == b'['
            || byte == b']'
            || byte == b'{'
            || byte == b'}')
}

pub fn is_decimal(byte: u8) -> bool
    ensures { result ≡ is_decimal byte }
{
    byte >= b'0' && byte <= b'9'
}

/// What a hexadecimal digit is worth.
pub fn hex(byte: u8) -> Option<u8>
    ensures value { result ≡ hex byte }
    ensures small { IfSome result (λ d. d < 16) }
{
    match byte {
        b'0'..=b'9' => Some(byte - b'0'),
        b'a'..=b'f' => Some(byte - b'a' + 10),
        b'A'..=b'F' => Some(byte - b'A' + 10),
        _ => None,
    }
}

pub fn is_in(class: Class, byte: u8) -> bool
    ensures { result ≡ is_in class byte }
{
    match class {
        Class::Blank => is_blank(byte),
        Class::IdChar => is_idchar(byte),
        Class::Line => !(byte == b'\n'),
    }
}

/// How many bytes of a class stand in front.
pub fn run_len(class: Class, bytes: &[u8]) -> usize
    ensures run { result ≡ run_len (is_in class) bytes.now }
    ensures within { result ≤ length bytes.now }
{
    for (i, byte) in bytes.iter().enumerate() {
        if !is_in(class, *byte) {
            return i;
        }
    }
    bytes.len()
}

pub fn is_utf8(bytes: &[u8]) -> bool
    ensures { result ≡ is_utf8 bytes.now }
{
    utf8(bytes).is_some()
}

/// Whether bytes are UTF-8, or would be if their last character were not cut off.
pub fn may_be_utf8(bytes: &[u8]) -> bool
    ensures { result ≡ may_be_utf8 bytes.now }
{
    match str::from_utf8(bytes) {
        Ok(_) => true,
        Err(e) => e.error_len().is_none(),
    }
}
