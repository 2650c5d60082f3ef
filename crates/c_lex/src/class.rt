//! Classes of bytes (C11, 5.2.1).

ghost use Rattle.std.specs.Prelude.{◌≡◌, ◌≤◌, ◌<◌, length};
ghost use Rattle.ms_bytes.specs.Texts.{run_len};
ghost use Rattle.c_lex.specs.Classes.{is_decimal, is_digit, is_in, is_letter, worth};

/// What digits are of.
#[derive(Clone, Copy)]
pub enum Base {
    Octal,
    Decimal,
    Hexadecimal,
}

/// What a run of bytes may be made of.
#[derive(Clone, Copy)]
pub enum Class {
    /// Blanks but for the line's end.
    Blank,
    /// Anything but the line's end.
    Line,
    /// Letters, digits and `_`.
    Name,
    Digit(Base),
}

/// Whether a byte is a letter or `_`.
pub fn is_letter(byte: u8) -> bool
    ensures { result ≡ is_letter byte }
{
    (byte >= b'a' && byte <= b'z') || (byte >= b'A' && byte <= b'Z') || byte == b'_'
}

pub fn is_decimal(byte: u8) -> bool
    ensures { result ≡ is_decimal byte }
{
    byte >= b'0' && byte <= b'9'
}

pub fn is_digit(base: Base, byte: u8) -> bool
    ensures { result ≡ is_digit base byte }
{
    match base {
        Base::Octal => byte >= b'0' && byte <= b'7',
        Base::Decimal => is_decimal(byte),
        Base::Hexadecimal => {
            is_decimal(byte) || (byte >= b'a' && byte <= b'f') || (byte >= b'A' && byte <= b'F')
        }
    }
}

/// What a digit is worth, or 0 for any other byte.
pub fn worth(byte: u8) -> u8
    ensures value { result ≡ worth byte }
    ensures small { result < 16 }
{
    match byte {
        b'0'..=b'9' => byte - b'0',
        b'a'..=b'f' => byte - b'a' + 10,
        b'A'..=b'F' => byte - b'A' + 10,
        _ => 0,
    }
}

pub fn is_in(class: Class, byte: u8) -> bool
    ensures { result ≡ is_in class byte }
{
    match class {
        Class::Blank => byte == b' ' || byte == b'\t' || (byte >= 11 && byte <= 13),
        Class::Line => !(byte == b'\n'),
        Class::Name => is_letter(byte) || is_decimal(byte),
        Class::Digit(base) => is_digit(base, byte),
    }
}

/// How many bytes of a class stand in front.
pub fn run_len(class: Class, bytes: &[u8]) -> usize
    ensures run { result ≡ run_len (is_in class) bytes.now }
    ensures within { result ≤ length bytes.now }
{
    for (i, byte) in bytes.iter().enumerate() {
        if !is_in(class, *byte) {
            return i;
        }
    }
    bytes.len()
}
