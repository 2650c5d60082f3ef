//! Identifiers (C11, 6.4.2.1).

ghost use Rattle.std.specs.Prelude.{◌≡◌};
ghost use Rattle.c_typed.specs.Identifiers as words;

/// A letter or `_`.
fn is_letter(b: u8) -> bool
    ensures { result ≡ words.is_letter b }
{
    (97 <= b && b <= 122) || (65 <= b && b <= 90) || b == 95
}

fn is_digit(b: u8) -> bool
    ensures { result ≡ words.is_digit b }
{
    48 <= b && b <= 57
}

/// Whether letters and digits alone are left.
fn go_on(bytes: &[u8]) -> bool
    ensures { result ≡ words.go_on bytes.now }
{
    for b in bytes {
        if !(is_letter(*b) || is_digit(*b)) {
            return false;
        }
    }
    true
}

/// Whether a name is spelled as an identifier is.
pub fn is_identifier(name: &[u8]) -> bool
    ensures { result ≡ words.is_identifier name.now }
{
    match name {
        [] => false,
        [first, rest @ ..] => is_letter(*first) && go_on(rest),
    }
}
