//! The names that stand before a unit.

ghost use Rattle.std.specs.Prelude.{◌≡◌};
ghost use Rattle.c_check_types.specs.Scopes as words;

/// A name that stands before the unit (C11, 7.19, 7.21 and 7.22).
#[derive(Clone, Copy, PartialEq, Eq)]
pub enum LibraryName {
    Putchar,
    Getchar,
    Abort,
    Malloc,
    Calloc,
    Free,
    Null,
    Eof,
}

/// What a name stands for before the unit, if it is one of those.
pub fn library(name: &[u8]) -> Option<LibraryName>
    ensures { result ≡ words.library name.now }
{
    if name == b"putchar".as_slice() {
        return Some(LibraryName::Putchar);
    }
    if name == b"getchar".as_slice() {
        return Some(LibraryName::Getchar);
    }
    if name == b"abort".as_slice() {
        return Some(LibraryName::Abort);
    }
    if name == b"malloc".as_slice() {
        return Some(LibraryName::Malloc);
    }
    if name == b"calloc".as_slice() {
        return Some(LibraryName::Calloc);
    }
    if name == b"free".as_slice() {
        return Some(LibraryName::Free);
    }
    if name == b"NULL".as_slice() {
        return Some(LibraryName::Null);
    }
    if name == b"EOF".as_slice() {
        return Some(LibraryName::Eof);
    }
    None
}
