//! The parts of a text: indices, numbers, strings, and items in a row.

ghost use Rattle.std.specs.Prelude.{◌≡◌, ◌++◌, ◌<◌, ℕ, List, OnOk, codes, decimal};
ghost use Rattle.std.specs.Fmt.{signed_decimal};
ghost use Rattle.ms_text_write.specs.Parts.{behind, byte_text, hex_digit, indexed, is_itself, opened, spaced, string_text};
ghost use Rattle.ms_flat.specs.refinement.Ranges.{AllFit, NumberFits};
ghost use Rattle.ms_text_write.specs.refinement.Ranges.{ByteFits};

use itoa::Buffer;
use ms_text_grammar::Word;
use std::alloc::{AllocError, Global};

/// What is written at the end of a text.
pub trait Show {
    ghost text: { Self → List ℕ };

    ghost fits: { Self → Type 0 };

    /// Writes it at the end.
    fn show(&self, alloc: Global, out: &mut Vec<u8>) -> Result<(), AllocError>
        ensures written { OnOk result (out.new.items ≡ out.old.items ++ text self.now) }
        ensures within { OnOk result (fits self.now) };
}

/// Writes items, each behind a lead.
pub fn write_behind<T: Show>(
    alloc: Global,
    lead: &[u8],
    items: &[T],
    out: &mut Vec<u8>,
) -> Result<(), AllocError>
    ensures written { OnOk result (out.new.items ≡ out.old.items ++ behind lead.now T.text items.now) }
    ensures within { OnOk result (AllFit T.fits items.now) }
{
    for item in items {
        out.extend_from_slice(lead)?;
        item.show(alloc, out)?;
    }
    Ok(())
}

/// Writes a number.
pub fn write_number(number: u32, out: &mut Vec<u8>) -> Result<(), AllocError>
    ensures { OnOk result (out.new.items ≡ out.old.items ++ decimal number) }
{
    out.extend_from_slice(Buffer::new().format(number).as_bytes())
}

/// Writes a number with its sign, if it is negative.
pub fn write_signed(number: i64, out: &mut Vec<u8>) -> Result<(), AllocError>
    ensures { OnOk result (out.new.items ≡ out.old.items ++ signed_decimal number) }
{
    out.extend_from_slice(Buffer::new().format(number).as_bytes())
}

impl Show for u32 {
    ghost text = { decimal };

    ghost fits = { NumberFits };

    fn show(&self, _alloc: Global, out: &mut Vec<u8>) -> Result<(), AllocError> {
        write_number(*self, out)
    }
}

/// Writes a parenthesis and a word.
pub fn write_opened(word: Word, out: &mut Vec<u8>) -> Result<(), AllocError>
    ensures { OnOk result (out.new.items ≡ out.old.items ++ opened word) }
{
    out.push(b'(')?;
    out.extend_from_slice(word.spelling())
}

/// Writes a word and an index in parentheses.
#[tactic(auto, unfolding(crate::specs::Parts::indexed))]
pub fn write_indexed(word: Word, index: u32, out: &mut Vec<u8>) -> Result<(), AllocError>
    ensures { OnOk result (out.new.items ≡ out.old.items ++ indexed word index) }
{
    write_opened(word, out)?;
    out.push(b' ')?;
    write_number(index, out)?;
    out.push(b')')?;
    Ok(())
}

/// Whether a byte stands as itself in a string.
fn is_itself(byte: u8) -> bool
    ensures { result ≡ is_itself byte }
{
    matches!(byte, 0x20..=0x7E) && byte != b'"' && byte != b'\\'
}

/// The digit of a number below 16.
fn hex_digit(number: u8) -> u8
    requires { number < 16 }
    ensures { result ≡ hex_digit number }
{
    if number < 10 {
        b'0' + number
    } else {
        b'a' - 10 + number
    }
}

/// Writes a byte of a string.
fn write_byte(byte: u8, out: &mut Vec<u8>) -> Result<(), AllocError>
    ensures { OnOk result (out.new.items ≡ out.old.items ++ byte_text byte) }
{
    if is_itself(byte) {
        out.push(byte)?;
        return Ok(());
    }
    out.push(b'\\')?;
    out.push(hex_digit(byte / 16))?;
    out.push(hex_digit(byte % 16))?;
    Ok(())
}

/// Writes bytes between quotes.
#[tactic(auto, unfolding(crate::specs::Parts::string_text))]
pub fn write_string(bytes: &[u8], out: &mut Vec<u8>) -> Result<(), AllocError>
    ensures written { OnOk result (out.new.items ≡ out.old.items ++ string_text bytes.now) }
    ensures within { OnOk result (AllFit ByteFits bytes.now) }
{
    out.push(b'"')?;
    for byte in bytes {
        write_byte(*byte, out)?;
    }
    out.push(b'"')?;
    Ok(())
}
