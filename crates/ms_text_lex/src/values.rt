//! What strings stand for (WebAssembly 1.0, 6.3.3).

ghost use Rattle.std.specs.Prelude.{◌≡◌, ◌++◌, IfErr, IfOk, is_ok, if◌then◌else◌};
ghost use Rattle.ms_text_lex.specs.Readers.{Reads};
ghost use Rattle.ms_text_lex.specs.Strings.{string_goes};
ghost use Rattle.ms_text_lex.specs.Tokens.{text_of};
ghost use Rattle.ms_text_lex.specs.Values.{bytes_in, bytes_of, element, elements, string_bytes, value_of};

use crate::fault::LexFault;
use crate::steps::this;
use crate::strings::{Piece, Pieces, take_pieces};
use crate::token::{Token, text_of};
use ms_bytes::Cursor;
use std::alloc::{AllocError, Global};
use std::marker::Model;

/// The bytes of a string so far.
#[derive(Drop)]
struct Bytes {
    items: Vec<u8>,
}

impl Model for Bytes {
    ghost use Rattle.std.specs.Prelude.{ℕ, List};

    ghost Value = { List ℕ };

    ghost view = { λ b. b.items.items };
}

impl Pieces for Bytes {
    ghost after = { λ bytes piece. bytes ++ bytes_of piece };

    fn add(&mut self, piece: Piece) -> Result<(), AllocError> {
        match piece {
            Piece::Byte(byte) => self.items.push(byte)?,
            Piece::Scalar(character) => {
                let mut room = [0; 4];
                let text = character.encode_utf8(&mut room);
                self.items.extend_from_slice(text.as_bytes())?;
            }
        }
        Ok(())
    }

    fn add_bytes(&mut self, bytes: &[u8]) -> Result<(), AllocError> {
        self.items.extend_from_slice(bytes)
    }
}

/// Takes what stands between quotes.
#[tactic(auto, unfolding(crate::specs::Values::elements, crate::specs::Values::element, crate::specs::Strings::piece_step))]
fn elements(alloc: Global, c: &mut Cursor) -> Result<Bytes, LexFault>
    ensures { Reads c.old c.new result (elements.read c.old.end c.old.left) }
{
    let items = Vec::with_capacity(alloc, c.len())?;
    take_pieces(Bytes { items }, c)
}

/// Takes a string in its quotes.
#[tactic(auto, unfolding(crate::specs::Values::string_bytes))]
fn string_bytes(alloc: Global, c: &mut Cursor) -> Result<Bytes, LexFault>
    ensures { Reads c.old c.new result (string_bytes.read c.old.end c.old.left) }
{
    this(b'"', c)?;
    let bytes = elements(alloc, c)?;
    this(b'"', c)?;
    Ok(bytes)
}

/// What a string stands for: no bytes where the text is none.
#[tactic(auto, unfolding(crate::specs::Values::bytes_in))]
fn bytes_in(alloc: Global, text: &[u8]) -> Result<Vec<u8>, AllocError>
    ensures { IfOk result (λ v. v.items ≡ bytes_in text.now) }
{
    let mut c = Cursor::new(text);
    match string_bytes(alloc, &mut c) {
        Ok(bytes) => Ok(bytes.items),
        Err(LexFault::Memory) => Err(AllocError),
        Err(_) => Ok(Vec::new(alloc)),
    }
}

/// The bytes that a string token of this source stands for: those between its quotes, with each escape replaced by the
/// byte, or by the character in UTF-8, that it tells. No bytes for a token of another kind. Fails where memory runs out.
pub fn string_value(alloc: Global, source: &[u8], token: Token) -> Result<Vec<u8>, AllocError>
    ensures { IfOk result (λ v. v.items ≡ value_of source.now token) }
{
    bytes_in(alloc, text_of(source, token))
}

/// Adds the bytes that a string token of this source stands for at the end of others. After an error, which is want of
/// memory, nothing has changed.
pub fn append_value(
    alloc: Global,
    bytes: &mut Vec<u8>,
    source: &[u8],
    token: Token,
) -> Result<(), AllocError>
    ensures { bytes.new.items ≡ (if is_ok result then bytes.old.items ++ value_of source.now token else bytes.old.items) }
{
    let value = string_value(alloc, source, token)?;
    if bytes.is_empty() {
        *bytes = value;
        return Ok(());
    }
    bytes.extend_from_slice(value.as_slice())
}
