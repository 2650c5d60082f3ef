//! The tag of one byte, and the numbers and handles that tags are.

ghost use Rattle.std.specs.Prelude.{◌≡◌, ◌<◌, ◌≤◌, ◌^◌, ◌↔◌, IfSome, IsTrue, length, replicate};
ghost use Rattle.ms_tagged.specs.Bytes.{Data, IsHandleAt, data_of, held_at, number_at, shown_at};
ghost use Rattle.ms_tagged.specs.refinement.Tags.{bytes_of, filled, pieces_from};

use ms_handle::Handle;

/// How many pieces a handle has.
pub(crate) const PIECES: usize = 16;

/// A byte: data, or the piece of a handle with this number.
#[derive(Clone, Copy, PartialEq, Eq)]
pub(crate) enum Tag {
    /// A data byte.
    Data(u8),
    /// A piece of a handle.
    Piece(Handle, u8),
}

/// The number that at most eight bytes are, the lowest byte first. `None` exactly where one is a piece.
pub(crate) fn number(tags: &[Tag]) -> Option<u64>
    requires { length tags.now ≤ 8 }
    ensures number { result ≡ number_at (bytes_of tags.now) }
    ensures fits { IfSome result (λ n. n < 256 ^ length tags.now) }
{
    let mut value = 0;
    for index in (0..tags.len()).rev() {
        match tags[index] {
            Tag::Data(byte) => value = value * 256 + u64::from(byte),
            Tag::Piece(..) => return None,
        }
    }
    Some(value)
}

/// Makes the bytes the lowest ones of a number, the lowest first.
pub(crate) fn write_number(tags: &mut [Tag], number: u64)
    ensures { bytes_of tags.new ≡ data_of (length tags.old) number }
{
    let mut rest = number;
    for tag in tags.iter_mut() {
        *tag = Tag::Data((rest % 256) as u8);
        rest /= 256;
    }
}

/// Makes the bytes data bytes 0.
pub(crate) fn write_zeros(tags: &mut [Tag])
    ensures { bytes_of tags.new ≡ replicate (length tags.old) (Data 0) }
{
    for tag in tags.iter_mut() {
        *tag = Tag::Data(0);
    }
}

/// Makes the bytes the first pieces of a handle, in order.
pub(crate) fn write_pieces(tags: &mut [Tag], handle: Handle)
    requires { length tags.old ≤ 256 }
    ensures { bytes_of tags.new ≡ pieces_from handle 0 (length tags.old) }
{
    for (number, tag) in tags.iter_mut().enumerate() {
        *tag = Tag::Piece(handle, number as u8);
    }
}

/// The first byte as data. `None` exactly where it is a piece. Where no tag is there it is a data byte 0.
pub(crate) fn first_shown(tags: &[Tag]) -> Option<u8>
    ensures { result ≡ shown_at (filled 1 (bytes_of tags.now)) }
{
    match tags {
        [Tag::Data(byte), ..] => Some(*byte),
        [Tag::Piece(..), ..] => None,
        [] => Some(0),
    }
}

/// The handle of which the first byte is a piece. `None` exactly where it is a data byte, as it is where no tag is there.
pub(crate) fn first_held(tags: &[Tag]) -> Option<Handle>
    ensures { result ≡ held_at (filled 1 (bytes_of tags.now)) }
{
    match tags {
        [Tag::Data(_), ..] => None,
        [Tag::Piece(handle, _), ..] => Some(*handle),
        [] => None,
    }
}

/// The handle that sixteen bytes are.
pub(crate) fn handle(tags: &[Tag]) -> Handle
    requires { length tags.now ≡ PIECES }
    ensures { IsHandleAt (bytes_of tags.now) result }
{
    match tags[0] {
        Tag::Piece(handle, _) if are_pieces(tags, handle) => handle,
        Tag::Data(_) if are_zeros(tags) => Handle::Null,
        _ => Handle::Broken,
    }
}

/// The handle that sixteen bytes are, of which these are the first ones. The others are data bytes 0.
pub(crate) fn handle_in_front(tags: &[Tag]) -> Handle
    requires { length tags.now ≤ 16 }
    ensures { IsHandleAt (filled 16 (bytes_of tags.now)) result }
{
    if tags.len() == PIECES {
        return handle(tags);
    }
    if are_zeros(tags) {
        return Handle::Null;
    }
    Handle::Broken
}

/// Whether the bytes are the first pieces of this handle, in order.
fn are_pieces(tags: &[Tag], handle: Handle) -> bool
    requires { length tags.now ≤ 256 }
    ensures { IsTrue result ↔ (bytes_of tags.now ≡ pieces_from handle 0 (length tags.now)) }
{
    for (number, tag) in tags.iter().enumerate() {
        if *tag != Tag::Piece(handle, number as u8) {
            return false;
        }
    }
    true
}

/// Whether all bytes are data bytes 0.
fn are_zeros(tags: &[Tag]) -> bool
    ensures { IsTrue result ↔ (bytes_of tags.now ≡ replicate (length tags.now) (Data 0)) }
{
    tags.iter().all(|tag| matches!(tag, Tag::Data(0)))
}
