//! The lines of the live segments, with their bytes.

ghost use Rattle.std.specs.Prelude.{◌≡◌, ◌+◌, ◌<◌, ◌≤◌, ◌^◌, ◌++◌, IfOk, OnOk, length, flat_map, string_bytes, codes};
ghost use Rattle.std.specs.Fmt.{decimal};
ghost use Rattle.ms_run.specs.Telling.{byte_word, bytes_word, dump_line, kind_word, shown_word};
ghost use Rattle.ms_tagged.specs.Bytes.{range};

use ms_handle::Kind;
use ms_live::{Gaps, Live};
use ms_segment::Segments;
use ms_tagged::Tagged;
use std::alloc::{AllocError, Global};

fn kind_word(kind: Kind) -> &'static str
    ensures { result.now ≡ kind_word kind }
{
    match kind {
        Kind::Heap => "heap",
        Kind::Frame => "frame",
    }
}

/// What stands in front of a segment's bytes.
fn head(alloc: Global, segment: Live) -> Result<String, AllocError>
    ensures { IfOk result (λ t. string_bytes t ≡ codes "dump " ++ decimal segment.id ++ codes " " ++ decimal segment.base ++ codes " " ++ decimal segment.size ++ codes " " ++ kind_word segment.kind) }
{
    let Live {
        id,
        base,
        size,
        kind,
    } = segment;
    let kind = kind_word(kind);
    format!(in alloc; "dump {id} {base} {size} {kind}")
}

/// Two digits of a data byte, or those that stand for a piece of a handle.
fn digits_of(shown: Option<u8>) -> [u8; 2]
    ensures { result ≡ shown_word shown }
{
    let mut digits = *b"--";
    if let Some(byte) = shown {
        let Ok(()) = hex::encode_to_slice([byte], &mut digits) else {
            unreachable!()
        };
    }
    digits
}

/// So many bytes from an address on, behind a space; nothing where there are none.
fn dump_bytes<G: Gaps, T: Tagged>(
    segments: &Segments<G, T>,
    base: u32,
    size: u32,
    lines: &mut Vec<u8>,
) -> Result<(), AllocError>
    requires within { base + size ≤ length segments.now.bytes }
    requires near { base + size < 2 ^ 32 }
    ensures { OnOk result (lines.new.items ≡ lines.old.items ++ bytes_word (range base size segments.now.bytes)) }
{
    if size == 0 {
        return Ok(());
    }
    lines.push(b' ')?;
    for place in 0..size {
        let digits = digits_of(segments.shown(base + place));
        lines.extend_from_slice(&digits)?;
    }
    Ok(())
}

/// The line of a segment, behind others.
fn dump_segment<G: Gaps, T: Tagged>(
    alloc: Global,
    segments: &Segments<G, T>,
    segment: Live,
    lines: &mut Vec<u8>,
) -> Result<(), AllocError>
    requires within { segment.base + segment.size ≤ length segments.now.bytes }
    requires near { segment.base + segment.size < 2 ^ 32 }
    ensures { OnOk result (lines.new.items ≡ lines.old.items ++ dump_line segments.now segment) }
{
    let head = head(alloc, segment)?;
    lines.extend_from_slice(head.as_bytes())?;
    dump_bytes(segments, segment.base, segment.size, lines)?;
    lines.push(b'\n')?;
    Ok(())
}

/// The lines of the live segments, in the order of their identities, behind others.
pub fn dump_all<G: Gaps, T: Tagged>(
    alloc: Global,
    segments: &Segments<G, T>,
    lines: &mut Vec<u8>,
) -> Result<(), AllocError>
    ensures { OnOk result (lines.new.items ≡ lines.old.items ++ flat_map (dump_line segments.now) segments.now.live) }
{
    for number in 0..segments.live() {
        dump_segment(alloc, segments, segments.live_at(number), lines)?;
    }
    Ok(())
}
