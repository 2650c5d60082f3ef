//! Numbers in plain bytes.

ghost use Rattle.std.specs.Prelude.{◌≡◌, ◌↔◌, ◌<◌, ◌^◌, IsTrue, length, map, replicate};
ghost use Rattle.ms_tagged.specs.Bytes.{IsWidth, data_of};
ghost use Rattle.ms_tagged.specs.refinement.Granules.{data_bytes, number_of};

/// The number that the bytes are, the lowest one first.
#[inline(always)]
pub(crate) fn read_word(bytes: &[u8]) -> u64
    requires { IsWidth (length bytes.now) }
    ensures number { result ≡ number_of bytes.now }
    ensures fits { result < 256 ^ length bytes.now }
{
    match bytes {
        [a] => u64::from(*a),
        [a, b] => u64::from(u16::from_le_bytes([*a, *b])),
        [a, b, c, d] => u64::from(u32::from_le_bytes([*a, *b, *c, *d])),
        _ => read_eight(bytes),
    }
}

/// The number that eight bytes are.
#[inline(always)]
fn read_eight(bytes: &[u8]) -> u64
    requires { length bytes.now ≡ 8 }
    ensures { result ≡ number_of bytes.now }
{
    u64::from_le_bytes([
        bytes[0], bytes[1], bytes[2], bytes[3], bytes[4], bytes[5], bytes[6], bytes[7],
    ])
}

/// Makes the bytes the lowest ones of a number, the lowest one first.
#[inline(always)]
pub(crate) fn write_word(bytes: &mut [u8], number: u64)
    requires { IsWidth (length bytes.old) }
    ensures { data_bytes bytes.new ≡ data_of (length bytes.old) number }
{
    match bytes.len() {
        1 => bytes.copy_from_slice(&((number % 256) as u8).to_le_bytes()),
        2 => bytes.copy_from_slice(&((number % 65536) as u16).to_le_bytes()),
        4 => bytes.copy_from_slice(&((number % 4_294_967_296) as u32).to_le_bytes()),
        _ => bytes.copy_from_slice(&number.to_le_bytes()),
    }
}

/// Whether sixteen bytes are 0.
pub(crate) fn are_zeros(bytes: &[u8]) -> bool
    requires { length bytes.now ≡ 16 }
    ensures { IsTrue result ↔ (bytes.now ≡ replicate 16 0) }
{
    let (low, high) = bytes.split_at(8);
    read_word(low) == 0 && read_word(high) == 0
}
