//! Numbers of one, two, four and eight bytes at a place.

ghost use Rattle.std.specs.Prelude.{◌≡◌, ◌+◌, ◌^◌, ◌<◌, ◌≤◌, ◌++◌, length, take, drop};
ghost use Rattle.ms_bytes.specs.Little.{bytes_of, number_of};

use ms_bytes::{get_le, put_le};

/// The byte at a place.
pub(crate) fn read_1(bytes: &[u8], at: usize) -> u64
    requires { at + 1 ≤ length bytes.now }
    ensures number { result ≡ number_of (take 1 (drop at bytes.now)) }
    ensures fits { result < 256 ^ 1 }
{
    u64::from(bytes[at])
}

/// The number that two bytes are, the lowest first.
pub(crate) fn read_2(bytes: &[u8], at: usize) -> u64
    requires { at + 2 ≤ length bytes.now }
    ensures number { result ≡ number_of (take 2 (drop at bytes.now)) }
    ensures fits { result < 256 ^ 2 }
{
    u64::from(u16::from_le_bytes([bytes[at], bytes[at + 1]]))
}

/// The number that four bytes are, the lowest first.
pub(crate) fn read_4(bytes: &[u8], at: usize) -> u64
    requires { at + 4 ≤ length bytes.now }
    ensures number { result ≡ number_of (take 4 (drop at bytes.now)) }
    ensures fits { result < 256 ^ 4 }
{
    u64::from(u32::from_le_bytes([bytes[at], bytes[at + 1], bytes[at + 2], bytes[at + 3]]))
}

/// The number that eight bytes are, the lowest first.
pub(crate) fn read_8(bytes: &[u8], at: usize) -> u64
    requires { at + 8 ≤ length bytes.now }
    ensures { result ≡ number_of (take 8 (drop at bytes.now)) }
{
    get_le(&[
        bytes[at],
        bytes[at + 1],
        bytes[at + 2],
        bytes[at + 3],
        bytes[at + 4],
        bytes[at + 5],
        bytes[at + 6],
        bytes[at + 7],
    ])
}

/// Writes the lowest byte of a value at a place.
pub(crate) fn write_1(bytes: &mut [u8], at: usize, value: u64)
    requires { at + 1 ≤ length bytes.old }
    ensures { bytes.new ≡ take at bytes.old ++ bytes_of 1 value ++ drop (at + 1) bytes.old }
{
    bytes[at..at + 1].copy_from_slice(&((value % 256) as u8).to_le_bytes());
}

/// Writes the lowest two bytes of a value from a place on, the lowest first.
pub(crate) fn write_2(bytes: &mut [u8], at: usize, value: u64)
    requires { at + 2 ≤ length bytes.old }
    ensures { bytes.new ≡ take at bytes.old ++ bytes_of 2 value ++ drop (at + 2) bytes.old }
{
    bytes[at..at + 2].copy_from_slice(&((value % 65536) as u16).to_le_bytes());
}

/// Writes the lowest four bytes of a value from a place on, the lowest first.
pub(crate) fn write_4(bytes: &mut [u8], at: usize, value: u64)
    requires { at + 4 ≤ length bytes.old }
    ensures { bytes.new ≡ take at bytes.old ++ bytes_of 4 value ++ drop (at + 4) bytes.old }
{
    bytes[at..at + 4].copy_from_slice(&((value % 4_294_967_296) as u32).to_le_bytes());
}

/// Writes the eight bytes of a value from a place on, the lowest first.
pub(crate) fn write_8(bytes: &mut [u8], at: usize, value: u64)
    requires { at + 8 ≤ length bytes.old }
    ensures { bytes.new ≡ take at bytes.old ++ bytes_of 8 value ++ drop (at + 8) bytes.old }
{
    bytes[at..at + 8].copy_from_slice(&put_le(value));
}
