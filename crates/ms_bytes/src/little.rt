//! Numbers as eight bytes, the lowest first.

ghost use Rattle.std.specs.Prelude.{◌≡◌};
ghost use Rattle.ms_bytes.specs.Little.{bytes_of, number_of};

/// The number that eight bytes are, the lowest first.
pub fn get_le(bytes: &[u8; 8]) -> u64
    ensures { result ≡ number_of bytes.now }
{
    u64::from_le_bytes(*bytes)
}

/// The eight bytes of a number, the lowest first.
pub fn put_le(value: u64) -> [u8; 8]
    ensures { result ≡ bytes_of 8 value }
{
    value.to_le_bytes()
}
