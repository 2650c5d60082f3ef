//! Writing numbers at the end of bytes.

ghost use Rattle.std.specs.Prelude.{◌≡◌, ◌<◌, ◌≤◌, ◌-◌, ◌^◌, ◌++◌, ℕ, List, length, All, OnOk, OnErr, pos, negsuc, ◌<ℤ◌, ◌≤ℤ◌};
ghost use Rattle.ms_leb.specs.Leb128.{IsSigned, IsUnsigned, IsWithin};
ghost use Rattle.ms_leb.specs.Shortest.{seven_bits, shortest_signed, shortest_unsigned, signed_groups};

use std::alloc::AllocError;

/// Writes the groups of an unsigned number.
fn put_unsigned(value: u64, out: &mut Vec<u8>) -> Result<(), AllocError>
    ensures ok { OnOk result (out.new.items ≡ out.old.items ++ shortest_unsigned value) }
    ensures err { OnErr result (out.new.items ≡ out.old.items) }
{
    if value < 128 {
        out.push(value as u8)?;
        return Ok(());
    }
    out.push((value % 128 + 128) as u8)?;
    match put_unsigned(value / 128, out) {
        Ok(()) => Ok(()),
        Err(error) => {
            out.pop();
            Err(error)
        }
    }
}

/// Seven bits of a number, or of the negative one that has its bits the other way round.
fn seven_bits(negative: bool, low: u8) -> u8
    requires { low < 128 }
    ensures value { result ≡ seven_bits negative low }
    ensures small { result < 128 }
{
    if negative { 127 - low } else { low }
}

/// Writes the groups of `value`, or of `-(value + 1)`.
fn put_signed(negative: bool, value: u64, out: &mut Vec<u8>) -> Result<(), AllocError>
    ensures ok { OnOk result (out.new.items ≡ out.old.items ++ signed_groups negative value value) }
    ensures err { OnErr result (out.new.items ≡ out.old.items) }
{
    let low = seven_bits(negative, (value % 128) as u8);
    if value < 64 {
        out.push(low)?;
        return Ok(());
    }
    out.push(low + 128)?;
    match put_signed(negative, value / 128, out) {
        Ok(()) => Ok(()),
        Err(error) => {
            out.pop();
            Err(error)
        }
    }
}

/// Writes the shortest spelling of an unsigned number at the end. After an error nothing has changed.
pub fn write_u(value: u64, out: &mut Vec<u8>) -> Result<(), AllocError>
    ensures ok { OnOk result (out.new.items ≡ out.old.items ++ shortest_unsigned value) }
    ensures err { OnErr result (out.new.items ≡ out.old.items) }
    // It spells the number in each width that holds it, and no bytes that spell it are fewer.
    ensures spelled { (bits : ℕ) → value < 2 ^ bits → IsUnsigned bits (shortest_unsigned value) value }
    ensures shortest { (bits : ℕ) (other : List ℕ) → All (λ b. b < 256) other → IsUnsigned bits other value → length (shortest_unsigned value) ≤ length other }
{
    put_unsigned(value, out)
}

/// The number of which a negative one has the bits the other way round.
fn complement(value: i64) -> u64
    requires { value <ℤ pos 0 }
    ensures { value ≡ negsuc result }
{
    (-(value + 1)) as u64
}

/// A number that isn't negative.
fn magnitude(value: i64) -> u64
    requires { pos 0 ≤ℤ value }
    ensures { value ≡ pos result }
{
    value as u64
}

/// Writes the shortest spelling of a signed number at the end. After an error nothing has changed.
pub fn write_s(value: i64, out: &mut Vec<u8>) -> Result<(), AllocError>
    ensures ok { OnOk result (out.new.items ≡ out.old.items ++ shortest_signed value) }
    ensures err { OnErr result (out.new.items ≡ out.old.items) }
    // It spells the number in each width that holds it, and no bytes that spell it are fewer.
    ensures spelled { (bits : ℕ) → IsWithin (bits - 1) value → IsSigned bits (shortest_signed value) value }
    ensures shortest { (bits : ℕ) (other : List ℕ) → All (λ b. b < 256) other → IsSigned bits other value → length (shortest_signed value) ≤ length other }
{
    if value < 0 {
        return put_signed(true, complement(value), out);
    }
    put_signed(false, magnitude(value), out)
}
