//! Reading LEB128 numbers at a cursor (WebAssembly 1.0, 5.2.2).

ghost use Rattle.std.specs.Prelude.{◌≡◌, ◌≤◌, ◌<◌, ◌^◌, ◌-◌, ◌↔◌, ℕ, ℤ, List, Ok, Err, IfOk, OnErr};
ghost use Rattle.ms_leb.specs.Leb128.{IsWithin, SignedAt, UnsignedAt, signed_at, unsigned_at};
ghost use Rattle.ms_leb.specs.refinement.Numbers.{IsShort, ReadsNumber};

use crate::leb::Leb;
use crate::numbers::{signed, unsigned};
use ms_bytes::Cursor;

fn unsigned_of(c: &mut Cursor, bits: u32) -> Result<u64, Leb>
    requires { bits ≤ 64 }
    ensures value { ReadsNumber c.old c.new result (unsigned_at bits c.old.left) }
    ensures small { IfOk result (λ x. x < 2 ^ bits) }
{
    let (value, count) = unsigned(c.rest(), bits)?;
    c.skip(count);
    Ok(value)
}

fn signed_of(c: &mut Cursor, bits: u32) -> Result<i64, Leb>
    requires some { 0 < bits }
    requires most { bits ≤ 64 }
    ensures value { ReadsNumber c.old c.new result (signed_at bits c.old.left) }
    ensures small { IfOk result (IsWithin (bits - 1)) }
{
    let (value, count) = signed(c.rest(), bits)?;
    c.skip(count);
    Ok(value)
}

/// Reads an unsigned number of so many bits, 32 or 64. After an error the cursor stays.
pub fn read_u(c: &mut Cursor, bits: u32) -> Result<u64, Leb>
    requires some { 0 < bits }
    requires most { bits ≤ 64 }
    // What is read is spelled so, and the cursor goes past it.
    ensures found { IfOk result (λ n. UnsignedAt bits c.old.left n c.new.left) }
    ensures end { c.new.end ≡ c.old.end }
    // What is spelled so is read.
    ensures only { (n : ℕ) (rest : List ℕ) → UnsignedAt bits c.old.left n rest → (result ≡ Ok n) × (c.new.left ≡ rest) }
    // `Short` exactly where the bytes end inside the number; `Long` at anything else that is no number.
    ensures short { (result ≡ Err Leb.Short) ↔ IsShort bits c.old.left }
    ensures err { OnErr result (c.new ≡ c.old) }
    ensures small { IfOk result (λ x. x < 2 ^ bits) }
    ensures value { ReadsNumber c.old c.new result (unsigned_at bits c.old.left) }
{
    unsigned_of(c, bits)
}

/// Reads a signed number of so many bits, 32 or 64. After an error the cursor stays.
pub fn read_s(c: &mut Cursor, bits: u32) -> Result<i64, Leb>
    requires some { 0 < bits }
    requires most { bits ≤ 64 }
    // What is read is spelled so, and the cursor goes past it.
    ensures found { IfOk result (λ n. SignedAt bits c.old.left n c.new.left) }
    ensures end { c.new.end ≡ c.old.end }
    // What is spelled so is read.
    ensures only { (n : ℤ) (rest : List ℕ) → SignedAt bits c.old.left n rest → (result ≡ Ok n) × (c.new.left ≡ rest) }
    // `Short` exactly where the bytes end inside the number; `Long` at anything else that is no number.
    ensures short { (result ≡ Err Leb.Short) ↔ IsShort bits c.old.left }
    ensures err { OnErr result (c.new ≡ c.old) }
    ensures small { IfOk result (IsWithin (bits - 1)) }
    ensures value { ReadsNumber c.old c.new result (signed_at bits c.old.left) }
{
    signed_of(c, bits)
}
