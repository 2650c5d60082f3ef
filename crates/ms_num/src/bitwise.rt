//! The operations on each bit.

ghost use Rattle.std.specs.Prelude.{◌≡◌, ◌^◌, ◌<◌, bit_and, bit_or, bit_xor};
ghost use Rattle.ms_num.specs.Integers.{IsWidth};

/// The bits that are one in both.
pub fn and(w: u32, a: u64, b: u64) -> u64
    requires width { IsWidth w }
    requires a { a < 2 ^ w }
    requires b { b < 2 ^ w }
    ensures value { result ≡ bit_and a b }
    ensures small { result < 2 ^ w }
{
    a & b
}

/// The bits that are one in either.
#[tactic(auto, using(std::proofs::lemmas::Nat::or_lt))]
pub fn or(w: u32, a: u64, b: u64) -> u64
    requires width { IsWidth w }
    requires a { a < 2 ^ w }
    requires b { b < 2 ^ w }
    ensures value { result ≡ bit_or a b }
    ensures small { result < 2 ^ w }
{
    a | b
}

/// The bits that are one in exactly one of them.
#[tactic(auto, using(std::proofs::lemmas::Nat::xor_lt))]
pub fn xor(w: u32, a: u64, b: u64) -> u64
    requires width { IsWidth w }
    requires a { a < 2 ^ w }
    requires b { b < 2 ^ w }
    ensures value { result ≡ bit_xor a b }
    ensures small { result < 2 ^ w }
{
    a ^ b
}
