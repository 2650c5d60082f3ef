//! Counting bits.

ghost use Rattle.std.specs.Prelude.{◌≡◌, ◌^◌, ◌<◌, ◌≤◌};
ghost use Rattle.ms_num.specs.Integers.{IsWidth, IsClz, IsCtz, ones};

/// How many zeros stand above the highest one; all of them, for 0.
pub fn clz(w: u32, a: u64) -> u64
    requires width { IsWidth w }
    requires a { a < 2 ^ w }
    ensures value { IsClz w a result }
    ensures small { result < 2 ^ w }
{
    match w {
        32 => u64::from((a as u32).leading_zeros()),
        _ => u64::from(a.leading_zeros()),
    }
}

/// How many zeros stand below the lowest one; all of them, for 0.
pub fn ctz(w: u32, a: u64) -> u64
    requires width { IsWidth w }
    requires a { a < 2 ^ w }
    ensures value { IsCtz w a result }
    ensures small { result < 2 ^ w }
{
    match w {
        32 => u64::from((a as u32).trailing_zeros()),
        _ => u64::from(a.trailing_zeros()),
    }
}

/// How many bits are one.
#[tactic(auto, using(crate::proofs::Zeros::ones_is, crate::proofs::Zeros::ones_most, crate::proofs::Zeros::below_power))]
pub fn popcnt(w: u32, a: u64) -> u64
    requires width { IsWidth w }
    requires a { a < 2 ^ w }
    ensures value { result ≡ ones w a }
    ensures small { result < 2 ^ w }
{
    u64::from(a.count_ones())
}
