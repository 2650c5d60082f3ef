//! Counting calls and faults.

ghost use Rattle.std.specs.Prelude.{◌≡◌};
ghost use Rattle.ms_outside.specs.Faults.{CountsCall, CountsFault};
ghost use Rattle.ms_outside.specs.refinement.Script.{one_more};

/// A count after one more call. At its last value it stays.
pub fn one_more_call(count: u64) -> u64
    ensures exact { result ≡ one_more count }
    ensures counts { CountsCall count result }
{
    count.saturating_add(1)
}

/// A count after one more fault. At its last value it stays.
pub fn one_more_fault(count: u64) -> u64
    ensures exact { result ≡ one_more count }
    ensures counts { CountsFault count result }
{
    count.saturating_add(1)
}
