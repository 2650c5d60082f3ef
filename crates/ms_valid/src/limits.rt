//! Types of functions, tables and memories (WebAssembly 1.0, 3.2).

ghost use Rattle.std.specs.Prelude.{◌≡◌, ◌↔◌, IsTrue};
ghost use Rattle.ms_rules.specs.Modules.{LimitsTyped, MemoryTyped, SigTyped, TableTyped};

use ms_types::{FuncType, Limits};

/// Whether a function type has one result at most.
pub fn is_sig_typed(t: &FuncType) -> bool
    ensures { IsTrue result ↔ SigTyped t.now }
{
    t.results.len() <= 1
}

/// Whether a table may have these sizes.
pub fn is_table_typed(limits: Limits) -> bool
    ensures { IsTrue result ↔ TableTyped limits }
{
    is_within(1 << 32, limits)
}

/// Whether a memory may have these sizes.
pub fn is_memory_typed(limits: Limits) -> bool
    ensures { IsTrue result ↔ MemoryTyped limits }
{
    is_within(1 << 16, limits)
}

fn is_within(range: u64, limits: Limits) -> bool
    ensures { IsTrue result ↔ LimitsTyped range limits }
{
    let min = u64::from(limits.min);
    match limits.max {
        None => min <= range,
        Some(max) => min <= range && u64::from(max) <= range && limits.min <= max,
    }
}
