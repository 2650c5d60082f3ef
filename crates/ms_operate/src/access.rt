//! Numbers as values of a width.

ghost use Rattle.std.specs.Prelude.{◌≡◌, ◌≢◌, ◌^◌, ◌<◌, None, Some};
ghost use Rattle.ms_module.specs.Accesses.{bits, load_bytes};
ghost use Rattle.ms_operate.specs.Accesses as access;
ghost use Rattle.ms_operate.specs.Accesses.{number_of};

use ms_linear::Cell;
use ms_module::{LoadOp, StoreOp, Width};
use ms_num::extend;

/// The number that a value of this width is.
#[inline(always)]
pub(crate) fn number(w: Width, value: Cell) -> u64
    requires { number_of w value ≢ None }
    ensures value { number_of w value ≡ Some result }
    ensures small { result < 2 ^ bits w }
{
    match w {
        Width::W32 => u64::from(value.i32()),
        Width::W64 => value.i64(),
    }
}

/// A number as a value of this width.
#[inline(always)]
pub(crate) fn integer(w: Width, n: u64) -> Cell
    requires { n < 2 ^ bits w }
    ensures { result ≡ access.integer w n }
{
    match w {
        Width::W32 => Cell::of_i32(n as u32),
        Width::W64 => Cell::of_i64(n),
    }
}

/// The value of the number that a load has read.
#[inline(always)]
pub fn value_of(op: LoadOp, number: u64) -> Cell
    requires { number < 256 ^ load_bytes op }
    ensures { result ≡ access.value_of op number }
{
    match op {
        LoadOp::I32Load | LoadOp::I32Load8U | LoadOp::I32Load16U => Cell::of_i32(number as u32),
        LoadOp::I32Load8S => Cell::of_i32(extend(8, 32, true, number) as u32),
        LoadOp::I32Load16S => Cell::of_i32(extend(16, 32, true, number) as u32),
        LoadOp::I64Load | LoadOp::I64Load8U | LoadOp::I64Load16U | LoadOp::I64Load32U => {
            Cell::of_i64(number)
        }
        LoadOp::I64Load8S => Cell::of_i64(extend(8, 64, true, number)),
        LoadOp::I64Load16S => Cell::of_i64(extend(16, 64, true, number)),
        LoadOp::I64Load32S => Cell::of_i64(extend(32, 64, true, number)),
    }
}

/// The number that a store writes, of a value of its type.
#[inline(always)]
pub fn number_for(op: StoreOp, value: Cell) -> u64
    requires { number_of (access.width_of op) value ≢ None }
    ensures { number_of (access.width_of op) value ≡ Some result }
{
    number(width_of(op), value)
}

/// The width of the value that a store takes.
#[inline(always)]
fn width_of(op: StoreOp) -> Width
    ensures { result ≡ access.width_of op }
{
    match op {
        StoreOp::I32Store | StoreOp::I32Store8 | StoreOp::I32Store16 => Width::W32,
        StoreOp::I64Store | StoreOp::I64Store8 | StoreOp::I64Store16 | StoreOp::I64Store32 => {
            Width::W64
        }
    }
}
