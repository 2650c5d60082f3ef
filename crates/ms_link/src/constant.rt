//! The values of constant expressions.

ghost use Rattle.std.specs.Prelude.{◌≡◌, slice_get};
ghost use Rattle.ms_num.specs.Integers.{wrapped};
ghost use Rattle.ms_linear.specs.declared.value.Value.TheVariants as values;
ghost use Rattle.ms_machine.specs.Constants as constants;
ghost use Rattle.ms_machine.specs.Linked as linked;

use ms_handle::Handle;
use ms_linear::{GlobalInst, Value};
use ms_module::{Code, Instr, Segment};

/// The value of a constant expression that may name the globals of these addresses.
pub(crate) fn constant(globals: &[GlobalInst], addresses: &[u32], code: &Code) -> Value
    ensures { result ≡ constants.constant_of (linked.values_at globals.now addresses.now) code.now }
{
    prove!(code.len() > 0);
    match code.sequence(0) {
        [] => Value::I32(0),
        [first, ..] => constant_instr(globals, addresses, first),
    }
}

/// The value of a constant instruction.
fn constant_instr(globals: &[GlobalInst], addresses: &[u32], i: &Instr) -> Value
    ensures { result ≡ constants.constant (linked.values_at globals.now addresses.now) i.now }
{
    match i {
        Instr::I32Const(n) => i32_value(*n),
        Instr::I64Const(n) => i64_value(*n),
        Instr::Segment(Segment::Null) => Value::Handle(Handle::Null),
        Instr::GlobalGet(x) => value_named(globals, addresses, *x),
        _ => Value::I32(0),
    }
}

/// An `i32`, without its sign.
fn i32_value(n: i32) -> Value
    ensures { result ≡ values.I32 (wrapped 32 n) }
{
    Value::I32(n.cast_unsigned())
}

/// An `i64`, without its sign.
fn i64_value(n: i64) -> Value
    ensures { result ≡ values.I64 (wrapped 64 n) }
{
    Value::I64(n.cast_unsigned())
}

/// The value of a global, by its index.
fn value_named(globals: &[GlobalInst], addresses: &[u32], x: u32) -> Value
    ensures { result ≡ constants.value_or_zero (slice_get (linked.values_at globals.now addresses.now) x) }
{
    match addresses.get(x as usize) {
        Some(a) => value_at(globals, *a),
        None => Value::I32(0),
    }
}

/// The value of a global, by its address.
fn value_at(globals: &[GlobalInst], a: u32) -> Value
    ensures { result ≡ linked.value_at globals.now a }
{
    match globals.get(a as usize) {
        Some(global) => global.value.value(),
        None => Value::I32(0),
    }
}

/// A value as a place: that of an `i32`.
pub(crate) fn index_of(value: Value) -> u32
    ensures { result ≡ constants.index_of value }
{
    match value {
        Value::I32(n) => n,
        _ => 0,
    }
}
