//! The types of the instructions that have one type each.

ghost use Rattle.std.specs.Prelude.{◌≡◌};
ghost use Rattle.ms_rules.specs.Instructions as spec;

use ms_module::{Linear, LoadOp, Numeric, Segment, StoreOp, Width};
use ms_types::ValType;
use ms_types::ValType::{Handle, I32, I64};

/// The type of the integers of a width.
pub fn integer(width: Width) -> ValType
    ensures { result ≡ spec.integer width }
{
    match width {
        Width::W32 => I32,
        Width::W64 => I64,
    }
}

/// The types of the operands of a numeric instruction, the last one topmost.
pub fn numeric_params(i: Numeric) -> &'static [ValType]
    ensures { result.now ≡ (spec.numeric_type i).params }
{
    match i {
        Numeric::Eqz(Width::W32) => &[I32],
        Numeric::Eqz(Width::W64) => &[I64],
        Numeric::Compare(Width::W32, _) => &[I32, I32],
        Numeric::Compare(Width::W64, _) => &[I64, I64],
        Numeric::Unary(Width::W32, _) => &[I32],
        Numeric::Unary(Width::W64, _) => &[I64],
        Numeric::Binary(Width::W32, _) => &[I32, I32],
        Numeric::Binary(Width::W64, _) => &[I64, I64],
        Numeric::Wrap => &[I64],
        Numeric::ExtendS | Numeric::ExtendU => &[I32],
    }
}

/// The type of the result of a numeric instruction.
pub fn numeric_result(i: Numeric) -> Option<ValType>
    ensures { result ≡ (spec.numeric_type i).result }
{
    match i {
        Numeric::Eqz(_) | Numeric::Compare(_, _) | Numeric::Wrap => Some(I32),
        Numeric::Unary(width, _) | Numeric::Binary(width, _) => Some(integer(width)),
        Numeric::ExtendS | Numeric::ExtendU => Some(I64),
    }
}

/// The type of the value that a load gives.
pub fn loaded(op: LoadOp) -> ValType
    ensures { result ≡ spec.loaded op }
{
    match op {
        LoadOp::I32Load
        | LoadOp::I32Load8S
        | LoadOp::I32Load8U
        | LoadOp::I32Load16S
        | LoadOp::I32Load16U => I32,
        _ => I64,
    }
}

/// The type of the value that a store takes.
pub fn stored(op: StoreOp) -> ValType
    ensures { result ≡ spec.stored op }
{
    match op {
        StoreOp::I32Store | StoreOp::I32Store8 | StoreOp::I32Store16 => I32,
        _ => I64,
    }
}

/// The types of the operands of an instruction on the linear memory, the last one topmost.
pub fn linear_params(i: Linear) -> &'static [ValType]
    ensures { result.now ≡ (spec.linear_type i).params }
{
    match i {
        Linear::Load(_, _) | Linear::Grow => &[I32],
        Linear::Store(op, _) => match stored(op) {
            I32 => &[I32, I32],
            I64 => &[I32, I64],
            Handle => &[I32, Handle],
        },
        Linear::Size => &[],
    }
}

/// The type of the result of an instruction on the linear memory, if it has one.
pub fn linear_result(i: Linear) -> Option<ValType>
    ensures { result ≡ (spec.linear_type i).result }
{
    match i {
        Linear::Load(op, _) => Some(loaded(op)),
        Linear::Store(_, _) => None,
        Linear::Size | Linear::Grow => Some(I32),
    }
}

/// The types of the operands of an instruction on handles and segments, the last one topmost.
pub fn segment_params(i: Segment) -> &'static [ValType]
    ensures { result.now ≡ (spec.segment_type i).params }
{
    match i {
        Segment::Null => &[],
        Segment::New(_) => &[I32],
        Segment::Free(_)
        | Segment::IsNull
        | Segment::LoadHandle
        | Segment::Load(_)
        | Segment::Seal => &[Handle],
        Segment::Add(_) => &[Handle, I64],
        Segment::Slice => &[Handle, I32, I32],
        Segment::Eq | Segment::Diff | Segment::StoreHandle => &[Handle, Handle],
        Segment::Store(op) => match stored(op) {
            I32 => &[Handle, I32],
            I64 => &[Handle, I64],
            Handle => &[Handle, Handle],
        },
    }
}

/// The type of the result of an instruction on handles and segments, if it has one.
pub fn segment_result(i: Segment) -> Option<ValType>
    ensures { result ≡ (spec.segment_type i).result }
{
    match i {
        Segment::Null
        | Segment::New(_)
        | Segment::Add(_)
        | Segment::Slice
        | Segment::LoadHandle
        | Segment::Seal => Some(Handle),
        Segment::Free(_) | Segment::StoreHandle | Segment::Store(_) => None,
        Segment::Eq | Segment::IsNull => Some(I32),
        Segment::Diff => Some(I64),
        Segment::Load(op) => Some(loaded(op)),
    }
}
