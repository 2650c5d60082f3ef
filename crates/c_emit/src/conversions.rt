//! Converting the number on the stack (C11, 6.3.1.3), and testing the scalar there (6.3.1.2).

ghost use Rattle.std.specs.Prelude.{◌≡◌, ◌<◌, if◌then◌else◌, OnOk};
ghost use Rattle.ms_emit.specs.Codes.{one};
ghost use Rattle.ms_module.specs.declared.instr.Instr.TheVariants as instrs;
ghost use Rattle.ms_module.specs.declared.numeric.Numeric.TheVariants as numerics;
ghost use Rattle.c_code.specs.Operations as words;
ghost use Rattle.ms_emit.specs.refinement.Parts.{Adds};

use crate::adding::{add, add_four, add_two};
use crate::body::Body;
use crate::operations::{eqz, i32_of, op, rel, width_of, zero_of_width};
use c_types::{IntType, Scalar};
use ms_module::{BinOp, Instr, Numeric, RelOp, Segment, Width};
use std::alloc::AllocError;

/// From the first type to the second.
#[tactic(auto, using(crate::proofs::Steps::then, crate::proofs::Steps::nothing_added))]
pub fn convert(body: &mut Body, u: IntType, v: IntType) -> Result<(), AllocError>
    ensures { OnOk result (Adds body.old body.new (words.convert u v)) }
{
    match (width_of(u), width_of(v)) {
        (Width::W32, Width::W32) => to_type(body, v),
        (Width::W32, Width::W64) => extend(body, u.is_signed()),
        (Width::W64, Width::W32) => {
            add(body, Instr::Numeric(Numeric::Wrap))?;
            to_type(body, v)
        }
        (Width::W64, Width::W64) => Ok(()),
    }
}

/// An i32 as an i64.
fn extend(body: &mut Body, is_signed: bool) -> Result<(), AllocError>
    ensures { OnOk result (Adds body.old body.new (one (instrs.Numeric (if is_signed then numerics.ExtendS else numerics.ExtendU)))) }
{
    if is_signed {
        add(body, Instr::Numeric(Numeric::ExtendS))
    } else {
        add(body, Instr::Numeric(Numeric::ExtendU))
    }
}

/// Narrows an i32 to a type.
fn to_type(body: &mut Body, t: IntType) -> Result<(), AllocError>
    ensures { OnOk result (Adds body.old body.new (words.to_type t)) }
{
    let bits = u32::from(t.bits());
    if bits < 32 {
        narrow(body, bits, t.is_signed())
    } else {
        Ok(())
    }
}

/// The lowest bits of an i32, read as a number of a narrower type.
fn narrow(body: &mut Body, bits: u32, is_signed: bool) -> Result<(), AllocError>
    requires { bits < 32 }
    ensures { OnOk result (Adds body.old body.new (words.narrow bits is_signed)) }
{
    if is_signed {
        add_four(
            body,
            i32_of(32 - bits),
            op(Width::W32, BinOp::Shl),
            i32_of(32 - bits),
            op(Width::W32, BinOp::ShrS),
        )
    } else {
        add_two(body, i32_of((1u32 << bits) - 1), op(Width::W32, BinOp::And))
    }
}

/// 1 where the scalar on the stack is neither zero nor null.
#[tactic(auto, using(crate::proofs::Plain::constant_plain))]
pub fn truth(body: &mut Body, s: Scalar) -> Result<(), AllocError>
    ensures { OnOk result (Adds body.old body.new (words.truth s)) }
{
    match s {
        Scalar::Int(t) => add_two(
            body,
            zero_of_width(width_of(t)),
            rel(width_of(t), RelOp::Ne),
        ),
        Scalar::Pointer => add_two(body, Instr::Segment(Segment::IsNull), eqz()),
        Scalar::Function => add_two(body, i32_of(0), rel(Width::W32, RelOp::Ne)),
    }
}
