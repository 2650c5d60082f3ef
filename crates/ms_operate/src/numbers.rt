//! Carrying out numeric instructions.

ghost use Rattle.std.specs.Prelude.{◌≡◌, ◌≢◌, ◌^◌, ◌<◌, IfOk};
ghost use Rattle.ms_num.specs.Integers.{IsWidth, truth};
ghost use Rattle.ms_module.specs.declared.numeric.Numeric.TheVariants.{Eqz, Compare, Unary, Binary, Wrap, ExtendS, ExtendU};
ghost use Rattle.ms_operate.specs.Integers as int;
ghost use Rattle.ms_operate.specs.Numbers as numbers;
ghost use Rattle.ms_operate.specs.Numbers.{numeric_on};
ghost use Rattle.ms_operate.specs.Outcomes.{Does, Gives, Stuck};

use crate::access::{integer, number};
use crate::trap::Trap;
use ms_linear::{Cell, Operands};
use ms_module::{BinOp, Numeric, RelOp, UnOp, Width};
use ms_num::{
    Arith, add, and, clz, ctz, div_s, div_u, eq, extend, ge_s, ge_u, gt_s, gt_u, le_s, le_u, lt_s,
    lt_u, mul, narrow, ne, or, popcnt, rem_s, rem_u, rotl, rotr, shl, shr_s, shr_u, sub, xor,
};

/// Carries out a numeric instruction on the operands. Where it stops the program the operands are as before.
///
/// The widths are told apart here, so that each is a constant in what is done with it.
#[inline(always)]
pub fn numeric(i: Numeric, operands: &mut Operands) -> Result<(), Trap>
    requires { numeric_on i operands.old ≢ Stuck }
    ensures { Does (numeric_on i operands.old) operands.old operands.new result }
{
    match i {
        Numeric::Binary(Width::W32, op) => return on_two(Width::W32, op, operands),
        Numeric::Binary(Width::W64, op) => return on_two(Width::W64, op, operands),
        Numeric::Compare(Width::W32, op) => compare_two(Width::W32, op, operands),
        Numeric::Compare(Width::W64, op) => compare_two(Width::W64, op, operands),
        Numeric::Unary(Width::W32, op) => on_one(Width::W32, op, operands),
        Numeric::Unary(Width::W64, op) => on_one(Width::W64, op, operands),
        Numeric::Eqz(Width::W32) => test(Width::W32, operands),
        Numeric::Eqz(Width::W64) => test(Width::W64, operands),
        Numeric::Wrap => wrap(operands),
        Numeric::ExtendS => extend_signed(operands),
        Numeric::ExtendU => extend_unsigned(operands),
    }
    Ok(())
}

/// An operation on a number of so many bits.
#[inline(always)]
#[tactic(auto, using(crate::proofs::Zeros::leading_is, crate::proofs::Zeros::trailing_is))]
fn unary(op: UnOp, w: u32, a: u64) -> u64
    requires width { IsWidth w }
    requires a { a < 2 ^ w }
    ensures value { result ≡ int.unary op w a }
    ensures small { result < 2 ^ w }
{
    match op {
        UnOp::Clz => clz(w, a),
        UnOp::Ctz => ctz(w, a),
        UnOp::Popcnt => popcnt(w, a),
    }
}

/// An operation on two numbers of so many bits.
#[inline(always)]
fn binary(op: BinOp, w: u32, a: u64, b: u64) -> Result<u64, Arith>
    requires width { IsWidth w }
    requires a { a < 2 ^ w }
    requires b { b < 2 ^ w }
    ensures value { result ≡ int.binary op w a b }
    ensures small { IfOk result (λ n. n < 2 ^ w) }
{
    match op {
        BinOp::Add => Ok(add(w, a, b)),
        BinOp::Sub => Ok(sub(w, a, b)),
        BinOp::Mul => Ok(mul(w, a, b)),
        BinOp::DivS => div_s(w, a, b),
        BinOp::DivU => div_u(w, a, b),
        BinOp::RemS => rem_s(w, a, b),
        BinOp::RemU => rem_u(w, a, b),
        BinOp::And => Ok(and(w, a, b)),
        BinOp::Or => Ok(or(w, a, b)),
        BinOp::Xor => Ok(xor(w, a, b)),
        BinOp::Shl => Ok(shl(w, a, b)),
        BinOp::ShrS => Ok(shr_s(w, a, b)),
        BinOp::ShrU => Ok(shr_u(w, a, b)),
        BinOp::Rotl => Ok(rotl(w, a, b)),
        BinOp::Rotr => Ok(rotr(w, a, b)),
    }
}

/// A comparison of two numbers of so many bits: 1 or 0.
#[inline(always)]
fn compare(op: RelOp, w: u32, a: u64, b: u64) -> u64
    requires width { IsWidth w }
    requires a { a < 2 ^ w }
    requires b { b < 2 ^ w }
    ensures value { result ≡ truth (int.compare op w a b) }
    ensures bit { result < 2 }
{
    match op {
        RelOp::Eq => eq(w, a, b),
        RelOp::Ne => ne(w, a, b),
        RelOp::LtS => lt_s(w, a, b),
        RelOp::LtU => lt_u(w, a, b),
        RelOp::GtS => gt_s(w, a, b),
        RelOp::GtU => gt_u(w, a, b),
        RelOp::LeS => le_s(w, a, b),
        RelOp::LeU => le_u(w, a, b),
        RelOp::GeS => ge_s(w, a, b),
        RelOp::GeU => ge_u(w, a, b),
    }
}

/// Why a division stops the program.
fn trap_of(error: Arith) -> Trap
    ensures { result ≡ numbers.trap_of error }
{
    match error {
        Arith::ZeroDivide => Trap::Zero,
        Arith::Overflow => Trap::Overflow,
    }
}

/// `eqz` on the operands.
#[inline(always)]
fn test(w: Width, operands: &mut Operands)
    requires { numeric_on (Eqz w) operands.old ≢ Stuck }
    ensures { numeric_on (Eqz w) operands.old ≡ Gives operands.new }
{
    let a = number(w, operands.cell(0));
    operands.set_top_cell(Cell::of_i32(u32::from(a == 0)));
}

/// An operation on the topmost operand.
#[inline(always)]
fn on_one(w: Width, op: UnOp, operands: &mut Operands)
    requires { numeric_on (Unary w op) operands.old ≢ Stuck }
    ensures { numeric_on (Unary w op) operands.old ≡ Gives operands.new }
{
    let a = number(w, operands.cell(0));
    operands.set_top_cell(integer(w, unary(op, w.bits(), a)));
}

/// An operation on the two topmost operands.
#[inline(always)]
fn on_two(w: Width, op: BinOp, operands: &mut Operands) -> Result<(), Trap>
    requires { numeric_on (Binary w op) operands.old ≢ Stuck }
    ensures { Does (numeric_on (Binary w op) operands.old) operands.old operands.new result }
{
    let b = number(w, operands.cell(0));
    let a = number(w, operands.cell(1));
    match binary(op, w.bits(), a, b) {
        Ok(n) => {
            operands.pop();
            operands.set_top_cell(integer(w, n));
            Ok(())
        }
        Err(error) => Err(trap_of(error)),
    }
}

/// A comparison of the two topmost operands.
#[inline(always)]
fn compare_two(w: Width, op: RelOp, operands: &mut Operands)
    requires { numeric_on (Compare w op) operands.old ≢ Stuck }
    ensures { numeric_on (Compare w op) operands.old ≡ Gives operands.new }
{
    let b = number(w, operands.cell(0));
    let a = number(w, operands.cell(1));
    let answer = compare(op, w.bits(), a, b);
    operands.pop();
    operands.set_top_cell(Cell::of_i32(answer as u32));
}

/// `i32.wrap_i64` on the operands.
#[inline(always)]
fn wrap(operands: &mut Operands)
    requires { numeric_on Wrap operands.old ≢ Stuck }
    ensures { numeric_on Wrap operands.old ≡ Gives operands.new }
{
    let a = number(Width::W64, operands.cell(0));
    operands.set_top_cell(Cell::of_i32(narrow(32, a) as u32));
}

/// `i64.extend_i32_s` on the operands.
#[inline(always)]
fn extend_signed(operands: &mut Operands)
    requires { numeric_on ExtendS operands.old ≢ Stuck }
    ensures { numeric_on ExtendS operands.old ≡ Gives operands.new }
{
    let a = number(Width::W32, operands.cell(0));
    operands.set_top_cell(Cell::of_i64(extend(32, 64, true, a)));
}

/// `i64.extend_i32_u` on the operands.
#[inline(always)]
fn extend_unsigned(operands: &mut Operands)
    requires { numeric_on ExtendU operands.old ≢ Stuck }
    ensures { numeric_on ExtendU operands.old ≡ Gives operands.new }
{
    let a = number(Width::W32, operands.cell(0));
    operands.set_top_cell(Cell::of_i64(a));
}
