//! Integer constant expressions: the numbers that operators give.

ghost use Rattle.std.specs.Prelude.{◌≡◌, ◌^◌, ◌<◌, ◌%◌, ◌==◌, ◌⊎◌, ◌-◌, Some, IfOk, IfSome, int_lt};
ghost use Rattle.ms_num.specs.Integers as int;
ghost use Rattle.ms_num.specs.Integers.{IsWidth};
ghost use Rattle.c_types.specs.Integers as types;
ghost use Rattle.c_types.specs.Integers.{bits};
ghost use Rattle.c_check_types.specs.Constants as words;
ghost use Rattle.c_check_types.specs.refinement.Ranges.{InRange, IsInRange, IsBits};

use crate::operators::Operator;
use c_token::IntegerType;
use c_tree::UnaryOp;
use c_typed::{BinaryOp, RelOp};
use c_types::IntType;
use ms_num::{Arith, add, and, div_s, div_u, mul, or, rem_s, rem_u, shl, shr_s, shr_u, sub, xor};

/// A constant expression's type and its bits; `None`: its evaluation traps (C11, 6.6).
#[derive(Clone, Copy, PartialEq, Eq)]
pub struct Constant {
    pub ty: IntType,
    pub value: Option<u64>,
}

/// The type of an integer constant (C11, 6.4.4.1).
pub fn constant_type(t: IntegerType) -> IntType
    ensures { result ≡ words.constant_type t }
{
    match t {
        IntegerType::Int => IntType::Int,
        IntegerType::UnsignedInt => IntType::UnsignedInt,
        IntegerType::Long => IntType::Long,
        IntegerType::UnsignedLong => IntType::UnsignedLong,
        IntegerType::LongLong => IntType::LongLong,
        IntegerType::UnsignedLongLong => IntType::UnsignedLongLong,
    }
}

/// A number of a type.
pub fn a_number(ty: IntType, value: u64) -> Constant
    requires { value < 2 ^ bits ty }
    ensures is { result ≡ words.a_number ty value }
    ensures in_range { IsInRange result }
{
    Constant {
        ty,
        value: Some(value),
    }
}

/// The bits of a type.
fn width(t: IntType) -> u8
    ensures is { result ≡ bits t }
    ensures one { IsBits result }
{
    match t {
        IntType::Char => 8,
        IntType::SignedChar => 8,
        IntType::UnsignedChar => 8,
        IntType::Short => 16,
        IntType::UnsignedShort => 16,
        IntType::Int => 32,
        IntType::UnsignedInt => 32,
        IntType::Long => 32,
        IntType::UnsignedLong => 32,
        IntType::LongLong => 64,
        IntType::UnsignedLongLong => 64,
    }
}

/// The lowest `w` bits.
fn low(w: u8, n: u64) -> u64
    requires { IsBits w }
    ensures is { result ≡ n % 2 ^ w }
    ensures small { result < 2 ^ w }
{
    match w {
        8 => n % 0x100,
        16 => n % 0x1_0000,
        32 => n % 0x1_0000_0000,
        _ => n,
    }
}

/// The signed number that `w` bits are.
fn signed_of(w: u8, a: u64) -> i64
    requires width { IsBits w }
    requires a { a < 2 ^ w }
    ensures { result ≡ int.signed w a }
{
    match w {
        8 => (a as u8).cast_signed() as i64,
        16 => (a as u16).cast_signed() as i64,
        32 => (a as u32).cast_signed() as i64,
        _ => a.cast_signed(),
    }
}

/// The lowest `w` bits of a signed number.
fn bits_of(w: u8, number: i64) -> u64
    requires { IsBits w }
    ensures value { result ≡ int.wrapped w number }
    ensures small { result < 2 ^ w }
{
    let bits = number.cast_unsigned();
    match w {
        8 => bits % 0x100,
        16 => bits % 0x1_0000,
        32 => bits % 0x1_0000_0000,
        _ => bits,
    }
}

/// The bits of a constant of a type (C11, 6.4.4.1).
pub fn constant_bits(t: IntType, n: u64) -> u64
    ensures is { result ≡ words.constant_bits t n }
    ensures small { result < 2 ^ bits t }
{
    low(width(t), n)
}

/// The bits of a character (C11, 6.4.4.4).
pub fn character_bits(byte: u8) -> u64
    ensures is { result ≡ words.character_bits byte }
    ensures small { result < 2 ^ 32 }
{
    bits_of(32, signed_of(8, u64::from(byte)))
}

/// The bits at another type (C11, 6.3.1.3).
pub fn converted(from: IntType, to: IntType, a: u64) -> u64
    requires { a < 2 ^ bits from }
    ensures is { result ≡ words.converted from to a }
    ensures small { result < 2 ^ bits to }
{
    if from.is_signed() {
        bits_of(width(to), signed_of(width(from), a))
    } else {
        low(width(to), a)
    }
}

/// The bits of a constant at another type.
pub fn value_at(t: IntType, c: Constant) -> Option<u64>
    requires { IsInRange c }
    ensures is { result ≡ words.value_at t c }
    ensures in_range { InRange (bits t) result }
{
    match c.value {
        Some(a) => Some(converted(c.ty, t, a)),
        None => None,
    }
}

/// Whether int holds a number.
fn is_int(z: i64) -> bool
    ensures { result ≡ words.is_int z }
{
    -0x8000_0000 <= z && z <= 0x7FFF_FFFF
}

/// Whether int holds the number that bits of a type mean.
fn means_int(t: IntType, a: u64) -> bool
    requires { a < 2 ^ bits t }
    ensures { result ≡ words.is_int (words.meant t a) }
{
    if t.is_signed() {
        is_int(signed_of(width(t), a))
    } else {
        a <= 0x7FFF_FFFF
    }
}

/// An enumerator's number, by its bits, where int holds it (C11, 6.7.2.2, paragraph 2).
pub fn int_of(c: Constant) -> Option<u32>
    requires { IsInRange c }
    ensures { result ≡ words.int_of c }
{
    let a = c.value?;
    if !means_int(c.ty, a) {
        return None;
    }
    Some(converted(c.ty, IntType::Int, a) as u32)
}

/// What a division gives, or nothing where it traps.
fn or_trap(w: u32, outcome: Result<u64, Arith>) -> Option<u64>
    requires { IfOk outcome (λ n. n < 2 ^ w) }
    ensures is { result ≡ words.or_trap outcome }
    ensures in_range { InRange w result }
{
    match outcome {
        Ok(n) => Some(n),
        Err(_) => None,
    }
}

/// An operation on two operands of one type (C11, 6.5.5 to 6.5.12).
fn computed(op: BinaryOp, t: IntType, a: u64, b: u64) -> Option<u64>
    requires wide { IsWidth (bits t) }
    requires a { a < 2 ^ bits t }
    requires b { b < 2 ^ bits t }
    ensures is { result ≡ words.computed op t a b }
    ensures in_range { InRange (bits t) result }
{
    let w = u32::from(t.bits());
    match op {
        BinaryOp::Add => Some(add(w, a, b)),
        BinaryOp::Sub => Some(sub(w, a, b)),
        BinaryOp::Mul => Some(mul(w, a, b)),
        BinaryOp::Div => divided(t, a, b),
        BinaryOp::Rem => remainder(t, a, b),
        BinaryOp::And => Some(and(w, a, b)),
        BinaryOp::Or => Some(or(w, a, b)),
        BinaryOp::Xor => Some(xor(w, a, b)),
        BinaryOp::ShiftLeft => Some(shl(w, a, b)),
        BinaryOp::ShiftRight => Some(shifted_right(t, a, b)),
    }
}

fn divided(t: IntType, a: u64, b: u64) -> Option<u64>
    requires wide { IsWidth (bits t) }
    requires a { a < 2 ^ bits t }
    requires b { b < 2 ^ bits t }
    ensures is { result ≡ words.computed BinaryOp.Div t a b }
    ensures in_range { InRange (bits t) result }
{
    let w = u32::from(t.bits());
    if t.is_signed() {
        or_trap(w, div_s(w, a, b))
    } else {
        or_trap(w, div_u(w, a, b))
    }
}

fn remainder(t: IntType, a: u64, b: u64) -> Option<u64>
    requires wide { IsWidth (bits t) }
    requires a { a < 2 ^ bits t }
    requires b { b < 2 ^ bits t }
    ensures is { result ≡ words.computed BinaryOp.Rem t a b }
    ensures in_range { InRange (bits t) result }
{
    let w = u32::from(t.bits());
    if t.is_signed() {
        or_trap(w, rem_s(w, a, b))
    } else {
        or_trap(w, rem_u(w, a, b))
    }
}

fn shifted_right(t: IntType, a: u64, b: u64) -> u64
    requires wide { IsWidth (bits t) }
    requires a { a < 2 ^ bits t }
    requires b { b < 2 ^ bits t }
    ensures is { Some result ≡ words.computed BinaryOp.ShiftRight t a b }
    ensures small { result < 2 ^ bits t }
{
    let w = u32::from(t.bits());
    if t.is_signed() {
        shr_s(w, a, b)
    } else {
        shr_u(w, a, b)
    }
}

/// Whether a comparison of two operands of one type holds (C11, 6.5.8 and 6.5.9).
fn related(op: RelOp, t: IntType, a: u64, b: u64) -> bool
    requires a { a < 2 ^ bits t }
    requires b { b < 2 ^ bits t }
    ensures { result ≡ words.related op t a b }
{
    match op {
        RelOp::Equal => a == b,
        RelOp::NotEqual => a != b,
        RelOp::Less => less(t, a, b),
        RelOp::LessEqual => !less(t, b, a),
        RelOp::Greater => less(t, b, a),
        RelOp::GreaterEqual => !less(t, a, b),
    }
}

/// Whether the first number is less.
fn less(t: IntType, a: u64, b: u64) -> bool
    requires a { a < 2 ^ bits t }
    requires b { b < 2 ^ bits t }
    ensures { result ≡ int_lt (words.meant t a) (words.meant t b) }
{
    if t.is_signed() {
        let w = width(t);
        signed_of(w, a) < signed_of(w, b)
    } else {
        a < b
    }
}

/// 1 or 0.
fn truth(holds: bool) -> u64
    ensures is { result ≡ int.truth holds }
    ensures bit { result < 2 }
{
    if holds { 1 } else { 0 }
}

/// A constant of type int that is 1 or 0.
fn an_answer(value: Option<bool>) -> Constant
    ensures is { result ≡ words.an_answer value }
    ensures in_range { IsInRange result }
{
    match value {
        Some(holds) => a_number(IntType::Int, truth(holds)),
        None => Constant {
            ty: IntType::Int,
            value: None,
        },
    }
}

/// The common type of two operands (C11, 6.3.1.8).
fn common(t: IntType, u: IntType) -> IntType
    ensures is { result ≡ types.common t u }
    ensures wide { IsWidth (bits result) }
{
    t.common(u)
}

/// The promoted type of an operand (C11, 6.3.1.1).
#[tactic(auto, using(crate::proofs::Wide::promoted_wide))]
fn promoted(t: IntType) -> IntType
    ensures is { result ≡ types.promoted t }
    ensures wide { IsWidth (bits result) }
{
    t.promoted()
}

/// An operation at a type.
fn at_type(op: BinaryOp, t: IntType, x: Constant, y: Constant) -> Constant
    requires wide { IsWidth (bits t) }
    requires x { IsInRange x }
    requires y { IsInRange y }
    ensures is { result ≡ words.at_type op t x y }
    ensures in_range { IsInRange result }
{
    let value = match (value_at(t, x), value_at(t, y)) {
        (Some(a), Some(b)) => computed(op, t, a, b),
        (None, _) => None,
        (Some(_), None) => None,
    };
    Constant { ty: t, value }
}

/// A comparison at the common type.
fn relation(op: RelOp, x: Constant, y: Constant) -> Constant
    requires x { IsInRange x }
    requires y { IsInRange y }
    ensures is { result ≡ words.relation op x y }
    ensures in_range { IsInRange result }
{
    let t = common(x.ty, y.ty);
    an_answer(relation_at(op, t, value_at(t, x), value_at(t, y)))
}

fn relation_at(op: RelOp, t: IntType, x: Option<u64>, y: Option<u64>) -> Option<bool>
    requires x { InRange (bits t) x }
    requires y { InRange (bits t) y }
    ensures { result ≡ words.relation_at op t x y }
{
    match (x, y) {
        (Some(a), Some(b)) => Some(related(op, t, a, b)),
        (None, _) => None,
        (Some(_), None) => None,
    }
}

/// Whether the number isn't 0.
fn holds(x: Option<u64>) -> Option<bool>
    ensures { result ≡ words.holds x }
{
    match x {
        Some(a) => Some(a != 0),
        None => None,
    }
}

/// The right operand isn't evaluated where the left one is 0 (C11, 6.5.13).
fn both(x: Option<bool>, y: Option<bool>) -> Option<bool>
    ensures { result ≡ words.both x y }
{
    match x {
        None => None,
        Some(false) => Some(false),
        Some(true) => y,
    }
}

/// The right operand isn't evaluated where the left one isn't 0 (C11, 6.5.14).
fn either(x: Option<bool>, y: Option<bool>) -> Option<bool>
    ensures { result ≡ words.either x y }
{
    match x {
        None => None,
        Some(true) => Some(true),
        Some(false) => y,
    }
}

/// An operator between two operands (C11, 6.6).
pub fn binary(op: Operator, x: Constant, y: Constant) -> Constant
    requires x { IsInRange x }
    requires y { IsInRange y }
    ensures is { result ≡ words.binary op x y }
    ensures in_range { IsInRange result }
{
    match op {
        Operator::And => an_answer(both(holds(x.value), holds(y.value))),
        Operator::Or => an_answer(either(holds(x.value), holds(y.value))),
        Operator::Equality(op) => relation(op, x, y),
        Operator::Order(op) => relation(op, x, y),
        Operator::Arithmetic(op) => at_type(op, common(x.ty, y.ty), x, y),
        Operator::Shift(op) => at_type(op, promoted(x.ty), x, y),
        Operator::Plus => at_type(BinaryOp::Add, common(x.ty, y.ty), x, y),
        Operator::Minus => at_type(BinaryOp::Sub, common(x.ty, y.ty), x, y),
    }
}

/// The greatest number of a width: each of its bits is 1.
fn ones(t: IntType) -> u64
    requires { IsWidth (bits t) }
    ensures is { result ≡ 2 ^ bits t - 1 }
    ensures small { result < 2 ^ bits t }
{
    match t.bits() {
        32 => 0xFFFF_FFFF,
        _ => u64::MAX,
    }
}

/// The operand, promoted (C11, 6.5.3.3).
fn plus(x: Constant) -> Constant
    requires { IsInRange x }
    ensures is { result ≡ words.promoted_by (λ t a. Some a) x }
    ensures in_range { IsInRange result }
{
    let t = promoted(x.ty);
    Constant {
        ty: t,
        value: value_at(t, x),
    }
}

/// The negative of the promoted operand.
fn minus(x: Constant) -> Constant
    requires { IsInRange x }
    ensures is { result ≡ words.promoted_by words.negated x }
    ensures in_range { IsInRange result }
{
    let t = promoted(x.ty);
    let value = match value_at(t, x) {
        Some(a) => computed(BinaryOp::Sub, t, 0, a),
        None => None,
    };
    Constant { ty: t, value }
}

/// The promoted operand with each bit turned.
fn complement(x: Constant) -> Constant
    requires { IsInRange x }
    ensures is { result ≡ words.promoted_by words.complemented x }
    ensures in_range { IsInRange result }
{
    let t = promoted(x.ty);
    let value = match value_at(t, x) {
        Some(a) => computed(BinaryOp::Sub, t, ones(t), a),
        None => None,
    };
    Constant { ty: t, value }
}

/// Whether the operand is 0.
fn is_zero(x: Constant) -> Constant
    ensures is { result ≡ words.is_zero x }
    ensures in_range { IsInRange result }
{
    an_answer(match holds(x.value) {
        Some(holds) => Some(!holds),
        None => None,
    })
}

/// An operator before its operand (C11, 6.6).
pub fn unary(op: UnaryOp, x: Constant) -> Option<Constant>
    requires { IsInRange x }
    ensures is { result ≡ words.unary op x }
    ensures in_range { IfSome result IsInRange }
{
    match op {
        UnaryOp::Plus => Some(plus(x)),
        UnaryOp::Minus => Some(minus(x)),
        UnaryOp::Complement => Some(complement(x)),
        UnaryOp::Not => Some(is_zero(x)),
        UnaryOp::AddressOf => None,
        UnaryOp::Deref => None,
        UnaryOp::Increment => None,
        UnaryOp::Decrement => None,
        UnaryOp::SizeOf => None,
    }
}

/// `c ? x : y` (C11, 6.5.15).
pub fn choice(c: Constant, x: Constant, y: Constant) -> Constant
    requires x { IsInRange x }
    requires y { IsInRange y }
    ensures is { result ≡ words.choice c x y }
    ensures in_range { IsInRange result }
{
    let t = common(x.ty, y.ty);
    let value = match holds(c.value) {
        None => None,
        Some(true) => value_at(t, x),
        Some(false) => value_at(t, y),
    };
    Constant { ty: t, value }
}

/// A cast to an integer type (C11, 6.5.4).
pub fn cast(t: IntType, x: Constant) -> Constant
    requires { IsInRange x }
    ensures is { result ≡ words.cast t x }
    ensures in_range { IsInRange result }
{
    Constant {
        ty: t,
        value: value_at(t, x),
    }
}

/// The bits at which the numbers of a signed type of `w` bits begin to be negative.
fn half(w: u8) -> u64
    requires { IsBits w }
    ensures { result ≡ 2 ^ (w - 1) }
{
    match w {
        8 => 0x80,
        16 => 0x8000,
        32 => 0x8000_0000,
        _ => 0x8000_0000_0000_0000,
    }
}

/// A number that isn't negative, as a length is one (C11, 6.7.6.2).
pub fn natural(c: Constant) -> Option<u64>
    ensures { result ≡ words.natural c }
{
    let Some(a) = c.value else {
        return None;
    };
    if c.ty.is_signed() {
        if a < half(width(c.ty)) { Some(a) } else { None }
    } else {
        Some(a)
    }
}
