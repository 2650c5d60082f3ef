//! Instructions of operators, conversions and accesses (C11, 6.3.1, 6.5; WebAssembly 1.0, 2.4.1).

ghost use Rattle.std.specs.Prelude.{◌≡◌, ℤ, negsuc, pos};
ghost use Rattle.ms_num.specs.Integers.{wrapped};
ghost use Rattle.c_types.specs.Integers.{bits as width};
ghost use Rattle.c_meaning.specs.Integers.{value_of, wrap};
ghost use Rattle.c_code.specs.Operations as words;

use c_typed::{BinaryOp, RelOp as Relation};
use c_types::{IntType, Scalar};
use ms_module::{BinOp, Instr, LoadOp, Numeric, RelOp, Segment, StoreOp, Width};
use ms_types::ValType;

/// The width of an integer on the stack.
pub fn width_of(t: IntType) -> Width
    ensures { result ≡ words.width_of t }
{
    match t {
        IntType::LongLong => Width::W64,
        IntType::UnsignedLongLong => Width::W64,
        IntType::Char => Width::W32,
        IntType::SignedChar => Width::W32,
        IntType::UnsignedChar => Width::W32,
        IntType::Short => Width::W32,
        IntType::UnsignedShort => Width::W32,
        IntType::Int => Width::W32,
        IntType::UnsignedInt => Width::W32,
        IntType::Long => Width::W32,
        IntType::UnsignedLong => Width::W32,
    }
}

/// The type of an integer of a width.
fn integer_type(width: Width) -> ValType
    ensures { result ≡ words.integer_type width }
{
    match width {
        Width::W32 => ValType::I32,
        Width::W64 => ValType::I64,
    }
}

/// The type of a value on the stack.
pub fn val_type(scalar: Scalar) -> ValType
    ensures { result ≡ words.val_type scalar }
{
    match scalar {
        Scalar::Int(t) => integer_type(width_of(t)),
        Scalar::Pointer => ValType::Handle,
        Scalar::Function => ValType::I32,
    }
}

/// The same, or none where there is no value.
pub fn val_option(scalar: Option<Scalar>) -> Option<ValType>
    ensures { result ≡ words.val_option scalar }
{
    match scalar {
        None => None,
        Some(scalar) => Some(val_type(scalar)),
    }
}

// ---- constants

/// A constant of 32 bits.
pub fn i32_of(n: u32) -> Instr
    ensures { result ≡ words.i32 n }
{
    Instr::I32Const(n.cast_signed())
}

/// A constant of 64 bits.
pub fn i64_of(n: u64) -> Instr
    ensures { result ≡ words.i64 n }
{
    Instr::I64Const(n.cast_signed())
}

/// 0 of a width.
pub fn zero_of_width(width: Width) -> Instr
    ensures { result ≡ words.constant width (pos 0) }
{
    match width {
        Width::W32 => Instr::I32Const(0),
        Width::W64 => Instr::I64Const(0),
    }
}

/// All bits of a width.
pub fn ones(width: Width) -> Instr
    ensures { result ≡ words.constant width (negsuc 0) }
{
    match width {
        Width::W32 => Instr::I32Const(-1),
        Width::W64 => Instr::I64Const(-1),
    }
}

/// What begins as zero (6.7.9, paragraph 10).
pub fn zero_of(scalar: Scalar) -> Instr
    ensures { result ≡ words.zero_of scalar }
{
    match scalar {
        Scalar::Int(t) => zero_of_width(width_of(t)),
        Scalar::Pointer => Instr::Segment(Segment::Null),
        Scalar::Function => Instr::I32Const(0),
    }
}

/// The low 64 bits of the number of a type that has these bits.
fn extended(t: IntType, bits: u64) -> u64
    ensures { result ≡ wrapped 64 (value_of t bits) }
{
    let width = u32::from(t.bits());
    if !t.is_signed() || width == 64 {
        return bits;
    }
    let half = 1u64 << (width - 1);
    if bits < half {
        bits
    } else {
        bits.wrapping_sub(half << 1)
    }
}

/// The constant whose low bits these are.
fn low(width: Width, bits: u64) -> Instr
    ensures { result ≡ words.constant width (pos bits) }
{
    match width {
        Width::W32 => i32_of((bits % (1 << 32)) as u32),
        Width::W64 => i64_of(bits),
    }
}

/// The number of a type that has these bits.
pub fn number(t: IntType, bits: u64) -> Instr
    ensures { result ≡ words.constant (words.width_of t) (value_of t bits) }
{
    low(width_of(t), extended(t, bits))
}

/// As many bits as a number of a type has, the lowest ones.
#[tactic(auto, using(crate::proofs::Narrowing::lowest))]
fn kept(t: IntType, bits: u64) -> u64
    ensures { (z : ℤ) → bits ≡ wrapped 64 z → result ≡ wrapped (width t) z }
{
    let width = u32::from(t.bits());
    if width == 64 {
        return bits;
    }
    bits % (1u64 << width)
}

/// The number of the second type that the number of the first that has these bits is converted to (6.3.1.3).
pub fn converted_number(t: IntType, u: IntType, bits: u64) -> Instr
    ensures { result ≡ words.constant (words.width_of u) (wrap u (value_of t bits)) }
{
    number(u, kept(u, extended(t, bits)))
}

// ---- operators on integers

/// An operation on two integers of a width.
pub fn op(width: Width, op: BinOp) -> Instr
    ensures { result ≡ words.op width op }
{
    Instr::Numeric(Numeric::Binary(width, op))
}

/// A comparison of two integers of a width.
pub fn rel(width: Width, rel: RelOp) -> Instr
    ensures { result ≡ words.rel width rel }
{
    Instr::Numeric(Numeric::Compare(width, rel))
}

/// Whether an i32 is 0.
pub fn eqz() -> Instr
    ensures { result ≡ words.eqz }
{
    Instr::Numeric(Numeric::Eqz(Width::W32))
}

fn operator(op: BinaryOp, t: IntType) -> BinOp
    ensures { result ≡ words.operator op t }
{
    match op {
        BinaryOp::Add => BinOp::Add,
        BinaryOp::Sub => BinOp::Sub,
        BinaryOp::Mul => BinOp::Mul,
        BinaryOp::Div => if t.is_signed() {
            BinOp::DivS
        } else {
            BinOp::DivU
        },
        BinaryOp::Rem => if t.is_signed() {
            BinOp::RemS
        } else {
            BinOp::RemU
        },
        BinaryOp::And => BinOp::And,
        BinaryOp::Or => BinOp::Or,
        BinaryOp::Xor => BinOp::Xor,
        BinaryOp::ShiftLeft => BinOp::Shl,
        BinaryOp::ShiftRight => if t.is_signed() {
            BinOp::ShrS
        } else {
            BinOp::ShrU
        },
    }
}

fn relation(r: Relation, t: IntType) -> RelOp
    ensures { result ≡ words.relation r t }
{
    match r {
        Relation::Equal => RelOp::Eq,
        Relation::NotEqual => RelOp::Ne,
        Relation::Less => if t.is_signed() {
            RelOp::LtS
        } else {
            RelOp::LtU
        },
        Relation::LessEqual => if t.is_signed() {
            RelOp::LeS
        } else {
            RelOp::LeU
        },
        Relation::Greater => if t.is_signed() {
            RelOp::GtS
        } else {
            RelOp::GtU
        },
        Relation::GreaterEqual => if t.is_signed() {
            RelOp::GeS
        } else {
            RelOp::GeU
        },
    }
}

/// An operation at a type, on two of its numbers.
pub fn operated(o: BinaryOp, t: IntType) -> Instr
    ensures { result ≡ words.operated o t }
{
    op(width_of(t), operator(o, t))
}

/// A comparison at a type, of two of its numbers.
pub fn compared(r: Relation, t: IntType) -> Instr
    ensures { result ≡ words.compared r t }
{
    rel(width_of(t), relation(r, t))
}

// ---- accesses

/// Reads a scalar through a handle.
pub fn load(scalar: Scalar) -> Instr
    ensures { result ≡ words.load scalar }
{
    match scalar {
        Scalar::Int(t) => Instr::Segment(load_of(t)),
        Scalar::Pointer => Instr::Segment(Segment::LoadHandle),
        Scalar::Function => Instr::Segment(Segment::Load(LoadOp::I32Load)),
    }
}

fn load_of(t: IntType) -> Segment
    ensures { result ≡ words.load_of t }
{
    match t {
        IntType::Char => Segment::Load(LoadOp::I32Load8S),
        IntType::SignedChar => Segment::Load(LoadOp::I32Load8S),
        IntType::UnsignedChar => Segment::Load(LoadOp::I32Load8U),
        IntType::Short => Segment::Load(LoadOp::I32Load16S),
        IntType::UnsignedShort => Segment::Load(LoadOp::I32Load16U),
        IntType::Int => Segment::Load(LoadOp::I32Load),
        IntType::UnsignedInt => Segment::Load(LoadOp::I32Load),
        IntType::Long => Segment::Load(LoadOp::I32Load),
        IntType::UnsignedLong => Segment::Load(LoadOp::I32Load),
        IntType::LongLong => Segment::Load(LoadOp::I64Load),
        IntType::UnsignedLongLong => Segment::Load(LoadOp::I64Load),
    }
}

/// Writes a scalar through a handle.
pub fn store(scalar: Scalar) -> Instr
    ensures { result ≡ words.store scalar }
{
    match scalar {
        Scalar::Int(t) => Instr::Segment(store_of(t)),
        Scalar::Pointer => Instr::Segment(Segment::StoreHandle),
        Scalar::Function => Instr::Segment(Segment::Store(StoreOp::I32Store)),
    }
}

fn store_of(t: IntType) -> Segment
    ensures { result ≡ words.store_of t }
{
    match t {
        IntType::Char => Segment::Store(StoreOp::I32Store8),
        IntType::SignedChar => Segment::Store(StoreOp::I32Store8),
        IntType::UnsignedChar => Segment::Store(StoreOp::I32Store8),
        IntType::Short => Segment::Store(StoreOp::I32Store16),
        IntType::UnsignedShort => Segment::Store(StoreOp::I32Store16),
        IntType::Int => Segment::Store(StoreOp::I32Store),
        IntType::UnsignedInt => Segment::Store(StoreOp::I32Store),
        IntType::Long => Segment::Store(StoreOp::I32Store),
        IntType::UnsignedLong => Segment::Store(StoreOp::I32Store),
        IntType::LongLong => Segment::Store(StoreOp::I64Store),
        IntType::UnsignedLongLong => Segment::Store(StoreOp::I64Store),
    }
}
