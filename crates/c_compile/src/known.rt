//! What is known of an expression by its own node, as the code around it asks.

ghost use Rattle.std.specs.Prelude.{◌≡◌, pos};
ghost use Rattle.c_types.specs.declared.integers.IntType.TheVariants.{UnsignedInt};
ghost use Rattle.c_typed.specs.refinement.Views.{expr_of};
ghost use Rattle.c_meaning.specs.Integers.{bits_of};
ghost use Rattle.c_code.specs.Expressions as words;
ghost use Rattle.c_compile.specs.declared.known.Known.TheVariants.{Size};
ghost use Rattle.c_compile.specs.refinement.Known as known;

use c_typed::Expr;
use c_types::IntType;

/// What is known of an expression.
#[derive(Clone, Copy)]
pub enum Known {
    /// It is a number of a type, by its bits.
    Number(IntType, u64),
    /// It is a size.
    Size(u32),
    /// It is the null pointer to an object.
    Null,
    /// Its code gives 0 or 1.
    Bit,
    /// None of these.
    Nothing,
}

/// What is known of a size: as bits of an `unsigned int` it is itself.
#[tactic(auto, using(crate::proofs::Sizes::own_bits))]
fn size(n: u32) -> Known
    ensures is { result ≡ Size n }
    ensures bits { bits_of UnsignedInt (pos n) ≡ n }
{
    Known::Size(n)
}

/// What is known of it.
pub fn known_of(e: &Expr) -> Known
    ensures number { words.number_in (expr_of e.now) ≡ known.number_in result }
    ensures bytes { words.bytes_in (expr_of e.now) ≡ known.bytes_in result }
    ensures null { words.is_null (expr_of e.now) ≡ known.is_null result }
    ensures bit { words.is_bit (expr_of e.now) ≡ known.is_bit result }
{
    match e {
        Expr::Number(u, bits) => Known::Number(*u, *bits),
        Expr::SizeOf(n, _) => size(*n),
        Expr::Null => Known::Null,
        Expr::Truth(_, _)
        | Expr::Not(_)
        | Expr::Compare(_, _, _, _)
        | Expr::ComparePointers(_, _, _)
        | Expr::SameFunction(_, _, _)
        | Expr::And(_, _)
        | Expr::Or(_, _) => Known::Bit,
        Expr::NoFunction
        | Expr::Function(_)
        | Expr::Literal(_)
        | Expr::Read(_, _)
        | Expr::Decay(_, _, _)
        | Expr::Address(_)
        | Expr::Convert(_, _, _)
        | Expr::Unary(_, _, _)
        | Expr::Binary(_, _, _, _)
        | Expr::Difference(_, _, _)
        | Expr::Move(_, _, _, _)
        | Expr::MoveBy(_, _, _)
        | Expr::Choose(_, _, _, _)
        | Expr::Comma(_, _)
        | Expr::Assign(_, _, _)
        | Expr::Update(_, _, _, _, _, _)
        | Expr::Advance(_, _, _, _, _)
        | Expr::Copy(_, _, _)
        | Expr::Call(_, _, _)
        | Expr::CallThrough(_, _, _, _)
        | Expr::Putchar(_)
        | Expr::Getchar
        | Expr::Abort
        | Expr::Malloc(_, _)
        | Expr::Calloc(_, _, _)
        | Expr::Free(_)
        | Expr::Discard(_)
        | Expr::Visit(_) => Known::Nothing,
    }
}
