//! Typed places, expressions and statements.

use crate::ops::{BinaryOp, RelOp, UnaryOp, Variable};
use c_types::{CType, IntType, Scalar};

/// A place: what can be read, assigned or have its address taken (C11, 6.3.2.1).
#[cycle(tree)]
#[derive(Drop)]
pub enum Place {
    Of(Variable),
    /// `*e`, `e[i]`, and the place with which `e->m` begins.
    Deref(Box<Expr>),
    /// A member of a struct's place, by the struct's number and the member's.
    Member(Box<Place>, u32, u32),
}

/// What `sizeof` stands before (C11, 6.5.3.4). It isn't evaluated.
#[cycle(tree)]
#[derive(Drop)]
pub enum Sized {
    Place(Box<Place>),
    Value(Box<Expr>),
    /// The name of a type, or a string literal, which makes no object there.
    Nothing,
}

/// An expression that has a value or is void (C11, 6.5). Every conversion and every reading of a place is a node of its
/// own.
#[cycle(tree)]
#[derive(Drop)]
pub enum Expr {
    /// A number of a type, by its bits: below 2^w, where the type has w bits.
    Number(IntType, u64),
    /// The null pointer to an object.
    Null,
    /// The null pointer to a function.
    NoFunction,
    /// A function that decayed, by its number.
    Function(u32),
    /// A string literal that decayed, by its number among those that are made before `main`.
    Literal(u32),
    /// What a place holds.
    Read(Scalar, Box<Place>),
    /// The pointer to the first element of an array's place, by the elements' type and their count.
    Decay(CType, u32, Box<Place>),
    Address(Box<Place>),
    /// From one integer type to another.
    Convert(IntType, IntType, Box<Expr>),
    /// Whether it is neither zero nor null, as an int.
    Truth(Scalar, Box<Expr>),
    /// 1 where a condition is 0, else 0.
    Not(Box<Expr>),
    Unary(UnaryOp, IntType, Box<Expr>),
    /// On two operands of this type.
    Binary(BinaryOp, IntType, Box<Expr>, Box<Expr>),
    /// Of two operands of this type.
    Compare(RelOp, IntType, Box<Expr>, Box<Expr>),
    ComparePointers(RelOp, Box<Expr>, Box<Expr>),
    /// Whether two pointers to functions are equal, or, where the answer is no, whether they differ.
    SameFunction(bool, Box<Expr>, Box<Expr>),
    /// Of two pointers, in elements of this type.
    Difference(CType, Box<Expr>, Box<Expr>),
    /// A pointer to elements of this type that goes on by a `long long`, or back by it.
    Move(CType, bool, Box<Expr>, Box<Expr>),
    /// On by a `long long` that stands first.
    MoveBy(CType, Box<Expr>, Box<Expr>),
    /// Of two conditions.
    And(Box<Expr>, Box<Expr>),
    Or(Box<Expr>, Box<Expr>),
    /// A condition, and two expressions of this scalar, or two that are void.
    Choose(Option<Scalar>, Box<Expr>, Box<Expr>, Box<Expr>),
    Comma(Box<Expr>, Box<Expr>),
    /// Its value is what was assigned.
    Assign(Scalar, Box<Place>, Box<Expr>),
    /// `op=`, `++` and `--` on a place of the first integer type: whether the old value is given, the operation, its type,
    /// and the other operand, which has that type. The place is evaluated once.
    Update(bool, IntType, BinaryOp, IntType, Box<Place>, Box<Expr>),
    /// The same on a pointer to elements of this type: whether the old value is given, whether it goes back, and by which
    /// `long long`.
    Advance(bool, CType, bool, Box<Place>, Box<Expr>),
    /// Of a struct of this number, to and from. It is void.
    Copy(u32, Box<Place>, Box<Place>),
    /// A function by its number, and what it gives.
    Call(u32, Option<Scalar>, Vec<Expr>),
    /// Through a pointer to a function of this type.
    CallThrough(CType, Option<Scalar>, Box<Expr>, Vec<Expr>),
    Putchar(Box<Expr>),
    Getchar,
    Abort,
    /// Of elements of this type, by the number of bytes, an `unsigned int`.
    Malloc(CType, Box<Expr>),
    /// The same of so many parts of so many bytes, two `unsigned int`, whose product is taken exactly.
    Calloc(CType, Box<Expr>, Box<Expr>),
    Free(Box<Expr>),
    /// What is evaluated and thrown away.
    Discard(Box<Expr>),
    /// A struct's place that is evaluated and thrown away: nothing is read.
    Visit(Box<Place>),
    /// The size, and what it is the size of.
    SizeOf(u32, Sized),
}

/// A label of a `switch` (C11, 6.8.1): its number, by its bits, `None` for `default`, and with which group of statements it
/// goes on.
#[derive(Clone, Copy, PartialEq, Eq)]
pub struct Case {
    pub label: Option<u64>,
    pub group: u32,
}

/// A statement (C11, 6.8). A condition is an integer of at most 32 bits, and means that it isn't 0.
#[derive(Drop)]
pub enum Stmt {
    Nothing,
    /// An expression whose value, if it has one, is thrown away.
    Perform(Expr),
    /// The bytes of a string into the first elements of an array of so many char.
    Fill(Place, u32, Vec<u8>),
    If(Expr, Box<Stmt>, Box<Stmt>),
    /// The condition, what is evaluated after each iteration, and the body.
    Loop(Expr, Option<Expr>, Box<Stmt>),
    /// The body, and the condition that is evaluated after each iteration.
    DoWhile(Box<Stmt>, Expr),
    /// An integer of a promoted type, the slots of the variables that are declared in the block, its labels, and the groups of
    /// statements between them: the first group stands before each label.
    Switch(IntType, Expr, Vec<u32>, Vec<Case>, Vec<Stmt>),
    /// The slots of the variables that are declared in it, in order, and what is done.
    Scope(Vec<u32>, Vec<Stmt>),
    Return(Expr),
    ReturnNothing,
    Break,
    Continue,
}
