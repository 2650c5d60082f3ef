//! A typed unit: its functions, what is made before `main`, and the names that it declares.

use crate::tree::Stmt;
use c_token::Bytes;
use c_types::{CType, Structs};

/// A function that is declared (C11, 6.9.1).
#[derive(Drop)]
pub struct Function {
    pub name: Bytes,
    pub ty: CType,
    /// The types of its parameters and then of its variables, by slot.
    pub slots: Vec<CType>,
    /// What it does; `None` where it is declared alone.
    pub body: Option<Stmt>,
}

/// What is made before `main`.
#[derive(Drop)]
pub enum Made {
    /// A variable at file scope, and the values that it is given, in order.
    Global(u32, Vec<Stmt>),
    /// A string literal's bytes without the final zero.
    Literal(Vec<u8>),
}

/// An enumerator, and its number, an int, by its bits (C11, 6.7.2.2).
#[derive(Drop)]
pub struct Enumerator {
    pub name: Bytes,
    pub bits: u32,
}

/// An enumerated type that is defined (C11, 6.7.2.2). It may have no tag.
#[derive(Drop)]
pub struct Enumeration {
    pub tag: Option<Bytes>,
    pub constants: Vec<Enumerator>,
}

/// What a declaration adds to a unit, by its number.
#[derive(Clone, Copy, PartialEq, Eq)]
pub enum Subject {
    /// A tag that is seen for the first time (C11, 6.7.2.3).
    Tag(u32),
    /// The members of a struct (C11, 6.7.2.1).
    Members(u32),
    /// A function that is declared for the first time.
    Function(u32),
    /// What a function does.
    Body(u32),
    /// The enumerators of an enumerated type (C11, 6.7.2.2).
    Enumeration(u32),
    /// A variable at file scope.
    Variable(u32),
}

/// What is added to a unit, and where the external declaration begins that adds it.
#[derive(Clone, Copy, PartialEq, Eq)]
pub struct Addition {
    pub at: usize,
    pub subject: Subject,
}

/// A translation unit with its types (C11, 6.9).
#[derive(Drop)]
pub struct TypedUnit {
    /// The tags, by number, which is that of their structs.
    pub tags: Vec<Bytes>,
    pub structs: Structs,
    /// The names of the members of each struct, none where it isn't defined.
    pub members: Vec<Vec<Bytes>>,
    pub enumerations: Vec<Enumeration>,
    /// The names of the variables at file scope.
    pub names: Vec<Bytes>,
    /// Their types.
    pub globals: Vec<CType>,
    /// What is made before `main`, in the order of tokens.
    pub made: Vec<Made>,
    /// The functions, in the order in which they are first declared.
    pub functions: Vec<Function>,
    /// What the external declarations add, in order.
    pub additions: Vec<Addition>,
}
