//! What is open in a body, and what may stand in front.

use crate::surface::{Plain, TypeUse};
use ms_module::Opening;
use ms_text_lex::Token;
use ms_types::ValType;

/// What is open in a body (WebAssembly 1.0, 6.5.2 and 6.5.7).
#[derive(Drop)]
pub enum Frame {
    /// A block up to its `end`, in which an `else` may still come.
    Flat {
        label: Option<Token>,
        may_else: bool,
    },
    /// A folded block or loop.
    Folded,
    /// The operands of a folded instruction.
    Operands(Plain),
    /// The operands of a folded `if`.
    Condition {
        label: Option<Token>,
        ty: Option<ValType>,
    },
    /// The instructions in the parentheses of `then` or `else`.
    Arm,
    /// A folded `if` whose `then` has been read.
    Then,
    /// A folded `if` whose `else` has been read.
    Other,
}

/// What stands in front in a body.
#[derive(Clone, Copy, PartialEq, Eq)]
pub enum Sign {
    /// An opening parenthesis.
    Left,
    /// A closing one.
    Right,
    /// `end`.
    Ends,
    /// `else`.
    Elses,
    /// `then`.
    Thens,
    /// The keyword of a block.
    Heads(Opening),
    /// Anything else, or nothing.
    Other,
}

/// An instruction that is no block, as it was read.
#[derive(Drop)]
pub enum Fresh {
    /// One that is complete.
    Plain(Plain),
    /// A `call_indirect`, whose type use has no number yet.
    Indirect(TypeUse),
}
