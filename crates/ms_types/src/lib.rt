//! Types of values, functions and limits (WebAssembly 1.0, 2.3), and vectors and stacks of items.
//!
//! It stands on nothing. Contracts see a `Vector` as a list, a `Stack` as a list with the topmost item first, and a
//! `SharedType` as the function type that it is. There is no definition beside these, but for how many bytes a page has
//! (`specs/Page.antt`). Read `types.rt` first.
#![tactic(auto)]

mod shared;
mod stack;
mod types;
mod vector;

pub use shared::SharedType;
pub use stack::Stack;
pub use types::{FuncType, GlobalType, Limits, PAGE, ValType};
pub use vector::Vector;
