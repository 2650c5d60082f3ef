//! The integer operations (WebAssembly 1.0, 4.3.2), of 32 and of 64 bits.
//!
//! An operand is the unsigned reading of its bits, below `2^w`, and so is each result. It stands on nothing. Read
//! `specs/Integers.antt` first: each operation on whole numbers, in the standard's words.
#![tactic(auto)]

mod arith;
mod arithmetic;
mod bitwise;
mod compare;
mod convert;
mod count;
mod shifts;
mod signed;

pub use arith::Arith;
pub use arithmetic::{add, div_s, div_u, mul, rem_s, rem_u, sub};
pub use bitwise::{and, or, xor};
pub use compare::{eq, eqz, ge_s, ge_u, gt_s, gt_u, le_s, le_u, lt_s, lt_u, ne};
pub use convert::{extend, narrow};
pub use count::{clz, ctz, popcnt};
pub use shifts::{rotl, rotr, shl, shr_s, shr_u};
