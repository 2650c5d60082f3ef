//! The rules of validation (WebAssembly 1.0, chapter 3), with the type of handles.
//!
//! It stands on `ms_module`. The rules stand in `specs/`: read `Typing.antt` first, the judgement on instructions, and then
//! `Modules.antt`, where `WellTyped module` says that a module meets all rules. The code has the types of instructions, and
//! the context of a module.
#![tactic(auto)]

mod context;
mod instructions;
mod spaces;

pub use context::Context;
pub use instructions::{
    integer, linear_params, linear_result, loaded, numeric_params, numeric_result, segment_params,
    segment_result, stored,
};
