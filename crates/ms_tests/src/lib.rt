//! Tests of the public calls of the crates below `ms_machine`, which are then proved once.
//!
//! It has no code: each file of `tests` is named for the crate that it tries.
#![tactic(auto)]

#[cfg(test)]
mod tests;
