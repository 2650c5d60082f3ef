//! The run of a compiled unit of C against its meaning (C11, 5.1.2.3): code that is put together does what is meant, wherever it
//! stands, and so does each unit that is well-typed, from its start function on.
//!
//! There is no code. It stands on the code of units (`c_code`), on their meaning (`c_meaning`), on numbers (`c_numbers`) and on the
//! machine. Read `specs/Correct.antt` first, then `proofs/Ops.antt`, `Exprs.antt`, `Stmts.antt`, `Callees.antt`, `Mains.antt`, `Constants.antt`,
//! `Behind.antt`, `Top.antt`, `Linking.antt`, `Executing.antt`, `Sample.antt`.
#![tactic(auto)]

mod laws;

pub use laws::{
    compiled_behaves, compiled_is_placed, compiled_links, executed_behaves, linked_behaves,
    threads_run,
};
