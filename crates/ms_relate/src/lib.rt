//! Objects of C and the segment memory: the relation between the trees of the one and the bytes of the other, and for each operation on
//! objects that the machine's does what it means.
//!
//! There is no code, but the laws as clauses (`laws.rt`). It stands on the meaning of C (`c_meaning`) and on the segment memory (`ms_segment`, `ms_handle`, `ms_tagged`). Read
//! `specs/refinement/Relation.antt` first.
#![tactic(auto)]

mod laws;

pub use laws::{
    accesses_agree, comparisons_agree, copies_agree, lives_agree, moves_agree, shapes_agree,
};
