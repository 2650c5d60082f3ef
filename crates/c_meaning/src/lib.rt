//! What a typed unit of C does (C11, 5.1.2.3, 6.2.4, 6.5 and 6.8): objects that have no address, and the meaning of expressions,
//! statements, functions and units, by recursion on the typed tree.
//!
//! There is no code. It stands on the typed tree (`c_typed`) and on integers (`ms_num`). Read `specs/Units.antt` first, of which
//! `means` is the meaning of a unit, and then what it stands on, from `specs/World.antt` to `specs/Functions.antt`.
#![tactic(auto)]
