//! The numeric instructions of compiled C against the operators of C (C11, 6.3.1.3, 6.5.3.3 and 6.5.5 to 6.5.12): at the width of a
//! type, on the bits of its numbers, an instruction gives the bits of the number that is meant.
//!
//! There is no code. It stands on the code of units (`c_code`), on their meaning (`c_meaning`) and on the machine's numeric
//! instructions (`ms_operate`). Read `specs/Operands.antt` first, and then the laws here.
#![tactic(auto)]

mod laws;

pub use laws::numbers_agree;
