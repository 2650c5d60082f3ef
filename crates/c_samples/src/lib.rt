//! The code of units of C that is run by the machine's definition, beside the meaning that `c_meaning` computes of them.
//!
//! There is no code. It shows of some sixty units, each end and each way out of a block among them, that the code of `c_code` does
//! what they mean, on `ms_machine`. Read `proofs/Runs.antt` beside `proofs/Computed.antt` of `c_meaning`.
#![tactic(auto)]
