//! Bodies as numbered sequences of instructions.

ghost use Rattle.std.specs.Prelude.{◌≡◌, ◌<◌, List, length};
ghost use Rattle.ms_module.specs.Building.{IsNumbered};
ghost use Rattle.ms_module.specs.Numbered.{AllNameWithin, sequence_at};

use crate::instr::Instr;
use ms_types::Vector;
use std::marker::Model;

/// The instructions of a body or of a constant expression, as sequences that are numbered from 0 in the order in which
/// they begin. The body's own sequence is the first one.
#[derive(Drop)]
pub struct Code {
    sequences: Vector<Vector<Instr>>,
}

impl Model for Code {
    ghost use Rattle.std.specs.Prelude.{List};
    ghost use Rattle.ms_module.specs.declared.instr.Instr.{Instr};
    ghost use Rattle.ms_module.specs.Building.{IsNumbered};

    ghost Value = { List (List Instr) };

    ghost view = { λ c. c.sequences };

    ghost invariant = { λ c. IsNumbered c.sequences };
}

impl Code {
    /// The code of these sequences.
    pub(crate) fn new(sequences: Vector<Vector<Instr>>) -> Self
        requires { IsNumbered sequences }
        ensures { result ≡ sequences }
    {
        Code { sequences }
    }

    /// How many sequences there are.
    pub fn len(&self) -> usize
        ensures len { result ≡ length self.now }
        ensures some { 0 < result }
        ensures numbered { IsNumbered self.now }
    {
        self.sequences.len()
    }

    /// The instructions of the sequence of this number. Those that they name begin after it.
    pub fn sequence(&self, number: usize) -> &[Instr]
        requires { number < length self.now }
        ensures instrs { result.now ≡ sequence_at self.now number }
        ensures later { AllNameWithin (length self.now) number result.now }
    {
        self.sequences.as_slice()[number].as_slice()
    }
}
