//! The labels of a `br_table`.

ghost use Rattle.std.specs.Prelude.{◌≡◌, IfOk};

use ms_types::Vector;
use std::alloc::{AllocError, Global};
use std::marker::Model;

/// The labels that a `br_table` goes to (WebAssembly 1.0, 2.4.5).
#[derive(Drop)]
pub struct Targets {
    /// The labels, by the operand.
    pub labels: Vector<u32>,
    /// The label for any other operand.
    pub default: u32,
}

/// The labels of a `br_table`, kept apart, so that an instruction stays small. Contracts see the labels.
#[derive(Drop)]
pub struct BrTable {
    targets: Box<Targets>,
}

impl Model for BrTable {
    ghost use Rattle.ms_module.specs.declared.br_table.Targets.{Targets};

    ghost Value = { Targets };

    ghost view = { λ b. b.targets.value };
}

impl BrTable {
    /// A `br_table` to these labels.
    pub fn new(alloc: Global, targets: Targets) -> Result<Self, AllocError>
        ensures { IfOk result (λ b. b ≡ targets) }
    {
        Ok(BrTable {
            targets: Box::new(alloc, targets)?,
        })
    }

    /// The labels, by the operand.
    pub fn labels(&self) -> &[u32]
        ensures { result.now ≡ self.now.labels }
    {
        self.targets.labels.as_slice()
    }

    /// The label for any other operand.
    pub fn default(&self) -> u32
        ensures { result ≡ self.now.default }
    {
        self.targets.default
    }
}
