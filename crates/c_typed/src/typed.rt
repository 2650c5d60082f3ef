//! Typed trees that are well typed.

ghost use Rattle.std.specs.Prelude.{◌≡◌};
ghost use Rattle.c_typed.specs.refinement.Views.{typed_of};
ghost use Rattle.c_typed.specs.Units.{IsWellTyped};

use crate::unit::TypedUnit;
use std::marker::Model;

/// A translation unit with its types, which is well typed. Contracts see the unit.
#[derive(Drop)]
pub struct Typed {
    unit: TypedUnit,
}

impl Model for Typed {
    ghost use Rattle.c_typed.specs.refinement.Views.{typed_of};
    ghost use Rattle.c_typed.specs.declared.unit.TypedUnit.{TypedUnit};
    ghost use Rattle.c_typed.specs.Units.{IsWellTyped};
    ghost use Rattle.std.specs.Coded.{codes};
    ghost use Rattle.c_types.specs.refinement.Codes.{coded_table};
    ghost use Rattle.c_types.specs.contracts.types.CType as ctype;
    ghost use Rattle.c_typed.specs.contracts.tree.Stmt as stmt;

    ghost Value = { TypedUnit };

    ghost coded = { Prim.hlevel (codes, coded_table, ctype.the_row.coded, stmt.the_row.coded) };

    ghost view = { λ t. t.unit };

    ghost invariant = { λ t. IsWellTyped (typed_of t.unit) };
}

impl Typed {
    /// The unit, which has to be well typed.
    pub fn new(unit: TypedUnit) -> Typed
        requires { IsWellTyped (typed_of unit) }
        ensures { result ≡ unit }
    {
        Typed { unit }
    }

    /// The unit.
    pub fn unit(&self) -> &TypedUnit
        ensures same { result.now ≡ self.now }
        ensures well_typed { IsWellTyped (typed_of self.now) }
    {
        &self.unit
    }
}
