//! Globals.

ghost use Rattle.std.specs.Prelude.{◌≡◌};
ghost use Rattle.ms_linear.specs.Values.{global_type_of};

use crate::operands::Cell;
use ms_types::GlobalType;

/// A global of the store (WebAssembly 1.0, 4.2.9).
#[derive(Clone, Copy, PartialEq, Eq)]
pub struct GlobalInst {
    /// Its value.
    pub value: Cell,
    /// Whether the value may change.
    pub mutable: bool,
}

impl GlobalInst {
    /// The global's type.
    pub fn ty(self) -> GlobalType
        ensures { result ≡ global_type_of self }
    {
        GlobalType {
            ty: self.value.value().ty(),
            mutable: self.mutable,
        }
    }
}
