//! Functions of the store.

ghost use Rattle.std.specs.Prelude.{◌≡◌};
ghost use Rattle.ms_task.specs.Thread.{result_of};

use crate::locals::SharedLocals;
use ms_host::Host;
use ms_module::Code;
use ms_types::{SharedType, ValType};

/// A function of the store (WebAssembly 1.0, 4.2.6).
#[derive(Drop)]
pub struct FuncInst {
    /// The number of its instance.
    pub instance: u32,
    /// Its type.
    pub ty: SharedType,
    /// The function of the host that a call of it is, if it is one.
    pub host: Option<Host>,
    /// The types of the locals that it declares, its parameters not among them.
    pub locals: SharedLocals,
    /// Its body.
    pub body: Code,
}

impl FuncInst {
    /// What it leaves: one value or none.
    pub fn result(&self) -> Option<ValType>
        ensures { result ≡ result_of self.now }
    {
        self.ty.results().first().copied()
    }
}
