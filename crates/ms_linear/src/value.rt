//! Values.

ghost use Rattle.std.specs.Prelude.{◌≡◌};
ghost use Rattle.ms_linear.specs.Values.{default_of, type_of};

use ms_handle::Handle;
use ms_types::ValType;

/// A value (WebAssembly 1.0, 4.2.1). Integers have no sign.
#[derive(Clone, Copy, PartialEq, Eq)]
pub enum Value {
    /// An integer of 32 bits.
    I32(u32),
    /// An integer of 64 bits.
    I64(u64),
    /// A handle.
    Handle(Handle),
}

impl Value {
    /// The value's type.
    pub fn ty(self) -> ValType
        ensures { result ≡ type_of self }
    {
        match self {
            Value::I32(_) => ValType::I32,
            Value::I64(_) => ValType::I64,
            Value::Handle(_) => ValType::Handle,
        }
    }

    /// What a local of the type is at first: 0, or the null handle.
    pub fn default_of(ty: ValType) -> Value
        ensures { result ≡ default_of ty }
    {
        match ty {
            ValType::I32 => Value::I32(0),
            ValType::I64 => Value::I64(0),
            ValType::Handle => Value::Handle(Handle::Null),
        }
    }
}
