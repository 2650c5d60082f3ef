//! Constant expressions (WebAssembly 1.0, 3.3.7).

ghost use Rattle.std.specs.Prelude.{◌≡◌, ◌↔◌, IsTrue};
ghost use Rattle.ms_rules.specs.Modules.{ConstantTyped, IsConstant};
ghost use Rattle.ms_module.specs.declared.instr.Instr.TheVariants.{GlobalGet};

use ms_module::{Code, Instr, Segment};
use ms_types::{GlobalType, ValType};

/// Whether an expression is a constant of this type, where it may read these globals.
pub fn is_constant(globals: &[GlobalType], ty: ValType, code: &Code) -> bool
    ensures { IsTrue result ↔ IsConstant globals.now ty code.now }
{
    if code.len() != 1 {
        return false;
    }
    match code.sequence(0) {
        [instr] => is_constant_instr(globals, ty, instr),
        _ => false,
    }
}

fn is_constant_instr(globals: &[GlobalType], ty: ValType, instr: &Instr) -> bool
    ensures { IsTrue result ↔ ConstantTyped globals.now ty instr.now }
{
    match instr {
        Instr::I32Const(_) => ty == ValType::I32,
        Instr::I64Const(_) => ty == ValType::I64,
        Instr::Segment(Segment::Null) => ty == ValType::Handle,
        Instr::GlobalGet(index) => is_constant_global(globals, ty, *index),
        _ => false,
    }
}

fn is_constant_global(globals: &[GlobalType], ty: ValType, index: u32) -> bool
    ensures { IsTrue result ↔ ConstantTyped globals.now ty (GlobalGet index) }
{
    match globals.get(index as usize) {
        Some(global) => !global.mutable && ty == global.ty,
        None => false,
    }
}
