//! Writing types (WebAssembly 1.0, 5.3).

ghost use Rattle.std.specs.Prelude.{◌≡◌};
ghost use Rattle.ms_bin_write.specs.Types.{func_type_bytes, global_type_bytes, limits_bytes, mutability_code, value_bytes};
ghost use Rattle.ms_flat.specs.refinement.Ranges.{LimitsFit};

use crate::items::{Item, write_vec};
use crate::opcodes::value_code;
use ms_bin_grammar::FUNC_TYPE;
use ms_types::{FuncType, GlobalType, Limits, ValType};
use std::alloc::{AllocError, Global};

impl Item for ValType {
    ghost bytes = { value_bytes };

    ghost fits = { λ _. Unit {0} };

    fn write(&self, _alloc: Global, out: &mut Vec<u8>) -> Result<(), AllocError> {
        out.push(value_code(*self))?;
        Ok(())
    }
}

impl Item for FuncType {
    ghost bytes = { func_type_bytes };

    ghost fits = { λ _. Unit {0} };

    fn write(&self, alloc: Global, out: &mut Vec<u8>) -> Result<(), AllocError> {
        out.push(FUNC_TYPE)?;
        write_vec(alloc, self.params.as_slice(), out)?;
        write_vec(alloc, self.results.as_slice(), out)
    }
}

/// Limits as they stand for a memory.
impl Item for Limits {
    ghost bytes = { limits_bytes };

    ghost fits = { LimitsFit };

    fn write(&self, alloc: Global, out: &mut Vec<u8>) -> Result<(), AllocError> {
        match self.max {
            None => {
                out.push(0x00)?;
                self.min.write(alloc, out)
            }
            Some(max) => {
                out.push(0x01)?;
                self.min.write(alloc, out)?;
                max.write(alloc, out)
            }
        }
    }
}

impl Item for GlobalType {
    ghost bytes = { global_type_bytes };

    ghost fits = { λ _. Unit {0} };

    fn write(&self, _alloc: Global, out: &mut Vec<u8>) -> Result<(), AllocError> {
        out.push(value_code(self.ty))?;
        out.push(self.mutable as u8)?;
        Ok(())
    }
}
