//! Writing functions (WebAssembly 1.0, 5.5.13), and the sections whose items stand otherwise elsewhere.

ghost use Rattle.std.specs.Prelude.{◌≡◌, ◌≤◌, ◌<◌, ◌^◌, ◌++◌, length, OnOk, Err};
ghost use Rattle.ms_bin_write.specs.declared.fault.BinFault.TheVariants.{Large};
ghost use Rattle.ms_bin_write.specs.Parts.{vec_bytes};
ghost use Rattle.ms_bin_write.specs.Types.{table_bytes};
ghost use Rattle.ms_flat.specs.refinement.Ranges.{AllFit, LimitsFit};
ghost use Rattle.ms_bin_write.specs.refinement.Ranges.{FuncFits};
ghost use Rattle.ms_bin_write.specs.Written.{IsTooMany, func_bytes, locals_bytes, part_bytes};

use crate::fault::BinFault;
use crate::items::{Item, is_large, write_section, write_sized};
use crate::opcodes::value_code;
use ms_bin_grammar::ANY_FUNC;
use ms_leb::write_u;
use ms_module::{Func, Locals};
use ms_types::{Limits, Vector};
use std::alloc::{AllocError, Global};

/// Writes locals as the fewest runs.
fn write_locals(locals: &Locals, out: &mut Vec<u8>) -> Result<(), AllocError>
    ensures written { OnOk result (out.new.items ≡ out.old.items ++ locals_bytes locals.now) }
    ensures within { length locals.now < 2 ^ 32 }
{
    let _count = locals.len();
    let runs = locals.runs();
    write_u(runs.len() as u64, out)?;
    let mut from = 0;
    for run in runs {
        write_u(u64::from(run.end - from), out)?;
        out.push(value_code(run.ty))?;
        from = run.end;
    }
    Ok(())
}

/// Writes the size, the locals and the body of a function.
fn write_func(alloc: Global, func: &Func, out: &mut Vec<u8>) -> Result<(), BinFault>
    ensures written { OnOk result (out.new.items ≡ out.old.items ++ func_bytes func.now) }
    ensures within { OnOk result (FuncFits func.now) }
    ensures large { result ≡ Err Large → 2 ^ 32 ≤ length (func_bytes func.now) }
{
    let mut entry = Vec::new(alloc);
    write_locals(&func.locals, &mut entry)?;
    func.body.write(alloc, &mut entry)?;
    if is_large(entry.as_slice()) {
        return Err(BinFault::Large);
    }
    write_sized(entry.as_slice(), out)?;
    Ok(())
}

/// Writes functions behind how many they are.
#[tactic(auto, unfolding(crate::specs::Parts::vec_bytes))]
fn write_funcs(alloc: Global, funcs: &[Func], out: &mut Vec<u8>) -> Result<(), BinFault>
    ensures written { OnOk result (out.new.items ≡ out.old.items ++ vec_bytes func_bytes funcs.now) }
    ensures within { OnOk result (AllFit FuncFits funcs.now) }
    ensures large { result ≡ Err Large → IsTooMany func_bytes funcs.now }
{
    write_u(funcs.len() as u64, out)?;
    for func in funcs {
        write_func(alloc, func, out)?;
    }
    Ok(())
}

/// Writes the code section. Without functions there is none.
pub fn write_code_section(
    alloc: Global,
    funcs: &Vector<Func>,
    out: &mut Vec<u8>,
) -> Result<(), BinFault>
    ensures written { OnOk result (out.new.items ≡ out.old.items ++ part_bytes 10 func_bytes funcs.now) }
    ensures within { OnOk result (AllFit FuncFits funcs.now) }
    ensures small { OnOk result (length (vec_bytes func_bytes funcs.now) < 2 ^ 32) }
    ensures large { result ≡ Err Large → IsTooMany func_bytes funcs.now }
{
    if funcs.is_empty() {
        return Ok(());
    }
    let mut content = Vec::new(alloc);
    write_funcs(alloc, funcs.as_slice(), &mut content)?;
    write_section(10, content.as_slice(), out)
}

/// Writes the types of tables behind how many they are.
#[tactic(auto, unfolding(crate::specs::Parts::vec_bytes))]
fn write_tables(alloc: Global, tables: &[Limits], out: &mut Vec<u8>) -> Result<(), AllocError>
    ensures written { OnOk result (out.new.items ≡ out.old.items ++ vec_bytes table_bytes tables.now) }
    ensures within { OnOk result (AllFit LimitsFit tables.now) }
{
    write_u(tables.len() as u64, out)?;
    for limits in tables {
        out.push(ANY_FUNC)?;
        limits.write(alloc, out)?;
    }
    Ok(())
}

/// Writes the table section. Without tables there is none.
pub fn write_table_section(
    alloc: Global,
    tables: &Vector<Limits>,
    out: &mut Vec<u8>,
) -> Result<(), BinFault>
    ensures written { OnOk result (out.new.items ≡ out.old.items ++ part_bytes 4 table_bytes tables.now) }
    ensures within { OnOk result (AllFit LimitsFit tables.now) }
    ensures small { OnOk result (length (vec_bytes table_bytes tables.now) < 2 ^ 32) }
    ensures large { result ≡ Err Large → IsTooMany table_bytes tables.now }
{
    if tables.is_empty() {
        return Ok(());
    }
    let mut content = Vec::new(alloc);
    write_tables(alloc, tables.as_slice(), &mut content)?;
    write_section(4, content.as_slice(), out)
}
