//! The index spaces of a module (WebAssembly 1.0, 2.5.1): what is imported, then its own.

ghost use Rattle.std.specs.Prelude.{◌≡◌, IfOk};
ghost use Rattle.ms_rules.specs.Context.{all_globals, all_memories, all_tables, imported_funcs, imported_globals, imported_memories, imported_tables, sigs_of_funcs};

use ms_module::{Import, ImportDesc, Module};
use ms_types::{GlobalType, Limits};
use std::alloc::{AllocError, Global};

/// The indices of the types of all functions.
pub fn sigs_of_funcs(alloc: Global, module: &Module) -> Result<Vec<u32>, AllocError>
    ensures { IfOk result (λ v. v.items ≡ sigs_of_funcs «module».now) }
{
    let mut sigs = imported_funcs(alloc, module.imports.as_slice())?;
    for func in module.funcs.as_slice() {
        sigs.push(func.sig)?;
    }
    Ok(sigs)
}

/// The sizes of all tables.
pub fn all_tables(alloc: Global, module: &Module) -> Result<Vec<Limits>, AllocError>
    ensures { IfOk result (λ v. v.items ≡ all_tables «module».now) }
{
    let mut tables = imported_tables(alloc, module.imports.as_slice())?;
    tables.extend_from_slice(module.tables.as_slice())?;
    Ok(tables)
}

/// The sizes of all memories.
pub fn all_memories(alloc: Global, module: &Module) -> Result<Vec<Limits>, AllocError>
    ensures { IfOk result (λ v. v.items ≡ all_memories «module».now) }
{
    let mut memories = imported_memories(alloc, module.imports.as_slice())?;
    memories.extend_from_slice(module.memories.as_slice())?;
    Ok(memories)
}

/// The types of all globals.
pub fn all_globals(alloc: Global, module: &Module) -> Result<Vec<GlobalType>, AllocError>
    ensures { IfOk result (λ v. v.items ≡ all_globals «module».now) }
{
    let mut globals = imported_globals(alloc, module.imports.as_slice())?;
    for global in module.globals.as_slice() {
        globals.push(global.ty)?;
    }
    Ok(globals)
}

fn imported_funcs(alloc: Global, imports: &[Import]) -> Result<Vec<u32>, AllocError>
    ensures { IfOk result (λ v. v.items ≡ imported_funcs imports.now) }
{
    let mut funcs = Vec::new(alloc);
    for import in imports {
        if let ImportDesc::Func(sig) = import.desc {
            funcs.push(sig)?;
        }
    }
    Ok(funcs)
}

fn imported_tables(alloc: Global, imports: &[Import]) -> Result<Vec<Limits>, AllocError>
    ensures { IfOk result (λ v. v.items ≡ imported_tables imports.now) }
{
    let mut tables = Vec::new(alloc);
    for import in imports {
        if let ImportDesc::Table(limits) = import.desc {
            tables.push(limits)?;
        }
    }
    Ok(tables)
}

fn imported_memories(alloc: Global, imports: &[Import]) -> Result<Vec<Limits>, AllocError>
    ensures { IfOk result (λ v. v.items ≡ imported_memories imports.now) }
{
    let mut memories = Vec::new(alloc);
    for import in imports {
        if let ImportDesc::Memory(limits) = import.desc {
            memories.push(limits)?;
        }
    }
    Ok(memories)
}

fn imported_globals(alloc: Global, imports: &[Import]) -> Result<Vec<GlobalType>, AllocError>
    ensures { IfOk result (λ v. v.items ≡ imported_globals imports.now) }
{
    let mut globals = Vec::new(alloc);
    for import in imports {
        if let ImportDesc::Global(ty) = import.desc {
            globals.push(ty)?;
        }
    }
    Ok(globals)
}
