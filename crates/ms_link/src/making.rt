//! What a module adds, by kind, and the addresses that its indices name.

ghost use Rattle.std.specs.Prelude.{◌≡◌, ◌≤◌, ◌<◌, ◌++◌, ◌∷◌, [], All, IfOk, List, OnOk, length, map};
ghost use Rattle.ms_linear.specs.Memory.{most_pages};
ghost use Rattle.ms_linear.specs.Table.{most_entries};
ghost use Rattle.ms_machine.specs.Linked as linked;
ghost use Rattle.ms_machine.specs.Writing as writing;
ghost use Rattle.ms_machine.specs.declared.externs.Extern.{Extern as Given};
ghost use Rattle.ms_module.specs.declared.module.Module.{Module};

use crate::constant::constant;
use crate::hosting::{funcs_in, push_hosts};
use ms_linear::{Cell, GlobalInst, Linear, Table};
use ms_machine::Extern;
use ms_module::{Func, Global as ModuleGlobal};
use ms_task::{FuncInst, SharedLocals};
use ms_types::{FuncType, Limits, SharedType};
use std::alloc::{AllocError, Global};

/// Adds items at the end.
fn append<T: Drop>(all: &mut Vec<T>, items: Vec<T>) -> Result<(), AllocError>
    ensures { OnOk result (all.new.items ≡ all.old.items ++ items.items) }
{
    for item in items {
        all.push(item)?;
    }
    Ok(())
}

/// Function types that can be shared.
pub(crate) fn share_types(alloc: Global, sigs: Vec<FuncType>) -> Result<Vec<SharedType>, AllocError>
    ensures { IfOk result (λ v. v.items ≡ sigs.items) }
{
    let mut types = Vec::with_capacity(alloc, sigs.len())?;
    for sig in sigs {
        types.push(SharedType::new(alloc, sig)?)?;
    }
    Ok(types)
}

/// Adds the numbers from one on, so many.
fn push_numbers(all: &mut Vec<u32>, from: usize, count: usize) -> Result<(), AllocError>
    ensures { OnOk result (all.new.items ≡ all.old.items ++ linked.numbers from count) }
{
    let Ok(first) = u32::try_from(from) else {
        return Err(AllocError);
    };
    let Ok(many) = u32::try_from(count) else {
        return Err(AllocError);
    };
    let Some(end) = first.checked_add(many) else {
        return Err(AllocError);
    };
    for n in first..end {
        all.push(n)?;
    }
    Ok(())
}

/// A function of an instance with these types. Its locals and its body are moved.
fn own_func(
    alloc: Global,
    types: &[SharedType],
    instance: u32,
    func: Func,
) -> Result<FuncInst, AllocError>
    requires { func.sig < length types.now }
    ensures { («module» : Module) → types.now ≡ «module».sigs → IfOk result (λ f. f ≡ linked.own_func «module» instance func) }
{
    let Func { sig, locals, body } = func;
    let ty = types[sig as usize].share()?;
    Ok(FuncInst {
        instance,
        ty,
        host: None,
        locals: SharedLocals::new(alloc, locals)?,
        body,
    })
}

/// Adds the functions of an instance with these types.
fn push_funcs(
    alloc: Global,
    all: &mut Vec<FuncInst>,
    types: &[SharedType],
    instance: u32,
    funcs: Vec<Func>,
) -> Result<(), AllocError>
    requires { All (λ f. f.sig < length types.now) funcs.items }
    ensures { («module» : Module) → types.now ≡ «module».sigs → OnOk result (all.new.items ≡ all.old.items ++ map (linked.own_func «module» instance) funcs.items) }
{
    for func in funcs {
        all.push(own_func(alloc, types, instance, func)?)?;
    }
    Ok(())
}

/// Adds the functions of an instance, and gives the addresses of all that it has.
pub(crate) fn add_funcs(
    alloc: Global,
    all: &mut Vec<FuncInst>,
    types: &[SharedType],
    instance: u32,
    externs: &[Extern],
    funcs: Vec<Func>,
) -> Result<Vec<u32>, AllocError>
    requires { All (λ f. f.sig < length types.now) funcs.items }
    ensures { («module» : Module) → types.now ≡ «module».sigs → IfOk result (λ r. (all.new.items ≡ all.old.items ++ linked.host_funcs instance 0 externs.now ++ map (linked.own_func «module» instance) funcs.items) × (r.items ≡ linked.funcs_in (length all.old.items) externs.now ++ linked.numbers (length (all.old.items ++ linked.host_funcs instance 0 externs.now)) (length funcs.items))) }
{
    let mut addresses = funcs_in(alloc, all.len(), externs)?;
    push_hosts(alloc, all, instance, externs)?;
    push_numbers(&mut addresses, all.len(), funcs.len())?;
    push_funcs(alloc, all, types, instance, funcs)?;
    Ok(addresses)
}

/// Adds the address of what is imported, if it is a global.
fn push_global(all: &mut Vec<u32>, e: Extern) -> Result<(), AllocError>
    ensures { OnOk result ((rest : List Given) → all.new.items ++ linked.globals_in rest ≡ all.old.items ++ linked.globals_in (e ∷ rest)) }
{
    match e {
        Extern::Global(a) => {
            all.push(a)?;
            Ok(())
        }
        _ => Ok(()),
    }
}

/// The addresses of the globals that are imported.
fn globals_in(alloc: Global, externs: &[Extern]) -> Result<Vec<u32>, AllocError>
    ensures { IfOk result (λ v. v.items ≡ linked.globals_in externs.now) }
{
    let mut all = Vec::new(alloc);
    for e in externs {
        push_global(&mut all, *e)?;
    }
    Ok(all)
}

/// A global with the value that it begins with.
fn own_global(globals: &[GlobalInst], imported: &[u32], global: &ModuleGlobal) -> GlobalInst
    ensures { result ≡ linked.own_global (linked.values_at globals.now imported.now) global.now }
{
    GlobalInst {
        value: Cell::of(constant(globals, imported, &global.init)),
        mutable: global.ty.mutable,
    }
}

/// The globals of an instance that imports those of these addresses.
fn own_globals(
    alloc: Global,
    all: &[GlobalInst],
    imported: &[u32],
    globals: &[ModuleGlobal],
) -> Result<Vec<GlobalInst>, AllocError>
    ensures { IfOk result (λ v. v.items ≡ map (linked.own_global (linked.values_at all.now imported.now)) globals.now) }
{
    let mut made = Vec::with_capacity(alloc, globals.len())?;
    for global in globals {
        made.push(own_global(all, imported, global))?;
    }
    Ok(made)
}

/// Adds the globals of an instance, and gives the addresses of all that it has.
pub(crate) fn add_globals(
    alloc: Global,
    all: &mut Vec<GlobalInst>,
    externs: &[Extern],
    globals: &[ModuleGlobal],
) -> Result<Vec<u32>, AllocError>
    ensures { IfOk result (λ r. (all.new.items ≡ all.old.items ++ map (linked.own_global (linked.values_at all.old.items (linked.globals_in externs.now))) globals.now) × (r.items ≡ linked.globals_in externs.now ++ linked.numbers (length all.old.items) (length globals.now))) }
{
    let mut addresses = globals_in(alloc, externs)?;
    let own = own_globals(alloc, all.as_slice(), addresses.as_slice(), globals)?;
    push_numbers(&mut addresses, all.len(), globals.len())?;
    append(all, own)?;
    Ok(addresses)
}

/// The address of the table that is imported, if there is one.
fn table_in(externs: &[Extern]) -> Option<u32>
    ensures { result ≡ linked.table_in externs.now }
{
    for e in externs {
        if let Extern::Table(a) = e {
            return Some(*a);
        }
    }
    None
}

/// The address of the linear memory that is imported, if there is one.
fn memory_in(externs: &[Extern]) -> Option<u32>
    ensures { result ≡ linked.memory_in externs.now }
{
    for e in externs {
        if let Extern::Memory(a) = e {
            return Some(*a);
        }
    }
    None
}

/// What is imported, or the instance's own, which has the next address.
fn or_own(imported: Option<u32>, address: usize, own: &[Limits]) -> Result<Option<u32>, AllocError>
    ensures { IfOk result (λ a. a ≡ linked.or_own imported address own.now) }
{
    if let Some(a) = imported {
        return Ok(Some(a));
    }
    match own {
        [] => Ok(None),
        _ => match u32::try_from(address) {
            Ok(a) => Ok(Some(a)),
            Err(_) => Err(AllocError),
        },
    }
}

/// Adds the table of an instance, if it has its own, with no entries, and gives the address of the one that it has.
pub(crate) fn add_tables(
    alloc: Global,
    all: &mut Vec<Table>,
    externs: &[Extern],
    limits: &[Limits],
) -> Result<Option<u32>, AllocError>
    requires { All (λ l. l.min ≤ most_entries) limits.now }
    ensures { IfOk result (λ r. (all.new.items ≡ all.old.items ++ map writing.empty_table limits.now) × (r ≡ linked.or_own (linked.table_in externs.now) (length all.old.items) limits.now)) }
{
    let address = or_own(table_in(externs), all.len(), limits)?;
    for l in limits {
        all.push(Table::new(alloc, *l)?)?;
    }
    Ok(address)
}

/// Adds the linear memory of an instance, if it has its own, of zeros, and gives the address of the one that it has.
pub(crate) fn add_memories(
    alloc: Global,
    all: &mut Vec<Linear>,
    externs: &[Extern],
    limits: &[Limits],
) -> Result<Option<u32>, AllocError>
    requires { All (λ l. l.min ≤ most_pages) limits.now }
    ensures { IfOk result (λ r. (all.new.items ≡ all.old.items ++ map writing.zeroed limits.now) × (r ≡ linked.or_own (linked.memory_in externs.now) (length all.old.items) limits.now)) }
{
    let address = or_own(memory_in(externs), all.len(), limits)?;
    for l in limits {
        all.push(Linear::new(alloc, *l)?)?;
    }
    Ok(address)
}
