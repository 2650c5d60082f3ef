//! The functions of the host that are imported.

ghost use Rattle.std.specs.Prelude.{◌≡◌, ◌∷◌, ◌++◌, ◌+◌, List, [], IfOk, OnOk, if◌then◌else◌};
ghost use Rattle.ms_types.specs.declared.types.ValType.TheVariants.{I32};
ghost use Rattle.ms_machine.specs.Linked as linked;
ghost use Rattle.ms_machine.specs.Typing as typing;
ghost use Rattle.ms_machine.specs.declared.externs.Extern.{Extern as Given};

use ms_host::Host;
use ms_machine::Extern;
use ms_module::{Builder, Code, Instr};
use ms_task::{FuncInst, SharedLocals};
use ms_types::{FuncType, SharedType, ValType, Vector};
use std::alloc::{AllocError, Global};

/// Types: a number, or none.
fn types(alloc: Global, number: bool) -> Result<Vector<ValType>, AllocError>
    ensures { IfOk result (λ v. v ≡ (if number then I32 ∷ [] else [])) }
{
    let mut types = Vector::new(alloc);
    if number {
        types.push(ValType::I32)?;
    }
    Ok(types)
}

/// The type of a function of the host.
fn host_type(alloc: Global, host: Host) -> Result<FuncType, AllocError>
    ensures { IfOk result (λ t. t ≡ typing.host_type host) }
{
    let (takes, gives) = match host {
        Host::Putchar => (true, true),
        Host::Getchar => (false, true),
        Host::Abort => (false, false),
    };
    Ok(FuncType {
        params: types(alloc, takes)?,
        results: types(alloc, gives)?,
    })
}

/// The body of a function of the host that has an index: the one call of it.
fn host_body(alloc: Global, host: Host, x: u32) -> Result<Code, AllocError>
    ensures { IfOk result (λ c. c ≡ linked.host_body host x ∷ []) }
{
    let mut body = Builder::new(alloc)?;
    if matches!(host, Host::Putchar) {
        body.add(Instr::LocalGet(0))?;
    }
    body.add(Instr::Call(x))?;
    Ok(body.finish())
}

/// A function of the host, with an index of an instance.
fn host_func(alloc: Global, host: Host, instance: u32, x: u32) -> Result<FuncInst, AllocError>
    ensures { IfOk result (λ f. f ≡ linked.host_func host instance x) }
{
    Ok(FuncInst {
        instance,
        ty: SharedType::new(alloc, host_type(alloc, host)?)?,
        host: Some(host),
        locals: SharedLocals::none(),
        body: host_body(alloc, host, x)?,
    })
}

/// The number behind one.
fn next(n: u32) -> Result<u32, AllocError>
    ensures { IfOk result (λ m. m ≡ n + 1) }
{
    match n.checked_add(1) {
        Some(m) => Ok(m),
        None => Err(AllocError),
    }
}

/// Adds what is imported, if it is a function of the host, and gives the index behind it.
fn push_host(
    alloc: Global,
    funcs: &mut Vec<FuncInst>,
    instance: u32,
    x: u32,
    e: Extern,
) -> Result<u32, AllocError>
    ensures { IfOk result (λ y. (rest : List Given) → funcs.new.items ++ linked.host_funcs instance y rest ≡ funcs.old.items ++ linked.host_funcs instance x (e ∷ rest)) }
{
    match e {
        Extern::Host(host) => {
            funcs.push(host_func(alloc, host, instance, x)?)?;
            next(x)
        }
        Extern::Func(_) => next(x),
        _ => Ok(x),
    }
}

/// Adds the functions of the host among what is imported.
pub(crate) fn push_hosts(
    alloc: Global,
    funcs: &mut Vec<FuncInst>,
    instance: u32,
    externs: &[Extern],
) -> Result<(), AllocError>
    ensures { OnOk result (funcs.new.items ≡ funcs.old.items ++ linked.host_funcs instance 0 externs.now) }
{
    let mut x = 0;
    for e in externs {
        x = push_host(alloc, funcs, instance, x, *e)?;
    }
    Ok(())
}

/// Adds the address of what is imported, if it is a function, and gives the address behind those of the host.
fn push_func(all: &mut Vec<u32>, address: u32, e: Extern) -> Result<u32, AllocError>
    ensures { IfOk result (λ n. (rest : List Given) → all.new.items ++ linked.funcs_in n rest ≡ all.old.items ++ linked.funcs_in address (e ∷ rest)) }
{
    match e {
        Extern::Host(_) => {
            all.push(address)?;
            next(address)
        }
        Extern::Func(a) => {
            all.push(a)?;
            Ok(address)
        }
        _ => Ok(address),
    }
}

/// The addresses of the functions that are imported, where functions of the host get the next ones.
pub(crate) fn funcs_in(
    alloc: Global,
    address: usize,
    externs: &[Extern],
) -> Result<Vec<u32>, AllocError>
    ensures { IfOk result (λ v. v.items ≡ linked.funcs_in address externs.now) }
{
    let mut all = Vec::new(alloc);
    let Ok(mut n) = u32::try_from(address) else {
        return Err(AllocError);
    };
    for e in externs {
        n = push_func(&mut all, n, *e)?;
    }
    Ok(all)
}
