//! Whether what is found is of the kind and the type that an import asks for (WebAssembly 1.0, 3.5).

ghost use Rattle.std.specs.Prelude.{◌≡◌, ◌↔◌, IsTrue, slice_get};
ghost use Rattle.ms_linear.specs.Table.{same_sig, same_type, same_types};
ghost use Rattle.ms_machine.specs.Externs as externs;
ghost use Rattle.ms_machine.specs.Typing.{host_type};

use crate::made::Made;
use ms_host::Host;
use ms_linear::{GlobalInst, Linear, Table};
use ms_machine::{Extern, Why};
use ms_module::ImportDesc;
use ms_task::FuncInst;
use ms_types::{FuncType, GlobalType, Limits, ValType};

/// Whether the types are the same, in order.
fn are_equal(a: &[ValType], b: &[ValType]) -> bool
    ensures { IsTrue result ↔ (a.now ≡ b.now) }
{
    a == b
}

/// The same as the test of the definitions.
fn are_same(a: &[ValType], b: &[ValType]) -> bool
    ensures { result ≡ same_types a.now b.now }
{
    are_equal(a, b)
}

/// Whether the function types are the same.
fn is_same(a: &FuncType, b: &FuncType) -> bool
    ensures { result ≡ same_sig a.now b.now }
{
    are_same(a.params.as_slice(), b.params.as_slice())
        && are_same(a.results.as_slice(), b.results.as_slice())
}

/// Whether a function of the host has a type.
fn is_of_host(host: Host, wanted: &FuncType) -> bool
    ensures { result ≡ same_sig (host_type host) wanted.now }
{
    let params = wanted.params.as_slice();
    let results = wanted.results.as_slice();
    match host {
        Host::Putchar => are_same(&[ValType::I32], params) && are_same(&[ValType::I32], results),
        Host::Getchar => are_same(&[], params) && are_same(&[ValType::I32], results),
        Host::Abort => are_same(&[], params) && are_same(&[], results),
    }
}

/// Whether a function of the host has the type of an index.
fn host_is(host: Host, sigs: &[FuncType], x: u32) -> bool
    ensures { result ≡ externs.type_is (host_type host) (slice_get sigs.now x) }
{
    match sigs.get(x as usize) {
        Some(wanted) => is_of_host(host, wanted),
        None => false,
    }
}

/// Whether a function has the type of an index.
fn type_is(ty: &FuncType, sigs: &[FuncType], x: u32) -> bool
    ensures { result ≡ externs.type_is ty.now (slice_get sigs.now x) }
{
    match sigs.get(x as usize) {
        Some(wanted) => is_same(ty, wanted),
        None => false,
    }
}

/// Whether the function of an address has the type of an index.
fn func_is(funcs: &[FuncInst], a: u32, sigs: &[FuncType], x: u32) -> bool
    ensures { result ≡ externs.func_is (slice_get funcs.now a) (slice_get sigs.now x) }
{
    match funcs.get(a as usize) {
        Some(f) => type_is(f.ty.ty(), sigs, x),
        None => false,
    }
}

/// Whether a greatest size lies within a wanted one.
fn max_within(max: Option<u32>, wanted: Option<u32>) -> bool
    ensures { result ≡ externs.max_within max wanted }
{
    match (max, wanted) {
        (_, None) => true,
        (None, Some(_)) => false,
        (Some(max), Some(most)) => max <= most,
    }
}

/// Whether something of a size, which may grow so far, has wanted limits.
fn subsumes(size: u32, max: Option<u32>, wanted: Limits) -> bool
    ensures { result ≡ externs.subsumes size max wanted }
{
    wanted.min <= size && max_within(max, wanted.max)
}

/// Whether the table of an address has wanted limits.
fn table_is(tables: &[Table], a: u32, wanted: Limits) -> bool
    ensures { result ≡ externs.table_is (slice_get tables.now a) wanted }
{
    match tables.get(a as usize) {
        Some(table) => subsumes(table.len(), table.max(), wanted),
        None => false,
    }
}

/// Whether the linear memory of an address has wanted limits.
fn memory_is(memories: &[Linear], a: u32, wanted: Limits) -> bool
    ensures { result ≡ externs.memory_is (slice_get memories.now a) wanted }
{
    match memories.get(a as usize) {
        Some(memory) => subsumes(memory.len(), memory.max(), wanted),
        None => false,
    }
}

/// Whether the types of values are the same.
fn is_same_value(a: ValType, b: ValType) -> bool
    ensures { result ≡ same_type a b }
{
    match a {
        ValType::I32 => matches!(b, ValType::I32),
        ValType::I64 => matches!(b, ValType::I64),
        ValType::Handle => matches!(b, ValType::Handle),
    }
}

/// Whether the types of globals are the same.
fn is_same_global(a: GlobalType, b: GlobalType) -> bool
    ensures { result ≡ externs.same_global a b }
{
    is_same_value(a.ty, b.ty) && is_same_bool(a.mutable, b.mutable)
}

/// Whether both are true, or neither.
fn is_same_bool(a: bool, b: bool) -> bool
    ensures { result ≡ externs.same_bool a b }
{
    if a { b } else { !b }
}

/// Whether the global of an address has a type.
fn global_is(globals: &[GlobalInst], a: u32, wanted: GlobalType) -> bool
    ensures { result ≡ externs.global_is (slice_get globals.now a) wanted }
{
    match globals.get(a as usize) {
        Some(global) => is_same_global(global.ty(), wanted),
        None => false,
    }
}

/// What is given where the types are the same.
fn if_same(same: bool, given: Extern) -> Result<Extern, Why>
    ensures { result ≡ externs.if_same same given }
{
    if same { Ok(given) } else { Err(Why::Signature) }
}

impl Made {
    /// What was found, if it is of the kind and the type that are asked for.
    pub(crate) fn matched(
        &self,
        sigs: &[FuncType],
        desc: ImportDesc,
        given: Extern,
    ) -> Result<Extern, Why>
        ensures { result ≡ externs.matched self.now sigs.now desc given }
    {
        match desc {
            ImportDesc::Func(x) => match given {
                Extern::Host(h) => if_same(host_is(h, sigs, x), given),
                Extern::Func(a) => if_same(func_is(&self.funcs, a, sigs, x), given),
                _ => Err(Why::Kind),
            },
            ImportDesc::Table(l) => match given {
                Extern::Table(a) => if_same(table_is(&self.tables, a, l), given),
                _ => Err(Why::Kind),
            },
            ImportDesc::Memory(l) => match given {
                Extern::Memory(a) => if_same(memory_is(&self.memories, a, l), given),
                _ => Err(Why::Kind),
            },
            ImportDesc::Global(t) => match given {
                Extern::Global(a) => if_same(global_is(&self.globals, a, t), given),
                _ => Err(Why::Kind),
            },
        }
    }
}
