//! Where an import is looked for.

ghost use Rattle.std.specs.Prelude.{◌≡◌, slice_get};
ghost use Rattle.ms_machine.specs.Externs as externs;

use crate::known::Known;
use crate::made::Made;
use ms_host::Host;
use ms_machine::{Extern, Why};
use ms_module::{Import, ImportDesc};
use ms_task::FuncInst;
use ms_types::FuncType;

/// The function of the host of a name.
fn host_named(name: &str) -> Option<Extern>
    ensures { result ≡ externs.host_named name.now }
{
    if name == "putchar" {
        return Some(Extern::Host(Host::Putchar));
    }
    if name == "getchar" {
        return Some(Extern::Host(Host::Getchar));
    }
    if name == "abort" {
        return Some(Extern::Host(Host::Abort));
    }
    None
}

/// What was found, or why it was not.
fn found_or(why: Why, found: Option<Extern>) -> Result<Extern, Why>
    ensures { result ≡ externs.found_or why found }
{
    match found {
        Some(e) => Ok(e),
        None => Err(why),
    }
}

/// A function that is exported later, or this one.
fn or_later(later: Option<Extern>, this: Option<Extern>) -> Option<Extern>
    ensures { result ≡ externs.or_this (externs.if_func later) this }
{
    match later {
        Some(Extern::Func(a)) => Some(Extern::Func(a)),
        _ => this,
    }
}

/// The function that the latest instance exports by a name.
fn latest_func(name: &str, instances: &[Known]) -> Option<Extern>
    ensures { result ≡ externs.latest_func name.now instances.now }
{
    let mut latest = None;
    for instance in instances {
        latest = or_later(instance.exported(name), latest);
    }
    latest
}

/// What `c` has by a name: functions alone.
fn in_c(desc: ImportDesc, name: &str, instances: &[Known]) -> Result<Extern, Why>
    ensures { result ≡ externs.in_c desc name.now instances.now }
{
    match desc {
        ImportDesc::Func(_) => found_or(Why::NoExport, latest_func(name, instances)),
        _ => Err(Why::NoExport),
    }
}

/// A function of the host that an instance exports again is the host's.
fn of_host(funcs: &[FuncInst], e: Extern) -> Extern
    ensures { result ≡ externs.of_host funcs.now e }
{
    let Extern::Func(a) = e else {
        return e;
    };
    match funcs.get(a as usize) {
        Some(f) => host_or(a, f.host),
        None => e,
    }
}

/// A function of the host, or that of an address.
fn host_or(a: u32, host: Option<Host>) -> Extern
    ensures { result ≡ externs.host_or a host }
{
    match host {
        Some(h) => Extern::Host(h),
        None => Extern::Func(a),
    }
}

impl Made {
    /// What a module before exports by a name.
    fn in_module(&self, module: &str, name: &str) -> Result<Extern, Why>
        ensures { result ≡ externs.in_module name.now (externs.instance_named self.now «module».now) }
    {
        let Some(number) = self.names.find(module) else {
            return Err(Why::NoModule);
        };
        match self.instances.get(number as usize) {
            Some(instance) => found_or(Why::NoExport, instance.exported(name)),
            None => Err(Why::NoModule),
        }
    }

    /// What an import finds.
    fn found(&self, import: &Import) -> Result<Extern, Why>
        ensures { result ≡ externs.found self.now import.now }
    {
        let module = import.module.as_str();
        let name = import.name.as_str();
        if module == "env" {
            return found_or(Why::NoExport, host_named(name));
        }
        if module == "c" {
            return in_c(import.desc, name, self.instances.as_slice());
        }
        self.in_module(module, name)
    }

    /// What an import of a module with these types is given, or why it is given nothing.
    ///
    /// It is looked for in the host (`env`), in the latest module that exports its name as a function (`c`), or in the module of that
    /// name, and has to be of the kind and the type that the import asks for (WebAssembly 1.0, 3.5).
    pub fn resolved(&self, sigs: &[FuncType], import: &Import) -> Result<Extern, Why>
        ensures { result ≡ externs.resolved self.now sigs.now import.now }
    {
        match self.found(import) {
            Ok(e) => self.matched(sigs, import.desc, of_host(self.funcs.as_slice(), e)),
            Err(why) => Err(why),
        }
    }
}
