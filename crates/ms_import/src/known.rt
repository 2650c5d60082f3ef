//! Instances whose exports are looked up by name.

ghost use Rattle.std.specs.Prelude.{◌≡◌, ◌++◌, ◌∷◌, [], None, IfOk, OnOk, map};
ghost use Rattle.ms_machine.specs.Externs as externs;
ghost use Rattle.ms_module.specs.declared.module.Export.{Export as Exported};
ghost use Rattle.ms_names.specs.Numbered.{number_of};
ghost use Rattle.ms_rules.specs.Modules.{AreDistinct};

use ms_machine::{Extern, Instance};
use ms_module::{Export, ExportDesc};
use ms_names::{NameTable, Seen};
use std::alloc::{AllocError, Global};
use std::marker::Model;

/// An instance, with the names of its exports by their numbers. Contracts see the instance.
#[derive(Drop)]
pub struct Known {
    instance: Instance,
    names: NameTable,
}

impl Model for Known {
    ghost use Rattle.std.specs.Prelude.{◌≡◌, map};
    ghost use Rattle.ms_machine.specs.declared.store.Instance.{Instance};
    ghost use Rattle.ms_module.specs.declared.module.Export.{Export};

    ghost Value = { Instance };

    ghost view = { λ k. k.instance };

    ghost invariant = { λ k. k.names ≡ map (λ (e : Export). e.name) k.instance.exports };
}

impl Known {
    /// An instance, whose exports have different names.
    pub(crate) fn new(alloc: Global, instance: Instance) -> Result<Self, AllocError>
        requires { AreDistinct (map (λ (e : Exported). e.name) instance.exports) }
        ensures { IfOk result (λ k. k ≡ instance) }
    {
        let names = names_of(alloc, instance.exports.as_slice())?;
        Ok(Known { instance, names })
    }

    /// The instance.
    pub fn instance(&self) -> &Instance
        ensures { result.now ≡ self.now }
    {
        &self.instance
    }

    /// The instance itself.
    pub fn into_instance(self) -> Instance
        ensures { result ≡ self }
    {
        self.instance
    }

    /// What the instance exports by a name.
    pub(crate) fn exported(&self, name: &str) -> Option<Extern>
        ensures { result ≡ externs.exported name.now self.now }
    {
        let Some(number) = self.names.find(name) else {
            return None;
        };
        match self.instance.exports.as_slice().get(number as usize) {
            Some(export) => at_index(&self.instance, export.desc),
            None => None,
        }
    }
}

/// The names of exports by their numbers.
fn names_of(alloc: Global, exports: &[Export]) -> Result<NameTable, AllocError>
    requires { AreDistinct (map (λ (e : Exported). e.name) exports.now) }
    ensures { IfOk result (λ t. t ≡ map (λ (e : Exported). e.name) exports.now) }
{
    let mut names = NameTable::new(alloc)?;
    for export in exports {
        put_new(&mut names, export.name.as_str())?;
    }
    Ok(names)
}

/// Puts a name that is not there.
pub(crate) fn put_new(names: &mut NameTable, name: &str) -> Result<(), AllocError>
    requires { number_of names.old name.now ≡ None }
    ensures { OnOk result (names.new ≡ names.old ++ name.now ∷ []) }
{
    match names.put(name)? {
        Seen::New(_) => Ok(()),
        Seen::Old(_) => unreachable!(),
    }
}

/// What stands at an index of an instance.
fn at_index(instance: &Instance, desc: ExportDesc) -> Option<Extern>
    ensures { result ≡ externs.at_index instance.now desc }
{
    match desc {
        ExportDesc::Func(x) => match instance.funcs.as_slice().get(x as usize) {
            Some(a) => Some(Extern::Func(*a)),
            None => None,
        },
        ExportDesc::Table(_) => match instance.table {
            Some(a) => Some(Extern::Table(a)),
            None => None,
        },
        ExportDesc::Memory(_) => match instance.memory {
            Some(a) => Some(Extern::Memory(a)),
            None => None,
        },
        ExportDesc::Global(x) => match instance.globals.as_slice().get(x as usize) {
            Some(a) => Some(Extern::Global(*a)),
            None => None,
        },
    }
}
