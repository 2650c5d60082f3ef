//! What the modules that were linked so far have made.

ghost use Rattle.std.specs.Prelude.{◌≡◌, ◌++◌, ◌∷◌, [], None, IfOk, OnOk, map};
ghost use Rattle.ms_import.specs.refinement.Adding.{Adds};
ghost use Rattle.ms_machine.specs.Linked.{nothing_made};
ghost use Rattle.ms_module.specs.declared.module.Export.{Export as Exported};
ghost use Rattle.ms_names.specs.Numbered.{number_of};
ghost use Rattle.ms_rules.specs.Modules.{AreDistinct};

use crate::known::{Known, put_new};
use ms_linear::{GlobalInst, Linear, Table};
use ms_machine::Instance;
use ms_module::{Element, Fill};
use ms_names::NameTable;
use ms_task::FuncInst;
use ms_types::Vector;
use std::alloc::{AllocError, Global};
use std::marker::Model;

/// What the modules that were linked so far have made. Contracts see it as the record of the same name.
#[derive(Drop)]
pub struct Made {
    /// The names of the modules, by their numbers.
    pub names: NameTable,
    /// The functions, by their addresses.
    pub funcs: Vec<FuncInst>,
    /// The instances, by the numbers of the modules.
    pub instances: Vec<Known>,
    /// The tables, by their addresses.
    pub tables: Vec<Table>,
    /// The linear memories, by their addresses.
    pub memories: Vec<Linear>,
    /// The globals, by their addresses.
    pub globals: Vec<GlobalInst>,
    /// The elements of each module, which are not written yet.
    pub elements: Vec<Vector<Element>>,
    /// The data of each module, which is not written yet.
    pub fills: Vec<Vector<Fill>>,
}

impl Model for Made {
    ghost use Rattle.ms_machine.specs.Externs as externs;

    ghost Value = { externs.Made };

    ghost view = { λ m. record { names = m.names; funcs = m.funcs.items; instances = m.instances.items; tables = m.tables.items; memories = m.memories.items; globals = m.globals.items; elements = m.elements.items; fills = m.fills.items } };
}

impl Made {
    /// No modules.
    pub fn new(alloc: Global) -> Result<Self, AllocError>
        ensures { IfOk result (λ m. m ≡ nothing_made) }
    {
        Ok(Made {
            names: NameTable::new(alloc)?,
            funcs: Vec::new(alloc),
            instances: Vec::new(alloc),
            tables: Vec::new(alloc),
            memories: Vec::new(alloc),
            globals: Vec::new(alloc),
            elements: Vec::new(alloc),
            fills: Vec::new(alloc),
        })
    }

    /// The same with one instance more, of a module with a new name: it stands behind the others, and so do its elements and its
    /// data.
    pub fn with_instance(
        self,
        alloc: Global,
        name: &str,
        instance: Instance,
        own_elements: Vector<Element>,
        own_fills: Vector<Fill>,
    ) -> Result<Self, AllocError>
        requires new { number_of self.names name.now ≡ None }
        requires distinct { AreDistinct (map (λ (e : Exported). e.name) instance.exports) }
        ensures { IfOk result (Adds self instance own_elements own_fills name.now) }
    {
        let mut made = self;
        made.add_instance(alloc, name, instance, own_elements, own_fills)?;
        Ok(made)
    }

    /// Adds the same.
    fn add_instance(
        &mut self,
        alloc: Global,
        name: &str,
        instance: Instance,
        own_elements: Vector<Element>,
        own_fills: Vector<Fill>,
    ) -> Result<(), AllocError>
        requires new { number_of self.old.names name.now ≡ None }
        requires distinct { AreDistinct (map (λ (e : Exported). e.name) instance.exports) }
        ensures { OnOk result (Adds self.old instance own_elements own_fills name.now self.new) }
    {
        put_new(&mut self.names, name)?;
        push(&mut self.instances, Known::new(alloc, instance)?)?;
        push(&mut self.elements, own_elements)?;
        push(&mut self.fills, own_fills)
    }
}

/// Adds an item at the end.
fn push<T: Drop>(all: &mut Vec<T>, item: T) -> Result<(), AllocError>
    ensures { OnOk result (all.new.items ≡ all.old.items ++ item ∷ []) }
{
    all.push(item)?;
    Ok(())
}
