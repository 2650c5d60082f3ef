//! Elements and data, which are written when all modules are there.

ghost use Rattle.std.specs.Prelude.{◌≡◌, ◌<◌, ◌≤◌, ◌+◌, All, OnOk, length, map, slice_get};
ghost use Rattle.std.specs.List.{AllZip};
ghost use Rattle.ms_link.specs.refinement.Fitting.{ElementFits, ElementsThere, FillFits, FillsThere, byte_count, entry_count};
ghost use Rattle.ms_machine.specs.Linked as linked;
ghost use Rattle.ms_machine.specs.Writing as writing;

use crate::constant::{constant, index_of};
use ms_import::Known;
use ms_linear::{Entry, FuncRef, GlobalInst, Linear, Table};
use ms_machine::Instance;
use ms_module::{Element, Fill};
use ms_task::FuncInst;
use ms_types::Vector;
use std::alloc::AllocError;

/// Puts functions of an instance into a table from a place on, by their indices.
fn put_entries(
    table: &mut Table,
    funcs: &[FuncInst],
    addresses: &[u32],
    at: u32,
    indices: &[u32],
) -> Result<(), AllocError>
    requires room { at + length indices.now ≤ length table.old.entries }
    requires there { All (λ f. f < length addresses.now) indices.now }
    requires funcs { All (λ a. a < length funcs.now) addresses.now }
    ensures { OnOk result (table.new ≡ writing.with_entries table.old at (map (λ f. linked.entry_in funcs.now (slice_get addresses.now f)) indices.now)) }
{
    prove!(indices.len() <= table.len() as usize);
    for (i, f) in indices.iter().enumerate() {
        let address = addresses[*f as usize];
        let sig = funcs[address as usize].ty.share()?;
        let func = FuncRef { address };
        table.set(at + i as u32, Entry { func, sig });
    }
    Ok(())
}

/// Puts elements into the table of their instance.
fn put_element(
    tables: &mut [Table],
    funcs: &[FuncInst],
    globals: &[GlobalInst],
    instance: &Instance,
    e: &Element,
) -> Result<(), AllocError>
    requires fits { ElementFits (map entry_count tables.old) (linked.values_at globals.now instance.now.globals) instance.now e.now }
    requires funcs { All (λ a. a < length funcs.now) instance.now.funcs }
    ensures { OnOk result (tables.new ≡ linked.put_element funcs.now globals.now instance.now e.now instance.now.table tables.old) }
{
    let Some(address) = instance.table else {
        return Ok(());
    };
    let at = index_of(constant(globals, instance.globals.as_slice(), &e.offset));
    let table = &mut tables[address as usize];
    put_entries(
        table,
        funcs,
        instance.funcs.as_slice(),
        at,
        e.funcs.as_slice(),
    )
}

/// Puts the elements of an instance, in order.
fn put_elements(
    tables: &mut [Table],
    funcs: &[FuncInst],
    globals: &[GlobalInst],
    instance: &Instance,
    elements: &[Element],
) -> Result<(), AllocError>
    requires fit { All (ElementFits (map entry_count tables.old) (linked.values_at globals.now instance.now.globals) instance.now) elements.now }
    requires funcs { All (λ a. a < length funcs.now) instance.now.funcs }
    ensures { OnOk result (tables.new ≡ linked.put_elements funcs.now globals.now instance.now elements.now tables.old) }
{
    for e in elements {
        put_element(tables, funcs, globals, instance, e)?;
    }
    Ok(())
}

/// Puts the elements of each instance, in order.
pub(crate) fn put_all_elements(
    tables: &mut [Table],
    funcs: &[FuncInst],
    globals: &[GlobalInst],
    instances: &[Known],
    elements: &[Vector<Element>],
) -> Result<(), AllocError>
    requires { AllZip (ElementsThere (map entry_count tables.old) (length funcs.now) globals.now) instances.now elements.now }
    ensures { OnOk result (tables.new ≡ linked.put_all_elements funcs.now globals.now instances.now elements.now tables.old) }
{
    for (k, known) in instances.iter().enumerate() {
        put_elements(
            tables,
            funcs,
            globals,
            known.instance(),
            elements[k].as_slice(),
        )?;
    }
    Ok(())
}

/// Puts data into the linear memory of its instance.
fn put_fill(memories: &mut [Linear], globals: &[GlobalInst], instance: &Instance, f: &Fill)
    requires { FillFits (map byte_count memories.old) (linked.values_at globals.now instance.now.globals) instance.now f.now }
    ensures { memories.new ≡ linked.put_fill globals.now instance.now f.now instance.now.memory memories.old }
{
    let Some(address) = instance.memory else {
        return;
    };
    let at = index_of(constant(globals, instance.globals.as_slice(), &f.offset));
    let memory = &mut memories[address as usize];
    memory.write(at as usize, f.bytes.as_slice());
}

/// Puts the data of an instance, in order.
fn put_fills(memories: &mut [Linear], globals: &[GlobalInst], instance: &Instance, fills: &[Fill])
    requires { All (FillFits (map byte_count memories.old) (linked.values_at globals.now instance.now.globals) instance.now) fills.now }
    ensures { memories.new ≡ linked.put_fills globals.now instance.now fills.now memories.old }
{
    for f in fills {
        put_fill(memories, globals, instance, f);
    }
}

/// Puts the data of each instance, in order.
pub(crate) fn put_all_fills(
    memories: &mut [Linear],
    globals: &[GlobalInst],
    instances: &[Known],
    fills: &[Vector<Fill>],
)
    requires { AllZip (FillsThere (map byte_count memories.old) globals.now) instances.now fills.now }
    ensures { memories.new ≡ linked.put_all_fills globals.now instances.now fills.now memories.old }
{
    for (k, known) in instances.iter().enumerate() {
        put_fills(memories, globals, known.instance(), fills[k].as_slice());
    }
}
