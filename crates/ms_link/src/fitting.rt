//! Whether a module fits the limits of a store, and its elements and data the tables and memories that they go to.

ghost use Rattle.std.specs.Prelude.{◌≡◌, ◌≤◌, ◌+◌, ◌*◌, ◌↔◌, IsTrue, length};
ghost use Rattle.ms_link.specs.refinement.Answers.{Tests};
ghost use Rattle.ms_types.specs.Page.{page};
ghost use Rattle.ms_machine.specs.Linked as linked;
ghost use Rattle.ms_machine.specs.Store.{at};

use crate::constant::{constant, index_of};
use crate::fault::{LinkFault, refused};
use ms_linear::{GlobalInst, Linear, MOST_ENTRIES, MOST_PAGES, Table};
use ms_machine::{Instance, Why};
use ms_module::{Element, Fill};
use ms_types::{Limits, PAGE};

/// Whether all of these have a size at the beginning of at most so much.
fn test_sizes(number: usize, item: usize, most: u32, limits: &[Limits]) -> Result<(), LinkFault>
    ensures { Tests (linked.sizes_fit number item most limits.now) result }
{
    for l in limits {
        if l.min > most {
            return Err(refused(number, item, Why::TooLarge));
        }
    }
    Ok(())
}

/// Whether the tables and the memories of a module aren't too large.
pub(crate) fn test_small(
    number: usize,
    tables: &[Limits],
    memories: &[Limits],
) -> Result<(), LinkFault>
    ensures { Tests (linked.too_large number tables.now memories.now) result }
{
    test_sizes(number, 0, MOST_ENTRIES, tables)?;
    test_sizes(number, 1, MOST_PAGES, memories)
}

/// Whether so many things from a place on end before the end.
fn reaches(at: u32, count: usize, end: usize) -> bool
    ensures { IsTrue result ↔ (at + count ≤ end) }
{
    let at = at as usize;
    at <= end && count <= end - at
}

/// How many entries the table of an instance has.
fn entries_of(tables: &[Table], address: Option<u32>) -> usize
    ensures { result ≡ linked.entries_of (at tables.now address) }
{
    let Some(a) = address else {
        return 0;
    };
    match tables.get(a as usize) {
        Some(table) => table.len() as usize,
        None => 0,
    }
}

/// How many bytes the linear memory of an instance has.
fn bytes_of(memories: &[Linear], address: Option<u32>) -> usize
    ensures { result ≡ linked.bytes_of (at memories.now address) }
{
    let Some(a) = address else {
        return 0;
    };
    match memories.get(a as usize) {
        Some(memory) => memory.len() as usize * PAGE,
        None => 0,
    }
}

/// Whether elements lie within a table of so many entries.
fn test_elements(
    number: usize,
    globals: &[GlobalInst],
    addresses: &[u32],
    size: usize,
    elements: &[Element],
) -> Result<(), LinkFault>
    ensures { Tests (linked.elements_fit number (linked.values_at globals.now addresses.now) size 0 elements.now) result }
{
    for (item, e) in elements.iter().enumerate() {
        let at = index_of(constant(globals, addresses, &e.offset));
        if !reaches(at, e.funcs.len(), size) {
            return Err(refused(number, item, Why::Fit));
        }
    }
    Ok(())
}

/// Whether data lies within a memory of so many bytes. It is numbered from an item on.
fn test_fills(
    number: usize,
    globals: &[GlobalInst],
    addresses: &[u32],
    size: usize,
    first: usize,
    fills: &[Fill],
) -> Result<(), LinkFault>
    ensures { Tests (linked.fills_fit number (linked.values_at globals.now addresses.now) size first fills.now) result }
{
    for (i, f) in fills.iter().enumerate() {
        let at = index_of(constant(globals, addresses, &f.offset));
        if !reaches(at, f.bytes.len(), size) {
            let Some(item) = first.checked_add(i) else {
                return Err(LinkFault::Memory);
            };
            return Err(refused(number, item, Why::Fit));
        }
    }
    Ok(())
}

/// Whether the elements and the data of an instance lie within its table and its memory.
pub(crate) fn test_fit(
    number: usize,
    globals: &[GlobalInst],
    tables: &[Table],
    memories: &[Linear],
    instance: &Instance,
    elements: &[Element],
    fills: &[Fill],
) -> Result<(), LinkFault>
    ensures { Tests (linked.outside number globals.now tables.now memories.now instance.now elements.now fills.now) result }
{
    let addresses = instance.globals.as_slice();
    let entries = entries_of(tables, instance.table);
    test_elements(number, globals, addresses, entries, elements)?;
    let bytes = bytes_of(memories, instance.memory);
    test_fills(number, globals, addresses, bytes, elements.len(), fills)
}
