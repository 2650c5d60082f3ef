//! The store of what the modules have made.

ghost use Rattle.std.specs.Prelude.{◌≡◌, IfOk};
ghost use Rattle.ms_link.specs.refinement.Fitting.{MadeTyped};
ghost use Rattle.ms_machine.specs.Linked as linked;

use crate::putting::{put_all_elements, put_all_fills};
use ms_import::{Known, Made};
use ms_live::Gaps;
use ms_machine::{Instance, Store};
use ms_segment::Segments;
use ms_tagged::Tagged;
use std::alloc::{AllocError, Global};
use std::mem;

/// The store, with an empty segment memory of so many bytes.
pub(crate) fn store_of<G: Gaps, T: Tagged>(
    alloc: Global,
    made: Made,
    capacity: u32,
) -> Result<Store<Segments<G, T>>, AllocError>
    requires { MadeTyped made }
    ensures { IfOk result (λ s. s ≡ linked.store_of capacity made) }
{
    let mut made = made;
    put_all_elements(
        made.tables.as_mut_slice(),
        made.funcs.as_slice(),
        made.globals.as_slice(),
        made.instances.as_slice(),
        made.elements.as_slice(),
    )?;
    put_all_fills(
        made.memories.as_mut_slice(),
        made.globals.as_slice(),
        made.instances.as_slice(),
        made.fills.as_slice(),
    );
    let known = mem::replace(&mut made.instances, Vec::new(alloc));
    let instances = instances_of(alloc, known)?;
    let segments = Segments::new(alloc, capacity)?;
    let Made {
        names: _,
        funcs,
        instances: _,
        tables,
        memories,
        globals,
        elements: _,
        fills: _,
    } = made;
    Ok(Store::of(funcs, instances, tables, memories, globals, segments))
}

/// The instances themselves.
fn instances_of(alloc: Global, known: Vec<Known>) -> Result<Vec<Instance>, AllocError>
    ensures { IfOk result (λ v. v.items ≡ known.items) }
{
    let mut instances = Vec::with_capacity(alloc, known.len())?;
    for k in known {
        instances.push(k.into_instance())?;
    }
    Ok(instances)
}
