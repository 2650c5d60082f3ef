//! The start functions and the tasks of a new crew.

ghost use Rattle.std.specs.Prelude.{◌≡◌, ◌<◌, ◌^◌, ℕ, Some, Ok, IfOk, MatchResult, length, map, slice_get};
ghost use Rattle.ms_machine.specs.Linked.{StartTyped, StartsTyped, start_chain, start_of};
ghost use Rattle.ms_machine.specs.Running.{func_thread};
ghost use Rattle.ms_machine.specs.Typing.{StoreTyped, outline_of};
ghost use Rattle.ms_machine.specs.declared.store.Instance.{Instance as InstanceView};
ghost use Rattle.ms_tasks.specs.Tasks.{AreAddresses, threads_from};
ghost use Rattle.ms_tasks.specs.refinement.Making.{IsStartOf, Refuses};
ghost use Rattle.ms_tasks.specs.refinement.Rows.{threads_in};

use crate::finding::task_address;
use crate::refusal::Refusal;
use ms_linear::Room;
use ms_machine::{Instance, Store, start};
use ms_module::Name;
use ms_segment::SegmentMemory;
use ms_task::Task;
use std::alloc::{AllocError, Global};

/// The start function of an instance, if it has one.
fn start_of<M: SegmentMemory>(
    alloc: Global,
    room: &Room,
    store: &Store<M>,
    instance: &Instance,
) -> Result<Option<Task>, AllocError>
    requires store { StoreTyped (outline_of store.now) }
    requires start { StartTyped store.now.funcs instance.now instance.now.start }
    ensures { IfOk result (IsStartOf store.now (start_of instance.now)) }
{
    let Some(x) = instance.start else {
        return Ok(None);
    };
    let address = instance.funcs.as_slice()[x as usize];
    Ok(Some(start(alloc, room, store, address)?))
}

/// The start functions of these instances, in order.
fn starts_of<M: SegmentMemory>(
    alloc: Global,
    room: &Room,
    store: &Store<M>,
    instances: &[Instance],
) -> Result<Vec<Task>, AllocError>
    requires store { StoreTyped (outline_of store.now) }
    requires starts { (number : ℕ) (i : InstanceView) → slice_get instances.now number ≡ Some i → StartTyped store.now.funcs i i.start }
    ensures { IfOk result (λ ts. threads_in store.now ts.items ≡ map (func_thread store.now) (start_chain instances.now)) }
{
    let mut chain = Vec::new(alloc);
    for instance in instances {
        let Some(task) = start_of(alloc, room, store, instance)? else {
            continue;
        };
        chain.push(task)?;
    }
    Ok(chain)
}

/// The start functions, in the order of the modules.
pub(crate) fn chain_of<M: SegmentMemory>(
    alloc: Global,
    room: &Room,
    store: &Store<M>,
) -> Result<Vec<Task>, AllocError>
    requires store { StoreTyped (outline_of store.now) }
    requires starts { StartsTyped store.now }
    ensures { IfOk result (λ ts. threads_in store.now ts.items ≡ map (func_thread store.now) (start_chain store.now.instances)) }
{
    starts_of(alloc, room, store, store.instances())
}

/// Tasks, and the addresses of their functions.
#[derive(Drop)]
pub(crate) struct Found {
    pub(crate) tasks: Vec<Task>,
    pub(crate) addresses: Vec<u32>,
}

/// The tasks of these functions, or the first that has none.
pub(crate) fn tasks_of<M: SegmentMemory>(
    alloc: Global,
    room: &Room,
    store: &Store<M>,
    tasks: &[(u32, Name)],
) -> Result<Found, Refusal>
    requires store { StoreTyped (outline_of store.now) }
    requires few { length tasks.now < 2 ^ 32 }
    ensures tasks { MatchResult result (λ f. threads_from store.now tasks.now 0 ≡ Ok (threads_in store.now f.tasks.items)) (λ r. Refuses store.now tasks.now r) }
    ensures addresses { IfOk result (λ f. AreAddresses store.now tasks.now f.addresses.items) }
{
    let mut all = Vec::new(alloc);
    let mut addresses = Vec::new(alloc);
    let mut number = 0;
    for named in tasks {
        let Some(address) = task_address(store, named.0, named.1.as_str()) else {
            return Err(Refusal::Task(number));
        };
        let Ok(task) = start(alloc, room, store, address) else {
            return Err(Refusal::Memory);
        };
        let Ok(()) = all.push(task) else {
            return Err(Refusal::Memory);
        };
        let Ok(()) = addresses.push(address) else {
            return Err(Refusal::Memory);
        };
        number += 1;
    }
    Ok(Found {
        tasks: all,
        addresses,
    })
}
