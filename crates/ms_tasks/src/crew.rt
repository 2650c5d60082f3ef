//! Crews.

ghost use Rattle.std.specs.Prelude.{◌≡◌, ◌≢◌, ◌+◌, ◌<◌, ◌≤◌, ◌^◌, true, List, [], None, Some, IfOk, MatchResult, length, slice_get};
ghost use Rattle.ms_event.specs.declared.event.Event.{Event};
ghost use Rattle.ms_event.specs.Monitor.{Accepts};
ghost use Rattle.ms_machine.specs.refinement.Accesses.{counted_all};
ghost use Rattle.ms_machine.specs.Crews.{Input, Stuck, events_of, run_of};
ghost use Rattle.ms_machine.specs.refinement.Holding.{StoreFits};
ghost use Rattle.ms_machine.specs.Linked.{StartsTyped};
ghost use Rattle.ms_machine.specs.refinement.Safety.{Sound};
ghost use Rattle.ms_machine.specs.Typing.{StoreTyped, outline_of};
ghost use Rattle.ms_task.specs.refinement.View.{thread_of};
ghost use Rattle.ms_tasks.specs.Joined.{AreApart};
ghost use Rattle.ms_tasks.specs.States.{in_crew};
ghost use Rattle.ms_tasks.specs.refinement.Logs.{CountsUpTo};
ghost use Rattle.ms_tasks.specs.Tasks.{AreAddresses, IsCrewOf};
ghost use Rattle.ms_tasks.specs.refinement.Making.{Refuses, stop_in};
ghost use Rattle.ms_tasks.specs.refinement.Ready.{IsReady, threads_of};
ghost use Rattle.ms_tasks.specs.refinement.Runs.{CountsInput, CountsOut, DoesRun, IsOver};
ghost use Rattle.ms_tasks.specs.refinement.Schedules.{HasTurns, entries_of};
ghost use Rattle.ms_tasks.specs.refinement.Steppers.{by_stop};

use crate::all::run_all;
use crate::log::Log;
use crate::parts::apart_of;
use crate::ran::{Ran, Stop, ran_of, stop_of};
use crate::refusal::Refusal;
use crate::schedule::Schedule;
use crate::starting::{chain_of, tasks_of};
use crate::state::{TaskState, by_stop, by_thread};
use ms_linear::Room;
use ms_machine::Store;
use ms_module::Name;
use ms_outside::{Sink, Source};
use ms_segment::SegmentMemory;
use ms_task::Task;
use std::alloc::{AllocError, Global};
use std::marker::Model;

/// A store, with its start functions and its tasks. Contracts see the crew of the definition, and beside it the address of each
/// task's function, which its thread doesn't tell once it has ended, and which step stopped the last run, which no thread tells.
#[derive(Drop)]
pub struct Crew<M: SegmentMemory> {
    store: Store<M>,
    chain: Vec<Task>,
    tasks: Vec<Task>,
    /// The address of each task's function.
    addresses: Vec<u32>,
    /// The step that stopped the last run, if one did.
    trapped: Option<Stop>,
}

impl<M: SegmentMemory> Model for Crew<M> {
    ghost use Rattle.ms_tasks.specs.refinement.Making.{Addressed};
    ghost use Rattle.ms_tasks.specs.refinement.Rows.{threads_in};

    ghost Value = { Addressed };

    ghost view = { λ c. record { crew = record { store = c.store; chain = threads_in c.store c.chain.items; tasks = threads_in c.store c.tasks.items }; addresses = c.addresses.items; trapped = c.trapped } };
}

impl<M: SegmentMemory> Crew<M> {
    /// The crew of a store, with its start functions, and of tasks: each is the function that the module of a number exports by
    /// a name, which takes nothing and gives nothing or one number. It refuses the first one that there isn't. All of them share
    /// one room for their frames, operands and marks.
    pub fn new(alloc: Global, store: Store<M>, tasks: Vec<(u32, Name)>) -> Result<Self, Refusal>
        requires typed { StoreTyped (outline_of store) }
        requires fits { StoreFits store }
        requires starts { StartsTyped store }
        requires few { length tasks.items < 2 ^ 32 }
        ensures new { MatchResult result (λ c. IsCrewOf store tasks.items c.crew) (λ r. Refuses store tasks.items r) }
        ensures addresses { IfOk result (λ c. AreAddresses store tasks.items c.addresses) }
        ensures trapped { IfOk result (λ c. c.trapped ≡ None) }
        ensures ready { IfOk result (λ c. IsReady c.crew) }
        ensures sound { IfOk result (λ c. (events : List Event) → Sound events store [] → Sound events c.store (threads_of c.crew)) }
    {
        let Ok(room) = Room::new(alloc) else {
            return Err(Refusal::Memory);
        };
        let Ok(chain) = chain_of(alloc, &room, &store) else {
            return Err(Refusal::Memory);
        };
        let found = tasks_of(alloc, &room, &store, tasks.as_slice())?;
        Ok(Crew {
            store,
            chain,
            tasks: found.tasks,
            addresses: found.addresses,
            trapped: None,
        })
    }

    /// The store.
    pub fn store(&self) -> &Store<M>
        ensures { result.now ≡ self.now.store }
    {
        &self.store
    }

    /// The task of a number.
    pub fn task(&self, n: u32) -> &Task
        requires { n < length self.now.tasks }
        ensures { slice_get self.now.tasks n ≡ Some (thread_of self.now.store.funcs result.now) }
    {
        &self.tasks[n as usize]
    }

    /// The address of the function of the task of a number.
    pub fn address(&self, n: u32) -> u32
        requires { n < length self.now.addresses }
        ensures { slice_get self.now.addresses n ≡ Some result }
    {
        self.addresses[n as usize]
    }

    /// The step that stopped the last run, if one did.
    pub fn trapped(&self) -> Option<Stop>
        ensures { result ≡ self.now.trapped }
    {
        self.trapped
    }

    /// How the task of a number stands: trapped where a step of its own stopped the last run, and else as its thread does.
    pub fn state(&self, n: u32) -> TaskState
        requires { n < length self.now.tasks }
        ensures { result ≡ by_stop n self.now.trapped (in_crew (slice_get self.now.tasks n)) }
    {
        let store = self.store();
        let task = self.task(n);
        let stands = by_thread(store, task);
        by_stop(n, self.trapped(), stands)
    }

    /// For each task, by its number, whether it is apart from all others: its instance shares no function, table, linear memory or
    /// global with one in which another task runs, neither itself nor by others that stand between. Tasks of one instance are joined,
    /// and the host joins nobody.
    pub fn apart(&self, alloc: Global) -> Result<Vec<bool>, AllocError>
        requires ready { IsReady self.now.crew }
        ensures { IfOk result (λ flags. AreApart self.now.store self.now.addresses flags.items) }
    {
        apart_of(alloc, &self.store, self.addresses.as_slice())
    }

    /// Runs the start functions, and then the tasks by a schedule, for so many entries at most. Where a step stops the program, the
    /// answer says whose it was.
    ///
    /// The run is that over what the input gave: over its bytes, where it tells them. The crew keeps what the run has made of
    /// it. The input has left what the run leaves, the output has got the bytes that it puts, and the log has grown by its
    /// entries and its events. After `ReadFault`, `WriteFault` and `Memory` the input has lost only bytes that the run takes,
    /// the output has got a front of its bytes, and the log a front of its events. `ReadFault` comes only where the input's
    /// count of faults rose, `WriteFault` only where that of the output did. After any answer but `Results` and `Budget` the
    /// crew isn't to be run again.
    pub fn run<I: Source, O: Sink>(
        &mut self,
        schedule: &Schedule,
        budget: u64,
        input: &mut I,
        out: &mut O,
        log: &mut Log,
    ) -> Ran
        requires ready { IsReady self.old.crew }
        requires tasks { (0 < length self.old.tasks) × (length self.old.tasks < 2 ^ 32) }
        requires turns { HasTurns schedule.now }
        requires few { self.old.store.segments.made + budget < 2 ^ 63 }
        requires within { CountsUpTo log.old.entries log.old.trace }
        requires room { log.old.entries + budget < 2 ^ 63 }
        ensures run { (given : Input) × DoesRun result self.new.crew (I.left input.old) (I.left input.new) (O.held out.old) (O.held out.new) log.old log.new given (run_of (entries_of schedule.now (length self.old.tasks) budget) self.old.crew given) }
        ensures input_faults { CountsInput result (I.faults input.old) (I.faults input.new) }
        ensures out_faults { CountsOut result (O.faults out.old) (O.faults out.new) }
        // Functions and instances stay.
        ensures outline { IsOver result → outline_of self.new.store ≡ outline_of self.old.store }
        ensures addresses { self.new.addresses ≡ self.old.addresses }
        ensures trapped { self.new.trapped ≡ stop_in result }
        ensures ready { IsOver result → IsReady self.new.crew }
        ensures made { IsOver result → self.new.store.segments.made ≤ self.old.store.segments.made + budget }
        ensures entries { IsOver result → log.new.entries ≤ log.old.entries + budget }
        ensures within { IsOver result → CountsUpTo log.new.entries log.new.trace }
        ensures never_stuck { (given : Input) → (run_of (entries_of schedule.now (length self.old.tasks) budget) self.old.crew given).end ≢ Stuck }
        // The events of the run are a trace that the colour monitor accepts.
        ensures accepted { Sound [] self.old.store (threads_of self.old.crew) → (given : Input) → Accepts (length self.old.store.segments.bytes) (events_of (run_of (entries_of schedule.now (length self.old.tasks) budget) self.old.crew given).deeds) }
        // The segment memory that the run leaves has counted the accesses that its events are.
        ensures accesses { (given : Input) → (run_of (entries_of schedule.now (length self.old.tasks) budget) self.old.crew given).crew.store.segments.accesses ≡ counted_all (events_of (run_of (entries_of schedule.now (length self.old.tasks) budget) self.old.crew given).deeds) self.old.store.segments.accesses }
        // Those that are kept are one, whatever the answer, behind those that were kept before.
        ensures kept { log.old.trace.keep ≡ true → Sound log.old.trace.events self.old.store (threads_of self.old.crew) → Accepts (length self.old.store.segments.bytes) log.new.trace.events }
        ensures sound { IsOver result → log.old.trace.keep ≡ true → Sound log.old.trace.events self.old.store (threads_of self.old.crew) → Sound log.new.trace.events self.new.store (threads_of self.new.crew) }
    {
        let ran = ran_of(run_all(
            &mut self.store,
            self.chain.as_mut_slice(),
            self.tasks.as_mut_slice(),
            schedule,
            budget,
            input,
            out,
            log,
        ));
        self.trapped = stop_of(ran);
        ran
    }
}
