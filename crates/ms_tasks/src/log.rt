//! What a run tells as it goes.

ghost use Rattle.std.specs.Prelude.{◌≡◌, ◌≢◌, ◌+◌, ◌-◌, ◌<◌, ◌≤◌, ◌^◌, [], OnErr, OnOk};
ghost use Rattle.ms_event.specs.refinement.Tally.{LeavesRoom, nothing};
ghost use Rattle.ms_handle.specs.declared.handle.Handle.{Handle};
ghost use Rattle.ms_segment.specs.Memory.{IsFit};
ghost use Rattle.ms_machine.specs.Running.{with_event};
ghost use Rattle.ms_machine.specs.Typing.{StoreTyped, TaskTyped, outline_of};
ghost use Rattle.ms_machine.specs.refinement.Holding.{StoreFits, ThreadFits};
ghost use Rattle.ms_machine.specs.refinement.StraightLine.{IsCalm};
ghost use Rattle.ms_task.specs.refinement.View.{thread_of};
ghost use Rattle.ms_tasks.specs.refinement.Logs.{CountsUpTo, HaltsSeen, all_seen, seen};

use ms_event::{Event, Tally};
use ms_machine::{Store, Stretch, run_quietly};
use ms_segment::SegmentMemory;
use ms_task::Task;
use std::alloc::{AllocError, Global};
use std::marker::Model;

/// How many entries of a schedule were used, how many events of each kind there were, and the events, where they are kept.
#[derive(Drop)]
pub struct Log {
    keep: bool,
    entries: u64,
    tally: Tally,
    events: Vec<Event>,
}

impl Model for Log {
    ghost use Rattle.ms_tasks.specs.refinement.Logs.{Log as L};

    ghost Value = { L };

    ghost view = { λ l. record { entries = l.entries; trace = record { keep = l.keep; tally = l.tally; events = l.events.items } } };
}

impl Log {
    /// A log without entries and events.
    pub fn new(alloc: Global, keep: bool) -> Log
        ensures { result ≡ record { entries = 0; trace = record { keep = keep; tally = nothing; events = [] } } }
    {
        Log {
            keep,
            entries: 0,
            tally: Tally::new(),
            events: Vec::new(alloc),
        }
    }

    /// How many entries of schedules were used.
    pub fn entries(&self) -> u64
        ensures { result ≡ self.now.entries }
    {
        self.entries
    }

    /// How many segments were made.
    pub fn allocs(&self) -> u64
        ensures { result ≡ self.now.trace.tally.allocs }
    {
        self.tally.allocs
    }

    /// How many were refused.
    pub fn refused(&self) -> u64
        ensures { result ≡ self.now.trace.tally.refused }
    {
        self.tally.refused
    }

    /// How many handles were sealed that weren't before.
    pub fn seals(&self) -> u64
        ensures { result ≡ self.now.trace.tally.seals }
    {
        self.tally.seals
    }

    /// How many handles were made of others.
    pub fn slices(&self) -> u64
        ensures { result ≡ self.now.trace.tally.slices }
    {
        self.tally.slices
    }

    /// How many reads there were.
    pub fn reads(&self) -> u64
        ensures { result ≡ self.now.trace.tally.reads }
    {
        self.tally.reads
    }

    /// How many writes there were.
    pub fn writes(&self) -> u64
        ensures { result ≡ self.now.trace.tally.writes }
    {
        self.tally.writes
    }

    /// How many segments were freed.
    pub fn frees(&self) -> u64
        ensures { result ≡ self.now.trace.tally.frees }
    {
        self.tally.frees
    }

    /// The events, in order, where they are kept.
    pub fn events(&self) -> &[Event]
        ensures { result.now ≡ self.now.trace.events }
    {
        &self.events
    }

    /// One more event.
    #[inline(always)]
    #[tactic(auto, using(crate::proofs::Deeds::room_for))]
    fn see_event(&mut self, event: Event) -> Result<(), AllocError>
        requires { CountsUpTo (2 ^ 63) self.old.trace }
        ensures entries { self.new.entries ≡ self.old.entries }
        ensures trace { OnOk result (self.new.trace ≡ seen event self.old.trace) }
        ensures lost { OnErr result (self.new.trace.events ≡ self.old.trace.events) }
    {
        self.tally.count(event);
        if self.keep {
            self.events.push(event)?;
        }
        Ok(())
    }

    /// What a step told.
    #[inline(always)]
    pub(crate) fn see(&mut self, event: Option<Event>) -> Result<(), AllocError>
        requires { CountsUpTo (2 ^ 63) self.old.trace }
        ensures entries { self.new.entries ≡ self.old.entries }
        ensures trace { OnOk result (self.new.trace ≡ all_seen (with_event event []) self.old.trace) }
        ensures lost { OnErr result (self.new.trace.events ≡ self.old.trace.events) }
    {
        match event {
            None => Ok(()),
            Some(event) => self.see_event(event),
        }
    }

    /// So many more entries.
    pub(crate) fn count(&mut self, entries: u64)
        requires { self.old.entries + entries < 2 ^ 64 }
        ensures { self.new ≡ record { entries = self.old.entries + entries; trace = self.old.trace } }
    {
        self.entries += entries;
    }
    /// Makes the next steps of a task, at most so many, as long as the outside sees nothing of them, no call goes through a table,
    /// and nothing is to be kept of what they tell. It gives how many are left.
    #[inline(always)]
    #[tactic(auto, using(crate::proofs::Deeds::halted_seen))]
    pub(crate) fn run_quietly<M: SegmentMemory>(
        &mut self,
        store: &mut Store<M>,
        task: &mut Task,
        most: u64,
    ) -> (Stretch, u64)
        requires store { StoreTyped (outline_of store.old) }
        requires task { TaskTyped (outline_of store.old) (thread_of store.old.funcs task.old) }
        requires going { (thread_of store.old.funcs task.old).work ≢ [] }
        requires few { store.old.segments.made + most < 2 ^ 63 }
        requires store_fits { StoreFits store.old }
        requires task_fits { ThreadFits store.old (thread_of store.old.funcs task.old) }
        requires room { LeavesRoom most self.old.trace.tally }
        ensures left { result.1 ≤ most }
        ensures steps { HaltsSeen result.0 store.old (thread_of store.old.funcs task.old) self.old.trace (most - result.1) store.new (thread_of store.new.funcs task.new) self.new.trace }
        ensures entries { self.new.entries ≡ self.old.entries }
        ensures outline { IsCalm result.0 → outline_of store.new ≡ outline_of store.old }
        ensures task { IsCalm result.0 → TaskTyped (outline_of store.new) (thread_of store.new.funcs task.new) }
        ensures store_fits { IsCalm result.0 → StoreFits store.new }
        ensures task_fits { IsCalm result.0 → ThreadFits store.new (thread_of store.new.funcs task.new) }
        ensures others { IsCalm result.0 → (h : Handle) → IsFit store.old.segments h → IsFit store.new.segments h }
        ensures made { IsCalm result.0 → store.new.segments.made ≤ store.old.segments.made + (most - result.1) }
    {
        run_quietly(store, task, most, self.keep, &mut self.tally)
    }
}
