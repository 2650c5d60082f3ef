//! How much a set of instances reaches.

ghost use Rattle.std.specs.Prelude.{◌≡◌, IfOk, OnOk};
ghost use Rattle.ms_machine.specs.refinement.Holding.{StoreFits, ThreadFits};
ghost use Rattle.ms_task.specs.refinement.View.{thread_of};
ghost use Rattle.ms_reach.specs.Count.{HasByte, IsCount, is_among, lent};
ghost use Rattle.ms_reach.specs.Reach.{IsReached};
ghost use Rattle.ms_reach.specs.refinement.Reaching.{IsNew, MarksReached};

use crate::amount::Reach;
use crate::closing::Closing;
use crate::leading::{end_of, live_segments};
use crate::own::{add_instances, add_own};
use ms_live::{Gaps, Live};
use ms_machine::{Store, Task};
use ms_segment::Segments;
use ms_tagged::Tagged;
use std::alloc::{AllocError, Global};

/// How much of the segment memory the instances of these numbers reach, and the task with them: the least set of bytes that their
/// globals and its values lead to, and that pieces of handles in it lead to. A task that has ended has no values.
///
/// Each byte of a live segment is looked at once at most. It takes memory by what is live and what is reached of it, wherever that
/// lies. Want of memory is the one error.
pub fn reach<G: Gaps, T: Tagged>(
    alloc: Global,
    store: &Store<Segments<G, T>>,
    task: &Task,
    set: &[u32],
) -> Result<Reach, AllocError>
    requires store_fits { StoreFits store.now }
    requires task_fits { ThreadFits store.now (thread_of store.now.funcs task.now) }
    ensures bytes { IfOk result (λ r. IsCount (IsReached (is_among set.now) store.now (lent (thread_of store.now.funcs task.now))) r.bytes) }
    ensures segments { IfOk result (λ r. IsCount (HasByte (IsReached (is_among set.now) store.now (lent (thread_of store.now.funcs task.now))) store.now.segments) r.segments) }
{
    let live = live_segments(alloc, store.segments())?;
    reach_among(alloc, &live, store, task, set)
}

/// The same, with the live segments in the order of their identities.
fn reach_among<G: Gaps, T: Tagged>(
    alloc: Global,
    live: &[Live],
    store: &Store<Segments<G, T>>,
    task: &Task,
    set: &[u32],
) -> Result<Reach, AllocError>
    requires live { live.now ≡ store.now.segments.live }
    requires store_fits { StoreFits store.now }
    requires task_fits { ThreadFits store.now (thread_of store.now.funcs task.now) }
    ensures bytes { IfOk result (λ r. IsCount (IsReached (is_among set.now) store.now (lent (thread_of store.now.funcs task.now))) r.bytes) }
    ensures segments { IfOk result (λ r. IsCount (HasByte (IsReached (is_among set.now) store.now (lent (thread_of store.now.funcs task.now))) store.now.segments) r.segments) }
{
    let mut closing = Closing::new(alloc, end_of(live));
    mark_reached(&mut closing, live, store, task, set)?;
    Ok(Reach {
        segments: closing.touched(live),
        bytes: closing.count(),
    })
}

/// Marks all bytes that are reached.
fn mark_reached<G: Gaps, T: Tagged>(
    closing: &mut Closing,
    live: &[Live],
    store: &Store<Segments<G, T>>,
    task: &Task,
    set: &[u32],
) -> Result<(), AllocError>
    requires live { live.now ≡ store.now.segments.live }
    requires new { IsNew store.now.segments closing.old }
    requires store_fits { StoreFits store.now }
    requires task_fits { ThreadFits store.now (thread_of store.now.funcs task.now) }
    ensures { OnOk result (MarksReached (is_among set.now) store.now (lent (thread_of store.now.funcs task.now)) closing.new.marks) }
{
    add_own(closing, live, store, task, set)?;
    add_instances(closing, live, store, set)?;
    closing.close(store.segments(), live)?;
    Ok(())
}
