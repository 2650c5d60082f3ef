//! How a task stands behind a run.

ghost use Rattle.std.specs.Prelude.{◌≡◌, Some};
ghost use Rattle.ms_task.specs.refinement.View.{thread_of};
ghost use Rattle.ms_tasks.specs.States.{in_crew};
ghost use Rattle.ms_tasks.specs.refinement.Steppers.{by_stop};

use crate::ran::Stop;
use crate::whose::Whose;
use ms_host::TrapKind;
use ms_linear::Value;
use ms_machine::{Store, has_ended};
use ms_segment::SegmentMemory;
use ms_task::Task;

/// How a task stands.
#[derive(Clone, Copy, PartialEq, Eq)]
pub enum TaskState {
    /// It has more to do.
    Unended,
    /// It has ended, and left this, if anything.
    Ended(Option<Value>),
    /// A step of its own stopped the run.
    Trapped(TrapKind),
}

/// By what is left for the task to do.
pub(crate) fn by_thread<M: SegmentMemory>(store: &Store<M>, task: &Task) -> TaskState
    ensures { result ≡ in_crew (Some (thread_of store.now.funcs task.now)) }
{
    if has_ended(store, task) {
        return TaskState::Ended(task.operands.last());
    }
    TaskState::Unended
}

/// By the step that stopped the run, if one did, and how it stands else.
pub(crate) fn by_stop(n: u32, stop: Option<Stop>, state: TaskState) -> TaskState
    ensures { result ≡ by_stop n stop state }
{
    let Some(it) = stop else {
        return state;
    };
    let Whose::Task(k) = it.whose else {
        return state;
    };
    if k == n {
        return TaskState::Trapped(it.kind);
    }
    state
}
