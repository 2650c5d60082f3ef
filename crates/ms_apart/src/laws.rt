//! What is true of runs of a crew in which nothing joins one task with the others.

ghost use Rattle.std.specs.Prelude.{◌≡◌, ◌<◌, ◌≤◌, ℕ, List, Ok, length};
ghost use Rattle.ms_apart.specs.Runs.{IsQuiet, OwnAlike};
ghost use Rattle.ms_tasks.specs.Alone.{alone};
ghost use Rattle.ms_machine.specs.Crews.{Crew, Input, run_of};
ghost use Rattle.ms_machine.specs.Linked.{StartsTyped, linked};
ghost use Rattle.ms_machine.specs.Store.{Store};
ghost use Rattle.ms_module.specs.declared.module.Module.{Module};
ghost use Rattle.ms_tasks.specs.Joined.{IsApart};
ghost use Rattle.ms_tasks.specs.Tasks.{AreAddresses, IsCrewOf};
ghost use Rattle.ms_tasks.specs.refinement.Ready.{IsReady};

/// Of the crew of linked modules a task that nothing joins with the others puts in a run what it puts in the run alone, where no
/// other task gets an entry, its events are the same, each identity as a rank and each address as a place, and it stands behind
/// the run as there. Where another task traps, bytes and events are a front of those. It is asked of what each of the two runs records
/// that none but the task and the start functions took input, be it a byte or the end, and that the task was refused no segment.
pub fn tasks_are_apart()
    ensures { (modules : List (List ℕ × Module)) (capacity : ℕ) (s : Store) (tasks : List (ℕ × List ℕ)) (addresses : List ℕ) (c : Crew) (n absent : ℕ) (entries : List ℕ) (input : Input) → linked modules capacity ≡ Ok s → StartsTyped s → IsCrewOf s tasks c → AreAddresses s tasks addresses → IsReady c → IsApart s addresses n → n < length c.tasks → length c.tasks ≤ absent → IsQuiet n (run_of entries c input).deeds → IsQuiet n (run_of (alone n absent entries) c input).deeds → OwnAlike n (run_of entries c input) (run_of (alone n absent entries) c input) }
{}
