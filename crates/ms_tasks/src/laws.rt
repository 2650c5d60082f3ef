//! What is true of all runs of crews.

ghost use Rattle.std.specs.Prelude.{◌≡◌, ◌≢◌, ℕ, List, [], ◌++◌, length};
ghost use Rattle.ms_event.specs.declared.event.Event.{Event};
ghost use Rattle.ms_event.specs.Monitor.{Accepts};
ghost use Rattle.ms_machine.specs.refinement.Accesses.{counted_all};
ghost use Rattle.ms_machine.specs.Crews.{Crew, Input, Stuck, events_of, run_of};
ghost use Rattle.ms_machine.specs.refinement.Safety.{Sound};
ghost use Rattle.ms_tasks.specs.refinement.Ready.{IsReady, threads_of};

/// A run of a crew is never stuck, stays ready, and keeps what ties each handle to the colour monitor: whatever its entries
/// and its input. The segment memory has counted the accesses that its events are, and no others.
pub fn runs_are_safe()
    ensures never_stuck { (entries : List ℕ) (c : Crew) (input : Input) → IsReady c → (run_of entries c input).end ≢ Stuck }
    ensures ready { (entries : List ℕ) (c : Crew) (input : Input) → IsReady c → IsReady (run_of entries c input).crew }
    ensures sound { (entries : List ℕ) (c : Crew) (input : Input) (events : List Event) → IsReady c → Sound events c.store (threads_of c) → Sound (events ++ events_of (run_of entries c input).deeds) (run_of entries c input).crew.store (threads_of (run_of entries c input).crew) }
    ensures accepted { (entries : List ℕ) (c : Crew) (input : Input) → IsReady c → Sound [] c.store (threads_of c) → Accepts (length c.store.segments.bytes) (events_of (run_of entries c input).deeds) }
    ensures accesses { (entries : List ℕ) (c : Crew) (input : Input) → (run_of entries c input).crew.store.segments.accesses ≡ counted_all (events_of (run_of entries c input).deeds) c.store.segments.accesses }
{}
