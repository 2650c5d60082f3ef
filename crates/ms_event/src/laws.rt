//! What is true of all events and traces.

ghost use Rattle.std.specs.Prelude.{◌≡◌, ◌↔◌, ℕ, List, [], ◌∷◌, ◌++◌};
ghost use Rattle.ms_event.specs.declared.event.Event.{Event};
ghost use Rattle.ms_event.specs.Monitor.{Accepts, May, after_all, nothing_yet};
ghost use Rattle.ms_event.specs.Text.{IsInRange, text};

/// No two events have one text.
pub fn one_text()
    ensures { (d e : Event) → IsInRange d → IsInRange e → text d ≡ text e → d ≡ e }
{}

/// The beginning of an accepted trace is accepted.
pub fn prefixes_are_accepted()
    ensures { (capacity : ℕ) (es fs : List Event) → Accepts capacity (es ++ fs) → Accepts capacity es }
{}

/// A trace is accepted with one event more exactly where it is accepted and that event may come next.
pub fn accepted_by_steps()
    ensures { (capacity : ℕ) (es : List Event) (e : Event) → Accepts capacity (es ++ e ∷ []) ↔ (Accepts capacity es × May capacity (after_all nothing_yet es) e) }
{}
