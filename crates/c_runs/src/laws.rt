//! What is true of the steps of one thread, and of the run of a unit of C that was compiled.

ghost use Rattle.std.specs.Prelude.{◌≡◌, ◌≤◌, ℕ, List, [], ◌∷◌, None, Ok, Some, codes, replicate, slice_get, true};
ghost use Rattle.ms_machine.specs.Running.{AreBytes};
ghost use Rattle.ms_machine.specs.Crews.{Input, run_entries, run_of, turns_from};
ghost use Rattle.ms_machine.specs.Linked.{linked};
ghost use Rattle.ms_machine.specs.Store.{Store};
ghost use Rattle.ms_task.specs.Thread.{Thread};
ghost use Rattle.ms_tasks.specs.Tasks.{crew_of, threads_from};
ghost use Rattle.c_types.specs.Types.{Ty, function, no_types};
ghost use Rattle.c_typed.specs.Tree.{Function, Stmt, Typed};
ghost use Rattle.c_typed.specs.Units.{IsWellTyped};
ghost use Rattle.c_meaning.specs.Units.{main_number};
ghost use Rattle.c_code.specs.Limits.{instructions_of, limit_of, most_instructions};
ghost use Rattle.c_code.specs.Modules.{compiled, imported, index_of};
ghost use Rattle.c_runs.specs.Correct.{Behaves, MeansRun, gives_integer};
ghost use Rattle.c_runs.specs.Crews.{Extends, Same, crew_of_one};
ghost use Rattle.c_runs.specs.Placed.{IsPlaced};
ghost use Rattle.c_runs.specs.Threads.{steps};

/// A run of a crew of one task, so many entries of which are its turns, puts and tells what so many steps of its thread do, and ends
/// as they stop. More steps go on where fewer were paused, and else are the same.
pub fn threads_run()
    ensures same { (n : ℕ) (s : Store) (t : Thread) (input : Input) → Same (run_entries (replicate n 0) (crew_of_one s t) input) (steps n s t input) }
    ensures longer { (n m : ℕ) (s : Store) (t : Thread) (input : Input) → n ≤ m → Extends (steps n s t input) (steps m s t input) }
{}

/// Of a unit that is well-typed, and whose module has no more instructions than the compiler makes, where a store has its functions with
/// their code, and all that are used: a run of `main`, which takes no arguments and gives nothing or an integer, does what is meant (C11,
/// 5.1.2.3), whatever its input and its budget are.
pub fn compiled_behaves()
    ensures { (u : Typed) (s : Store) (n : ℕ) (f : Function) (b : Stmt) (t : Ty) → IsWellTyped u
        → instructions_of (compiled u).funcs ≤ most_instructions → main_number u ≡ Some n → slice_get u.functions n ≡ Some f
        → f.body ≡ Some b → f.ty ≡ function t no_types → gives_integer t ≡ true → IsPlaced u s → Behaves u s (index_of u n) }
{}

/// Where a compiled unit was linked alone, under any name and with segment memory of any size, the store has its functions with their
/// code, and all that are used.
pub fn compiled_is_placed()
    ensures { (u : Typed) (name : List ℕ) (c : ℕ) (s : Store) → linked ((name, compiled u) ∷ []) c ≡ Ok s → IsPlaced u s }
{}

/// There is such a store where the unit uses no function that it doesn't define, and passes no limit of the compiler (`limit_of`): all
/// imports are given, and the table fits.
pub fn compiled_links()
    ensures { (u : Typed) (name : List ℕ) (c : ℕ) → imported u ≡ [] → limit_of u ≡ None
        → (s : Store) × (linked ((name, compiled u) ∷ []) c ≡ Ok s) }
{}

/// In that store a run of the `main` of such a unit, where it takes no arguments, does what is meant (`compiled_behaves`).
pub fn linked_behaves()
    ensures { (u : Typed) (name : List ℕ) (c : ℕ) (s : Store) (n : ℕ) (f : Function) (b : Stmt) (t : Ty) → IsWellTyped u
        → instructions_of (compiled u).funcs ≤ most_instructions → main_number u ≡ Some n → slice_get u.functions n ≡ Some f
        → f.body ≡ Some b → f.ty ≡ function t no_types → gives_integer t ≡ true → linked ((name, compiled u) ∷ []) c ≡ Ok s
        → Behaves u s (index_of u n) }
{}

/// What `exec` runs of such a unit, linked alone, does what is meant, where its `main` is a task: the one task behind the start
/// function, which makes and initializes what stands at file scope.
pub fn executed_behaves()
    ensures { (u : Typed) (name : List ℕ) (c turns budget : ℕ) (s : Store) (threads : List Thread) (input : Input) → IsWellTyped u
        → instructions_of (compiled u).funcs ≤ most_instructions → linked ((name, compiled u) ∷ []) c ≡ Ok s
        → threads_from s ((0, codes "main") ∷ []) 0 ≡ Ok threads → AreBytes input
        → MeansRun u input budget (run_of (turns_from turns 1 0 budget) (crew_of s threads) input) }
{}
