//! The module of a unit: it is valid, what it exports and imports, how deep its blocks nest, its locals, its loops and its calls.

ghost use Rattle.std.specs.Prelude.{◌≡◌, ◌≤◌, ◌<◌, ◌+◌, length, ℕ, [], ◌∷◌, codes, map, slice_get, Some, None, true, All};
ghost use Rattle.ms_types.specs.declared.types.ValType.TheVariants.{I32};
ghost use Rattle.ms_module.specs.declared.module.Func.{Func};
ghost use Rattle.ms_module.specs.refinement.Nesting.{ModuleNestsWithin};
ghost use Rattle.ms_rules.specs.Context.{imported_funcs};
ghost use Rattle.ms_rules.specs.Modules.{AreDistinct, WellTyped};
ghost use Rattle.c_types.specs.declared.integers.IntType.TheVariants.{Int};
ghost use Rattle.c_types.specs.Types.{function, integer, no_types};
ghost use Rattle.c_typed.specs.refinement.Nesting.{unit_nesting};
ghost use Rattle.c_typed.specs.Tree.{Function, Stmt, Typed};
ghost use Rattle.c_typed.specs.Units.{IsWellTyped};
ghost use Rattle.c_code.specs.Functions.{body, signature};
ghost use Rattle.c_code.specs.Limits.{limit_of, most_slots};
ghost use Rattle.c_code.specs.Modules.{compiled, is_exported, target_of};
ghost use Rattle.c_code.specs.Uses.{in_made, in_stmt};
ghost use Rattle.c_typing.specs.refinement.Interface.{MakesKnown, Takes};
ghost use Rattle.c_typing.specs.refinement.LoopsAndCalls.{IsBounded, IsNoCall, IsQuiet, loops_in_made, loops_in_stmt};
ghost use Rattle.c_typing.specs.refinement.Waits.{unit_waits};

/// The module of each well-typed unit of C that passes no limit is valid WebAssembly (WebAssembly 1.0, 3.4): each of its functions
/// has a typed body, all indices name something, and no two exports have one name.
pub fn compiled_is_valid()
    ensures valid { (u : Typed) → IsWellTyped u → limit_of u ≡ None → WellTyped (compiled u) }
{}

/// What a linker needs to know of the module of a unit (WebAssembly 1.0, 2.5.10, 2.5.11). Its exports are the functions that the
/// unit defines, but a `main` that gives a pointer to a function: each by its name, with the type of its type in C. No two have
/// one name; among them is an `int main(void)`. Its imports are the host's three functions, and those that the unit uses and
/// doesn't define.
pub fn compiled_exports_its_functions()
    ensures exports { (u : Typed) → MakesKnown u }
    ensures distinct { (u : Typed) → IsWellTyped u → AreDistinct (map (λ e. e.name) (compiled u).exports) }
    ensures main { (u : Typed) (f : Function) → f.name ≡ codes "main" → f.ty ≡ function (integer Int) no_types → (is_exported u f ≡ true) × (signature f.ty ≡ record { params = []; results = I32 ∷ [] }) }
    ensures imports { (u : Typed) → Takes u }
{}

/// In the module of a unit blocks nest at most one deeper than in the unit (`c_typed/specs/Nesting.antt`): where an object is
/// made, or memory is allocated or freed, there is an `if` that holds no part of the unit. How deep they nest in a unit that was
/// read is bounded by `nests` of `check` (`c_check`) and by `most_high` of the parser (`c_parse/specs/Units.antt`), so that they
/// nest no deeper than the readers of modules allow (`ms_module/specs/Bounds.antt`).
pub fn compiled_nests()
    ensures nests { (u : Typed) (d : ℕ) → unit_nesting u < d → ModuleNestsWithin d (compiled u) }
{}

/// Where the unit passes no limit, a function of its module declares at most 10,004 locals beside one for each value that waits:
/// one for each slot and four scratch locals.
pub fn compiled_declares_few_locals()
    ensures locals { (u : Typed) → limit_of u ≡ None → All (λ f. length f.locals ≤ most_slots + 4 + unit_waits u) (compiled u).funcs }
{}

/// The body of a function has at most as many loops as the function has loop statements, and it calls nothing but the host's
/// functions and what the function calls; likewise the start function and what is made before `main`. A function without loops and calls has a body
/// without loops, which calls the host's functions alone: there each branch leads forward.
pub fn compiled_loops_and_calls()
    ensures functions { (u : Typed) (f : Function) (code : Stmt) → IsBounded u (loops_in_stmt code) (in_stmt code) (body (target_of u f code) f code) }
    ensures start { (u : Typed) → (i : ℕ) × (g : Func) × ((compiled u).start ≡ Some (length (imported_funcs (compiled u).imports) + i)) × (slice_get (compiled u).funcs i ≡ Some g) × IsBounded u (loops_in_made u.made) (in_made u.made) g.body }
    ensures quiet { (u : Typed) (f : Function) (code : Stmt) → loops_in_stmt code ≡ 0 → All IsNoCall (in_stmt code) → All (λ is. All IsQuiet is) (body (target_of u f code) f code) }
{}
