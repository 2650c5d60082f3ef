//! What is true of all spellings.

ghost use Rattle.std.specs.Prelude.{◌≡◌, ◌≤◌, ℕ, List};
ghost use Rattle.ms_module.specs.declared.module.Module.{Module};
ghost use Rattle.ms_bin_grammar.specs.Bounds.{Bounds};
ghost use Rattle.ms_bin_grammar.specs.Module.{SpellsWithin};

/// Bytes spell one module at most, whatever the bounds.
pub fn one_module_is_spelled()
    ensures { (a b : Bounds) (bytes : List ℕ) (m n : Module) → SpellsWithin a bytes m → SpellsWithin b bytes n → m ≡ n }
{}

/// What bytes spell within some bounds they spell within greater ones.
pub fn greater_bounds_spell_it()
    ensures { (a b : Bounds) (bytes : List ℕ) (m : Module)
        → a.blocks ≤ b.blocks → a.locals ≤ b.locals → SpellsWithin a bytes m → SpellsWithin b bytes m }
{}
