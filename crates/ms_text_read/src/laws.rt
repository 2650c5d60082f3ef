//! What is true of all texts.

ghost use Rattle.std.specs.Prelude.{◌≡◌, ℕ, List};
ghost use Rattle.ms_module.specs.declared.module.Module.{Module};
ghost use Rattle.ms_text_grammar.specs.TextSpells.{Stops, TextSpells, TextStop};
ghost use Rattle.ms_text_read.specs.Answers.{error_of};

/// A text spells one module at most, and where it spells one there is no reason why it spells none. Reasons are told alike.
pub fn texts_spell_one_module()
    ensures one { (bytes : List ℕ) (some other : Module) → TextSpells bytes some → TextSpells bytes other → some ≡ other }
    ensures apart { (bytes : List ℕ) (m : Module) (why : TextStop) → TextSpells bytes m → ¬ (Stops bytes why) }
    ensures alike { (bytes : List ℕ) (why other : TextStop) → Stops bytes why → Stops bytes other → error_of why ≡ error_of other }
{}
