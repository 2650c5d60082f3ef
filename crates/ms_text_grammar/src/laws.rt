//! What is true of all texts.

ghost use Rattle.std.specs.Prelude.{◌≡◌, ◌≤◌, ℕ, true, List, [], None};
ghost use Rattle.ms_module.specs.declared.module.Module.{Module};
ghost use Rattle.ms_text_lex.specs.declared.token.Token.{Token};
ghost use Rattle.ms_text_grammar.specs.declared.surface.Field.{Field};
ghost use Rattle.ms_text_grammar.specs.declared.surface.Body.{Body};
ghost use Rattle.ms_text_grammar.specs.declared.surface.Op.{Op};
ghost use Rattle.ms_text_grammar.specs.declared.surface.TypeUse.{TypeUse};
ghost use Rattle.ms_text_grammar.specs.Tokens.{closes};
ghost use Rattle.ms_text_grammar.specs.Bodies.{body, folded_body};
ghost use Rattle.ms_text_grammar.specs.refinement.Folding.{SpellsInstrs, body_with};
ghost use Rattle.ms_text_grammar.specs.refinement.Folding.Form.{any, fold};
ghost use Rattle.ms_text_grammar.specs.refinement.Folding.Part.{many, one};
ghost use Rattle.ms_text_grammar.specs.Bounds.{Bounds};
ghost use Rattle.ms_text_grammar.specs.Fields.{file, file_within};
ghost use Rattle.ms_text_grammar.specs.Scans.{mismatch};
ghost use Rattle.ms_text_grammar.specs.TypeUses.{AllAgree};
ghost use Rattle.ms_text_grammar.specs.TextSpells.{FieldsSpelled, TextSpellsWithin};

/// A text spells one module at most, whatever the bounds.
pub fn one_module_is_spelled()
    ensures { (a b : Bounds) (bytes : List ℕ) (m n : Module) → TextSpellsWithin a bytes m → TextSpellsWithin b bytes n → m ≡ n }
{}

/// What a text spells within some bounds it spells within greater ones.
pub fn greater_bounds_spell_it()
    ensures { (a b : Bounds) (bytes : List ℕ) (m : Module)
        → a.blocks ≤ b.blocks → a.locals ≤ b.locals → a.parens ≤ b.parens → TextSpellsWithin a bytes m → TextSpellsWithin b bytes m }
{}

/// A file is all of its tokens. They spell one list of fields at most.
pub fn fields_are_spelled_in_one_way()
    ensures all { (source : List ℕ) (tokens rest : List Token) (fields : List Field) → (file source).spelled tokens fields rest → rest ≡ [] }
    ensures one { (source : List ℕ) (tokens : List Token) (some others : List Field) → FieldsSpelled source tokens some → FieldsSpelled source tokens others → some ≡ others }
{}

/// Of tokens that are fields by the grammar, the scan for the place of a fault finds no type use that differs from the type field that it
/// names exactly where all uses of the fields agree (6.6.3).
pub fn scanned_uses_are_those_of_fields()
    ensures agree { (source : List ℕ) (bounds : Bounds) (tokens : List Token) (fields : List Field)
        → (file_within source bounds).spelled tokens fields [] → mismatch source tokens ≡ None → AllAgree source fields }
    ensures none { (source : List ℕ) (bounds : Bounds) (tokens : List Token) (fields : List Field)
        → (file_within source bounds).spelled tokens fields [] → AllAgree source fields → mismatch source tokens ≡ None }
{}

/// Instructions as trees, in which a folded one is its operands and then itself, are exactly what is taken turn by turn: as a body up to a
/// closing parenthesis, and the same instructions. So is the folded one that is an offset.
pub fn folded_instructions_are_taken()
    ensures bodies { (source : List ℕ) (most : ℕ) (uses : List TypeUse) (tokens rest : List Token) (ops : List Op)
        → SpellsInstrs source most (many any) 0 [] tokens uses ops rest → closes rest ≡ true → (body source most).spelled tokens (body_with uses ops) rest }
    ensures trees { (source : List ℕ) (most : ℕ) (tokens rest : List Token) (b : Body)
        → (body source most).spelled tokens b rest → SpellsInstrs source most (many any) 0 [] tokens b.uses b.ops rest × (closes rest ≡ true) }
    ensures offsets { (source : List ℕ) (most : ℕ) (uses : List TypeUse) (tokens rest : List Token) (ops : List Op)
        → SpellsInstrs source most (one fold) 0 [] tokens uses ops rest → (folded_body source most).spelled tokens (body_with uses ops) rest }
    ensures offset_trees { (source : List ℕ) (most : ℕ) (tokens rest : List Token) (b : Body)
        → (folded_body source most).spelled tokens b rest → SpellsInstrs source most (one fold) 0 [] tokens b.uses b.ops rest }
{}
