//! What is written is read as what it is.

ghost use Rattle.std.specs.Prelude.{◌≡◌, ◌<◌, ◌^◌, ℕ, List, All, Some, codes, pos, negsuc};
ghost use Rattle.ms_types.specs.declared.types.ValType.{ValType};
ghost use Rattle.ms_module.specs.declared.access.LoadOp.{LoadOp};
ghost use Rattle.ms_module.specs.declared.access.StoreOp.{StoreOp};
ghost use Rattle.ms_module.specs.declared.module.Module.{Module};
ghost use Rattle.ms_module.specs.declared.numeric.Numeric.{Numeric};
ghost use Rattle.ms_module.specs.Instructions.{by_word, load_rows, numeric_rows, segment_load_rows, segment_store_rows, store_rows, value_rows};
ghost use Rattle.ms_bin_grammar.specs.Bounds.{usual};
ghost use Rattle.ms_bin_grammar.specs.Module.{SpellsWithin};
ghost use Rattle.ms_text_grammar.specs.TextSpells.{TextSpells};
ghost use Rattle.ms_flat.specs.Keywords.{load_word, numeric_word, store_word, value_word};
ghost use Rattle.ms_text_write.specs.refinement.ReadBack.{ConstantIsRead, IndexIsRead, StringIsRead};
ghost use Rattle.ms_text_write.specs.Shown.{shown};

/// Each index that is written is read as itself.
pub fn indices_are_read_back()
    ensures { (n : ℕ) → n < 2 ^ 32 → IndexIsRead n }
{}

/// Each constant that is written is read as itself, positive and negative ones.
pub fn constants_are_read_back()
    ensures narrow { (n : ℕ) → n < 2 ^ 31 → ConstantIsRead 32 (pos n) × ConstantIsRead 32 (negsuc n) }
    ensures wide { (n : ℕ) → n < 2 ^ 63 → ConstantIsRead 64 (pos n) × ConstantIsRead 64 (negsuc n) }
{}

/// Each string that is written is read as its bytes.
pub fn strings_are_read_back()
    ensures { (bs : List ℕ) → All (λ b. b < 256) bs → StringIsRead bs }
{}

/// The table of instructions gives each value type, numeric instruction and access back for its keyword.
pub fn keywords_are_read_back()
    ensures types { (ty : ValType) → by_word value_rows (value_word ty) ≡ Some ty }
    ensures numeric { (i : Numeric) → by_word numeric_rows (numeric_word i) ≡ Some i }
    ensures loads { (op : LoadOp) → by_word load_rows (load_word (codes "load") op) ≡ Some op }
    ensures stores { (op : StoreOp) → by_word store_rows (store_word (codes "store") op) ≡ Some op }
    ensures segment_loads { (op : LoadOp) → by_word segment_load_rows (load_word (codes "segload") op) ≡ Some op }
    ensures segment_stores { (op : StoreOp) → by_word segment_store_rows (store_word (codes "segstore") op) ≡ Some op }
{}

/// What is written of a binary module that is read is read again as the same module.
pub fn disassembled_modules_are_read_back()
    ensures { (bytes : List ℕ) (m : Module) → All (λ b. b < 256) bytes → SpellsWithin usual bytes m → TextSpells (shown m) m }
{}
