//! What is true of the table of instructions, and of all bodies.

ghost use Rattle.std.specs.Prelude.{◌≡◌, ◌==◌, ◌≤◌, Bool, false, List, length, suc, ℕ};
ghost use Rattle.std.specs.Str.{bytes_eq};
ghost use Rattle.ms_module.specs.Building.{IsNumbered};
ghost use Rattle.ms_module.specs.Instructions.{has_twice, keywords, opcodes, second_bytes};
ghost use Rattle.ms_module.specs.refinement.Nesting.{NestsWithin};
ghost use Rattle.ms_module.specs.declared.instr.Instr.{Instr};

/// No opcode, no byte behind the prefix and no keyword stands twice.
pub fn rows_are_apart()
    ensures opcodes { has_twice (λ (a b : ℕ). a == b) opcodes ≡ false }
    ensures second_bytes { has_twice (λ (a b : ℕ). a == b) second_bytes ≡ false }
    ensures keywords { has_twice bytes_eq keywords ≡ false }
{}

/// A body has a depth, which is less than the number of its sequences. What nests within a depth nests within each greater
/// one.
pub fn bodies_have_a_depth()
    ensures some { (d : ℕ) (ss : List (List Instr)) → IsNumbered ss → length ss ≤ suc d → NestsWithin d ss 0 }
    ensures greater { (d e : ℕ) (ss : List (List Instr)) (k : ℕ) → d ≤ e → NestsWithin d ss k → NestsWithin e ss k }
{}
