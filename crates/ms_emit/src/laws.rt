//! What the builder's calls make of a body.

ghost use Rattle.std.specs.Prelude.{◌≡◌, ◌<◌, Option, length, true};
ghost use Rattle.ms_types.specs.declared.types.ValType.{ValType};
ghost use Rattle.ms_module.specs.declared.builder.Opening.{Opening};
ghost use Rattle.ms_module.specs.declared.builder.Opening.TheVariants.{Block, Loop, If};
ghost use Rattle.ms_module.specs.declared.instr.Instr.{Instr};
ghost use Rattle.ms_module.specs.Building.{State, after_else, begun, closed, may_else, placed};
ghost use Rattle.ms_emit.specs.Codes.{Code, ◌⨾◌, block, choice, emitted, no_code, one, repeat};
ghost use Rattle.ms_emit.specs.refinement.Parts.{Adds, HasRoom, IsWhole};

/// The builder's calls for the parts of code, one behind the other, make the code of the whole, behind an `else` too.
pub fn builds_in_parts()
    ensures nothing { (st : State) → HasRoom st → emitted st no_code ≡ st }
    ensures instruction { (st : State) (i : Instr) → HasRoom st → placed st i ≡ emitted st (one i) }
    ensures behind { (st : State) (a : Code) (b : Code) → HasRoom st → IsWhole a → emitted (emitted st a) b ≡ emitted st (a ⨾ b) }
    ensures block { (st : State) (ty : Option ValType) (a : Code) → HasRoom st → closed (emitted (begun st Block ty) a) ≡ emitted st (block ty a) }
    ensures repeat { (st : State) (ty : Option ValType) (a : Code) → HasRoom st → closed (emitted (begun st Loop ty) a) ≡ emitted st (repeat ty a) }
    ensures choice { (st : State) (ty : Option ValType) (a : Code) (b : Code) → HasRoom st → closed (emitted (after_else (emitted (begun st If ty) a)) b) ≡ emitted st (choice ty a b) }
    ensures only { (st : State) (ty : Option ValType) (a : Code) → HasRoom st → closed (emitted (begun st If ty) a) ≡ emitted st (choice ty a no_code) }
    ensures room { (st : State) (a : Code) → HasRoom st → HasRoom (emitted st a) }
    ensures whole { (a : Code) (b : Code) → IsWhole a → IsWhole b → IsWhole (a ⨾ b) }
{}

/// What is added in parts: an instruction, parts one behind the other, blocks, loops, and `if` with one arm or two.
pub fn parts_add_up()
    ensures nothing { (st : State) → Adds st st no_code }
    ensures instruction { (s0 : State) (s1 : State) (i : Instr) → s1 ≡ placed s0 i → Adds s0 s1 (one i) }
    ensures behind { (s0 : State) (s1 : State) (s2 : State) (a : Code) (b : Code) → Adds s0 s1 a → Adds s1 s2 b → Adds s0 s2 (a ⨾ b) }
    ensures block { (s0 : State) (s1 : State) (s2 : State) (s3 : State) (ty : Option ValType) (a : Code) → s1 ≡ begun s0 Block ty → Adds s1 s2 a → s3 ≡ closed s2 → Adds s0 s3 (block ty a) }
    ensures repeat { (s0 : State) (s1 : State) (s2 : State) (s3 : State) (ty : Option ValType) (a : Code) → s1 ≡ begun s0 Loop ty → Adds s1 s2 a → s3 ≡ closed s2 → Adds s0 s3 (repeat ty a) }
    ensures only { (s0 : State) (s1 : State) (s2 : State) (s3 : State) (ty : Option ValType) (a : Code) → s1 ≡ begun s0 If ty → Adds s1 s2 a → s3 ≡ closed s2 → Adds s0 s3 (choice ty a no_code) }
    ensures choice { (s0 : State) (s1 : State) (s2 : State) (s3 : State) (s4 : State) (s5 : State) (ty : Option ValType) (a : Code) (b : Code) → s1 ≡ begun s0 If ty → Adds s1 s2 a → s3 ≡ after_else s2 → Adds s3 s4 b → s5 ≡ closed s4 → Adds s0 s5 (choice ty a b) }
    ensures else_may_come { (s0 : State) (s1 : State) (s2 : State) (ty : Option ValType) (a : Code) → s1 ≡ begun s0 If ty → Adds s1 s2 a → may_else s2.blocks ≡ true }
    ensures is_open { (s0 : State) (s1 : State) (s2 : State) (o : Opening) (ty : Option ValType) (a : Code) → s1 ≡ begun s0 o ty → Adds s1 s2 a → 0 < length s2.blocks }
    ensures second_is_open { (s0 : State) (s1 : State) (s2 : State) (s3 : State) (s4 : State) (ty : Option ValType) (a : Code) (b : Code) → s1 ≡ begun s0 If ty → Adds s1 s2 a → s3 ≡ after_else s2 → Adds s3 s4 b → 0 < length s4.blocks }
{}
