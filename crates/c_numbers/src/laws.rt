//! What is true of numeric instructions and of the operators that they stand for.

ghost use Rattle.std.specs.Prelude.{◌≡◌, ◌<◌, ◌^◌, ℕ, ℤ, pos, negsuc, List, ◌∷◌, not};
ghost use Rattle.ms_linear.specs.declared.value.Value.{Value};
ghost use Rattle.ms_module.specs.declared.numeric.BinOp.TheVariants as bins;
ghost use Rattle.ms_module.specs.declared.numeric.Width.{Width};
ghost use Rattle.ms_module.specs.declared.numeric.Width.TheVariants.{W32};
ghost use Rattle.ms_operate.specs.Outcomes.{Gives};
ghost use Rattle.c_types.specs.Integers.{bits};
ghost use Rattle.c_types.specs.declared.integers.IntType.{IntType};
ghost use Rattle.c_types.specs.declared.integers.IntType.TheVariants.{Int};
ghost use Rattle.c_types.specs.declared.types.Scalar.TheVariants as scalars;
ghost use Rattle.c_typed.specs.declared.ops.BinaryOp.{BinaryOp};
ghost use Rattle.c_typed.specs.declared.ops.RelOp.{RelOp};
ghost use Rattle.c_typed.specs.declared.ops.UnaryOp.TheVariants.{Negate, Complement};
ghost use Rattle.c_typed.specs.refinement.Expressions.{IsPromoted};
ghost use Rattle.c_meaning.specs.Integers.{changed, compared, from_truth, is_zero, operated, value_of, wrap};
ghost use Rattle.c_code.specs.Operations as code;
ghost use Rattle.c_code.specs.Operations.{constant, convert, eqz, op, truth, width_of};
ghost use Rattle.c_numbers.specs.Operands.{Agree, IsIn, all_carried, carried, operand, word};

/// On two numbers of a type that arithmetic works at, the operator's instruction gives the number that is meant, which is in
/// the type's range, or stops the program as is meant; a relation's gives its truth; negation and complement give their numbers.
/// On a number of any integer type, a condition's instructions give its truth, and a conversion's the number of the other type
/// that is the same modulo 2^w. A constant gives its bits.
pub fn numbers_agree()
    ensures constants { (w : Width) (z : ℤ) (rest : List Value) → carried (constant w z) rest ≡ Gives (operand w z ∷ rest) }
    ensures values { (t : IntType) (n : ℕ) → n < 2 ^ bits t → IsIn t (value_of t n) }
    ensures operators { (o : BinaryOp) (t : IntType) (x y : ℤ) (rest : List Value) → IsPromoted t → IsIn t x → IsIn t y → Agree (width_of t) (IsIn t) rest (operated o t x y) (carried (code.operated o t) (word t y ∷ word t x ∷ rest)) }
    ensures relations { (o : RelOp) (t : IntType) (x y : ℤ) (rest : List Value) → IsPromoted t → IsIn t x → IsIn t y → carried (code.compared o t) (word t y ∷ word t x ∷ rest) ≡ Gives (word Int (from_truth (compared o x y)) ∷ rest) }
    ensures negation { (t : IntType) (x : ℤ) (rest : List Value) → IsPromoted t → carried (op (width_of t) bins.Sub) (word t x ∷ operand (width_of t) (pos 0) ∷ rest) ≡ Gives (word t (changed Negate t x) ∷ rest) }
    ensures complement { (t : IntType) (x : ℤ) (rest : List Value) → IsPromoted t → carried (op (width_of t) bins.Xor) (operand (width_of t) (negsuc 0) ∷ word t x ∷ rest) ≡ Gives (word t (changed Complement t x) ∷ rest) }
    ensures conditions { (t : IntType) (x : ℤ) (n : ℕ) (rest : List Value) → IsIn t x → all_carried (truth (scalars.Int t) n).instrs (word t x ∷ rest) ≡ Gives (word Int (from_truth (not (is_zero x))) ∷ rest) }
    ensures negated_conditions { (t : IntType) (x : ℤ) (rest : List Value) → width_of t ≡ W32 → IsIn t x → carried eqz (word t x ∷ rest) ≡ Gives (word Int (from_truth (is_zero x)) ∷ rest) }
    ensures conversions { (t u : IntType) (x : ℤ) (n : ℕ) (rest : List Value) → IsIn t x → all_carried (convert t u n).instrs (word t x ∷ rest) ≡ Gives (word u (wrap u x) ∷ rest) }
{}
