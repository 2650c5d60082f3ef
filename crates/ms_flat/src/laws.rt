//! What is true of the items of all bodies.

ghost use Rattle.std.specs.Prelude.{◌≡◌, ℕ, List, [], length};
ghost use Rattle.ms_module.specs.Building.{IsNumbered, first_state};
ghost use Rattle.ms_module.specs.refinement.Nesting.{NestsWithin};
ghost use Rattle.ms_module.specs.declared.instr.Instr.{Instr};
ghost use Rattle.ms_flat.specs.Flat.{flat};
ghost use Rattle.ms_flat.specs.refinement.Rebuilt.{AllMayCome, after};

/// The items of a body build its sequences again, and each of them may come where it stands, with no more blocks in one
/// another than the body has.
pub fn flat_bodies_are_rebuilt()
    ensures rebuilt { (ss : List (List Instr)) → IsNumbered ss → after first_state (flat ss) ≡ record { blocks = []; seqs = ss } }
    ensures may_come { (most : ℕ) (ss : List (List Instr)) → IsNumbered ss → NestsWithin most ss 0 → AllMayCome most first_state (flat ss) }
{}
