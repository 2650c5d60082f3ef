//! The slots of an arena.

ghost use Rattle.std.specs.Prelude.{◌≡◌, ◌<◌, ◌^◌, ◌++◌, ◌∷◌, ◌⊎◌, [], length, vec_len, vec_capacity};

/// A slot of an arena that is not in use: the last one that was given back, or else a new one.
pub fn spare<N: Copy>(nodes: &mut Vec<N>, free: &mut Vec<u32>, blank: N) -> u32
    requires few { vec_len nodes.old < 2 ^ 32 }
    requires room { (0 < length free.old.items) ⊎ (vec_len nodes.old < vec_capacity nodes.old) }
    ensures slot { ((nodes.new.items ≡ nodes.old.items) × (free.old.items ≡ free.new.items ++ result ∷ [])) ⊎ ((nodes.new.items ≡ nodes.old.items ++ blank ∷ []) × (free.old.items ≡ []) × (free.new.items ≡ []) × (result ≡ length nodes.old.items)) }
    ensures nodes { vec_capacity nodes.new ≡ vec_capacity nodes.old }
    ensures free { vec_capacity free.new ≡ vec_capacity free.old }
{
    if let Some(slot) = free.pop() {
        return slot;
    }
    let slot = nodes.len() as u32;
    nodes.push_reserved(blank);
    slot
}
