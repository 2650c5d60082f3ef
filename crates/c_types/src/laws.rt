//! What is true of sizes, alignments and offsets, whatever structs are defined.

ghost use Rattle.std.specs.Prelude.{◌≡◌, ◌≢◌, ℕ, ◌+◌, ◌%◌, ◌<◌, ◌≤◌, [], Some, slice_get};
ghost use Rattle.std.specs.List.{All};
ghost use Rattle.c_types.specs.Layout.{HasSize, IsLaidOut, Layout, Table, align, depth, layout_at, offset, round_up, size};
ghost use Rattle.c_types.specs.Types.{Ty, struct};

/// Rounding up gives the least place of an alignment that isn't below a place.
pub fn rounds_up()
    ensures whole { (a n : ℕ) → round_up a n % a ≡ 0 }
    ensures reached { (a n : ℕ) → 0 < a → n ≤ round_up a n }
    ensures least { (a n m : ℕ) → 0 < a → n ≤ m → m % a ≡ 0 → round_up a n ≤ m }
{}

/// A type that has a size is aligned to 1 to 16 bytes, and has at least one; its size is a multiple of its alignment, so that the elements of
/// an array are aligned (C11, 6.2.8 and 6.5.3.4). Each struct has a member (6.7.2.1).
pub fn types_are_aligned()
    ensures alignment { (table : Table) (t : Ty) → IsLaidOut table → ((n : ℕ) (l : Layout) → layout_at table n ≡ Some l → l.members ≢ []) → HasSize table t
        → (0 < align table t) × (align table t ≤ 16) }
    ensures size { (table : Table) (t : Ty) → IsLaidOut table → ((n : ℕ) (l : Layout) → layout_at table n ≡ Some l → l.members ≢ []) → HasSize table t
        → (0 < size table t) × (size table t % align table t ≡ 0) }
{}

/// The members of a struct lie in it, each at a place of its alignment, and in order (C11, 6.7.2.1, paragraphs 6 and 14).
pub fn members_are_placed()
    ensures aligned { (table : Table) (n m : ℕ) (l : Layout) (t : Ty) → IsLaidOut table → layout_at table n ≡ Some l → slice_get l.members m ≡ Some t
        → offset table (struct n) m % align table t ≡ 0 }
    ensures inside { (table : Table) (n m : ℕ) (l : Layout) (t : Ty) → IsLaidOut table → ((k : ℕ) (x : Layout) → layout_at table k ≡ Some x → x.members ≢ []) → layout_at table n ≡ Some l → slice_get l.members m ≡ Some t
        → offset table (struct n) m + size table t ≤ size table (struct n) }
    ensures ordered { (table : Table) (n m k : ℕ) (l : Layout) (t u : Ty) → IsLaidOut table → ((j : ℕ) (x : Layout) → layout_at table j ≡ Some x → x.members ≢ []) → layout_at table n ≡ Some l → slice_get l.members m ≡ Some t → slice_get l.members k ≡ Some u → m < k
        → offset table (struct n) m + size table t ≤ offset table (struct n) k }
{}

/// A struct is deeper than each of its members, so none lies in itself (C11, 6.7.2.1, paragraph 3).
pub fn structs_nest()
    ensures { (table : Table) (n : ℕ) (l : Layout) → IsLaidOut table → layout_at table n ≡ Some l → All (λ t. depth table t < l.depth) l.members }
{}
