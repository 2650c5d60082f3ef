//! What the machine does to the segment memory where C does something to objects, for any objects and any memory that are related.
//!
//! `table` has the structs, `places` the entries of functions in the table of functions, by the types of pointers to them, and `homes` where each
//! object is.

ghost use Rattle.std.specs.Prelude.{◌≡◌, ◌≢◌, Bool, ℕ, ◌*◌, ◌+◌, ◌<◌, ◌≤◌, ℤ, pos, true, false, List, [], ◌∷◌, Some, None, Ok, slice_get, slice_set};
ghost use Rattle.c_meaning.specs.Objects.{Kind, Object, copy, distance, ended, frame, free, further, gives, moved, read, same_place, write};
ghost use Rattle.c_meaning.specs.Shapes.{Part, Shape, elements, part_of, shape, size};
ghost use Rattle.c_meaning.specs.Values.{Value, inside, null, to_member};
ghost use Rattle.c_types.specs.Layout.{HasSize, IsLaidOut, Layout, Table, layout_at, offset, size as type_size};
ghost use Rattle.c_types.specs.Types.{Ty, is_function, pointer, struct};
ghost use Rattle.c_types.specs.declared.integers.IntType.TheVariants.{LongLong};
ghost use Rattle.ms_handle.specs.declared.handle.Handle.TheVariants.{Good};
ghost use Rattle.ms_handle.specs.declared.handle.Kind.TheVariants as kinds;
ghost use Rattle.ms_linear.specs.declared.value.Value.{Value as Operand};
ghost use Rattle.ms_linear.specs.declared.value.Value.TheVariants.{Handle, I32, I64};
ghost use Rattle.ms_machine.specs.Segments.{Gives, segment_on, slice_event};
ghost use Rattle.ms_module.specs.declared.access.Segment.TheVariants.{Add, Diff, Eq, Free, New, Slice};
ghost use Rattle.ms_num.specs.Integers.{truth, wrapped};
ghost use Rattle.ms_relate.specs.refinement.Acts.{ChangeActs, DiffActs, LoadActs, NewActs, load_instr, operand, store_instr};
ghost use Rattle.ms_relate.specs.refinement.Copies.{Copies, Scalars, copy_on};
ghost use Rattle.ms_relate.specs.refinement.Homes.{Home, IsIn, IsOf, IsScalar, Leads, handle};
ghost use Rattle.ms_relate.specs.refinement.Laid.{Fits};
ghost use Rattle.ms_relate.specs.refinement.Relation.{Related, kind_of};
ghost use Rattle.ms_segment.specs.Calls as call;
ghost use Rattle.ms_segment.specs.Memory.{Memory};

/// The shape of a type that has a size lies as the type does (C11, 6.2.8 and 6.7.2.1): with its size, its parts in order, and a member at
/// its offset with the shape of its type.
pub fn shapes_agree()
    ensures sizes { (table : Table) (t : Ty) → IsLaidOut table → ((n : ℕ) (l : Layout) → layout_at table n ≡ Some l → l.members ≢ []) → HasSize table t
        → (size (shape table t) ≡ type_size table t) × Fits (shape table t) }
    ensures members { (table : Table) (n m : ℕ) (l : Layout) (t : Ty) → IsLaidOut table → ((k : ℕ) (x : Layout) → layout_at table k ≡ Some x → x.members ≢ []) → layout_at table n ≡ Some l → slice_get l.members m ≡ Some t
        → part_of (shape table (struct n)) m ≡ Some (record { offset = offset table (struct n) m; shape = shape table t }) }
{}

/// A load and a store through the handle of a pointer are the reading and the writing of what it leads to (C11, 6.5.3.2): the same
/// value, or the same end.
pub fn accesses_agree()
    ensures loads { (table : Table) (places : Ty → ℕ → ℕ) (homes : List Home) (m : Memory) (objects : List Object) (t : Ty) (p : Value) → Related table places homes objects m → IsScalar t → IsOf table places homes (pointer t) p
        → LoadActs table places homes t m (λ rest. segment_on (load_instr t) m (Handle (handle homes p) ∷ rest)) (read objects p) }
    ensures stores { (table : Table) (places : Ty → ℕ → ℕ) (homes : List Home) (m : Memory) (objects : List Object) (t : Ty) (p v : Value) → Related table places homes objects m → IsScalar t → IsOf table places homes (pointer t) p → IsOf table places homes t v
        → ChangeActs table places homes (λ rest. segment_on (store_instr t) m (operand places homes t v ∷ Handle (handle homes p) ∷ rest)) (write objects p v) }
{}

/// A new segment is a new object, in which all is zero, or is refused (C11, 6.2.4 and 7.22.3); freeing one is `free` (7.22.3.3); and
/// the segment of a variable's object ends without a trap.
pub fn lives_agree()
    ensures new { (table : Table) (places : Ty → ℕ → ℕ) (homes : List Home) (m : Memory) (objects : List Object) (k : Kind) (s : Shape) (n : ℕ) → Related table places homes objects m → Fits s
        → NewActs table places homes objects m k s n (n * size s) (λ rest. segment_on (New (kind_of k)) m (I32 (n * size s) ∷ rest)) }
    ensures frees { (table : Table) (places : Ty → ℕ → ℕ) (homes : List Home) (m : Memory) (objects : List Object) (t : Ty) (p : Value) → Related table places homes objects m → p ≢ null → IsOf table places homes (pointer t) p → is_function t ≡ false
        → ChangeActs table places homes (λ rest. segment_on (Free kinds.Heap) m (Handle (handle homes p) ∷ rest)) (free objects p) }
    ensures ends { (table : Table) (places : Ty → ℕ → ℕ) (homes : List Home) (m : Memory) (objects : List Object) (n : ℕ) (o : Object) (h : Home) → Related table places homes objects m → slice_get objects n ≡ Some o → slice_get homes n ≡ Some h → o.alive ≡ true → o.kind ≡ frame
        → (c : call.Change) × (call.free m (Good false h.id 0 (h.count * size h.shape) (pos 0)) kinds.Frame ≡ Ok c) × Related table places homes (slice_set objects n (ended o)) c.memory }
{}

/// Arithmetic on a pointer is that on its handle (C11, 6.5.6), and a member, or an array that an element is, is a slice of it (6.5.2.3).
pub fn moves_agree()
    ensures moves { (table : Table) (places : Ty → ℕ → ℕ) (homes : List Home) (m : Memory) (rest : List Operand) (t : Ty) (d : ℤ) (p : Value) → IsIn LongLong d → IsOf table places homes (pointer t) p → is_function t ≡ false → 0 < size (shape table t)
        → segment_on (Add (size (shape table t))) m (I64 (wrapped 64 d) ∷ Handle (handle homes p) ∷ rest) ≡ Gives (Handle (handle homes (moved (size (shape table t)) d p)) ∷ rest) m None }
    ensures members { (table : Table) (places : Ty → ℕ → ℕ) (homes : List Home) (m : Memory) (objects : List Object) (e : Shape) (k : ℕ) (p : Part) (v : Value) → Related table places homes objects m → Leads homes e v → part_of e k ≡ Some p → 0 < size p.shape → p.offset + size p.shape ≤ size e
        → (w : Value) × (further (λ i. to_member i k) objects v ≡ gives w) × Leads homes p.shape w × ((rest : List Operand) → segment_on Slice m (I32 (size p.shape) ∷ I32 p.offset ∷ Handle (handle homes v) ∷ rest) ≡ Gives (Handle (handle homes w) ∷ rest) m (slice_event (handle homes v) (handle homes w))) }
    ensures arrays { (table : Table) (places : Ty → ℕ → ℕ) (homes : List Home) (m : Memory) (objects : List Object) (e : Shape) (n : ℕ) (v : Value) → Related table places homes objects m → Leads homes (elements e n) v → 0 < n * size e
        → (w : Value) × (further inside objects v ≡ gives w) × Leads homes e w × ((rest : List Operand) → segment_on Slice m (I32 (n * size e) ∷ I32 0 ∷ Handle (handle homes v) ∷ rest) ≡ Gives (Handle (handle homes w) ∷ rest) m (slice_event (handle homes v) (handle homes w))) }
{}

/// Comparing pointers is comparing their handles (C11, 6.5.9), and so is their distance in bytes (6.5.6).
pub fn comparisons_agree()
    ensures equality { (table : Table) (places : Ty → ℕ → ℕ) (homes : List Home) (m : Memory) (objects : List Object) (t u : Ty) (v w : Value) → Related table places homes objects m → is_function t ≡ false → is_function u ≡ false → IsOf table places homes (pointer t) v → IsOf table places homes (pointer u) w
        → (b : Bool) × (same_place objects v w ≡ gives b) × ((rest : List Operand) → segment_on Eq m (Handle (handle homes w) ∷ Handle (handle homes v) ∷ rest) ≡ Gives (I32 (truth b) ∷ rest) m None) }
    ensures distance { (table : Table) (places : Ty → ℕ → ℕ) (homes : List Home) (m : Memory) (objects : List Object) (t u : Ty) (v w : Value) → Related table places homes objects m → is_function t ≡ false → is_function u ≡ false → IsOf table places homes (pointer t) v → IsOf table places homes (pointer u) w
        → DiffActs m (λ rest. segment_on Diff m (Handle (handle homes w) ∷ Handle (handle homes v) ∷ rest)) (distance objects v w) }
{}

/// A struct that is copied leaf by leaf through slices of two handles is assigned (C11, 6.5.16.1), whether the two overlap or not.
pub fn copies_agree()
    ensures { (table : Table) (places : Ty → ℕ → ℕ) (homes : List Home) (s : Shape) (a c : Value) (objects : List Object) (m : Memory) → Scalars s → Fits s → Leads homes s a → Leads homes s c → Related table places homes objects m
        → Copies table places homes (copy s a c objects) (copy_on s (handle homes a) (handle homes c) m) }
{}
