//! The leaves of a struct, in rising order, by which it is copied (C11, 6.5.16.1).

ghost use Rattle.std.specs.Prelude.{◌≡◌, ◌+◌, ◌*◌, ◌<◌, ◌≤◌, ◌++◌, List, [], length, slice_get, IfOk, IfSome, MatchOption, OnOk};
ghost use Rattle.c_types.specs.Layout.{IsLaidOut, Table, members_of};
ghost use Rattle.c_types.specs.Types.{scalar_of, struct, type_of};
ghost use Rattle.c_code.specs.Expressions as code;
ghost use Rattle.c_code.specs.Leaves as words;
ghost use Rattle.c_code.specs.Leaves.{leaves};
ghost use Rattle.c_code.specs.Targets.{scratch_handle, scratch_place};
ghost use Rattle.c_emit.specs.refinement.Leaves.{AreLeaves, IsLeaf, copies_of, handle_of, moved, narrowed};
ghost use Rattle.c_emit.specs.refinement.LeafWalk.{Goes, Walks, elements_left, leaf_in, members_left, part_left, parts_left, stack_left};
ghost use Rattle.ms_emit.specs.Codes.{◌⨾◌};
ghost use Rattle.ms_emit.specs.refinement.Parts.{Adds};

use crate::adding::{add, add_three, add_two};
use crate::body::Body;
use crate::operations::{i32_of, i64_of, load, store};
use crate::target::{Target, sized};
use c_types::{CType, Scalar, Structs, offset, size};
use ms_module::{Instr, Segment};
use std::alloc::{AllocError, Global};

/// The most leaves of a struct that is copied.
pub const MOST_LEAVES: usize = 64;

/// A leaf as an element of its array, of which a member that is no array counts as one: where the array begins in the struct, its
/// length in bytes, the index, what the leaf holds, and its size.
#[derive(Clone, Copy)]
pub struct Leaf {
    pub from: u32,
    pub length: u32,
    pub index: u32,
    pub scalar: Scalar,
    pub size: u32,
}

/// Parts of a struct that are still to come.
#[derive(Clone, Copy)]
enum Parts<'s> {
    /// The members of a struct that begins at this place, from this one on.
    Members {
        number: u32,
        at: u32,
        next: u32,
    },
    /// The elements of an array that begins at this place, from this one on: their type, and how many there are.
    Elements {
        ty: &'s CType,
        count: u32,
        at: u32,
        next: u32,
    },
}

/// One part: its type, its place, and the array in which it is an element.
#[derive(Clone, Copy)]
struct Part<'s> {
    ty: &'s CType,
    at: u32,
    from: u32,
    length: u32,
    index: u32,
}

/// How a walk over the parts goes on.
enum Way {
    On,
    /// No parts are left.
    Done,
    /// There are more leaves than are wanted.
    TooMany,
}

/// The leaves of a struct; `None` where there are more than `most`.
pub fn leaves(
    alloc: Global,
    structs: &Structs,
    number: u32,
    most: usize,
) -> Result<Option<Vec<Leaf>>, AllocError>
    ensures are { IfOk result (λ o. MatchOption o (most < length (leaves structs.now number)) (λ v. AreLeaves structs.now (leaves structs.now number) v.items)) }
    ensures few { IfOk result (λ o. IfSome o (λ v. length (leaves structs.now number) ≤ most)) }
{
    let mut leaves = Vec::new(alloc);
    if !structs.is_defined(number) {
        return Ok(Some(leaves));
    }
    // Each place in it is a number of 32 bits.
    if u32::try_from(size(structs, &CType::Struct(number))).is_err() {
        return Err(AllocError);
    }
    let mut waiting = Vec::new(alloc);
    waiting.push(Parts::Members {
        number,
        at: 0,
        next: 0,
    })?;
    for _ in 0..u64::MAX {
        match turn(structs, most, &mut leaves, &mut waiting)? {
            Way::On => {}
            Way::Done => return Ok(Some(leaves)),
            Way::TooMany => return Ok(None),
        }
    }
    // No such struct has so many parts.
    Err(AllocError)
}

/// Takes the next part.
fn turn<'s>(
    structs: &'s Structs,
    most: usize,
    leaves: &mut Vec<Leaf>,
    waiting: &mut Vec<Parts<'s>>,
) -> Result<Way, AllocError>
    requires { IsLaidOut structs.now }
    ensures { (all : List words.Leaf) → Walks structs.now most leaves.old.items (stack_left structs.now waiting.old.items) all
        → IfOk result (λ t. Goes structs.now most leaves.new.items (stack_left structs.now waiting.new.items) all t) }
{
    let Some(parts) = waiting.pop() else {
        return Ok(Way::Done);
    };
    let Some((part, rest)) = next_part(structs, parts)? else {
        return Ok(Way::On);
    };
    waiting.push(rest)?;
    let Some(scalar) = part.ty.scalar() else {
        let Some(inside) = parts_of(&part) else {
            return Err(AllocError);
        };
        waiting.push(inside)?;
        return Ok(Way::On);
    };
    if leaves.len() >= most {
        return Ok(Way::TooMany);
    }
    leaves.push(leaf_of(structs, &part, scalar)?)?;
    Ok(Way::On)
}

/// The next of these parts, and the others.
fn next_part<'s>(
    structs: &'s Structs,
    parts: Parts<'s>,
) -> Result<Option<(Part<'s>, Parts<'s>)>, AllocError>
    requires { IsLaidOut structs.now }
    ensures { IfOk result (λ o. MatchOption o (parts_left structs.now parts.entry ≡ []) (λ p. parts_left structs.now parts.entry ≡ part_left structs.now p.0 ++ parts_left structs.now p.1)) }
{
    match parts {
        Parts::Members { number, at, next } => next_member(structs, number, at, next),
        Parts::Elements {
            ty,
            count,
            at,
            next,
        } => next_element(structs, ty, count, at, next),
    }
}

fn next_member<'s>(
    structs: &'s Structs,
    number: u32,
    at: u32,
    next: u32,
) -> Result<Option<(Part<'s>, Parts<'s>)>, AllocError>
    requires { IsLaidOut structs.now }
    ensures { IfOk result (λ o. MatchOption o (members_left structs.now number at next ≡ []) (λ p. members_left structs.now number at next ≡ part_left structs.now p.0 ++ parts_left structs.now p.1)) }
{
    let Some(ty) = member_type(structs, number, next) else {
        return Ok(None);
    };
    let Ok(offset) = u32::try_from(offset(structs, &CType::Struct(number), next)) else {
        return Err(AllocError);
    };
    let from = sum(at, offset)?;
    let part = Part {
        ty,
        at: from,
        from,
        length: sized(structs, ty)?,
        index: 0,
    };
    let rest = Parts::Members {
        number,
        at,
        next: sum(next, 1)?,
    };
    Ok(Some((part, rest)))
}

fn next_element<'s>(
    structs: &Structs,
    ty: &'s CType,
    count: u32,
    at: u32,
    next: u32,
) -> Result<Option<(Part<'s>, Parts<'s>)>, AllocError>
    ensures { IfOk result (λ o. MatchOption o (elements_left structs.now (type_of ty.now) count at next ≡ []) (λ p. elements_left structs.now (type_of ty.now) count at next ≡ part_left structs.now p.0 ++ parts_left structs.now p.1)) }
{
    if next >= count {
        return Ok(None);
    }
    let size = sized(structs, ty)?;
    let part = Part {
        ty,
        at: sum(at, product(next, size)?)?,
        from: at,
        length: product(count, size)?,
        index: next,
    };
    let rest = Parts::Elements {
        ty,
        count,
        at,
        next: sum(next, 1)?,
    };
    Ok(Some((part, rest)))
}

/// The type of a member, if there is one.
fn member_type(structs: &Structs, number: u32, member: u32) -> Option<&CType>
    ensures { MatchOption result (length (members_of structs.now (struct number)) ≤ member) (λ t. slice_get (members_of structs.now (struct number)) member ≡ Some (type_of t.now)) }
{
    if !structs.is_defined(number) {
        return None;
    }
    structs.members(number).get(member as usize)
}

/// What is in a part that is an array or a struct.
fn parts_of<'s>(part: &Part<'s>) -> Option<Parts<'s>>
    ensures { (structs : Table) → IsLaidOut structs → IfSome result (λ parts. part_left structs part.now ≡ parts_left structs parts) }
{
    match part.ty {
        CType::Struct(n) => Some(Parts::Members {
            number: *n,
            at: part.at,
            next: 0,
        }),
        CType::Array(ty, count) => Some(Parts::Elements {
            ty,
            count: *count,
            at: part.at,
            next: 0,
        }),
        CType::Void => None,
        CType::Int(_) => None,
        CType::Pointer(_) => None,
        CType::Function(_) => None,
    }
}

/// A part that holds one value.
fn leaf_of(structs: &Structs, part: &Part, scalar: Scalar) -> Result<Leaf, AllocError>
    requires { scalar_of (type_of part.now.ty.now) ≡ Some scalar }
    ensures { IfOk result (λ k. IsLeaf structs.now (leaf_in part.now) k) }
{
    Ok(Leaf {
        from: part.from,
        length: part.length,
        index: part.index,
        scalar,
        size: sized(structs, part.ty)?,
    })
}

/// The sum of two numbers. `Err`: it is no number of 32 bits.
pub fn sum(a: u32, b: u32) -> Result<u32, AllocError>
    ensures { IfOk result (λ n. n ≡ a + b) }
{
    match a.checked_add(b) {
        Some(n) => Ok(n),
        None => Err(AllocError),
    }
}

fn product(a: u32, b: u32) -> Result<u32, AllocError>
    ensures { IfOk result (λ n. n ≡ a * b) }
{
    match a.checked_mul(b) {
        Some(n) => Ok(n),
        None => Err(AllocError),
    }
}

/// Copies each leaf of a struct from one handle to another, both in locals.
pub fn copy_leaves(
    body: &mut Body,
    t: &Target,
    number: u32,
    from: u32,
    to: u32,
) -> Result<(), AllocError>
    requires from { from ≡ scratch_handle t.now.target }
    requires to { to ≡ scratch_place t.now.target }
    ensures { OnOk result (Adds body.old body.new (code.leaves_copied t.now.target (leaves t.now.target.structs number))) }
{
    let Some(leaves) = leaves(t.alloc(), t.structs(), number, MOST_LEAVES)? else {
        return Err(AllocError);
    };
    copy_all(body, &leaves, from, to)
}

fn copy_all(body: &mut Body, leaves: &[Leaf], from: u32, to: u32) -> Result<(), AllocError>
    ensures { OnOk result (Adds body.old body.new (copies_of leaves.now from to)) }
{
    for leaf in leaves {
        copy_leaf(body, *leaf, from, to)?;
    }
    Ok(())
}

#[tactic(auto, using(crate::proofs::Steps::then))]
fn copy_leaf(body: &mut Body, leaf: Leaf, from: u32, to: u32) -> Result<(), AllocError>
    ensures { OnOk result (Adds body.old body.new (handle_of leaf to ⨾ moved leaf from)) }
{
    leaf_handle(body, leaf, to)?;
    move_leaf(body, leaf, from)
}

/// Copies a leaf to the handle on the stack.
#[tactic(auto, using(crate::proofs::Steps::then))]
fn move_leaf(body: &mut Body, leaf: Leaf, from: u32) -> Result<(), AllocError>
    ensures { OnOk result (Adds body.old body.new (moved leaf from)) }
{
    leaf_handle(body, leaf, from)?;
    add_two(body, load(leaf.scalar), store(leaf.scalar))
}

/// The handle of a leaf.
#[tactic(auto, using(crate::proofs::Steps::then))]
fn leaf_handle(body: &mut Body, leaf: Leaf, handle: u32) -> Result<(), AllocError>
    ensures { OnOk result (Adds body.old body.new (handle_of leaf handle)) }
{
    add(body, Instr::LocalGet(handle))?;
    narrow_to_leaf(body, leaf)
}

/// From the handle of the struct to that of a leaf.
#[tactic(auto, using(crate::proofs::Steps::then))]
fn narrow_to_leaf(body: &mut Body, leaf: Leaf) -> Result<(), AllocError>
    ensures { OnOk result (Adds body.old body.new (narrowed leaf)) }
{
    add_three(
        body,
        i32_of(leaf.from),
        i32_of(leaf.length),
        Instr::Segment(Segment::Slice),
    )?;
    add_two(
        body,
        i64_of(u64::from(leaf.index)),
        Instr::Segment(Segment::Add(leaf.size)),
    )
}
