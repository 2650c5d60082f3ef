//! Sizes, alignments and offsets.

ghost use Rattle.std.specs.Prelude.{◌≡◌, ℕ, ◌+◌, ◌^◌, ◌<◌, ◌≤◌, IfOk, length, max};
ghost use Rattle.std.specs.List.{All};
ghost use Rattle.c_types.specs.Layout as words;
ghost use Rattle.c_types.specs.Layout.{HasSize, IsCounted, IsSmall, laid_out, pointer_size, most_bytes};
ghost use Rattle.c_types.specs.Types.{type_of};
ghost use Rattle.c_types.specs.refinement.Views.{layout_of, table_of, types_in};

use crate::definition::Definition;
use crate::types::CType;
use std::alloc::{AllocError, Global};

/// The most bytes of a type, and the most elements of an array.
pub const MOST_BYTES: u64 = 0x4000_0000;

/// The bytes of a pointer to a function.
const FUNCTION_POINTER: u8 = 4;

/// The bytes of a pointer to anything else.
const OBJECT_POINTER: u8 = 16;

/// The bytes of a pointer to the type, which are its alignment, too.
fn pointer_size(target: &CType) -> u8
    ensures { result ≡ pointer_size (type_of target.now) }
{
    if target.is_function() {
        FUNCTION_POINTER
    } else {
        OBJECT_POINTER
    }
}

/// The size of a type, in bytes.
pub fn size_in(definitions: &[Option<Definition>], t: &CType) -> u64
    requires sized { HasSize (table_of definitions.now) (type_of t.now) }
    requires counted { IsCounted (table_of definitions.now) (type_of t.now) }
    ensures { result ≡ words.size (table_of definitions.now) (type_of t.now) }
{
    match t {
        CType::Int(t) => u64::from(t.bits() / 8),
        CType::Struct(n) => defined(definitions, *n).size,
        CType::Pointer(target) => u64::from(pointer_size(target)),
        CType::Array(element, n) => u64::from(*n) * size_in(definitions, element),
        CType::Void => unreachable!(),
        CType::Function(_) => unreachable!(),
    }
}

/// The alignment of a type, from 1 to 16.
pub fn align_in(definitions: &[Option<Definition>], t: &CType) -> u8
    requires { HasSize (table_of definitions.now) (type_of t.now) }
    ensures is { result ≡ words.align (table_of definitions.now) (type_of t.now) }
    ensures positive { 0 < result }
    ensures most { result ≤ 16 }
{
    match t {
        CType::Int(t) => t.bits() / 8,
        CType::Struct(n) => defined(definitions, *n).align,
        CType::Pointer(target) => pointer_size(target),
        CType::Array(element, _) => align_in(definitions, element),
        CType::Void => unreachable!(),
        CType::Function(_) => unreachable!(),
    }
}

/// What is kept of a struct that is defined.
pub fn defined(definitions: &[Option<Definition>], number: u32) -> &Definition
    requires { words.IsDefined (table_of definitions.now) number }
    ensures { words.layout_at (table_of definitions.now) number ≡ Some (layout_of result.now) }
{
    match &definitions[number as usize] {
        Some(definition) => definition,
        None => unreachable!(),
    }
}

/// The next place of an alignment.
fn round_up(align: u8, n: u64) -> u64
    requires positive { 0 < align }
    requires most { align ≤ 16 }
    requires small { n < 2 ^ 63 }
    ensures is { result ≡ words.round_up align n }
    ensures near { result < n + 16 }
{
    let align = u64::from(align);
    (n + align - 1) / align * align
}

/// The larger of two alignments.
fn larger(a: u8, b: u8) -> u8
    ensures { result ≡ max a b }
{
    if a < b { b } else { a }
}

/// The larger of two depths.
fn deeper(a: u64, b: u64) -> u64
    ensures { result ≡ max a b }
{
    if a < b { b } else { a }
}

/// How deep structs lie in a type.
fn depth_in(definitions: &[Option<Definition>], t: &CType) -> u64
    ensures { result ≡ words.depth (table_of definitions.now) (type_of t.now) }
{
    match t {
        CType::Struct(n) => depth_at(definitions, *n),
        CType::Array(element, _) => depth_in(definitions, element),
        CType::Void => 0,
        CType::Int(_) => 0,
        CType::Pointer(_) => 0,
        CType::Function(_) => 0,
    }
}

/// How deep structs lie in a struct, which is itself counted where it is defined.
fn depth_at(definitions: &[Option<Definition>], number: u32) -> u64
    ensures { result ≡ words.depth_in (words.layout_at (table_of definitions.now) number) }
{
    match definitions.get(number as usize) {
        Some(Some(definition)) => definition.depth,
        Some(None) => 0,
        None => 0,
    }
}

/// The greatest depth of types.
fn deepest(definitions: &[Option<Definition>], members: &[CType]) -> u64
    ensures { result ≡ words.deepest_from (table_of definitions.now) 0 (types_in members.now) }
{
    let mut depth = 0;
    for member in members {
        depth = deeper(depth, depth_in(definitions, member));
    }
    depth
}

/// A struct with these members, each at the next place of its alignment.
pub fn lay_out(
    alloc: Global,
    definitions: &[Option<Definition>],
    members: Vec<CType>,
) -> Result<Definition, AllocError>
    requires parts { All (IsSmall (table_of definitions.now)) (types_in members.items) }
    requires count { length members.items ≤ most_bytes }
    ensures { IfOk result (λ d. layout_of d ≡ laid_out (table_of definitions.now) (types_in members.items)) }
{
    let below = deepest(definitions, members.as_slice());
    let Some(depth) = below.checked_add(1) else {
        return Err(AllocError);
    };
    let mut offsets = Vec::new(alloc);
    let mut end = 0;
    let mut align = 1;
    for member in &members {
        let needed = align_in(definitions, member);
        let here = round_up(needed, end);
        offsets.push(here)?;
        end = here + size_in(definitions, member);
        align = larger(align, needed);
    }
    Ok(Definition {
        size: round_up(align, end),
        members,
        offsets,
        align,
        depth,
    })
}
