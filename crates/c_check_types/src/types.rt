//! Types: whether two are the same, and how large one is.

ghost use Rattle.std.specs.Prelude.{◌≡◌, ◌≤◌, ◌&&◌, IfOk, IfSome, Some};
ghost use Rattle.c_types.specs.Layout.{most_bytes};
ghost use Rattle.c_types.specs.Layout as layout;
ghost use Rattle.c_types.specs.Types.{function, type_of};
ghost use Rattle.c_types.specs.refinement.Views.{types_in};
ghost use Rattle.c_check_types.specs.TypeEquality as words;
ghost use Rattle.c_check_types.specs.TypeEquality.{tys_of};
ghost use Rattle.c_check_types.specs.Types.{limited, measured, so_many};

use c_types::{CType, MOST_BYTES, Signature, Structs, same_integer, size};
use std::alloc::{AllocError, Global};
use std::rc::Rc;

/// Whether two types are the same (C11, 6.2.7).
#[cycle(same)]
#[tactic(auto, using(crate::proofs::TypeLists::same_functions))]
pub fn same_type(t: &CType, u: &CType) -> bool
    ensures { result ≡ words.same_type (type_of t.now) (type_of u.now) }
{
    match t {
        CType::Void => match u {
            CType::Void => true,
            CType::Int(_) => false,
            CType::Struct(_) => false,
            CType::Pointer(_) => false,
            CType::Array(_, _) => false,
            CType::Function(_) => false,
        },
        CType::Int(t) => match u {
            CType::Int(u) => same_integer(*t, *u),
            CType::Void => false,
            CType::Struct(_) => false,
            CType::Pointer(_) => false,
            CType::Array(_, _) => false,
            CType::Function(_) => false,
        },
        CType::Struct(m) => match u {
            CType::Struct(n) => *m == *n,
            CType::Void => false,
            CType::Int(_) => false,
            CType::Pointer(_) => false,
            CType::Array(_, _) => false,
            CType::Function(_) => false,
        },
        CType::Pointer(t) => match u {
            CType::Pointer(u) => same_type(t, u),
            CType::Void => false,
            CType::Int(_) => false,
            CType::Struct(_) => false,
            CType::Array(_, _) => false,
            CType::Function(_) => false,
        },
        CType::Array(t, m) => match u {
            CType::Array(u, n) => *m == *n && same_type(t, u),
            CType::Void => false,
            CType::Int(_) => false,
            CType::Struct(_) => false,
            CType::Pointer(_) => false,
            CType::Function(_) => false,
        },
        CType::Function(f) => match u {
            CType::Function(g) => same_signature(f, g),
            CType::Void => false,
            CType::Int(_) => false,
            CType::Struct(_) => false,
            CType::Pointer(_) => false,
            CType::Array(_, _) => false,
        },
    }
}

/// Whether the results and the parameters of two functions' types are the same (C11, 6.7.6.3, paragraph 15).
#[cycle(same)]
fn same_signature(f: &Signature, g: &Signature) -> bool
    ensures { result ≡ words.same_type (type_of f.now.result) (type_of g.now.result) && words.same_types (tys_of (types_in f.now.params.items)) (tys_of (types_in g.now.params.items)) }
{
    same_type(&f.result, &g.result) && same_types(f.params.as_slice(), g.params.as_slice())
}

/// Whether the types of two lists are the same, one by one.
#[cycle(same)]
#[tactic(auto, using(crate::proofs::TypeLists::lengths_differ))]
fn same_types(ts: &[CType], us: &[CType]) -> bool
    ensures { result ≡ words.same_types (tys_of (types_in ts.now)) (tys_of (types_in us.now)) }
{
    if ts.len() != us.len() {
        return false;
    }
    for i in 0..ts.len() {
        if !same_type(&ts[i], &us[i]) {
            return false;
        }
    }
    true
}

/// The type of a function.
pub fn function_type(
    alloc: Global,
    result_type: CType,
    params: Vec<CType>,
) -> Result<CType, AllocError>
    ensures { IfOk result (λ t. type_of t ≡ function (type_of result_type) (tys_of (types_in params.items))) }
{
    let signature = Rc::new(
        alloc,
        Signature {
            result: result_type,
            params,
        },
    )?;
    Ok(CType::Function(signature))
}

/// The size of a type that has one, at most 2^30 bytes (C11, 6.5.3.4).
pub fn measured(structs: &Structs, t: &CType) -> Option<u64>
    ensures is { result ≡ measured structs.now (type_of t.now) }
    ensures small { IfSome result (λ n. n ≤ most_bytes) }
{
    match t {
        CType::Void => None,
        CType::Int(t) => Some(u64::from(t.bits() / 8)),
        CType::Struct(n) => struct_size(structs, *n),
        CType::Pointer(target) => Some(if target.is_function() { 4 } else { 16 }),
        CType::Array(element, n) => so_many(*n, measured(structs, element)),
        CType::Function(_) => None,
    }
}

/// The size of a struct that is defined.
fn struct_size(structs: &Structs, number: u32) -> Option<u64>
    ensures is { result ≡ limited (layout.layout_at structs.now number) }
    ensures small { IfSome result (λ n. n ≤ most_bytes) }
{
    if !structs.is_defined(number) {
        return None;
    }
    let bytes = size(structs, &CType::Struct(number));
    if bytes <= MOST_BYTES {
        Some(bytes)
    } else {
        None
    }
}

/// The size of so many elements.
fn so_many(n: u32, element: Option<u64>) -> Option<u64>
    requires { IfSome element (λ n. n ≤ most_bytes) }
    ensures is { result ≡ so_many n element }
    ensures small { IfSome result (λ n. n ≤ most_bytes) }
{
    let bytes = element?;
    let count = u64::from(n);
    if 0 < count && count <= MOST_BYTES && count * bytes <= MOST_BYTES {
        Some(count * bytes)
    } else {
        None
    }
}
