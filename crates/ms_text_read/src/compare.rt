//! Comparing function types as they are written (WebAssembly 1.0, 6.6.3).

ghost use Rattle.std.specs.Prelude.{◌≡◌, Option};
ghost use lib.Pointwise.{pointwise};
ghost use Rattle.ms_text_grammar.specs.Scans.{is_other};
ghost use Rattle.ms_text_grammar.specs.Shapes.{field_type, is_written, param_types, same_shape, same_type, use_type};

use ms_text_grammar::{Param, TypeField, TypeUse};
use ms_types::ValType;

fn same_type(a: ValType, b: ValType) -> bool
    ensures { result ≡ same_type a b }
{
    match a {
        ValType::I32 => matches!(b, ValType::I32),
        ValType::I64 => matches!(b, ValType::I64),
        ValType::Handle => matches!(b, ValType::Handle),
    }
}

fn same_types(first: &[ValType], second: &[ValType]) -> bool
    ensures { result ≡ pointwise same_type first.now second.now }
{
    let mut a = first;
    let mut b = second;
    while let [x, xs @ ..] = a {
        let [y, ys @ ..] = b else {
            return false;
        };
        if !same_type(*x, *y) {
            return false;
        }
        a = xs;
        b = ys;
    }
    b.is_empty()
}

fn same_params(first: &[Param], second: &[Param]) -> bool
    ensures { result ≡ pointwise same_type (param_types first.now) (param_types second.now) }
{
    let mut a = first;
    let mut b = second;
    while let [x, xs @ ..] = a {
        let [y, ys @ ..] = b else {
            return false;
        };
        if !same_type(x.ty, y.ty) {
            return false;
        }
        a = xs;
        b = ys;
    }
    match b {
        [] => true,
        [_, ..] => false,
    }
}

fn is_written(sig: &TypeUse) -> bool
    ensures { result ≡ is_written sig.now }
{
    !(sig.params.is_empty() && sig.results.is_empty())
}

fn same_shape(field: &TypeField, sig: &TypeUse) -> bool
    ensures { result ≡ same_shape (field_type field.now) (use_type sig.now) }
{
    same_params(field.params.as_slice(), sig.params.as_slice())
        && same_types(field.results.as_slice(), sig.results.as_slice())
}

/// Whether a type field differs from what a use writes beside its `(type x)`.
pub fn is_other(field: &TypeField, sig: &TypeUse) -> bool
    ensures { result ≡ is_other (Option.Some field.now) sig.now }
{
    if !is_written(sig) {
        return false;
    }
    !same_shape(field, sig)
}
