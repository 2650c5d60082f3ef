//! Parts of a variable, which its initializer gives one by one.

ghost use Rattle.std.specs.Prelude.{◌≡◌, IfOk};
ghost use Rattle.c_types.specs.Types.{type_of};
ghost use Rattle.c_typed.specs.Parts as words;
ghost use Rattle.c_typed.specs.refinement.Views.{path_place, place_of};

use crate::make::boxed;
use crate::ops::Variable;
use crate::tree::{Expr, Place};
use c_types::{CType, IntType};
use std::alloc::{AllocError, Global};

/// A variable, or a part of it. The place of a part is made where something is written there.
#[derive(Drop)]
pub enum Path<'p> {
    Variable(Variable),
    /// An element of an array: the elements' type, how many there are, and which it is.
    Element(&'p Path<'p>, &'p CType, u32, u32),
    /// A member of a struct, by the struct's number and the member's.
    Member(&'p Path<'p>, u32, u32),
}

/// The place of an element of an array.
fn element_place(
    alloc: Global,
    p: Box<Place>,
    t: &CType,
    n: u32,
    i: u32,
) -> Result<Box<Place>, AllocError>
    ensures { IfOk result (λ r. place_of r.value ≡ words.element_place (place_of p.value) (type_of t.now) n i) }
{
    let first = boxed(alloc, Expr::Decay(t.share()?, n, p))?;
    let index = boxed(alloc, Expr::Number(IntType::LongLong, u64::from(i)))?;
    let e = boxed(alloc, Expr::Move(t.share()?, false, first, index))?;
    boxed(alloc, Place::Deref(e))
}

/// The place of a part.
pub fn place_at(alloc: Global, path: &Path) -> Result<Box<Place>, AllocError>
    ensures { IfOk result (λ r. place_of r.value ≡ path_place path.now) }
{
    match path {
        Path::Variable(v) => boxed(alloc, Place::Of(*v)),
        Path::Element(p, t, n, i) => {
            let p = place_at(alloc, p)?;
            element_place(alloc, p, t, *n, *i)
        }
        Path::Member(p, n, m) => {
            let p = place_at(alloc, p)?;
            boxed(alloc, Place::Member(p, *n, *m))
        }
    }
}
