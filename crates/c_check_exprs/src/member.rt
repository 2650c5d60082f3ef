//! Members and elements (C11, 6.5.2.1 and 6.5.2.3).

ghost use Rattle.std.specs.Prelude.{◌≡◌, slice_get};
ghost use Rattle.c_types.specs.Layout.{members_of};
ghost use Rattle.c_types.specs.Types.{struct, type_of};
ghost use Rattle.c_typed.specs.refinement.Views.{place_of};
ghost use Rattle.c_check_types.specs.refinement.Views.{Obeys, Gives, state_of};
ghost use Rattle.c_check_exprs.specs.Expressions as words;
ghost use Rattle.c_typed.specs.refinement.FormViews.{form_of, integer_pair, value_pair};
ghost use Rattle.c_check_exprs.specs.refinement.Views.{numbered_type};

use crate::name::type_at;
use crate::unary::place_at;
use c_check_types::{Checker, Stop};
use c_conversions::{as_place, pointer_of};
use c_tree::Access;
use c_typed::{Expr, Form, Place, at_type, boxed};
use c_types::{CType, IntType, Structs};

/// The type of a struct's member, by its number.
pub fn member_type(structs: &Structs, n: u32, m: u32) -> Result<CType, Stop>
    ensures { Gives type_of (slice_get (members_of structs.now (struct n)) m) result }
{
    if structs.is_defined(n) {
        type_at(structs.members(n), m)
    } else {
        Err(Stop::NoTyping)
    }
}

/// The number and the type of a struct's member.
fn member_named(checker: &Checker, n: u32, name: &[u8]) -> Result<(u32, CType), Stop>
    ensures { Obeys numbered_type (words.member_named n name.now) (state_of checker.now) (state_of checker.now) result }
{
    let Some(names) = checker.members.get(n as usize) else {
        return Err(Stop::NoTyping);
    };
    let Some(m) = names.find(name) else {
        return Err(Stop::NoTyping);
    };
    let Ok(m) = u32::try_from(m) else {
        return Err(Stop::Memory);
    };
    let t = member_type(&checker.structs, n, m)?;
    Ok((m, t))
}

/// A member of a place.
fn member_in<'a>(
    checker: &Checker<'a>,
    p: Box<Place>,
    t: CType,
    name: &[u8],
) -> Result<Form<'a>, Stop>
    ensures { Obeys form_of (words.member_in (place_of p.value) (type_of t) name.now) (state_of checker.now) (state_of checker.now) result }
{
    match t {
        CType::Struct(n) => {
            let (m, t) = member_named(checker, n, name)?;
            let p = boxed(checker.alloc, Place::Member(p, n, m))?;
            Ok(Form::Place(p, t))
        }
        CType::Void => Err(Stop::NoTyping),
        CType::Int(_) => Err(Stop::NoTyping),
        CType::Pointer(_) => Err(Stop::NoTyping),
        CType::Array(_, _) => Err(Stop::NoTyping),
        CType::Function(_) => Err(Stop::NoTyping),
    }
}

/// `e.m` and `e->m` (C11, 6.5.2.3).
pub fn member<'a>(
    checker: &mut Checker<'a>,
    op: Access,
    f: Form<'a>,
    name: &[u8],
) -> Result<Form<'a>, Stop>
    ensures { Obeys form_of (words.member op (form_of f.entry) name.now) (state_of checker.old) (state_of checker.new) result }
{
    match op {
        Access::Dot => {
            let (p, t) = as_place(f)?;
            member_in(checker, p, t, name)
        }
        Access::Arrow => {
            let (e, t) = pointer_of(checker, f)?;
            let p = boxed(checker.alloc, Place::Deref(e))?;
            member_in(checker, p, t, name)
        }
    }
}

/// `e[i]` (C11, 6.5.2.1).
pub fn element<'a>(
    checker: &mut Checker<'a>,
    p: (Box<Expr>, CType),
    i: (Box<Expr>, IntType),
) -> Result<Form<'a>, Stop>
    ensures { Obeys form_of (words.element (value_pair p) (integer_pair i)) (state_of checker.old) (state_of checker.new) result }
{
    let (p, t) = p;
    let (i, u) = i;
    checker.size_of(&t)?;
    let i = at_type(checker.alloc, u, IntType::LongLong, i)?;
    let e = boxed(checker.alloc, Expr::Move(t.share()?, false, p, i))?;
    Ok(place_at(checker.alloc, e, t)?)
}
