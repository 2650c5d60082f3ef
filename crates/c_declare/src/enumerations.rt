//! Enumerated types (C11, 6.7.2.2).

ghost use Rattle.std.specs.Prelude.{◌≡◌, [], Some, IfOk};
ghost use Rattle.c_types.specs.Types.{type_of};
ghost use Rattle.c_check_types.specs.refinement.Views.{Obeys, state_of};
ghost use Rattle.c_declare.specs.Enumerations as words;

use crate::scope::enters_constant;
use c_check_types::{Checker, Stop, int_of, owned};
use c_token::Bytes;
use c_tree::{Enumerator as Written, Enumerators, Expr};
use c_typed::{Enumeration, Enumerator, Subject};
use c_types::{CType, IntType};
use std::alloc::{AllocError, Global};

/// The number behind the last one, where int holds it.
fn following(n: u32) -> Option<u32>
    ensures { result ≡ words.following n }
{
    if n == 0x7FFF_FFFF {
        None
    } else {
        Some(n.wrapping_add(1))
    }
}

/// The number that is written, or what follows.
fn enumerator_value<'a>(
    checker: &mut Checker<'a>,
    e: &'a Option<Expr>,
    next: Option<u32>,
) -> Result<u32, Stop>
    ensures { Obeys (λ n. n) (words.enumerator_value e.now next) (state_of checker.old) (state_of checker.new) result }
{
    match e {
        None => next.ok_or(Stop::NoTyping),
        Some(e) => {
            let c = checker.constant(e)?;
            int_of(c).ok_or(Stop::NoTyping)
        }
    }
}

/// An enumerator; its number.
fn enumerator<'a>(checker: &mut Checker<'a>, x: &'a Written, next: Option<u32>) -> Result<u32, Stop>
    ensures { Obeys (λ n. n) (words.enumerator x.now next) (state_of checker.old) (state_of checker.new) result }
{
    let n = enumerator_value(checker, &x.value, next)?;
    enters_constant(checker, x.name.as_slice(), n)?;
    Ok(n)
}

/// Enumerators, in order.
fn enumerators<'a>(checker: &mut Checker<'a>, xs: &'a [Written]) -> Result<Vec<Enumerator>, Stop>
    ensures { Obeys (λ es. es.items) (words.enumerators xs.now (Some 0) []) (state_of checker.old) (state_of checker.new) result }
{
    let mut kept = Vec::new(checker.alloc);
    let mut next = Some(0);
    for x in xs {
        match enumerator(checker, x, next) {
            Ok(n) => {
                kept.push(Enumerator {
                    name: owned(checker.alloc, x.name.as_slice())?,
                    bits: n,
                })?;
                next = following(n);
            }
            Err(e) => return Err(e),
        }
    }
    Ok(kept)
}

/// The tag of an enumerated type, which is defined once and is none of a struct (C11, 6.7.2.3).
fn enters_enum_tag<'a>(checker: &mut Checker<'a>, tag: &'a Option<Bytes>) -> Result<(), Stop>
    ensures { Obeys (λ _. tt) (words.enters_enum_tag tag.now) (state_of checker.old) (state_of checker.new) result }
{
    let Some(tag) = tag else {
        return Ok(());
    };
    if checker.tags.find(tag.as_slice()).is_some() {
        return Err(Stop::NoTyping);
    }
    if checker.enum_tags.find(tag.as_slice()).is_some() {
        return Err(Stop::NoTyping);
    }
    checker.enum_tags.add(tag.as_slice())?;
    Ok(())
}

/// The tag, if there is one, in memory of its own.
fn copied(alloc: Global, tag: &Option<Bytes>) -> Result<Option<Bytes>, AllocError>
    ensures { IfOk result (λ t. t ≡ tag.now) }
{
    match tag {
        None => Ok(None),
        Some(tag) => Ok(Some(owned(alloc, tag.as_slice())?)),
    }
}

/// Keeps an enumerated type that is defined.
fn keeps_enumeration<'a>(
    checker: &mut Checker<'a>,
    tag: &Option<Bytes>,
    constants: Vec<Enumerator>,
) -> Result<(), Stop>
    ensures { Obeys (λ _. tt) (words.keeps_enumeration tag.now constants.items) (state_of checker.old) (state_of checker.new) result }
{
    let Ok(n) = u32::try_from(checker.enumerations.len()) else {
        return Err(Stop::Memory);
    };
    let tag = copied(checker.alloc, tag)?;
    checker.enumerations.push(Enumeration { tag, constants })?;
    checker.added(Subject::Enumeration(n))
}

/// An enumerated type that is defined by its enumerators.
pub fn enumeration<'a>(
    checker: &mut Checker<'a>,
    tag: &'a Option<Bytes>,
    xs: &'a Enumerators,
) -> Result<CType, Stop>
    ensures { Obeys type_of (words.enumeration tag.now xs.now) (state_of checker.old) (state_of checker.new) result }
{
    let constants = enumerators(checker, xs.items())?;
    enters_enum_tag(checker, tag)?;
    keeps_enumeration(checker, tag, constants)?;
    Ok(CType::Int(IntType::Int))
}
