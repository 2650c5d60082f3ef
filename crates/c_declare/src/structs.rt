//! Structs (C11, 6.7.2.1).

ghost use Rattle.std.specs.Prelude.{◌≡◌, IsTrue, slice_set};
ghost use Rattle.std.specs.List.{All};
ghost use Rattle.c_types.specs.Layout.{IsSmall};
ghost use Rattle.c_types.specs.Types.{type_of};
ghost use Rattle.c_types.specs.refinement.Views.{types_in};
ghost use Rattle.c_check_types.specs.refinement.Views.{Obeys, state_of};
ghost use Rattle.c_declare.specs.Structs as words;
ghost use Rattle.c_declare.specs.refinement.Views.{open_of, opens_of};

use crate::enumerations::enumeration;
use c_check_types::{Checker, Derived, Names, Stop, measured, whole_type};
use c_tree::{Declarator, MemberHead, Members, OuterSpecifier, Piece};
use c_typed::Subject;
use c_types::{CType, MOST_BYTES, Structs};
use std::collections::LinkedList;
use std::mem;

/// A struct whose members are being read: its number, and the names and types of those so far.
#[derive(Drop)]
pub struct Open<'a> {
    number: u32,
    names: Names<'a>,
    types: Vec<CType>,
}

/// Begins the members of a struct.
fn opens_struct<'a>(checker: &mut Checker<'a>, tag: &'a [u8]) -> Result<Open<'a>, Stop>
    ensures { Obeys open_of (words.opens_struct tag.now) (state_of checker.old) (state_of checker.new) result }
{
    let number = checker.tag_number(tag)?;
    Ok(Open {
        number,
        names: Names::new(checker.alloc),
        types: Vec::new(checker.alloc),
    })
}

/// One member more, which is distinct and has a size.
fn with_member<'a>(
    checker: &mut Checker<'a>,
    o: &mut Open<'a>,
    name: &'a [u8],
    t: CType,
) -> Result<(), Stop>
    ensures { Obeys (λ _. open_of o.new) (words.with_member (open_of o.old) name.now (type_of t)) (state_of checker.old) (state_of checker.new) result }
{
    if o.names.find(name).is_some() {
        return Err(Stop::NoTyping);
    }
    checker.size_of(&t)?;
    o.names.add(name)?;
    o.types.push(t)?;
    Ok(())
}

/// A member that a declarator of this type declares.
fn declares_member<'a>(
    checker: &mut Checker<'a>,
    o: &mut Open<'a>,
    b: &CType,
    d: &'a Declarator,
) -> Result<(), Stop>
    ensures { Obeys (λ _. open_of o.new) (words.declares_member (open_of o.old) (type_of b.now) d.now) (state_of checker.old) (state_of checker.new) result }
{
    let x = checker.declared(d, Derived::Whole(b.share()?), Vec::new(checker.alloc))?;
    let Some(name) = x.name else {
        return Err(Stop::NoTyping);
    };
    let t = whole_type(x.derived)?;
    with_member(checker, o, name, t)
}

/// The members that declarators of this type declare.
fn with_members<'a>(
    checker: &mut Checker<'a>,
    o: &mut Open<'a>,
    b: &CType,
    ds: &'a [Declarator],
) -> Result<(), Stop>
    ensures { Obeys (λ _. open_of o.new) (words.with_members (open_of o.old) (type_of b.now) ds.now) (state_of checker.old) (state_of checker.new) result }
{
    for d in ds {
        match declares_member(checker, o, b, d) {
            Ok(()) => (),
            Err(e) => return Err(e),
        }
    }
    Ok(())
}

/// Whether each type has a size, and is small enough for a part of a struct.
fn are_small(structs: &Structs, types: &[CType]) -> bool
    ensures { IsTrue result → All (IsSmall structs.now) (types_in types.now) }
{
    for t in types {
        let Some(_) = measured(structs, t) else {
            return false;
        };
    }
    true
}

/// Keeps the names of a struct's members.
fn keeps_names<'a>(members: &mut Vec<Names<'a>>, number: u32, names: Names<'a>)
    ensures { members.new.items ≡ slice_set members.old.items number names.entry }
{
    let number = number as usize;
    if number < members.len() {
        let _none = mem::replace(&mut members[number], names);
    }
}

/// Whether there is a member (C11, 6.7.2.1, paragraph 8).
fn has_members(types: &[CType]) -> bool
    ensures { result ≡ words.has_members (types_in types.now) }
{
    match types {
        [] => false,
        [_, ..] => true,
    }
}

/// Defines a struct, which isn't defined so far and isn't too large.
fn defines<'a>(checker: &mut Checker<'a>, o: Open<'a>) -> Result<CType, Stop>
    ensures { Obeys type_of (words.defines (open_of o.entry)) (state_of checker.old) (state_of checker.new) result }
{
    let Open {
        number,
        names,
        types,
    } = o;
    if !checker.structs.is_undefined(number) {
        return Err(Stop::NoTyping);
    }
    if !has_members(types.as_slice()) {
        return Err(Stop::NoTyping);
    }
    // Each member has a byte at least.
    if MOST_BYTES < types.len() as u64 {
        return Err(Stop::NoTyping);
    }
    // Each had a size where it was declared, and keeps it, so that this never comes.
    if !are_small(&checker.structs, types.as_slice()) {
        return Err(Stop::Memory);
    }
    checker.structs.define(checker.alloc, number, types)?;
    keeps_names(&mut checker.members, number, names);
    checker.added(Subject::Members(number))?;
    let t = CType::Struct(number);
    checker.size_of(&t)?;
    Ok(t)
}

/// Closes the innermost struct, which stands in another one.
fn closes<'a>(checker: &mut Checker<'a>, opens: &mut LinkedList<Open<'a>>) -> Result<CType, Stop>
    ensures { Obeys (λ t. (type_of t, opens_of opens.new)) (words.closes (opens_of opens.old)) (state_of checker.old) (state_of checker.new) result }
{
    let Some(o) = opens.pop_front() else {
        return Err(Stop::NoTyping);
    };
    if opens.is_empty() {
        return Err(Stop::NoTyping);
    }
    defines(checker, o)
}

/// Members of the innermost struct.
fn in_front<'a>(
    checker: &mut Checker<'a>,
    opens: &mut LinkedList<Open<'a>>,
    b: &CType,
    ds: &'a [Declarator],
) -> Result<(), Stop>
    ensures { Obeys (λ _. opens_of opens.new) (words.in_front (opens_of opens.old) (type_of b.now) ds.now) (state_of checker.old) (state_of checker.new) result }
{
    let Some(mut o) = opens.pop_front() else {
        return Err(Stop::NoTyping);
    };
    with_members(checker, &mut o, b, ds)?;
    opens.push_front(o)?;
    Ok(())
}

/// A part of a struct's members.
fn piece<'a>(
    checker: &mut Checker<'a>,
    opens: &mut LinkedList<Open<'a>>,
    p: &'a Piece,
) -> Result<(), Stop>
    ensures { Obeys (λ _. opens_of opens.new) (words.piece (opens_of opens.old) p.now) (state_of checker.old) (state_of checker.new) result }
{
    match p {
        Piece::Opens(tag) => {
            let o = opens_struct(checker, tag.as_slice())?;
            opens.push_front(o)?;
            Ok(())
        }
        Piece::Member(MemberHead::Specifier(s), ds) => {
            let b = checker.specified(s.node())?;
            in_front(checker, opens, &b, ds.items())
        }
        Piece::Member(MemberHead::Enum(tag, xs, _), ds) => {
            let b = enumeration(checker, tag, xs)?;
            in_front(checker, opens, &b, ds.items())
        }
        Piece::Member(MemberHead::Close, ds) => {
            let b = closes(checker, opens)?;
            in_front(checker, opens, &b, ds.items())
        }
    }
}

/// The parts of a struct's members, in order.
fn all_pieces<'a>(
    checker: &mut Checker<'a>,
    opens: &mut LinkedList<Open<'a>>,
    ps: &'a [Piece],
) -> Result<(), Stop>
    ensures { Obeys (λ _. opens_of opens.new) (words.all_pieces (opens_of opens.old) ps.now) (state_of checker.old) (state_of checker.new) result }
{
    for p in ps {
        match piece(checker, opens, p) {
            Ok(()) => (),
            Err(e) => return Err(e),
        }
    }
    Ok(())
}

/// Defines the struct that is open, the only one.
fn last_one<'a>(checker: &mut Checker<'a>, mut opens: LinkedList<Open<'a>>) -> Result<CType, Stop>
    ensures { Obeys type_of (words.last_one (opens_of opens.entry)) (state_of checker.old) (state_of checker.new) result }
{
    let Some(o) = opens.pop_front() else {
        return Err(Stop::NoTyping);
    };
    if !opens.is_empty() {
        return Err(Stop::NoTyping);
    }
    defines(checker, o)
}

/// A struct that is defined by its members.
fn struct_defined<'a>(
    checker: &mut Checker<'a>,
    tag: &'a [u8],
    members: &'a Members,
) -> Result<CType, Stop>
    ensures { Obeys type_of (words.struct_defined tag.now members.now) (state_of checker.old) (state_of checker.new) result }
{
    let o = opens_struct(checker, tag)?;
    let mut opens = LinkedList::new(checker.alloc);
    opens.push_front(o)?;
    all_pieces(checker, &mut opens, members.items())?;
    last_one(checker, opens)
}

/// The type of a specifier at file scope.
pub fn outer<'a>(checker: &mut Checker<'a>, s: &'a OuterSpecifier) -> Result<CType, Stop>
    ensures { Obeys type_of (words.outer s.now) (state_of checker.old) (state_of checker.new) result }
{
    match s {
        OuterSpecifier::Plain(s) => checker.specified(s.node()),
        OuterSpecifier::Struct(tag, members) => struct_defined(checker, tag.as_slice(), members),
        OuterSpecifier::Enum(tag, xs, _) => enumeration(checker, tag, xs),
    }
}
