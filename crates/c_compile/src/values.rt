//! The code of places and expressions (C11, 6.5): a function for each node, and a table of them.

ghost use Rattle.std.specs.Prelude.{suc, true, false, [], ◌∷◌, None, OnOk};
ghost use Rattle.c_types.specs.Layout.{size};
ghost use Rattle.c_types.specs.Types.{type_of};
ghost use Rattle.c_types.specs.declared.integers.IntType.TheVariants as integers;
ghost use Rattle.c_types.specs.declared.types.Scalar.TheVariants as scalars;
ghost use Rattle.c_typed.specs.declared.ops.RelOp.TheVariants as relations;
ghost use Rattle.c_typed.specs.declared.ops.UnaryOp.TheVariants as unaries;
ghost use Rattle.c_typed.specs.Tree as tree;
ghost use Rattle.c_typed.specs.refinement.Views.{expr_of, place_of};
ghost use Rattle.c_place.specs.refinement.Lists.{exprs_in};
ghost use Rattle.c_code.specs.Expressions as words;
ghost use Rattle.c_code.specs.Expressions.{is_deref};
ghost use Rattle.c_code.specs.Operations as operations;
ghost use Rattle.c_code.specs.Targets as targets;
ghost use Rattle.ms_emit.specs.Codes.{one, plain, ◌⨾◌};
ghost use Rattle.ms_emit.specs.refinement.Parts.{Adds};
ghost use Rattle.ms_module.specs.declared.access.Segment.TheVariants as segments;
ghost use Rattle.ms_module.specs.declared.instr.Instr.TheVariants as instrs;

use crate::known::{Known, known_of};
use c_emit::accesses::{
    copy_struct, fetch, fetch_above, fetch_around, free_heap, function, literal, new_heap,
    new_known, new_product, slice, slice_of, variable, variable_twice, write, write_kept,
};
use c_emit::adding::{add, add_two, begin, end, turn};
use c_emit::body::Body;
use c_emit::conversions::{convert, truth};
use c_emit::leaves::sum;
use c_emit::operations::{converted_number, eqz, number};
use c_emit::operators::{
    begin_choice, call_function, call_waiting, compare, compare_functions, complement, constant,
    differ, operate, order, step_back, step_by, step_on, subtract, wait, zero,
};
use c_emit::target::Target;
use c_typed::{BinaryOp, Expr, Place, RelOp as Relation, UnaryOp};
use c_types::{CType, IntType, Scalar};
use ms_module::{Instr, Numeric, Opening, Segment};
use ms_types::ValType;
use std::alloc::AllocError;

// ---- places (6.5.3.2, 6.5.2.3)

/// The handle of a place.
#[cycle(values)]
pub fn place(body: &mut Body, t: &Target, d: u32, p: &Place) -> Result<(), AllocError>
    ensures { OnOk result (Adds body.old body.new (words.place t.now.target d (place_of p.now))) }
{
    match p {
        Place::Of(v) => variable(body, t, *v),
        Place::Deref(e) => value(body, t, d, e),
        Place::Member(p, n, m) => member(body, t, d, p, *n, *m),
    }
}

#[cycle(values)]
fn member(body: &mut Body, t: &Target, d: u32, p: &Place, n: u32, m: u32) -> Result<(), AllocError>
    ensures { OnOk result (Adds body.old body.new (words.place t.now.target d (tree.member (place_of p.now) n m))) }
{
    let (from, length) = t.member(n, m)?;
    part(body, t, d, p, from, length)
}

/// The handle of so many bytes of a place from so many on: a member of a member is one slice.
#[cycle(values)]
fn part(
    body: &mut Body,
    t: &Target,
    d: u32,
    p: &Place,
    from: u32,
    length: u32,
) -> Result<(), AllocError>
    ensures { OnOk result (Adds body.old body.new (words.part t.now.target d (place_of p.now) from length)) }
{
    match p {
        Place::Of(v) => slice_of(body, t, *v, from, length),
        Place::Deref(e) => part_behind(body, t, d, e, from, length),
        Place::Member(p, n, m) => part_of_member(body, t, d, p, *n, *m, from, length),
    }
}

#[cycle(values)]
#[tactic(auto, using(c_emit::proofs::Steps::then))]
fn part_behind(
    body: &mut Body,
    t: &Target,
    d: u32,
    e: &Expr,
    from: u32,
    length: u32,
) -> Result<(), AllocError>
    ensures { OnOk result (Adds body.old body.new (words.part t.now.target d (tree.deref (expr_of e.now)) from length)) }
{
    value(body, t, d, e)?;
    slice(body, from, length)
}

#[cycle(values)]
fn part_of_member(
    body: &mut Body,
    t: &Target,
    d: u32,
    p: &Place,
    n: u32,
    m: u32,
    from: u32,
    length: u32,
) -> Result<(), AllocError>
    ensures { OnOk result (Adds body.old body.new (words.part t.now.target d (tree.member (place_of p.now) n m) from length)) }
{
    let (at, _) = t.member(n, m)?;
    let from = sum(at, from)?;
    part(body, t, d, p, from, length)
}

/// What a place of a scalar holds (6.3.2.1, paragraph 2).
#[cycle(values)]
fn read(body: &mut Body, t: &Target, d: u32, s: Scalar, p: &Place) -> Result<(), AllocError>
    ensures { OnOk result (Adds body.old body.new (words.expr t.now.target true d (tree.read s (place_of p.now)))) }
{
    match t.plain_in(p)? {
        Some(v) => variable(body, t, v),
        None => read_object(body, t, d, s, p),
    }
}

#[cycle(values)]
#[tactic(auto, using(c_emit::proofs::Steps::then))]
fn read_object(body: &mut Body, t: &Target, d: u32, s: Scalar, p: &Place) -> Result<(), AllocError>
    ensures { OnOk result (Adds body.old body.new (words.place t.now.target d (place_of p.now) ⨾ one (operations.load s))) }
{
    place(body, t, d, p)?;
    fetch(body, s)
}

/// An array's place as the pointer to its first element.
#[cycle(values)]
fn decay(
    body: &mut Body,
    t: &Target,
    d: u32,
    u: &CType,
    n: u32,
    p: &Place,
) -> Result<(), AllocError>
    ensures { OnOk result (Adds body.old body.new (words.expr t.now.target true d (tree.decay (type_of u.now) n (place_of p.now)))) }
{
    let length = t.length(u, n)?;
    decayed(body, t, d, length, p)
}

/// The same of so many bytes: behind a pointer it is narrowed to the array.
#[cycle(values)]
pub fn decayed(
    body: &mut Body,
    t: &Target,
    d: u32,
    length: u32,
    p: &Place,
) -> Result<(), AllocError>
    ensures { OnOk result (Adds body.old body.new (words.decayed (is_deref (place_of p.now)) length (words.place t.now.target d (place_of p.now)))) }
{
    match p {
        Place::Of(_) => place(body, t, d, p),
        Place::Deref(_) => narrowed(body, t, d, length, p),
        Place::Member(_, _, _) => place(body, t, d, p),
    }
}

#[cycle(values)]
#[tactic(auto, using(c_emit::proofs::Steps::then))]
fn narrowed(body: &mut Body, t: &Target, d: u32, length: u32, p: &Place) -> Result<(), AllocError>
    ensures { OnOk result (Adds body.old body.new (words.place t.now.target d (place_of p.now) ⨾ operations.slice 0 length)) }
{
    place(body, t, d, p)?;
    slice(body, 0, length)
}

// ---- expressions

/// The value of an expression, if it has one.
#[cycle(values)]
#[tactic(auto, using(c_emit::proofs::Plain::constant_plain))]
pub fn value(body: &mut Body, t: &Target, d: u32, e: &Expr) -> Result<(), AllocError>
    ensures { OnOk result (Adds body.old body.new (words.expr t.now.target true d (expr_of e.now))) }
{
    match e {
        // 6.5.1, and what decays (6.3.2.1)
        Expr::Number(u, bits) => add(body, number(*u, *bits)),
        Expr::Null => add(body, Instr::Segment(Segment::Null)),
        Expr::NoFunction => constant(body, 0),
        Expr::Function(n) => function(body, t, *n),
        Expr::Literal(n) => literal(body, t, *n),
        Expr::Read(s, p) => read(body, t, d, *s, p),
        Expr::Decay(u, n, p) => decay(body, t, d, u, *n, p),
        // 6.5.3, 6.3.1.3
        Expr::Address(p) => place(body, t, d, p),
        Expr::Truth(s, a) => true_of(body, t, d, *s, a),
        Expr::Not(a) => not(body, t, d, a),
        Expr::Unary(o, u, a) => unary(body, t, d, *o, *u, a),
        Expr::SizeOf(n, _) => constant(body, *n),
        Expr::Convert(u, v, a) => converted(body, t, d, *u, *v, a),
        // 6.5.5 to 6.5.12
        Expr::Binary(o, u, a, b) => binary(body, t, d, *o, *u, a, b),
        Expr::Compare(o, u, a, b) => compared(body, t, d, *o, *u, a, b),
        Expr::Move(u, back, a, b) => moved(body, t, d, u, *back, a, b),
        Expr::MoveBy(u, a, b) => moved_by(body, t, d, u, a, b),
        Expr::Difference(u, a, b) => difference(body, t, d, u, a, b),
        Expr::ComparePointers(o, a, b) => pointers_compared(body, t, d, *o, a, b),
        Expr::SameFunction(same, a, b) => functions_compared(body, t, d, *same, a, b),
        // 6.5.13 to 6.5.15, 6.5.17
        Expr::And(a, b) => and(body, t, d, a, b),
        Expr::Or(a, b) => or(body, t, d, a, b),
        Expr::Choose(s, c, a, b) => choose(body, t, d, *s, c, a, b),
        Expr::Comma(a, b) => comma(body, t, true, d, a, b),
        // 6.5.16, 6.5.2.4, 6.5.3.1
        Expr::Assign(s, p, e) => assign(body, t, true, d, *s, p, e),
        Expr::Update(old, u, o, v, p, e) => update(body, t, d, *old, *u, *o, *v, p, e),
        Expr::Advance(old, u, back, p, e) => advance(body, t, d, *old, u, *back, p, e),
        Expr::Copy(n, p, q) => copy(body, t, d, *n, p, q),
        // 6.5.2.2, and the host's functions
        Expr::Call(n, _, es) => call(body, t, d, *n, es),
        Expr::CallThrough(u, _, f, es) => call_through(body, t, d, u, f, es),
        Expr::Putchar(a) => putchar(body, t, d, a),
        Expr::Getchar => add(body, Instr::Call(1)),
        Expr::Abort => add(body, Instr::Call(2)),
        // 7.22.3
        Expr::Malloc(u, a) => malloc(body, t, d, u, a),
        Expr::Calloc(u, a, b) => calloc(body, t, d, u, a, b),
        Expr::Free(a) => free(body, t, d, a),
        // what is thrown away (6.3.2.2)
        Expr::Discard(a) => thrown(body, t, d, a),
        Expr::Visit(p) => visit(body, t, d, p),
    }
}

/// What is evaluated for its effect: its value, if it has one, is gone.
#[cycle(values)]
pub fn thrown(body: &mut Body, t: &Target, d: u32, e: &Expr) -> Result<(), AllocError>
    ensures { OnOk result (Adds body.old body.new (words.expr t.now.target false d (expr_of e.now))) }
{
    match e {
        Expr::Comma(a, b) => comma(body, t, false, d, a, b),
        Expr::Assign(s, p, e) => assign(body, t, false, d, *s, p, e),
        Expr::Update(_, u, o, v, p, e) => update_to_new(body, t, false, d, *u, *o, *v, p, e),
        Expr::Advance(_, u, back, p, e) => advance_to_new(body, t, false, d, u, *back, p, e),
        Expr::Choose(s, _, _, _) => left(body, t, d, *s, e),
        Expr::Call(_, s, _) => left(body, t, d, *s, e),
        Expr::CallThrough(_, s, _, _) => left(body, t, d, *s, e),
        Expr::Copy(_, _, _) | Expr::Abort | Expr::Free(_) | Expr::Discard(_) | Expr::Visit(_) =>
            value(body, t, d, e),
        Expr::Number(_, _) => dropped(body, t, d, e),
        Expr::Null => dropped(body, t, d, e),
        Expr::NoFunction => dropped(body, t, d, e),
        Expr::Function(_) => dropped(body, t, d, e),
        Expr::Literal(_) => dropped(body, t, d, e),
        Expr::Read(_, _) => dropped(body, t, d, e),
        Expr::Decay(_, _, _) => dropped(body, t, d, e),
        Expr::Address(_) => dropped(body, t, d, e),
        Expr::Truth(_, _) => dropped(body, t, d, e),
        Expr::Not(_) => dropped(body, t, d, e),
        Expr::Unary(_, _, _) => dropped(body, t, d, e),
        Expr::SizeOf(_, _) => dropped(body, t, d, e),
        Expr::Convert(_, _, _) => dropped(body, t, d, e),
        Expr::Binary(_, _, _, _) => dropped(body, t, d, e),
        Expr::Compare(_, _, _, _) => dropped(body, t, d, e),
        Expr::Move(_, _, _, _) => dropped(body, t, d, e),
        Expr::MoveBy(_, _, _) => dropped(body, t, d, e),
        Expr::Difference(_, _, _) => dropped(body, t, d, e),
        Expr::ComparePointers(_, _, _) => dropped(body, t, d, e),
        Expr::SameFunction(_, _, _) => dropped(body, t, d, e),
        Expr::And(_, _) => dropped(body, t, d, e),
        Expr::Or(_, _) => dropped(body, t, d, e),
        Expr::Putchar(_) => dropped(body, t, d, e),
        Expr::Getchar => dropped(body, t, d, e),
        Expr::Malloc(_, _) => dropped(body, t, d, e),
        Expr::Calloc(_, _, _) => dropped(body, t, d, e),
    }
}

/// The same of an expression whose value is kept otherwise, if it has one.
#[cycle(values)]
fn left(body: &mut Body, t: &Target, d: u32, s: Option<Scalar>, e: &Expr) -> Result<(), AllocError>
    ensures { OnOk result (Adds body.old body.new (words.left false s (words.expr t.now.target true d (expr_of e.now)))) }
{
    match s {
        None => value(body, t, d, e),
        Some(_) => dropped(body, t, d, e),
    }
}

#[cycle(values)]
#[tactic(auto, using(c_emit::proofs::Steps::then))]
fn dropped(body: &mut Body, t: &Target, d: u32, e: &Expr) -> Result<(), AllocError>
    ensures { OnOk result (Adds body.old body.new (words.expr t.now.target true d (expr_of e.now) ⨾ one instrs.Drop)) }
{
    value(body, t, d, e)?;
    add(body, Instr::Drop)
}

// ---- conversions, conditions, and one operand (6.3.1.2, 6.3.1.3, 6.5.3.3)

/// A number of the first type as one of the second: a constant, where it is known.
#[cycle(values)]
#[tactic(auto, using(c_emit::proofs::Plain::constant_plain))]
fn converted(
    body: &mut Body,
    t: &Target,
    d: u32,
    u: IntType,
    v: IntType,
    a: &Expr,
) -> Result<(), AllocError>
    ensures { OnOk result (Adds body.old body.new (words.expr t.now.target true d (tree.convert u v (expr_of a.now)))) }
{
    match known_of(a) {
        Known::Number(w, bits) => add(body, converted_number(w, v, bits)),
        Known::Size(_) | Known::Null | Known::Bit | Known::Nothing => {
            value_converted(body, t, d, u, v, a)
        }
    }
}

#[cycle(values)]
#[tactic(auto, using(c_emit::proofs::Steps::then))]
fn value_converted(
    body: &mut Body,
    t: &Target,
    d: u32,
    u: IntType,
    v: IntType,
    a: &Expr,
) -> Result<(), AllocError>
    ensures { OnOk result (Adds body.old body.new (words.expr t.now.target true d (expr_of a.now) ⨾ operations.convert u v)) }
{
    value(body, t, d, a)?;
    convert(body, u, v)
}

/// Whether a scalar is neither zero nor null.
#[cycle(values)]
#[tactic(auto, using(c_emit::proofs::Steps::then))]
fn true_of(body: &mut Body, t: &Target, d: u32, s: Scalar, a: &Expr) -> Result<(), AllocError>
    ensures { OnOk result (Adds body.old body.new (words.expr t.now.target true d (tree.truth s (expr_of a.now)))) }
{
    value(body, t, d, a)?;
    truth(body, s)
}

/// A condition as 0 or 1.
#[cycle(values)]
fn as_bit(body: &mut Body, t: &Target, d: u32, a: &Expr) -> Result<(), AllocError>
    ensures { OnOk result (Adds body.old body.new (words.as_bit (words.is_bit (expr_of a.now)) (words.expr t.now.target true d (expr_of a.now)))) }
{
    match known_of(a) {
        Known::Bit => value(body, t, d, a),
        Known::Number(_, _) | Known::Size(_) | Known::Null | Known::Nothing => {
            true_of(body, t, d, Scalar::Int(IntType::Int), a)
        }
    }
}

#[cycle(values)]
#[tactic(auto, using(c_emit::proofs::Steps::then))]
fn not(body: &mut Body, t: &Target, d: u32, a: &Expr) -> Result<(), AllocError>
    ensures { OnOk result (Adds body.old body.new (words.expr t.now.target true d (tree.not (expr_of a.now)))) }
{
    value(body, t, d, a)?;
    add(body, eqz())
}

#[cycle(values)]
fn unary(
    body: &mut Body,
    t: &Target,
    d: u32,
    o: UnaryOp,
    u: IntType,
    a: &Expr,
) -> Result<(), AllocError>
    ensures { OnOk result (Adds body.old body.new (words.expr t.now.target true d (tree.unary o u (expr_of a.now)))) }
{
    match o {
        UnaryOp::Negate => negated(body, t, d, u, a),
        UnaryOp::Complement => complemented(body, t, d, u, a),
    }
}

#[cycle(values)]
#[tactic(auto, using(c_emit::proofs::Steps::then_two))]
fn negated(body: &mut Body, t: &Target, d: u32, u: IntType, a: &Expr) -> Result<(), AllocError>
    ensures { OnOk result (Adds body.old body.new (words.expr t.now.target true d (tree.unary unaries.Negate u (expr_of a.now)))) }
{
    zero(body, u)?;
    value(body, t, d, a)?;
    subtract(body, u)
}

#[cycle(values)]
#[tactic(auto, using(c_emit::proofs::Steps::then))]
fn complemented(body: &mut Body, t: &Target, d: u32, u: IntType, a: &Expr) -> Result<(), AllocError>
    ensures { OnOk result (Adds body.old body.new (words.expr t.now.target true d (tree.unary unaries.Complement u (expr_of a.now)))) }
{
    value(body, t, d, a)?;
    complement(body, u)
}

// ---- two integers (6.5.5 to 6.5.12)

#[cycle(values)]
#[tactic(auto, using(c_emit::proofs::Steps::then_two))]
fn binary(
    body: &mut Body,
    t: &Target,
    d: u32,
    o: BinaryOp,
    u: IntType,
    a: &Expr,
    b: &Expr,
) -> Result<(), AllocError>
    ensures { OnOk result (Adds body.old body.new (words.expr t.now.target true d (tree.binary o u (expr_of a.now) (expr_of b.now)))) }
{
    value(body, t, d, a)?;
    value(body, t, d, b)?;
    operate(body, o, u)
}

#[cycle(values)]
#[tactic(auto, using(c_emit::proofs::Steps::then_two))]
fn compared(
    body: &mut Body,
    t: &Target,
    d: u32,
    r: Relation,
    u: IntType,
    a: &Expr,
    b: &Expr,
) -> Result<(), AllocError>
    ensures { OnOk result (Adds body.old body.new (words.expr t.now.target true d (tree.compare r u (expr_of a.now) (expr_of b.now)))) }
{
    value(body, t, d, a)?;
    value(body, t, d, b)?;
    compare(body, r, u)
}

// ---- pointers (6.5.6, 6.5.8, 6.5.9)

#[cycle(values)]
#[tactic(auto, using(c_emit::proofs::Steps::then_two))]
fn functions_compared(
    body: &mut Body,
    t: &Target,
    d: u32,
    same: bool,
    a: &Expr,
    b: &Expr,
) -> Result<(), AllocError>
    ensures { OnOk result (Adds body.old body.new (words.expr t.now.target true d (tree.same_function same (expr_of a.now) (expr_of b.now)))) }
{
    value(body, t, d, a)?;
    value(body, t, d, b)?;
    compare_functions(body, same)
}

#[cycle(values)]
fn pointers_compared(
    body: &mut Body,
    t: &Target,
    d: u32,
    r: Relation,
    a: &Expr,
    b: &Expr,
) -> Result<(), AllocError>
    ensures { OnOk result (Adds body.old body.new (words.expr t.now.target true d (tree.compare_pointers r (expr_of a.now) (expr_of b.now)))) }
{
    match r {
        Relation::Equal => pointers_equal(body, t, d, a, b),
        Relation::NotEqual => pointers_differ(body, t, d, a, b),
        Relation::Less => pointers_ordered(body, t, d, Relation::Less, a, b),
        Relation::LessEqual => pointers_ordered(body, t, d, Relation::LessEqual, a, b),
        Relation::Greater => pointers_ordered(body, t, d, Relation::Greater, a, b),
        Relation::GreaterEqual => pointers_ordered(body, t, d, Relation::GreaterEqual, a, b),
    }
}

#[cycle(values)]
#[tactic(auto, using(c_emit::proofs::Steps::then))]
fn pointers_equal(body: &mut Body, t: &Target, d: u32, a: &Expr, b: &Expr) -> Result<(), AllocError>
    ensures { OnOk result (Adds body.old body.new (words.expr t.now.target true d (tree.compare_pointers relations.Equal (expr_of a.now) (expr_of b.now)))) }
{
    value(body, t, d, a)?;
    match known_of(b) {
        Known::Null => add(body, Instr::Segment(Segment::IsNull)),
        Known::Number(_, _) | Known::Size(_) | Known::Bit | Known::Nothing => {
            equal_to(body, t, d, b)
        }
    }
}

#[cycle(values)]
#[tactic(auto, using(c_emit::proofs::Steps::then))]
fn equal_to(body: &mut Body, t: &Target, d: u32, b: &Expr) -> Result<(), AllocError>
    ensures { OnOk result (Adds body.old body.new (words.expr t.now.target true d (expr_of b.now) ⨾ one (instrs.Segment segments.Eq))) }
{
    value(body, t, d, b)?;
    add(body, Instr::Segment(Segment::Eq))
}

#[cycle(values)]
#[tactic(auto, using(c_emit::proofs::Steps::then))]
fn pointers_differ(
    body: &mut Body,
    t: &Target,
    d: u32,
    a: &Expr,
    b: &Expr,
) -> Result<(), AllocError>
    ensures { OnOk result (Adds body.old body.new (words.expr t.now.target true d (tree.compare_pointers relations.NotEqual (expr_of a.now) (expr_of b.now)))) }
{
    value(body, t, d, a)?;
    match known_of(b) {
        Known::Null => add_two(body, Instr::Segment(Segment::IsNull), eqz()),
        Known::Number(_, _) | Known::Size(_) | Known::Bit | Known::Nothing => {
            unlike(body, t, d, b)
        }
    }
}

#[cycle(values)]
#[tactic(auto, using(c_emit::proofs::Steps::then))]
fn unlike(body: &mut Body, t: &Target, d: u32, b: &Expr) -> Result<(), AllocError>
    ensures { OnOk result (Adds body.old body.new (words.expr t.now.target true d (expr_of b.now) ⨾ plain (instrs.Segment segments.Eq ∷ operations.eqz ∷ []))) }
{
    value(body, t, d, b)?;
    add_two(body, Instr::Segment(Segment::Eq), eqz())
}

#[cycle(values)]
#[tactic(auto, using(c_emit::proofs::Steps::then_two))]
fn pointers_ordered(
    body: &mut Body,
    t: &Target,
    d: u32,
    r: Relation,
    a: &Expr,
    b: &Expr,
) -> Result<(), AllocError>
    ensures { OnOk result (Adds body.old body.new (words.expr t.now.target true d (expr_of a.now) ⨾ words.expr t.now.target true d (expr_of b.now) ⨾ plain (instrs.Segment segments.Diff ∷ operations.i64 0 ∷ operations.compared r integers.LongLong ∷ []))) }
{
    value(body, t, d, a)?;
    value(body, t, d, b)?;
    order(body, r)
}

/// In elements of a type.
#[cycle(values)]
#[tactic(auto, using(c_emit::proofs::Steps::then_two))]
fn difference(
    body: &mut Body,
    t: &Target,
    d: u32,
    u: &CType,
    a: &Expr,
    b: &Expr,
) -> Result<(), AllocError>
    ensures { OnOk result (Adds body.old body.new (words.expr t.now.target true d (tree.difference (type_of u.now) (expr_of a.now) (expr_of b.now)))) }
{
    value(body, t, d, a)?;
    value(body, t, d, b)?;
    differ(body, t, u)
}

/// A pointer goes on by so many elements, or back.
#[cycle(values)]
#[tactic(auto, using(c_emit::proofs::Steps::then))]
fn moved(
    body: &mut Body,
    t: &Target,
    d: u32,
    u: &CType,
    back: bool,
    a: &Expr,
    b: &Expr,
) -> Result<(), AllocError>
    ensures { OnOk result (Adds body.old body.new (words.expr t.now.target true d (tree.move (type_of u.now) back (expr_of a.now) (expr_of b.now)))) }
{
    value(body, t, d, a)?;
    step(body, t, d, u, back, b)
}

/// The handle on the stack goes on by so many elements of a type, or back.
#[cycle(values)]
fn step(
    body: &mut Body,
    t: &Target,
    d: u32,
    u: &CType,
    back: bool,
    b: &Expr,
) -> Result<(), AllocError>
    ensures { OnOk result (Adds body.old body.new (words.moved (size t.now.target.structs (type_of u.now)) back (words.expr t.now.target true d (expr_of b.now)))) }
{
    if back {
        back_by(body, t, d, u, b)
    } else {
        on_by(body, t, d, u, b)
    }
}

#[cycle(values)]
#[tactic(auto, using(c_emit::proofs::Steps::then))]
fn on_by(body: &mut Body, t: &Target, d: u32, u: &CType, b: &Expr) -> Result<(), AllocError>
    ensures { OnOk result (Adds body.old body.new (words.moved (size t.now.target.structs (type_of u.now)) false (words.expr t.now.target true d (expr_of b.now)))) }
{
    value(body, t, d, b)?;
    step_on(body, t, u)
}

#[cycle(values)]
#[tactic(auto, using(c_emit::proofs::Steps::then_two))]
fn back_by(body: &mut Body, t: &Target, d: u32, u: &CType, b: &Expr) -> Result<(), AllocError>
    ensures { OnOk result (Adds body.old body.new (words.moved (size t.now.target.structs (type_of u.now)) true (words.expr t.now.target true d (expr_of b.now)))) }
{
    zero(body, IntType::LongLong)?;
    value(body, t, d, b)?;
    step_back(body, t, u)
}

/// A number in front of a pointer.
#[cycle(values)]
#[tactic(auto, using(c_emit::proofs::Steps::then_two))]
fn moved_by(
    body: &mut Body,
    t: &Target,
    d: u32,
    u: &CType,
    a: &Expr,
    b: &Expr,
) -> Result<(), AllocError>
    ensures { OnOk result (Adds body.old body.new (words.expr t.now.target true d (tree.move_by (type_of u.now) (expr_of a.now) (expr_of b.now)))) }
{
    value(body, t, d, a)?;
    value(body, t, d, b)?;
    step_by(body, t, u)
}

// ---- control (6.5.13 to 6.5.15, 6.5.17)

#[cycle(values)]
#[tactic(auto, using(c_emit::proofs::Steps::may_turn, c_emit::proofs::Steps::second_may_end))]
fn and(body: &mut Body, t: &Target, d: u32, a: &Expr, b: &Expr) -> Result<(), AllocError>
    ensures { OnOk result (Adds body.old body.new (words.expr t.now.target true d (tree.and (expr_of a.now) (expr_of b.now)))) }
{
    value(body, t, d, a)?;
    begin(body, Opening::If, Some(ValType::I32))?;
    as_bit(body, t, d, b)?;
    turn(body);
    constant(body, 0)?;
    end(body)
}

#[cycle(values)]
#[tactic(auto, using(c_emit::proofs::Steps::may_turn, c_emit::proofs::Steps::second_may_end))]
fn or(body: &mut Body, t: &Target, d: u32, a: &Expr, b: &Expr) -> Result<(), AllocError>
    ensures { OnOk result (Adds body.old body.new (words.expr t.now.target true d (tree.or (expr_of a.now) (expr_of b.now)))) }
{
    value(body, t, d, a)?;
    begin(body, Opening::If, Some(ValType::I32))?;
    constant(body, 1)?;
    turn(body);
    as_bit(body, t, d, b)?;
    end(body)
}

#[cycle(values)]
#[tactic(auto, using(c_emit::proofs::Steps::may_turn, c_emit::proofs::Steps::second_may_end))]
fn choose(
    body: &mut Body,
    t: &Target,
    d: u32,
    s: Option<Scalar>,
    c: &Expr,
    a: &Expr,
    b: &Expr,
) -> Result<(), AllocError>
    ensures { OnOk result (Adds body.old body.new (words.expr t.now.target true d (tree.choose s (expr_of c.now) (expr_of a.now) (expr_of b.now)))) }
{
    value(body, t, d, c)?;
    begin_choice(body, s)?;
    value(body, t, d, a)?;
    turn(body);
    value(body, t, d, b)?;
    end(body)
}

#[cycle(values)]
#[tactic(auto, using(c_emit::proofs::Steps::then))]
fn comma(
    body: &mut Body,
    t: &Target,
    kept: bool,
    d: u32,
    a: &Expr,
    b: &Expr,
) -> Result<(), AllocError>
    ensures { OnOk result (Adds body.old body.new (words.expr t.now.target kept d (tree.comma (expr_of a.now) (expr_of b.now)))) }
{
    thrown(body, t, d, a)?;
    if kept {
        value(body, t, d, b)
    } else {
        thrown(body, t, d, b)
    }
}

// ---- what is written (6.5.16, 6.5.2.4, 6.5.3.1)

#[cycle(values)]
#[tactic(auto, using(c_emit::proofs::Steps::then_two))]
fn assign(
    body: &mut Body,
    t: &Target,
    kept: bool,
    d: u32,
    s: Scalar,
    p: &Place,
    e: &Expr,
) -> Result<(), AllocError>
    ensures { OnOk result (Adds body.old body.new (words.expr t.now.target kept d (tree.assign s (place_of p.now) (expr_of e.now)))) }
{
    begin_write(body, t, d, p)?;
    value(body, t, d, e)?;
    write_kept(body, t, kept, p, s)
}

/// The place, if it isn't a plain variable.
#[cycle(values)]
#[tactic(auto, using(c_emit::proofs::Steps::nothing_added))]
fn begin_write(body: &mut Body, t: &Target, d: u32, p: &Place) -> Result<(), AllocError>
    ensures { OnOk result (Adds body.old body.new (words.begun t.now.target (targets.plain_in t.now.target (place_of p.now)) (words.place t.now.target d (place_of p.now)))) }
{
    match t.plain_in(p)? {
        Some(_) => Ok(()),
        None => place(body, t, d, p),
    }
}

/// The place, if it isn't a plain variable, and its old value.
#[cycle(values)]
fn begin_with_old(
    body: &mut Body,
    t: &Target,
    d: u32,
    p: &Place,
    s: Scalar,
) -> Result<(), AllocError>
    ensures { OnOk result (Adds body.old body.new (words.begun_with_old t.now.target (targets.plain_in t.now.target (place_of p.now)) (words.place t.now.target d (place_of p.now)) s)) }
{
    match t.plain_in(p)? {
        Some(v) => variable(body, t, v),
        None => object_with_old(body, t, d, p, s),
    }
}

#[cycle(values)]
#[tactic(auto, using(c_emit::proofs::Steps::then))]
fn object_with_old(
    body: &mut Body,
    t: &Target,
    d: u32,
    p: &Place,
    s: Scalar,
) -> Result<(), AllocError>
    ensures { OnOk result (Adds body.old body.new (words.begun_with_old t.now.target None (words.place t.now.target d (place_of p.now)) s)) }
{
    place(body, t, d, p)?;
    fetch_above(body, t, s)
}

/// The old value, the place, if it isn't a plain variable, and the old value.
#[cycle(values)]
fn begin_over_old(
    body: &mut Body,
    t: &Target,
    d: u32,
    p: &Place,
    s: Scalar,
) -> Result<(), AllocError>
    ensures { OnOk result (Adds body.old body.new (words.begun_over_old t.now.target (targets.plain_in t.now.target (place_of p.now)) (words.place t.now.target d (place_of p.now)) s)) }
{
    match t.plain_in(p)? {
        Some(v) => variable_twice(body, t, v),
        None => object_over_old(body, t, d, p, s),
    }
}

#[cycle(values)]
#[tactic(auto, using(c_emit::proofs::Steps::then))]
fn object_over_old(
    body: &mut Body,
    t: &Target,
    d: u32,
    p: &Place,
    s: Scalar,
) -> Result<(), AllocError>
    ensures { OnOk result (Adds body.old body.new (words.begun_over_old t.now.target None (words.place t.now.target d (place_of p.now)) s)) }
{
    place(body, t, d, p)?;
    fetch_around(body, t, s)
}

/// `op=`, `++` and `--` on an integer, of which the old value or the new one stays.
#[cycle(values)]
fn update(
    body: &mut Body,
    t: &Target,
    d: u32,
    old: bool,
    u: IntType,
    o: BinaryOp,
    v: IntType,
    p: &Place,
    e: &Expr,
) -> Result<(), AllocError>
    ensures { OnOk result (Adds body.old body.new (words.expr t.now.target true d (tree.update old u o v (place_of p.now) (expr_of e.now)))) }
{
    if old {
        update_over_old(body, t, d, u, o, v, p, e)
    } else {
        update_to_new(body, t, true, d, u, o, v, p, e)
    }
}

#[cycle(values)]
#[tactic(auto, using(c_emit::proofs::Steps::then_two))]
fn update_to_new(
    body: &mut Body,
    t: &Target,
    kept: bool,
    d: u32,
    u: IntType,
    o: BinaryOp,
    v: IntType,
    p: &Place,
    e: &Expr,
) -> Result<(), AllocError>
    ensures { OnOk result (Adds body.old body.new (words.begun_with_old t.now.target (targets.plain_in t.now.target (place_of p.now)) (words.place t.now.target d (place_of p.now)) (scalars.Int u) ⨾ (operations.convert u v ⨾ words.expr t.now.target true d (expr_of e.now) ⨾ one (operations.operated o v) ⨾ operations.convert v u) ⨾ words.ended t.now.target kept (targets.plain_in t.now.target (place_of p.now)) (scalars.Int u))) }
{
    begin_with_old(body, t, d, p, Scalar::Int(u))?;
    change(body, t, d, u, o, v, e)?;
    write_kept(body, t, kept, p, Scalar::Int(u))
}

#[cycle(values)]
#[tactic(auto, using(c_emit::proofs::Steps::then_two))]
fn update_over_old(
    body: &mut Body,
    t: &Target,
    d: u32,
    u: IntType,
    o: BinaryOp,
    v: IntType,
    p: &Place,
    e: &Expr,
) -> Result<(), AllocError>
    ensures { OnOk result (Adds body.old body.new (words.expr t.now.target true d (tree.update true u o v (place_of p.now) (expr_of e.now)))) }
{
    begin_over_old(body, t, d, p, Scalar::Int(u))?;
    change(body, t, d, u, o, v, e)?;
    write(body, t, p, Scalar::Int(u))
}

/// From the old value to the new one.
#[cycle(values)]
#[tactic(auto, using(c_emit::proofs::Steps::then_three))]
fn change(
    body: &mut Body,
    t: &Target,
    d: u32,
    u: IntType,
    o: BinaryOp,
    v: IntType,
    e: &Expr,
) -> Result<(), AllocError>
    ensures { OnOk result (Adds body.old body.new (operations.convert u v ⨾ words.expr t.now.target true d (expr_of e.now) ⨾ one (operations.operated o v) ⨾ operations.convert v u)) }
{
    convert(body, u, v)?;
    value(body, t, d, e)?;
    operate(body, o, v)?;
    convert(body, v, u)
}

/// The same on a pointer.
#[cycle(values)]
fn advance(
    body: &mut Body,
    t: &Target,
    d: u32,
    old: bool,
    u: &CType,
    back: bool,
    p: &Place,
    e: &Expr,
) -> Result<(), AllocError>
    ensures { OnOk result (Adds body.old body.new (words.expr t.now.target true d (tree.advance old (type_of u.now) back (place_of p.now) (expr_of e.now)))) }
{
    if old {
        advance_over_old(body, t, d, u, back, p, e)
    } else {
        advance_to_new(body, t, true, d, u, back, p, e)
    }
}

#[cycle(values)]
#[tactic(auto, using(c_emit::proofs::Steps::then_two))]
fn advance_to_new(
    body: &mut Body,
    t: &Target,
    kept: bool,
    d: u32,
    u: &CType,
    back: bool,
    p: &Place,
    e: &Expr,
) -> Result<(), AllocError>
    ensures { OnOk result (Adds body.old body.new (words.begun_with_old t.now.target (targets.plain_in t.now.target (place_of p.now)) (words.place t.now.target d (place_of p.now)) scalars.Pointer ⨾ words.moved (size t.now.target.structs (type_of u.now)) back (words.expr t.now.target true d (expr_of e.now)) ⨾ words.ended t.now.target kept (targets.plain_in t.now.target (place_of p.now)) scalars.Pointer)) }
{
    begin_with_old(body, t, d, p, Scalar::Pointer)?;
    step(body, t, d, u, back, e)?;
    write_kept(body, t, kept, p, Scalar::Pointer)
}

#[cycle(values)]
#[tactic(auto, using(c_emit::proofs::Steps::then_two))]
fn advance_over_old(
    body: &mut Body,
    t: &Target,
    d: u32,
    u: &CType,
    back: bool,
    p: &Place,
    e: &Expr,
) -> Result<(), AllocError>
    ensures { OnOk result (Adds body.old body.new (words.expr t.now.target true d (tree.advance true (type_of u.now) back (place_of p.now) (expr_of e.now)))) }
{
    begin_over_old(body, t, d, p, Scalar::Pointer)?;
    step(body, t, d, u, back, e)?;
    write(body, t, p, Scalar::Pointer)
}

/// A struct, from the second place to the first (6.5.16.1).
#[cycle(values)]
#[tactic(auto, using(c_emit::proofs::Steps::then_two))]
fn copy(body: &mut Body, t: &Target, d: u32, n: u32, p: &Place, q: &Place) -> Result<(), AllocError>
    ensures { OnOk result (Adds body.old body.new (words.expr t.now.target true d (tree.copy n (place_of p.now) (place_of q.now)))) }
{
    place(body, t, d, p)?;
    place(body, t, d, q)?;
    copy_struct(body, t, n)
}

/// A struct's place, of which nothing is read.
#[cycle(values)]
#[tactic(auto, using(c_emit::proofs::Steps::then))]
fn visit(body: &mut Body, t: &Target, d: u32, p: &Place) -> Result<(), AllocError>
    ensures { OnOk result (Adds body.old body.new (words.expr t.now.target true d (tree.visit (place_of p.now)))) }
{
    place(body, t, d, p)?;
    add(body, Instr::Drop)
}

// ---- calls (6.5.2.2)

#[cycle(values)]
#[tactic(auto, using(c_emit::proofs::Steps::then))]
fn call(body: &mut Body, t: &Target, d: u32, n: u32, es: &[Expr]) -> Result<(), AllocError>
    ensures { OnOk result (Adds body.old body.new (words.exprs t.now.target d (exprs_in es.now) ⨾ one (instrs.Call (t.now.target.index n)))) }
{
    arguments(body, t, d, es)?;
    call_function(body, t, n)
}

/// The function waits while the arguments are evaluated.
#[cycle(values)]
#[tactic(auto, using(c_emit::proofs::Steps::then_three))]
fn call_through(
    body: &mut Body,
    t: &Target,
    d: u32,
    u: &CType,
    f: &Expr,
    es: &[Expr],
) -> Result<(), AllocError>
    ensures { OnOk result (Adds body.old body.new (words.expr t.now.target true d (tree.call_through (type_of u.now) None (expr_of f.now) (exprs_in es.now)))) }
{
    value(body, t, d, f)?;
    wait(body, t, d)?;
    deeper_arguments(body, t, d, es)?;
    call_waiting(body, t, d, u)
}

#[cycle(values)]
fn deeper_arguments(body: &mut Body, t: &Target, d: u32, es: &[Expr]) -> Result<(), AllocError>
    ensures { OnOk result (Adds body.old body.new (words.exprs t.now.target (suc d) (exprs_in es.now))) }
{
    let deeper = sum(d, 1)?;
    arguments(body, t, deeper, es)
}

/// The arguments, from left to right.
#[cycle(values)]
fn arguments(body: &mut Body, t: &Target, d: u32, es: &[Expr]) -> Result<(), AllocError>
    ensures { OnOk result (Adds body.old body.new (words.exprs t.now.target d (exprs_in es.now))) }
{
    for e in es {
        value(body, t, d, e)?;
    }
    Ok(())
}

#[cycle(values)]
#[tactic(auto, using(c_emit::proofs::Steps::then))]
fn putchar(body: &mut Body, t: &Target, d: u32, a: &Expr) -> Result<(), AllocError>
    ensures { OnOk result (Adds body.old body.new (words.expr t.now.target true d (tree.putchar (expr_of a.now)))) }
{
    value(body, t, d, a)?;
    add(body, Instr::Call(0))
}

// ---- memory (7.22.3)

/// So many bytes as elements of a type.
#[cycle(values)]
fn malloc(body: &mut Body, t: &Target, d: u32, u: &CType, e: &Expr) -> Result<(), AllocError>
    ensures { OnOk result (Adds body.old body.new (words.expr t.now.target true d (tree.malloc (type_of u.now) (expr_of e.now)))) }
{
    match known_of(e) {
        Known::Number(_, n) => new_known(body, t, u, n),
        Known::Size(n) => new_known(body, t, u, u64::from(n)),
        Known::Null | Known::Bit | Known::Nothing => allocated(body, t, d, u, e),
    }
}

#[cycle(values)]
#[tactic(auto, using(c_emit::proofs::Steps::then))]
fn allocated(body: &mut Body, t: &Target, d: u32, u: &CType, e: &Expr) -> Result<(), AllocError>
    ensures { OnOk result (Adds body.old body.new (words.expr t.now.target true d (expr_of e.now) ⨾ operations.new_heap (size t.now.target.structs (type_of u.now)))) }
{
    value(body, t, d, e)?;
    new_heap(body, t, u)
}

#[cycle(values)]
#[tactic(auto, using(c_emit::proofs::Steps::then_three))]
fn calloc(
    body: &mut Body,
    t: &Target,
    d: u32,
    u: &CType,
    a: &Expr,
    b: &Expr,
) -> Result<(), AllocError>
    ensures { OnOk result (Adds body.old body.new (words.expr t.now.target true d (tree.calloc (type_of u.now) (expr_of a.now) (expr_of b.now)))) }
{
    value(body, t, d, a)?;
    add(body, Instr::Numeric(Numeric::ExtendU))?;
    value(body, t, d, b)?;
    new_product(body, t, u)
}

#[cycle(values)]
#[tactic(auto, using(c_emit::proofs::Steps::then))]
fn free(body: &mut Body, t: &Target, d: u32, e: &Expr) -> Result<(), AllocError>
    ensures { OnOk result (Adds body.old body.new (words.expr t.now.target true d (tree.free (expr_of e.now)))) }
{
    value(body, t, d, e)?;
    free_heap(body, t)
}
