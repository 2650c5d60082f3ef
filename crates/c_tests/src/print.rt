//! Typed trees as lines of text, to be compared with trees that were worked out by hand.
//!
//! A unit is its structs, variables, what is made, and its functions, in order. A node is its name, what it carries and its parts,
//! in parentheses; a type is read from the left: `*[3]int` is a pointer to an array of three int.

use c_typed::{
    BinaryOp, Case, Expr, Function, Made, Place, RelOp, Sized, Stmt, TypedUnit, UnaryOp, Variable,
};
use c_types::{CType, IntType, Scalar, Signature};
use std::alloc::AllocError;

/// The word of an integer type.
fn integer_word(t: IntType) -> &'static str {
    match t {
        IntType::Char => "char",
        IntType::SignedChar => "schar",
        IntType::UnsignedChar => "uchar",
        IntType::Short => "short",
        IntType::UnsignedShort => "ushort",
        IntType::Int => "int",
        IntType::UnsignedInt => "uint",
        IntType::Long => "long",
        IntType::UnsignedLong => "ulong",
        IntType::LongLong => "llong",
        IntType::UnsignedLongLong => "ullong",
    }
}

fn scalar_word(s: Scalar) -> &'static str {
    match s {
        Scalar::Int(t) => integer_word(t),
        Scalar::Pointer => "ptr",
        Scalar::Function => "fun",
    }
}

/// What a call or a choice gives.
fn result_word(s: Option<Scalar>) -> &'static str {
    match s {
        Some(s) => scalar_word(s),
        None => "void",
    }
}

fn binary_word(op: BinaryOp) -> &'static str {
    match op {
        BinaryOp::Add => "add",
        BinaryOp::Sub => "sub",
        BinaryOp::Mul => "mul",
        BinaryOp::Div => "div",
        BinaryOp::Rem => "rem",
        BinaryOp::And => "bit-and",
        BinaryOp::Or => "bit-or",
        BinaryOp::Xor => "bit-xor",
        BinaryOp::ShiftLeft => "shl",
        BinaryOp::ShiftRight => "shr",
    }
}

fn unary_word(op: UnaryOp) -> &'static str {
    match op {
        UnaryOp::Negate => "neg",
        UnaryOp::Complement => "compl",
    }
}

fn relation_word(op: RelOp) -> &'static str {
    match op {
        RelOp::Equal => "eq",
        RelOp::NotEqual => "ne",
        RelOp::Less => "lt",
        RelOp::LessEqual => "le",
        RelOp::Greater => "gt",
        RelOp::GreaterEqual => "ge",
    }
}

/// A blank and a number.
fn number(out: &mut String, n: u64) -> Result<(), AllocError> {
    write!(out, " {n}")
}

/// A blank and a word.
fn word(out: &mut String, w: &str) -> Result<(), AllocError> {
    write!(out, " {w}")
}

/// A letter and a number, behind a blank.
fn named(out: &mut String, letter: &str, n: u32) -> Result<(), AllocError> {
    write!(out, " {letter}{n}")
}

/// Begins a node.
fn node(out: &mut String, name: &str) -> Result<(), AllocError> {
    write!(out, " ({name}")
}

/// Ends a node.
fn end(out: &mut String) -> Result<(), AllocError> {
    write!(out, ")")
}

/// A type, behind a blank.
fn a_type(out: &mut String, t: &CType) -> Result<(), AllocError> {
    write!(out, " ")?;
    bare_type(out, t)
}

#[cycle(types)]
fn bare_type(out: &mut String, t: &CType) -> Result<(), AllocError> {
    match t {
        CType::Void => write!(out, "void"),
        CType::Int(t) => write!(out, "{}", integer_word(*t)),
        CType::Struct(n) => write!(out, "s{n}"),
        CType::Pointer(t) => pointer_type(out, t),
        CType::Array(t, n) => array_type(out, t, *n),
        CType::Function(s) => function_type(out, s),
    }
}

#[cycle(types)]
fn pointer_type(out: &mut String, t: &CType) -> Result<(), AllocError> {
    write!(out, "*")?;
    bare_type(out, t)
}

#[cycle(types)]
fn array_type(out: &mut String, t: &CType, n: u32) -> Result<(), AllocError> {
    write!(out, "[{n}]")?;
    bare_type(out, t)
}

#[cycle(types)]
fn function_type(out: &mut String, s: &Signature) -> Result<(), AllocError> {
    write!(out, "fn(")?;
    for t in s.params.as_slice() {
        bare_type(out, t)?;
        write!(out, ",")?;
    }
    write!(out, ")")?;
    bare_type(out, &s.result)
}

fn variable(out: &mut String, v: Variable) -> Result<(), AllocError> {
    match v {
        Variable::Local(n) => named(out, "v", n),
        Variable::Global(n) => named(out, "g", n),
    }
}

/// Begins a node with a word.
fn node_at(out: &mut String, name: &str, w: &str) -> Result<(), AllocError> {
    node(out, name)?;
    word(out, w)
}

/// Begins a node with a type.
fn node_of(out: &mut String, name: &str, t: &CType) -> Result<(), AllocError> {
    node(out, name)?;
    a_type(out, t)
}

/// Begins a node with a type and a number.
fn decay(out: &mut String, t: &CType, n: u32) -> Result<(), AllocError> {
    node_of(out, "decay", t)?;
    number(out, u64::from(n))
}

/// Begins a conversion.
fn convert(out: &mut String, t: IntType, u: IntType) -> Result<(), AllocError> {
    node_at(out, "convert", integer_word(t))?;
    word(out, integer_word(u))
}

/// Begins an update, by whether it gives the old value, the types of place and operation, and what it does.
fn update(
    out: &mut String,
    old: bool,
    t: IntType,
    op: BinaryOp,
    u: IntType,
) -> Result<(), AllocError> {
    node_at(
        out,
        if old { "update-old" } else { "update" },
        integer_word(t),
    )?;
    word(out, binary_word(op))?;
    word(out, integer_word(u))
}

/// Begins a node with a struct.
fn node_in(out: &mut String, name: &str, n: u32) -> Result<(), AllocError> {
    node(out, name)?;
    named(out, "s", n)
}

/// Begins a call.
fn call(out: &mut String, n: u32, s: Option<Scalar>) -> Result<(), AllocError> {
    node(out, "call")?;
    named(out, "f", n)?;
    word(out, result_word(s))
}

/// Begins a call through a pointer.
fn call_through(out: &mut String, t: &CType, s: Option<Scalar>) -> Result<(), AllocError> {
    node_of(out, "call-through", t)?;
    word(out, result_word(s))
}

/// Begins a sizeof.
fn size_of(out: &mut String, n: u32) -> Result<(), AllocError> {
    node(out, "sizeof")?;
    number(out, u64::from(n))
}

/// The name of a step of a pointer.
fn step_name(old: bool, back: bool) -> &'static str {
    if old {
        if back { "retreat-old" } else { "advance-old" }
    } else if back {
        "retreat"
    } else {
        "advance"
    }
}

#[cycle(trees)]
fn place(out: &mut String, p: &Place) -> Result<(), AllocError> {
    match p {
        Place::Of(v) => variable(out, *v),
        Place::Deref(e) => {
            node(out, "at")?;
            last(out, e)
        }
        Place::Member(p, n, m) => {
            node(out, "member")?;
            place(out, p)?;
            named(out, "s", *n)?;
            number(out, u64::from(*m))?;
            end(out)
        }
    }
}

/// The last part of a node.
#[cycle(trees)]
fn last(out: &mut String, e: &Expr) -> Result<(), AllocError> {
    expr(out, e)?;
    end(out)
}

/// The last part of a node, a place.
#[cycle(trees)]
fn last_place(out: &mut String, p: &Place) -> Result<(), AllocError> {
    place(out, p)?;
    end(out)
}

/// The last parts of a node.
#[cycle(trees)]
fn last_of(out: &mut String, es: &[Expr]) -> Result<(), AllocError> {
    for e in es {
        expr(out, e)?;
    }
    end(out)
}

/// The last part of a sizeof.
#[cycle(trees)]
fn measured(out: &mut String, of: &Sized) -> Result<(), AllocError> {
    match of {
        Sized::Place(p) => last_place(out, p),
        Sized::Value(e) => last(out, e),
        Sized::Nothing => end(out),
    }
}

/// A number of a type.
fn constant(out: &mut String, t: IntType, n: u64) -> Result<(), AllocError> {
    write!(out, " {}:{n}", integer_word(t))
}

#[cycle(trees)]
fn expr(out: &mut String, e: &Expr) -> Result<(), AllocError> {
    match e {
        Expr::Number(t, n) => constant(out, *t, *n),
        Expr::Null => word(out, "null"),
        Expr::NoFunction => word(out, "no-function"),
        Expr::Function(n) => named(out, "f", *n),
        Expr::Literal(n) => named(out, "literal", *n),
        Expr::Read(s, p) => {
            node_at(out, "read", scalar_word(*s))?;
            last_place(out, p)
        }
        Expr::Decay(t, n, p) => {
            decay(out, t, *n)?;
            last_place(out, p)
        }
        Expr::Address(p) => {
            node(out, "address")?;
            last_place(out, p)
        }
        Expr::Convert(t, u, e) => {
            convert(out, *t, *u)?;
            last(out, e)
        }
        Expr::Truth(s, e) => {
            node_at(out, "truth", scalar_word(*s))?;
            last(out, e)
        }
        Expr::Not(e) => {
            node(out, "not")?;
            last(out, e)
        }
        Expr::Unary(op, t, e) => {
            node_at(out, unary_word(*op), integer_word(*t))?;
            last(out, e)
        }
        Expr::Binary(op, t, a, b) => {
            node_at(out, binary_word(*op), integer_word(*t))?;
            expr(out, a)?;
            last(out, b)
        }
        Expr::Compare(op, t, a, b) => {
            node_at(out, relation_word(*op), integer_word(*t))?;
            expr(out, a)?;
            last(out, b)
        }
        Expr::ComparePointers(op, a, b) => {
            node_at(out, relation_word(*op), "ptr")?;
            expr(out, a)?;
            last(out, b)
        }
        Expr::SameFunction(is, a, b) => {
            node_at(out, if *is { "eq" } else { "ne" }, "fun")?;
            expr(out, a)?;
            last(out, b)
        }
        Expr::Difference(t, a, b) => {
            node_of(out, "difference", t)?;
            expr(out, a)?;
            last(out, b)
        }
        Expr::Move(t, back, a, b) => {
            node_of(out, if *back { "move-back" } else { "move" }, t)?;
            expr(out, a)?;
            last(out, b)
        }
        Expr::MoveBy(t, a, b) => {
            node_of(out, "move-by", t)?;
            expr(out, a)?;
            last(out, b)
        }
        Expr::And(a, b) => {
            node(out, "and")?;
            expr(out, a)?;
            last(out, b)
        }
        Expr::Or(a, b) => {
            node(out, "or")?;
            expr(out, a)?;
            last(out, b)
        }
        Expr::Choose(s, c, a, b) => {
            node_at(out, "choose", result_word(*s))?;
            expr(out, c)?;
            expr(out, a)?;
            last(out, b)
        }
        Expr::Comma(a, b) => {
            node(out, "comma")?;
            expr(out, a)?;
            last(out, b)
        }
        Expr::Assign(s, p, e) => {
            node_at(out, "assign", scalar_word(*s))?;
            place(out, p)?;
            last(out, e)
        }
        Expr::Update(old, t, op, u, p, e) => {
            update(out, *old, *t, *op, *u)?;
            place(out, p)?;
            last(out, e)
        }
        Expr::Advance(old, t, back, p, e) => {
            node_of(out, step_name(*old, *back), t)?;
            place(out, p)?;
            last(out, e)
        }
        Expr::Copy(n, p, q) => {
            node_in(out, "copy", *n)?;
            place(out, p)?;
            last_place(out, q)
        }
        Expr::Call(n, s, es) => {
            call(out, *n, *s)?;
            last_of(out, es.as_slice())
        }
        Expr::CallThrough(t, s, f, es) => {
            call_through(out, t, *s)?;
            expr(out, f)?;
            last_of(out, es.as_slice())
        }
        Expr::Putchar(e) => {
            node(out, "putchar")?;
            last(out, e)
        }
        Expr::Getchar => word(out, "getchar"),
        Expr::Abort => word(out, "abort"),
        Expr::Malloc(t, e) => {
            node_of(out, "malloc", t)?;
            last(out, e)
        }
        Expr::Calloc(t, a, b) => {
            node_of(out, "calloc", t)?;
            expr(out, a)?;
            last(out, b)
        }
        Expr::Free(e) => {
            node(out, "free")?;
            last(out, e)
        }
        Expr::Discard(e) => {
            node(out, "discard")?;
            last(out, e)
        }
        Expr::Visit(p) => {
            node(out, "visit")?;
            last_place(out, p)
        }
        Expr::SizeOf(n, of) => {
            size_of(out, *n)?;
            measured(out, of)
        }
    }
}

/// Slots in brackets.
fn slots(out: &mut String, ns: &[u32]) -> Result<(), AllocError> {
    write!(out, " [")?;
    for n in ns {
        named(out, "v", *n)?;
    }
    write!(out, " ]")
}

fn a_case(out: &mut String, c: Case) -> Result<(), AllocError> {
    match c.label {
        Some(n) => number(out, n)?,
        None => word(out, "default")?,
    }
    write!(out, "->{}", c.group)
}

/// Labels in brackets, each with its group.
fn cases(out: &mut String, cs: &[Case]) -> Result<(), AllocError> {
    write!(out, " [")?;
    for c in cs {
        a_case(out, *c)?;
    }
    write!(out, " ]")
}

fn bytes(out: &mut String, bs: &[u8]) -> Result<(), AllocError> {
    for b in bs {
        number(out, u64::from(*b))?;
    }
    Ok(())
}

fn fill(out: &mut String, p: &Place, n: u32, bs: &[u8]) -> Result<(), AllocError> {
    node(out, "fill")?;
    place(out, p)?;
    number(out, u64::from(n))?;
    bytes(out, bs)?;
    end(out)
}

/// The step of a loop, if it has one.
fn step(out: &mut String, step: &Option<Expr>) -> Result<(), AllocError> {
    match step {
        Some(e) => expr(out, e),
        None => word(out, "-"),
    }
}

/// Begins a switch.
fn switch(
    out: &mut String,
    t: IntType,
    e: &Expr,
    ns: &[u32],
    cs: &[Case],
) -> Result<(), AllocError> {
    node_at(out, "switch", integer_word(t))?;
    expr(out, e)?;
    slots(out, ns)?;
    cases(out, cs)
}

/// Begins a scope.
fn scope(out: &mut String, ns: &[u32]) -> Result<(), AllocError> {
    node(out, "scope")?;
    slots(out, ns)
}

/// The last part of a node, a statement.
#[cycle(statements)]
fn last_stmt(out: &mut String, s: &Stmt) -> Result<(), AllocError> {
    stmt(out, s)?;
    end(out)
}

/// The last parts of a node, statements.
#[cycle(statements)]
fn last_stmts(out: &mut String, ss: &[Stmt]) -> Result<(), AllocError> {
    for s in ss {
        stmt(out, s)?;
    }
    end(out)
}

#[cycle(statements)]
fn stmt(out: &mut String, s: &Stmt) -> Result<(), AllocError> {
    match s {
        Stmt::Nothing => word(out, "nothing"),
        Stmt::Perform(e) => {
            node(out, "perform")?;
            last(out, e)
        }
        Stmt::Fill(p, n, bs) => fill(out, p, *n, bs.as_slice()),
        Stmt::If(c, a, b) => {
            node(out, "if")?;
            expr(out, c)?;
            stmt(out, a)?;
            last_stmt(out, b)
        }
        Stmt::Loop(c, b, s) => {
            node(out, "loop")?;
            expr(out, c)?;
            step(out, b)?;
            last_stmt(out, s)
        }
        Stmt::DoWhile(s, c) => {
            node(out, "do")?;
            stmt(out, s)?;
            last(out, c)
        }
        Stmt::Switch(t, e, ns, cs, groups) => {
            switch(out, *t, e, ns.as_slice(), cs.as_slice())?;
            last_stmts(out, groups.as_slice())
        }
        Stmt::Scope(ns, ss) => {
            scope(out, ns.as_slice())?;
            last_stmts(out, ss.as_slice())
        }
        Stmt::Return(e) => {
            node(out, "return")?;
            last(out, e)
        }
        Stmt::ReturnNothing => word(out, "return"),
        Stmt::Break => word(out, "break"),
        Stmt::Continue => word(out, "continue"),
    }
}

/// What is made before `main`.
fn made(out: &mut String, m: &Made) -> Result<(), AllocError> {
    match m {
        Made::Global(n, values) => {
            node(out, "make")?;
            named(out, "g", *n)?;
            for s in values.as_slice() {
                stmt(out, s)?;
            }
            end(out)
        }
        Made::Literal(bs) => {
            node(out, "literal")?;
            bytes(out, bs.as_slice())?;
            end(out)
        }
    }
}

/// A function's type, the types of its slots, and its body.
fn function(out: &mut String, f: &Function) -> Result<(), AllocError> {
    node(out, "function")?;
    a_type(out, &f.ty)?;
    for t in f.slots.as_slice() {
        a_type(out, t)?;
    }
    match &f.body {
        Some(s) => stmt(out, s)?,
        None => word(out, "-")?,
    }
    end(out)
}

/// A unit.
pub fn unit(out: &mut String, u: &TypedUnit) -> Result<(), AllocError> {
    for t in u.globals.as_slice() {
        node(out, "variable")?;
        a_type(out, t)?;
        end(out)?;
    }
    for m in u.made.as_slice() {
        made(out, m)?;
    }
    for f in u.functions.as_slice() {
        function(out, f)?;
    }
    Ok(())
}
