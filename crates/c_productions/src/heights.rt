//! How high a value in hand makes what it becomes.

ghost use Rattle.std.specs.Prelude.{◌≡◌, IfOk};
ghost use Rattle.c_productions.specs.refinement.Table.{height, holder_height, last_height, least, least_braces, least_of, least_open, least_paren};
ghost use Rattle.c_tree.specs.StatementHeights.{clause_height};
ghost use Rattle.c_tree.specs.Heights.{init_height, value_height};

use crate::kind::Kind;
use crate::value::{Holder, Value};
use c_tree::{Core, Enumerator, Expr, Init, Initialiser, above};
use std::alloc::AllocError;

/// The height of an expression, if there is one.
fn clause_height(clause: &Option<Expr>) -> usize
    ensures { result ≡ clause_height clause.now }
{
    match clause {
        Some(e) => e.height(),
        None => 0,
    }
}

/// The least height of what items are part of, by what their braces stand behind.
fn holder_height(holder: &Holder) -> Result<usize, AllocError>
    ensures { IfOk result (λ n. n ≡ holder_height holder.now) }
{
    match holder {
        Holder::Block => Ok(0),
        Holder::Function(d) => Ok(d.height()),
        Holder::Switch(e) => above(e.height()),
    }
}

/// The height of an enumerator, if there is one.
fn last_height(last: &Option<Enumerator>) -> usize
    ensures { result ≡ last_height last.now }
{
    match last {
        Some(enumerator) => clause_height(&enumerator.value),
        None => 0,
    }
}

/// The height of an initializer, if there is one.
fn value_height(value: &Option<Initialiser>) -> usize
    ensures { result ≡ value_height value.now }
{
    match value {
        Some(v) => v.height(),
        None => 0,
    }
}

/// The height of a declarator with its initializer.
fn init_height(init: &Init) -> usize
    ensures { result ≡ init_height init.now }
{
    init.declarator.height().max(value_height(&init.value))
}

impl Value {
    /// The least height of what it becomes.
    pub fn height(&self) -> Result<usize, AllocError>
        ensures { IfOk result (λ n. n ≡ height self.now) }
    {
        match self {
            Value::Start => Ok(0),
            Value::Expr(e) => Ok(e.height()),
            Value::Paren => Ok(0),
            Value::Call(callee, args) => above(callee.height().max(args.height())),
            Value::Access(_, e) => above(e.height()),
            Value::TypeName(_, d) => Ok(d.height()),
            Value::Declarator(d) => Ok(d.height()),
            Value::Array(d) => above(d.height()),
            Value::OpenDeclarator => Ok(0),
            Value::Function(d, parameters) => above(d.height().max(parameters.height())),
            Value::Specifier(_) => Ok(0),
            Value::Tag => Ok(0),
            Value::Opens(_) => Ok(0),
            Value::EnumTag => Ok(0),
            Value::Enumerators(_, enumerators, last) => Ok(
                enumerators.height().max(last_height(last)),
            ),
            Value::Enum(_, enumerators, _) => Ok(enumerators.height()),
            Value::Initialiser(v) => Ok(v.height()),
            Value::Braces(values, _) => above(values.height()),
            Value::Inits(inits, last) => Ok(inits.height().max(init_height(last))),
            Value::Statement(s) => Ok(s.height()),
            Value::If(test, first) => above(test.height().max(first.height())),
            Value::Items(holder, block) => Ok(holder_height(holder)?.max(above(block.height())?)),
            Value::Jump(_) => Ok(1),
            Value::ForFirst(first) => Ok(first.height()),
            Value::Test(clause) => Ok(clause_height(clause)),
            Value::Step(clause) => Ok(clause_height(clause)),
            Value::Outer(outer) => Ok(outer.height()),
            Value::Members(_, members, _, _) => Ok(members.height().max(1)),
            Value::Member(_, members, _, head, declarators) => {
                Ok(
                    members
                        .height()
                        .max(head.height().max(declarators.height()))
                        .max(1),
                )
            }
            Value::Form(form) => form.height(),
            Value::External(outer, form) => Ok(outer.height().max(form.height()?)),
        }
    }
}

/// The least height of a declarator of which nothing is read.
fn least_declarator(core: Core, something: bool) -> usize
    ensures { result ≡ least_of (Kind.Declarator core something) }
{
    match core {
        Core::Name => 1,
        Core::Nothing => {
            if something {
                return 1;
            }
            0
        }
        Core::Either => {
            if something {
                return 1;
            }
            0
        }
    }
}

impl Kind {
    /// The least height of a part of which nothing is read.
    pub fn least(self) -> usize
        ensures { result ≡ least_of self }
    {
        match self {
            Kind::Expr(_) => 1,
            Kind::SizeofOperand => 0,
            Kind::Declarator(core, something) => least_declarator(core, something),
            Kind::Specifier => 0,
            Kind::OuterSpecifier => 0,
            Kind::MemberSpecifier => 0,
            Kind::Initialiser => 1,
            Kind::Inits => 1,
            Kind::Statement => 1,
            Kind::ForFirst => 0,
            Kind::Test => 0,
            Kind::Step => 0,
            Kind::Form => 0,
            Kind::External => 0,
        }
    }
}
