//! Productions that stand open: what each still wants, and the parts that it has.

ghost use Rattle.std.specs.Prelude.{◌≡◌, [], ◌∷◌, IfSome, IfNone, OnOk, IfOk};
ghost use Rattle.c_productions.specs.refinement.Meaning.{leasts};

use crate::kind::{Kind, Production, Symbol};
use crate::value::Value;
use c_tree::{
    Declarator, Expr, ExternalForm, ForFirst, Initialiser, OuterSpecifier, Specifier, Statement,
};
use std::alloc::{AllocError, Global};
use std::marker::Model;

/// What a production still wants, in order. Contracts see a list.
#[derive(Drop)]
pub struct Rest {
    symbols: Symbols,
}

/// At most six symbols.
#[derive(Drop)]
enum Symbols {
    None,
    One(Symbol),
    Two(Symbol, Symbol),
    Three(Symbol, Symbol, Symbol),
    Four(Symbol, Symbol, Symbol, Symbol),
    Five(Symbol, Symbol, Symbol, Symbol, Symbol),
    Six(Symbol, Symbol, Symbol, Symbol, Symbol, Symbol),
}

impl Model for Rest {
    ghost use Rattle.std.specs.Prelude.{List};
    ghost use Rattle.c_productions.specs.declared.kind.Symbol.{Symbol};

    ghost Value = { List Symbol };

    ghost use Rattle.c_productions.specs.refinement.Listed.{listed};

    ghost view = { λ r. listed r.symbols };
}

impl Symbol {
    /// The least height of the part, if it is one.
    fn least(&self) -> usize
        ensures { result ≡ leasts (self.now ∷ []) }
    {
        match self {
            Symbol::Word(_) => 0,
            Symbol::Part(kind) => kind.least(),
        }
    }
}

impl Rest {
    /// One symbol.
    pub fn one(a: Symbol) -> Self
        ensures { result ≡ a ∷ [] }
    {
        Rest {
            symbols: Symbols::One(a),
        }
    }

    /// Two symbols.
    pub fn two(a: Symbol, b: Symbol) -> Self
        ensures { result ≡ a ∷ b ∷ [] }
    {
        Rest {
            symbols: Symbols::Two(a, b),
        }
    }

    /// Three symbols.
    pub fn three(a: Symbol, b: Symbol, c: Symbol) -> Self
        ensures { result ≡ a ∷ b ∷ c ∷ [] }
    {
        Rest {
            symbols: Symbols::Three(a, b, c),
        }
    }

    /// Four symbols.
    pub fn four(a: Symbol, b: Symbol, c: Symbol, d: Symbol) -> Self
        ensures { result ≡ a ∷ b ∷ c ∷ d ∷ [] }
    {
        Rest {
            symbols: Symbols::Four(a, b, c, d),
        }
    }

    /// Five symbols.
    pub fn five(a: Symbol, b: Symbol, c: Symbol, d: Symbol, e: Symbol) -> Self
        ensures { result ≡ a ∷ b ∷ c ∷ d ∷ e ∷ [] }
    {
        Rest {
            symbols: Symbols::Five(a, b, c, d, e),
        }
    }

    /// Six symbols.
    pub fn six(a: Symbol, b: Symbol, c: Symbol, d: Symbol, e: Symbol, f: Symbol) -> Self
        ensures { result ≡ a ∷ b ∷ c ∷ d ∷ e ∷ f ∷ [] }
    {
        Rest {
            symbols: Symbols::Six(a, b, c, d, e, f),
        }
    }

    /// The least height of the parts that it wants.
    pub fn least(&self) -> usize
        ensures { result ≡ leasts self.now }
    {
        match &self.symbols {
            Symbols::None => 0,
            Symbols::One(a) => a.least(),
            Symbols::Two(a, b) => a.least().max(b.least()),
            Symbols::Three(a, b, c) => least_of_three(a, b, c),
            Symbols::Four(a, b, c, d) => a.least().max(least_of_three(b, c, d)),
            Symbols::Five(a, b, c, d, e) => a.least().max(least_of_four(b, c, d, e)),
            Symbols::Six(a, b, c, d, e, f) => a
                .least()
                .max(b.least().max(least_of_four(c, d, e, f))),
        }
    }

    /// The first symbol and the rest, if there is one.
    pub fn split(self) -> Option<(Symbol, Rest)>
        ensures some { IfSome result (λ p. self ≡ p.0 ∷ p.1) }
        ensures none { IfNone result (self ≡ []) }
    {
        match self.symbols {
            Symbols::None => None,
            Symbols::One(a) => Some((
                a,
                Rest {
                    symbols: Symbols::None,
                },
            )),
            Symbols::Two(a, b) => Some((a, Rest::one(b))),
            Symbols::Three(a, b, c) => Some((a, Rest::two(b, c))),
            Symbols::Four(a, b, c, d) => Some((a, Rest::three(b, c, d))),
            Symbols::Five(a, b, c, d, e) => Some((a, Rest::four(b, c, d, e))),
            Symbols::Six(a, b, c, d, e, f) => Some((a, Rest::five(b, c, d, e, f))),
        }
    }
}

/// The least height of three symbols.
fn least_of_three(a: &Symbol, b: &Symbol, c: &Symbol) -> usize
    ensures { result ≡ leasts (a.now ∷ b.now ∷ c.now ∷ []) }
{
    a.least().max(b.least().max(c.least()))
}

/// The least height of four symbols.
fn least_of_four(a: &Symbol, b: &Symbol, c: &Symbol, d: &Symbol) -> usize
    ensures { result ≡ leasts (a.now ∷ b.now ∷ c.now ∷ d.now ∷ []) }
{
    a.least().max(least_of_three(b, c, d))
}

/// The parts of a production that have been read. Contracts see a list, the latest first.
#[derive(Drop)]
pub struct Parts {
    values: Vec<Value>,
}

impl Model for Parts {
    ghost use Rattle.std.specs.Prelude.{List, reverse};
    ghost use Rattle.std.specs.Coded.{coded_list};
    ghost use Rattle.c_productions.specs.declared.value.Value.{Value as Held};
    ghost use Rattle.c_productions.specs.contracts.value.Value as value_row;

    ghost Value = { List Held };

    ghost coded = { coded_list value_row.the_row.coded };

    ghost view = { λ p. reverse p.values.items };
}

/// A production that stands open.
#[derive(Drop)]
pub struct Frame {
    /// What it is read as.
    pub kind: Kind,
    pub production: Production,
    /// What it still wants.
    pub rest: Rest,
    /// Its parts so far, what it began with among them.
    pub parts: Parts,
    /// The least height that these parts give it.
    pub base: usize,
}

/// Where a value comes that isn't wanted, which never is. It is answered as want of memory.
pub fn unexpected(_value: Value) -> AllocError {
    AllocError
}

impl Parts {
    /// One part.
    pub fn new(alloc: Global, value: Value) -> Result<Self, AllocError>
        ensures { IfOk result (λ parts. parts ≡ value ∷ []) }
    {
        let mut values = Vec::new(alloc);
        values.push(value)?;
        Ok(Parts { values })
    }

    /// Adds a part.
    pub fn push(&mut self, value: Value) -> Result<(), AllocError>
        ensures { OnOk result (self.new ≡ value ∷ self.old) }
    {
        self.values.push(value)?;
        Ok(())
    }

    /// Takes the latest.
    pub fn last(&mut self) -> Result<Value, AllocError>
        ensures { IfOk result (λ v. self.old ≡ v ∷ self.new) }
    {
        match self.values.pop() {
            Some(value) => Ok(value),
            None => Err(AllocError),
        }
    }

    /// Takes the latest, an expression.
    pub fn expr(&mut self) -> Result<Expr, AllocError>
        ensures { IfOk result (λ x. self.old ≡ Value.Expr x ∷ self.new) }
    {
        match self.last()? {
            Value::Expr(x) => Ok(x),
            other => Err(unexpected(other)),
        }
    }

    /// Takes the latest, a specifier.
    pub fn specifier(&mut self) -> Result<Specifier, AllocError>
        ensures { IfOk result (λ x. self.old ≡ Value.Specifier x ∷ self.new) }
    {
        match self.last()? {
            Value::Specifier(x) => Ok(x),
            other => Err(unexpected(other)),
        }
    }

    /// Takes the latest, a declarator.
    pub fn declarator(&mut self) -> Result<Declarator, AllocError>
        ensures { IfOk result (λ x. self.old ≡ Value.Declarator x ∷ self.new) }
    {
        match self.last()? {
            Value::Declarator(x) => Ok(x),
            other => Err(unexpected(other)),
        }
    }

    /// Takes the latest, an initializer.
    pub fn initialiser(&mut self) -> Result<Initialiser, AllocError>
        ensures { IfOk result (λ x. self.old ≡ Value.Initialiser x ∷ self.new) }
    {
        match self.last()? {
            Value::Initialiser(x) => Ok(x),
            other => Err(unexpected(other)),
        }
    }

    /// Takes the latest, a statement.
    pub fn statement(&mut self) -> Result<Statement, AllocError>
        ensures { IfOk result (λ x. self.old ≡ Value.Statement x ∷ self.new) }
    {
        match self.last()? {
            Value::Statement(x) => Ok(x),
            other => Err(unexpected(other)),
        }
    }

    /// Takes the latest, an expression or none with its semicolon.
    pub fn test(&mut self) -> Result<Option<Expr>, AllocError>
        ensures { IfOk result (λ x. self.old ≡ Value.Test x ∷ self.new) }
    {
        match self.last()? {
            Value::Test(x) => Ok(x),
            other => Err(unexpected(other)),
        }
    }

    /// Takes the latest, an expression or none with its parenthesis.
    pub fn step(&mut self) -> Result<Option<Expr>, AllocError>
        ensures { IfOk result (λ x. self.old ≡ Value.Step x ∷ self.new) }
    {
        match self.last()? {
            Value::Step(x) => Ok(x),
            other => Err(unexpected(other)),
        }
    }

    /// Takes the latest, what stands first in a `for`.
    pub fn for_first(&mut self) -> Result<ForFirst, AllocError>
        ensures { IfOk result (λ x. self.old ≡ Value.ForFirst x ∷ self.new) }
    {
        match self.last()? {
            Value::ForFirst(x) => Ok(x),
            other => Err(unexpected(other)),
        }
    }

    /// Takes the latest, the specifier of an external declaration.
    pub fn outer(&mut self) -> Result<OuterSpecifier, AllocError>
        ensures { IfOk result (λ x. self.old ≡ Value.Outer x ∷ self.new) }
    {
        match self.last()? {
            Value::Outer(x) => Ok(x),
            other => Err(unexpected(other)),
        }
    }

    /// Takes the latest, what stands behind it.
    pub fn form(&mut self) -> Result<ExternalForm, AllocError>
        ensures { IfOk result (λ x. self.old ≡ Value.Form x ∷ self.new) }
    {
        match self.last()? {
            Value::Form(x) => Ok(x),
            other => Err(unexpected(other)),
        }
    }
}
