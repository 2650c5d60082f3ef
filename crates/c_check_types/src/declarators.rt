//! Declarators, parameters and the constant expressions in them (C11, 6.6, 6.7.6 and 6.7.7).

ghost use Rattle.std.specs.Prelude.{◌≡◌, [], IfOk, map};
ghost use Rattle.c_types.specs.Types.{type_of};
ghost use Rattle.c_types.specs.refinement.Views.{types_in};
ghost use Rattle.c_check_types.specs.refinement.Ranges.{IsInRange};
ghost use Rattle.c_check_types.specs.Types as words;
ghost use Rattle.c_check_types.specs.refinement.Views.{Obeys, Gives, declared_of, derived_of, name_of, parameter_of, parameters_in, state_of};

use crate::checker::{Checker, entity_of};
use crate::constants::{
    Constant, a_number, binary, cast, character_bits, choice, constant_bits, constant_type,
    natural, unary,
};
use crate::declared::{
    Declared, Derived, Parameter, adjusted, pointer_to, result_type, whole_type,
};
use crate::entity::Entity;
use crate::fault::Stop;
use crate::names::Names;
use crate::operators::operator_of;
use crate::prelude::library;
use crate::types::function_type;
use c_tree::{Declarator, DeclaratorNode, Expr, ExprNode, Infix, Parameters, Specifier};
use c_types::{CType, IntType};
use std::alloc::{AllocError, Global};
use std::rc::Rc;

impl<'a> Checker<'a> {
    /// What a declarator declares, of this, at a name with these parameters.
    #[cycle(types)]
    pub fn declared(
        &mut self,
        d: &'a Declarator,
        derived: Derived,
        params: Vec<Parameter<'a>>,
    ) -> Result<Declared<'a>, Stop>
        ensures { Obeys declared_of (words.declared d.now (derived_of derived) (parameters_in params.entry.items)) (state_of self.old) (state_of self.new) result }
    {
        match d.node() {
            DeclaratorNode::Named(name) => Ok(Declared {
                name: Some(name.as_slice()),
                derived,
                params,
            }),
            DeclaratorNode::Nothing => Ok(Declared {
                name: None,
                derived,
                params,
            }),
            DeclaratorNode::Wrapped(d) => self.declared(d, derived, params),
            DeclaratorNode::Pointer(d) => {
                let t = pointer_to(self.alloc, derived)?;
                self.declared(d, Derived::Whole(t), Vec::new(self.alloc))
            }
            DeclaratorNode::Array(d) => {
                let t = self.element(derived)?;
                self.declared(d, Derived::Lengthless(t), Vec::new(self.alloc))
            }
            DeclaratorNode::Sized(d, e) => {
                let t = self.element(derived)?;
                let c = self.constant(e)?;
                let a = self.array_of(t, c)?;
                self.declared(d, Derived::Whole(a), Vec::new(self.alloc))
            }
            DeclaratorNode::Function(d, ps) => {
                let r = result_type(derived)?;
                let qs = self.parameters(ps)?;
                let t = self.function_of(r, qs.as_slice())?;
                self.declared(d, Derived::Whole(t), qs)
            }
            DeclaratorNode::FunctionVoid(d) => {
                let r = result_type(derived)?;
                let t = function_type(self.alloc, r, Vec::new(self.alloc))?;
                self.declared(d, Derived::Whole(t), Vec::new(self.alloc))
            }
        }
    }

    /// The parameters of a function (C11, 6.7.6.3).
    #[cycle(types)]
    fn parameters(&mut self, ps: &'a Parameters) -> Result<Vec<Parameter<'a>>, Stop>
        ensures { Obeys (λ v. parameters_in v.items) (words.parameters ps.now [] []) (state_of self.old) (state_of self.new) result }
    {
        let mut names = Names::new(self.alloc);
        let mut params = Vec::new(self.alloc);
        for p in ps.items() {
            match self.parameter(p, &mut names) {
                Ok(q) => params.push(q)?,
                Err(e) => return Err(e),
            }
        }
        Ok(params)
    }

    /// A parameter, whose name isn't among these.
    #[cycle(types)]
    fn parameter(
        &mut self,
        p: &'a c_tree::Parameter,
        names: &mut Names<'a>,
    ) -> Result<Parameter<'a>, Stop>
        ensures { Obeys (λ q. (parameter_of q, names.new)) (words.a_parameter p.now.specifier (λ b. words.declared p.now.declarator (words.whole b) []) names.old) (state_of self.old) (state_of self.new) result }
    {
        let b = self.specified(p.specifier.node())?;
        let x = self.declared(&p.declarator, Derived::Whole(b), Vec::new(self.alloc))?;
        let ty = adjusted(self.alloc, x.derived)?;
        add_name(names, x.name)?;
        Ok(Parameter { name: x.name, ty })
    }

    /// An integer constant expression (C11, 6.6).
    #[cycle(types)]
    pub fn constant(&mut self, e: &'a Expr) -> Result<Constant, Stop>
        ensures is { Obeys (λ c. c) (words.constant e.now) (state_of self.old) (state_of self.new) result }
        ensures in_range { IfOk result IsInRange }
    {
        match e.node() {
            ExprNode::Integer(n, t) => {
                let t = constant_type(*t);
                Ok(a_number(t, constant_bits(t, *n)))
            }
            ExprNode::Character(c) => Ok(a_number(IntType::Int, character_bits(*c))),
            ExprNode::Name(name) => self.named_constant(name.as_slice()),
            ExprNode::Paren(e) => self.constant(e),
            ExprNode::Unary(op, e) => {
                let x = self.constant(e)?;
                unary(*op, x).ok_or(Stop::NoTyping)
            }
            ExprNode::SizeOfType(s, d) => {
                let b = self.specified(s.node())?;
                let x = self.declared(d, Derived::Whole(b), Vec::new(self.alloc))?;
                let t = whole_type(x.derived)?;
                let n = self.size_of(&t)?;
                Ok(a_number(IntType::UnsignedInt, n))
            }
            ExprNode::Cast(s, d, e) => {
                let b = self.specified(s.node())?;
                let x = self.declared(d, Derived::Whole(b), Vec::new(self.alloc))?;
                let t = whole_type(x.derived)?;
                let u = integer_type(t)?;
                let y = self.constant(e)?;
                Ok(cast(u, y))
            }
            ExprNode::Between(Infix::Binary(op), a, b) => {
                let x = self.constant(a)?;
                let y = self.constant(b)?;
                Ok(binary(operator_of(*op), x, y))
            }
            ExprNode::Choice(c, a, b) => {
                let x = self.constant(c)?;
                let y = self.constant(a)?;
                let z = self.constant(b)?;
                Ok(choice(x, y, z))
            }
            ExprNode::String(_) => Err(Stop::NoTyping),
            ExprNode::Index(_, _) => Err(Stop::NoTyping),
            ExprNode::Call(_, _) => Err(Stop::NoTyping),
            ExprNode::Member(_, _, _) => Err(Stop::NoTyping),
            ExprNode::After(_, _) => Err(Stop::NoTyping),
            ExprNode::Between(Infix::Comma, _, _) => Err(Stop::NoTyping),
            ExprNode::Between(Infix::Assign(_), _, _) => Err(Stop::NoTyping),
        }
    }

    /// The number of an enumerator.
    fn named_constant(&self, name: &[u8]) -> Result<Constant, Stop>
        ensures is { Obeys (λ c. c) (words.named_constant name.now) (state_of self.now) (state_of self.now) result }
        ensures in_range { IfOk result IsInRange }
    {
        match entity_of(&self.scopes, name) {
            Some(e) => constant_of(e),
            None => Err(Stop::NoTyping),
        }
    }

    /// The type that a specifier and a declarator without a name are (C11, 6.7.7).
    pub fn type_name(&mut self, s: &'a Specifier, d: &'a Declarator) -> Result<CType, Stop>
        ensures { Obeys type_of (words.type_name s.now d.now) (state_of self.old) (state_of self.new) result }
    {
        let b = self.specified(s.node())?;
        let x = self.declared(d, Derived::Whole(b), Vec::new(self.alloc))?;
        whole_type(x.derived)
    }

    /// The type of an array's elements, which have a size (C11, 6.7.6.2).
    pub fn element(&mut self, d: Derived) -> Result<CType, Stop>
        ensures { Obeys type_of (words.element (derived_of d)) (state_of self.old) (state_of self.new) result }
    {
        let t = whole_type(d)?;
        self.size_of(&t)?;
        Ok(t)
    }

    /// The type of an array whose length is a constant expression.
    fn array_of(&mut self, t: CType, c: Constant) -> Result<CType, Stop>
        ensures { Obeys type_of (words.sized_array (type_of t) c) (state_of self.old) (state_of self.new) result }
    {
        let n = natural(c).ok_or(Stop::NoTyping)?;
        self.array(t, n)
    }

    /// The type of an array.
    pub fn array(&mut self, t: CType, n: u64) -> Result<CType, Stop>
        ensures { Obeys type_of (words.array_of (type_of t) n) (state_of self.old) (state_of self.new) result }
    {
        let Ok(n) = u32::try_from(n) else {
            return Err(Stop::NoTyping);
        };
        let a = CType::Array(Rc::new(self.alloc, t)?, n);
        self.size_of(&a)?;
        Ok(a)
    }

    /// The type of a function with these parameters.
    fn function_of(&mut self, r: CType, ps: &[Parameter<'a>]) -> Result<CType, Stop>
        ensures { Obeys type_of (words.function_of (type_of r) (parameters_in ps.now)) (state_of self.old) (state_of self.new) result }
    {
        let types = parameter_types(self.alloc, ps)?;
        Ok(function_type(self.alloc, r, types)?)
    }
}

/// Adds the name of a parameter, if it has one (C11, 6.7, paragraph 3).
fn add_name<'a>(names: &mut Names<'a>, name: Option<&'a [u8]>) -> Result<(), Stop>
    ensures { Gives (λ _. names.new) (words.with_name names.old (name_of name.entry)) result }
{
    let Some(name) = name else {
        return Ok(());
    };
    if library(name).is_some() {
        return Err(Stop::NoTyping);
    }
    if names.find(name).is_some() {
        return Err(Stop::NoTyping);
    }
    names.add(name)?;
    Ok(())
}

/// The types of parameters, in order.
fn parameter_types(alloc: Global, ps: &[Parameter]) -> Result<Vec<CType>, AllocError>
    ensures { IfOk result (λ ts. types_in ts.items ≡ map (λ p. p.ty) (parameters_in ps.now)) }
{
    let mut types = Vec::new(alloc);
    for p in ps {
        types.push(p.ty.share()?)?;
    }
    Ok(types)
}

/// The number that an enumerator is.
fn constant_of(e: Entity) -> Result<Constant, Stop>
    ensures is { Gives (λ c. c) (words.constant_of e) result }
    ensures in_range { IfOk result IsInRange }
{
    match e {
        Entity::Constant(n) => Ok(a_number(IntType::Int, u64::from(n))),
        Entity::Local(_) => Err(Stop::NoTyping),
        Entity::Global(_) => Err(Stop::NoTyping),
        Entity::Function(_) => Err(Stop::NoTyping),
    }
}

/// The integer type that a type is.
fn integer_type(t: CType) -> Result<IntType, Stop>
    ensures { Gives (λ t. t) (words.integer_type (type_of t)) result }
{
    match t {
        CType::Int(t) => Ok(t),
        CType::Void => Err(Stop::NoTyping),
        CType::Struct(_) => Err(Stop::NoTyping),
        CType::Pointer(_) => Err(Stop::NoTyping),
        CType::Array(_, _) => Err(Stop::NoTyping),
        CType::Function(_) => Err(Stop::NoTyping),
    }
}
