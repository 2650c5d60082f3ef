//! What is known at a place in a unit.

ghost use Rattle.std.specs.Prelude.{◌≡◌, ◌≤◌, None, IfOk};
ghost use Rattle.c_types.specs.Layout.{most_bytes};
ghost use Rattle.c_types.specs.Types.{type_of};
ghost use Rattle.c_check_types.specs.Scopes as scopes;
ghost use Rattle.c_check_types.specs.Scopes.{new_tag, tag_number};
ghost use Rattle.c_check_types.specs.Types as words;
ghost use Rattle.c_check_types.specs.State.{added, number_of};
ghost use Rattle.c_check_types.specs.refinement.Views.{Obeys, scope_of, scopes_of, state_of};

use crate::entity::Entity;
use crate::fault::Stop;
use crate::names::Names;
use crate::types::measured;
use c_token::Bytes;
use c_tree::{Sign, SpecifierNode, Width};
use c_typed::{Addition, Enumeration, Function, Made, Subject};
use c_types::{CType, IntType, Structs};
use std::alloc::Global;
use std::collections::LinkedList;

/// The names of a scope, and what each stands for.
#[derive(Drop)]
pub struct Scope<'a> {
    pub names: Names<'a>,
    pub entities: Vec<Entity>,
    /// The slots of the parameters and variables that are declared in it.
    pub slots: Vec<u32>,
}

/// What a name stands for in a scope.
pub fn entity_in(scope: &Scope, name: &[u8]) -> Option<Entity>
    ensures { result ≡ scopes.entity_in (scope_of scope.now) name.now }
{
    match scope.names.find(name) {
        Some(n) => scope.entities.get(n).copied(),
        None => None,
    }
}

/// What a name stands for: an inner name hides outer ones (C11, 6.2.1, paragraph 4).
pub fn entity_of(all: &LinkedList<Scope>, name: &[u8]) -> Option<Entity>
    ensures { result ≡ scopes.entity_of (scopes_of all.now) name.now }
{
    for scope in all.iter() {
        if let Some(e) = entity_in(scope, name) {
            return Some(e);
        }
    }
    None
}

/// What is known at a place in a unit. Contracts see it by `state_of`.
#[derive(Drop)]
pub struct Checker<'a> {
    pub alloc: Global,
    pub tags: Names<'a>,
    pub structs: Structs,
    pub members: Vec<Names<'a>>,
    /// The tags of enumerated types.
    pub enum_tags: Names<'a>,
    pub enumerations: Vec<Enumeration>,
    pub function_names: Names<'a>,
    pub functions: Vec<Function>,
    pub global_names: Vec<Bytes>,
    pub globals: Vec<CType>,
    pub made: Vec<Made>,
    /// How many of these are literals.
    pub literals: u32,
    /// The innermost first.
    pub scopes: LinkedList<Scope<'a>>,
    pub slots: Vec<CType>,
    /// Where the external declaration that is read begins.
    pub at: usize,
    /// What the external declarations so far add.
    pub additions: Vec<Addition>,
}

impl<'a> Checker<'a> {
    /// The number of a tag, which is new where it is seen for the first time (C11, 6.7.2.3).
    pub fn tag_number(&mut self, tag: &'a [u8]) -> Result<u32, Stop>
        ensures { Obeys (λ n. n) (tag_number tag.now) (state_of self.old) (state_of self.new) result }
    {
        match self.tags.find(tag) {
            Some(n) => match u32::try_from(n) {
                Ok(n) => Ok(n),
                Err(_) => Err(Stop::Memory),
            },
            None => self.new_tag(tag),
        }
    }

    /// The external declaration that is read adds this.
    pub fn added(&mut self, subject: Subject) -> Result<(), Stop>
        ensures { Obeys (λ _. tt) (added subject) (state_of self.old) (state_of self.new) result }
    {
        self.additions.push(Addition {
            at: self.at,
            subject,
        })?;
        Ok(())
    }

    /// The number of a tag that is seen for the first time.
    fn new_tag(&mut self, tag: &'a [u8]) -> Result<u32, Stop>
        requires { number_of (state_of self.old).tags tag.now ≡ None }
        ensures { Obeys (λ n. n) (new_tag tag.now) (state_of self.old) (state_of self.new) result }
    {
        if self.enum_tags.find(tag).is_some() {
            return Err(Stop::NoTyping);
        }
        let number = self.structs.add_tag()?;
        self.tags.add(tag)?;
        self.members.push(Names::new(self.alloc))?;
        self.added(Subject::Tag(number))?;
        Ok(number)
    }

    /// The type of a specifier (C11, 6.7.2).
    pub fn specified(&mut self, s: &'a SpecifierNode) -> Result<CType, Stop>
        ensures { Obeys type_of (words.specified s.now) (state_of self.old) (state_of self.new) result }
    {
        match s {
            SpecifierNode::Void => Ok(CType::Void),
            SpecifierNode::Integer(ws) => match ws.combination() {
                Some(c) => Ok(CType::Int(integer_said(c.sign, c.width))),
                None => Err(Stop::NoTyping),
            },
            SpecifierNode::SizeT => Ok(CType::Int(IntType::UnsignedInt)),
            SpecifierNode::PtrdiffT => Ok(CType::Int(IntType::LongLong)),
            SpecifierNode::Struct(tag) => {
                let n = self.tag_number(tag.as_slice())?;
                Ok(CType::Struct(n))
            }
            SpecifierNode::Enum(tag) => {
                if self.enum_tags.find(tag.as_slice()).is_some() {
                    Ok(CType::Int(IntType::Int))
                } else {
                    Err(Stop::NoTyping)
                }
            }
        }
    }

    /// The size of a type (C11, 6.5.3.4).
    pub fn size_of(&mut self, t: &CType) -> Result<u64, Stop>
        ensures is { Obeys (λ n. n) (words.size_of (type_of t.now)) (state_of self.old) (state_of self.new) result }
        ensures small { IfOk result (λ n. n ≤ most_bytes) }
    {
        match measured(&self.structs, t) {
            Some(n) => Ok(n),
            None => Err(Stop::NoTyping),
        }
    }
}

/// The integer type that words say (C11, 6.7.2, paragraph 2).
fn integer_said(sign: Sign, width: Width) -> IntType
    ensures { result ≡ words.integer_said sign width }
{
    match width {
        Width::Char => match sign {
            Sign::Unsaid => IntType::Char,
            Sign::Signed => IntType::SignedChar,
            Sign::Unsigned => IntType::UnsignedChar,
        },
        Width::Short => match sign {
            Sign::Unsigned => IntType::UnsignedShort,
            Sign::Unsaid => IntType::Short,
            Sign::Signed => IntType::Short,
        },
        Width::Unsaid => match sign {
            Sign::Unsigned => IntType::UnsignedInt,
            Sign::Unsaid => IntType::Int,
            Sign::Signed => IntType::Int,
        },
        Width::Long => match sign {
            Sign::Unsigned => IntType::UnsignedLong,
            Sign::Unsaid => IntType::Long,
            Sign::Signed => IntType::Long,
        },
        Width::LongLong => match sign {
            Sign::Unsigned => IntType::UnsignedLongLong,
            Sign::Unsaid => IntType::LongLong,
            Sign::Signed => IntType::LongLong,
        },
    }
}
