//! The structs of a program.

ghost use Rattle.std.specs.Prelude.{◌≡◌, ℕ, ◌^◌, ◌<◌, ◌≤◌, ◌↔◌, [], ◌∷◌, ◌++◌, IsTrue, MatchResult, length, slice_get, slice_set};
ghost use Rattle.std.specs.List.{All};
ghost use Rattle.c_types.specs.Layout as words;
ghost use Rattle.c_types.specs.Layout.{HasSmallParts, HasSize, IsDefined, IsLaidOut, IsSmall, laid_out, members_of, most_bytes};
ghost use Rattle.c_types.specs.Types.{struct, type_of};
ghost use Rattle.c_types.specs.refinement.Views.{types_in};

use crate::definition::Definition;
use crate::layout::{align_in, defined, lay_out, size_in};
use crate::types::CType;
use std::alloc::{AllocError, Global};
use std::marker::Model;

/// The structs of a program, by the numbers of their tags (C11, 6.7.2.3): a tag gets a number where it is first seen, and
/// its struct is defined once. Contracts see the table of what is defined, each with its layout.
#[derive(Drop)]
pub struct Structs {
    definitions: Vec<Option<Definition>>,
}

impl Model for Structs {
    ghost use Rattle.c_types.specs.refinement.Codes.{coded_table};
    ghost use Rattle.c_types.specs.Layout.{IsLaidOut, Table};
    ghost use Rattle.c_types.specs.refinement.Views.{table_of};

    ghost Value = { Table };

    ghost coded = { coded_table };

    ghost view = { λ s. table_of s.definitions.items };

    ghost invariant = { λ s. IsLaidOut (table_of s.definitions.items) };
}

impl Structs {
    /// No tags.
    pub fn new(alloc: Global) -> Structs
        ensures { result ≡ [] }
    {
        Structs {
            definitions: Vec::new(alloc),
        }
    }

    /// The number of a tag that is seen for the first time; its struct isn't defined. `Err`: want of memory, or 2^32 tags
    /// have numbers; nothing has changed.
    pub fn add_tag(&mut self) -> Result<u32, AllocError>
        ensures { MatchResult result (λ n. (n ≡ length self.old) × (self.new ≡ self.old ++ None ∷ [])) (λ _. self.new ≡ self.old) }
    {
        let number = u32::try_from(self.definitions.len()).map_err(|_| AllocError)?;
        self.definitions.push(None)?;
        Ok(number)
    }

    /// Defines the struct of a tag by its members' types (6.7.2.1). `Err`: want of memory; nothing has changed.
    pub fn define(
        &mut self,
        alloc: Global,
        number: u32,
        members: Vec<CType>,
    ) -> Result<(), AllocError>
        requires tag { slice_get self.old number ≡ Some None }
        requires parts { All (IsSmall self.old) (types_in members.items) }
        requires count { length members.items ≤ most_bytes }
        ensures { MatchResult result (λ _. self.new ≡ slice_set self.old number (Some (laid_out self.old (types_in members.items)))) (λ _. self.new ≡ self.old) }
    {
        let definition = lay_out(alloc, &self.definitions, members)?;
        self.definitions[number as usize] = Some(definition);
        Ok(())
    }

    /// Whether the struct of a tag is defined.
    pub fn is_defined(&self, number: u32) -> bool
        ensures { IsTrue result ↔ IsDefined self.now number }
    {
        match self.definitions.get(number as usize) {
            Some(Some(_)) => true,
            Some(None) => false,
            None => false,
        }
    }

    /// Whether a tag has this number and its struct isn't defined.
    pub fn is_undefined(&self, number: u32) -> bool
        ensures { IsTrue result ↔ (slice_get self.now number ≡ Some None) }
    {
        match self.definitions.get(number as usize) {
            Some(Some(_)) => false,
            Some(None) => true,
            None => false,
        }
    }

    /// The types of a struct's members, in order.
    pub fn members(&self, number: u32) -> &[CType]
        requires { IsDefined self.now number }
        ensures { types_in result.now ≡ members_of self.now (struct number) }
    {
        &defined(&self.definitions, number).members
    }
}

/// The size of a type, in bytes (6.5.3.4): that of a struct is what its members say. It takes no memory and no longer
/// for more structs.
pub fn size(structs: &Structs, t: &CType) -> u64
    requires sized { HasSize structs.now (type_of t.now) }
    requires parts { HasSmallParts structs.now (type_of t.now) }
    ensures is { result ≡ words.size structs.now (type_of t.now) }
    ensures laid_out { IsLaidOut structs.now }
{
    size_in(&structs.definitions, t)
}

/// The alignment of a type (6.2.8): 1, 2, 4, 8 or 16.
pub fn align(structs: &Structs, t: &CType) -> u64
    requires { HasSize structs.now (type_of t.now) }
    ensures { result ≡ words.align structs.now (type_of t.now) }
{
    u64::from(align_in(&structs.definitions, t))
}

/// Where a member of a struct begins, in bytes from its start (6.7.2.1, paragraph 15).
pub fn offset(structs: &Structs, t: &CType, member: u32) -> u64
    requires { member < length (members_of structs.now (type_of t.now)) }
    ensures { result ≡ words.offset structs.now (type_of t.now) member }
{
    match t {
        CType::Struct(n) => defined(&structs.definitions, *n).offsets[member as usize],
        CType::Void => unreachable!(),
        CType::Int(_) => unreachable!(),
        CType::Pointer(_) => unreachable!(),
        CType::Array(_, _) => unreachable!(),
        CType::Function(_) => unreachable!(),
    }
}
