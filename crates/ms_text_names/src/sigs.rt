//! The function types of a module, with those that type uses add (WebAssembly 1.0, 6.6.3).

ghost use Rattle.std.specs.Prelude.{◌≡◌, ◌++◌, ◌∷◌, [], is_some, IfOk, OnErr, OnOk, slice_get};
ghost use Rattle.ms_types.specs.declared.types.FuncType.{FuncType};
ghost use Rattle.ms_text_grammar.specs.TypeUses.{params_len, with_use, with_uses};
ghost use Rattle.ms_text_grammar.specs.Shapes.{has_type, least_equal, param_types, use_type};
ghost use Rattle.ms_text_names.specs.refinement.Keys.{at_key, code_of, codes_of, first_of, key_of};
ghost use Rattle.ms_text_names.specs.refinement.Spaces.{first_or, numbered};

use crate::names::number;
use ms_text_grammar::{Param, TypeUse};
use ms_types::{FuncType, ValType, Vector};
use std::alloc::{AllocError, Global};
use std::collections::BTreeMap;
use std::marker::Model;

/// The types of parameters.
fn param_types(alloc: Global, params: &[Param]) -> Result<Vector<ValType>, AllocError>
    ensures { IfOk result (λ tys. tys ≡ param_types params.now) }
{
    let mut types = Vector::new(alloc);
    for param in params {
        types.push(param.ty)?;
    }
    Ok(types)
}

/// The type that these parameters and results are.
fn written_type(
    alloc: Global,
    params: &[Param],
    results: &[ValType],
) -> Result<FuncType, AllocError>
    ensures { IfOk result (λ ty. ty ≡ record { params = param_types params.now; results = results.now }) }
{
    let params = param_types(alloc, params)?;
    let results = Vector::from_vec(Vec::from_slice(alloc, results)?);
    Ok(FuncType { params, results })
}

fn code_of(ty: ValType) -> u8
    ensures { result ≡ code_of ty }
{
    match ty {
        ValType::I32 => 1,
        ValType::I64 => 2,
        ValType::Handle => 3,
    }
}

fn add_codes(key: &mut Vec<u8>, types: &[ValType]) -> Result<(), AllocError>
    ensures { OnOk result (key.new.items ≡ key.old.items ++ codes_of types.now) }
{
    for ty in types {
        key.push(code_of(*ty))?;
    }
    Ok(())
}

/// The key of a type.
fn key_of(alloc: Global, ty: &FuncType) -> Result<Vec<u8>, AllocError>
    ensures { IfOk result (λ key. key.items ≡ key_of ty.now) }
{
    let mut key = Vec::new(alloc);
    add_codes(&mut key, ty.params.as_slice())?;
    key.push(0)?;
    add_codes(&mut key, ty.results.as_slice())?;
    Ok(key)
}

/// Keeps the number of a key where it has none.
fn keep(first: &mut BTreeMap<Vec<u8>, u32>, key: Vec<u8>, number: u32) -> Result<(), AllocError>
    ensures ok { OnOk result ((q : _) → at_key first.new q ≡ first_or (at_key first.old q) (numbered key.items q.items number)) }
    ensures err { OnErr result ((q : _) → at_key first.new q ≡ at_key first.old q) }
{
    if first.contains_key(&key) {
        return Ok(());
    }
    let _ = first.insert(key, number)?;
    Ok(())
}

/// Function types in their order, at most 2^32. Contracts see them as a list.
#[derive(Drop)]
pub struct Sigs {
    types: Vec<FuncType>,
    first: BTreeMap<Vec<u8>, u32>,
}

impl Model for Sigs {
    ghost use Rattle.std.specs.Prelude.{◌≡◌, List};
    ghost use Rattle.ms_types.specs.declared.types.FuncType.{FuncType};
    ghost use Rattle.ms_text_names.specs.refinement.Keys.{at_key, first_of};

    ghost Value = { List FuncType };

    ghost view = { λ s. s.types.items };

    ghost invariant = { λ s. (q : _) → at_key s.first q ≡ first_of s.types.items q.items 0 };
}

impl Sigs {
    /// No types. Takes no memory.
    pub fn new(alloc: Global) -> Self
        ensures { result ≡ [] }
    {
        Sigs {
            types: Vec::new(alloc),
            first: BTreeMap::new(alloc),
        }
    }

    /// Adds a type, whose key is given.
    fn push(&mut self, key: Vec<u8>, ty: FuncType) -> Result<(), AllocError>
        requires { key.items ≡ key_of ty }
        ensures { OnOk result (self.new ≡ self.old ++ ty ∷ []) }
    {
        let number = number(self.types.len())?;
        self.types.reserve(1)?;
        keep(&mut self.first, key, number)?;
        self.types.push_reserved(ty);
        Ok(())
    }

    /// The first type of a key.
    fn find(&self, key: &Vec<u8>) -> Option<u32>
        ensures { result ≡ first_of self.now key.now.items 0 }
    {
        self.first.get(key).copied()
    }

    /// Adds the type that these parameters and results are.
    pub fn add(
        &mut self,
        alloc: Global,
        params: &[Param],
        results: &[ValType],
    ) -> Result<(), AllocError>
        ensures { OnOk result (self.new ≡ self.old ++ record { params = param_types params.now; results = results.now } ∷ []) }
    {
        let ty = written_type(alloc, params, results)?;
        let key = key_of(alloc, &ty)?;
        self.push(key, ty)
    }

    /// Adds the type of a use that names none, where it isn't there.
    pub fn add_use(&mut self, alloc: Global, sig: &TypeUse) -> Result<(), AllocError>
        ensures { OnOk result (self.new ≡ with_use sig.now.sig (use_type sig.now) self.old) }
    {
        if sig.sig.is_some() {
            return Ok(());
        }
        let ty = written_type(alloc, sig.params.as_slice(), sig.results.as_slice())?;
        let key = key_of(alloc, &ty)?;
        if self.find(&key).is_some() {
            return Ok(());
        }
        self.push(key, ty)
    }

    /// Adds the types of uses.
    pub fn add_uses(&mut self, alloc: Global, uses: &[TypeUse]) -> Result<(), AllocError>
        ensures { OnOk result (self.new ≡ with_uses uses.now self.old) }
    {
        for sig in uses {
            self.add_use(alloc, sig)?;
        }
        Ok(())
    }

    /// The index of the first type that a use writes, or the number of types where there is none.
    pub fn least_equal(&self, alloc: Global, sig: &TypeUse) -> Result<u32, AllocError>
        ensures { IfOk result (λ n. n ≡ least_equal (use_type sig.now) self.now) }
    {
        let ty = written_type(alloc, sig.params.as_slice(), sig.results.as_slice())?;
        let key = key_of(alloc, &ty)?;
        match self.find(&key) {
            Some(n) => Ok(n),
            None => number(self.types.len()),
        }
    }

    /// How many parameters the type of this index has; none where there is no such type.
    pub fn params_len(&self, index: u32) -> usize
        ensures { result ≡ params_len (slice_get self.now index) }
    {
        match self.types.get(index as usize) {
            None => 0,
            Some(ty) => ty.params.len(),
        }
    }

    /// The types. Takes no memory.
    pub fn into_types(self) -> Vector<FuncType>
        ensures { result ≡ self }
    {
        let Sigs { types, first: _ } = self;
        Vector::from_vec(types)
    }
}
