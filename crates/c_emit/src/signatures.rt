//! The types of functions in a module, each kept once (WebAssembly 1.0, 2.3.3).

ghost use Rattle.std.specs.Prelude.{◌≡◌, ◌∷◌, ◌++◌, [], false, if◌then◌else◌, map, position, None, IfOk, OnErr, OnOk};
ghost use Rattle.std.specs.List.{list_any};
ghost use Rattle.std.specs.Str.{bytes_eq};
ghost use Rattle.indexmap.specs.IndexMap.{keys};
ghost use Rattle.c_types.specs.Types.{type_of};
ghost use Rattle.c_code.specs.Functions as words;
ghost use Rattle.c_code.specs.Modules.{place_of};
ghost use Rattle.c_code.specs.Operations.{val_of, val_option};
ghost use Rattle.ms_linear.specs.Table.{same_sig};
ghost use Rattle.c_emit.specs.refinement.Keys.{code, key};

use crate::operations::{val_option, val_type};
use crate::tables::number;
use c_types::{CType, Scalar};
use indexmap::IndexMap;
use ms_types::{FuncType, ValType, Vector};
use std::alloc::{AllocError, Global};
use std::marker::Model;

/// What a parameter of a type is held in.
fn held(t: &CType) -> ValType
    ensures { result ≡ words.held_as false (type_of t.now) }
{
    match t.scalar() {
        Some(scalar) => val_type(scalar),
        None => ValType::Handle,
    }
}

/// The type of a function of the machine for one of C.
#[tactic(auto, using(crate::proofs::Signing::signature_is))]
pub fn signature(alloc: Global, t: &CType) -> Result<FuncType, AllocError>
    ensures { IfOk result (λ ty. ty ≡ words.signature (type_of t.now)) }
{
    match t {
        CType::Function(f) => {
            let params = held_in(alloc, f.params.as_slice())?;
            let results = listed(alloc, f.result.scalar())?;
            Ok(FuncType { params, results })
        }
        CType::Void => bare(alloc, t),
        CType::Int(_) => bare(alloc, t),
        CType::Struct(_) => bare(alloc, t),
        CType::Pointer(_) => bare(alloc, t),
        CType::Array(_, _) => bare(alloc, t),
    }
}

/// What parameters of these types are held in.
fn held_in(alloc: Global, ts: &[CType]) -> Result<Vector<ValType>, AllocError>
    ensures { IfOk result (λ params. params ≡ map (λ t. words.held_as false (type_of t)) ts.now) }
{
    let mut params = Vector::new(alloc);
    for t in ts {
        params.push(held(t))?;
    }
    Ok(params)
}

/// The type of a function without parameters whose result is of this type.
fn bare(alloc: Global, t: &CType) -> Result<FuncType, AllocError>
    ensures { IfOk result (λ ty. ty ≡ record { params = []; results = words.listed (val_of (type_of t.now)) }) }
{
    Ok(FuncType {
        params: Vector::new(alloc),
        results: listed(alloc, t.scalar())?,
    })
}

/// The types of results.
fn listed(alloc: Global, scalar: Option<Scalar>) -> Result<Vector<ValType>, AllocError>
    ensures { IfOk result (λ types. types ≡ words.listed (val_option scalar)) }
{
    let mut types = Vector::new(alloc);
    if let Some(ty) = val_option(scalar) {
        types.push(ty)?;
    }
    Ok(types)
}

fn code_of(ty: ValType) -> u8
    ensures { result ≡ code ty }
{
    match ty {
        ValType::I32 => 1,
        ValType::I64 => 2,
        ValType::Handle => 3,
    }
}

fn add_codes(key: &mut Vec<u8>, types: &[ValType]) -> Result<(), AllocError>
    ensures { OnOk result (key.new.items ≡ key.old.items ++ map code types.now) }
{
    for ty in types {
        key.push(code_of(*ty))?;
    }
    Ok(())
}

/// The key of a type.
fn key_of(alloc: Global, ty: &FuncType) -> Result<Vec<u8>, AllocError>
    ensures { IfOk result (λ bytes. bytes.items ≡ key ty.now) }
{
    let mut key = Vec::new(alloc);
    add_codes(&mut key, ty.params.as_slice())?;
    key.push(0)?;
    add_codes(&mut key, ty.results.as_slice())?;
    Ok(key)
}

/// The place of a key.
fn find(types: &IndexMap<Vec<u8>, FuncType>, key: &[u8]) -> Option<usize>
    ensures { result ≡ position (λ k. bytes_eq key.now k.items) (keys types.now) }
{
    types.get_index_of(key)
}

/// Adds a type under a key that isn't there. After an error nothing has changed.
fn insert(
    types: &mut IndexMap<Vec<u8>, FuncType>,
    key: Vec<u8>,
    ty: FuncType,
) -> Result<(), AllocError>
    requires { position (λ k. bytes_eq key.items k.items) (keys types.old) ≡ None }
    ensures ok { OnOk result (types.new.entries ≡ types.old.entries ++ (key, ty) ∷ []) }
    ensures err { OnErr result (types.new.entries ≡ types.old.entries) }
{
    types.insert(key, ty)?;
    Ok(())
}

/// Types of functions, each once, in the order in which they come first. Contracts see the list of them.
#[derive(Drop)]
pub struct Signatures {
    /// By their keys.
    types: IndexMap<Vec<u8>, FuncType>,
    alloc: Global,
}

impl Model for Signatures {
    ghost use Rattle.std.specs.Prelude.{◌≡◌, List, map};
    ghost use Rattle.indexmap.specs.IndexMap.{values};
    ghost use Rattle.ms_types.specs.declared.types.FuncType.{FuncType};
    ghost use Rattle.c_emit.specs.refinement.Keys.{key, keys_in};

    ghost Value = { List FuncType };

    ghost view = { λ s. values s.types };

    ghost invariant = { λ s. keys_in s.types ≡ map key (values s.types) };
}

impl Signatures {
    /// None. Takes no memory.
    pub fn new(alloc: Global) -> Signatures
        ensures { result ≡ [] }
    {
        Signatures {
            types: IndexMap::new(alloc),
            alloc,
        }
    }

    /// Adds the type of a function, where it isn't there. After an error nothing has changed.
    pub fn add(&mut self, t: &CType) -> Result<(), AllocError>
        ensures ok { OnOk result (self.new ≡ (if list_any (same_sig (words.signature (type_of t.now))) self.old then self.old else self.old ++ words.signature (type_of t.now) ∷ [])) }
        ensures err { OnErr result (self.new ≡ self.old) }
    {
        let ty = signature(self.alloc, t)?;
        let key = key_of(self.alloc, &ty)?;
        if find(&self.types, &key).is_some() {
            return Ok(());
        }
        insert(&mut self.types, key, ty)
    }

    /// The place of the type of a function.
    pub fn place(&self, t: &CType) -> Result<u32, AllocError>
        ensures { IfOk result (λ n. n ≡ place_of (words.signature (type_of t.now)) self.now) }
    {
        let key = key_of(self.alloc, &signature(self.alloc, t)?)?;
        match find(&self.types, &key) {
            Some(place) => number(place),
            None => Err(AllocError),
        }
    }

    /// The types. Takes no memory.
    pub fn types(&self) -> &[FuncType]
        ensures { result.now ≡ self.now }
    {
        self.types.values().as_slice()
    }
}
