//! Indices of functions: three of the host, then those that are imported from `c`, then those that are defined, and then the start
//! function.

ghost use Rattle.std.specs.Prelude.{◌≡◌, ◌+◌, ◌&&◌, not, false, filter, get_or, is_some, length, map, replicate, Some, slice_get, IfOk, OnOk};
ghost use Rattle.c_types.specs.Types.{type_of};
ghost use Rattle.c_typed.specs.refinement.Views.{function_of, typed_of};
ghost use Rattle.c_typed.specs.Units.{numbers};
ghost use Rattle.c_code.specs.Functions.{signature};
ghost use Rattle.c_code.specs.Modules as words;
ghost use Rattle.c_emit.specs.refinement.Placed.{placed};
ghost use Rattle.c_emit.specs.refinement.Sites.{AreTables};
ghost use Rattle.c_emit.specs.refinement.Used.{AreUses};

use crate::signatures::Signatures;
use crate::uses::Uses;
use c_typed::{Function, TypedUnit};
use c_types::CType;
use std::alloc::{AllocError, Global};

/// How functions are named in a module.
#[derive(Drop)]
pub struct Tables {
    /// The functions that are imported from `c`, by their numbers.
    pub imported: Vec<u32>,
    /// Those that are defined.
    pub defined: Vec<u32>,
    /// Those that are values.
    pub named: Vec<u32>,
    /// The index of each function; 3 where it isn't in the module.
    index: Vec<u32>,
    /// The entry of each function in the table; 1 where it has none.
    entry: Vec<u32>,
    /// The types of functions that are called through pointers, which stand behind those of all functions.
    pub through: Signatures,
    first_through: u32,
}

/// The tables of a unit that uses this.
#[tactic(auto, using(crate::proofs::Defined::flags_fit))]
pub fn tables_of(alloc: Global, unit: &TypedUnit, uses: Uses) -> Result<Tables, AllocError>
    requires { AreUses (typed_of unit.now) uses }
    ensures tables { IfOk result (λ t. AreTables (typed_of unit.now) t) }
    ensures imported { IfOk result (λ t. t.imported.items ≡ words.imported (typed_of unit.now)) }
    ensures defined { IfOk result (λ t. t.defined.items ≡ words.defined (typed_of unit.now)) }
    ensures named { IfOk result (λ t. t.named.items ≡ words.named (typed_of unit.now)) }
{
    let Uses {
        used,
        named,
        through,
        ..
    } = uses;
    let functions = unit.functions.as_slice();
    let imported = imports(alloc, functions, &used)?;
    let defined = definitions(alloc, functions)?;
    let named = numbers_of(alloc, &named)?;
    let index = indices(alloc, functions.len(), &imported, &defined)?;
    let entry = entries(alloc, functions.len(), &named)?;
    let Some(first_through) = number(functions.len())?.checked_add(3) else {
        return Err(AllocError);
    };
    Ok(Tables {
        imported,
        defined,
        named,
        index,
        entry,
        through,
        first_through,
    })
}

/// The index of each function.
fn indices(
    alloc: Global,
    count: usize,
    imported: &[u32],
    defined: &[u32],
) -> Result<Vec<u32>, AllocError>
    ensures { IfOk result (λ ns. ns.items ≡ placed (placed (replicate count 3) imported.now 3) defined.now (length imported.now + 3)) }
{
    let Some(first) = number(imported.len())?.checked_add(3) else {
        return Err(AllocError);
    };
    let mut index = vec![in alloc; 3u32; count]?;
    place(&mut index, imported, 3)?;
    place(&mut index, defined, first)?;
    Ok(index)
}

/// The entry of each function.
fn entries(alloc: Global, count: usize, named: &[u32]) -> Result<Vec<u32>, AllocError>
    ensures { IfOk result (λ ns. ns.items ≡ placed (replicate count 1) named.now 1) }
{
    let mut entry = vec![in alloc; 1u32; count]?;
    place(&mut entry, named, 1)?;
    Ok(entry)
}

/// A count as a number of 32 bits.
pub fn number(count: usize) -> Result<u32, AllocError>
    ensures { IfOk result (λ n. n ≡ count) }
{
    u32::try_from(count).map_err(|_| AllocError)
}

/// The numbers whose flags are set.
#[tactic(auto, using(crate::proofs::Ranks::picked, crate::proofs::Ranks::passed))]
fn numbers_of(alloc: Global, flags: &[bool]) -> Result<Vec<u32>, AllocError>
    ensures { IfOk result (λ ns. ns.items ≡ filter (λ n. get_or flags.now n false) (numbers (length flags.now))) }
{
    let mut all = Vec::new(alloc);
    for (i, flag) in flags.iter().enumerate() {
        if *flag {
            all.push(number(i)?)?;
        }
    }
    Ok(all)
}

/// Those that are defined.
#[tactic(auto, using(crate::proofs::Defined::picked_function, crate::proofs::Defined::passed_function))]
fn definitions(alloc: Global, functions: &[Function]) -> Result<Vec<u32>, AllocError>
    ensures { IfOk result (λ ns. ns.items ≡ filter (λ n. words.is_defined (slice_get (map function_of functions.now) n)) (numbers (length functions.now))) }
{
    let mut all = Vec::new(alloc);
    for (i, f) in functions.iter().enumerate() {
        if f.body.is_some() {
            all.push(number(i)?)?;
        }
    }
    Ok(all)
}

/// Whether a function is imported.
fn is_import(f: &Function, is_used: bool) -> bool
    ensures { result ≡ (not (is_some f.now.body) && is_used) }
{
    if f.body.is_some() {
        return false;
    }
    is_used
}

/// Those that are used and not defined.
fn imports(alloc: Global, functions: &[Function], used: &[bool]) -> Result<Vec<u32>, AllocError>
    requires { length used.now ≡ length functions.now }
    ensures { IfOk result (λ ns. ns.items ≡ filter (λ n. not (words.is_defined (slice_get (map function_of functions.now) n)) && get_or used.now n false) (numbers (length functions.now))) }
{
    let mut all = Vec::new(alloc);
    for (i, f) in functions.iter().enumerate() {
        if is_import(f, used[i]) {
            all.push(number(i)?)?;
        }
    }
    Ok(all)
}

/// Gives these functions indices from the first on.
fn place(index: &mut Vec<u32>, numbers: &[u32], first: u32) -> Result<(), AllocError>
    ensures { OnOk result (index.new.items ≡ placed index.old.items numbers.now first) }
{
    for (i, n) in numbers.iter().enumerate() {
        let Some(k) = first.checked_add(number(i)?) else {
            return Err(AllocError);
        };
        if let Some(place) = index.get_mut(*n as usize) {
            *place = k;
        }
    }
    Ok(())
}

impl Tables {
    /// The index of a function.
    pub fn index(&self, number: u32) -> Result<u32, AllocError>
        ensures { IfOk result (λ i. slice_get self.now.index.items number ≡ Some i) }
    {
        match self.index.get(number as usize) {
            Some(n) => Ok(*n),
            None => Err(AllocError),
        }
    }

    /// Its entry in the table.
    pub fn entry(&self, number: u32) -> Result<u32, AllocError>
        ensures { IfOk result (λ i. slice_get self.now.entry.items number ≡ Some i) }
    {
        match self.entry.get(number as usize) {
            Some(n) => Ok(*n),
            None => Err(AllocError),
        }
    }

    /// The type of a function that is called through a pointer.
    pub fn sig(&self, t: &CType) -> Result<u32, AllocError>
        ensures { IfOk result (λ n. n ≡ self.now.first_through + words.place_of (signature (type_of t.now)) self.now.through) }
    {
        match self.first_through.checked_add(self.through.place(t)?) {
            Some(n) => Ok(n),
            None => Err(AllocError),
        }
    }
}
