//! Tables of functions.

ghost use Rattle.std.specs.Prelude.{◌≡◌, ◌<◌, ◌≤◌, ◌↔◌, IfOk, IsTrue, length, None, replicate, slice_set, Some};
ghost use Rattle.ms_linear.specs.Table.{IsTarget, most_entries, target_of, with_entry};

use ms_types::{FuncType, Limits, SharedType, ValType};
use std::alloc::{AllocError, Global};
use std::marker::Model;

/// How many entries a table may have at most.
pub const MOST_ENTRIES: u32 = 65_536;

/// A function of the store, by its address: its place in the store's functions (WebAssembly 1.0, 4.2.4).
#[derive(Clone, Copy, PartialEq, Eq)]
pub struct FuncRef {
    /// The address.
    pub address: u32,
}

/// An entry of a table: a function and its type.
#[derive(Drop)]
pub struct Entry {
    /// The function.
    pub func: FuncRef,
    /// Its type.
    pub sig: SharedType,
}

/// Why a call goes nowhere.
#[derive(Clone, Copy, PartialEq, Eq)]
pub enum CallTrap {
    /// The index is outside the table.
    Outside,
    /// There is no function at the index.
    Empty,
    /// The function there has another type.
    Signature,
}

/// A table (WebAssembly 1.0, 4.2.7). Contracts see its entries and the greatest number that it may have.
#[derive(Drop)]
pub struct Table {
    entries: Vec<Option<Entry>>,
    max: Option<u32>,
}

impl Model for Table {
    ghost use Rattle.std.specs.Prelude.{◌≤◌, length};
    ghost use Rattle.ms_linear.specs.Table.{Table, most_entries};

    ghost Value = { Table };

    ghost view = { λ t. record { entries = t.entries.items; max = t.max } };

    ghost invariant = { λ t. length t.entries.items ≤ most_entries };
}

impl Table {
    /// So many empty entries.
    pub fn new(alloc: Global, limits: Limits) -> Result<Self, AllocError>
        requires { limits.min ≤ most_entries }
        ensures { IfOk result (λ t. t ≡ record { entries = replicate limits.min None; max = limits.max }) }
    {
        let mut entries = Vec::with_capacity(alloc, limits.min as usize)?;
        for _ in 0..limits.min {
            entries.push(None)?;
        }
        Ok(Table {
            entries,
            max: limits.max,
        })
    }

    /// How many entries it has.
    pub fn len(&self) -> u32
        ensures entries { result ≡ length self.now.entries }
        ensures few { result ≤ most_entries }
    {
        self.entries.len() as u32
    }

    /// The greatest number of entries that it may have, if one is set.
    pub fn max(&self) -> Option<u32>
        ensures { result ≡ self.now.max }
    {
        self.max
    }

    /// Puts a function at an index.
    pub fn set(&mut self, i: u32, entry: Entry)
        requires { i < length self.old.entries }
        ensures { self.new ≡ with_entry self.old i entry }
    {
        self.entries[i as usize] = Some(entry);
    }
}

/// The function that a call through the table goes to: that at the index, if it has the type.
pub fn target(table: &Table, i: u32, sig: &FuncType) -> Result<FuncRef, CallTrap>
    ensures target { IsTarget table.now.entries i sig.now result }
    ensures call { result ≡ target_of table.now.entries i sig.now }
{
    let index = i as usize;
    if table.entries.len() <= index {
        return Err(CallTrap::Outside);
    }
    let Some(entry) = &table.entries[index] else {
        return Err(CallTrap::Empty);
    };
    if !is_same_type(entry.sig.ty(), sig) {
        return Err(CallTrap::Signature);
    }
    Ok(entry.func)
}

/// Whether the parameters and the results are of the same types, in order.
fn is_same_type(a: &FuncType, b: &FuncType) -> bool
    ensures { IsTrue result ↔ (a.now ≡ b.now) }
{
    are_same(a.params.as_slice(), b.params.as_slice())
        && are_same(a.results.as_slice(), b.results.as_slice())
}

/// Whether the types are the same, in order.
fn are_same(a: &[ValType], b: &[ValType]) -> bool
    ensures { IsTrue result ↔ (a.now ≡ b.now) }
{
    a == b
}
