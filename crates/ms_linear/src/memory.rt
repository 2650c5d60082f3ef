//! The linear memory.

ghost use Rattle.std.specs.Prelude.{◌≡◌, ◌^◌, ◌<◌, ◌≤◌, ◌+◌, ◌*◌, ◌++◌, ◌↔◌, IfOk, IsTrue, MatchOption, MatchResult, OnErr, drop, length, replicate, take};
ghost use Rattle.ms_types.specs.Page.{page};
ghost use Rattle.ms_linear.specs.Memory.{IsInside, IsWidth, MayGrow, grown, loaded, most_pages, pages, stored};

use crate::number::{read_1, read_2, read_4, read_8, write_1, write_2, write_4, write_8};
use ms_types::{Limits, PAGE};
use std::alloc::{AllocError, Global};
use std::marker::Model;

/// How many pages a linear memory may have at most.
pub const MOST_PAGES: u32 = 1_024;

/// An access that lies outside the memory.
#[derive(Clone, Copy, PartialEq, Eq)]
pub struct Outside;

/// A linear memory (WebAssembly 1.0, 4.2.8). Contracts see its bytes and the greatest number of pages that it may have.
#[derive(Drop)]
pub struct Linear {
    bytes: Vec<u8>,
    max: Option<u32>,
}

impl Model for Linear {
    ghost use Rattle.std.specs.Prelude.{◌≡◌, ◌≤◌, ◌%◌, ◌*◌, length};
    ghost use Rattle.ms_types.specs.Page.{page};
    ghost use Rattle.ms_linear.specs.Memory.{Memory, most_pages};

    ghost Value = { Memory };

    ghost view = { λ m. record { bytes = m.bytes.items; max = m.max } };

    ghost invariant = { λ m. (length m.bytes.items % page ≡ 0) × (length m.bytes.items ≤ most_pages * page) };
}

impl Linear {
    /// So many pages of zeros.
    pub fn new(alloc: Global, limits: Limits) -> Result<Self, AllocError>
        requires { limits.min ≤ most_pages }
        ensures { IfOk result (λ m. m ≡ record { bytes = replicate (limits.min * page) 0; max = limits.max }) }
    {
        Ok(Linear {
            bytes: vec![in alloc; 0; limits.min as usize * PAGE]?,
            max: limits.max,
        })
    }

    /// How many pages it has.
    pub fn len(&self) -> u32
        ensures pages { result ≡ pages self.now }
        ensures whole { length self.now.bytes ≡ result * page }
        ensures few { result ≤ most_pages }
    {
        (self.bytes.len() / PAGE) as u32
    }

    /// The greatest number of pages that it may have, if one is set.
    pub fn max(&self) -> Option<u32>
        ensures { result ≡ self.now.max }
    {
        self.max
    }

    /// The number of `width` bytes that stands at the address, the lowest first.
    pub fn load(&self, address: u64, width: u32) -> Result<u64, Outside>
        requires { IsWidth width }
        ensures number { MatchResult result
            (λ v. IsInside self.now address width × (v ≡ loaded self.now address width))
            (λ _. ¬ IsInside self.now address width) }
        ensures fits { IfOk result (λ v. v < 256 ^ width) }
    {
        let from = self.place(address, width)?;
        Ok(match width {
            1 => read_1(&self.bytes, from),
            2 => read_2(&self.bytes, from),
            4 => read_4(&self.bytes, from),
            _ => read_8(&self.bytes, from),
        })
    }

    /// Writes the lowest `width` bytes of the value at the address, the lowest first. After an error nothing has
    /// changed.
    pub fn store(&mut self, address: u64, width: u32, value: u64) -> Result<(), Outside>
        requires { IsWidth width }
        ensures { MatchResult result
            (λ _. IsInside self.old address width × (self.new ≡ stored self.old address width value))
            (λ _. (¬ IsInside self.old address width) × (self.new ≡ self.old)) }
    {
        let to = self.place(address, width)?;
        match width {
            1 => write_1(&mut self.bytes, to, value),
            2 => write_2(&mut self.bytes, to, value),
            4 => write_4(&mut self.bytes, to, value),
            _ => write_8(&mut self.bytes, to, value),
        }
        Ok(())
    }

    /// Writes bytes from a place on.
    pub fn write(&mut self, at: usize, bytes: &[u8])
        requires { at + length bytes.now ≤ length self.old.bytes }
        ensures { self.new ≡ record { bytes = take at self.old.bytes ++ bytes.now ++ drop (at + length bytes.now) self.old.bytes; max = self.old.max } }
    {
        self.bytes[at..at + bytes.len()].copy_from_slice(bytes);
    }

    /// Adds so many pages of zeros, and gives how many there were before. `None` where it may not have so many; then,
    /// and after an error, nothing has changed.
    pub fn grow(&mut self, n: u32) -> Result<Option<u32>, AllocError>
        ensures answer { IfOk result (λ answer. MatchOption answer
            ((¬ MayGrow self.old n) × (self.new ≡ self.old))
            (λ before. MayGrow self.old n × (before ≡ pages self.old) × (self.new ≡ grown self.old n))) }
        ensures unchanged { OnErr result (self.new ≡ self.old) }
    {
        let before = self.len();
        if !self.may_grow(n) {
            return Ok(None);
        }
        self.bytes.resize(self.bytes.len() + n as usize * PAGE, 0)?;
        Ok(Some(before))
    }

    /// Whether it may have so many more pages.
    fn may_grow(&self, n: u32) -> bool
        ensures { IsTrue result ↔ MayGrow self.now n }
    {
        let room = MOST_PAGES - self.len();
        n <= room
            && match self.max {
                Some(max) => self.len() + n <= max,
                None => true,
            }
    }

    /// The place of so many bytes from an address on.
    fn place(&self, address: u64, width: u32) -> Result<usize, Outside>
        ensures { MatchResult result
            (λ at. IsInside self.now address width × (at ≡ address))
            (λ _. ¬ IsInside self.now address width) }
    {
        let size = self.bytes.len() as u64;
        let width = u64::from(width);
        if size < width || size - width < address {
            return Err(Outside);
        }
        Ok(address as usize)
    }
}
