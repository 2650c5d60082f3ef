//! The parts that are written: numbers, vectors of items, and sections.

ghost use Rattle.std.specs.Prelude.{◌≡◌, ◌≤◌, ◌<◌, ◌^◌, ◌++◌, ℕ, List, length, OnOk, Err, nat_lt};
ghost use Rattle.ms_bin_write.specs.declared.fault.BinFault.TheVariants.{Large};
ghost use Rattle.ms_bin_write.specs.Parts.{number_bytes, sized_bytes, vec_bytes};
ghost use Rattle.ms_flat.specs.refinement.Ranges.{AllFit, NumberFits};
ghost use Rattle.ms_bin_write.specs.Written.{IsTooMany, part_bytes, section_bytes};

use crate::fault::BinFault;
use ms_leb::write_u;
use ms_types::Vector;
use std::alloc::{AllocError, Global};

/// The greatest number of bytes that a section may have.
const MOST_BYTES: usize = 0xFFFF_FFFF;

/// What is written at the end of bytes.
pub trait Item {
    ghost bytes: { Self → List ℕ };

    ghost fits: { Self → Type 0 };

    /// Writes it at the end.
    fn write(&self, alloc: Global, out: &mut Vec<u8>) -> Result<(), AllocError>
        ensures written { OnOk result (out.new.items ≡ out.old.items ++ bytes self.now) }
        ensures within { OnOk result (fits self.now) };
}

impl Item for u32 {
    ghost bytes = { number_bytes };

    ghost fits = { NumberFits };

    fn write(&self, _alloc: Global, out: &mut Vec<u8>) -> Result<(), AllocError> {
        write_u(u64::from(*self), out)
    }
}

/// Writes items behind how many they are.
#[tactic(auto, unfolding(crate::specs::Parts::vec_bytes))]
pub fn write_vec<T: Item>(alloc: Global, items: &[T], out: &mut Vec<u8>) -> Result<(), AllocError>
    ensures written { OnOk result (out.new.items ≡ out.old.items ++ vec_bytes T.bytes items.now) }
    ensures within { OnOk result (AllFit T.fits items.now) }
{
    write_u(items.len() as u64, out)?;
    for item in items {
        item.write(alloc, out)?;
    }
    Ok(())
}

/// Writes bytes behind how many they are.
#[tactic(auto, unfolding(crate::specs::Parts::sized_bytes))]
pub fn write_sized(content: &[u8], out: &mut Vec<u8>) -> Result<(), AllocError>
    ensures { OnOk result (out.new.items ≡ out.old.items ++ sized_bytes content.now) }
{
    write_u(content.len() as u64, out)?;
    out.extend_from_slice(content)
}

/// Whether bytes are too many for the size that stands before them.
pub fn is_large(content: &[u8]) -> bool
    ensures { result ≡ nat_lt 0xFFFF_FFFF (length content.now) }
{
    content.len() > MOST_BYTES
}

/// Writes a section, by its number and what it holds.
pub fn write_section(id: u8, content: &[u8], out: &mut Vec<u8>) -> Result<(), BinFault>
    ensures written { OnOk result (out.new.items ≡ out.old.items ++ section_bytes id content.now) }
    ensures small { OnOk result (length content.now < 2 ^ 32) }
    ensures large { result ≡ Err Large → 2 ^ 32 ≤ length content.now }
{
    if is_large(content) {
        return Err(BinFault::Large);
    }
    out.push(id)?;
    write_sized(content, out)?;
    Ok(())
}

/// Writes the section of this number that is a vector of items. Without items there is none.
pub fn write_part<T: Item>(
    alloc: Global,
    id: u8,
    items: &Vector<T>,
    out: &mut Vec<u8>,
) -> Result<(), BinFault>
    ensures written { OnOk result (out.new.items ≡ out.old.items ++ part_bytes id T.bytes items.now) }
    ensures within { OnOk result (AllFit T.fits items.now) }
    ensures small { OnOk result (length (vec_bytes T.bytes items.now) < 2 ^ 32) }
    ensures large { result ≡ Err Large → IsTooMany T.bytes items.now }
{
    if items.is_empty() {
        return Ok(());
    }
    let mut content = Vec::new(alloc);
    write_vec(alloc, items.as_slice(), &mut content)?;
    write_section(id, content.as_slice(), out)
}
