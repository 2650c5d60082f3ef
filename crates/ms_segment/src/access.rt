//! Where an access goes.

ghost use Rattle.std.specs.Prelude.{◌≡◌, Ok, Err, ◌+◌, ◌<◌, ◌≤◌, ◌^◌, MatchResult, negsuc, ◌≤ℤ◌};
ghost use Rattle.ms_handle.specs.Handle.{farthest};
ghost use Rattle.ms_segment.specs.Memory.{accessed, ends, read_event, writable, write_event};
ghost use Rattle.ms_segment.specs.Parts.{access_of};

use crate::trap::SegTrap;
use ms_event::Event;
use ms_handle::Kind;
use ms_live::Live;

/// Where an access goes: its address, and the shade of the handle that it goes through.
#[derive(Clone, Copy, PartialEq, Eq)]
pub(crate) struct Access {
    /// The address of the first byte.
    pub(crate) address: u32,
    /// The identity of the segment.
    pub(crate) id: u64,
    /// The place in the segment where the handle's bound begins.
    pub(crate) lo: u32,
    /// The place in the segment where the handle's bound ends.
    pub(crate) hi: u32,
    /// Whether the handle is sealed.
    pub(crate) sealed: bool,
}

impl Access {
    /// So many bytes were read.
    #[inline(always)]
    pub(crate) fn read(self, width: u32) -> Event
        ensures { result ≡ read_event (access_of self) width }
    {
        Event::Read {
            sealed: self.sealed,
            id: self.id,
            lo: self.lo,
            hi: self.hi,
            addr: self.address,
            width,
        }
    }

    /// The access as a write, which goes through no sealed handle.
    #[inline(always)]
    pub(crate) fn to_write(self) -> Result<Access, SegTrap>
        ensures { MatchResult result (λ a. writable (Ok (access_of self)) ≡ Ok (access_of a)) (λ e. writable (Ok (access_of self)) ≡ Err e) }
    {
        if self.sealed {
            Err(SegTrap::Readonly)
        } else {
            Ok(self)
        }
    }

    /// So many bytes were written.
    #[inline(always)]
    pub(crate) fn write(self, width: u32) -> Event
        ensures { result ≡ write_event (access_of self) width }
    {
        Event::Write {
            id: self.id,
            lo: self.lo,
            hi: self.hi,
            addr: self.address,
            width,
        }
    }
}

/// Where the access of so many bytes goes, at an offset in a part of a live segment, through a handle that may be sealed.
#[inline(always)]
pub(crate) fn access_in(
    segment: Live,
    sealed: bool,
    base: u32,
    size: u32,
    offset: i64,
    width: u32,
) -> Result<Access, SegTrap>
    requires low { negsuc 1099511627775 ≤ℤ offset }
    requires high { offset ≤ℤ farthest }
    requires part { base + size ≤ segment.size }
    requires within { segment.base + segment.size < 2 ^ 32 }
    ensures { MatchResult result (λ a. accessed segment sealed base size offset width ≡ Ok (access_of a)) (λ e. accessed segment sealed base size offset width ≡ Err e) }
{
    if offset < 0 || i64::from(size) < offset + i64::from(width) {
        return Err(SegTrap::Bounds);
    }
    Ok(Access {
        address: segment.base + base + offset as u32,
        id: segment.id,
        lo: base,
        hi: base + size,
        sealed,
    })
}

/// The identity of a live segment that ends by a handle of this bound and offset, which may be sealed, and a kind.
pub(crate) fn end_of(
    segment: Live,
    sealed: bool,
    base: u32,
    size: u32,
    offset: i64,
    kind: Kind,
) -> Result<u64, SegTrap>
    ensures { result ≡ ends segment sealed base size offset kind }
{
    if base != 0 || offset != 0 || size != segment.size {
        return Err(SegTrap::Whole);
    }
    if segment.kind != kind {
        return Err(SegTrap::Kind);
    }
    if sealed {
        return Err(SegTrap::Readonly);
    }
    Ok(segment.id)
}
