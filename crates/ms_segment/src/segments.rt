//! The segment memory: making, accessing and freeing segments.

ghost use Rattle.std.specs.Prelude.{◌≡◌, ◌+◌, ◌<◌, ◌^◌, [], Some, false, IfOk, MatchResult, length, pos, replicate, slice_get};
ghost use Rattle.ms_handle.specs.declared.handle.Handle.{Handle};
ghost use Rattle.ms_live.specs.Place.{IsPlace};
ghost use Rattle.ms_live.specs.declared.gaps.Live.{Live as LiveSegment};
ghost use Rattle.ms_tagged.specs.Bytes.{Data, held_at, range, shown_at};
ghost use Rattle.ms_segment.specs.Memory.{IsFit, IsSound, access, freed, handle_access, live_of, risen, writable};
ghost use Rattle.ms_segment.specs.Parts.{IsPlaceIn, access_of, entered};

use crate::access::{Access, access_in, end_of};
use crate::memory::SegmentMemory;
use crate::trap::SegTrap;
use ms_event::Event;
use ms_handle::{Handle, Kind};
use ms_live::{Gaps, Live, MOST_LIVE};
use ms_tagged::Tagged;
use std::alloc::{AllocError, Global};
use std::marker::Model;

/// How many bytes a handle has in memory; its address is a multiple of it.
const WIDTH: u32 = 16;

/// The segment memory, over how live segments and tagged bytes are kept. No call but `new` takes memory, and a trap
/// changes nothing.
///
/// Contracts see its bytes, its live segments, how many identities were made, and how often bytes were read or written
/// through handles: a read leaves no other mark. What always holds of these is `IsSound`: live segments lie within the
/// capacity at multiples of 16, share no address and have identities that rise from 1 to the number made, and the handles
/// that are kept fit.
#[derive(Drop)]
pub struct Segments<G: Gaps, T: Tagged> {
    gaps: G,
    tagged: T,
    made: u64,
    accesses: u64,
}

impl<G: Gaps, T: Tagged> Model for Segments<G, T> {
    ghost use Rattle.std.specs.Prelude.{◌≡◌, length};
    ghost use Rattle.ms_segment.specs.Memory.{IsSound, Memory};

    ghost Value = { Memory };

    ghost view = { λ s. record { bytes = T.bytes s.tagged; live = G.live s.gaps; made = s.made; accesses = s.accesses } };

    ghost invariant = { λ s. (G.addresses s.gaps ≡ length (T.bytes s.tagged)) × IsSound (record { bytes = T.bytes s.tagged; live = G.live s.gaps; made = s.made; accesses = s.accesses }) };
}

impl<G: Gaps, T: Tagged> Segments<G, T> {
    /// So many bytes 0, and no segment.
    pub fn new(alloc: Global, capacity: u32) -> Result<Self, AllocError>
        ensures empty { IfOk result (λ m. m ≡ record { bytes = replicate capacity (Data 0); live = []; made = 0; accesses = 0 }) }
        ensures sound { IfOk result IsSound }
    {
        Ok(Segments {
            gaps: G::new(alloc, capacity)?,
            tagged: T::new(alloc, capacity)?,
            made: 0,
            accesses: 0,
        })
    }

    /// How many segments are live.
    pub fn live(&self) -> u32
        ensures live { result ≡ length self.now.live }
        ensures sound { IsSound self.now }
    {
        self.gaps.count()
    }

    /// The live segment with `i` older ones.
    pub fn live_at(&self, i: u32) -> Live
        requires { i < length self.now.live }
        ensures { slice_get self.now.live i ≡ Some result }
    {
        self.gaps.nth(i)
    }

    /// The data byte at the address. `None` exactly where it is a piece.
    pub fn shown(&self, address: u32) -> Option<u8>
        requires { address < length self.now.bytes }
        ensures { result ≡ shown_at (range address 1 self.now.bytes) }
    {
        self.tagged.shown(address)
    }

    /// The handle of which the byte at the address is a piece. `None` exactly where it is a data byte.
    pub fn held(&self, address: u32) -> Option<Handle>
        requires { address < length self.now.bytes }
        ensures { result ≡ held_at (range address 1 self.now.bytes) }
    {
        self.tagged.held(address)
    }

    /// The least place for a segment of `n` bytes, if one more may be live.
    fn place(&self, n: u32) -> Option<u32>
        ensures place { IsPlaceIn self.now n result }
        ensures sound { IsSound self.now }
    {
        if self.gaps.count() == MOST_LIVE {
            return None;
        }
        self.gaps.place(n)
    }

    /// Makes a segment of `n` bytes 0 at its place.
    fn enter(&mut self, base: u32, n: u32, kind: Kind) -> (Handle, Event)
        requires made { self.old.made < 2 ^ 63 }
        requires few { length self.old.live < MOST_LIVE }
        requires placed { IsPlace self.old.live (length self.old.bytes) n (Some base) }
        ensures made { self.new ≡ entered self.old base n kind }
        ensures handle { result.0 ≡ Handle.Good false (self.old.made + 1) 0 n (pos 0) }
        ensures event { result.1 ≡ Event.Alloc (self.old.made + 1) base n }
        ensures sound { IsSound self.new }
    {
        let id = self.made + 1;
        self.gaps.enter(Live {
            id,
            base,
            size: n,
            kind,
        });
        self.tagged.clear(base, n);
        self.made = id;
        let handle = Handle::Good {
            sealed: false,
            id,
            base: 0,
            length: n,
            offset: 0,
        };
        (
            handle,
            Event::Alloc {
                id,
                addr: base,
                size: n,
            },
        )
    }

    /// The live segment of an identity, if there is one.
    #[inline(always)]
    fn found(&self, id: u64) -> Option<Live>
        ensures live { result ≡ live_of self.now id }
        ensures within { (s : LiveSegment) → result ≡ Some s → s.base + s.size < 2 ^ 32 }
    {
        self.gaps.find(id)
    }

    /// The identity of the segment that a handle and a kind end.
    fn ending(&self, h: Handle, kind: Kind) -> Result<u64, SegTrap>
        ensures { result ≡ freed self.now h kind }
    {
        match h {
            Handle::Null => Err(SegTrap::Null),
            Handle::Broken => Err(SegTrap::Invalid),
            Handle::Good {
                sealed,
                id,
                base,
                length,
                offset,
            } => match self.found(id) {
                Some(segment) => end_of(segment, sealed, base, length, offset, kind),
                None => Err(SegTrap::Freed),
            },
        }
    }

    /// Where the access of so many bytes through a handle goes.
    #[inline(always)]
    fn locate(&self, h: Handle, width: u32) -> Result<Access, SegTrap>
        requires { IsFit self.now h }
        ensures { MatchResult result (λ a. access self.now h width ≡ Ok (access_of a)) (λ e. access self.now h width ≡ Err e) }
    {
        match h {
            Handle::Null => Err(SegTrap::Null),
            Handle::Broken => Err(SegTrap::Invalid),
            Handle::Good {
                sealed,
                id,
                base,
                length,
                offset,
            } => match self.found(id) {
                Some(segment) => access_in(segment, sealed, base, length, offset, width),
                None => Err(SegTrap::Freed),
            },
        }
    }

    /// The same of a write.
    #[inline(always)]
    fn locate_write(&self, h: Handle, width: u32) -> Result<Access, SegTrap>
        requires { IsFit self.now h }
        ensures { MatchResult result (λ a. writable (access self.now h width) ≡ Ok (access_of a)) (λ e. writable (access self.now h width) ≡ Err e) }
    {
        let place = self.locate(h, width)?;
        place.to_write()
    }

    /// The same of the pieces of a handle.
    #[inline(always)]
    fn locate_handle(&self, h: Handle) -> Result<Access, SegTrap>
        requires { IsFit self.now h }
        ensures { MatchResult result (λ a. handle_access self.now h ≡ Ok (access_of a)) (λ e. handle_access self.now h ≡ Err e) }
    {
        let access = self.locate(h, WIDTH)?;
        if access.address % WIDTH == 0 {
            Ok(access)
        } else {
            Err(SegTrap::Misaligned)
        }
    }

    /// The same of a write of the pieces of a handle.
    #[inline(always)]
    fn locate_handle_write(&self, h: Handle) -> Result<Access, SegTrap>
        requires { IsFit self.now h }
        ensures { MatchResult result (λ a. writable (handle_access self.now h) ≡ Ok (access_of a)) (λ e. writable (handle_access self.now h) ≡ Err e) }
    {
        let place = self.locate_handle(h)?;
        place.to_write()
    }
}

impl<G: Gaps, T: Tagged> SegmentMemory for Segments<G, T> {
    ghost memory = { λ s. s };

    fn make(&mut self, n: u32, kind: Kind) -> (Handle, Event) {
        match self.place(n) {
            Some(base) => self.enter(base, n, kind),
            None => (Handle::Null, Event::Refused { size: n }),
        }
    }

    fn free(&mut self, h: Handle, kind: Kind) -> Result<Event, SegTrap> {
        let id = self.ending(h, kind)?;
        self.gaps.leave(id);
        Ok(Event::Free { id })
    }

    #[inline(always)]
    fn load(&mut self, h: Handle, width: u32) -> Result<(u64, Event), SegTrap> {
        let access = self.locate(h, width)?;
        match self.tagged.get(access.address, width) {
            Some(number) => {
                self.accesses = one_more(self.accesses);
                Ok((number, access.read(width)))
            }
            None => Err(SegTrap::Provenance),
        }
    }

    #[inline(always)]
    fn store(&mut self, h: Handle, width: u32, value: u64) -> Result<Event, SegTrap> {
        let access = self.locate_write(h, width)?;
        self.tagged.put(access.address, width, value);
        self.accesses = one_more(self.accesses);
        Ok(access.write(width))
    }

    #[inline(always)]
    fn load_handle(&mut self, h: Handle) -> Result<(Handle, Event), SegTrap> {
        let access = self.locate_handle(h)?;
        self.accesses = one_more(self.accesses);
        Ok((self.tagged.get_handle(access.address), access.read(WIDTH)))
    }

    #[inline(always)]
    fn store_handle(&mut self, h: Handle, v: Handle) -> Result<Event, SegTrap> {
        let access = self.locate_handle_write(h)?;
        self.tagged.put_handle(access.address, v);
        self.accesses = one_more(self.accesses);
        Ok(access.write(WIDTH))
    }
}

/// A count after one more. At its last value it stays.
#[inline(always)]
fn one_more(count: u64) -> u64
    ensures { result ≡ risen count }
{
    count.saturating_add(1)
}
