//! The contract of the segment memory as a step sees it.

ghost use Rattle.std.specs.Prelude.{◌≡◌, ◌<◌, ◌^◌, IfOk};
ghost use Rattle.ms_handle.specs.declared.handle.Handle.{Handle};
ghost use Rattle.ms_tagged.specs.Bytes.{IsWidth, data_of, pieces};
ghost use Rattle.ms_segment.specs.Memory.{Frees, IsFit, IsSound, LoadsHandle, Makes, Memory, Stores, access, after_load, freed, handle_access, loaded, writable};
ghost use Rattle.ms_segment.specs.Calls as call;
ghost use Rattle.ms_segment.specs.Calls.{DoesChange};

use crate::trap::SegTrap;
use ms_event::Event;
use ms_handle::{Handle, Kind};

/// A segment memory by the calls that instructions make: there is no other way to its bytes, so that each byte that an
/// instruction sees came by a load, which is checked and counted. No call takes memory, and a trap changes nothing.
pub trait SegmentMemory: Sized + Drop {
    /// The memory on plain lists.
    ghost memory: { Self → Memory };

    /// Makes a segment of `n` bytes 0, with the next identity, at the least place. Null where there is no place, or
    /// where 65,536 segments are live.
    fn make(&mut self, n: u32, kind: Kind) -> (Handle, Event)
        requires { (memory self.old).made < 2 ^ 63 }
        ensures made { Makes (memory self.old) n kind result.0 result.1 (memory self.new) }
        ensures call { record { handle = result.0; event = result.1; memory = memory self.new } ≡ call.make (memory self.old) n kind }
        ensures fits { IsFit (memory self.new) result.0 }
        ensures sound { IsSound (memory self.new) }
        ensures others { (h : Handle) → IsFit (memory self.old) h → IsFit (memory self.new) h };

    /// Ends the segment of a handle to the beginning of the whole of it, of the kind that it was made as. The handle may not
    /// be sealed.
    fn free(&mut self, h: Handle, kind: Kind) -> Result<Event, SegTrap>
        requires { IsFit (memory self.old) h }
        ensures freed { Frees (memory self.old) (freed (memory self.old) h kind) result (memory self.new) }
        ensures call { DoesChange (call.free (memory self.old) h kind) (memory self.old) (memory self.new) result }
        ensures sound { IsSound (memory self.new) }
        ensures others { (h : Handle) → IsFit (memory self.old) h → IsFit (memory self.new) h };

    /// Reads the number of `width` bytes at the handle, the lowest byte first, and counts the access.
    fn load(&mut self, h: Handle, width: u32) -> Result<(u64, Event), SegTrap>
        requires fits { IsFit (memory self.old) h }
        requires width { IsWidth width }
        ensures loaded { result ≡ loaded (memory self.old) h width }
        ensures fits { IfOk result (λ x. x.0 < 256 ^ width) }
        ensures counted { memory self.new ≡ after_load (memory self.old) result }
        ensures sound { IsSound (memory self.new) }
        ensures others { (h : Handle) → IsFit (memory self.old) h → IsFit (memory self.new) h };

    /// Writes the lowest `width` bytes of the value at the handle, which may not be sealed, as data, and counts the access.
    fn store(&mut self, h: Handle, width: u32, value: u64) -> Result<Event, SegTrap>
        requires fits { IsFit (memory self.old) h }
        requires width { IsWidth width }
        ensures stored { Stores (memory self.old) (data_of width value) width (writable (access (memory self.old) h width)) result (memory self.new) }
        ensures call { DoesChange (call.store (memory self.old) h width value) (memory self.old) (memory self.new) result }
        ensures sound { IsSound (memory self.new) }
        ensures others { (h : Handle) → IsFit (memory self.old) h → IsFit (memory self.new) h };

    /// Reads the handle whose pieces stand at the handle, and counts the access.
    fn load_handle(&mut self, h: Handle) -> Result<(Handle, Event), SegTrap>
        requires { IsFit (memory self.old) h }
        ensures loaded { LoadsHandle (memory self.old) (handle_access (memory self.old) h) result }
        ensures call { result ≡ call.load_handle (memory self.old) h }
        ensures fits { IfOk result (λ x. IsFit (memory self.old) x.0) }
        ensures counted { memory self.new ≡ after_load (memory self.old) result }
        ensures sound { IsSound (memory self.new) }
        ensures others { (h : Handle) → IsFit (memory self.old) h → IsFit (memory self.new) h };

    /// Writes the pieces of a handle at the handle, which may not be sealed, and counts the access.
    fn store_handle(&mut self, h: Handle, v: Handle) -> Result<Event, SegTrap>
        requires place { IsFit (memory self.old) h }
        requires value { IsFit (memory self.old) v }
        ensures stored { Stores (memory self.old) (pieces v) 16 (writable (handle_access (memory self.old) h)) result (memory self.new) }
        ensures call { DoesChange (call.store_handle (memory self.old) h v) (memory self.old) (memory self.new) result }
        ensures sound { IsSound (memory self.new) }
        ensures others { (h : Handle) → IsFit (memory self.old) h → IsFit (memory self.new) h };
}
