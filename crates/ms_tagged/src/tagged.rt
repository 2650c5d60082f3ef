//! The contract of tagged bytes.

ghost use Rattle.std.specs.Prelude.{◌≡◌, ◌<◌, ◌≤◌, ◌+◌, ◌^◌, ◌*◌, ℕ, List, IfOk, IfSome, length, slice_index, replicate};

use ms_handle::Handle;
use std::alloc::{AllocError, Global};

/// Bytes that are data or pieces of handles, by address. No call but `new` takes memory.
pub trait Tagged: Sized + Drop {
    ghost use Rattle.ms_tagged.specs.Bytes.{Byte, Data, IsAligned, IsHandleAt, IsWidth, data_of, held_at, number_at, overwritten, pieces, range, shown_at};

    /// The bytes.
    ghost bytes: { Self → List Byte };

    /// So many data bytes 0.
    fn new(alloc: Global, capacity: u32) -> Result<Self, AllocError>
        ensures { IfOk result (λ tagged. bytes tagged ≡ replicate capacity (Data 0)) };

    /// The number of `width` bytes that stands at the address, the lowest byte first. `None` exactly where one of these
    /// bytes is a piece of a handle.
    fn get(&self, address: u32, width: u32) -> Option<u64>
        requires width { IsWidth width }
        requires within { address + width ≤ length (bytes self.now) }
        ensures number { result ≡ number_at (range address width (bytes self.now)) }
        ensures fits { IfSome result (λ n. n < 256 ^ width) };

    /// Writes the lowest `width` bytes of the value as data bytes. All other bytes stay.
    fn put(&mut self, address: u32, width: u32, value: u64)
        requires width { IsWidth width }
        requires within { address + width ≤ length (bytes self.old) }
        ensures { bytes self.new ≡ overwritten address (data_of width value) (bytes self.old) };

    /// The handle whose sixteen pieces stand at the address in order; null where sixteen data bytes 0 do; else broken.
    fn get_handle(&self, address: u32) -> Handle
        requires aligned { IsAligned address }
        requires within { address + 16 ≤ length (bytes self.now) }
        ensures { IsHandleAt (range address 16 (bytes self.now)) result };

    /// Writes the sixteen pieces of a handle. All other bytes stay.
    fn put_handle(&mut self, address: u32, handle: Handle)
        requires aligned { IsAligned address }
        requires within { address + 16 ≤ length (bytes self.old) }
        ensures { bytes self.new ≡ overwritten address (pieces handle) (bytes self.old) };

    /// Makes each byte of the range a data byte 0. All other bytes stay.
    fn clear(&mut self, address: u32, size: u32)
        requires { address + size ≤ length (bytes self.old) }
        ensures { bytes self.new ≡ overwritten address (replicate size (Data 0)) (bytes self.old) };

    /// The data byte at the address. `None` exactly where it is a piece.
    fn shown(&self, address: u32) -> Option<u8>
        requires { address < length (bytes self.now) }
        ensures { result ≡ shown_at (range address 1 (bytes self.now)) };

    /// The handle of which the byte at the address is a piece. `None` exactly where it is a data byte.
    fn held(&self, address: u32) -> Option<Handle>
        requires { address < length (bytes self.now) }
        ensures { result ≡ held_at (range address 1 (bytes self.now)) };
}
