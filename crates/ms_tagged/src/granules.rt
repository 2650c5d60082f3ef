//! Tagged bytes by sixteen: plain bytes, a mask and one handle.

ghost use Rattle.std.specs.Prelude.{◌≡◌, ◌≤◌, ◌<◌, ◌+◌, ◌-◌, ◌*◌, ◌/◌, ◌^◌, ◌++◌, ℕ, List, IfOk, IfSome, length, replicate, vec_len, vec_capacity};
ghost use Rattle.ms_tagged.specs.declared.granules.StoredHandle.{StoredHandle};
ghost use Rattle.ms_tagged.specs.Bytes.{held_at, number_at, range, shown_at};
ghost use Rattle.ms_tagged.specs.refinement.Granules.{byte_at, handle_in};

use crate::marks::{BLOCK, REGION, mark, wipe};
use crate::pieces::{GRANULE, forget_few, hold_data, is_piece};
use crate::tagged::Tagged;
use crate::word::{are_zeros, read_word, write_word};
use ms_handle::Handle;
use std::alloc::{AllocError, Global};
use std::marker::Model;

/// The mask of a granule that holds all pieces of one handle.
const WHOLE: u16 = 0xffff;

/// A handle as a granule keeps it.
#[derive(Clone, Copy)]
pub(crate) struct StoredHandle {
    handle: Handle,
}

// It takes 32 bytes: for each granule as many are reserved.
const _: () = prove!(size_of::<StoredHandle>() == 32);

/// What a granule keeps in which no handle was written.
const UNSET: StoredHandle = StoredHandle {
    handle: Handle::Null,
};

/// Bytes that are data or pieces of handles, in granules of sixteen bytes.
///
/// A granule has sixteen plain bytes, a mask of sixteen bits and one handle. Bit i of the mask says that byte i is piece i
/// of that handle; the plain byte there means nothing then. Memory is reserved for all granules. Those behind the last block
/// that was written so far are not there yet; they stand for data bytes 0. Handles are there up to the last one that was
/// stored, so that no write of data, however long, writes any.
///
/// A block is marked when something is written in it, and loses its mark when all of it is cleared. In one that isn't marked
/// all bytes are data bytes 0, so that to clear it takes a look at its mark.
#[derive(Drop)]
pub struct Granules {
    plain: Vec<u8>,
    masks: Vec<u16>,
    handles: Vec<StoredHandle>,
    written: Vec<u64>,
    capacity: u32,
    ghost plain_for_each: { vec_len plain ≡ 16 * vec_len masks },
    ghost few_handles: { vec_len handles ≤ vec_len masks },
    ghost mark_for_each: { vec_len plain ≤ 262144 * vec_len written },
    ghost marks_for_all: { capacity ≤ 262144 * vec_len written },
    ghost room_for_plain: { 4096 * ((capacity + 4095) / 4096) ≤ vec_capacity plain },
    ghost room_for_masks: { 256 * ((capacity + 4095) / 4096) ≤ vec_capacity masks },
    ghost room_for_handles: { (capacity + 15) / 16 ≤ vec_capacity handles },
}

impl Model for Granules {
    ghost use Rattle.std.specs.Prelude.{List};
    ghost use Rattle.ms_tagged.specs.Bytes.{Byte};
    ghost use Rattle.ms_tagged.specs.refinement.Granules.{IsBlank, byte_at, bytes_from};

    ghost Value = { List Byte };

    ghost view = { λ g. bytes_from (byte_at g.plain.items g.masks.items g.handles.items) 0 g.capacity };

    ghost invariant = { λ g. IsBlank g.plain.items g.masks.items g.written.items };
}

/// Adds copies of an item up to a length.
fn fill_up<T: Copy>(items: &mut Vec<T>, len: usize, item: T)
    requires { len ≤ vec_capacity items.old }
    ensures items { items.new.items ≡ items.old.items ++ replicate (len - vec_len items.old) item }
    ensures len { vec_len items.new ≡ vec_len items.old + (len - vec_len items.old) }
    ensures capacity { vec_capacity items.old ≤ vec_capacity items.new }
{
    if items.len() < len {
        // There is room for them, so that this takes no memory.
        let _ = items.resize(len, item);
    }
}

/// Adds the plain bytes and masks of the blocks up to a place that aren't there yet.
#[inline(always)]
fn reach(plain: &mut Vec<u8>, masks: &mut Vec<u16>, end: usize)
    requires plain_for_each { vec_len plain.old ≡ 16 * vec_len masks.old }
    requires room { (4096 * ((end + 4095) / 4096) ≤ vec_capacity plain.old) × (256 * ((end + 4095) / 4096) ≤ vec_capacity masks.old) }
    ensures bytes { (handles : List StoredHandle) (i : ℕ) → byte_at plain.new.items masks.new.items handles i ≡ byte_at plain.old.items masks.old.items handles i }
    ensures there { end ≤ vec_len plain.new }
    ensures plain_for_each { vec_len plain.new ≡ 16 * vec_len masks.new }
    ensures more { vec_len masks.old ≤ vec_len masks.new }
    ensures few { vec_len plain.new ≤ vec_len plain.old + (4096 * ((end + 4095) / 4096) - vec_len plain.old) }
    ensures room_for_plain { vec_capacity plain.old ≤ vec_capacity plain.new }
    ensures room_for_masks { vec_capacity masks.old ≤ vec_capacity masks.new }
{
    if end <= plain.len() {
        return;
    }
    let blocks = end.div_ceil(BLOCK);
    fill_up(plain, blocks * BLOCK, 0);
    fill_up(masks, blocks * (BLOCK / GRANULE), 0);
}

/// So many words of marks, none of them set.
fn no_marks(alloc: Global, words: usize) -> Result<Vec<u64>, AllocError>
    ensures { IfOk result (λ marks. vec_len marks ≡ words) }
{
    let mut marks = Vec::with_capacity(alloc, words)?;
    fill_up(&mut marks, words, 0);
    Ok(marks)
}

/// The handle that a granule keeps.
fn stored(handles: &[StoredHandle], granule: usize) -> Handle
    ensures { result ≡ handle_in handles.now granule }
{
    match handles.get(granule) {
        Some(stored) => stored.handle,
        None => Handle::Null,
    }
}

impl Granules {
    /// The byte at a place as data. `None` exactly where it is a piece.
    fn byte(&self, at: usize) -> Option<u8>
        requires { at < length self.now }
        ensures { result ≡ shown_at (range at 1 self.now) }
    {
        if at >= self.plain.len() {
            return Some(0);
        }
        if is_piece(&self.masks, at) {
            return None;
        }
        Some(self.plain[at])
    }

    /// The handle of which the byte at a place is a piece. `None` exactly where it is a data byte.
    fn holder(&self, at: usize) -> Option<Handle>
        requires { at < length self.now }
        ensures { result ≡ held_at (range at 1 self.now) }
    {
        if at >= self.plain.len() {
            return None;
        }
        if is_piece(&self.masks, at) {
            return Some(stored(&self.handles, at / GRANULE));
        }
        None
    }

    /// The number that some bytes are, byte by byte. `None` exactly where one of them is a piece.
    #[cold]
    fn number(&self, from: usize, width: usize) -> Option<u64>
        requires few { width ≤ 8 }
        requires within { from + width ≤ length self.now }
        requires below { from < 2 ^ 32 }
        ensures number { result ≡ number_at (range from width self.now) }
        ensures fits { IfSome result (λ n. n < 256 ^ width) }
    {
        let mut value = 0;
        for index in (0..width).rev() {
            match self.byte(from + index) {
                Some(byte) => value = value * 256 + u64::from(byte),
                None => return None,
            }
        }
        Some(value)
    }
}

impl Tagged for Granules {
    ghost bytes = { λ bytes. bytes };

    fn new(alloc: Global, capacity: u32) -> Result<Self, AllocError> {
        let bytes = capacity as usize;
        let blocks = bytes.div_ceil(BLOCK);
        Ok(Granules {
            plain: Vec::with_capacity(alloc, blocks * BLOCK)?,
            masks: Vec::with_capacity(alloc, blocks * (BLOCK / GRANULE))?,
            handles: Vec::with_capacity(alloc, bytes.div_ceil(GRANULE))?,
            written: no_marks(alloc, bytes.div_ceil(REGION))?,
            capacity,
        })
    }

    #[inline(always)]
    fn get(&self, address: u32, width: u32) -> Option<u64> {
        let from = address as usize;
        let end = from + width as usize;
        if hold_data(&self.masks, from, end) {
            return Some(read_word(&self.plain[from..end]));
        }
        if from >= self.plain.len() {
            return Some(0);
        }
        self.number(from, width as usize)
    }

    #[inline(always)]
    fn put(&mut self, address: u32, width: u32, value: u64) {
        let from = address as usize;
        let end = from + width as usize;
        reach(&mut self.plain, &mut self.masks, end);
        forget_few(&mut self.masks, from, end);
        write_word(&mut self.plain[from..end], value);
        mark(&mut self.written, from, end);
    }

    fn get_handle(&self, address: u32) -> Handle {
        let from = address as usize;
        let granule = from / GRANULE;
        if granule >= self.masks.len() {
            return Handle::Null;
        }
        let mask = self.masks[granule];
        if mask == WHOLE {
            return stored(&self.handles, granule);
        }
        if mask != 0 {
            return Handle::Broken;
        }
        if are_zeros(&self.plain[from..from + GRANULE]) {
            Handle::Null
        } else {
            Handle::Broken
        }
    }

    fn put_handle(&mut self, address: u32, handle: Handle) {
        let from = address as usize;
        let granule = from / GRANULE;
        reach(&mut self.plain, &mut self.masks, from + GRANULE);
        fill_up(&mut self.handles, granule + 1, UNSET);
        self.masks[granule] = WHOLE;
        self.handles[granule] = StoredHandle { handle };
        mark(&mut self.written, from, from + GRANULE);
    }

    fn clear(&mut self, address: u32, size: u32) {
        let from = address as usize;
        let to = from + size as usize;
        wipe(
            &mut self.plain,
            &mut self.masks,
            &mut self.written,
            from,
            to,
        );
    }

    fn shown(&self, address: u32) -> Option<u8> {
        self.byte(address as usize)
    }

    fn held(&self, address: u32) -> Option<Handle> {
        self.holder(address as usize)
    }
}
