//! Chunks of 64 addresses, of which some are marked.

ghost use Rattle.std.specs.Prelude.{◌≡◌, ◌<◌, ◌≤◌, ◌^◌, ◌-◌, ℕ, true, false, OnOk, OnErr};
ghost use Rattle.ms_reach.specs.refinement.Chunks.{IsSame, MarksOne, Redirects, Sets, chunk_of, fresh, is_set};

use std::alloc::{AllocError, Global};
use std::collections::BTreeMap;

/// How many addresses a chunk has.
pub const CHUNK: usize = 64;

/// What is known of a chunk.
#[derive(Clone, Copy)]
pub struct Chunk {
    /// Which of its addresses are marked, one a bit.
    pub flags: u64,
    /// The number of the chunk from which on to look further: all addresses from this one up to there are marked.
    pub next: u32,
}

impl Chunk {
    /// Nothing is marked.
    fn new(n: u32) -> Chunk
        ensures { result ≡ fresh n }
    {
        Chunk { flags: 0, next: n }
    }

    /// Whether the address of a place is marked.
    fn has(self, i: usize) -> bool
        requires { i < 64 }
        ensures { result ≡ is_set self.flags i }
    {
        (self.flags >> i) & 1 == 1
    }

    /// The first place from one on of which the address isn't marked; 64 where there is none.
    pub fn unmarked(self, from: usize) -> usize
        requires { from ≤ 64 }
        ensures from { from ≤ result }
        ensures to { result ≤ 64 }
        ensures marked { (i : ℕ) → from ≤ i → i < result → is_set self.flags i ≡ true }
        ensures first { result < 64 → is_set self.flags result ≡ false }
    {
        for i in from..CHUNK {
            if !self.has(i) {
                return i;
            }
        }
        CHUNK
    }

    /// The first place from one on of which the address is marked; 64 where there is none.
    pub fn marked(self, from: usize) -> usize
        requires { from ≤ 64 }
        ensures from { from ≤ result }
        ensures to { result ≤ 64 }
        ensures unmarked { (i : ℕ) → from ≤ i → i < result → is_set self.flags i ≡ false }
        ensures first { result < 64 → is_set self.flags result ≡ true }
    {
        for i in from..CHUNK {
            if self.has(i) {
                return i;
            }
        }
        CHUNK
    }

    /// The chunk of a number, with the address of a place marked.
    pub fn with(self, n: u32, i: usize) -> Chunk
        requires number { n < 2 ^ 32 - 1 }
        requires place { i < 64 }
        ensures { MarksOne n self i result }
    {
        let flags = self.flags | 1 << i;
        if flags == u64::MAX {
            return Chunk { flags, next: n + 1 };
        }
        Chunk {
            flags,
            next: self.next,
        }
    }
}

/// What is known of all chunks. The one that was changed last is at hand; of the others those are kept of which something is known.
#[derive(Drop)]
pub struct Chunks {
    place: u32,
    current: Chunk,
    others: BTreeMap<u32, Chunk>,
}

impl Chunks {
    /// Nothing is marked.
    pub fn new(alloc: Global) -> Chunks
        ensures { (n : ℕ) → chunk_of result n ≡ fresh n }
    {
        Chunks {
            place: 0,
            current: Chunk::new(0),
            others: BTreeMap::new(alloc),
        }
    }

    /// The chunk of a number.
    pub fn get(&self, n: u32) -> Chunk
        ensures { result ≡ chunk_of self.now n }
    {
        if n == self.place {
            return self.current;
        }
        self.others.get(&n).copied().unwrap_or(Chunk::new(n))
    }

    /// Changes the chunk of a number.
    pub fn set(&mut self, n: u32, chunk: Chunk) -> Result<(), AllocError>
        ensures ok { OnOk result (Sets self.old n chunk self.new) }
        ensures err { OnErr result (IsSame self.old self.new) }
    {
        if n == self.place {
            self.current = chunk;
            return Ok(());
        }
        self.others.insert(self.place, self.current)?;
        self.place = n;
        self.current = chunk;
        Ok(())
    }

    /// Notes of a chunk from which on to look further.
    pub fn set_next(&mut self, n: u32, next: u32)
        ensures { Redirects self.old n next self.new }
    {
        if n == self.place {
            self.current.next = next;
            return;
        }
        if let Some(chunk) = self.others.get_mut(&n) {
            chunk.next = next;
        }
    }
}
