//! Addresses that are marked.

ghost use Rattle.std.specs.Prelude.{◌≡◌, ◌<◌, ◌≤◌, ◌+◌, ◌*◌, ◌^◌, ℕ, Some, false, true, OnErr, OnOk, length, replicate, slice_get, slice_set};
ghost use Rattle.ms_reach.specs.refinement.Chunks.{IsChunk, Leaps};
ghost use Rattle.ms_reach.specs.refinement.Marking.{AllMarked, IsMarked, trues};

use crate::chunks::{CHUNK, Chunk, Chunks};
use std::alloc::{AllocError, Global};
use std::marker::Model;

/// Which addresses are marked. Contracts see a list of flags.
///
/// It takes memory by how many chunks of 64 addresses have one that is marked, however many addresses there are. The next one that
/// isn't marked is found without looking at all that are: of each chunk it is known from which chunk on to look further, once all of
/// its own are marked.
#[derive(Drop)]
pub struct Marked {
    len: u32,
    count: u32,
    chunks: Chunks,
}

impl Model for Marked {
    ghost use Rattle.std.specs.Prelude.{◌≡◌, ◌<◌, ◌^◌, Bool, List};
    ghost use Rattle.ms_reach.specs.refinement.Chunks.{Passes, flags_of};
    ghost use Rattle.ms_reach.specs.refinement.Marking.{trues};

    ghost Value = { List Bool };

    ghost view = { λ m. flags_of m.chunks m.len };

    ghost invariant = { λ m. Passes m.chunks (flags_of m.chunks m.len) × (m.count ≡ trues (flags_of m.chunks m.len)) × (m.len < 2 ^ 32) };
}

impl Marked {
    /// So many addresses, of which none is marked.
    pub fn new(alloc: Global, n: u32) -> Self
        ensures { result ≡ replicate n false }
    {
        Marked {
            len: n,
            count: 0,
            chunks: Chunks::new(alloc),
        }
    }

    /// How many are marked.
    pub fn count(&self) -> u32
        ensures { result ≡ trues self.now }
    {
        self.count
    }

    /// How many addresses there are.
    fn len(&self) -> usize
        ensures { result ≡ length self.now }
    {
        self.len as usize
    }

    /// What is known of the chunk of a number.
    fn chunk(&self, n: usize) -> Chunk
        requires { n * 64 < length self.now }
        ensures few { n * 64 < 2 ^ 32 }
        ensures chunk { IsChunk self.now n result }
    {
        self.chunks.get(n as u32)
    }

    /// Notes of a chunk from which on to look further.
    fn set_next(&mut self, n: usize, next: u32)
        requires within { n * 64 < length self.old }
        requires leaps { Leaps self.old n next }
        ensures { self.new ≡ self.old }
    {
        self.chunks.set_next(n as u32, next);
    }

    /// Whether one from an address up to another is marked.
    pub fn any(&self, from: usize, to: usize) -> bool
        requires { to ≤ length self.now }
        ensures some { result ≡ true → (k : ℕ) × (from ≤ k) × (k < to) × IsMarked self.now k }
        ensures none { result ≡ false → (k : ℕ) → from ≤ k → k < to → slice_get self.now k ≡ Some false }
    {
        let mut at = from;
        while at < to {
            let further = self.past_unmarked(at);
            if further == at {
                return true;
            }
            at = further;
        }
        false
    }

    /// An address from one on, before which none is marked: that one itself only where it is marked.
    fn past_unmarked(&self, at: usize) -> usize
        requires { at < length self.now }
        ensures from { at ≤ result }
        ensures unmarked { (k : ℕ) → at ≤ k → k < result → k < length self.now → slice_get self.now k ≡ Some false }
        ensures first { result ≡ at → IsMarked self.now at }
    {
        let n = at / CHUNK;
        let chunk = self.chunk(n);
        n * CHUNK + chunk.marked(at % CHUNK)
    }

    /// Marks an address.
    pub fn mark(&mut self, at: usize) -> Result<(), AllocError>
        requires { slice_get self.old at ≡ Some false }
        ensures ok { OnOk result (self.new ≡ slice_set self.old at true) }
        ensures err { OnErr result (self.new ≡ self.old) }
    {
        let count = self.count + 1;
        let n = (at / CHUNK) as u32;
        let chunk = self.chunks.get(n).with(n, at % CHUNK);
        self.chunks.set(n, chunk)?;
        self.count = count;
        Ok(())
    }

    /// The first address from one on that isn't marked, below another; that other one where there is none.
    pub fn next(&mut self, from: usize, to: usize) -> usize
        requires order { from ≤ to }
        requires within { to ≤ length self.old }
        ensures marks { self.new ≡ self.old }
        ensures from { from ≤ result }
        ensures to { result ≤ to }
        ensures marked { AllMarked self.old from result }
        ensures first { result < to → slice_get self.old result ≡ Some false }
    {
        let mut at = from;
        while at < to {
            let further = self.past_marked(at);
            if further == at {
                return at;
            }
            at = further;
        }
        to
    }

    /// An address from one on, before which all are marked: that one itself only where it isn't.
    fn past_marked(&mut self, at: usize) -> usize
        requires { at < length self.old }
        ensures marks { self.new ≡ self.old }
        ensures from { at ≤ result }
        ensures marked { AllMarked self.old at result }
        ensures first { result ≡ at → slice_get self.old at ≡ Some false }
    {
        let n = at / CHUNK;
        let chunk = self.chunk(n);
        if n < chunk.next as usize {
            return self.leap(n, chunk.next);
        }
        n * CHUNK + chunk.unmarked(at % CHUNK)
    }

    /// An address from a chunk on, before which all from an earlier chunk on are marked.
    fn leap(&mut self, n: usize, next: u32) -> usize
        requires within { n * 64 < length self.old }
        requires leaps { Leaps self.old n next }
        ensures marks { self.new ≡ self.old }
        ensures from { next * 64 ≤ result }
        ensures marked { AllMarked self.old (n * 64) result }
    {
        let end = next as usize * CHUNK;
        if end >= self.len() {
            return end;
        }
        let further = self.chunk(next as usize).next;
        self.set_next(n, further);
        further as usize * CHUNK
    }
}
