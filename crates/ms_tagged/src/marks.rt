//! Blocks of bytes, and marks that say in which of them something was written.

ghost use Rattle.std.specs.Prelude.{◌≡◌, ◌≢◌, ◌↔◌, ◌≤◌, ◌<◌, ◌+◌, ◌-◌, ◌*◌, ◌/◌, ℕ, IsTrue, length};
ghost use Rattle.ms_tagged.specs.refinement.Granules.{IsBlank, Wipes, mark_bit};

use crate::pieces::forget;

/// How many bytes a block has.
pub(crate) const BLOCK: usize = 4096;

/// How many blocks have their marks in one word.
const MARKS: usize = 64;

/// How many bytes these blocks have.
pub(crate) const REGION: usize = BLOCK * MARKS;

/// Marks the blocks of some bytes. They are sixteen at most, so that they lie in one block or in two.
#[inline(always)]
pub(crate) fn mark(written: &mut [u64], from: usize, to: usize)
    requires some { from < to }
    requires few { to ≤ from + 16 }
    requires there { to ≤ 262144 * length written.old }
    ensures marked { (i : ℕ) → from ≤ i → i < to → mark_bit written.new i ≡ 1 }
    ensures kept { (i : ℕ) → mark_bit written.new i ≡ 0 → mark_bit written.old i ≡ 0 }
{
    mark_block(written, from);
    mark_block(written, to - 1);
}

/// Marks the block of the byte at a place.
#[inline(always)]
fn mark_block(written: &mut [u64], at: usize)
    requires { at < 262144 * length written.old }
    ensures marked { (i : ℕ) → i / 4096 ≡ at / 4096 → mark_bit written.new i ≡ 1 }
    ensures others { (i : ℕ) → i / 4096 ≢ at / 4096 → mark_bit written.new i ≡ mark_bit written.old i }
{
    written[at / REGION] |= 1 << (at / BLOCK % MARKS);
}

/// Takes the mark of that block away.
fn unmark_block(written: &mut [u64], at: usize)
    requires { at < 262144 * length written.old }
    ensures unmarked { (i : ℕ) → i / 4096 ≡ at / 4096 → mark_bit written.new i ≡ 0 }
    ensures others { (i : ℕ) → i / 4096 ≢ at / 4096 → mark_bit written.new i ≡ mark_bit written.old i }
{
    written[at / REGION] &= !(1 << (at / BLOCK % MARKS));
}

/// Whether that block is marked.
fn is_marked(written: &[u64], at: usize) -> bool
    requires { at < 262144 * length written.now }
    ensures { IsTrue result ↔ (mark_bit written.now at ≡ 1) }
{
    (written[at / REGION] >> (at / BLOCK % MARKS)) & 1 == 1
}

/// Makes the bytes from one up to another data bytes 0, and takes the marks of the blocks away that these are the whole of. It looks
/// at marks alone where nothing was written.
pub(crate) fn wipe(plain: &mut [u8], masks: &mut [u16], written: &mut [u64], from: usize, to: usize)
    requires order { from ≤ to }
    requires each { length plain.old ≡ 16 * length masks.old }
    requires there { length plain.old ≤ 262144 * length written.old }
    requires blank { IsBlank plain.old masks.old written.old }
    ensures wipes { Wipes plain.old masks.old plain.new masks.new from to }
    ensures blank { IsBlank plain.new masks.new written.new }
{
    // Behind the bytes that are there, all are data bytes 0.
    let end = to.min(plain.len());
    let mut at = from;
    while at < end {
        let next = at + (end - at).min(REGION - at % REGION);
        wipe_region(plain, masks, written, at, next);
        at = next;
    }
}

/// The same of bytes whose blocks have their marks in one word.
fn wipe_region(plain: &mut [u8], masks: &mut [u16], written: &mut [u64], from: usize, to: usize)
    requires some { from < to }
    requires one { (to - 1) / 262144 ≡ from / 262144 }
    requires within { to ≤ length plain.old }
    requires each { length plain.old ≡ 16 * length masks.old }
    requires there { length plain.old ≤ 262144 * length written.old }
    requires blank { IsBlank plain.old masks.old written.old }
    ensures wipes { Wipes plain.old masks.old plain.new masks.new from to }
    ensures blank { IsBlank plain.new masks.new written.new }
{
    let marks = written[from / REGION];
    if marks == 0 {
        return;
    }
    let mut at = from;
    while at < to {
        let next = at + (to - at).min(BLOCK - at % BLOCK);
        wipe_block(plain, masks, written, at, next);
        at = next;
    }
}

/// The same of bytes of one block.
fn wipe_block(plain: &mut [u8], masks: &mut [u16], written: &mut [u64], from: usize, to: usize)
    requires some { from < to }
    requires one { (to - 1) / 4096 ≡ from / 4096 }
    requires within { to ≤ length plain.old }
    requires each { length plain.old ≡ 16 * length masks.old }
    requires there { length plain.old ≤ 262144 * length written.old }
    requires blank { IsBlank plain.old masks.old written.old }
    ensures wipes { Wipes plain.old masks.old plain.new masks.new from to }
    ensures blank { IsBlank plain.new masks.new written.new }
{
    if !is_marked(written, from) {
        return;
    }
    zero(plain, masks, from, to);
    let size = to - from;
    if size < BLOCK {
        return;
    }
    unmark_block(written, from);
}

/// Makes the bytes from one up to another data bytes 0.
fn zero(plain: &mut [u8], masks: &mut [u16], from: usize, to: usize)
    requires order { from ≤ to }
    requires within { to ≤ length plain.old }
    requires each { length plain.old ≡ 16 * length masks.old }
    ensures { Wipes plain.old masks.old plain.new masks.new from to }
{
    forget(masks, from, to);
    plain[from..to].fill(0);
}
