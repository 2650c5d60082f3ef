//! The room that all tasks of a crew share for what they hold.

ghost use Rattle.std.specs.Prelude.{◌≡◌, ◌+◌, ◌*◌, ◌<◌, ◌≤◌, MatchOption, OnOk, vec_len, vec_capacity};

use std::alloc::{AllocError, Global};
use std::cell::Cell;
use std::rc::Rc;

/// How many bytes of locals, operands and marks all tasks of a crew may hold together: 512 MiB.
pub const MOST_HELD: usize = 536_870_912;

/// How many items a vector without room has room for when it first grows, if nothing asks for more.
const FIRST: usize = 4;

/// The room that the vectors of all tasks of a crew share: how many bytes they may still take, of `MOST_HELD`.
///
/// A vector that has room takes nothing of it. What a vector took it keeps.
#[derive(Drop)]
pub struct Room {
    left: Rc<Cell<usize>>,
}

/// What is left of so many bytes behind so many items of a size, or `None` where they are not enough.
fn left_behind(left: usize, items: usize, size: usize) -> Option<usize>
    ensures { MatchOption result (left < items * size) (λ rest. rest + items * size ≡ left) }
{
    left.checked_sub(items.checked_mul(size)?)
}

/// How many items more a vector gets room for that needs at least so many: as many as it has room for, but of what is left
/// at most half, as long as that is enough.
fn growth(needs: usize, capacity: usize, left: usize) -> usize
    ensures { needs ≤ result }
{
    needs.max(capacity.max(FIRST).min(left / 2))
}

impl Room {
    /// Room for `MOST_HELD` bytes.
    pub fn new(alloc: Global) -> Result<Self, AllocError> {
        Ok(Room {
            left: Rc::new(alloc, Cell::new(MOST_HELD))?,
        })
    }

    /// The same room, for one more vector.
    pub fn share(&self) -> Result<Self, AllocError> {
        Ok(Room {
            left: self.left.clone()?,
        })
    }

    /// Makes room for so many more items in a vector, whose items have a size in bytes. It fails where not so many bytes are
    /// left, and where memory has run out; then nothing has changed.
    #[inline(always)]
    pub fn reserve<T>(&self, items: &mut Vec<T>, n: usize, size: usize) -> Result<(), AllocError>
        ensures items { items.new.items ≡ items.old.items }
        ensures len { vec_len items.new ≡ vec_len items.old }
        ensures ok { OnOk result (vec_len items.new + n ≤ vec_capacity items.new) }
    {
        if n <= items.capacity() - items.len() {
            return Ok(());
        }
        self.grow(items, n, size)
    }

    /// The same where there is no room for them yet.
    #[inline(never)]
    fn grow<T>(&self, items: &mut Vec<T>, n: usize, size: usize) -> Result<(), AllocError>
        requires { vec_capacity items.old < vec_len items.old + n }
        ensures items { items.new.items ≡ items.old.items }
        ensures len { vec_len items.new ≡ vec_len items.old }
        ensures ok { OnOk result (vec_len items.new + n ≤ vec_capacity items.new) }
    {
        let spare = items.capacity() - items.len();
        let left = self.left.get();
        let more = growth(n - spare, items.capacity(), left / size.max(1));
        let Some(rest) = left_behind(left, more, size) else {
            return Err(AllocError);
        };
        items.reserve_exact(spare.saturating_add(more))?;
        self.left.set(rest);
        Ok(())
    }
}
