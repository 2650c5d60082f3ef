//! Items in order.

ghost use Rattle.std.specs.Prelude.{◌≡◌, ◌==◌, List, [], ◌∷◌, ◌++◌, length, is_ok, IfErr, if◌then◌else◌};

use std::alloc::{AllocError, AllocFailed, Global};
use std::marker::Model;

/// Items in order (WebAssembly 1.0, 2.1.2). Contracts see them as a list.
#[derive(Drop)]
pub struct Vector<T> {
    items: Vec<T>,
}

impl<T> Model for Vector<T> {
    ghost Value = { List T };

    ghost view = { λ v. v.items.items };
}

impl<T> Vector<T> {
    /// No items. Takes no memory.
    pub fn new(alloc: Global) -> Self
        ensures { result ≡ [] }
    {
        Vector {
            items: Vec::new(alloc),
        }
    }

    /// The items of a `Vec`. Takes no memory.
    pub fn from_vec(items: Vec<T>) -> Self
        ensures { result ≡ items.items }
    {
        Vector { items }
    }

    /// How many items there are.
    pub fn len(&self) -> usize
        ensures { result ≡ length self.now }
    {
        self.items.len()
    }

    /// Whether there are none.
    pub fn is_empty(&self) -> bool
        ensures { result ≡ (length self.now == 0) }
    {
        self.items.is_empty()
    }

    /// The items as a slice.
    pub fn as_slice(&self) -> &[T]
        ensures { result.now ≡ self.now }
    {
        self.items.as_slice()
    }

    /// The items as a `Vec`. Takes no memory.
    pub fn into_vec(self) -> Vec<T>
        ensures { result.items ≡ self }
    {
        self.items
    }

    /// Adds an item at the end. After an error, which gives the item back, nothing has changed.
    pub fn push(&mut self, item: T) -> Result<(), AllocFailed<T>>
        ensures items { self.new ≡ (if is_ok result then self.old ++ item ∷ [] else self.old) }
        ensures given_back { IfErr result (λ e. e.value ≡ item) }
    {
        self.items.push(item)
    }

    /// Gives back the room that was kept for more items. Takes no memory.
    pub fn shrink_to_fit(&mut self)
        ensures { self.new ≡ self.old }
    {
        self.items.shrink_to_fit();
    }
}
