//! Stacks.

ghost use Rattle.std.specs.Prelude.{◌≡◌, ◌<◌, ◌≤◌, List, [], ◌∷◌, drop, length, reverse, slice_get, OnOk, OnErr, Some};

use std::alloc::{AllocError, Global};
use std::marker::Model;

/// A stack (WebAssembly 1.0, 4.2.12). Contracts see it as a list with the topmost item first.
#[derive(Drop)]
pub struct Stack<T> {
    items: Vec<T>,
}

impl<T> Model for Stack<T> {
    ghost Value = { List T };

    ghost view = { λ s. reverse s.items.items };
}

impl<T: Drop> Stack<T> {
    /// No items. Takes no memory.
    pub fn new(alloc: Global) -> Self
        ensures { result ≡ [] }
    {
        Stack {
            items: Vec::new(alloc),
        }
    }

    /// How many items there are.
    pub fn len(&self) -> usize
        ensures { result ≡ length self.now }
    {
        self.items.len()
    }

    /// Puts an item on top. After an error nothing has changed.
    pub fn push(&mut self, item: T) -> Result<(), AllocError>
        ensures ok { OnOk result (self.new ≡ item ∷ self.old) }
        ensures err { OnErr result (self.new ≡ self.old) }
    {
        self.items.push(item)?;
        Ok(())
    }

    /// Takes the topmost item.
    pub fn pop(&mut self) -> T
        requires { 0 < length self.old }
        ensures { self.old ≡ result ∷ self.new }
    {
        match self.items.pop() {
            Some(item) => item,
            None => unreachable!(),
        }
    }

    /// Drops the topmost items, so many of them, and keeps their memory.
    pub fn cut(&mut self, n: usize)
        requires { n ≤ length self.old }
        ensures { self.new ≡ drop n self.old }
    {
        self.items.truncate(self.items.len() - n);
    }

    /// Drops all items and keeps their memory.
    pub fn clear(&mut self)
        ensures { self.new ≡ [] }
    {
        self.items.clear();
    }
}

impl<T: Copy + Drop> Stack<T> {
    /// The item with so many above it.
    pub fn get(&self, depth: usize) -> T
        requires { depth < length self.now }
        ensures { slice_get self.now depth ≡ Some result }
    {
        self.items[self.items.len() - 1 - depth]
    }

    /// The topmost item, if there is one.
    pub fn last(&self) -> Option<T>
        ensures { result ≡ slice_get self.now 0 }
    {
        if self.items.is_empty() {
            return None;
        }
        Some(self.get(0))
    }

    /// Puts an item in the place of the topmost one.
    pub fn set_top(&mut self, item: T)
        requires { 0 < length self.old }
        ensures { self.new ≡ item ∷ drop 1 self.old }
    {
        let top = self.items.len() - 1;
        self.items[top] = item;
    }
}
