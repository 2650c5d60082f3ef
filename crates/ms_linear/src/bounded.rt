//! Stacks within a room.

ghost use Rattle.std.specs.Prelude.{◌≡◌, ◌<◌, ◌≤◌, List, [], ◌∷◌, drop, length, reverse, slice_get, false, IsTrue, OnOk, OnErr, Some};

use crate::room::Room;
use std::alloc::{AllocError, Global};
use std::marker::Model;

/// A stack (WebAssembly 1.0, 4.2.12) that takes its memory of a room. Contracts see it as a list with the topmost item first.
#[derive(Drop)]
pub struct BoundedStack<T> {
    items: Vec<T>,
    room: Room,
    size: usize,
}

impl<T> Model for BoundedStack<T> {
    ghost Value = { List T };

    ghost view = { λ s. reverse s.items.items };
}

impl<T: Copy + Drop> BoundedStack<T> {
    /// No items, each of which will take a size in bytes. Takes no memory yet.
    pub fn new(alloc: Global, room: Room, size: usize) -> Self
        ensures { result ≡ [] }
    {
        BoundedStack {
            items: Vec::new(alloc),
            room,
            size,
        }
    }

    /// How many items there are.
    #[inline(always)]
    pub fn len(&self) -> usize
        ensures { result ≡ length self.now }
    {
        self.items.len()
    }

    /// Puts an item on top. It fails where the room has ended or memory has run out; then nothing has changed.
    #[inline(always)]
    pub fn push(&mut self, item: T) -> Result<(), AllocError>
        ensures ok { OnOk result (self.new ≡ item ∷ self.old) }
        ensures err { OnErr result (self.new ≡ self.old) }
    {
        self.room.reserve(&mut self.items, 1, self.size)?;
        self.items.push_reserved(item);
        Ok(())
    }

    /// Puts an item on top where there is room for it already, and says whether there is; else nothing has changed.
    #[inline(always)]
    pub fn push_within(&mut self, item: T) -> bool
        ensures on { IsTrue result → self.new ≡ item ∷ self.old }
        ensures off { result ≡ false → self.new ≡ self.old }
    {
        if self.items.len() == self.items.capacity() {
            return false;
        }
        self.items.push_reserved(item);
        true
    }

    /// Takes the topmost item.
    #[inline(always)]
    pub fn pop(&mut self) -> T
        requires { 0 < length self.old }
        ensures { self.old ≡ result ∷ self.new }
    {
        match self.items.pop() {
            Some(item) => item,
            None => unreachable!(),
        }
    }

    /// Drops the topmost items, so many of them, and keeps their memory.
    #[inline(always)]
    pub fn cut(&mut self, n: usize)
        requires { n ≤ length self.old }
        ensures { self.new ≡ drop n self.old }
    {
        self.items.truncate(self.items.len() - n);
    }

    /// The item with so many above it.
    #[inline(always)]
    pub fn get(&self, depth: usize) -> T
        requires { depth < length self.now }
        ensures { slice_get self.now depth ≡ Some result }
    {
        self.items[self.items.len() - 1 - depth]
    }

    /// The topmost item, if there is one.
    pub fn last(&self) -> Option<T>
        ensures { result ≡ slice_get self.now 0 }
    {
        if self.items.is_empty() {
            return None;
        }
        Some(self.get(0))
    }

    /// Puts an item in the place of the topmost one.
    #[inline(always)]
    pub fn set_top(&mut self, item: T)
        requires { 0 < length self.old }
        ensures { self.new ≡ item ∷ drop 1 self.old }
    {
        let top = self.items.len() - 1;
        self.items[top] = item;
    }

    /// Puts an item in the place of the two topmost ones.
    #[inline(always)]
    pub fn set_top_two(&mut self, item: T)
        requires { 1 < length self.old }
        ensures { self.new ≡ item ∷ drop 2 self.old }
    {
        let top = self.items.len() - 1;
        self.items[top - 1] = item;
        self.items.truncate(top);
    }
}
