//! A tree of rooms in an arena that is reserved as a whole.

ghost use Rattle.std.specs.Prelude.{◌≡◌, ◌≢◌, ◌<◌, ◌≤◌, ◌+◌, ◌^◌, ◌++◌, ◌∷◌, ◌⊎◌, ℕ, List, [], cond, false, true, length, nat_eq, None, Some, IfOk, MatchOption, IsSome, vec_len, vec_capacity};
ghost use Rattle.ms_gap_tree.specs.refinement.Arena.{blank, tree_of};
ghost use Rattle.ms_gap_tree.specs.refinement.Tree.{half, has, insert, remove, removed, yields, IsApart, IsWithinArena};
ghost use Rattle.ms_gap_tree.specs.refinement.Rooms.{IsLast, IsLowest, nodes_looked_at, room_at, size_of};

use crate::leftmost::lowest;
use crate::nearest::last;
use crate::node::{BLANK, Item, Link, Node};
use crate::removal::remove;
use crate::slots::spare;
use crate::steps::Steps;
use crate::tree::{exchange, find, insert};
use std::alloc::{AllocError, Global};
use std::marker::Model;
use std::sync::ledger::Ledger;

/// Rooms under keys, in an arena that is reserved as a whole. Contracts see the arena, and speak of the room under a key.
#[derive(Drop)]
pub struct Rooms {
    nodes: Vec<Node>,
    free: Vec<u32>,
    root: Option<Link>,
    /// How many levels the tree has. It is no constant, so that no proof counts the levels one by one.
    levels: u32,
    most: u32,
}

impl Model for Rooms {
    ghost use Rattle.std.specs.Prelude.{◌≤◌, vec_capacity};
    ghost use Rattle.ms_gap_tree.specs.refinement.Rooms.{Arena, IsHeld};

    ghost Value = { Arena };

    ghost view = { λ r. record { nodes = r.nodes.items; root = r.root; levels = r.levels; most = r.most } };

    ghost invariant = { λ r. IsHeld (record { nodes = r.nodes.items; root = r.root; levels = r.levels; most = r.most }) r.free.items × (r.levels ≤ 48) × (r.most ≤ vec_capacity r.nodes) × (r.most ≤ vec_capacity r.free) };
}

/// An item more, in this slot.
fn put(
    nodes: &mut Vec<Node>,
    levels: u32,
    root: Option<Link>,
    slot: u32,
    item: Item,
) -> Option<Link>
    requires levels { levels ≤ 48 }
    requires within { IsWithinArena (length nodes.old.items) (tree_of nodes.old.items levels root) }
    requires apart { IsApart (tree_of nodes.old.items levels root) }
    requires fresh { has slot (tree_of nodes.old.items levels root) ≡ false }
    requires there { slot < length nodes.old.items }
    ensures tree { tree_of nodes.new.items levels result ≡ insert levels 0 slot item (tree_of nodes.old.items levels root) }
    ensures length { length nodes.new.items ≡ length nodes.old.items }
    ensures capacity { vec_capacity nodes.new ≡ vec_capacity nodes.old }
{
    insert(nodes.as_mut_slice(), levels, 0, root, slot, item)
}

/// Takes the item of this key out. Gives the way to the rest, and the slot that is free then.
fn take(nodes: &mut Vec<Node>, levels: u32, root: Option<Link>, key: u64) -> (Option<Link>, u32)
    requires levels { levels ≤ 48 }
    requires found { IsSome (removed levels 0 key (tree_of nodes.old.items levels root)) }
    requires within { IsWithinArena (length nodes.old.items) (tree_of nodes.old.items levels root) }
    requires apart { IsApart (tree_of nodes.old.items levels root) }
    ensures tree { tree_of nodes.new.items levels result.0 ≡ remove levels 0 key (tree_of nodes.old.items levels root) }
    ensures slot { Some result.1 ≡ removed levels 0 key (tree_of nodes.old.items levels root) }
    ensures length { length nodes.new.items ≡ length nodes.old.items }
    ensures capacity { vec_capacity nodes.new ≡ vec_capacity nodes.old }
{
    let removed = remove(nodes.as_mut_slice(), levels, 0, root, key);
    let Some(slot) = removed.slot else {
        unreachable!()
    };
    (removed.rest, slot)
}

impl Rooms {
    /// No room is kept. Memory for the most items that there may be is reserved, and none is written.
    pub fn new(alloc: Global, levels: u32, most: u32) -> Result<Self, AllocError>
        requires { levels ≤ 48 }
        ensures levels { IfOk result (λ r. r.levels ≡ levels) }
        ensures most { IfOk result (λ r. r.most ≡ most) }
        ensures size { IfOk result (λ r. size_of r ≡ 0) }
        ensures rooms { IfOk result (λ r. (key : ℕ) → room_at r key ≡ None) }
    {
        Ok(Rooms {
            nodes: Vec::with_capacity(alloc, most as usize)?,
            free: Vec::with_capacity(alloc, most as usize)?,
            root: None,
            levels,
            most,
        })
    }

    /// The room that is kept under the key.
    pub fn find(&self, key: u64) -> Option<u64>
        ensures { result ≡ room_at self.now key }
    {
        find(self.nodes.as_slice(), self.levels, 0, self.root, key)
    }

    /// The least key under which there is so much room. A step is a node that is looked at.
    pub fn lowest<L: Ledger>(&self, n: u64, steps: &mut Steps<L>) -> Option<u64>
        ensures found { IsLowest (room_at self.now) n result }
        ensures steps { steps.new ≡ steps.old + nodes_looked_at self.now n }
        ensures most { nodes_looked_at self.now n ≤ self.now.levels }
    {
        lowest(self.nodes.as_slice(), self.levels, self.root, n, steps)
    }

    /// The item of the greatest key up to this one: that of the key itself, where it has one.
    pub fn last(&self, key: u64) -> Option<Item>
        ensures { IsLast (room_at self.now) key result }
    {
        if let Some(room) = self.find(key) {
            return Some(Item { key, room });
        }
        last(self.nodes.as_slice(), self.levels, 0, self.root, key)
    }

    /// A room under a key that has none.
    pub fn insert(&mut self, item: Item)
        requires key { item.key < half self.old.levels }
        requires absent { room_at self.old item.key ≡ None }
        requires few { size_of self.old < self.old.most }
        ensures rooms { (key : ℕ) → room_at self.new key ≡ cond (nat_eq key item.key) (Some item.room) (room_at self.old key) }
        ensures size { size_of self.new ≡ 1 + size_of self.old }
        ensures levels { self.new.levels ≡ self.old.levels }
        ensures most { self.new.most ≡ self.old.most }
    {
        let slot = spare(&mut self.nodes, &mut self.free, BLANK);
        self.root = put(&mut self.nodes, self.levels, self.root, slot, item);
    }

    /// Takes the room under a key away.
    pub fn remove(&mut self, key: u64)
        requires there { IsSome (room_at self.old key) }
        ensures rooms { (other : ℕ) → room_at self.new other ≡ cond (nat_eq other key) None (room_at self.old other) }
        ensures size { 1 + size_of self.new ≡ size_of self.old }
        ensures few { size_of self.new < self.new.most }
        ensures levels { self.new.levels ≡ self.old.levels }
        ensures most { self.new.most ≡ self.old.most }
    {
        let (rest, slot) = take(&mut self.nodes, self.levels, self.root, key);
        self.root = rest;
        self.free.push_reserved(slot);
    }

    /// Another room under a key that has one.
    pub fn replace(&mut self, item: Item)
        requires key { item.key < half self.old.levels }
        requires there { IsSome (room_at self.old item.key) }
        ensures rooms { (key : ℕ) → room_at self.new key ≡ cond (nat_eq key item.key) (Some item.room) (room_at self.old key) }
        ensures size { size_of self.new ≡ size_of self.old }
        ensures levels { self.new.levels ≡ self.old.levels }
        ensures most { self.new.most ≡ self.old.most }
    {
        self.remove(item.key);
        self.insert(item);
    }

    /// Another item in place of the one at the root, where that has this key, and neither half has more room than the
    /// other item. Says whether it did.
    fn exchange(&mut self, key: u64, item: Item) -> bool
        requires below { item.key < half self.old.levels }
        requires absent { room_at self.old item.key ≡ None }
        ensures found { result ≡ yields self.old.levels key item.room (tree_of self.old.nodes self.old.levels self.old.root) }
        ensures rooms { result ≡ true → (other : ℕ) → room_at self.new other ≡ cond (nat_eq other item.key) (Some item.room) (cond (nat_eq other key) None (room_at self.old other)) }
        ensures same { result ≡ false → self.new ≡ self.old }
        ensures size { size_of self.new ≡ size_of self.old }
        ensures levels { self.new.levels ≡ self.old.levels }
        ensures most { self.new.most ≡ self.old.most }
        ensures inside { IsSome (room_at self.old key) → key < half self.old.levels }
    {
        let Some(root) = exchange(self.nodes.as_slice(), self.levels, self.root, key, item) else {
            return false;
        };
        self.root = Some(root);
        true
    }

    /// The room under a key becomes 0, and there is an item more, as where a gap is cut. Where the key is the one at the
    /// root, and the new item has as much room as any other, that takes its place at once, and one item goes down.
    pub fn cut(&mut self, key: u64, next: Item)
        requires there { IsSome (room_at self.old key) }
        requires below { next.key < half self.old.levels }
        requires absent { room_at self.old next.key ≡ None }
        requires few { size_of self.old < self.old.most }
        ensures rooms { (other : ℕ) → room_at self.new other ≡ cond (nat_eq other next.key) (Some next.room) (cond (nat_eq other key) (Some 0) (room_at self.old other)) }
        ensures size { size_of self.new ≡ 1 + size_of self.old }
        ensures levels { self.new.levels ≡ self.old.levels }
        ensures most { self.new.most ≡ self.old.most }
    {
        let rest = Item { key, room: 0 };
        if self.exchange(key, next) {
            self.insert(rest);
            return;
        }
        self.replace(rest);
        self.insert(next);
    }

    /// The room under a key goes, and there is another room under a key that has one, as where two gaps become one. Where the
    /// key that goes is the one at the root, and the new item has as much room as any other, that takes its place at once.
    pub fn join(&mut self, key: u64, item: Item)
        requires there { IsSome (room_at self.old key) }
        requires other { IsSome (room_at self.old item.key) }
        requires apart { key ≢ item.key }
        requires below { item.key < half self.old.levels }
        ensures rooms { (other : ℕ) → room_at self.new other ≡ cond (nat_eq other item.key) (Some item.room) (cond (nat_eq other key) None (room_at self.old other)) }
        ensures size { 1 + size_of self.new ≡ size_of self.old }
        ensures levels { self.new.levels ≡ self.old.levels }
        ensures most { self.new.most ≡ self.old.most }
    {
        self.remove(item.key);
        if self.exchange(key, item) {
            return;
        }
        self.remove(key);
        self.insert(item);
    }
}
