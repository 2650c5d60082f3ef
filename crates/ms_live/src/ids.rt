//! The live segments by their identities, in an arena.

ghost use Rattle.std.specs.Prelude.{◌≡◌, ◌==◌, ◌+◌, ◌<◌, ◌≤◌, ◌^◌, ◌++◌, ◌∷◌, ℕ, [], Some, All, IfOk, IsSome, length, find, slice_get, true, false, vec_capacity};
ghost use Rattle.ms_gap_tree.specs.refinement.Tree.{half};
ghost use Rattle.ms_live.specs.refinement.Ordered.{has, push, remove, removed, segments, tree_of, IsApart, IsInOrder, IsWithinArena};
ghost use Rattle.ms_live.specs.Place.{contains_id, without};

use crate::branch::{BLANK, Branch, Halves};
use crate::gaps::{Live, MOST_LIVE};
use crate::order::{lift, pick, push, remove, seek};
use ms_gap_tree::{half, spare};
use std::alloc::{AllocError, Global};
use std::marker::Model;

/// A tree of so many levels has every identity in its range.
const MOST_LEVELS: u32 = 65;

/// Live segments in the order of their identities, as a tree in an arena that is reserved as a whole.
#[derive(Drop)]
pub struct Ids {
    nodes: Vec<Halves>,
    free: Vec<u32>,
    root: Option<Branch>,
    /// How many levels the tree has: so many that the newest identity is in its range.
    levels: u32,
}

impl Model for Ids {
    ghost use Rattle.std.specs.Prelude.{◌≤◌, List, vec_capacity};
    ghost use Rattle.ms_live.specs.declared.gaps.Live.{Live};
    ghost use Rattle.ms_live.specs.declared.gaps.TheConstants.{MOST_LIVE};
    ghost use Rattle.ms_live.specs.refinement.Ordered.{segments, tree_of, IsStored};

    ghost Value = { List Live };

    ghost view = { λ s. segments (tree_of s.nodes.items s.levels s.root) };

    ghost invariant = { λ s. IsStored s.nodes.items s.levels s.root s.free.items × (MOST_LIVE ≤ vec_capacity s.nodes) × (MOST_LIVE ≤ vec_capacity s.free) };
}

/// A tree, and how many levels it has.
#[derive(Clone, Copy, PartialEq, Eq)]
struct Grown {
    root: Option<Branch>,
    levels: u32,
}

/// The same segments as a tree with this identity in its range.
fn grow(nodes: &mut [Halves], levels: u32, root: Option<Branch>, id: u64) -> Grown
    requires levels { levels ≤ 65 }
    requires within { IsWithinArena (length nodes.old) (tree_of nodes.old levels root) }
    requires apart { IsApart (tree_of nodes.old levels root) }
    requires in_order { IsInOrder levels 0 (tree_of nodes.old levels root) }
    ensures same { segments (tree_of nodes.new result.levels result.root) ≡ segments (tree_of nodes.old levels root) }
    ensures within { IsWithinArena (length nodes.old) (tree_of nodes.new result.levels result.root) }
    ensures apart { IsApart (tree_of nodes.new result.levels result.root) }
    ensures in_order { IsInOrder result.levels 0 (tree_of nodes.new result.levels result.root) }
    ensures slots { (j : ℕ) → has j (tree_of nodes.old levels root) ≡ false → has j (tree_of nodes.new result.levels result.root) ≡ false }
    ensures levels { result.levels ≤ 65 }
    ensures room { id < half result.levels }
{
    if levels == MOST_LEVELS {
        return Grown { root, levels };
    }
    if id < half(levels) {
        return Grown { root, levels };
    }
    match root {
        None => grow(nodes, levels + 1, None, id),
        Some(root) => {
            let top = lift(nodes, levels, root);
            grow(nodes, levels + 1, Some(top), id)
        }
    }
}

/// The same in the arena.
fn widen(nodes: &mut Vec<Halves>, levels: u32, root: Option<Branch>, id: u64) -> Grown
    requires levels { levels ≤ 65 }
    requires within { IsWithinArena (length nodes.old.items) (tree_of nodes.old.items levels root) }
    requires apart { IsApart (tree_of nodes.old.items levels root) }
    requires in_order { IsInOrder levels 0 (tree_of nodes.old.items levels root) }
    ensures same { segments (tree_of nodes.new.items result.levels result.root) ≡ segments (tree_of nodes.old.items levels root) }
    ensures within { IsWithinArena (length nodes.old.items) (tree_of nodes.new.items result.levels result.root) }
    ensures apart { IsApart (tree_of nodes.new.items result.levels result.root) }
    ensures in_order { IsInOrder result.levels 0 (tree_of nodes.new.items result.levels result.root) }
    ensures slots { (j : ℕ) → has j (tree_of nodes.old.items levels root) ≡ false → has j (tree_of nodes.new.items result.levels result.root) ≡ false }
    ensures levels { result.levels ≤ 65 }
    ensures room { id < half result.levels }
    ensures length { length nodes.new.items ≡ length nodes.old.items }
    ensures capacity { vec_capacity nodes.new ≡ vec_capacity nodes.old }
{
    grow(nodes.as_mut_slice(), levels, root, id)
}

/// A segment more, in this slot.
fn put(
    nodes: &mut Vec<Halves>,
    levels: u32,
    root: Option<Branch>,
    slot: u32,
    segment: Live,
) -> Option<Branch>
    requires levels { levels ≤ 65 }
    requires range { half levels ≤ 2 ^ 64 }
    requires within { IsWithinArena (length nodes.old.items) (tree_of nodes.old.items levels root) }
    requires apart { IsApart (tree_of nodes.old.items levels root) }
    requires fresh { has slot (tree_of nodes.old.items levels root) ≡ false }
    requires there { slot < length nodes.old.items }
    requires in_order { IsInOrder levels 0 (tree_of nodes.old.items levels root) }
    requires few { length (segments (tree_of nodes.old.items levels root)) < MOST_LIVE }
    ensures tree { tree_of nodes.new.items levels result ≡ push levels 0 slot segment (tree_of nodes.old.items levels root) }
    ensures length { length nodes.new.items ≡ length nodes.old.items }
    ensures capacity { vec_capacity nodes.new ≡ vec_capacity nodes.old }
{
    push(nodes.as_mut_slice(), levels, 0, root, slot, segment)
}

/// Takes the segment of this identity out. Gives the way to the rest, and the slot that is free then.
fn take(
    nodes: &mut Vec<Halves>,
    levels: u32,
    root: Option<Branch>,
    id: u64,
) -> (Option<Branch>, u32)
    requires levels { levels ≤ 65 }
    requires range { half levels ≤ 2 ^ 64 }
    requires found { IsSome (removed levels 0 id (tree_of nodes.old.items levels root)) }
    requires within { IsWithinArena (length nodes.old.items) (tree_of nodes.old.items levels root) }
    requires apart { IsApart (tree_of nodes.old.items levels root) }
    ensures tree { tree_of nodes.new.items levels result.0 ≡ remove levels 0 id (tree_of nodes.old.items levels root) }
    ensures slot { Some result.1 ≡ removed levels 0 id (tree_of nodes.old.items levels root) }
    ensures length { length nodes.new.items ≡ length nodes.old.items }
    ensures capacity { vec_capacity nodes.new ≡ vec_capacity nodes.old }
{
    let removed = remove(nodes.as_mut_slice(), levels, 0, root, id);
    let Some(slot) = removed.slot else {
        unreachable!()
    };
    (removed.rest, slot)
}

impl Ids {
    /// No segment. Memory for all that may be live is reserved, and none is written.
    pub fn new(alloc: Global) -> Result<Self, AllocError>
        ensures { IfOk result (λ ids. ids ≡ []) }
    {
        Ok(Ids {
            nodes: Vec::with_capacity(alloc, MOST_LIVE as usize)?,
            free: Vec::with_capacity(alloc, MOST_LIVE as usize)?,
            root: None,
            levels: 1,
        })
    }

    /// A segment more, of the newest identity.
    pub fn push(&mut self, segment: Live)
        requires few { length self.old < MOST_LIVE }
        requires newest { All (λ other. other.id < segment.id) self.old }
        ensures { self.new ≡ self.old ++ segment ∷ [] }
    {
        let grown = widen(&mut self.nodes, self.levels, self.root, segment.id);
        let slot = spare(&mut self.nodes, &mut self.free, BLANK);
        self.root = put(&mut self.nodes, grown.levels, grown.root, slot, segment);
        self.levels = grown.levels;
    }

    /// The segment of this identity goes.
    pub fn remove(&mut self, id: u64)
        requires { contains_id id self.old ≡ true }
        ensures { self.new ≡ without id self.old }
    {
        let (rest, slot) = take(&mut self.nodes, self.levels, self.root, id);
        self.root = rest;
        self.free.push_reserved(slot);
    }

    /// The segment of this identity.
    pub fn find(&self, id: u64) -> Option<Live>
        ensures { result ≡ find (λ segment. segment.id == id) self.now }
    {
        seek(self.nodes.as_slice(), self.levels, 0, self.root, id)
    }

    /// How many there are.
    pub fn count(&self) -> u32
        ensures { result ≡ length self.now }
    {
        match self.root {
            None => 0,
            Some(root) => root.count,
        }
    }

    /// The segment with `i` older ones.
    pub fn nth(&self, i: u32) -> Live
        requires { i < length self.now }
        ensures { slice_get self.now i ≡ Some result }
    {
        let Some(segment) = pick(self.nodes.as_slice(), self.levels, self.root, i) else {
            unreachable!()
        };
        segment
    }
}
