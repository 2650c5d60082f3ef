//! The live segments by their identities, with a hint where each is found at once.

ghost use Rattle.std.specs.Prelude.{◌≡◌, ◌==◌, ◌%◌, ◌<◌, ◌≤◌, ◌++◌, ◌∷◌, [], None, Some, All, IfOk, length, find, slice_get, true, vec_capacity};
ghost use Rattle.ms_live.specs.refinement.Hints.{forgotten, hint_of, written};
ghost use Rattle.ms_live.specs.Place.{contains_id, without};

use crate::gaps::{Live, MOST_LIVE};
use crate::ids::Ids;
use std::alloc::{AllocError, Global};
use std::marker::Model;

/// Live segments in the order of their identities. A segment's hint lies where its identity says, until one that is newer
/// by a multiple of `MOST_LIVE` takes its place; where there is none, the tree is searched.
#[derive(Drop)]
pub struct HintedIds {
    ids: Ids,
    hints: Vec<Option<Live>>,
}

impl Model for HintedIds {
    ghost use Rattle.std.specs.Prelude.{◌≤◌, List, vec_capacity};
    ghost use Rattle.ms_live.specs.declared.gaps.Live.{Live};
    ghost use Rattle.ms_live.specs.declared.gaps.TheConstants.{MOST_LIVE};
    ghost use Rattle.ms_live.specs.refinement.Hints.{IsHinted};

    ghost Value = { List Live };

    ghost view = { λ h. h.ids };

    ghost invariant = { λ h. IsHinted h.ids h.hints.items × (MOST_LIVE ≤ vec_capacity h.hints) };
}

/// The hint of this identity.
#[inline(always)]
fn hint(hints: &Vec<Option<Live>>, id: u64) -> Option<Live>
    ensures { result ≡ hint_of hints.now.items id }
{
    let at = (id % u64::from(MOST_LIVE)) as usize;
    if at >= hints.len() {
        return None;
    }
    let segment = hints[at]?;
    if segment.id == id {
        return Some(segment);
    }
    None
}

/// Writes the entry of an identity, if there are as many hints before it. Hints are added up to where one is written first.
fn write(hints: &mut Vec<Option<Live>>, id: u64, hint: Option<Live>)
    requires room { MOST_LIVE ≤ vec_capacity hints.old }
    ensures hints { hints.new.items ≡ written (id % MOST_LIVE) hint hints.old.items }
    ensures room { vec_capacity hints.new ≡ vec_capacity hints.old }
{
    let at = (id % u64::from(MOST_LIVE)) as usize;
    if at > hints.len() {
        return;
    }
    if at == hints.len() {
        hints.push_reserved(hint);
        return;
    }
    hints[at] = hint;
}

/// Takes the hint of an identity away.
fn forget(hints: &mut Vec<Option<Live>>, id: u64)
    requires room { MOST_LIVE ≤ vec_capacity hints.old }
    ensures hints { hints.new.items ≡ forgotten id hints.old.items }
    ensures room { vec_capacity hints.new ≡ vec_capacity hints.old }
{
    if hint(hints, id).is_none() {
        return;
    }
    write(hints, id, None);
}

impl HintedIds {
    /// No segment. Memory for all that may be live is reserved. Identities are counted from 1, so that the entry before the
    /// first one is there from the start.
    pub fn new(alloc: Global) -> Result<Self, AllocError>
        ensures { IfOk result (λ ids. ids ≡ []) }
    {
        let ids = Ids::new(alloc)?;
        let mut hints = Vec::with_capacity(alloc, MOST_LIVE as usize)?;
        hints.push_reserved(None);
        Ok(HintedIds { ids, hints })
    }

    /// A segment more, of the newest identity.
    pub fn push(&mut self, segment: Live)
        requires few { length self.old < MOST_LIVE }
        requires newest { All (λ other. other.id < segment.id) self.old }
        ensures { self.new ≡ self.old ++ segment ∷ [] }
    {
        self.ids.push(segment);
        write(&mut self.hints, segment.id, Some(segment));
    }

    /// The segment of this identity goes.
    pub fn remove(&mut self, id: u64)
        requires { contains_id id self.old ≡ true }
        ensures { self.new ≡ without id self.old }
    {
        self.ids.remove(id);
        forget(&mut self.hints, id);
    }

    /// The segment of this identity.
    #[inline(always)]
    pub fn find(&self, id: u64) -> Option<Live>
        ensures { result ≡ find (λ segment. segment.id == id) self.now }
    {
        if let Some(segment) = hint(&self.hints, id) {
            return Some(segment);
        }
        self.ids.find(id)
    }

    /// How many there are.
    pub fn count(&self) -> u32
        ensures { result ≡ length self.now }
    {
        self.ids.count()
    }

    /// The segment with `i` older ones.
    pub fn nth(&self, i: u32) -> Live
        requires { i < length self.now }
        ensures { slice_get self.now i ≡ Some result }
    {
        self.ids.nth(i)
    }
}
