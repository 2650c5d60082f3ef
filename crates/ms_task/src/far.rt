//! Locals that lie far from the beginning of their frames: they are kept once they are written.

ghost use Rattle.std.specs.Prelude.{◌≡◌, ℕ, ◌+◌, ◌-◌, ◌<◌, ◌≤◌, List, [], ◌∷◌, ◌++◌, length, take, reverse, slice_get, slice_set, IfOk, IfSome, MatchOption, OnErr, OnOk, Some, None};
ghost use Rattle.std.specs.List.Sorted.{IsPartitionPoint};
ghost use Rattle.ms_linear.specs.Values.{default_of};
ghost use Rattle.ms_task.specs.refinement.Far.{AreFirst, HaveBegun, Holds, IsOver, IsPushed, IsStacked, Puts, all_of, count, directory_end as end_of, far_values, look, near, total, type_at};

use crate::locals::SharedLocals;
use ms_linear::{Cell, Room, Value};
use std::alloc::AllocError;

/// How many declared locals of a frame are near: kept from the beginning.
pub(crate) const NEAR: u32 = 256;

/// What was written to a far local.
#[derive(Clone, Copy)]
pub(crate) struct Written {
    /// The number of the local among the far ones of its frame.
    index: u32,
    /// Its value.
    cell: Cell,
}

/// The far locals of a frame, and how they lie among the locals of all frames.
#[derive(Drop)]
pub(crate) struct Far {
    /// How many near locals of all frames lie below them.
    pub(crate) at: usize,
    /// How many locals of all frames lie below them.
    pub(crate) first: usize,
    /// How many lie below what is behind them.
    pub(crate) end: usize,
    /// Where their part of the directory begins, which has for each the place of what was written to it.
    pub(crate) directory: usize,
    /// Where what was written to them begins.
    pub(crate) written: usize,
    /// The types of all locals that the frame declares.
    pub(crate) types: SharedLocals,
}

impl Far {
    /// The place of what was written to one of them.
    fn find(&self, directory: &[u32], written: &[Written], j: usize) -> Option<usize>
        requires { self.now.directory ≤ length directory.now }
        ensures { MatchOption result (look directory.now written.now self.now j ≡ None) (Holds directory.now written.now self.now j) }
    {
        if j >= directory.len() - self.directory {
            return None;
        }
        let place = directory[self.directory + j] as usize;
        if place < self.written || place >= written.len() {
            return None;
        }
        if written[place].index as usize != j {
            return None;
        }
        Some(place)
    }

    /// What one of them is at first.
    fn default(&self, j: usize) -> Cell
        requires { j < count self.now }
        ensures { IfSome (type_at self.now j) (λ ty. result ≡ default_of ty) }
    {
        prove!(j < self.types.len() - NEAR as usize);
        match self.types.get((NEAR as usize + j) as u32) {
            Some(ty) => Cell::of(Value::default_of(ty)),
            None => unreachable!(),
        }
    }

    /// The value of one of them.
    pub(crate) fn get(&self, directory: &[u32], written: &[Written], j: usize) -> Cell
        requires within { j < count self.now }
        requires directory { self.now.directory ≤ length directory.now }
        ensures { slice_get (far_values directory.now written.now self.now) j ≡ Some result }
    {
        match self.find(directory, written, j) {
            Some(place) => written[place].cell,
            None => self.default(j),
        }
    }

    /// Writes one of them. After an error nothing has changed.
    pub(crate) fn put(
        &self,
        directory: &mut Vec<u32>,
        written: &mut Vec<Written>,
        room: &Room,
        j: usize,
        cell: Cell,
    ) -> Result<(), AllocError>
        requires directory { self.now.directory ≤ length directory.old.items }
        requires written { self.now.written ≤ length written.old.items }
        ensures ok { OnOk result (Puts directory.old.items written.old.items directory.new.items written.new.items self.now j cell) }
        ensures err { OnErr result ((directory.new.items ≡ directory.old.items) × (written.new.items ≡ written.old.items)) }
    {
        let Ok(index) = u32::try_from(j) else {
            return Err(AllocError);
        };
        if let Some(place) = self.find(directory, written, j) {
            written[place] = Written { index, cell };
            return Ok(());
        }
        self.add(directory, written, room, index, cell)
    }

    /// Writes one of them for the first time.
    fn add(
        &self,
        directory: &mut Vec<u32>,
        written: &mut Vec<Written>,
        room: &Room,
        index: u32,
        cell: Cell,
    ) -> Result<(), AllocError>
        requires directory { self.now.directory ≤ length directory.old.items }
        requires written { self.now.written ≤ length written.old.items }
        requires none { look directory.old.items written.old.items self.now index ≡ None }
        ensures ok { OnOk result (Puts directory.old.items written.old.items directory.new.items written.new.items self.now index cell) }
        ensures err { OnErr result ((directory.new.items ≡ directory.old.items) × (written.new.items ≡ written.old.items)) }
    {
        if index as usize >= directory.len() - self.directory {
            return Err(AllocError);
        }
        let Ok(place) = u32::try_from(written.len()) else {
            return Err(AllocError);
        };
        room.reserve(written, 1, size_of::<Written>())?;
        written.push_reserved(Written { index, cell });
        directory[self.directory + index as usize] = place;
        Ok(())
    }
}

/// The last far locals, and those below.
pub(crate) fn last<'a>(far: &'a [Far]) -> Option<(&'a Far, &'a [Far])>
    ensures { MatchOption result (reverse far.now ≡ []) (λ p. reverse far.now ≡ p.0.now ∷ reverse p.1.now) }
{
    if far.is_empty() {
        return None;
    }
    let n = far.len() - 1;
    Some((&far[n], &far[..n]))
}

/// How many there are.
pub(crate) fn count_of(far: &[Far], items: usize) -> usize
    requires { (d w : ℕ) × IsStacked (reverse far.now) items d w }
    ensures { result ≡ total (reverse far.now) }
{
    let _ = items;
    match last(far) {
        None => 0,
        Some((f, _)) => f.end - f.at,
    }
}

/// Where the next part of the directory begins.
fn directory_end(far: &[Far]) -> Option<usize>
    requires { (n d w : ℕ) × IsStacked (reverse far.now) n d w }
    ensures { IfSome result (λ end. end ≡ end_of (reverse far.now)) }
{
    match last(far) {
        None => Some(0),
        Some((f, _)) => f.directory.checked_add(f.end - f.first),
    }
}

/// Makes a directory as long as it is to be at least.
fn extend(directory: &mut Vec<u32>, room: &Room, end: usize) -> Result<(), AllocError>
    ensures ok { OnOk result (end ≤ length directory.new.items) }
    ensures more { length directory.old.items ≤ length directory.new.items }
    ensures low { take (length directory.old.items) directory.new.items ≡ directory.old.items }
{
    if end <= directory.len() {
        return Ok(());
    }
    // Beside its place here a far local counts as much as a near one, so that no more locals are open than if all were near.
    let size = size_of::<u32>() + size_of::<Cell>();
    room.reserve(directory, end - directory.len(), size)?;
    directory.resize(end, 0)?;
    Ok(())
}

/// Puts a frame's far locals on top of the others, behind its near ones, and gives how many locals of all frames there are then.
pub(crate) fn push(
    far: &mut Vec<Far>,
    directory: &mut Vec<u32>,
    written: usize,
    room: &Room,
    at: usize,
    first: usize,
    types: &SharedLocals,
) -> Result<usize, AllocError>
    requires { (w : ℕ) × IsStacked (reverse far.old.items) at (length directory.old.items) w }
    ensures ok { IfOk result (λ len. (f : Far) × IsPushed far.old.items far.new.items f at first written types.now × (len ≡ f.end) × (f.directory + count f ≤ length directory.new.items)) }
    ensures err { OnErr result (far.new.items ≡ far.old.items) }
    ensures more { length directory.old.items ≤ length directory.new.items }
    ensures low { take (length directory.old.items) directory.new.items ≡ directory.old.items }
{
    let count = types.len().saturating_sub(NEAR as usize);
    let (Some(end), Some(from)) = (first.checked_add(count), directory_end(far)) else {
        return Err(AllocError);
    };
    let Some(to) = from.checked_add(count) else {
        return Err(AllocError);
    };
    let types = types.share()?;
    extend(directory, room, to)?;
    room.reserve(far, 1, size_of::<Far>())?;
    far.push_reserved(Far {
        at,
        first,
        end,
        directory: from,
        written,
        types,
    });
    Ok(end)
}

/// Drops the last far locals where they lie behind so many locals, with what is over them.
fn drop_behind(
    far: &mut Vec<Far>,
    items: &mut Vec<Cell>,
    directory: &[u32],
    written: &mut Vec<Written>,
    len: usize,
)
    requires stacked { IsStacked (reverse far.old.items) (length items.old.items) (length directory.now) (length written.old.items) }
    requires within { len ≤ length items.old.items + total (reverse far.old.items) }
    ensures stacked { IsStacked (reverse far.new.items) (length items.new.items) (length directory.now) (length written.new.items) }
    ensures within { len ≤ length items.new.items + total (reverse far.new.items) }
    ensures same { take len (all_of (reverse far.new.items) items.new.items directory.now written.new.items) ≡ take len (all_of (reverse far.old.items) items.old.items directory.now written.old.items) }
{
    let _ = directory;
    let Some((f, _)) = last(far) else {
        return;
    };
    if f.first < len {
        return;
    }
    let at = f.at;
    let low = f.written;
    items.truncate(at);
    written.truncate(low);
    far.pop();
}

/// Drops the near locals over the last far ones that lie behind so many locals.
fn drop_near(far: &[Far], items: &mut Vec<Cell>, directory: &[u32], written: &[Written], len: usize)
    requires stacked { IsStacked (reverse far.now) (length items.old.items) (length directory.now) (length written.now) }
    requires within { len ≤ length items.old.items + total (reverse far.now) }
    ensures stacked { IsStacked (reverse far.now) (length items.new.items) (length directory.now) (length written.now) }
    ensures within { len ≤ length items.new.items + total (reverse far.now) }
    ensures same { take len (all_of (reverse far.now) items.new.items directory.now written.now) ≡ take len (all_of (reverse far.now) items.old.items directory.now written.now) }
{
    let _ = directory;
    let _ = written;
    let Some((f, _)) = last(far) else {
        items.truncate(len);
        return;
    };
    if len < f.end {
        return;
    }
    items.truncate(len - (f.end - f.at));
}

/// Drops what lies behind so many locals of all frames, as far as it is of whole frames.
pub(crate) fn cut(
    far: &mut Vec<Far>,
    items: &mut Vec<Cell>,
    directory: &[u32],
    written: &mut Vec<Written>,
    len: usize,
)
    requires stacked { IsStacked (reverse far.old.items) (length items.old.items) (length directory.now) (length written.old.items) }
    requires within { len ≤ length items.old.items + total (reverse far.old.items) }
    ensures stacked { IsStacked (reverse far.new.items) (length items.new.items) (length directory.now) (length written.new.items) }
    ensures within { len ≤ length items.new.items + total (reverse far.new.items) }
    ensures same { take len (all_of (reverse far.new.items) items.new.items directory.now written.new.items) ≡ take len (all_of (reverse far.old.items) items.old.items directory.now written.old.items) }
{
    drop_behind(far, items, directory, written, len);
    drop_near(far, items, directory, written, len);
}

/// Where the near locals of a frame begin that lies over all far ones, with so many locals below.
fn start_over(far: &[Far], base: usize) -> Option<usize>
    requires { (n d w : ℕ) × IsStacked (reverse far.now) n d w }
    ensures { IfSome result (λ start. IsOver (reverse far.now) start base) }
{
    let Some((f, _)) = last(far) else {
        return Some(base);
    };
    if base < f.end {
        return None;
    }
    Some(base - (f.end - f.at))
}

/// Where the near locals of the last frame begin, which are the last of so many, with so many locals below. Where they aren't, it
/// gives what is behind all.
pub(crate) fn first_near(far: &[Far], items: usize, base: usize) -> usize
    requires { (d w : ℕ) × IsStacked (reverse far.now) items d w }
    ensures { AreFirst (reverse far.now) items result base }
{
    match start_over(far, base) {
        Some(start) => start,
        None => first_below(far, items, base),
    }
}

/// The same of a frame that has the last far locals.
fn first_below(far: &[Far], items: usize, base: usize) -> usize
    requires { (d w : ℕ) × IsStacked (reverse far.now) items d w }
    ensures { AreFirst (reverse far.now) items result base }
{
    let Some((f, below)) = last(far) else {
        return items;
    };
    if f.at < items {
        return items;
    }
    match start_over(below, base) {
        Some(start) => start,
        None => items,
    }
}

/// How many of the far locals begin before this number of all locals or at it. They are the first ones.
fn begun(far: &[Far], p: usize) -> usize
    requires { (n d w : ℕ) × IsStacked (reverse far.now) n d w }
    ensures within { result ≤ length far.now }
    ensures parted { IsPartitionPoint (λ f. f.first ≤ p) (λ f. p < f.first) far.now result }
{
    if let Some((f, _)) = last(far) {
        if f.first <= p {
            return far.len();
        }
    }
    far.partition_point(|f| f.first <= p)
}

/// The local of this number, counted over all frames.
pub(crate) fn read(
    items: &[Cell],
    far: &[Far],
    directory: &[u32],
    written: &[Written],
    p: usize,
) -> Cell
    requires stacked { IsStacked (reverse far.now) (length items.now) (length directory.now) (length written.now) }
    requires within { p < length items.now + total (reverse far.now) }
    ensures { slice_get (all_of (reverse far.now) items.now directory.now written.now) p ≡ Some result }
{
    let k = begun(far, p);
    match far.get(k) {
        None => read_last(items, far, directory, written, p),
        Some(f) => read_last(
            &items[..f.at],
            &far[..k],
            &directory[..f.directory],
            &written[..f.written],
            p,
        ),
    }
}

/// The same where the last far locals don't begin behind it.
fn read_last(items: &[Cell], far: &[Far], directory: &[u32], written: &[Written], p: usize) -> Cell
    requires stacked { IsStacked (reverse far.now) (length items.now) (length directory.now) (length written.now) }
    requires within { p < length items.now + total (reverse far.now) }
    requires begun { HaveBegun (reverse far.now) p }
    ensures { slice_get (all_of (reverse far.now) items.now directory.now written.now) p ≡ Some result }
{
    let Some((f, _)) = last(far) else {
        return items[p];
    };
    if f.end <= p {
        return items[p - (f.end - f.at)];
    }
    f.get(directory, written, p - f.first)
}
