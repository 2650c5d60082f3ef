//! Which tasks nothing joins: each instance has the number of its part, and those that share something come into one.

ghost use Rattle.std.specs.Prelude.{◌≡◌, ◌<◌, ◌+◌, ◌^◌, ℕ, [], ◌∷◌, Some, None, All, IfOk, IfSome, MatchOption, OnOk, length, map, replicate, slice_get, slice_index, slice_set};
ghost use Rattle.ms_machine.specs.Typing.{StoreTyped, outline_of};
ghost use Rattle.ms_machine.specs.declared.store.Instance.{Instance as InstanceView};
ghost use Rattle.ms_tasks.specs.Joined.{AreApart};
ghost use Rattle.ms_tasks.specs.refinement.Parting.{AreAlike, AreCounts, AreFirsts, AreNoted, AreParts, AreWhole, FirstsBelow, IsWithFunc, IsWithFuncs, KeepsTogether, Notes, NotesAll, PutsTogether, count_of, counted, is_alone, listed, named, part_at, renumbered};

use ms_machine::{Instance, Store};
use ms_segment::SegmentMemory;
use std::alloc::{AllocError, Global};

/// What instances name by addresses, and may share.
#[derive(Clone, Copy)]
enum Kind {
    Tables,
    Memories,
    Globals,
}

/// How many of them the store has.
fn count_of<M: SegmentMemory>(store: &Store<M>, kind: Kind) -> usize
    ensures { result ≡ count_of kind store.now }
{
    match kind {
        Kind::Tables => store.tables().len(),
        Kind::Memories => store.memories().len(),
        Kind::Globals => store.globals().len(),
    }
}

/// How many instances the store has.
fn instance_count<M: SegmentMemory>(store: &Store<M>) -> usize
    ensures { result ≡ length store.now.instances }
{
    store.instances().len()
}

/// The instance of a number.
fn instance_at<M: SegmentMemory>(store: &Store<M>, n: usize) -> &Instance
    requires { n < length store.now.instances }
    ensures { slice_get store.now.instances n ≡ Some result.now }
{
    &store.instances()[n]
}

/// The numbers from 0 up to one.
fn themselves(alloc: Global, n: usize) -> Result<Vec<usize>, AllocError>
    ensures len { IfOk result (λ v. length v.items ≡ n) }
    ensures each { IfOk result (λ v. (k p : ℕ) → slice_get v.items k ≡ Some p → p ≡ k) }
{
    let mut numbers = Vec::new(alloc);
    for i in 0..n {
        numbers.push(i)?;
    }
    Ok(numbers)
}

/// No first instance for so many addresses.
fn unnoted(alloc: Global, n: usize) -> Result<Vec<Option<usize>>, AllocError>
    ensures { IfOk result (λ v. v.items ≡ replicate n None) }
{
    let mut firsts = Vec::new(alloc);
    firsts.resize(n, None)?;
    Ok(firsts)
}

/// So many counts of 0.
fn uncounted(alloc: Global, n: usize) -> Result<Vec<usize>, AllocError>
    ensures { IfOk result (λ v. v.items ≡ replicate n 0) }
{
    let mut counts = Vec::new(alloc);
    counts.resize(n, 0)?;
    Ok(counts)
}

/// The number that stands for another.
fn renumbered(part: usize, from: usize, to: usize) -> usize
    ensures { result ≡ renumbered from to part }
{
    if part == from { to } else { part }
}

/// Gives the instances of a part another number.
fn renumber(parts: &mut [usize], from: usize, to: usize)
    ensures { parts.new ≡ map (renumbered from to) parts.old }
{
    for part in parts.iter_mut() {
        *part = renumbered(*part, from, to);
    }
}

/// Puts the parts of two instances together.
fn put_together(parts: &mut [usize], i: usize, j: usize)
    requires i { i < length parts.old }
    requires j { j < length parts.old }
    ensures { PutsTogether i j parts.old parts.new }
{
    let to = parts[i];
    let from = parts[j];
    if from == to {
        return;
    }
    renumber(parts, from, to);
}

/// The instance that defines the function of an address.
fn definer<M: SegmentMemory>(store: &Store<M>, address: u32) -> usize
    requires { address < length store.now.funcs }
    ensures { MatchOption (slice_get store.now.funcs address) ⊥ (λ f. f.instance ≡ result) }
{
    store.funcs()[address as usize].instance as usize
}

/// Puts an instance together with those that define the functions of these addresses, which it names.
fn join_definers<M: SegmentMemory>(
    store: &Store<M>,
    parts: &mut [usize],
    n: usize,
    addresses: &[u32],
)
    requires typed { StoreTyped (outline_of store.now) }
    requires parts { AreParts store.now parts.old }
    requires names { (i : InstanceView) × (slice_get store.now.instances n ≡ Some i) × (addresses.now ≡ i.funcs) }
    ensures kept { KeepsTogether parts.old parts.new }
    ensures parts { AreParts store.now parts.new }
    ensures joins { All (IsWithFunc store.now parts.new n) addresses.now }
{
    for i in 0..addresses.len() {
        let m = definer(store, addresses[i]);
        put_together(parts, n, m);
    }
}

/// Puts each instance together with those that define the functions that it names.
fn join_funcs<M: SegmentMemory>(store: &Store<M>, parts: &mut [usize])
    requires typed { StoreTyped (outline_of store.now) }
    requires parts { AreParts store.now parts.old }
    ensures kept { KeepsTogether parts.old parts.new }
    ensures parts { AreParts store.now parts.new }
    ensures joins { (n : ℕ) → IsWithFuncs store.now parts.new n }
{
    let count = instance_count(store);
    for n in 0..count {
        let instance = instance_at(store, n);
        join_definers(store, parts, n, instance.funcs.as_slice());
    }
}

/// The first instance that was noted to name what has an address.
fn first_at(firsts: &[Option<usize>], address: u32) -> Option<usize>
    requires { address < length firsts.now }
    ensures { slice_get firsts.now address ≡ Some result }
{
    firsts[address as usize]
}

/// Notes an instance as the first one.
fn set_first(firsts: &mut [Option<usize>], address: u32, n: usize)
    requires { address < length firsts.old }
    ensures { firsts.new ≡ slice_set firsts.old address (Some n) }
{
    firsts[address as usize] = Some(n);
}

/// Notes that an instance names what has an address: it is put together with the first one that does.
fn note(parts: &mut [usize], firsts: &mut [Option<usize>], n: usize, address: u32)
    requires n { n < length parts.old }
    requires firsts { FirstsBelow (length parts.old) firsts.old }
    requires there { address < length firsts.old }
    ensures { Notes n (address ∷ []) firsts.old firsts.new parts.old parts.new }
{
    match first_at(firsts, address) {
        Some(first) => put_together(parts, first, n),
        None => set_first(firsts, address, n),
    }
}

/// The same for several addresses.
fn note_each(parts: &mut [usize], firsts: &mut [Option<usize>], n: usize, addresses: &[u32])
    requires n { n < length parts.old }
    requires firsts { FirstsBelow (length parts.old) firsts.old }
    requires there { All (λ a. a < length firsts.old) addresses.now }
    ensures { Notes n addresses.now firsts.old firsts.new parts.old parts.new }
{
    for i in 0..addresses.len() {
        note(parts, firsts, n, addresses[i]);
    }
}

/// The same for one, if there is one.
fn note_if(parts: &mut [usize], firsts: &mut [Option<usize>], n: usize, address: Option<u32>)
    requires n { n < length parts.old }
    requires firsts { FirstsBelow (length parts.old) firsts.old }
    requires there { All (λ a. a < length firsts.old) (listed address) }
    ensures { Notes n (listed address) firsts.old firsts.new parts.old parts.new }
{
    match address {
        Some(one) => note(parts, firsts, n, one),
        None => {}
    }
}

/// Notes what an instance names of a kind.
fn note_named(
    parts: &mut [usize],
    firsts: &mut [Option<usize>],
    kind: Kind,
    n: usize,
    instance: &Instance,
)
    requires n { n < length parts.old }
    requires firsts { FirstsBelow (length parts.old) firsts.old }
    requires there { All (λ a. a < length firsts.old) (named kind instance.now) }
    ensures { Notes n (named kind instance.now) firsts.old firsts.new parts.old parts.new }
{
    match kind {
        Kind::Tables => note_if(parts, firsts, n, instance.table),
        Kind::Memories => note_if(parts, firsts, n, instance.memory),
        Kind::Globals => note_each(parts, firsts, n, instance.globals.as_slice()),
    }
}

/// Notes what the instances name of a kind.
fn note_all<M: SegmentMemory>(
    store: &Store<M>,
    kind: Kind,
    parts: &mut [usize],
    firsts: &mut [Option<usize>],
)
    requires typed { StoreTyped (outline_of store.now) }
    requires parts { AreParts store.now parts.old }
    requires firsts { AreFirsts store.now kind firsts.old }
    requires each { length firsts.old ≡ count_of kind store.now }
    ensures all { NotesAll store.now kind firsts.old firsts.new parts.old parts.new }
    ensures noted { (n : ℕ) → AreNoted store.now kind firsts.new parts.new n }
{
    let count = instance_count(store);
    for n in 0..count {
        let instance = instance_at(store, n);
        note_named(parts, firsts, kind, n, instance);
    }
}

/// Puts together the instances that name the same of a kind.
fn join_kind<M: SegmentMemory>(
    alloc: Global,
    store: &Store<M>,
    kind: Kind,
    parts: &mut [usize],
) -> Result<(), AllocError>
    requires typed { StoreTyped (outline_of store.now) }
    requires parts { AreParts store.now parts.old }
    ensures kept { OnOk result (KeepsTogether parts.old parts.new) }
    ensures parts { OnOk result (AreParts store.now parts.new) }
    ensures alike { OnOk result (AreAlike store.now kind parts.new) }
{
    let count = count_of(store, kind);
    let mut firsts = unnoted(alloc, count)?;
    note_all(store, kind, parts, firsts.as_mut_slice());
    Ok(())
}

/// Puts together all that share something.
fn join_all<M: SegmentMemory>(
    alloc: Global,
    store: &Store<M>,
    parts: &mut [usize],
) -> Result<(), AllocError>
    requires typed { StoreTyped (outline_of store.now) }
    requires parts { AreParts store.now parts.old }
    ensures { OnOk result (AreWhole store.now parts.new) }
{
    join_funcs(store, parts);
    join_kind(alloc, store, Kind::Tables, parts)?;
    join_kind(alloc, store, Kind::Memories, parts)?;
    join_kind(alloc, store, Kind::Globals, parts)?;
    Ok(())
}

/// The number of its part for each instance.
fn parts_of<M: SegmentMemory>(alloc: Global, store: &Store<M>) -> Result<Vec<usize>, AllocError>
    requires typed { StoreTyped (outline_of store.now) }
    ensures { IfOk result (λ parts. AreWhole store.now parts.items) }
{
    let count = instance_count(store);
    let mut parts = themselves(alloc, count)?;
    join_all(alloc, store, parts.as_mut_slice())?;
    Ok(parts)
}

/// The part of the instance of the function of an address, if there is one.
fn part_at<M: SegmentMemory>(store: &Store<M>, parts: &[usize], address: u32) -> Option<usize>
    ensures { result ≡ part_at store.now parts.now address }
{
    match store.funcs().get(address as usize) {
        Some(func) => parts.get(func.instance as usize).copied(),
        None => None,
    }
}

/// One task more in a part, if it has one.
fn count_one(counts: &mut [usize], part: Option<usize>)
    requires there { IfSome part (λ p. p < length counts.old) }
    requires room { IfSome part (λ p. slice_index counts.old p < 2 ^ 63) }
    ensures { counts.new ≡ counted part counts.old }
{
    match part {
        Some(p) => counts[p] += 1,
        None => {}
    }
}

/// Counts the tasks of each part.
fn count_tasks<M: SegmentMemory>(
    store: &Store<M>,
    parts: &[usize],
    addresses: &[u32],
    counts: &mut [usize],
)
    requires parts { AreParts store.now parts.now }
    requires none { counts.old ≡ replicate (length parts.now) 0 }
    ensures { AreCounts (map (part_at store.now parts.now) addresses.now) counts.new }
{
    for i in 0..addresses.len() {
        let part = part_at(store, parts, addresses[i]);
        count_one(counts, part);
    }
}

/// How many tasks each part has.
fn counts_of<M: SegmentMemory>(
    alloc: Global,
    store: &Store<M>,
    parts: &[usize],
    addresses: &[u32],
) -> Result<Vec<usize>, AllocError>
    requires parts { AreParts store.now parts.now }
    ensures counts { IfOk result (λ counts. AreCounts (map (part_at store.now parts.now) addresses.now) counts.items) }
    ensures each { IfOk result (λ counts. length counts.items ≡ length parts.now) }
{
    let mut counts = uncounted(alloc, parts.len())?;
    count_tasks(store, parts, addresses, counts.as_mut_slice());
    Ok(counts)
}

/// Whether a task of this part is alone there.
fn is_alone(counts: &[usize], part: Option<usize>) -> bool
    ensures { result ≡ is_alone counts.now part }
{
    let Some(p) = part else {
        return true;
    };
    match counts.get(p) {
        Some(count) => *count < 2,
        None => true,
    }
}

/// Whether the task of the function of an address is alone in its part.
fn is_apart<M: SegmentMemory>(
    store: &Store<M>,
    parts: &[usize],
    counts: &[usize],
    address: u32,
) -> bool
    ensures { result ≡ is_alone counts.now (part_at store.now parts.now address) }
{
    is_alone(counts, part_at(store, parts, address))
}

/// The same for each of these.
fn flags_of<M: SegmentMemory>(
    alloc: Global,
    store: &Store<M>,
    parts: &[usize],
    counts: &[usize],
    addresses: &[u32],
) -> Result<Vec<bool>, AllocError>
    ensures { IfOk result (λ flags. flags.items ≡ map (λ a. is_alone counts.now (part_at store.now parts.now a)) addresses.now) }
{
    let mut flags = Vec::new(alloc);
    for address in addresses {
        flags.push(is_apart(store, parts, counts, *address))?;
    }
    Ok(flags)
}

/// For each task, by the address of its function, whether it is apart from all others.
pub(crate) fn apart_of<M: SegmentMemory>(
    alloc: Global,
    store: &Store<M>,
    addresses: &[u32],
) -> Result<Vec<bool>, AllocError>
    requires typed { StoreTyped (outline_of store.now) }
    ensures { IfOk result (λ flags. AreApart store.now addresses.now flags.items) }
{
    let parts = parts_of(alloc, store)?;
    let counts = counts_of(alloc, store, parts.as_slice(), addresses)?;
    let flags = flags_of(alloc, store, parts.as_slice(), counts.as_slice(), addresses)?;
    Ok(flags)
}
