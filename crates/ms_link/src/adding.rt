//! One module more.

ghost use Rattle.std.specs.Prelude.{◌≡◌, ◌<◌, ◌≤◌, ◌++◌, ◌∷◌, ℕ, List, [], All, None, Ok, Err, IfOk, OnOk, length, map};
ghost use Rattle.ms_import.specs.refinement.Adding.{Adds};
ghost use Rattle.ms_linear.specs.Memory.{most_pages};
ghost use Rattle.ms_linear.specs.Table.{most_entries};
ghost use Rattle.ms_link.specs.refinement.Adding.{Begins};
ghost use Rattle.ms_link.specs.refinement.Answers.{LinkAnswers, Tests};
ghost use Rattle.ms_machine.specs.Externs as looks;
ghost use Rattle.ms_machine.specs.Linked as linked;
ghost use Rattle.ms_machine.specs.Writing as writing;
ghost use Rattle.ms_module.specs.declared.module.Export.{Export as Exported};
ghost use Rattle.ms_module.specs.declared.module.Module.{Module};
ghost use Rattle.ms_names.specs.Numbered.{number_of};
ghost use Rattle.ms_rules.specs.Modules.{AreDistinct, WellTyped};

use crate::fault::{LinkFault, refused};
use crate::fitting::{test_fit, test_small};
use crate::making::{add_funcs, add_globals, add_memories, add_tables, share_types};
use ms_import::Made;
use ms_linear::{GlobalInst, Linear, Table};
use ms_machine::{Extern, Instance};
use ms_module::{Element, Fill, Func, Global as ModuleGlobal, Import, Module};
use ms_task::FuncInst;
use ms_types::{FuncType, Limits, SharedType, Vector};
use std::alloc::{AllocError, Global};

/// What a module adds, before it is known to fit, beside what stands in the modules before.
#[derive(Drop)]
struct Begun {
    instance: Instance,
    own_elements: Vector<Element>,
    own_fills: Vector<Fill>,
}

impl Begun {
    /// Whether the elements and the data lie within their table and their memory.
    fn test_fit(&self, made: &Made) -> Result<(), LinkFault>
        ensures { Tests (linked.outside (length made.now.instances) made.now.globals made.now.tables made.now.memories self.now.instance self.now.own_elements self.now.own_fills) result }
    {
        test_fit(
            made.instances.len(),
            made.globals.as_slice(),
            made.tables.as_slice(),
            made.memories.as_slice(),
            &self.instance,
            self.own_elements.as_slice(),
            self.own_fills.as_slice(),
        )
    }

    /// The modules before and this one.
    fn ended(self, alloc: Global, made: Made, name: &str) -> Result<Made, AllocError>
        requires new { number_of made.names name.now ≡ None }
        requires distinct { AreDistinct (map (λ (e : Exported). e.name) self.instance.exports) }
        ensures { IfOk result (Adds made self.instance self.own_elements self.own_fills name.now) }
    {
        let Begun {
            instance,
            own_elements,
            own_fills,
        } = self;
        made.with_instance(alloc, name, instance, own_elements, own_fills)
    }
}

/// The types of an instance, and the addresses of what it has.
#[derive(Drop)]
struct Addresses {
    types: Vec<SharedType>,
    funcs: Vec<u32>,
    table: Option<u32>,
    memory: Option<u32>,
    globals: Vec<u32>,
}

/// Adds the functions, tables, memories and globals of an instance, which has this number.
fn grow(
    alloc: Global,
    all_funcs: &mut Vec<FuncInst>,
    all_tables: &mut Vec<Table>,
    all_memories: &mut Vec<Linear>,
    all_globals: &mut Vec<GlobalInst>,
    number: usize,
    externs: &[Extern],
    sigs: Vec<FuncType>,
    funcs: Vec<Func>,
    tables: &[Limits],
    memories: &[Limits],
    globals: &[ModuleGlobal],
) -> Result<Addresses, AllocError>
    requires sigs { All (λ f. f.sig < length sigs.items) funcs.items }
    requires tables { All (λ l. l.min ≤ most_entries) tables.now }
    requires memories { All (λ l. l.min ≤ most_pages) memories.now }
    ensures types { IfOk result (λ a. a.types.items ≡ sigs.items) }
    ensures funcs { («module» : Module) → sigs.items ≡ «module».sigs → IfOk result (λ a. (all_funcs.new.items ≡ all_funcs.old.items ++ linked.host_funcs number 0 externs.now ++ map (linked.own_func «module» number) funcs.items) × (a.funcs.items ≡ linked.funcs_in (length all_funcs.old.items) externs.now ++ linked.numbers (length (all_funcs.old.items ++ linked.host_funcs number 0 externs.now)) (length funcs.items))) }
    ensures tables { IfOk result (λ a. (all_tables.new.items ≡ all_tables.old.items ++ map writing.empty_table tables.now) × (a.table ≡ linked.or_own (linked.table_in externs.now) (length all_tables.old.items) tables.now)) }
    ensures memories { IfOk result (λ a. (all_memories.new.items ≡ all_memories.old.items ++ map writing.zeroed memories.now) × (a.memory ≡ linked.or_own (linked.memory_in externs.now) (length all_memories.old.items) memories.now)) }
    ensures globals { IfOk result (λ a. (all_globals.new.items ≡ all_globals.old.items ++ map (linked.own_global (linked.values_at all_globals.old.items (linked.globals_in externs.now))) globals.now) × (a.globals.items ≡ linked.globals_in externs.now ++ linked.numbers (length all_globals.old.items) (length globals.now))) }
{
    let Ok(instance) = u32::try_from(number) else {
        return Err(AllocError);
    };
    let types = share_types(alloc, sigs)?;
    let own_funcs = add_funcs(alloc, all_funcs, types.as_slice(), instance, externs, funcs)?;
    let table = add_tables(alloc, all_tables, externs, tables)?;
    let memory = add_memories(alloc, all_memories, externs, memories)?;
    let own_globals = add_globals(alloc, all_globals, externs, globals)?;
    Ok(Addresses {
        types,
        funcs: own_funcs,
        table,
        memory,
        globals: own_globals,
    })
}

/// What a module adds, whose imports are given these, before it is known to fit. What it has stands in the modules before then.
fn begin(
    alloc: Global,
    made: &mut Made,
    module: Module,
    externs: &[Extern],
) -> Result<Begun, AllocError>
    requires typed { WellTyped «module» }
    requires small { linked.too_large (length made.old.instances) «module».tables «module».memories ≡ None }
    ensures { IfOk result (Begins made.old made.new «module» externs.now) }
{
    let addresses = grow(
        alloc,
        &mut made.funcs,
        &mut made.tables,
        &mut made.memories,
        &mut made.globals,
        made.instances.len(),
        externs,
        module.sigs.into_vec(),
        module.funcs.into_vec(),
        module.tables.as_slice(),
        module.memories.as_slice(),
        module.globals.as_slice(),
    )?;
    Ok(Begun {
        instance: Instance {
            types: Vector::from_vec(addresses.types),
            funcs: Vector::from_vec(addresses.funcs),
            table: addresses.table,
            memory: addresses.memory,
            globals: Vector::from_vec(addresses.globals),
            exports: module.exports,
            start: module.start,
        },
        own_elements: module.elements,
        own_fills: module.fills,
    })
}

/// Adds what an import is given.
fn push_extern(given: &mut Vec<Extern>, e: Extern) -> Result<(), AllocError>
    ensures { OnOk result (given.new.items ≡ given.old.items ++ e ∷ []) }
{
    given.push(e)?;
    Ok(())
}

/// What the imports of the next module are given, in order, or the first that is given nothing.
fn externs_of(
    alloc: Global,
    made: &Made,
    sigs: &[FuncType],
    imports: &[Import],
) -> Result<Vector<Extern>, LinkFault>
    ensures { LinkAnswers (looks.externs made.now sigs.now 0 imports.now) result }
{
    let mut given = Vec::with_capacity(alloc, imports.len())?;
    for (item, import) in imports.iter().enumerate() {
        match made.resolved(sigs, import) {
            Ok(e) => push_extern(&mut given, e)?,
            Err(why) => return Err(refused(made.instances.len(), item, why)),
        }
    }
    Ok(Vector::from_vec(given))
}

/// One module more, whose imports are given these.
fn with_module(
    alloc: Global,
    mut made: Made,
    name: &str,
    module: Module,
    externs: &[Extern],
) -> Result<Made, LinkFault>
    requires typed { WellTyped «module» }
    requires given { looks.externs made «module».sigs 0 «module».imports ≡ Ok externs.now }
    requires small { linked.too_large (length made.instances) «module».tables «module».memories ≡ None }
    requires new { number_of made.names name.now ≡ None }
    ensures { LinkAnswers (linked.one_more made name.now «module») result }
{
    let begun = begin(alloc, &mut made, module, externs)?;
    if let Err(fault) = begun.test_fit(&made) {
        return Err(fault);
    }
    Ok(begun.ended(alloc, made, name)?)
}

/// One module more, or the first thing that refuses it.
pub(crate) fn add(alloc: Global, made: Made, name: &str, module: Module) -> Result<Made, LinkFault>
    requires typed { WellTyped «module» }
    requires new { number_of made.names name.now ≡ None }
    ensures { LinkAnswers (linked.one_more made name.now «module») result }
{
    let externs = externs_of(
        alloc,
        &made,
        module.sigs.as_slice(),
        module.imports.as_slice(),
    )?;
    test_small(
        made.instances.len(),
        module.tables.as_slice(),
        module.memories.as_slice(),
    )?;
    with_module(alloc, made, name, module, externs.as_slice())
}
