//! The store and its instances.

ghost use Rattle.std.specs.Prelude.{◌≡◌, ◌≢◌, MatchOption, None, Some, slice_get, slice_set};
ghost use Rattle.ms_machine.specs.Step.{host_in};
ghost use Rattle.ms_machine.specs.Store.{at, number_of_instance, with_globals};

use ms_host::Host;
use ms_linear::{Cell, GlobalInst, Linear, Table};
use ms_module::Export;
use ms_segment::SegmentMemory;
use ms_task::FuncInst;
use ms_types::{SharedType, Vector};
use std::marker::Model;

/// An instance of a module (WebAssembly 1.0, 4.2.5): its types, and the addresses of what its indices name.
#[derive(Drop)]
pub struct Instance {
    /// The function types.
    pub types: Vector<SharedType>,
    /// The functions, by their addresses in the store.
    pub funcs: Vector<u32>,
    /// The address of the table, if there is one.
    pub table: Option<u32>,
    /// The address of the linear memory, if there is one.
    pub memory: Option<u32>,
    /// The addresses of the globals.
    pub globals: Vector<u32>,
    /// What the module exports, by its indices.
    pub exports: Vector<Export>,
    /// The index of the start function, if there is one.
    pub start: Option<u32>,
}

/// What tasks share (WebAssembly 1.0, 4.2.3), with a segment memory by the calls of instructions alone: whoever has the store,
/// and doesn't choose what keeps the segments, sees no byte of them but by a load.
#[derive(Drop)]
pub struct Store<M: SegmentMemory> {
    pub(crate) funcs: Vec<FuncInst>,
    pub(crate) instances: Vec<Instance>,
    pub(crate) tables: Vec<Table>,
    pub(crate) memories: Vec<Linear>,
    pub(crate) globals: Vec<GlobalInst>,
    pub(crate) segments: M,
}

impl<M: SegmentMemory> Model for Store<M> {
    ghost use Rattle.ms_machine.specs.Store.{Store};

    ghost Value = { Store };

    ghost view = { λ s. record { funcs = s.funcs.items; instances = s.instances.items; tables = s.tables.items; memories = s.memories.items; globals = s.globals.items; segments = M.memory s.segments } };
}

impl<M: SegmentMemory> Store<M> {
    /// The function of the host that a call of an address is, if it is one.
    pub(crate) fn host(&self, address: u32) -> Option<Host>
        ensures { result ≡ host_in (slice_get self.now.funcs address) }
    {
        match self.funcs.get(address as usize) {
            Some(f) => f.host,
            None => None,
        }
    }

    /// The functions, by their addresses.
    pub fn funcs(&self) -> &[FuncInst]
        ensures { result.now ≡ self.now.funcs }
    {
        &self.funcs
    }

    /// The instances, by their numbers.
    pub fn instances(&self) -> &[Instance]
        ensures { result.now ≡ self.now.instances }
    {
        &self.instances
    }

    /// The tables, by their addresses.
    pub fn tables(&self) -> &[Table]
        ensures { result.now ≡ self.now.tables }
    {
        &self.tables
    }

    /// The linear memories, by their addresses.
    pub fn memories(&self) -> &[Linear]
        ensures { result.now ≡ self.now.memories }
    {
        &self.memories
    }

    /// The globals, by their addresses.
    pub fn globals(&self) -> &[GlobalInst]
        ensures { result.now ≡ self.now.globals }
    {
        &self.globals
    }

    /// The segment memory.
    pub fn segments(&self) -> &M
        ensures { M.memory result.now ≡ self.now.segments }
    {
        &self.segments
    }

    /// The store of these parts.
    pub fn of(
        funcs: Vec<FuncInst>,
        instances: Vec<Instance>,
        tables: Vec<Table>,
        memories: Vec<Linear>,
        globals: Vec<GlobalInst>,
        segments: M,
    ) -> Self
        ensures { result ≡ record { funcs = funcs.items; instances = instances.items; tables = tables.items; memories = memories.items; globals = globals.items; segments = M.memory segments } }
    {
        Store {
            funcs,
            instances,
            tables,
            memories,
            globals,
            segments,
        }
    }

    /// Gives the global of an address a value.
    pub(crate) fn set_global(&mut self, address: u32, value: Cell)
        requires { slice_get self.old.globals address ≢ None }
        ensures { MatchOption (slice_get self.old.globals address) ⊥ (λ g. self.new ≡ with_globals self.old (slice_set self.old.globals address (record { value = value; mutable = g.mutable }))) }
    {
        self.globals[address as usize].value = value;
    }

    /// The instance of the function of an address.
    pub(crate) fn instance(&self, function: usize) -> &Instance
        requires { at self.now.instances (number_of_instance (slice_get self.now.funcs function)) ≢ None }
        ensures { at self.now.instances (number_of_instance (slice_get self.now.funcs function)) ≡ Some result.now }
    {
        &self.instances[self.funcs[function].instance as usize]
    }
}
