//! The kinds of entries, and how many of each there are.

ghost use Rattle.std.specs.Prelude.{◌≡◌, ◌+◌, IfOk, OnOk};
ghost use Rattle.ms_text_grammar.specs.FieldKinds.{count_of, counted, kind_of, no_entries, same_kind};

use ms_text_grammar::{ExternKind, Item};
use std::alloc::AllocError;
use std::marker::Model;

/// The kind of an item.
pub fn kind_of(item: &Item) -> ExternKind
    ensures { result ≡ kind_of item.now }
{
    match item {
        Item::Func { .. } => ExternKind::Func,
        Item::Table(_) | Item::Elements(_) => ExternKind::Table,
        Item::Memory(_) | Item::Data(_) => ExternKind::Memory,
        Item::Global { .. } => ExternKind::Global,
    }
}

/// Whether two kinds are the same.
pub fn same_kind(a: ExternKind, b: ExternKind) -> bool
    ensures { result ≡ same_kind a b }
{
    match a {
        ExternKind::Func => matches!(b, ExternKind::Func),
        ExternKind::Table => matches!(b, ExternKind::Table),
        ExternKind::Memory => matches!(b, ExternKind::Memory),
        ExternKind::Global => matches!(b, ExternKind::Global),
    }
}

/// How many entries of each kind stand before a field.
#[derive(Drop)]
pub struct Tally {
    funcs: u32,
    tables: u32,
    memories: u32,
    globals: u32,
}

impl Model for Tally {
    ghost use Rattle.ms_text_grammar.specs.FieldKinds.{Counts};

    ghost Value = { Counts };

    ghost view = { λ t. record { funcs = t.funcs; tables = t.tables; memories = t.memories; globals = t.globals } };
}

impl Tally {
    /// No entries.
    pub fn new() -> Self
        ensures { result ≡ no_entries }
    {
        Tally {
            funcs: 0,
            tables: 0,
            memories: 0,
            globals: 0,
        }
    }

    /// How many there are of a kind.
    pub fn of(&self, kind: ExternKind) -> u32
        ensures { result ≡ count_of self.now kind }
    {
        match kind {
            ExternKind::Func => self.funcs,
            ExternKind::Table => self.tables,
            ExternKind::Memory => self.memories,
            ExternKind::Global => self.globals,
        }
    }

    /// Counts an entry of a kind.
    pub fn add(&mut self, kind: ExternKind) -> Result<(), AllocError>
        ensures { OnOk result (self.new ≡ counted self.old kind) }
    {
        match kind {
            ExternKind::Func => self.funcs = one_more(self.funcs)?,
            ExternKind::Table => self.tables = one_more(self.tables)?,
            ExternKind::Memory => self.memories = one_more(self.memories)?,
            ExternKind::Global => self.globals = one_more(self.globals)?,
        }
        Ok(())
    }
}

/// One more, of at most 2^32 - 1.
fn one_more(n: u32) -> Result<u32, AllocError>
    ensures { IfOk result (λ m. m ≡ n + 1) }
{
    n.checked_add(1).ok_or(AllocError)
}
