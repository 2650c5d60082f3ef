//! Values as operands and locals keep them.

ghost use Rattle.std.specs.Prelude.{◌≡◌, ◌<◌, ◌≤◌, [], ◌∷◌, drop, length, slice_get, false, IfSome, IsTrue, OnErr, OnOk, Some};
ghost use Rattle.ms_linear.specs.Values.{type_of};
ghost use Rattle.ms_linear.specs.declared.value.Value.TheVariants as values;
ghost use Rattle.ms_types.specs.declared.types.ValType.TheVariants as types;

use crate::bounded::BoundedStack;
use crate::room::Room;
use crate::value::Value;
use ms_handle::Handle;
use std::alloc::{AllocError, Global};
use std::marker::Model;

/// A value, or the parts of its handle, side by side.
#[derive(Clone, Copy, PartialEq, Eq)]
enum Kept {
    I32(u32),
    I64(u64),
    Null,
    Broken,
    Good {
        sealed: bool,
        id: u64,
        base: u32,
        length: u32,
        offset: i64,
    },
}

/// A value as operands and locals keep it, in 32 bytes. Contracts see the value.
#[derive(Clone, Copy, PartialEq, Eq)]
pub struct Cell {
    kept: Kept,
}

/// A cell takes 32 bytes, where a value takes 40.
const _: () = prove!(size_of::<Cell>() == 32);

impl Model for Cell {
    ghost use Rattle.ms_linear.specs.declared.value.Value.{Value as V};
    ghost use Rattle.ms_linear.specs.refinement.Cells.{kept_of, value_of};
    ghost use Rattle.ms_linear.specs.refinement.CellLaws.{kept_again};

    ghost Value = { V };

    ghost view = { λ c. value_of c.kept };

    ghost inverse = { λ v. record { kept = kept_of v } };

    ghost inverse_ok = { λ c h i. record { kept = kept_again c.kept i } };
}

impl Cell {
    /// The cell of a value.
    #[inline(always)]
    pub fn of(value: Value) -> Cell
        ensures { result ≡ value }
    {
        let kept = match value {
            Value::I32(n) => Kept::I32(n),
            Value::I64(n) => Kept::I64(n),
            Value::Handle(Handle::Null) => Kept::Null,
            Value::Handle(Handle::Broken) => Kept::Broken,
            Value::Handle(
                Handle::Good {
                    sealed,
                    id,
                    base,
                    length,
                    offset,
                },
            ) => Kept::Good {
                sealed,
                id,
                base,
                length,
                offset,
            },
        };
        Cell { kept }
    }

    /// The cell of an integer of 32 bits.
    #[inline(always)]
    pub fn of_i32(n: u32) -> Cell
        ensures { result ≡ values.I32 n }
    {
        Cell { kept: Kept::I32(n) }
    }

    /// The cell of an integer of 64 bits.
    #[inline(always)]
    pub fn of_i64(n: u64) -> Cell
        ensures { result ≡ values.I64 n }
    {
        Cell { kept: Kept::I64(n) }
    }

    /// The integer of 32 bits that is in the cell.
    #[inline(always)]
    pub fn i32(self) -> u32
        requires { type_of self ≡ types.I32 }
        ensures { self ≡ values.I32 result }
    {
        match self.kept {
            Kept::I32(n) => n,
            _ => unreachable!(),
        }
    }

    /// The integer of 64 bits that is in the cell.
    #[inline(always)]
    pub fn i64(self) -> u64
        requires { type_of self ≡ types.I64 }
        ensures { self ≡ values.I64 result }
    {
        match self.kept {
            Kept::I64(n) => n,
            _ => unreachable!(),
        }
    }

    /// The handle that is in the cell, where it is a good one.
    #[inline(always)]
    pub fn good(self) -> Option<Handle>
        ensures { IfSome result (λ h. self ≡ values.Handle h) }
    {
        match self.kept {
            Kept::Good {
                sealed,
                id,
                base,
                length,
                offset,
            } => Some(Handle::Good {
                sealed,
                id,
                base,
                length,
                offset,
            }),
            _ => None,
        }
    }

    /// The value of the cell.
    #[inline(always)]
    pub fn value(self) -> Value
        ensures { result ≡ self }
    {
        match self.kept {
            Kept::I32(n) => Value::I32(n),
            Kept::I64(n) => Value::I64(n),
            Kept::Null => Value::Handle(Handle::Null),
            Kept::Broken => Value::Handle(Handle::Broken),
            Kept::Good {
                sealed,
                id,
                base,
                length,
                offset,
            } => Value::Handle(Handle::Good {
                sealed,
                id,
                base,
                length,
                offset,
            }),
        }
    }
}

/// Operands (WebAssembly 1.0, 4.2.12). Contracts see them as a list of values with the topmost one first.
#[derive(Drop)]
pub struct Operands {
    cells: BoundedStack<Cell>,
}

impl Model for Operands {
    ghost use Rattle.std.specs.Prelude.{List};
    ghost use Rattle.ms_linear.specs.declared.value.Value.{Value as V};

    ghost Value = { List V };

    ghost view = { λ o. o.cells };
}

impl Operands {
    /// No operands, which will take their memory of a room. Takes none yet.
    pub fn new(alloc: Global, room: Room) -> Self
        ensures { result ≡ [] }
    {
        Operands {
            cells: BoundedStack::new(alloc, room, size_of::<Cell>()),
        }
    }

    /// How many there are.
    #[inline(always)]
    pub fn len(&self) -> usize
        ensures { result ≡ length self.now }
    {
        self.cells.len()
    }

    /// Puts an operand on top. It fails where the room has ended or memory has run out; then nothing has changed.
    #[inline(always)]
    pub fn push(&mut self, value: Value) -> Result<(), AllocError>
        ensures ok { OnOk result (self.new ≡ value ∷ self.old) }
        ensures err { OnErr result (self.new ≡ self.old) }
    {
        self.cells.push(Cell::of(value))
    }

    /// The same of a cell.
    #[inline(always)]
    pub fn push_cell(&mut self, cell: Cell) -> Result<(), AllocError>
        ensures ok { OnOk result (self.new ≡ cell ∷ self.old) }
        ensures err { OnErr result (self.new ≡ self.old) }
    {
        self.cells.push(cell)
    }

    /// Puts a cell on top where there is room for it already, and says whether there is; else nothing has changed.
    #[inline(always)]
    pub fn push_within(&mut self, cell: Cell) -> bool
        ensures on { IsTrue result → self.new ≡ cell ∷ self.old }
        ensures off { result ≡ false → self.new ≡ self.old }
    {
        self.cells.push_within(cell)
    }

    /// Takes the topmost operand.
    #[inline(always)]
    pub fn pop(&mut self) -> Value
        requires { 0 < length self.old }
        ensures { self.old ≡ result ∷ self.new }
    {
        self.cells.pop().value()
    }

    /// Drops the topmost operands, so many of them, and keeps their memory.
    #[inline(always)]
    pub fn cut(&mut self, n: usize)
        requires { n ≤ length self.old }
        ensures { self.new ≡ drop n self.old }
    {
        self.cells.cut(n);
    }

    /// The operand with so many above it.
    #[inline(always)]
    pub fn get(&self, depth: usize) -> Value
        requires { depth < length self.now }
        ensures { slice_get self.now depth ≡ Some result }
    {
        self.cells.get(depth).value()
    }

    /// Its cell.
    #[inline(always)]
    pub fn cell(&self, depth: usize) -> Cell
        requires { depth < length self.now }
        ensures { slice_get self.now depth ≡ Some result }
    {
        self.cells.get(depth)
    }

    /// The topmost operand, if there is one.
    pub fn last(&self) -> Option<Value>
        ensures { result ≡ slice_get self.now 0 }
    {
        self.cells.last().map(|cell| cell.value())
    }

    /// Puts a value in the place of the topmost operand.
    #[inline(always)]
    pub fn set_top(&mut self, value: Value)
        requires { 0 < length self.old }
        ensures { self.new ≡ value ∷ drop 1 self.old }
    {
        self.cells.set_top(Cell::of(value));
    }

    /// The same of a cell.
    #[inline(always)]
    pub fn set_top_cell(&mut self, cell: Cell)
        requires { 0 < length self.old }
        ensures { self.new ≡ cell ∷ drop 1 self.old }
    {
        self.cells.set_top(cell);
    }

    /// Puts a cell in the place of the two topmost operands.
    #[inline(always)]
    pub fn set_top_two(&mut self, cell: Cell)
        requires { 1 < length self.old }
        ensures { self.new ≡ cell ∷ drop 2 self.old }
    {
        self.cells.set_top_two(cell);
    }
}
