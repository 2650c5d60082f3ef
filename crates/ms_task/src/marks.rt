//! The ends of open blocks and calls.

// The marks of open blocks and calls.

ghost use Rattle.std.specs.Prelude.{◌≡◌, ◌≢◌, ℕ, ◌+◌, ◌-◌, ◌<◌, ◌≤◌, List, [], ◌∷◌, length, drop, take, slice_get, OnOk, OnErr, Option, Some, IsTrue, ◌↔◌};
ghost use Rattle.ms_task.specs.refinement.Marks.{labels_in, calls_in};

use ms_linear::{BoundedStack, Room};
use ms_types::ValType;
use std::alloc::{AllocError, Global};
use std::marker::Model;

/// The end of an open block or call: what a branch keeps, the number of values below, and where the work goes on.
#[derive(Clone, Copy)]
pub enum Mark {
    /// The end of a block.
    Label {
        /// The type of the operand that a branch to it keeps, if any.
        keeps: Option<ValType>,
        /// How many operands lie below the block.
        height: usize,
        /// The sequence in which the work goes on behind the block.
        sequence: usize,
        /// The place in it.
        next: usize,
        /// Whether a branch begins a loop again, which stands before that place.
        again: bool,
    },
    /// The end of a call.
    Activation {
        /// The type of its result, if any.
        keeps: Option<ValType>,
        /// How many operands lie below the call.
        height: usize,
        /// The caller's function, by its address.
        function: usize,
        /// The sequence in which the caller goes on.
        sequence: usize,
        /// The place in it.
        next: usize,
        /// How many locals of kept frames lie below the caller's.
        base: usize,
        /// How many marks there are up to that of the caller's call.
        floor: usize,
    },
}

/// The marks, the innermost first. It knows how many lie up to that of the current call, and how many calls there are.
#[derive(Drop)]
pub struct Marks {
    items: BoundedStack<Mark>,
    floor: usize,
    depth: usize,
}

impl Model for Marks {
    ghost use Rattle.std.specs.Prelude.{List, ◌≡◌};
    ghost use Rattle.ms_task.specs.declared.marks.Mark.{Mark as M};

    ghost Value = { List M };

    ghost use Rattle.ms_task.specs.refinement.Marks.{IsCounted};

    ghost view = { λ m. m.items };

    ghost invariant = { λ m. IsCounted m.items m.floor m.depth };
}

impl Marks {
    /// No marks, which will take their memory of a room. Takes none yet.
    pub fn new(alloc: Global, room: Room) -> Self
        ensures { result ≡ [] }
    {
        Marks {
            items: BoundedStack::new(alloc, room, size_of::<Mark>()),
            floor: 0,
            depth: 0,
        }
    }

    /// How many there are.
    pub fn len(&self) -> usize
        ensures { result ≡ length self.now }
    {
        self.items.len()
    }

    pub fn labels(&self) -> usize
        ensures { result ≡ labels_in self.now }
    {
        self.items.len() - self.floor
    }

    pub fn depth(&self) -> usize
        ensures { result ≡ calls_in self.now }
    {
        self.depth
    }

    pub fn is_empty(&self) -> bool
        ensures { IsTrue result ↔ (self.now ≡ []) }
    {
        self.items.len() == 0
    }

    pub fn push_label(
        &mut self,
        keeps: Option<ValType>,
        height: usize,
        sequence: usize,
        next: usize,
        again: bool,
    ) -> Result<(), AllocError>
        ensures ok { OnOk result (self.new ≡ Mark.Label keeps height sequence next again ∷ self.old) }
        ensures err { OnErr result (self.new ≡ self.old) }
    {
        self.items.push(Mark::Label {
            keeps,
            height,
            sequence,
            next,
            again,
        })
    }

    pub fn push_call(
        &mut self,
        keeps: Option<ValType>,
        height: usize,
        function: usize,
        sequence: usize,
        next: usize,
        base: usize,
    ) -> Result<(), AllocError>
        ensures ok { OnOk result ((floor : ℕ) × (self.new ≡ Mark.Activation keeps height function sequence next base floor ∷ self.old)) }
        ensures err { OnErr result (self.new ≡ self.old) }
    {
        let floor = self.floor;
        self.items.push(Mark::Activation {
            keeps,
            height,
            function,
            sequence,
            next,
            base,
            floor,
        })?;
        self.floor = self.items.len();
        self.depth += 1;
        Ok(())
    }

    pub fn pop(&mut self) -> Mark
        requires { 0 < length self.old }
        ensures { self.old ≡ result ∷ self.new }
    {
        let mark = self.items.pop();
        if let Mark::Activation { floor, .. } = mark {
            self.floor = floor;
            self.depth -= 1;
        }
        mark
    }

    /// The mark with so many inner ones.
    pub fn get(&self, n: usize) -> Mark
        requires { n < length self.now }
        ensures { slice_get self.now n ≡ Some result }
    {
        self.items.get(n)
    }

    /// Drops the innermost marks, which are of blocks.
    pub fn cut(&mut self, n: usize)
        requires { n ≤ labels_in self.old }
        ensures { self.new ≡ drop n self.old }
    {
        self.items.cut(n);
    }
}
