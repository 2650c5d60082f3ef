//! Building a body from left to right (WebAssembly 1.0, 5.4.1).

ghost use Rattle.std.specs.Prelude.{◌≡◌, ◌+◌, ◌<◌, ◌∷◌, List, length, reverse, drop, true, IfOk, OnOk, OnErr};
ghost use Rattle.std.specs.Vec.{vec_capacity, vec_len};
ghost use Rattle.ms_module.specs.Building.{begun, closed, current, first_state, in_second, is_after_else, may_else, placed, put, after_else, whole};
ghost use Rattle.ms_module.specs.Numbered.{IsPlain};

use crate::code::Code;
use crate::instr::Instr;
use ms_types::{ValType, Vector};
use std::alloc::{AllocError, Global};
use std::marker::Model;

/// What opens a block (WebAssembly 1.0, 2.4.5).
#[derive(Clone, Copy, PartialEq, Eq)]
pub enum Opening {
    /// `block`.
    Block,
    /// `loop`.
    Loop,
    /// `if`.
    If,
}

/// Where an open block stands.
#[derive(Clone, Copy, PartialEq, Eq)]
pub enum Arm {
    /// In its first sequence.
    First(Opening),
    /// Behind the `else` of an `if`, before the first instruction there.
    AfterElse,
    /// In the second sequence of an `if`, whose first one has this number.
    Second(u32),
}

/// A block that is still open.
#[derive(Clone, Copy, PartialEq, Eq)]
pub struct Open {
    /// Where it stands.
    pub arm: Arm,
    /// The type of its result, if it has one.
    pub ty: Option<ValType>,
    /// The number of its latest sequence.
    pub seq: u32,
}

impl Open {
    /// The block once it has ended.
    fn whole(self) -> Instr
        ensures { result ≡ whole self.arm self.ty self.seq }
    {
        let Open { arm, ty, seq } = self;
        match arm {
            Arm::First(Opening::Block) => Instr::Block { ty, body: seq },
            Arm::First(Opening::Loop) => Instr::Loop { ty, body: seq },
            Arm::First(Opening::If) | Arm::AfterElse => Instr::If {
                ty,
                then: seq,
                other: None,
            },
            Arm::Second(before) => Instr::If {
                ty,
                then: before,
                other: Some(seq),
            },
        }
    }
}

/// A body that is being built: its open blocks, and the sequences that have begun, at most 2^32. Contracts see both.
#[derive(Drop)]
pub struct Builder {
    blocks: Vec<Open>,
    sequences: Vec<Vector<Instr>>,
    alloc: Global,
}

impl Model for Builder {
    ghost use Rattle.std.specs.Prelude.{reverse};
    ghost use Rattle.ms_module.specs.Building.{Builds, State};

    ghost Value = { State };

    ghost view = { λ b. record { blocks = reverse b.blocks.items; seqs = b.sequences.items } };

    ghost invariant = { λ b. Builds (record { blocks = reverse b.blocks.items; seqs = b.sequences.items }) };
}

impl Builder {
    /// No open block, and the body's own sequence with nothing in it.
    pub fn new(alloc: Global) -> Result<Self, AllocError>
        ensures { IfOk result (λ b. b ≡ first_state) }
    {
        let mut sequences = Vec::new(alloc);
        sequences.push(Vector::new(alloc))?;
        Ok(Builder {
            blocks: Vec::new(alloc),
            sequences,
            alloc,
        })
    }

    /// How many blocks are open.
    pub fn depth(&self) -> usize
        ensures { result ≡ length self.now.blocks }
    {
        self.blocks.len()
    }

    /// Whether an `else` may come: the innermost open block stands in the first sequence of an `if`.
    pub fn may_else(&self) -> bool
        ensures { result ≡ may_else self.now.blocks }
    {
        match self.blocks.last() {
            Some(open) => matches!(open.arm, Arm::First(Opening::If)),
            None => false,
        }
    }

    /// Adds an instruction that is no block. After an error nothing has changed.
    pub fn add(&mut self, instr: Instr) -> Result<(), AllocError>
        requires { IsPlain instr }
        ensures ok { OnOk result (self.new ≡ placed self.old instr) }
        ensures err { OnErr result (self.new ≡ self.old) }
    {
        if self.is_after_else() {
            let seq = self.next()?;
            let mut instrs = Vector::new(self.alloc);
            instrs.push(instr)?;
            self.sequences.push(instrs)?;
            enter_second(&mut self.blocks, seq);
            return Ok(());
        }
        let current = current(&self.blocks);
        put_at(&mut self.sequences, current, instr)?;
        Ok(())
    }

    /// Opens a block. After an error nothing has changed.
    pub fn open(&mut self, opening: Opening, ty: Option<ValType>) -> Result<(), AllocError>
        ensures ok { OnOk result (self.new ≡ begun self.old opening ty) }
        ensures err { OnErr result (self.new ≡ self.old) }
    {
        let after_else = self.is_after_else();
        let second = self.next()?;
        let Some(seq) = second.checked_add(after_else as u32) else {
            return Err(AllocError);
        };
        self.blocks.reserve(1)?;
        self.sequences.reserve(2)?;
        if after_else {
            enter_second(&mut self.blocks, second);
            self.sequences.push_reserved(Vector::new(self.alloc));
        }
        self.blocks.push_reserved(Open {
            arm: Arm::First(opening),
            ty,
            seq,
        });
        self.sequences.push_reserved(Vector::new(self.alloc));
        Ok(())
    }

    /// Begins the else arm of the innermost block. Where no instruction follows, there is none. Takes no memory.
    pub fn begin_else(&mut self)
        requires { may_else self.old.blocks ≡ true }
        ensures { self.new ≡ after_else self.old }
    {
        let last = self.blocks.len() - 1;
        let Open { arm: _, ty, seq } = self.blocks[last];
        self.blocks[last] = Open {
            arm: Arm::AfterElse,
            ty,
            seq,
        };
        give_back(&mut self.sequences, seq);
    }

    /// Ends the innermost block. After an error nothing has changed.
    pub fn close(&mut self) -> Result<(), AllocError>
        requires { 0 < length self.old.blocks }
        ensures ok { OnOk result (self.new ≡ closed self.old) }
        ensures err { OnErr result (self.new ≡ self.old) }
    {
        let last = self.blocks.len() - 1;
        let around = current(&self.blocks[..last]);
        put_at(&mut self.sequences, around, self.blocks[last].whole())?;
        give_back(&mut self.sequences, self.blocks[last].seq);
        self.blocks.truncate(last);
        Ok(())
    }

    /// The body, which is complete where no block is open. Takes no memory.
    pub fn finish(self) -> Code
        requires { length self.blocks ≡ 0 }
        ensures { result ≡ self.seqs }
    {
        let Builder {
            blocks: _,
            mut sequences,
            alloc: _,
        } = self;
        give_back(&mut sequences, 0);
        sequences.shrink_to_fit();
        Code::new(Vector::from_vec(sequences))
    }

    /// Whether the innermost block stands behind an `else`, before the first instruction there.
    fn is_after_else(&self) -> bool
        ensures { result ≡ is_after_else self.now.blocks }
    {
        match self.blocks.last() {
            Some(open) => matches!(open.arm, Arm::AfterElse),
            None => false,
        }
    }

    /// The number of the next sequence.
    fn next(&self) -> Result<u32, AllocError>
        ensures { IfOk result (λ n. n ≡ length self.now.seqs) }
    {
        u32::try_from(self.sequences.len()).map_err(|_| AllocError)
    }
}

/// The number of the sequence to which instructions go, within these blocks, the innermost last.
fn current(blocks: &[Open]) -> usize
    ensures { result ≡ current (reverse blocks.now) }
{
    match blocks.last() {
        Some(open) => open.seq as usize,
        None => 0,
    }
}

/// Adds an instruction to the sequence of this number. After an error nothing has changed.
fn put_at(sequences: &mut Vec<Vector<Instr>>, number: usize, instr: Instr) -> Result<(), AllocError>
    requires { number < length sequences.old.items }
    ensures ok { OnOk result (sequences.new.items ≡ put sequences.old.items number instr) }
    ensures err { OnErr result (sequences.new.items ≡ sequences.old.items) }
{
    let sequence = &mut sequences[number];
    sequence.push(instr)?;
    Ok(())
}

/// Gives back the room that the sequence of this number, if there is one, has kept for more instructions.
fn give_back(sequences: &mut Vec<Vector<Instr>>, number: u32)
    ensures { sequences.new.items ≡ sequences.old.items }
{
    if let Some(sequence) = sequences.get_mut(number as usize) {
        sequence.shrink_to_fit();
    }
}

/// The innermost block goes on in its second sequence, which has this number.
fn enter_second(blocks: &mut Vec<Open>, number: u32)
    requires { 0 < length blocks.old.items }
    ensures blocks { reverse blocks.new.items ≡ in_second number (reverse blocks.old.items) }
    ensures len { vec_len blocks.new ≡ vec_len blocks.old }
    ensures capacity { vec_capacity blocks.new ≡ vec_capacity blocks.old }
{
    let last = blocks.len() - 1;
    let Open { arm: _, ty, seq } = blocks[last];
    blocks[last] = Open {
        arm: Arm::Second(seq),
        ty,
        seq: number,
    };
}
