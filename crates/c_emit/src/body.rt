//! A body that is being built (`ms_module`), with room for so many instructions.

ghost use Rattle.std.specs.Prelude.{◌≡◌, ◌<◌, length, true, IfOk, OnOk};
ghost use Rattle.ms_module.specs.Building.{after_else, begun, closed, first_state, may_else, placed};
ghost use Rattle.ms_module.specs.Numbered.{IsPlain};

use ms_module::{Builder, Code, Instr, Opening};
use ms_types::ValType;
use std::alloc::{AllocError, Global};
use std::marker::Model;

/// A body, and how many instructions it may still have: past these it is want of memory, so that none grows far beyond what its module
/// may have. Contracts see the body.
#[derive(Drop)]
pub struct Body {
    builder: Builder,
    room: u32,
}

impl Model for Body {
    ghost use Rattle.ms_module.specs.Building.{State};

    ghost Value = { State };

    ghost view = { λ b. b.builder };
}

impl Body {
    /// A body in which nothing stands, of at most so many instructions.
    pub fn new(alloc: Global, room: u32) -> Result<Self, AllocError>
        ensures { IfOk result (λ b. b ≡ first_state) }
    {
        Ok(Body {
            builder: Builder::new(alloc)?,
            room,
        })
    }

    /// How many blocks are open.
    pub fn depth(&self) -> usize
        ensures { result ≡ length self.now.blocks }
    {
        self.builder.depth()
    }

    /// Takes room for an instruction.
    fn take_room(&mut self) -> Result<(), AllocError>
        ensures { self.new ≡ self.old }
    {
        match self.room.checked_sub(1) {
            Some(room) => {
                self.room = room;
                Ok(())
            }
            None => Err(AllocError),
        }
    }

    /// Adds an instruction that is no block.
    pub fn add(&mut self, instr: Instr) -> Result<(), AllocError>
        requires { IsPlain instr }
        ensures { OnOk result (self.new ≡ placed self.old instr) }
    {
        self.take_room()?;
        self.builder.add(instr)
    }

    /// Opens a block.
    pub fn open(&mut self, opening: Opening, ty: Option<ValType>) -> Result<(), AllocError>
        ensures { OnOk result (self.new ≡ begun self.old opening ty) }
    {
        self.take_room()?;
        self.builder.open(opening, ty)
    }

    /// Begins the else arm of the innermost block.
    pub fn begin_else(&mut self)
        requires { may_else self.old.blocks ≡ true }
        ensures { self.new ≡ after_else self.old }
    {
        self.builder.begin_else();
    }

    /// Ends the innermost block.
    pub fn close(&mut self) -> Result<(), AllocError>
        requires { 0 < length self.old.blocks }
        ensures { OnOk result (self.new ≡ closed self.old) }
    {
        self.builder.close()
    }

    /// The body's code, which is complete where no block is open.
    pub fn finish(self) -> Code
        requires { length self.blocks ≡ 0 }
        ensures { result ≡ self.seqs }
    {
        let Body { builder, room: _ } = self;
        builder.finish()
    }
}
