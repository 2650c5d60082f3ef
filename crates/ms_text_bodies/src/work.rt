//! The state of a body that is being read.

ghost use Rattle.std.specs.Prelude.{◌≡◌, ◌==◌, ◌∷◌, [], length, IfOk, OnOk};
ghost use Rattle.ms_text_grammar.specs.Bodies.{body_of};
ghost use Rattle.ms_text_grammar.specs.Advances.{begun, ended, first_state, framed, given, plain_of, after_else, uses_with, with_uses};
ghost use Rattle.ms_text_bodies.specs.refinement.Frames.{Leaves};

use ms_module::Opening;
use ms_text_grammar::{Body, Frame, Fresh, Op, Plain, TypeUse};
use ms_text_lex::Token;
use ms_types::{Stack, ValType, Vector};
use std::alloc::{AllocError, Global};
use std::marker::Model;

/// What is open in a body, how many blocks are, and the type uses and instructions so far.
#[derive(Drop)]
pub struct Work {
    frames: Stack<Frame>,
    blocks: usize,
    uses: Vector<TypeUse>,
    ops: Vector<Op>,
    alloc: Global,
}

impl Model for Work {
    ghost use Rattle.ms_text_grammar.specs.Advances.{State};

    ghost Value = { State };

    ghost view = { λ w. record { frames = w.frames; blocks = w.blocks; uses = w.uses; ops = w.ops } };
}

impl Work {
    /// Nothing is open, and nothing was read. Takes no memory.
    pub fn new(alloc: Global) -> Self
        ensures { result ≡ first_state }
    {
        Work {
            frames: Stack::new(alloc),
            blocks: 0,
            uses: Vector::new(alloc),
            ops: Vector::new(alloc),
            alloc,
        }
    }

    /// What was read.
    pub fn finish(self) -> Body
        ensures { result ≡ body_of self }
    {
        let Work {
            frames: _,
            blocks: _,
            uses,
            ops,
            alloc: _,
        } = self;
        Body { uses, ops }
    }

    /// Where memory is taken.
    pub fn alloc(&self) -> Global {
        self.alloc
    }

    /// How many blocks are open.
    pub fn blocks(&self) -> usize
        ensures { result ≡ self.now.blocks }
    {
        self.blocks
    }

    /// Whether nothing is open.
    pub fn is_closed(&self) -> bool
        ensures { result ≡ (length self.now.frames == 0) }
    {
        self.frames.len() == 0
    }

    /// Leaves the innermost frame.
    pub fn leave(&mut self) -> Option<Frame>
        ensures { Leaves result self.old self.new }
    {
        if self.frames.len() == 0 {
            return None;
        }
        Some(self.frames.pop())
    }

    /// A frame on top of the others.
    pub fn enter(&mut self, frame: Frame) -> Result<(), AllocError>
        ensures { OnOk result (self.new ≡ framed (frame ∷ self.old.frames) self.old) }
    {
        self.frames.push(frame)
    }

    /// One instruction more, which is no block.
    pub fn give(&mut self, plain: Plain) -> Result<(), AllocError>
        ensures { OnOk result (self.new ≡ given self.old.frames plain self.old) }
    {
        self.ops.push(Op::Plain(plain))?;
        Ok(())
    }

    /// An instruction with the number of its type use, which is added to the others.
    pub fn number(&mut self, fresh: Fresh) -> Result<Plain, AllocError>
        ensures plain { IfOk result (λ p. p ≡ plain_of self.old.uses fresh) }
        ensures uses { OnOk result (self.new ≡ with_uses fresh self.old) }
    {
        match fresh {
            Fresh::Plain(plain) => Ok(plain),
            Fresh::Indirect(sig) => {
                let Ok(number) = u32::try_from(self.uses.len()) else {
                    return Err(AllocError);
                };
                self.uses.push(sig)?;
                Ok(Plain::CallIndirect(number))
            }
        }
    }

    /// A block begins.
    pub fn begin(
        &mut self,
        opening: Opening,
        label: Option<Token>,
        ty: Option<ValType>,
    ) -> Result<(), AllocError>
        ensures { OnOk result (self.new ≡ begun self.old.frames opening label ty self.old) }
    {
        let Some(blocks) = self.blocks.checked_add(1) else {
            return Err(AllocError);
        };
        self.blocks = blocks;
        self.ops.push(Op::Begin { opening, label, ty })?;
        Ok(())
    }

    /// A block turns to its else arm.
    pub fn begin_else(&mut self) -> Result<(), AllocError>
        ensures { OnOk result (self.new ≡ after_else self.old.frames self.old) }
    {
        self.ops.push(Op::Else)?;
        Ok(())
    }

    /// A block ends.
    pub fn end(&mut self) -> Result<(), AllocError>
        ensures { OnOk result (self.new ≡ ended self.old.frames self.old) }
    {
        self.blocks = self.blocks.saturating_sub(1);
        self.ops.push(Op::End)?;
        Ok(())
    }
}
