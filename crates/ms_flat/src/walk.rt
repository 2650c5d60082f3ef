//! A body item by item, in the order in which it is written.

ghost use Rattle.std.specs.Prelude.{◌≡◌, IfOk, OnErr};
ghost use Rattle.ms_module.specs.Building.{IsNumbered};
ghost use Rattle.ms_flat.specs.Flat.{flat};
ghost use Rattle.ms_flat.specs.refinement.Places.{Goes, block_of};

use ms_module::{Code, Instr, Opening};
use ms_types::{Stack, ValType};
use std::alloc::{AllocError, Global};
use std::marker::Model;

/// An item of a body, in the order in which it is written.
#[derive(Clone, Copy)]
pub enum Step<'a> {
    /// An instruction that is no block.
    Plain(&'a Instr),
    /// A block begins, which leaves a value of this type, if any.
    Begin {
        opening: Opening,
        ty: Option<ValType>,
    },
    /// The else arm of the innermost open block begins.
    Else,
    /// The innermost open block ends.
    End,
}

/// A place in a body, behind the first `next` instructions of a sequence.
#[derive(Clone, Copy)]
pub struct Place {
    /// The number of the sequence.
    pub sequence: u32,
    /// How many of its instructions stand before the place.
    pub next: usize,
    /// The number of the else arm that follows the sequence, if one does.
    pub other: Option<u32>,
}

/// A block, by the numbers of its sequences.
#[derive(Clone, Copy)]
pub struct Block {
    /// What opens it.
    pub opening: Opening,
    /// The type of its result, if it has one.
    pub ty: Option<ValType>,
    /// The number of its first sequence.
    pub first: u32,
    /// The number of its else arm, if it has one.
    pub other: Option<u32>,
}

/// The block that an instruction is.
fn block_of(instr: &Instr) -> Option<Block>
    ensures { result ≡ block_of instr.now }
{
    match *instr {
        Instr::Block { ty, body } => Some(Block {
            opening: Opening::Block,
            ty,
            first: body,
            other: None,
        }),
        Instr::Loop { ty, body } => Some(Block {
            opening: Opening::Loop,
            ty,
            first: body,
            other: None,
        }),
        Instr::If { ty, then, other } => Some(Block {
            opening: Opening::If,
            ty,
            first: then,
            other,
        }),
        _ => None,
    }
}

/// The beginning of a sequence, which an else arm may follow.
fn start(sequence: u32, other: Option<u32>) -> Place
    ensures { result ≡ record { sequence = sequence; next = 0; other = other } }
{
    Place {
        sequence,
        next: 0,
        other,
    }
}

/// Goes through a body from left to right, without recursion. Contracts see the items that are left.
#[derive(Drop)]
pub struct Walk<'a> {
    code: &'a Code,
    at: Place,
    around: Stack<Place>,
}

impl<'a> Model for Walk<'a> {
    ghost use Rattle.std.specs.Prelude.{List, ◌<◌, length};
    ghost use Rattle.ms_module.specs.Building.{IsNumbered};
    ghost use Rattle.ms_flat.specs.Flat.{Item};
    ghost use Rattle.ms_flat.specs.refinement.Places.{AllWithin, Within, left};

    ghost Value = { List Item };

    ghost view = { λ w. left w.code.now w.at w.around };

    ghost invariant = { λ w. IsNumbered w.code.now × Within (length w.code.now) w.at × AllWithin (length w.code.now) w.around };
}

impl<'a> Walk<'a> {
    /// The beginning of a body. Takes no memory.
    pub fn new(alloc: Global, code: &'a Code) -> Self
        ensures flat { result ≡ flat code.now }
        ensures numbered { IsNumbered code.now }
    {
        let _some = code.len();
        Walk {
            code,
            at: start(0, None),
            around: Stack::new(alloc),
        }
    }

    /// The next item; `None` exactly at the end. After an error nothing has changed.
    pub fn next(&mut self) -> Result<Option<Step<'a>>, AllocError>
        ensures ok { IfOk result (λ step. Goes step self.old self.new) }
        ensures err { OnErr result (self.new ≡ self.old) }
    {
        let code = self.code;
        let Place {
            sequence,
            next,
            other,
        } = self.at;
        let Some(instr) = code.sequence(sequence as usize).get(next) else {
            if let Some(second) = other {
                self.at = start(second, None);
                return Ok(Some(Step::Else));
            }
            if self.around.len() == 0 {
                return Ok(None);
            }
            self.at = self.around.pop();
            return Ok(Some(Step::End));
        };
        let behind = Place {
            sequence,
            next: next + 1,
            other,
        };
        match block_of(instr) {
            Some(block) => {
                self.around.push(behind)?;
                self.at = start(block.first, block.other);
                Ok(Some(Step::Begin {
                    opening: block.opening,
                    ty: block.ty,
                }))
            }
            None => {
                self.at = behind;
                Ok(Some(Step::Plain(instr)))
            }
        }
    }
}
