//! Reading bodies (WebAssembly 1.0, 5.4.1 and 5.4.6), an opcode with what stands behind it at a time.

ghost use Rattle.std.specs.Prelude.{◌≡◌, length};
ghost use Rattle.ms_bytes.specs.Codes.{case_at};
ghost use Rattle.ms_module.specs.Numbered.{IsPlain};
ghost use Rattle.ms_bin_grammar.specs.Body.{body, goes_on, opens, advance, advance_codes};
ghost use Rattle.ms_bin_grammar.specs.Bounds.{usual};
ghost use Rattle.ms_bin_read.specs.refinement.Readers.{Reads, StepsTo};

use crate::instrs::plain_of;
use crate::items::{byte_of, marks_of};
use crate::steps::{Steps, run};
use crate::types::block_type_of;
use ms_bin_grammar::{Counted, ReadFault, opcodes};
use ms_bytes::Cursor;
use ms_module::{Builder, Code, ELSE_CODE, END_CODE, MOST_BLOCKS, Opening};
use std::alloc::Global;

/// Opens a block, behind its opcode at `at`.
fn open(b: &mut Builder, at: usize, opening: Opening, c: &mut Cursor) -> Result<(), ReadFault>
    ensures { StepsTo b.new c.old c.new result (case_at at (opens usual.blocks b.old opening) c.old.end c.old.left) }
{
    if b.depth() >= MOST_BLOCKS {
        return Err(ReadFault::Limit {
            which: Counted::Blocks,
            at,
        });
    }
    let ty = block_type_of(c)?;
    b.open(opening, ty)?;
    Ok(())
}

/// Reads what is behind an opcode at `at`.
#[tactic(auto, unfolding(ms_bin_grammar::specs::Body::advance_codes, ms_bin_grammar::specs::Body::block_rows, ms_module::specs::Instructions::opening_rows))]
fn advance_on(
    alloc: Global,
    b: &mut Builder,
    at: usize,
    code: u8,
    c: &mut Cursor,
) -> Result<(), ReadFault>
    ensures { StepsTo b.new c.old c.new result ((advance_codes usual.blocks b.old).read at code c.old.end c.old.left) }
{
    match code {
        opcodes::BLOCK => open(b, at, Opening::Block, c),
        opcodes::LOOP => open(b, at, Opening::Loop, c),
        opcodes::IF => open(b, at, Opening::If, c),
        ELSE_CODE => {
            if !b.may_else() {
                return Err(ReadFault::Malformed { at });
            }
            b.begin_else();
            Ok(())
        }
        END_CODE => {
            if b.depth() == 0 {
                return Err(ReadFault::Malformed { at });
            }
            b.close()?;
            Ok(())
        }
        _ => {
            let instr = plain_of(alloc, at, code, c)?;
            b.add(instr)?;
            Ok(())
        }
    }
}

impl Steps for Builder {
    ghost going = { goes_on };

    ghost step = { advance usual.blocks };

    fn goes(&self, c: &Cursor) -> bool {
        self.depth() > 0 || !c.next_is(END_CODE)
    }

    #[tactic(auto, unfolding(ms_bin_grammar::specs::Body::advance))]
    fn step(&mut self, alloc: Global, c: &mut Cursor) -> Result<(), ReadFault> {
        let at = c.at();
        let code = byte_of(c)?;
        advance_on(alloc, self, at, code, c)
    }
}

/// Reads the instructions of a body or of a constant expression, up to its `end`.
#[tactic(auto, unfolding(ms_bin_grammar::specs::Body::body))]
pub fn body_of(alloc: Global, c: &mut Cursor) -> Result<Code, ReadFault>
    ensures { Reads c.old c.new result ((body usual.blocks).read c.old.end c.old.left) }
{
    let first = Builder::new(alloc)?;
    let built = run(alloc, first, c)?;
    marks_of(&[END_CODE], c)?;
    Ok(built.finish())
}
