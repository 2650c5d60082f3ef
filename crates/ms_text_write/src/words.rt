//! The keywords of instructions and value types (WebAssembly 1.0, 6.5), as the one table of them has them.

ghost use Rattle.std.specs.Prelude.{◌≡◌, ◌++◌, OnOk, codes};
ghost use Rattle.ms_flat.specs.Keywords.{instr_word, linear_word, opening_word, segment_word, value_word};
ghost use Rattle.ms_text_write.specs.refinement.Words.{keyword_word};

use ms_module::BinOp::*;
use ms_module::LoadOp::*;
use ms_module::Numeric::*;
use ms_module::Opening::{self, Block, If, Loop};
use ms_module::RelOp::*;
use ms_module::StoreOp::*;
use ms_module::UnOp::*;
use ms_module::Width::{W32, W64};
use ms_module::{Instr, Linear, Segment};
use ms_text_grammar::Keyword::{self, *};
use ms_text_grammar::{keywords, opening_keywords, value_keywords, word_by_item};
use ms_types::ValType::{self, Handle, I32, I64};
use std::alloc::AllocError;

/// The keyword of a value type.
pub fn value_word(ty: ValType) -> &'static [u8]
    ensures { result.now ≡ value_word ty }
{
    value_keywords!(word_by_item ty)
}

/// The keyword that opens a block.
pub fn opening_word(opening: Opening) -> &'static [u8]
    ensures { result.now ≡ opening_word opening }
{
    opening_keywords!(word_by_item opening)
}

/// How a keyword of an instruction that is no block is written.
fn keyword_word(keyword: Keyword) -> &'static [u8]
    ensures { result.now ≡ keyword_word keyword }
{
    keywords!(word_by_item keyword)
}

/// The keyword of an instruction on the linear memory.
fn linear_word(instr: Linear) -> &'static [u8]
    ensures { result.now ≡ linear_word instr }
{
    match instr {
        Linear::Load(op, _) => keyword_word(Keyword::Load(op)),
        Linear::Store(op, _) => keyword_word(Keyword::Store(op)),
        Linear::Size => keyword_word(MemorySize),
        Linear::Grow => keyword_word(MemoryGrow),
    }
}

/// The keyword of an instruction on handles or segments.
fn segment_word(instr: Segment) -> &'static [u8]
    ensures { result.now ≡ segment_word instr }
{
    match instr {
        Segment::Null => keyword_word(HandleNull),
        Segment::New(_) => keyword_word(SegmentNew),
        Segment::Free(_) => keyword_word(SegmentFree),
        Segment::Add(_) => keyword_word(HandleAdd),
        Segment::Slice => keyword_word(HandleSlice),
        Segment::Eq => keyword_word(HandleEq),
        Segment::IsNull => keyword_word(HandleIsNull),
        Segment::Diff => keyword_word(HandleDiff),
        Segment::LoadHandle => keyword_word(HandleLoad),
        Segment::StoreHandle => keyword_word(HandleStore),
        Segment::Load(op) => keyword_word(SegmentLoad(op)),
        Segment::Store(op) => keyword_word(SegmentStore(op)),
        Segment::Seal => keyword_word(HandleSeal),
    }
}

/// The keyword of an instruction.
fn instr_word(instr: &Instr) -> &'static [u8]
    ensures { result.now ≡ instr_word instr.now }
{
    match instr {
        Instr::Unreachable => keyword_word(Unreachable),
        Instr::Nop => keyword_word(Nop),
        Instr::Block { .. } => opening_word(Block),
        Instr::Loop { .. } => opening_word(Loop),
        Instr::If { .. } => opening_word(If),
        Instr::Br(_) => keyword_word(Br),
        Instr::BrIf(_) => keyword_word(BrIf),
        Instr::BrTable(_) => keyword_word(BrTable),
        Instr::Return => keyword_word(Return),
        Instr::Call(_) => keyword_word(Call),
        Instr::CallIndirect(_) => keyword_word(CallIndirect),
        Instr::Drop => keyword_word(Drop),
        Instr::Select => keyword_word(Select),
        Instr::LocalGet(_) => keyword_word(LocalGet),
        Instr::LocalSet(_) => keyword_word(LocalSet),
        Instr::LocalTee(_) => keyword_word(LocalTee),
        Instr::GlobalGet(_) => keyword_word(GlobalGet),
        Instr::GlobalSet(_) => keyword_word(GlobalSet),
        Instr::I32Const(_) => keyword_word(I32Const),
        Instr::I64Const(_) => keyword_word(I64Const),
        Instr::Numeric(op) => keyword_word(Keyword::Numeric(*op)),
        Instr::Linear(instr) => linear_word(*instr),
        Instr::Segment(instr) => segment_word(*instr),
    }
}

/// Writes the keyword of an instruction.
pub fn write_keyword(instr: &Instr, out: &mut Vec<u8>) -> Result<(), AllocError>
    ensures { OnOk result (out.new.items ≡ out.old.items ++ instr_word instr.now) }
{
    out.extend_from_slice(instr_word(instr))
}
