//! Instructions that are no blocks (WebAssembly 1.0, 6.5.2 to 6.5.6).

ghost use Rattle.std.specs.Prelude.{◌≡◌, ◌==◌, ◌||◌, length};
ghost use Rattle.ms_text_grammar.specs.declared.frame.Fresh.TheVariants as fresh;
ghost use Rattle.ms_text_grammar.specs.declared.surface.Plain.TheVariants as plain;
ghost use Rattle.ms_text_grammar.specs.Instructions.{behind, fresh_of, id_in, instruction, kind, kind_of, labels, labels_go, natural, next_label, number_in};
ghost use Rattle.ms_text_bodies.specs.refinement.Forms.{form_is};
ghost use Rattle.ms_text_parts.specs.refinement.Readers.{Reads};

use crate::lookup::keyword_of;
use ms_handle::Kind;
use ms_module::{Instr, Linear, Segment};
use ms_text_grammar::{Fresh, Index, Keyword, Plain, TextFault, Word};
use ms_text_lex::{Token, text_of};
use ms_text_parts::{
    Steps, Words, bad, constant_32, constant_64, index, is_keyword, mem_arg, next_is_index, number,
    run, unnamed_use,
};
use ms_types::Vector;
use std::alloc::Global;
use std::marker::Model;

/// Labels so far.
#[derive(Drop)]
struct LabelList {
    labels: Vector<Index>,
}

impl Model for LabelList {
    ghost use Rattle.std.specs.Prelude.{List};
    ghost use Rattle.ms_text_grammar.specs.declared.surface.Index.{Index};

    ghost Value = { List Index };

    ghost view = { λ l. l.labels };
}

impl Steps for LabelList {
    ghost going = { λ source ls s. labels_go source ls s };

    ghost step = { next_label };

    fn goes(&self, c: &Words) -> bool {
        self.labels.is_empty() || next_is_index(c)
    }

    #[tactic(auto, unfolding(ms_text_grammar::specs::Instructions::next_label))]
    fn step(self, c: &mut Words) -> Result<Self, TextFault> {
        let LabelList { mut labels } = self;
        let label = index(c)?;
        labels.push(label)?;
        Ok(LabelList { labels })
    }
}

/// Takes labels, one at least.
#[tactic(auto, unfolding(ms_text_grammar::specs::Instructions::labels))]
fn all_labels(alloc: Global, c: &mut Words) -> Result<Vector<Index>, TextFault>
    ensures { Reads c.old c.new result ((labels c.old.source).read (length c.old.source) c.old.left) }
{
    let first = LabelList {
        labels: Vector::new(alloc),
    };
    let LabelList { labels } = run(first, c)?;
    Ok(labels)
}

/// The kind of segments of a keyword.
fn kind_of(text: &[u8]) -> Option<Kind>
    ensures { result ≡ kind_of text.now }
{
    if text == Word::Heap.spelling() {
        return Some(Kind::Heap);
    }
    if text == Word::Frame.spelling() {
        return Some(Kind::Frame);
    }
    None
}

/// Takes a kind of segments.
#[tactic(auto, unfolding(ms_text_grammar::specs::Instructions::kind))]
fn take_kind(c: &mut Words) -> Result<Kind, TextFault>
    ensures { Reads c.old c.new result ((kind c.old.source).read (length c.old.source) c.old.left) }
{
    let [token, ..] = c.rest() else {
        return Err(bad(c));
    };
    let token = *token;
    if !is_keyword(token) {
        return Err(bad(c));
    }
    let Some(kind) = kind_of(text_of(c.source(), token)) else {
        return Err(bad(c));
    };
    c.skip();
    Ok(kind)
}

/// The exponent of the alignment of so many bytes.
fn natural(bytes: u32) -> u32
    ensures { result ≡ natural bytes }
{
    if bytes == 8 {
        return 3;
    }
    if bytes == 4 {
        return 2;
    }
    if bytes == 2 {
        return 1;
    }
    0
}

/// An instruction as it stands.
fn complete(instr: Instr) -> Fresh
    ensures { result ≡ fresh_of instr }
{
    Fresh::Plain(Plain::Instr { instr, id: None })
}

/// The number of an index, or 0 in place of an identifier.
fn number_in(index: Index) -> u32
    ensures { result ≡ number_in index }
{
    match index {
        Index::Number(n) => n,
        Index::Name(_) => 0,
    }
}

/// An instruction with this index, of which an identifier is kept.
fn with_id(instr: Instr, index: Index) -> Fresh
    ensures { result ≡ fresh.Plain (plain.Instr instr (id_in index)) }
{
    let id = match index {
        Index::Number(_) => None,
        Index::Name(id) => Some(id),
    };
    Fresh::Plain(Plain::Instr { instr, id })
}

/// Takes what stands behind a keyword.
#[tactic(auto, unfolding(ms_text_grammar::specs::Instructions::behind, ms_text_grammar::specs::Instructions::operands))]
fn behind(alloc: Global, keyword: Keyword, c: &mut Words) -> Result<Fresh, TextFault>
    ensures { Reads c.old c.new result ((behind c.old.source (form_is keyword)).read (length c.old.source) c.old.left) }
{
    match keyword {
        Keyword::Unreachable => Ok(complete(Instr::Unreachable)),
        Keyword::Nop => Ok(complete(Instr::Nop)),
        Keyword::Br => {
            let x = index(c)?;
            Ok(with_id(Instr::Br(number_in(x)), x))
        }
        Keyword::BrIf => {
            let x = index(c)?;
            Ok(with_id(Instr::BrIf(number_in(x)), x))
        }
        Keyword::BrTable => Ok(Fresh::Plain(Plain::BrTable(all_labels(alloc, c)?))),
        Keyword::Return => Ok(complete(Instr::Return)),
        Keyword::Call => {
            let x = index(c)?;
            Ok(with_id(Instr::Call(number_in(x)), x))
        }
        Keyword::CallIndirect => Ok(Fresh::Indirect(unnamed_use(alloc, c)?)),
        Keyword::Drop => Ok(complete(Instr::Drop)),
        Keyword::Select => Ok(complete(Instr::Select)),
        Keyword::LocalGet => {
            let x = index(c)?;
            Ok(with_id(Instr::LocalGet(number_in(x)), x))
        }
        Keyword::LocalSet => {
            let x = index(c)?;
            Ok(with_id(Instr::LocalSet(number_in(x)), x))
        }
        Keyword::LocalTee => {
            let x = index(c)?;
            Ok(with_id(Instr::LocalTee(number_in(x)), x))
        }
        Keyword::GlobalGet => {
            let x = index(c)?;
            Ok(with_id(Instr::GlobalGet(number_in(x)), x))
        }
        Keyword::GlobalSet => {
            let x = index(c)?;
            Ok(with_id(Instr::GlobalSet(number_in(x)), x))
        }
        Keyword::MemorySize => Ok(complete(Instr::Linear(Linear::Size))),
        Keyword::MemoryGrow => Ok(complete(Instr::Linear(Linear::Grow))),
        Keyword::I32Const => Ok(complete(Instr::I32Const(constant_32(c)?))),
        Keyword::I64Const => Ok(complete(Instr::I64Const(constant_64(c)?))),
        Keyword::Numeric(op) => Ok(complete(Instr::Numeric(op))),
        Keyword::Load(op) => {
            let arg = mem_arg(natural(op.bytes()), c)?;
            Ok(complete(Instr::Linear(Linear::Load(op, arg))))
        }
        Keyword::Store(op) => {
            let arg = mem_arg(natural(op.bytes()), c)?;
            Ok(complete(Instr::Linear(Linear::Store(op, arg))))
        }
        Keyword::HandleNull => Ok(complete(Instr::Segment(Segment::Null))),
        Keyword::SegmentNew => Ok(complete(Instr::Segment(Segment::New(take_kind(c)?)))),
        Keyword::SegmentFree => Ok(complete(Instr::Segment(Segment::Free(take_kind(c)?)))),
        Keyword::HandleAdd => Ok(complete(Instr::Segment(Segment::Add(number(c)?)))),
        Keyword::HandleSlice => Ok(complete(Instr::Segment(Segment::Slice))),
        Keyword::HandleEq => Ok(complete(Instr::Segment(Segment::Eq))),
        Keyword::HandleIsNull => Ok(complete(Instr::Segment(Segment::IsNull))),
        Keyword::HandleDiff => Ok(complete(Instr::Segment(Segment::Diff))),
        Keyword::HandleLoad => Ok(complete(Instr::Segment(Segment::LoadHandle))),
        Keyword::HandleStore => Ok(complete(Instr::Segment(Segment::StoreHandle))),
        Keyword::HandleSeal => Ok(complete(Instr::Segment(Segment::Seal))),
        Keyword::SegmentLoad(op) => Ok(complete(Instr::Segment(Segment::Load(op)))),
        Keyword::SegmentStore(op) => Ok(complete(Instr::Segment(Segment::Store(op)))),
    }
}

/// Takes an instruction that is no block.
#[tactic(auto, unfolding(ms_text_grammar::specs::Instructions::instruction))]
pub fn instruction(alloc: Global, c: &mut Words) -> Result<Fresh, TextFault>
    ensures { Reads c.old c.new result ((instruction c.old.source).read (length c.old.source) c.old.left) }
{
    let [token, ..] = c.rest() else {
        return Err(bad(c));
    };
    let token = *token;
    if !is_keyword(token) {
        return Err(bad(c));
    }
    let Some(keyword) = keyword_of(text_of(c.source(), token)) else {
        return Err(bad(c));
    };
    c.skip();
    behind(alloc, keyword, c)
}
