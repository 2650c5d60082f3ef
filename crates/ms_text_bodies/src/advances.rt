//! Turns of a body: flat and folded instructions (WebAssembly 1.0, 6.5.1, 6.5.2 and 6.5.7).

ghost use Rattle.std.specs.Prelude.{◌≡◌, ◌∷◌, length};
ghost use Rattle.ms_module.specs.Instructions.{else_word, end_word};
ghost use Rattle.ms_text_grammar.specs.Bounds.{usual};
ghost use Rattle.ms_text_grammar.specs.Advances.{closed, condition, condition_on, else_arm, ended, flat_block, flat_else, flat_plain, folded, folded_block, folded_on, folded_plain, framed, given, instructions, marked, sign_of, advance_on};
ghost use Rattle.ms_text_parts.specs.refinement.Readers.{StepsTo};

use crate::heads::{heading, repeated, sign_of};
use crate::instructions::instruction;
use crate::work::Work;
use ms_module::Opening;
use ms_text_grammar::{ELSE_WORD, END_WORD, Frame, Plain, Sign, TextFault, Word};
use ms_text_lex::Token;
use ms_text_parts::{Words, bad, closing, keyword, opening, the};
use ms_types::ValType;

/// Takes the head of a flat block.
#[tactic(auto, unfolding(ms_text_grammar::specs::Advances::flat_block))]
fn flat_block(w: &mut Work, opening: Opening, c: &mut Words) -> Result<(), TextFault>
    ensures { StepsTo w.new c.old c.new result ((flat_block c.old.source usual.blocks w.old opening).read (length c.old.source) c.old.left) }
{
    let (label, ty) = heading(w.blocks(), c)?;
    w.enter(Frame::Flat {
        label,
        may_else: matches!(opening, Opening::If),
    })?;
    w.begin(opening, label, ty)?;
    Ok(())
}

/// Takes an instruction that is no block.
#[tactic(auto, unfolding(ms_text_grammar::specs::Advances::flat_plain))]
fn flat_plain(w: &mut Work, c: &mut Words) -> Result<(), TextFault>
    ensures { StepsTo w.new c.old c.new result ((flat_plain c.old.source usual.blocks w.old).read (length c.old.source) c.old.left) }
{
    let fresh = instruction(w.alloc(), c)?;
    let plain = w.number(fresh)?;
    w.give(plain)?;
    Ok(())
}

/// Takes the head of a folded block.
#[tactic(auto, unfolding(ms_text_grammar::specs::Advances::folded_block))]
fn folded_block(w: &mut Work, opening: Opening, c: &mut Words) -> Result<(), TextFault>
    ensures { StepsTo w.new c.old c.new result ((folded_block c.old.source usual.blocks w.old opening).read (length c.old.source) c.old.left) }
{
    let (label, ty) = heading(w.blocks(), c)?;
    if matches!(opening, Opening::If) {
        w.enter(Frame::Condition { label, ty })?;
        return Ok(());
    }
    w.enter(Frame::Folded)?;
    w.begin(opening, label, ty)?;
    Ok(())
}

/// Takes the keyword of a folded instruction, and what belongs to it.
#[tactic(auto, unfolding(ms_text_grammar::specs::Advances::folded_plain))]
fn folded_plain(w: &mut Work, c: &mut Words) -> Result<(), TextFault>
    ensures { StepsTo w.new c.old c.new result ((folded_plain c.old.source usual.blocks w.old).read (length c.old.source) c.old.left) }
{
    let fresh = instruction(w.alloc(), c)?;
    let plain = w.number(fresh)?;
    w.enter(Frame::Operands(plain))?;
    Ok(())
}

/// Takes what stands behind the parenthesis of a folded instruction.
#[tactic(auto, unfolding(ms_text_grammar::specs::Advances::folded_on))]
fn folded_on(w: &mut Work, sign: Sign, c: &mut Words) -> Result<(), TextFault>
    ensures { StepsTo w.new c.old c.new result ((folded_on c.old.source usual.blocks w.old sign).read (length c.old.source) c.old.left) }
{
    match sign {
        Sign::Heads(opening) => folded_block(w, opening, c),
        _ => folded_plain(w, c),
    }
}

/// Takes a parenthesis and what stands behind it.
#[tactic(auto, unfolding(ms_text_grammar::specs::Advances::folded))]
pub fn folded(w: &mut Work, c: &mut Words) -> Result<(), TextFault>
    ensures { StepsTo w.new c.old c.new result ((folded c.old.source usual.blocks w.old).read (length c.old.source) c.old.left) }
{
    opening(c)?;
    let sign = sign_of(c);
    folded_on(w, sign, c)
}

/// Takes what stands behind a parenthesis in a folded `if` whose arms have not begun; its frame has been left.
#[tactic(auto, unfolding(ms_text_grammar::specs::Advances::condition_on))]
fn condition_on(
    w: &mut Work,
    label: Option<Token>,
    ty: Option<ValType>,
    sign: Sign,
    c: &mut Words,
) -> Result<(), TextFault>
    ensures { StepsTo w.new c.old c.new result ((condition_on c.old.source usual.blocks label ty w.old.frames (framed (Frame.Condition label ty ∷ w.old.frames) w.old) sign).read (length c.old.source) c.old.left) }
{
    match sign {
        Sign::Thens => {
            the(Word::Then, c)?;
            w.enter(Frame::Then)?;
            w.enter(Frame::Arm)?;
            w.begin(Opening::If, label, ty)?;
            Ok(())
        }
        _ => {
            w.enter(Frame::Condition { label, ty })?;
            folded_on(w, sign, c)
        }
    }
}

/// Takes a parenthesis in a folded `if` whose arms have not begun, and what stands behind it; its frame has been left.
#[tactic(auto, unfolding(ms_text_grammar::specs::Advances::condition))]
fn condition(
    w: &mut Work,
    label: Option<Token>,
    ty: Option<ValType>,
    c: &mut Words,
) -> Result<(), TextFault>
    ensures { StepsTo w.new c.old c.new result ((condition c.old.source usual.blocks label ty w.old.frames (framed (Frame.Condition label ty ∷ w.old.frames) w.old)).read (length c.old.source) c.old.left) }
{
    opening(c)?;
    let sign = sign_of(c);
    condition_on(w, label, ty, sign, c)
}

/// Takes the beginning of an else arm behind a `then`, whose frame has been left.
#[tactic(auto, unfolding(ms_text_grammar::specs::Advances::else_arm))]
fn else_arm(w: &mut Work, c: &mut Words) -> Result<(), TextFault>
    ensures { StepsTo w.new c.old c.new result ((else_arm c.old.source usual.blocks w.old.frames (framed (Frame.Then ∷ w.old.frames) w.old)).read (length c.old.source) c.old.left) }
{
    opening(c)?;
    keyword(ELSE_WORD, c)?;
    w.enter(Frame::Other)?;
    w.enter(Frame::Arm)?;
    w.begin_else()?;
    Ok(())
}

/// Takes the end of a flat block, whose frame has been left.
#[tactic(auto, unfolding(ms_text_grammar::specs::Advances::marked))]
fn flat_end(w: &mut Work, label: Option<Token>, c: &mut Words) -> Result<(), TextFault>
    ensures { StepsTo w.new c.old c.new result ((marked c.old.source usual.blocks end_word label (ended w.old.frames w.old)).read (length c.old.source) c.old.left) }
{
    keyword(END_WORD, c)?;
    repeated(label, c)?;
    w.end()?;
    Ok(())
}

/// Takes the beginning of a flat else arm; the frame of its block has been left.
#[tactic(auto, unfolding(ms_text_grammar::specs::Advances::flat_else, ms_text_grammar::specs::Advances::marked))]
fn flat_else(w: &mut Work, label: Option<Token>, may: bool, c: &mut Words) -> Result<(), TextFault>
    ensures { StepsTo w.new c.old c.new result ((flat_else c.old.source usual.blocks label may w.old.frames (framed (Frame.Flat label may ∷ w.old.frames) w.old)).read (length c.old.source) c.old.left) }
{
    if !may {
        return Err(bad(c));
    }
    keyword(ELSE_WORD, c)?;
    repeated(label, c)?;
    w.enter(Frame::Flat {
        label,
        may_else: false,
    })?;
    w.begin_else()?;
    Ok(())
}

/// Takes a closing parenthesis that ends a block, whose frame has been left.
#[tactic(auto, unfolding(ms_text_grammar::specs::Advances::closed))]
fn close_block(w: &mut Work, c: &mut Words) -> Result<(), TextFault>
    ensures { StepsTo w.new c.old c.new result ((closed c.old.source usual.blocks (ended w.old.frames w.old)).read (length c.old.source) c.old.left) }
{
    closing(c)?;
    w.end()?;
    Ok(())
}

/// Takes a closing parenthesis that ends a folded instruction, whose frame has been left.
#[tactic(auto, unfolding(ms_text_grammar::specs::Advances::closed))]
fn close_operands(w: &mut Work, plain: Plain, c: &mut Words) -> Result<(), TextFault>
    ensures { StepsTo w.new c.old c.new result ((closed c.old.source usual.blocks (given w.old.frames plain w.old)).read (length c.old.source) c.old.left) }
{
    closing(c)?;
    w.give(plain)?;
    Ok(())
}

/// Takes a closing parenthesis.
#[tactic(auto, unfolding(ms_text_grammar::specs::Advances::closed))]
fn close(w: &mut Work, c: &mut Words) -> Result<(), TextFault>
    ensures { StepsTo w.new c.old c.new result ((closed c.old.source usual.blocks w.old).read (length c.old.source) c.old.left) }
{
    let _ = &w;
    closing(c)?;
    Ok(())
}

/// A turn in a body.
#[tactic(auto, unfolding(ms_text_grammar::specs::Advances::instructions))]
fn in_body(w: &mut Work, sign: Sign, c: &mut Words) -> Result<(), TextFault>
    ensures { StepsTo w.new c.old c.new result ((instructions c.old.source usual.blocks w.old w.old sign).read (length c.old.source) c.old.left) }
{
    match sign {
        Sign::Left => folded(w, c),
        Sign::Heads(opening) => flat_block(w, opening, c),
        Sign::Right => close(w, c),
        _ => flat_plain(w, c),
    }
}

/// A turn in a folded block, whose frame has been left.
#[tactic(auto, unfolding(ms_text_grammar::specs::Advances::instructions))]
fn in_folded(w: &mut Work, sign: Sign, c: &mut Words) -> Result<(), TextFault>
    ensures { StepsTo w.new c.old c.new result ((instructions c.old.source usual.blocks (framed (Frame.Folded ∷ w.old.frames) w.old) (ended w.old.frames w.old) sign).read (length c.old.source) c.old.left) }
{
    if let Sign::Right = sign {
        return close_block(w, c);
    }
    w.enter(Frame::Folded)?;
    match sign {
        Sign::Left => folded(w, c),
        Sign::Heads(opening) => flat_block(w, opening, c),
        _ => flat_plain(w, c),
    }
}

/// A turn in an arm, whose frame has been left.
#[tactic(auto, unfolding(ms_text_grammar::specs::Advances::instructions))]
fn in_arm(w: &mut Work, sign: Sign, c: &mut Words) -> Result<(), TextFault>
    ensures { StepsTo w.new c.old c.new result ((instructions c.old.source usual.blocks (framed (Frame.Arm ∷ w.old.frames) w.old) w.old sign).read (length c.old.source) c.old.left) }
{
    if let Sign::Right = sign {
        return close(w, c);
    }
    w.enter(Frame::Arm)?;
    match sign {
        Sign::Left => folded(w, c),
        Sign::Heads(opening) => flat_block(w, opening, c),
        _ => flat_plain(w, c),
    }
}

/// A turn in a flat block, whose frame has been left.
#[tactic(auto, unfolding(ms_text_grammar::specs::Advances::advance_on))]
fn in_flat(
    w: &mut Work,
    label: Option<Token>,
    may: bool,
    sign: Sign,
    c: &mut Words,
) -> Result<(), TextFault>
    ensures { StepsTo w.new c.old c.new result ((advance_on c.old.source usual.blocks (framed (Frame.Flat label may ∷ w.old.frames) w.old) (Frame.Flat label may ∷ w.old.frames) sign).read (length c.old.source) c.old.left) }
{
    match sign {
        Sign::Ends => return flat_end(w, label, c),
        Sign::Elses => return flat_else(w, label, may, c),
        _ => {}
    }
    w.enter(Frame::Flat {
        label,
        may_else: may,
    })?;
    match sign {
        Sign::Left => folded(w, c),
        Sign::Heads(opening) => flat_block(w, opening, c),
        _ => flat_plain(w, c),
    }
}

/// A turn by a frame that has been left.
#[tactic(auto, unfolding(ms_text_grammar::specs::Advances::advance_on))]
fn in_frame(w: &mut Work, frame: Frame, sign: Sign, c: &mut Words) -> Result<(), TextFault>
    ensures { StepsTo w.new c.old c.new result ((advance_on c.old.source usual.blocks (framed (frame ∷ w.old.frames) w.old) (frame ∷ w.old.frames) sign).read (length c.old.source) c.old.left) }
{
    match frame {
        Frame::Flat { label, may_else } => in_flat(w, label, may_else, sign, c),
        Frame::Folded => in_folded(w, sign, c),
        Frame::Arm => in_arm(w, sign, c),
        Frame::Operands(plain) => match sign {
            Sign::Left => {
                w.enter(Frame::Operands(plain))?;
                folded(w, c)
            }
            _ => close_operands(w, plain, c),
        },
        Frame::Condition { label, ty } => match sign {
            Sign::Left => condition(w, label, ty, c),
            _ => Err(bad(c)),
        },
        Frame::Then => match sign {
            Sign::Left => else_arm(w, c),
            _ => close_block(w, c),
        },
        Frame::Other => close_block(w, c),
    }
}

/// A turn by the innermost frame.
#[tactic(auto, unfolding(ms_text_grammar::specs::Advances::advance_on))]
pub fn advance_on(w: &mut Work, sign: Sign, c: &mut Words) -> Result<(), TextFault>
    ensures { StepsTo w.new c.old c.new result ((advance_on c.old.source usual.blocks w.old w.old.frames sign).read (length c.old.source) c.old.left) }
{
    match w.leave() {
        None => in_body(w, sign, c),
        Some(frame) => in_frame(w, frame, sign, c),
    }
}
