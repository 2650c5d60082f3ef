//! Comments (WebAssembly 1.0, 6.2.4).

ghost use Rattle.std.specs.Prelude.{◌≡◌, ◌+◌, ◌≤◌, ◌^◌, length};
ghost use Rattle.ms_text_lex.specs.Comments.{block_comment, comment_goes, comment_step, comment_text, line_comment, line_text, mark_of, utf8_comment};
ghost use Rattle.ms_text_lex.specs.Readers.{Reads};

use crate::class::{Class, is_utf8, run_len};
use crate::fault::LexFault;
use crate::steps::{Steps, any, run, text_before};
use crate::strings::inside;
use ms_bytes::Cursor;

/// A mark that opens or closes a comment, if there is one.
#[derive(Clone, Copy)]
pub enum Mark {
    Opens,
    Closes,
    Neither,
}

/// The mark that is next.
fn mark_of(c: &Cursor) -> Mark
    ensures { result ≡ mark_of c.now.left }
{
    let [first, second, ..] = c.rest() else {
        return Mark::Neither;
    };
    if *first == b'(' && *second == b';' {
        return Mark::Opens;
    }
    if *first == b';' && *second == b')' {
        return Mark::Closes;
    }
    Mark::Neither
}

/// How many comments are open.
#[derive(Clone, Copy)]
pub struct Comment {
    depth: usize,
}

impl Steps for Comment {
    ghost going = { comment_goes };

    ghost step = { λ _. comment_step };

    ghost fits = { λ s left. s.depth + length left ≤ 2 ^ 64 };

    fn goes(&self, _c: &Cursor) -> bool {
        self.depth != 0
    }

    #[tactic(auto, unfolding(crate::specs::Comments::comment_step, crate::specs::Comments::behind_mark))]
    fn step(&mut self, c: &mut Cursor) -> Result<(), LexFault> {
        match mark_of(c) {
            Mark::Opens => {
                any(c)?;
                any(c)?;
                self.depth += 1;
            }
            Mark::Closes => {
                any(c)?;
                any(c)?;
                self.depth = self.depth.saturating_sub(1);
            }
            Mark::Neither => {
                any(c)?;
            }
        }
        Ok(())
    }
}

/// Goes over a comment in brackets, and those inside of it.
#[tactic(auto, unfolding(crate::specs::Comments::comment_text))]
fn comment_text(c: &mut Cursor) -> Result<(), LexFault>
    ensures { Reads c.old c.new result (comment_text.read c.old.end c.old.left) }
{
    any(c)?;
    any(c)?;
    let _ = c.len();
    run(Comment { depth: 1 }, c)?;
    Ok(())
}

/// Goes over a comment of UTF-8 in brackets.
#[tactic(auto, unfolding(crate::specs::Comments::utf8_comment))]
fn utf8_comment(c: &mut Cursor) -> Result<(), LexFault>
    ensures { Reads c.old c.new result (utf8_comment.read c.old.end c.old.left) }
{
    let at = c.at();
    let before = c.rest();
    comment_text(c)?;
    if !is_utf8(text_before(before, c)) {
        return Err(LexFault::Char { at });
    }
    Ok(())
}

/// Goes over a comment in brackets. Its faults stand at its outermost opening.
#[tactic(auto, unfolding(crate::specs::Comments::block_comment))]
pub fn block_comment(c: &mut Cursor) -> Result<(), LexFault>
    ensures { Reads c.old c.new result (block_comment.read c.old.end c.old.left) }
{
    let at = c.at();
    let before = c.rest();
    match utf8_comment(c) {
        Ok(()) => Ok(()),
        Err(fault) => Err(inside(at, before, fault)),
    }
}

/// Goes over what is left of a line.
#[tactic(auto, unfolding(crate::specs::Comments::line_text))]
fn line_text(c: &mut Cursor) -> Result<(), LexFault>
    ensures { Reads c.old c.new result (line_text.read c.old.end c.old.left) }
{
    any(c)?;
    c.skip(run_len(Class::Line, c.rest()));
    Ok(())
}

/// Goes over a comment up to the line's end.
#[tactic(auto, unfolding(crate::specs::Comments::line_comment))]
pub fn line_comment(c: &mut Cursor) -> Result<(), LexFault>
    ensures { Reads c.old c.new result (line_comment.read c.old.end c.old.left) }
{
    let at = c.at();
    let before = c.rest();
    line_text(c)?;
    if !is_utf8(text_before(before, c)) {
        return Err(LexFault::Char { at });
    }
    Ok(())
}
