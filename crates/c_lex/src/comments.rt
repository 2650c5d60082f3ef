//! Comments (C11, 6.4.9) and inclusions (6.10.2).

ghost use Rattle.std.specs.Prelude.{◌≡◌, codes};
ghost use Rattle.ms_bytes.specs.Items.{item_at};
ghost use Rattle.ms_bytes.specs.Spot.{over};
ghost use Rattle.ms_bytes.specs.Texts.{marks_at, run_len};
ghost use Rattle.c_lex.specs.Classes.{is_in};
ghost use Rattle.c_lex.specs.declared.class.Class.TheVariants.{Blank};
ghost use Rattle.c_lex.specs.Fault.{any, char_here, directive, unclosed};
ghost use Rattle.c_lex.specs.Lexing.{comment, comment_goes, comment_inside, comment_step, ends_line, inclusion, is_header, line_comment};
ghost use Rattle.c_lex.specs.Readers.{Reads};

use crate::class::{Class, run_len};
use crate::fault::CLex;
use crate::steps::{Steps, any, run};
use ms_bytes::Cursor;

/// Goes over what is left of a line.
#[tactic(auto, unfolding(crate::specs::Lexing::line_comment))]
pub fn line_comment(c: &mut Cursor) -> Result<(), CLex>
    ensures { Reads c.old c.new result (line_comment.read c.old.end c.old.left) }
{
    any(c)?;
    c.skip(run_len(Class::Line, c.rest()));
    Ok(())
}

/// Takes any byte of what begins at `at`.
pub fn any_of(at: usize, c: &mut Cursor) -> Result<u8, CLex>
    ensures { Reads c.old c.new result (item_at (unclosed at) any c.old.end c.old.left) }
{
    match c.take() {
        None => Err(CLex::Unclosed { at }),
        Some(next) => Ok(next),
    }
}

/// What stands in the comment that begins at a place.
#[derive(Clone, Copy)]
pub struct Comment {
    at: usize,
}

impl Steps for Comment {
    ghost going = { comment_goes };

    ghost step = { comment_step };

    fn goes(&self, c: &Cursor) -> bool {
        match c.rest() {
            [] => false,
            [_] => true,
            [first, second, ..] => !(*first == b'*' && *second == b'/'),
        }
    }

    #[tactic(auto, unfolding(crate::specs::Lexing::comment_step))]
    fn step(&mut self, c: &mut Cursor) -> Result<(), CLex> {
        any_of(self.at, c)?;
        Ok(())
    }
}

#[tactic(auto, unfolding(crate::specs::Lexing::comment_inside))]
fn comment_inside(at: usize, c: &mut Cursor) -> Result<Comment, CLex>
    ensures { Reads c.old c.new result ((comment_inside c.old.end at).read c.old.end c.old.left) }
{
    run(Comment { at }, c)
}

/// Goes over the comment that begins here, at `at`, up to its end.
#[tactic(auto, unfolding(crate::specs::Lexing::comment))]
pub fn block_comment(at: usize, c: &mut Cursor) -> Result<(), CLex>
    ensures { Reads c.old c.new result ((comment c.old.end at).read c.old.end c.old.left) }
{
    any_of(at, c)?;
    any_of(at, c)?;
    comment_inside(at, c)?;
    any_of(at, c)?;
    any_of(at, c)?;
    Ok(())
}

/// Takes these bytes.
fn marks(at: usize, bytes: &[u8], c: &mut Cursor) -> Result<(), CLex>
    ensures { Reads c.old c.new result (marks_at (directive at) bytes.now c.old.end c.old.left) }
{
    if !c.rest().starts_with(bytes) {
        return Err(CLex::Directive { at });
    }
    c.skip(bytes.len());
    Ok(())
}

fn is_header(name: &[u8]) -> bool
    ensures { result ≡ is_header name.now }
{
    name == b"stdio".as_slice() || name == b"stdlib".as_slice() || name == b"stddef".as_slice()
}

/// Whether the line ends here.
fn ends_line(c: &Cursor) -> bool
    ensures { result ≡ ends_line c.now.left }
{
    match c.rest() {
        [] => true,
        [next, ..] => *next == b'\n',
    }
}

/// Goes over blanks in a line.
fn skip_blanks(c: &mut Cursor)
    ensures { c.new ≡ over (run_len (is_in Blank) c.old.left) c.old }
{
    c.skip(run_len(Class::Blank, c.rest()));
}

/// Takes the `#` of a line.
fn hash(at: usize, c: &mut Cursor) -> Result<u8, CLex>
    ensures { Reads c.old c.new result (item_at (directive at) any c.old.end c.old.left) }
{
    match c.take() {
        None => Err(CLex::Directive { at }),
        Some(next) => Ok(next),
    }
}

/// Goes over the inclusion whose `#` is here, at `at`, up to the line's end.
#[tactic(auto, unfolding(crate::specs::Lexing::inclusion))]
pub fn inclusion(at: usize, c: &mut Cursor) -> Result<(), CLex>
    ensures { Reads c.old c.new result ((inclusion at).read c.old.end c.old.left) }
{
    hash(at, c)?;
    skip_blanks(c);
    marks(at, b"include", c)?;
    skip_blanks(c);
    marks(at, b"<", c)?;
    let rest = c.rest();
    let n = run_len(Class::Name, rest);
    c.skip(n);
    if !is_header(&rest[..n]) {
        return Err(CLex::Directive { at });
    }
    marks(at, b".h>", c)?;
    skip_blanks(c);
    if !ends_line(c) {
        return Err(CLex::Directive { at });
    }
    Ok(())
}
