//! Reading the code of functions (WebAssembly 1.0, 5.5.13).

ghost use Rattle.std.specs.Prelude.{◌≡◌, ◌≤◌, [], length, IfOk};
ghost use Rattle.ms_bin_grammar.specs.Sizes.{sized};
ghost use Rattle.ms_bytes.specs.Repetition.{each, repeat};
ghost use Rattle.ms_bin_grammar.specs.Module.{func, funcs, locals, more_locals};
ghost use Rattle.ms_bin_grammar.specs.Bounds.{usual};
ghost use Rattle.ms_bin_read.specs.refinement.Readers.{Reads, StepsTo};

use crate::body::body_of;
use crate::items::{Item, bounded, ended};
use crate::numbers::u32_of;
use ms_bin_grammar::{Counted, ReadFault};
use ms_bytes::Cursor;
use ms_module::{Func, Locals, MOST_LOCALS};
use ms_types::{ValType, Vector};
use std::alloc::Global;

/// Reads so many more locals of one type.
#[tactic(auto, unfolding(ms_bin_grammar::specs::Module::more_locals))]
fn more_locals_of(alloc: Global, locals: &mut Locals, c: &mut Cursor) -> Result<(), ReadFault>
    requires { length locals.old ≤ usual.locals }
    ensures read { StepsTo locals.new c.old c.new result ((more_locals usual locals.old).read c.old.end c.old.left) }
    ensures few { IfOk result (λ _. length locals.new ≤ usual.locals) }
{
    let at = c.at();
    let count = u32_of(c)?;
    if locals.len() + count as usize > MOST_LOCALS {
        return Err(ReadFault::Limit {
            which: Counted::Locals,
            at,
        });
    }
    let ty = ValType::read(alloc, c)?;
    locals.push(count, ty)?;
    Ok(())
}

fn runs_of(alloc: Global, count: u32, c: &mut Cursor) -> Result<Locals, ReadFault>
    ensures { Reads c.old c.new result ((repeat (more_locals usual) count []).read c.old.end c.old.left) }
{
    let mut locals = Locals::new(alloc);
    for _ in 0..count {
        more_locals_of(alloc, &mut locals, c)?;
    }
    Ok(locals)
}

impl Item for Locals {
    ghost format = { locals usual };

    #[tactic(auto, unfolding(ms_bin_grammar::specs::Module::locals))]
    fn read(alloc: Global, c: &mut Cursor) -> Result<Self, ReadFault> {
        let count = u32_of(c)?;
        runs_of(alloc, count, c)
    }
}

#[tactic(auto, unfolding(ms_bin_grammar::specs::Module::func))]
fn func_of(alloc: Global, sig: u32, c: &mut Cursor) -> Result<Func, ReadFault>
    ensures { Reads c.old c.new result ((func usual sig).read c.old.end c.old.left) }
{
    let locals = Item::read(alloc, c)?;
    let body = body_of(alloc, c)?;
    Ok(Func { sig, locals, body })
}

/// Reads a function whose type has this index; its size stands before it.
#[tactic(auto, unfolding(ms_bin_grammar::specs::Inside::sized_at))]
fn sized_func_of(alloc: Global, sig: u32, c: &mut Cursor) -> Result<Func, ReadFault>
    ensures { Reads c.old c.new result ((sized (func usual sig)).read c.old.end c.old.left) }
{
    let mut inside = bounded(c)?;
    let func = func_of(alloc, sig, &mut inside)?;
    ended(&inside)?;
    Ok(func)
}

fn each_func(alloc: Global, sigs: &[u32], c: &mut Cursor) -> Result<Vector<Func>, ReadFault>
    ensures { Reads c.old c.new result ((each (λ sig. sized (func usual sig)) sigs.now).read c.old.end c.old.left) }
{
    let mut funcs = Vector::new(alloc);
    for sig in sigs {
        funcs.push(sized_func_of(alloc, *sig, c)?)?;
    }
    Ok(funcs)
}

/// Reads as many functions as types.
#[tactic(auto, unfolding(ms_bin_grammar::specs::Module::funcs))]
pub fn funcs_of(alloc: Global, sigs: &[u32], c: &mut Cursor) -> Result<Vector<Func>, ReadFault>
    ensures { Reads c.old c.new result ((funcs usual sigs.now).read c.old.end c.old.left) }
{
    let at = c.at();
    let count = u32_of(c)?;
    if count as usize != sigs.len() {
        return Err(ReadFault::Malformed { at });
    }
    each_func(alloc, sigs, c)
}
