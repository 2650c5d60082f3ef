//! Writing functions (WebAssembly 1.0, 6.6.5).

ghost use Rattle.std.specs.Prelude.{◌≡◌, ◌++◌, OnOk};
ghost use Rattle.ms_text_grammar.specs.declared.word.Word.TheVariants.{Local};
ghost use Rattle.ms_flat.specs.Keywords.{value_word};
ghost use Rattle.ms_text_write.specs.Parts.{spaced};
ghost use Rattle.ms_text_write.specs.Types.{group_text};
ghost use Rattle.ms_text_write.specs.Shown.{func_text};
ghost use Rattle.ms_text_write.specs.refinement.Ranges.{FuncFits};

use crate::body::write_body;
use crate::parts::{Show, write_indexed, write_opened};
use crate::words::value_word;
use ms_module::{Func, Locals};
use ms_text_grammar::Word;
use std::alloc::{AllocError, Global};

/// Writes the type of each local behind a space.
fn write_types(locals: &Locals, out: &mut Vec<u8>) -> Result<(), AllocError>
    ensures { OnOk result (out.new.items ≡ out.old.items ++ spaced value_word locals.now) }
{
    let _count = locals.len();
    let mut index = 0;
    while let Some(ty) = locals.get(index) {
        out.push(b' ')?;
        out.extend_from_slice(value_word(ty))?;
        index += 1;
    }
    Ok(())
}

/// Writes locals in one group; nothing where there are none.
fn write_locals(locals: &Locals, out: &mut Vec<u8>) -> Result<(), AllocError>
    ensures { OnOk result (out.new.items ≡ out.old.items ++ group_text Local locals.now) }
{
    if locals.is_empty() {
        return Ok(());
    }
    out.push(b' ')?;
    write_opened(Word::Local, out)?;
    write_types(locals, out)?;
    out.push(b')')?;
    Ok(())
}

impl Show for Func {
    ghost text = { func_text };

    ghost fits = { FuncFits };

    #[tactic(auto, unfolding(crate::specs::Shown::func_text))]
    fn show(&self, alloc: Global, out: &mut Vec<u8>) -> Result<(), AllocError> {
        write_opened(Word::Func, out)?;
        out.push(b' ')?;
        write_indexed(Word::Type, self.sig, out)?;
        write_locals(&self.locals, out)?;
        write_body(alloc, b"\n    ", &self.body, out)?;
        out.push(b')')?;
        Ok(())
    }
}
