//! Writing types (WebAssembly 1.0, 6.4).

ghost use Rattle.std.specs.Prelude.{◌≡◌, ◌++◌, ◌∷◌, [], OnOk};
ghost use Rattle.ms_flat.specs.Keywords.{value_word};
ghost use Rattle.ms_flat.specs.refinement.Ranges.{LimitsFit};
ghost use Rattle.ms_text_write.specs.Types.{func_type_text, global_type_text, group_text, limits_text, memory_text, table_text};

use crate::parts::{Show, write_behind, write_number, write_opened};
use crate::words::value_word;
use ms_text_grammar::Word;
use ms_types::{FuncType, GlobalType, Limits, ValType};
use std::alloc::{AllocError, Global};

impl Show for ValType {
    ghost text = { value_word };

    ghost fits = { λ _. Unit {0} };

    fn show(&self, _alloc: Global, out: &mut Vec<u8>) -> Result<(), AllocError> {
        out.extend_from_slice(value_word(*self))
    }
}

/// Writes types in one group; nothing where there are none.
pub fn write_group(
    alloc: Global,
    word: Word,
    types: &[ValType],
    out: &mut Vec<u8>,
) -> Result<(), AllocError>
    ensures { OnOk result (out.new.items ≡ out.old.items ++ group_text word types.now) }
{
    if types.is_empty() {
        return Ok(());
    }
    out.push(b' ')?;
    write_opened(word, out)?;
    write_behind(alloc, b" ", types, out)?;
    out.push(b')')?;
    Ok(())
}

impl Show for FuncType {
    ghost text = { func_type_text };

    ghost fits = { λ _. Unit {0} };

    #[tactic(auto, unfolding(crate::specs::Types::func_type_text))]
    fn show(&self, alloc: Global, out: &mut Vec<u8>) -> Result<(), AllocError> {
        write_opened(Word::Type, out)?;
        out.push(b' ')?;
        write_opened(Word::Func, out)?;
        write_group(alloc, Word::Param, self.params.as_slice(), out)?;
        write_group(alloc, Word::Result, self.results.as_slice(), out)?;
        out.extend_from_slice(b"))")
    }
}

/// Writes the least size, and the greatest one if there is one.
fn write_limits(limits: Limits, out: &mut Vec<u8>) -> Result<(), AllocError>
    ensures written { OnOk result (out.new.items ≡ out.old.items ++ limits_text limits) }
    ensures within { LimitsFit limits }
{
    write_number(limits.min, out)?;
    let Some(max) = limits.max else {
        return Ok(());
    };
    out.push(b' ')?;
    write_number(max, out)
}

/// Writes a table of so many entries.
#[tactic(auto, unfolding(crate::specs::Types::table_text))]
pub fn write_table(limits: Limits, out: &mut Vec<u8>) -> Result<(), AllocError>
    ensures written { OnOk result (out.new.items ≡ out.old.items ++ table_text limits) }
    ensures within { LimitsFit limits }
{
    write_opened(Word::Table, out)?;
    out.push(b' ')?;
    write_limits(limits, out)?;
    out.push(b' ')?;
    out.extend_from_slice(Word::Funcref.spelling())?;
    out.push(b')')?;
    Ok(())
}

/// Writes a memory of so many pages.
#[tactic(auto, unfolding(crate::specs::Types::memory_text))]
pub fn write_memory(limits: Limits, out: &mut Vec<u8>) -> Result<(), AllocError>
    ensures written { OnOk result (out.new.items ≡ out.old.items ++ memory_text limits) }
    ensures within { LimitsFit limits }
{
    write_opened(Word::Memory, out)?;
    out.push(b' ')?;
    write_limits(limits, out)?;
    out.push(b')')?;
    Ok(())
}

/// Writes the type of a global.
pub fn write_global_type(ty: GlobalType, out: &mut Vec<u8>) -> Result<(), AllocError>
    ensures { OnOk result (out.new.items ≡ out.old.items ++ global_type_text ty) }
{
    if !ty.mutable {
        return out.extend_from_slice(value_word(ty.ty));
    }
    write_opened(Word::Mut, out)?;
    out.push(b' ')?;
    out.extend_from_slice(value_word(ty.ty))?;
    out.push(b')')?;
    Ok(())
}
