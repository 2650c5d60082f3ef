//! Reading types (WebAssembly 1.0, 5.3).

ghost use Rattle.std.specs.Prelude.{◌≡◌};
ghost use Rattle.ms_bytes.specs.Repetition.{times};
ghost use Rattle.ms_bin_grammar.specs.Numbers.{vec};
ghost use Rattle.ms_bin_grammar.specs.Types.{block_type, func_type, global_type, limits, mutability, table_type, val_type};
ghost use Rattle.ms_bin_read.specs.refinement.Readers.{Reads};

use crate::items::{Item, byte_of, marks_of};
use crate::numbers::u32_of;
use ms_bin_grammar::{ANY_FUNC, FUNC_TYPE, NO_RESULT, ReadFault};
use ms_bytes::Cursor;
use ms_module::{is_float_type, val_type_from_code};
use ms_types::{FuncType, GlobalType, Limits, ValType, Vector};
use std::alloc::Global;

impl Item for ValType {
    ghost format = { val_type };

    #[tactic(auto, unfolding(ms_bin_grammar::specs::Types::val_type, ms_bin_grammar::specs::Types::val_types))]
    fn read(_alloc: Global, c: &mut Cursor) -> Result<Self, ReadFault> {
        let at = c.at();
        let code = byte_of(c)?;
        match val_type_from_code(code) {
            Some(ty) => Ok(ty),
            None if is_float_type(code) => Err(ReadFault::Float { at }),
            None => Err(ReadFault::Malformed { at }),
        }
    }
}

/// Reads the type of a block.
#[tactic(auto, unfolding(ms_bin_grammar::specs::Types::block_type, ms_bin_grammar::specs::Types::block_types))]
pub fn block_type_of(c: &mut Cursor) -> Result<Option<ValType>, ReadFault>
    ensures { Reads c.old c.new result (block_type.read c.old.end c.old.left) }
{
    let at = c.at();
    let code = byte_of(c)?;
    if code == NO_RESULT {
        return Ok(None);
    }
    match val_type_from_code(code) {
        Some(ty) => Ok(Some(ty)),
        None if is_float_type(code) => Err(ReadFault::Float { at }),
        None => Err(ReadFault::Malformed { at }),
    }
}

impl Item for FuncType {
    ghost format = { func_type };

    #[tactic(auto, unfolding(ms_bin_grammar::specs::Types::func_type))]
    fn read(alloc: Global, c: &mut Cursor) -> Result<Self, ReadFault> {
        marks_of(&[FUNC_TYPE], c)?;
        let params = Item::read(alloc, c)?;
        let results = Item::read(alloc, c)?;
        Ok(FuncType { params, results })
    }
}

/// Limits as they stand for a memory.
impl Item for Limits {
    ghost format = { limits };

    #[tactic(auto, unfolding(ms_bin_grammar::specs::Types::limits))]
    fn read(_alloc: Global, c: &mut Cursor) -> Result<Self, ReadFault> {
        let at = c.at();
        match byte_of(c)? {
            0x00 => {
                let min = u32_of(c)?;
                Ok(Limits { min, max: None })
            }
            0x01 => {
                let min = u32_of(c)?;
                let max = u32_of(c)?;
                Ok(Limits {
                    min,
                    max: Some(max),
                })
            }
            _ => Err(ReadFault::Malformed { at }),
        }
    }
}

/// Reads the type of a table.
#[tactic(auto, unfolding(ms_bin_grammar::specs::Types::table_type))]
pub fn table_type_of(alloc: Global, c: &mut Cursor) -> Result<Limits, ReadFault>
    ensures { Reads c.old c.new result (table_type.read c.old.end c.old.left) }
{
    marks_of(&[ANY_FUNC], c)?;
    Limits::read(alloc, c)
}

fn times_table(alloc: Global, count: u32, c: &mut Cursor) -> Result<Vector<Limits>, ReadFault>
    ensures { Reads c.old c.new result ((times count table_type).read c.old.end c.old.left) }
{
    let mut tables = Vector::new(alloc);
    for _ in 0..count {
        tables.push(table_type_of(alloc, c)?)?;
    }
    Ok(tables)
}

/// Reads a vector of table types.
#[tactic(auto, unfolding(ms_bin_grammar::specs::Numbers::vec))]
pub fn tables_of(alloc: Global, c: &mut Cursor) -> Result<Vector<Limits>, ReadFault>
    ensures { Reads c.old c.new result ((vec table_type).read c.old.end c.old.left) }
{
    let count = u32_of(c)?;
    times_table(alloc, count, c)
}

/// Reads whether a global may change.
#[tactic(auto, unfolding(ms_bin_grammar::specs::Types::mutability))]
fn mutability_of(c: &mut Cursor) -> Result<bool, ReadFault>
    ensures { Reads c.old c.new result (mutability.read c.old.end c.old.left) }
{
    let at = c.at();
    match byte_of(c)? {
        0x00 => Ok(false),
        0x01 => Ok(true),
        _ => Err(ReadFault::Malformed { at }),
    }
}

impl Item for GlobalType {
    ghost format = { global_type };

    #[tactic(auto, unfolding(ms_bin_grammar::specs::Types::global_type))]
    fn read(alloc: Global, c: &mut Cursor) -> Result<Self, ReadFault> {
        let ty = ValType::read(alloc, c)?;
        let mutable = mutability_of(c)?;
        Ok(GlobalType { ty, mutable })
    }
}
