//! Block types (WebAssembly 1.0, 6.5.2).

ghost use Rattle.std.specs.Prelude.{◌≡◌, length, Option};
ghost use Rattle.ms_text_grammar.specs.declared.word.Word.TheVariants as word;
ghost use Rattle.ms_text_grammar.specs.Parts.{list_goes};
ghost use Rattle.ms_text_grammar.specs.Types.{block_result, block_results, block_type};
ghost use Rattle.ms_text_parts.specs.refinement.Readers.{Reads};

use crate::groups::{Grouped, take_groups};
use crate::parts::next_closes;
use crate::steps::{Steps, run};
use crate::types::value_type;
use crate::words::{Words, bad};
use ms_text_grammar::{TextFault, Word};
use ms_types::ValType;
use std::marker::Model;

/// The type of a block, in a group of results.
#[derive(Drop)]
struct Inside {
    ty: Option<ValType>,
}

impl Model for Inside {
    ghost use Rattle.std.specs.Prelude.{Option};
    ghost use Rattle.ms_types.specs.declared.types.ValType.{ValType};

    ghost Value = { Option ValType };

    ghost view = { λ i. i.ty };
}

impl Steps for Inside {
    ghost going = { λ source ty s. list_goes source ty s };

    ghost step = { block_result };

    fn goes(&self, c: &Words) -> bool {
        !next_closes(c)
    }

    #[tactic(auto, unfolding(ms_text_grammar::specs::Types::block_result))]
    fn step(self, c: &mut Words) -> Result<Self, TextFault> {
        if self.ty.is_some() {
            return Err(bad(c));
        }
        let ty = value_type(c)?;
        Ok(Inside { ty: Some(ty) })
    }
}

/// Takes what is in a group of results, where there is this type so far.
#[tactic(auto, unfolding(ms_text_grammar::specs::Types::block_results, ms_text_grammar::specs::Parts::listed))]
fn block_results(ty: Option<ValType>, c: &mut Words) -> Result<Option<ValType>, TextFault>
    ensures { Reads c.old c.new result ((block_results c.old.source ty).read (length c.old.source) c.old.left) }
{
    let Inside { ty } = run(Inside { ty }, c)?;
    Ok(ty)
}

/// The groups of a block type.
#[derive(Drop)]
struct ResultType {
    ty: Option<ValType>,
}

impl Model for ResultType {
    ghost use Rattle.std.specs.Prelude.{Option};
    ghost use Rattle.ms_types.specs.declared.types.ValType.{ValType};

    ghost Value = { Option ValType };

    ghost view = { λ g. g.ty };
}

impl Grouped for ResultType {
    ghost word = { word.Result };

    ghost inside = { block_results };

    fn word(&self) -> Word {
        Word::Result
    }

    fn inside(self, c: &mut Words) -> Result<Self, TextFault> {
        let ty = block_results(self.ty, c)?;
        Ok(ResultType { ty })
    }
}

/// Takes a block type: one type at most, in any number of groups of results.
#[tactic(auto, unfolding(ms_text_grammar::specs::Types::block_type))]
pub fn block_type(c: &mut Words) -> Result<Option<ValType>, TextFault>
    ensures { Reads c.old c.new result ((block_type c.old.source).read (length c.old.source) c.old.left) }
{
    let ResultType { ty } = take_groups(ResultType { ty: None }, c)?;
    Ok(ty)
}
