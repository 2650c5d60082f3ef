//! Identifiers to indices (WebAssembly 1.0, 6.1.3).

ghost use Rattle.std.specs.Prelude.{◌≡◌, ◌++◌, ◌∷◌, [], IfOk, OnOk};
ghost use Rattle.ms_text_grammar.specs.Identifiers.{each, identified, param_ids, repeat_of, repeats, resolved};
ghost use Rattle.ms_text_names.specs.refinement.Answers.{Adds};

use crate::space::Space;
use ms_text_grammar::{Index, Param};
use ms_text_lex::Token;
use ms_types::Vector;
use std::alloc::{AllocError, Global};

/// A number as an index, of which there are 2^32.
pub fn number(n: usize) -> Result<u32, AllocError>
    ensures { IfOk result (λ m. m ≡ n) }
{
    u32::try_from(n).map_err(|_| AllocError)
}

/// The index of an identifier; where it is unknown, its place is wrong.
pub fn identified(space: &Space, id: Token, wrong: &mut Vec<usize>) -> Result<u32, AllocError>
    ensures { IfOk result (λ n. Adds wrong.old.items wrong.new.items n (identified space.now.source space.now.ids id)) }
{
    match space.find(id) {
        Some(n) => Ok(n),
        None => {
            wrong.push(id.at)?;
            Ok(0)
        }
    }
}

/// What an index stands for.
pub fn resolved(space: &Space, index: Index, wrong: &mut Vec<usize>) -> Result<u32, AllocError>
    ensures { IfOk result (λ n. Adds wrong.old.items wrong.new.items n (resolved space.now.source space.now.ids index)) }
{
    match index {
        Index::Number(n) => Ok(n),
        Index::Name(id) => identified(space, id, wrong),
    }
}

/// What indices stand for, one after the other.
pub fn all_resolved(
    alloc: Global,
    space: &Space,
    indices: &[Index],
    wrong: &mut Vec<usize>,
) -> Result<Vector<u32>, AllocError>
    ensures { IfOk result (λ ns. Adds wrong.old.items wrong.new.items ns (each (resolved space.now.source space.now.ids) indices.now)) }
{
    let mut numbers = Vector::new(alloc);
    for index in indices {
        numbers.push(resolved(space, *index, wrong)?)?;
    }
    Ok(numbers)
}

/// Adds an entry; where one before it has its identifier, its place is wrong.
pub fn enter(space: &mut Space, id: Option<Token>, wrong: &mut Vec<usize>) -> Result<(), AllocError>
    ensures ids { OnOk result (space.new.ids ≡ space.old.ids ++ id ∷ []) }
    ensures wrong { OnOk result (wrong.new.items ≡ wrong.old.items ++ repeat_of space.old.source space.old.ids id) }
    ensures source { OnOk result (space.new.source ≡ space.old.source) }
{
    let repeated = space.add(id)?;
    if !repeated {
        return Ok(());
    }
    if let Some(repeat) = id {
        wrong.push(repeat.at)?;
    }
    Ok(())
}

/// Adds parameters or locals.
pub fn enter_all(
    space: &mut Space,
    params: &[Param],
    wrong: &mut Vec<usize>,
) -> Result<(), AllocError>
    ensures ids { OnOk result (space.new.ids ≡ space.old.ids ++ param_ids params.now) }
    ensures wrong { OnOk result (wrong.new.items ≡ wrong.old.items ++ repeats space.old.source space.old.ids (param_ids params.now)) }
    ensures source { OnOk result (space.new.source ≡ space.old.source) }
{
    for param in params {
        enter(space, param.id, wrong)?;
    }
    Ok(())
}
