//! Definitions of functions (C11, 6.9.1).

ghost use Rattle.std.specs.Prelude.{◌≡◌};
ghost use Rattle.c_types.specs.Types.{type_of};
ghost use Rattle.c_check_types.specs.refinement.Views.{Obeys, parameters_in, state_of};
ghost use Rattle.c_check.specs.Declarations as words;

use crate::declaring::{nothing_done, scope_of};
use crate::statement::{items, no_jumps};
use c_check_types::{Checker, Derived, Parameter, Stop, whole_type};
use c_declare::{
    closed, declares_function, enters_parameters, is_declared_alone, opened, result_in, with_body,
};
use c_tree::{Block, Declarator};
use c_types::CType;

/// The body of a function that is defined, whose parameters stand in the scope of its block.
fn defines_function<'a>(
    checker: &mut Checker<'a>,
    n: u32,
    params: &[Parameter<'a>],
    result_type: &CType,
    is: &'a Block,
) -> Result<(), Stop>
    ensures { Obeys (λ _. tt) (words.defines_function n (parameters_in params.now) (type_of result_type.now) is.now) (state_of checker.old) (state_of checker.new) result }
{
    opened(checker)?;
    enters_parameters(checker, params)?;
    let mut d = nothing_done(checker.alloc);
    items(checker, is, result_type, no_jumps(), None, &mut d)?;
    closed(checker)?;
    let body = scope_of(checker.alloc, d)?;
    with_body(checker, n, body)
}

/// The definition of a function (C11, 6.9.1).
pub fn definition<'a>(
    checker: &mut Checker<'a>,
    b: CType,
    d: &'a Declarator,
    is: &'a Block,
) -> Result<(), Stop>
    ensures { Obeys (λ _. tt) (words.definition (type_of b) d.now is.now) (state_of checker.old) (state_of checker.new) result }
{
    let x = checker.declared(d, Derived::Whole(b), Vec::new(checker.alloc))?;
    let Some(name) = x.name else {
        return Err(Stop::NoTyping);
    };
    let t = whole_type(x.derived)?;
    let result_type = result_in(&t)?;
    let n = declares_function(checker, name, t)?;
    is_declared_alone(checker, n)?;
    defines_function(checker, n, x.params.as_slice(), &result_type, is)
}
