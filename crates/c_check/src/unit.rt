//! Translation units (C11, 6.9).

ghost use Rattle.std.specs.Prelude.{◌≡◌, ◌≤◌, ◌*◌, IfOk};
ghost use Rattle.c_types.specs.Types.{type_of};
ghost use Rattle.c_tree.specs.ExternalHeights.{unit_height};
ghost use Rattle.c_typed.specs.refinement.Nesting.{unit_nesting};
ghost use Rattle.c_typed.specs.refinement.Views.{names_in, typed_of};
ghost use Rattle.c_check_types.specs.refinement.Views.{Obeys, state_of};
ghost use Rattle.c_typed.specs.Units.{IsWellTyped};
ghost use Rattle.c_check.specs.Declarations as words;
ghost use Rattle.c_check.specs.Units.{start, typed_state};
ghost use Rattle.c_check.specs.refinement.Views.{Checks, GoesOn};

use crate::definition::definition;
use crate::fault::CCheck;
use crate::global::declaration;
use c_check_types::{Checker, Names, Scope, Stop};
use c_declare::outer;
use c_token::Bytes;
use c_tree::{External, ExternalForm, OuterSpecifier, SpecifierNode, Unit};
use c_typed::{Typed, TypedUnit};
use c_types::{CType, Structs};
use std::alloc::{AllocError, Global};
use std::collections::LinkedList;

/// Whether a specifier has a tag.
fn names_tag(s: &SpecifierNode) -> bool
    ensures { result ≡ words.names_tag s.now }
{
    match s {
        SpecifierNode::Struct(_) => true,
        SpecifierNode::Enum(_) => true,
        SpecifierNode::Void => false,
        SpecifierNode::Integer(_) => false,
        SpecifierNode::SizeT => false,
        SpecifierNode::PtrdiffT => false,
    }
}

/// Whether a specifier at file scope may stand alone: it is a struct's or an enumerated type's.
fn stands_alone(s: &OuterSpecifier) -> bool
    ensures { result ≡ words.stands_alone s.now }
{
    match s {
        OuterSpecifier::Plain(s) => names_tag(s.node()),
        OuterSpecifier::Struct(_, _) => true,
        OuterSpecifier::Enum(_, _, _) => true,
    }
}

/// What stands behind a specifier of this type, which stands alone only where it is a struct's or an enumerated type's.
fn form<'a>(
    checker: &mut Checker<'a>,
    s: &'a OuterSpecifier,
    b: CType,
    f: &'a ExternalForm,
) -> Result<(), Stop>
    ensures { Obeys (λ _. tt) (words.form s.now (type_of b) f.now) (state_of checker.old) (state_of checker.new) result }
{
    match f {
        ExternalForm::Alone => {
            if stands_alone(s) {
                Ok(())
            } else {
                Err(Stop::NoTyping)
            }
        }
        ExternalForm::Declaration(xs) => declaration(checker, &b, xs.items()),
        ExternalForm::Function(d, is) => definition(checker, b, d, is),
    }
}

/// An external declaration (C11, 6.9).
fn external<'a>(checker: &mut Checker<'a>, x: &'a External) -> Result<(), Stop>
    ensures { Obeys (λ _. tt) (words.external x.now) (state_of checker.old) (state_of checker.new) result }
{
    checker.at = x.at;
    let b = outer(checker, &x.specifier)?;
    form(checker, &x.specifier, b, &x.form)
}

/// External declarations, in order.
fn externals<'a>(checker: &mut Checker<'a>, xs: &'a [External]) -> Result<(), CCheck>
    ensures { GoesOn xs.now (state_of checker.old) (state_of checker.new) result }
{
    for x in xs {
        match external(checker, x) {
            Ok(()) => (),
            Err(Stop::NoTyping) => return Err(CCheck::NoTyping { at: x.at }),
            Err(Stop::Memory) => return Err(CCheck::Memory),
        }
    }
    Ok(())
}

/// What is known before a unit: the file scope is empty.
fn start<'a>(alloc: Global) -> Result<Checker<'a>, AllocError>
    ensures { IfOk result (λ c. state_of c ≡ start) }
{
    let scope = Scope {
        names: Names::new(alloc),
        entities: Vec::new(alloc),
        slots: Vec::new(alloc),
    };
    let mut scopes = LinkedList::new(alloc);
    scopes.push_front(scope)?;
    Ok(Checker {
        alloc,
        tags: Names::new(alloc),
        structs: Structs::new(alloc),
        members: Vec::new(alloc),
        function_names: Names::new(alloc),
        enum_tags: Names::new(alloc),
        enumerations: Vec::new(alloc),
        functions: Vec::new(alloc),
        global_names: Vec::new(alloc),
        globals: Vec::new(alloc),
        made: Vec::new(alloc),
        literals: 0,
        scopes,
        slots: Vec::new(alloc),
        at: 0,
        additions: Vec::new(alloc),
    })
}

/// The names of the members of each struct, in memory of their own.
fn member_names(alloc: Global, members: &[Names]) -> Result<Vec<Vec<Bytes>>, AllocError>
    ensures { IfOk result (λ v. names_in v.items ≡ members.now) }
{
    let mut kept = Vec::new(alloc);
    for names in members {
        kept.push(names.to_vec(alloc)?)?;
    }
    Ok(kept)
}

/// The typed tree of what is known behind a unit.
fn typed(checker: Checker) -> Result<TypedUnit, AllocError>
    ensures { IfOk result (λ u. typed_of u ≡ typed_state (state_of checker.entry)) }
{
    let tags = checker.tags.to_vec(checker.alloc)?;
    let members = member_names(checker.alloc, checker.members.as_slice())?;
    Ok(TypedUnit {
        tags,
        structs: checker.structs,
        members,
        enumerations: checker.enumerations,
        names: checker.global_names,
        globals: checker.globals,
        made: checker.made,
        functions: checker.functions,
        additions: checker.additions,
    })
}

/// The typed tree of external declarations.
fn typed_unit(alloc: Global, xs: &[External]) -> Result<TypedUnit, CCheck>
    ensures { Checks xs.now result }
{
    let mut checker = start(alloc)?;
    externals(&mut checker, xs)?;
    Ok(typed(checker)?)
}

/// The typed tree of a unit (C11, 6.9), which is well typed, and in which blocks nest at most twice as deep as the unit is high.
/// `NoTyping`: where the first external declaration begins up to which there is none. `Memory` says nothing of the unit.
#[tactic(auto, using(crate::proofs::WellTyped::typing_well, crate::proofs::Nesting::typing_nests))]
pub fn check(alloc: Global, unit: Unit) -> Result<Typed, CCheck>
    ensures checked { Checks unit result }
    ensures well_typed { IfOk result (λ t. IsWellTyped (typed_of t)) }
    ensures nests { IfOk result (λ t. unit_nesting (typed_of t) ≤ 2 * unit_height unit) }
{
    let typed = typed_unit(alloc, unit.externals())?;
    Ok(Typed::new(typed))
}
