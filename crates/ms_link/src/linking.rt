//! Linking.

ghost use Rattle.std.specs.Prelude.{◌≡◌, IfOk, [], map};
ghost use Rattle.ms_link.specs.refinement.Answers.{LinkAnswers, DoesLink};
ghost use Rattle.ms_link.specs.refinement.Fitting.{MadeTyped};
ghost use Rattle.ms_machine.specs.refinement.Holding.{StoreFits};
ghost use Rattle.ms_machine.specs.Linked as linked;
ghost use Rattle.ms_machine.specs.Linked.{StartsTyped};
ghost use Rattle.ms_machine.specs.refinement.Safety.{Sound};
ghost use Rattle.ms_machine.specs.Typing.{StoreTyped, outline_of};
ghost use Rattle.ms_rules.specs.Modules.{AreDistinct};

use crate::adding::add;
use crate::fault::LinkFault;
use crate::storing::store_of;
use ms_import::Made;
use ms_live::Gaps;
use ms_machine::Store;
use ms_module::Name;
use ms_segment::Segments;
use ms_tagged::Tagged;
use ms_valid::Valid;
use std::alloc::Global;

/// What the modules make, in their order, or the first thing that refuses all.
fn made_of(alloc: Global, modules: Vec<(Name, Valid)>) -> Result<Made, LinkFault>
    requires { AreDistinct (map (λ m. m.0) modules.items) }
    ensures made { LinkAnswers (linked.all_more modules.items linked.nothing_made) result }
    ensures typed { IfOk result MadeTyped }
{
    let mut made = Made::new(alloc)?;
    for (name, valid) in modules {
        made = add(alloc, made, name.as_str(), valid.into_module())?;
    }
    Ok(made)
}

/// The store of the modules.
fn store_or_fault<G: Gaps, T: Tagged>(
    alloc: Global,
    modules: Vec<(Name, Valid)>,
    capacity: u32,
) -> Result<Store<Segments<G, T>>, LinkFault>
    requires { AreDistinct (map (λ m. m.0) modules.items) }
    ensures link { DoesLink modules.items capacity result }
    ensures typed { IfOk result (λ s. StoreTyped (outline_of s)) }
    ensures starts { IfOk result StartsTyped }
{
    let made = made_of(alloc, modules)?;
    let store = store_of(alloc, made, capacity)?;
    Ok(store)
}

/// Links modules, each with its name, in this order, with the functions of the host that `env` has: the store with their
/// functions, tables, memories and globals, some of them shared, and an empty segment memory of so many bytes.
///
/// An import is from `env`, from `c`, which is the latest module before that exports the name as a function, or from a module
/// before. The first thing that doesn't link refuses all: module by module its imports in order, then a table or a memory that is
/// too large, then elements and data that reach past the end. Elements and data are written when all modules are there, in order.
/// Each start function is there to be run, in the order of the modules: none has run yet.
///
/// Memory may run out before a fault is found, and after. After an error nothing is left.
pub fn link<G: Gaps, T: Tagged>(
    alloc: Global,
    modules: Vec<(Name, Valid)>,
    capacity: u32,
) -> Result<Store<Segments<G, T>>, LinkFault>
    requires names { AreDistinct (map (λ m. m.0) modules.items) }
    ensures link { DoesLink modules.items capacity result }
    ensures typed { IfOk result (λ s. StoreTyped (outline_of s)) }
    ensures fits { IfOk result StoreFits }
    ensures sound { IfOk result (λ s. Sound [] s []) }
    ensures starts { IfOk result StartsTyped }
{
    store_or_fault(alloc, modules, capacity)
}
