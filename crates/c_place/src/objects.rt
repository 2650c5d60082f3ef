//! The objects of a unit.

ghost use Rattle.std.specs.Prelude.{◌≡◌, [], map, IfOk, OnOk};
ghost use Rattle.c_meaning.specs.Units.{in_body, in_functions, in_made, in_values};
ghost use Rattle.c_typed.specs.refinement.Views.{body_of, function_of, list_of, made_of, typed_of};
ghost use Rattle.c_place.specs.refinement.Flags.{flags, of_function};
ghost use Rattle.c_place.specs.refinement.Marks.{in_one, marked_from};

use crate::marks::Marks;
use crate::walk::stmt;
use c_typed::{Function, Made, Stmt, Typed};
use ms_types::Vector;
use std::alloc::{AllocError, Global};
use std::marker::Model;

/// Which variables of a unit are objects.
#[derive(Drop)]
pub struct Objects {
    /// For each function, by its number, a flag for each slot; none where it has no body.
    pub functions: Vec<Vector<bool>>,
    /// A flag for each variable at file scope, by its number.
    pub globals: Vec<bool>,
}

/// Which variables of the unit are objects, in time and memory linear in it.
pub fn find_objects(alloc: Global, unit: &Typed) -> Result<Objects, AllocError>
    ensures functions { IfOk result (λ o. o.functions.items ≡ (flags (typed_of unit.now)).functions) }
    ensures globals { IfOk result (λ o. o.globals.items ≡ (flags (typed_of unit.now)).globals) }
{
    let unit = unit.unit();
    let mut marks = Marks::new(alloc, &unit.globals)?;
    made(&mut marks, &unit.made);
    let functions = functions(alloc, &mut marks, &unit.functions)?;
    Ok(Objects {
        functions,
        globals: marks.into_globals(),
    })
}

/// Values at file scope.
fn values(marks: &mut Marks, ss: &[Stmt])
    requires { marks.old.locals ≡ [] }
    ensures locals { marks.new.locals ≡ [] }
    ensures globals { marks.new.globals ≡ marked_from 0 (λ n. in_values n (list_of ss.now)) marks.old.globals }
{
    for s in ss {
        stmt(marks, s);
    }
}

/// What is made before `main`.
fn made(marks: &mut Marks, made: &[Made])
    requires { marks.old.locals ≡ [] }
    ensures locals { marks.new.locals ≡ [] }
    ensures globals { marks.new.globals ≡ marked_from 0 (λ n. in_made n (map made_of made.now)) marks.old.globals }
{
    for m in made {
        one(marks, m);
    }
}

/// One thing that is made.
fn one(marks: &mut Marks, m: &Made)
    requires { marks.old.locals ≡ [] }
    ensures locals { marks.new.locals ≡ [] }
    ensures globals { marks.new.globals ≡ marked_from 0 (λ n. in_one n (made_of m.now)) marks.old.globals }
{
    match m {
        Made::Global(_, ss) => values(marks, ss),
        Made::Literal(_) => {}
    }
}

/// The flags of the slots of a function.
fn function(alloc: Global, marks: &mut Marks, f: &Function) -> Result<Vector<bool>, AllocError>
    ensures locals { IfOk result (λ flags. flags ≡ of_function (function_of f.now)) }
    ensures globals { OnOk result (marks.new.globals ≡ marked_from 0 (λ n. in_body n (body_of f.now.body)) marks.old.globals) }
{
    match &f.body {
        None => Ok(Vector::new(alloc)),
        Some(body) => {
            marks.begin(&f.slots)?;
            stmt(marks, body);
            Ok(Vector::from_vec(marks.take_locals()))
        }
    }
}

/// The flags of the slots of each function.
fn functions(
    alloc: Global,
    marks: &mut Marks,
    fs: &[Function],
) -> Result<Vec<Vector<bool>>, AllocError>
    ensures locals { IfOk result (λ all. all.items ≡ map of_function (map function_of fs.now)) }
    ensures globals { OnOk result (marks.new.globals ≡ marked_from 0 (λ n. in_functions n (map function_of fs.now)) marks.old.globals) }
{
    let mut all = Vec::new(alloc);
    for f in fs {
        all.push(function(alloc, marks, f)?)?;
    }
    Ok(all)
}
