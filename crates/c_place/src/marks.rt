//! Flags of variables, while a unit is walked over.

ghost use Rattle.std.specs.Prelude.{◌≡◌, ◌==◌, ◌||◌, false, [], map, IfOk, OnOk};
ghost use Rattle.c_types.specs.Types.{type_of};
ghost use Rattle.c_typed.specs.Objects.{in_expr, is_whole};
ghost use Rattle.c_typed.specs.Tree.{address, of};
ghost use Rattle.c_place.specs.refinement.Marks.{marked, marked_from};

use c_typed::Variable;
use c_types::CType;
use std::alloc::{AllocError, Global};
use std::marker::Model;
use std::mem;

/// Flags of the slots of a function, and of the variables at file scope.
#[derive(Drop)]
pub struct Marks {
    locals: Vec<bool>,
    globals: Vec<bool>,
    alloc: Global,
}

impl Model for Marks {
    ghost use Rattle.c_place.specs.refinement.Marks.{Marks};

    ghost Value = { Marks };

    ghost view = { λ m. record { locals = m.locals.items; globals = m.globals.items } };
}

impl Marks {
    /// No slots, and variables of these types at file scope, of which arrays and structs are marked.
    pub fn new(alloc: Global, globals: &[CType]) -> Result<Marks, AllocError>
        ensures locals { IfOk result (λ m. m.locals ≡ []) }
        ensures globals { IfOk result (λ m. m.globals ≡ map is_whole (map type_of globals.now)) }
    {
        let globals = wholes(alloc, globals)?;
        Ok(Marks {
            locals: Vec::new(alloc),
            globals,
            alloc,
        })
    }

    /// Goes on with slots of these types, of which arrays and structs are marked.
    pub fn begin(&mut self, slots: &[CType]) -> Result<(), AllocError>
        ensures locals { OnOk result (self.new.locals ≡ map is_whole (map type_of slots.now)) }
        ensures globals { self.new.globals ≡ self.old.globals }
    {
        self.locals = wholes(self.alloc, slots)?;
        Ok(())
    }

    /// The flags of the slots, after which there are none.
    pub fn take_locals(&mut self) -> Vec<bool>
        ensures result { result.items ≡ self.old.locals }
        ensures locals { self.new.locals ≡ [] }
        ensures globals { self.new.globals ≡ self.old.globals }
    {
        mem::replace(&mut self.locals, Vec::new(self.alloc))
    }

    /// The flags of the variables at file scope.
    pub fn into_globals(self) -> Vec<bool>
        ensures { result.items ≡ self.globals }
    {
        self.globals
    }

    /// A variable that an `&` stands before.
    pub fn mark(&mut self, v: Variable)
        ensures { self.new ≡ marked (λ u. in_expr u (address (of v))) self.old }
    {
        match v {
            Variable::Local(n) => set(&mut self.locals, n),
            Variable::Global(n) => set(&mut self.globals, n),
        }
    }
}

/// Sets the flag of this number, if there is one.
fn set(flags: &mut Vec<bool>, n: u32)
    ensures { flags.new.items ≡ marked_from 0 (λ m. m == n || false) flags.old.items }
{
    let place = n as usize;
    if place < flags.len() {
        flags[place] = true;
    }
}

/// Whether each of these types is that of an array or a struct.
fn wholes(alloc: Global, types: &[CType]) -> Result<Vec<bool>, AllocError>
    ensures { IfOk result (λ flags. flags.items ≡ map is_whole (map type_of types.now)) }
{
    let mut flags = Vec::new(alloc);
    for t in types {
        flags.push(whole(t))?;
    }
    Ok(flags)
}

fn whole(t: &CType) -> bool
    ensures { result ≡ is_whole (type_of t.now) }
{
    match t {
        CType::Array(_, _) => true,
        CType::Struct(_) => true,
        CType::Void => false,
        CType::Int(_) => false,
        CType::Pointer(_) => false,
        CType::Function(_) => false,
    }
}
