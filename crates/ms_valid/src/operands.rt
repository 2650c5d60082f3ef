//! The operands that an algorithm of typing keeps (WebAssembly 1.0, appendix A.3).

ghost use Rattle.std.specs.Prelude.{◌≡◌, [], ◌∷◌, reverse, OnOk, IsTrue, ◌↔◌, false};
ghost use Rattle.ms_rules.specs.Typing.{DropTyped, types};
ghost use Rattle.ms_valid.specs.refinement.Shape.{shape, Admits, Allows, DecidesOn, Becomes, Gives, Jumps, Takes, front, behind};

use ms_types::{Stack, ValType};
use std::alloc::{AllocError, Global};
use std::marker::Model;

/// The types of the operands since the start of a block, None being any type. In dead code any further ones lie below.
#[derive(Drop)]
pub struct Operands {
    slots: Stack<Option<ValType>>,
    dead: bool,
}

impl Model for Operands {
    ghost use Rattle.ms_valid.specs.refinement.Shape.{Shape, shape};

    ghost Value = { Shape };

    ghost view = { λ o. shape o.slots o.dead };
}

impl Operands {
    /// No operands. Takes no memory.
    pub fn new(alloc: Global) -> Self
        ensures { result ≡ shape [] false }
    {
        Operands {
            slots: Stack::new(alloc),
            dead: false,
        }
    }

    /// Drops all operands and keeps their memory.
    pub fn clear(&mut self)
        ensures { self.new ≡ shape [] false }
    {
        self.slots.clear();
        self.dead = false;
    }

    /// Puts a slot on top.
    pub fn push(&mut self, slot: Option<ValType>) -> Result<(), AllocError>
        ensures { OnOk result (self.new ≡ shape (slot ∷ self.old.slots) self.old.dead) }
    {
        self.slots.push(slot)?;
        Ok(())
    }

    /// Takes the topmost slot. In dead code there always is one.
    pub fn pop(&mut self) -> Option<Option<ValType>>
        ensures slot { result ≡ front self.old.slots self.old.dead }
        ensures shape { self.new ≡ shape (behind self.old.slots) self.old.dead }
    {
        if self.slots.len() == 0 {
            return if self.dead { Some(None) } else { None };
        }
        Some(self.slots.pop())
    }

    /// What follows is dead code.
    #[tactic(auto, using(crate::proofs::Shapes::jumps))]
    pub fn jump(&mut self)
        ensures { Becomes self.old Jumps self.new }
    {
        self.slots.clear();
        self.dead = true;
    }

    /// Gives an operand of this type.
    pub fn give(&mut self, ty: ValType) -> Result<(), AllocError>
        ensures { OnOk result (Becomes self.old (Gives (ty ∷ [])) self.new) }
    {
        self.push(Some(ty))?;
        Ok(())
    }

    /// Takes an operand of this type, if one may be there.
    pub fn take(&mut self, ty: ValType) -> bool
        ensures { DecidesOn result self.old (Takes (ty ∷ [])) self.new }
    {
        match self.pop() {
            None => false,
            Some(slot) => allows(slot, ty),
        }
    }

    /// Takes an operand of any type.
    pub fn take_any(&mut self) -> bool
        ensures { DecidesOn result self.old DropTyped self.new }
    {
        match self.pop() {
            None => false,
            Some(_) => true,
        }
    }

    /// Gives the operand of a result type, if it has one.
    pub fn give_result(&mut self, ty: Option<ValType>) -> Result<(), AllocError>
        ensures { OnOk result (Becomes self.old (Gives (types ty)) self.new) }
    {
        match ty {
            None => Ok(()),
            Some(ty) => self.give(ty),
        }
    }

    /// Takes the operand of a result type, if it has one.
    pub fn take_result(&mut self, ty: Option<ValType>) -> bool
        ensures { DecidesOn result self.old (Takes (types ty)) self.new }
    {
        match ty {
            None => true,
            Some(ty) => self.take(ty),
        }
    }

    /// Takes operands of these types, the last one topmost.
    pub fn take_params(&mut self, params: &[ValType]) -> bool
        ensures { DecidesOn result self.old (Takes (reverse params.now)) self.new }
    {
        let mut i = params.len();
        while i > 0 {
            i -= 1;
            if !self.take(params[i]) {
                return false;
            }
        }
        true
    }

    /// Whether these may be the operands of this result type and no others.
    pub fn ends(&self, ty: Option<ValType>) -> bool
        ensures { IsTrue result ↔ Admits self.now (types ty) }
    {
        match ty {
            None => self.slots.len() == 0,
            Some(ty) => self.ends_with(ty),
        }
    }

    fn ends_with(&self, ty: ValType) -> bool
        ensures { IsTrue result ↔ Admits self.now (ty ∷ []) }
    {
        match self.slots.len() {
            0 => self.dead,
            1 => allows(self.slots.get(0), ty),
            _ => false,
        }
    }
}

/// Whether the slot admits the type.
fn allows(slot: Option<ValType>, ty: ValType) -> bool
    ensures { IsTrue result ↔ Allows slot ty }
{
    match slot {
        None => true,
        Some(slot) => slot == ty,
    }
}
