//! What the code of a function refers to.

ghost use Rattle.std.specs.Prelude.{◌≡◌, ◌+◌, ◌*◌, ◌<◌, ◌^◌, [], get_or, map, IfOk, IfSome};
ghost use Rattle.c_types.specs.Layout as layout;
ghost use Rattle.c_types.specs.Types.{struct, type_of, void};
ghost use Rattle.c_typed.specs.refinement.Views.{place_of, stmt_of, typed_of};
ghost use Rattle.c_code.specs.Expressions.{member_size};
ghost use Rattle.c_code.specs.Modules.{is_object_in, no_slots, start_target, target};
ghost use Rattle.c_code.specs.Targets as words;
ghost use Rattle.c_emit.specs.refinement.Sites.{AreFlags, AreTables};
ghost use Rattle.ms_module.specs.Numbered.{IsPlain};

use crate::operations::width_of;
use crate::tables::Tables;
use c_typed::{Place, Stmt, Typed, Variable};
use c_types::{CType, Scalar, Structs, offset, size};
use ms_module::{Instr, Width};
use std::alloc::{AllocError, Global};
use std::marker::Model;

/// The most bytes of an object, the greatest number of 32 bits.
const MOST: u64 = 4_294_967_295;

/// A body of a unit, or what is done before `main`, with what code refers to there. Contracts see what that is by definition.
#[derive(Drop)]
pub struct Target<'u> {
    unit: &'u Typed,
    /// The types of the slots.
    slots: &'u [CType],
    /// The body; none before `main`.
    body: Option<&'u Stmt>,
    tables: &'u Tables,
    /// Whether each slot is an object.
    locals: &'u [bool],
    /// Whether each variable at file scope is an object.
    globals: &'u [bool],
    /// The local of the first slot.
    first: u32,
    /// The first scratch local.
    scratch: u32,
    alloc: Global,
}

impl<'u> Model for Target<'u> {
    ghost use Rattle.std.specs.Prelude.{map};
    ghost use Rattle.c_types.specs.Types.{type_of};
    ghost use Rattle.c_typed.specs.refinement.Views.{typed_of};
    ghost use Rattle.c_emit.specs.refinement.Codes.{coded_body};
    ghost use Rattle.c_emit.specs.refinement.Sites.{AreFlags, AreTables, Body, body_of};

    ghost Value = { Body };

    ghost coded = { coded_body };

    ghost view = { λ t. body_of t.unit.now t.slots.now t.body t.first t.scratch };

    ghost invariant = { λ t. AreTables (typed_of t.unit.now) t.tables.now × AreFlags (body_of t.unit.now t.slots.now t.body t.first t.scratch).target.is_object t.locals.now t.globals.now };
}

impl<'u> Target<'u> {
    /// In a body, whose slots have these types.
    pub fn of_body(
        alloc: Global,
        unit: &'u Typed,
        tables: &'u Tables,
        slots: &'u [CType],
        body: &'u Stmt,
        locals: &'u [bool],
        globals: &'u [bool],
        first: u32,
        scratch: u32,
    ) -> Target<'u>
        requires tables { AreTables (typed_of unit.now) tables.now }
        requires flags { AreFlags (is_object_in (typed_of unit.now) (stmt_of body.now) (map type_of slots.now)) locals.now globals.now }
        ensures { result.site ≡ record { target = target (typed_of unit.now) (is_object_in (typed_of unit.now) (stmt_of body.now) (map type_of slots.now)) first scratch; slots = map type_of slots.now; globals = (typed_of unit.now).globals } }
    {
        Target {
            unit,
            slots,
            body: Some(body),
            tables,
            locals,
            globals,
            first,
            scratch,
            alloc,
        }
    }

    /// Before `main`.
    pub fn at_start(
        alloc: Global,
        unit: &'u Typed,
        tables: &'u Tables,
        globals: &'u [bool],
    ) -> Target<'u>
        requires tables { AreTables (typed_of unit.now) tables.now }
        requires flags { AreFlags (no_slots (typed_of unit.now)) [] globals.now }
        ensures { result.site ≡ record { target = start_target (typed_of unit.now); slots = []; globals = (typed_of unit.now).globals } }
    {
        Target {
            unit,
            slots: &[],
            body: None,
            tables,
            locals: &[],
            globals,
            first: 0,
            scratch: 0,
            alloc,
        }
    }

    /// The allocator.
    pub fn alloc(&self) -> Global {
        self.alloc
    }

    // ---- variables

    /// Whether a variable is an object.
    pub fn is_object(&self, v: Variable) -> Result<bool, AllocError>
        ensures { IfOk result (λ b. b ≡ self.now.target.is_object v) }
    {
        let flag = match v {
            Variable::Local(n) => self.locals.get(n as usize),
            Variable::Global(n) => self.globals.get(n as usize),
        };
        match flag {
            Some(flag) => Ok(*flag),
            None => Err(AllocError),
        }
    }

    /// The variable that a place is, if it is no object.
    pub fn plain_in(&self, p: &Place) -> Result<Option<Variable>, AllocError>
        ensures { IfOk result (λ v. v ≡ words.plain_in self.now.target (place_of p.now)) }
    {
        let Place::Of(v) = p else {
            return Ok(None);
        };
        let v = *v;
        Ok(if self.is_object(v)? { None } else { Some(v) })
    }

    /// The local of a slot.
    fn local(&self, slot: u32) -> Result<u32, AllocError>
        ensures { IfOk result (λ n. n ≡ self.now.target.first + slot) }
    {
        match self.first.checked_add(slot) {
            Some(n) => Ok(n),
            None => Err(AllocError),
        }
    }

    /// Reads a variable.
    pub fn get(&self, v: Variable) -> Result<Instr, AllocError>
        ensures is { IfOk result (λ i. i ≡ words.get self.now.target v) }
        ensures plain { IfOk result (λ i. IsPlain i) }
    {
        match v {
            Variable::Local(n) => Ok(Instr::LocalGet(self.local(n)?)),
            Variable::Global(n) => Ok(Instr::GlobalGet(n)),
        }
    }

    /// Sets a variable.
    pub fn set(&self, v: Variable) -> Result<Instr, AllocError>
        ensures is { IfOk result (λ i. i ≡ words.set self.now.target v) }
        ensures plain { IfOk result (λ i. IsPlain i) }
    {
        match v {
            Variable::Local(n) => Ok(Instr::LocalSet(self.local(n)?)),
            Variable::Global(n) => Ok(Instr::GlobalSet(n)),
        }
    }

    // ---- scratch locals

    fn scratch_at(&self, place: u32) -> Result<u32, AllocError>
        ensures { IfOk result (λ n. n ≡ self.now.target.scratch + place) }
    {
        match self.scratch.checked_add(place) {
            Some(n) => Ok(n),
            None => Err(AllocError),
        }
    }

    /// Of an i64.
    pub fn scratch_i64(&self) -> Result<u32, AllocError>
        ensures { IfOk result (λ n. n ≡ words.scratch_i64 self.now.target) }
    {
        self.scratch_at(1)
    }

    /// Of a handle that is a value.
    pub fn scratch_handle(&self) -> Result<u32, AllocError>
        ensures { IfOk result (λ n. n ≡ words.scratch_handle self.now.target) }
    {
        self.scratch_at(2)
    }

    /// Of a handle that is a place.
    pub fn scratch_place(&self) -> Result<u32, AllocError>
        ensures { IfOk result (λ n. n ≡ words.scratch_place self.now.target) }
    {
        self.scratch_at(3)
    }

    /// Of an integer of a width.
    pub fn scratch_of_width(&self, width: Width) -> Result<u32, AllocError>
        ensures { IfOk result (λ n. n ≡ words.scratch_of_width self.now.target width) }
    {
        match width {
            Width::W32 => Ok(self.scratch),
            Width::W64 => self.scratch_at(1),
        }
    }

    /// Of a scalar.
    pub fn scratch_of(&self, scalar: Scalar) -> Result<u32, AllocError>
        ensures { IfOk result (λ n. n ≡ words.scratch_of self.now.target scalar) }
    {
        match scalar {
            Scalar::Int(t) => self.scratch_of_width(width_of(t)),
            Scalar::Pointer => self.scratch_at(2),
            Scalar::Function => Ok(self.scratch),
        }
    }

    /// Of the value that waits while `d` others do.
    pub fn waiting(&self, d: u32) -> Result<u32, AllocError>
        ensures { IfOk result (λ n. n ≡ words.waiting self.now.target d) }
    {
        match d.checked_add(4) {
            Some(place) => self.scratch_at(place),
            None => Err(AllocError),
        }
    }

    // ---- functions and literals

    /// The index of a function.
    pub fn index(&self, number: u32) -> Result<u32, AllocError>
        ensures { IfOk result (λ i. i ≡ self.now.target.index number) }
    {
        self.tables.index(number)
    }

    /// Its entry in the table.
    pub fn entry(&self, number: u32) -> Result<u32, AllocError>
        ensures { IfOk result (λ i. i ≡ self.now.target.entry number) }
    {
        self.tables.entry(number)
    }

    /// The type of a function that is called through a pointer.
    pub fn sig(&self, t: &CType) -> Result<u32, AllocError>
        ensures { IfOk result (λ n. n ≡ self.now.target.sig (type_of t.now)) }
    {
        self.tables.sig(t)
    }

    /// The global of a literal.
    pub fn literal(&self, number: u32) -> Result<u32, AllocError>
        ensures { IfOk result (λ n. n ≡ self.now.target.globals + number) }
    {
        let Ok(globals) = u32::try_from(self.unit.unit().globals.len()) else {
            return Err(AllocError);
        };
        match globals.checked_add(number) {
            Some(n) => Ok(n),
            None => Err(AllocError),
        }
    }

    // ---- types

    /// The types of structs.
    pub fn structs(&self) -> &Structs
        ensures { result.now ≡ self.now.target.structs }
    {
        &self.unit.unit().structs
    }

    /// The type of a slot.
    pub fn slot_type(&self, slot: u32) -> Result<&CType, AllocError>
        ensures { IfOk result (λ t. type_of t.now ≡ get_or self.now.slots slot void) }
    {
        match self.slots.get(slot as usize) {
            Some(t) => Ok(t),
            None => Err(AllocError),
        }
    }

    /// The type of a variable at file scope.
    pub fn global_type(&self, number: u32) -> Result<&CType, AllocError>
        ensures { IfOk result (λ t. type_of t.now ≡ get_or self.now.globals number void) }
    {
        match self.unit.unit().globals.get(number as usize) {
            Some(t) => Ok(t),
            None => Err(AllocError),
        }
    }

    /// The size of a type. `Err`: it has none below 2^32.
    pub fn size(&self, t: &CType) -> Result<u32, AllocError>
        ensures { IfOk result (λ n. n ≡ layout.size self.now.target.structs (type_of t.now)) }
    {
        sized(self.structs(), t)
    }

    /// The bytes of so many elements of a type.
    pub fn length(&self, t: &CType, n: u32) -> Result<u32, AllocError>
        ensures { IfOk result (λ k. k ≡ n * layout.size self.now.target.structs (type_of t.now)) }
    {
        match self.size(t)?.checked_mul(n) {
            Some(length) => Ok(length),
            None => Err(AllocError),
        }
    }

    /// Where a member begins in its struct, and its size.
    pub fn member(&self, number: u32, index: u32) -> Result<(u32, u32), AllocError>
        ensures { IfOk result (λ m. (m.0 ≡ layout.offset self.now.target.structs (struct number) index) × (m.1 ≡ member_size self.now.target number index)) }
    {
        let structs = self.structs();
        if !structs.is_defined(number) {
            return Err(AllocError);
        }
        let Some(t) = structs.members(number).get(index as usize) else {
            return Err(AllocError);
        };
        let Ok(from) = u32::try_from(offset(structs, &CType::Struct(number), index)) else {
            return Err(AllocError);
        };
        Ok((from, self.size(t)?))
    }
}

/// The size of a type (C11, 6.5.3.4). `Err`: it has none below 2^32.
pub fn sized(structs: &Structs, t: &CType) -> Result<u32, AllocError>
    ensures { IfOk result (λ n. n ≡ layout.size structs.now (type_of t.now)) }
{
    match measured(structs, t) {
        Some(n) => u32::try_from(n).map_err(|_| AllocError),
        None => Err(AllocError),
    }
}

/// The size of a type that has one, below 2^32 bytes.
fn measured(structs: &Structs, t: &CType) -> Option<u64>
    ensures is { IfSome result (λ n. n ≡ layout.size structs.now (type_of t.now)) }
    ensures small { IfSome result (λ n. n < 2 ^ 32) }
{
    match t {
        CType::Void => None,
        CType::Int(t) => Some(u64::from(t.bits() / 8)),
        CType::Struct(n) => struct_size(structs, *n),
        CType::Pointer(target) => Some(if target.is_function() { 4 } else { 16 }),
        CType::Array(element, n) => {
            let bytes = measured(structs, element)?;
            so_many(*n, bytes)
        }
        CType::Function(_) => None,
    }
}

/// The size of a struct that is defined.
fn struct_size(structs: &Structs, number: u32) -> Option<u64>
    ensures is { IfSome result (λ n. n ≡ layout.size structs.now (struct number)) }
    ensures small { IfSome result (λ n. n < 2 ^ 32) }
{
    if !structs.is_defined(number) {
        return None;
    }
    let bytes = size(structs, &CType::Struct(number));
    if bytes <= MOST { Some(bytes) } else { None }
}

/// So many elements of so many bytes.
fn so_many(n: u32, bytes: u64) -> Option<u64>
    requires { bytes < 2 ^ 32 }
    ensures is { IfSome result (λ all. all ≡ n * bytes) }
    ensures small { IfSome result (λ all. all < 2 ^ 32) }
{
    let all = u64::from(n) * bytes;
    if all <= MOST { Some(all) } else { None }
}
