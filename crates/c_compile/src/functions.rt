//! The code of functions (C11, 6.9.1), and of what is done before `main` (5.1.2.2.1).

ghost use Rattle.std.specs.Prelude.{◌≡◌, ◌+◌, ◌≤◌, ◌==◌, ◌∷◌, ◌++◌, Bool, List, [], Some, get_or, length, map, replicate, reverse, if◌then◌else◌, IfOk, OnOk};
ghost use Rattle.std.specs.List.{list_any};
ghost use Rattle.ms_emit.specs.Codes.{◌⨾◌, no_code, one, plain};
ghost use Rattle.ms_emit.specs.refinement.Parts.{Adds};
ghost use Rattle.ms_module.specs.Building.{State};
ghost use Rattle.ms_module.specs.declared.access.Segment.TheVariants as segment;
ghost use Rattle.ms_module.specs.declared.instr.Instr.TheVariants as instructions;
ghost use Rattle.c_types.specs.Layout as layout;
ghost use Rattle.c_types.specs.Types.{Ty, scalar_of, type_of, void};
ghost use Rattle.c_typed.specs.Tree as tree;
ghost use Rattle.c_typed.specs.refinement.Views.{function_of, list_of, made_of, stmt_of, typed_of};
ghost use Rattle.c_typed.specs.declared.ops.Variable.{Variable};
ghost use Rattle.c_typed.specs.declared.ops.Variable.TheVariants as variables;
ghost use Rattle.c_meaning.specs.Units.{string};
ghost use Rattle.c_place.specs.refinement.Flags.{flags as unit_flags, slots_from};
ghost use Rattle.c_typed.specs.Units.{numbers};
ghost use Rattle.c_code.specs.Functions as words;
ghost use Rattle.c_code.specs.Modules as modules;
ghost use Rattle.c_code.specs.Modules.{func_of, start_func};
ghost use Rattle.c_code.specs.Statements as statements;
ghost use Rattle.c_code.specs.Targets as targets;
ghost use Rattle.c_code.specs.Uses.{waits_stmt};
ghost use Rattle.c_emit.specs.refinement.Sites.{AreFlags, AreTables};

use crate::statements::stmt;
use crate::waits::{waits_made, waits_stmt};
use c_emit::adding::{add, add_three, add_two};
use c_emit::blocks::{make, put_bytes};
use c_emit::body::Body;
use c_emit::exits::{Exits, free_last};
use c_emit::leaves::sum;
use c_emit::operations::{store, val_type, zero_of};
use c_emit::tables::{Tables, number as count_of};
use c_emit::target::Target;
use c_typed::{Function, Made, Stmt, Typed, Variable};
use c_types::CType;
use ms_module::{Code, Func, Instr, Locals, Segment};
use ms_types::ValType;
use std::alloc::{AllocError, Global};

/// The function of the machine for the function of C of this number.
pub fn func<'u>(
    alloc: Global,
    unit: &'u Typed,
    tables: &'u Tables,
    globals: &'u [bool],
    number: u32,
    f: &'u Function,
    flags: &'u [bool],
    s: &'u Stmt,
    room: u32,
) -> Result<Func, AllocError>
    requires tables { AreTables (typed_of unit.now) tables.now }
    requires flags { flags.now ≡ slots_from (stmt_of s.now) 0 (function_of f.now).slots }
    requires globals { globals.now ≡ (unit_flags (typed_of unit.now)).globals }
    ensures { IfOk result (λ g. g ∷ [] ≡ func_of (typed_of unit.now) number (function_of f.now) (Some (stmt_of s.now))) }
{
    let params = params_in(&f.ty).len();
    // the slots of a function that is well typed begin with its parameters
    if flags.len() < params || f.slots.len() < params {
        return Err(AllocError);
    }
    let first = first_of(flags, params)?;
    let scratch = sum(first, count_of(f.slots.len())?)?;
    let target = Target::of_body(
        alloc, unit, tables, &f.slots, s, flags, globals, first, scratch,
    );
    func_at(alloc, &target, first, number, f, s, room)
}

/// A function whose first slot has this local.
fn func_at(
    alloc: Global,
    t: &Target,
    first: u32,
    number: u32,
    f: &Function,
    s: &Stmt,
    room: u32,
) -> Result<Func, AllocError>
    requires first { first ≡ t.now.target.first }
    requires slots { t.now.slots ≡ (function_of f.now).slots }
    requires params { length (words.params_in (type_of f.now.ty)) ≤ length f.now.slots.items }
    ensures { IfOk result (λ g. g ≡ record { sig = 3 + number; locals = words.locals t.now.target (length (words.params_in (type_of f.now.ty))) t.now.slots (waits_stmt (stmt_of s.now)); body = words.body t.now.target (function_of f.now) (stmt_of s.now) }) }
{
    let params = params_in(&f.ty);
    let waits = waits_stmt(s)?;
    Ok(Func {
        sig: sum(3, number)?,
        locals: locals(alloc, t, first, params.len(), &f.slots, waits)?,
        body: body(alloc, t, first, f, params, s, room)?,
    })
}

/// The types of the parameters of a function.
fn params_in(t: &CType) -> &[CType]
    ensures { map type_of result.now ≡ words.params_in (type_of t.now) }
{
    match t {
        CType::Function(f) => &f.params,
        CType::Void => &[],
        CType::Int(_) => &[],
        CType::Struct(_) => &[],
        CType::Pointer(_) => &[],
        CType::Array(_, _) => &[],
    }
}

/// The type of the result of a function.
fn result_in(t: &CType) -> &CType
    ensures { type_of result.now ≡ words.result_in (type_of t.now) }
{
    match t {
        CType::Function(f) => &f.result,
        CType::Void => t,
        CType::Int(_) => t,
        CType::Struct(_) => t,
        CType::Pointer(_) => t,
        CType::Array(_, _) => t,
    }
}

/// The local of the first slot: slots stand behind the parameters where one of these, so many, is an object.
fn first_of(flags: &[bool], params: usize) -> Result<u32, AllocError>
    requires { params ≤ length flags.now }
    ensures { (u : tree.Typed) (p : Variable → Bool) (globals : List Bool) → AreFlags p flags.now globals → IfOk result (λ n. n ≡ modules.first_of u p params) }
{
    if !is_any_set(&flags[..params]) {
        return Ok(0);
    }
    count_of(params)
}

fn is_any_set(flags: &[bool]) -> bool
    ensures { result ≡ list_any (λ flag. flag) flags.now }
{
    for flag in flags {
        if *flag {
            return true;
        }
    }
    false
}

// ---- locals

/// The locals that are declared: the slots, of which the parameters, so many, are the first where no slot stands behind them, the
/// scratch locals, and those of values that wait.
fn locals(
    alloc: Global,
    t: &Target,
    first: u32,
    params: usize,
    slots: &[CType],
    waits: u32,
) -> Result<Locals, AllocError>
    requires first { first ≡ t.now.target.first }
    requires params { params ≤ length slots.now }
    ensures { IfOk result (λ ls. ls ≡ words.locals t.now.target params (map type_of slots.now) waits) }
{
    let mut locals = Locals::new(alloc);
    let skipped = skipped(first, params);
    add_slots(&mut locals, t, skipped, &slots[skipped..])?;
    add_scratch(&mut locals, t, waits)?;
    Ok(locals)
}

/// How many slots are parameters.
fn skipped(first: u32, params: usize) -> usize
    ensures { result ≡ (if first == 0 then params else 0) }
{
    if first == 0 { params } else { 0 }
}

/// The slots of these types, the first of which has this number.
fn add_slots(
    locals: &mut Locals,
    t: &Target,
    from: usize,
    slots: &[CType],
) -> Result<(), AllocError>
    ensures { OnOk result (locals.new ≡ locals.old ++ words.slots_from t.now.target from (map type_of slots.now)) }
{
    let mut number = count_of(from)?;
    for ty in slots {
        let is_object = t.is_object(Variable::Local(number))?;
        add_local(locals, 1, held_as(is_object, ty))?;
        number = sum(number, 1)?;
    }
    Ok(())
}

/// The scratch locals, and those of so many values that wait.
fn add_scratch(locals: &mut Locals, _t: &Target, waits: u32) -> Result<(), AllocError>
    ensures { OnOk result (locals.new ≡ locals.old ++ words.scratch_locals _t.now.target waits) }
{
    add_local(locals, 1, ValType::I32)?;
    add_local(locals, 1, ValType::I64)?;
    add_local(locals, 2, ValType::Handle)?;
    add_local(locals, waits, ValType::I32)
}

/// So many locals of a type.
fn add_local(locals: &mut Locals, count: u32, ty: ValType) -> Result<(), AllocError>
    ensures { OnOk result (locals.new ≡ locals.old ++ replicate count ty) }
{
    if locals.len() as u64 + u64::from(count) > 4_294_967_295 {
        return Err(AllocError);
    }
    locals.push(count, ty)
}

/// What a variable is held in.
pub fn held_as(is_object: bool, t: &CType) -> ValType
    ensures { result ≡ words.held_as is_object (type_of t.now) }
{
    if is_object {
        return ValType::Handle;
    }
    match t.scalar() {
        Some(scalar) => val_type(scalar),
        None => ValType::Handle,
    }
}

// ---- bodies

/// The body of a function.
fn body(
    alloc: Global,
    t: &Target,
    first: u32,
    f: &Function,
    params: &[CType],
    s: &Stmt,
    room: u32,
) -> Result<Code, AllocError>
    requires first { first ≡ t.now.target.first }
    requires slots { t.now.slots ≡ (function_of f.now).slots }
    requires params { map type_of params.now ≡ words.params_in (type_of f.now.ty) }
    ensures { IfOk result (λ code. code ≡ words.body t.now.target (function_of f.now) (stmt_of s.now)) }
{
    let mut objects = param_objects(alloc, t, params.len())?;
    let mut body = Body::new(alloc, room)?;
    add_body(
        &mut body,
        t,
        first,
        params,
        &mut objects,
        s,
        result_in(&f.ty),
    )?;
    finished(body)
}

/// A body whose blocks have all ended.
fn finished(body: Body) -> Result<Code, AllocError>
    ensures { IfOk result (λ code. code ≡ body.seqs) }
{
    if body.depth() != 0 {
        return Err(AllocError);
    }
    Ok(body.finish())
}

/// The parameters that are objects, the last one first.
fn param_objects(alloc: Global, t: &Target, count: usize) -> Result<Vec<Variable>, AllocError>
    ensures { IfOk result (λ vs. reverse vs.items ≡ statements.objects_in t.now.target t.now.slots (numbers count)) }
{
    let mut objects = Vec::new(alloc);
    let mut left = count_of(count)?;
    while left > 0 {
        left -= 1;
        add_object(&mut objects, t, left)?;
    }
    Ok(objects)
}

/// A slot, if it is an object.
fn add_object(objects: &mut Vec<Variable>, t: &Target, slot: u32) -> Result<(), AllocError>
    ensures { OnOk result (reverse objects.new.items ≡ statements.objects_in t.now.target t.now.slots (slot ∷ []) ++ reverse objects.old.items) }
{
    if !t.is_object(Variable::Local(slot))? {
        return Ok(());
    }
    objects.push(Variable::Local(slot))?;
    Ok(())
}

/// Parameters, the statement, and the result.
fn add_body(
    body: &mut Body,
    t: &Target,
    first: u32,
    params: &[CType],
    objects: &mut Vec<Variable>,
    s: &Stmt,
    result_type: &CType,
) -> Result<(), AllocError>
    requires { first ≡ t.now.target.first }
    ensures { OnOk result (Adds body.old body.new (words.params t.now.target (map type_of params.now) ⨾ statements.stmt t.now.target t.now.slots 0 (statements.at_body (reverse objects.old.items)) (stmt_of s.now) ⨾ statements.freed t.now.target (reverse objects.old.items) ⨾ words.result t.now.target (scalar_of (type_of result_type.now)))) }
{
    add_params(body, t, first, params)?;
    add_stmt(body, t, objects, s)?;
    free_all(body, t, objects)?;
    add_result(body, t, result_type)
}

/// The statement of a body, in which these parameters are objects.
fn add_stmt(
    body: &mut Body,
    t: &Target,
    objects: &mut Vec<Variable>,
    s: &Stmt,
) -> Result<(), AllocError>
    ensures code { OnOk result (Adds body.old body.new (statements.stmt t.now.target t.now.slots 0 (statements.at_body (reverse objects.old.items)) (stmt_of s.now))) }
    ensures objects { OnOk result (objects.new.items ≡ objects.old.items) }
{
    stmt(body, t, objects, 0, Exits::at_body(), s)
}

/// Frees objects, the last one first.
fn free_all(body: &mut Body, t: &Target, objects: &[Variable]) -> Result<(), AllocError>
    ensures { OnOk result (Adds body.old body.new (statements.freed t.now.target (reverse objects.now))) }
{
    free_last(body, t, objects, objects.len())
}

/// A result that is missing is 0.
fn add_result(body: &mut Body, _t: &Target, result_type: &CType) -> Result<(), AllocError>
    ensures { OnOk result (Adds body.old body.new (words.result _t.now.target (scalar_of (type_of result_type.now)))) }
{
    match result_type.scalar() {
        Some(scalar) => add(body, zero_of(scalar)),
        None => Ok(()),
    }
}

// ---- parameters

/// Copies each parameter to its slot, where it has one of its own.
fn add_params(body: &mut Body, t: &Target, first: u32, params: &[CType]) -> Result<(), AllocError>
    requires { first ≡ t.now.target.first }
    ensures { OnOk result (Adds body.old body.new (words.params t.now.target (map type_of params.now))) }
{
    if first == 0 {
        return Ok(());
    }
    copy_params(body, t, params)
}

fn copy_params(body: &mut Body, t: &Target, params: &[CType]) -> Result<(), AllocError>
    ensures { OnOk result (Adds body.old body.new (words.params_from t.now.target 0 (map type_of params.now))) }
{
    let mut number = 0u32;
    for ty in params {
        number = copy_param(body, t, number, ty)?;
    }
    Ok(())
}

/// One parameter; the number of the next one.
fn copy_param(body: &mut Body, t: &Target, n: u32, ty: &CType) -> Result<u32, AllocError>
    ensures { (rest : List Ty) (final : State) → IfOk result (λ k. Adds body.new final (words.params_from t.now.target k rest) → Adds body.old final (words.params_from t.now.target n (type_of ty.now ∷ rest))) }
{
    add_param(body, t, n, ty)?;
    sum(n, 1)
}

#[tactic(auto, using(c_emit::proofs::Steps::then))]
fn add_param(body: &mut Body, t: &Target, n: u32, ty: &CType) -> Result<(), AllocError>
    ensures { OnOk result (Adds body.old body.new (words.param t.now.target (t.now.target.is_object (variables.Local n)) n (type_of ty.now))) }
{
    let v = Variable::Local(n);
    if !t.is_object(v)? {
        return add_two(body, Instr::LocalGet(n), t.set(v)?);
    }
    make(body, t, v, t.size(ty)?)?;
    add_two(body, t.get(v)?, Instr::LocalGet(n))?;
    match ty.scalar() {
        Some(scalar) => add(body, store(scalar)),
        None => Ok(()),
    }
}

// ---- before `main`: objects are made in the order of their tokens, and then initialised in that order

/// The start function.
pub fn start<'u>(
    alloc: Global,
    unit: &'u Typed,
    tables: &'u Tables,
    globals: &'u [bool],
    room: u32,
) -> Result<Func, AllocError>
    requires tables { AreTables (typed_of unit.now) tables.now }
    requires globals { globals.now ≡ (unit_flags (typed_of unit.now)).globals }
    ensures { IfOk result (λ g. g ≡ start_func (typed_of unit.now)) }
{
    let target = Target::at_start(alloc, unit, tables, globals);
    start_at(alloc, &target, &unit.unit().made, room)
}

/// The start function, in which no slot is declared.
fn start_at(alloc: Global, t: &Target, made: &[Made], room: u32) -> Result<Func, AllocError>
    requires first { t.now.target.first ≡ 0 }
    requires slots { t.now.slots ≡ [] }
    ensures { (u : tree.Typed) → IfOk result (λ g. g ≡ record { sig = 2; locals = words.locals t.now.target 0 [] (modules.waits_made u (map made_of made.now)); body = words.start t.now.target t.now.globals (map made_of made.now) }) }
{
    let waits = waits_made(made)?;
    Ok(Func {
        sig: 2,
        locals: locals(alloc, t, 0, 0, &[], waits)?,
        body: start_body(alloc, t, made, room)?,
    })
}

#[tactic(auto, using(c_emit::proofs::Steps::then))]
fn add_start(body: &mut Body, t: &Target, made: &[Made]) -> Result<(), AllocError>
    requires { t.now.slots ≡ [] }
    ensures { OnOk result (Adds body.old body.new (words.makes t.now.target t.now.globals 0 (map made_of made.now) ⨾ words.gives t.now.target 0 (map made_of made.now))) }
{
    make_all(body, t, made)?;
    give_all(body, t, made)
}

fn start_body(alloc: Global, t: &Target, made: &[Made], room: u32) -> Result<Code, AllocError>
    requires { t.now.slots ≡ [] }
    ensures { IfOk result (λ code. code ≡ words.start t.now.target t.now.globals (map made_of made.now)) }
{
    let mut body = Body::new(alloc, room)?;
    add_start(&mut body, t, made)?;
    finished(body)
}

fn make_all(body: &mut Body, t: &Target, made: &[Made]) -> Result<(), AllocError>
    ensures { OnOk result (Adds body.old body.new (words.makes t.now.target t.now.globals 0 (map made_of made.now))) }
{
    let mut literals = 0u32;
    for m in made {
        literals = make_one(body, t, literals, m)?;
    }
    Ok(())
}

/// One object, behind so many literals; how many literals there are then.
fn make_one(body: &mut Body, t: &Target, literals: u32, m: &Made) -> Result<u32, AllocError>
    ensures { (rest : List tree.Made) (final : State) → IfOk result (λ k. Adds body.new final (words.makes t.now.target t.now.globals k rest) → Adds body.old final (words.makes t.now.target t.now.globals literals (made_of m.now ∷ rest))) }
{
    match m {
        Made::Global(n, _) => {
            make_global(body, t, *n)?;
            Ok(literals)
        }
        Made::Literal(bytes) => {
            make_literal(body, t, literals, bytes)?;
            sum(literals, 1)
        }
    }
}

/// The object of a variable that is one.
fn make_global(body: &mut Body, t: &Target, n: u32) -> Result<(), AllocError>
    ensures { OnOk result (Adds body.old body.new (if t.now.target.is_object (variables.Global n) then statements.made t.now.target (variables.Global n) (layout.size t.now.target.structs (get_or t.now.globals n void)) else no_code)) }
{
    let v = Variable::Global(n);
    if !t.is_object(v)? {
        return Ok(());
    }
    make(body, t, v, t.size(t.global_type(n)?)?)
}

/// The object of a literal of this number.
fn make_literal(body: &mut Body, t: &Target, number: u32, bytes: &[u8]) -> Result<(), AllocError>
    ensures { OnOk result (Adds body.old body.new (statements.made t.now.target (variables.Global (t.now.target.globals + number)) (layout.size t.now.target.structs (string bytes.now)))) }
{
    let v = Variable::Global(t.literal(number)?);
    let size = sum(count_of(bytes.len())?, 1)?;
    make(body, t, v, size)
}

fn give_all(body: &mut Body, t: &Target, made: &[Made]) -> Result<(), AllocError>
    requires { t.now.slots ≡ [] }
    ensures { OnOk result (Adds body.old body.new (words.gives t.now.target 0 (map made_of made.now))) }
{
    let mut literals = 0u32;
    for m in made {
        literals = give_one(body, t, literals, m)?;
    }
    Ok(())
}

/// What one object is given, behind so many literals; how many literals there are then.
fn give_one(body: &mut Body, t: &Target, literals: u32, m: &Made) -> Result<u32, AllocError>
    requires { t.now.slots ≡ [] }
    ensures { (rest : List tree.Made) (final : State) → IfOk result (λ k. Adds body.new final (words.gives t.now.target k rest) → Adds body.old final (words.gives t.now.target literals (made_of m.now ∷ rest))) }
{
    match m {
        Made::Global(_, ss) => {
            give_values(body, t, ss)?;
            Ok(literals)
        }
        Made::Literal(bytes) => {
            let n = t.literal(literals)?;
            fill_literal(body, t, n, bytes)?;
            seal_literal(body, t, n)?;
            sum(literals, 1)
        }
    }
}

/// A literal's bytes, into the object of this global.
#[tactic(auto, using(c_emit::proofs::Steps::then))]
fn fill_literal(body: &mut Body, t: &Target, n: u32, bytes: &[u8]) -> Result<(), AllocError>
    ensures { OnOk result (Adds body.old body.new (statements.filled t.now.target (one (targets.get t.now.target (variables.Global n))) bytes.now)) }
{
    add(body, t.get(Variable::Global(n))?)?;
    put_bytes(body, t, bytes)
}

/// The handle of this global no longer writes.
fn seal_literal(body: &mut Body, t: &Target, n: u32) -> Result<(), AllocError>
    ensures { OnOk result (Adds body.old body.new (plain (targets.get t.now.target (variables.Global n) ∷ instructions.Segment segment.Seal ∷ targets.set t.now.target (variables.Global n) ∷ []))) }
{
    let v = Variable::Global(n);
    add_three(body, t.get(v)?, Instr::Segment(Segment::Seal), t.set(v)?)
}

/// The values of a variable, in order.
fn give_values(body: &mut Body, t: &Target, ss: &[Stmt]) -> Result<(), AllocError>
    requires { t.now.slots ≡ [] }
    ensures { OnOk result (Adds body.old body.new (words.values t.now.target (list_of ss.now))) }
{
    for s in ss {
        give_value(body, t, s)?;
    }
    Ok(())
}

/// One value.
fn give_value(body: &mut Body, t: &Target, s: &Stmt) -> Result<(), AllocError>
    requires { t.now.slots ≡ [] }
    ensures { (rest : List tree.Stmt) (final : State) → OnOk result (Adds body.new final (words.values t.now.target rest) → Adds body.old final (words.values t.now.target (stmt_of s.now ∷ rest))) }
{
    let mut objects = Vec::new(t.alloc());
    add_stmt(body, t, &mut objects, s)
}
