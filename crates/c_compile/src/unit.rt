//! The module of a unit of C (C11, 6.9; WebAssembly 1.0, 2.5).

ghost use Rattle.std.specs.Prelude.{◌≡◌, ◌≤◌, ◌+◌, ◌∷◌, ◌++◌, List, [], Some, None, bytes_eq, codes, filter, length, map, slice_get, IfErr, IfOk, MatchOption, OnOk};
ghost use Rattle.std.specs.List.{list_any};
ghost use Rattle.c_types.specs.Types.{Ty, Tys, function, type_of};
ghost use Rattle.c_typed.specs.Tree as tree;
ghost use Rattle.c_typed.specs.refinement.Views.{function_of, made_of, typed_of};
ghost use Rattle.c_typed.specs.declared.ops.Variable.TheVariants as variables;
ghost use Rattle.c_typed.specs.Units.{literals_in};
ghost use Rattle.c_code.specs.Functions.{held_as, listed, signature};
ghost use Rattle.c_code.specs.Limits as bounds;
ghost use Rattle.c_code.specs.Modules as words;
ghost use Rattle.c_place.specs.refinement.Flags.{flags};
ghost use Rattle.c_compile.specs.Refusals.{IsRefused, limit as word_of};
ghost use Rattle.c_emit.specs.refinement.Sites.{AreTables};
ghost use Rattle.c_emit.specs.refinement.Used.{AreUses};
ghost use Rattle.ms_emit.specs.Codes.{total};
ghost use Rattle.ms_module.specs.Numbered.{IsPlain};
ghost use Rattle.ms_module.specs.declared.module.ImportDesc.TheVariants as descs;

use crate::fault::{CFault, Limit};
use crate::functions::{func, held_as, start};
use c_emit::leaves::sum;
use c_emit::signatures::signature;
use c_emit::tables::{Tables, number as count_of, tables_of};
use c_emit::uses::{Uses, uses_of};
use c_place::{Objects, find_objects};
use c_typed::{Function, Made, Typed, TypedUnit};
use c_types::CType;
use ms_module::{
    Builder, Code, Element, Export, ExportDesc, Func, Global as GlobalEntry, Import, ImportDesc,
    Instr, Module, Name, Segment,
};
use ms_types::{FuncType, GlobalType, Limits, ValType, Vector};
use std::alloc::{AllocError, Global};

/// The most parameters and variables of a function.
const MOST_SLOTS: usize = 10_000;

/// The most functions that are values.
const MOST_NAMED: usize = 65_535;

/// The most instructions of a module. Ways out of blocks and copies of structs repeat code, so that a short source may ask for far
/// more than it has bytes.
const MOST_INSTRUCTIONS: u32 = 1 << 25;

/// The module of a unit. `Err`: the first limit that the unit passes, which is tested before any code is made, or want of memory, which
/// a module of more than 2^25 instructions is.
pub fn compile(alloc: Global, typed: &Typed) -> Result<Module, CFault>
    ensures module { IfOk result (λ m. m ≡ words.compiled (typed_of typed.now)) }
    ensures within { IfOk result (λ m. bounds.limit_of (typed_of typed.now) ≡ None) }
    ensures small { IfOk result (λ m. bounds.instructions_of m.funcs ≤ bounds.most_instructions) }
    ensures refused { IfErr result (λ fault. IsRefused (typed_of typed.now) fault) }
{
    let objects = find_objects(alloc, typed)?;
    let unit = typed.unit();
    let uses = uses_of(alloc, unit)?;
    if let Some(limit) = limit_of(unit, &uses) {
        return Err(CFault::Limit(limit));
    }
    Ok(module(alloc, typed, uses, &objects)?)
}

/// The first limit that is passed.
fn limit_of(unit: &TypedUnit, uses: &Uses) -> Option<Limit>
    requires { AreUses (typed_of unit.now) uses.now }
    ensures { MatchOption result (bounds.limit_of (typed_of unit.now) ≡ None) (λ l. bounds.limit_of (typed_of unit.now) ≡ Some (word_of l)) }
{
    if any_has_many_slots(&unit.functions) {
        return Some(Limit::Locals);
    }
    if uses.has_long_copy {
        return Some(Limit::Copy);
    }
    if count_set(&uses.named) > MOST_NAMED {
        return Some(Limit::Functions);
    }
    None
}

fn any_has_many_slots(functions: &[Function]) -> bool
    ensures { result ≡ list_any bounds.has_many_slots (map function_of functions.now) }
{
    for f in functions {
        if has_many_slots(f) {
            return true;
        }
    }
    false
}

fn has_many_slots(f: &Function) -> bool
    ensures { result ≡ bounds.has_many_slots (function_of f.now) }
{
    match &f.body {
        Some(_) => f.slots.len() > MOST_SLOTS,
        None => false,
    }
}

/// How many flags are set.
fn count_set(flags: &[bool]) -> usize
    ensures { result ≡ length (filter (λ flag. flag) flags.now) }
{
    let mut count = 0;
    for flag in flags {
        if *flag {
            count += 1;
        }
    }
    count
}

/// The module of a unit within the limits.
fn module(alloc: Global, typed: &Typed, uses: Uses, objects: &Objects) -> Result<Module, AllocError>
    requires uses { AreUses (typed_of typed.now) uses }
    requires functions { objects.now.functions.items ≡ (flags (typed_of typed.now)).functions }
    requires globals { objects.now.globals.items ≡ (flags (typed_of typed.now)).globals }
    ensures module { IfOk result (λ m. m ≡ words.compiled (typed_of typed.now)) }
    ensures small { IfOk result (λ m. bounds.instructions_of m.funcs ≤ bounds.most_instructions) }
{
    let tables = tables_of(alloc, typed.unit(), uses)?;
    module_of(alloc, typed, &tables, objects)
}

/// The module of a unit that has these tables.
fn module_of(
    alloc: Global,
    typed: &Typed,
    tables: &Tables,
    objects: &Objects,
) -> Result<Module, AllocError>
    requires tables { AreTables (typed_of typed.now) tables.now }
    requires imported { tables.now.imported.items ≡ words.imported (typed_of typed.now) }
    requires defined { tables.now.defined.items ≡ words.defined (typed_of typed.now) }
    requires named { tables.now.named.items ≡ words.named (typed_of typed.now) }
    requires functions { objects.now.functions.items ≡ (flags (typed_of typed.now)).functions }
    requires globals { objects.now.globals.items ≡ (flags (typed_of typed.now)).globals }
    ensures module { IfOk result (λ m. m ≡ words.compiled (typed_of typed.now)) }
    ensures small { IfOk result (λ m. bounds.instructions_of m.funcs ≤ bounds.most_instructions) }
{
    let unit = typed.unit();
    Ok(Module {
        sigs: sigs(alloc, unit, tables)?,
        imports: imports(alloc, unit, tables)?,
        funcs: funcs(alloc, typed, tables, objects)?,
        tables: table(alloc, unit, tables)?,
        memories: Vector::new(alloc),
        globals: globals(alloc, unit, objects)?,
        exports: exports(alloc, unit, tables)?,
        elements: elements(alloc, unit, tables)?,
        fills: Vector::new(alloc),
        start: Some(start_index(tables)?),
    })
}

/// The function of this number.
fn function_at(unit: &TypedUnit, number: u32) -> Result<&Function, AllocError>
    ensures { IfOk result (λ f. words.function_at (typed_of unit.now) number ≡ Some (function_of f.now)) }
{
    match unit.functions.get(number as usize) {
        Some(f) => Ok(f),
        None => Err(AllocError),
    }
}

/// The start function stands behind all others.
fn start_index(tables: &Tables) -> Result<u32, AllocError>
    ensures { IfOk result (λ n. n ≡ 3 + length tables.now.imported.items + length tables.now.defined.items) }
{
    let imported = sum(3, count_of(tables.imported.len())?)?;
    sum(imported, count_of(tables.defined.len())?)
}

// ---- types

fn sigs(alloc: Global, unit: &TypedUnit, tables: &Tables) -> Result<Vector<FuncType>, AllocError>
    requires { AreTables (typed_of unit.now) tables.now }
    ensures { IfOk result (λ sigs. sigs ≡ (words.compiled (typed_of unit.now)).sigs) }
{
    let mut sigs = Vector::new(alloc);
    add_host_sigs(alloc, &mut sigs)?;
    add_signatures(alloc, &mut sigs, &unit.functions)?;
    add_copies(alloc, &mut sigs, tables.through.types())?;
    Ok(sigs)
}

/// Of `putchar`, `getchar` and `abort`.
fn add_host_sigs(alloc: Global, sigs: &mut Vector<FuncType>) -> Result<(), AllocError>
    ensures { OnOk result (sigs.new ≡ sigs.old ++ words.host_sigs) }
{
    let int = Some(ValType::I32);
    sigs.push(sig(alloc, int, int)?)?;
    sigs.push(sig(alloc, None, int)?)?;
    sigs.push(sig(alloc, None, None)?)?;
    Ok(())
}

/// Of one parameter at most.
fn sig(
    alloc: Global,
    param: Option<ValType>,
    given: Option<ValType>,
) -> Result<FuncType, AllocError>
    ensures { IfOk result (λ t. t ≡ record { params = listed param; results = listed given }) }
{
    Ok(FuncType {
        params: one_type(alloc, param)?,
        results: one_type(alloc, given)?,
    })
}

fn one_type(alloc: Global, ty: Option<ValType>) -> Result<Vector<ValType>, AllocError>
    ensures { IfOk result (λ types. types ≡ listed ty) }
{
    let mut types = Vector::new(alloc);
    let Some(ty) = ty else {
        return Ok(types);
    };
    types.push(ty)?;
    Ok(types)
}

/// Of the functions of a unit.
fn add_signatures(
    alloc: Global,
    sigs: &mut Vector<FuncType>,
    functions: &[Function],
) -> Result<(), AllocError>
    ensures { OnOk result (sigs.new ≡ sigs.old ++ map (λ f. signature f.ty) (map function_of functions.now)) }
{
    for f in functions {
        sigs.push(signature(alloc, &f.ty)?)?;
    }
    Ok(())
}

fn add_copies(
    alloc: Global,
    sigs: &mut Vector<FuncType>,
    types: &[FuncType],
) -> Result<(), AllocError>
    ensures { OnOk result (sigs.new ≡ sigs.old ++ types.now) }
{
    for ty in types {
        sigs.push(copied(alloc, ty)?)?;
    }
    Ok(())
}

fn copied(alloc: Global, ty: &FuncType) -> Result<FuncType, AllocError>
    ensures { IfOk result (λ t. t ≡ ty.now) }
{
    Ok(FuncType {
        params: copied_types(alloc, &ty.params)?,
        results: copied_types(alloc, &ty.results)?,
    })
}

fn copied_types(alloc: Global, types: &Vector<ValType>) -> Result<Vector<ValType>, AllocError>
    ensures { IfOk result (λ ts. ts ≡ types.now) }
{
    Ok(Vector::from_vec(Vec::from_slice(alloc, types.as_slice())?))
}

// ---- imports and exports

fn imports(alloc: Global, unit: &TypedUnit, tables: &Tables) -> Result<Vector<Import>, AllocError>
    requires { tables.now.imported.items ≡ words.imported (typed_of unit.now) }
    ensures { IfOk result (λ imports. imports ≡ (words.compiled (typed_of unit.now)).imports) }
{
    let mut imports = Vector::new(alloc);
    add_host_imports(alloc, &mut imports)?;
    add_imports(alloc, &mut imports, unit, &tables.imported)?;
    Ok(imports)
}

/// Those of the host.
fn add_host_imports(alloc: Global, imports: &mut Vector<Import>) -> Result<(), AllocError>
    ensures { (u : tree.Typed) → OnOk result (imports.new ≡ imports.old ++ words.import_of u (codes "env") (codes "putchar") 0 ∷ words.import_of u (codes "env") (codes "getchar") 1 ∷ words.import_of u (codes "env") (codes "abort") 2 ∷ []) }
{
    imports.push(import(alloc, "env", "putchar", 0)?)?;
    imports.push(import(alloc, "env", "getchar", 1)?)?;
    imports.push(import(alloc, "env", "abort", 2)?)?;
    Ok(())
}

/// A function of this type.
fn import(alloc: Global, from: &str, name: &str, sig: u32) -> Result<Import, AllocError>
    ensures { IfOk result (λ i. i ≡ record { «module» = from.now; name = name.now; desc = descs.Func sig }) }
{
    Ok(Import {
        module: Name::new(alloc, from)?,
        name: Name::new(alloc, name)?,
        desc: ImportDesc::Func(sig),
    })
}

/// The functions of these numbers, from `c`.
fn add_imports(
    alloc: Global,
    imports: &mut Vector<Import>,
    unit: &TypedUnit,
    numbers: &[u32],
) -> Result<(), AllocError>
    ensures { OnOk result (imports.new ≡ imports.old ++ map (words.import_from_c (typed_of unit.now)) numbers.now) }
{
    for n in numbers {
        imports.push(import_from_c(alloc, unit, *n)?)?;
    }
    Ok(())
}

fn import_from_c(alloc: Global, unit: &TypedUnit, number: u32) -> Result<Import, AllocError>
    ensures { IfOk result (λ i. i ≡ words.import_from_c (typed_of unit.now) number) }
{
    let name = text_of(function_at(unit, number)?)?;
    import(alloc, "c", name, sum(3, number)?)
}

/// The name of a function, which is text, since it is an identifier.
fn text_of(f: &Function) -> Result<&str, AllocError>
    ensures { IfOk result (λ name. name.now ≡ f.now.name) }
{
    match str::from_utf8(f.name.as_slice()) {
        Ok(text) => Ok(text),
        Err(_) => Err(AllocError),
    }
}

fn exports(alloc: Global, unit: &TypedUnit, tables: &Tables) -> Result<Vector<Export>, AllocError>
    requires tables { AreTables (typed_of unit.now) tables.now }
    requires defined { tables.now.defined.items ≡ words.defined (typed_of unit.now) }
    ensures { IfOk result (λ exports. exports ≡ (words.compiled (typed_of unit.now)).exports) }
{
    let mut exports = Vector::new(alloc);
    add_exports(alloc, &mut exports, unit, tables, &tables.defined)?;
    Ok(exports)
}

/// Those of the functions of these numbers that are exported.
fn add_exports(
    alloc: Global,
    exports: &mut Vector<Export>,
    unit: &TypedUnit,
    tables: &Tables,
    numbers: &[u32],
) -> Result<(), AllocError>
    requires { AreTables (typed_of unit.now) tables.now }
    ensures { OnOk result (exports.new ≡ exports.old ++ words.exports_of (typed_of unit.now) numbers.now) }
{
    for n in numbers {
        add_export(alloc, exports, unit, tables, *n)?;
    }
    Ok(())
}

/// The function of this number, if it is exported.
fn add_export(
    alloc: Global,
    exports: &mut Vector<Export>,
    unit: &TypedUnit,
    tables: &Tables,
    number: u32,
) -> Result<(), AllocError>
    requires { AreTables (typed_of unit.now) tables.now }
    ensures { OnOk result (exports.new ≡ exports.old ++ words.export_of (typed_of unit.now) number (words.function_at (typed_of unit.now) number)) }
{
    let f = function_at(unit, number)?;
    if !is_exported(f) {
        return Ok(());
    }
    let desc = ExportDesc::Func(index(unit, tables, number)?);
    let name = Name::new(alloc, text_of(f)?)?;
    exports.push(Export { name, desc })?;
    Ok(())
}

/// A `main` that gives a pointer to a function is no task (C11, 5.1.2.2.1).
fn is_exported(f: &Function) -> bool
    ensures { (u : tree.Typed) → result ≡ words.is_exported u (function_of f.now) }
{
    if !is_main(f) {
        return true;
    }
    !gives_function(&f.ty)
}

fn is_main(f: &Function) -> bool
    ensures { result ≡ bytes_eq (codes "main") f.now.name }
{
    b"main".as_slice() == f.name.as_slice()
}

fn gives_function(t: &CType) -> bool
    ensures { (u : tree.Typed) → result ≡ words.gives_function u (type_of t.now) }
{
    match t {
        CType::Function(f) => is_function_pointer(&f.result),
        CType::Void => false,
        CType::Int(_) => false,
        CType::Struct(_) => false,
        CType::Pointer(_) => false,
        CType::Array(_, _) => false,
    }
}

fn is_function_pointer(t: &CType) -> bool
    ensures { (u : tree.Typed) (ps : Tys) → result ≡ words.gives_function u (function (type_of t.now) ps) }
{
    match t {
        CType::Pointer(target) => target.is_function(),
        CType::Void => false,
        CType::Int(_) => false,
        CType::Struct(_) => false,
        CType::Array(_, _) => false,
        CType::Function(_) => false,
    }
}

// ---- functions

fn funcs(
    alloc: Global,
    typed: &Typed,
    tables: &Tables,
    objects: &Objects,
) -> Result<Vector<Func>, AllocError>
    requires tables { AreTables (typed_of typed.now) tables.now }
    requires functions { objects.now.functions.items ≡ (flags (typed_of typed.now)).functions }
    requires globals { objects.now.globals.items ≡ (flags (typed_of typed.now)).globals }
    ensures funcs { IfOk result (λ funcs. funcs ≡ (words.compiled (typed_of typed.now)).funcs) }
    ensures small { IfOk result (λ funcs. bounds.instructions_of funcs ≤ bounds.most_instructions) }
{
    let mut room = MOST_INSTRUCTIONS;
    let mut funcs = Vector::new(alloc);
    add_funcs(alloc, &mut funcs, typed, tables, objects, &mut room)?;
    let start = start(alloc, typed, tables, &objects.globals, room)?;
    let _left = room_behind(&start.body, room)?;
    funcs.push(start)?;
    Ok(funcs)
}

/// What is left of the room for a module's instructions behind a body.
fn room_behind(code: &Code, room: u32) -> Result<u32, AllocError>
    ensures { IfOk result (λ left. left + total code.now ≡ room) }
{
    let mut left = room;
    for n in 0..code.len() {
        left = room_for(code.sequence(n).len(), left)?;
    }
    Ok(left)
}

/// What is left of it behind so many instructions.
fn room_for(count: usize, room: u32) -> Result<u32, AllocError>
    ensures { IfOk result (λ left. left + count ≡ room) }
{
    let Ok(count) = u32::try_from(count) else {
        return Err(AllocError);
    };
    match room.checked_sub(count) {
        Some(left) => Ok(left),
        None => Err(AllocError),
    }
}

/// Those of the unit.
fn add_funcs(
    alloc: Global,
    funcs: &mut Vector<Func>,
    typed: &Typed,
    tables: &Tables,
    objects: &Objects,
    room: &mut u32,
) -> Result<(), AllocError>
    requires tables { AreTables (typed_of typed.now) tables.now }
    requires functions { objects.now.functions.items ≡ (flags (typed_of typed.now)).functions }
    requires globals { objects.now.globals.items ≡ (flags (typed_of typed.now)).globals }
    ensures funcs { OnOk result (funcs.new ≡ funcs.old ++ words.funcs_from (typed_of typed.now) 0 (typed_of typed.now).functions) }
    ensures room { OnOk result (bounds.instructions_of funcs.new + room.new ≡ bounds.instructions_of funcs.old + room.old) }
{
    for n in 0..count_of(typed.unit().functions.len())? {
        add_func(alloc, funcs, typed, tables, objects, n, room)?;
    }
    Ok(())
}

/// The function of this number, if it has a body.
fn add_func(
    alloc: Global,
    funcs: &mut Vector<Func>,
    typed: &Typed,
    tables: &Tables,
    objects: &Objects,
    number: u32,
    room: &mut u32,
) -> Result<(), AllocError>
    requires tables { AreTables (typed_of typed.now) tables.now }
    requires functions { objects.now.functions.items ≡ (flags (typed_of typed.now)).functions }
    requires globals { objects.now.globals.items ≡ (flags (typed_of typed.now)).globals }
    ensures funcs { (f : tree.Function) → words.function_at (typed_of typed.now) number ≡ Some f → OnOk result (funcs.new ≡ funcs.old ++ words.func_of (typed_of typed.now) number f f.body) }
    ensures room { OnOk result (bounds.instructions_of funcs.new + room.new ≡ bounds.instructions_of funcs.old + room.old) }
{
    let f = function_at(typed.unit(), number)?;
    let Some(body) = &f.body else {
        return Ok(());
    };
    let flags = flags_at(objects, number)?;
    let func = func(
        alloc,
        typed,
        tables,
        &objects.globals,
        number,
        f,
        flags,
        body,
        *room,
    )?;
    *room = room_behind(&func.body, *room)?;
    funcs.push(func)?;
    Ok(())
}

/// The flags of the slots of the function of this number.
fn flags_at(objects: &Objects, number: u32) -> Result<&[bool], AllocError>
    ensures { IfOk result (λ flags. slice_get objects.now.functions.items number ≡ Some flags.now) }
{
    match objects.functions.get(number as usize) {
        Some(flags) => Ok(flags.as_slice()),
        None => Err(AllocError),
    }
}

// ---- the table: its entry 0 stays empty

fn table(alloc: Global, _unit: &TypedUnit, tables: &Tables) -> Result<Vector<Limits>, AllocError>
    requires { tables.now.named.items ≡ words.named (typed_of _unit.now) }
    ensures { IfOk result (λ tables. tables ≡ (words.compiled (typed_of _unit.now)).tables) }
{
    let size = sum(count_of(tables.named.len())?, 1)?;
    let mut all = Vector::new(alloc);
    all.push(Limits {
        min: size,
        max: Some(size),
    })?;
    Ok(all)
}

fn elements(alloc: Global, unit: &TypedUnit, tables: &Tables) -> Result<Vector<Element>, AllocError>
    requires tables { AreTables (typed_of unit.now) tables.now }
    requires named { tables.now.named.items ≡ words.named (typed_of unit.now) }
    ensures { IfOk result (λ elements. elements ≡ (words.compiled (typed_of unit.now)).elements) }
{
    let funcs = indices(alloc, unit, tables, &tables.named)?;
    let mut all = Vector::new(alloc);
    all.push(Element {
        table: 0,
        offset: constant(alloc, Instr::I32Const(1))?,
        funcs,
    })?;
    Ok(all)
}

/// The indices of the functions of these numbers.
fn indices(
    alloc: Global,
    unit: &TypedUnit,
    tables: &Tables,
    numbers: &[u32],
) -> Result<Vector<u32>, AllocError>
    requires { AreTables (typed_of unit.now) tables.now }
    ensures { IfOk result (λ ns. ns ≡ map (words.index_of (typed_of unit.now)) numbers.now) }
{
    let mut all = Vector::new(alloc);
    for n in numbers {
        all.push(index(unit, tables, *n)?)?;
    }
    Ok(all)
}

/// The index of a function.
fn index(_unit: &TypedUnit, tables: &Tables, number: u32) -> Result<u32, AllocError>
    requires { AreTables (typed_of _unit.now) tables.now }
    ensures { IfOk result (λ i. i ≡ words.index_of (typed_of _unit.now) number) }
{
    tables.index(number)
}

// ---- globals: the variables, and then the handles of the literals

fn globals(
    alloc: Global,
    unit: &TypedUnit,
    objects: &Objects,
) -> Result<Vector<GlobalEntry>, AllocError>
    requires { objects.now.globals.items ≡ (flags (typed_of unit.now)).globals }
    ensures { IfOk result (λ globals. globals ≡ (words.compiled (typed_of unit.now)).globals) }
{
    let mut all = Vector::new(alloc);
    add_variables(alloc, &mut all, unit, objects)?;
    add_literals(alloc, &mut all, &unit.made)?;
    Ok(all)
}

fn add_variables(
    alloc: Global,
    all: &mut Vector<GlobalEntry>,
    unit: &TypedUnit,
    objects: &Objects,
) -> Result<(), AllocError>
    requires { objects.now.globals.items ≡ (flags (typed_of unit.now)).globals }
    ensures { OnOk result (all.new ≡ all.old ++ words.globals_from (typed_of unit.now) 0 (typed_of unit.now).globals) }
{
    for n in 0..count_of(unit.globals.len())? {
        add_variable(alloc, all, unit, objects, n)?;
    }
    Ok(())
}

/// The global of the variable of this number.
fn add_variable(
    alloc: Global,
    all: &mut Vector<GlobalEntry>,
    unit: &TypedUnit,
    objects: &Objects,
    number: u32,
) -> Result<(), AllocError>
    requires { objects.now.globals.items ≡ (flags (typed_of unit.now)).globals }
    ensures { (t : Ty) → slice_get (typed_of unit.now).globals number ≡ Some t → OnOk result (all.new ≡ all.old ++ words.global_of (typed_of unit.now) (held_as (words.no_slots (typed_of unit.now) (variables.Global number)) t) ∷ []) }
{
    let ty = held_as(is_object(objects, number)?, variable_at(unit, number)?);
    all.push(global(alloc, ty)?)?;
    Ok(())
}

/// Whether the variable of this number is an object.
fn is_object(objects: &Objects, number: u32) -> Result<bool, AllocError>
    ensures { IfOk result (λ b. slice_get objects.now.globals.items number ≡ Some b) }
{
    match objects.globals.get(number as usize) {
        Some(flag) => Ok(*flag),
        None => Err(AllocError),
    }
}

/// The type of the variable of this number.
fn variable_at(unit: &TypedUnit, number: u32) -> Result<&CType, AllocError>
    ensures { IfOk result (λ t. slice_get (typed_of unit.now).globals number ≡ Some (type_of t.now)) }
{
    match unit.globals.get(number as usize) {
        Some(t) => Ok(t),
        None => Err(AllocError),
    }
}

fn add_literals(
    alloc: Global,
    all: &mut Vector<GlobalEntry>,
    made: &[Made],
) -> Result<(), AllocError>
    ensures { (u : tree.Typed) → OnOk result (all.new ≡ all.old ++ words.literal_globals u (literals_in (map made_of made.now))) }
{
    for m in made {
        add_literal(alloc, all, m)?;
    }
    Ok(())
}

/// The global of what is made, if it is a literal.
fn add_literal(alloc: Global, all: &mut Vector<GlobalEntry>, m: &Made) -> Result<(), AllocError>
    ensures { (u : tree.Typed) (rest : List tree.Made) → OnOk result (all.new ++ words.literal_globals u (literals_in rest) ≡ all.old ++ words.literal_globals u (literals_in (made_of m.now ∷ rest))) }
{
    match m {
        Made::Global(_, _) => Ok(()),
        Made::Literal(_) => {
            all.push(global(alloc, ValType::Handle)?)?;
            Ok(())
        }
    }
}

fn global(alloc: Global, ty: ValType) -> Result<GlobalEntry, AllocError>
    ensures { (u : tree.Typed) → IfOk result (λ g. g ≡ words.global_of u ty) }
{
    Ok(GlobalEntry {
        ty: GlobalType { ty, mutable: true },
        init: constant(alloc, first_of_type(ty))?,
    })
}

fn first_of_type(ty: ValType) -> Instr
    ensures is { (u : tree.Typed) → result ≡ words.first_of_type u ty }
    ensures plain { IsPlain result }
{
    match ty {
        ValType::I32 => Instr::I32Const(0),
        ValType::I64 => Instr::I64Const(0),
        ValType::Handle => Instr::Segment(Segment::Null),
    }
}

/// A constant expression.
fn constant(alloc: Global, instr: Instr) -> Result<Code, AllocError>
    requires { IsPlain instr }
    ensures { IfOk result (λ code. code ≡ (instr ∷ []) ∷ []) }
{
    let mut body = Builder::new(alloc)?;
    body.add(instr)?;
    Ok(body.finish())
}
