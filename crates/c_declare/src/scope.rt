//! Scopes and what is declared in them (C11, 6.2.1, 6.2.7 and 6.7, paragraphs 3 and 4).

ghost use Rattle.std.specs.Prelude.{◌≡◌, ◌++◌, ◌∷◌, [], false, map, slice_get, IfOk, None, OnOk};
ghost use Rattle.c_types.specs.Types.{type_of};
ghost use Rattle.c_typed.specs.refinement.Views.{function_of};
ghost use Rattle.c_check_types.specs.Scopes as words;
ghost use Rattle.c_check_types.specs.State.{number_of};
ghost use Rattle.c_check_types.specs.refinement.Views.{Obeys, scope_of, scopes_of, state_of};

use c_check_types::{Checker, Entity, Names, Scope, Stop, entity_in, library, owned, same_type};
use c_typed::{Function, Subject, is_identifier};
use c_types::CType;
use std::alloc::{AllocError, Global};
use std::collections::LinkedList;

/// Opens a scope.
pub fn opened<'a>(checker: &mut Checker<'a>) -> Result<(), Stop>
    ensures { Obeys (λ _. tt) words.opened (state_of checker.old) (state_of checker.new) result }
{
    let scope = Scope {
        names: Names::new(checker.alloc),
        entities: Vec::new(checker.alloc),
        slots: Vec::new(checker.alloc),
    };
    checker.scopes.push_front(scope)?;
    Ok(())
}

/// Closes the innermost scope.
pub fn closed<'a>(checker: &mut Checker<'a>) -> Result<(), Stop>
    ensures { Obeys (λ _. tt) words.closed (state_of checker.old) (state_of checker.new) result }
{
    let _scope = checker.scopes.pop_front();
    Ok(())
}

/// A scope with one more name, which isn't in it.
fn with_name<'a>(scope: Scope<'a>, name: &'a [u8], e: Entity) -> Result<Scope<'a>, AllocError>
    requires { number_of (scope_of scope).names name.now ≡ None }
    ensures { IfOk result (λ s. scope_of s ≡ words.with_name (scope_of scope.entry) name.now e) }
{
    let Scope {
        mut names,
        mut entities,
        slots,
    } = scope;
    names.add(name)?;
    entities.push(e)?;
    Ok(Scope {
        names,
        entities,
        slots,
    })
}

/// A scope with one more slot.
fn with_slot<'a>(scope: Scope<'a>, n: u32) -> Result<Scope<'a>, AllocError>
    ensures { IfOk result (λ s. scope_of s ≡ words.with_slot (scope_of scope.entry) n) }
{
    let Scope {
        names,
        entities,
        mut slots,
    } = scope;
    slots.push(n)?;
    Ok(Scope {
        names,
        entities,
        slots,
    })
}

/// Puts a slot into the innermost scope.
fn opens<'a>(scopes: &mut LinkedList<Scope<'a>>, n: u32) -> Result<(), AllocError>
    ensures { OnOk result (scopes_of scopes.new ≡ words.opens (scopes_of scopes.old) n) }
{
    let Some(scope) = scopes.pop_front() else {
        return Ok(());
    };
    let scope = with_slot(scope, n)?;
    scopes.push_front(scope)?;
    Ok(())
}

/// Whether the innermost scope has a name.
fn is_known(scopes: &LinkedList<Scope>, name: &[u8]) -> bool
    ensures { result ≡ words.is_known (scopes_of scopes.now) name.now }
{
    match scopes.front() {
        Some(scope) => scope.names.find(name).is_some(),
        None => false,
    }
}

/// Puts a name into the innermost scope, where it isn't.
fn put<'a>(scopes: &mut LinkedList<Scope<'a>>, name: &'a [u8], e: Entity) -> Result<(), AllocError>
    requires { words.is_known (scopes_of scopes.old) name.now ≡ false }
    ensures { OnOk result (scopes_of scopes.new ≡ words.in_front (scopes_of scopes.old) name.now e) }
{
    let Some(scope) = scopes.pop_front() else {
        return Ok(());
    };
    let scope = with_name(scope, name, e)?;
    scopes.push_front(scope)?;
    Ok(())
}

/// Enters an enumerator, which has this number.
pub fn enters_constant<'a>(checker: &mut Checker<'a>, name: &'a [u8], bits: u32) -> Result<(), Stop>
    ensures { Obeys (λ _. tt) (words.enters_constant name.now bits) (state_of checker.old) (state_of checker.new) result }
{
    enters(checker, name, Entity::Constant(bits))
}

/// Enters a name into the innermost scope, where it stands for one thing (C11, 6.7, paragraph 3).
fn enters<'a>(checker: &mut Checker<'a>, name: &'a [u8], e: Entity) -> Result<(), Stop>
    ensures { Obeys (λ _. tt) (words.enters name.now e) (state_of checker.old) (state_of checker.new) result }
{
    if library(name).is_some() {
        return Err(Stop::NoTyping);
    }
    if is_known(&checker.scopes, name) {
        return Err(Stop::NoTyping);
    }
    put(&mut checker.scopes, name, e)?;
    Ok(())
}

/// The next slot, for a parameter or a variable of this type.
pub fn new_slot<'a>(checker: &mut Checker<'a>, t: CType) -> Result<u32, Stop>
    ensures { Obeys (λ n. n) (words.new_slot (type_of t)) (state_of checker.old) (state_of checker.new) result }
{
    let Ok(n) = u32::try_from(checker.slots.len()) else {
        return Err(Stop::Memory);
    };
    opens(&mut checker.scopes, n)?;
    checker.slots.push(t)?;
    Ok(n)
}

/// The slot of a variable or a parameter that is entered.
pub fn enters_local<'a>(checker: &mut Checker<'a>, name: &'a [u8], t: CType) -> Result<u32, Stop>
    ensures { Obeys (λ n. n) (words.enters_local name.now (type_of t)) (state_of checker.old) (state_of checker.new) result }
{
    let n = new_slot(checker, t)?;
    enters(checker, name, Entity::Local(n))?;
    Ok(n)
}

/// The number of a variable at file scope that is entered. No function has its name.
pub fn enters_global<'a>(checker: &mut Checker<'a>, name: &'a [u8], t: CType) -> Result<u32, Stop>
    ensures { Obeys (λ n. n) (words.enters_global name.now (type_of t)) (state_of checker.old) (state_of checker.new) result }
{
    if checker.function_names.find(name).is_some() {
        return Err(Stop::NoTyping);
    }
    let Ok(n) = u32::try_from(checker.globals.len()) else {
        return Err(Stop::Memory);
    };
    enters(checker, name, Entity::Global(n))?;
    checker.global_names.push(owned(checker.alloc, name)?)?;
    checker.globals.push(t)?;
    checker.added(Subject::Variable(n))?;
    Ok(n)
}

/// What a name stands for in the innermost scope.
fn entity_in_front(scopes: &LinkedList<Scope>, name: &[u8]) -> Option<Entity>
    ensures { result ≡ words.entity_in_front (scopes_of scopes.now) name.now }
{
    match scopes.front() {
        Some(scope) => entity_in(scope, name),
        None => None,
    }
}

/// Whether an entity is this function.
fn is_function(e: Option<Entity>, n: u32) -> bool
    ensures { result ≡ words.is_function e n }
{
    match e {
        Some(Entity::Function(m)) => m == n,
        Some(Entity::Local(_)) => false,
        Some(Entity::Global(_)) => false,
        Some(Entity::Constant(_)) => false,
        None => false,
    }
}

/// Enters a function's name. Where it stands for that function already, it may be named again.
fn enters_function<'a>(checker: &mut Checker<'a>, name: &'a [u8], n: u32) -> Result<(), Stop>
    ensures { Obeys (λ _. tt) (words.enters_function name.now n) (state_of checker.old) (state_of checker.new) result }
{
    if is_function(entity_in_front(&checker.scopes, name), n) {
        return Ok(());
    }
    enters(checker, name, Entity::Function(n))
}

/// Whether an entity is a variable at file scope.
fn is_global(e: Option<Entity>) -> bool
    ensures { result ≡ words.is_global e }
{
    match e {
        Some(Entity::Global(_)) => true,
        Some(Entity::Local(_)) => false,
        Some(Entity::Function(_)) => false,
        Some(Entity::Constant(_)) => false,
        None => false,
    }
}

/// Whether a name is that of a variable at file scope.
fn names_variable(scopes: &LinkedList<Scope>, name: &[u8]) -> bool
    ensures { result ≡ words.names_variable (scopes_of scopes.now) name.now }
{
    match scopes.back() {
        Some(scope) => is_global(entity_in(scope, name)),
        None => false,
    }
}

/// Adds a function that is declared for the first time.
fn add_function(
    alloc: Global,
    functions: &mut Vec<Function>,
    name: &[u8],
    t: CType,
) -> Result<(), AllocError>
    ensures { OnOk result (map function_of functions.new.items ≡ map function_of functions.old.items ++ words.a_function name.now (type_of t) ∷ []) }
{
    functions.push(Function {
        name: owned(alloc, name)?,
        ty: t,
        slots: Vec::new(alloc),
        body: None,
    })?;
    Ok(())
}

/// The number of a function that is declared for the first time.
fn new_function<'a>(checker: &mut Checker<'a>, name: &'a [u8], t: CType) -> Result<u32, Stop>
    requires { number_of (state_of checker.old).function_names name.now ≡ None }
    ensures { Obeys (λ n. n) (words.new_function name.now (type_of t)) (state_of checker.old) (state_of checker.new) result }
{
    if !is_identifier(name) {
        return Err(Stop::NoTyping);
    }
    if names_variable(&checker.scopes, name) {
        return Err(Stop::NoTyping);
    }
    let Ok(n) = u32::try_from(checker.functions.len()) else {
        return Err(Stop::Memory);
    };
    checker.function_names.add(name)?;
    add_function(checker.alloc, &mut checker.functions, name, t)?;
    checker.added(Subject::Function(n))?;
    enters_function(checker, name, n)?;
    Ok(n)
}

/// Whether a function has this type.
fn has_type(functions: &[Function], n: u32, t: &CType) -> bool
    ensures { result ≡ words.has_type (slice_get (map function_of functions.now) n) (type_of t.now) }
{
    match functions.get(n as usize) {
        Some(f) => same_type(&f.ty, t),
        None => false,
    }
}

/// The number of a function that is declared again: all its declarations agree (C11, 6.2.7).
fn old_function<'a>(
    checker: &mut Checker<'a>,
    name: &'a [u8],
    t: &CType,
    n: u32,
) -> Result<u32, Stop>
    ensures { Obeys (λ n. n) (words.old_function name.now (type_of t.now) n) (state_of checker.old) (state_of checker.new) result }
{
    if !has_type(checker.functions.as_slice(), n, t) {
        return Err(Stop::NoTyping);
    }
    enters_function(checker, name, n)?;
    Ok(n)
}

/// The number of a function that is declared (C11, 6.2.7 and 6.7, paragraph 4).
pub fn declares_function<'a>(
    checker: &mut Checker<'a>,
    name: &'a [u8],
    t: CType,
) -> Result<u32, Stop>
    ensures { Obeys (λ n. n) (words.declares_function name.now (type_of t)) (state_of checker.old) (state_of checker.new) result }
{
    match checker.function_names.find(name) {
        Some(n) => match u32::try_from(n) {
            Ok(n) => old_function(checker, name, &t, n),
            Err(_) => Err(Stop::Memory),
        },
        None => new_function(checker, name, t),
    }
}
