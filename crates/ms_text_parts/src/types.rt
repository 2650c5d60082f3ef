//! Types, parameters, results and type uses (WebAssembly 1.0, 6.4 and 6.6.3).

ghost use Rattle.std.specs.Prelude.{◌≡◌, ◌++◌, length, List, Option};
ghost use Rattle.ms_module.specs.Instructions.{by_word, value_rows};
ghost use Rattle.ms_text_grammar.specs.declared.word.Word.TheVariants as word;
ghost use Rattle.ms_text_grammar.specs.Tokens.{is_number, next};
ghost use Rattle.ms_text_grammar.specs.Parts.{list_goes};
ghost use Rattle.ms_text_grammar.specs.Types.{global_type, limits, max_by, next_param, next_type, params, params_by, params_inside, results, table_type, type_field, type_of, type_ref, type_use, types, unnamed, unnamed_params, unnamed_use, value_type};
ghost use Rattle.ms_text_parts.specs.refinement.Readers.{Reads};

use crate::groups::{Grouped, take_groups};
use crate::numbers::{index, number};
use crate::parts::{closing, next_begins, next_closes, no_group, opening, optional_id, the};
use crate::steps::{Steps, run};
use crate::words::{Words, bad, is_keyword, is_number};
use ms_text_grammar::{
    Index, Param, TextFault, TypeField, TypeUse, Word, item_by_word, value_keywords,
};
use ms_text_lex::{Token, text_of};
use ms_types::ValType::{self, Handle, I32, I64};
use ms_types::{GlobalType, Limits, Vector};
use std::alloc::Global;
use std::marker::Model;

/// The value type of a keyword.
#[tactic(auto, unfolding(ms_module::specs::Instructions::value_rows))]
fn value_word(text: &[u8]) -> Option<ValType>
    ensures { result ≡ by_word value_rows text.now }
{
    value_keywords!(item_by_word text)
}

/// The value type that a token is.
pub fn type_of(source: &[u8], token: Token) -> Option<ValType>
    ensures { result ≡ type_of source.now token }
{
    if !is_keyword(token) {
        return None;
    }
    value_word(text_of(source, token))
}

/// Takes a value type.
#[tactic(auto, unfolding(ms_text_grammar::specs::Types::value_type))]
pub fn value_type(c: &mut Words) -> Result<ValType, TextFault>
    ensures { Reads c.old c.new result ((value_type c.old.source).read (length c.old.source) c.old.left) }
{
    let [token, ..] = c.rest() else {
        return Err(bad(c));
    };
    let Some(ty) = type_of(c.source(), *token) else {
        return Err(bad(c));
    };
    c.skip();
    Ok(ty)
}

// ---- lists up to a parenthesis

/// Types up to a parenthesis.
#[derive(Drop)]
struct TypeList {
    types: Vector<ValType>,
}

impl Model for TypeList {
    ghost use Rattle.std.specs.Prelude.{List};
    ghost use Rattle.ms_types.specs.declared.types.ValType.{ValType};

    ghost Value = { List ValType };

    ghost view = { λ l. l.types };
}

impl Steps for TypeList {
    ghost going = { λ source tys s. list_goes source tys s };

    ghost step = { next_type };

    fn goes(&self, c: &Words) -> bool {
        !next_closes(c)
    }

    #[tactic(auto, unfolding(ms_text_grammar::specs::Types::next_type))]
    fn step(self, c: &mut Words) -> Result<Self, TextFault> {
        let TypeList { mut types } = self;
        let ty = value_type(c)?;
        types.push(ty)?;
        Ok(TypeList { types })
    }
}

/// Takes types up to a parenthesis, behind those so far.
#[tactic(auto, unfolding(ms_text_grammar::specs::Types::types, ms_text_grammar::specs::Parts::listed))]
fn types(so_far: Vector<ValType>, c: &mut Words) -> Result<Vector<ValType>, TextFault>
    ensures { Reads c.old c.new result ((types c.old.source so_far).read (length c.old.source) c.old.left) }
{
    let TypeList { types } = run(TypeList { types: so_far }, c)?;
    Ok(types)
}

/// Parameters without identifiers up to a parenthesis.
#[derive(Drop)]
struct ParamList {
    params: Vector<Param>,
}

impl Model for ParamList {
    ghost use Rattle.std.specs.Prelude.{List};
    ghost use Rattle.ms_text_grammar.specs.declared.surface.Param.{Param};

    ghost Value = { List Param };

    ghost view = { λ p. p.params };
}

impl Steps for ParamList {
    ghost going = { λ source ps s. list_goes source ps s };

    ghost step = { next_param };

    fn goes(&self, c: &Words) -> bool {
        !next_closes(c)
    }

    #[tactic(auto, unfolding(ms_text_grammar::specs::Types::next_param))]
    fn step(self, c: &mut Words) -> Result<Self, TextFault> {
        let ParamList { mut params } = self;
        let ty = value_type(c)?;
        params.push(Param { id: None, ty })?;
        Ok(ParamList { params })
    }
}

/// Takes parameters without identifiers up to a parenthesis, behind those so far.
#[tactic(auto, unfolding(ms_text_grammar::specs::Types::unnamed, ms_text_grammar::specs::Parts::listed))]
fn unnamed(so_far: Vector<Param>, c: &mut Words) -> Result<Vector<Param>, TextFault>
    ensures { Reads c.old c.new result ((unnamed c.old.source so_far).read (length c.old.source) c.old.left) }
{
    let ParamList { params } = run(ParamList { params: so_far }, c)?;
    Ok(params)
}

/// Takes one parameter, whose identifier was there, or any number of them without identifiers.
#[tactic(auto, unfolding(ms_text_grammar::specs::Types::params_by))]
fn params_by(
    so_far: Vector<Param>,
    id: Option<Token>,
    c: &mut Words,
) -> Result<Vector<Param>, TextFault>
    ensures { Reads c.old c.new result ((params_by c.old.source so_far id).read (length c.old.source) c.old.left) }
{
    match id {
        Some(id) => {
            let mut params = so_far;
            let ty = value_type(c)?;
            params.push(Param { id: Some(id), ty })?;
            Ok(params)
        }
        None => unnamed(so_far, c),
    }
}

/// Takes what is in a group of parameters.
#[tactic(auto, unfolding(ms_text_grammar::specs::Types::params_inside))]
fn params_inside(so_far: Vector<Param>, c: &mut Words) -> Result<Vector<Param>, TextFault>
    ensures { Reads c.old c.new result ((params_inside c.old.source so_far).read (length c.old.source) c.old.left) }
{
    let id = optional_id(c)?;
    params_by(so_far, id, c)
}

// ---- groups

/// Groups of parameters.
#[derive(Drop)]
struct ParamGroups {
    params: Vector<Param>,
}

impl Model for ParamGroups {
    ghost use Rattle.std.specs.Prelude.{List};
    ghost use Rattle.ms_text_grammar.specs.declared.surface.Param.{Param};

    ghost Value = { List Param };

    ghost view = { λ p. p.params };
}

impl Grouped for ParamGroups {
    ghost word = { word.Param };

    ghost inside = { params_inside };

    fn word(&self) -> Word {
        Word::Param
    }

    fn inside(self, c: &mut Words) -> Result<Self, TextFault> {
        let params = params_inside(self.params, c)?;
        Ok(ParamGroups { params })
    }
}

/// Takes groups of parameters, as many as there are.
#[tactic(auto, unfolding(ms_text_grammar::specs::Types::params))]
fn params(alloc: Global, c: &mut Words) -> Result<Vector<Param>, TextFault>
    ensures { Reads c.old c.new result ((params c.old.source).read (length c.old.source) c.old.left) }
{
    let first = ParamGroups {
        params: Vector::new(alloc),
    };
    let ParamGroups { params } = take_groups(first, c)?;
    Ok(params)
}

/// Groups of parameters without identifiers.
#[derive(Drop)]
struct UnnamedGroups {
    params: Vector<Param>,
}

impl Model for UnnamedGroups {
    ghost use Rattle.std.specs.Prelude.{List};
    ghost use Rattle.ms_text_grammar.specs.declared.surface.Param.{Param};

    ghost Value = { List Param };

    ghost view = { λ p. p.params };
}

impl Grouped for UnnamedGroups {
    ghost word = { word.Param };

    ghost inside = { unnamed };

    fn word(&self) -> Word {
        Word::Param
    }

    fn inside(self, c: &mut Words) -> Result<Self, TextFault> {
        let params = unnamed(self.params, c)?;
        Ok(UnnamedGroups { params })
    }
}

/// Takes groups of parameters without identifiers, as many as there are.
#[tactic(auto, unfolding(ms_text_grammar::specs::Types::unnamed_params))]
fn unnamed_params(alloc: Global, c: &mut Words) -> Result<Vector<Param>, TextFault>
    ensures { Reads c.old c.new result ((unnamed_params c.old.source).read (length c.old.source) c.old.left) }
{
    let first = UnnamedGroups {
        params: Vector::new(alloc),
    };
    let UnnamedGroups { params } = take_groups(first, c)?;
    Ok(params)
}

/// Groups of results.
#[derive(Drop)]
struct ResultGroups {
    types: Vector<ValType>,
}

impl Model for ResultGroups {
    ghost use Rattle.std.specs.Prelude.{List};
    ghost use Rattle.ms_types.specs.declared.types.ValType.{ValType};

    ghost Value = { List ValType };

    ghost view = { λ r. r.types };
}

impl Grouped for ResultGroups {
    ghost word = { word.Result };

    ghost inside = { types };

    fn word(&self) -> Word {
        Word::Result
    }

    fn inside(self, c: &mut Words) -> Result<Self, TextFault> {
        let types = types(self.types, c)?;
        Ok(ResultGroups { types })
    }
}

/// Takes groups of results, as many as there are.
#[tactic(auto, unfolding(ms_text_grammar::specs::Types::results))]
fn results(alloc: Global, c: &mut Words) -> Result<Vector<ValType>, TextFault>
    ensures { Reads c.old c.new result ((results c.old.source).read (length c.old.source) c.old.left) }
{
    let first = ResultGroups {
        types: Vector::new(alloc),
    };
    let ResultGroups { types } = take_groups(first, c)?;
    Ok(types)
}

// ---- type uses and type fields

/// Takes `(type x)`, if it is there.
#[tactic(auto, unfolding(ms_text_grammar::specs::Types::type_ref, ms_text_grammar::specs::Types::type_ref_by))]
fn type_ref(c: &mut Words) -> Result<Option<Index>, TextFault>
    ensures { Reads c.old c.new result ((type_ref c.old.source).read (length c.old.source) c.old.left) }
{
    if !next_begins(Word::Type, c) {
        return Ok(None);
    }
    opening(c)?;
    the(Word::Type, c)?;
    let x = index(c)?;
    closing(c)?;
    Ok(Some(x))
}

/// Takes a type use.
#[tactic(auto, unfolding(ms_text_grammar::specs::Types::type_use))]
pub fn type_use(alloc: Global, c: &mut Words) -> Result<TypeUse, TextFault>
    ensures { Reads c.old c.new result ((type_use c.old.source).read (length c.old.source) c.old.left) }
{
    let sig = type_ref(c)?;
    let params = params(alloc, c)?;
    let results = results(alloc, c)?;
    Ok(TypeUse {
        sig,
        params,
        results,
    })
}

/// Takes a type use whose parameters have no identifiers.
#[tactic(auto, unfolding(ms_text_grammar::specs::Types::unnamed_use))]
pub fn unnamed_use(alloc: Global, c: &mut Words) -> Result<TypeUse, TextFault>
    ensures { Reads c.old c.new result ((unnamed_use c.old.source).read (length c.old.source) c.old.left) }
{
    let sig = type_ref(c)?;
    let params = unnamed_params(alloc, c)?;
    let results = results(alloc, c)?;
    Ok(TypeUse {
        sig,
        params,
        results,
    })
}

/// Takes a type field, behind `(type`.
#[tactic(auto, unfolding(ms_text_grammar::specs::Types::type_field))]
pub fn type_field(alloc: Global, c: &mut Words) -> Result<TypeField, TextFault>
    ensures { Reads c.old c.new result ((type_field c.old.source).read (length c.old.source) c.old.left) }
{
    let id = optional_id(c)?;
    opening(c)?;
    the(Word::Func, c)?;
    let params = params(alloc, c)?;
    let results = results(alloc, c)?;
    no_group(c)?;
    closing(c)?;
    Ok(TypeField {
        id,
        params,
        results,
    })
}

// ---- limits, tables and globals

/// Whether a number is next.
fn next_is_number(c: &Words) -> bool
    ensures { result ≡ next (λ t. is_number t.kind) c.now.left }
{
    match c.rest() {
        [] => false,
        [token, ..] => is_number(*token),
    }
}

/// Takes limits.
#[tactic(auto, unfolding(ms_text_grammar::specs::Types::limits, ms_text_grammar::specs::Types::max_by))]
pub fn limits(c: &mut Words) -> Result<Limits, TextFault>
    ensures { Reads c.old c.new result ((limits c.old.source).read (length c.old.source) c.old.left) }
{
    let min = number(c)?;
    if next_is_number(c) {
        let max = number(c)?;
        return Ok(Limits {
            min,
            max: Some(max),
        });
    }
    Ok(Limits { min, max: None })
}

/// Takes a table type.
#[tactic(auto, unfolding(ms_text_grammar::specs::Types::table_type))]
pub fn table_type(c: &mut Words) -> Result<Limits, TextFault>
    ensures { Reads c.old c.new result ((table_type c.old.source).read (length c.old.source) c.old.left) }
{
    let size = limits(c)?;
    the(Word::Funcref, c)?;
    Ok(size)
}

/// Takes a global type.
#[tactic(auto, unfolding(ms_text_grammar::specs::Types::global_type, ms_text_grammar::specs::Types::global_type_by))]
pub fn global_type(c: &mut Words) -> Result<GlobalType, TextFault>
    ensures { Reads c.old c.new result ((global_type c.old.source).read (length c.old.source) c.old.left) }
{
    if next_begins(Word::Mut, c) {
        opening(c)?;
        the(Word::Mut, c)?;
        let ty = value_type(c)?;
        closing(c)?;
        return Ok(GlobalType { ty, mutable: true });
    }
    no_group(c)?;
    let ty = value_type(c)?;
    Ok(GlobalType { ty, mutable: false })
}
