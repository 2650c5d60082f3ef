//! Functions, tables, memories and globals, imported and defined (WebAssembly 1.0, 6.6.4 to 6.6.8).

ghost use Rattle.std.specs.Prelude.{◌≡◌, ◌&&◌, not, length};
ghost use Rattle.ms_text_grammar.specs.Bounds.{usual};
ghost use Rattle.ms_text_grammar.specs.Faults.{bad, kept};
ghost use Rattle.ms_text_grammar.specs.Keywords.{spelling};
ghost use Rattle.ms_text_grammar.specs.declared.word.Word.TheVariants as word;
ghost use Rattle.ms_bytes.specs.Parts.{item};
ghost use Rattle.ms_text_grammar.specs.Tokens.{is_word, next};
ghost use Rattle.ms_text_grammar.specs.Entries.{content, definition, entry_field, extern_kind, import_field, import_names, import_word, imported, inline_import, kind_of, no_body};
ghost use Rattle.ms_text_parts.specs.refinement.Readers.{Reads};

use crate::lists::{indices, inline_exports, strings};
use ms_text_bodies::body;
use ms_text_grammar::{Body, Entry, ExternKind, ImportNames, Item, TextFault, Word};
use ms_text_lex::{Token, text_of};
use ms_text_parts::{
    Words, all_locals, bad, closing, global_type, is_keyword, is_word, limits, name, next_begins,
    no_group, opening, optional_id, table_type, the, type_use,
};
use ms_types::Vector;
use std::alloc::Global;

/// No instructions. Takes no memory.
fn no_body(alloc: Global) -> Body
    ensures { result ≡ no_body }
{
    Body {
        uses: Vector::new(alloc),
        ops: Vector::new(alloc),
    }
}

/// The kind of entries of a keyword.
fn kind_of(text: &[u8]) -> Option<ExternKind>
    ensures { result ≡ kind_of text.now }
{
    if text == Word::Func.spelling() {
        return Some(ExternKind::Func);
    }
    if text == Word::Table.spelling() {
        return Some(ExternKind::Table);
    }
    if text == Word::Memory.spelling() {
        return Some(ExternKind::Memory);
    }
    if text == Word::Global.spelling() {
        return Some(ExternKind::Global);
    }
    None
}

/// Takes the keyword of a kind of entries.
#[tactic(auto, unfolding(ms_text_grammar::specs::Entries::extern_kind))]
pub fn take_kind(c: &mut Words) -> Result<ExternKind, TextFault>
    ensures { Reads c.old c.new result ((extern_kind c.old.source usual).read (length c.old.source) c.old.left) }
{
    let [token, ..] = c.rest() else {
        return Err(bad(c));
    };
    let token = *token;
    if !is_keyword(token) {
        return Err(bad(c));
    }
    let Some(kind) = kind_of(text_of(c.source(), token)) else {
        return Err(bad(c));
    };
    c.skip();
    Ok(kind)
}

/// Takes what is imported.
#[tactic(auto, unfolding(ms_text_grammar::specs::Entries::imported))]
fn imported(alloc: Global, kind: ExternKind, c: &mut Words) -> Result<Item, TextFault>
    ensures { Reads c.old c.new result ((imported c.old.source usual kind).read (length c.old.source) c.old.left) }
{
    match kind {
        ExternKind::Func => {
            let sig = type_use(alloc, c)?;
            no_group(c)?;
            Ok(Item::Func {
                sig,
                locals: Vector::new(alloc),
                body: no_body(alloc),
            })
        }
        ExternKind::Table => Ok(Item::Table(table_type(c)?)),
        ExternKind::Memory => Ok(Item::Memory(limits(c)?)),
        ExternKind::Global => {
            let ty = global_type(c)?;
            Ok(Item::Global {
                ty,
                init: no_body(alloc),
            })
        }
    }
}

/// Takes the names of an import.
#[tactic(auto, unfolding(ms_text_grammar::specs::Entries::import_names))]
fn import_names(alloc: Global, c: &mut Words) -> Result<ImportNames, TextFault>
    ensures { Reads c.old c.new result ((import_names c.old.source usual).read (length c.old.source) c.old.left) }
{
    let module = name(alloc, c)?;
    let name = name(alloc, c)?;
    Ok(ImportNames { module, name })
}

/// Takes an import, behind its word.
#[tactic(auto, unfolding(ms_text_grammar::specs::Entries::import_field))]
pub fn import_field(alloc: Global, c: &mut Words) -> Result<Entry, TextFault>
    ensures { Reads c.old c.new result ((import_field c.old.source usual).read (length c.old.source) c.old.left) }
{
    let names = import_names(alloc, c)?;
    opening(c)?;
    let kind = take_kind(c)?;
    let id = optional_id(c)?;
    let item = imported(alloc, kind, c)?;
    closing(c)?;
    Ok(Entry {
        id,
        exports: Vector::new(alloc),
        import: Some(names),
        item,
    })
}

/// Takes the word `import`, which no definition stands before.
fn import_word(defined: bool, c: &mut Words) -> Result<Token, TextFault>
    ensures { Reads c.old c.new result ((item (bad c.old.source) (import_word c.old.source usual defined)).read (length c.old.source) c.old.left) }
{
    let [token, ..] = c.rest() else {
        return Err(bad(c));
    };
    let token = *token;
    if defined || !is_word(c.source(), Word::Import.spelling(), token) {
        return Err(bad(c));
    }
    c.skip();
    Ok(token)
}

/// Takes an inline import, if there is one.
#[tactic(auto, unfolding(ms_text_grammar::specs::Entries::inline_import, ms_text_grammar::specs::Entries::inline_import_by))]
fn inline_import(
    alloc: Global,
    defined: bool,
    c: &mut Words,
) -> Result<Option<ImportNames>, TextFault>
    ensures { Reads c.old c.new result ((inline_import c.old.source usual defined).read (length c.old.source) c.old.left) }
{
    if !next_begins(Word::Import, c) {
        return Ok(None);
    }
    opening(c)?;
    import_word(defined, c)?;
    let names = import_names(alloc, c)?;
    closing(c)?;
    Ok(Some(names))
}

/// Whether `funcref` is next.
fn next_is_funcref(c: &Words) -> bool
    ensures { result ≡ next (is_word c.now.source (spelling word.Funcref)) c.now.left }
{
    match c.rest() {
        [] => false,
        [token, ..] => is_word(c.source(), Word::Funcref.spelling(), *token),
    }
}

/// Takes a table that is defined.
#[tactic(auto, unfolding(ms_text_grammar::specs::Entries::definition, ms_text_grammar::specs::Entries::table_by))]
fn table(alloc: Global, c: &mut Words) -> Result<Item, TextFault>
    ensures { Reads c.old c.new result ((definition c.old.source usual ExternKind.Table).read (length c.old.source) c.old.left) }
{
    if next_is_funcref(c) {
        the(Word::Funcref, c)?;
        opening(c)?;
        the(Word::Elem, c)?;
        let funcs = indices(alloc, c)?;
        closing(c)?;
        return Ok(Item::Elements(funcs));
    }
    no_group(c)?;
    Ok(Item::Table(table_type(c)?))
}

/// Takes a memory that is defined.
#[tactic(auto, unfolding(ms_text_grammar::specs::Entries::definition, ms_text_grammar::specs::Entries::memory_by))]
fn memory(alloc: Global, c: &mut Words) -> Result<Item, TextFault>
    ensures { Reads c.old c.new result ((definition c.old.source usual ExternKind.Memory).read (length c.old.source) c.old.left) }
{
    if next_begins(Word::Data, c) {
        opening(c)?;
        the(Word::Data, c)?;
        let bytes = strings(alloc, c)?;
        closing(c)?;
        return Ok(Item::Data(bytes));
    }
    no_group(c)?;
    Ok(Item::Memory(limits(c)?))
}

/// Takes what is defined.
#[tactic(auto, unfolding(ms_text_grammar::specs::Entries::definition))]
fn definition(alloc: Global, kind: ExternKind, c: &mut Words) -> Result<Item, TextFault>
    ensures { Reads c.old c.new result ((definition c.old.source usual kind).read (length c.old.source) c.old.left) }
{
    match kind {
        ExternKind::Func => {
            let sig = type_use(alloc, c)?;
            let locals = all_locals(alloc, c)?;
            let body = body(alloc, c)?;
            Ok(Item::Func { sig, locals, body })
        }
        ExternKind::Table => table(alloc, c),
        ExternKind::Memory => memory(alloc, c),
        ExternKind::Global => {
            let ty = global_type(c)?;
            let init = body(alloc, c)?;
            Ok(Item::Global { ty, init })
        }
    }
}

/// Takes what an entry is.
#[tactic(auto, unfolding(ms_text_grammar::specs::Entries::content))]
fn content(
    alloc: Global,
    kind: ExternKind,
    import: Option<ImportNames>,
    c: &mut Words,
) -> Result<Item, TextFault>
    ensures { Reads c.old c.new result ((content c.old.source usual kind import).read (length c.old.source) c.old.left) }
{
    match import {
        Some(_) => imported(alloc, kind, c),
        None => definition(alloc, kind, c),
    }
}

/// Takes an entry behind its word, where definitions stand before it or none does.
#[tactic(auto, unfolding(ms_text_grammar::specs::Entries::entry_field))]
pub fn entry_field(
    alloc: Global,
    defined: bool,
    kind: ExternKind,
    c: &mut Words,
) -> Result<Entry, TextFault>
    ensures { Reads c.old c.new result ((entry_field c.old.source usual defined kind).read (length c.old.source) c.old.left) }
{
    let id = optional_id(c)?;
    let exports = inline_exports(alloc, c)?;
    let import = inline_import(alloc, defined, c)?;
    let item = content(alloc, kind, import, c)?;
    Ok(Entry {
        id,
        exports,
        import,
        item,
    })
}
