//! Fields and files (WebAssembly 1.0, 6.6.13).

ghost use Rattle.std.specs.Prelude.{◌≡◌, ◌||◌, length, OnOk};
ghost use Rattle.ms_bytes.specs.Parts.{ended, item};
ghost use Rattle.ms_text_grammar.specs.Bounds.{usual};
ghost use Rattle.ms_text_grammar.specs.Faults.{bad};
ghost use Rattle.ms_text_grammar.specs.Fields.{all_fields, among, behind_field, field_word, field_words, fields_go, file, is_definition, is_start, may_stand, next_field, with_field};
ghost use Rattle.ms_text_parts.specs.refinement.Readers.{Reads};

use crate::entries::{entry_field, import_field};
use crate::others::{data_field, element_field, export_field};
use ms_text_grammar::{ExternKind, Field, TextFault, Word};
use ms_text_lex::text_of;
use ms_text_parts::{
    Steps, Words, bad, closing, index, is_close, is_keyword, next_begins, opening, optional_id,
    run, the, type_field,
};
use ms_types::Vector;
use std::alloc::{AllocError, Global};
use std::marker::Model;

/// The words of fields.
const FIELD_WORDS: [Word; 10] = [
    Word::Type,
    Word::Import,
    Word::Func,
    Word::Table,
    Word::Memory,
    Word::Global,
    Word::Export,
    Word::Start,
    Word::Elem,
    Word::Data,
];

/// The word of a field that a text is, if it is one.
#[tactic(auto, unfolding(ms_text_grammar::specs::Fields::field_words))]
fn word_of(text: &[u8]) -> Option<Word>
    ensures { result ≡ among field_words text.now }
{
    for word in FIELD_WORDS {
        if text == word.spelling() {
            return Some(word);
        }
    }
    None
}

/// The fields so far, whether the module has parentheses, whether there is a start, and whether there is a definition.
#[derive(Drop)]
struct Working {
    bracketed: bool,
    fields: Vector<Field>,
    started: bool,
    defined: bool,
    alloc: Global,
}

impl Model for Working {
    ghost use Rattle.ms_text_grammar.specs.Fields.{File};

    ghost Value = { File };

    ghost view = { λ w. record { bracketed = w.bracketed; fields = w.fields; started = w.started; defined = w.defined } };
}

fn is_start(field: &Field) -> bool
    ensures { result ≡ is_start field.now }
{
    matches!(field, Field::Start(_))
}

fn is_definition(field: &Field) -> bool
    ensures { result ≡ is_definition field.now }
{
    match field {
        Field::Entry(entry) => entry.import.is_none(),
        _ => false,
    }
}

impl Working {
    /// Whether the word of a field may stand behind these fields.
    fn may_stand(&self, word: Word) -> bool
        ensures { result ≡ may_stand self.now word }
    {
        match word {
            Word::Start => !self.started,
            Word::Import => !self.defined,
            _ => true,
        }
    }

    /// Takes the word of a field. A second start may not stand there, nor an import behind a definition.
    fn word(&self, c: &mut Words) -> Result<Word, TextFault>
        ensures { Reads c.old c.new result ((item (bad c.old.source) (field_word c.old.source usual self.now)).read (length c.old.source) c.old.left) }
    {
        let [token, ..] = c.rest() else {
            return Err(bad(c));
        };
        let token = *token;
        if !is_keyword(token) {
            return Err(bad(c));
        }
        let Some(word) = word_of(text_of(c.source(), token)) else {
            return Err(bad(c));
        };
        if !self.may_stand(word) {
            return Err(bad(c));
        }
        c.skip();
        Ok(word)
    }

    /// One field more.
    fn add(&mut self, field: Field) -> Result<(), AllocError>
        ensures { OnOk result (self.new ≡ with_field field self.old) }
    {
        self.started = self.started || is_start(&field);
        self.defined = self.defined || is_definition(&field);
        self.fields.push(field)?;
        Ok(())
    }
}

/// Takes a field behind its word.
#[tactic(auto, unfolding(ms_text_grammar::specs::Fields::behind_field))]
fn behind_field(alloc: Global, defined: bool, word: Word, c: &mut Words) -> Result<Field, TextFault>
    ensures { Reads c.old c.new result ((behind_field c.old.source usual defined word).read (length c.old.source) c.old.left) }
{
    match word {
        Word::Type => Ok(Field::Type(type_field(alloc, c)?)),
        Word::Import => Ok(Field::Entry(import_field(alloc, c)?)),
        Word::Func => Ok(Field::Entry(entry_field(alloc, defined, ExternKind::Func, c)?)),
        Word::Table => Ok(Field::Entry(entry_field(alloc, defined, ExternKind::Table, c)?)),
        Word::Memory => Ok(Field::Entry(entry_field(alloc, defined, ExternKind::Memory, c)?)),
        Word::Global => Ok(Field::Entry(entry_field(alloc, defined, ExternKind::Global, c)?)),
        Word::Export => export_field(alloc, c),
        Word::Start => Ok(Field::Start(index(c)?)),
        Word::Elem => element_field(alloc, c),
        Word::Data => data_field(alloc, c),
        _ => Err(bad(c)),
    }
}

impl Steps for Working {
    ghost going = { λ source file s. fields_go source usual file s };

    ghost step = { λ source file. next_field source usual file };

    fn goes(&self, c: &Words) -> bool {
        match c.rest() {
            [] => self.bracketed,
            [token, ..] => !(self.bracketed && is_close(*token)),
        }
    }

    #[tactic(auto, unfolding(ms_text_grammar::specs::Fields::next_field))]
    fn step(self, c: &mut Words) -> Result<Self, TextFault> {
        let mut file = self;
        opening(c)?;
        let word = file.word(c)?;
        let field = behind_field(file.alloc, file.defined, word, c)?;
        closing(c)?;
        file.add(field)?;
        Ok(file)
    }
}

/// Takes fields, up to the parenthesis of their module or up to the end.
#[tactic(auto, unfolding(ms_text_grammar::specs::Fields::all_fields))]
fn all_fields(alloc: Global, bracketed: bool, c: &mut Words) -> Result<Working, TextFault>
    ensures { Reads c.old c.new result ((all_fields c.old.source usual bracketed).read (length c.old.source) c.old.left) }
{
    run(
        Working {
            bracketed,
            fields: Vector::new(alloc),
            started: false,
            defined: false,
            alloc,
        },
        c,
    )
}

/// Nothing is left.
fn ended(c: &mut Words) -> Result<(), TextFault>
    ensures { Reads c.old c.new result ((ended (bad c.old.source)).read (length c.old.source) c.old.left) }
{
    match c.rest() {
        [] => Ok(()),
        [_, ..] => Err(bad(c)),
    }
}

/// Takes a whole file: a module in its parentheses, or its fields alone.
#[tactic(auto, unfolding(ms_text_grammar::specs::Fields::file_within, ms_text_grammar::specs::Fields::file_by))]
pub fn whole_file(alloc: Global, c: &mut Words) -> Result<Vector<Field>, TextFault>
    ensures { Reads c.old c.new result ((file c.old.source).read (length c.old.source) c.old.left) }
{
    if !next_begins(Word::Module, c) {
        let file = all_fields(alloc, false, c)?;
        ended(c)?;
        return Ok(file.fields);
    }
    opening(c)?;
    the(Word::Module, c)?;
    optional_id(c)?;
    let file = all_fields(alloc, true, c)?;
    closing(c)?;
    ended(c)?;
    Ok(file.fields)
}
