//! Lists of indices, strings and names.

ghost use Rattle.std.specs.Prelude.{◌≡◌, length};
ghost use Rattle.ms_text_grammar.specs.Bounds.{usual};
ghost use Rattle.ms_text_grammar.specs.declared.word.Word.TheVariants as word;
ghost use Rattle.ms_text_grammar.specs.Entries.{indices, inline_exports, next_export, next_index, next_string, strings};
ghost use Rattle.ms_text_grammar.specs.Parts.{group, group_goes, list_goes};
ghost use Rattle.ms_text_parts.specs.refinement.Readers.{Reads};

use ms_text_grammar::{Index, TextFault, Word};
use ms_text_lex::Token;
use ms_text_parts::{
    Steps, Words, closing, index, name, next_begins, next_closes, opening, run, string, the,
};
use ms_types::Vector;
use std::alloc::Global;
use std::marker::Model;

/// Indices up to a parenthesis.
#[derive(Drop)]
struct IndexList {
    items: Vector<Index>,
}

impl Model for IndexList {
    ghost use Rattle.std.specs.Prelude.{List};
    ghost use Rattle.ms_text_grammar.specs.declared.surface.Index.{Index};

    ghost Value = { List Index };

    ghost view = { λ l. l.items };
}

impl Steps for IndexList {
    ghost going = { λ source xs s. list_goes source xs s };

    ghost step = { λ source xs. next_index source usual xs };

    fn goes(&self, c: &Words) -> bool {
        !next_closes(c)
    }

    #[tactic(auto, unfolding(ms_text_grammar::specs::Entries::next_index))]
    fn step(self, c: &mut Words) -> Result<Self, TextFault> {
        let IndexList { mut items } = self;
        let x = index(c)?;
        items.push(x)?;
        Ok(IndexList { items })
    }
}

/// Takes indices up to a parenthesis.
#[tactic(auto, unfolding(ms_text_grammar::specs::Entries::indices, ms_text_grammar::specs::Parts::listed))]
pub fn indices(alloc: Global, c: &mut Words) -> Result<Vector<Index>, TextFault>
    ensures { Reads c.old c.new result ((indices c.old.source usual).read (length c.old.source) c.old.left) }
{
    let first = IndexList {
        items: Vector::new(alloc),
    };
    let IndexList { items } = run(first, c)?;
    Ok(items)
}

/// Strings up to a parenthesis.
#[derive(Drop)]
struct StringList {
    items: Vector<Token>,
}

impl Model for StringList {
    ghost use Rattle.std.specs.Prelude.{List};
    ghost use Rattle.ms_text_lex.specs.declared.token.Token.{Token};

    ghost Value = { List Token };

    ghost view = { λ l. l.items };
}

impl Steps for StringList {
    ghost going = { λ source ts s. list_goes source ts s };

    ghost step = { λ source ts. next_string source usual ts };

    fn goes(&self, c: &Words) -> bool {
        !next_closes(c)
    }

    #[tactic(auto, unfolding(ms_text_grammar::specs::Entries::next_string))]
    fn step(self, c: &mut Words) -> Result<Self, TextFault> {
        let StringList { mut items } = self;
        let token = string(c)?;
        items.push(token)?;
        Ok(StringList { items })
    }
}

/// Takes strings up to a parenthesis.
#[tactic(auto, unfolding(ms_text_grammar::specs::Entries::strings, ms_text_grammar::specs::Parts::listed))]
pub fn strings(alloc: Global, c: &mut Words) -> Result<Vector<Token>, TextFault>
    ensures { Reads c.old c.new result ((strings c.old.source usual).read (length c.old.source) c.old.left) }
{
    let first = StringList {
        items: Vector::new(alloc),
    };
    let StringList { items } = run(first, c)?;
    Ok(items)
}

/// Groups of inline exports.
#[derive(Drop)]
struct Exports {
    names: Vector<Token>,
    alloc: Global,
}

impl Model for Exports {
    ghost use Rattle.std.specs.Prelude.{List};
    ghost use Rattle.ms_text_lex.specs.declared.token.Token.{Token};

    ghost Value = { List Token };

    ghost view = { λ e. e.names };
}

/// Takes what is in an inline export.
#[tactic(auto, unfolding(ms_text_grammar::specs::Entries::next_export))]
fn next_export(
    alloc: Global,
    so_far: Vector<Token>,
    c: &mut Words,
) -> Result<Vector<Token>, TextFault>
    ensures { Reads c.old c.new result ((next_export c.old.source usual so_far).read (length c.old.source) c.old.left) }
{
    let mut names = so_far;
    let token = name(alloc, c)?;
    names.push(token)?;
    Ok(names)
}

impl Steps for Exports {
    ghost going = { λ source ts s. group_goes source word.Export (next_export source usual) ts s };

    ghost step = { λ source ts. group source word.Export (next_export source usual) ts };

    fn goes(&self, c: &Words) -> bool {
        next_begins(Word::Export, c)
    }

    #[tactic(auto, unfolding(ms_text_grammar::specs::Parts::group))]
    fn step(self, c: &mut Words) -> Result<Self, TextFault> {
        let Exports { names, alloc } = self;
        opening(c)?;
        the(Word::Export, c)?;
        let names = next_export(alloc, names, c)?;
        closing(c)?;
        Ok(Exports { names, alloc })
    }
}

/// Takes inline exports, as many as there are, as their names.
#[tactic(auto, unfolding(ms_text_grammar::specs::Entries::inline_exports, ms_text_grammar::specs::Parts::groups))]
pub fn inline_exports(alloc: Global, c: &mut Words) -> Result<Vector<Token>, TextFault>
    ensures { Reads c.old c.new result ((inline_exports c.old.source usual).read (length c.old.source) c.old.left) }
{
    let first = Exports {
        names: Vector::new(alloc),
        alloc,
    };
    let Exports { names, alloc: _ } = run(first, c)?;
    Ok(names)
}
