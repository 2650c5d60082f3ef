//! What stands in front in a body, and the heads of blocks (WebAssembly 1.0, 6.5.2).

ghost use Rattle.std.specs.Prelude.{◌≡◌, length, codes};
ghost use Rattle.std.specs.Str.{bytes_eq};
ghost use Rattle.ms_module.specs.Instructions.{by_word, opening_rows};
ghost use Rattle.ms_text_grammar.specs.Bounds.{usual};
ghost use Rattle.ms_text_grammar.specs.Advances.{heading, is_label, marked, repeated, sign_of, word_sign};
ghost use Rattle.ms_text_parts.specs.refinement.Readers.{Reads};

use ms_module::MOST_BLOCKS;
use ms_module::Opening::{self, Block, If, Loop};
use ms_text_grammar::{
    Counted, ELSE_WORD, END_WORD, Sign, TextFault, Word, item_by_word, opening_keywords,
};
use ms_text_lex::{Token, text_of};
use ms_text_parts::{
    Words, bad, block_type, is_close, is_keyword, is_open, next_is_id, optional_id,
};
use ms_types::ValType;

#[tactic(auto, unfolding(ms_module::specs::Instructions::opening_rows))]
fn opening_word(text: &[u8]) -> Option<Opening>
    ensures { result ≡ by_word opening_rows text.now }
{
    opening_keywords!(item_by_word text)
}

fn word_sign(text: &[u8]) -> Sign
    ensures { result ≡ word_sign text.now }
{
    if text == END_WORD {
        return Sign::Ends;
    }
    if text == ELSE_WORD {
        return Sign::Elses;
    }
    if text == Word::Then.spelling() {
        return Sign::Thens;
    }
    match opening_word(text) {
        Some(opening) => Sign::Heads(opening),
        None => Sign::Other,
    }
}

/// What stands in front.
pub fn sign_of(c: &Words) -> Sign
    ensures { result ≡ sign_of c.now.source c.now.left }
{
    let [token, ..] = c.rest() else {
        return Sign::Other;
    };
    let token = *token;
    if is_open(token) {
        return Sign::Left;
    }
    if is_close(token) {
        return Sign::Right;
    }
    if is_keyword(token) {
        return word_sign(text_of(c.source(), token));
    }
    Sign::Other
}

/// Takes the keyword of a block, its label and its type, where so many blocks are open.
#[tactic(auto, unfolding(ms_text_grammar::specs::Advances::heading))]
pub fn heading(blocks: usize, c: &mut Words) -> Result<(Option<Token>, Option<ValType>), TextFault>
    ensures { Reads c.old c.new result ((heading c.old.source usual.blocks blocks).read (length c.old.source) c.old.left) }
{
    if blocks >= MOST_BLOCKS {
        return Err(TextFault::Limit {
            which: Counted::Blocks,
            at: c.at(),
        });
    }
    let [token, ..] = c.rest() else {
        return Err(bad(c));
    };
    if !is_keyword(*token) {
        return Err(bad(c));
    }
    c.skip();
    let label = optional_id(c)?;
    let ty = block_type(c)?;
    Ok((label, ty))
}

/// Whether a token is the identifier of a label.
fn is_label(source: &[u8], label: Option<Token>, token: Token) -> bool
    ensures { result ≡ is_label source.now usual.blocks label token }
{
    match label {
        None => false,
        Some(label) => text_of(source, token) == text_of(source, label),
    }
}

/// Takes a label again, if there is an identifier.
#[tactic(auto, unfolding(ms_text_grammar::specs::Advances::repeated, ms_text_grammar::specs::Advances::repeated_by))]
pub fn repeated(label: Option<Token>, c: &mut Words) -> Result<(), TextFault>
    ensures { Reads c.old c.new result ((repeated c.old.source usual.blocks label).read (length c.old.source) c.old.left) }
{
    if !next_is_id(c) {
        return Ok(());
    }
    let [token, ..] = c.rest() else {
        return Err(bad(c));
    };
    if !is_label(c.source(), label, *token) {
        return Err(bad(c));
    }
    c.skip();
    Ok(())
}
