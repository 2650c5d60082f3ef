//! Numbers and indices (WebAssembly 1.0, 6.3.1 and 6.6.1).

ghost use Rattle.std.specs.Prelude.{◌≡◌, ◌^◌, ◌<◌, ◌≤◌, List, ℕ, length, codes, drop, MatchOption};
ghost use Rattle.ms_module.specs.Instructions.{begins_with};
ghost use Rattle.ms_text_lex.specs.Numbers.{constant_of, index_of};
ghost use Rattle.ms_text_grammar.specs.Keywords.{align_is, offset_is};
ghost use Rattle.ms_text_grammar.specs.Tokens.{begins_index, next};
ghost use Rattle.ms_text_grammar.specs.Numbers.{align, behind, constant, exponent_in, index, is_front, is_numbered, is_plain_number, mem_arg, number, offset, optional_index, power_from};
ghost use Rattle.ms_text_parts.specs.refinement.Readers.{Reads};

use crate::parts::{identifier, next_is_id};
use crate::words::{Words, bad, is_float, is_id, is_keyword, is_number};
use ms_module::MemArg;
use ms_text_grammar::{ALIGN_FRONT, Index, OFFSET_FRONT, TextFault};
use ms_text_lex::{Token, constant, index as index_of, is_signed, is_unsigned, text_of};

/// What the text of a number is worth as a constant of 32 bits.
fn constant_32_of(text: &[u8]) -> Option<i32>
    ensures { result ≡ constant_of 32 text.now }
{
    match constant(text, 32) {
        None => None,
        Some(value) => Some(value as i32),
    }
}

/// Takes a constant of 32 bits.
#[tactic(auto, unfolding(ms_text_grammar::specs::Numbers::constant))]
pub fn constant_32(c: &mut Words) -> Result<i32, TextFault>
    ensures { Reads c.old c.new result ((constant c.old.source 32).read (length c.old.source) c.old.left) }
{
    let [token, ..] = c.rest() else {
        return Err(bad(c));
    };
    let token = *token;
    if !is_number(token) {
        return Err(bad(c));
    }
    match constant_32_of(text_of(c.source(), token)) {
        None => Err(TextFault::Range { at: token.at }),
        Some(value) => {
            c.skip();
            Ok(value)
        }
    }
}

/// Takes a constant of 64 bits.
#[tactic(auto, unfolding(ms_text_grammar::specs::Numbers::constant))]
pub fn constant_64(c: &mut Words) -> Result<i64, TextFault>
    ensures { Reads c.old c.new result ((constant c.old.source 64).read (length c.old.source) c.old.left) }
{
    let [token, ..] = c.rest() else {
        return Err(bad(c));
    };
    let token = *token;
    if !is_number(token) {
        return Err(bad(c));
    }
    match constant(text_of(c.source(), token), 64) {
        None => Err(TextFault::Range { at: token.at }),
        Some(value) => {
            c.skip();
            Ok(value)
        }
    }
}

/// Whether a token is a number without a sign.
fn is_plain_number(source: &[u8], token: Token) -> bool
    ensures { result ≡ is_plain_number source.now token }
{
    is_number(token) && !is_signed(text_of(source, token))
}

/// Takes a number.
#[tactic(auto, unfolding(ms_text_grammar::specs::Numbers::number))]
pub fn number(c: &mut Words) -> Result<u32, TextFault>
    ensures { Reads c.old c.new result ((number c.old.source).read (length c.old.source) c.old.left) }
{
    let [token, ..] = c.rest() else {
        return Err(bad(c));
    };
    let token = *token;
    if !is_number(token) {
        return Err(bad(c));
    }
    match index_of(text_of(c.source(), token)) {
        None => {
            if is_plain_number(c.source(), token) {
                Err(TextFault::Range { at: token.at })
            } else {
                Err(bad(c))
            }
        }
        Some(value) => {
            c.skip();
            Ok(value)
        }
    }
}

/// Takes a number or an identifier.
#[tactic(auto, unfolding(ms_text_grammar::specs::Numbers::index, ms_text_grammar::specs::Numbers::index_by))]
pub fn index(c: &mut Words) -> Result<Index, TextFault>
    ensures { Reads c.old c.new result ((index c.old.source).read (length c.old.source) c.old.left) }
{
    if next_is_id(c) {
        let token = identifier(c)?;
        return Ok(Index::Name(token));
    }
    let value = number(c)?;
    Ok(Index::Number(value))
}

/// Whether a number or an identifier is next.
pub fn next_is_index(c: &Words) -> bool
    ensures { result ≡ begins_index c.now.left }
{
    match c.rest() {
        [] => false,
        [token, ..] => is_id(*token) || is_number(*token),
    }
}

/// Takes a number or an identifier, if there is one, and else gives 0.
#[tactic(auto, unfolding(ms_text_grammar::specs::Numbers::optional_index, ms_text_grammar::specs::Numbers::optional_index_by))]
pub fn optional_index(c: &mut Words) -> Result<Index, TextFault>
    ensures { Reads c.old c.new result ((optional_index c.old.source).read (length c.old.source) c.old.left) }
{
    if next_is_index(c) {
        return index(c);
    }
    Ok(Index::Number(0))
}

/// Whether a token is a keyword that begins so.
fn is_front(source: &[u8], front: &[u8], token: Token) -> bool
    ensures { result ≡ is_front source.now front.now token }
{
    is_keyword(token) && text_of(source, token).starts_with(front)
}

/// Whether a keyword that begins so is next.
fn next_is_front(front: &[u8], c: &Words) -> bool
    ensures { result ≡ next (is_front c.now.source front.now) c.now.left }
{
    match c.rest() {
        [] => false,
        [token, ..] => is_front(c.source(), front, *token),
    }
}

/// What stands behind the front of a keyword.
fn behind<'a>(source: &'a [u8], front: &[u8], token: Token) -> &'a [u8]
    ensures { result.now ≡ behind source.now front.now token }
{
    let text = text_of(source, token);
    &text[front.len().min(text.len())..]
}

/// Whether a token is a keyword with digits behind this front, and none of floating-point numbers.
fn is_numbered(source: &[u8], front: &[u8], token: Token) -> bool
    ensures { result ≡ is_numbered source.now front.now token }
{
    is_front(source, front, token)
        && is_unsigned(behind(source, front, token))
        && !is_float(source, token)
}

/// The exponent of which a number is the power of two, if it is less than `most`.
fn power_below(most: u32, n: u32) -> Option<u32>
    requires { most ≤ 32 }
    ensures { result ≡ power_from most 0 n }
{
    for k in 0..most {
        if n == 1 << k {
            return Some(k);
        }
    }
    None
}

/// Takes an offset, or gives 0 where there is none.
#[tactic(auto, unfolding(ms_text_grammar::specs::Numbers::offset, ms_text_grammar::specs::Numbers::offset_by))]
fn offset(c: &mut Words) -> Result<u32, TextFault>
    ensures { Reads c.old c.new result ((offset c.old.source).read (length c.old.source) c.old.left) }
{
    if !next_is_front(OFFSET_FRONT, c) {
        return Ok(0);
    }
    let [token, ..] = c.rest() else {
        return Err(bad(c));
    };
    let token = *token;
    if !is_numbered(c.source(), OFFSET_FRONT, token) {
        return Err(bad(c));
    }
    let Some(value) = index_of(behind(c.source(), OFFSET_FRONT, token)) else {
        return Err(TextFault::Range { at: token.at });
    };
    c.skip();
    Ok(value)
}

/// The exponent of an alignment's digits.
fn exponent_in(digits: &[u8]) -> Option<u32>
    ensures { result ≡ exponent_in (index_of digits.now) }
{
    let n = index_of(digits)?;
    power_below(32, n)
}

/// Takes an alignment as its exponent, or gives the natural one where there is none.
#[tactic(auto, unfolding(ms_text_grammar::specs::Numbers::align, ms_text_grammar::specs::Numbers::align_by))]
fn align(natural: u32, c: &mut Words) -> Result<u32, TextFault>
    ensures { Reads c.old c.new result ((align c.old.source natural).read (length c.old.source) c.old.left) }
{
    if !next_is_front(ALIGN_FRONT, c) {
        return Ok(natural);
    }
    let [token, ..] = c.rest() else {
        return Err(bad(c));
    };
    let token = *token;
    if !is_numbered(c.source(), ALIGN_FRONT, token) {
        return Err(bad(c));
    }
    let Some(exponent) = exponent_in(behind(c.source(), ALIGN_FRONT, token)) else {
        return Err(TextFault::Range { at: token.at });
    };
    c.skip();
    Ok(exponent)
}

/// Takes the offset and the alignment of an access, whose natural alignment has this exponent.
#[tactic(auto, unfolding(ms_text_grammar::specs::Numbers::mem_arg))]
pub fn mem_arg(natural: u32, c: &mut Words) -> Result<MemArg, TextFault>
    ensures { Reads c.old c.new result ((mem_arg c.old.source natural).read (length c.old.source) c.old.left) }
{
    let offset = offset(c)?;
    let align = align(natural, c)?;
    Ok(MemArg { align, offset })
}
