//! Keywords (C11, 6.4.1) and identifiers (6.4.2).

ghost use Rattle.std.specs.Prelude.{◌≡◌, IfOk, codes};
ghost use Rattle.c_lex.specs.Keywords.{by_word, keyword_of, keywords_a_to_d, keywords_e_to_l, keywords_low, keywords_p_to_s, keywords_t_to_w, keywords_with, word_of};

use c_token::{Bytes, Keyword, Word};
use std::alloc::{AllocError, Global};

/// A keyword that begins with `_`.
#[tactic(auto, unfolding(crate::specs::Keywords::keywords_low))]
fn with_low(text: &[u8]) -> Option<Keyword>
    ensures { result ≡ by_word keywords_low text.now }
{
    if text == b"_Alignas".as_slice() {
        return Some(Keyword::Unused);
    }
    if text == b"_Alignof".as_slice() {
        return Some(Keyword::Unused);
    }
    if text == b"_Atomic".as_slice() {
        return Some(Keyword::Unused);
    }
    if text == b"_Bool".as_slice() {
        return Some(Keyword::Unused);
    }
    if text == b"_Complex".as_slice() {
        return Some(Keyword::Unused);
    }
    if text == b"_Generic".as_slice() {
        return Some(Keyword::Unused);
    }
    if text == b"_Imaginary".as_slice() {
        return Some(Keyword::Unused);
    }
    if text == b"_Noreturn".as_slice() {
        return Some(Keyword::Unused);
    }
    if text == b"_Static_assert".as_slice() {
        return Some(Keyword::Unused);
    }
    if text == b"_Thread_local".as_slice() {
        return Some(Keyword::Unused);
    }
    None
}

/// A keyword that begins with `a` to `d`.
#[tactic(auto, unfolding(crate::specs::Keywords::keywords_a_to_d))]
fn a_to_d(text: &[u8]) -> Option<Keyword>
    ensures { result ≡ by_word keywords_a_to_d text.now }
{
    if text == b"auto".as_slice() {
        return Some(Keyword::Unused);
    }
    if text == b"break".as_slice() {
        return Some(Keyword::Break);
    }
    if text == b"case".as_slice() {
        return Some(Keyword::Case);
    }
    if text == b"char".as_slice() {
        return Some(Keyword::Char);
    }
    if text == b"const".as_slice() {
        return Some(Keyword::Unused);
    }
    if text == b"continue".as_slice() {
        return Some(Keyword::Continue);
    }
    if text == b"default".as_slice() {
        return Some(Keyword::Default);
    }
    if text == b"do".as_slice() {
        return Some(Keyword::Do);
    }
    if text == b"double".as_slice() {
        return Some(Keyword::Unused);
    }
    None
}

/// A keyword that begins with `e` to `l`.
#[tactic(auto, unfolding(crate::specs::Keywords::keywords_e_to_l))]
fn e_to_l(text: &[u8]) -> Option<Keyword>
    ensures { result ≡ by_word keywords_e_to_l text.now }
{
    if text == b"else".as_slice() {
        return Some(Keyword::Else);
    }
    if text == b"enum".as_slice() {
        return Some(Keyword::Enum);
    }
    if text == b"extern".as_slice() {
        return Some(Keyword::Unused);
    }
    if text == b"float".as_slice() {
        return Some(Keyword::Unused);
    }
    if text == b"for".as_slice() {
        return Some(Keyword::For);
    }
    if text == b"goto".as_slice() {
        return Some(Keyword::Unused);
    }
    if text == b"if".as_slice() {
        return Some(Keyword::If);
    }
    if text == b"inline".as_slice() {
        return Some(Keyword::Unused);
    }
    if text == b"int".as_slice() {
        return Some(Keyword::Int);
    }
    if text == b"long".as_slice() {
        return Some(Keyword::Long);
    }
    None
}

/// A keyword that begins with `p` to `s`.
#[tactic(auto, unfolding(crate::specs::Keywords::keywords_p_to_s))]
fn p_to_s(text: &[u8]) -> Option<Keyword>
    ensures { result ≡ by_word keywords_p_to_s text.now }
{
    if text == b"ptrdiff_t".as_slice() {
        return Some(Keyword::PtrdiffT);
    }
    if text == b"register".as_slice() {
        return Some(Keyword::Unused);
    }
    if text == b"restrict".as_slice() {
        return Some(Keyword::Unused);
    }
    if text == b"return".as_slice() {
        return Some(Keyword::Return);
    }
    if text == b"short".as_slice() {
        return Some(Keyword::Short);
    }
    if text == b"signed".as_slice() {
        return Some(Keyword::Signed);
    }
    if text == b"size_t".as_slice() {
        return Some(Keyword::SizeT);
    }
    if text == b"sizeof".as_slice() {
        return Some(Keyword::Sizeof);
    }
    if text == b"static".as_slice() {
        return Some(Keyword::Unused);
    }
    if text == b"struct".as_slice() {
        return Some(Keyword::Struct);
    }
    if text == b"switch".as_slice() {
        return Some(Keyword::Switch);
    }
    None
}

/// A keyword that begins with `t` to `w`.
#[tactic(auto, unfolding(crate::specs::Keywords::keywords_t_to_w))]
fn t_to_w(text: &[u8]) -> Option<Keyword>
    ensures { result ≡ by_word keywords_t_to_w text.now }
{
    if text == b"typedef".as_slice() {
        return Some(Keyword::Unused);
    }
    if text == b"union".as_slice() {
        return Some(Keyword::Unused);
    }
    if text == b"unsigned".as_slice() {
        return Some(Keyword::Unsigned);
    }
    if text == b"void".as_slice() {
        return Some(Keyword::Void);
    }
    if text == b"volatile".as_slice() {
        return Some(Keyword::Unused);
    }
    if text == b"while".as_slice() {
        return Some(Keyword::While);
    }
    None
}

/// The keyword that bytes spell.
fn keyword_of(text: &[u8]) -> Option<Keyword>
    ensures { result ≡ keyword_of text.now }
{
    let [first, ..] = text else {
        return None;
    };
    let first = *first;
    if first == b'_' {
        return with_low(text);
    }
    if first < b'e' {
        return a_to_d(text);
    }
    if first < b'p' {
        return e_to_l(text);
    }
    if first < b't' {
        return p_to_s(text);
    }
    t_to_w(text)
}

/// The keyword or identifier that bytes spell.
pub fn word_of(alloc: Global, text: &[u8]) -> Result<Word, AllocError>
    ensures { IfOk result (λ word. word ≡ word_of text.now) }
{
    if let Some(keyword) = keyword_of(text) {
        return Ok(Word::Keyword(keyword));
    }
    let mut name = Vec::new(alloc);
    name.extend_from_slice(text)?;
    Ok(Word::Name(Bytes::new(name)))
}
