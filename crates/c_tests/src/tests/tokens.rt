//! Texts with their tokens, and texts with their faults, worked out by hand.

use c_lex::{CLex, lex};
use c_token::{IntegerType, Keyword, Mark, Token, Word};
use std::alloc::Global;
use std::test::Fail;

/// What a token is to be.
#[derive(Clone, Copy)]
enum Want {
    Name(&'static [u8]),
    Integer(u64, IntegerType),
    Character(u8),
    String(&'static [u8]),
    Keyword(Keyword),
    Mark(Mark),
}

fn is_word(word: &Word, want: Want) -> bool {
    match (word, want) {
        (Word::Name(name), Want::Name(text)) => name.as_slice() == text,
        (Word::Integer(value, ty), Want::Integer(number, type_of)) => {
            *value == number && *ty as u8 == type_of as u8
        }
        (Word::Character(byte), Want::Character(code)) => *byte == code,
        (Word::String(bytes), Want::String(text)) => bytes.as_slice() == text,
        (Word::Keyword(keyword), Want::Keyword(other)) => *keyword as u8 == other as u8,
        (Word::Mark(mark), Want::Mark(other)) => *mark as u8 == other as u8,
        _ => false,
    }
}

fn are(tokens: &[Token], wants: &[(usize, Want)]) -> bool {
    if tokens.len() != wants.len() {
        return false;
    }
    for (token, want) in tokens.iter().zip(wants) {
        if token.at != want.0 || !is_word(&token.word, want.1) {
            return false;
        }
    }
    true
}

/// Whether a text has these tokens.
fn lexes(alloc: Global, text: &[u8], wants: &[(usize, Want)]) -> bool {
    match lex(alloc, text) {
        Ok(tokens) => are(tokens.as_slice(), wants),
        Err(_) => false,
    }
}

const PROGRAM: [(usize, Want); 10] = [
    (0, Want::Keyword(Keyword::Int)),
    (4, Want::Name(b"main")),
    (8, Want::Mark(Mark::OpenParen)),
    (9, Want::Keyword(Keyword::Void)),
    (13, Want::Mark(Mark::CloseParen)),
    (14, Want::Mark(Mark::OpenBrace)),
    (15, Want::Keyword(Keyword::Return)),
    (22, Want::Integer(0, IntegerType::Int)),
    (23, Want::Mark(Mark::Semicolon)),
    (24, Want::Mark(Mark::CloseBrace)),
];

const NUMBERS: [(usize, Want); 7] = [
    (0, Want::Integer(0x7FFF_FFFF, IntegerType::Int)),
    (11, Want::Integer(0x8000_0000, IntegerType::UnsignedInt)),
    (22, Want::Integer(0x8000_0000, IntegerType::LongLong)),
    (33, Want::Integer(8, IntegerType::Int)),
    (37, Want::Integer(1, IntegerType::Long)),
    (40, Want::Integer(1, IntegerType::UnsignedLong)),
    (44, Want::Integer(u64::MAX, IntegerType::UnsignedLongLong)),
];

const MARKS: [(usize, Want); 9] = [
    (0, Want::Name(b"a")),
    (1, Want::Mark(Mark::LessLessEqual)),
    (4, Want::Name(b"b")),
    (5, Want::Mark(Mark::PlusPlus)),
    (7, Want::Mark(Mark::Plus)),
    (8, Want::Mark(Mark::Arrow)),
    (10, Want::Mark(Mark::Dot)),
    (11, Want::Mark(Mark::Dot)),
    (12, Want::Mark(Mark::Dot)),
];

const CHARACTERS: [(usize, Want); 5] = [
    (0, Want::Character(97)),
    (4, Want::Character(39)),
    (9, Want::Character(65)),
    (16, Want::Character(65)),
    (23, Want::Character(0)),
];

const ESCAPES: [u8; 14] = [7, 8, 12, 10, 13, 9, 11, 63, 34, 92, 83, 52, 0, 103];

const ESCAPED: [(usize, Want); 1] = [(0, Want::String(&ESCAPES))];

const JOINED: [(usize, Want); 1] = [(1, Want::String(b"abc"))];

const NAMES: [(usize, Want); 2] = [(5, Want::Name(b"a")), (11, Want::Name(b"c"))];

const NONE: [(usize, Want); 0] = [];

const WORDS: [(usize, Want); 5] = [
    (0, Want::Name(b"size_tx")),
    (8, Want::Keyword(Keyword::SizeT)),
    (15, Want::Keyword(Keyword::PtrdiffT)),
    (25, Want::Keyword(Keyword::Unused)),
    (30, Want::Keyword(Keyword::Unused)),
];

#[test]
fn texts_with_their_tokens(rt: HostRuntime) {
    let table = [
        (b"int main(void){return 0;}".as_slice(), PROGRAM.as_slice()),
        (
            b"0x7fffffff 0x80000000 2147483648 010 1L 1lu 18446744073709551615ULL",
            NUMBERS.as_slice(),
        ),
        (b"a<<=b+++->...", MARKS.as_slice()),
        (b"'a' '\\'' '\\x41' '\\101' '\\0'", CHARACTERS.as_slice()),
        (
            b"\"\\a\\b\\f\\n\\r\\t\\v\\?\\\"\\\\\\1234\\x0g\"",
            ESCAPED.as_slice(),
        ),
        (b" \"a\"\t/* \" */ \"b\"//c\n\"\" \"c\"", JOINED.as_slice()),
        (b"size_tx size_t ptrdiff_t auto _Bool", WORDS.as_slice()),
        (
            b"  #  include <stdio.h> \n#include<stddef.h>\r\n#include <stdlib.h>",
            NONE.as_slice(),
        ),
        (b"/**/ a //b\nc", NAMES.as_slice()),
    ];
    for (text, wants) in table {
        assert!(rt; lexes(rt.alloc(), text, wants));
    }
}

fn fault(alloc: Global, text: &[u8]) -> Option<CLex> {
    match lex(alloc, text) {
        Ok(_) => None,
        Err(fault) => Some(fault),
    }
}

fn char_at(at: usize) -> CLex {
    CLex::Char { at }
}

fn unclosed(at: usize) -> CLex {
    CLex::Unclosed { at }
}

fn directive(at: usize) -> CLex {
    CLex::Directive { at }
}

fn too_big(at: usize) -> CLex {
    CLex::TooBig { at }
}

#[test]
fn texts_with_their_first_faults(rt: HostRuntime) {
    let table = [
        (b"18446744073709551616".as_slice(), too_big(0)),
        (b"9223372036854775808", too_big(0)),
        (b"#define X", directive(0)),
        (b"#include <stdio.h> //", directive(0)),
        (b"#include < stdio.h>", directive(0)),
        (b"\n #", directive(2)),
        (b"/*\n*/ #include <stdio.h>", char_at(6)),
        (b"x #include <stdio.h>", char_at(2)),
        (b"/*", unclosed(0)),
        (b"a /*/", unclosed(2)),
        (b"int @", char_at(4)),
        (b"08", char_at(0)),
        (b"0x", char_at(0)),
        (b"1lul", char_at(0)),
        (b"1Ll", char_at(0)),
        (b"1e5", char_at(0)),
        (b"\"a\nb\"", unclosed(0)),
        (b"\"ab\\", unclosed(0)),
        (b"\"\\x", unclosed(0)),
        (b"\"\\x\"", char_at(1)),
        (b"\"\\x100\"", char_at(1)),
        (b"'\\400'", char_at(1)),
        (b"'a\n'", unclosed(0)),
        (b"''", char_at(0)),
        (b"'ab'", char_at(0)),
        (b"'a\\q'", char_at(2)),
    ];
    for (text, first) in table {
        assert_eq!(rt; fault(rt.alloc(), text), Some(first));
    }
}
