//! A text with its tokens, and a string with its bytes, worked out by hand.

use ms_text_lex::{Kind, Token, append_value, lex, string_value};
use std::test::Fail;

const TOKENS: [Token; 6] = [
    Token {
        kind: Kind::Open,
        at: 0,
        end: 1,
    },
    Token {
        kind: Kind::Keyword,
        at: 1,
        end: 5,
    },
    Token {
        kind: Kind::Id,
        at: 6,
        end: 8,
    },
    Token {
        kind: Kind::Text,
        at: 8,
        end: 11,
    },
    Token {
        kind: Kind::Number,
        at: 26,
        end: 30,
    },
    Token {
        kind: Kind::Close,
        at: 30,
        end: 31,
    },
];

#[test]
fn a_text_is_its_tokens(rt: HostRuntime) -> Result<(), Fail> {
    let tokens = lex(rt.alloc(), b"(func $a\"b\" (; (; \xC3\xA9 ;) ;)0x1F) ;; c")?;
    assert!(rt; tokens.as_slice() == TOKENS.as_slice());
    Ok(())
}

#[test]
fn a_string_is_its_bytes(rt: HostRuntime) -> Result<(), Fail> {
    let source = b"x \"a\\0a\\t\\u{20_AC}\"";
    let kind = Kind::Text;
    let token = Token {
        kind,
        at: 2,
        end: 19,
    };
    let mut bytes = string_value(rt.alloc(), source, token)?;
    append_value(rt.alloc(), &mut bytes, source, token)?;
    assert!(rt; bytes.as_slice() == b"a\n\t\xE2\x82\xACa\n\t\xE2\x82\xAC".as_slice());
    Ok(())
}
