//! What a token says: keywords, punctuators, identifiers and constants (C11, 6.4).

use crate::bytes::Bytes;

/// A keyword (C11, 6.4.1). `size_t` and `ptrdiff_t` are reserved like keywords.
#[derive(Clone, Copy)]
pub enum Keyword {
    Break,
    Case,
    Char,
    Continue,
    Default,
    Do,
    Else,
    Enum,
    For,
    If,
    Int,
    Long,
    /// `ptrdiff_t`.
    PtrdiffT,
    Return,
    Short,
    Signed,
    /// `size_t`.
    SizeT,
    Sizeof,
    Struct,
    Switch,
    Unsigned,
    Void,
    While,
    /// Any other keyword of C11. It stands nowhere in the grammar.
    Unused,
}

/// A punctuator (C11, 6.4.6).
#[derive(Clone, Copy)]
pub enum Mark {
    /// `(`
    OpenParen,
    /// `)`
    CloseParen,
    /// `[`
    OpenBracket,
    /// `]`
    CloseBracket,
    /// `{`
    OpenBrace,
    /// `}`
    CloseBrace,
    /// `;`
    Semicolon,
    /// `,`
    Comma,
    /// `.`
    Dot,
    /// `->`
    Arrow,
    /// `++`
    PlusPlus,
    /// `--`
    MinusMinus,
    /// `&`
    Ampersand,
    /// `*`
    Star,
    /// `+`
    Plus,
    /// `-`
    Minus,
    /// `~`
    Tilde,
    /// `!`
    Bang,
    /// `/`
    Slash,
    /// `%`
    Percent,
    /// `<<`
    LessLess,
    /// `>>`
    GreaterGreater,
    /// `<`
    Less,
    /// `>`
    Greater,
    /// `<=`
    LessEqual,
    /// `>=`
    GreaterEqual,
    /// `==`
    EqualEqual,
    /// `!=`
    NotEqual,
    /// `^`
    Caret,
    /// `|`
    Bar,
    /// `&&`
    AndAnd,
    /// `||`
    OrOr,
    /// `?`
    Question,
    /// `:`
    Colon,
    /// `=`
    Equals,
    /// `+=`
    PlusEqual,
    /// `-=`
    MinusEqual,
    /// `*=`
    StarEqual,
    /// `/=`
    SlashEqual,
    /// `%=`
    PercentEqual,
    /// `&=`
    AmpersandEqual,
    /// `|=`
    BarEqual,
    /// `^=`
    CaretEqual,
    /// `<<=`
    LessLessEqual,
    /// `>>=`
    GreaterGreaterEqual,
}

/// The type of an integer constant (C11, 6.4.4.1).
#[derive(Clone, Copy)]
pub enum IntegerType {
    Int,
    UnsignedInt,
    Long,
    UnsignedLong,
    LongLong,
    UnsignedLongLong,
}

/// A token without its place (C11, 6.4).
#[derive(Drop)]
pub enum Word {
    /// An identifier (6.4.2), which is no keyword.
    Name(Bytes),
    /// An integer constant (6.4.4.1): its value, and the first type that holds it.
    Integer(u64, IntegerType),
    /// A character constant (6.4.4.4): its byte. It has type int and the value of that byte as a signed char.
    Character(u8),
    /// A string literal (6.4.5), adjacent ones joined: its bytes without the final zero.
    String(Bytes),
    Keyword(Keyword),
    Mark(Mark),
}

/// A token, and the place of its first byte in the source.
#[derive(Drop)]
pub struct Token {
    pub at: usize,
    pub word: Word,
}
