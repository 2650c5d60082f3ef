//! What a word may be at a place.

ghost use Rattle.std.specs.Prelude.{◌≡◌};
ghost use Rattle.c_productions.specs.refinement.Classes.{access_at, infix_at, integer_at, is, is_case, is_default, is_else, is_enum, is_keyword, is_mark, is_sizeof, is_specifier, is_struct, begins_specifier, prefix_at, step_at};

use crate::kind::Terminal;
use c_token::{Keyword, Mark, Word};
use c_tree::{Access, AssignOp, BinaryOp, Infix, IntegerWord, StepOp, UnaryOp};

/// The operator that stands between two operands.
pub fn infix_at(mark: Mark) -> Option<Infix>
    ensures { result ≡ infix_at mark }
{
    match mark {
        Mark::Comma => Some(Infix::Comma),
        Mark::Equals => Some(Infix::Assign(AssignOp::Plain)),
        Mark::StarEqual => Some(Infix::Assign(AssignOp::Mul)),
        Mark::SlashEqual => Some(Infix::Assign(AssignOp::Div)),
        Mark::PercentEqual => Some(Infix::Assign(AssignOp::Rem)),
        Mark::PlusEqual => Some(Infix::Assign(AssignOp::Add)),
        Mark::MinusEqual => Some(Infix::Assign(AssignOp::Sub)),
        Mark::LessLessEqual => Some(Infix::Assign(AssignOp::ShiftLeft)),
        Mark::GreaterGreaterEqual => Some(Infix::Assign(AssignOp::ShiftRight)),
        Mark::AmpersandEqual => Some(Infix::Assign(AssignOp::BitAnd)),
        Mark::CaretEqual => Some(Infix::Assign(AssignOp::BitXor)),
        Mark::BarEqual => Some(Infix::Assign(AssignOp::BitOr)),
        Mark::OrOr => Some(Infix::Binary(BinaryOp::Or)),
        Mark::AndAnd => Some(Infix::Binary(BinaryOp::And)),
        Mark::Bar => Some(Infix::Binary(BinaryOp::BitOr)),
        Mark::Caret => Some(Infix::Binary(BinaryOp::BitXor)),
        Mark::Ampersand => Some(Infix::Binary(BinaryOp::BitAnd)),
        Mark::EqualEqual => Some(Infix::Binary(BinaryOp::Equal)),
        Mark::NotEqual => Some(Infix::Binary(BinaryOp::NotEqual)),
        Mark::Less => Some(Infix::Binary(BinaryOp::Less)),
        Mark::Greater => Some(Infix::Binary(BinaryOp::Greater)),
        Mark::LessEqual => Some(Infix::Binary(BinaryOp::AtMost)),
        Mark::GreaterEqual => Some(Infix::Binary(BinaryOp::AtLeast)),
        Mark::LessLess => Some(Infix::Binary(BinaryOp::ShiftLeft)),
        Mark::GreaterGreater => Some(Infix::Binary(BinaryOp::ShiftRight)),
        Mark::Plus => Some(Infix::Binary(BinaryOp::Add)),
        Mark::Minus => Some(Infix::Binary(BinaryOp::Sub)),
        Mark::Star => Some(Infix::Binary(BinaryOp::Mul)),
        Mark::Slash => Some(Infix::Binary(BinaryOp::Div)),
        Mark::Percent => Some(Infix::Binary(BinaryOp::Rem)),
        _ => None,
    }
}

/// The operator that stands before its operand.
pub fn prefix_at(mark: Mark) -> Option<UnaryOp>
    ensures { result ≡ prefix_at mark }
{
    match mark {
        Mark::Ampersand => Some(UnaryOp::AddressOf),
        Mark::Star => Some(UnaryOp::Deref),
        Mark::Plus => Some(UnaryOp::Plus),
        Mark::Minus => Some(UnaryOp::Minus),
        Mark::Tilde => Some(UnaryOp::Complement),
        Mark::Bang => Some(UnaryOp::Not),
        Mark::PlusPlus => Some(UnaryOp::Increment),
        Mark::MinusMinus => Some(UnaryOp::Decrement),
        _ => None,
    }
}

/// The operator that stands behind its operand.
pub fn step_at(mark: Mark) -> Option<StepOp>
    ensures { result ≡ step_at mark }
{
    match mark {
        Mark::PlusPlus => Some(StepOp::Increment),
        Mark::MinusMinus => Some(StepOp::Decrement),
        _ => None,
    }
}

/// How a member is named.
pub fn access_at(mark: Mark) -> Option<Access>
    ensures { result ≡ access_at mark }
{
    match mark {
        Mark::Dot => Some(Access::Dot),
        Mark::Arrow => Some(Access::Arrow),
        _ => None,
    }
}

/// The word of an integer type.
pub fn integer_at(keyword: Keyword) -> Option<IntegerWord>
    ensures { result ≡ integer_at keyword }
{
    match keyword {
        Keyword::Char => Some(IntegerWord::Char),
        Keyword::Short => Some(IntegerWord::Short),
        Keyword::Int => Some(IntegerWord::Int),
        Keyword::Long => Some(IntegerWord::Long),
        Keyword::Signed => Some(IntegerWord::Signed),
        Keyword::Unsigned => Some(IntegerWord::Unsigned),
        _ => None,
    }
}

/// Whether it is `struct`.
pub fn is_struct(keyword: Keyword) -> bool
    ensures { result ≡ is_struct keyword }
{
    matches!(keyword, Keyword::Struct)
}

/// Whether it is `enum`.
pub fn is_enum(keyword: Keyword) -> bool
    ensures { result ≡ is_enum keyword }
{
    matches!(keyword, Keyword::Enum)
}

/// Whether it is `sizeof`.
pub fn is_sizeof(keyword: Keyword) -> bool
    ensures { result ≡ is_sizeof keyword }
{
    matches!(keyword, Keyword::Sizeof)
}

/// Whether the keyword begins a specifier.
fn begins_specifier(keyword: Keyword) -> bool
    ensures { result ≡ begins_specifier keyword }
{
    match keyword {
        Keyword::Void => true,
        Keyword::SizeT => true,
        Keyword::PtrdiffT => true,
        Keyword::Char => true,
        Keyword::Short => true,
        Keyword::Int => true,
        Keyword::Long => true,
        Keyword::Signed => true,
        Keyword::Unsigned => true,
        Keyword::Struct => true,
        Keyword::Enum => true,
        _ => false,
    }
}

/// Whether the word begins a specifier.
pub fn is_specifier(word: &Word) -> bool
    ensures { result ≡ is_specifier word.now }
{
    match word {
        Word::Keyword(keyword) => begins_specifier(*keyword),
        _ => false,
    }
}

/// Whether it is `else`.
pub fn is_else(word: &Word) -> bool
    ensures { result ≡ is_else word.now }
{
    matches!(word, Word::Keyword(Keyword::Else))
}

/// Whether it is `case`.
pub fn is_case(word: &Word) -> bool
    ensures { result ≡ is_case word.now }
{
    matches!(word, Word::Keyword(Keyword::Case))
}

/// Whether it is `default`.
pub fn is_default(word: &Word) -> bool
    ensures { result ≡ is_default word.now }
{
    matches!(word, Word::Keyword(Keyword::Default))
}

impl Terminal {
    /// Whether the mark is this one.
    pub fn is_mark(self, mark: Mark) -> bool
        ensures { result ≡ is_mark self mark }
    {
        match self {
            Terminal::OpenParen => matches!(mark, Mark::OpenParen),
            Terminal::CloseParen => matches!(mark, Mark::CloseParen),
            Terminal::OpenBracket => matches!(mark, Mark::OpenBracket),
            Terminal::CloseBracket => matches!(mark, Mark::CloseBracket),
            Terminal::OpenBrace => matches!(mark, Mark::OpenBrace),
            Terminal::CloseBrace => matches!(mark, Mark::CloseBrace),
            Terminal::Semicolon => matches!(mark, Mark::Semicolon),
            Terminal::Comma => matches!(mark, Mark::Comma),
            Terminal::Colon => matches!(mark, Mark::Colon),
            Terminal::Equals => matches!(mark, Mark::Equals),
            Terminal::Question => matches!(mark, Mark::Question),
            Terminal::Star => matches!(mark, Mark::Star),
            Terminal::While => false,
        }
    }

    /// Whether the keyword is this one.
    fn is_keyword(self, keyword: Keyword) -> bool
        ensures { result ≡ is_keyword self keyword }
    {
        match self {
            Terminal::While => matches!(keyword, Keyword::While),
            _ => false,
        }
    }

    /// Whether the word is this one.
    pub fn is(self, word: &Word) -> bool
        ensures { result ≡ is self word.now }
    {
        match word {
            Word::Mark(mark) => self.is_mark(*mark),
            Word::Keyword(keyword) => self.is_keyword(*keyword),
            _ => false,
        }
    }
}
