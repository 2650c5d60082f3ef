//! Why a text has no typed tree.

use c_check::CCheck;
use c_lex::CLex;
use c_parse::CParse;
use std::fmt::{self, Display, Formatter};

/// Why a text has no typed tree: the fault of the first step that has one, or that memory ran out in it.
#[derive(Clone, Copy, Debug, PartialEq, Eq)]
pub enum Refusal {
    /// The bytes are no tokens.
    Lex(CLex),
    /// The tokens are no unit.
    Parse(CParse),
    /// The unit has no typing.
    Check(CCheck),
}

impl Display for Refusal {
    fn fmt<W: fmt::Write>(&self, f: &mut Formatter<W>) -> fmt::Result {
        match self {
            Refusal::Lex(CLex::Char { at }) => write!(f, "c char {at}"),
            Refusal::Lex(CLex::Unclosed { at }) => write!(f, "c unclosed {at}"),
            Refusal::Lex(CLex::Directive { at }) => write!(f, "c directive {at}"),
            Refusal::Lex(CLex::TooBig { at }) => write!(f, "c number {at}"),
            Refusal::Parse(CParse::Syntax { at }) => write!(f, "c syntax {at}"),
            Refusal::Parse(CParse::TooDeep { at }) => write!(f, "c deep {at}"),
            Refusal::Check(CCheck::NoTyping { at }) => write!(f, "c type {at}"),
            Refusal::Lex(CLex::Memory)
            | Refusal::Parse(CParse::Memory)
            | Refusal::Check(CCheck::Memory) => write!(f, "out of memory"),
        }
    }
}
