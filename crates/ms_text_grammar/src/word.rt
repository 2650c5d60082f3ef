//! The keywords that belong to no instruction.

ghost use Rattle.std.specs.Prelude.{◌≡◌};
ghost use Rattle.ms_text_grammar.specs.Keywords.{spelling};

/// The keywords that belong to no instruction and are no value type (WebAssembly 1.0, chapter 6), and the two kinds of
/// segments.
#[derive(Clone, Copy, PartialEq, Eq)]
pub enum Word {
    Module,
    Type,
    Func,
    Param,
    Result,
    Local,
    Import,
    Export,
    Start,
    Table,
    Memory,
    Global,
    Elem,
    Data,
    Offset,
    Mut,
    Funcref,
    Then,
    Heap,
    Frame,
}

impl Word {
    /// How it is written.
    pub fn spelling(self) -> &'static [u8]
        ensures { result.now ≡ spelling self }
    {
        match self {
            Word::Module => b"module",
            Word::Type => b"type",
            Word::Func => b"func",
            Word::Param => b"param",
            Word::Result => b"result",
            Word::Local => b"local",
            Word::Import => b"import",
            Word::Export => b"export",
            Word::Start => b"start",
            Word::Table => b"table",
            Word::Memory => b"memory",
            Word::Global => b"global",
            Word::Elem => b"elem",
            Word::Data => b"data",
            Word::Offset => b"offset",
            Word::Mut => b"mut",
            Word::Funcref => b"funcref",
            Word::Then => b"then",
            Word::Heap => b"heap",
            Word::Frame => b"frame",
        }
    }
}
