//! Modules as they are written: fields in their order, with identifiers (WebAssembly 1.0, chapter 6).
//!
//! Abbreviations are kept as far as the order of fields matters; what identifiers and type uses stand for is said in
//! `specs/Elaborating.antt`.

use ms_module::{Instr, Opening};
use ms_text_lex::Token;
use ms_types::{GlobalType, Limits, ValType, Vector};

/// A number, or an identifier that stands for one (6.3.5, 6.6.1).
#[derive(Clone, Copy)]
pub enum Index {
    Number(u32),
    Name(Token),
}

/// A parameter or a local, with its identifier if it has one (6.4.3, 6.6.5).
#[derive(Clone, Copy)]
pub struct Param {
    pub id: Option<Token>,
    pub ty: ValType,
}

/// A type use: the type that it names, and the parameters and results that it writes (6.6.3).
#[derive(Drop)]
pub struct TypeUse {
    pub sig: Option<Index>,
    pub params: Vector<Param>,
    pub results: Vector<ValType>,
}

/// An instruction that is no block (6.5.2 to 6.5.6).
#[derive(Drop)]
pub enum Plain {
    /// One as it stands in the module; where an identifier stands for its index, that is 0.
    Instr { instr: Instr, id: Option<Token> },
    /// The labels of a `br_table`, the default one last: there is one at least.
    BrTable(Vector<Index>),
    /// A `call_indirect`, by the number of its type use among those of the body.
    CallIndirect(u32),
}

/// A step of a body: instructions in their flat order (6.5.2, 6.5.7).
#[derive(Drop)]
pub enum Op {
    Plain(Plain),
    Begin {
        opening: Opening,
        label: Option<Token>,
        ty: Option<ValType>,
    },
    Else,
    End,
}

/// Instructions in their flat order, and the type uses of its `call_indirect`s in the order of the text, by number. These have
/// no identifiers of parameters.
#[derive(Drop)]
pub struct Body {
    pub uses: Vector<TypeUse>,
    pub ops: Vector<Op>,
}

/// A type field (6.6.2).
#[derive(Drop)]
pub struct TypeField {
    pub id: Option<Token>,
    pub params: Vector<Param>,
    pub results: Vector<ValType>,
}

/// The two names of an import (6.6.4), as string tokens.
#[derive(Clone, Copy)]
pub struct ImportNames {
    pub module: Token,
    pub name: Token,
}

/// The kinds of what is imported, defined and exported.
#[derive(Clone, Copy, PartialEq, Eq)]
pub enum ExternKind {
    Func,
    Table,
    Memory,
    Global,
}

/// What an entry is (6.6.5 to 6.6.8). An imported one has no locals and no instructions.
#[derive(Drop)]
pub enum Item {
    Func {
        sig: TypeUse,
        locals: Vector<Param>,
        body: Body,
    },
    Table(Limits),
    /// A table that begins with these functions.
    Elements(Vector<Index>),
    Memory(Limits),
    /// A memory that begins with the bytes of these strings.
    Data(Vector<Token>),
    Global {
        ty: GlobalType,
        init: Body,
    },
}

/// A function, a table, a memory or a global, imported or defined. An import field is one, and so is a field with an
/// inline import (6.6.4 to 6.6.8).
#[derive(Drop)]
pub struct Entry {
    pub id: Option<Token>,
    /// The names of its inline exports, in their order.
    pub exports: Vector<Token>,
    pub import: Option<ImportNames>,
    pub item: Item,
}

/// A field of a module (6.6).
#[derive(Drop)]
pub enum Field {
    Type(TypeField),
    Entry(Entry),
    /// An export by its name, a string token (6.6.9).
    Export {
        name: Token,
        kind: ExternKind,
        index: Index,
    },
    Start(Index),
    /// The table, the offset and the functions (6.6.11).
    Element {
        table: Index,
        offset: Body,
        funcs: Vector<Index>,
    },
    /// The memory, the offset and the bytes, as string tokens (6.6.12).
    Data {
        memory: Index,
        offset: Body,
        strings: Vector<Token>,
    },
}
