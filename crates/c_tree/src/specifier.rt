//! Specifiers of types (C11, 6.7.2).

ghost use Rattle.std.specs.Prelude.{◌≡◌, IfOk};
ghost use Rattle.c_tree.specs.Operators.{combination, extended, extended_to, nothing_said, with_word};

use c_token::Bytes;
use std::alloc::{AllocError, Global};
use std::marker::Model;

/// A word of an integer type (C11, 6.7.2).
#[derive(Clone, Copy)]
pub enum IntegerWord {
    Char,
    Short,
    Int,
    Long,
    Signed,
    Unsigned,
}

/// The words of an integer type as they were written: no combination has more than four.
#[derive(Clone, Copy)]
pub enum IntegerWords {
    One(IntegerWord),
    Two(IntegerWord, IntegerWord),
    Three(IntegerWord, IntegerWord, IntegerWord),
    Four(IntegerWord, IntegerWord, IntegerWord, IntegerWord),
}

/// What integer words say of the sign.
#[derive(Clone, Copy)]
pub enum Sign {
    Unsaid,
    Signed,
    Unsigned,
}

/// What integer words say of the width.
#[derive(Clone, Copy)]
pub enum Width {
    Unsaid,
    Char,
    Short,
    Long,
    LongLong,
}

/// What integer words say together, in whatever order (C11, 6.7.2, paragraph 2).
#[derive(Clone, Copy)]
pub struct Combination {
    pub sign: Sign,
    pub width: Width,
    /// Whether `int` is among them.
    pub int: bool,
}

impl Combination {
    /// What no words say.
    pub fn new() -> Self
        ensures { result ≡ nothing_said }
    {
        Combination {
            sign: Sign::Unsaid,
            width: Width::Unsaid,
            int: false,
        }
    }

    /// With one more word, if that is a combination, too.
    pub fn with(self, word: IntegerWord) -> Option<Self>
        ensures { result ≡ with_word self word }
    {
        let Combination { sign, width, int } = self;
        match word {
            IntegerWord::Signed => match sign {
                Sign::Unsaid => Some(Combination {
                    sign: Sign::Signed,
                    width,
                    int,
                }),
                Sign::Signed | Sign::Unsigned => None,
            },
            IntegerWord::Unsigned => match sign {
                Sign::Unsaid => Some(Combination {
                    sign: Sign::Unsigned,
                    width,
                    int,
                }),
                Sign::Signed | Sign::Unsigned => None,
            },
            IntegerWord::Char => match width {
                Width::Unsaid => {
                    if int {
                        return None;
                    }
                    Some(Combination {
                        sign,
                        width: Width::Char,
                        int,
                    })
                }
                Width::Char | Width::Short | Width::Long | Width::LongLong => None,
            },
            IntegerWord::Short => match width {
                Width::Unsaid => Some(Combination {
                    sign,
                    width: Width::Short,
                    int,
                }),
                Width::Char | Width::Short | Width::Long | Width::LongLong => None,
            },
            IntegerWord::Long => match width {
                Width::Unsaid => Some(Combination {
                    sign,
                    width: Width::Long,
                    int,
                }),
                Width::Long => Some(Combination {
                    sign,
                    width: Width::LongLong,
                    int,
                }),
                Width::Char | Width::Short | Width::LongLong => None,
            },
            IntegerWord::Int => match width {
                Width::Char => None,
                Width::Unsaid | Width::Short | Width::Long | Width::LongLong => {
                    if int {
                        return None;
                    }
                    Some(Combination {
                        sign,
                        width,
                        int: true,
                    })
                }
            },
        }
    }
}

impl IntegerWords {
    /// What they say together, if they are a combination.
    pub fn combination(self) -> Option<Combination>
        ensures { result ≡ combination self }
    {
        match self {
            IntegerWords::One(a) => Combination::new().with(a),
            IntegerWords::Two(a, b) => Combination::new().with(a)?.with(b),
            IntegerWords::Three(a, b, c) => Combination::new().with(a)?.with(b)?.with(c),
            IntegerWords::Four(a, b, c, d) => Combination::new().with(a)?.with(b)?.with(c)?.with(d),
        }
    }

    /// These if they are a combination.
    fn checked(self) -> Option<Self>
        ensures { result ≡ extended_to self }
    {
        match self.combination() {
            Some(_) => Some(self),
            None => None,
        }
    }

    /// With one more word, if that is a combination, too.
    pub fn with(self, word: IntegerWord) -> Option<Self>
        ensures { result ≡ extended self word }
    {
        match self {
            IntegerWords::One(a) => IntegerWords::Two(a, word).checked(),
            IntegerWords::Two(a, b) => IntegerWords::Three(a, b, word).checked(),
            IntegerWords::Three(a, b, c) => IntegerWords::Four(a, b, c, word).checked(),
            IntegerWords::Four(_, _, _, _) => None,
        }
    }
}

/// The specifier of a declaration, without braces (C11, 6.7.2). Contracts see it without the place in memory.
#[derive(Drop)]
pub struct Specifier {
    node: Box<SpecifierNode>,
}

/// The forms of specifiers.
#[derive(Drop)]
pub enum SpecifierNode {
    Void,
    Integer(IntegerWords),
    SizeT,
    PtrdiffT,
    /// A structure by its tag.
    Struct(Bytes),
    /// An enumeration by its tag (C11, 6.7.2.2).
    Enum(Bytes),
}

impl Model for Specifier {
    ghost use Rattle.c_tree.specs.declared.specifier.SpecifierNode.{SpecifierNode};

    ghost Value = { SpecifierNode };

    ghost view = { λ s. s.node.value };
}

impl Specifier {
    /// The specifier of this form.
    pub fn new(alloc: Global, node: SpecifierNode) -> Result<Self, AllocError>
        ensures { IfOk result (λ s. s ≡ node) }
    {
        let node = Box::new(alloc, node)?;
        Ok(Specifier { node })
    }

    /// Its form.
    pub fn node(&self) -> &SpecifierNode
        ensures { result.now ≡ self.now }
    {
        &*self.node
    }

    /// Its form, by value.
    pub fn into_node(self) -> SpecifierNode
        ensures { result ≡ self }
    {
        Box::into_inner(self.node)
    }
}
