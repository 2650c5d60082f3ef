//! External declarations, structures and enumerations (C11, 6.7.2.1, 6.7.2.2, 6.9).

ghost use Rattle.std.specs.Prelude.{◌≡◌, ◌+◌, [], ◌∷◌, ◌++◌, IfOk};
ghost use Rattle.c_tree.specs.ExternalHeights.{external_height, form_height, head_height, outer_height, piece_height};
ghost use Rattle.c_tree.specs.Heights.{declarator_height, tallest_of};

use crate::enumerator::Enumerators;
use crate::initialiser::Inits;
use crate::specifier::Specifier;
use crate::statement::Block;
use crate::tree::{Declarator, above};
use c_token::Bytes;
use std::alloc::{AllocError, Global};
use std::marker::Model;

/// The declarators of a member, in order (C11, 6.7.2.1). Contracts see a list.
#[derive(Drop)]
pub struct Declarators {
    items: Vec<Declarator>,
    height: usize,
}

impl Model for Declarators {
    ghost use Rattle.std.specs.Prelude.{List};
    ghost use Rattle.std.specs.Coded.{coded_list};
    ghost use Rattle.c_tree.specs.Tree.{Declarator as Meaning};
    ghost use Rattle.c_tree.specs.refinement.Codes.{coded_declarator};

    ghost Value = { List Meaning };

    ghost coded = { coded_list coded_declarator };

    ghost view = { λ a. a.items.items };

    ghost use Rattle.std.specs.Prelude.{◌≡◌};
    ghost use Rattle.c_tree.specs.Heights.{declarator_height, tallest_of};

    ghost invariant = { λ a. a.height ≡ tallest_of declarator_height a.items.items };
}

/// What the declarators of a member stand behind.
#[derive(Drop)]
pub enum MemberHead {
    Specifier(Specifier),
    /// `enum`, the tag if there is one, enumerators in braces, and whether a comma stands before the closing one.
    Enum(Option<Bytes>, Enumerators, bool),
    /// The closing brace of a structure that is defined there.
    Close,
}

/// A part of a structure's members. A member whose specifier defines a structure is its opening, the members of that
/// structure, and its closing with the declarators.
#[derive(Drop)]
pub enum Piece {
    /// `struct`, the tag and an opening brace.
    Opens(Bytes),
    /// Declarators and a semicolon.
    Member(MemberHead, Declarators),
}

/// The members of a structure, however deep structures are defined in one another (C11, 6.7.2.1). Contracts see a list.
#[derive(Drop)]
pub struct Members {
    items: Vec<Piece>,
    height: usize,
}

impl Model for Members {
    ghost use Rattle.std.specs.Prelude.{List};
    ghost use Rattle.c_tree.specs.declared.external.Piece.{Piece};
    ghost use Rattle.c_tree.specs.refinement.PieceCodes.{coded_pieces};

    ghost Value = { List Piece };

    ghost coded = { coded_pieces };

    ghost view = { λ a. a.items.items };

    ghost use Rattle.std.specs.Prelude.{◌≡◌};
    ghost use Rattle.c_tree.specs.Heights.{tallest_of};
    ghost use Rattle.c_tree.specs.ExternalHeights.{piece_height};

    ghost invariant = { λ a. a.height ≡ tallest_of piece_height a.items.items };
}

/// The specifier of an external declaration, which may define a structure or an enumeration (C11, 6.7.2.1, 6.7.2.2).
#[derive(Drop)]
pub enum OuterSpecifier {
    Plain(Specifier),
    /// `struct`, the tag and members in braces.
    Struct(Bytes, Members),
    /// `enum`, the tag if there is one, enumerators in braces, and whether a comma stands before the closing one.
    Enum(Option<Bytes>, Enumerators, bool),
}

/// What stands behind the specifier of an external declaration (C11, 6.7 and 6.9).
#[derive(Drop)]
pub enum ExternalForm {
    /// A semicolon.
    Alone,
    /// Declarators and a semicolon.
    Declaration(Inits),
    /// The definition of a function.
    Function(Declarator, Block),
}

/// An external declaration (C11, 6.9), and the place where it begins.
#[derive(Drop)]
pub struct External {
    pub at: usize,
    pub specifier: OuterSpecifier,
    pub form: ExternalForm,
}

/// A translation unit: external declarations, in order (C11, 6.9). Contracts see a list.
#[derive(Drop)]
pub struct Unit {
    externals: Vec<External>,
    height: usize,
}

impl Model for Unit {
    ghost use Rattle.std.specs.Prelude.{List};
    ghost use Rattle.c_tree.specs.declared.external.External.{External};
    ghost use Rattle.c_tree.specs.refinement.UnitCodes.{coded_unit};

    ghost Value = { List External };

    ghost coded = { coded_unit };

    ghost view = { λ u. u.externals.items };

    ghost use Rattle.std.specs.Prelude.{◌≡◌};
    ghost use Rattle.c_tree.specs.Heights.{tallest_of};
    ghost use Rattle.c_tree.specs.ExternalHeights.{external_height};

    ghost invariant = { λ u. u.height ≡ tallest_of external_height u.externals.items };
}

impl Declarators {
    /// No declarators. Takes no memory.
    pub fn new(alloc: Global) -> Self
        ensures { result ≡ [] }
    {
        Declarators {
            items: Vec::new(alloc),
            height: 0,
        }
    }

    /// The declarators, in order.
    pub fn items(&self) -> &[Declarator]
        ensures { result.now ≡ self.now }
    {
        self.items.as_slice()
    }

    /// The height of the tallest.
    pub fn height(&self) -> usize
        ensures { result ≡ tallest_of declarator_height self.now }
    {
        self.height
    }

    /// With one more at the end.
    #[tactic(auto, using(crate::proofs::Lists::tallest_of_last))]
    pub fn with(self, declarator: Declarator) -> Result<Self, AllocError>
        ensures { IfOk result (λ ds. ds ≡ self ++ declarator ∷ []) }
    {
        let height = self.height.max(declarator.height());
        let mut items = self.items;
        items.push(declarator)?;
        Ok(Declarators { items, height })
    }
}

impl MemberHead {
    /// Its height: that of the enumerators.
    pub fn height(&self) -> usize
        ensures { result ≡ head_height self.now }
    {
        match self {
            MemberHead::Specifier(_) => 0,
            MemberHead::Enum(_, enumerators, _) => enumerators.height(),
            MemberHead::Close => 0,
        }
    }
}

impl Piece {
    /// Its height.
    pub fn height(&self) -> usize
        ensures { result ≡ piece_height self.now }
    {
        match self {
            Piece::Opens(_) => 0,
            Piece::Member(head, declarators) => head.height().max(declarators.height()),
        }
    }
}

impl Members {
    /// No members. Takes no memory.
    pub fn new(alloc: Global) -> Self
        ensures { result ≡ [] }
    {
        Members {
            items: Vec::new(alloc),
            height: 0,
        }
    }

    /// The parts, in order.
    pub fn items(&self) -> &[Piece]
        ensures { result.now ≡ self.now }
    {
        self.items.as_slice()
    }

    /// The height of the tallest.
    pub fn height(&self) -> usize
        ensures { result ≡ tallest_of piece_height self.now }
    {
        self.height
    }

    /// With one more part at the end.
    #[tactic(auto, using(crate::proofs::Lists::tallest_of_last))]
    pub fn with(self, piece: Piece) -> Result<Self, AllocError>
        ensures { IfOk result (λ ps. ps ≡ self ++ piece ∷ []) }
    {
        let height = self.height.max(piece.height());
        let mut items = self.items;
        items.push(piece)?;
        Ok(Members { items, height })
    }
}

impl OuterSpecifier {
    /// Its height: that of the members or the enumerators.
    pub fn height(&self) -> usize
        ensures { result ≡ outer_height self.now }
    {
        match self {
            OuterSpecifier::Plain(_) => 0,
            OuterSpecifier::Struct(_, members) => members.height(),
            OuterSpecifier::Enum(_, enumerators, _) => enumerators.height(),
        }
    }
}

impl ExternalForm {
    /// Its height.
    pub fn height(&self) -> Result<usize, AllocError>
        ensures { IfOk result (λ n. n ≡ form_height self.now) }
    {
        match self {
            ExternalForm::Alone => Ok(0),
            ExternalForm::Declaration(inits) => Ok(inits.height()),
            ExternalForm::Function(declarator, body) => Ok(
                declarator.height().max(above(body.height())?),
            ),
        }
    }
}

impl Unit {
    /// No external declarations. Takes no memory.
    pub fn new(alloc: Global) -> Self
        ensures { result ≡ [] }
    {
        Unit {
            externals: Vec::new(alloc),
            height: 0,
        }
    }

    /// The external declarations, in order.
    pub fn externals(&self) -> &[External]
        ensures { result.now ≡ self.now }
    {
        self.externals.as_slice()
    }

    /// Its height: the greatest number of nodes in one another.
    pub fn height(&self) -> usize
        ensures { result ≡ tallest_of external_height self.now }
    {
        self.height
    }

    /// With one more at the end.
    #[tactic(auto, using(crate::proofs::Lists::tallest_of_last))]
    pub fn with(self, external: External) -> Result<Self, AllocError>
        ensures { IfOk result (λ u. u ≡ self ++ external ∷ []) }
    {
        let height = self
            .height
            .max(external.specifier.height())
            .max(external.form.height()?);
        let mut externals = self.externals;
        externals.push(external)?;
        Ok(Unit { externals, height })
    }
}
