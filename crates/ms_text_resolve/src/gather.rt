//! One loop over the fields of a module, for all parts that are gathered field by field.

ghost use Rattle.std.specs.Prelude.{◌≡◌, ◌++◌, ◌∷◌, [], List, OnOk};
ghost use Rattle.ms_text_grammar.specs.declared.surface.Field.{Field};
ghost use Rattle.ms_text_grammar.specs.Identifiers.{With};
ghost use Rattle.ms_text_names.specs.refinement.Settings.{Setting};
ghost use Rattle.ms_text_resolve.specs.refinement.Gathered.{Each};

use ms_text_grammar::Field;
use ms_text_names::Context;
use std::alloc::{AllocError, Global};

/// A part of a module as far as it is gathered.
pub trait Part {
    /// What it is made of.
    type Item;

    /// What the part is in the end where these fields follow, and the places of wrong identifiers in them.
    ghost all: { Setting → Self → List Field → With (List Self.Item) };

    /// What a field has to be.
    ghost fits: { Field → Type 0 } = { λ _. Unit {0} };

    /// Adds what a field has of the part.
    fn add(
        &mut self,
        alloc: Global,
        context: &Context,
        field: &Field,
        wrong: &mut Vec<usize>,
    ) -> Result<(), AllocError>
        requires { fits field.now }
        ensures value { OnOk result ((rest : List Field) → (all context.now self.new rest).value ≡ (all context.now self.old (field.now ∷ rest)).value) }
        ensures wrong { OnOk result ((rest : List Field) → wrong.new.items ++ (all context.now self.new rest).wrong ≡ wrong.old.items ++ (all context.now self.old (field.now ∷ rest)).wrong) };
}

/// Gathers a part, one field after the other.
pub fn gathered<P: Part>(
    alloc: Global,
    context: &Context,
    part: &mut P,
    fields: &[Field],
    wrong: &mut Vec<usize>,
) -> Result<(), AllocError>
    requires { Each P.fits fields.now }
    ensures value { OnOk result ((P.all context.now part.new []).value ≡ (P.all context.now part.old fields.now).value) }
    ensures wrong { OnOk result (wrong.new.items ++ (P.all context.now part.new []).wrong ≡ wrong.old.items ++ (P.all context.now part.old fields.now).wrong) }
{
    for field in fields {
        part.add(alloc, context, field, wrong)?;
    }
    Ok(())
}
