//! What identifiers and type uses of a module stand for (WebAssembly 1.0, 6.1.3 and 6.6.3).

ghost use Rattle.std.specs.Prelude.{◌≡◌, ◌++◌, IfOk, OnOk, slice_get};
ghost use Rattle.ms_text_grammar.specs.Identifiers.{each, identified, resolved};
ghost use Rattle.ms_text_grammar.specs.TypeUses.{ids_of, params_len, scope_of, use_index};
ghost use Rattle.ms_text_grammar.specs.Elaborating.{repeated};
ghost use Rattle.ms_text_names.specs.refinement.Answers.{Adds};

use crate::gather::{add_all, fill_all};
use crate::names::{all_resolved, identified, resolved};
use crate::sigs::Sigs;
use crate::space::Space;
use ms_text_grammar::{ExternKind, Field, Index, TypeUse};
use ms_text_lex::Token;
use ms_types::{FuncType, Vector};
use std::alloc::{AllocError, Global};
use std::marker::Model;

/// The index spaces of a module's types, functions, tables, memories and globals, and its types with those that uses add.
/// Contracts see the source, too.
#[derive(Drop)]
pub struct Context<'a> {
    source: &'a [u8],
    types: Space<'a>,
    funcs: Space<'a>,
    tables: Space<'a>,
    memories: Space<'a>,
    globals: Space<'a>,
    sigs: Sigs,
}

impl<'a> Model for Context<'a> {
    ghost use Rattle.std.specs.Prelude.{◌≡◌};
    ghost use Rattle.ms_text_names.specs.refinement.Settings.{Setting};

    ghost Value = { Setting };

    ghost view = { λ c. record {
      source = c.source.now;
      scope = record {
        types = c.types.ids;
        funcs = c.funcs.ids;
        tables = c.tables.ids;
        memories = c.memories.ids;
        globals = c.globals.ids;
        sigs = c.sigs;
      };
    } };

    ghost invariant = { λ c. (c.types.source ≡ c.source.now) × (c.funcs.source ≡ c.source.now) × (c.tables.source ≡ c.source.now) × (c.memories.source ≡ c.source.now) × (c.globals.source ≡ c.source.now) };
}

impl<'a> Context<'a> {
    /// What identifiers and type uses of these fields stand for. The places of repeated identifiers are wrong.
    pub fn new(
        alloc: Global,
        source: &'a [u8],
        fields: &[Field],
        wrong: &mut Vec<usize>,
    ) -> Result<Self, AllocError>
        ensures context { IfOk result (λ c. c ≡ record { source = source.now; scope = scope_of fields.now }) }
        ensures wrong { OnOk result (wrong.new.items ≡ wrong.old.items ++ repeated source.now (scope_of fields.now)) }
    {
        let mut sigs = Sigs::new(alloc);
        add_all(alloc, &mut sigs, fields)?;
        let mut types = Space::new(alloc, source);
        let mut funcs = Space::new(alloc, source);
        let mut tables = Space::new(alloc, source);
        let mut memories = Space::new(alloc, source);
        let mut globals = Space::new(alloc, source);
        fill_all(
            &mut types,
            &mut funcs,
            &mut tables,
            &mut memories,
            &mut globals,
            fields,
            wrong,
        )?;
        Ok(Context {
            source,
            types,
            funcs,
            tables,
            memories,
            globals,
            sigs,
        })
    }

    /// The source.
    pub fn source(&self) -> &'a [u8]
        ensures { result.now ≡ self.now.source }
    {
        self.source
    }

    /// The index of an identifier among entries of a kind; where it is unknown, its place is wrong.
    pub fn identified(
        &self,
        kind: ExternKind,
        id: Token,
        wrong: &mut Vec<usize>,
    ) -> Result<u32, AllocError>
        ensures { IfOk result (λ n. Adds wrong.old.items wrong.new.items n (identified self.now.source (ids_of self.now.scope kind) id)) }
    {
        match kind {
            ExternKind::Func => identified(&self.funcs, id, wrong),
            ExternKind::Table => identified(&self.tables, id, wrong),
            ExternKind::Memory => identified(&self.memories, id, wrong),
            ExternKind::Global => identified(&self.globals, id, wrong),
        }
    }

    /// What an index among entries of a kind stands for.
    pub fn resolved(
        &self,
        kind: ExternKind,
        index: Index,
        wrong: &mut Vec<usize>,
    ) -> Result<u32, AllocError>
        ensures { IfOk result (λ n. Adds wrong.old.items wrong.new.items n (resolved self.now.source (ids_of self.now.scope kind) index)) }
    {
        match index {
            Index::Number(n) => Ok(n),
            Index::Name(id) => self.identified(kind, id, wrong),
        }
    }

    /// What indices of functions stand for, one after the other.
    pub fn funcs_resolved(
        &self,
        alloc: Global,
        indices: &[Index],
        wrong: &mut Vec<usize>,
    ) -> Result<Vector<u32>, AllocError>
        ensures { IfOk result (λ ns. Adds wrong.old.items wrong.new.items ns (each (resolved self.now.source self.now.scope.funcs) indices.now)) }
    {
        all_resolved(alloc, &self.funcs, indices, wrong)
    }

    /// The index of the type of a use: the one that it names, else the least one that is what it writes.
    pub fn use_index(
        &self,
        alloc: Global,
        sig: &TypeUse,
        wrong: &mut Vec<usize>,
    ) -> Result<u32, AllocError>
        ensures { IfOk result (λ n. Adds wrong.old.items wrong.new.items n (use_index self.now.source self.now.scope sig.now)) }
    {
        match sig.sig {
            Some(index) => resolved(&self.types, index, wrong),
            None => self.sigs.least_equal(alloc, sig),
        }
    }

    /// How many parameters the type of this index has; none where there is no such type.
    pub fn params_len(&self, index: u32) -> usize
        ensures { result ≡ params_len (slice_get self.now.scope.sigs index) }
    {
        self.sigs.params_len(index)
    }

    /// The types. Takes no memory.
    pub fn into_types(self) -> Vector<FuncType>
        ensures { result ≡ self.entry.scope.sigs }
    {
        let Context {
            source: _,
            types: _,
            funcs: _,
            tables: _,
            memories: _,
            globals: _,
            sigs,
        } = self;
        sigs.into_types()
    }
}
