//! Bodies: flat instructions to numbered sequences (WebAssembly 1.0, 6.5).

ghost use Rattle.std.specs.Prelude.{◌≡◌, ◌<◌, ◌++◌, ◌∷◌, [], true, length, IfOk, OnOk};
ghost use Rattle.ms_module.specs.Building.{may_else};
ghost use Rattle.ms_text_grammar.specs.refinement.Balance.{Balanced, IsWhole};
ghost use Rattle.ms_text_grammar.specs.Identifiers.{each};
ghost use Rattle.ms_text_grammar.specs.TypeUses.{use_index};
ghost use Rattle.ms_text_grammar.specs.ResolvedBodies.{built, code_of, instr_of, nothing_built, with_begin, with_else, with_end, with_instr, with_op};
ghost use Rattle.ms_text_resolve.specs.refinement.Steps.{MayCome};
ghost use Rattle.ms_text_names.specs.refinement.Answers.{Adds};

use crate::instrs::{Around, instr_of, is_plain};
use ms_module::{Builder, Code, Opening};
use ms_text_grammar::{Body, Op, Plain, TypeUse};
use ms_text_lex::Token;
use ms_text_names::{Context, LocalIds};
use ms_types::{Stack, ValType};
use std::alloc::{AllocError, Global};
use std::marker::Model;

/// A body that is being built: its sequences, the labels of its open blocks, and the places of wrong identifiers in it.
#[derive(Drop)]
struct Making {
    builder: Builder,
    labels: Stack<Option<Token>>,
    wrong: Vec<usize>,
}

impl Model for Making {
    ghost use Rattle.ms_text_grammar.specs.ResolvedBodies.{Built};

    ghost Value = { Built };

    ghost view = { λ m. record { st = m.builder; labels = m.labels; wrong = m.wrong.items } };
}

impl Making {
    fn new(alloc: Global) -> Result<Self, AllocError>
        ensures { IfOk result (λ m. m ≡ nothing_built) }
    {
        Ok(Making {
            builder: Builder::new(alloc)?,
            labels: Stack::new(alloc),
            wrong: Vec::new(alloc),
        })
    }

    /// An instruction that is no block.
    fn plain(&mut self, alloc: Global, around: Around, plain: &Plain) -> Result<(), AllocError>
        requires { (around.locals.now).source ≡ (around.context.now).source }
        ensures { OnOk result (self.new ≡ with_instr (around.entry.context.now).source (around.entry.context.now).scope (instr_of (around.entry.context.now).source (around.entry.context.now).scope (around.entry.locals.now).ids around.entry.uses.now self.old.labels plain.now) self.old) }
    {
        let instr = instr_of(alloc, around, &self.labels, plain, &mut self.wrong)?;
        // Never fails: an instruction that the grammar gives here is no block, and its alignment is at most 31. Fields of
        // another origin have the only answer that is left, want of memory, since a builder can't hold other ones.
        if !is_plain(&instr) {
            return Err(AllocError);
        }
        self.builder.add(instr)?;
        Ok(())
    }

    /// Opens a block.
    fn begin(
        &mut self,
        opening: Opening,
        label: Option<Token>,
        ty: Option<ValType>,
    ) -> Result<(), AllocError>
        ensures { OnOk result (self.new ≡ with_begin opening label ty self.old) }
    {
        self.builder.open(opening, ty)?;
        self.labels.push(label)?;
        Ok(())
    }

    /// An `else`.
    fn begin_else(&mut self)
        requires { may_else self.old.st.blocks ≡ true }
        ensures { self.new ≡ with_else self.old }
    {
        self.builder.begin_else();
    }

    /// Ends the innermost block.
    fn end(&mut self) -> Result<(), AllocError>
        requires block { 0 < length self.old.st.blocks }
        requires label { 0 < length self.old.labels }
        ensures { OnOk result (self.new ≡ with_end self.old) }
    {
        self.builder.close()?;
        let _ = self.labels.pop();
        Ok(())
    }

    /// A step of a body.
    fn step(&mut self, alloc: Global, around: Around, step: &Op) -> Result<(), AllocError>
        requires may { MayCome self.old step.now }
        requires source { (around.locals.now).source ≡ (around.context.now).source }
        ensures { OnOk result (self.new ≡ with_op (around.entry.context.now).source (around.entry.context.now).scope (around.entry.locals.now).ids around.entry.uses.now step.now self.old) }
    {
        match step {
            Op::Plain(plain) => self.plain(alloc, around, plain),
            Op::Begin { opening, label, ty } => self.begin(*opening, *label, *ty),
            Op::Else => {
                self.begin_else();
                Ok(())
            }
            Op::End => self.end(),
        }
    }
}

/// Builds a body of its steps.
fn built(alloc: Global, around: Around, ops: &[Op]) -> Result<Making, AllocError>
    requires whole { Balanced [] ops.now }
    requires source { (around.locals.now).source ≡ (around.context.now).source }
    ensures closed { IfOk result (λ m. length m.st.blocks ≡ 0) }
    ensures built { IfOk result (λ m. m ≡ built (around.entry.context.now).source (around.entry.context.now).scope (around.entry.locals.now).ids around.entry.uses.now ops.now nothing_built) }
{
    let mut making = Making::new(alloc)?;
    for step in ops {
        making.step(alloc, around, step)?;
    }
    Ok(making)
}

/// The indices of the types of uses, one after the other.
fn use_indices(
    alloc: Global,
    context: &Context,
    uses: &[TypeUse],
    wrong: &mut Vec<usize>,
) -> Result<Vec<u32>, AllocError>
    ensures { IfOk result (λ ns. Adds wrong.old.items wrong.new.items ns.items (each (use_index context.now.source context.now.scope) uses.now)) }
{
    let mut indices = Vec::new(alloc);
    for sig in uses {
        indices.push(context.use_index(alloc, sig, wrong)?)?;
    }
    Ok(indices)
}

/// The code of a body with these locals.
pub fn code_of<'a>(
    alloc: Global,
    context: &Context<'a>,
    locals: &LocalIds<'a>,
    body: &Body,
    wrong: &mut Vec<usize>,
) -> Result<Code, AllocError>
    requires whole { IsWhole body.now }
    requires source { locals.now.source ≡ context.now.source }
    ensures { IfOk result (λ code. Adds wrong.old.items wrong.new.items code (code_of context.now.source context.now.scope locals.now.ids body.now)) }
{
    let uses = use_indices(alloc, context, body.uses.as_slice(), wrong)?;
    let around = Around {
        context,
        locals,
        uses: uses.as_slice(),
    };
    let Making {
        builder,
        labels: _,
        wrong: inside,
    } = built(alloc, around, body.ops.as_slice())?;
    wrong.extend_from_slice(inside.as_slice())?;
    Ok(builder.finish())
}
