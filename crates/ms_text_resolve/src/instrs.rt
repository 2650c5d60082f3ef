//! Instructions that are no blocks (WebAssembly 1.0, 6.5.2 to 6.5.6).

ghost use Rattle.std.specs.Prelude.{◌≡◌, IfOk, IsTrue};
ghost use Rattle.ms_module.specs.Numbered.{IsPlain};
ghost use Rattle.ms_module.specs.declared.br_table.Targets.{Targets};
ghost use Rattle.ms_text_grammar.specs.declared.surface.Plain.TheVariants as written;
ghost use Rattle.std.specs.Prelude.{Some};
ghost use Rattle.ms_text_grammar.specs.ResolvedBodies.{instr_of, number_at, targets_of};
ghost use Rattle.ms_text_names.specs.refinement.Answers.{Adds};

use ms_module::{BrTable, Instr, Linear, Targets};
use ms_text_grammar::{ExternKind, Plain};
use ms_text_lex::Token;
use ms_text_names::{Context, LocalIds, label_identified, labels_resolved};
use ms_types::{Stack, Vector};
use std::alloc::{AllocError, Global};

/// A copy of an instruction.
pub fn copied(alloc: Global, instr: &Instr) -> Result<Instr, AllocError>
    ensures { IfOk result (λ i. i ≡ instr.now) }
{
    Ok(match instr {
        Instr::Unreachable => Instr::Unreachable,
        Instr::Nop => Instr::Nop,
        Instr::Block { ty, body } => Instr::Block {
            ty: *ty,
            body: *body,
        },
        Instr::Loop { ty, body } => Instr::Loop {
            ty: *ty,
            body: *body,
        },
        Instr::If { ty, then, other } => Instr::If {
            ty: *ty,
            then: *then,
            other: *other,
        },
        Instr::Br(label) => Instr::Br(*label),
        Instr::BrIf(label) => Instr::BrIf(*label),
        Instr::BrTable(table) => Instr::BrTable(copied_table(alloc, table)?),
        Instr::Return => Instr::Return,
        Instr::Call(func) => Instr::Call(*func),
        Instr::CallIndirect(sig) => Instr::CallIndirect(*sig),
        Instr::Drop => Instr::Drop,
        Instr::Select => Instr::Select,
        Instr::LocalGet(local) => Instr::LocalGet(*local),
        Instr::LocalSet(local) => Instr::LocalSet(*local),
        Instr::LocalTee(local) => Instr::LocalTee(*local),
        Instr::GlobalGet(global) => Instr::GlobalGet(*global),
        Instr::GlobalSet(global) => Instr::GlobalSet(*global),
        Instr::I32Const(n) => Instr::I32Const(*n),
        Instr::I64Const(n) => Instr::I64Const(*n),
        Instr::Numeric(op) => Instr::Numeric(*op),
        Instr::Linear(op) => Instr::Linear(*op),
        Instr::Segment(op) => Instr::Segment(*op),
    })
}

fn copied_table(alloc: Global, table: &BrTable) -> Result<BrTable, AllocError>
    ensures { IfOk result (λ t. t ≡ table.now) }
{
    let labels = Vector::from_vec(Vec::from_slice(alloc, table.labels())?);
    let default = table.default();
    BrTable::new(alloc, Targets { labels, default })
}

/// Labels, of which the last is the default one.
fn targets_of(alloc: Global, mut labels: Vec<u32>) -> Targets
    ensures { result ≡ targets_of labels.items }
{
    match labels.pop() {
        None => Targets {
            labels: Vector::new(alloc),
            default: 0,
        },
        Some(default) => Targets {
            labels: Vector::from_vec(labels),
            default,
        },
    }
}

/// What the instructions of a body stand in: the module, the function's locals, and the indices of the body's type uses.
#[derive(Clone, Copy)]
pub struct Around<'b, 'a> {
    pub context: &'b Context<'a>,
    pub locals: &'b LocalIds<'a>,
    pub uses: &'b [u32],
}

/// An instruction with an identifier in the place of its index.
fn named(
    alloc: Global,
    around: Around,
    labels: &Stack<Option<Token>>,
    instr: &Instr,
    id: Token,
    wrong: &mut Vec<usize>,
) -> Result<Instr, AllocError>
    requires { (around.locals.now).source ≡ (around.context.now).source }
    ensures { IfOk result (λ i. Adds wrong.old.items wrong.new.items i (instr_of (around.entry.context.now).source (around.entry.context.now).scope (around.entry.locals.now).ids around.entry.uses.now labels.now (written.Instr instr.now (Some id)))) }
{
    let source = around.context.source();
    match instr {
        Instr::Br(_) => Ok(Instr::Br(label_identified(source, labels, id, wrong)?)),
        Instr::BrIf(_) => Ok(Instr::BrIf(label_identified(source, labels, id, wrong)?)),
        Instr::Call(_) => Ok(Instr::Call(around.context.identified(ExternKind::Func, id, wrong)?)),
        Instr::LocalGet(_) => Ok(Instr::LocalGet(around.locals.identified(id, wrong)?)),
        Instr::LocalSet(_) => Ok(Instr::LocalSet(around.locals.identified(id, wrong)?)),
        Instr::LocalTee(_) => Ok(Instr::LocalTee(around.locals.identified(id, wrong)?)),
        Instr::GlobalGet(_) => Ok(Instr::GlobalGet(
            around.context.identified(ExternKind::Global, id, wrong)?,
        )),
        Instr::GlobalSet(_) => Ok(Instr::GlobalSet(
            around.context.identified(ExternKind::Global, id, wrong)?,
        )),
        _ => {
            wrong.push(id.at)?;
            copied(alloc, instr)
        }
    }
}

/// An instruction with its identifiers replaced.
pub fn instr_of(
    alloc: Global,
    around: Around,
    labels: &Stack<Option<Token>>,
    plain: &Plain,
    wrong: &mut Vec<usize>,
) -> Result<Instr, AllocError>
    requires { (around.locals.now).source ≡ (around.context.now).source }
    ensures { IfOk result (λ i. Adds wrong.old.items wrong.new.items i (instr_of (around.entry.context.now).source (around.entry.context.now).scope (around.entry.locals.now).ids around.entry.uses.now labels.now plain.now)) }
{
    match plain {
        Plain::Instr { instr, id: None } => copied(alloc, instr),
        Plain::Instr {
            instr,
            id: Some(id),
        } => named(alloc, around, labels, instr, *id, wrong),
        Plain::BrTable(indices) => {
            let source = around.context.source();
            let numbers = labels_resolved(alloc, source, labels, indices.as_slice(), wrong)?;
            Ok(Instr::BrTable(BrTable::new(alloc, targets_of(alloc, numbers))?))
        }
        Plain::CallIndirect(number) => Ok(Instr::CallIndirect(number_at(around.uses, *number))),
    }
}

/// The number at a place, 0 behind the last one.
fn number_at(numbers: &[u32], place: u32) -> u32
    ensures { result ≡ number_at numbers.now place }
{
    match numbers.get(place as usize) {
        Some(n) => *n,
        None => 0,
    }
}

/// Whether an instruction is no block, and its operands are in their ranges. So is each one of a body of the grammar.
pub fn is_plain(instr: &Instr) -> bool
    ensures { IsTrue result → IsPlain instr.now }
{
    match instr {
        Instr::Block { .. } | Instr::Loop { .. } | Instr::If { .. } => false,
        Instr::Linear(Linear::Load(_, arg) | Linear::Store(_, arg)) => arg.align <= 31,
        _ => true,
    }
}
