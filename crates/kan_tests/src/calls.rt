//! Calls of the derived rules, at parts and premises that are made first.

ghost use Rattle.std.specs.Prelude.{◌≡◌, ◌≤◌, ◌<◌, [], ◌∷◌, List, IfOk, Some, length};
ghost use Rattle.trees.specs.Judgements.{Judgement, Context, trees};
ghost use Rattle.trees.specs.Language.{Ctx};
ghost use Rattle.trees.specs.Things.{AContext, meanings};
ghost use Rattle.book.specs.Contents.{Contents};
ghost use Rattle.book.specs.Shown.{book_means, book_concludes, Extends};
ghost use Rattle.recipe_runner.specs.Running.{MayRun, most_made_by};
ghost use Rattle.kan_fill.specs.Statements.{fill_statement, contr_statement, pres_statement};
ghost use Rattle.kan_fill.specs.Statements.{ext_statement};
ghost use Rattle.kan_calls.specs.Calls.{MayCall};
ghost use Rattle.kan_tests.specs.Fillings.{earlier, filling_parts, contraction_parts, before_last};
ghost use Rattle.kan_tests.specs.Fillings.{preservation_parts, extension_parts};
ghost use Rattle.kan_tests.specs.Fillings.{contractible, of_fiber};

use crate::{
    CONTR_VARIABLE, CONTR_VARIABLE_PREMISES, EXT_VARIABLE, EXT_VARIABLE_PREMISES, FILL_PREMISES,
    FILL_PREMISES_GIVES, PRES_NUMBERS, PRES_NUMBERS_PREMISES, called_premises_are_derived,
    premises_are_derived,
};
use book::{Book, Few, NodeId};
use kan_calls::{Derive, Kan};
use recipe_runner::run;
use recipes::Row;
use rows::Maker;
use std::alloc::AllocError;
use theory::Op;

/// What a call of a derived rule is made of: the node of its context, its parts, and its further
/// premises.
#[derive(Drop)]
pub struct Call {
    pub ctx: NodeId,
    pub step: Derive,
}

/// A call at these parts, of these nodes, of which the first is that of the context.
fn call_of(parts: Few, nodes: &[u64]) -> Call
    requires some { 0 < length nodes.now }
    requires few { length nodes.now ≤ 16 }
    ensures parts { result.step.parts ≡ parts }
    ensures nodes { result.ctx.0 ∷ result.step.premises ≡ nodes.now }
{
    let (first, rest) = nodes.split_at(1);
    Call {
        ctx: NodeId(first[0]),
        step: Derive {
            parts,
            premises: Few::of(rest),
        },
    }
}

/// The nodes that a recipe without parts gives.
///
/// # Errors
/// Only to be out of memory.
pub fn given(book: &mut Book, rows: &[Row], outs: &[u16]) -> Result<Few, AllocError>
    requires rows { most_made_by rows.now ≤ 512 }
    requires outs { length outs.now ≤ 16 }
    requires right { (gives : List Judgement) × ((b : Contents) →
        MayRun earlier b rows.now outs.now [] [] gives) }
    ensures extends { Extends book.old book.new }
    ensures gives { IfOk result (λ nodes. (gives : List Judgement) →
        ((b : Contents) → MayRun earlier b rows.now outs.now [] [] gives) →
        meanings (book_concludes book.new) nodes ≡ Some gives) }
{
    Ok(run(book, &Kan, rows, outs, &[], &[])?)
}

/// The parts of a filling of zero by itself, from the end 0 of a name.
fn parts(book: &mut Book) -> Result<Few, AllocError>
    ensures { IfOk result (λ parts. meanings (book_means book.new) parts ≡ Some filling_parts) }
{
    let empty = book.ctx_nil()?;
    let ctx = book.ctx_name(empty)?;
    let end = book.var(0)?;
    let face = book.make(Op::Eq0, &[end])?;
    let line = book.make(Op::Nat, &[])?;
    let base = book.make(Op::Zero, &[])?;
    Ok(Few::of(&[ctx, line, face, base, base, end]))
}

/// Such a filling, as a call.
///
/// # Errors
/// Only to be out of memory.
pub fn filling(book: &mut Book) -> Result<Call, AllocError>
    ensures { IfOk result (λ call. MayCall fill_statement book.new call.ctx.0
        call.step.parts call.step.premises filling_parts) }
{
    premises_are_derived();
    let parts = parts(book)?;
    let nodes = given(book, FILL_PREMISES, FILL_PREMISES_GIVES)?;
    Ok(call_of(parts, nodes.as_slice()))
}

/// The nodes that the rows before the last of a table give.
fn premises(book: &mut Book, rows: &[Row], outs: &[u16]) -> Result<Few, AllocError>
    requires some { 0 < length rows.now }
    requires rows { most_made_by (before_last rows.now) ≤ 512 }
    requires outs { length outs.now ≤ 16 }
    requires right { (gives : List Judgement) × ((b : Contents) →
        MayRun earlier b (before_last rows.now) outs.now [] [] gives) }
    ensures extends { Extends book.old book.new }
    ensures gives { IfOk result (λ nodes. (gives : List Judgement) →
        ((b : Contents) → MayRun earlier b (before_last rows.now) outs.now [] [] gives) →
        meanings (book_concludes book.new) nodes ≡ Some gives) }
{
    Ok(given(book, rows.split_at(rows.len() - 1).0, outs)?)
}

/// The context that the first of these nodes is about.
fn context_of(book: &Book, nodes: &[u64]) -> u64
    requires { (G : Context) × (Js : List Judgement) ×
        (meanings (book_concludes book.now) nodes.now ≡ Some (Ctx G ∷ Js)) }
    ensures { (G : Context) → (Js : List Judgement) →
        meanings (book_concludes book.now) nodes.now ≡ Some (Ctx G ∷ Js) →
        book_means book.now result ≡ Some (AContext G) }
{
    let rows = book.conclusion(NodeId(nodes[0])).rows();
    rows.as_slice()[0]
}

/// The parts of a preservation of zero by the identity of numbers, from the end 0 of a name.
fn moved_parts(book: &mut Book) -> Result<Few, AllocError>
    ensures { IfOk result (λ parts.
        meanings (book_means book.new) parts ≡ Some preservation_parts) }
{
    let empty = book.ctx_nil()?;
    let ctx = book.ctx_name(empty)?;
    let line = book.make(Op::Nat, &[])?;
    let end = book.var(0)?;
    let same = book.make(Op::Lam, &[line, end])?;
    let face = book.make(Op::Eq0, &[end])?;
    let base = book.make(Op::Zero, &[])?;
    Ok(Few::of(&[ctx, line, line, same, face, base, base]))
}

/// Such a preservation, as a call.
///
/// # Errors
/// Only to be out of memory.
pub fn preservation(book: &mut Book) -> Result<Call, AllocError>
    ensures { IfOk result (λ call. MayCall pres_statement book.new call.ctx.0
        call.step.parts call.step.premises preservation_parts) }
{
    called_premises_are_derived();
    let parts = moved_parts(book)?;
    let nodes = premises(book, PRES_NUMBERS, PRES_NUMBERS_PREMISES)?;
    Ok(call_of(parts, nodes.as_slice()))
}

/// The parts of a contraction of a type that is a variable, in this context: an element of it, from
/// the end 0 of a name.
fn contracted_parts(book: &mut Book, ctx: u64) -> Result<Few, AllocError>
    requires { book_means book.old ctx ≡ Some (AContext (contractible trees)) }
    ensures extends { IfOk result (λ parts. Extends book.old book.new) }
    ensures parts { IfOk result (λ parts.
        meanings (book_means book.new) parts ≡ Some contraction_parts) }
{
    let ty = book.var(2)?;
    let centre = book.var(1)?;
    let element = book.var(0)?;
    let end = book.var(3)?;
    let face = book.make(Op::Eq0, &[end])?;
    Ok(Few::of(&[ctx, ty, centre, face, element]))
}

/// Such a contraction, as a call.
///
/// # Errors
/// Only to be out of memory.
pub fn contraction(book: &mut Book) -> Result<Call, AllocError>
    ensures { IfOk result (λ call. MayCall contr_statement book.new call.ctx.0
        call.step.parts call.step.premises contraction_parts) }
{
    called_premises_are_derived();
    let nodes = premises(book, CONTR_VARIABLE, CONTR_VARIABLE_PREMISES)?;
    let ctx = context_of(book, nodes.as_slice());
    let parts = contracted_parts(book, ctx)?;
    Ok(call_of(parts, nodes.as_slice()))
}

/// The parts of an extension along an equivalence of numbers that is a variable, in this context:
/// an element of its fiber at zero, from the end 0 of a name.
fn raised_parts(book: &mut Book, ctx: u64) -> Result<Few, AllocError>
    requires { book_means book.old ctx ≡ Some (AContext (of_fiber trees)) }
    ensures extends { IfOk result (λ parts. Extends book.old book.new) }
    ensures parts { IfOk result (λ parts.
        meanings (book_means book.new) parts ≡ Some extension_parts) }
{
    let ty = book.make(Op::Nat, &[])?;
    let point = book.make(Op::Zero, &[])?;
    let equivalence = book.var(1)?;
    let element = book.var(0)?;
    let end = book.var(2)?;
    let face = book.make(Op::Eq0, &[end])?;
    Ok(Few::of(&[ctx, ty, ty, equivalence, face, element, point]))
}

/// Such an extension, as a call.
///
/// # Errors
/// Only to be out of memory.
pub fn extension(book: &mut Book) -> Result<Call, AllocError>
    ensures { IfOk result (λ call. MayCall ext_statement book.new call.ctx.0
        call.step.parts call.step.premises extension_parts) }
{
    called_premises_are_derived();
    let nodes = premises(book, EXT_VARIABLE, EXT_VARIABLE_PREMISES)?;
    let ctx = context_of(book, nodes.as_slice());
    let parts = raised_parts(book, ctx)?;
    Ok(call_of(parts, nodes.as_slice()))
}
