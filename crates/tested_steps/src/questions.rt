//! Questions of faces and formulas, asked of rows that are there.

ghost use Rattle.std.specs.Prelude.{IfOk};
ghost use Rattle.rows.specs.Views.{IsContext};
ghost use Rattle.book.specs.Shown.{book_means, Extends};

use crate::fault::Fault;
use crate::making::{try_instance, try_make, try_with_face};
use crate::reading::{claim_of, substitution_row};
use book::{Book, NodeId};
use faces::{Conj, Equation, Face};
use rows::{CtxId, CtxRow, Maker, Reader, TermId};
use theory::{Claim, Op, PartKind};

/// The row of G, of `ctx G`.
pub fn context_row(book: &Book, ctx: NodeId) -> Result<u64, Fault>
    ensures { IfOk result (λ row. IsContext (book_means book.now row)) }
{
    match claim_of(book, ctx)? {
        Claim::Ctx(row) if book.is_of_kind(row, PartKind::Context) => Ok(row),
        _ => Err(Fault::Misfit),
    }
}

/// Whether a face is true at every point at which those of a context are. Both are rows.
fn holds(book: &Book, ctx: u64, face: u64) -> Result<bool, Fault> {
    if !book.is_of_kind(ctx, PartKind::Context) || !book.is_of_kind(face, PartKind::Term) {
        return Err(Fault::Misfit);
    }
    Ok(book.holds(CtxId(ctx), TermId(face))?)
}

/// Whether a face is true under a substitution: everywhere in H, of `ctx H` and `d : H to G`.
pub fn holds_under(book: &mut Book, ctx: NodeId, sub: NodeId, face: u64) -> Result<bool, Fault>
    ensures { Extends book.old book.new }
{
    let here = context_row(book, ctx)?;
    let row = substitution_row(book, sub)?;
    let face = try_instance(book, face, row)?;
    holds(book, here, face)
}

/// Whether a face is true nowhere in a context.
pub fn always_false(book: &mut Book, ctx: NodeId, face: u64) -> Result<bool, Fault>
    ensures { Extends book.old book.new }
{
    let here = context_row(book, ctx)?;
    let there = try_with_face(book, here, face)?;
    let bottom = try_make(book, Op::F0, &[])?;
    holds(book, there, bottom)
}

/// The variables and names of a context, which is a row.
fn depth_of(book: &Book, ctx: u64) -> Result<u64, Fault> {
    let mut ctx = ctx;
    let mut depth = 0;
    while book.is_of_kind(ctx, PartKind::Context) {
        match book.context(CtxId(ctx)) {
            CtxRow::Nil => return Ok(depth),
            CtxRow::Var(CtxId(below), _) | CtxRow::Name(CtxId(below)) => {
                depth += 1;
                ctx = below;
            }
            CtxRow::Face(CtxId(below), _) => ctx = below,
        }
    }
    Err(Fault::Misfit)
}

/// A face of a context, which is a row, in normal form.
fn face_in(book: &Book, ctx: u64, face: u64) -> Result<Face, Fault> {
    if !book.is_of_kind(ctx, PartKind::Context) || !book.is_of_kind(face, PartKind::Term) {
        return Err(Fault::Misfit);
    }
    match book.face_of(CtxId(ctx), TermId(face))? {
        Some(face) => Ok(face),
        None => Err(Fault::Misfit),
    }
}

/// How many conjunctions a face is, in a context.
pub fn count_conjunctions(book: &Book, ctx: NodeId, face: u64) -> Result<usize, Fault> {
    let face = face_in(book, context_row(book, ctx)?, face)?;
    Ok(face.parts().len())
}

/// That a name of a context with so many variables and names is at an end.
fn equation_row(book: &mut Book, depth: u64, equation: Equation) -> Result<u64, Fault>
    ensures { Extends book.old book.new }
{
    if depth <= equation.name {
        return Err(Fault::Misfit);
    }
    let Ok(index) = u32::try_from(depth - 1 - equation.name) else {
        return Err(Fault::Misfit);
    };
    let name = book.var(index)?;
    let op = if equation.end { Op::Eq1 } else { Op::Eq0 };
    try_make(book, op, &[name])
}

/// A conjunction over a context with so many variables and names.
fn conjunction_row(book: &mut Book, depth: u64, conj: &Conj) -> Result<u64, Fault>
    ensures { Extends book.old book.new }
{
    let Some((first, others)) = conj.elements().split_first() else {
        return try_make(book, Op::F1, &[]);
    };
    let mut row = equation_row(book, depth, *first)?;
    for equation in others {
        let next = equation_row(book, depth, *equation)?;
        row = try_make(book, Op::Meet, &[row, next])?;
    }
    Ok(row)
}

/// A conjunction of a face of a context, over that context with so many more names.
pub fn conjunction(
    book: &mut Book,
    ctx: NodeId,
    face: u64,
    at: usize,
    more: u64,
) -> Result<u64, Fault>
    ensures { Extends book.old book.new }
{
    let here = context_row(book, ctx)?;
    let Some(depth) = depth_of(book, here)?.checked_add(more) else {
        return Err(Fault::Misfit);
    };
    let face = face_in(book, here, face)?;
    match face.parts().get(at) {
        Some(conj) => conjunction_row(book, depth, conj),
        None => Err(Fault::Misfit),
    }
}

/// Whether two trees are formulas of one value in a context. All are rows.
fn same_form(book: &Book, ctx: u64, left: u64, right: u64) -> Result<bool, Fault> {
    let are_trees = book.is_of_kind(left, PartKind::Term) && book.is_of_kind(right, PartKind::Term);
    if !are_trees || !book.is_of_kind(ctx, PartKind::Context) {
        return Err(Fault::Misfit);
    }
    Ok(book.same_form(CtxId(ctx), TermId(left), TermId(right))?)
}

/// Whether a formula is an end, in a context.
pub fn is_formula_end(book: &mut Book, ctx: NodeId, formula: u64, end: Op) -> Result<bool, Fault>
    ensures { Extends book.old book.new }
{
    let here = context_row(book, ctx)?;
    let end = try_make(book, end, &[])?;
    same_form(book, here, formula, end)
}
