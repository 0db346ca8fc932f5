//! Formulas and faces as normal trees.

ghost use Rattle.std.specs.Prelude.{IfOk};
ghost use Rattle.rows.specs.Views.{IsContext, IsTree};
ghost use Rattle.book.specs.Shown.{book_means};

use book::{Book, NodeId};
use rows::{CtxId, CtxRow, Maker, Reader, TermId};
use std::alloc::Global;
use tested_steps::{Fault, claim_of, substitution_row, try_instance, try_make};
use theory::{Claim, Op, PartKind};

/// A context's row.
fn context_row(book: &Book, ctx: NodeId) -> Result<CtxId, Fault>
    ensures { IfOk result (λ row. IsContext (book_means book.now row.0)) }
{
    match claim_of(book, ctx)? {
        Claim::Ctx(row) if book.is_of_kind(row, PartKind::Context) => Ok(CtxId(row)),
        _ => Err(Fault::Misfit),
    }
}

/// A row that is a tree.
fn tree_row(book: &Book, row: u64) -> Result<TermId, Fault>
    ensures { IfOk result (λ term. IsTree (book_means book.now term.0)) }
{
    if book.is_of_kind(row, PartKind::Term) {
        Ok(TermId(row))
    } else {
        Err(Fault::Misfit)
    }
}

/// How many entries a context has.
#[derive(Clone, Copy, Debug, PartialEq, Eq)]
struct Size {
    /// Variables, names and faces.
    entries: u64,
    /// Variables and names alone, which have levels.
    levels: u64,
}

/// The size of a context, which is a row.
fn size_of(book: &Book, ctx: u64) -> Result<Size, Fault> {
    let mut ctx = ctx;
    let mut levels = 0;
    let mut faces = 0;
    while book.is_of_kind(ctx, PartKind::Context) {
        match book.context(CtxId(ctx)) {
            CtxRow::Nil => {
                let entries = levels + faces;
                return Ok(Size { entries, levels });
            }
            CtxRow::Var(CtxId(below), _) | CtxRow::Name(CtxId(below)) => {
                levels += 1;
                ctx = below;
            }
            CtxRow::Face(CtxId(below), _) => {
                faces += 1;
                ctx = below;
            }
        }
    }
    Err(Fault::Misfit)
}

/// The name of a level, in a context with so many variables and names.
fn name_at(book: &mut Book, levels: u64, level: u64) -> Result<u64, Fault> {
    if level >= levels {
        return Err(Fault::Misfit);
    }
    match u32::try_from(levels - level - 1) {
        Ok(index) => Ok(book.var(index)?),
        Err(_) => Err(Fault::Misfit),
    }
}

/// Trees joined by an operator, nested to the right; of no trees another operator.
fn nested(book: &mut Book, joiner: Op, none: Op, trees: &[u64]) -> Result<u64, Fault> {
    let Some((last, before)) = trees.split_last() else {
        return try_make(book, none, &[]);
    };
    let mut tree = *last;
    for one in before.iter().rev() {
        tree = try_make(book, joiner, &[*one, tree])?;
    }
    Ok(tree)
}

/// A context in which formulas and faces are settled.
#[derive(Clone, Copy)]
struct Setting {
    ctx: NodeId,
    /// Its variables and names.
    levels: u64,
    /// Whether it has faces that are true somewhere. Others fix no name.
    is_faced: bool,
}

/// The setting that a context is.
fn setting_of(book: &mut Book, ctx: NodeId) -> Result<Setting, Fault> {
    let row = context_row(book, ctx)?;
    let Size { entries, levels } = size_of(book, row.0)?;
    let is_faced = if levels < entries {
        !is_true(book, ctx, Op::F0, &[])?
    } else {
        false
    };
    Ok(Setting {
        ctx,
        levels,
        is_faced,
    })
}

/// Whether a face of these kids is true everywhere in a context.
fn is_true(book: &mut Book, ctx: NodeId, op: Op, kids: &[u64]) -> Result<bool, Fault> {
    let face = try_make(book, op, kids)?;
    let face = tree_row(book, face)?;
    let ctx = context_row(book, ctx)?;
    Ok(book.holds(ctx, face)?)
}

/// The name of a level, or the end at which the faces of the context fix it.
fn name_or_end(book: &mut Book, setting: Setting, level: u64) -> Result<u64, Fault> {
    let name = name_at(book, setting.levels, level)?;
    if setting.is_faced {
        for (equation, end) in [(Op::Eq0, Op::I0), (Op::Eq1, Op::I1)] {
            if is_true(book, setting.ctx, equation, &[name])? {
                return try_make(book, end, &[]);
            }
        }
    }
    Ok(name)
}

/// A formula as a sum of products, in order. Fixed names are at their ends.
fn sum_of(alloc: Global, book: &mut Book, setting: Setting, formula: u64) -> Result<u64, Fault> {
    let ctx = context_row(book, setting.ctx)?;
    let formula = tree_row(book, formula)?;
    let Some(form) = book.form_of(ctx, formula)? else {
        return Err(Fault::Misfit);
    };
    let mut products = Vec::new(alloc);
    for product in form.products() {
        let mut literals = Vec::new(alloc);
        for literal in product.elements() {
            let name = name_or_end(book, setting, literal.name)?;
            let tree = if literal.negated {
                try_make(book, Op::Neg, &[name])?
            } else {
                name
            };
            literals.push(tree)?;
        }
        products.push(nested(book, Op::Min, Op::I1, &literals)?)?;
    }
    nested(book, Op::Max, Op::I0, &products)
}

/// A formula of a context as a normal tree: a sum of products, in order, without names that the
/// faces of the context fix.
pub fn settled_formula(
    alloc: Global,
    book: &mut Book,
    ctx: NodeId,
    formula: u64,
) -> Result<u64, Fault> {
    let setting = setting_of(book, ctx)?;
    let sum = sum_of(alloc, book, setting, formula)?;
    if setting.is_faced {
        // Ends may stand in it.
        return sum_of(alloc, book, setting, sum);
    }
    Ok(sum)
}

/// The conjunctions of a face, none implied by another, in order. Fixed names are at their ends.
fn conjunctions_in(
    alloc: Global,
    book: &mut Book,
    setting: Setting,
    face: u64,
) -> Result<Vec<u64>, Fault> {
    let ctx = context_row(book, setting.ctx)?;
    let face = tree_row(book, face)?;
    let Some(face) = book.face_of(ctx, face)? else {
        return Err(Fault::Misfit);
    };
    let mut conjunctions = Vec::new(alloc);
    for part in face.parts() {
        let mut equations = Vec::new(alloc);
        for equation in part.elements() {
            let name = name_or_end(book, setting, equation.name)?;
            let op = if equation.end { Op::Eq1 } else { Op::Eq0 };
            equations.push(try_make(book, op, &[name])?)?;
        }
        conjunctions.push(nested(book, Op::Meet, Op::F1, &equations)?)?;
    }
    Ok(conjunctions)
}

/// The conjunctions of a face of a context, none implied by another, in order, as normal trees,
/// without names that the faces of the context fix.
pub fn conjunctions_of(
    alloc: Global,
    book: &mut Book,
    ctx: NodeId,
    face: u64,
) -> Result<Vec<u64>, Fault> {
    let setting = setting_of(book, ctx)?;
    let conjunctions = conjunctions_in(alloc, book, setting, face)?;
    if setting.is_faced {
        // Ends may stand in them.
        let cover = cover_of(book, &conjunctions)?;
        return conjunctions_in(alloc, book, setting, cover);
    }
    Ok(conjunctions)
}

/// The face that is true where one of these is: their joins, nested to the right, of the last with
/// `f0`.
pub fn cover_of(book: &mut Book, faces: &[u64]) -> Result<u64, Fault> {
    let mut cover = try_make(book, Op::F0, &[])?;
    for face in faces.iter().rev() {
        cover = try_make(book, Op::Join, &[*face, cover])?;
    }
    Ok(cover)
}

/// A formula or a face under a substitution.
pub fn face_under(book: &mut Book, sub: NodeId, face: u64) -> Result<u64, Fault> {
    let row = substitution_row(book, sub)?;
    try_instance(book, face, row)
}

/// Whether two rows are one tree.
pub fn is_same_tree(book: &Book, left: u64, right: u64) -> Result<bool, Fault> {
    let left = tree_row(book, left)?;
    let right = tree_row(book, right)?;
    Ok(book.same_tree(left, right)?)
}
