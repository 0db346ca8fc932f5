//! Normal right sides of equations.

ghost use Rattle.std.specs.Prelude.{◌≡◌, IfOk, IsTrue, Some, string_bytes};
ghost use Rattle.rows.specs.Views.{IsContext, IsTree};
ghost use Rattle.side_conditions.specs.Contexts.{context_of};
ghost use Rattle.side_conditions.specs.Shapes.{tree_of};
ghost use Rattle.book.specs.Shown.{Extends, book_means};
ghost use Rattle.evidence.specs.Contexts.{IsNormalIn};
ghost use Rattle.evidence.specs.Evidence.{shown_in};
ghost use Rattle.evidence.specs.Sides.{IsPlace, IsSide};
ghost use Rattle.evidence.specs.declared.sides.Place.{Place};
ghost use Rattle.evidence.specs.declared.sides.Side.{Side};

use crate::contexts::{count_indices, fixed_names, is_consistent};
use book::{Book, NodeId};
use normality::is_normal_where;
use rows::{CtxId, TermId};
use std::alloc::{AllocError, Global};
use theory::Claim;
use tree_texts::show;

/// What an equation is of.
#[derive(Clone, Copy, Debug, PartialEq, Eq)]
pub(crate) enum Sort {
    Types,
    Terms,
}

/// The right side of an equation.
#[derive(Clone, Copy, Debug)]
pub(crate) struct Side {
    pub(crate) sort: Sort,
    pub(crate) ctx: CtxId,
    pub(crate) right: TermId,
}

/// A context whose faces are true together somewhere, with the names that they fix.
#[derive(Drop, Debug)]
pub(crate) struct Place {
    pub(crate) ctx: CtxId,
    /// How many variables and names it has.
    level: u32,
    fixed: Vec<u128>,
}

/// The right side of an equation, of a node that concludes one.
pub(crate) fn right_side(book: &Book, equation: NodeId) -> Option<Side>
    ensures { (s : Side) → result ≡ Some s → IsSide book.now equation.0 s }
{
    if !book.is_node(equation) {
        return None;
    }
    match book.conclusion(equation) {
        Claim::TyEq(ctx, _, right) => Some(Side {
            sort: Sort::Types,
            ctx: CtxId(ctx),
            right: TermId(right),
        }),
        Claim::TmEq(ctx, _, right, _) => Some(Side {
            sort: Sort::Terms,
            ctx: CtxId(ctx),
            right: TermId(right),
        }),
        _ => None,
    }
}

/// A context as a place, if its faces are true together somewhere.
fn place_of(alloc: Global, book: &mut Book, ctx: CtxId) -> Result<Option<Place>, AllocError>
    requires { IsContext (book_means book.old ctx.0) }
    ensures extends { Extends book.old book.new }
    ensures place { IfOk result (λ found. (p : Place) → found ≡ Some p →
        IsPlace (context_of (book_means book.old ctx.0)) p) }
    ensures ctx { IfOk result (λ found. (p : Place) → found ≡ Some p → p.ctx ≡ ctx) }
{
    let Ok(level) = u32::try_from(count_indices(book, ctx)) else {
        return Ok(None);
    };
    if !is_consistent(book, ctx)? {
        return Ok(None);
    }
    let fixed = fixed_names(alloc, book, ctx, level)?;
    Ok(Some(Place { ctx, level, fixed }))
}

/// The place of an equation, of a node that concludes one, if the faces of its context are true
/// together somewhere.
pub(crate) fn place_of_equation(
    alloc: Global,
    book: &mut Book,
    equation: NodeId,
) -> Result<Option<Place>, AllocError>
    ensures context { IfOk result (λ found. (p : Place) → found ≡ Some p →
        IsContext (book_means book.new p.ctx.0)) }
    ensures place { IfOk result (λ found. (p : Place) → found ≡ Some p →
        IsPlace (context_of (book_means book.new p.ctx.0)) p) }
{
    match right_side(book, equation) {
        Some(side) => Ok(place_of(alloc, book, side.ctx)?),
        None => Ok(None),
    }
}

/// Whether a tree is normal at a place.
pub(crate) fn is_normal_at(
    alloc: Global,
    book: &Book,
    place: &Place,
    tree: TermId,
) -> Result<bool, AllocError>
    requires place { IsPlace (context_of (book_means book.now place.now.ctx.0)) place.now }
    requires tree { IsTree (book_means book.now tree.0) }
    ensures { let f = book_means book.now in IfOk result (λ yes. IsTrue yes →
        IsNormalIn (context_of (f place.now.ctx.0)) (tree_of (f tree.0))) }
{
    Ok(is_normal_where(alloc, book, &place.fixed, tree)?)
}

/// The text of a tree of a place. None if it is no UTF-8, which never comes.
pub(crate) fn text_at(
    alloc: Global,
    book: &Book,
    place: &Place,
    tree: TermId,
) -> Result<Option<String>, AllocError>
    requires place { IsPlace (context_of (book_means book.now place.now.ctx.0)) place.now }
    requires tree { IsTree (book_means book.now tree.0) }
    ensures { let f = book_means book.now in IfOk result (λ found. (text : _) → found ≡ Some text →
        string_bytes text ≡ shown_in (context_of (f place.now.ctx.0)) (tree_of (f tree.0))) }
{
    let mut bytes = Vec::new(alloc);
    show(alloc, book, place.level as u64, tree, &mut bytes)?;
    match String::from_utf8(bytes) {
        Ok(text) => Ok(Some(text)),
        Err(_) => Ok(None),
    }
}
