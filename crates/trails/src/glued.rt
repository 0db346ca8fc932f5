//! Steps to elements of glued types, and to the normal forms of nodes.

ghost use Rattle.std.specs.Prelude.{◌≡◌, ◌↔◌, ℕ, IfOk, IsTrue, Some};
ghost use Rattle.trees.specs.Trees.{Tree};
ghost use Rattle.trees.specs.Judgements.{Context};
ghost use Rattle.trees.specs.Things.{ATree, AContext};
ghost use Rattle.book.specs.Shown.{book_means, book_concludes, Extends};
ghost use Rattle.trails.specs.Stations.{Station};
ghost use Rattle.trails.specs.Trails.{Conclusions, AreAlike, AreNormal, AreBases};
ghost use Rattle.trails.specs.Trails.{IsGlued, IsOnFace};
ghost use Rattle.trails.specs.Rows.{Stands, GoesOr, IsEquation, IsUngluedAs, Widens};

use crate::contexts::are_alike;
use crate::kids::{conjunction, first_kid, kid_of};
use crate::open::are_one;
use crate::station::{Sort, StationRows};
use book::{Book, NodeId};
use std::alloc::Global;
use tested_steps::{Fault, claim_of, try_make, try_with_face};
use theory::{Claim, Op};

/// An equation of terms, by the rows of its context and its sides.
#[derive(Clone, Copy, Debug)]
pub(crate) struct Equation {
    pub(crate) ctx: u64,
    pub(crate) left: u64,
    pub(crate) right: u64,
}

/// The equation of terms that a node concludes.
fn equation_of(book: &Book, node: NodeId) -> Result<Equation, Fault>
    ensures { IfOk result (λ e.
        IsEquation (book_means book.now) (book_concludes book.now node.0) e) }
{
    match claim_of(book, node)? {
        Claim::TmEq(ctx, left, right, _) => Ok(Equation { ctx, left, right }),
        _ => Err(Fault::Misfit),
    }
}

/// Whether an equation is in a context like this one, and of a tree.
fn is_of(book: &mut Book, equation: Equation, ctx: u64, tree: u64) -> Result<bool, Fault>
    ensures extends { IfOk result (λ _. Extends book.old book.new) }
    ensures is { (G H : Context) (a b : Tree) →
        book_means book.old equation.ctx ≡ Some (AContext G) →
        book_means book.old ctx ≡ Some (AContext H) →
        book_means book.old equation.left ≡ Some (ATree a) →
        book_means book.old tree ≡ Some (ATree b) →
        IfOk result (λ is. IsTrue is ↔ (AreAlike G H × (a ≡ b))) }
{
    let is_there = are_alike(book, equation.ctx, ctx)?;
    let is_this = are_one(book, equation.left, tree)?;
    Ok(is_there && is_this)
}

/// The right sides of two equations whose left sides are the two trees, in contexts like theirs.
fn right_sides(
    book: &mut Book,
    station: StationRows,
    from_left: Equation,
    from_right: Equation,
) -> Result<Option<StationRows>, Fault>
    ensures extends { IfOk result (λ _. Extends book.old book.new) }
    ensures goes { (C : Conclusions) (m n : ℕ) (s : Station) →
        IsEquation (book_means book.old) (C m) from_left →
        IsEquation (book_means book.old) (C n) from_right →
        Stands (book_means book.old) station s →
        IfOk result (λ next. GoesOr (book_means book.new) next (AreNormal C m n s)) }
{
    let StationRows {
        ctx,
        left,
        right,
        ..
    } = station;
    if !is_of(book, from_left, ctx, left)? {
        return Ok(None);
    }
    if !is_of(book, from_right, ctx, right)? {
        return Ok(None);
    }
    Ok(Some(StationRows {
        ctx,
        left: from_left.right,
        right: from_right.right,
        sort: Sort::Term,
    }))
}

/// The normal forms of two trees, of the equations with these.
pub(crate) fn normal(
    book: &mut Book,
    station: StationRows,
    left_node: NodeId,
    right_node: NodeId,
) -> Result<Option<StationRows>, Fault>
    ensures extends { IfOk result (λ _. Extends book.old book.new) }
    ensures goes { (C : Conclusions) → Widens (book_concludes book.old) C →
        (s : Station) → Stands (book_means book.old) station s →
        IfOk result (λ next.
        GoesOr (book_means book.new) next (AreNormal C left_node.0 right_node.0 s)) }
{
    let from_left = equation_of(book, left_node)?;
    let from_right = equation_of(book, right_node)?;
    Ok(right_sides(book, station, from_left, from_right)?)
}

/// Two trees unglued, as a tree is that is unglued; none if that is none.
fn as_unglued(
    alloc: Global,
    book: &mut Book,
    station: StationRows,
    tree: u64,
) -> Result<Option<StationRows>, Fault>
    ensures extends { IfOk result (λ _. Extends book.old book.new) }
    ensures unglued { (a : Tree) (s : Station) → book_means book.old tree ≡ Some (ATree a) →
        Stands (book_means book.old) station s →
        IfOk result (λ next. GoesOr (book_means book.new) next (IsUngluedAs a s)) }
{
    let Some(face) = kid_of(alloc, book, tree, Op::Unglue, 0)? else {
        return Ok(None);
    };
    let Some(types) = kid_of(alloc, book, tree, Op::Unglue, 1)? else {
        return Ok(None);
    };
    let Some(maps) = kid_of(alloc, book, tree, Op::Unglue, 2)? else {
        return Ok(None);
    };
    let left = try_make(book, Op::Unglue, &[face, types, maps, station.left])?;
    let right = try_make(book, Op::Unglue, &[face, types, maps, station.right])?;
    Ok(Some(StationRows {
        left,
        right,
        ..station
    }))
}

/// The normal forms of two trees, unglued, of the equations with these.
pub(crate) fn bases(
    alloc: Global,
    book: &mut Book,
    station: StationRows,
    left_node: NodeId,
    right_node: NodeId,
) -> Result<Option<StationRows>, Fault>
    ensures extends { IfOk result (λ _. Extends book.old book.new) }
    ensures goes { (C : Conclusions) → Widens (book_concludes book.old) C →
        (s : Station) → Stands (book_means book.old) station s →
        IfOk result (λ next.
        GoesOr (book_means book.new) next (AreBases C left_node.0 right_node.0 s)) }
{
    let from_left = equation_of(book, left_node)?;
    let from_right = equation_of(book, right_node)?;
    match as_unglued(alloc, book, station, from_left.left)? {
        Some(unglued) => Ok(right_sides(book, unglued, from_left, from_right)?),
        None => Ok(None),
    }
}

/// Two trees of which one is literally glued, as elements of a glued type.
pub(crate) fn as_glued(
    alloc: Global,
    book: &mut Book,
    station: StationRows,
) -> Result<Option<StationRows>, Fault>
    ensures extends { IfOk result (λ _. Extends book.old book.new) }
    ensures goes { (s : Station) → Stands (book_means book.old) station s →
        IfOk result (λ next. GoesOr (book_means book.new) next (IsGlued s)) }
{
    match first_kid(alloc, book, station, Op::Glue)? {
        Some(_) => Ok(Some(StationRows {
            sort: Sort::Glued,
            ..station
        })),
        None => Ok(None),
    }
}

/// Two trees of which one is literally glued, where a conjunction of its face is true.
pub(crate) fn on_face(
    alloc: Global,
    book: &mut Book,
    station: StationRows,
    number: u32,
) -> Result<Option<StationRows>, Fault>
    ensures extends { IfOk result (λ _. Extends book.old book.new) }
    ensures goes { (s : Station) → Stands (book_means book.old) station s →
        IfOk result (λ next. GoesOr (book_means book.new) next (IsOnFace number s)) }
{
    let Some(face) = first_kid(alloc, book, station, Op::Glue)? else {
        return Ok(None);
    };
    let Some(there) = conjunction(alloc, book, face, number)? else {
        return Ok(None);
    };
    let ctx = try_with_face(book, station.ctx, there)?;
    Ok(Some(StationRows {
        ctx,
        sort: Sort::Rough,
        ..station
    }))
}
