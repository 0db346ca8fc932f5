//! Steps into two trees of one operator.

ghost use Rattle.std.specs.Prelude.{◌≡◌, IfOk, Some};
ghost use Rattle.trees.specs.Trees.{Tree};
ghost use Rattle.trees.specs.Judgements.{Context, WithFace};
ghost use Rattle.trees.specs.Things.{ATree, AContext};
ghost use Rattle.book.specs.Shown.{book_means, Extends};
ghost use Rattle.trails.specs.Kids.{HasKid, kid};
ghost use Rattle.trails.specs.Openings.{Finds};
ghost use Rattle.trails.specs.Stations.{Station};
ghost use Rattle.trails.specs.Trails.{IsInto, IsSide, HaveOne};
ghost use Rattle.trails.specs.Trails.{within, where_side, HasSide, side};
ghost use Rattle.trails.specs.Rows.{Stands, GoesOr};

use crate::kids::{conjunction, kid_of, listed_at, side};
use crate::open::are_one;
use crate::part::Part;
use crate::station::{Sort, StationRows};
use book::Book;
use std::alloc::Global;
use tested_steps::{Fault, try_make, try_with_face, try_with_name, try_with_variable};
use theory::Op;

/// The context of a kid of a tree of an operator.
fn context_within(
    alloc: Global,
    book: &mut Book,
    ctx: u64,
    tree: u64,
    op: Op,
    part: Part,
) -> Result<u64, Fault>
    ensures extends { IfOk result (λ _. Extends book.old book.new) }
    ensures means { (G : Context) (t : Tree) → book_means book.old ctx ≡ Some (AContext G) →
        book_means book.old tree ≡ Some (ATree t) →
        IfOk result (λ row. book_means book.new row ≡ Some (AContext (within part G t))) }
{
    match part {
        Part::Family => match kid_of(alloc, book, tree, op, 0)? {
            Some(domain) => Ok(try_with_variable(book, ctx, domain)?),
            None => Err(Fault::Misfit),
        },
        Part::Motive => {
            let numbers = try_make(book, Op::Nat, &[])?;
            Ok(try_with_variable(book, ctx, numbers)?)
        }
        Part::Line => Ok(try_with_name(book, ctx)?),
        _ => Ok(ctx),
    }
}

/// The kids at a place of two trees of one operator, which is not one that an eta rule takes apart.
pub(crate) fn into(
    alloc: Global,
    book: &mut Book,
    station: StationRows,
    at: u8,
) -> Result<Option<StationRows>, Fault>
    ensures extends { IfOk result (λ _. Extends book.old book.new) }
    ensures goes { (s : Station) → Stands (book_means book.old) station s →
        IfOk result (λ next. GoesOr (book_means book.new) next (IsInto at s)) }
{
    let Some(found) = listed_at(alloc, book, station.left, at)? else {
        return Ok(None);
    };
    let Some(sort) = found.part.sort() else {
        return Ok(None);
    };
    let Some(left) = kid_of(alloc, book, station.left, found.op, at)? else {
        return Ok(None);
    };
    let Some(right) = kid_of(alloc, book, station.right, found.op, at)? else {
        return Ok(None);
    };
    let ctx = context_within(alloc, book, station.ctx, station.left, found.op, found.part)?;
    Ok(Some(StationRows {
        ctx,
        left,
        right,
        sort,
    }))
}

/// The kid at a place of two trees of an operator, if it is one tree.
fn one_kid(
    alloc: Global,
    book: &mut Book,
    station: StationRows,
    op: Op,
    at: u8,
) -> Result<Option<u64>, Fault>
    ensures extends { IfOk result (λ _. Extends book.old book.new) }
    ensures finds { (s : Station) → Stands (book_means book.old) station s →
        IfOk result (λ found.
        Finds (book_means book.new) found (HaveOne op at s) (kid at s.left)) }
{
    let Some(left) = kid_of(alloc, book, station.left, op, at)? else {
        return Ok(None);
    };
    let Some(right) = kid_of(alloc, book, station.right, op, at)? else {
        return Ok(None);
    };
    if are_one(book, left, right)? {
        Ok(Some(left))
    } else {
        Ok(None)
    }
}

/// The side of a number of the kid at a place of a tree of an operator.
fn side_of(
    alloc: Global,
    book: &mut Book,
    tree: u64,
    op: Op,
    at: u8,
    number: u32,
) -> Result<Option<u64>, Fault>
    ensures extends { IfOk result (λ _. Extends book.old book.new) }
    ensures finds { (t : Tree) → book_means book.old tree ≡ Some (ATree t) →
        IfOk result (λ found. Finds (book_means book.new) found
        (HasKid op at t × HasSide number (kid at t)) (side number (kid at t))) }
{
    match kid_of(alloc, book, tree, op, at)? {
        Some(kid) => Ok(side(alloc, book, kid, number)?),
        None => Ok(None),
    }
}

/// The context of a side, where its conjunction is true.
fn context_there(book: &mut Book, ctx: u64, part: Part, conjunction: u64) -> Result<u64, Fault>
    ensures extends { IfOk result (λ _. Extends book.old book.new) }
    ensures means { (G : Context) (p : Tree) → book_means book.old ctx ≡ Some (AContext G) →
        book_means book.old conjunction ≡ Some (ATree p) →
        IfOk result (λ row.
        book_means book.new row ≡ Some (AContext (where_side part (WithFace G p)))) }
{
    let there = try_with_face(book, ctx, conjunction)?;
    match part {
        Part::Lines(_) => Ok(try_with_name(book, there)?),
        _ => Ok(there),
    }
}

/// The sides of a number of the kids at a place of two trees of one operator and one face.
pub(crate) fn sides(
    alloc: Global,
    book: &mut Book,
    station: StationRows,
    at: u8,
    number: u32,
) -> Result<Option<StationRows>, Fault>
    ensures extends { IfOk result (λ _. Extends book.old book.new) }
    ensures goes { (s : Station) → Stands (book_means book.old) station s →
        IfOk result (λ next. GoesOr (book_means book.new) next (IsSide at number s)) }
{
    let Some(found) = listed_at(alloc, book, station.left, at)? else {
        return Ok(None);
    };
    let Some(place) = found.part.face() else {
        return Ok(None);
    };
    let Some(face) = one_kid(alloc, book, station, found.op, place)? else {
        return Ok(None);
    };
    let Some(there) = conjunction(alloc, book, face, number)? else {
        return Ok(None);
    };
    let Some(left) = side_of(alloc, book, station.left, found.op, at, number)? else {
        return Ok(None);
    };
    let Some(right) = side_of(alloc, book, station.right, found.op, at, number)? else {
        return Ok(None);
    };
    let ctx = context_there(book, station.ctx, found.part, there)?;
    let sort = Sort::Term;
    Ok(Some(StationRows {
        ctx,
        left,
        right,
        sort,
    }))
}
