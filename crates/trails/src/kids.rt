//! Kids of trees, by their places.

ghost use Rattle.std.specs.Prelude.{◌≡◌, IfOk, Some, slice_get};
ghost use Rattle.trees.specs.Trees.{Tree};
ghost use Rattle.trees.specs.Things.{ATree};
ghost use Rattle.book.specs.Shown.{book_means, Extends};
ghost use Rattle.trails.specs.Kids.{HasKid, kid};
ghost use Rattle.trails.specs.Openings.{Finds};
ghost use Rattle.trails.specs.Stations.{Station};
ghost use Rattle.trails.specs.Trails.{HasBehind, behind, HasConjunction, conjunction};
ghost use Rattle.trails.specs.Trails.{HasSide, side};
ghost use Rattle.trails.specs.Rows.{Stands, FindsFirst, IsListedOr};

use crate::open::{Opened, open_tree};
use crate::part::{Part, part_at};
use crate::station::StationRows;
use book::Book;
use std::alloc::Global;
use tested_steps::Fault;
use theory::Op;

/// The row at a place of a list.
fn row_at(rows: &[u64], at: u8) -> Option<u64>
    ensures { result ≡ slice_get rows.now at }
{
    rows.get(usize::from(at)).copied()
}

/// The kid at a place of a tree of an operator.
pub(crate) fn kid_of(
    alloc: Global,
    book: &mut Book,
    tree: u64,
    wanted: Op,
    at: u8,
) -> Result<Option<u64>, Fault>
    ensures extends { IfOk result (λ _. Extends book.old book.new) }
    ensures kid { (t : Tree) → book_means book.old tree ≡ Some (ATree t) →
        IfOk result (λ found.
        Finds (book_means book.new) found (HasKid wanted at t) (kid at t)) }
{
    match open_tree(alloc, book, tree)? {
        Opened::Operator(op, kids) => {
            if op == wanted {
                Ok(row_at(kids.as_slice(), at))
            } else {
                Ok(None)
            }
        }
        Opened::Variable(_) => Ok(None),
    }
}

/// The first kid of the one of two trees that is of an operator: of the left one, if both are.
pub(crate) fn first_kid(
    alloc: Global,
    book: &mut Book,
    station: StationRows,
    op: Op,
) -> Result<Option<u64>, Fault>
    ensures extends { IfOk result (λ _. Extends book.old book.new) }
    ensures finds { (s : Station) → Stands (book_means book.old) station s →
        IfOk result (λ found. FindsFirst (book_means book.new) found op s) }
{
    match kid_of(alloc, book, station.left, op, 0)? {
        Some(kid) => Ok(Some(kid)),
        None => Ok(kid_of(alloc, book, station.right, op, 0)?),
    }
}

/// The operator of a tree, and what its kid at a place is.
#[derive(Clone, Copy, Debug)]
pub(crate) struct Listed {
    pub(crate) op: Op,
    pub(crate) part: Part,
}

/// The operator of a tree with what its kid at a place is, if a step may lead there.
pub(crate) fn listed_at(
    alloc: Global,
    book: &mut Book,
    tree: u64,
    at: u8,
) -> Result<Option<Listed>, Fault>
    ensures extends { IfOk result (λ _. Extends book.old book.new) }
    ensures listed { (t : Tree) → book_means book.old tree ≡ Some (ATree t) →
        IfOk result (IsListedOr at t) }
{
    match open_tree(alloc, book, tree)? {
        Opened::Operator(op, _) => match part_at(op, at) {
            Some(part) => Ok(Some(Listed { op, part })),
            None => Ok(None),
        },
        Opened::Variable(_) => Ok(None),
    }
}

/// A kid of a tree of an operator, so many kids at a place deep.
fn behind(
    alloc: Global,
    book: &mut Book,
    tree: u64,
    op: Op,
    place: u8,
    count: u32,
) -> Result<Option<u64>, Fault>
    ensures extends { IfOk result (λ _. Extends book.old book.new) }
    ensures finds { (t : Tree) → book_means book.old tree ≡ Some (ATree t) →
        IfOk result (λ found.
        Finds (book_means book.new) found (HasBehind op place count t) (behind place count t)) }
{
    let mut row = tree;
    for n in 0..count {
        match kid_of(alloc, book, row, op, place)? {
            Some(kid) => row = kid,
            None => return Ok(None),
        }
    }
    Ok(Some(row))
}

/// The conjunction of a number of a face.
pub(crate) fn conjunction(
    alloc: Global,
    book: &mut Book,
    face: u64,
    number: u32,
) -> Result<Option<u64>, Fault>
    ensures extends { IfOk result (λ _. Extends book.old book.new) }
    ensures finds { (p : Tree) → book_means book.old face ≡ Some (ATree p) →
        IfOk result (λ found.
        Finds (book_means book.new) found (HasConjunction number p) (conjunction number p)) }
{
    match behind(alloc, book, face, Op::Join, 1, number)? {
        Some(rest) => Ok(kid_of(alloc, book, rest, Op::Join, 0)?),
        None => Ok(None),
    }
}

/// The side of a number of a system.
pub(crate) fn side(
    alloc: Global,
    book: &mut Book,
    system: u64,
    number: u32,
) -> Result<Option<u64>, Fault>
    ensures extends { IfOk result (λ _. Extends book.old book.new) }
    ensures finds { (t : Tree) → book_means book.old system ≡ Some (ATree t) →
        IfOk result (λ found.
        Finds (book_means book.new) found (HasSide number t) (side number t)) }
{
    match behind(alloc, book, system, Op::Sys, 3, number)? {
        Some(rest) => Ok(kid_of(alloc, book, rest, Op::Sys, 2)?),
        None => Ok(None),
    }
}
