//! Steps to what eta rules take apart.

ghost use Rattle.std.specs.Prelude.{◌≡◌, IfOk, Some};
ghost use Rattle.trees.specs.declared.op.Op.TheVariants as op;
ghost use Rattle.trees.specs.Trees.{Tree, Make, More, NoTrees};
ghost use Rattle.trees.specs.Things.{ATree};
ghost use Rattle.trees.specs.Operators.{kids_of};
ghost use Rattle.book.specs.Shown.{book_means, Extends};
ghost use Rattle.trails.specs.Stations.{Station};
ghost use Rattle.trails.specs.Trails.{IsKidOr, at_variable, IsHalf, IsUnderVariable, IsUnderName};
ghost use Rattle.trails.specs.Trails.{OneIs, IsFirst, IsUnder};
ghost use Rattle.trails.specs.Rows.{Stands, GoesOr, Goes, RowOf};

use crate::kids::{first_kid, kid_of};
use crate::open::weakened;
use crate::station::{Sort, StationRows};
use book::Book;
use rows::Maker;
use std::alloc::Global;
use tested_steps::{Fault, try_make, try_with_name, try_with_variable};
use theory::Op;

/// The kid at a place of a tree of one operator; of another tree, that at the last variable or name
/// by another operator.
fn body(
    alloc: Global,
    book: &mut Book,
    tree: u64,
    made: Op,
    place: u8,
    by: Op,
) -> Result<u64, Fault>
    ensures extends { IfOk result (λ _. Extends book.old book.new) }
    ensures means { (t : Tree) → book_means book.old tree ≡ Some (ATree t) → kids_of by ≡ 2 →
        IfOk result (λ row.
        RowOf (book_means book.new) row (IsKidOr made place t (at_variable by t))) }
{
    match kid_of(alloc, book, tree, made, place)? {
        Some(body) => Ok(body),
        None => {
            let tree = weakened(book, tree)?;
            let last = book.var(0)?;
            Ok(try_make(book, by, &[tree, last])?)
        }
    }
}

/// Two trees at a variable of the domain of one.
fn under_variable(
    alloc: Global,
    book: &mut Book,
    station: StationRows,
    domain: u64,
) -> Result<StationRows, Fault>
    ensures extends { IfOk result (λ _. Extends book.old book.new) }
    ensures goes { (s : Station) (A : Tree) → Stands (book_means book.old) station s →
        book_means book.old domain ≡ Some (ATree A) → IsFirst op.Lam s A →
        IfOk result (λ next. Goes (book_means book.new) next (IsUnderVariable s)) }
{
    let ctx = try_with_variable(book, station.ctx, domain)?;
    let left = body(alloc, book, station.left, Op::Lam, 1, Op::App)?;
    let right = body(alloc, book, station.right, Op::Lam, 1, Op::App)?;
    let sort = Sort::Term;
    Ok(StationRows {
        ctx,
        left,
        right,
        sort,
    })
}

/// Two trees at a name.
fn under_name(alloc: Global, book: &mut Book, station: StationRows) -> Result<StationRows, Fault>
    ensures extends { IfOk result (λ _. Extends book.old book.new) }
    ensures goes { (s : Station) → Stands (book_means book.old) station s →
        (OneIs op.Lam s → ⊥) → OneIs op.PLam s →
        IfOk result (λ next. Goes (book_means book.new) next (IsUnderName s)) }
{
    let ctx = try_with_name(book, station.ctx)?;
    let left = body(alloc, book, station.left, Op::PLam, 0, Op::PApp)?;
    let right = body(alloc, book, station.right, Op::PLam, 0, Op::PApp)?;
    let sort = Sort::Term;
    Ok(StationRows {
        ctx,
        left,
        right,
        sort,
    })
}

/// Two trees at a variable or a name, which is that of one of them.
pub(crate) fn under(
    alloc: Global,
    book: &mut Book,
    station: StationRows,
) -> Result<Option<StationRows>, Fault>
    ensures extends { IfOk result (λ _. Extends book.old book.new) }
    ensures goes { (s : Station) → Stands (book_means book.old) station s →
        IfOk result (λ next. GoesOr (book_means book.new) next (IsUnder s)) }
{
    match first_kid(alloc, book, station, Op::Lam)? {
        Some(domain) => {
            let next = under_variable(alloc, book, station, domain)?;
            Ok(Some(next))
        }
        None => match first_kid(alloc, book, station, Op::PLam)? {
            Some(_) => {
                let next = under_name(alloc, book, station)?;
                Ok(Some(next))
            }
            None => Ok(None),
        },
    }
}

/// The half of a pair at a place, or of another tree.
fn half(alloc: Global, book: &mut Book, tree: u64, place: u8, by: Op) -> Result<u64, Fault>
    ensures extends { IfOk result (λ _. Extends book.old book.new) }
    ensures means { (t : Tree) → book_means book.old tree ≡ Some (ATree t) → kids_of by ≡ 1 →
        IfOk result (λ row. RowOf (book_means book.new) row
        (IsKidOr op.Pair place t (Make by (More t NoTrees)))) }
{
    match kid_of(alloc, book, tree, Op::Pair, place)? {
        Some(half) => Ok(half),
        None => Ok(try_make(book, by, &[tree])?),
    }
}

/// The halves of two trees of which one is a pair.
pub(crate) fn halves(
    alloc: Global,
    book: &mut Book,
    station: StationRows,
    place: u8,
    by: Op,
) -> Result<Option<StationRows>, Fault>
    ensures extends { IfOk result (λ _. Extends book.old book.new) }
    ensures goes { (s : Station) → Stands (book_means book.old) station s → kids_of by ≡ 1 →
        IfOk result (λ next. GoesOr (book_means book.new) next (IsHalf place by s)) }
{
    match first_kid(alloc, book, station, Op::Pair)? {
        Some(_) => {
            let left = half(alloc, book, station.left, place, by)?;
            let right = half(alloc, book, station.right, place, by)?;
            let sort = Sort::Term;
            Ok(Some(StationRows {
                ctx: station.ctx,
                left,
                right,
                sort,
            }))
        }
        None => Ok(None),
    }
}
