//! Where two normal trees part.

ghost use Rattle.std.specs.Prelude.{◌≡◌, ◌↔◌, IfOk, IsTrue, Some};
ghost use Rattle.trees.specs.Trees.{Tree};
ghost use Rattle.trees.specs.Judgements.{Context};
ghost use Rattle.trees.specs.Things.{ATree, AContext};
ghost use Rattle.conditions.specs.Sides.{SameIn};
ghost use Rattle.book.specs.Shown.{book_means, Extends};
ghost use Rattle.trails.specs.Stations.{Station};
ghost use Rattle.trails.specs.Trails.{form_of, Differ, Follows, SameFaces, Parted};
ghost use Rattle.trails.specs.Rows.{Stands};

use crate::open::{Opened, open_tree};
use crate::part::is_made;
use crate::station::{Sort, StationRows};
use book::Book;
use rows::{CtxId, TermId};
use std::alloc::Global;
use tested_steps::{Fault, try_with_face};
use theory::{Op, PartKind};

/// The outermost form of a tree.
#[derive(Clone, Copy, Debug, PartialEq, Eq)]
enum Form {
    Variable(u64),
    Operator(Op),
}

/// The outermost form of a tree, if no eta rule takes it apart.
fn form_of(alloc: Global, book: &mut Book, tree: u64) -> Result<Option<Form>, Fault>
    ensures extends { IfOk result (λ _. Extends book.old book.new) }
    ensures form { (t : Tree) → book_means book.old tree ≡ Some (ATree t) →
        IfOk result (λ found. found ≡ form_of t) }
{
    match open_tree(alloc, book, tree)? {
        Opened::Variable(index) => Ok(Some(Form::Variable(index))),
        Opened::Operator(op, _) => {
            if is_made(op) {
                Ok(None)
            } else {
                Ok(Some(Form::Operator(op)))
            }
        }
    }
}

/// Whether two terms have different outermost forms, of which no eta rule takes one apart.
fn differ(alloc: Global, book: &mut Book, left: u64, right: u64) -> Result<bool, Fault>
    ensures extends { IfOk result (λ _. Extends book.old book.new) }
    ensures differ { (t u : Tree) → book_means book.old left ≡ Some (ATree t) →
        book_means book.old right ≡ Some (ATree u) →
        IfOk result (λ differ. IsTrue differ ↔ Differ t u) }
{
    let Some(left) = form_of(alloc, book, left)? else {
        return Ok(false);
    };
    let Some(right) = form_of(alloc, book, right)? else {
        return Ok(false);
    };
    Ok(left != right)
}

/// Whether a face is true wherever another is.
fn follows(book: &mut Book, ctx: u64, face: u64, other: u64) -> Result<bool, Fault>
    ensures extends { IfOk result (λ _. Extends book.old book.new) }
    ensures follows { (G : Context) (p q : Tree) → book_means book.old ctx ≡ Some (AContext G) →
        book_means book.old face ≡ Some (ATree p) → book_means book.old other ≡ Some (ATree q) →
        IfOk result (λ follows. IsTrue follows ↔ Follows G p q) }
{
    let there = try_with_face(book, ctx, face)?;
    if !book.is_of_kind(there, PartKind::Context) || !book.is_of_kind(other, PartKind::Term) {
        return Err(Fault::Misfit);
    }
    Ok(book.holds(CtxId(there), TermId(other))?)
}

/// Whether two faces are true at the same points.
pub(crate) fn same_faces(book: &mut Book, ctx: u64, left: u64, right: u64) -> Result<bool, Fault>
    ensures extends { IfOk result (λ _. Extends book.old book.new) }
    ensures same { (G : Context) (p q : Tree) → book_means book.old ctx ≡ Some (AContext G) →
        book_means book.old left ≡ Some (ATree p) → book_means book.old right ≡ Some (ATree q) →
        IfOk result (λ same. IsTrue same ↔ SameFaces G p q) }
{
    let there = follows(book, ctx, left, right)?;
    let back = follows(book, ctx, right, left)?;
    Ok(there && back)
}

/// Whether two formulas have one value wherever the faces of the context are true.
fn are_same(book: &Book, ctx: u64, left: u64, right: u64) -> Result<bool, Fault>
    ensures { (G : Context) (r s : Tree) → book_means book.now ctx ≡ Some (AContext G) →
        book_means book.now left ≡ Some (ATree r) → book_means book.now right ≡ Some (ATree s) →
        IfOk result (λ same. IsTrue same ↔ SameIn G r s) }
{
    let are_trees = book.is_of_kind(left, PartKind::Term) && book.is_of_kind(right, PartKind::Term);
    if !are_trees || !book.is_of_kind(ctx, PartKind::Context) {
        return Err(Fault::Misfit);
    }
    Ok(book.same_form(CtxId(ctx), TermId(left), TermId(right))?)
}

/// Whether two trees show that they differ: two variables, two outermost forms, two formulas that
/// are not the same, or two faces that are not true at the same points.
pub(crate) fn part(alloc: Global, book: &mut Book, station: StationRows) -> Result<bool, Fault>
    ensures extends { IfOk result (λ _. Extends book.old book.new) }
    ensures parted { (s : Station) → Stands (book_means book.old) station s →
        IfOk result (λ parted. IsTrue parted ↔ Parted s) }
{
    let StationRows {
        ctx,
        left,
        right,
        sort,
    } = station;
    match sort {
        Sort::Term => Ok(differ(alloc, book, left, right)?),
        Sort::Formula => {
            let same = are_same(book, ctx, left, right)?;
            Ok(!same)
        }
        Sort::Face => {
            let same = same_faces(book, ctx, left, right)?;
            Ok(!same)
        }
        Sort::Glued | Sort::Rough => Ok(false),
    }
}
