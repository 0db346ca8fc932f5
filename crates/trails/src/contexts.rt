//! Contexts that are alike.

ghost use Rattle.std.specs.Prelude.{◌≡◌, ◌↔◌, IfOk, IsTrue, Some};
ghost use Rattle.trees.specs.Judgements.{Context};
ghost use Rattle.trees.specs.Things.{AContext};
ghost use Rattle.book.specs.Shown.{book_means, Extends};
ghost use Rattle.trails.specs.Trails.{AreAlike};
ghost use Rattle.trails.specs.Rows.{IsCompared};

use crate::ends::same_faces;
use crate::open::are_one;
use book::Book;
use rows::{CtxId, CtxRow, Reader, TermId};
use tested_steps::Fault;
use theory::PartKind;

/// What is left to compare of two contexts.
#[derive(Clone, Copy)]
pub(crate) enum Compared {
    /// Both are empty.
    Empty,
    /// The contexts before two entries that are the same.
    Before(u64, u64),
    Apart,
}

/// Compares the last entries of two contexts.
fn last_entries(book: &mut Book, left: u64, right: u64) -> Result<Compared, Fault>
    ensures extends { IfOk result (λ _. Extends book.old book.new) }
    ensures compared { (G H : Context) → book_means book.old left ≡ Some (AContext G) →
        book_means book.old right ≡ Some (AContext H) →
        IfOk result (λ found. IsCompared (book_means book.new) found G H) }
{
    let is_left = book.is_of_kind(left, PartKind::Context);
    if !is_left || !book.is_of_kind(right, PartKind::Context) {
        return Err(Fault::Misfit);
    }
    match (book.context(CtxId(left)), book.context(CtxId(right))) {
        (CtxRow::Nil, CtxRow::Nil) => Ok(Compared::Empty),
        (CtxRow::Name(CtxId(left)), CtxRow::Name(CtxId(right))) => Ok(Compared::Before(
            left, right,
        )),
        (CtxRow::Var(CtxId(left), TermId(a)), CtxRow::Var(CtxId(right), TermId(b))) => {
            if are_one(book, a, b)? {
                Ok(Compared::Before(left, right))
            } else {
                Ok(Compared::Apart)
            }
        }
        (CtxRow::Face(CtxId(left), TermId(p)), CtxRow::Face(CtxId(right), TermId(q))) => {
            if same_faces(book, left, p, q)? {
                Ok(Compared::Before(left, right))
            } else {
                Ok(Compared::Apart)
            }
        }
        _ => Ok(Compared::Apart),
    }
}

/// Whether two contexts have the same entries, but for faces, which are true at the same points.
pub(crate) fn are_alike(book: &mut Book, left: u64, right: u64) -> Result<bool, Fault>
    ensures extends { IfOk result (λ _. Extends book.old book.new) }
    ensures alike { (G H : Context) → book_means book.old left ≡ Some (AContext G) →
        book_means book.old right ≡ Some (AContext H) →
        IfOk result (λ alike. IsTrue alike ↔ AreAlike G H) }
{
    let mut here = left;
    let mut there = right;
    for turn in 0..u64::MAX {
        match last_entries(book, here, there)? {
            Compared::Empty => return Ok(true),
            Compared::Apart => return Ok(false),
            Compared::Before(left, right) => {
                here = left;
                there = right;
            }
        }
    }
    Err(Fault::Misfit)
}
