//! Trails, followed step by step.

ghost use Rattle.std.specs.Prelude.{◌↔◌, IfOk, IsTrue, Some};
ghost use Rattle.book.specs.Shown.{book_means, book_concludes, Extends};
ghost use Rattle.trails.specs.Stations.{Station};
ghost use Rattle.trails.specs.Trails.{Conclusions, IsStep, Leads, IsTrail};
ghost use Rattle.trails.specs.Rows.{Stands, GoesOr, Widens, Begins};

use crate::ends::part;
use crate::entered::{into, sides};
use crate::eta::{halves, under};
use crate::glued::{as_glued, bases, normal, on_face};
use crate::station::{Sort, StationRows};
use crate::steps::{Link, Step};
use book::Book;
use std::alloc::Global;
use tested_steps::Fault;
use theory::{Op, PartKind};

/// A step from two terms.
fn stepped(
    alloc: Global,
    book: &mut Book,
    station: StationRows,
    step: Step,
) -> Result<Option<StationRows>, Fault>
    ensures extends { IfOk result (λ _. Extends book.old book.new) }
    ensures goes { (s : Station) → Stands (book_means book.old) station s →
        IfOk result (λ next. GoesOr (book_means book.new) next (IsStep step s)) }
{
    match step {
        Step::Into(place) => Ok(into(alloc, book, station, place)?),
        Step::Side(place, number) => Ok(sides(alloc, book, station, place, number)?),
        Step::Under => Ok(under(alloc, book, station)?),
        Step::First => Ok(halves(alloc, book, station, 0, Op::Fst)?),
        Step::Second => Ok(halves(alloc, book, station, 1, Op::Snd)?),
        Step::Base(_) => Ok(as_glued(alloc, book, station)?),
        Step::Face(number) => Ok(on_face(alloc, book, station, number)?),
    }
}

/// The next station of a trail.
fn linked(
    alloc: Global,
    book: &mut Book,
    station: StationRows,
    link: Link,
) -> Result<Option<StationRows>, Fault>
    ensures extends { IfOk result (λ _. Extends book.old book.new) }
    ensures goes { (C : Conclusions) → Widens (book_concludes book.old) C →
        (s : Station) → Stands (book_means book.old) station s →
        IfOk result (λ next. GoesOr (book_means book.new) next (Leads C link s)) }
{
    match link {
        Link::Step(step) => match station.sort {
            Sort::Term => Ok(stepped(alloc, book, station, step)?),
            _ => Ok(None),
        },
        Link::Normal(left, right) => match station.sort {
            Sort::Glued => Ok(bases(alloc, book, station, left, right)?),
            Sort::Rough => Ok(normal(book, station, left, right)?),
            _ => Ok(None),
        },
    }
}

/// The station of two trees of a context, at which a trail begins. All are rows.
fn begun(book: &Book, ctx: u64, trees: [u64; 2]) -> Result<StationRows, Fault>
    ensures { IfOk result (λ rows. (s : Station) ×
        Begins (book_means book.now) ctx trees s × Stands (book_means book.now) rows s) }
{
    let [left, right] = trees;
    if !book.is_of_kind(left, PartKind::Term) || !book.is_of_kind(right, PartKind::Term) {
        return Err(Fault::Misfit);
    }
    if !book.is_of_kind(ctx, PartKind::Context) {
        return Err(Fault::Misfit);
    }
    let sort = Sort::Term;
    Ok(StationRows {
        ctx,
        left,
        right,
        sort,
    })
}

/// Whether links lead from two trees of a context to two that show that they differ, if both are
/// normal: two variables, two outermost forms, two formulas that are not the same, or two faces
/// that are not true at the same points. All are rows.
///
/// # Errors
/// `Memory`; `Misfit` where a row or a node is not there.
pub fn is_trail(
    alloc: Global,
    book: &mut Book,
    ctx: u64,
    trees: [u64; 2],
    links: &[Link],
) -> Result<bool, Fault>
    ensures extends { IfOk result (λ _. Extends book.old book.new) }
    ensures trail { IfOk result (λ found. (s : Station) ×
        Begins (book_means book.old) ctx trees s ×
        (IsTrue found ↔ IsTrail (book_concludes book.new) links.now s)) }
{
    let mut station = begun(book, ctx, trees)?;
    for link in links {
        match linked(alloc, book, station, *link)? {
            Some(next) => station = next,
            None => return Ok(false),
        }
    }
    Ok(part(alloc, book, station)?)
}
