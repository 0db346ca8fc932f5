//! The reply that two sides differ.

use crate::state::Sides;
use book::{Book, NodeId};
use std::alloc::Global;
use tested_steps::{Fault, claim_of};
use theory::Claim;
use trails::{Link, Step, is_trail};
use values::{Reply, Trail};

/// The right side of an equation.
fn normal_tree(book: &Book, equation: NodeId) -> Result<u64, Fault> {
    match claim_of(book, equation)? {
        Claim::TyEq(_, _, right) | Claim::TmEq(_, _, right, _) => Ok(right),
        _ => Err(Fault::Misfit),
    }
}

/// Whether links lead from two normal forms to two trees that show that they differ.
pub(crate) fn is_parted(
    alloc: Global,
    book: &mut Book,
    ctx: NodeId,
    sides: Sides,
    links: &[Link],
) -> Result<bool, Fault> {
    let Claim::Ctx(ctx) = claim_of(book, ctx)? else {
        return Err(Fault::Misfit);
    };
    let left = normal_tree(book, sides.left.equal)?;
    let right = normal_tree(book, sides.right.equal)?;
    is_trail(alloc, book, ctx, [left, right], links)
}

/// A step as replies name it: a side as the kid that it is of. None at an element of a glued type,
/// where no step has a name.
fn told(step: Step) -> Option<values::Step> {
    match step {
        Step::Into(place) | Step::Side(place, _) => Some(values::Step::Into(place)),
        Step::Under => Some(values::Step::Under),
        Step::First => Some(values::Step::First),
        Step::Second => Some(values::Step::Second),
        Step::Base(_) | Step::Face(_) => None,
    }
}

/// The reply that the sides differ, with the steps towards where they do, as far as they have
/// names.
pub(crate) fn differ(alloc: Global, sides: Sides, links: &[Link]) -> Result<Reply, Fault> {
    let mut steps = Vec::new(alloc);
    for link in links {
        let Link::Step(step) = *link else {
            break;
        };
        match told(step) {
            Some(step) => steps.push(step)?,
            None => break,
        }
    }
    Ok(Reply::Differ(Trail {
        left: sides.left.equal,
        right: sides.right.equal,
        steps,
    }))
}
