//! Kids of heads, and goals whose kids are in normal form.

use crate::state::{Focus, Frame};
use crate::systems::Around;
use book::{Book, NodeId};
use evaluate::located;
use std::alloc::Global;
use tested_steps::{Fault, premise_of, rule_of};
use theory::RuleName;
use values::{Goal, Part, Susp, begin, finished, suspend};

/// A kid of the term or the type of a goal, by its place among the premises.
pub(crate) fn kid(book: &Book, goal: Goal, at: usize) -> Result<Susp, Fault> {
    let typing = premise_of(book, goal.susp.typing, at)?;
    Ok(Susp {
        typing,
        ..goal.susp
    })
}

/// Goes on from a head to the kid at a place.
pub(crate) fn enter_kid(
    book: &Book,
    around: &mut Around,
    goal: Goal,
    frame: Frame,
    at: usize,
) -> Result<Focus, Fault> {
    around.frames.push(frame)?;
    Ok(Focus::Fresh(kid(book, goal, at)?))
}

/// Goes on from an eliminator to its main part, which is a head.
pub(crate) fn enter_main(
    book: &mut Book,
    around: &mut Around,
    goal: Goal,
    frame: Frame,
    at: usize,
) -> Result<Focus, Fault> {
    let main = kid(book, goal, at)?;
    around.frames.push(frame)?;
    Ok(Focus::Walk(begin(book, main)?))
}

/// A goal that is in normal form.
pub(crate) fn ready(book: &mut Book, goal: Goal) -> Result<Focus, Fault> {
    Ok(Focus::Ready(finished(book, goal)?))
}

/// A goal whose kids are in normal form: a rule may rewrite it by its main part.
pub(crate) fn settled(book: &mut Book, goal: Goal, fires: bool) -> Result<Focus, Fault> {
    if fires {
        return Ok(Focus::Seek(goal));
    }
    ready(book, goal)
}

/// The rule of the node that made a term.
pub(crate) fn made_by(
    alloc: Global,
    book: &mut Book,
    ctx: NodeId,
    part: Part,
) -> Result<RuleName, Fault> {
    let susp = suspend(book, ctx, part.typing)?;
    let goal = begin(book, susp)?;
    let goal = located(alloc, book, goal)?;
    rule_of(book, goal.susp.typing)
}
