//! Steps of normal forms.

use crate::composing::{after_comp, enter_comp};
use crate::functions::{after_function, enter_function};
use crate::gluing::{after_glue, enter_glue};
use crate::kids::ready;
use crate::pairs::{after_pair, enter_pair};
use crate::paths::{after_path, enter_path};
use crate::recursion::{after_number, enter_number};
use crate::state::{Focus, Frame, NormalState};
use crate::systems::{Around, after_side};
use crate::types::{after_type, enter_small, is_literal, small_type};
use book::Book;
use evaluate::located;
use std::alloc::Global;
use tested_steps::{Fault, claim_of, rule_of};
use theory::{Claim, RuleName};
use values::{Goal, Part, Question, Reply, Susp, Way, begin, follow};

/// What a step came to.
#[derive(Drop)]
pub enum NormalStep {
    Moved(NormalState),
    /// The state waits for the reply to a question.
    Asks(Question, NormalState),
    Done(Reply),
}

/// A head, at the node that made it. A type of the universe that was found as its term is that
/// type.
fn opened(alloc: Global, book: &mut Book, goal: Goal) -> Result<Goal, Fault> {
    let mut goal = located(alloc, book, goal)?;
    if let Claim::TyEq(..) = claim_of(book, goal.way.equal)? {
        if let Claim::Tm(..) = claim_of(book, goal.susp.typing)? {
            goal.susp.typing = small_type(book, goal.susp.typing)?;
        }
    }
    Ok(goal)
}

/// Goes on from a head to its first kid.
fn walk(alloc: Global, book: &mut Book, around: &mut Around, goal: Goal) -> Result<Focus, Fault> {
    let goal = opened(alloc, book, goal)?;
    match rule_of(book, goal.susp.typing)? {
        RuleName::Pi(rule) => enter_function(book, around, goal, rule),
        RuleName::Sigma(rule) => enter_pair(book, around, goal, rule),
        RuleName::Naturals(rule) => enter_number(alloc, book, around, goal, rule),
        RuleName::Paths(rule) => enter_path(book, around, goal, rule),
        RuleName::Universe(rule) => enter_small(book, around, goal, rule),
        RuleName::Gluing(rule) => enter_glue(alloc, book, around, goal, rule),
        RuleName::Composition(rule) => enter_comp(book, around, goal, rule),
        _ => ready(book, goal),
    }
}

/// A head one of whose kids is in normal form: its next kid, or its normal form.
fn after(
    alloc: Global,
    book: &mut Book,
    around: &mut Around,
    frame: Frame,
    part: Part,
) -> Result<Focus, Fault> {
    match frame {
        Frame::Function(frame) => after_function(alloc, book, around, frame, part),
        Frame::Pair(frame) => after_pair(alloc, book, around, frame, part),
        Frame::Number(frame) => after_number(alloc, book, around, frame, part),
        Frame::Path(frame) => after_path(alloc, book, around, frame, part),
        Frame::Type(frame) => after_type(book, around, frame, part),
        Frame::Glue(frame) => after_glue(alloc, book, around, frame, part),
        Frame::Comp(frame) => after_comp(alloc, book, around, frame, part),
        Frame::Side(sides) => after_side(alloc, book, around, sides, part),
    }
}

/// The state that asks for the head of a term or of a type, with the way there.
fn asking(susp: Susp, way: Option<Way>, around: Around) -> NormalStep {
    let focus = Focus::Waits(way);
    NormalStep::Asks(Question::HeadOf(susp), NormalState { focus, around })
}

/// Whether a suspension is a type that no rule rewrites.
fn is_head(book: &Book, susp: Susp) -> Result<bool, Fault> {
    match claim_of(book, susp.typing)? {
        Claim::Ty(..) => is_literal(book, susp.typing),
        _ => Ok(false),
    }
}

/// One step.
///
/// # Errors
/// `Memory`; `Unfit` where a rule does not fit what it was used at; `Misfit` where a node is not of
/// the form that a step takes, or where the state waits for a reply.
pub fn step_normal(
    alloc: Global,
    book: &mut Book,
    state: NormalState,
) -> Result<NormalStep, Fault> {
    let NormalState { focus, mut around } = state;
    let focus = match focus {
        Focus::Fresh(susp) => {
            if !is_head(book, susp)? {
                return Ok(asking(susp, None, around));
            }
            Focus::Walk(begin(book, susp)?)
        }
        Focus::Seek(goal) => {
            if !is_head(book, goal.susp)? {
                return Ok(asking(goal.susp, Some(goal.way), around));
            }
            Focus::Walk(goal)
        }
        Focus::Waits(_) => return Err(Fault::Misfit),
        Focus::Headed(way, head) => {
            let way = follow(book, way, head.way)?;
            Focus::Walk(Goal { way, ..head })
        }
        Focus::Walk(goal) => walk(alloc, book, &mut around, goal)?,
        Focus::Ready(part) => match around.frames.pop() {
            None => return Ok(NormalStep::Done(Reply::Normal(part))),
            Some(frame) => after(alloc, book, &mut around, frame, part)?,
        },
    };
    Ok(NormalStep::Moved(NormalState { focus, around }))
}
