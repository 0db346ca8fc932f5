//! Steps of the evaluator.

use crate::absurd::at_nothing;
use crate::look::look;
use crate::open::{Opened, open, peeled};
use crate::state::{Focus, HeadState};
use crate::true_faces::at_face;
use book::{Book, NodeId};
use compositions::{ask_line, settle_line, settle_number, settle_side};
use eliminators::{
    Eliminator, Frame, Pending, Settled, Waiting, ask_alignment, resume_app, resume_first,
    resume_path, resume_second, resume_unglue, settle_app, settle_first, settle_natrec,
    settle_path, settle_second, settle_small, settle_unglue,
};
use std::alloc::Global;
use tested_steps::Fault;
use values::{Goal, Question, Reply, Susp, begin};

/// What a step came to.
#[derive(Drop)]
pub enum HeadStep {
    Moved(HeadState),
    Asks(Question, HeadState),
    Done(Reply),
}

/// What a term whose head is sought leads to.
enum Sought {
    Moved(Focus),
    Asks(Question, Waiting),
}

/// Looks at a term whose head is sought.
fn seek(
    alloc: Global,
    book: &mut Book,
    frames: &mut Vec<Frame>,
    goal: Goal,
) -> Result<Sought, Fault> {
    let goal = peeled(book, goal)?;
    if let Some(fired) = at_face(alloc, book, goal)? {
        return Ok(Sought::Moved(Focus::Seek(fired)));
    }
    if let Some(settled) = at_nothing(book, goal, frames.last().copied())? {
        return Ok(Sought::Moved(Focus::Found(settled)));
    }
    match open(book, goal.susp.typing)? {
        Opened::Head => Ok(Sought::Moved(Focus::Found(goal))),
        Opened::Variable => match look(alloc, book, goal.susp)? {
            Some(susp) => Ok(Sought::Moved(Focus::Seek(Goal { susp, ..goal }))),
            None => Ok(Sought::Moved(Focus::Found(goal))),
        },
        Opened::Eliminates(form, kid) => {
            let susp = Susp {
                typing: kid,
                ..goal.susp
            };
            let main = begin(book, susp)?;
            frames.push(Frame { form, goal })?;
            Ok(Sought::Moved(Focus::Seek(main)))
        }
        Opened::Composes => {
            let question = ask_line(book, goal)?;
            Ok(Sought::Asks(question, Waiting::Line(goal)))
        }
    }
}

/// A frame whose main part was found.
fn settle(alloc: Global, book: &mut Book, frame: Frame, head: Goal) -> Result<Settled, Fault> {
    match frame.form {
        Eliminator::App => settle_app(alloc, book, frame, head),
        Eliminator::NatRec => settle_natrec(alloc, book, frame, head),
        Eliminator::First => settle_first(alloc, book, frame, head),
        Eliminator::Second => settle_second(alloc, book, frame, head),
        Eliminator::Small => settle_small(book, frame.goal, head),
        Eliminator::PathApp => settle_path(alloc, book, frame, head),
        Eliminator::Unglue => settle_unglue(alloc, book, frame, head),
        Eliminator::CompNat => settle_number(alloc, book, frame.goal, head),
    }
}

/// A frame that has the reply to what it asked.
fn resume(
    alloc: Global,
    book: &mut Book,
    pending: Pending,
    equation: NodeId,
) -> Result<Settled, Fault> {
    match pending.frame.form {
        Eliminator::App => resume_app(alloc, book, pending, equation),
        Eliminator::First => resume_first(alloc, book, pending, equation),
        Eliminator::Second => resume_second(alloc, book, pending, equation),
        Eliminator::PathApp => resume_path(alloc, book, pending, equation),
        Eliminator::Unglue => resume_unglue(book, pending, equation),
        Eliminator::NatRec | Eliminator::Small | Eliminator::CompNat => Err(Fault::Misfit),
    }
}

/// The state after a frame.
fn after(settled: Settled, mut frames: Vec<Frame>) -> Result<HeadStep, Fault> {
    Ok(match settled {
        Settled::Pushed(frame, main) => {
            frames.push(frame)?;
            let focus = Focus::Seek(main);
            HeadStep::Moved(HeadState { focus, frames })
        }
        Settled::Closed(head) => {
            let focus = Focus::Found(head);
            HeadStep::Moved(HeadState { focus, frames })
        }
        Settled::Fired(goal) => {
            let focus = Focus::Seek(goal);
            HeadStep::Moved(HeadState { focus, frames })
        }
        Settled::Asks(question, waiting) => {
            let focus = Focus::Waits(waiting);
            HeadStep::Asks(question, HeadState { focus, frames })
        }
    })
}

/// One step.
///
/// # Errors
/// `Memory`; and `Misfit` where a rule does not fit what it was used at, or where the state waits
/// for a reply.
pub fn step_head(alloc: Global, book: &mut Book, state: HeadState) -> Result<HeadStep, Fault> {
    let HeadState { focus, mut frames } = state;
    match focus {
        Focus::Fresh(susp) => {
            let focus = Focus::Seek(begin(book, susp)?);
            Ok(HeadStep::Moved(HeadState { focus, frames }))
        }
        Focus::Seek(goal) => match seek(alloc, book, &mut frames, goal)? {
            Sought::Moved(focus) => Ok(HeadStep::Moved(HeadState { focus, frames })),
            Sought::Asks(question, waiting) => {
                let focus = Focus::Waits(waiting);
                Ok(HeadStep::Asks(question, HeadState { focus, frames }))
            }
        },
        Focus::Sided(sides, side) => after(settle_side(alloc, book, sides, side)?, frames),
        Focus::Lined(goal, line) => after(settle_line(book, goal, line)?, frames),
        Focus::Found(head) => match frames.pop() {
            None => Ok(HeadStep::Done(Reply::Head(head))),
            Some(frame) => after(settle(alloc, book, frame, head)?, frames),
        },
        Focus::Waits(_) => Err(Fault::Misfit),
        Focus::Replied(pending, equation) => {
            after(resume(alloc, book, pending, equation)?, frames)
        }
        Focus::Apart(pending) => after(ask_alignment(alloc, book, pending.head)?, frames),
        Focus::Unaligned(unaligned) => Ok(HeadStep::Done(Reply::Unaligned(unaligned))),
    }
}
