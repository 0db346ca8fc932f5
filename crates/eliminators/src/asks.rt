//! What frames ask.

use crate::frames::{Pending, Settled, Waiting};
use crate::functions::type_at;
use book::{Book, NodeId};
use std::alloc::Global;
use tested_steps::{Fault, type_of};
use values::{Goal, Question, aligned};

/// Whether a type is that of what a frame was asked for.
pub fn ask_type(
    alloc: Global,
    book: &mut Book,
    pending: Pending,
    left: NodeId,
) -> Result<Settled, Fault> {
    let goal = pending.frame.goal;
    let question = Question::Convert {
        ctx: goal.susp.ctx,
        left,
        right: type_at(alloc, book, goal.susp.sub, goal.susp.typing)?,
    };
    Ok(Settled::Asks(question, Waiting::Equation(pending)))
}

/// Where the type of a head and the one that it was asked at differ, which are equal, but of which
/// parts were found to differ.
pub fn ask_alignment(alloc: Global, book: &mut Book, head: Goal) -> Result<Settled, Fault> {
    let Some(types) = head.way.fits else {
        return Err(Fault::Misfit);
    };
    let asked = aligned(book, head)?;
    let question = Question::Convert {
        ctx: head.susp.ctx,
        left: type_at(alloc, book, head.susp.sub, head.susp.typing)?,
        right: type_of(alloc, book, asked)?,
    };
    Ok(Settled::Asks(question, Waiting::Alignment(types)))
}
