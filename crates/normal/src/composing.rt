//! Compositions: from kid to kid.

use crate::kids::{enter_kid, ready};
use crate::state::{Focus, Frame};
use crate::systems::{Around, enter_sides};
use book::Book;
use normal_closings::{closed_comp, enter_name, faced};
use settled_sides::Reach;
use std::alloc::Global;
use tested_steps::{Fault, premise_of};
use theory::CompRule;
use values::{Goal, Part};

/// A composition whose kid is sought.
#[derive(Clone, Copy, Debug)]
pub enum CompFrame {
    /// Its line.
    Line(Goal),
    /// Its sides, of the line.
    Sides(Goal, Part),
    /// Its base, of the line and the sides.
    Base(Goal, Part, Part),
}

/// Goes on from a composition.
pub(crate) fn enter_comp(
    book: &mut Book,
    around: &mut Around,
    goal: Goal,
    rule: CompRule,
) -> Result<Focus, Fault> {
    match rule {
        CompRule::Comp => {
            let within = enter_name(book, goal.susp.ctx, goal.susp.sub)?;
            around.frames.push(Frame::Comp(CompFrame::Line(goal)))?;
            let line = premise_of(book, goal.susp.typing, 0)?;
            Ok(Focus::Fresh(within.susp(line)))
        }
        _ => ready(book, goal),
    }
}

/// Goes on from a kid of a composition that is in normal form.
pub(crate) fn after_comp(
    alloc: Global,
    book: &mut Book,
    around: &mut Around,
    frame: CompFrame,
    part: Part,
) -> Result<Focus, Fault> {
    match frame {
        CompFrame::Line(goal) => {
            let faced = faced(book, goal, 1, Reach::Line)?;
            let frame = CompFrame::Sides(goal, part);
            around.frames.push(Frame::Comp(frame))?;
            enter_sides(alloc, book, around, faced)
        }
        CompFrame::Sides(goal, line) => {
            let frame = Frame::Comp(CompFrame::Base(goal, line, part));
            enter_kid(book, around, goal, frame, 2)
        }
        CompFrame::Base(goal, line, sides) => {
            let goal = closed_comp(alloc, book, goal, [line, sides, part])?;
            ready(book, goal)
        }
    }
}
