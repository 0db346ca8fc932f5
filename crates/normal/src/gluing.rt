//! Glued types, their elements, and these unglued: from kid to kid.

use crate::kids::{enter_kid, enter_main, made_by, ready, settled};
use crate::state::{Focus, Frame};
use crate::systems::{Around, enter_sides};
use book::Book;
use normal_closings::{closed_glue, closed_glue_type, closed_unglue, faced};
use settled_sides::{Faced, Reach};
use std::alloc::Global;
use tested_steps::Fault;
use theory::{GlueRule, RuleName};
use values::{Goal, Part};

/// A glued type, an element of one, or such an element unglued, whose kid is sought.
#[derive(Clone, Copy, Debug)]
pub enum GlueFrame {
    /// The base of a glued type, which may be a term of the universe.
    Base(Goal),
    /// The type on its face, of the base.
    Type(Goal, Part),
    /// The equivalence on its face, of the base and the type.
    Map(Goal, Part, Part),
    /// What an element is on the face.
    Element(Goal),
    /// What it is in the base, of what it is on the face.
    Image(Goal, Part),
    /// The type on the face of what is unglued.
    UnglueType(Goal),
    /// The equivalence there, of the type.
    UnglueMap(Goal, Part),
    /// What is unglued, of the type and the equivalence.
    Unglued(Goal, Part, Part),
}

/// Goes on from a form to what stands under its face.
fn enter_face(
    alloc: Global,
    book: &mut Book,
    around: &mut Around,
    frame: GlueFrame,
    faced: Faced,
) -> Result<Focus, Fault> {
    around.frames.push(Frame::Glue(frame))?;
    enter_sides(alloc, book, around, faced)
}

/// Goes on from a glued type, an element of one, or such an element unglued.
pub(crate) fn enter_glue(
    alloc: Global,
    book: &mut Book,
    around: &mut Around,
    goal: Goal,
    rule: GlueRule,
) -> Result<Focus, Fault> {
    match rule {
        GlueRule::GlueTy | GlueRule::GlueU => {
            let frame = Frame::Glue(GlueFrame::Base(goal));
            enter_kid(book, around, goal, frame, 0)
        }
        GlueRule::Glue => {
            let faced = faced(book, goal, 3, Reach::Face)?;
            enter_face(alloc, book, around, GlueFrame::Element(goal), faced)
        }
        GlueRule::Unglue => {
            let faced = faced(book, goal, 1, Reach::Face)?;
            enter_face(alloc, book, around, GlueFrame::UnglueType(goal), faced)
        }
        _ => ready(book, goal),
    }
}

/// Goes on from a kid of such a form that is in normal form.
pub(crate) fn after_glue(
    alloc: Global,
    book: &mut Book,
    around: &mut Around,
    frame: GlueFrame,
    part: Part,
) -> Result<Focus, Fault> {
    match frame {
        GlueFrame::Base(goal) => {
            let faced = faced(book, goal, 1, Reach::Face)?;
            enter_face(alloc, book, around, GlueFrame::Type(goal, part), faced)
        }
        GlueFrame::Type(goal, base) => {
            let faced = faced(book, goal, 2, Reach::Face)?;
            enter_face(alloc, book, around, GlueFrame::Map(goal, base, part), faced)
        }
        GlueFrame::Map(goal, base, ty) => {
            let goal = closed_glue_type(alloc, book, goal, [base, ty, part])?;
            ready(book, goal)
        }
        GlueFrame::Element(goal) => {
            let frame = Frame::Glue(GlueFrame::Image(goal, part));
            enter_kid(book, around, goal, frame, 4)
        }
        GlueFrame::Image(goal, element) => {
            let goal = closed_glue(alloc, book, goal, element, part)?;
            ready(book, goal)
        }
        GlueFrame::UnglueType(goal) => {
            let faced = faced(book, goal, 2, Reach::Face)?;
            enter_face(alloc, book, around, GlueFrame::UnglueMap(goal, part), faced)
        }
        GlueFrame::UnglueMap(goal, ty) => {
            let frame = Frame::Glue(GlueFrame::Unglued(goal, ty, part));
            enter_main(book, around, goal, frame, 3)
        }
        GlueFrame::Unglued(goal, ty, map) => {
            let rule = made_by(alloc, book, goal.susp.ctx, part)?;
            let goal = closed_unglue(alloc, book, goal, [ty, map, part])?;
            settled(book, goal, rule == RuleName::Gluing(GlueRule::Glue))
        }
    }
}
