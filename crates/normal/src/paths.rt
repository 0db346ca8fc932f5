//! Paths, paths at formulas and types of paths: from kid to kid.

use crate::kids::{enter_kid, enter_main, made_by, ready, settled};
use crate::state::{Focus, Frame};
use crate::systems::Around;
use book::Book;
use normal_closings::{closed_path, closed_path_at, closed_path_type, enter_name};
use std::alloc::Global;
use tested_steps::{Fault, premise_of};
use theory::{PathRule, RuleName};
use values::{Goal, Part};

/// A path, a path at a formula or a type of paths whose kid is sought.
#[derive(Clone, Copy, Debug)]
pub enum PathFrame {
    /// The body of a path.
    Body(Goal),
    /// The path that is at a formula.
    At(Goal),
    /// The line of a type of paths, which may be a term of the universe.
    Line(Goal),
    /// Its left end, of the line.
    Left(Goal, Part),
    /// Its right end, of the line and the left end.
    Right(Goal, Part, Part),
}

/// Goes on from a path, a path at a formula or a type of paths.
pub(crate) fn enter_path(
    book: &mut Book,
    around: &mut Around,
    goal: Goal,
    rule: PathRule,
) -> Result<Focus, Fault> {
    let frame = match rule {
        PathRule::PApp => {
            let frame = Frame::Path(PathFrame::At(goal));
            return enter_main(book, around, goal, frame, 0);
        }
        PathRule::PLam => PathFrame::Body(goal),
        PathRule::PathTy | PathRule::PathU => PathFrame::Line(goal),
        _ => return ready(book, goal),
    };
    let within = enter_name(book, goal.susp.ctx, goal.susp.sub)?;
    around.frames.push(Frame::Path(frame))?;
    let kid = premise_of(book, goal.susp.typing, 0)?;
    Ok(Focus::Fresh(within.susp(kid)))
}

/// Goes on from a kid of a path, of a path at a formula or of a type of paths that is in normal
/// form.
pub(crate) fn after_path(
    alloc: Global,
    book: &mut Book,
    around: &mut Around,
    frame: PathFrame,
    part: Part,
) -> Result<Focus, Fault> {
    match frame {
        PathFrame::Body(goal) => {
            let goal = closed_path(book, goal, part)?;
            ready(book, goal)
        }
        PathFrame::At(goal) => {
            let rule = made_by(alloc, book, goal.susp.ctx, part)?;
            let goal = closed_path_at(alloc, book, goal, part)?;
            settled(book, goal, rule == RuleName::Paths(PathRule::PLam))
        }
        PathFrame::Line(goal) => {
            let frame = Frame::Path(PathFrame::Left(goal, part));
            enter_kid(book, around, goal, frame, 1)
        }
        PathFrame::Left(goal, line) => {
            let frame = Frame::Path(PathFrame::Right(goal, line, part));
            enter_kid(book, around, goal, frame, 2)
        }
        PathFrame::Right(goal, line, left) => {
            let goal = closed_path_type(book, goal, [line, left, part])?;
            ready(book, goal)
        }
    }
}
