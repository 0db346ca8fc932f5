//! Functions and applications: from kid to kid.

use crate::kids::{enter_kid, enter_main, made_by, ready, settled};
use crate::state::{Focus, Frame};
use crate::systems::Around;
use crate::types::enter_former;
use book::Book;
use normal_closings::{Body, Within, closed_application, closed_lambda, enter};
use std::alloc::Global;
use tested_steps::{Fault, premise_of};
use theory::{PiRule, RuleName};
use values::{Goal, Part};

/// A function or an application whose kid is sought.
#[derive(Clone, Copy, Debug)]
pub enum FunctionFrame {
    /// The function of an application.
    Function(Goal),
    /// Its argument, of the function.
    Argument(Goal, Part),
    /// The domain of a function.
    Domain(Goal),
    /// Its body, of the domain.
    Body(Goal, Part, Within),
}

/// Goes on from a function, an application or a type of functions.
pub(crate) fn enter_function(
    book: &mut Book,
    around: &mut Around,
    goal: Goal,
    rule: PiRule,
) -> Result<Focus, Fault> {
    match rule {
        PiRule::Lam => {
            let frame = Frame::Function(FunctionFrame::Domain(goal));
            enter_kid(book, around, goal, frame, 0)
        }
        PiRule::App => {
            let frame = Frame::Function(FunctionFrame::Function(goal));
            enter_main(book, around, goal, frame, 0)
        }
        PiRule::PiTy | PiRule::PiU => enter_former(book, around, goal),
        _ => ready(book, goal),
    }
}

/// Goes on from a kid of a function or an application that is in normal form.
pub(crate) fn after_function(
    alloc: Global,
    book: &mut Book,
    around: &mut Around,
    frame: FunctionFrame,
    part: Part,
) -> Result<Focus, Fault> {
    match frame {
        FunctionFrame::Function(goal) => {
            let frame = Frame::Function(FunctionFrame::Argument(goal, part));
            enter_kid(book, around, goal, frame, 1)
        }
        FunctionFrame::Argument(goal, function) => {
            let rule = made_by(alloc, book, goal.susp.ctx, function)?;
            let goal = closed_application(alloc, book, goal, function, part)?;
            settled(book, goal, rule == RuleName::Pi(PiRule::Lam))
        }
        FunctionFrame::Domain(goal) => {
            let domain = premise_of(book, goal.susp.typing, 0)?;
            let within = enter(book, goal.susp.sub, domain)?;
            let frame = FunctionFrame::Body(goal, part, within);
            around.frames.push(Frame::Function(frame))?;
            let body = premise_of(book, goal.susp.typing, 1)?;
            Ok(Focus::Fresh(within.susp(body)))
        }
        FunctionFrame::Body(goal, domain, within) => {
            let goal = closed_lambda(alloc, book, goal, domain, Body { part, within })?;
            ready(book, goal)
        }
    }
}
