//! Applications.

use crate::asks::ask_type;
use crate::frames::{Frame, Known, Pending, Settled, Waiting};
use book::{Book, NodeId};
use head_rules::{APP_STAYS, APP_STAYS_GIVES, FIRE_BETA, FIRE_BETA_GIVES};
use std::alloc::Global;
use tested_steps::{Fault, derive, part_of, premise_of, rule_of, substitution_row, type_of};
use theory::{PiRule, RuleName};
use typing_rules::{PUSHED, PUSHED_GIVES, TYPE_INSTANCE, TYPE_INSTANCE_GIVES};
use values::{
    Goal, Question, Susp, advance, aligned, equal_at_own, is_identity, rebuilt, term_under,
};
use way_rules::{TERM_AT_LEFT, TERM_AT_LEFT_GIVES};

/// `H >> A[d]`, of `d : H to G` and `G >> A`.
pub fn type_under(book: &mut Book, sub: NodeId, ty: NodeId) -> Result<NodeId, Fault> {
    if is_identity(book, sub)? {
        return Ok(ty);
    }
    let premises = [sub, ty];
    let [ty]: [NodeId; 1] = derive(book, TYPE_INSTANCE, TYPE_INSTANCE_GIVES, &[], &premises)?;
    Ok(ty)
}

/// The type of a term of a goal, in the context of what was asked.
pub fn type_at(alloc: Global, book: &mut Book, sub: NodeId, term: NodeId) -> Result<NodeId, Fault> {
    let ty = type_of(alloc, book, term)?;
    type_under(book, sub, ty)
}

/// The argument of an application, in the context of what was asked.
fn argument_of(book: &mut Book, goal: Goal) -> Result<NodeId, Fault> {
    let argument = premise_of(book, goal.susp.typing, 1)?;
    term_under(book, goal.susp.sub, argument)
}

/// An application that no rule rewrites.
fn close_app(book: &mut Book, goal: Goal, head: Goal) -> Result<Goal, Fault> {
    let argument = argument_of(book, goal)?;
    let function = aligned(book, head)?;
    let parts = [
        substitution_row(book, goal.susp.sub)?,
        part_of(book, goal.susp.typing, 4)?,
    ];
    let premises = [argument, head.way.equal, function];
    let [equal, term]: [NodeId; 2] = derive(book, APP_STAYS, APP_STAYS_GIVES, &parts, &premises)?;
    rebuilt(book, goal, equal, None, term)
}

/// The body of a function, at an argument of its own domain.
fn fire_beta(
    book: &mut Book,
    goal: Goal,
    head: Goal,
    argument: NodeId,
    turn: Option<NodeId>,
) -> Result<Goal, Fault> {
    let domain = premise_of(book, head.susp.typing, 0)?;
    let body = premise_of(book, head.susp.typing, 1)?;
    let function = equal_at_own(book, head.way)?;
    let premises = [head.susp.sub, domain, body, argument, function];
    let [equal, pushed]: [NodeId; 2] = derive(book, FIRE_BETA, FIRE_BETA_GIVES, &[], &premises)?;
    let way = advance(book, goal.way, equal, turn)?;
    let susp = Susp {
        ctx: goal.susp.ctx,
        typing: body,
        sub: pushed,
    };
    Ok(Goal { susp, way })
}

/// Whether the domain of a function is that of what it was asked at.
fn ask_domain(alloc: Global, book: &mut Book, frame: Frame, head: Goal) -> Result<Settled, Fault> {
    let goal = frame.goal;
    let domain = premise_of(book, head.susp.typing, 0)?;
    let argument = premise_of(book, goal.susp.typing, 1)?;
    let left = type_under(book, head.susp.sub, domain)?;
    let right = type_at(alloc, book, goal.susp.sub, argument)?;
    let question = Question::Convert {
        ctx: goal.susp.ctx,
        left,
        right,
    };
    let pending = Pending {
        frame,
        head,
        known: Known::Nothing,
    };
    Ok(Settled::Asks(question, Waiting::Equation(pending)))
}

/// Whether the type of the body, at the argument, is that of the application.
fn ask_codomain(
    alloc: Global,
    book: &mut Book,
    pending: Pending,
    argument: NodeId,
) -> Result<Settled, Fault> {
    let head = pending.head;
    let domain = premise_of(book, head.susp.typing, 0)?;
    let body = premise_of(book, head.susp.typing, 1)?;
    let premises = [head.susp.sub, domain, argument];
    let [pushed]: [NodeId; 1] = derive(book, PUSHED, PUSHED_GIVES, &[], &premises)?;
    let left = type_at(alloc, book, pushed, body)?;
    let pending = Pending {
        known: Known::Argument(argument),
        ..pending
    };
    ask_type(alloc, book, pending, left)
}

/// An application whose function was found.
pub fn settle_app(
    alloc: Global,
    book: &mut Book,
    frame: Frame,
    head: Goal,
) -> Result<Settled, Fault> {
    let goal = frame.goal;
    if rule_of(book, head.susp.typing)? != RuleName::Pi(PiRule::Lam) {
        return Ok(Settled::Closed(close_app(book, goal, head)?));
    }
    if head.way.fits.is_some() {
        return ask_domain(alloc, book, frame, head);
    }
    let argument = argument_of(book, goal)?;
    let fired = fire_beta(book, goal, head, argument, None)?;
    Ok(Settled::Fired(fired))
}

/// The argument of an application, at the domain that an equation of types has on its left.
fn argument_at(book: &mut Book, goal: Goal, equation: NodeId) -> Result<NodeId, Fault> {
    let argument = argument_of(book, goal)?;
    let premises = [argument, equation];
    let [argument]: [NodeId; 1] = derive(book, TERM_AT_LEFT, TERM_AT_LEFT_GIVES, &[], &premises)?;
    Ok(argument)
}

/// An application whose function is of another type, with the equation that it asked for.
pub fn resume_app(
    alloc: Global,
    book: &mut Book,
    pending: Pending,
    equation: NodeId,
) -> Result<Settled, Fault> {
    let (goal, head) = (pending.frame.goal, pending.head);
    match pending.known {
        Known::Nothing => {
            let argument = argument_at(book, goal, equation)?;
            ask_codomain(alloc, book, pending, argument)
        }
        Known::Argument(argument) => {
            let fired = fire_beta(book, goal, head, argument, Some(equation))?;
            Ok(Settled::Fired(fired))
        }
        Known::Bases(_) | Known::Glued(..) => Err(Fault::Misfit),
    }
}
