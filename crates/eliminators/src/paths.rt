//! Paths at formulas.

use crate::asks::ask_type;
use crate::ends::{formula_of, resume_end, settle_end};
use crate::frames::{Frame, Known, Pending, Settled};
use crate::functions::type_at;
use crate::under::at_formula;
use book::{Book, NodeId};
use kan_rules::{FIRE_PATH, FIRE_PATH_GIVES};
use std::alloc::Global;
use tested_steps::{Fault, derive, part_of, premise_of, rule_of};
use theory::{PathRule, RuleName};
use values::{Goal, Susp, advance, equal_at_own};

/// The body of a path, at a formula.
fn fire_path(
    book: &mut Book,
    goal: Goal,
    head: Goal,
    formula: u64,
    turn: Option<NodeId>,
) -> Result<Goal, Fault> {
    let node = head.susp.typing;
    let body = premise_of(book, node, 0)?;
    let parts = [formula, part_of(book, node, 3)?, part_of(book, node, 4)?];
    let path = equal_at_own(book, head.way)?;
    let premises = [head.susp.sub, body, path];
    let [equal, sub]: [NodeId; 2] = derive(book, FIRE_PATH, FIRE_PATH_GIVES, &parts, &premises)?;
    let way = advance(book, goal.way, equal, turn)?;
    let susp = Susp {
        ctx: goal.susp.ctx,
        typing: body,
        sub,
    };
    Ok(Goal { susp, way })
}

/// Whether the type of the body, at the formula, is that of the path there.
fn ask_line(
    alloc: Global,
    book: &mut Book,
    frame: Frame,
    head: Goal,
    formula: u64,
) -> Result<Settled, Fault> {
    let body = premise_of(book, head.susp.typing, 0)?;
    let sub = at_formula(book, head.susp.sub, formula)?;
    let left = type_at(alloc, book, sub, body)?;
    let pending = Pending {
        frame,
        head,
        known: Known::Nothing,
    };
    ask_type(alloc, book, pending, left)
}

/// Whether a head is an abstraction over a name.
fn is_abstraction(book: &Book, head: Goal) -> Result<bool, Fault> {
    Ok(rule_of(book, head.susp.typing)? == RuleName::Paths(PathRule::PLam))
}

/// A path at a formula, where the path was found.
pub fn settle_path(
    alloc: Global,
    book: &mut Book,
    frame: Frame,
    head: Goal,
) -> Result<Settled, Fault> {
    if !is_abstraction(book, head)? {
        return settle_end(alloc, book, frame, head);
    }
    let formula = formula_of(book, frame.goal)?;
    if head.way.fits.is_some() {
        return ask_line(alloc, book, frame, head, formula);
    }
    Ok(Settled::Fired(fire_path(book, frame.goal, head, formula, None)?))
}

/// A path of another type at a formula, with the equation that it asked for.
pub fn resume_path(
    alloc: Global,
    book: &mut Book,
    pending: Pending,
    equation: NodeId,
) -> Result<Settled, Fault> {
    let (goal, head) = (pending.frame.goal, pending.head);
    if !is_abstraction(book, head)? {
        return resume_end(alloc, book, pending, equation);
    }
    let formula = formula_of(book, goal)?;
    Ok(Settled::Fired(fire_path(book, goal, head, formula, Some(equation))?))
}
