//! Recursion over numbers.

use crate::frames::{Frame, Settled};
use book::{Book, NodeId};
use head_rules::{
    NATREC_PARTS, NATREC_PARTS_GIVES, NATREC_STAYS, NATREC_STAYS_GIVES, NATREC_SUC,
    NATREC_SUC_GIVES, NATREC_ZERO, NATREC_ZERO_GIVES,
};
use std::alloc::Global;
use tested_steps::{Fault, context_of, derive, premise_of, rule_of};
use theory::{NatRule, RuleName};
use values::{Goal, aligned, identity, is_identity, rebuilt, term_under};

/// `H.nat >> P`, `H >> a : P{zero}` and `H >> b : motive_step P`.
#[derive(Clone, Copy, Debug)]
pub struct Parts {
    pub motive: NodeId,
    pub base: NodeId,
    pub step: NodeId,
}

/// The parts of a recursion, in the context of what was asked.
pub fn parts_of(alloc: Global, book: &mut Book, goal: Goal) -> Result<Parts, Fault> {
    let (node, sub) = (goal.susp.typing, goal.susp.sub);
    let motive = premise_of(book, node, 0)?;
    let base = premise_of(book, node, 1)?;
    let step = premise_of(book, node, 2)?;
    if is_identity(book, sub)? {
        return Ok(Parts { motive, base, step });
    }
    let with_number = context_of(alloc, book, motive)?;
    let numbers = premise_of(book, with_number, 0)?;
    let premises = [sub, numbers, motive, base, step];
    let [motive, base, step]: [NodeId; 3] = derive(
        book,
        NATREC_PARTS,
        NATREC_PARTS_GIVES,
        &[],
        &premises,
    )?;
    Ok(Parts { motive, base, step })
}

/// A recursion over zero.
fn fire_zero(book: &mut Book, goal: Goal, head: Goal, parts: Parts) -> Result<Goal, Fault> {
    let here = identity(book, goal.susp.ctx)?;
    let premises = [here, parts.motive, parts.base, parts.step, head.way.equal];
    let [equal, turn]: [NodeId; 2] = derive(book, NATREC_ZERO, NATREC_ZERO_GIVES, &[], &premises)?;
    rebuilt(book, goal, equal, Some(turn), parts.base)
}

/// A recursion over a successor.
fn fire_suc(book: &mut Book, goal: Goal, head: Goal, parts: Parts) -> Result<Goal, Fault> {
    let here = identity(book, goal.susp.ctx)?;
    let before = premise_of(book, head.susp.typing, 0)?;
    let before = term_under(book, head.susp.sub, before)?;
    let premises = [
        here,
        parts.motive,
        parts.base,
        parts.step,
        head.way.equal,
        before,
    ];
    let [equal, turn, term]: [NodeId; 3] = derive(
        book,
        NATREC_SUC,
        NATREC_SUC_GIVES,
        &[],
        &premises,
    )?;
    rebuilt(book, goal, equal, Some(turn), term)
}

/// A recursion that no rule rewrites.
fn close_natrec(book: &mut Book, goal: Goal, head: Goal, parts: Parts) -> Result<Goal, Fault> {
    let here = identity(book, goal.susp.ctx)?;
    let number = aligned(book, head)?;
    let premises = [
        here,
        parts.motive,
        parts.base,
        parts.step,
        head.way.equal,
        number,
    ];
    let [equal, turn, term]: [NodeId; 3] = derive(
        book,
        NATREC_STAYS,
        NATREC_STAYS_GIVES,
        &[],
        &premises,
    )?;
    rebuilt(book, goal, equal, Some(turn), term)
}

/// A recursion whose number was found.
pub fn settle_natrec(
    alloc: Global,
    book: &mut Book,
    frame: Frame,
    head: Goal,
) -> Result<Settled, Fault> {
    let goal = frame.goal;
    let parts = parts_of(alloc, book, goal)?;
    match rule_of(book, head.susp.typing)? {
        RuleName::Naturals(NatRule::Zero) => {
            Ok(Settled::Fired(fire_zero(book, goal, head, parts)?))
        }
        RuleName::Naturals(NatRule::Suc) => {
            Ok(Settled::Fired(fire_suc(book, goal, head, parts)?))
        }
        _ => Ok(Settled::Closed(close_natrec(book, goal, head, parts)?)),
    }
}
