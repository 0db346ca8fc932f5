//! Numbers and recursions over them: from kid to kid.

use crate::kids::{enter_kid, made_by, ready, settled};
use crate::state::{Focus, Frame};
use crate::systems::Around;
use book::{Book, NodeId};
use eliminators::{Parts, parts_of};
use normal_closings::{closed_recursion, closed_successor};
use std::alloc::Global;
use tested_steps::{Fault, context_of, derive, premise_of};
use theory::{NatRule, RuleName};
use typing_rules::{ZERO_TERM, ZERO_TERM_GIVES};
use values::{Goal, Part, begin, suspend, term_under};

/// A successor or a recursion whose kid is sought.
#[derive(Clone, Copy, Debug)]
pub enum NatFrame {
    /// What a successor is of.
    Suc(Goal),
    /// The motive of a recursion.
    Motive(Goal, Parts),
    /// Its base, of the motive.
    Base(Goal, Parts, Part),
    /// Its step, of the motive and the base.
    Step(Goal, Parts, [Part; 2]),
    /// Its number, of the motive, the base and the step.
    Number(Goal, Parts, [Part; 3]),
}

/// Goes on from a number or a recursion.
pub(crate) fn enter_number(
    alloc: Global,
    book: &mut Book,
    around: &mut Around,
    goal: Goal,
    rule: NatRule,
) -> Result<Focus, Fault> {
    match rule {
        NatRule::Suc => {
            let frame = Frame::Number(NatFrame::Suc(goal));
            enter_kid(book, around, goal, frame, 0)
        }
        NatRule::Zero => {
            let ctx = goal.susp.ctx;
            let [zero]: [NodeId; 1] = derive(book, ZERO_TERM, ZERO_TERM_GIVES, &[], &[ctx])?;
            let susp = suspend(book, ctx, zero)?;
            ready(book, Goal { susp, ..goal })
        }
        NatRule::NatRec => {
            let parts = parts_of(alloc, book, goal)?;
            let ctx = context_of(alloc, book, parts.motive)?;
            let frame = NatFrame::Motive(goal, parts);
            around.frames.push(Frame::Number(frame))?;
            Ok(Focus::Fresh(suspend(book, ctx, parts.motive)?))
        }
        _ => ready(book, goal),
    }
}

/// Goes on from a kid of a number or of a recursion that is in normal form.
pub(crate) fn after_number(
    alloc: Global,
    book: &mut Book,
    around: &mut Around,
    frame: NatFrame,
    part: Part,
) -> Result<Focus, Fault> {
    match frame {
        NatFrame::Suc(goal) => {
            let goal = closed_successor(book, goal, part)?;
            ready(book, goal)
        }
        NatFrame::Motive(goal, parts) => {
            let frame = NatFrame::Base(goal, parts, part);
            around.frames.push(Frame::Number(frame))?;
            Ok(Focus::Fresh(suspend(book, goal.susp.ctx, parts.base)?))
        }
        NatFrame::Base(goal, parts, motive) => {
            let frame = NatFrame::Step(goal, parts, [motive, part]);
            around.frames.push(Frame::Number(frame))?;
            Ok(Focus::Fresh(suspend(book, goal.susp.ctx, parts.step)?))
        }
        NatFrame::Step(goal, parts, found) => {
            let [motive, base] = found;
            let frame = NatFrame::Number(goal, parts, [motive, base, part]);
            around.frames.push(Frame::Number(frame))?;
            let number = premise_of(book, goal.susp.typing, 3)?;
            let number = term_under(book, goal.susp.sub, number)?;
            let number = suspend(book, goal.susp.ctx, number)?;
            Ok(Focus::Walk(begin(book, number)?))
        }
        NatFrame::Number(goal, parts, found) => {
            let fires = is_numeral(alloc, book, goal, part)?;
            let goal = closed_recursion(book, goal, parts, found, part)?;
            settled(book, goal, fires)
        }
    }
}

/// Whether a part is zero or a successor.
fn is_numeral(alloc: Global, book: &mut Book, goal: Goal, part: Part) -> Result<bool, Fault> {
    match made_by(alloc, book, goal.susp.ctx, part)? {
        RuleName::Naturals(NatRule::Zero | NatRule::Suc) => Ok(true),
        _ => Ok(false),
    }
}
