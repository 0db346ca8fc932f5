//! Two heads of one kind, by their parts.

use crate::matched_faced::{match_comps, match_glues, match_unglued};
use crate::state::{Focus, Former, Frame};
use book::{Book, NodeId};
use equal_parts::{
    Applied, Lines, Pair, Recursions, at_left, at_motive, kids, line_of, lines_within,
    recursions_of,
};
use std::alloc::Global;
use tested_steps::{Fault, context_of, rule_of};
use theory::{CompRule, GlueRule, NatRule, PathRule, PiRule, RuleName, SigmaRule};
use values::Goal;

/// Two heads that no eta rule takes apart: their first parts, if they are of one kind.
pub(crate) fn matched(
    alloc: Global,
    book: &mut Book,
    frames: &mut Vec<Frame>,
    left: Goal,
    right: Goal,
) -> Result<Focus, Fault> {
    let rule = rule_of(book, left.susp.typing)?;
    if rule != rule_of(book, right.susp.typing)? {
        return Ok(Focus::Differ);
    }
    match rule {
        RuleName::Instances(_) | RuleName::Naturals(NatRule::Zero | NatRule::NatU) => {
            Ok(Focus::Differ)
        }
        RuleName::Naturals(NatRule::NatRec) => recursions(alloc, book, frames, left, right),
        RuleName::Paths(PathRule::PathU) => small_lines(book, frames, left, right),
        RuleName::Naturals(NatRule::Suc) => {
            frames.push(Frame::Suc)?;
            Ok(Focus::Fresh(kids(book, left, right, 0)?))
        }
        RuleName::Pi(PiRule::PiU) => {
            frames.push(Frame::SmallDomain(Former::Pi, left, right))?;
            Ok(Focus::Fresh(kids(book, left, right, 0)?))
        }
        RuleName::Sigma(SigmaRule::SigU) => {
            frames.push(Frame::SmallDomain(Former::Sigma, left, right))?;
            Ok(Focus::Fresh(kids(book, left, right, 0)?))
        }
        RuleName::Gluing(GlueRule::GlueU) => {
            let forms = [left.susp, right.susp];
            match_glues(book, frames, left.susp.ctx, forms, true)
        }
        RuleName::Gluing(GlueRule::Unglue) => match_unglued(book, frames, left, right),
        RuleName::Composition(CompRule::Comp) => match_comps(book, frames, left, right),
        _ => eliminated(book, frames, rule, [left, right]),
    }
}

/// Two heads that take other heads apart: these. No head is a system: where the faces of a context
/// are one conjunction, a face of a system is true.
fn eliminated(
    book: &mut Book,
    frames: &mut Vec<Frame>,
    rule: RuleName,
    heads: [Goal; 2],
) -> Result<Focus, Fault> {
    let [left, right] = heads;
    let frame = match rule {
        RuleName::Pi(PiRule::App) => Frame::Function(left, right),
        RuleName::Sigma(SigmaRule::Fst) => Frame::First(left),
        RuleName::Sigma(SigmaRule::Snd) => Frame::Second(left),
        RuleName::Paths(PathRule::PApp) => Frame::At(left, right),
        _ => return Ok(Focus::Differ),
    };
    frames.push(frame)?;
    Ok(Focus::Spine(kids(book, left, right, 0)?))
}

/// Two types of paths in the universe: their lines.
fn small_lines(
    book: &mut Book,
    frames: &mut Vec<Frame>,
    left: Goal,
    right: Goal,
) -> Result<Focus, Fault> {
    let ctx = left.susp.ctx;
    let (Some(left), Some(right)) = (line_of(book, left.susp)?, line_of(book, right.susp)?) else {
        return Err(Fault::Misfit);
    };
    let both = Lines { ctx, left, right };
    frames.push(Frame::Line(both))?;
    Ok(Focus::Fresh(lines_within(book, both)?))
}

/// Two recursions: their motives.
fn recursions(
    alloc: Global,
    book: &mut Book,
    frames: &mut Vec<Frame>,
    left: Goal,
    right: Goal,
) -> Result<Focus, Fault> {
    let both = recursions_of(alloc, book, left, right)?;
    let (left, right) = (both.left_parts.motive, both.right_parts.motive);
    let ctx = context_of(alloc, book, left)?;
    frames.push(Frame::Motive(both))?;
    Ok(Focus::Fresh(Pair { ctx, left, right }))
}

/// Their bases, once the motives are equal.
pub(crate) fn bases(
    book: &mut Book,
    frames: &mut Vec<Frame>,
    both: Recursions,
    motives: NodeId,
) -> Result<Focus, Fault> {
    let ctx = both.left.susp.ctx;
    let both = at_motive(book, both, motives)?;
    frames.push(Frame::Base(both, motives))?;
    let (left, right) = (both.left_parts.base, both.right_parts.base);
    Ok(Focus::Fresh(Pair { ctx, left, right }))
}

/// Their steps.
pub(crate) fn steps(
    frames: &mut Vec<Frame>,
    both: Recursions,
    motives: NodeId,
    bases: NodeId,
) -> Result<Focus, Fault> {
    let ctx = both.left.susp.ctx;
    frames.push(Frame::Step(both, motives, bases))?;
    let (left, right) = (both.left_parts.step, both.right_parts.step);
    Ok(Focus::Fresh(Pair { ctx, left, right }))
}

/// Their numbers, which are heads.
pub(crate) fn recursion_numbers(
    book: &mut Book,
    frames: &mut Vec<Frame>,
    both: Recursions,
    found: [NodeId; 3],
) -> Result<Focus, Fault> {
    let [motives, bases, steps] = found;
    frames.push(Frame::Number(motives, bases, steps))?;
    Ok(Focus::Spine(kids(book, both.left, both.right, 3)?))
}

/// The arguments of two applications whose functions are equal, at one type.
pub(crate) fn compare_arguments(
    book: &mut Book,
    frames: &mut Vec<Frame>,
    applied: Applied,
    types: Option<NodeId>,
) -> Result<Focus, Fault> {
    let mut pair = applied.arguments;
    if let Some(types) = types {
        pair.right = at_left(book, pair.right, types)?;
    }
    frames.push(Frame::Argument(applied.goal, applied.functions))?;
    Ok(Focus::Fresh(pair))
}
