//! The halves of pairs.

use crate::asks::ask_type;
use crate::frames::{Frame, Known, Pending, Settled};
use crate::functions::type_at;
use book::{Book, NodeId};
use head_rules::{
    FST_PAIR, FST_PAIR_GIVES, FST_STAYS, FST_STAYS_GIVES, SND_PAIR, SND_PAIR_GIVES, SND_STAYS,
    SND_STAYS_GIVES,
};
use std::alloc::Global;
use tested_steps::{
    Fault, codomain_of, context_of, derive, part_of, premise_of, rule_of, substitution_row,
};
use theory::{RuleName, SigmaRule};
use values::{Goal, Susp, advance, aligned, equal_at_own, rebuilt};

/// What a pair was made of: `K >> C`, `K.C >> E`, `K >> a : C` and `K >> b : E{a}`.
#[derive(Clone, Copy, Debug)]
pub struct Halves {
    pub domain: NodeId,
    pub codomain: NodeId,
    pub first: NodeId,
    pub second: NodeId,
}

/// The halves of a pair, by its node.
pub fn halves_of(alloc: Global, book: &mut Book, pair: NodeId) -> Result<Halves, Fault> {
    let codomain = premise_of(book, pair, 0)?;
    let within = context_of(alloc, book, codomain)?;
    Ok(Halves {
        domain: premise_of(book, within, 0)?,
        codomain,
        first: premise_of(book, pair, 1)?,
        second: premise_of(book, pair, 2)?,
    })
}

/// That the first half of what was a pair is the first half of the pair, at its own type.
fn first_equal(book: &mut Book, head: Goal, halves: Halves) -> Result<(NodeId, NodeId), Fault> {
    let pair = equal_at_own(book, head.way)?;
    let Halves {
        domain,
        codomain,
        first,
        second,
    } = halves;
    let premises = [head.susp.sub, domain, codomain, first, second, pair];
    let [equal]: [NodeId; 1] = derive(book, FST_PAIR, FST_PAIR_GIVES, &[], &premises)?;
    Ok((pair, equal))
}

/// The first half of a pair. The turn is from its own type to the one that was asked.
fn fire_first(
    alloc: Global,
    book: &mut Book,
    goal: Goal,
    head: Goal,
    turn: Option<NodeId>,
) -> Result<Goal, Fault> {
    let halves = halves_of(alloc, book, head.susp.typing)?;
    let (_, equal) = first_equal(book, head, halves)?;
    let way = advance(book, goal.way, equal, turn)?;
    let susp = Susp {
        ctx: goal.susp.ctx,
        typing: halves.first,
        sub: head.susp.sub,
    };
    Ok(Goal { susp, way })
}

/// The second half of a pair. Where the types of the pairs are one, no turn is handed in.
fn fire_second(
    alloc: Global,
    book: &mut Book,
    goal: Goal,
    head: Goal,
    turn: Option<NodeId>,
) -> Result<Goal, Fault> {
    let halves = halves_of(alloc, book, head.susp.typing)?;
    let (pair, first) = first_equal(book, head, halves)?;
    let premises = [
        head.susp.sub,
        halves.domain,
        halves.codomain,
        halves.first,
        halves.second,
        pair,
        first,
    ];
    let [equal, own]: [NodeId; 2] = derive(book, SND_PAIR, SND_PAIR_GIVES, &[], &premises)?;
    let way = advance(book, goal.way, equal, turn.or(Some(own)))?;
    let susp = Susp {
        ctx: goal.susp.ctx,
        typing: halves.second,
        sub: head.susp.sub,
    };
    Ok(Goal { susp, way })
}

/// Whether the type of a half of a pair, by the premise that types it, is the one that was asked.
fn ask_half(
    alloc: Global,
    book: &mut Book,
    frame: Frame,
    head: Goal,
    half: usize,
) -> Result<Settled, Fault> {
    let own = premise_of(book, head.susp.typing, half)?;
    let left = type_at(alloc, book, head.susp.sub, own)?;
    let pending = Pending {
        frame,
        head,
        known: Known::Nothing,
    };
    ask_type(alloc, book, pending, left)
}

/// The first half of what no rule rewrites.
fn close_first(book: &mut Book, goal: Goal, head: Goal) -> Result<Goal, Fault> {
    let pair = aligned(book, head)?;
    let parts = [
        substitution_row(book, goal.susp.sub)?,
        part_of(book, goal.susp.typing, 2)?,
        part_of(book, goal.susp.typing, 3)?,
    ];
    let premises = [head.way.equal, pair];
    let [equal, term]: [NodeId; 2] = derive(book, FST_STAYS, FST_STAYS_GIVES, &parts, &premises)?;
    rebuilt(book, goal, equal, None, term)
}

/// The second half of what no rule rewrites.
fn close_second(alloc: Global, book: &mut Book, goal: Goal, head: Goal) -> Result<Goal, Fault> {
    let main = premise_of(book, goal.susp.typing, 0)?;
    let codomain = codomain_of(alloc, book, main)?;
    let pair = aligned(book, head)?;
    let parts = [
        part_of(book, goal.susp.typing, 2)?,
        part_of(book, goal.susp.typing, 3)?,
    ];
    let premises = [goal.susp.sub, codomain, head.way.equal, pair];
    let [equal, turn, term]: [NodeId; 3] = derive(
        book,
        SND_STAYS,
        SND_STAYS_GIVES,
        &parts,
        &premises,
    )?;
    rebuilt(book, goal, equal, Some(turn), term)
}

/// Whether a head is a pair.
fn is_pair(book: &Book, head: Goal) -> Result<bool, Fault> {
    Ok(rule_of(book, head.susp.typing)? == RuleName::Sigma(SigmaRule::Pair))
}

/// The first half, where what it is of was found.
pub fn settle_first(
    alloc: Global,
    book: &mut Book,
    frame: Frame,
    head: Goal,
) -> Result<Settled, Fault> {
    let goal = frame.goal;
    if !is_pair(book, head)? {
        return Ok(Settled::Closed(close_first(book, goal, head)?));
    }
    if head.way.fits.is_some() {
        return ask_half(alloc, book, frame, head, 1);
    }
    Ok(Settled::Fired(fire_first(alloc, book, goal, head, None)?))
}

/// The second half, where what it is of was found.
pub fn settle_second(
    alloc: Global,
    book: &mut Book,
    frame: Frame,
    head: Goal,
) -> Result<Settled, Fault> {
    let goal = frame.goal;
    if !is_pair(book, head)? {
        return Ok(Settled::Closed(close_second(alloc, book, goal, head)?));
    }
    if head.way.fits.is_some() {
        return ask_half(alloc, book, frame, head, 2);
    }
    Ok(Settled::Fired(fire_second(alloc, book, goal, head, None)?))
}

/// The first half of a pair of another type, with the equation that it asked for.
pub fn resume_first(
    alloc: Global,
    book: &mut Book,
    pending: Pending,
    equation: NodeId,
) -> Result<Settled, Fault> {
    let (goal, head) = (pending.frame.goal, pending.head);
    Ok(Settled::Fired(fire_first(alloc, book, goal, head, Some(equation))?))
}

/// The second half of a pair of another type, with the equation that it asked for.
pub fn resume_second(
    alloc: Global,
    book: &mut Book,
    pending: Pending,
    equation: NodeId,
) -> Result<Settled, Fault> {
    let (goal, head) = (pending.frame.goal, pending.head);
    Ok(Settled::Fired(fire_second(alloc, book, goal, head, Some(equation))?))
}
