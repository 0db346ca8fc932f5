//! Pairs by the eta rule.

use crate::state::{Focus, Frame};
use book::{Book, NodeId};
use equal_parts::{Halved, Pair, are_alike, at_first, at_own, halves_at, pair_of};
use normal_closings::halves_here;
use std::alloc::Global;
use tested_steps::Fault;
use values::Goal;

/// Two terms of which one is literally a pair: their first halves.
pub(crate) fn halve(
    alloc: Global,
    book: &mut Book,
    frames: &mut Vec<Frame>,
    own: Goal,
    heads: [Goal; 2],
) -> Result<Focus, Fault> {
    let [left, right] = heads;
    let is_left = own == left;
    let other = if is_left { right } else { left };
    let ctx = own.susp.ctx;
    let halves = halves_here(alloc, book, own)?;
    let second = pair_of(alloc, book, other)?;
    if let Some(right) = second {
        if are_alike(book, halves, right)? {
            let left = halves;
            frames.push(Frame::FirstHalf(Halved::Both { ctx, left, right }))?;
            return Ok(Focus::Fresh(Pair {
                ctx,
                left: left.first,
                right: right.first,
            }));
        }
    }
    let term = at_own(book, own, other)?;
    let [first, last] = halves_at(alloc, book, own, term)?;
    let is_made = second.is_some();
    frames.push(Frame::FirstHalf(Halved::One {
        ctx,
        halves,
        term,
        second: last,
        is_left,
        is_made,
    }))?;
    let pair = one_side(ctx, [halves.first, first], is_left);
    Ok(fresh_or_made(pair, is_made))
}

/// What is literally there and what was made, on the sides that they stand on.
fn one_side(ctx: NodeId, both: [NodeId; 2], is_left: bool) -> Pair {
    let [literal, made] = both;
    if is_left {
        Pair {
            ctx,
            left: literal,
            right: made,
        }
    } else {
        Pair {
            ctx,
            left: made,
            right: literal,
        }
    }
}

/// A pair, which a rule may rewrite where it was made.
fn fresh_or_made(pair: Pair, is_made: bool) -> Focus {
    if is_made {
        Focus::Made(pair)
    } else {
        Focus::Fresh(pair)
    }
}

/// Their second halves.
pub(crate) fn second_halves(
    book: &mut Book,
    frames: &mut Vec<Frame>,
    halved: Halved,
    first: NodeId,
) -> Result<Focus, Fault> {
    let (pair, codomain, is_made) = match halved {
        Halved::Both { ctx, left, right } => {
            let codomain = left.codomain;
            let pair = Pair {
                ctx,
                left: left.second,
                right: right.second,
            };
            (pair, codomain, false)
        }
        Halved::One {
            ctx,
            halves,
            term: _,
            second,
            is_left,
            is_made,
        } => {
            let pair = one_side(ctx, [halves.second, second], is_left);
            (pair, halves.codomain, is_made)
        }
    };
    let right = at_first(book, pair.ctx, codomain, first, pair.right)?;
    frames.push(Frame::SecondHalf(halved, first, right))?;
    Ok(fresh_or_made(Pair { right, ..pair }, is_made))
}
