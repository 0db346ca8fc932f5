//! Two sides whose heads are known.

use crate::eta::{bind, bind_name};
use crate::eta_pairs::halve;
use crate::match_terms::matched;
use crate::match_types::headed_types;
use crate::matched_faced::match_elements;
use crate::state::{Focus, Frame};
use book::{Book, NodeId};
use equal_parts::{Pair, are_one, lead_to_one, meet, reflexive};
use evaluate::located;
use std::alloc::Global;
use tested_steps::{Fault, claim_of, rule_of};
use theory::{Claim, GlueRule, PathRule, PiRule, RuleName, SigmaRule};
use values::{Goal, begin, suspend};

/// What an eta rule takes apart.
#[derive(Clone, Copy, Debug, PartialEq, Eq)]
enum Literal {
    Function,
    Pair,
    Path,
    Glued,
    Other,
}

/// Which eta rule takes a head apart.
fn kind_of(book: &Book, head: Goal) -> Result<Literal, Fault> {
    match rule_of(book, head.susp.typing)? {
        RuleName::Pi(PiRule::Lam) => Ok(Literal::Function),
        RuleName::Sigma(SigmaRule::Pair) => Ok(Literal::Pair),
        RuleName::Paths(PathRule::PLam) => Ok(Literal::Path),
        RuleName::Gluing(GlueRule::Glue) => Ok(Literal::Glued),
        _ => Ok(Literal::Other),
    }
}

/// Goes on from the heads of two types, or of two terms of one type.
pub(crate) fn headed(
    alloc: Global,
    book: &mut Book,
    frames: &mut Vec<Frame>,
    heads: [Goal; 2],
) -> Result<Focus, Fault> {
    let [left, right] = heads;
    if let Claim::TyEq(..) = claim_of(book, left.way.equal)? {
        return headed_types(alloc, book, frames, left, right);
    }
    headed_terms(alloc, book, frames, heads)
}

/// Goes on from the heads of two terms of one type.
fn headed_terms(
    alloc: Global,
    book: &mut Book,
    frames: &mut Vec<Frame>,
    heads: [Goal; 2],
) -> Result<Focus, Fault> {
    let [left, right] = heads;
    let (to_left, to_right) = (left.way.equal, right.way.equal);
    if lead_to_one(book, to_left, to_right)? {
        return Ok(Focus::Equal(meet(book, to_left, to_right)?));
    }
    let (own, kind) = match (kind_of(book, left)?, kind_of(book, right)?) {
        (Literal::Other, Literal::Other) => (left, Literal::Other),
        (Literal::Other, kind) => (right, kind),
        (kind, _) => (left, kind),
    };
    frames.push(Frame::Joined {
        left: to_left,
        right: to_right,
        fits: own.way.fits,
    })?;
    match kind {
        Literal::Function => bind(book, frames, own, heads),
        Literal::Path => bind_name(book, frames, own, heads),
        Literal::Pair => halve(alloc, book, frames, own, heads),
        Literal::Glued => match_elements(book, frames, own, heads),
        Literal::Other => matched(alloc, book, frames, left, right),
    }
}

/// A term that is its head, at the node that made it.
pub(crate) fn opened(
    alloc: Global,
    book: &mut Book,
    ctx: NodeId,
    typing: NodeId,
) -> Result<Goal, Fault> {
    let susp = suspend(book, ctx, typing)?;
    let goal = begin(book, susp)?;
    located(alloc, book, goal)
}

/// Goes on from two terms that are their heads.
pub(crate) fn spine(
    alloc: Global,
    book: &mut Book,
    frames: &mut Vec<Frame>,
    pair: Pair,
) -> Result<Focus, Fault> {
    if are_one(book, pair)? {
        return Ok(Focus::Equal(reflexive(book, pair.left)?));
    }
    let left = opened(alloc, book, pair.ctx, pair.left)?;
    let right = opened(alloc, book, pair.ctx, pair.right)?;
    if let Some(fits) = left.way.fits {
        frames.push(Frame::Fitted(fits))?;
    }
    matched(alloc, book, frames, left, right)
}
