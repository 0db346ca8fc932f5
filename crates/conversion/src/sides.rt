//! What is asked where a face of several conjunctions is true: no face of a system need be true
//! there, so it is asked where each conjunction is. The trail of a difference is of one of them.

use book::{Book, NodeId};
use equal_parts::Pair;
use faced_parts::{Sides, Split, begin_sides};
use settled_sides::Reach;
use tested_steps::{Fault, count_conjunctions, part_of, premise_of, rule_of};
use theory::{ContextRule, RuleName};

/// What is asked in H.p as what stands where p is true, of a face p of several conjunctions.
fn split_of(book: &Book, asked: Pair) -> Result<Option<Split>, Fault> {
    if rule_of(book, asked.ctx)? != RuleName::Contexts(ContextRule::CtxFace) {
        return Ok(None);
    }
    let ctx: NodeId = premise_of(book, asked.ctx, 0)?;
    let face = part_of(book, asked.ctx, 1)?;
    if count_conjunctions(book, ctx, face)? < 2 {
        return Ok(None);
    }
    Ok(Some(Split {
        ctx,
        face,
        left: asked.left,
        right: asked.right,
        reach: Reach::Face,
    }))
}

/// The sides of what is asked, if there are several.
pub(crate) fn sides_of(book: &mut Book, asked: Pair) -> Result<Option<Sides>, Fault> {
    match split_of(book, asked)? {
        Some(split) => Ok(Some(begin_sides(book, split)?)),
        None => Ok(None),
    }
}
