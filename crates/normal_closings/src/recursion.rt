//! Successors and recursions over numbers, of parts in normal form.

use crate::parts::{are_same, closed, is_same};
use book::{Book, NodeId};
use eliminators::Parts;
use head_rules::{SUC_NORMAL, SUC_NORMAL_GIVES};
use normal_rules::{NATREC_FITS, NATREC_FITS_GIVES, NATREC_NORMAL, NATREC_NORMAL_GIVES};
use tested_steps::{Fault, derive};
use values::{Goal, Part, rebuilt};

/// The successor of what is in normal form.
pub fn closed_successor(book: &mut Book, goal: Goal, part: Part) -> Result<Goal, Fault> {
    if is_same(book, part)? {
        return Ok(goal);
    }
    let premises = [part.equal, part.typing];
    let nodes: [NodeId; 2] = derive(book, SUC_NORMAL, SUC_NORMAL_GIVES, &[], &premises)?;
    closed(book, goal, nodes)
}

/// A recursion whose motive, base, step and number are in normal form.
pub fn closed_recursion(
    book: &mut Book,
    goal: Goal,
    parts: Parts,
    found: [Part; 3],
    number: Part,
) -> Result<Goal, Fault> {
    if are_same(book, &found)? && is_same(book, number)? {
        return Ok(goal);
    }
    let [motive, base, step] = found;
    let ctx = goal.susp.ctx;
    let premises = [ctx, parts.motive, motive.equal];
    let [base_fits, step_fits]: [NodeId; 2] = derive(
        book,
        NATREC_FITS,
        NATREC_FITS_GIVES,
        &[],
        &premises,
    )?;
    let premises = [
        ctx,
        motive.equal,
        motive.typing,
        base_fits,
        step_fits,
        base.equal,
        base.typing,
        step.equal,
        step.typing,
        number.equal,
        number.typing,
        parts.motive,
    ];
    let [equal, turn, term]: [NodeId; 3] = derive(
        book,
        NATREC_NORMAL,
        NATREC_NORMAL_GIVES,
        &[],
        &premises,
    )?;
    rebuilt(book, goal, equal, Some(turn), term)
}
