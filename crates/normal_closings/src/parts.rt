//! Parts that are in normal form, and goals at forms of such parts.

use book::{Book, NodeId};
use tested_steps::{Fault, claim_of};
use theory::Claim;
use values::{Goal, Part, rebuilt};

/// Whether the two sides of a part's equation are one row. Then it was in normal form.
pub fn is_same(book: &Book, part: Part) -> Result<bool, Fault> {
    match claim_of(book, part.equal)? {
        Claim::TyEq(_, left, right) | Claim::TmEq(_, left, right, _) => Ok(left == right),
        _ => Err(Fault::Misfit),
    }
}

/// Whether all of these were in normal form.
pub fn are_same(book: &Book, parts: &[Part]) -> Result<bool, Fault> {
    for part in parts {
        if !is_same(book, *part)? {
            return Ok(false);
        }
    }
    Ok(true)
}

/// The goal at a form of parts in normal form, of the equation that leads to it and its typing,
/// where the type stays.
pub(crate) fn closed(book: &mut Book, goal: Goal, nodes: [NodeId; 2]) -> Result<Goal, Fault> {
    let [equal, typing] = nodes;
    rebuilt(book, goal, equal, None, typing)
}
