//! Types of terms of the universe.

use crate::frames::Settled;
use book::{Book, NodeId};
use tested_steps::{Fault, claim_of, derive};
use theory::Claim;
use typing_rules::{SMALL_TYPE, SMALL_TYPE_GIVES};
use values::{Goal, advance, aligned, rebuilt};
use way_rules::{SMALL_EQUAL, SMALL_EQUAL_GIVES};

/// `G >> A`, of that or of `G >> A : U`.
pub fn as_type(book: &mut Book, node: NodeId) -> Result<NodeId, Fault> {
    if let Claim::Ty(..) = claim_of(book, node)? {
        return Ok(node);
    }
    let [ty]: [NodeId; 1] = derive(book, SMALL_TYPE, SMALL_TYPE_GIVES, &[], &[node])?;
    Ok(ty)
}

/// A type that is a term of the universe, which was found. The head is the term itself, where that
/// is of the universe as it stands.
pub fn settle_small(book: &mut Book, goal: Goal, head: Goal) -> Result<Settled, Fault> {
    let premises = [head.way.equal];
    let [equal]: [NodeId; 1] = derive(book, SMALL_EQUAL, SMALL_EQUAL_GIVES, &[], &premises)?;
    if head.way.fits.is_some() {
        let term = aligned(book, head)?;
        let typing = as_type(book, term)?;
        return Ok(Settled::Closed(rebuilt(book, goal, equal, None, typing)?));
    }
    let way = advance(book, goal.way, equal, None)?;
    let susp = head.susp;
    Ok(Settled::Closed(Goal { susp, way }))
}
