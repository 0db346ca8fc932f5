//! Terms under substitutions.

use crate::substitutions::{identity, is_identity};
use book::{Book, NodeId};
use tested_steps::{Fault, claim_of, derive};
use theory::Claim;
use typing_rules::{TERM_INSTANCE, TERM_INSTANCE_GIVES, TYPE_INSTANCE, TYPE_INSTANCE_GIVES};

/// `t[d]` in H: of `ctx H`, `G >> t : A` and `d : H to G`.
#[derive(Clone, Copy, Debug, PartialEq, Eq, Hash)]
pub struct Susp {
    pub ctx: NodeId,
    pub typing: NodeId,
    pub sub: NodeId,
}

/// A term in its own context.
pub fn suspend(book: &mut Book, ctx: NodeId, typing: NodeId) -> Result<Susp, Fault> {
    let sub = identity(book, ctx)?;
    Ok(Susp { ctx, typing, sub })
}

/// `H >> t[d] : A[d]`, of `d : H to G` and `G >> t : A`. Where d does nothing, that is at hand.
pub fn term_under(book: &mut Book, sub: NodeId, typing: NodeId) -> Result<NodeId, Fault> {
    if is_identity(book, sub)? {
        return Ok(typing);
    }
    let premises = [sub, typing];
    if let Claim::Ty(..) = claim_of(book, typing)? {
        let [ty]: [NodeId; 1] = derive(book, TYPE_INSTANCE, TYPE_INSTANCE_GIVES, &[], &premises)?;
        return Ok(ty);
    }
    let [term]: [NodeId; 1] = derive(book, TERM_INSTANCE, TERM_INSTANCE_GIVES, &[], &premises)?;
    Ok(term)
}
