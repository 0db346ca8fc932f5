//! Two sides that are compared, and what is asked of both.

use book::{Book, NodeId};
use settled_sides::is_same_tree;
use tested_steps::{Fault, always_false, claim_of, derive, premise_of, try_make};
use theory::{Claim, Op};
use values::{Goal, aligned, term_under};
use way_rules::{
    TERM_AT_LEFT, TERM_AT_LEFT_GIVES, TYPE_SAME, TYPE_SAME_GIVES, WAY_HOME, WAY_HOME_GIVES,
};

/// Two terms or two types of one context: `ctx H`, and the typings in H.
#[derive(Clone, Copy, Debug, PartialEq, Eq)]
pub struct Pair {
    pub ctx: NodeId,
    pub left: NodeId,
    pub right: NodeId,
}

/// The row of the type or of the term of a typing, and that of its type.
fn subject(book: &Book, node: NodeId) -> Result<u64, Fault> {
    match claim_of(book, node)? {
        Claim::Ty(_, tree) | Claim::Tm(_, tree, _) => Ok(tree),
        _ => Err(Fault::Misfit),
    }
}

/// Whether the two are one tree.
pub fn are_one(book: &Book, pair: Pair) -> Result<bool, Fault> {
    let left = subject(book, pair.left)?;
    let right = subject(book, pair.right)?;
    is_same_tree(book, left, right)
}

/// Whether two terms are of types that are one tree.
pub fn at_one_type(book: &Book, pair: Pair) -> Result<bool, Fault> {
    match (claim_of(book, pair.left)?, claim_of(book, pair.right)?) {
        (Claim::Tm(_, _, left), Claim::Tm(_, _, right)) => { is_same_tree(book, left, right) }
        _ => Err(Fault::Misfit),
    }
}

/// The right side of an equation.
fn right_side(book: &Book, equation: NodeId) -> Result<u64, Fault> {
    match claim_of(book, equation)? {
        Claim::TyEq(_, _, right) | Claim::TmEq(_, _, right, _) => Ok(right),
        _ => Err(Fault::Misfit),
    }
}

/// Whether two equations lead to one tree.
pub fn lead_to_one(book: &Book, left: NodeId, right: NodeId) -> Result<bool, Fault> {
    let left = right_side(book, left)?;
    let right = right_side(book, right)?;
    is_same_tree(book, left, right)
}

/// Whether the faces of a context are true nowhere.
pub fn is_absurd(book: &mut Book, ctx: NodeId) -> Result<bool, Fault> {
    let everywhere = try_make(book, Op::F1, &[])?;
    always_false(book, ctx, everywhere)
}

/// Whether it types a type.
pub fn is_type(book: &Book, node: NodeId) -> Result<bool, Fault> {
    match claim_of(book, node)? {
        Claim::Ty(..) => Ok(true),
        _ => Ok(false),
    }
}

/// That a term or a type equals itself.
pub fn reflexive(book: &mut Book, node: NodeId) -> Result<NodeId, Fault> {
    let [equal]: [NodeId; 1] = if is_type(book, node)? {
        derive(book, TYPE_SAME, TYPE_SAME_GIVES, &[], &[node])?
    } else {
        derive(book, WAY_HOME, WAY_HOME_GIVES, &[], &[node])?
    };
    Ok(equal)
}

/// A kid of a term under a substitution, typed there.
pub fn kid(book: &mut Book, goal: Goal, at: usize) -> Result<NodeId, Fault> {
    let typing = premise_of(book, goal.susp.typing, at)?;
    term_under(book, goal.susp.sub, typing)
}

/// `H >> t : C`, of `H >> t : A` and `H >> C = A`.
pub fn at_left(book: &mut Book, term: NodeId, equation: NodeId) -> Result<NodeId, Fault> {
    let premises = [term, equation];
    let [term]: [NodeId; 1] = derive(book, TERM_AT_LEFT, TERM_AT_LEFT_GIVES, &[], &premises)?;
    Ok(term)
}

/// A head at the type of another of the same type.
pub fn at_own(book: &mut Book, own: Goal, head: Goal) -> Result<NodeId, Fault> {
    let term = aligned(book, head)?;
    match own.way.fits {
        None => Ok(term),
        Some(fits) => at_left(book, term, fits),
    }
}
