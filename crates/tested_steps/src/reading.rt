//! Nodes, read if they are there.

ghost use Rattle.std.specs.Prelude.{◌≡◌, ◌<◌, IfOk, IfErr, IsSome, None};
ghost use Rattle.trees.specs.Claimed.{claimed};
ghost use Rattle.book.specs.Shown.{book_means, book_concludes};
ghost use Rattle.tested_steps.specs.declared.fault.Fault.TheVariants as fault;

use crate::fault::Fault;
use book::{Book, NodeId};
use rows::TermId;
use theory::{Claim, PartKind, RuleName};

/// What a node concludes.
pub fn claim_of(book: &Book, node: NodeId) -> Result<Claim, Fault>
    ensures claim { IfOk result (λ claim.
        claimed (book_means book.now) claim ≡ book_concludes book.now node.0) }
    ensures there { IfOk result (λ _. IsSome (book_concludes book.now node.0)) }
    ensures none { IfErr result (λ found.
        (found ≡ fault.Misfit) × (book_concludes book.now node.0 ≡ None)) }
{
    if !book.is_node(node) {
        return Err(Fault::Misfit);
    }
    Ok(book.conclusion(node))
}

/// The rule that made a node.
pub fn rule_of(book: &Book, node: NodeId) -> Result<RuleName, Fault> {
    if !book.is_node(node) {
        return Err(Fault::Misfit);
    }
    Ok(book.step(node).rule)
}

/// The premise of a node at a place, which is an earlier node.
pub fn premise_of(book: &Book, node: NodeId, at: usize) -> Result<NodeId, Fault>
    ensures { IfOk result (λ premise. premise.0 < node.0) }
{
    if !book.is_node(node) {
        return Err(Fault::Misfit);
    }
    match book.step(node).premises.get(at) {
        Some(premise) => Ok(NodeId(*premise)),
        None => Err(Fault::Misfit),
    }
}

/// The part of a node at a place: a row.
pub fn part_of(book: &Book, node: NodeId, at: usize) -> Result<u64, Fault> {
    if !book.is_node(node) {
        return Err(Fault::Misfit);
    }
    match book.step(node).parts.get(at) {
        Some(part) => Ok(*part),
        None => Err(Fault::Misfit),
    }
}

/// A of `G >> a : A`.
pub fn type_row(book: &Book, node: NodeId) -> Result<u64, Fault> {
    match claim_of(book, node)? {
        Claim::Tm(_, _, ty) => Ok(ty),
        _ => Err(Fault::Misfit),
    }
}

/// d of `d : H to G`.
pub fn substitution_row(book: &Book, sub: NodeId) -> Result<u64, Fault> {
    match claim_of(book, sub)? {
        Claim::Sb(_, row, _) => Ok(row),
        _ => Err(Fault::Misfit),
    }
}

/// Whether two rows are one tree.
fn same_tree(book: &Book, left: u64, right: u64) -> Result<bool, Fault> {
    if !book.is_of_kind(left, PartKind::Term) || !book.is_of_kind(right, PartKind::Term) {
        return Err(Fault::Misfit);
    }
    Ok(book.same_tree(TermId(left), TermId(right))?)
}

/// Whether A and B are one tree, of `G >> A` and `G >> B`.
pub fn same_type(book: &Book, left: NodeId, right: NodeId) -> Result<bool, Fault> {
    match (claim_of(book, left)?, claim_of(book, right)?) {
        (Claim::Ty(_, left), Claim::Ty(_, right)) => same_tree(book, left, right),
        _ => Err(Fault::Misfit),
    }
}

/// Whether A and B are one tree, of `G >> A = B`.
pub fn same_sides(book: &Book, equation: NodeId) -> Result<bool, Fault> {
    match claim_of(book, equation)? {
        Claim::TyEq(_, left, right) => same_tree(book, left, right),
        _ => Err(Fault::Misfit),
    }
}
