//! Nodes that conclude what definitions state.

ghost use Rattle.std.specs.Prelude.{◌≡◌, [], IfOk, IsTrue, List, Some, map};
ghost use Rattle.trees.specs.Claimed.{claimed};
ghost use Rattle.trees.specs.Judgements.{Judgement};
ghost use Rattle.translation.specs.Translated.{judgements_of};
ghost use Rattle.codes.specs.Codes.{definitions};
ghost use Rattle.book.specs.Shown.{book_means};
ghost use Rattle.book_writer.specs.Written.{concluded_by};

use book::{Book, NodeId};
use codes::CodeDef;
use compare::Comparison;
use judgement_rows::claims_of;
use std::alloc::{AllocError, Global};
use theory::Claim;

/// Whether these are nodes that conclude what these claims say, in order.
fn conclude_claims(
    alloc: Global,
    book: &Book,
    nodes: &[NodeId],
    claims: &[Claim],
) -> Result<bool, AllocError>
    requires { (Js : List Judgement) ×
        (map (claimed (book_means book.now)) claims.now ≡ map Some Js) }
    ensures { IfOk result (λ yes. IsTrue yes → (Js : List Judgement) →
        map (claimed (book_means book.now)) claims.now ≡ map Some Js →
        concluded_by book.now nodes.now ≡ Some Js) }
{
    if nodes.len() != claims.len() {
        return Ok(false);
    }
    let mut comparison = Comparison::new(alloc);
    for at in 0..nodes.len() {
        if !book.is_node(nodes[at]) {
            return Ok(false);
        }
        let concluded = book.conclusion(nodes[at]);
        if !comparison.same_claim(book, concluded, claims[at])? {
            return Ok(false);
        }
    }
    Ok(true)
}

/// Whether these are nodes of the book that conclude the judgements of definitions, in order: of
/// each, local ones just before the one that holds them, its type and its body.
///
/// # Errors
/// Only where memory runs out.
pub fn are_stated(
    alloc: Global,
    book: &mut Book,
    nodes: &[NodeId],
    defs: &[CodeDef],
) -> Result<bool, AllocError>
    ensures { IfOk result (λ yes. IsTrue yes →
        concluded_by book.new nodes.now ≡ Some (judgements_of (definitions defs.now []).stated)) }
{
    let claims = claims_of(alloc, book, defs)?;
    Ok(conclude_claims(alloc, book, nodes, &claims)?)
}
