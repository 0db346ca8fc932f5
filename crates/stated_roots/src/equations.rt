//! Equations of closed terms.

ghost use Rattle.std.specs.Prelude.{◌≡◌, IfOk, Some};
ghost use Rattle.stated_roots.specs.Equations.{EquatesClosed};

use book::{Book, NodeId};
use compare::Comparison;
use rows::{CtxId, CtxRow, Reader, TermId};
use std::alloc::{AllocError, Global};
use theory::Claim;

/// The right side of an equation, where a node concludes `[] >> t = n : A`, and the other one
/// `[] >> t : A`.
///
/// # Errors
/// Only where memory runs out.
pub fn other_side(
    alloc: Global,
    book: &Book,
    equation: NodeId,
    typing: NodeId,
) -> Result<Option<TermId>, AllocError>
    ensures { IfOk result (λ found. (right : TermId) → found ≡ Some right →
        EquatesClosed book.now equation.0 typing.0 right.0) }
{
    if !book.is_node(equation) || !book.is_node(typing) {
        return Ok(None);
    }
    let Claim::TmEq(ctx, left, right, ty) = book.conclusion(equation) else {
        return Ok(None);
    };
    let CtxRow::Nil = book.context(CtxId(ctx)) else {
        return Ok(None);
    };
    let mut comparison = Comparison::new(alloc);
    let asked = Claim::Tm(ctx, left, ty);
    if !comparison.same_claim(book, asked, book.conclusion(typing))? {
        return Ok(None);
    }
    Ok(Some(TermId(right)))
}
