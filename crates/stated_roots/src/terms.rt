//! Typings of closed terms.

ghost use Rattle.std.specs.Prelude.{◌≡◌, IfOk, IsTrue, Some};
ghost use Rattle.trees.specs.Trees.{Tree};
ghost use Rattle.trees.specs.Things.{ATree, Kept};
ghost use Rattle.rows.specs.Views.{IsTree};
ghost use Rattle.book.specs.Shown.{book_means};
ghost use Rattle.judgement_rows.specs.After.{term_after};
ghost use Rattle.stated_roots.specs.Terms.{TypesClosed};

use book::{Book, NodeId};
use codes::{Code, CodeDef};
use judgement_rows::term_of;
use rows::{CtxId, CtxRow, Reader, TermId};
use std::alloc::{AllocError, Global};
use theory::Claim;

/// Whether this is a node that concludes `[] >> t : A` for some A, where the row is that of t.
fn types_row(book: &Book, node: NodeId, term: TermId) -> Result<bool, AllocError>
    requires { IsTree (book_means book.now term.0) }
    ensures { IfOk result (λ yes. IsTrue yes → (t : Tree) →
        book_means book.now term.0 ≡ Some (ATree t) → TypesClosed book.now node.0 t) }
{
    if !book.is_node(node) {
        return Ok(false);
    }
    let Claim::Tm(ctx, typed, _) = book.conclusion(node) else {
        return Ok(false);
    };
    let CtxRow::Nil = book.context(CtxId(ctx)) else {
        return Ok(false);
    };
    Ok(book.same_tree(TermId(typed), term)?)
}

/// Whether this is a node of the book that concludes `[] >> t : A` for some A, where t is the tree
/// of the code in the scope of the definitions.
///
/// # Errors
/// Only where memory runs out.
pub fn types_term(
    alloc: Global,
    book: &mut Book,
    node: NodeId,
    defs: &[CodeDef],
    code: &Code,
) -> Result<bool, AllocError>
    ensures kept { Kept (book_means book.old) (book_means book.new) }
    ensures types { IfOk result (λ yes. IsTrue yes →
        TypesClosed book.new node.0 (term_after defs.now code.now)) }
{
    let term = term_of(alloc, book, defs, code)?;
    Ok(types_row(book, node, TermId(term))?)
}
