//! Derivations as deep as is wished.

ghost use Rattle.std.specs.Prelude.{IfOk};
ghost use Rattle.presupposed_tests.specs.Grown.{IsTerm};

use book::{Book, NodeId};
use std::alloc::AllocError;
use typed_nodes::{empty, identity, successor, term_instance, zero};

/// Zero, and its successors up to the one of this number.
///
/// # Errors
/// Only where memory runs out.
pub fn successors(book: &mut Book, count: u64) -> Result<NodeId, AllocError>
    ensures { IfOk result (IsTerm book.new) }
{
    let ctx = empty(book)?;
    let mut number = zero(book, ctx)?;
    for _ in 0..count {
        number = successor(book, number)?;
    }
    Ok(number)
}

/// Zero, so many times under the substitution that does nothing.
///
/// # Errors
/// Only where memory runs out.
pub fn instances(book: &mut Book, count: u64) -> Result<NodeId, AllocError>
    ensures { IfOk result (IsTerm book.new) }
{
    let ctx = empty(book)?;
    let sub = identity(book, ctx)?;
    let mut term = zero(book, ctx)?;
    for _ in 0..count {
        term = term_instance(book, sub, term)?;
    }
    Ok(term)
}
