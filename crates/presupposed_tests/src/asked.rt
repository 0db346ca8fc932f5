//! Questions about derivations.

ghost use Rattle.presupposed_tests.specs.Grown.{IsEquation, IsForm, IsTerm};

use book::{Book, NodeId};
use presupposed::{OpenedTerm, left_of, opened_term, type_of};
use std::alloc::{AllocError, Global};

/// The type of a term.
///
/// # Errors
/// Only where memory runs out.
pub fn type_of_term(alloc: Global, book: &mut Book, term: NodeId) -> Result<NodeId, AllocError>
    requires { IsTerm book.old term }
{
    Ok(type_of(alloc, book, term)?)
}

/// The left side of an equation.
///
/// # Errors
/// Only where memory runs out.
pub fn left_side(alloc: Global, book: &mut Book, equation: NodeId) -> Result<NodeId, AllocError>
    requires { IsEquation book.old equation }
{
    Ok(left_of(alloc, book, equation)?)
}

/// The parts of a term that is a form.
///
/// # Errors
/// Only where memory runs out.
pub fn opened_form(alloc: Global, book: &mut Book, term: NodeId) -> Result<OpenedTerm, AllocError>
    requires { IsForm book.old term }
{
    Ok(opened_term(alloc, book, term)?)
}
