//! The parts of types.

ghost use Rattle.std.specs.Prelude.{◌≡◌, IfOk, Some, true};
ghost use Rattle.trees.specs.Trees.{Tree};
ghost use Rattle.trees.specs.Judgements.{Context, Judgement};
ghost use Rattle.trees.specs.Language.{Ty};
ghost use Rattle.book.specs.Shown.{Extends};
ghost use Rattle.typed_nodes.specs.Typed.{Says};
ghost use Rattle.literal_types.specs.Literal.{IsLiteral};
ghost use Rattle.presuppositions.specs.Behind.{behind};
ghost use Rattle.presuppositions.specs.Sought.{is_of_parts};

use crate::parts::part_of;
use crate::questions::context_of;
use book::{Book, NodeId};
use literal_types::{Literal, literal};
use presuppositions::Label;
use std::alloc::{AllocError, Global};
use typed_nodes::{TypeAt, identity};

/// What a type literally is, by the nodes of its parts at home.
///
/// # Errors
/// Only where memory runs out.
pub fn kids_of(alloc: Global, book: &mut Book, ty: NodeId) -> Result<Literal, AllocError>
    requires { (G : Context) × (T : Tree) × Says book.old ty (Ty G T) }
    ensures extends { Extends book.old book.new }
    ensures literal { IfOk result (λ literal. (G : Context) (T : Tree) →
        Says book.old ty (Ty G T) → IsLiteral book.new literal G T) }
{
    let ctx = context_of(alloc, book, ty)?;
    let sub = identity(book, ctx)?;
    Ok(literal(alloc, book, TypeAt { ty, sub })?)
}

/// The part with a label of a type of functions or pairs, or of paths, in the context of the type.
///
/// # Errors
/// Only where memory runs out.
pub fn kid_of(
    alloc: Global,
    book: &mut Book,
    ty: NodeId,
    label: Label,
) -> Result<NodeId, AllocError>
    requires { (G : Context) × (T : Tree) × (J : Judgement) × Says book.old ty (Ty G T)
        × (is_of_parts label ≡ true) × (behind label (Ty G T) ≡ Some J) }
    ensures extends { Extends book.old book.new }
    ensures typed { IfOk result (λ kid. (G : Context) (T : Tree) (J : Judgement) →
        Says book.old ty (Ty G T) → is_of_parts label ≡ true
        → behind label (Ty G T) ≡ Some J → Says book.new kid J) }
{
    let ctx = context_of(alloc, book, ty)?;
    Ok(part_of(alloc, book, ctx, ty, label)?)
}
