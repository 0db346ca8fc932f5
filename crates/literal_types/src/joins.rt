//! What waits, as one substitution.

ghost use Rattle.std.specs.Prelude.{◌≡◌, IfOk, reverse};
ghost use Rattle.trees.specs.Trees.{Tree, Subst, apply, then};
ghost use Rattle.trees.specs.Judgements.{Context};
ghost use Rattle.trees.specs.Language.{Sb};
ghost use Rattle.book.specs.Shown.{Extends};
ghost use Rattle.typed_nodes.specs.Typed.{Says};
ghost use Rattle.literal_types.specs.Substitutions.{IsFrom};
ghost use Rattle.literal_types.specs.Waits.{Joins, Waits};

use crate::entries::past;
use crate::sources::identity_from;
use crate::substitutions::{Substitution, unfolded};
use crate::waiting::Waiting;
use book::{Book, NodeId};
use std::alloc::{AllocError, Global};
use typed_nodes::composed;

/// `d then e : K to G`, of `e : K to H` and `d : H to G`. Where one does nothing, it is the other.
pub fn joined_two(book: &mut Book, inner: NodeId, outer: NodeId) -> Result<NodeId, AllocError>
    requires { (K H G : Context) × (e d : Subst) × Says book.old inner (Sb K e H)
        × Says book.old outer (Sb H d G) }
    ensures extends { Extends book.old book.new }
    ensures typed { IfOk result (λ node. (K H G : Context) (e d : Subst) →
        Says book.old inner (Sb K e H) → Says book.old outer (Sb H d G)
        → Says book.new node (Sb K (then d e) G)) }
{
    if let Substitution::Identity(_) = unfolded(book, inner) {
        return Ok(outer);
    }
    if let Substitution::Identity(_) = unfolded(book, outer) {
        return Ok(inner);
    }
    Ok(composed(book, inner, outer)?)
}

/// The last of what waits, as a node. Where nothing waits, nothing is done from where `from` is
/// from.
fn last_waiting(
    alloc: Global,
    book: &mut Book,
    from: NodeId,
    waiting: &mut Vec<Waiting>,
) -> Result<NodeId, AllocError>
    requires { (H : Context) × (T : Tree) × (K : Context) × (A : Tree) × IsFrom book.old from H
        × Waits book.old (reverse waiting.old.items) H T K A }
    ensures extends { Extends book.old book.new }
    ensures joins { IfOk result (λ node. (H : Context) (T : Tree) (K : Context) (A : Tree) →
        IsFrom book.old from H → Waits book.old (reverse waiting.old.items) H T K A
        → Joins book.old book.new node (reverse waiting.new.items) H T K A) }
{
    let Some(last) = waiting.pop() else {
        return Ok(identity_from(alloc, book, from)?);
    };
    match last {
        Waiting::Sub(sub) => Ok(sub),
        Waiting::Past(below, entry) => {
            let sub = identity_from(alloc, book, below)?;
            Ok(past(book, sub, entry)?)
        }
    }
}

/// What waits, the last first, as one substitution. It is from where `from` is from.
pub fn joined(
    alloc: Global,
    book: &mut Book,
    from: NodeId,
    mut waiting: Vec<Waiting>,
) -> Result<NodeId, AllocError>
    requires { (H : Context) × (T : Tree) × (K : Context) × (A : Tree) × IsFrom book.old from H
        × Waits book.old (reverse waiting.items) H T K A }
    ensures extends { Extends book.old book.new }
    ensures joins { IfOk result (λ node. (H : Context) (T : Tree) (K : Context) (A : Tree) →
        IsFrom book.old «from» H → Waits book.old (reverse waiting.items) H T K A
        → (d : Subst) × Says book.new node (Sb H d K) × (T ≡ apply A d)) }
{
    let mut sub = last_waiting(alloc, book, from, &mut waiting)?;
    while let Some(next) = waiting.pop() {
        sub = match next {
            Waiting::Sub(inner) => joined_two(book, inner, sub)?,
            Waiting::Past(_, entry) => past(book, sub, entry)?,
        };
    }
    Ok(sub)
}
