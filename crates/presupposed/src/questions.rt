//! The questions.

ghost use Rattle.std.specs.Prelude.{IfOk};
ghost use Rattle.trees.specs.Trees.{Subst, Tree};
ghost use Rattle.trees.specs.Judgements.{Context, Judgement};
ghost use Rattle.trees.specs.Language.{Ctx, Sb, Ty};
ghost use Rattle.book.specs.Shown.{Extends};
ghost use Rattle.typed_nodes.specs.Typed.{Says};
ghost use Rattle.presupposed.specs.Asked.{Equates, IsAt, IsIn};

use crate::memory::Question;
use crate::walk::answer;
use book::{Book, NodeId};
use presuppositions::Label;
use std::alloc::{AllocError, Global};

/// `ctx G`, of a type, a term or an equation in G
///
/// # Errors
/// Only where memory runs out.
pub fn context_of(alloc: Global, book: &mut Book, node: NodeId) -> Result<NodeId, AllocError>
    requires { (G : Context) × IsIn book.old node G }
    ensures extends { Extends book.old book.new }
    ensures typed { IfOk result (λ ctx. (G : Context) →
        IsIn book.old node G → Says book.new ctx (Ctx G)) }
{
    let question = Question {
        node,
        label: Label::Context,
    };
    Ok(answer(alloc, book, question)?)
}

/// `ctx G`, of `d : H to G`
///
/// # Errors
/// Only where memory runs out.
pub fn home_of(alloc: Global, book: &mut Book, sub: NodeId) -> Result<NodeId, AllocError>
    requires { (H G : Context) × (d : Subst) × Says book.old sub (Sb H d G) }
    ensures extends { Extends book.old book.new }
    ensures typed { IfOk result (λ ctx. (H G : Context) (d : Subst) →
        Says book.old sub (Sb H d G) → Says book.new ctx (Ctx G)) }
{
    let question = Question {
        node: sub,
        label: Label::To,
    };
    Ok(answer(alloc, book, question)?)
}

/// `ctx H`, of `d : H to G`
///
/// # Errors
/// Only where memory runs out.
pub fn far_of(alloc: Global, book: &mut Book, sub: NodeId) -> Result<NodeId, AllocError>
    requires { (H G : Context) × (d : Subst) × Says book.old sub (Sb H d G) }
    ensures extends { Extends book.old book.new }
    ensures typed { IfOk result (λ ctx. (H G : Context) (d : Subst) →
        Says book.old sub (Sb H d G) → Says book.new ctx (Ctx H)) }
{
    let question = Question {
        node: sub,
        label: Label::From,
    };
    Ok(answer(alloc, book, question)?)
}

/// `G >> A`, of `G >> a : A` or `G >> a = b : A`
///
/// # Errors
/// Only where memory runs out.
pub fn type_of(alloc: Global, book: &mut Book, node: NodeId) -> Result<NodeId, AllocError>
    requires { (G : Context) × (A : Tree) × IsAt book.old node G A }
    ensures extends { Extends book.old book.new }
    ensures typed { IfOk result (λ ty. (G : Context) (A : Tree) → IsAt book.old node G A →
        Says book.new ty (Ty G A)) }
{
    let question = Question {
        node,
        label: Label::Type,
    };
    Ok(answer(alloc, book, question)?)
}

/// `G >> A`, of `G >> A = B`, and `G >> a : A`, of `G >> a = b : A`
///
/// # Errors
/// Only where memory runs out.
pub fn left_of(alloc: Global, book: &mut Book, node: NodeId) -> Result<NodeId, AllocError>
    requires { (left right : Judgement) × Equates book.old node left right }
    ensures extends { Extends book.old book.new }
    ensures typed { IfOk result (λ side. (left right : Judgement) →
        Equates book.old node left right → Says book.new side left) }
{
    let question = Question {
        node,
        label: Label::Left,
    };
    Ok(answer(alloc, book, question)?)
}

/// `G >> B`, of `G >> A = B`, and `G >> b : A`, of `G >> a = b : A`
///
/// # Errors
/// Only where memory runs out.
pub fn right_of(alloc: Global, book: &mut Book, node: NodeId) -> Result<NodeId, AllocError>
    requires { (left right : Judgement) × Equates book.old node left right }
    ensures extends { Extends book.old book.new }
    ensures typed { IfOk result (λ side. (left right : Judgement) →
        Equates book.old node left right → Says book.new side right) }
{
    let question = Question {
        node,
        label: Label::Right,
    };
    Ok(answer(alloc, book, question)?)
}
