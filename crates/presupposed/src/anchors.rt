//! Typings whose types are at hand.

ghost use Rattle.std.specs.Prelude.{◌≡◌, IfOk, Some};
ghost use Rattle.trees.specs.Trees.{Tree};
ghost use Rattle.trees.specs.Judgements.{Context};
ghost use Rattle.trees.specs.Language.{Tm, Ty, TyEq};
ghost use Rattle.trees.specs.Things.{AContext, ATree};
ghost use Rattle.book.specs.Shown.{Extends, book_means};
ghost use Rattle.typed_nodes.specs.Typed.{Says};
ghost use Rattle.presupposed.specs.Anchors.{IsAnchor, IsReflexive};

use book::{Book, Few, NodeId, RuleUse};
use std::alloc::AllocError;
use theory::{EqualityRule, RuleName};
use typed_nodes::{subject_row, type_row};

/// The row of G, of `G >> a : A`
fn context_row(book: &Book, typing: NodeId) -> u64
    requires { (G : Context) × (a A : Tree) × Says book.now typing (Tm G a A) }
    ensures { (G : Context) (a A : Tree) → Says book.now typing (Tm G a A)
        → book_means book.now result ≡ Some (AContext G) }
{
    let rows = book.conclusion(typing).rows();
    rows.as_slice()[0]
}

/// `G >> A = A`, of `G >> A`, by the rows of G and A
fn reflexive(book: &mut Book, ctx: u64, tree: u64, ty: NodeId) -> Result<NodeId, AllocError>
    requires { (G : Context) × (A : Tree) × (book_means book.old ctx ≡ Some (AContext G))
        × (book_means book.old tree ≡ Some (ATree A)) × Says book.old ty (Ty G A) }
    ensures extends { Extends book.old book.new }
    ensures typed { IfOk result (λ node. (G : Context) (A : Tree) →
        book_means book.old ctx ≡ Some (AContext G) → book_means book.old tree ≡ Some (ATree A)
        → Says book.old ty (Ty G A) → Says book.new node (TyEq G A A)) }
    ensures made { IfOk result (λ node. IsReflexive book.new node ty) }
{
    Ok(book.conclude(&RuleUse {
        rule: RuleName::Equality(EqualityRule::TyEqRefl),
        parts: Few::of(&[ctx, tree]),
        premises: Few::of(&[ty.0]),
    })?)
}

/// `G >> a : A` once more, of `G >> a : A` and `G >> A`: converted to that very type, so that the
/// walk for its type ends there.
///
/// # Errors
/// Only where memory runs out.
pub fn anchor(book: &mut Book, typing: NodeId, ty: NodeId) -> Result<NodeId, AllocError>
    requires { (G : Context) × (a A : Tree) × Says book.old typing (Tm G a A)
        × Says book.old ty (Ty G A) }
    ensures extends { Extends book.old book.new }
    ensures typed { IfOk result (λ node. (G : Context) (a A : Tree) →
        Says book.old typing (Tm G a A) → Says book.old ty (Ty G A)
        → Says book.new node (Tm G a A)) }
    ensures anchored { IfOk result (λ node. IsAnchor book.new node typing ty) }
{
    let ctx = context_row(book, typing);
    let term = subject_row(book, typing);
    let tree = type_row(book, typing);
    let same = reflexive(book, ctx, tree, ty)?;
    Ok(book.conclude(&RuleUse {
        rule: RuleName::Equality(EqualityRule::TmConv),
        parts: Few::of(&[ctx, term, tree, tree]),
        premises: Few::of(&[typing.0, same.0]),
    })?)
}
