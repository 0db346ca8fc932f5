//! Questions, and whether their answers conclude what they should.

ghost use Rattle.trees.specs.Trees.{Subst, Tree};
ghost use Rattle.trees.specs.Judgements.{Context, Judgement};
ghost use Rattle.trees.specs.Language.{Ctx, Sb, Tm, Ty};
ghost use Rattle.book.specs.Shown.{Extends};
ghost use Rattle.typed_nodes.specs.Typed.{Says};
ghost use Rattle.presupposed.specs.Asked.{Equates, IsAt, IsIn};
ghost use Rattle.behind_tests.specs.Claims.{IsClaim};

use book::{Book, NodeId};
use compare::Comparison;
use presupposed::{anchor, context_of, far_of, home_of, left_of, right_of, type_of};
use std::alloc::{AllocError, Global};
use theory::Claim;

/// Whether the node concludes the claim.
pub fn concludes(alloc: Global, book: &Book, node: NodeId, claim: Claim) -> Result<bool, AllocError>
    requires { (I J : Judgement) × Says book.now node I × IsClaim book.now claim J }
{
    let mut comparison = Comparison::new(alloc);
    let found = book.conclusion(node);
    Ok(comparison.same_claim(book, found, claim)?)
}

/// Whether the context of a type, a term or an equation is this one.
pub fn context_is(
    alloc: Global,
    book: &mut Book,
    node: NodeId,
    ctx: Claim,
) -> Result<bool, AllocError>
    requires { (G : Context) × IsIn book.old node G × IsClaim book.old ctx (Ctx G) }
    ensures { Extends book.old book.new }
{
    let found = context_of(alloc, book, node)?;
    Ok(concludes(alloc, book, found, ctx)?)
}

/// Whether the target of a substitution is this context.
pub fn home_is(alloc: Global, book: &mut Book, sub: NodeId, ctx: Claim) -> Result<bool, AllocError>
    requires { (H G : Context) × (d : Subst) × Says book.old sub (Sb H d G)
        × IsClaim book.old ctx (Ctx G) }
    ensures { Extends book.old book.new }
{
    let found = home_of(alloc, book, sub)?;
    Ok(concludes(alloc, book, found, ctx)?)
}

/// Whether the source of a substitution is this context.
pub fn far_is(alloc: Global, book: &mut Book, sub: NodeId, ctx: Claim) -> Result<bool, AllocError>
    requires { (H G : Context) × (d : Subst) × Says book.old sub (Sb H d G)
        × IsClaim book.old ctx (Ctx H) }
    ensures { Extends book.old book.new }
{
    let found = far_of(alloc, book, sub)?;
    Ok(concludes(alloc, book, found, ctx)?)
}

/// Whether the type of a term, or of an equation of terms, is this one.
pub fn type_is(alloc: Global, book: &mut Book, node: NodeId, ty: Claim) -> Result<bool, AllocError>
    requires { (G : Context) × (A : Tree) × IsAt book.old node G A
        × IsClaim book.old ty (Ty G A) }
    ensures { Extends book.old book.new }
{
    let found = type_of(alloc, book, node)?;
    Ok(concludes(alloc, book, found, ty)?)
}

/// Whether the left side of an equation is this one.
pub fn left_is(
    alloc: Global,
    book: &mut Book,
    equation: NodeId,
    side: Claim,
) -> Result<bool, AllocError>
    requires { (left right : Judgement) × Equates book.old equation left right
        × IsClaim book.old side left }
    ensures { Extends book.old book.new }
{
    let found = left_of(alloc, book, equation)?;
    Ok(concludes(alloc, book, found, side)?)
}

/// Whether the right side of an equation is this one.
pub fn right_is(
    alloc: Global,
    book: &mut Book,
    equation: NodeId,
    side: Claim,
) -> Result<bool, AllocError>
    requires { (left right : Judgement) × Equates book.old equation left right
        × IsClaim book.old side right }
    ensures { Extends book.old book.new }
{
    let found = right_of(alloc, book, equation)?;
    Ok(concludes(alloc, book, found, side)?)
}

/// Whether a typing is the same when it is anchored at its type.
pub fn anchored_is(
    alloc: Global,
    book: &mut Book,
    typing: NodeId,
    claim: Claim,
) -> Result<bool, AllocError>
    requires { (G : Context) × (a A : Tree) × Says book.old typing (Tm G a A)
        × IsClaim book.old claim (Tm G a A) }
    ensures { Extends book.old book.new }
{
    let ty = type_of(alloc, book, typing)?;
    let anchored = anchor(book, typing, ty)?;
    Ok(concludes(alloc, book, anchored, claim)?)
}
