//! Evidence that two types could not be aligned.

ghost use Rattle.std.specs.Prelude.{◌≡◌, IfOk, IsTrue, Some};
ghost use Rattle.rows.specs.Views.{IsContext};
ghost use Rattle.side_conditions.specs.Contexts.{context_of};
ghost use Rattle.book.specs.Shown.{book_means};
ghost use Rattle.evidence.specs.Sides.{IsPlace, IsOfTypes};
ghost use Rattle.evidence.specs.Told.{AreEquated, IsUnaligned};
ghost use Rattle.evidence.specs.declared.aligned.TypesEquation.{TypesEquation};
ghost use Rattle.evidence.specs.declared.lines.Evidence.{Evidence};

use crate::lines::{Evidence, same_context, shown_two, two_sides, with_file};
use crate::sides::{Place, place_of_equation};
use book::{Book, NodeId};
use rows::{CtxId, TermId};
use std::alloc::{AllocError, Global};
use theory::Claim;

/// Two types that are equal, `G >> B = A`, and the equation of each with its normal form.
#[derive(Clone, Copy, Debug, PartialEq, Eq)]
pub struct Equated {
    pub types: NodeId,
    pub found: NodeId,
    pub wanted: NodeId,
}

/// An equation of types, by its rows.
#[derive(Clone, Copy, Debug)]
pub(crate) struct TypesEquation {
    ctx: CtxId,
    left: TermId,
    right: TermId,
}

/// What a node concludes, if that is an equation of types.
fn types_of(book: &Book, equation: NodeId) -> Option<TypesEquation>
    ensures { (e : TypesEquation) → result ≡ Some e → IsOfTypes book.now equation.0 e }
{
    if !book.is_node(equation) {
        return None;
    }
    match book.conclusion(equation) {
        Claim::TyEq(ctx, left, right) => Some(TypesEquation {
            ctx: CtxId(ctx),
            left: TermId(left),
            right: TermId(right),
        }),
        _ => None,
    }
}

/// Whether nodes conclude that two types are equal, and what each is equal to.
fn are_equated(alloc: Global, book: &Book, nodes: Equated) -> Result<bool, AllocError>
    ensures { IfOk result (λ yes. IsTrue yes → AreEquated book.now nodes) }
{
    let Some(types) = types_of(book, nodes.types) else {
        return Ok(false);
    };
    let Some(found) = types_of(book, nodes.found) else {
        return Ok(false);
    };
    let Some(wanted) = types_of(book, nodes.wanted) else {
        return Ok(false);
    };
    if !same_context(alloc, book, found.ctx, types.ctx)? {
        return Ok(false);
    }
    if !same_context(alloc, book, wanted.ctx, types.ctx)? {
        return Ok(false);
    }
    if !book.same_tree(found.left, types.left)? {
        return Ok(false);
    }
    Ok(book.same_tree(wanted.left, types.right)?)
}

/// The evidence that two types that are equal are equal to two normal ones that differ, at a place.
fn unaligned_at(
    alloc: Global,
    book: &Book,
    place: &Place,
    nodes: Equated,
) -> Result<Option<Evidence>, AllocError>
    requires context { IsContext (book_means book.now place.now.ctx.0) }
    requires place { IsPlace (context_of (book_means book.now place.now.ctx.0)) place.now }
    ensures { IfOk result (λ told. (e : Evidence) → told ≡ Some e → IsUnaligned e) }
{
    let Equated {
        types,
        found,
        wanted,
    } = nodes;
    if !are_equated(alloc, book, nodes)? {
        return Ok(None);
    }
    let Some((left, right)) = two_sides(alloc, book, place, found, wanted)? else {
        return Ok(None);
    };
    let Some(shown) = shown_two(alloc, book, place, None, left, right)? else {
        return Ok(None);
    };
    Ok(Some(with_file(alloc, book, shown, &[types, found, wanted])?))
}

/// The evidence that two types that are equal are equal to two normal ones that differ. None where
/// that is not what the nodes conclude.
///
/// # Errors
/// Only where memory runs out.
pub fn unaligned(
    alloc: Global,
    book: &mut Book,
    nodes: Equated,
) -> Result<Option<Evidence>, AllocError>
    ensures { IfOk result (λ told. (e : Evidence) → told ≡ Some e → IsUnaligned e) }
{
    match place_of_equation(alloc, book, nodes.found)? {
        Some(place) => Ok(unaligned_at(alloc, book, &place, nodes)?),
        None => Ok(None),
    }
}
