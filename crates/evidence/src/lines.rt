//! Evidence, with the texts that show it.

ghost use Rattle.std.specs.Prelude.{◌≡◌, ◌↔◌, IfOk, IsSome, IsTrue, List, Some, option_map};
ghost use Rattle.trees.specs.Judgements.{Judgement};
ghost use Rattle.rows.specs.Views.{IsContext, IsTree};
ghost use Rattle.rows.specs.declared.views.TermId.{TermId};
ghost use Rattle.side_conditions.specs.Contexts.{context_of};
ghost use Rattle.side_conditions.specs.Shapes.{tree_of};
ghost use Rattle.normal_parts.specs.Normal.{Begins};
ghost use Rattle.book.specs.Shown.{book_means};
ghost use Rattle.book_writer.specs.Written.{concluded_by};
ghost use Rattle.evidence.specs.Sides.{IsPlace};
ghost use Rattle.evidence.specs.Told.{AreShown, AreTwo, IsNormalType, IsOf, IsTypeShown};
ghost use Rattle.evidence.specs.Told.{IsUniverse};
ghost use Rattle.evidence.specs.Texts.{AreTwoTexts};
ghost use Rattle.evidence.specs.declared.lines.Evidence.{Evidence};
ghost use Rattle.evidence.specs.declared.texts.Shown.{Shown};

use crate::face_texts::face_text;
use crate::openings::begins_with;
use crate::sides::{Place, Sort, is_normal_at, place_of_equation, right_side, text_at};
use crate::texts::Shown;
use book::{Book, NodeId};
use book_writer::write;
use compare::Comparison;
use rows::{CtxId, TermId};
use std::alloc::{AllocError, Global};
use theory::{Op, PartKind};

/// Evidence of a refusal.
#[derive(Drop, Debug)]
pub struct Evidence {
    /// What is shown of it.
    pub shown: Shown,
    /// The bytes of the derivation that has it.
    pub bytes: Vec<u8>,
}

/// What is shown, and a file with these roots.
pub(crate) fn with_file(
    alloc: Global,
    book: &Book,
    shown: Shown,
    roots: &[NodeId],
) -> Result<Evidence, AllocError>
    requires { IsSome (concluded_by book.now roots.now) }
    ensures { (Js : List Judgement) → concluded_by book.now roots.now ≡ Some Js →
        IfOk result (IsOf shown Js) }
{
    let mut bytes = Vec::new(alloc);
    let _rows = write(book, alloc, roots, &mut bytes)?;
    Ok(Evidence { shown, bytes })
}

/// The normal right side of an equation of types, at a place.
fn normal_type(
    alloc: Global,
    book: &Book,
    place: &Place,
    equation: NodeId,
) -> Result<Option<TermId>, AllocError>
    requires { IsPlace (context_of (book_means book.now place.now.ctx.0)) place.now }
    ensures { IfOk result (λ found. (right : TermId) → found ≡ Some right →
        IsNormalType book.now (context_of (book_means book.now place.now.ctx.0))
        equation.0 right.0) }
{
    let Some(side) = right_side(book, equation) else {
        return Ok(None);
    };
    if side.sort != Sort::Types || side.ctx != place.ctx {
        return Ok(None);
    }
    if !is_normal_at(alloc, book, place, side.right)? {
        return Ok(None);
    }
    Ok(Some(side.right))
}

/// The evidence that a type is equal to a normal one, which does not begin with this operator, if
/// one is named.
fn type_at(
    alloc: Global,
    book: &Book,
    place: &Place,
    unwanted: Option<Op>,
    equation: NodeId,
) -> Result<Option<Evidence>, AllocError>
    requires { IsPlace (context_of (book_means book.now place.now.ctx.0)) place.now }
    ensures { IfOk result (λ found. (e : Evidence) → found ≡ Some e → IsTypeShown unwanted e) }
{
    let Some(right) = normal_type(alloc, book, place, equation)? else {
        return Ok(None);
    };
    if let Some(op) = unwanted {
        if begins_with(alloc, book, op, right)? {
            return Ok(None);
        }
    }
    let Some(text) = text_at(alloc, book, place, right)? else {
        return Ok(None);
    };
    Ok(Some(with_file(alloc, book, Shown::Type(text), &[equation])?))
}

/// The evidence that a type is the universe, at a place.
fn universe_at(
    alloc: Global,
    book: &Book,
    place: &Place,
    equation: NodeId,
) -> Result<Option<Evidence>, AllocError>
    requires { IsPlace (context_of (book_means book.now place.now.ctx.0)) place.now }
    ensures { IfOk result (λ found. (e : Evidence) → found ≡ Some e → IsUniverse e) }
{
    let Some(right) = normal_type(alloc, book, place, equation)? else {
        return Ok(None);
    };
    if !begins_with(alloc, book, Op::U, right)? {
        return Ok(None);
    }
    Ok(Some(with_file(alloc, book, Shown::Nothing, &[equation])?))
}

/// The evidence that a type is the universe, of `G >> W = U`. None where that is not what the node
/// concludes.
///
/// # Errors
/// Only where memory runs out.
pub fn of_universe(
    alloc: Global,
    book: &mut Book,
    equation: NodeId,
) -> Result<Option<Evidence>, AllocError>
    ensures { IfOk result (λ found. (e : Evidence) → found ≡ Some e → IsUniverse e) }
{
    match place_of_equation(alloc, book, equation)? {
        Some(place) => Ok(universe_at(alloc, book, &place, equation)?),
        None => Ok(None),
    }
}

/// The evidence that a type is equal to a normal one, of `G >> T = N`, where N does not begin with
/// this operator, if one is named. None where that is not what the node concludes.
///
/// # Errors
/// Only where memory runs out.
pub fn of_type(
    alloc: Global,
    book: &mut Book,
    unwanted: Option<Op>,
    equation: NodeId,
) -> Result<Option<Evidence>, AllocError>
    ensures { IfOk result (λ found. (e : Evidence) → found ≡ Some e → IsTypeShown unwanted e) }
{
    match place_of_equation(alloc, book, equation)? {
        Some(place) => Ok(type_at(alloc, book, &place, unwanted, equation)?),
        None => Ok(None),
    }
}

/// Whether two rows of contexts mean the same.
pub(crate) fn same_context(
    alloc: Global,
    book: &Book,
    left: CtxId,
    right: CtxId,
) -> Result<bool, AllocError>
    requires left { IsContext (book_means book.now left.0) }
    requires right { IsContext (book_means book.now right.0) }
    ensures { let f = book_means book.now in
        IfOk result (λ same. IsTrue same → f left.0 ≡ f right.0) }
{
    let mut comparison = Comparison::new(alloc);
    Ok(comparison.same(book, PartKind::Context, left.0, right.0)?)
}

/// The normal right sides of two equations of one sort, at a place, if they differ.
pub(crate) fn two_sides(
    alloc: Global,
    book: &Book,
    place: &Place,
    found: NodeId,
    wanted: NodeId,
) -> Result<Option<(TermId, TermId)>, AllocError>
    requires { IsPlace (context_of (book_means book.now place.now.ctx.0)) place.now }
    ensures { IfOk result (λ both. (l r : TermId) → both ≡ Some (l, r) →
        AreTwo book.now (context_of (book_means book.now place.now.ctx.0))
        found.0 wanted.0 l.0 r.0) }
{
    let Some(left) = right_side(book, found) else {
        return Ok(None);
    };
    let Some(right) = right_side(book, wanted) else {
        return Ok(None);
    };
    if left.sort != right.sort || left.ctx != place.ctx {
        return Ok(None);
    }
    if !same_context(alloc, book, right.ctx, place.ctx)? {
        return Ok(None);
    }
    if !is_normal_at(alloc, book, place, left.right)? {
        return Ok(None);
    }
    if !is_normal_at(alloc, book, place, right.right)? {
        return Ok(None);
    }
    if book.same_tree(left.right, right.right)? {
        return Ok(None);
    }
    Ok(Some((left.right, right.right)))
}

/// What is shown of two trees of a place, on a face if one is named that is one conjunction.
pub(crate) fn shown_two(
    alloc: Global,
    book: &Book,
    place: &Place,
    face: Option<TermId>,
    left: TermId,
    right: TermId,
) -> Result<Option<Shown>, AllocError>
    requires context { IsContext (book_means book.now place.now.ctx.0) }
    requires place { IsPlace (context_of (book_means book.now place.now.ctx.0)) place.now }
    requires left { IsTree (book_means book.now left.0) }
    requires right { IsTree (book_means book.now right.0) }
    ensures { let f = book_means book.now in
        let G = context_of (f place.now.ctx.0) in
        let on = option_map (λ (row : TermId). tree_of (f row.0)) face in
        IfOk result (λ told. (s : Shown) → told ≡ Some s →
        AreTwoTexts on G (tree_of (f left.0)) (tree_of (f right.0)) s) }
{
    let Some(found) = text_at(alloc, book, place, left)? else {
        return Ok(None);
    };
    let Some(wanted) = text_at(alloc, book, place, right)? else {
        return Ok(None);
    };
    let Some(face) = face else {
        return Ok(Some(Shown::Two { found, wanted }));
    };
    if !book.is_of_kind(face.0, PartKind::Term) {
        return Ok(None);
    }
    let Some(face) = face_text(alloc, book, place.ctx, face)? else {
        return Ok(None);
    };
    Ok(Some(Shown::OnFace {
        face,
        found,
        wanted,
    }))
}

/// The evidence that two types, or two terms, are equal to two normal ones that differ, at a place.
fn two_at(
    alloc: Global,
    book: &Book,
    place: &Place,
    face: Option<TermId>,
    equations: [NodeId; 2],
) -> Result<Option<Evidence>, AllocError>
    requires context { IsContext (book_means book.now place.now.ctx.0) }
    requires place { IsPlace (context_of (book_means book.now place.now.ctx.0)) place.now }
    ensures { IfOk result (λ found. (e : Evidence) → found ≡ Some e → AreShown face e) }
{
    let [found, wanted] = equations;
    let Some((left, right)) = two_sides(alloc, book, place, found, wanted)? else {
        return Ok(None);
    };
    let Some(shown) = shown_two(alloc, book, place, face, left, right)? else {
        return Ok(None);
    };
    Ok(Some(with_file(alloc, book, shown, &[found, wanted])?))
}

/// The evidence that two types, or two terms, are equal to two normal ones that differ: what was
/// found, and what is wanted, on a face if one is named. None where that is not what the nodes
/// conclude.
///
/// # Errors
/// Only where memory runs out.
pub fn differing(
    alloc: Global,
    book: &mut Book,
    face: Option<TermId>,
    found: NodeId,
    wanted: NodeId,
) -> Result<Option<Evidence>, AllocError>
    ensures { IfOk result (λ told. (e : Evidence) → told ≡ Some e → AreShown face e) }
{
    match place_of_equation(alloc, book, found)? {
        Some(place) => Ok(two_at(alloc, book, &place, face, [found, wanted])?),
        None => Ok(None),
    }
}
