//! An expression is at hand, and is put into its place.

ghost use Rattle.std.specs.Prelude.{◌≡◌, ◌∷◌, ◌++◌, ◌-◌, [], IfOk};
ghost use Rattle.syntax.specs.Tree.{At as an_at};
ghost use Rattle.syntax.specs.View.{element_of, elements_of, formula_of, sides_of, tree_of};
ghost use Rattle.productions.specs.Grammar.{
  applied as applied_to,
  composing,
  from as from_start,
  gluing,
  projected as projected_by,
};
ghost use Rattle.productions.specs.Machine.{
  after as place_after,
  give as give_to,
  owned as owned_by,
  place_of as place_under,
  put as put_in,
  room_of,
  FirstOf,
  Projected as AfterExp5,
  SecondOf,
};
ghost use Rattle.productions.specs.declared.past.Past.{Past as Past_};
ghost use Rattle.parser_states.specs.View.{
  composing_of,
  form_word_of,
  given_of,
  gluing_of,
  owner_of,
  pairing_of,
  place_of,
  projected_of,
  slot_of,
  spine_of,
  spined_of,
};

use layout_lexer::Span;
use parser_states::{
    Composing, FormWord, Given, Gluing, Owner, Pairing, Place, Projected, Slot, Spine,
    keep_element, spanned,
};
use productions::Past;
use std::alloc::{AllocError, Global};
use syntax::{Element, Elements, Exp, Formula, Projection, Projections, Sides};

/// The application in which the expression was put.
#[inline(always)]
pub(crate) fn put(alloc: Global, place: Place, exp: Exp) -> Result<Box<Spine>, AllocError>
    ensures after { IfOk result (λ x.
        spine_of x.value ≡ place_after (place_of place) (tree_of exp)) }
    ensures put { IfOk result (λ x.
        spined_of x.value ≡ put_in (place_of place) (tree_of exp)) }
{
    match place {
        Place::Head { room, start } => Ok(Box::new(
            alloc,
            Spine {
                room,
                next: room,
                start,
                head: exp,
                elements: Elements::new(alloc),
            },
        )?),
        Place::Element(spine) => Ok(with_element(spine, Element::Argument(exp))?),
    }
}

/// The application with one element more, in the same box.
#[inline(always)]
fn with_element(mut spine: Box<Spine>, element: Element) -> Result<Box<Spine>, AllocError>
    ensures { IfOk result (λ x.
        spine_of x.value ≡ place_after (spine_of spine.value) (element_of element)) }
{
    let next = spine.next;
    keep_element(&mut spine.elements, next, element)?;
    spine.next = next.saturating_sub(1);
    Ok(spine)
}

/// Puts `@` with its formula after the elements.
#[inline(always)]
pub fn put_at(spine: Box<Spine>, at: Span, formula: Formula) -> Result<Box<Spine>, AllocError>
    ensures { IfOk result (λ x.
        spined_of x.value ≡ put_in (spine_of spine.value) (an_at at (formula_of formula))) }
{
    Ok(with_element(spine, Element::At(at, formula))?)
}

/// Puts an expression into its place.
#[inline(always)]
fn give(alloc: Global, slot: Slot, exp: Exp, past: Past) -> Result<Given, AllocError>
    ensures { IfOk result (λ x. given_of x ≡ give_to (slot_of slot) (tree_of exp) past) }
{
    match slot {
        Slot::Whole(place) => Ok(Given::Spined(put(alloc, place, exp)?)),
        Slot::First { word, start, place } => {
            let exp = Box::new(alloc, exp)?;
            Ok(after_first(word, start, exp, place))
        }
        Slot::Second {
            word,
            start,
            first,
            place,
        } => Ok(after_second(alloc, word, start, first, exp, place, past)?),
        Slot::Third {
            start,
            first,
            second,
            place,
        } => {
            let line = Box::into_inner(first);
            let left = Box::into_inner(second);
            let whole = Exp::path_type(alloc, spanned(start, past), line, left, exp)?;
            Ok(Given::Spined(put(alloc, place, whole)?))
        }
    }
}

/// After the first argument of a form.
#[inline(always)]
fn after_first(word: FormWord, start: u32, first: Box<Exp>, place: Place) -> Given
    ensures { (past : Past_) → given_of result
        ≡ give_to (FirstOf (form_word_of word) start (place_of place)) (tree_of first.value) past }
{
    match word {
        FormWord::Pairing(word) => Given::Exp4(Slot::Second {
            word,
            start,
            first,
            place,
        }),
        FormWord::Gluing(word) => Given::System(Owner::Gluing {
            word,
            start,
            base: first,
            place,
        }),
    }
}

/// After the second argument of a form.
#[inline(always)]
fn after_second(
    alloc: Global,
    word: Pairing,
    start: u32,
    first: Box<Exp>,
    second: Exp,
    place: Place,
    past: Past,
) -> Result<Given, AllocError>
    ensures { IfOk result (λ x. given_of x
        ≡ give_to (SecondOf (pairing_of word) start (tree_of first.value) (place_of place))
        (tree_of second) past) }
{
    match word {
        Pairing::Path => Ok(Given::Exp4(Slot::Third {
            start,
            first,
            second: Box::new(alloc, second)?,
            place,
        })),
        Pairing::Composing(word) => Ok(Given::System(Owner::Composing {
            word,
            start,
            line: first,
            base: Box::new(alloc, second)?,
            place,
        })),
        Pairing::Transport => {
            let line = Box::into_inner(first);
            let whole = Exp::transport(alloc, spanned(start, past), line, second)?;
            Ok(Given::Spined(put(alloc, place, whole)?))
        }
    }
}

fn composed(
    alloc: Global,
    word: Composing,
    span: Span,
    line: Exp,
    base: Exp,
    sides: Sides,
) -> Result<Exp, AllocError>
    ensures { IfOk result (λ e. tree_of e
        ≡ composing (composing_of word) span (tree_of line) (tree_of base) (sides_of sides)) }
{
    match word {
        Composing::Composed => Ok(Exp::composition(alloc, span, line, base, sides)?),
        Composing::Filled => Ok(Exp::filling(alloc, span, line, base, sides)?),
    }
}

fn glued(
    alloc: Global,
    word: Gluing,
    span: Span,
    base: Exp,
    sides: Sides,
) -> Result<Exp, AllocError>
    ensures { IfOk result (λ e. tree_of e
        ≡ gluing (gluing_of word) span (tree_of base) (sides_of sides)) }
{
    match word {
        Gluing::Type => Ok(Exp::glue_type(alloc, span, base, sides)?),
        Gluing::Term => Ok(Exp::glue_term(alloc, span, base, sides)?),
        Gluing::Unglued => Ok(Exp::unglue(alloc, span, base, sides)?),
    }
}

/// Puts the form that a system ends into its place.
#[inline(never)]
pub fn owned(
    alloc: Global,
    owner: Owner,
    sides: Sides,
    past: Past,
) -> Result<Box<Spine>, AllocError>
    ensures { IfOk result (λ x.
        spined_of x.value ≡ owned_by (owner_of owner) (sides_of sides) past) }
{
    match owner {
        Owner::Composing {
            word,
            start,
            line,
            base,
            place,
        } => {
            let line = Box::into_inner(line);
            let base = Box::into_inner(base);
            let whole = composed(alloc, word, spanned(start, past), line, base, sides)?;
            Ok(put(alloc, place, whole)?)
        }
        Owner::Gluing {
            word,
            start,
            base,
            place,
        } => {
            let base = Box::into_inner(base);
            let whole = glued(alloc, word, spanned(start, past), base, sides)?;
            Ok(put(alloc, place, whole)?)
        }
    }
}

/// An application, or its head alone.
#[inline(always)]
pub fn applied(alloc: Global, spine: Box<Spine>, past: Past) -> Result<Exp, AllocError>
    ensures { IfOk result (λ e. tree_of e ≡ applied_to (from_start spine.value.start past)
        (tree_of spine.value.head) (elements_of spine.value.elements)) }
{
    let Spine {
        room: _room,
        next: _next,
        start,
        head,
        elements,
    } = Box::into_inner(spine);
    if elements.as_slice().is_empty() {
        return Ok(head);
    }
    Ok(Exp::apply(alloc, spanned(start, past), head, elements)?)
}

/// An expression with its projections, or the expression alone.
#[inline(always)]
fn with_projections(
    alloc: Global,
    start: u32,
    exp: Exp,
    projections: Projections,
    past: Past,
) -> Result<Exp, AllocError>
    ensures { IfOk result (λ e.
        tree_of e ≡ projected_by (from_start start past) (tree_of exp) projections) }
{
    if projections.as_slice().is_empty() {
        return Ok(exp);
    }
    Ok(Exp::project(alloc, spanned(start, past), exp, projections)?)
}

/// Puts an expression with its projections into its place.
#[inline(always)]
pub fn placed(alloc: Global, part: Projected, past: Past) -> Result<Given, AllocError>
    ensures { IfOk result (λ x. given_of x
        ≡ give_to (slot_of part.slot)
        (projected_by (from_start part.start past) (tree_of part.exp) part.projections) past) }
{
    let Projected {
        slot,
        next: _next,
        start,
        exp,
        projections,
    } = part;
    let whole = with_projections(alloc, start, exp, projections, past)?;
    Ok(give(alloc, slot, whole, past)?)
}

/// An expression that no projection follows so far.
#[inline(always)]
pub(crate) fn unprojected(alloc: Global, slot: Slot, start: u32, exp: Exp) -> Projected
    ensures { projected_of result
        ≡ AfterExp5 (slot_of slot) (room_of (place_under (slot_of slot))) start (tree_of exp) [] }
{
    Projected {
        next: slot.room(),
        slot,
        start,
        exp,
        projections: Projections::new(alloc),
    }
}

/// The expression with one projection more.
#[inline(always)]
pub(crate) fn with_projection(
    part: Projected,
    projection: Projection,
) -> Result<Projected, AllocError>
    ensures { IfOk result (λ more. projected_of more
        ≡ AfterExp5 (slot_of part.slot) (part.next - 1) part.start (tree_of part.exp)
        (part.projections ++ projection ∷ [])) }
{
    let Projected {
        slot,
        next,
        start,
        exp,
        mut projections,
    } = part;
    projections.push(projection)?;
    Ok(Projected {
        slot,
        next: next.saturating_sub(1),
        start,
        exp,
        projections,
    })
}
