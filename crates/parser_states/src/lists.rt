//! What stands too deep is no part of a tree, so that no tree is deep: lists leave it out, and
//! elsewhere a name at 0 stands in its place.

ghost use Rattle.std.specs.Prelude.{◌≡◌, ◌∷◌, [], ◌++◌, IfOk, OnErr, OnOk};
ghost use Rattle.syntax.specs.View.{
  tree_of,
  exps_of,
  element_of,
  elements_of,
  tele_of,
  teles_of,
  side_of,
  sides_of,
  def_of,
  defs_of,
  formula_of,
};
ghost use Rattle.productions.specs.Grammar.{
  from,
  shallow as shallow_tree,
  shallow_formula as shallow_formula_tree,
};
ghost use Rattle.productions.specs.Machine.{keep_last};
ghost use Rattle.productions.specs.Words.{span as piece_span};
ghost use Rattle.parser_states.specs.View.{frame_of, inner_of, inners_of, stack_of};

use crate::state::{Frame, Inner};
use layout_lexer::{Span, Spans, Token};
use productions::Past;
use std::alloc::AllocError;
use syntax::{Def, Defs, Element, Elements, Exp, Exps, Formula, Side, Sides, Tele, Teles};

/// The piece of a token.
#[inline(always)]
pub fn span(token: Token) -> Span
    ensures { result ≡ piece_span token.start token.end }
{
    Span {
        start: token.start,
        end: token.end,
    }
}

/// From a start to the last token.
#[inline(always)]
pub fn spanned(start: u32, past: Past) -> Span
    ensures { result ≡ from start past }
{
    Span {
        start,
        end: past.end,
    }
}

/// An expression that stands at this room.
#[inline(always)]
pub fn shallow(room: u32, exp: Exp) -> Exp
    ensures { tree_of result ≡ shallow_tree room (tree_of exp) }
{
    if room == 0 {
        Exp::Name {
            span: Span { start: 0, end: 0 },
        }
    } else {
        exp
    }
}

/// A formula that stands at this room.
#[inline(always)]
pub fn shallow_formula(room: u32, formula: Formula) -> Formula
    ensures { formula_of result ≡ shallow_formula_tree room (formula_of formula) }
{
    if room == 0 {
        Formula::Zero(Span { start: 0, end: 0 })
    } else {
        formula
    }
}

/// The list with one expression more, which stands at this room.
#[inline(always)]
pub fn keep_exp(mut exps: Exps, room: u32, exp: Exp) -> Result<Exps, AllocError>
    ensures { IfOk result (λ xs. exps_of xs ≡ keep_last room (exps_of exps) (tree_of exp)) }
{
    if room == 0 {
        return Ok(exps);
    }
    exps.push(exp)?;
    Ok(exps)
}

/// Appends an element that stands at this room. Without memory the list is as before.
#[inline(always)]
pub fn keep_element(elements: &mut Elements, room: u32, element: Element) -> Result<(), AllocError>
    ensures ok { OnOk result (elements_of elements.new
        ≡ keep_last room (elements_of elements.old) (element_of element)) }
    ensures err { OnErr result (elements_of elements.new ≡ elements_of elements.old) }
{
    if room == 0 {
        return Ok(());
    }
    elements.push(element)?;
    Ok(())
}

/// The list with one tele more, which stands at this room.
pub fn keep_tele(mut teles: Teles, room: u32, tele: Tele) -> Result<Teles, AllocError>
    ensures { IfOk result (λ xs. teles_of xs ≡ keep_last room (teles_of teles) (tele_of tele)) }
{
    if room == 0 {
        return Ok(teles);
    }
    teles.push(tele)?;
    Ok(teles)
}

/// The list with one side more, which stands at this room.
pub fn keep_side(mut sides: Sides, room: u32, side: Side) -> Result<Sides, AllocError>
    ensures { IfOk result (λ xs. sides_of xs ≡ keep_last room (sides_of sides) (side_of side)) }
{
    if room == 0 {
        return Ok(sides);
    }
    sides.push(side)?;
    Ok(sides)
}

/// The list with one definition more, which stands at this room.
pub fn keep_def(mut defs: Defs, room: u32, def: Def) -> Result<Defs, AllocError>
    ensures { IfOk result (λ xs. defs_of xs ≡ keep_last room (defs_of defs) (def_of def)) }
{
    if room == 0 {
        return Ok(defs);
    }
    defs.push(def)?;
    Ok(defs)
}

/// The names with one more.
#[inline(always)]
pub fn with_name(mut names: Spans, token: Token) -> Result<Spans, AllocError>
    ensures { IfOk result (λ ns. ns ≡ names ++ piece_span token.start token.end ∷ []) }
{
    names.push(span(token))?;
    Ok(names)
}

/// The stack with one frame more.
#[inline(always)]
pub fn under(mut stack: Vec<Frame>, frame: Frame) -> Result<Vec<Frame>, AllocError>
    ensures { IfOk result (λ v. stack_of v.items ≡ frame_of frame ∷ stack_of stack.items) }
{
    stack.push(frame)?;
    Ok(stack)
}

/// The frames of a formula with one more.
#[inline(always)]
pub fn inside(mut frames: Vec<Inner>, frame: Inner) -> Result<Vec<Inner>, AllocError>
    ensures { IfOk result (λ v. inners_of v.items ≡ inner_of frame ∷ inners_of frames.items) }
{
    frames.push(frame)?;
    Ok(frames)
}
