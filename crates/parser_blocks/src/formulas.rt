//! The steps in a formula.

ghost use Rattle.std.specs.Prelude.{◌≡◌, ◌∷◌, ◌-◌, IfOk, None};
ghost use Rattle.syntax.specs.View.{formula_of, tree_of};
ghost use Rattle.syntax.specs.Tree.{Join as a_join, Meet as a_meet, Negate as a_negation};
ghost use Rattle.productions.specs.Grammar.{
  begin as begin_at,
  from as from_start,
  shallow_formula as shallow_tree,
};
ghost use Rattle.productions.specs.Machine.{
  after_conj as machine_after_conj,
  after_formula as machine_after_formula,
  after_neg as machine_after_neg,
  finish_formula as machine_finish,
  finish_given as machine_given,
  step_neg,
  HaveNeg,
  InParens,
  IsNoNegation,
  IsNoOperand,
  WantNeg,
};
ghost use Rattle.parser_states.specs.View.{
  given_of,
  inner_of,
  inners_of,
  on,
  spine_of,
  stack_of,
  view,
  Gives,
};
ghost use Rattle.parser_blocks.specs.Closing.{IsClosed};

use layout_lexer::{Kind, Token};
use parser_expressions::{applied, finish_exp, put_at, spined};
use parser_states::{
    Frame, Given, Inner, Operand, Parser, Spine, Stop, Top, inside, shallow_formula, span, spanned,
};
use productions::Past;
use std::alloc::{AllocError, Global};
use syntax::{Exp, Formula};

/// An operand that stands inside this frame.
fn deeper(
    spine: Box<Spine>,
    at: u32,
    frames: Vec<Inner>,
    frame: Inner,
    room: u32,
    past: Past,
    stack: Vec<Frame>,
) -> Result<Parser, AllocError>
    ensures { IfOk result (λ x. view x
        ≡ record {
          top = WantNeg (spine_of spine.value) at (inner_of frame ∷ inners_of frames.items)
              (room - 1);
          past = past;
          stack = stack_of stack.items;
        }) }
{
    Ok(Parser {
        top: Top::Neg {
            spine,
            at,
            frames: inside(frames, frame)?,
            room: room.saturating_sub(1),
        },
        past,
        stack,
    })
}

/// A token is an operand.
fn operand(
    spine: Box<Spine>,
    at: u32,
    frames: Vec<Inner>,
    room: u32,
    formula: Formula,
    past: Past,
    stack: Vec<Frame>,
    token: Token,
) -> Parser
    ensures { view result
        ≡ record {
          top = HaveNeg (spine_of spine.value) at (inners_of frames.items) room token.start
              (formula_of formula);
          past = begin_at room token.start token.end past;
          stack = stack_of stack.items;
        } }
{
    let operand = Operand {
        room,
        start: token.start,
        formula,
    };
    Parser {
        top: Top::HaveNeg {
            spine,
            at,
            frames,
            operand,
        },
        past: past.begin(room, token),
        stack,
    }
}

/// The start of an operand.
pub fn neg(
    spine: Box<Spine>,
    at: u32,
    frames: Vec<Inner>,
    room: u32,
    past: Past,
    stack: Vec<Frame>,
    token: Token,
) -> Result<Parser, Stop>
    ensures { Gives view result
        (on token (step_neg (spine_of spine.value) at (inners_of frames.items) room past
        (stack_of stack.items))) }
{
    let start = token.start;
    match token.kind {
        Kind::Minus => {
            let frame = Inner::Negation { room, start };
            let past = past.begin(room, token);
            Ok(deeper(spine, at, frames, frame, room, past, stack)?)
        }
        Kind::LeftParen => {
            let frame = Inner::Parens { room, start };
            let past = past.begin(room, token);
            Ok(deeper(spine, at, frames, frame, room, past, stack)?)
        }
        Kind::Zero => {
            let formula = Formula::Zero(span(token));
            Ok(operand(spine, at, frames, room, formula, past, stack, token))
        }
        Kind::One => {
            let formula = Formula::One(span(token));
            Ok(operand(spine, at, frames, room, formula, past, stack, token))
        }
        Kind::Identifier => {
            let formula = Formula::Name(span(token));
            Ok(operand(spine, at, frames, room, formula, past, stack, token))
        }
        _ => Err(Stop::Unexpected),
    }
}

/// `-` before a formula.
fn negated(
    alloc: Global,
    room: u32,
    start: u32,
    formula: Formula,
    past: Past,
) -> Result<Formula, AllocError>
    ensures { IfOk result (λ f. formula_of f
        ≡ a_negation (from_start start past) (shallow_tree (room - 1) (formula_of formula))) }
{
    Ok(Formula::negate(
        alloc,
        spanned(start, past),
        shallow_formula(room.saturating_sub(1), formula),
    )?)
}

/// Two formulas with `/\` between.
fn met(
    alloc: Global,
    room: u32,
    start: u32,
    left: Formula,
    right: Formula,
    past: Past,
) -> Result<Formula, AllocError>
    ensures { IfOk result
        (λ f. formula_of f ≡ a_meet (from_start start past) (formula_of left)
        (shallow_tree (room - 1) (formula_of right))) }
{
    Ok(Formula::meet(
        alloc,
        spanned(start, past),
        left,
        shallow_formula(room.saturating_sub(1), right),
    )?)
}

/// Two formulas with `\/` between.
fn joined(
    alloc: Global,
    room: u32,
    start: u32,
    left: Formula,
    right: Formula,
    past: Past,
) -> Result<Formula, AllocError>
    ensures { IfOk result
        (λ f. formula_of f ≡ a_join (from_start start past) (formula_of left)
        (shallow_tree (room - 1) (formula_of right))) }
{
    Ok(Formula::join(
        alloc,
        spanned(start, past),
        left,
        shallow_formula(room.saturating_sub(1), right),
    )?)
}

/// What a formula is with what is open round it.
#[derive(Drop)]
pub enum Closed {
    /// An operator with its operands.
    Whole(Formula),
    /// In brackets, which are open.
    Parens {
        room: u32,
        start: u32,
        inner: Formula,
    },
}

/// A formula with what is open round it.
fn enclosed(alloc: Global, frame: Inner, formula: Formula, past: Past) -> Result<Closed, AllocError>
    ensures { IfOk result (IsClosed (inner_of frame) (formula_of formula) past) }
{
    match frame {
        Inner::Negation { room, start } => {
            Ok(Closed::Whole(negated(alloc, room, start, formula, past)?))
        }
        Inner::Meet { room, start, left } => {
            Ok(Closed::Whole(met(alloc, room, start, left, formula, past)?))
        }
        Inner::Join { room, start, left } => {
            Ok(Closed::Whole(joined(alloc, room, start, left, formula, past)?))
        }
        Inner::Parens { room, start } => Ok(Closed::Parens {
            room,
            start,
            inner: formula,
        }),
    }
}

/// After an operand.
#[tactic(auto, using(crate::proofs::Forms::no_negation))]
pub fn after_neg(
    alloc: Global,
    spine: Box<Spine>,
    at: u32,
    mut frames: Vec<Inner>,
    operand: Operand,
    past: Past,
    stack: Vec<Frame>,
    token: Token,
) -> Result<Parser, Stop>
    ensures { Gives view result
        (on token (machine_after_neg (spine_of spine.value) at (inners_of frames.items) operand.room
        operand.start (formula_of operand.formula) past (stack_of stack.items))) }
{
    let mut operand = operand;
    while let Some(frame) = frames.pop() {
        match frame {
            Inner::Negation { room, start } => {
                let formula = negated(alloc, room, start, operand.formula, past)?;
                operand = Operand {
                    room,
                    start,
                    formula,
                };
            }
            other => {
                let frames = inside(frames, other)?;
                return and(alloc, spine, at, frames, operand, past, stack, token);
            }
        }
    }
    and(alloc, spine, at, frames, operand, past, stack, token)
}

/// After an operand that is not negated.
#[tactic(auto, using(crate::proofs::Forms::neg_meets))]
fn and(
    alloc: Global,
    spine: Box<Spine>,
    at: u32,
    frames: Vec<Inner>,
    operand: Operand,
    past: Past,
    stack: Vec<Frame>,
    token: Token,
) -> Result<Parser, Stop>
    requires { IsNoNegation (inners_of frames.items) }
    ensures { Gives view result
        (on token (machine_after_neg (spine_of spine.value) at (inners_of frames.items) operand.room
        operand.start (formula_of operand.formula) past (stack_of stack.items))) }
{
    match token.kind {
        Kind::And => {
            let Operand {
                room,
                start,
                formula: left,
            } = operand;
            let frame = Inner::Meet { room, start, left };
            Ok(deeper(spine, at, frames, frame, room, past.skip(token), stack)?)
        }
        _ => after_conj(alloc, spine, at, frames, operand, past, stack, token),
    }
}

/// After a meet, which no `/\` follows.
#[tactic(auto, using(crate::proofs::Forms::no_operand))]
fn after_conj(
    alloc: Global,
    spine: Box<Spine>,
    at: u32,
    mut frames: Vec<Inner>,
    operand: Operand,
    past: Past,
    stack: Vec<Frame>,
    token: Token,
) -> Result<Parser, Stop>
    ensures { Gives view result
        (on token (machine_after_conj (spine_of spine.value) at (inners_of frames.items)
        operand.room operand.start (formula_of operand.formula) past (stack_of stack.items))) }
{
    let mut operand = operand;
    while let Some(frame) = frames.pop() {
        match frame {
            Inner::Negation { room, start } => {
                let formula = negated(alloc, room, start, operand.formula, past)?;
                operand = Operand {
                    room,
                    start,
                    formula,
                };
            }
            Inner::Meet { room, start, left } => {
                let formula = met(alloc, room, start, left, operand.formula, past)?;
                operand = Operand {
                    room,
                    start,
                    formula,
                };
            }
            other => {
                let frames = inside(frames, other)?;
                return or(alloc, spine, at, frames, operand, past, stack, token);
            }
        }
    }
    or(alloc, spine, at, frames, operand, past, stack, token)
}

/// After a meet that stands in a join, in brackets or alone.
#[tactic(auto, using(crate::proofs::Forms::conj_joins))]
fn or(
    alloc: Global,
    spine: Box<Spine>,
    at: u32,
    frames: Vec<Inner>,
    operand: Operand,
    past: Past,
    stack: Vec<Frame>,
    token: Token,
) -> Result<Parser, Stop>
    requires { IsNoOperand (inners_of frames.items) }
    ensures { Gives view result
        (on token (machine_after_conj (spine_of spine.value) at (inners_of frames.items)
        operand.room operand.start (formula_of operand.formula) past (stack_of stack.items))) }
{
    match token.kind {
        Kind::Or => {
            let Operand {
                room,
                start,
                formula: left,
            } = operand;
            let frame = Inner::Join { room, start, left };
            Ok(deeper(spine, at, frames, frame, room, past.skip(token), stack)?)
        }
        _ => after_formula(
            alloc,
            spine,
            at,
            frames,
            operand.formula,
            past,
            stack,
            token,
        ),
    }
}

/// After a formula, which no operator follows.
#[tactic(auto, using(crate::proofs::Forms::after_closed))]
fn after_formula(
    alloc: Global,
    spine: Box<Spine>,
    at: u32,
    mut frames: Vec<Inner>,
    formula: Formula,
    past: Past,
    stack: Vec<Frame>,
    token: Token,
) -> Result<Parser, Stop>
    ensures { Gives view result
        (on token (machine_after_formula (spine_of spine.value) at (inners_of frames.items)
        (formula_of formula) past (stack_of stack.items))) }
{
    let mut formula = formula;
    while let Some(frame) = frames.pop() {
        match enclosed(alloc, frame, formula, past)? {
            Closed::Whole(whole) => formula = whole,
            Closed::Parens { room, start, inner } => {
                return parens(spine, at, frames, room, start, inner, past, stack, token);
            }
        }
    }
    let whole = put_at(spine, spanned(at, past), formula)?;
    spined(alloc, whole, past, stack, token)
}

/// After a formula in brackets.
fn parens(
    spine: Box<Spine>,
    at: u32,
    frames: Vec<Inner>,
    room: u32,
    start: u32,
    formula: Formula,
    past: Past,
    stack: Vec<Frame>,
    token: Token,
) -> Result<Parser, Stop>
    ensures { Gives view result
        (on token (machine_after_formula (spine_of spine.value) at
        (InParens room start ∷ inners_of frames.items) (formula_of formula) past
        (stack_of stack.items))) }
{
    match token.kind {
        Kind::RightParen => {
            let operand = Operand {
                room,
                start,
                formula: shallow_formula(room.saturating_sub(1), formula),
            };
            Ok(Parser {
                top: Top::HaveNeg {
                    spine,
                    at,
                    frames,
                    operand,
                },
                past: past.skip(token),
                stack,
            })
        }
        _ => Err(Stop::Unexpected),
    }
}

/// The end of the text after a formula.
#[tactic(auto, using(crate::proofs::Forms::finish_closed))]
pub fn finish_formula(
    alloc: Global,
    spine: Box<Spine>,
    at: u32,
    mut frames: Vec<Inner>,
    formula: Formula,
    past: Past,
    stack: Vec<Frame>,
) -> Result<Exp, Stop>
    ensures { Gives tree_of result
        (machine_finish (spine_of spine.value) at (inners_of frames.items) (formula_of formula) past
        (stack_of stack.items)) }
{
    let mut formula = formula;
    while let Some(frame) = frames.pop() {
        match enclosed(alloc, frame, formula, past)? {
            Closed::Whole(whole) => formula = whole,
            Closed::Parens { .. } => return Err(Stop::Unexpected),
        }
    }
    let whole = put_at(spine, spanned(at, past), formula)?;
    finish_given(alloc, Given::Spined(whole), past, stack)
}

/// The end of the text after a part that was put into its place.
pub fn finish_given(alloc: Global, parts: Given, past: Past, stack: Vec<Frame>) -> Result<Exp, Stop>
    ensures { Gives tree_of result
        (machine_given (given_of parts) past (stack_of stack.items)) }
{
    match parts {
        Given::Spined(spine) => {
            let whole = applied(alloc, spine, past)?;
            finish_exp(alloc, whole, past, stack)
        }
        Given::Exp4(_) | Given::System(_) => Err(Stop::Unexpected),
    }
}
