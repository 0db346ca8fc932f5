//! The steps in an expression.

ghost use Rattle.std.specs.Prelude.{◌≡◌, [], None};
ghost use Rattle.syntax.specs.View.{tree_of};
ghost use Rattle.productions.specs.Words.{span as span_of, word_of};
ghost use Rattle.productions.specs.Grammar.{begin as begin_at};
ghost use Rattle.productions.specs.Machine.{
  place_of as place_under,
  room_of,
  step as machine_step,
  step_exp,
  step_exp1,
  step_exp3,
  step_exp5,
  step_given,
  step_system,
  FirstOf,
  Projected as AfterExp5,
  WantExp4,
};
ghost use Rattle.parser_states.specs.View.{
  form_word_of,
  given_of,
  on,
  owner_of,
  place_of,
  projected_of,
  slot_of,
  spined_of,
  stack_of,
  view,
  Gives,
};
ghost use Rattle.parser_expressions.specs.Projections.{IsProjection};

use crate::brackets::in_bracket;
use crate::slots::{applied, placed, unprojected, with_projection};
use crate::wholes::deliver;
use layout_lexer::{Kind, Token};
use parser_states::{
    Block, FormWord, Frame, Given, Names, Owner, Parser, Place, Prefix, Projected, Slot, Spine,
    Stop, System, Top, form_word, span, under,
};
use productions::Past;
use std::alloc::Global;
use syntax::{Exp, Projection};

/// An expression that a token is, before its projections.
#[inline(always)]
fn atom(alloc: Global, slot: Slot, exp: Exp, past: Past, stack: Vec<Frame>, token: Token) -> Parser
    ensures { view result
        ≡ record {
          top = AfterExp5 (slot_of slot) (room_of (place_under (slot_of slot))) token.start
              (tree_of exp) [];
          past = begin_at (room_of (place_under (slot_of slot))) token.start token.end past;
          stack = stack_of stack.items;
        } }
{
    let room = slot.room();
    Parser {
        top: Top::Projected(unprojected(alloc, slot, token.start, exp)),
        past: past.begin(room, token),
        stack,
    }
}

/// The start of an expression with its projections.
#[inline(always)]
pub fn exp5(
    alloc: Global,
    slot: Slot,
    past: Past,
    stack: Vec<Frame>,
    token: Token,
) -> Result<Parser, Stop>
    ensures { Gives view result (on token (step_exp5 (slot_of slot) past (stack_of stack.items))) }
{
    match token.kind {
        Kind::Identifier => {
            let name = Exp::Name { span: span(token) };
            Ok(atom(alloc, slot, name, past, stack, token))
        }
        Kind::U => {
            let universe = Exp::Universe { span: span(token) };
            Ok(atom(alloc, slot, universe, past, stack, token))
        }
        Kind::LeftParen => {
            let room = slot.room();
            let stack = in_bracket(alloc, slot, token.start, stack)?;
            Ok(Parser {
                top: Top::Exp {
                    room: room.saturating_sub(1),
                },
                past: past.begin(room, token),
                stack,
            })
        }
        _ => Err(Stop::Unexpected),
    }
}

/// A word that begins a form.
#[inline(always)]
fn form(word: FormWord, place: Place, past: Past, stack: Vec<Frame>, token: Token) -> Parser
    ensures { view result
        ≡ record {
          top = WantExp4 (FirstOf (form_word_of word) token.start (place_of place));
          past = begin_at (room_of (place_of place)) token.start token.end past;
          stack = stack_of stack.items;
        } }
{
    let room = place.room();
    let slot = Slot::First {
        word,
        start: token.start,
        place,
    };
    Parser {
        top: Top::Given(Given::Exp4(slot)),
        past: past.begin(room, token),
        stack,
    }
}

/// The start of an expression in an application.
#[inline(always)]
pub fn exp3(
    alloc: Global,
    place: Place,
    past: Past,
    stack: Vec<Frame>,
    token: Token,
) -> Result<Parser, Stop>
    ensures { Gives view result
        (on token (step_exp3 (place_of place) past (stack_of stack.items))) }
{
    match form_word(token.kind) {
        Some(word) => Ok(form(word, place, past, stack, token)),
        None => exp5(alloc, Slot::Whole(place), past, stack, token),
    }
}

/// The start of an expression that is no `let`, no lambda and no path.
#[inline(always)]
pub fn exp1(
    alloc: Global,
    room: u32,
    past: Past,
    stack: Vec<Frame>,
    token: Token,
) -> Result<Parser, Stop>
    ensures { Gives view result (on token (step_exp1 room past (stack_of stack.items))) }
{
    match token.kind {
        Kind::LeftParen => Ok(Parser {
            top: Top::Opened {
                room,
                start: token.start,
            },
            past: past.begin(room, token),
            stack,
        }),
        _ => {
            let place = Place::Head {
                room,
                start: token.start,
            };
            exp3(alloc, place, past, stack, token)
        }
    }
}

/// The start of an expression.
pub fn exp(
    alloc: Global,
    room: u32,
    past: Past,
    stack: Vec<Frame>,
    token: Token,
) -> Result<Parser, Stop>
    ensures { Gives view result (on token (step_exp room past (stack_of stack.items))) }
{
    let start = token.start;
    match token.kind {
        Kind::Let => {
            let inner = room.saturating_sub(1);
            let stack = under(stack, Frame::Let { room, start })?;
            Ok(Parser {
                top: Top::Block(Block::Word { room: inner }),
                past: past.begin(room, token),
                stack,
            })
        }
        Kind::Backslash => Ok(Parser {
            top: Top::Names(Names::Backslash { room, start }),
            past: past.begin(room, token),
            stack,
        }),
        Kind::Less => Ok(Parser {
            top: Top::Names(Names::PathSign { room, start }),
            past: past.begin(room, token),
            stack,
        }),
        _ => exp1(alloc, room, past, stack, token),
    }
}

/// After an expression of an application.
#[inline(always)]
pub fn spined(
    alloc: Global,
    spine: Box<Spine>,
    past: Past,
    stack: Vec<Frame>,
    token: Token,
) -> Result<Parser, Stop>
    ensures { Gives view result
        (on token (step_given (spined_of spine.value) past (stack_of stack.items))) }
{
    match token.kind {
        Kind::At => {
            let room = spine.next;
            Ok(Parser {
                top: Top::Neg {
                    spine,
                    at: token.start,
                    frames: Vec::new(alloc),
                    room,
                },
                past: past.begin(room, token),
                stack,
            })
        }
        Kind::Arrow => {
            let room = spine.room;
            let start = spine.start;
            let from = applied(alloc, spine, past)?;
            let stack = under(stack, Frame::Prefix(Prefix::Arrow { room, start, from }))?;
            Ok(Parser {
                top: Top::Exp1 {
                    room: room.saturating_sub(1),
                },
                past: past.skip(token),
                stack,
            })
        }
        Kind::Identifier | Kind::U => exp3(alloc, Place::Element(spine), past, stack, token),
        Kind::LeftParen => exp3(alloc, Place::Element(spine), past, stack, token),
        _ => match form_word(token.kind) {
            Some(word) => Ok(form(word, Place::Element(spine), past, stack, token)),
            None => {
                let whole = applied(alloc, spine, past)?;
                deliver(alloc, whole, past, stack, token)
            }
        },
    }
}

/// The start of a system.
fn system(owner: Owner, past: Past, stack: Vec<Frame>, token: Token) -> Result<Parser, Stop>
    ensures { Gives view result
        (on token (step_system (owner_of owner) past (stack_of stack.items))) }
{
    match token.kind {
        Kind::LeftBracket => Ok(Parser {
            top: Top::System(System::Open(owner)),
            past: past.skip(token),
            stack,
        }),
        _ => Err(Stop::Unexpected),
    }
}

/// After a part that was put into its place.
#[inline(always)]
pub fn given(
    alloc: Global,
    parts: Given,
    past: Past,
    stack: Vec<Frame>,
    token: Token,
) -> Result<Parser, Stop>
    ensures { Gives view result
        (on token (step_given (given_of parts) past (stack_of stack.items))) }
{
    match parts {
        Given::Spined(spine) => spined(alloc, spine, past, stack, token),
        Given::Exp4(slot) => exp5(alloc, slot, past, stack, token),
        Given::System(owner) => system(owner, past, stack, token),
    }
}

/// The projection that a token is.
#[inline(always)]
fn projection(token: Token) -> Option<Projection>
    ensures { IsProjection (word_of token.kind) (span_of token.start token.end) result }
{
    match token.kind {
        Kind::First => Some(Projection::First(span(token))),
        Kind::Second => Some(Projection::Second(span(token))),
        _ => None,
    }
}

/// After an expression with some projections.
#[inline(always)]
pub fn projected(
    alloc: Global,
    part: Projected,
    past: Past,
    stack: Vec<Frame>,
    token: Token,
) -> Result<Parser, Stop>
    ensures { Gives view result
        (on token (machine_step (projected_of part) past (stack_of stack.items))) }
{
    match projection(token) {
        Some(projection) => {
            let next = part.next;
            let part = with_projection(part, projection)?;
            Ok(Parser {
                top: Top::Projected(part),
                past: past.begin(next, token),
                stack,
            })
        }
        None => {
            let parts = placed(alloc, part, past)?;
            given(alloc, parts, past, stack, token)
        }
    }
}
