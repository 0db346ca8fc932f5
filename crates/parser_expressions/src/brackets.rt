//! After a bracket where a tele may stand, or an expression in brackets.

ghost use Rattle.std.specs.Prelude.{◌≡◌, ◌∷◌, ◌++◌, ◌-◌, [], IfOk};
ghost use Rattle.syntax.specs.Tree.{none, Name as a_name};
ghost use Rattle.productions.specs.Words.{span as span_of};
ghost use Rattle.productions.specs.Grammar.{note as note_at};
ghost use Rattle.productions.specs.Machine.{
  after as place_after,
  in_bracket as open_bracket,
  place_of as place_under,
  room_of,
  step as machine_step,
  step_opened,
  step_projected,
  ForProduct,
  InBracket,
  InTele,
  Maybe as AtMaybe,
  Whole,
};
ghost use Rattle.parser_states.specs.View.{maybe_of, on, place_of, slot_of, stack_of, view, Gives};

use crate::exps::{exp, projected};
use crate::slots::{put, unprojected};
use layout_lexer::{Kind, Spans, Token};
use parser_states::{
    Bracket, BracketNames, Frame, Parser, Place, Slot, Stop, TelesSoFar, Top, Use, span, under,
    with_name,
};
use productions::{Past, note};
use std::alloc::{AllocError, Global};
use syntax::{Exp, Exps, Teles};

/// The stack inside a bracket, with which an expression in this slot starts.
#[inline(always)]
pub(crate) fn in_bracket(
    alloc: Global,
    slot: Slot,
    start: u32,
    stack: Vec<Frame>,
) -> Result<Vec<Frame>, AllocError>
    ensures { IfOk result (λ v. stack_of v.items
        ≡ InBracket (slot_of slot) start (room_of (place_under (slot_of slot)) - 1) none
        ∷ stack_of stack.items) }
{
    let room = slot.room().saturating_sub(1);
    let bracket = Bracket {
        slot: slot.hold(alloc)?,
        start,
        room,
        before: Exps::new(alloc),
    };
    Ok(under(stack, Frame::Bracket(bracket))?)
}

/// After a bracket that was opened where a tele, or an expression in brackets, may stand.
pub fn opened(
    alloc: Global,
    room: u32,
    start: u32,
    past: Past,
    stack: Vec<Frame>,
    token: Token,
) -> Result<Parser, Stop>
    ensures { Gives view result (on token (step_opened room start past (stack_of stack.items))) }
{
    let inner = room.saturating_sub(1);
    match token.kind {
        Kind::Identifier => {
            let names = BracketNames {
                room,
                start,
                names: with_name(Spans::new(alloc), token)?,
                next: inner,
                place: Place::Head {
                    room: inner,
                    start: token.start,
                },
                last: span(token),
                deep: note(inner, token.start, past.deep),
            };
            Ok(Parser {
                top: Top::Maybe(names),
                past: past.begin(room, token),
                stack,
            })
        }
        _ => {
            let slot = Slot::Whole(Place::Head { room, start });
            let stack = in_bracket(alloc, slot, start, stack)?;
            exp(alloc, inner, past, stack, token)
        }
    }
}

/// After names in a bracket, of a tele or of an application.
#[inline(never)]
pub fn maybe(
    alloc: Global,
    names: BracketNames,
    past: Past,
    stack: Vec<Frame>,
    token: Token,
) -> Result<Parser, Stop>
    ensures { Gives view result
        (on token (machine_step (maybe_of names) past (stack_of stack.items))) }
{
    match token.kind {
        Kind::Identifier => {
            let next = names.next;
            let names = with_bracket_name(alloc, names, token)?;
            Ok(Parser {
                top: Top::Maybe(names),
                past: past.begin(next, token),
                stack,
            })
        }
        Kind::Colon => {
            let room = names.room;
            let stack = in_tele(alloc, names, stack)?;
            Ok(Parser {
                top: Top::Exp {
                    room: room.saturating_sub(1),
                },
                past: past.skip(token),
                stack,
            })
        }
        _ => in_application(alloc, names, past, stack, token),
    }
}

/// The names in a bracket with one more.
#[inline(always)]
fn with_bracket_name(
    alloc: Global,
    names: BracketNames,
    token: Token,
) -> Result<BracketNames, AllocError>
    ensures { let name = span_of token.start token.end in
        let place = place_after (place_of names.place) (a_name names.last) in
        IfOk result (λ more. maybe_of more
        ≡ AtMaybe names.room names.start (names.names ++ name ∷ []) (names.next - 1) place name
        (note_at (room_of place) token.start names.deep)) }
{
    let BracketNames {
        room,
        start,
        names,
        next,
        place,
        last,
        deep,
    } = names;
    let place = Place::Element(put(alloc, place, Exp::Name { span: last })?);
    let deep = note(place.room(), token.start, deep);
    Ok(BracketNames {
        room,
        start,
        names: with_name(names, token)?,
        next: next.saturating_sub(1),
        place,
        last: span(token),
        deep,
    })
}

/// The stack before the type of a tele with these names.
fn in_tele(alloc: Global, names: BracketNames, stack: Vec<Frame>) -> Result<Vec<Frame>, AllocError>
    ensures { IfOk result (λ v. stack_of v.items
        ≡ InTele (ForProduct names.start) names.room names.room none names.names
        ∷ stack_of stack.items) }
{
    let BracketNames {
        room,
        start,
        names,
        ..
    } = names;
    let teles = TelesSoFar {
        purpose: Use::Product { start },
        whole: room,
        room,
        teles: Teles::new(alloc),
    };
    Ok(under(stack, Frame::Tele(teles, names))?)
}

/// After names that are an application.
fn in_application(
    alloc: Global,
    names: BracketNames,
    past: Past,
    stack: Vec<Frame>,
    token: Token,
) -> Result<Parser, Stop>
    ensures { let place = place_of names.place in let last = names.last in
        Gives view result (on token (step_projected (Whole place) (room_of place) last.start
        (a_name last) [] (record { end = past.end; deep = names.deep })
        (open_bracket names.room names.start (stack_of stack.items)))) }
{
    let BracketNames {
        room,
        start,
        place,
        last,
        deep,
        ..
    } = names;
    let whole = Slot::Whole(Place::Head { room, start });
    let stack = in_bracket(alloc, whole, start, stack)?;
    let past = Past {
        end: past.end,
        deep,
    };
    let name = Exp::Name { span: last };
    let part = unprojected(alloc, Slot::Whole(place), last.start, name);
    projected(alloc, part, past, stack, token)
}
