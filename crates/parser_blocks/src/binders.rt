//! The steps in what binds names: teles and paths.

ghost use Rattle.std.specs.Prelude.{◌≡◌, ◌∷◌, IfOk, None};
ghost use Rattle.syntax.specs.View.{teles_of};
ghost use Rattle.productions.specs.Words.{Colon as ColonWord, Star as StarWord, To as ToWord};
ghost use Rattle.productions.specs.Machine.{
  step as machine_step,
  step_more,
  step_path,
  step_teles,
  InBinder,
  WantPathName,
  WantTele,
};
ghost use Rattle.parser_states.specs.declared.state.Names.TheVariants.{Tele};
ghost use Rattle.parser_states.specs.View.{
  binder_of,
  names_of,
  on,
  stack_of,
  use_of,
  view,
  Gives,
};

use layout_lexer::{Kind, Spans, Token};
use parser_states::{
    Binder, Frame, Named, Names, Parser, Prefix, Stop, TelesSoFar, Top, Typing, Use, under,
    with_name,
};
use productions::Past;
use std::alloc::{AllocError, Global};
use syntax::Teles;

/// After names or teles.
#[inline(never)]
pub fn names(
    alloc: Global,
    names: Names,
    past: Past,
    stack: Vec<Frame>,
    token: Token,
) -> Result<Parser, Stop>
    ensures { Gives view result
        (on token (machine_step (names_of names) past (stack_of stack.items))) }
{
    match names {
        Names::PathSign { room, start } => first_path_name(alloc, room, start, past, stack, token),
        Names::Path {
            room,
            start,
            names,
            next,
        } => more_path_names(room, start, names, next, past, stack, token),
        Names::Backslash { room, start } => first_tele(alloc, room, start, past, stack, token),
        Names::Tele(teles) => first_name(alloc, teles, past, stack, token),
        Names::TeleNames { teles, names, next } => {
            more_names(teles, names, next, past, stack, token)
        }
        Names::AfterTele(teles) => more_teles(alloc, teles, past, stack, token),
    }
}

/// The first name of a path.
fn first_path_name(
    alloc: Global,
    room: u32,
    start: u32,
    past: Past,
    stack: Vec<Frame>,
    token: Token,
) -> Result<Parser, Stop>
    ensures { Gives view result
        (on token (machine_step (WantPathName room start) past (stack_of stack.items))) }
{
    match token.kind {
        Kind::Identifier => {
            let names = Names::Path {
                room,
                start,
                names: with_name(Spans::new(alloc), token)?,
                next: room.saturating_sub(1),
            };
            Ok(Parser {
                top: Top::Names(names),
                past: past.begin(room, token),
                stack,
            })
        }
        _ => Err(Stop::Unexpected),
    }
}

/// The first tele of a lambda.
fn first_tele(
    alloc: Global,
    room: u32,
    start: u32,
    past: Past,
    stack: Vec<Frame>,
    token: Token,
) -> Result<Parser, Stop>
    ensures { Gives view result
        (on token (machine_step (WantTele room start) past (stack_of stack.items))) }
{
    match token.kind {
        Kind::LeftParen => {
            let teles = TelesSoFar {
                purpose: Use::Lambda { start },
                whole: room,
                room,
                teles: Teles::new(alloc),
            };
            Ok(Parser {
                top: Top::Names(Names::Tele(teles)),
                past: past.begin(room, token),
                stack,
            })
        }
        _ => Err(Stop::Unexpected),
    }
}

/// The first name of a tele.
fn first_name(
    alloc: Global,
    teles: TelesSoFar,
    past: Past,
    stack: Vec<Frame>,
    token: Token,
) -> Result<Parser, Stop>
    ensures { Gives view result
        (on token (machine_step (names_of (Tele teles)) past (stack_of stack.items))) }
{
    match token.kind {
        Kind::Identifier => {
            let room = teles.room;
            let names = Names::TeleNames {
                teles,
                names: with_name(Spans::new(alloc), token)?,
                next: room.saturating_sub(1),
            };
            Ok(Parser {
                top: Top::Names(names),
                past: past.begin(room, token),
                stack,
            })
        }
        _ => Err(Stop::Unexpected),
    }
}

/// After names of a tele.
fn more_names(
    teles: TelesSoFar,
    names: Spans,
    next: u32,
    past: Past,
    stack: Vec<Frame>,
    token: Token,
) -> Result<Parser, Stop>
    ensures { Gives view result
        (on token (step_more (use_of teles.purpose) teles.whole teles.room (teles_of teles.teles)
        names next past (stack_of stack.items))) }
{
    match token.kind {
        Kind::Identifier => {
            let names = Names::TeleNames {
                teles,
                names: with_name(names, token)?,
                next: next.saturating_sub(1),
            };
            Ok(Parser {
                top: Top::Names(names),
                past: past.begin(next, token),
                stack,
            })
        }
        Kind::Colon => {
            let room = teles.room.saturating_sub(1);
            Ok(Parser {
                top: Top::Exp { room },
                past: past.skip(token),
                stack: under(stack, Frame::Tele(teles, names))?,
            })
        }
        _ => Err(Stop::Unexpected),
    }
}

/// After teles, or after the name of a definition.
fn more_teles(
    alloc: Global,
    teles: TelesSoFar,
    past: Past,
    stack: Vec<Frame>,
    token: Token,
) -> Result<Parser, Stop>
    ensures { Gives view result
        (on token (step_teles (use_of teles.purpose) teles.whole teles.room (teles_of teles.teles)
        past (stack_of stack.items))) }
{
    match token.kind {
        Kind::LeftParen => {
            let room = teles.room;
            Ok(Parser {
                top: Top::Names(Names::Tele(teles)),
                past: past.begin(room, token),
                stack,
            })
        }
        Kind::Arrow => after_arrow(teles, past, stack, token),
        Kind::Star => after_star(teles, past, stack, token),
        Kind::Colon => after_colon(alloc, teles, past, stack, token),
        _ => Err(Stop::Unexpected),
    }
}

/// The stack inside a form of this binder and these teles.
fn in_binder(
    binder: Binder,
    room: u32,
    start: u32,
    teles: Teles,
    stack: Vec<Frame>,
) -> Result<Vec<Frame>, AllocError>
    ensures { IfOk result (λ v. stack_of v.items
        ≡ InBinder (binder_of binder) room start (teles_of teles) ∷ stack_of stack.items) }
{
    let prefix = Prefix::Binder {
        binder,
        room,
        start,
        teles,
    };
    Ok(under(stack, Frame::Prefix(prefix))?)
}

/// `->` after teles.
fn after_arrow(
    so_far: TelesSoFar,
    past: Past,
    stack: Vec<Frame>,
    token: Token,
) -> Result<Parser, Stop>
    ensures { Gives view result
        (step_teles (use_of so_far.purpose) so_far.whole so_far.room (teles_of so_far.teles)
        past (stack_of stack.items) ToWord token.start token.end) }
{
    let TelesSoFar {
        purpose,
        whole,
        teles,
        ..
    } = so_far;
    let room = whole.saturating_sub(1);
    let past = past.skip(token);
    match purpose {
        Use::Lambda { start } => {
            let stack = in_binder(Binder::Lambda, whole, start, teles, stack)?;
            Ok(Parser {
                top: Top::Exp { room },
                past,
                stack,
            })
        }
        Use::Product { start } => {
            let stack = in_binder(Binder::Pi, whole, start, teles, stack)?;
            Ok(Parser {
                top: Top::Exp1 { room },
                past,
                stack,
            })
        }
        Use::Def(_) => Err(Stop::Unexpected),
    }
}

/// `*` after teles.
fn after_star(
    so_far: TelesSoFar,
    past: Past,
    stack: Vec<Frame>,
    token: Token,
) -> Result<Parser, Stop>
    ensures { Gives view result
        (step_teles (use_of so_far.purpose) so_far.whole so_far.room (teles_of so_far.teles)
        past (stack_of stack.items) StarWord token.start token.end) }
{
    let TelesSoFar {
        purpose,
        whole,
        teles,
        ..
    } = so_far;
    match purpose {
        Use::Product { start } => {
            let room = whole.saturating_sub(1);
            Ok(Parser {
                top: Top::Exp1 { room },
                past: past.skip(token),
                stack: in_binder(Binder::Sigma, whole, start, teles, stack)?,
            })
        }
        Use::Lambda { .. } => Err(Stop::Unexpected),
        Use::Def(_) => Err(Stop::Unexpected),
    }
}

/// `:` after the teles of a definition.
fn after_colon(
    alloc: Global,
    so_far: TelesSoFar,
    past: Past,
    stack: Vec<Frame>,
    token: Token,
) -> Result<Parser, Stop>
    ensures { Gives view result
        (step_teles (use_of so_far.purpose) so_far.whole so_far.room (teles_of so_far.teles)
        past (stack_of stack.items) ColonWord token.start token.end) }
{
    let TelesSoFar {
        purpose,
        whole: room,
        teles,
        ..
    } = so_far;
    match purpose {
        Use::Def(named) => {
            let Named { fall, defs, name } = Box::into_inner(named);
            let typing = Typing {
                fall,
                room,
                defs,
                name,
                teles,
            };
            let frame = Frame::Type(Box::new(alloc, typing)?);
            Ok(Parser {
                top: Top::Exp { room },
                past: past.skip(token),
                stack: under(stack, frame)?,
            })
        }
        Use::Lambda { .. } => Err(Stop::Unexpected),
        Use::Product { .. } => Err(Stop::Unexpected),
    }
}

/// After names of a path.
fn more_path_names(
    room: u32,
    start: u32,
    names: Spans,
    next: u32,
    past: Past,
    stack: Vec<Frame>,
    token: Token,
) -> Result<Parser, Stop>
    ensures { Gives view result
        (on token (step_path room start names next past (stack_of stack.items))) }
{
    match token.kind {
        Kind::Identifier => {
            let names = Names::Path {
                room,
                start,
                names: with_name(names, token)?,
                next: next.saturating_sub(1),
            };
            Ok(Parser {
                top: Top::Names(names),
                past: past.begin(next, token),
                stack,
            })
        }
        Kind::Greater => {
            let stack = under(stack, Frame::Prefix(Prefix::Path { room, start, names }))?;
            Ok(Parser {
                top: Top::Exp {
                    room: room.saturating_sub(1),
                },
                past: past.skip(token),
                stack,
            })
        }
        _ => Err(Stop::Unexpected),
    }
}
