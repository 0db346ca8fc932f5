//! A whole expression is at hand, and a token that does not go on with it.

ghost use Rattle.std.specs.Prelude.{◌≡◌, ◌∷◌, ◌-◌, [], IfOk, None};
ghost use Rattle.syntax.specs.View.{tree_of, teles_of, sides_of, defs_of};
ghost use Rattle.syntax.specs.Tree.{
  Def as a_def,
  Module as a_module,
  Side as a_side,
  Tele as a_tele,
};
ghost use Rattle.productions.specs.Words.{span as span_of};
ghost use Rattle.productions.specs.Grammar.{shallow as shallow_tree, skip as skip_to};
ghost use Rattle.productions.specs.Machine.{
  bind,
  close_block as close_machine_block,
  deliver as step_deliver,
  finish_exp as machine_finish_exp,
  keep_last,
  AfterTele as AtAfterTele,
  Done as DoneOf,
  WantSide,
};
ghost use Rattle.parser_states.specs.declared.state.Names.TheVariants.{AfterTele};
ghost use Rattle.parser_states.specs.declared.state.System.TheVariants.{Side as SideOf};
ghost use Rattle.parser_states.specs.View.{
  binder_of,
  frame_of,
  in_body,
  in_bracket,
  in_side,
  in_tele,
  in_type,
  names_of,
  on,
  owner_of,
  prefixed,
  stack_of,
  system_of,
  use_of,
  view,
  Gives,
};

use crate::slots::{owned, unprojected};
use layout_lexer::{Kind, Span, Spans, Token};
use parser_states::{
    Binder, Block, Bracket, Frame, Given, Names, Parser, Prefix, SidesSoFar, Stop, System,
    TelesSoFar, Top, Typing, keep_def, keep_exp, keep_side, keep_tele, shallow, spanned, under,
};
use productions::Past;
use std::alloc::{AllocError, Global};
use syntax::{Def, Defs, Equations, Exp, Module, Side, Tele, Teles};

fn bound(
    alloc: Global,
    binder: Binder,
    span: Span,
    teles: Teles,
    body: Exp,
) -> Result<Exp, AllocError>
    ensures { IfOk result
        (λ e. tree_of e ≡ bind (binder_of binder) span (teles_of teles) (tree_of body)) }
{
    match binder {
        Binder::Lambda => Ok(Exp::lambda(alloc, span, teles, body)?),
        Binder::Pi => Ok(Exp::pi(alloc, span, teles, body)?),
        Binder::Sigma => Ok(Exp::sigma(alloc, span, teles, body)?),
    }
}

/// The whole of a prefix and what it ends with.
fn whole(alloc: Global, prefix: Prefix, exp: Exp, past: Past) -> Result<Exp, AllocError>
    ensures { IfOk result (λ e. tree_of e ≡ prefixed prefix past (tree_of exp)) }
{
    match prefix {
        Prefix::Arrow { room, start, from } => {
            let to = shallow(room.saturating_sub(1), exp);
            Ok(Exp::arrow(alloc, spanned(start, past), from, to)?)
        }
        Prefix::Binder {
            binder,
            room,
            start,
            teles,
        } => {
            let body = shallow(room.saturating_sub(1), exp);
            Ok(bound(alloc, binder, spanned(start, past), teles, body)?)
        }
        Prefix::Path { room, start, names } => {
            let body = shallow(room.saturating_sub(1), exp);
            Ok(Exp::path_lambda(alloc, spanned(start, past), names, body)?)
        }
        Prefix::LetBody { room, start, defs } => {
            let body = shallow(room.saturating_sub(1), exp);
            Ok(Exp::let_in(alloc, spanned(start, past), defs, body)?)
        }
    }
}

/// A component of a bracket.
fn component(
    alloc: Global,
    bracket: Bracket,
    exp: Exp,
    past: Past,
    stack: Vec<Frame>,
    token: Token,
) -> Result<Parser, Stop>
    ensures { Gives view result
        (on token (step_deliver (tree_of exp) past
        (in_bracket bracket ∷ stack_of stack.items))) }
{
    let Bracket {
        slot,
        start,
        room,
        before,
    } = bracket;
    match token.kind {
        Kind::Comma => {
            let before = keep_exp(before, room, exp)?;
            let room = room.saturating_sub(1);
            let bracket = Bracket {
                slot,
                start,
                room,
                before,
            };
            Ok(Parser {
                top: Top::Exp { room },
                past: past.skip(token),
                stack: under(stack, Frame::Bracket(bracket))?,
            })
        }
        Kind::RightParen => {
            let components = keep_exp(before, room, exp)?;
            let end = token.end;
            let brackets = Exp::brackets(Span { start, end }, components);
            Ok(Parser {
                top: Top::Projected(unprojected(alloc, slot.slot(), start, brackets)),
                past: past.skip(token),
                stack,
            })
        }
        _ => Err(Stop::Unexpected),
    }
}

/// The type of a tele.
fn tele(
    teles: TelesSoFar,
    names: Spans,
    ty: Exp,
    past: Past,
    stack: Vec<Frame>,
    token: Token,
) -> Result<Parser, Stop>
    ensures { Gives view result
        (on token (step_deliver (tree_of ty) past
        (in_tele teles names ∷ stack_of stack.items))) }
{
    match token.kind {
        Kind::RightParen => {
            let teles = with_tele(teles, names, ty)?;
            Ok(Parser {
                top: Top::Names(Names::AfterTele(teles)),
                past: past.skip(token),
                stack,
            })
        }
        _ => Err(Stop::Unexpected),
    }
}

/// The teles with one more.
fn with_tele(so_far: TelesSoFar, names: Spans, ty: Exp) -> Result<TelesSoFar, AllocError>
    ensures { let room = so_far.room in
        let one = a_tele names (shallow_tree (room - 1) (tree_of ty)) in
        IfOk result (λ more. names_of (AfterTele more)
        ≡ AtAfterTele (use_of so_far.purpose) so_far.whole (room - 1)
        (keep_last room (teles_of so_far.teles) one)) }
{
    let TelesSoFar {
        purpose,
        whole,
        room,
        teles,
    } = so_far;
    let inner = room.saturating_sub(1);
    let ty = shallow(inner, ty);
    let teles = keep_tele(teles, room, Tele { names, ty })?;
    Ok(TelesSoFar {
        purpose,
        whole,
        room: inner,
        teles,
    })
}

/// The expression of a side.
fn side(
    alloc: Global,
    so_far: Box<SidesSoFar>,
    body: Exp,
    past: Past,
    stack: Vec<Frame>,
    token: Token,
) -> Result<Parser, Stop>
    ensures { Gives view result
        (on token (step_deliver (tree_of body) past
        (in_side so_far.value ∷ stack_of stack.items))) }
{
    let past = past.skip(token);
    match token.kind {
        Kind::Comma => {
            let sides = with_side(alloc, Box::into_inner(so_far), body)?;
            Ok(Parser {
                top: Top::System(System::Side(sides)),
                past,
                stack,
            })
        }
        Kind::RightBracket => {
            let SidesSoFar { owner, sides, .. } = with_side(alloc, Box::into_inner(so_far), body)?;
            let whole = owned(alloc, owner, sides, past)?;
            Ok(Parser {
                top: Top::Given(Given::Spined(whole)),
                past,
                stack,
            })
        }
        _ => Err(Stop::Unexpected),
    }
}

/// The sides with one more, which has their equations, and none for the next one.
fn with_side(alloc: Global, so_far: SidesSoFar, body: Exp) -> Result<SidesSoFar, AllocError>
    ensures { let room = so_far.room in
        let one = a_side so_far.equations (shallow_tree (room - 1) (tree_of body)) in
        IfOk result (λ more. system_of (SideOf more)
        ≡ WantSide (owner_of so_far.owner) (room - 1)
        (keep_last room (sides_of so_far.sides) one) []) }
{
    let SidesSoFar {
        owner,
        room,
        sides,
        equations,
    } = so_far;
    let inner = room.saturating_sub(1);
    let body = shallow(inner, body);
    let sides = keep_side(sides, room, Side { equations, body })?;
    Ok(SidesSoFar {
        owner,
        room: inner,
        sides,
        equations: Equations::new(alloc),
    })
}

/// The type of a definition.
fn typed(
    typing: Box<Typing>,
    ty: Exp,
    past: Past,
    stack: Vec<Frame>,
    token: Token,
) -> Result<Parser, Stop>
    ensures { Gives view result
        (on token (step_deliver (tree_of ty) past
        (in_type typing.value ∷ stack_of stack.items))) }
{
    let room = typing.room;
    match token.kind {
        Kind::Equals => {
            let stack = under(stack, Frame::Body(typing, ty))?;
            Ok(Parser {
                top: Top::Exp { room },
                past: past.skip(token),
                stack,
            })
        }
        _ => Err(Stop::Unexpected),
    }
}

/// The definitions with one more.
fn with_def(typing: Typing, ty: Exp, body: Exp, locals: Defs) -> Result<Defs, AllocError>
    ensures { IfOk result
        (λ ds. defs_of ds
        ≡ keep_last typing.room (defs_of typing.defs)
        (a_def typing.name (teles_of typing.teles) (tree_of ty) (tree_of body) (defs_of locals))) }
{
    let Typing {
        fall: _fall,
        room,
        defs,
        name,
        teles,
    } = typing;
    Ok(keep_def(
        defs,
        room,
        Def {
            name,
            teles,
            ty,
            body,
            locals,
        },
    )?)
}

/// The body of a definition.
fn defined(
    alloc: Global,
    typing: Box<Typing>,
    ty: Exp,
    body: Exp,
    past: Past,
    stack: Vec<Frame>,
    token: Token,
) -> Result<Parser, Stop>
    ensures { Gives view result
        (on token (step_deliver (tree_of body) past
        (in_body typing.value ty ∷ stack_of stack.items))) }
{
    let fall = typing.fall;
    let room = typing.room;
    match token.kind {
        Kind::Next => {
            let defs = with_def(Box::into_inner(typing), ty, body, Defs::new(alloc))?;
            let room = room.saturating_sub(fall);
            Ok(Parser {
                top: Top::Block(Block::Next { fall, room, defs }),
                past: past.skip(token),
                stack,
            })
        }
        Kind::Where => {
            let frame = Frame::Where(typing, Box::new(alloc, ty)?, Box::new(alloc, body)?);
            let stack = under(stack, frame)?;
            Ok(Parser {
                top: Top::Block(Block::Word {
                    room: room.saturating_sub(1),
                }),
                past: past.skip(token),
                stack,
            })
        }
        Kind::Close => {
            let defs = with_def(Box::into_inner(typing), ty, body, Defs::new(alloc))?;
            Ok(close_block(alloc, defs, past, stack, token)?)
        }
        _ => Err(Stop::Unexpected),
    }
}

/// The end of a block.
pub fn close_block(
    alloc: Global,
    defs: Defs,
    past: Past,
    mut stack: Vec<Frame>,
    token: Token,
) -> Result<Parser, Stop>
    ensures { Gives view result
        (close_machine_block (defs_of defs) past (stack_of stack.items) token.end) }
{
    match stack.pop() {
        Some(frame) => close_in(alloc, frame, defs, past, stack, token),
        None => Ok(stray(alloc, defs, past, stack, token)),
    }
}

/// The end of a block in this frame.
fn close_in(
    alloc: Global,
    frame: Frame,
    defs: Defs,
    past: Past,
    stack: Vec<Frame>,
    token: Token,
) -> Result<Parser, Stop>
    ensures { Gives view result
        (close_machine_block (defs_of defs) past (frame_of frame ∷ stack_of stack.items)
        token.end) }
{
    match frame {
        Frame::Let { room, start } => Ok(Parser {
            top: Top::Block(Block::LetClose { room, start, defs }),
            past: past.skip(token),
            stack,
        }),
        Frame::Where(typing, ty, body) => {
            let fall = typing.fall;
            let room = typing.room;
            let typing = Box::into_inner(typing);
            let defs = with_def(typing, Box::into_inner(ty), Box::into_inner(body), defs)?;
            Ok(Parser {
                top: Top::Block(Block::AfterDef { fall, room, defs }),
                past: past.skip(token),
                stack,
            })
        }
        Frame::Module(name, imports) => Ok(Parser {
            top: Top::Done(Module {
                name,
                imports,
                defs,
            }),
            past: past.skip(token),
            stack,
        }),
        other => {
            let stack = under(stack, other)?;
            Ok(stray(alloc, defs, past, stack, token))
        }
    }
}

/// The end of a block that nothing began. No text leads here.
fn stray(alloc: Global, defs: Defs, past: Past, stack: Vec<Frame>, token: Token) -> Parser
    ensures { view result
        ≡ record {
          top = DoneOf (a_module (span_of 0 0) [] (defs_of defs));
          past = skip_to token.end past;
          stack = stack_of stack.items;
        } }
{
    let module = Module {
        name: Span { start: 0, end: 0 },
        imports: Spans::new(alloc),
        defs,
    };
    Parser {
        top: Top::Done(module),
        past: past.skip(token),
        stack,
    }
}

/// Hands a whole expression to what is open round it.
pub fn deliver(
    alloc: Global,
    exp: Exp,
    past: Past,
    mut stack: Vec<Frame>,
    token: Token,
) -> Result<Parser, Stop>
    ensures { Gives view result
        (on token (step_deliver (tree_of exp) past (stack_of stack.items))) }
{
    let mut exp = exp;
    while let Some(frame) = stack.pop() {
        match frame {
            Frame::Prefix(prefix) => exp = whole(alloc, prefix, exp, past)?,
            Frame::Bracket(bracket) => return component(alloc, bracket, exp, past, stack, token),
            Frame::Tele(teles, names) => return tele(teles, names, exp, past, stack, token),
            Frame::Side(sides) => return side(alloc, sides, exp, past, stack, token),
            Frame::Type(typing) => return typed(typing, exp, past, stack, token),
            Frame::Body(typing, ty) => return defined(alloc, typing, ty, exp, past, stack, token),
            Frame::Let { .. } | Frame::Where(..) | Frame::Module(..) => {
                return Err(Stop::Unexpected);
            }
        }
    }
    Err(Stop::Unexpected)
}

/// The end of the text after a whole expression: that expression, if nothing is open round it
/// that goes on.
pub fn finish_exp(alloc: Global, exp: Exp, past: Past, mut stack: Vec<Frame>) -> Result<Exp, Stop>
    ensures { Gives tree_of result (machine_finish_exp (tree_of exp) past (stack_of stack.items)) }
{
    let mut exp = exp;
    while let Some(frame) = stack.pop() {
        match frame {
            Frame::Prefix(prefix) => exp = whole(alloc, prefix, exp, past)?,
            Frame::Bracket(_) | Frame::Tele(..) | Frame::Side(_) => return Err(Stop::Unexpected),
            Frame::Type(_) | Frame::Body(..) => return Err(Stop::Unexpected),
            // No text leads here.
            Frame::Let { .. } | Frame::Where(..) | Frame::Module(..) => return Ok(exp),
        }
    }
    Ok(exp)
}
