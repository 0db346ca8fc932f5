//! The steps in a system.

ghost use Rattle.std.specs.Prelude.{◌≡◌, ◌∷◌, ◌++◌, [], IfOk, None};
ghost use Rattle.syntax.specs.View.{sides_of};
ghost use Rattle.productions.specs.Grammar.{equation as equation_of};
ghost use Rattle.productions.specs.Machine.{
  step as machine_step,
  step_side,
  EquationClose,
  SystemStart as AtStart,
};
ghost use Rattle.parser_states.specs.declared.state.System.TheVariants.{
  End as AtClose,
  Equation as AtName,
  Name as AtSign,
  Sign as AtEnd,
};
ghost use Rattle.parser_states.specs.View.{on, owner_of, stack_of, system_of, view, Gives};

use layout_lexer::{Kind, Span, Token};
use parser_expressions::owned;
use parser_states::{Frame, Given, Owner, Parser, SidesSoFar, Stop, System, Top, span, under};
use productions::Past;
use std::alloc::{AllocError, Global};
use syntax::{End, Equation, Equations, Sides};

/// In a system.
#[inline(never)]
pub fn system(
    alloc: Global,
    system: System,
    past: Past,
    stack: Vec<Frame>,
    token: Token,
) -> Result<Parser, Stop>
    ensures { Gives view result
        (on token (machine_step (system_of system) past (stack_of stack.items))) }
{
    match system {
        System::Open(owner) => first_side(alloc, owner, past, stack, token),
        System::Side(sides) => side(alloc, sides, past, stack, token),
        System::Equation(sides) => name(sides, past, stack, token),
        System::Name(sides, name) => sign(sides, name, past, stack, token),
        System::Sign(sides, name) => end(sides, name, past, stack, token),
        System::End(sides) => close(sides, past, stack, token),
    }
}

/// The name of an equation.
fn name(sides: SidesSoFar, past: Past, stack: Vec<Frame>, token: Token) -> Result<Parser, Stop>
    ensures { Gives view result
        (on token (machine_step (system_of (AtName sides)) past (stack_of stack.items))) }
{
    match token.kind {
        Kind::Identifier => Ok(Parser {
            top: Top::System(System::Name(sides, span(token))),
            past: past.skip(token),
            stack,
        }),
        _ => Err(Stop::Unexpected),
    }
}

/// The sign of an equation.
fn sign(
    sides: SidesSoFar,
    name: Span,
    past: Past,
    stack: Vec<Frame>,
    token: Token,
) -> Result<Parser, Stop>
    ensures { Gives view result
        (on token (machine_step (system_of (AtSign sides name)) past (stack_of stack.items))) }
{
    match token.kind {
        Kind::Equals => Ok(Parser {
            top: Top::System(System::Sign(sides, name)),
            past: past.skip(token),
            stack,
        }),
        _ => Err(Stop::Unexpected),
    }
}

/// The bracket after an equation.
fn close(sides: SidesSoFar, past: Past, stack: Vec<Frame>, token: Token) -> Result<Parser, Stop>
    ensures { Gives view result
        (on token (machine_step (system_of (AtClose sides)) past (stack_of stack.items))) }
{
    match token.kind {
        Kind::RightParen => Ok(Parser {
            top: Top::System(System::Side(sides)),
            past: past.skip(token),
            stack,
        }),
        _ => Err(Stop::Unexpected),
    }
}

/// The start of a side, or after an equation of it.
fn side(
    alloc: Global,
    sides: SidesSoFar,
    past: Past,
    stack: Vec<Frame>,
    token: Token,
) -> Result<Parser, Stop>
    ensures { Gives view result
        (on token (step_side (owner_of sides.owner) sides.room (sides_of sides.sides)
        sides.equations past (stack_of stack.items))) }
{
    let room = sides.room;
    let past = past.begin(room, token);
    match token.kind {
        Kind::LeftParen => Ok(Parser {
            top: Top::System(System::Equation(sides)),
            past,
            stack,
        }),
        Kind::Arrow => {
            let frame = Frame::Side(Box::new(alloc, sides)?);
            Ok(Parser {
                top: Top::Exp {
                    room: room.saturating_sub(1),
                },
                past,
                stack: under(stack, frame)?,
            })
        }
        _ => Err(Stop::Unexpected),
    }
}

/// The first side of a system, or its end.
fn first_side(
    alloc: Global,
    owner: Owner,
    past: Past,
    stack: Vec<Frame>,
    token: Token,
) -> Result<Parser, Stop>
    ensures { Gives view result
        (on token (machine_step (AtStart (owner_of owner)) past (stack_of stack.items))) }
{
    match token.kind {
        Kind::RightBracket => {
            let past = past.skip(token);
            Ok(Parser {
                top: Top::Given(Given::Spined(owned(alloc, owner, Sides::new(alloc), past)?)),
                past,
                stack,
            })
        }
        _ => {
            let sides = SidesSoFar {
                room: owner.room(),
                owner,
                sides: Sides::new(alloc),
                equations: Equations::new(alloc),
            };
            side(alloc, sides, past, stack, token)
        }
    }
}

/// The sides with one equation more of the next one.
fn with_equation(sides: SidesSoFar, name: Span, end: End) -> Result<SidesSoFar, AllocError>
    ensures { IfOk result (λ more. system_of (AtClose more)
        ≡ EquationClose (owner_of sides.owner) sides.room (sides_of sides.sides)
        (sides.equations ++ equation_of name end ∷ [])) }
{
    let SidesSoFar {
        owner,
        room,
        sides,
        mut equations,
    } = sides;
    equations.push(Equation { name, end })?;
    Ok(SidesSoFar {
        owner,
        room,
        sides,
        equations,
    })
}

/// The end of the interval in an equation.
fn end(
    sides: SidesSoFar,
    name: Span,
    past: Past,
    stack: Vec<Frame>,
    token: Token,
) -> Result<Parser, Stop>
    ensures { Gives view result
        (on token (machine_step (system_of (AtEnd sides name)) past (stack_of stack.items))) }
{
    let past = past.skip(token);
    match token.kind {
        Kind::Zero => Ok(Parser {
            top: Top::System(System::End(with_equation(sides, name, End::Zero)?)),
            past,
            stack,
        }),
        Kind::One => Ok(Parser {
            top: Top::System(System::End(with_equation(sides, name, End::One)?)),
            past,
            stack,
        }),
        _ => Err(Stop::Unexpected),
    }
}
