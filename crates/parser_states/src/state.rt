//! The states of the parser: what was read last, and what is open round it.
//!
//! A room is 513 less the depth of a place, so that 0 is too deep. A start is a place in the text,
//! in bytes.

ghost use Rattle.std.specs.Prelude.{◌≡◌};
ghost use Rattle.parser_states.specs.declared.state.Stop.TheVariants.{Memory};

use crate::words::{Composing, FormWord, Gluing, Pairing};
use layout_lexer::{Span, Spans};
use productions::Past;
use std::alloc::{AllocError, AllocFailed};
use syntax::{Defs, Elements, Equations, Exp, Exps, Formula, Module, Projections, Sides, Teles};

/// An application so far: an expression, and the elements after it. States hold it in a box, since
/// what a step costs is the size of the states that it moves.
#[derive(Drop)]
pub struct Spine {
    pub room: u32,
    /// The room of the next element.
    pub next: u32,
    pub start: u32,
    pub head: Exp,
    pub elements: Elements,
}

/// Where an expression of an application stands: it is the first, or an element.
#[derive(Drop)]
pub enum Place {
    Head { room: u32, start: u32 },
    Element(Box<Spine>),
}

/// Where an expression with its projections stands: in an application, or as an argument of a form
/// that began with a word.
#[derive(Drop)]
pub enum Slot {
    Whole(Place),
    First {
        word: FormWord,
        start: u32,
        place: Place,
    },
    Second {
        word: Pairing,
        start: u32,
        first: Box<Exp>,
        place: Place,
    },
    Third {
        start: u32,
        first: Box<Exp>,
        second: Box<Exp>,
        place: Place,
    },
}

/// A slot in few bytes, so that deep texts take little memory.
#[derive(Drop)]
pub enum HeldSlot {
    Head { room: u32, start: u32 },
    Other(Box<Slot>),
}

/// The form that a system ends.
#[derive(Drop)]
pub enum Owner {
    Composing {
        word: Composing,
        start: u32,
        line: Box<Exp>,
        base: Box<Exp>,
        place: Place,
    },
    Gluing {
        word: Gluing,
        start: u32,
        base: Box<Exp>,
        place: Place,
    },
}

/// A system so far: its sides, and the equations of the next one, which has this room.
#[derive(Drop)]
pub struct SidesSoFar {
    pub owner: Owner,
    pub room: u32,
    pub sides: Sides,
    pub equations: Equations,
}

/// What comes after an expression that was put into its place.
#[derive(Drop)]
pub enum Given {
    /// More of the application.
    Spined(Box<Spine>),
    /// An argument of a form.
    Exp4(Slot),
    /// The system of a form.
    System(Owner),
}

/// A definition whose name was read, after others of its block. In a block each has `fall` less
/// room than the one before it.
#[derive(Drop)]
pub struct Named {
    pub fall: u32,
    pub defs: Defs,
    pub name: Span,
}

/// What teles are for.
#[derive(Drop)]
pub enum Use {
    Lambda { start: u32 },
    Product { start: u32 },
    Def(Box<Named>),
}

/// Teles so far, where another one begins or is being read.
#[derive(Drop)]
pub struct TelesSoFar {
    pub purpose: Use,
    /// The room of what they are for.
    pub whole: u32,
    /// The room of the next tele.
    pub room: u32,
    pub teles: Teles,
}

/// What binds the names of teles.
#[derive(Clone, Copy)]
pub enum Binder {
    Lambda,
    Pi,
    Sigma,
}

/// A definition whose type is being read.
#[derive(Drop)]
pub struct Typing {
    pub fall: u32,
    pub room: u32,
    pub defs: Defs,
    pub name: Span,
    pub teles: Teles,
}

/// What stands before an expression that it ends with. Room and start are those of the whole.
#[derive(Drop)]
pub enum Prefix {
    Arrow {
        room: u32,
        start: u32,
        from: Exp,
    },
    Binder {
        binder: Binder,
        room: u32,
        start: u32,
        teles: Teles,
    },
    Path {
        room: u32,
        start: u32,
        names: Spans,
    },
    LetBody {
        room: u32,
        start: u32,
        defs: Defs,
    },
}

/// A bracket with the components before the one that is being read, which has this room.
#[derive(Drop)]
pub struct Bracket {
    pub slot: HeldSlot,
    pub start: u32,
    pub room: u32,
    pub before: Exps,
}

/// What is open round the place.
#[derive(Drop)]
pub enum Frame {
    Prefix(Prefix),
    Bracket(Bracket),
    /// The teles before the one whose type is being read, and its names.
    Tele(TelesSoFar, Spans),
    /// Room and start are those of the whole.
    Let { room: u32, start: u32 },
    /// The expression of a side is being read.
    Side(Box<SidesSoFar>),
    Type(Box<Typing>),
    Body(Box<Typing>, Exp),
    /// A definition with its type and its body.
    Where(Box<Typing>, Box<Exp>, Box<Exp>),
    Module(Span, Spans),
}

/// What is open round a place of a formula. Room and start are those of the whole.
#[derive(Drop)]
pub enum Inner {
    Negation {
        room: u32,
        start: u32,
    },
    Meet {
        room: u32,
        start: u32,
        left: Formula,
    },
    Join {
        room: u32,
        start: u32,
        left: Formula,
    },
    Parens {
        room: u32,
        start: u32,
    },
}

/// An operand of a formula, with its room and its start.
#[derive(Drop)]
pub struct Operand {
    pub room: u32,
    pub start: u32,
    pub formula: Formula,
}

/// What was read of a module up to its first item.
#[derive(Drop)]
pub enum Heading {
    Nothing,
    Word,
    Name(Span),
    Where(Span),
    Open(Span),
}

/// What was read among the items of a module, which has this name and these imports.
#[derive(Drop)]
pub enum Items {
    Import(Span, Spans),
    AfterImport(Span, Spans),
    Next(Span, Spans),
}

/// What was read of a block, of definitions that each have `fall` less room than the one before.
#[derive(Drop)]
pub enum Block {
    Word { room: u32 },
    Open { room: u32 },
    Next { fall: u32, room: u32, defs: Defs },
    AfterDef { fall: u32, room: u32, defs: Defs },
    /// Room and start are those of the whole.
    LetClose { room: u32, start: u32, defs: Defs },
}

/// What was read of names and teles. Room and start are those of the whole, and next is the room of
/// the next name.
#[derive(Drop)]
pub enum Names {
    PathSign {
        room: u32,
        start: u32,
    },
    Path {
        room: u32,
        start: u32,
        names: Spans,
        next: u32,
    },
    Backslash {
        room: u32,
        start: u32,
    },
    Tele(TelesSoFar),
    TeleNames {
        teles: TelesSoFar,
        names: Spans,
        next: u32,
    },
    AfterTele(TelesSoFar),
}

/// What was read of a system. The span is the name of an equation.
#[derive(Drop)]
pub enum System {
    Open(Owner),
    Side(SidesSoFar),
    Equation(SidesSoFar),
    Name(SidesSoFar, Span),
    Sign(SidesSoFar, Span),
    End(SidesSoFar),
}

/// Names in a bracket: of a tele, or of an application in which the last one stands in this place.
#[derive(Drop)]
pub struct BracketNames {
    /// The room of the whole.
    pub room: u32,
    pub start: u32,
    pub names: Spans,
    /// The room of the next name of a tele.
    pub next: u32,
    pub place: Place,
    pub last: Span,
    /// The first place that is too deep, if it is an application.
    pub deep: Option<u32>,
}

/// An expression with its projections so far.
#[derive(Drop)]
pub struct Projected {
    pub slot: Slot,
    /// The room of the next projection.
    pub next: u32,
    pub start: u32,
    pub exp: Exp,
    pub projections: Projections,
}

/// What was read last, and so what may come next.
#[derive(Drop)]
pub enum Top {
    Heading(Heading),
    Items(Items),
    Block(Block),
    Done(Module),
    Exp {
        room: u32,
    },
    Exp1 {
        room: u32,
    },
    Names(Names),
    /// After a bracket.
    Opened {
        room: u32,
        start: u32,
    },
    Maybe(BracketNames),
    Projected(Projected),
    Given(Given),
    /// After a sign `@` at a place, or inside its formula, where an operand of this room comes.
    Neg {
        spine: Box<Spine>,
        at: u32,
        frames: Vec<Inner>,
        room: u32,
    },
    /// The same after an operand.
    HaveNeg {
        spine: Box<Spine>,
        at: u32,
        frames: Vec<Inner>,
        operand: Operand,
    },
    System(System),
}

/// A state of the parser.
#[derive(Drop)]
pub struct Parser {
    pub top: Top,
    pub past: Past,
    pub stack: Vec<Frame>,
}

/// Why no state follows.
#[derive(Clone, Copy)]
pub enum Stop {
    /// No text goes on with this token.
    Unexpected,
    Memory,
}

impl From<AllocError> for Stop {
    ghost from_gives = { λ _ e. e ≡ Memory };

    fn from(_error: AllocError) -> Self {
        Stop::Memory
    }
}

impl<T: Drop> From<AllocFailed<T>> for Stop {
    ghost from_gives = { λ _ e. e ≡ Memory };

    fn from(_error: AllocFailed<T>) -> Self {
        Stop::Memory
    }
}
