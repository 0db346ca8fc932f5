//! Frames: eliminators whose main part is sought.

use book::NodeId;
use values::{Goal, Question};

/// What takes a term apart.
#[derive(Clone, Copy, Debug, PartialEq, Eq)]
pub enum Eliminator {
    App,
    NatRec,
    First,
    Second,
    /// The type of a term of the universe.
    Small,
    PathApp,
    Unglue,
    /// A composition along the line of the numbers, of which the base is sought.
    CompNat,
}

/// An eliminator whose main part is sought. The node of the goal is of its rule.
#[derive(Clone, Copy, Debug)]
pub struct Frame {
    pub form: Eliminator,
    pub goal: Goal,
}

/// What a frame was told by the replies so far.
#[derive(Clone, Copy, Debug)]
pub enum Known {
    Nothing,
    /// The argument of a function, at the function's own domain.
    Argument(NodeId),
    /// That the bases of two glued types are equal.
    Bases(NodeId),
    /// That their bases are, and where the face is true what is glued to them.
    Glued(NodeId, NodeId),
}

/// A frame that found its main part and waits for an equation.
#[derive(Clone, Copy, Debug)]
pub struct Pending {
    pub frame: Frame,
    pub head: Goal,
    pub known: Known,
}

/// What waits for a reply.
#[derive(Clone, Copy, Debug)]
pub enum Waiting {
    /// A frame, for an equation of types or of terms.
    Equation(Pending),
    /// A frame whose main part is of another type than it was asked at, for the normal forms of
    /// both, which this equates.
    Alignment(NodeId),
    /// A composition, for the head of its line.
    Line(Goal),
    /// A composition of numbers, for the head of its side where a conjunction of its face is true.
    Side(Sides),
}

/// An equation where a face is true: in G.p, for a face p of G.
#[derive(Clone, Copy, Debug)]
pub struct OnFace {
    pub face: u64,
    pub equation: NodeId,
}

/// A composition of numbers whose base was found, and whose side is sought where one conjunction of
/// its face after the other is true.
#[derive(Clone, Copy, Debug)]
pub struct Sides {
    pub goal: Goal,
    pub base: Goal,
    /// The place of the conjunction, counted from 0.
    pub at: usize,
    /// What the side equals where one of the conjunctions before it is true. The face stands under
    /// the name of the side.
    pub before: Option<OnFace>,
}

/// What becomes of a frame whose main part was found.
#[derive(Clone, Copy, Debug)]
pub enum Settled {
    /// No rule rewrites it: the goal at the term that it makes of its main part.
    Closed(Goal),
    /// A rule rewrote it: the goal at its value.
    Fired(Goal),
    /// It depends on an equation of types.
    Asks(Question, Waiting),
    /// Its main part is sought in another frame first.
    Pushed(Frame, Goal),
}
