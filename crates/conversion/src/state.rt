//! States of comparison.

use crate::faced::FacedFrame;
use book::NodeId;
pub use equal_parts::Former;
use equal_parts::{Applied, Family, Halved, Lines, Named, Pair, Recursions, Under};
use faced_parts::{Glues, Sided};
use std::alloc::Global;
use tested_steps::Fault;
use trails::Link;
use values::{Goal, Part, Reply, Trail};

/// The normal forms of what was asked.
#[derive(Clone, Copy, Debug)]
pub struct Sides {
    pub left: Part,
    pub right: Part,
}

/// Two elements of glued types that are equal, to be unglued: their glued types, and the equations
/// of what is glued there and of the elements.
#[derive(Clone, Copy, Debug)]
pub struct Unglued {
    pub(crate) both: Glues,
    pub(crate) types: NodeId,
    pub(crate) elements: NodeId,
}

/// What a state is about.
#[derive(Clone, Copy, Debug)]
pub enum Focus {
    /// What was asked.
    Asked,
    /// What was asked was asked where a conjunction is true,
    SideAsked(Sided),
    /// and is so there.
    SideEqual(Sided, NodeId),
    /// Two terms at one type, or two types.
    Fresh(Pair),
    /// The same, where a rule may rewrite them though their parts are in normal form.
    Made(Pair),
    /// The same, where a rule may rewrite their parts too: the normal form of the left one was
    /// asked,
    Rough(Pair),
    RoughAsked(Pair),
    RoughLeft(Pair, Part),
    /// and that of the right one.
    RoughRightAsked(NodeId, Part),
    RoughNormal(NodeId, Part, Part),
    /// The head of the left one was asked.
    LeftAsked(Pair),
    /// It has it,
    LeftHeaded(Pair, Goal),
    /// and that of the right one was asked.
    RightAsked(Goal),
    /// Both heads.
    Headed(Goal, Goal),
    /// Two terms that are their heads; their types may differ.
    Spine(Pair),
    /// Whether the types of two arguments are equal was asked,
    TypesAsked(Applied),
    TypesEqual(Applied, NodeId),
    /// Whether the bases of the types of two elements, which are unglued, are equal was asked,
    BasesAsked(Unglued),
    BasesEqual(Unglued, NodeId),
    /// They are equal.
    Equal(NodeId),
    /// They have different outermost forms.
    Differ,
    /// A part of what was asked differs: the normal form of the left side was asked,
    LeftNormalAsked,
    LeftNormal(Part),
    /// and that of the right side.
    RightNormalAsked(Part),
    Normal(Part, Part),
}

/// What waits for an equation of parts.
#[derive(Clone, Copy, Debug)]
pub enum Frame {
    /// Of heads, at the type of the one; the equations of the sides with the heads at their own
    /// type, and what fits that one to this.
    Joined {
        left: NodeId,
        right: NodeId,
        fits: Option<NodeId>,
    },
    /// Of heads, at the type of the left one where it was made, which equals its own.
    Fitted(NodeId),
    Suc,
    Function(Goal, Goal),
    Argument(Goal, NodeId),
    First(Goal),
    Second(Goal),
    Motive(Recursions),
    Base(Recursions, NodeId),
    Step(Recursions, NodeId, NodeId),
    Number(NodeId, NodeId, NodeId),
    /// The domains and codomains of types in the universe.
    SmallDomain(Former, Goal, Goal),
    SmallCodomain(Former, NodeId),
    /// Those of types.
    TypeDomain(NodeId, Family, Family),
    TypeCodomain(Former, NodeId),
    /// The lines of types of paths, which may be in the universe; their left ends, where the right
    /// ones wait; and these.
    Line(Lines),
    LeftEnd(NodeId, Pair),
    RightEnd(NodeId, NodeId),
    /// The paths of two that are at formulas; and these, which differ.
    At(Goal, Goal),
    Formula,
    /// Of terms in the universe that are types.
    Small,
    /// Of types that the sides equal.
    TypesJoined(NodeId, NodeId),
    /// Of two functions at a variable.
    Under(Under),
    /// Of two paths at a name.
    Named(Named),
    /// Of forms that have parts under faces.
    Faced(FacedFrame),
    /// Of the halves of two pairs.
    FirstHalf(Halved),
    SecondHalf(Halved, NodeId, NodeId),
}

/// A state: a focus, the frames around it, the innermost last, and the links of the trail from the
/// frames that were taken off, since a part differs, the innermost first. Once a part differed, the
/// normal forms of what was asked are compared, and no head is asked of their parts.
#[derive(Drop)]
pub struct ConvertState {
    pub(crate) question: Pair,
    /// The trail where a conjunction is true on which what was asked differs.
    pub(crate) apart: Option<Trail>,
    pub(crate) parted: Option<Sides>,
    pub(crate) focus: Focus,
    pub(crate) frames: Vec<Frame>,
    pub(crate) links: Vec<Link>,
}

impl ConvertState {
    /// The state of a question.
    pub fn new(alloc: Global, question: Pair) -> ConvertState {
        ConvertState {
            question,
            apart: None,
            parted: None,
            focus: Focus::Asked,
            frames: Vec::new(alloc),
            links: Vec::new(alloc),
        }
    }

    /// Hands it the reply to what it asked.
    ///
    /// # Errors
    /// `Misfit` where it waits for no reply, or for another kind.
    pub fn answer(&mut self, reply: Reply) -> Result<(), Fault> {
        let focus = self.focus;
        self.focus = match reply {
            Reply::Head(head) => with_head(focus, head)?,
            Reply::Normal(part) => with_normal(focus, part)?,
            Reply::Equal(node) => with_equation(focus, node)?,
            Reply::Differ(trail) => {
                if let Focus::SideAsked(_) = focus {
                    self.apart = Some(trail);
                    return Ok(());
                }
                with_difference(focus)?
            }
            Reply::Unaligned(_) => return Err(Fault::Misfit),
        };
        Ok(())
    }
}

/// A focus that waits for a head, with it.
fn with_head(focus: Focus, head: Goal) -> Result<Focus, Fault> {
    match focus {
        Focus::LeftAsked(pair) => Ok(Focus::LeftHeaded(pair, head)),
        Focus::RightAsked(left) => Ok(Focus::Headed(left, head)),
        _ => Err(Fault::Misfit),
    }
}

/// A focus that waits for a normal form, with it.
fn with_normal(focus: Focus, part: Part) -> Result<Focus, Fault> {
    match focus {
        Focus::RoughAsked(pair) => Ok(Focus::RoughLeft(pair, part)),
        Focus::RoughRightAsked(ctx, left) => Ok(Focus::RoughNormal(ctx, left, part)),
        Focus::LeftNormalAsked => Ok(Focus::LeftNormal(part)),
        Focus::RightNormalAsked(left) => Ok(Focus::Normal(left, part)),
        _ => Err(Fault::Misfit),
    }
}

/// A focus that waits for a comparison, with the equation.
fn with_equation(focus: Focus, node: NodeId) -> Result<Focus, Fault> {
    match focus {
        Focus::TypesAsked(applied) => Ok(Focus::TypesEqual(applied, node)),
        Focus::BasesAsked(both) => Ok(Focus::BasesEqual(both, node)),
        Focus::SideAsked(sided) => Ok(Focus::SideEqual(sided, node)),
        _ => Err(Fault::Misfit),
    }
}

/// A focus that waits for a comparison whose sides differ.
fn with_difference(focus: Focus) -> Result<Focus, Fault> {
    match focus {
        Focus::TypesAsked(_) | Focus::BasesAsked(_) => Ok(Focus::Differ),
        _ => Err(Fault::Misfit),
    }
}
