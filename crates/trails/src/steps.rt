//! Steps.

use book::NodeId;

/// A step from two normal trees of one context to parts of them, each of which is equal to what
/// stands there, in its context.
#[derive(Clone, Copy, Debug, PartialEq, Eq)]
pub enum Step {
    /// To the kid at this place of each, which have one operator.
    Into(u8),
    /// To a side of the kid at this place of each, which stands under a face: on the conjunction of
    /// this number.
    Side(u8, u32),
    /// To each, applied to a variable, or at a name.
    Under,
    /// To the first halves.
    First,
    /// To the second halves.
    Second,
    /// To each, which is an element of a glued type, unglued.
    Base(u32),
    /// To each on the conjunction of this number of the face of their glued type.
    Face(u32),
}

/// A step; or the equations of the parts that it leads to with their normal forms, behind a step to
/// parts that no tree has.
#[derive(Clone, Copy, Debug, PartialEq, Eq)]
pub enum Link {
    Step(Step),
    Normal(NodeId, NodeId),
}
