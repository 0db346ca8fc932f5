//! The rows of a recipe.

use theory::{Op, RuleName};

/// The most parts that a row names.
pub const MOST_PARTS: usize = 10;

/// The most premises of a rule.
pub const MOST_WANTED: usize = 7;

/// The most premises of a recipe.
pub const MOST_PREMISES: usize = 16;

/// A row of a recipe. It names parts and premises of the recipe by their places, and what earlier
/// rows make by their numbers; places past the last that counts are not read.
#[derive(Clone, Copy, Debug)]
pub enum Row {
    /// The premise at this place, as a node.
    Premise(u16),
    /// The part at this place.
    Part(u16),
    /// What stands at this place of the conclusion of a node.
    Field(u16, u16),
    /// The variable or name of this index.
    Var(u16),
    /// An operator over trees, as many as it has kids.
    Make(Op, [u16; 4]),
    /// `A[d]`, of A and d.
    Instance(u16, u16),
    /// The shift by this number.
    Shift(u16),
    /// `push d a`, of d and a.
    Push(u16, u16),
    /// First d, then e.
    Then(u16, u16),
    /// The empty context.
    Nil,
    /// `G.A`, of G and A.
    WithVar(u16, u16),
    /// `G.I`, of G.
    WithName(u16),
    /// `G.p`, of G and p.
    WithFace(u16, u16),
    /// What a rule concludes at these parts, of these nodes.
    Conclude(RuleName, [u16; MOST_PARTS], [u16; MOST_WANTED]),
    /// What the earlier recipe of this number derives at these parts, of these nodes: a node for
    /// each of its conclusions, in order.
    Derive(u16, [u16; MOST_PARTS], [u16; MOST_PREMISES]),
}
