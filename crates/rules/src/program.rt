//! Programs that make a rule's judgements and side conditions of its parts.

use crate::instruction::Instruction;

/// What makes one thing.
pub type Place = &'static [Instruction];

/// A judgement each of whose places is made by instructions.
#[derive(Clone, Copy, Debug)]
pub enum Program {
    /// `ctx G`
    Ctx(Place),
    /// `G >> A`
    Ty(Place, Place),
    /// `G >> A = B`
    TyEq(Place, Place, Place),
    /// `G >> a : A`
    Tm(Place, Place, Place),
    /// `G >> a = b : A`
    TmEq(Place, Place, Place, Place),
    /// `d : H to G`, as H, d and G
    Sb(Place, Place, Place),
}

/// A side condition each of whose places is made by instructions.
#[derive(Clone, Copy, Debug)]
pub enum Test {
    /// The tree is a formula over the names of the context.
    IsFormula(Place, Place),
    /// The tree is a face over the names of the context.
    IsFace(Place, Place),
    /// The face is true at every point at which the faces of the context are.
    Holds(Place, Place),
    /// The two substitutions are alike over the context.
    Alike(Place, Place, Place),
}

/// The programs of a rule: its premises, its side conditions and its conclusion.
#[derive(Clone, Copy, Debug)]
pub struct Schema {
    pub wants: &'static [Program],
    pub sides: &'static [Test],
    pub gives: Program,
}
