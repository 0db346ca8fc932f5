//! The instructions of which the programs of rules are made.

use crate::derived::Derived;
use theory::Op;

/// An instruction makes a tree, a substitution or a context of those that the instructions after it
/// make. So a list of them is a thing in prefix notation, and is run from its end.
#[derive(Clone, Copy, Debug)]
pub enum Instruction {
    /// The part of that number, from 0.
    Part(u8),
    /// The variable of that index.
    Var(u32),
    /// The operator over its kids.
    Make(Op),
    /// `A[d]`: a tree, then a substitution.
    Instance,
    /// The shift by so many.
    Shift(u64),
    /// `push d a`: a substitution, then a tree.
    Push,
    /// `d then e`: a part, then a part or a shift.
    Then,
    /// `[]`
    CtxNil,
    /// `G.A`: a context, then a type.
    CtxVar,
    /// `G.I`: a context.
    CtxName,
    /// `G.p`: a context, then a face.
    CtxFace,
    /// The derived tree, of the trees that it is made of.
    Call(Derived),
}
