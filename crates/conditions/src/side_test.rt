//! Side conditions by the numbers of rows.

/// A side condition whose context, trees and substitutions are named by the numbers of their rows.
#[derive(Clone, Copy, Debug, PartialEq, Eq)]
pub enum SideTest {
    /// The tree is a formula over the names of the context.
    IsFormula(u64, u64),
    /// The tree is a face over the names of the context.
    IsFace(u64, u64),
    /// The face is true at every point at which the faces of the context are.
    Holds(u64, u64),
    /// The two substitutions are alike over the context.
    Alike(u64, u64, u64),
}
