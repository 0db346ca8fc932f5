//! Forms of types.

use book::NodeId;
use typed_nodes::{Family, Line};

/// What a type literally is.
#[derive(Clone, Copy, Debug)]
pub enum Literal {
    /// `pi A B`
    Pi(Family),
    /// `sig A B`
    Sigma(Family),
    /// `pathp A u v`
    Path(Line),
    /// No type of functions, of pairs or of paths.
    Other,
}

/// Whether a node types `A` as a type, or as a term of the universe.
#[derive(Clone, Copy, Debug)]
pub enum Size {
    /// `G >> A`
    Large,
    /// `G >> A : U`
    Small,
}

/// What forms a type of a type and a family over it.
#[derive(Clone, Copy, Debug)]
pub enum Former {
    /// `pi A B`
    Pi,
    /// `sig A B`
    Sigma,
}

/// A form, by the nodes of its parts.
#[derive(Clone, Copy, Debug)]
pub enum Form {
    /// A type of functions or of pairs: `A`, and `B` over a variable of it.
    Family(Former, Size, NodeId, NodeId),
    /// A type of paths, `pathp A u v`: `A` over a name, and the ends, which are terms.
    Line(Size, NodeId, NodeId, NodeId),
}
