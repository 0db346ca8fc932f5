//! Forms of terms.

use book::NodeId;

/// What made `glue p c a`, a term of `Glue A p T w`.
#[derive(Clone, Copy, Debug)]
pub struct Glued {
    /// `G >> A`
    pub base: NodeId,
    /// `G.p >> T`
    pub side: NodeId,
    /// `G.p >> w : equiv T A`
    pub equivalence: NodeId,
    /// `G.p >> c : T`
    pub inner: NodeId,
    /// `G >> a : A`
    pub outer: NodeId,
    /// `G.p >> app (fst w) c = a : A`
    pub agrees: NodeId,
}

/// A pair, `pair a b : sig A B`, with all its parts.
#[derive(Clone, Copy, Debug)]
pub struct Paired {
    /// `G >> A`
    pub domain: NodeId,
    /// `G.A >> B`
    pub codomain: NodeId,
    /// `G >> a : A`
    pub left: NodeId,
    /// `G >> b : B{a}`
    pub right: NodeId,
}

/// A term that is a form, by the nodes that made it.
#[derive(Clone, Copy, Debug)]
pub enum TermForm {
    /// `lam A b : pi A B`: `G >> A`, and `G.A >> b : B`.
    Function(NodeId, NodeId),
    /// `pair a b : sig A B`: `G.A >> B`, `G >> a : A`, and `G >> b : B{a}`.
    Pair(NodeId, NodeId, NodeId),
    /// `plam b : pathp A u v`: `G.I >> b : A`, `G >> b{0} = u : A{0}`, and `G >> b{1} = v : A{1}`.
    Path(NodeId, NodeId, NodeId),
    /// `glue p c a : Glue A p T w`
    Glued(Glued),
    /// A type: `G >> A : U`.
    Type(NodeId),
}

/// What a term of H literally is.
#[derive(Clone, Copy, Debug)]
pub struct LiteralTerm {
    /// It is this form of G,
    pub form: TermForm,
    /// under this substitution, from H to G.
    pub sub: NodeId,
    /// That the type of the form there equals the type of the term; None where they are one.
    pub fits: Option<NodeId>,
}
