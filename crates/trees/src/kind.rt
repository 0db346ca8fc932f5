//! What a part of a rule is, and what a row means.

/// The kind of a part of a rule.
#[derive(Clone, Copy, Debug, PartialEq, Eq)]
pub enum PartKind {
    /// A context: `[]`, `G.A`, `G.I` or `G.p`.
    Context,
    /// A substitution: a shift with pushed trees.
    Subst,
    /// A tree: a term, a type, a formula or a face.
    Term,
}
