//! Rows of trees, substitutions and contexts, as they are read. A row names earlier rows.

use trees::Op;

/// A row of any kind, as it is made.
#[derive(Clone, Copy, Debug)]
pub enum Row<'a> {
    Term(TermRow<'a>),
    Subst(SubRow),
    Context(CtxRow),
}

/// The number of a row that is a tree.
#[derive(Clone, Copy, Debug, PartialEq, Eq, Hash)]
pub struct TermId(pub u64);

/// The number of a row that is a substitution.
#[derive(Clone, Copy, Debug, PartialEq, Eq, Hash)]
pub struct SubId(pub u64);

/// The number of a row that is a context.
#[derive(Clone, Copy, Debug, PartialEq, Eq, Hash)]
pub struct CtxId(pub u64);

/// A row of a tree.
#[derive(Clone, Copy, Debug)]
pub enum TermRow<'a> {
    /// The variable of this index: `G.A >> var 0 : A+`, where `G >> A`; and weakened
    /// `G.A >> var (k + 1) : B+`, where `G >> var k : B` and `G >> A`.
    Var(u32),
    /// An operator over the rows of its kids: `G >> pi A B`, where `G >> A` and `G.A >> B`. Each
    /// operator has rules of its own.
    Make(Op, &'a [u64]),
    /// A tree under a substitution: `H >> A[d]`, where `d : H to G` and `G >> A`;
    /// `H >> a[d] : A[d]`, where `d : H to G` and `G >> a : A`.
    Instance(TermId, SubId),
}

/// A row of a substitution. Faces leave it as it is: `d : H.p to G`, where `d : H to G` and p is a
/// face over H; `d : H to G.p`, where `d : H to G`, p is a face over G and `p[d]` holds in H.
#[derive(Clone, Copy, Debug, PartialEq, Eq)]
pub enum SubRow {
    /// The shift by so many: `shift 0 : G to G`, where `ctx G`; `shift (n + 1) : H.A to G`, where
    /// `shift n : H to G` and `H >> A`, and so for a name, `H.I`.
    Shift(u64),
    /// A substitution with a tree pushed on it: `push d a : H to G.A`, where `d : H to G`, `G >> A`
    /// and `H >> a : A[d]`; `push d r : H to G.I`, where `d : H to G` and r is a formula over H.
    Push(SubId, TermId),
    /// The first substitution, then the second: `d then e : K to G`, where `d : H to G` and
    /// `e : K to H`.
    Then(SubId, SubId),
}

/// How many trees a substitution pushes, and its shift.
#[derive(Clone, Copy, Debug, PartialEq, Eq)]
pub struct SubSize {
    /// None where there are 2^64 trees and more.
    pub pushed: Option<u64>,
    pub shift: u64,
}

/// A row of a context.
#[derive(Clone, Copy, Debug, PartialEq, Eq)]
pub enum CtxRow {
    /// The empty context: `ctx []`.
    Nil,
    /// A context with a variable of a type: `ctx G.A`, where `G >> A`.
    Var(CtxId, TermId),
    /// A context with a name: `ctx G.I`, where `ctx G`.
    Name(CtxId),
    /// A context with a face: `ctx G.p`, where `ctx G` and p is a face over G.
    Face(CtxId, TermId),
}
