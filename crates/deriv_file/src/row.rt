//! The rows of a derivation file.

ghost use Rattle.std.specs.Prelude.{◌≡◌};
ghost use Rattle.deriv_file.specs.Spelling.{version_after};

use crate::ids::Ids;
use theory::{Op, RuleName};

/// The newest version of the rules that files may have. The oldest is 1.
pub const NEWEST: u32 = 1;

/// The greatest shift that a file may have.
pub(crate) const GREATEST_SHIFT: u64 = 4_611_686_018_427_387_904;

/// A row: one variant for each kind of line. A row names others by their numbers; rows are counted
/// from 0.
#[derive(Debug, Drop)]
pub enum Row {
    /// `rules V`: the version of the rules.
    Header(u32),
    /// `t var N`: the variable of an index.
    Var(u32),
    /// `t OP K1 .. Kn`: an operator with its kids.
    Make(Op, Ids),
    /// `x T S`: a tree under a substitution.
    Instance(u64, u64),
    /// `s shift N`: the shift by so many.
    Shift(u64),
    /// `s push S T`: a substitution with a tree pushed on it.
    Push(u64, u64),
    /// `c nil`: the empty context.
    CtxNil,
    /// `c var C T`: a context with a variable of a type.
    CtxVar(u64, u64),
    /// `c name C`: a context with a name of the interval.
    CtxName(u64),
    /// `c face C T`: a context with a face.
    CtxFace(u64, u64),
    /// `n RULE P1 .. Pa Q1 .. Qb`: an instance of a rule with its parts and its premises.
    Node(RuleName, Ids, Ids),
    /// `r N`: a node is a root.
    Root(u64),
}

/// Where a row stands: its number, and the version of the rules there.
#[derive(Clone, Copy)]
pub(crate) struct Place {
    pub(crate) at: u64,
    pub(crate) version: u32,
}

/// The version of the rules after a row.
pub(crate) fn version_after(version: u32, row: &Row) -> u32
    ensures { result ≡ version_after version row.now }
{
    match row {
        Row::Header(version) => *version,
        _ => version,
    }
}
