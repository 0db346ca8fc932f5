//! Trees, substitutions, contexts and judgements, the language in which rules are written, and what
//! rows mean.
//!
//! Nothing here grows when a rule is added. No value of a program is a tree: trees are definitions
//! of `specs/`, which the contracts of the crates above speak of; a program holds them as rows that
//! name earlier rows.
//!
//! ```text
//! op_name(Op::Pi) == "pi"
//! kid_count(Op::Pi) == 2
//! binds(Op::Pi, 1) == 1
//! Claim::Tm(0, 3, 1).rows().as_slice() == [0, 3, 1]
//! ```
#![tactic(auto)]

mod claim;
mod kind;
mod op;

pub use claim::{Claim, ClaimRows, JudgementForm};
pub use kind::PartKind;
pub use op::{Op, OpSignature, binds, kid_count, op_name, op_signature};

#[cfg(test)]
mod tests;
