//! The rules and operators by name, and what files say of each.
//!
//! The language itself stands in `trees`, which this crate hands on.
//!
//! ```text
//! rule_of(b"suc", 1) == Some(RuleName::Naturals(NatRule::Suc))
//! part_kinds(RuleName::Naturals(NatRule::Suc)) == [PartKind::Context, PartKind::Term]
//! op_of(b"succ", 1) == None
//! ```
#![tactic(auto)]

mod numbers;
mod operators;
mod rule;
mod signatures;

pub use numbers::rule_number;
pub use operators::op_of;
pub use rule::{
    CompRule, ContextRule, EqualityRule, GlueRule, InstanceRule, NatRule, PathRule, PiRule, RULES,
    RuleName, SigmaRule, SystemRule, UniverseRule, count_parts, count_premises, numbered_rule,
    part_kind, part_kinds, rule_name, rule_of,
};
pub use signatures::{Signature, signature_of};
pub use trees::{Claim, ClaimRows, JudgementForm, Op, PartKind, binds, kid_count, op_name};

#[cfg(test)]
mod tests;
