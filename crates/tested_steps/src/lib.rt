//! Calls of the kernel that test what it requires. Where a rule does not fit its parts and
//! premises, the answer is a fault and the book has no new node. So a program over these calls has
//! nothing to prove of its nodes: each node of a book is right, whatever makes it.
//!
//! ```text
//! let one = try_conclude(&mut book, &RuleUse { rule: suc, parts: [ctx, zero], .. })?;
//! // Err(Fault::Unfit(suc, Fit::Premise(0))) if the premise does not conclude [] >> zero : nat
//! let [term] = derive(&mut book, TERM_INSTANCE, TERM_INSTANCE_GIVES, &[], &[sub, one])?;
//! ```
#![tactic(auto)]

mod behind;
mod conclude;
mod fault;
mod making;
mod questions;
mod reading;
mod run;

pub use behind::{codomain_of, context_of, far_of, kids_of, type_of};
pub use conclude::try_conclude;
pub use fault::Fault;
pub use making::{
    try_instance, try_make, try_push, try_then, try_with_face, try_with_name, try_with_variable,
};
pub use questions::{always_false, conjunction, count_conjunctions, holds_under, is_formula_end};
pub use reading::{
    claim_of, part_of, premise_of, rule_of, same_sides, same_type, substitution_row, type_row,
};
pub use run::{derive, try_run};
