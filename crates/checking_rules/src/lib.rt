//! Recipes of the checker of definitions, beside those of typing.
//!
//! ```text
//! EQUIV_TYPE       of G >> T and G >> A
//! gives            G >> equiv T A
//! ```
#![tactic(auto)]

mod equiv_type;

pub use equiv_type::{EQUIV_TYPE, EQUIV_TYPE_GIVES};
