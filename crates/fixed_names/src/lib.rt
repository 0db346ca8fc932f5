//! The names that faces fix at a place of a tree.
//!
//! ```text
//! let mut scopes = Scopes::new(alloc);
//! let within = scopes.fix(Scope::Open, 0)?;     // the innermost name stands at an end
//! let below = scopes.below(within, 1);          // and below one binder it is the index 1
//! scopes.is_free(below, 0)                      // true
//! ```
#![tactic(auto)]

mod scopes;

pub use scopes::{Scope, Scopes};
