//! The names that are in scope at a place of a text, found by one search however many they are, and
//! what is known when a text is resolved up to a place.
//!
//! `specs/Finding` says what a name stands for, and `specs/Steps` what a step of resolving does.
//!
//! ```text
//! let scope = Scope { names: ScopeNames::new(alloc), next: 7 };
//! let mut place = Place::new(alloc, &scope)?;
//! place.bind(b"x", Binding::Variable)?;
//! place.bind(b"i", Binding::Interval)?;
//! place.find(b"i")                     // Found::Interval(0)
//! place.find(b"x")                     // Found::Variable(1)
//! place.find(b"nat")                   // Found::BuiltIn(BuiltIn::Nat)
//! ```
#![tactic(auto)]

mod names;
mod place;
mod scope;

pub use names::{Binding, Found};
pub use place::Place;
pub use scope::{Name, Scope, ScopeName, ScopeNames};
