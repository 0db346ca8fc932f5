//! From modules that are loaded to the codes of all their definitions: one module after another is
//! resolved, in the scope that its imports reach.
//!
//! ```text
//! b.ctt: `module b where` and `one : nat = suc zero`
//! a.ctt: `module a where`, `import b` and `two : nat = suc one`
//! let codes = link(alloc, &load(alloc, &mut files, "a")?)?     // those of one and of two
//! ```
#![tactic(auto)]

mod known;
mod linked;
mod reaching;

pub use linked::{LinkFault, link};
