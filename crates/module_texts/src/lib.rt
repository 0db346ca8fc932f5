//! Modules that were read, with their names, and the names and paths that they name.
//!
//! ```text
//! path_of(alloc, "two")?                                               // `two.ctt`
//! name_at(alloc, b"import two", Span { start: 7, end: 10 })?           // `two`
//! ```
#![tactic(auto)]

mod text;

pub use text::{ModuleText, name_at, path_of};
