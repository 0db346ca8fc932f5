//! Loading: a module's file is fetched, made into tokens and read, and then each of its imports is
//! loaded whole, in order. A module that was loaded before is not loaded again.
//!
//! ```text
//! a.ctt: `module a where import b`      b.ctt: `module b where`
//! load(alloc, &mut files, "a")?         // b and then a
//! ```
#![tactic(auto)]

mod begun;
mod laws;
mod modules;
mod named;
mod text;

pub use laws::laws_of_loading;
pub use module_texts::ModuleText;
pub use modules::load;
pub use text::LoadFault;
