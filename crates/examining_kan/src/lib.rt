//! What a checker of definitions does with forms that hold sides: compositions, fillings, glued
//! types, elements of these, and elements unglued.
//!
//! Each side is checked where its face is true; then each pair of sides is compared where both
//! faces are, the later with the earlier; then each side with the base.
//!
//! ```text
//! // comp (<i> A) a [ (j=0) -> <i> b ]: A, then a at A{0}, then b at A where j is 0, then b{0} = a
//! composing(&mut state, &mut book, &mut tasks, Composing::Base(code, composition))?;
//! ```
#![tactic(auto)]

mod elements;
mod glued_types;
mod lines;
mod overlaps;
mod ungluing;

pub use glued_types::gluing;
pub use lines::composing;
