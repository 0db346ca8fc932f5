//! Evidence of refusals: files that derive what was found, and the texts that show it. Whatever was
//! found is tested here: what nodes conclude, that trees are normal, that two differ, and that the
//! faces of their context are true together somewhere.
//!
//! ```text
//! // of `[] >> U = U` and `[] >> nat = nat`
//! differing(alloc, &mut book, None, found, wanted)?    // the texts `U` and `nat`, and the file
//! ```
#![tactic(auto)]

mod aligned;
mod contexts;
mod face_texts;
mod lines;
mod openings;
mod sides;
mod texts;

pub use aligned::{Equated, unaligned};
pub use lines::{Evidence, differing, of_type, of_universe};
pub use texts::Shown;
