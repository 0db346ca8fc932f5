//! The input loop of a dialogue: bytes are read in pieces and cut into lines, and the answer to
//! each line is written before more is read.
//!
//! ```text
//! let mut input = MemSource::new(alloc, b"zero\n\nsuc zero\r\n:q\n", &[])?;
//! talk(alloc, &mut answering, &mut input, &mut out)      // Ending::Closed
//! // `zero` and `suc zero` were answered, and what was answered is in `out`
//! ```
#![tactic(auto)]

mod talking;
mod writing;

pub use talking::{Answering, Ending, talk};
pub use writing::{WriteFault, write_text};
