//! How commands and lines of the prompt end, in plain words and in JSON.
//!
//! ```text
//! let told = refused(Cause::Unbound, Some(18), Some(path));     // path is `A.ctt`
//! told.text_in(alloc, false)?                      // no: Unbound at 18 in A.ctt
//! told.text_in(alloc, true)?       // {"answer":"no","at":18,"cause":"Unbound","path":"A.ctt"}
//! ```
#![tactic(auto)]

mod json_answers;
mod outcome;
mod refusal;

pub use outcome::{Outcome, Status};
pub use refusal::{Cause, Refusal, of_lex, of_load, of_read, of_scope, refused};
