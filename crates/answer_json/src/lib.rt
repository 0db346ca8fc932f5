//! The text of an answer as JSON, on one line.
//!
//! ```text
//! let members = AnswerMembers { turns: Some(812), ..AnswerMembers::new(Answer::Yes) };
//! answer_text(alloc, &members)?       // {"answer":"yes","turns":812}
//! ```
#![tactic(auto)]

mod answers;

pub use answers::{Answer, AnswerMembers, answer_text};

#[cfg(test)]
mod tests;
