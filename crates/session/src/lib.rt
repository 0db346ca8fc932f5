//! The commands of the program, over any files, source and sink.
//!
//! ```text
//! // the words `replay two.drv`, where files hold thirteen right rows of two roots at `two.drv`
//! run(alloc, &words, &mut files, &mut input, &mut out)         // Status::Yes
//! // out took `yes: 13 rows, 2 roots`
//! ```
#![tactic(auto)]

mod check_command;
mod exclusion;
mod found;
mod job;
mod lines;
mod make_command;
mod marks;
mod normal_command;
mod others;
mod places;
mod printing;
mod program;
mod prompt_command;
mod prompted;
mod refutals;
mod replay_command;
mod roots;
mod terms;
mod top;

pub use exclusion::answers_exclude_each_other;
pub use top::run;
