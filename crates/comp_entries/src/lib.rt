//! What stands behind the conclusions of the rules of systems and composition.
//!
//! ```text
//! comp_entry(CompRule::CompZero, Label::Right)
//! // G >> zero : nat, behind G >> comp nat p zero zero = zero : nat: from premise 0, ctx G
//! ```
#![tactic(auto)]

mod comp;
mod comp_cong;
mod comp_face;
mod comp_glue;
mod comp_path;
mod comp_pi;
mod comp_sig;
mod comp_suc;
mod comp_u;
mod comp_zero;
mod composition;
mod sys_left;
mod sys_right;
mod sys_tyleft;
mod sys_tyright;
mod systems;

pub use composition::comp_entry;
pub use systems::system_entry;
