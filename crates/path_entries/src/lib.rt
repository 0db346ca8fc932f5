//! What stands behind the conclusions of the rules of paths and natural numbers.
//!
//! ```text
//! nat_entry(NatRule::Suc, Label::Context)
//! // ctx G, behind G >> suc n : nat: the context behind premise 0, G >> n : nat
//! ```
#![tactic(auto)]

mod nat_u;
mod natrec;
mod natrec_cong;
mod natrec_suc;
mod natrec_zero;
mod naturals;
mod papp;
mod papp_cong;
mod path_beta;
mod path_left;
mod path_right;
mod path_tycong;
mod path_u;
mod path_ucong;
mod paths;
mod plam;
mod suc;
mod suc_cong;
mod zero;

pub use naturals::nat_entry;
pub use paths::path_entry;
