//! What stands behind the conclusions of the rules of functions and pairs.
//!
//! ```text
//! pi_entry(PiRule::Lam, Label::Type)
//! // G >> pi A B, behind G >> lam A b : pi A B: from premise 0, G >> A, and from G.A >> B, which
//! // is the type behind premise 1, G.A >> b : B
//! ```
#![tactic(auto)]

mod app;
mod app_cong;
mod fst_cong;
mod lam;
mod pair;
mod pi;
mod pi_beta;
mod pi_tycong;
mod pi_u;
mod pi_ucong;
mod sig_beta1;
mod sig_beta2;
mod sig_tycong;
mod sig_u;
mod sig_ucong;
mod sigma;
mod snd;
mod snd_cong;

pub use pi::pi_entry;
pub use sigma::sigma_entry;
