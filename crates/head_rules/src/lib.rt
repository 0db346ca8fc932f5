//! Recipes of evaluation: how a term goes on, form by form, and what that keeps of its equation.
//!
//! ```text
//! FIRE_BETA        of H e K C b E a f, what equals a function under a substitution, applied
//! wants            e : H to K; K >> C; K.C >> b : E; H >> a : C[e]; H >> f = (lam C b)[e] : ..
//! gives            H >> app f a = b[push e a] : E[push e a]; push e a : H to K.C
//! ```
#![tactic(auto)]

mod app_stays;
mod fire_beta;
mod fst_pair;
mod fst_stays;
mod natrec_parts;
mod natrec_stays;
mod natrec_suc;
mod natrec_zero;
mod snd_pair;
mod snd_stays;
mod suc_normal;

pub use app_stays::{APP_STAYS, APP_STAYS_GIVES};
pub use fire_beta::{FIRE_BETA, FIRE_BETA_GIVES};
pub use fst_pair::{FST_PAIR, FST_PAIR_GIVES};
pub use fst_stays::{FST_STAYS, FST_STAYS_GIVES};
pub use natrec_parts::{NATREC_PARTS, NATREC_PARTS_GIVES};
pub use natrec_stays::{NATREC_STAYS, NATREC_STAYS_GIVES};
pub use natrec_suc::{NATREC_SUC, NATREC_SUC_GIVES};
pub use natrec_zero::{NATREC_ZERO, NATREC_ZERO_GIVES};
pub use snd_pair::{SND_PAIR, SND_PAIR_GIVES};
pub use snd_stays::{SND_STAYS, SND_STAYS_GIVES};
pub use suc_normal::{SUC_NORMAL, SUC_NORMAL_GIVES};
