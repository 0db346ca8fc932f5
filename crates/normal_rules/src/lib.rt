//! Recipes of normal forms: what a term or a type is of parts that are in normal form.
//!
//! ```text
//! LAM_NORMAL       of domain and body with their normal forms: the two functions are equal
//! ```
#![tactic(auto)]

mod app_normal;
mod entered;
mod entered_home;
mod lam_normal;
mod lams_equal;
mod natrec_fits;
mod natrec_normal;
mod pair_normal;
mod papp_normal;
mod path_normal;
mod path_small_normal;
mod pi_normal;
mod pi_small_normal;
mod plam_normal;
mod sig_normal;
mod sig_small_normal;
mod small_normal;

pub use app_normal::{APP_NORMAL, APP_NORMAL_GIVES};
pub use entered::{ENTERED, ENTERED_GIVES};
pub use entered_home::{ENTERED_HOME, ENTERED_HOME_GIVES};
pub use lam_normal::{LAM_NORMAL, LAM_NORMAL_GIVES};
pub use lams_equal::{LAMS_EQUAL, LAMS_EQUAL_GIVES};
pub use natrec_fits::{NATREC_FITS, NATREC_FITS_GIVES};
pub use natrec_normal::{NATREC_NORMAL, NATREC_NORMAL_GIVES};
pub use pair_normal::{PAIR_NORMAL, PAIR_NORMAL_GIVES};
pub use papp_normal::{PAPP_NORMAL, PAPP_NORMAL_GIVES};
pub use path_normal::{PATH_NORMAL, PATH_NORMAL_GIVES};
pub use path_small_normal::{PATH_SMALL_NORMAL, PATH_SMALL_NORMAL_GIVES};
pub use pi_normal::{PI_NORMAL, PI_NORMAL_GIVES};
pub use pi_small_normal::{PI_SMALL_NORMAL, PI_SMALL_NORMAL_GIVES};
pub use plam_normal::{PLAM_NORMAL, PLAM_NORMAL_GIVES};
pub use sig_normal::{SIG_NORMAL, SIG_NORMAL_GIVES};
pub use sig_small_normal::{SIG_SMALL_NORMAL, SIG_SMALL_NORMAL_GIVES};
pub use small_normal::{SMALL_NORMAL, SMALL_NORMAL_GIVES};
