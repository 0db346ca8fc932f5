//! Recipes of comparison: equations of what has equal parts.
//!
//! ```text
//! FUNCTION_ETA     of two functions that agree on a variable: an equation of them
//! ```
#![tactic(auto)]

mod absurd_terms;
mod absurd_types;
mod app_equal;
mod at_first;
mod at_name;
mod at_variable;
mod ends_fit;
mod entered_along;
mod equal_fitted;
mod fst_equal;
mod joined;
mod joined_fits;
mod lam_left;
mod lam_right;
mod met;
mod natrec_equal;
mod pair_left;
mod pair_right;
mod papp_equal;
mod papp_moved;
mod path_equal;
mod path_small_equal;
mod pi_equal;
mod pi_small_equal;
mod plam_left;
mod plam_right;
mod sig_equal;
mod sig_small_equal;
mod snd_equal;
mod suc_equal;
mod types_joined;

pub use absurd_terms::{ABSURD_TERMS, ABSURD_TERMS_GIVES};
pub use absurd_types::{ABSURD_TYPES, ABSURD_TYPES_GIVES};
pub use app_equal::{APP_EQUAL, APP_EQUAL_GIVES};
pub use at_first::{AT_FIRST, AT_FIRST_GIVES};
pub use at_name::{AT_NAME, AT_NAME_GIVES};
pub use at_variable::{AT_VARIABLE, AT_VARIABLE_GIVES};
pub use ends_fit::{ENDS_FIT, ENDS_FIT_GIVES};
pub use entered_along::{ENTERED_ALONG, ENTERED_ALONG_GIVES};
pub use equal_fitted::{EQUAL_FITTED, EQUAL_FITTED_GIVES};
pub use fst_equal::{FST_EQUAL, FST_EQUAL_GIVES};
pub use joined::{JOINED, JOINED_GIVES};
pub use joined_fits::{JOINED_FITS, JOINED_FITS_GIVES};
pub use lam_left::{LAM_LEFT, LAM_LEFT_GIVES};
pub use lam_right::{LAM_RIGHT, LAM_RIGHT_GIVES};
pub use met::{MET, MET_GIVES};
pub use natrec_equal::{NATREC_EQUAL, NATREC_EQUAL_GIVES};
pub use pair_left::{PAIR_LEFT, PAIR_LEFT_GIVES};
pub use pair_right::{PAIR_RIGHT, PAIR_RIGHT_GIVES};
pub use papp_equal::{PAPP_EQUAL, PAPP_EQUAL_GIVES};
pub use papp_moved::{PAPP_MOVED, PAPP_MOVED_GIVES};
pub use path_equal::{PATH_EQUAL, PATH_EQUAL_GIVES};
pub use path_small_equal::{PATH_SMALL_EQUAL, PATH_SMALL_EQUAL_GIVES};
pub use pi_equal::{PI_EQUAL, PI_EQUAL_GIVES};
pub use pi_small_equal::{PI_SMALL_EQUAL, PI_SMALL_EQUAL_GIVES};
pub use plam_left::{PLAM_LEFT, PLAM_LEFT_GIVES};
pub use plam_right::{PLAM_RIGHT, PLAM_RIGHT_GIVES};
pub use sig_equal::{SIG_EQUAL, SIG_EQUAL_GIVES};
pub use sig_small_equal::{SIG_SMALL_EQUAL, SIG_SMALL_EQUAL_GIVES};
pub use snd_equal::{SND_EQUAL, SND_EQUAL_GIVES};
pub use suc_equal::{SUC_EQUAL, SUC_EQUAL_GIVES};
pub use types_joined::{TYPES_JOINED, TYPES_JOINED_GIVES};
