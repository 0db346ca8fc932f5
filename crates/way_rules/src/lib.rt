//! Recipes of ways: an equation that leads from a term that was asked to one that is at hand, and
//! from there on; and what fits the type of the one to that of the other.
//!
//! ```text
//! WAY_BEGUN        of d G t A H, a term under a substitution
//! wants            d : H to G; G >> t : A
//! gives            H >> t[d] = t[d] : A[d]
//! ```
#![tactic(auto)]

mod equal_after;
mod equal_after_fits;
mod equal_at_own;
mod fits_joined;
mod fits_under;
mod small_equal;
mod term_at_left;
mod term_fitted;
mod type_same;
mod type_turned;
mod way_begun;
mod way_begun_type;
mod way_home;

pub use equal_after::{EQUAL_AFTER, EQUAL_AFTER_GIVES};
pub use equal_after_fits::{EQUAL_AFTER_FITS, EQUAL_AFTER_FITS_GIVES};
pub use equal_at_own::{EQUAL_AT_OWN, EQUAL_AT_OWN_GIVES};
pub use fits_joined::{FITS_JOINED, FITS_JOINED_GIVES};
pub use fits_under::{FITS_UNDER, FITS_UNDER_GIVES};
pub use small_equal::{SMALL_EQUAL, SMALL_EQUAL_GIVES};
pub use term_at_left::{TERM_AT_LEFT, TERM_AT_LEFT_GIVES};
pub use term_fitted::{TERM_FITTED, TERM_FITTED_GIVES};
pub use type_same::{TYPE_SAME, TYPE_SAME_GIVES};
pub use type_turned::{TYPE_TURNED, TYPE_TURNED_GIVES};
pub use way_begun::{WAY_BEGUN, WAY_BEGUN_GIVES};
pub use way_begun_type::{WAY_BEGUN_TYPE, WAY_BEGUN_TYPE_GIVES};
pub use way_home::{WAY_HOME, WAY_HOME_GIVES};
