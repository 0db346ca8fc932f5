//! Recipes of evaluation at paths, compositions and Glue: how a term goes on, form by form, and
//! what that keeps of its equation.
//!
//! ```text
//! FIRE_PATH        of r x y H e K b E f, what equals a path under a substitution, at a formula
//! wants            e : H to K; K.I >> b : E; H >> f = (plam b)[e] : (pathp E x y)[e]; r in H
//! gives            H >> papp f r = b[push e r] : E[push e r]; push e r : H to K.I
//! ```
#![tactic(auto)]

mod base_at_start;
mod comp_base;
mod comp_line;
mod comp_nat_sides_suc;
mod comp_nat_sides_zero;
mod comp_nat_suc;
mod comp_nat_zero;
mod empty_small;
mod empty_term;
mod empty_type;
mod fire_path;
mod glue_parts;
mod papp_stays;
mod path_at_end;
mod path_at_start;
mod predecessor;
mod predecessor_typed;
mod unglue_glue;
mod unglue_other;
mod unglue_stays;
mod unglued;

pub use base_at_start::{BASE_AT_START, BASE_AT_START_GIVES};
pub use comp_base::{COMP_BASE, COMP_BASE_GIVES};
pub use comp_line::{COMP_LINE, COMP_LINE_GIVES};
pub use comp_nat_sides_suc::{COMP_NAT_SIDES_SUC, COMP_NAT_SIDES_SUC_GIVES};
pub use comp_nat_sides_zero::{COMP_NAT_SIDES_ZERO, COMP_NAT_SIDES_ZERO_GIVES};
pub use comp_nat_suc::{COMP_NAT_SUC, COMP_NAT_SUC_GIVES};
pub use comp_nat_zero::{COMP_NAT_ZERO, COMP_NAT_ZERO_GIVES};
pub use empty_small::{EMPTY_SMALL, EMPTY_SMALL_GIVES};
pub use empty_term::{EMPTY_TERM, EMPTY_TERM_GIVES};
pub use empty_type::{EMPTY_TYPE, EMPTY_TYPE_GIVES};
pub use fire_path::{FIRE_PATH, FIRE_PATH_GIVES};
pub use glue_parts::{GLUE_PARTS, GLUE_PARTS_GIVES};
pub use papp_stays::{PAPP_STAYS, PAPP_STAYS_GIVES};
pub use path_at_end::{PATH_AT_END, PATH_AT_END_GIVES};
pub use path_at_start::{PATH_AT_START, PATH_AT_START_GIVES};
pub use predecessor::{PREDECESSOR, PREDECESSOR_GIVES};
pub use predecessor_typed::{PREDECESSOR_TYPED, PREDECESSOR_TYPED_GIVES};
pub use unglue_glue::{UNGLUE_GLUE, UNGLUE_GLUE_GIVES};
pub use unglue_other::{UNGLUE_OTHER, UNGLUE_OTHER_GIVES};
pub use unglue_stays::{UNGLUE_STAYS, UNGLUE_STAYS_GIVES};
pub use unglued::{UNGLUED, UNGLUED_GIVES};
