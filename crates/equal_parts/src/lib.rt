//! Equations of terms and types of one form, of equations of their parts.
//!
//! ```text
//! let body = at_variable(&mut book, lambda, function)?;        // H.A >> app g+ (var 0) : B
//! let equal = close_under(&mut book, under, equal)?;           // H >> lam A b = g : pi A B
//! ```
#![tactic(auto)]

mod eliminated;
mod functions;
mod pairs;
mod paths;
mod sides;
mod type_forms;
mod types;
mod ways;

pub use eliminated::{
    Applied, Recursions, at_motive, close_app, close_first, close_natrec, close_second, close_suc,
    kids, recursions_of, types_of_arguments,
};
pub use functions::{Under, at_variable, body, close_under, same_body};
pub use pairs::{Halved, are_alike, at_first, close_halves, halves_at, pair_of};
pub use paths::{
    Line, Lines, Named, at_name, close_at, close_lines, close_named, ends_fit, ends_of, line_of,
    lines_within, path_body, same_path_body,
};
pub use sides::{
    Pair, are_one, at_left, at_one_type, at_own, is_absurd, is_type, kid, lead_to_one, reflexive,
};
pub use type_forms::{TypeForm, form_of_small, form_of_type};
pub use types::{
    Family, Former, both_within, close_small_types, close_types, is_small, small_family, small_term,
};
pub use ways::{
    absurd, close_fitted, close_joined, close_small, close_types_joined, meet, meet_types,
};
