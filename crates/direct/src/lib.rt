//! Which codes are direct: those that are typed by plain recursion, where types and ends are
//! compared as trees alone. Definitions, and what they say of some codes.
//!
//! A checker that evaluates accepts more. It accepts each direct code, and evaluates nothing for
//! it.
//!
//! ```text
//! \(x : nat) -> suc x  :  nat -> nat                   direct: it is inferred to have this type
//! <i> zero  :  PathP (<i> nat) zero zero               direct: checked, since its ends are zero
//! <i> zero  :  PathP (<i> nat) zero (suc zero)         not direct
//! ```
#![tactic(auto)]

mod laws;

pub use laws::laws_of_direct_codes;
