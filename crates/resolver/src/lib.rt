//! From the text of a module to codes, which mean the trees of the text: names become variables and
//! definitions, lines stand opened, and what a text abbreviates is written out.
//!
//! ```text
//! // nothing is in scope but what is built in
//! let scope = Scope { names: ScopeNames::new(alloc), next: 0 };
//! resolve_exp(alloc, bytes, &exp, &scope)
//! // of `\(x : nat) -> suc x`: Code::Lambda, over Code::Suc of Code::Bound { index: 0, .. }
//! // of `\(x : nat) -> suc y`: Err(ScopeFault::Unbound(18))
//! ```
#![tactic(auto)]

mod applied;
mod binding;
mod defs;
mod exps;
mod gluing;
mod kan;
mod opened;
mod resolving;
mod systems;

pub use codes::{
    Binder, Code, CodeDef, Element, Equation, Formula, LineSide, Opened, PairSide, Side,
};
pub use resolving::{Codes, resolve, resolve_exp};
pub use scopes::{Name, Scope, ScopeName, ScopeNames};
pub use translation::ScopeFault;
