//! Trees that are rows under delayed substitutions, opened one operator at a time.
//!
//! A row names earlier rows. A row of a tree is a variable, an operator over rows, or an
//! *instance*: the tree of a row under the substitution of another, which is never carried out as a
//! whole. A *closure* is a row with an *environment*, the substitutions that wait before it; its
//! *head* is what stands outermost in its tree: a variable, or an operator over closures.
//! Environments are lists that share their ends. Going under a binder copies nothing.
//!
//! ```text
//! // `suc x` where `x` is the variable 0, under the substitution that takes 0 to `zero`
//! let mut environments = Environments::new(alloc);
//! let closure = Closure::of_row(TermId(rows.instance(suc_x, zero_for_x)?));
//! let head = head_of(&rows, &mut environments, closure)?;
//! // Head::Make(Op::Suc, [x], environment)
//! let kid = kid(&environments, Op::Suc, 0, x, environment);
//! // its head is Head::Make(Op::Zero, [], ..)
//! ```
#![tactic(auto)]

mod chains;
mod closure;
mod environments;
mod heads;
mod notes;
mod substs;
mod variables;

pub use closure::Closure;
pub use environments::{Delayed, Environment, Environments, Node};
pub use heads::{Head, head_of, kid};
pub use substs::{SubstClosure, SubstHead, subst_head};
