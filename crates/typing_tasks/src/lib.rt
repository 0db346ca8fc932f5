//! The tasks of a checker of direct codes, the types of their parts, and in `specs/` what each task
//! makes of a state.
//!
//! ```text
//! let mut tasks = Tasks::new(alloc);
//! tasks.plan(&[
//!     Task::Infer(code),                       // the first that is done
//!     Task::Comparing(Comparing::At(ty)),      // then: what was inferred has the type
//! ])?;
//! domain_of(family)                            // of a family of B over A: the type A
//! codomain_at(book, family, term)?             // at a term a: the type B[a]
//! ```
#![tactic(auto)]

mod tasks;
mod types;

pub use tasks::{
    Binding, Closing, Comparing, Defining, Eliminating, Former, Inner, Lining, Next, Pairing,
    Recurring, Sort, Task, Tasks,
};
pub use types::{as_type, codomain_at, codomain_under, domain_of, end_rows, family_of, of_sort};
