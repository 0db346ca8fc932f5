//! The place of a code in a checker: its context, entry by entry, as nodes of a book, with the
//! weakenings between the contexts that it goes through. A weakening is made of few others, so that
//! deep places cost little more than shallow ones.
//!
//! ```text
//! let mut places = Places::new(alloc, book)?;
//! let (_, numbers) = numbers_type(book, places.ctx())?;
//! places.enter(book, numbers)?;
//! places.enter_name(book)?;                    // the place of [].nat.I, of depth 2
//! places.variable(book, 1)?                    // Some: var 1 with its type
//! places.variable(book, 0)?                    // None: this is a name
//! ```
#![tactic(auto)]

mod place;

pub use place::Places;

#[cfg(test)]
mod tests;
