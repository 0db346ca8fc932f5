//! Interned rows of words: equal rows are kept once, under one number, and lent without copying.
//!
//! The words of rows stand in chunks of 4,096, each row whole in one chunk, and are never moved. A
//! table of slots finds a row by its words. `reserve` makes room beforehand, so that what follows
//! cannot be out of memory, and `release` takes the newest rows back and keeps their room.
//!
//! ```text
//! let mut region = Region::new(alloc)?;
//! region.intern(&[1, 2])?              // RowId(0)
//! region.intern(&[3])?                 // RowId(1)
//! region.intern(&[1, 2])?              // RowId(0), since this row stands
//! region.release(Mark(1));
//! region.intern(&[2, 1])?              // RowId(1), in the room of the row that was released
//! ```
#![tactic(auto)]

mod hash;
mod ids;
mod interning;
mod storage;
mod table;
#[cfg(test)]
mod tests;

pub use ids::{Mark, RowId};
pub use interning::{MOST_WORDS, Region};
