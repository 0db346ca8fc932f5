//! Derivation files: their rows, the one spelling of each, and an exact reader.
//!
//! A file is lines, each ended by one newline, and row k is line k, from 0. A line is words with
//! one space between any two. A number is `0`, or digits without a leading zero. Where it names a
//! row, it is less than the number of the row that it stands in. That the rows which are named are
//! of the right kinds is judged elsewhere.
//!
//! For example `rules 1`, `c nil`, `n ctx.nil` and `r 2`, each with its newline, are a file of four
//! rows: the header, the empty context, the node that says that this is a context, and that node as
//! a root.
//!
//! ```text
//! let mut reader = RowReader::new(b"rules 1\nc nil\nn ctx.nil\nr 2\n");
//! reader.next(alloc)?                          // Next::Row(Row::Header(1)), then the other three
//! let mut other = RowReader::new(b"rules 01\n");
//! other.next(alloc)?                           // Next::BadSpelling(0)
//! ```
#![tactic(auto)]

mod ids;
mod laws;
mod line;
mod number;
mod reader;
mod row;
mod words;
mod write;

pub use ids::Ids;
pub use laws::laws_of_rows;
pub use reader::{Next, RowReader};
pub use row::{NEWEST, Row};
pub use write::write_row;
