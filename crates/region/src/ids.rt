//! Names for rows and for numbers of rows.

/// A row of a region, by its number from 0. It means that row until a release takes the row away.
#[derive(Clone, Copy, Debug, PartialEq, Eq, PartialOrd, Ord, Hash)]
pub struct RowId(pub u64);

/// So many of the first rows of a region: what a release goes back to. It is a number of rows and
/// no more, so a mark of one region is a mark of each other one that has as many rows.
#[derive(Clone, Copy, Debug, PartialEq, Eq, PartialOrd, Ord, Hash)]
pub struct Mark(pub u64);
