//! Where rows stand, by how they read.

ghost use Rattle.std.specs.Prelude.{◌≡◌, IfSome};
ghost use Rattle.rows.specs.Shown.{store_means};
ghost use Rattle.rows.specs.Views.{row_meaning};

use crate::filed::Filed;
use crate::filed_rows::FiledRows;
use indexmap::IndexMap;
use rows::{Row, RowStore};
use std::alloc::{AllocError, Global};

/// The rows of a file, and more that were made over these, by how they read, so that a row that is
/// wanted once more is found.
#[derive(Drop)]
pub struct KnownRows {
    /// The newest row of each digest.
    numbers: IndexMap<u64, u64>,
    /// How many rows of the file were looked at.
    looked_at: usize,
}

impl KnownRows {
    pub fn new(alloc: Global) -> KnownRows {
        KnownRows {
            numbers: IndexMap::new(alloc),
            looked_at: 0,
        }
    }

    /// Looks at the rows of the file that it has not seen.
    pub fn look(&mut self, store: &RowStore, filed: &FiledRows) -> Result<(), AllocError> {
        for number in self.looked_at..filed.len() {
            if let Filed::Thing(at) = filed.row(number as u64) {
                if let Some(row) = store.row_at(at) {
                    self.keep(row.digest(), at)?;
                }
            }
        }
        self.looked_at = filed.len();
        Ok(())
    }

    /// Keeps the number of a row of this digest.
    pub fn keep(&mut self, digest: u64, at: u64) -> Result<(), AllocError> {
        match self.numbers.insert(digest, at) {
            Ok(_) => Ok(()),
            Err(_) => Err(AllocError),
        }
    }

    /// A row of the store that reads as this one, of this digest, if one is known.
    pub fn find(&self, store: &RowStore, digest: u64, row: Row<'_>) -> Option<u64>
        ensures { let f = store_means store.now in
            IfSome result (λ at. f at ≡ row_meaning f row.entry) }
    {
        let at = *self.numbers.get(&digest)?;
        if store.row_at(at)?.reads_as(row) {
            Some(at)
        } else {
            None
        }
    }
}
