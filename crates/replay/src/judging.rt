//! The judge.

ghost use Rattle.std.specs.Prelude.{◌≡◌, [], IfOk};
ghost use Rattle.replay.specs.Meant.{meant_by};
ghost use Rattle.replay.specs.Sides.{Keeps};
ghost use Rattle.replay.specs.Shown.{JudgedIs, RootsAre};
ghost use Rattle.replay.specs.Verdicts.{VerdictIs};

use crate::judged_rows::JudgedRows;
use deriv_file::{Next, RowReader};
use std::alloc::{AllocError, Global};

/// Whether every row of a derivation file is right.
#[derive(Clone, Copy, Debug, PartialEq, Eq)]
pub enum Verdict {
    /// Every row is right; the number of rows, and of roots among them.
    Yes { rows: u64, roots: u64 },
    /// The first row that is not right, counted from 0; 0 for the empty file.
    No { row: u64 },
}

/// What is found of a derivation file.
#[derive(Drop)]
pub struct Judged {
    /// Whether every row is right.
    pub verdict: Verdict,
    /// The rows that are, up to the first that is not, with the roots among them.
    pub rows: JudgedRows,
}

/// Judges the rows of a file one after the other, until one is not right.
fn judge_rows(alloc: Global, bytes: &[u8], rows: &mut JudgedRows) -> Result<Verdict, AllocError>
    requires none { meant_by rows.old.judge ≡ [] }
    requires no_roots { rows.old.roots.items ≡ [] }
    requires keeps { Keeps rows.old.judge.sides rows.old.judge.store }
    ensures { IfOk result (λ verdict. JudgedIs bytes.now verdict rows.new) }
{
    let mut reader = RowReader::new(bytes);
    loop {
        let row = match reader.next(alloc)? {
            Next::Row(row) => row,
            Next::BadSpelling(row) => return Ok(Verdict::No { row }),
            Next::End => break,
        };
        let right = rows.judge_row(alloc, &row)?;
        if !right {
            let row = rows.len() as u64;
            return Ok(Verdict::No { row });
        }
    }
    let roots = rows.root_count();
    Ok(match rows.len() as u64 {
        0 => Verdict::No { row: 0 },
        rows => Verdict::Yes { rows, roots },
    })
}

/// Judges a derivation file. The only error is to be out of memory.
pub fn judge(alloc: Global, bytes: &[u8]) -> Result<Judged, AllocError>
    ensures verdict { IfOk result (λ judged. VerdictIs bytes.now judged.verdict) }
    ensures roots { IfOk result (RootsAre bytes.now) }
{
    let mut rows = JudgedRows::new(alloc);
    let verdict = judge_rows(alloc, bytes, &mut rows)?;
    Ok(Judged { verdict, rows })
}
