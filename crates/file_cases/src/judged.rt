//! Verdicts on files.

use replay::{Judged, Verdict, judge};
use std::alloc::{AllocError, Global};

/// The verdict on a file. The rows end here: what drops them costs a proof for each way out of the
/// function that holds them.
fn verdict_of(alloc: Global, bytes: &[u8]) -> Result<Verdict, AllocError> {
    let Judged { verdict, rows } = judge(alloc, bytes)?;
    drop(rows);
    Ok(verdict)
}

/// The verdict on a file, as the program prints it.
pub(crate) fn verdict_told(alloc: Global, bytes: &[u8]) -> Result<String, AllocError> {
    match verdict_of(alloc, bytes)? {
        Verdict::Yes { rows, roots } => format!(in alloc; "yes: {rows} rows, {roots} roots"),
        Verdict::No { row } => format!(in alloc; "no: row {row}"),
    }
}

/// The verdict on a file with another row at a place.
pub(crate) fn verdict_with(
    alloc: Global,
    text: &str,
    at: usize,
    row: &str,
) -> Result<String, AllocError> {
    let mut changed = String::new(alloc);
    for (place, line) in text.lines().enumerate() {
        changed.push_str(if place == at { row } else { line })?;
        changed.push('\n')?;
    }
    verdict_told(alloc, changed.as_bytes())
}
