//! Rows that are made over those of a file that was judged.

use replay::{Judged, JudgedRows, judge};
use rows::{CtxId, CtxRow, Maker, Row, SubId, SubRow, TermId, TermRow};
use std::alloc::{AllocError, Global};
use theory::{Claim, Op};

/// The rows of a file alone. They are dropped by name where they are done with: what drops them is
/// long to prove.
fn rows_of(alloc: Global, bytes: &[u8]) -> Result<JudgedRows, AllocError> {
    let Judged { verdict: _, rows } = judge(alloc, bytes)?;
    Ok(rows)
}

fn told(alloc: Global, found: Result<bool, AllocError>) -> Result<String, AllocError> {
    String::from_str(
        alloc,
        if found? {
            "as wanted"
        } else {
            "another answer"
        },
    )
}

fn first_root_is_nil(rows: &mut JudgedRows) -> Result<bool, AllocError> {
    if rows.root_count() == 0 {
        return Ok(false);
    }
    let nil = rows.add(Row::Context(CtxRow::Nil))?;
    let root = rows.root_claim(0);
    rows.same_claim(root, Claim::Ctx(nil))
}

fn first_roots_are_one(rows: &mut JudgedRows) -> Result<bool, AllocError> {
    if rows.root_count() < 2 {
        return Ok(true);
    }
    let (first, second) = (rows.root_claim(0), rows.root_claim(1));
    rows.same_claim(first, second)
}

fn are_two_roots(rows: &mut JudgedRows) -> Result<bool, AllocError> {
    let is_nil = first_root_is_nil(rows)?;
    let are_one = first_roots_are_one(rows)?;
    let fits = rows.fits(&Row::Context(CtxRow::Name(CtxId(7))));
    Ok(rows.root_count() == 2 && is_nil && !are_one && !fits)
}

/// Whether of two roots the first is about the empty context, the second is another claim, and a
/// row over a number past the rows does not fit.
pub(crate) fn roots_told(alloc: Global, bytes: &[u8]) -> Result<String, AllocError> {
    let mut rows = rows_of(alloc, bytes)?;
    let found = are_two_roots(&mut rows);
    drop(rows);
    told(alloc, found)
}

fn are_found(rows: &mut JudgedRows) -> Result<bool, AllocError> {
    let nil = rows.add(Row::Context(CtxRow::Nil))?;
    let nat = rows.add(Row::Term(TermRow::Make(Op::Nat, &[])))?;
    let zero = rows.add(Row::Term(TermRow::Make(Op::Zero, &[])))?;
    let again = rows.add(Row::Term(TermRow::Make(Op::Zero, &[])))?;
    if rows.root_count() != 1 {
        return Ok(false);
    }
    Ok(rows.root_claim(0) == Claim::Ty(nil, nat) && zero != nat && again == zero)
}

/// Whether rows of the file are found, and one that is made twice is one.
pub(crate) fn found_rows_told(alloc: Global, bytes: &[u8]) -> Result<String, AllocError> {
    let mut rows = rows_of(alloc, bytes)?;
    let found = are_found(&mut rows);
    drop(rows);
    told(alloc, found)
}

fn weakens_to_one_row(rows: &mut JudgedRows) -> Result<bool, AllocError> {
    let var = rows.add(Row::Term(TermRow::Var(0)))?;
    let one = rows.add(Row::Subst(SubRow::Shift(1)))?;
    let instance = Row::Term(TermRow::Instance(TermId(var), SubId(one)));
    if !rows.fits(&instance) {
        return Ok(false);
    }
    let weakened = rows.instance(var, one)?;
    Ok(weakened == rows.var(1)?)
}

/// Whether a variable that is weakened has one row, however that is done.
pub(crate) fn weakened_told(alloc: Global, bytes: &[u8]) -> Result<String, AllocError> {
    let mut rows = rows_of(alloc, bytes)?;
    let found = weakens_to_one_row(&mut rows);
    drop(rows);
    told(alloc, found)
}
