//! Rows in memory, as they are made, read, measured and cut back.

use rows::{CtxId, CtxRow, Reader, Row, RowStore, SubId, SubRow, SubSize, TermId, TermRow};
use std::alloc::Global;
use std::process::Abort;
use std::test::Fail;
use trees::{Op, PartKind};

const fn shift(by: u64) -> Row<'static> {
    Row::Subst(SubRow::Shift(by))
}

const fn push(sub: u64, term: u64) -> Row<'static> {
    Row::Subst(SubRow::Push(SubId(sub), TermId(term)))
}

const fn then(first: u64, second: u64) -> Row<'static> {
    Row::Subst(SubRow::Then(SubId(first), SubId(second)))
}

const fn face(ctx: u64, face: u64) -> Row<'static> {
    Row::Context(CtxRow::Face(CtxId(ctx), TermId(face)))
}

/// Adds a row that fits.
fn add(rt: &impl Abort, rows: &mut RowStore, row: Row<'_>) -> Result<u64, Fail> {
    assert!(rt; rows.fits(&row));
    Ok(rows.add(row)?)
}

fn filled(rt: &impl Abort, alloc: Global, table: &[Row<'_>]) -> Result<RowStore, Fail> {
    let mut rows = RowStore::new(alloc);
    for row in table {
        add(rt, &mut rows, *row)?;
    }
    Ok(rows)
}

/// Asserts how the rows of the next test are read.
fn assert_read(rt: &impl Abort, rows: &RowStore) {
    assert!(rt; rows.is_term(TermId(1)) && rows.is_subst(SubId(3)) && rows.is_context(CtxId(5)));
    assert!(rt; matches!(rows.term(TermId(1)), TermRow::Make(Op::Lam, &[0, 0])));
    assert!(rt; matches!(rows.subst(SubId(3)), SubRow::Push(SubId(2), TermId(1))));
    assert!(rt; matches!(rows.context(CtxId(5)), CtxRow::Face(CtxId(4), TermId(0))));
    assert_eq!(rt; rows.len(), 6);
    assert_eq!(rt; rows.kind(3), PartKind::Subst);
}

/// Asserts that rows that are made again are the ones that stand.
fn assert_found(rt: &impl Abort, rows: &mut RowStore, table: &[Row<'_>]) -> Result<(), Fail> {
    let count = rows.len();
    for (at, row) in table.iter().enumerate() {
        let found = add(rt, rows, *row)?;
        assert_eq!(rt; found, at as u64);
    }
    assert_eq!(rt; rows.len(), count);
    Ok(())
}

/// Leaves the first row alone, and asserts that another stands in the place of one that is gone,
/// which is made anew.
fn assert_cut_back(rt: &impl Abort, rows: &mut RowStore) -> Result<(), Fail> {
    rows.truncate(1);
    assert!(rt; rows.len() == 1 && !rows.is_of_kind(1, PartKind::Term));
    let other = add(rt, rows, Row::Term(TermRow::Make(Op::Suc, &[0])))?;
    assert_eq!(rt; other, 1);
    assert!(rt; rows.is_term(TermId(1)));
    assert!(rt; matches!(rows.term(TermId(1)), TermRow::Make(Op::Suc, &[0])));
    let gone = add(rt, rows, Row::Term(TermRow::Make(Op::Lam, &[0, 0])))?;
    assert_eq!(rt; gone, 2);
    Ok(())
}

#[test]
fn rows_are_read_as_they_were_made(rt: HostRuntime) -> Result<(), Fail> {
    let table = [
        Row::Term(TermRow::Var(7)),
        Row::Term(TermRow::Make(Op::Lam, &[0, 0])),
        shift(4),
        push(2, 1),
        Row::Context(CtxRow::Nil),
        face(4, 0),
    ];
    let mut rows = filled(&rt, rt.alloc(), &table)?;
    assert_read(&rt, &rows);
    assert_found(&rt, &mut rows, &table)?;
    assert_cut_back(&rt, &mut rows)
}

/// Asserts which rows fit.
fn assert_fits(rt: &impl Abort, rows: &RowStore, cases: &[(Row<'_>, bool)]) {
    for (row, fits) in cases {
        assert_eq!(rt; rows.fits(row), *fits, "at {row:?}");
    }
}

#[test]
fn rows_fit_that_name_rows_of_the_right_kinds(rt: HostRuntime) -> Result<(), Fail> {
    let table = [
        Row::Term(TermRow::Var(0)),
        shift(1 << 62),
        Row::Context(CtxRow::Nil),
    ];
    let rows = filled(&rt, rt.alloc(), &table)?;
    let cases = [
        (Row::Term(TermRow::Make(Op::Pair, &[0, 0])), true),
        (Row::Term(TermRow::Make(Op::Pair, &[0])), false),
        (Row::Term(TermRow::Make(Op::Pair, &[0, 1])), false),
        (Row::Term(TermRow::Instance(TermId(0), SubId(1))), true),
        (Row::Term(TermRow::Instance(TermId(1), SubId(0))), false),
        (shift((1 << 62) + 1), false),
        (push(1, 3), false),
        (then(1, 1), true),
        (then(1, 0), false),
        (Row::Context(CtxRow::Name(CtxId(0))), false),
        (Row::Context(CtxRow::Var(CtxId(2), TermId(0))), true),
        (face(2, 1), false),
    ];
    assert_fits(&rt, &rows, &cases);
    Ok(())
}

/// Asserts that a substitution pushes so many trees and shifts by so much.
fn assert_size(rt: &impl Abort, rows: &RowStore, sub: u64, pushed: Option<u64>, shift: u64) {
    assert!(rt; rows.is_subst(SubId(sub)));
    assert_eq!(rt;
        rows.size(SubId(sub)),
        SubSize { pushed, shift },
        "at {sub}"
    );
}

/// Adds one tree on no shift, and 200 substitutions each of which is twice the one before; asserts
/// their sizes.
fn assert_doublings(rt: &impl Abort, rows: &mut RowStore) -> Result<(), Fail> {
    let none = add(rt, rows, shift(0))?;
    let mut last = add(rt, rows, push(none, 0))?;
    for doublings in 1..=200u32 {
        last = add(rt, rows, then(last, last))?;
        assert_size(rt, rows, last, 1u64.checked_shl(doublings), 0);
    }
    Ok(())
}

#[test]
fn substitutions_know_their_sizes(rt: HostRuntime) -> Result<(), Fail> {
    let table = [
        Row::Term(TermRow::Var(0)),
        shift(3),
        push(1, 0),
        push(2, 0),
        // two trees and a shift by 3, of which the first two go and one more is raised over; and
        // the other way round
        then(1, 3),
        then(3, 1),
        then(3, 3),
    ];
    let mut rows = filled(&rt, rt.alloc(), &table)?;
    for (sub, pushed, shift) in [
        (1, 0, 3),
        (2, 1, 3),
        (3, 2, 3),
        (4, 0, 4),
        (5, 2, 6),
        (6, 2, 4),
    ] {
        assert_size(&rt, &rows, sub, Some(pushed), shift);
    }
    assert_doublings(&rt, &mut rows)
}
