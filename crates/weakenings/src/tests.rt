//! What is weakened, as rows of a store answer it.

use crate::{passed, shift_of_both, undone};
use rows::{Row, RowStore, SubId, SubRow, TermId, TermRow};
use std::alloc::Global;
use std::process::Abort;
use std::test::Fail;
use trees::Op;

const fn shift(by: u64) -> Row<'static> {
    Row::Subst(SubRow::Shift(by))
}

fn filled(rt: &impl Abort, alloc: Global, table: &[Row<'_>]) -> Result<RowStore, Fail> {
    let mut rows = RowStore::new(alloc);
    for row in table {
        assert!(rt; rows.fits(row));
        rows.add(*row)?;
    }
    Ok(rows)
}

#[test]
fn instances_that_need_no_row(rt: HostRuntime) -> Result<(), Fail> {
    let table = [
        Row::Term(TermRow::Var(2)),
        Row::Term(TermRow::Make(Op::Zero, &[])),
        shift(0),
        shift(1),
        Row::Subst(SubRow::Push(SubId(2), TermId(1))),
        Row::Term(TermRow::Instance(TermId(1), SubId(3))),
        shift(1 << 32),
    ];
    let rows = filled(&rt, rt.alloc(), &table)?;
    for (term, sub, row, index) in [
        (0, 2, Some(0), Some(2)),
        (0, 3, None, Some(3)),
        (0, 4, None, Some(1)),
        (0, 6, None, None),
        (1, 2, Some(1), None),
        (1, 3, None, None),
        (1, 4, None, None),
        (5, 3, None, None),
        (5, 4, Some(1), None),
    ] {
        let (term, sub) = (TermId(term), SubId(sub));
        assert!(rt; rows.fits(&Row::Term(TermRow::Instance(term, sub))));
        assert_eq!(rt; undone(&rows, term, sub), row, "at {term:?} {sub:?}");
        assert_eq!(rt; passed(&rows, term, sub), index, "at {term:?} {sub:?}");
    }
    Ok(())
}

#[test]
fn shifts_one_after_another(rt: HostRuntime) -> Result<(), Fail> {
    let table = [
        Row::Term(TermRow::Var(0)),
        shift(1),
        shift(3),
        Row::Subst(SubRow::Push(SubId(2), TermId(0))),
        Row::Subst(SubRow::Push(SubId(3), TermId(0))),
        shift(1 << 62),
    ];
    let rows = filled(&rt, rt.alloc(), &table)?;
    for (first, second, by) in [
        (1, 2, Some(4)),
        (1, 3, Some(3)),
        (2, 4, Some(4)),
        (1, 4, None),
        (3, 1, None),
        (1, 5, None),
    ] {
        assert!(rt; rows.is_subst(SubId(first)) && rows.is_subst(SubId(second)));
        let both = shift_of_both(&rows, SubId(first), SubId(second));
        assert_eq!(rt; both, by, "at {first} {second}");
    }
    Ok(())
}
