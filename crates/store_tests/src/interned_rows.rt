//! Interned rows as they are made, read, measured and released.

use interned::InternedRows;
use rows::{CtxId, CtxRow, Maker, Reader, SubId, SubRow, SubSize, TermId, TermRow};
use std::process::Abort;
use std::test::Fail;
use trees::Op;

/// Asserts what numbers variables of these indices have.
fn assert_vars(rt: &impl Abort, rows: &mut InternedRows, cases: &[(u32, u64)]) -> Result<(), Fail> {
    for (index, number) in cases {
        let got = rows.var(*index)?;
        assert_eq!(rt; got, *number, "at {index}");
    }
    Ok(())
}

/// Asserts what numbers rows of other forms have after three variables.
fn assert_others(rt: &impl Abort, rows: &mut InternedRows) -> Result<(), Fail> {
    let made = rows.make(Op::Zero, &[])?;
    let shifts = [rows.shift(0)?, rows.shift(0)?];
    let nil = rows.ctx_nil()?;
    assert_eq!(rt; (made, shifts, nil), (3, [4, 4], 5));
    assert_eq!(rt; rows.len(), 6);
    Ok(())
}

/// Makes a variable of index 10, which is row 6, and releases it.
fn release_var(rt: &impl Abort, rows: &mut InternedRows) -> Result<(), Fail> {
    let mark = rows.mark();
    let var = rows.var(10)?;
    assert_eq!(rt; var, 6);
    assert!(rt; mark.0 <= rows.len());
    rows.release(mark);
    Ok(())
}

#[test]
fn equal_rows_have_one_number_until_they_are_released(rt: HostRuntime) -> Result<(), Fail> {
    let mut rows = InternedRows::new(rt.alloc())?;
    assert_vars(&rt, &mut rows, &[(7, 0), (8, 1), (7, 0), (9, 2)])?;
    assert_others(&rt, &mut rows)?;
    release_var(&rt, &mut rows)?;
    assert_vars(&rt, &mut rows, &[(11, 6), (10, 7), (8, 1)])
}

fn assert_trees_read(rt: &impl Abort, rows: &mut InternedRows) -> Result<(), Fail> {
    let var = rows.var(7)?;
    assert!(rt; matches!(rows.term(TermId(var)), TermRow::Var(7)));
    let lam = rows.make(Op::Lam, &[var, var])?;
    assert!(rt; matches!(rows.term(TermId(lam)), TermRow::Make(Op::Lam, &[0, 0])));
    let nil = rows.ctx_nil()?;
    let named = rows.ctx_name(nil)?;
    assert!(rt; matches!(rows.context(CtxId(named)), CtxRow::Name(CtxId(2))));
    Ok(())
}

#[test]
fn trees_are_read_as_they_were_made(rt: HostRuntime) -> Result<(), Fail> {
    let mut rows = InternedRows::new(rt.alloc())?;
    assert_trees_read(&rt, &mut rows)
}

fn assert_pushed_read(rt: &impl Abort, rows: &mut InternedRows) -> Result<(), Fail> {
    let var = rows.var(0)?;
    let shift = rows.shift(3)?;
    let push = rows.push(shift, var)?;
    let size = rows.size(SubId(push));
    let pushed = Some(1);
    assert_eq!(rt; size, SubSize { pushed, shift: 3 });
    assert!(rt; matches!(rows.subst(SubId(push)), SubRow::Push(SubId(1), TermId(0))));
    Ok(())
}

#[test]
fn substitutions_are_read_with_their_sizes(rt: HostRuntime) -> Result<(), Fail> {
    let mut rows = InternedRows::new(rt.alloc())?;
    rows.reserve(2)?;
    assert_pushed_read(&rt, &mut rows)
}

#[test]
fn what_is_weakened_has_one_row(rt: HostRuntime) -> Result<(), Fail> {
    let mut rows = InternedRows::new(rt.alloc())?;
    let (var, two) = (rows.var(2)?, rows.shift(2)?);
    assert_eq!(rt; rows.instance(var, two)?, rows.var(4)?);
    Ok(())
}

#[test]
fn shifts_are_added_up(rt: HostRuntime) -> Result<(), Fail> {
    let mut rows = InternedRows::new(rt.alloc())?;
    let one = rows.shift(1)?;
    assert_eq!(rt; rows.then(one, one)?, rows.shift(2)?);
    Ok(())
}

#[test]
fn what_is_undone_is_the_tree(rt: HostRuntime) -> Result<(), Fail> {
    let mut rows = InternedRows::new(rt.alloc())?;
    let (zero, none) = (rows.make(Op::Zero, &[])?, rows.shift(0)?);
    assert_eq!(rt; rows.instance(zero, none)?, zero);
    Ok(())
}
