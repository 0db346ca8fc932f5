//! What rows open to.

ghost use Rattle.std.specs.Prelude.{◌≤◌, length};
ghost use Rattle.rows.specs.Views.{IsTree};
ghost use Rattle.rows.specs.Shown.{store_means};

use crate::fault::Fault;
use crate::stored::{add, number_at, numbers_of};
use closures::{Closure, Environments, Head, SubstClosure, SubstHead, head_of, kid, subst_head};
use rows::{Row, RowStore, SubId, TermId, TermRow};
use std::alloc::Global;
use trees::{Op, kid_count, op_name};

/// Adds the variable of an index under a substitution.
pub(crate) fn add_variable(rows: &mut RowStore, index: u32, sub: u64) -> Result<u64, Fault> {
    let variable = add(rows, Row::Term(TermRow::Var(index)))?;
    add(
        rows,
        Row::Term(TermRow::Instance(TermId(variable), SubId(sub))),
    )
}

/// The index of the variable that a row opens to, and the number of nodes that it took.
pub(crate) fn variable_at(
    alloc: Global,
    rows: &RowStore,
    row: u64,
) -> Result<(u128, usize), Fault> {
    if !rows.is_term(TermId(row)) {
        return Err(Fault::Misfit);
    }
    let mut environments = Environments::new(alloc);
    let head = head_of(rows, &mut environments, Closure::of_row(TermId(row)))?;
    let Head::Var(index) = head else {
        return Err(Fault::Misfit);
    };
    Ok((index, environments.len()))
}

/// The head of a kid of a kid and so on of the tree of a row: the index of a variable, or an
/// operator.
fn head_along(
    alloc: Global,
    rows: &RowStore,
    row: TermId,
    path: &[u8],
) -> Result<Result<u128, Op>, Fault>
    requires row { IsTree (store_means rows.now row.0) }
    requires path { length path.now ≤ 8 }
{
    let mut environments = Environments::new(alloc);
    let mut head = head_of(rows, &mut environments, Closure::of_row(row))?;
    for at in path {
        let Head::Make(op, kids, environment) = head else {
            return Err(Fault::Misfit);
        };
        if !(*at < kid_count(op) && (*at as usize) < kids.len()) {
            return Err(Fault::Misfit);
        }
        let row = kids[*at as usize];
        if !rows.is_term(TermId(row)) {
            return Err(Fault::Misfit);
        }
        let closure = kid(&environments, op, *at, row, environment);
        head = head_of(rows, &mut environments, closure)?;
    }
    match head {
        Head::Var(index) => Ok(Ok(index)),
        Head::Make(op, _, _) => Ok(Err(op)),
    }
}

/// The head of a row that is a tree, along a path of at most eight kids.
pub(crate) fn head_at(
    alloc: Global,
    rows: &RowStore,
    row: u64,
    path: &[u8],
) -> Result<Result<u128, Op>, Fault> {
    if !(rows.is_term(TermId(row)) && path.len() <= 8) {
        return Err(Fault::Misfit);
    }
    head_along(alloc, rows, TermId(row), path)
}

/// The index of a variable, or the name of an operator.
fn head_shown(alloc: Global, head: Result<u128, Op>) -> Result<String, Fault> {
    match head {
        Ok(index) => Ok(format!(in alloc; "variable {index}")?),
        Err(op) => Ok(String::from_str(alloc, op_name(op))?),
    }
}

/// The kids of a path.
fn path_of(alloc: Global, numbers: &[u64]) -> Result<Vec<u8>, Fault> {
    let mut path = Vec::new(alloc);
    for number in numbers {
        let Ok(kid) = u8::try_from(*number) else {
            return Err(Fault::Misfit);
        };
        path.push(kid)?;
    }
    Ok(path)
}

/// The head of a kid of a kid and so on, of `ROW KID ..`.
pub(crate) fn head_told(alloc: Global, rows: &RowStore, input: &str) -> Result<String, Fault> {
    let numbers = numbers_of(alloc, input)?;
    let Some((row, path)) = numbers.as_slice().split_first() else {
        return Err(Fault::Misfit);
    };
    let path = path_of(alloc, path)?;
    let head = head_at(alloc, rows, *row, path.as_slice())?;
    head_shown(alloc, head)
}

/// The variable that the variable of an index becomes under a substitution, of `INDEX SUB`.
pub(crate) fn variable_told(
    alloc: Global,
    rows: &mut RowStore,
    input: &str,
) -> Result<String, Fault> {
    let numbers = numbers_of(alloc, input)?;
    let Ok(index) = u32::try_from(number_at(numbers.as_slice(), 0)) else {
        return Err(Fault::Misfit);
    };
    let row = add_variable(rows, index, number_at(numbers.as_slice(), 1))?;
    let (found, _) = variable_at(alloc, rows, row)?;
    Ok(format!(in alloc; "variable {found}")?)
}

/// What stands outermost in the substitution of a row: a shift, or a push of a variable.
pub(crate) fn outermost_told(alloc: Global, rows: &RowStore, input: &str) -> Result<String, Fault> {
    let row = SubId(input.parse::<u64>().unwrap_or(u64::MAX));
    if !rows.is_subst(row) {
        return Err(Fault::Misfit);
    }
    let mut environments = Environments::new(alloc);
    let tree = match subst_head(rows, &mut environments, SubstClosure::of_row(row))? {
        SubstHead::Shift(by) => return Ok(format!(in alloc; "shift {by}")?),
        SubstHead::Push(_, tree) => tree,
    };
    match head_of(rows, &mut environments, tree)? {
        Head::Var(index) => Ok(format!(in alloc; "push of variable {index}")?),
        Head::Make(_, _, _) => Err(Fault::Misfit),
    }
}
