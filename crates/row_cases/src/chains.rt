//! Rows that are too many for a table, or stand for trees that must not be written out.

use crate::compared::are_same;
use crate::fault::Fault;
use crate::opened::{add_variable, head_at, variable_at};
use crate::stored::{add, filled};
use compare::Comparison;
use rows::{Row, RowStore, SubId, SubRow, TermId, TermRow};
use std::alloc::Global;
use trees::{Op, PartKind};

const fn instance(term: u64, sub: u64) -> Row<'static> {
    Row::Term(TermRow::Instance(TermId(term), SubId(sub)))
}

const fn push(sub: u64, term: u64) -> Row<'static> {
    Row::Subst(SubRow::Push(SubId(sub), TermId(term)))
}

const fn then(first: u64, second: u64) -> Row<'static> {
    Row::Subst(SubRow::Then(SubId(first), SubId(second)))
}

/// The index of what a variable under 10,000 shifts by one opens to, and the nodes that it takes.
pub(crate) fn chain_told(alloc: Global) -> Result<String, Fault> {
    let mut rows = filled(alloc, "shift 1\nvar 0")?;
    let mut last = 1;
    for _ in 0..10_000 {
        last = add(&mut rows, instance(last, 0))?;
    }
    let (index, nodes) = variable_at(alloc, &rows, last)?;
    Ok(format!(in alloc; "variable {index}, {nodes} nodes")?)
}

/// How many of 40 doublings of a substitution that pushes zero take the variable 2^20 where they
/// should: past 2^20 trees and fewer to a variable, and among 2^21 and more to zero.
pub(crate) fn doublings_told(alloc: Global) -> Result<String, Fault> {
    let mut rows = filled(alloc, "shift 0\nzero\npush 0 1")?;
    let (mut sub, mut right) = (2, 0u64);
    for doublings in 1..=40u32 {
        sub = add(&mut rows, then(sub, sub))?;
        let row = add_variable(&mut rows, 1 << 20, sub)?;
        let there = head_at(alloc, &rows, row, &[])?;
        let want = (1u128 << 20).checked_sub(1 << doublings).ok_or(Op::Zero);
        if there == want {
            right = right.saturating_add(1);
        }
    }
    Ok(format!(in alloc; "{right} right")?)
}

/// How many of 128 rows open to the variable 0: instances of it under substitutions that each are
/// the one before twice over, and under ones that each push the tree before, which is an instance
/// by the one before it.
pub(crate) fn doubled_chains_told(alloc: Global) -> Result<String, Fault> {
    let text = "shift 0\nvar 0\nshift 1\ninstance 1 0\npush 2 1\npush 2 3";
    let mut rows = filled(alloc, text)?;
    let (mut twice, mut within, mut tree, mut right) = (4, 5, 1, 0u64);
    for _ in 0..64u8 {
        twice = add(&mut rows, then(twice, twice))?;
        tree = add(&mut rows, instance(tree, within))?;
        within = add(&mut rows, push(2, tree))?;
        let whole = add(&mut rows, instance(1, twice))?;
        for row in [whole, tree] {
            let (index, _) = variable_at(alloc, &rows, row)?;
            if index == 0 {
                right = right.saturating_add(1);
            }
        }
    }
    Ok(format!(in alloc; "{right} right")?)
}

/// Adds a tree with a row as both kids, one with that as both kids, and so on, 40 times.
fn add_doublings(rows: &mut RowStore, row: u64) -> Result<u64, Fault> {
    let mut last = row;
    for _ in 0..40 {
        last = add(rows, Row::Term(TermRow::Make(Op::App, &[last, last])))?;
    }
    Ok(last)
}

/// Rows with a tree of 2^40 operators over zero, in 41 rows, and the same over an instance of zero.
#[derive(Drop)]
struct Shared {
    rows: RowStore,
    left: u64,
    right: u64,
}

fn doubled_twice(alloc: Global) -> Result<Shared, Fault> {
    let mut rows = filled(alloc, "zero\nshift 1\ninstance 0 1")?;
    let left = add_doublings(&mut rows, 0)?;
    let right = add_doublings(&mut rows, 2)?;
    Ok(Shared { rows, left, right })
}

fn terms_told(alloc: Global, rows: &RowStore, pair: (u64, u64)) -> Result<String, Fault> {
    let mut comparison = Comparison::new(alloc);
    let same = are_same(&mut comparison, rows, PartKind::Term, pair)?;
    Ok(String::from_str(alloc, same)?)
}

/// Whether the two trees are the same.
pub(crate) fn shared_told(alloc: Global) -> Result<String, Fault> {
    let Shared { rows, left, right } = doubled_twice(alloc)?;
    terms_told(alloc, &rows, (left, right))
}

/// Whether the first and an instance of the second are.
pub(crate) fn shared_raised_told(alloc: Global) -> Result<String, Fault> {
    let Shared {
        mut rows,
        left,
        right,
    } = doubled_twice(alloc)?;
    let raised = add(&mut rows, instance(right, 1))?;
    terms_told(alloc, &rows, (left, raised))
}

/// Whether the first and zero are.
pub(crate) fn shared_closed_told(alloc: Global) -> Result<String, Fault> {
    let Shared { rows, left, .. } = doubled_twice(alloc)?;
    terms_told(alloc, &rows, (left, 0))
}
