//! Rows of a store, of lines: the word of a row, and its numbers.

use crate::fault::Fault;
use rows::{CtxId, CtxRow, Row, RowStore, SubId, SubRow, TermId, TermRow};
use std::alloc::Global;
use trees::Op;

/// Adds a row that fits.
pub(crate) fn add(rows: &mut RowStore, row: Row<'_>) -> Result<u64, Fault> {
    if !rows.fits(&row) {
        return Err(Fault::Misfit);
    }
    Ok(rows.add(row)?)
}

/// The numbers of some words.
pub(crate) fn numbers_of(alloc: Global, text: &str) -> Result<Vec<u64>, Fault> {
    let mut numbers = Vec::new(alloc);
    for word in text.split_whitespace() {
        let Ok(number) = word.parse::<u64>() else {
            return Err(Fault::Misfit);
        };
        numbers.push(number)?;
    }
    Ok(numbers)
}

/// The number at a place.
pub(crate) fn number_at(numbers: &[u64], at: usize) -> u64 {
    numbers.get(at).copied().unwrap_or(u64::MAX)
}

fn op_named(word: &str) -> Result<Op, Fault> {
    match word {
        "u" => Ok(Op::U),
        "zero" => Ok(Op::Zero),
        "lam" => Ok(Op::Lam),
        "app" => Ok(Op::App),
        "pair" => Ok(Op::Pair),
        _ => Err(Fault::Misfit),
    }
}

fn subst_row(word: &str, first: u64, second: u64) -> Option<SubRow> {
    match word {
        "shift" => Some(SubRow::Shift(first)),
        "push" => Some(SubRow::Push(SubId(first), TermId(second))),
        "then" => Some(SubRow::Then(SubId(first), SubId(second))),
        _ => None,
    }
}

fn context_row(word: &str, first: u64, second: u64) -> Option<CtxRow> {
    match word {
        "nil" => Some(CtxRow::Nil),
        "with-var" => Some(CtxRow::Var(CtxId(first), TermId(second))),
        "with-name" => Some(CtxRow::Name(CtxId(first))),
        "with-face" => Some(CtxRow::Face(CtxId(first), TermId(second))),
        _ => None,
    }
}

/// The row of a word with numbers.
fn row_of<'a>(word: &str, numbers: &'a [u64]) -> Result<Row<'a>, Fault> {
    let (first, second) = (number_at(numbers, 0), number_at(numbers, 1));
    if let Some(row) = subst_row(word, first, second) {
        return Ok(Row::Subst(row));
    }
    if let Some(row) = context_row(word, first, second) {
        return Ok(Row::Context(row));
    }
    match word {
        "var" => match u32::try_from(first) {
            Ok(index) => Ok(Row::Term(TermRow::Var(index))),
            Err(_) => Err(Fault::Misfit),
        },
        "instance" => Ok(Row::Term(TermRow::Instance(TermId(first), SubId(second)))),
        _ => Ok(Row::Term(TermRow::Make(op_named(word)?, numbers))),
    }
}

fn add_line(alloc: Global, rows: &mut RowStore, line: &str) -> Result<u64, Fault> {
    let (word, rest) = line.split_once(" ").unwrap_or((line, ""));
    let numbers = numbers_of(alloc, rest)?;
    let row = row_of(word, numbers.as_slice())?;
    add(rows, row)
}

/// A store with the rows of some lines, of which those that begin with `#` are comments.
pub(crate) fn filled(alloc: Global, text: &str) -> Result<RowStore, Fault> {
    let mut rows = RowStore::new(alloc);
    for line in text.lines() {
        if !line.starts_with("#") && !line.is_empty() {
            add_line(alloc, &mut rows, line)?;
        }
    }
    Ok(rows)
}
