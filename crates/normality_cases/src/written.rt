//! Trees that are written with each operator before its kids.

use crate::fault::Fault;
use rows::{Row, RowStore, TermId, TermRow};
use std::alloc::Global;
use trees::{Op, kid_count, op_name};

const OPS: [Op; 33] = [
    Op::I0,
    Op::I1,
    Op::Neg,
    Op::Min,
    Op::Max,
    Op::F0,
    Op::F1,
    Op::Eq0,
    Op::Eq1,
    Op::Meet,
    Op::Join,
    Op::All,
    Op::U,
    Op::Pi,
    Op::Lam,
    Op::App,
    Op::Sig,
    Op::Pair,
    Op::Fst,
    Op::Snd,
    Op::PathP,
    Op::PLam,
    Op::PApp,
    Op::Nat,
    Op::Zero,
    Op::Suc,
    Op::NatRec,
    Op::Sys,
    Op::Empty,
    Op::Comp,
    Op::GlueType,
    Op::Glue,
    Op::Unglue,
];

fn op_named(word: &str) -> Result<Op, Fault> {
    for op in &OPS {
        if op_name(*op) == word {
            return Ok(*op);
        }
    }
    Err(Fault::Misfit)
}

/// Adds a row that fits.
pub(crate) fn add(rows: &mut RowStore, row: Row<'_>) -> Result<u64, Fault> {
    if !rows.fits(&row) {
        return Err(Fault::Misfit);
    }
    Ok(rows.add(row)?)
}

/// Adds the row of a word over the rows that stand behind it, of which the first is the last.
fn add_word(
    alloc: Global,
    rows: &mut RowStore,
    behind: &mut Vec<u64>,
    word: &str,
) -> Result<(), Fault> {
    if let Ok(index) = word.parse::<u32>() {
        behind.push(add(rows, Row::Term(TermRow::Var(index)))?)?;
        return Ok(());
    }
    let op = op_named(word)?;
    let mut kids = Vec::new(alloc);
    for _ in 0..kid_count(op) {
        match behind.pop() {
            Some(kid) => kids.push(kid)?,
            None => return Err(Fault::Misfit),
        }
    }
    behind.push(add(rows, Row::Term(TermRow::Make(op, &kids)))?)?;
    Ok(())
}

/// The row of the tree of a text.
pub(crate) fn tree(alloc: Global, rows: &mut RowStore, text: &str) -> Result<TermId, Fault> {
    let mut words = Vec::new(alloc);
    for word in text.split_whitespace() {
        words.push(word)?;
    }
    let mut behind = Vec::new(alloc);
    while let Some(word) = words.pop() {
        add_word(alloc, rows, &mut behind, word)?;
    }
    match behind.as_slice() {
        [row] => Ok(TermId(*row)),
        _ => Err(Fault::Misfit),
    }
}
