//! What is told of the trees of texts.

use crate::fault::Fault;
use crate::written::{add, tree};
use normality::is_normal_where;
use rows::{Row, RowStore, TermId, TermRow};
use std::alloc::Global;
use trees::Op;

fn is_normal(alloc: Global, rows: &RowStore, fixed: &[u128], term: TermId) -> Result<bool, Fault> {
    if !rows.is_term(term) {
        return Err(Fault::Misfit);
    }
    Ok(is_normal_where(alloc, rows, fixed, term)?)
}

/// Whether the tree behind `|` is normal where the names before it are fixed.
pub(crate) fn normal_told(alloc: Global, input: &str) -> Result<bool, Fault> {
    let (names, text) = input.split_once("|").unwrap_or(("", input));
    let mut fixed = Vec::new(alloc);
    for word in names.split_whitespace() {
        match word.parse::<u128>() {
            Ok(index) => fixed.push(index)?,
            Err(_) => return Err(Fault::Misfit),
        }
    }
    let mut rows = RowStore::new(alloc);
    let term = tree(alloc, &mut rows, text)?;
    is_normal(alloc, &rows, &fixed, term)
}

/// Whether the pair of a tree with itself is normal, and so on as often as the number before `|`
/// says. As a tree it is too large to be walked over.
pub(crate) fn doubled_told(alloc: Global, input: &str) -> Result<bool, Fault> {
    let (number, text) = input.split_once("|").unwrap_or(("", input));
    let Ok(count) = number.trim().parse::<u64>() else {
        return Err(Fault::Misfit);
    };
    let mut rows = RowStore::new(alloc);
    let mut term = tree(alloc, &mut rows, text)?;
    for _ in 0..count {
        term = TermId(add(
            &mut rows,
            Row::Term(TermRow::Make(Op::Pair, &[term.0, term.0])),
        )?);
    }
    is_normal(alloc, &rows, &[], term)
}
