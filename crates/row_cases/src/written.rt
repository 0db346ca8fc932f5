//! Contexts and trees that are written in postfix, a symbol a row.

use crate::fault::Fault;
use crate::stored::add;
use rows::{CtxId, CtxRow, Row, RowStore, SubId, SubRow, TermId, TermRow};
use std::alloc::Global;
use trees::Op;

/// Rows, with the trees that wait for an operator and the context so far.
#[derive(Drop)]
pub(crate) struct Written {
    pub(crate) rows: RowStore,
    trees: Vec<u64>,
    pub(crate) ctx: u64,
}

pub(crate) fn pop(written: &mut Written) -> Result<u64, Fault> {
    match written.trees.pop() {
        Some(tree) => Ok(tree),
        None => Err(Fault::Misfit),
    }
}

pub(crate) fn add_tree(written: &mut Written, row: TermRow<'_>) -> Result<(), Fault> {
    let tree = add(&mut written.rows, Row::Term(row))?;
    written.trees.push(tree)?;
    Ok(())
}

fn add_ctx(written: &mut Written, row: CtxRow) -> Result<(), Fault> {
    written.ctx = add(&mut written.rows, Row::Context(row))?;
    Ok(())
}

/// The number of kids of the operator of a symbol: `L` and `H` are 0 and 1, `_` and `^` true
/// nowhere and everywhere, `N` is `nat`; `-`, `&` and `|` are of formulas; `0` and `1` say that a
/// formula is at that end, `*` and `+` meet and join faces, `A` is `all`.
fn op_of(symbol: u8) -> (Op, usize) {
    match symbol {
        b'L' => (Op::I0, 0),
        b'H' => (Op::I1, 0),
        b'_' => (Op::F0, 0),
        b'^' => (Op::F1, 0),
        b'-' => (Op::Neg, 1),
        b'0' => (Op::Eq0, 1),
        b'1' => (Op::Eq1, 1),
        b'A' => (Op::All, 1),
        b'&' => (Op::Min, 2),
        b'|' => (Op::Max, 2),
        b'*' => (Op::Meet, 2),
        b'+' => (Op::Join, 2),
        _ => (Op::Nat, 0),
    }
}

fn make(written: &mut Written, symbol: u8) -> Result<(), Fault> {
    let (op, count) = op_of(symbol);
    match count {
        0 => add_tree(written, TermRow::Make(op, &[])),
        1 => {
            let kid = pop(written)?;
            add_tree(written, TermRow::Make(op, &[kid]))
        }
        _ => {
            let right = pop(written)?;
            let left = pop(written)?;
            add_tree(written, TermRow::Make(op, &[left, right]))
        }
    }
}

/// The substitution that pushes all trees that wait on a shift.
fn subst(written: &mut Written, shift: u64) -> Result<u64, Fault> {
    let mut sub = add(&mut written.rows, Row::Subst(SubRow::Shift(shift)))?;
    for tree in written.trees.iter() {
        let row = Row::Subst(SubRow::Push(SubId(sub), TermId(*tree)));
        sub = add(&mut written.rows, row)?;
    }
    written.trees.clear();
    Ok(sub)
}

/// The second tree from the top with the one on top for its innermost index.
fn instance(written: &mut Written) -> Result<(), Fault> {
    let tree = TermId(pop(written)?);
    let term = TermId(pop(written)?);
    let id = SubId(add(&mut written.rows, Row::Subst(SubRow::Shift(0)))?);
    let sub = SubId(add(&mut written.rows, Row::Subst(SubRow::Push(id, tree)))?);
    add_tree(written, TermRow::Instance(term, sub))
}

/// Does what a symbol says: `a` to `e` are the variables of index 0 to 4, `/` makes an instance;
/// `n` adds a name to the context, `v` a variable and `f` the face on top.
fn step(written: &mut Written, symbol: u8) -> Result<(), Fault> {
    let ctx = CtxId(written.ctx);
    match symbol {
        b'a'..=b'e' => add_tree(written, TermRow::Var(u32::from(symbol - b'a'))),
        b'/' => instance(written),
        b'n' => add_ctx(written, CtxRow::Name(ctx)),
        b'v' => {
            make(written, b'N')?;
            let ty = TermId(pop(written)?);
            add_ctx(written, CtxRow::Var(ctx, ty))
        }
        b'f' => {
            let face = TermId(pop(written)?);
            add_ctx(written, CtxRow::Face(ctx, face))
        }
        _ => make(written, symbol),
    }
}

/// Adds what a text makes.
pub(crate) fn write(written: &mut Written, text: &str) -> Result<(), Fault> {
    for symbol in text.as_bytes() {
        step(written, *symbol)?;
    }
    Ok(())
}

/// The context of a text.
pub(crate) fn in_context(alloc: Global, text: &str) -> Result<Written, Fault> {
    let mut rows = RowStore::new(alloc);
    let ctx = add(&mut rows, Row::Context(CtxRow::Nil))?;
    let trees = Vec::new(alloc);
    let mut written = Written { rows, trees, ctx };
    write(&mut written, text)?;
    Ok(written)
}

/// The tree of a text.
pub(crate) fn tree(written: &mut Written, text: &str) -> Result<TermId, Fault> {
    write(written, text)?;
    Ok(TermId(pop(written)?))
}

/// The substitution that pushes the trees of a text on a shift.
pub(crate) fn sub(written: &mut Written, from: (u64, &str)) -> Result<SubId, Fault> {
    let (shift, trees) = from;
    write(written, trees)?;
    Ok(SubId(subst(written, shift)?))
}
