//! Claims as texts. `#0` is an index, `t[2]` a tree under a shift, `t[2, u]` under one with a tree
//! pushed on it; a context is written from the outside, `[] : A . i | p` under a variable of the
//! type A, a name and a face.

use rows::{CtxId, CtxRow, Reader, RowStore, SubId, SubRow, TermId, TermRow};
use std::alloc::{AllocError, Global};
use trees::{Claim, op_name};

/// How deep rows are shown.
const DEPTH: u32 = 1_000;

/// Rows, and the text of what was shown of them.
#[derive(Drop)]
pub struct Shown<'a> {
    rows: &'a RowStore,
    text: String,
}

impl<'a> Shown<'a> {
    #[cycle(trees)]
    fn term(&mut self, id: TermId, depth: u32) -> Result<(), AllocError> {
        if depth == 0 || !self.rows.is_term(id) {
            return self.text.push_str("..");
        }
        match self.rows.term(id) {
            TermRow::Var(index) => write!(self.text, "#{index}"),
            TermRow::Make(op, []) => write!(self.text, "{}", op_name(op)),
            TermRow::Make(op, kids) => {
                write!(self.text, "({}", op_name(op))?;
                for kid in kids {
                    self.text.push(' ')?;
                    self.term(TermId(*kid), depth - 1)?;
                }
                self.text.push(')')
            }
            TermRow::Instance(term, sub) => {
                self.term(term, depth - 1)?;
                self.text.push('[')?;
                self.subst(sub, depth - 1)?;
                self.text.push(']')
            }
        }
    }

    #[cycle(trees)]
    fn subst(&mut self, id: SubId, depth: u32) -> Result<(), AllocError> {
        if depth == 0 || !self.rows.is_subst(id) {
            return self.text.push_str("..");
        }
        match self.rows.subst(id) {
            SubRow::Shift(by) => write!(self.text, "{by}"),
            SubRow::Push(sub, term) => {
                self.subst(sub, depth - 1)?;
                self.text.push_str(", ")?;
                self.term(term, depth - 1)
            }
            SubRow::Then(first, second) => {
                self.subst(first, depth - 1)?;
                self.text.push_str("; ")?;
                self.subst(second, depth - 1)
            }
        }
    }

    fn context(&mut self, id: CtxId, depth: u32) -> Result<(), AllocError> {
        if depth == 0 || !self.rows.is_context(id) {
            return self.text.push_str("..");
        }
        match self.rows.context(id) {
            CtxRow::Nil => self.text.push_str("[]"),
            CtxRow::Var(ctx, ty) => {
                self.context(ctx, depth - 1)?;
                self.text.push_str(" : ")?;
                self.term(ty, depth - 1)
            }
            CtxRow::Name(ctx) => {
                self.context(ctx, depth - 1)?;
                self.text.push_str(" . i")
            }
            CtxRow::Face(ctx, face) => {
                self.context(ctx, depth - 1)?;
                self.text.push_str(" | ")?;
                self.term(face, depth - 1)
            }
        }
    }

    fn claim(&mut self, claim: Claim) -> Result<(), AllocError> {
        match claim {
            Claim::Ty(ctx, ty) => {
                self.context(CtxId(ctx), DEPTH)?;
                self.text.push_str(" >> ")?;
                self.term(TermId(ty), DEPTH)
            }
            Claim::Tm(ctx, term, ty) => {
                self.context(CtxId(ctx), DEPTH)?;
                self.text.push_str(" >> ")?;
                self.term(TermId(term), DEPTH)?;
                self.text.push_str(" : ")?;
                self.term(TermId(ty), DEPTH)
            }
            _ => self.text.push_str("another judgement"),
        }
    }
}

/// The tree of a row.
pub fn tree_shown(alloc: Global, rows: &RowStore, row: u64) -> Result<String, AllocError> {
    let mut shown = Shown {
        rows,
        text: String::new(alloc),
    };
    shown.term(TermId(row), DEPTH)?;
    Ok(shown.text)
}

/// The claims, one a line.
pub fn claims_shown(
    alloc: Global,
    rows: &RowStore,
    claims: &[Claim],
) -> Result<String, AllocError> {
    let mut shown = Shown {
        rows,
        text: String::new(alloc),
    };
    for claim in claims {
        shown.claim(*claim)?;
        shown.text.push('\n')?;
    }
    Ok(shown.text)
}
