//! Rows are made over those of a judged file as over any others. What is weakened has one form, as
//! in the files that a checker writes, so that it is found among the rows of the file.

ghost use Rattle.replay.specs.Shown.{rows_mean};

use crate::judged_rows::JudgedRows;
use rows::{CtxId, CtxRow, Maker, Row, Rows, SubId, SubRow, TermId, TermRow};
use std::alloc::AllocError;
use trees::Op;
use weakenings::{passed, shift_of_both, undone};

impl Rows for JudgedRows {
    ghost means = { rows_mean };
}

impl Maker for JudgedRows {
    ghost spare = { λ r. 0 };

    fn var(&mut self, index: u32) -> Result<u64, AllocError> {
        Ok(self.add(Row::Term(TermRow::Var(index)))?)
    }

    fn make(&mut self, op: Op, kids: &[u64]) -> Result<u64, AllocError> {
        Ok(self.add(Row::Term(TermRow::Make(op, kids)))?)
    }

    fn instance(&mut self, term: u64, sub: u64) -> Result<u64, AllocError> {
        let (term, sub) = (TermId(term), SubId(sub));
        if let Some(row) = undone(self.store(), term, sub) {
            return Ok(row);
        }
        match passed(self.store(), term, sub) {
            Some(index) => Ok(self.var(index)?),
            None => Ok(self.add(Row::Term(TermRow::Instance(term, sub)))?),
        }
    }

    fn shift(&mut self, by: u64) -> Result<u64, AllocError> {
        Ok(self.add(Row::Subst(SubRow::Shift(by)))?)
    }

    fn push(&mut self, sub: u64, term: u64) -> Result<u64, AllocError> {
        Ok(self.add(Row::Subst(SubRow::Push(SubId(sub), TermId(term))))?)
    }

    fn then(&mut self, first: u64, second: u64) -> Result<u64, AllocError> {
        let (first, second) = (SubId(first), SubId(second));
        match shift_of_both(self.store(), first, second) {
            Some(by) => Ok(self.shift(by)?),
            None => Ok(self.add(Row::Subst(SubRow::Then(first, second)))?),
        }
    }

    fn ctx_nil(&mut self) -> Result<u64, AllocError> {
        Ok(self.add(Row::Context(CtxRow::Nil))?)
    }

    fn ctx_var(&mut self, ctx: u64, ty: u64) -> Result<u64, AllocError> {
        Ok(self.add(Row::Context(CtxRow::Var(CtxId(ctx), TermId(ty))))?)
    }

    fn ctx_name(&mut self, ctx: u64) -> Result<u64, AllocError> {
        Ok(self.add(Row::Context(CtxRow::Name(CtxId(ctx))))?)
    }

    fn ctx_face(&mut self, ctx: u64, face: u64) -> Result<u64, AllocError> {
        Ok(self.add(Row::Context(CtxRow::Face(CtxId(ctx), TermId(face))))?)
    }
}
