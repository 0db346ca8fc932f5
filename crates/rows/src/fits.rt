//! Rows that may be made: those that they name are there, and of the right kinds.

ghost use Rattle.std.specs.Prelude.{◌≡◌, ◌↔◌, ◌≤◌, IsSome, IsTrue, IfOk, option_and_then};
ghost use Rattle.std.specs.List.{All};
ghost use Rattle.trees.specs.Trees.{greatest_shift};
ghost use Rattle.trees.specs.Things.{Kept, made, meanings};
ghost use Rattle.rows.specs.Views.{IsTree, IsSubst, IsContext, IsFit, IsSubFit, ShiftAtMost};
ghost use Rattle.rows.specs.Views.{term_meaning, ctx_meaning, row_meaning};
ghost use Rattle.rows.specs.Shown.{store_means};

use crate::store::RowStore;
use crate::traits::Reader;
use crate::views::{CtxId, CtxRow, Row, SubId, SubRow, TermId, TermRow};
use trees::{Op, PartKind, kid_count};

/// The greatest shift of a substitution that is made, and that `then` takes:
/// 4,611,686,018,427,387,904.
pub const GREATEST_SHIFT: u64 = 1 << 62;

impl RowStore {
    /// Whether a row may be made: the rows that it names mean things of the right kinds, an
    /// operator has as many kids as it takes, and no shift is too great.
    pub fn fits(&self, row: &Row<'_>) -> bool
        ensures { IsTrue result ↔ IsFit (store_means self.now) row.now }
    {
        match row {
            Row::Term(row) => self.fits_term(row),
            Row::Subst(row) => self.fits_subst(row),
            Row::Context(row) => self.fits_context(row),
        }
    }

    fn fits_term(&self, row: &TermRow<'_>) -> bool
        ensures { IsTrue result ↔ IsSome (term_meaning (store_means self.now) row.now) }
    {
        match row {
            TermRow::Var(_) => true,
            TermRow::Make(op, kids) => self.fits_make(*op, kids),
            TermRow::Instance(term, sub) => self.is_term(*term) && self.is_subst(*sub),
        }
    }

    fn fits_make(&self, op: Op, kids: &[u64]) -> bool
        ensures { IsTrue result ↔
            IsSome (option_and_then (made op) (meanings (store_means self.now) kids.now)) }
    {
        kids.len() == kid_count(op) as usize && self.all_terms(kids)
    }

    fn all_terms(&self, rows: &[u64]) -> bool
        ensures { IsTrue result ↔ All (λ row. IsTree (store_means self.now row)) rows.now }
    {
        for row in rows {
            if !self.is_term(TermId(*row)) {
                return false;
            }
        }
        true
    }

    fn fits_subst(&self, row: &SubRow) -> bool
        ensures { IsTrue result ↔ IsSubFit (store_means self.now) row.now }
    {
        match row {
            SubRow::Shift(by) => *by <= GREATEST_SHIFT,
            SubRow::Push(sub, term) => self.is_subst(*sub) && self.is_term(*term),
            SubRow::Then(first, second) => self.may_follow(*first) && self.may_follow(*second),
        }
    }

    fn fits_context(&self, row: &CtxRow) -> bool
        ensures { IsTrue result ↔ IsSome (ctx_meaning (store_means self.now) row.now) }
    {
        match row {
            CtxRow::Nil => true,
            CtxRow::Var(ctx, ty) => self.is_context(*ctx) && self.is_term(*ty),
            CtxRow::Name(ctx) => self.is_context(*ctx),
            CtxRow::Face(ctx, face) => self.is_context(*ctx) && self.is_term(*face),
        }
    }

    /// Whether there is a substitution at that number, with no greater shift than `then` takes.
    fn may_follow(&self, id: SubId) -> bool
        ensures { IsTrue result ↔ ShiftAtMost greatest_shift (store_means self.now id.0) }
    {
        self.is_subst(id) && self.size(id).shift <= GREATEST_SHIFT
    }

    /// Whether there is a tree at that number.
    pub fn is_term(&self, id: TermId) -> bool
        ensures { IsTrue result ↔ IsTree (store_means self.now id.0) }
    {
        self.is_of_kind(id.0, PartKind::Term)
    }

    /// Whether there is a substitution at that number.
    pub fn is_subst(&self, id: SubId) -> bool
        ensures { IsTrue result ↔ IsSubst (store_means self.now id.0) }
    {
        self.is_of_kind(id.0, PartKind::Subst)
    }

    /// Whether there is a context at that number.
    pub fn is_context(&self, id: CtxId) -> bool
        ensures { IsTrue result ↔ IsContext (store_means self.now id.0) }
    {
        self.is_of_kind(id.0, PartKind::Context)
    }
}
