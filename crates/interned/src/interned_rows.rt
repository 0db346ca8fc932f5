//! Interned rows.

ghost use Rattle.interned.specs.Coded.{AreCoded};

use crate::coding::{MOST_WORDS, coded_row, ctx_words, sub_size, sub_words, term_words};
use crate::words::Words;
use region::{Mark, Region, RowId};
use rows::{
    CtxId, CtxRow, HeldSize, Maker, Reader, Row, Rows, SubId, SubRow, SubSize, TermId, TermRow,
};
use std::alloc::{AllocError, Global};
use trees::Op;
use weakenings::{passed, shift_of_both, undone};

/// Rows named by their numbers from 0, equal rows by one number. Contracts see the list of what
/// they mean. After out of memory each row means what it did.
///
/// Shifts are added up, a variable under a shift is a variable, and a tree under the identity is
/// the tree: so what is weakened, however that is done, has one row.
#[derive(Drop)]
pub struct InternedRows {
    region: Region,
    ghost coded: { AreCoded region.rows },
}

impl InternedRows {
    ghost use Rattle.std.specs.Prelude.{◌≡◌, ◌<◌, ◌≤◌, ◌+◌, ◌^◌, [], length, take, IfOk, OnOk};
    ghost use Rattle.std.specs.Prelude.{OnErr};
    ghost use Rattle.std.specs.Prelude.{IsOk, IsSome, slice_get, Some};
    ghost use Rattle.std.specs.List.{All};
    ghost use Rattle.trees.specs.Things.{Meanings, Kept};
    ghost use Rattle.rows.specs.Views.{IsSubst, term_meaning, sub_meaning, ctx_meaning};
    ghost use Rattle.rows.specs.Views.{row_meaning};
    ghost use Rattle.interned.specs.Names.{row_names};
    ghost use Rattle.rows.specs.Held.{IsSizeAt};
    ghost use Rattle.interned.specs.Coding.{thing_coded, IsTermFit, IsShiftFit};
    ghost use Rattle.interned.specs.Coded.{IsSized, IsRowAt};
    ghost use Rattle.interned.specs.Shown.{things, rows_mean, rows_spare, row_over};

    /// No rows.
    pub fn new(alloc: Global) -> Result<InternedRows, AllocError>
        ensures { IfOk result (λ rows. things rows ≡ []) }
    {
        Ok(InternedRows {
            region: Region::new(alloc)?,
        })
    }

    /// The number of rows.
    pub fn len(&self) -> u64
        ensures { result ≡ length (things self.now) }
    {
        self.region.len()
    }

    /// There are at most 2^48 rows, as many as a slot of the region can number.
    pub fn few_rows(&self)
        ensures { length (things self.now) ≤ 2 ^ 48 }
    {
        let _len = self.region.len();
    }

    /// The number of rows, to go back to.
    pub fn mark(&self) -> Mark
        ensures { result.0 ≡ length (things self.now) }
    {
        self.region.mark()
    }

    /// Room for so many more rows. After an error the rows are as before, and the room is not less.
    pub fn reserve(&mut self, rows: u64) -> Result<(), AllocError>
        ensures same { things self.new ≡ things self.old }
        ensures ok { OnOk result (rows ≤ rows_spare self.new) }
        ensures kept { rows_spare self.old ≤ rows_spare self.new }
    {
        match rows.checked_mul(MOST_WORDS as u64) {
            Some(words) => Ok(self.region.reserve(rows, words)?),
            None => Err(AllocError),
        }
    }

    /// Only the rows of the mark stay, and the room is not less.
    pub fn release(&mut self, mark: Mark)
        requires { mark.0 ≤ length (things self.old) }
        ensures rows { things self.new ≡ take mark.0 (things self.old) }
        ensures kept { rows_spare self.old ≤ rows_spare self.new }
    {
        self.region.release(mark);
    }

    /// The row of these words, which may be a new one.
    fn add(&mut self, words: Words<MOST_WORDS>) -> Result<u64, AllocError>
        requires few { length words ≤ 8 }
        requires means { IsSome (thing_coded (rows_mean self.old) words) }
        requires sized { let f = rows_mean self.old in
            IsSized (length (things self.old)) (thing_coded f words) words }
        ensures covered { 0 < rows_spare self.old → IsOk result }
        ensures spends { rows_spare self.old ≤ rows_spare self.new + 1 }
        ensures kept { Kept (rows_mean self.old) (rows_mean self.new) }
        ensures meaning { IfOk result (λ at.
            rows_mean self.new at ≡ thing_coded (rows_mean self.old) words) }
        ensures err { OnErr result (things self.new ≡ things self.old) }
    {
        let RowId(at) = self.region.intern(words.as_slice())?;
        Ok(at)
    }

    /// A row of a tree, which may be a new one.
    fn add_term(&mut self, row: &TermRow<'_>) -> Result<u64, AllocError>
        requires fit { IsTermFit row.now }
        requires means { IsSome (term_meaning (rows_mean self.old) row.now) }
        ensures covered { 0 < rows_spare self.old → IsOk result }
        ensures spends { rows_spare self.old ≤ rows_spare self.new + 1 }
        ensures kept { Kept (rows_mean self.old) (rows_mean self.new) }
        ensures meaning { IfOk result (λ at.
            rows_mean self.new at ≡ term_meaning (rows_mean self.old) row.now) }
        ensures err { OnErr result (things self.new ≡ things self.old) }
    {
        Ok(self.add(term_words(row))?)
    }

    /// A row of a substitution of this size, which may be a new one.
    fn add_sub(&mut self, row: SubRow, size: HeldSize) -> Result<u64, AllocError>
        requires fit { IsShiftFit row }
        requires means { IsSome (sub_meaning (rows_mean self.old) row) }
        requires size { let f = rows_mean self.old in
            IsSizeAt (length (things self.old)) (sub_meaning f row) size }
        ensures covered { 0 < rows_spare self.old → IsOk result }
        ensures spends { rows_spare self.old ≤ rows_spare self.new + 1 }
        ensures kept { Kept (rows_mean self.old) (rows_mean self.new) }
        ensures meaning { IfOk result (λ at.
            rows_mean self.new at ≡ sub_meaning (rows_mean self.old) row) }
        ensures err { OnErr result (things self.new ≡ things self.old) }
    {
        Ok(self.add(sub_words(&row, size))?)
    }

    /// A row of a context, which may be a new one.
    fn add_ctx(&mut self, row: CtxRow) -> Result<u64, AllocError>
        requires { IsSome (ctx_meaning (rows_mean self.old) row) }
        ensures covered { 0 < rows_spare self.old → IsOk result }
        ensures spends { rows_spare self.old ≤ rows_spare self.new + 1 }
        ensures kept { Kept (rows_mean self.old) (rows_mean self.new) }
        ensures meaning { IfOk result (λ at.
            rows_mean self.new at ≡ ctx_meaning (rows_mean self.old) row) }
        ensures err { OnErr result (things self.new ≡ things self.old) }
    {
        Ok(self.add(ctx_words(&row))?)
    }

    /// The words of a row.
    fn words(&self, row: u64) -> &[u64]
        requires { IsSome (rows_mean self.now row) }
        ensures row { IsRowAt (things self.now) row result.now }
        ensures words { slice_get self.now.region.rows row ≡ Some result.now }
    {
        self.region.row(RowId(row))
    }

    /// A row of any kind, as it was made. It names earlier rows.
    pub fn row(&self, row: u64) -> Row<'_>
        requires { IsSome (rows_mean self.now row) }
        ensures meaning { rows_mean self.now row ≡ row_meaning (rows_mean self.now) result }
        ensures over { (f : Meanings) → row_over self.now row f ≡ row_meaning f result }
        ensures earlier { All (λ k. k < row) (row_names result) }
    {
        coded_row(self.words(row))
    }

    /// The size of a substitution.
    fn held_size(&self, id: SubId) -> HeldSize
        requires { IsSubst (rows_mean self.now id.0) }
        ensures { IsSizeAt id.0 (rows_mean self.now id.0) result }
    {
        sub_size(self.words(id.0))
    }
}

impl Rows for InternedRows {
    ghost use Rattle.interned.specs.Shown.{rows_mean};

    ghost means = { rows_mean };
}

impl Maker for InternedRows {
    ghost use Rattle.interned.specs.Shown.{rows_spare};

    ghost spare = { rows_spare };

    fn var(&mut self, index: u32) -> Result<u64, AllocError> {
        Ok(self.add_term(&TermRow::Var(index))?)
    }

    fn make(&mut self, op: Op, kids: &[u64]) -> Result<u64, AllocError> {
        Ok(self.add_term(&TermRow::Make(op, kids))?)
    }

    fn instance(&mut self, term: u64, sub: u64) -> Result<u64, AllocError> {
        let (term, sub) = (TermId(term), SubId(sub));
        if let Some(row) = undone(self, term, sub) {
            return Ok(row);
        }
        match passed(self, term, sub) {
            Some(index) => Ok(self.var(index)?),
            None => Ok(self.add_term(&TermRow::Instance(term, sub))?),
        }
    }

    fn shift(&mut self, by: u64) -> Result<u64, AllocError> {
        Ok(self.add_sub(SubRow::Shift(by), HeldSize::of_shift(by))?)
    }

    fn push(&mut self, sub: u64, term: u64) -> Result<u64, AllocError> {
        let size = self.held_size(SubId(sub)).with_tree();
        Ok(self.add_sub(SubRow::Push(SubId(sub), TermId(term)), size)?)
    }

    fn then(&mut self, first: u64, second: u64) -> Result<u64, AllocError> {
        let (first, second) = (SubId(first), SubId(second));
        match shift_of_both(self, first, second) {
            Some(by) => Ok(self.shift(by)?),
            None => {
                let size = self.held_size(first);
                let size = size.then(self.held_size(second));
                Ok(self.add_sub(SubRow::Then(first, second), size)?)
            }
        }
    }

    fn ctx_nil(&mut self) -> Result<u64, AllocError> {
        Ok(self.add_ctx(CtxRow::Nil)?)
    }

    fn ctx_var(&mut self, ctx: u64, ty: u64) -> Result<u64, AllocError> {
        Ok(self.add_ctx(CtxRow::Var(CtxId(ctx), TermId(ty)))?)
    }

    fn ctx_name(&mut self, ctx: u64) -> Result<u64, AllocError> {
        Ok(self.add_ctx(CtxRow::Name(CtxId(ctx)))?)
    }

    fn ctx_face(&mut self, ctx: u64, face: u64) -> Result<u64, AllocError> {
        Ok(self.add_ctx(CtxRow::Face(CtxId(ctx), TermId(face)))?)
    }
}

impl Reader for InternedRows {
    fn term(&self, id: TermId) -> TermRow<'_> {
        let Row::Term(row) = self.row(id.0) else {
            unreachable!();
        };
        row
    }

    fn subst(&self, id: SubId) -> SubRow {
        let Row::Subst(row) = self.row(id.0) else {
            unreachable!();
        };
        row
    }

    fn size(&self, id: SubId) -> SubSize {
        let HeldSize { pushed, shift } = self.held_size(id);
        SubSize {
            pushed: u64::try_from(pushed).ok(),
            shift,
        }
    }

    fn context(&self, id: CtxId) -> CtxRow {
        let Row::Context(row) = self.row(id.0) else {
            unreachable!();
        };
        row
    }
}
