//! Rows in memory.

ghost use Rattle.rows.specs.Held.{AreHeld};

use crate::held::{Held, HeldSize, HeldSub, HeldSubRow, kept};
use crate::recent::Recent;
use crate::traits::{Maker, Reader, Rows};
use crate::views::{CtxId, CtxRow, Row, SubId, SubRow, SubSize, TermId, TermRow};
use std::alloc::{AllocError, Global};
use trees::{Op, PartKind, kid_count};

/// Rows in memory, named by their numbers from 0. Contracts see the list of what they mean. A row
/// takes 12 bytes, each kid of an operator 8 more, and a substitution 48 more. One that is made
/// anew while it is among those made of late is found and takes none: rules make the same small
/// trees again and again. After out of memory the rows are as before.
#[derive(Drop)]
pub struct RowStore {
    rows: Vec<Held>,
    kids: Vec<u64>,
    subs: Vec<HeldSub>,
    recent: Recent,
    ghost held: { AreHeld rows.items kids.items subs.items },
}

impl RowStore {
    ghost use Rattle.std.specs.Prelude.{◌≡◌, ◌↔◌, ◌<◌, ◌-◌, [], length, take, option_map};
    ghost use Rattle.std.specs.Prelude.{option_and_then, slice_get, Some};
    ghost use Rattle.std.specs.Prelude.{IfOk, IfSome, OnErr, IsSome, IsTrue};
    ghost use Rattle.std.specs.List.{All};
    ghost use Rattle.trees.specs.Trees.{greatest_shift};
    ghost use Rattle.trees.specs.Things.{Kept, both, kind_of, made, meanings, then_of};
    ghost use Rattle.rows.specs.Views.{IsSubst, IsOfKind, IsSubFit, ShiftAtMost, sub_meaning};
    ghost use Rattle.rows.specs.Views.{IsFit, row_meaning};
    ghost use Rattle.rows.specs.Held.{held_meaning, held_row_meaning, held_row_names, is_alone};
    ghost use Rattle.rows.specs.Held.{IsSizeAt};
    ghost use Rattle.rows.specs.Shown.{things, store_means};

    /// No rows.
    pub fn new(alloc: Global) -> RowStore
        ensures { things result ≡ [] }
    {
        RowStore {
            rows: Vec::new(alloc),
            kids: Vec::new(alloc),
            subs: Vec::new(alloc),
            recent: Recent::new(alloc),
        }
    }

    /// The number of rows.
    pub fn len(&self) -> usize
        ensures { result ≡ length (things self.now) }
    {
        self.rows.len()
    }

    /// What kind of thing a row means.
    #[inline(always)]
    pub fn kind(&self, row: u64) -> PartKind
        requires { row < length (things self.now) }
        ensures { option_map kind_of (slice_get (things self.now) row) ≡ Some result }
    {
        self.row(row).kind()
    }

    /// Whether there is a row of this number that means a thing of this kind.
    #[inline(always)]
    pub fn is_of_kind(&self, row: u64, kind: PartKind) -> bool
        ensures { IsTrue result ↔ IsOfKind kind (slice_get (things self.now) row) }
    {
        row < self.len() as u64 && self.kind(row) == kind
    }

    /// Keeps the first rows alone.
    pub fn truncate(&mut self, len: usize)
        ensures { things self.new ≡ take len (things self.old) }
    {
        while self.rows.len() > len {
            self.drop_last();
        }
    }

    /// Drops the last row, if there is one, with what it holds beside it.
    fn drop_last(&mut self)
        ensures { things self.new ≡ take (length (things self.old) - 1) (things self.old) }
    {
        let Some(last) = self.rows.pop() else {
            return;
        };
        let kids = self.kids.len() - last.kids_beside();
        let subs = self.subs.len() - last.subs_beside();
        self.kids.truncate(kids);
        self.subs.truncate(subs);
    }

    /// The row of that number.
    #[inline(always)]
    fn row(&self, at: u64) -> Held
        requires { at < length (things self.now) }
        ensures { slice_get self.now.rows.items at ≡ Some result }
    {
        self.rows[at as usize]
    }

    /// The substitution of a row.
    #[inline(always)]
    fn sub(&self, id: SubId) -> HeldSub
        requires { IsSubst (store_means self.now id.0) }
        ensures meaning { store_means self.now id.0 ≡
            held_row_meaning (store_means self.now) result.row }
        ensures earlier { All (λ k. k < id.0) (held_row_names result.row) }
        ensures size { IsSizeAt id.0 (store_means self.now id.0) result.size }
    {
        match self.row(id.0) {
            Held::Subst(at) => self.subs[at as usize],
            _ => unreachable!(),
        }
    }

    /// The row of that number, if there is one.
    #[inline(always)]
    pub fn row_at(&self, at: u64) -> Option<Row<'_>>
        ensures there { IsSome result ↔ at < length (things self.now) }
        ensures meaning { let f = store_means self.now in
            IfSome result (λ row. f at ≡ row_meaning f row) }
    {
        if at >= self.len() as u64 {
            return None;
        }
        Some(match self.kind(at) {
            PartKind::Term => Row::Term(self.term(TermId(at))),
            PartKind::Subst => Row::Subst(self.subst(SubId(at))),
            PartKind::Context => Row::Context(self.context(CtxId(at))),
        })
    }

    /// The newest row of a digest, where it reads as this one.
    #[inline(always)]
    fn recent_row(&self, digest: u64, row: Row<'_>) -> Option<u64>
        ensures { let f = store_means self.now in
            IfSome result (λ at. f at ≡ row_meaning f row.entry) }
    {
        let at = self.recent.at(digest)?;
        if self.row_at(at)?.reads_as(row) {
            Some(at)
        } else {
            None
        }
    }

    /// Has the newest row of a digest found again.
    #[inline(always)]
    fn remember(&mut self, digest: u64, at: u64)
        ensures { things self.new ≡ things self.old }
    {
        self.recent.put(digest, at);
    }

    /// A row that fits: one that was made of late, or a new one.
    #[inline(always)]
    pub fn add(&mut self, row: Row<'_>) -> Result<u64, AllocError>
        requires { IsFit (store_means self.old) row }
        ensures kept { Kept (store_means self.old) (store_means self.new) }
        ensures meaning { IfOk result (λ at.
            store_means self.new at ≡ row_meaning (store_means self.old) row.entry) }
        ensures err { OnErr result (things self.new ≡ things self.old) }
    {
        let digest = row.digest();
        match self.recent_row(digest, row) {
            Some(at) => Ok(at),
            None => {
                let at = self.add_new(row)?;
                self.remember(digest, at);
                Ok(at)
            }
        }
    }

    /// A new row.
    fn add_new(&mut self, row: Row<'_>) -> Result<u64, AllocError>
        requires { IsFit (store_means self.old) row }
        ensures kept { Kept (store_means self.old) (store_means self.new) }
        ensures meaning { IfOk result (λ at.
            store_means self.new at ≡ row_meaning (store_means self.old) row.entry) }
        ensures err { OnErr result (things self.new ≡ things self.old) }
    {
        match row {
            Row::Term(TermRow::Var(index)) => Ok(self.add_alone(Held::Var(index))?),
            Row::Term(TermRow::Make(op, kids)) => Ok(self.add_make(op, kids)?),
            Row::Term(TermRow::Instance(term, sub)) => {
                let row = Held::Instance(kept(term.0)?, kept(sub.0)?);
                Ok(self.add_alone(row)?)
            }
            Row::Subst(row) => {
                let size = self.size_of(row);
                Ok(self.add_sub(HeldSubRow::of(row)?, size)?)
            }
            Row::Context(row) => Ok(self.add_alone(Held::of_context(row)?)?),
        }
    }

    /// The size of a substitution that fits.
    fn size_of(&self, row: SubRow) -> HeldSize
        requires { IsSubFit (store_means self.now) row }
        ensures { IsSizeAt (length (things self.now)) (sub_meaning (store_means self.now) row)
            result }
    {
        match row {
            SubRow::Shift(by) => HeldSize::of_shift(by),
            SubRow::Push(sub, _) => self.sub(sub).size.with_tree(),
            SubRow::Then(first, second) => self.size_of_then(first.0, second.0),
        }
    }

    /// The size of the first substitution, then the second.
    fn size_of_then(&self, first: u64, second: u64) -> HeldSize
        requires first { ShiftAtMost greatest_shift (store_means self.now first) }
        requires second { ShiftAtMost greatest_shift (store_means self.now second) }
        ensures { IsSizeAt (length (things self.now))
            (both then_of (store_means self.now first) (store_means self.now second)) result }
    {
        let size = self.sub(SubId(first)).size;
        size.then(self.sub(SubId(second)).size)
    }

    /// A new row that holds nothing beside it.
    fn add_alone(&mut self, row: Held) -> Result<u64, AllocError>
        requires alone { IsTrue (is_alone row) }
        requires means { IsSome (held_meaning (store_means self.old) [] [] row) }
        ensures kept { Kept (store_means self.old) (store_means self.new) }
        ensures meaning { IfOk result
            (λ at. store_means self.new at ≡ held_meaning (store_means self.old) [] [] row) }
        ensures err { OnErr result (things self.new ≡ things self.old) }
    {
        let at = self.rows.len() as u64;
        self.rows.push(row)?;
        Ok(at)
    }

    /// A new row of a substitution of this size.
    fn add_sub(&mut self, row: HeldSubRow, size: HeldSize) -> Result<u64, AllocError>
        requires means { IsSome (held_row_meaning (store_means self.old) row) }
        requires size { IsSizeAt (length (things self.old))
            (held_row_meaning (store_means self.old) row) size }
        ensures kept { Kept (store_means self.old) (store_means self.new) }
        ensures meaning { IfOk result
            (λ at. store_means self.new at ≡ held_row_meaning (store_means self.old) row) }
        ensures err { OnErr result (things self.new ≡ things self.old) }
    {
        let number = self.rows.len() as u64;
        let count = self.subs.len();
        let at = kept(count as u64)?;
        self.subs.push(HeldSub { row, size })?;
        match self.rows.push(Held::Subst(at)) {
            Ok(()) => Ok(number),
            Err(_) => {
                self.subs.truncate(count);
                Err(AllocError)
            }
        }
    }

    /// A new row of an operator over the rows of its kids.
    fn add_make(&mut self, op: Op, kids: &[u64]) -> Result<u64, AllocError>
        requires { IsSome (option_and_then (made op) (meanings (store_means self.old) kids.now)) }
        ensures kept { Kept (store_means self.old) (store_means self.new) }
        ensures meaning { IfOk result (λ at. store_means self.new at ≡
            option_and_then (made op) (meanings (store_means self.old) kids.now)) }
        ensures err { OnErr result (things self.new ≡ things self.old) }
    {
        let number = self.rows.len() as u64;
        let count = self.kids.len();
        let at = kept(count as u64)?;
        self.kids.extend_from_slice(kids)?;
        match self.rows.push(Held::Make(op, at)) {
            Ok(()) => Ok(number),
            Err(_) => {
                self.kids.truncate(count);
                Err(AllocError)
            }
        }
    }
}

impl Rows for RowStore {
    ghost use Rattle.rows.specs.Shown.{store_means};

    ghost means = { store_means };
}

impl Maker for RowStore {
    ghost spare = { λ s. 0 };

    fn var(&mut self, index: u32) -> Result<u64, AllocError> {
        Ok(self.add(Row::Term(TermRow::Var(index)))?)
    }

    fn make(&mut self, op: Op, kids: &[u64]) -> Result<u64, AllocError> {
        Ok(self.add(Row::Term(TermRow::Make(op, kids)))?)
    }

    fn instance(&mut self, term: u64, sub: u64) -> Result<u64, AllocError> {
        Ok(self.add(Row::Term(TermRow::Instance(TermId(term), SubId(sub))))?)
    }

    fn shift(&mut self, by: u64) -> Result<u64, AllocError> {
        Ok(self.add(Row::Subst(SubRow::Shift(by)))?)
    }

    fn push(&mut self, sub: u64, term: u64) -> Result<u64, AllocError> {
        Ok(self.add(Row::Subst(SubRow::Push(SubId(sub), TermId(term))))?)
    }

    fn then(&mut self, first: u64, second: u64) -> Result<u64, AllocError> {
        Ok(self.add(Row::Subst(SubRow::Then(SubId(first), SubId(second))))?)
    }

    fn ctx_nil(&mut self) -> Result<u64, AllocError> {
        Ok(self.add(Row::Context(CtxRow::Nil))?)
    }

    fn ctx_var(&mut self, ctx: u64, ty: u64) -> Result<u64, AllocError> {
        Ok(self.add(Row::Context(CtxRow::Var(CtxId(ctx), TermId(ty))))?)
    }

    fn ctx_name(&mut self, ctx: u64) -> Result<u64, AllocError> {
        Ok(self.add(Row::Context(CtxRow::Name(CtxId(ctx))))?)
    }

    fn ctx_face(&mut self, ctx: u64, face: u64) -> Result<u64, AllocError> {
        Ok(self.add(Row::Context(CtxRow::Face(CtxId(ctx), TermId(face))))?)
    }
}

impl Reader for RowStore {
    fn term(&self, id: TermId) -> TermRow<'_> {
        match self.row(id.0) {
            Held::Var(index) => TermRow::Var(index),
            Held::Make(op, at) => {
                let at = at as usize;
                TermRow::Make(op, &self.kids[at..at + kid_count(op) as usize])
            }
            Held::Instance(term, sub) => TermRow::Instance(TermId(term as u64), SubId(sub as u64)),
            _ => unreachable!(),
        }
    }

    fn subst(&self, id: SubId) -> SubRow {
        self.sub(id).row.row()
    }

    fn size(&self, id: SubId) -> SubSize {
        let HeldSize { pushed, shift } = self.sub(id).size;
        SubSize {
            pushed: u64::try_from(pushed).ok(),
            shift,
        }
    }

    fn context(&self, id: CtxId) -> CtxRow {
        match self.row(id.0) {
            Held::CtxNil => CtxRow::Nil,
            Held::CtxVar(ctx, ty) => CtxRow::Var(CtxId(ctx as u64), TermId(ty as u64)),
            Held::CtxName(ctx) => CtxRow::Name(CtxId(ctx as u64)),
            Held::CtxFace(ctx, face) => CtxRow::Face(CtxId(ctx as u64), TermId(face as u64)),
            _ => unreachable!(),
        }
    }
}
