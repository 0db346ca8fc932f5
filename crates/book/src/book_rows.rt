//! How a book makes rows, and how they are read. Nodes stay what they are.

ghost use Rattle.std.specs.Prelude.{◌≡◌, ◌≤◌, ◌<◌, ◌+◌, Some, IfOk, IsOk, IsSome, option_and_then};
ghost use Rattle.trees.specs.Trees.{Var, shift_by, greatest_shift};
ghost use Rattle.trees.specs.Judgements.{Nil};
ghost use Rattle.trees.specs.Things.{Kept, ATree, ASubst, AContext, meanings, both, made};
ghost use Rattle.trees.specs.Things.{instance_of, pushed_on, then_of, with_variable, with_a_name};
ghost use Rattle.trees.specs.Things.{with_a_face};
ghost use Rattle.rows.specs.Views.{ShiftAtMost};
ghost use Rattle.book.specs.Shown.{book_means, Extends};

use crate::kernel::Book;
use rows::{CtxId, CtxRow, Maker, Reader, Rows, SubId, SubRow, SubSize, TermId, TermRow};
use std::alloc::AllocError;
use theory::Op;

impl Rows for Book {
    ghost means = { book_means };
}

impl Maker for Book {
    ghost spare = { λ b. b.spare };

    fn var(&mut self, index: u32) -> Result<u64, AllocError>
        ensures covered { 0 < self.old.spare → IsOk result }
        ensures spends { self.old.spare ≤ self.new.spare + 1 }
        ensures kept { Kept (book_means self.old) (book_means self.new) }
        ensures meaning { IfOk result (λ row. book_means self.new row ≡ Some (ATree (Var index))) }
        ensures extends { Extends self.old self.new }
    {
        Ok(self.rows.var(index)?)
    }

    fn make(&mut self, op: Op, kids: &[u64]) -> Result<u64, AllocError>
        requires { IsSome (option_and_then (made op) (meanings (book_means self.old) kids.now)) }
        ensures covered { 0 < self.old.spare → IsOk result }
        ensures spends { self.old.spare ≤ self.new.spare + 1 }
        ensures kept { Kept (book_means self.old) (book_means self.new) }
        ensures meaning { IfOk result (λ row. book_means self.new row ≡
            option_and_then (made op) (meanings (book_means self.old) kids.now)) }
        ensures extends { Extends self.old self.new }
    {
        Ok(self.rows.make(op, kids)?)
    }

    fn instance(&mut self, term: u64, sub: u64) -> Result<u64, AllocError>
        requires { IsSome (both instance_of (book_means self.old term) (book_means self.old sub)) }
        ensures covered { 0 < self.old.spare → IsOk result }
        ensures spends { self.old.spare ≤ self.new.spare + 1 }
        ensures kept { Kept (book_means self.old) (book_means self.new) }
        ensures meaning { IfOk result (λ row. book_means self.new row ≡
            both instance_of (book_means self.old term) (book_means self.old sub)) }
        ensures extends { Extends self.old self.new }
    {
        Ok(self.rows.instance(term, sub)?)
    }

    fn shift(&mut self, by: u64) -> Result<u64, AllocError>
        requires { by ≤ greatest_shift }
        ensures covered { 0 < self.old.spare → IsOk result }
        ensures spends { self.old.spare ≤ self.new.spare + 1 }
        ensures kept { Kept (book_means self.old) (book_means self.new) }
        ensures meaning { IfOk result (λ row.
            book_means self.new row ≡ Some (ASubst (shift_by by))) }
        ensures extends { Extends self.old self.new }
    {
        Ok(self.rows.shift(by)?)
    }

    fn push(&mut self, sub: u64, term: u64) -> Result<u64, AllocError>
        requires { IsSome (both pushed_on (book_means self.old sub) (book_means self.old term)) }
        ensures covered { 0 < self.old.spare → IsOk result }
        ensures spends { self.old.spare ≤ self.new.spare + 1 }
        ensures kept { Kept (book_means self.old) (book_means self.new) }
        ensures meaning { IfOk result (λ row. book_means self.new row ≡
            both pushed_on (book_means self.old sub) (book_means self.old term)) }
        ensures extends { Extends self.old self.new }
    {
        Ok(self.rows.push(sub, term)?)
    }

    fn then(&mut self, first: u64, second: u64) -> Result<u64, AllocError>
        requires kinds { let f = book_means self.old in
            IsSome (both then_of (f first) (f second)) }
        requires first { ShiftAtMost greatest_shift (book_means self.old first) }
        requires second { ShiftAtMost greatest_shift (book_means self.old second) }
        ensures covered { 0 < self.old.spare → IsOk result }
        ensures spends { self.old.spare ≤ self.new.spare + 1 }
        ensures kept { Kept (book_means self.old) (book_means self.new) }
        ensures meaning { IfOk result (λ row. book_means self.new row ≡
            both then_of (book_means self.old first) (book_means self.old second)) }
        ensures extends { Extends self.old self.new }
    {
        Ok(self.rows.then(first, second)?)
    }

    fn ctx_nil(&mut self) -> Result<u64, AllocError>
        ensures covered { 0 < self.old.spare → IsOk result }
        ensures spends { self.old.spare ≤ self.new.spare + 1 }
        ensures kept { Kept (book_means self.old) (book_means self.new) }
        ensures meaning { IfOk result (λ row. book_means self.new row ≡ Some (AContext Nil)) }
        ensures extends { Extends self.old self.new }
    {
        Ok(self.rows.ctx_nil()?)
    }

    fn ctx_var(&mut self, ctx: u64, ty: u64) -> Result<u64, AllocError>
        requires { IsSome (both with_variable (book_means self.old ctx) (book_means self.old ty)) }
        ensures covered { 0 < self.old.spare → IsOk result }
        ensures spends { self.old.spare ≤ self.new.spare + 1 }
        ensures kept { Kept (book_means self.old) (book_means self.new) }
        ensures meaning { IfOk result (λ row. book_means self.new row ≡
            both with_variable (book_means self.old ctx) (book_means self.old ty)) }
        ensures extends { Extends self.old self.new }
    {
        Ok(self.rows.ctx_var(ctx, ty)?)
    }

    fn ctx_name(&mut self, ctx: u64) -> Result<u64, AllocError>
        requires { IsSome (option_and_then with_a_name (book_means self.old ctx)) }
        ensures covered { 0 < self.old.spare → IsOk result }
        ensures spends { self.old.spare ≤ self.new.spare + 1 }
        ensures kept { Kept (book_means self.old) (book_means self.new) }
        ensures meaning { IfOk result (λ row. book_means self.new row ≡
            option_and_then with_a_name (book_means self.old ctx)) }
        ensures extends { Extends self.old self.new }
    {
        Ok(self.rows.ctx_name(ctx)?)
    }

    fn ctx_face(&mut self, ctx: u64, face: u64) -> Result<u64, AllocError>
        requires { IsSome (both with_a_face (book_means self.old ctx) (book_means self.old face)) }
        ensures covered { 0 < self.old.spare → IsOk result }
        ensures spends { self.old.spare ≤ self.new.spare + 1 }
        ensures kept { Kept (book_means self.old) (book_means self.new) }
        ensures meaning { IfOk result (λ row. book_means self.new row ≡
            both with_a_face (book_means self.old ctx) (book_means self.old face)) }
        ensures extends { Extends self.old self.new }
    {
        Ok(self.rows.ctx_face(ctx, face)?)
    }
}

impl Reader for Book {
    fn term(&self, id: TermId) -> TermRow<'_> {
        self.rows.term(id)
    }

    fn subst(&self, id: SubId) -> SubRow {
        self.rows.subst(id)
    }

    fn size(&self, id: SubId) -> SubSize {
        self.rows.size(id)
    }

    fn context(&self, id: CtxId) -> CtxRow {
        self.rows.context(id)
    }
}
