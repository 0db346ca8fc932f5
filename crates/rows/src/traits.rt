//! What makes rows and what reads them.

ghost use Rattle.std.specs.Prelude.{◌≡◌, ◌≤◌, ◌<◌, ◌+◌, ℕ, Some, IfOk};
ghost use Rattle.std.specs.Prelude.{IsOk, IsSome, option_and_then};
ghost use Rattle.std.specs.List.{All};
ghost use Rattle.trees.specs.Trees.{Var, shift_by, greatest_shift};
ghost use Rattle.trees.specs.Judgements.{Nil};
ghost use Rattle.trees.specs.Things.{Meanings, Kept, ATree, ASubst, AContext, meanings, both, made};
ghost use Rattle.trees.specs.Things.{instance_of, pushed_on, then_of, with_variable, with_a_name};
ghost use Rattle.trees.specs.Things.{with_a_face};
ghost use Rattle.rows.specs.Views.{IsTree, IsSubst, IsContext, IsSizeOf, ShiftAtMost, term_meaning};
ghost use Rattle.rows.specs.Views.{sub_meaning, ctx_meaning, term_names, sub_names, ctx_names};

use crate::views::{CtxId, CtxRow, SubId, SubRow, SubSize, TermId, TermRow};
use std::alloc::AllocError;
use trees::Op;

/// Rows of trees, substitutions and contexts, each of which means one.
pub trait Rows {
    /// What each row means.
    ghost means: { Self → Meanings };
}

/// Makes rows, which it names by their numbers. A call spends one of the spare at most. It may add
/// no row, where one stands that means the same, or several. What rows meant they go on to mean.
pub trait Maker: Rows {
    /// How many rows can still be made without running out of memory.
    ghost spare: { Self → ℕ };

    /// The variable of an index.
    fn var(&mut self, index: u32) -> Result<u64, AllocError>
        ensures covered { 0 < spare self.old → IsOk result }
        ensures spends { spare self.old ≤ spare self.new + 1 }
        ensures kept { Kept (Self.means self.old) (Self.means self.new) }
        ensures meaning { IfOk result (λ row. Self.means self.new row ≡ Some (ATree (Var index))) };

    /// An operator over the rows of its kids.
    fn make(&mut self, op: Op, kids: &[u64]) -> Result<u64, AllocError>
        requires { IsSome (option_and_then (made op) (meanings (Self.means self.old) kids.now)) }
        ensures covered { 0 < spare self.old → IsOk result }
        ensures spends { spare self.old ≤ spare self.new + 1 }
        ensures kept { Kept (Self.means self.old) (Self.means self.new) }
        ensures meaning { IfOk result (λ row. Self.means self.new row ≡
            option_and_then (made op) (meanings (Self.means self.old) kids.now)) };

    /// A tree under a substitution.
    fn instance(&mut self, term: u64, sub: u64) -> Result<u64, AllocError>
        requires { IsSome (both instance_of (Self.means self.old term) (Self.means self.old sub)) }
        ensures covered { 0 < spare self.old → IsOk result }
        ensures spends { spare self.old ≤ spare self.new + 1 }
        ensures kept { Kept (Self.means self.old) (Self.means self.new) }
        ensures meaning { IfOk result (λ row. Self.means self.new row ≡
            both instance_of (Self.means self.old term) (Self.means self.old sub)) };

    /// The shift by so many.
    fn shift(&mut self, by: u64) -> Result<u64, AllocError>
        requires { by ≤ greatest_shift }
        ensures covered { 0 < spare self.old → IsOk result }
        ensures spends { spare self.old ≤ spare self.new + 1 }
        ensures kept { Kept (Self.means self.old) (Self.means self.new) }
        ensures meaning { IfOk result
            (λ row. Self.means self.new row ≡ Some (ASubst (shift_by by))) };

    /// A substitution with a tree pushed on it.
    fn push(&mut self, sub: u64, term: u64) -> Result<u64, AllocError>
        requires { IsSome (both pushed_on (Self.means self.old sub) (Self.means self.old term)) }
        ensures covered { 0 < spare self.old → IsOk result }
        ensures spends { spare self.old ≤ spare self.new + 1 }
        ensures kept { Kept (Self.means self.old) (Self.means self.new) }
        ensures meaning { IfOk result (λ row. Self.means self.new row ≡
            both pushed_on (Self.means self.old sub) (Self.means self.old term)) };

    /// The first substitution, then the second.
    fn then(&mut self, first: u64, second: u64) -> Result<u64, AllocError>
        requires kinds { IsSome
            (both then_of (Self.means self.old first) (Self.means self.old second)) }
        requires first { ShiftAtMost greatest_shift (Self.means self.old first) }
        requires second { ShiftAtMost greatest_shift (Self.means self.old second) }
        ensures covered { 0 < spare self.old → IsOk result }
        ensures spends { spare self.old ≤ spare self.new + 1 }
        ensures kept { Kept (Self.means self.old) (Self.means self.new) }
        ensures meaning { IfOk result (λ row. Self.means self.new row ≡
            both then_of (Self.means self.old first) (Self.means self.old second)) };

    /// The empty context.
    fn ctx_nil(&mut self) -> Result<u64, AllocError>
        ensures covered { 0 < spare self.old → IsOk result }
        ensures spends { spare self.old ≤ spare self.new + 1 }
        ensures kept { Kept (Self.means self.old) (Self.means self.new) }
        ensures meaning { IfOk result (λ row. Self.means self.new row ≡ Some (AContext Nil)) };

    /// A context with a variable of a type.
    fn ctx_var(&mut self, ctx: u64, ty: u64) -> Result<u64, AllocError>
        requires { IsSome (both with_variable (Self.means self.old ctx) (Self.means self.old ty)) }
        ensures covered { 0 < spare self.old → IsOk result }
        ensures spends { spare self.old ≤ spare self.new + 1 }
        ensures kept { Kept (Self.means self.old) (Self.means self.new) }
        ensures meaning { IfOk result (λ row. Self.means self.new row ≡
            both with_variable (Self.means self.old ctx) (Self.means self.old ty)) };

    /// A context with a name.
    fn ctx_name(&mut self, ctx: u64) -> Result<u64, AllocError>
        requires { IsSome (option_and_then with_a_name (Self.means self.old ctx)) }
        ensures covered { 0 < spare self.old → IsOk result }
        ensures spends { spare self.old ≤ spare self.new + 1 }
        ensures kept { Kept (Self.means self.old) (Self.means self.new) }
        ensures meaning { IfOk result (λ row.
            Self.means self.new row ≡ option_and_then with_a_name (Self.means self.old ctx)) };

    /// A context with a face.
    fn ctx_face(&mut self, ctx: u64, face: u64) -> Result<u64, AllocError>
        requires { IsSome (both with_a_face (Self.means self.old ctx) (Self.means self.old face)) }
        ensures covered { 0 < spare self.old → IsOk result }
        ensures spends { spare self.old ≤ spare self.new + 1 }
        ensures kept { Kept (Self.means self.old) (Self.means self.new) }
        ensures meaning { IfOk result (λ row. Self.means self.new row ≡
            both with_a_face (Self.means self.old ctx) (Self.means self.old face)) };
}

/// Reads rows by their numbers, each as it was made. A row names earlier rows.
pub trait Reader: Rows {
    /// The row of a tree.
    fn term(&self, id: TermId) -> TermRow<'_>
        requires { IsTree (Self.means self.now id.0) }
        ensures meaning { Self.means self.now id.0 ≡ term_meaning (Self.means self.now) result }
        ensures earlier { All (λ k. k < id.0) (term_names result) };

    /// The row of a substitution.
    fn subst(&self, id: SubId) -> SubRow
        requires { IsSubst (Self.means self.now id.0) }
        ensures meaning { Self.means self.now id.0 ≡ sub_meaning (Self.means self.now) result }
        ensures earlier { All (λ k. k < id.0) (sub_names result) };

    /// How many trees a substitution pushes, and its shift.
    fn size(&self, id: SubId) -> SubSize
        requires { IsSubst (Self.means self.now id.0) }
        ensures { IsSizeOf (Self.means self.now id.0) result };

    /// The row of a context.
    fn context(&self, id: CtxId) -> CtxRow
        requires { IsContext (Self.means self.now id.0) }
        ensures meaning { Self.means self.now id.0 ≡ ctx_meaning (Self.means self.now) result }
        ensures earlier { All (λ k. k < id.0) (ctx_names result) };
}
