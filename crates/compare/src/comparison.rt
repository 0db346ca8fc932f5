//! Whether rows, or claims, mean the same.

use crate::entries::{LastEntries, last_entries};
use crate::kinds::kinds;
use crate::pairs::{Pair, add_pair};
use crate::walk::all_agree;
use closures::{Closure, Environments, SubstClosure, SubstHead, subst_head};
use indexmap::IndexSet;
use rows::{CtxId, Reader, SubId, TermId};
use std::alloc::{AllocError, Global};
use trees::{Claim, PartKind};

/// Compares rows, one question after another, and keeps its memory from one to the next. It holds
/// the environments that a question has made, and the pairs of trees that it has to look at.
#[derive(Drop)]
pub struct Comparison {
    environments: Environments,
    pairs: IndexSet<Pair>,
}

impl Comparison {
    ghost use Rattle.std.specs.Prelude.{◌≡◌, ◌↔◌, [], IfOk, OnOk, IsSome, IsTrue, true, false};
    ghost use Rattle.std.specs.List.{All};
    ghost use Rattle.trees.specs.Claimed.{claimed};
    ghost use Rattle.rows.specs.Tables.{Grows};
    ghost use Rattle.rows.specs.Views.{IsTree, IsSubst, IsContext, IsOfKind};
    ghost use Rattle.closures.specs.Shown.{lists};
    ghost use Rattle.compare.specs.Pairs.{Agrees, Asks, IsPair};

    /// A comparison that was asked nothing yet.
    pub fn new(alloc: Global) -> Comparison {
        Comparison {
            environments: Environments::new(alloc),
            pairs: IndexSet::new(alloc),
        }
    }

    /// Whether two rows that mean things of a kind mean the same. Substitutions are the same where
    /// the same trees are pushed on the same shift: two that do the same to every tree may differ.
    pub fn same<R: Reader>(
        &mut self,
        rows: &R,
        kind: PartKind,
        left: u64,
        right: u64,
    ) -> Result<bool, AllocError>
        requires left { IsOfKind kind (R.means rows.now left) }
        requires right { IsOfKind kind (R.means rows.now right) }
        ensures { let f = R.means rows.now in
            IfOk result (λ same. IsTrue same ↔ (f left ≡ f right)) }
    {
        self.clear();
        if !self.ask(rows, kind, left, right)? {
            return Ok(false);
        }
        Ok(self.agree(rows)?)
    }

    /// Whether two claims are the same judgement.
    pub fn same_claim<R: Reader>(
        &mut self,
        rows: &R,
        left: Claim,
        right: Claim,
    ) -> Result<bool, AllocError>
        requires left { IsSome (claimed (R.means rows.now) left) }
        requires right { IsSome (claimed (R.means rows.now) right) }
        ensures { let f = R.means rows.now in
            IfOk result (λ same. IsTrue same ↔ (claimed f left ≡ claimed f right)) }
    {
        if left.form() != right.form() {
            return Ok(false);
        }
        self.clear();
        let lefts = left.rows();
        let rights = right.rows();
        for (at, kind) in kinds(left.form()).iter().enumerate() {
            let (left, right) = (lefts.as_slice()[at], rights.as_slice()[at]);
            if !self.ask(rows, *kind, left, right)? {
                return Ok(false);
            }
        }
        Ok(self.agree(rows)?)
    }

    /// Forgets what was asked, and keeps the memory. The cost is that of what was asked.
    fn clear(&mut self)
        ensures { self.new.pairs.keys ≡ [] }
    {
        self.environments.clear();
        self.pairs.truncate(0);
    }

    /// Asks whether the trees of two rows are the same.
    fn ask_trees<R: Reader>(&mut self, rows: &R, left: u64, right: u64) -> Result<(), AllocError>
        requires left { IsTree (R.means rows.now left) }
        requires right { IsTree (R.means rows.now right) }
        ensures environments { self.new.environments ≡ self.old.environments }
        ensures asks { let f = R.means rows.now in OnOk result
            (Asks f (lists self.new.environments) (f left ≡ f right)
            self.old.pairs.keys self.new.pairs.keys) }
    {
        let pair = Pair {
            left: Closure::of_row(TermId(left)),
            right: Closure::of_row(TermId(right)),
        };
        add_pair(&mut self.pairs, pair)?;
        Ok(())
    }

    /// Asks whether the contexts of two rows are the same. The answer is no where they have not the
    /// same entries, whatever the trees of these.
    fn ask_contexts<R: Reader>(
        &mut self,
        rows: &R,
        left: u64,
        right: u64,
    ) -> Result<bool, AllocError>
        requires left { IsContext (R.means rows.now left) }
        requires right { IsContext (R.means rows.now right) }
        ensures environments { self.new.environments ≡ self.old.environments }
        ensures yes { let f = R.means rows.now in IfOk result (λ same. same ≡ true →
            Asks f (lists self.new.environments) (f left ≡ f right)
            self.old.pairs.keys self.new.pairs.keys) }
        ensures no { let f = R.means rows.now in
            IfOk result (λ same. same ≡ false → f left ≡ f right → ⊥) }
    {
        let mut left = CtxId(left);
        let mut right = CtxId(right);
        while left != right {
            match last_entries(rows, left, right) {
                LastEntries::Empty => return Ok(true),
                LastEntries::Trees(before, other, tree, other_tree) => {
                    self.ask_trees(rows, tree.0, other_tree.0)?;
                    (left, right) = (before, other);
                }
                LastEntries::Names(before, other) => (left, right) = (before, other),
                LastEntries::Other => return Ok(false),
            }
        }
        Ok(true)
    }

    /// Asks whether the substitutions of two rows are the same: the same trees on the same shift.
    /// The answer is no where they have not so many trees, or not the same shift.
    fn ask_substs<R: Reader>(&mut self, rows: &R, left: u64, right: u64) -> Result<bool, AllocError>
        requires left { IsSubst (R.means rows.now left) }
        requires right { IsSubst (R.means rows.now right) }
        requires stand { All (IsPair (R.means rows.now) (lists self.old.environments) 0)
            self.old.pairs.keys }
        ensures grows { Grows (lists self.old.environments) (lists self.new.environments) }
        ensures yes { let f = R.means rows.now in IfOk result (λ same. same ≡ true →
            Asks f (lists self.new.environments) (f left ≡ f right)
            self.old.pairs.keys self.new.pairs.keys) }
        ensures no { let f = R.means rows.now in
            IfOk result (λ same. same ≡ false → f left ≡ f right → ⊥) }
    {
        let mut left = SubstClosure::of_row(SubId(left));
        let mut right = SubstClosure::of_row(SubId(right));
        while left != right {
            let first = subst_head(rows, &mut self.environments, left)?;
            let second = subst_head(rows, &mut self.environments, right)?;
            match (first, second) {
                (SubstHead::Shift(n), SubstHead::Shift(m)) => return Ok(n == m),
                (SubstHead::Push(d, a), SubstHead::Push(e, b)) => {
                    add_pair(&mut self.pairs, Pair { left: a, right: b })?;
                    left = d;
                    right = e;
                }
                _ => return Ok(false),
            }
        }
        Ok(true)
    }

    /// Asks whether two rows of a kind mean the same. The answer is no where they differ outermost.
    fn ask<R: Reader>(
        &mut self,
        rows: &R,
        kind: PartKind,
        left: u64,
        right: u64,
    ) -> Result<bool, AllocError>
        requires left { IsOfKind kind (R.means rows.now left) }
        requires right { IsOfKind kind (R.means rows.now right) }
        requires stand { All (IsPair (R.means rows.now) (lists self.old.environments) 0)
            self.old.pairs.keys }
        ensures grows { Grows (lists self.old.environments) (lists self.new.environments) }
        ensures yes { let f = R.means rows.now in IfOk result (λ same. same ≡ true →
            Asks f (lists self.new.environments) (f left ≡ f right)
            self.old.pairs.keys self.new.pairs.keys) }
        ensures no { let f = R.means rows.now in
            IfOk result (λ same. same ≡ false → f left ≡ f right → ⊥) }
    {
        match kind {
            PartKind::Context => Ok(self.ask_contexts(rows, left, right)?),
            PartKind::Subst => Ok(self.ask_substs(rows, left, right)?),
            PartKind::Term => {
                self.ask_trees(rows, left, right)?;
                Ok(true)
            }
        }
    }

    /// Whether all that was asked is so.
    fn agree<R: Reader>(&mut self, rows: &R) -> Result<bool, AllocError>
        requires { All (IsPair (R.means rows.now) (lists self.old.environments) 0)
            self.old.pairs.keys }
        ensures { let f = R.means rows.now in
            IfOk result (λ same. IsTrue same ↔
            All (Agrees f (lists self.old.environments)) self.old.pairs.keys) }
    {
        Ok(all_agree(rows, &mut self.environments, &mut self.pairs)?)
    }
}
