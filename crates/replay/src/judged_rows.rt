//! The rows that the judge has read, for readers of its roots.

ghost use Rattle.replay.specs.Meant.{meant_by, AreNodes};

use crate::row_judge::RowJudge;
use deriv_file::Row;
use rows::RowStore;
use std::alloc::{AllocError, Global};
use theory::Claim;

/// The rows of a file that were found right, from the first on, and more that are made over them.
/// A row that is a tree, a substitution or a context has a number of its own here, which claims
/// name; it is not the number of its line in the file.
#[derive(Drop)]
pub struct JudgedRows {
    judge: RowJudge,
    roots: Vec<u64>,
    ghost are_nodes: { AreNodes (meant_by judge) roots.items },
}

impl JudgedRows {
    ghost use Rattle.std.specs.Prelude.{◌≡◌, ◌<◌, ◌↔◌, ◌++◌, ◌∷◌, ℕ, [], length, slice_get};
    ghost use Rattle.std.specs.Prelude.{IfOk, IsSome, IsTrue, true, false};
    ghost use Rattle.trees.specs.Claimed.{claimed};
    ghost use Rattle.trees.specs.Things.{Kept};
    ghost use Rattle.rows.specs.Shown.{store_means};
    ghost use Rattle.rows.specs.Views.{IsFit, row_meaning};
    ghost use Rattle.deriv_file.specs.Spelling.{MayStand};
    ghost use Rattle.derivation.specs.Meanings.{Meaning};
    ghost use Rattle.derivation.specs.Right.{RightRow};
    ghost use Rattle.replay.specs.Meant.{root_nodes};
    ghost use Rattle.replay.specs.Shown.{rows_mean, root_judgements};
    ghost use Rattle.replay.specs.Sides.{Keeps};

    /// No rows.
    pub(crate) fn new(alloc: Global) -> JudgedRows
        ensures meant { meant_by result.judge ≡ [] }
        ensures roots { result.roots.items ≡ [] }
        ensures keeps { Keeps result.judge.sides result.judge.store }
    {
        JudgedRows {
            judge: RowJudge::new(alloc),
            roots: Vec::new(alloc),
        }
    }

    /// The number of rows of the file.
    pub(crate) fn len(&self) -> usize
        ensures { result ≡ length (meant_by self.now.judge) }
    {
        self.judge.len()
    }

    /// The number of roots of the file.
    pub fn root_count(&self) -> u64
        ensures { result ≡ length (root_judgements self.now) }
    {
        self.roots.len() as u64
    }

    /// Adds a row of the file that may stand at its place, if it is right. The answer says whether
    /// it is.
    pub(crate) fn judge_row(&mut self, alloc: Global, row: &Row) -> Result<bool, AllocError>
        requires stands { (version : ℕ) ×
            MayStand version (length (meant_by self.old.judge)) row.now }
        requires keeps { Keeps self.old.judge.sides self.old.judge.store }
        ensures keeps { Keeps self.new.judge.sides self.new.judge.store }
        ensures right { IfOk result (λ right. right ≡ true → (m : Meaning) ×
            RightRow (meant_by self.old.judge) row.now m ×
            (meant_by self.new.judge ≡ meant_by self.old.judge ++ m ∷ [])) }
        ensures roots { IfOk result (λ right. right ≡ true →
            self.new.roots.items ≡ self.old.roots.items ++ root_nodes (row.now ∷ [])) }
        ensures wrong { IfOk result (λ right. right ≡ false →
            (meant_by self.new.judge ≡ meant_by self.old.judge) ×
            ((m : Meaning) → RightRow (meant_by self.old.judge) row.now m → ⊥)) }
    {
        let right = self.judge.add(alloc, row)?;
        if !right {
            return Ok(false);
        }
        if let Row::Root(node) = row {
            self.roots.push(*node)?;
        }
        Ok(true)
    }

    /// The judgement of a root of the file, counted from 0.
    pub fn root_claim(&self, at: u64) -> Claim
        requires { at < length (root_judgements self.now) }
        ensures { claimed (rows_mean self.now) result ≡ slice_get (root_judgements self.now) at }
    {
        self.judge.conclusion(self.roots[at as usize])
    }

    /// The rows that are trees, substitutions and contexts.
    pub(crate) fn store(&self) -> &RowStore
        ensures { store_means result.now ≡ rows_mean self.now }
    {
        self.judge.store()
    }

    /// Makes a row that fits, and answers its number. The only error is to be out of memory; then
    /// all rows mean what they did.
    pub fn add(&mut self, row: rows::Row<'_>) -> Result<u64, AllocError>
        requires { IsFit (rows_mean self.old) row }
        ensures kept { Kept (rows_mean self.old) (rows_mean self.new) }
        ensures meaning { IfOk result
            (λ at. rows_mean self.new at ≡ row_meaning (rows_mean self.old) row.entry) }
        ensures roots { root_judgements self.new ≡ root_judgements self.old }
    {
        Ok(self.judge.make(row)?)
    }

    /// Whether a row fits: the rows that it names are here and of the right kinds, an operator has
    /// as many kids as it takes, and no shift is too great.
    pub fn fits(&self, row: &rows::Row<'_>) -> bool
        ensures { IsTrue result ↔ IsFit (rows_mean self.now) row.now }
    {
        self.judge.fits(row)
    }

    /// Whether two claims over rows here are the same judgement. The only error is to be out of
    /// memory.
    pub fn same_claim(&mut self, left: Claim, right: Claim) -> Result<bool, AllocError>
        requires left { IsSome (claimed (rows_mean self.old) left) }
        requires right { IsSome (claimed (rows_mean self.old) right) }
        ensures same { let f = rows_mean self.old in
            IfOk result (λ same. IsTrue same ↔ (claimed f left ≡ claimed f right)) }
        ensures rows { rows_mean self.new ≡ rows_mean self.old }
        ensures roots { root_judgements self.new ≡ root_judgements self.old }
    {
        Ok(self.judge.same_claim(left, right)?)
    }
}
