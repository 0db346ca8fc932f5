//! The judge of one row after the other.

ghost use Rattle.std.specs.Prelude.{◌≡◌, ◌<◌, ℕ, length, IfOk};
ghost use Rattle.trees.specs.Things.{Kept};
ghost use Rattle.rows.specs.Shown.{things, store_means};
ghost use Rattle.deriv_file.specs.Spelling.{MayStand};
ghost use Rattle.deriv_file.specs.declared.row.Row.TheVariants as row;
ghost use Rattle.replay.specs.Filed.{file_meanings, AllFiled, AllFit, FiledIs};
ghost use Rattle.replay.specs.Sides.{Keeps};

use crate::filed::Filed;
use crate::filed_rows::FiledRows;
use crate::known_rows::KnownRows;
use crate::node::node_claim;
use crate::thing::thing_row;
use compare::Comparison;
use deriv_file::Row;
use rows::RowStore;
use side_conditions::SideConditions;
use std::alloc::{AllocError, Global};
use theory::Claim;

/// What is kept of a root row, where what it names is a node.
fn filed_root(store: &RowStore, filed: &FiledRows, node: u64) -> Option<Filed>
    requires filed { AllFiled (things store.now) filed.now }
    requires earlier { node < length filed.now }
    ensures { let xs = things store.now in
        FiledIs (file_meanings xs filed.now) xs (row.Root node) result }
{
    match filed.row(node) {
        Filed::Node(_) => Some(Filed::Nothing),
        Filed::Thing(_) => None,
        Filed::Nothing => None,
    }
}

/// What is kept of a row after others, if the row is right. The row may stand at its place.
fn filed_of(
    alloc: Global,
    comparison: &mut Comparison,
    sides: &mut SideConditions,
    store: &mut RowStore,
    filed: &FiledRows,
    row: &Row,
) -> Result<Option<Filed>, AllocError>
    requires filed { AllFiled (things store.old) filed.now }
    requires fit { AllFit (file_meanings (things store.old) filed.now) }
    requires stands { (version : ℕ) × MayStand version (length filed.now) row.now }
    requires keeps { Keeps sides.old store.old }
    ensures kept { Kept (store_means store.old) (store_means store.new) }
    ensures keeps { Keeps sides.new store.new }
    ensures is { let before = file_meanings (things store.old) filed.now in
        IfOk result (FiledIs before (things store.new) row.now) }
{
    if filed.is_empty() {
        return match row {
            Row::Header(_) => Ok(Some(Filed::Nothing)),
            _ => Ok(None),
        };
    }
    match row {
        Row::Header(_) => Ok(None),
        Row::Node(rule, parts, premises) => {
            let (parts, premises) = (parts.as_slice(), premises.as_slice());
            match node_claim(
                alloc, comparison, sides, store, filed, *rule, parts, premises,
            )? {
                Some(claim) => Ok(Some(Filed::Node(claim))),
                None => Ok(None),
            }
        }
        Row::Root(node) => Ok(filed_root(store, filed, *node)),
        _ => match thing_row(alloc, store, filed, row)? {
            Some(at) => Ok(Some(Filed::Thing(at))),
            None => Ok(None),
        },
    }
}

/// The rows of a file that were found right, in order. Contracts see the list of what they mean.
#[derive(Drop)]
pub struct RowJudge {
    comparison: Comparison,
    sides: SideConditions,
    store: RowStore,
    filed: FiledRows,
    known: KnownRows,
    ghost all_filed: { AllFiled (things store) filed },
    ghost all_fit: { AllFit (file_meanings (things store) filed) },
}

impl RowJudge {
    ghost use Rattle.std.specs.Prelude.{◌≡◌, ◌++◌, ◌∷◌, ◌↔◌, ℕ, [], length, true, false};
    ghost use Rattle.std.specs.Prelude.{IfOk, OnErr, IsSome, IsTrue};
    ghost use Rattle.trees.specs.Claimed.{claimed};
    ghost use Rattle.rows.specs.Views.{IsFit, row_meaning};
    ghost use Rattle.deriv_file.specs.Spelling.{MayStand};
    ghost use Rattle.derivation.specs.Meanings.{Meaning, conclusion_at};
    ghost use Rattle.derivation.specs.Right.{RightRow};
    ghost use Rattle.replay.specs.Meant.{meant_by};
    ghost use Rattle.replay.specs.Sides.{Keeps};

    pub fn new(alloc: Global) -> RowJudge
        ensures meant { meant_by result ≡ [] }
        ensures keeps { Keeps result.sides result.store }
    {
        RowJudge {
            comparison: Comparison::new(alloc),
            sides: SideConditions::new(alloc),
            store: RowStore::new(alloc),
            filed: FiledRows::new(alloc),
            known: KnownRows::new(alloc),
        }
    }

    /// The number of rows.
    pub fn len(&self) -> usize
        ensures { result ≡ length (meant_by self.now) }
    {
        self.filed.len()
    }

    /// Adds a row that may stand at its place, if it is right. The answer says whether it is. Else,
    /// and out of memory, the rows are as before.
    pub fn add(&mut self, alloc: Global, row: &Row) -> Result<bool, AllocError>
        requires stands { (version : ℕ) × MayStand version (length (meant_by self.old)) row.now }
        requires keeps { Keeps self.old.sides self.old.store }
        ensures keeps { Keeps self.new.sides self.new.store }
        ensures right { IfOk result (λ right. right ≡ true → (m : Meaning) ×
            RightRow (meant_by self.old) row.now m ×
            (meant_by self.new ≡ meant_by self.old ++ m ∷ [])) }
        ensures wrong { IfOk result (λ right. right ≡ false →
            (meant_by self.new ≡ meant_by self.old) ×
            ((m : Meaning) → RightRow (meant_by self.old) row.now m → ⊥)) }
        ensures err { OnErr result (meant_by self.new ≡ meant_by self.old) }
    {
        let filed = filed_of(
            alloc,
            &mut self.comparison,
            &mut self.sides,
            &mut self.store,
            &self.filed,
            row,
        )?;
        let Some(row) = filed else {
            return Ok(false);
        };
        self.filed.push(row)?;
        Ok(true)
    }

    /// The conclusion of a row that is a node.
    pub fn conclusion(&self, node: u64) -> Claim
        requires { IsSome (conclusion_at (meant_by self.now) node) }
        ensures { claimed (store_means self.now.store) result ≡
            conclusion_at (meant_by self.now) node }
    {
        match self.filed.row(node) {
            Filed::Node(claim) => claim,
            Filed::Thing(_) | Filed::Nothing => unreachable!(),
        }
    }

    /// The rows that are trees, substitutions and contexts.
    pub fn store(&self) -> &RowStore
        ensures { result.now ≡ self.now.store }
    {
        &self.store
    }

    /// A row that fits, over the rows of the store: one of the file or one that was made before,
    /// where it is known that one reads so, else a new one.
    pub fn make(&mut self, row: rows::Row<'_>) -> Result<u64, AllocError>
        requires { IsFit (store_means self.old.store) row }
        ensures kept { Kept (store_means self.old.store) (store_means self.new.store) }
        ensures meaning { IfOk result (λ at. store_means self.new.store at ≡
            row_meaning (store_means self.old.store) row.entry) }
        ensures meant { meant_by self.new ≡ meant_by self.old }
    {
        self.known.look(&self.store, &self.filed)?;
        let digest = row.digest();
        match self.known.find(&self.store, digest, row) {
            Some(at) => Ok(at),
            None => {
                let at = self.make_new(row)?;
                self.known.keep(digest, at)?;
                Ok(at)
            }
        }
    }

    /// A new row.
    fn make_new(&mut self, row: rows::Row<'_>) -> Result<u64, AllocError>
        requires { IsFit (store_means self.old.store) row }
        ensures kept { Kept (store_means self.old.store) (store_means self.new.store) }
        ensures meaning { IfOk result (λ at. store_means self.new.store at ≡
            row_meaning (store_means self.old.store) row.entry) }
        ensures meant { meant_by self.new ≡ meant_by self.old }
    {
        Ok(self.store.add(row)?)
    }

    /// Whether a row fits the rows of the store.
    pub fn fits(&self, row: &rows::Row<'_>) -> bool
        ensures { IsTrue result ↔ IsFit (store_means self.now.store) row.now }
    {
        self.store.fits(row)
    }

    /// Whether two claims over rows of the store are the same judgement.
    pub fn same_claim(&mut self, left: Claim, right: Claim) -> Result<bool, AllocError>
        requires left { IsSome (claimed (store_means self.old.store) left) }
        requires right { IsSome (claimed (store_means self.old.store) right) }
        ensures same { let f = store_means self.old.store in
            IfOk result (λ same. IsTrue same ↔ (claimed f left ≡ claimed f right)) }
        ensures store { self.new.store ≡ self.old.store }
        ensures filed { self.new.filed ≡ self.old.filed }
    {
        Ok(self.comparison.same_claim(&self.store, left, right)?)
    }
}
