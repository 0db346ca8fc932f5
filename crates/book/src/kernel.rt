//! The book, in which every node is right.

use crate::few::RuleUse;
use crate::node_words::{MOST_NODE_WORDS, NodeCells, claim_of, read_node, spell_node};
use compare::Comparison;
use interned::{InternedRows, Words};
use region::{Region, RowId};
use rows::{Row, TermId};
use rules::concluded;
use side_conditions::SideConditions;
use std::alloc::{AllocError, Global};
use std::marker::Model;
use theory::{Claim, PartKind, RuleName};

/// The number of a node.
#[derive(Clone, Copy, Debug, PartialEq, Eq, Hash)]
pub struct NodeId(pub u64);

/// How many rows and how many nodes there are, to go back to.
#[derive(Clone, Copy, Debug, PartialEq, Eq)]
pub struct Mark {
    pub rows: u64,
    pub nodes: u64,
}

/// A node as it was made.
#[derive(Clone, Copy, Debug)]
pub struct NodeRow<'a> {
    pub rule: RuleName,
    pub parts: &'a [u64],
    pub premises: &'a [u64],
}

/// Rows and nodes, named by their numbers from 0. Each node is an instance of its rule over earlier
/// nodes. Equal rows are kept once, and equal nodes too. What rows mean and nodes conclude stays,
/// after out of memory too.
#[derive(Drop)]
pub struct Book {
    pub(crate) alloc: Global,
    pub(crate) rows: InternedRows,
    pub(crate) nodes: Region,
    /// Compares what nodes conclude with what a rule wants.
    pub(crate) comparison: Comparison,
    /// What was read of contexts for side conditions.
    pub(crate) sides: SideConditions,
}

impl Model for Book {
    ghost use Rattle.std.specs.Prelude.{◌/◌, min};
    ghost use Rattle.book.specs.Contents.{Contents};

    ghost Value = { Contents };

    ghost use Rattle.interned.specs.Shown.{things, rows_spare};
    ghost use Rattle.book.specs.Right.{IsSound};

    ghost view = { λ b. record {
      rows = b.rows.region.rows;
      nodes = b.nodes.rows;
      spare = min (rows_spare b.rows) (min b.nodes.spare_rows (b.nodes.spare_words / 32));
    } };

    ghost invariant = { λ b. IsSound (things b.rows) b.nodes.rows b.sides };
}

impl Book {
    ghost use Rattle.std.specs.Prelude.{◌≡◌, ◌↔◌, ◌≤◌, ◌<◌, ◌+◌, ◌^◌, ℕ, None, Some, IfOk, OnOk};
    ghost use Rattle.std.specs.Prelude.{IsOk};
    ghost use Rattle.std.specs.Prelude.{IsSome, IsTrue, length};
    ghost use Rattle.std.specs.List.{All};
    ghost use Rattle.trees.specs.Judgements.{Judgement};
    ghost use Rattle.trees.specs.Things.{Meanings, meanings};
    ghost use Rattle.trees.specs.Claimed.{claimed};
    ghost use Rattle.rows.specs.Views.{IsTree, row_meaning};
    ghost use Rattle.interned.specs.Names.{row_names};
    ghost use Rattle.interned.specs.Coded.{AreCoded};
    ghost use Rattle.rules.specs.Schemas.{most_rows};
    ghost use Rattle.rules.specs.Shifts.{ShiftsFit};
    ghost use Rattle.derivation.specs.Derivations.{Provable};
    ghost use Rattle.book.specs.Nodes.{places_of};
    ghost use Rattle.book.specs.Coded.{node_shown};
    ghost use Rattle.book.specs.Right.{IsUse, IsMadeBy, AreRight};
    ghost use Rattle.book.specs.Shown.{book_means, book_nodes, book_concludes, Extends, IsMark};
    ghost use Rattle.book.specs.Shown.{Released, row_over};

    /// No rows and no nodes.
    pub fn new(alloc: Global) -> Result<Book, AllocError>
        ensures rows { IfOk result (λ book. (k : ℕ) → book_means book k ≡ None) }
        ensures nodes { IfOk result (λ book. (k : ℕ) → book_nodes book k ≡ None) }
    {
        Ok(Book {
            alloc,
            rows: InternedRows::new(alloc)?,
            nodes: Region::new(alloc)?,
            comparison: Comparison::new(alloc),
            sides: SideConditions::new(alloc),
        })
    }

    /// Concludes a rule: a node with its conclusion. What the parts mean and the premises conclude
    /// is an instance of the rule, and the shifts of the substitutions among the parts are those
    /// that `then` takes. It adds a node at most, and fewer rows than `most_rows`.
    ///
    /// # Errors
    /// Only where memory runs out that the spare does not cover.
    pub fn conclude(&mut self, step: &RuleUse) -> Result<NodeId, AllocError>
        requires right { (J : Judgement) × IsUse (book_means self.old) (book_concludes self.old)
            step.now.rule step.now.parts step.now.premises J }
        requires shifts { ShiftsFit (meanings (book_means self.old) step.now.parts) }
        ensures covered { most_rows step.now.rule ≤ self.old.spare → IsOk result }
        ensures spends { self.old.spare ≤ self.new.spare + most_rows step.now.rule }
        ensures extends { Extends self.old self.new }
        ensures concludes { IfOk result (λ node. (J : Judgement) →
            IsUse (book_means self.old) (book_concludes self.old)
            step.now.rule step.now.parts step.now.premises J →
            book_concludes self.new node.0 ≡ Some J) }
        ensures made { IfOk result (λ node.
            IsMadeBy step.now.rule step.now.parts step.now.premises (book_nodes self.new node.0)) }
    {
        let parts = step.parts.as_slice();
        let claim = concluded(&mut self.rows, step.rule, parts)?;
        let mut words = Words::new();
        let premises = step.premises.as_slice();
        spell_node(&mut words, step.rule, claim, parts, premises);
        let RowId(at) = self.nodes.intern(words.as_slice())?;
        Ok(NodeId(at))
    }

    /// The node, as its words say it.
    fn cells(&self, node: NodeId) -> NodeCells<'_>
        requires { IsSome (book_nodes self.now node.0) }
        ensures node { book_nodes self.now node.0 ≡ Some (node_shown result) }
        ensures count { length result.claimed.now ≡ places_of result.form }
        ensures earlier { All (λ k. k < node.0) result.premises.now }
        ensures right { (J : Judgement) → book_concludes self.now node.0 ≡ Some J →
            IsUse (book_means self.now) (book_concludes self.now)
            result.rule result.parts.now result.premises.now J }
    {
        read_node(self.nodes.row(RowId(node.0)))
    }

    /// The conclusion of a node.
    pub fn conclusion(&self, node: NodeId) -> Claim
        requires { IsSome (book_nodes self.now node.0) }
        ensures { claimed (book_means self.now) result ≡ book_concludes self.now node.0 }
    {
        let cells = self.cells(node);
        claim_of(cells.form, cells.claimed)
    }

    /// A node as it was made: an instance of its rule, over earlier nodes.
    pub fn step(&self, node: NodeId) -> NodeRow<'_>
        requires { IsSome (book_nodes self.now node.0) }
        ensures made { let made = book_nodes self.now node.0 in
            IsMadeBy result.rule result.parts.now result.premises.now made }
        ensures earlier { All (λ k. k < node.0) result.premises.now }
        ensures right { (J : Judgement) → book_concludes self.now node.0 ≡ Some J →
            IsUse (book_means self.now) (book_concludes self.now)
            result.rule result.parts.now result.premises.now J }
    {
        let NodeCells {
            rule,
            parts,
            premises,
            ..
        } = self.cells(node);
        NodeRow {
            rule,
            parts,
            premises,
        }
    }

    /// A row of any kind, as it was made. It names earlier rows.
    pub fn row(&self, row: u64) -> Row<'_>
        requires { IsSome (book_means self.now row) }
        ensures meaning { book_means self.now row ≡ row_meaning (book_means self.now) result }
        ensures over { (f : Meanings) → row_over self.now row f ≡ row_meaning f result }
        ensures earlier { All (λ k. k < row) (row_names result) }
    {
        self.rows.row(row)
    }

    /// Whether two rows mean the same tree.
    pub fn same_tree(&self, left: TermId, right: TermId) -> Result<bool, AllocError>
        requires left { IsTree (book_means self.now left.0) }
        requires right { IsTree (book_means self.now right.0) }
        ensures { let f = book_means self.now in
            IfOk result (λ same. IsTrue same ↔ (f left.0 ≡ f right.0)) }
    {
        let mut comparison = Comparison::new(self.alloc);
        Ok(comparison.same(&self.rows, PartKind::Term, left.0, right.0)?)
    }

    /// Room for so many more rows and nodes. After an error the book is as before, and the room is
    /// not less.
    pub fn reserve(&mut self, rows: u64) -> Result<(), AllocError>
        ensures ok { OnOk result (rows ≤ self.new.spare) }
        ensures kept { self.old.spare ≤ self.new.spare }
        ensures extends { Extends self.old self.new }
        ensures same { Extends self.new self.old }
    {
        let Some(words) = rows.checked_mul(MOST_NODE_WORDS as u64) else {
            return Err(AllocError);
        };
        self.rows.reserve(rows)?;
        Ok(self.nodes.reserve(rows, words)?)
    }

    /// How many rows and nodes there are, to go back to.
    pub fn mark(&self) -> Mark
        ensures mark { IsMark self.now result }
        ensures rows { (k : ℕ) → IsSome (book_means self.now k) ↔ (k < result.rows) }
        ensures nodes { (k : ℕ) → IsSome (book_concludes self.now k) ↔ (k < result.nodes) }
    {
        let rows = self.rows.len();
        let nodes = self.nodes.len();
        Mark { rows, nodes }
    }

    /// Only the rows and the nodes of the mark stay, and the room is not less.
    pub fn release(&mut self, mark: Mark)
        requires { IsMark self.old mark }
        ensures released { Released self.old self.new mark }
        ensures kept { self.old.spare ≤ self.new.spare }
    {
        self.sides = SideConditions::new(self.alloc);
        self.rows.release(region::Mark(mark.rows));
        self.nodes.release(region::Mark(mark.nodes));
    }

    /// Each row means something, and each node is right.
    pub fn laws_of_book(&self)
        ensures rows { AreCoded self.now.rows }
        ensures nodes { AreRight (book_means self.now) self.now.nodes }
    {
        let _ = &self.nodes;
    }

    /// There are at most 2^48 rows, as many as a slot of the region can number.
    pub fn few_rows(&self)
        ensures { length self.now.rows ≤ 2 ^ 48 }
    {
        self.rows.few_rows();
    }

    /// Every node of the book is provable by the rules.
    pub fn laws_of_nodes(&self)
        ensures { (k : ℕ) (J : Judgement) →
            book_concludes self.now k ≡ Some J → Provable J }
    {
        let _ = &self.nodes;
    }
}
