//! Whether a rule may be used, tested.

use crate::few::RuleUse;
use crate::kernel::{Book, NodeId};
use rows::{Reader, Row, SubId};
use rules::{SideTest, side, wanted};
use std::alloc::AllocError;
use theory::{Claim, PartKind, RuleName, count_premises, part_kinds};

/// The greatest shift of a substitution that `then` takes.
const GREATEST_SHIFT: u64 = 1 << 62;

/// What a test of a use of a rule finds: the first thing that is not as the rule has it. Places are
/// counted from 0.
#[derive(Clone, Copy, Debug, PartialEq, Eq)]
pub enum Fit {
    /// Nothing: it is an instance of the rule.
    Fits,
    /// The parts are not rows of the rule's kinds, or a substitution's shift is above 2^62.
    Parts,
    /// The premises are not as many as the rule has.
    Count,
    /// The premise at this place is no node that concludes what the rule wants.
    Premise(u8),
    /// The side condition at this place does not hold.
    Side(u8),
}

impl Book {
    ghost use Rattle.std.specs.Prelude.{◌≡◌, ◌<◌, ◌≤◌, ◌↔◌, ◌^◌, IfOk, IfErr, IfSome, IfNone};
    ghost use Rattle.std.specs.Prelude.{IsSome, IsTrue, Some, length, option_map};
    ghost use Rattle.std.specs.List.{All};
    ghost use Rattle.theory.specs.RuleNames.{kinds_of, premises_of};
    ghost use Rattle.trees.specs.Judgements.{Judgement};
    ghost use Rattle.trees.specs.Things.{meanings, kind_of};
    ghost use Rattle.rows.specs.Views.{IsOfKind};
    ghost use Rattle.trees.specs.Claimed.{claimed};
    ghost use Rattle.conditions.specs.SideTests.{asked};
    ghost use Rattle.conditions.specs.Sides.{SideHolds};
    ghost use Rattle.rules.specs.Claims.{rule_over, premise_at, side_at, sides_in};
    ghost use Rattle.book.specs.Right.{IsUse, IsMadeBy};
    ghost use Rattle.book.specs.Shown.{book_means, book_nodes, book_concludes, Extends, AddsRows};
    ghost use Rattle.book.specs.Fits.{IsPart, AreParts, IsShaped, MayConclude, Finds};
    ghost use Rattle.book.specs.Fits.{FailsAtPremise, FailsAtSide, rule_in, wants_of, sides_of};
    ghost use Rattle.book.specs.declared.trying.Fit.TheVariants as fit;

    /// Whether a number is that of a node.
    pub fn is_node(&self, node: NodeId) -> bool
        ensures there { IsTrue result ↔ IsSome (book_nodes self.now node.0) }
        ensures concludes { IsTrue result ↔ IsSome (book_concludes self.now node.0) }
    {
        node.0 < self.nodes.len()
    }

    /// The kind of a row.
    pub fn kind(&self, row: u64) -> PartKind
        requires { IsSome (book_means self.now row) }
        ensures { option_map kind_of (book_means self.now row) ≡ Some result }
    {
        match self.row(row) {
            Row::Term(_) => PartKind::Term,
            Row::Subst(_) => PartKind::Subst,
            Row::Context(_) => PartKind::Context,
        }
    }

    /// Whether a number is that of a row of a kind.
    pub fn is_of_kind(&self, row: u64, kind: PartKind) -> bool
        ensures { IsTrue result ↔ IsOfKind kind (book_means self.now row) }
    {
        row < self.rows.len() && self.kind(row) == kind
    }

    /// Whether a number is that of a row of a kind. The shift of a substitution is one that `then`
    /// takes.
    pub fn is_part(&self, row: u64, kind: PartKind) -> bool
        ensures { IsTrue result ↔ IsPart kind (book_means self.now row) }
    {
        if !self.is_of_kind(row, kind) {
            return false;
        }
        match kind {
            PartKind::Term | PartKind::Context => true,
            PartKind::Subst => self.size(SubId(row)).shift <= GREATEST_SHIFT,
        }
    }

    /// Whether numbers are those of rows that may be the parts of a rule.
    pub fn are_parts(&self, rule: RuleName, parts: &[u64]) -> bool
        ensures { IsTrue result ↔ AreParts (book_means self.now) (kinds_of rule) parts.now }
    {
        let kinds = part_kinds(rule);
        if parts.len() != kinds.len() {
            return false;
        }
        for at in 0..parts.len() {
            if !self.is_part(parts[at], kinds[at]) {
                return false;
            }
        }
        true
    }

    /// The premise that a rule wants at a place.
    fn wanted_at(&mut self, rule: RuleName, parts: &[u64], at: u8) -> Result<Claim, AllocError>
        requires parts { IsSome (rule_over rule (meanings (book_means self.old) parts.now)) }
        requires within { at < premises_of rule }
        ensures adds { AddsRows self.old self.new }
        ensures claim { let r = rule_over rule (meanings (book_means self.old) parts.now) in
            IfOk result (λ claim. claimed (book_means self.new) claim ≡ premise_at at r) }
    {
        Ok(wanted(&mut self.rows, rule, parts, at)?)
    }

    /// Whether a number is that of a node which concludes the premise that a rule wants at a place.
    fn premise_holds(
        &mut self,
        rule: RuleName,
        parts: &[u64],
        at: u8,
        premise: u64,
    ) -> Result<bool, AllocError>
        requires parts { IsSome (rule_over rule (meanings (book_means self.old) parts.now)) }
        requires within { at < premises_of rule }
        ensures adds { AddsRows self.old self.new }
        ensures holds { let r = rule_over rule (meanings (book_means self.old) parts.now) in
            IfOk result (λ holds. IsTrue holds ↔
            (book_concludes self.old premise ≡ premise_at at r)) }
    {
        if !self.is_node(NodeId(premise)) {
            return Ok(false);
        }
        let wanted = self.wanted_at(rule, parts, at)?;
        let concluded = self.conclusion(NodeId(premise));
        Ok(self.comparison.same_claim(&self.rows, wanted, concluded)?)
    }

    /// The first place at which no node concludes the premise that the rule wants.
    fn failing_premise(&mut self, step: &RuleUse) -> Result<Option<u8>, AllocError>
        requires { IsShaped self.old step.now }
        ensures adds { AddsRows self.old self.new }
        ensures some { IfOk result (λ found. IfSome found (FailsAtPremise self.old step.now)) }
        ensures none { IfOk result (λ found. IfNone found
            (meanings (book_concludes self.old) step.now.premises ≡
            wants_of (rule_in self.old step.now))) }
    {
        let premises = step.premises.as_slice();
        for at in 0..count_premises(step.rule) {
            let premise = premises[at as usize];
            if !self.premise_holds(step.rule, step.parts.as_slice(), at, premise)? {
                return Ok(Some(at));
            }
        }
        Ok(None)
    }

    /// The test of a rule's side condition at a place, and none past the last.
    fn side_at(
        &mut self,
        rule: RuleName,
        parts: &[u64],
        at: u8,
    ) -> Result<Option<SideTest>, AllocError>
        requires { IsSome (rule_over rule (meanings (book_means self.old) parts.now)) }
        ensures adds { AddsRows self.old self.new }
        ensures some { let r = rule_over rule (meanings (book_means self.old) parts.now) in
            IfOk result (λ found. IfSome found (λ test.
            asked (book_means self.new) test ≡ side_at at r)) }
        ensures place { let r = rule_over rule (meanings (book_means self.old) parts.now) in
            IfOk result (λ found. IfSome found (λ _. at < sides_in r)) }
        ensures none { let r = rule_over rule (meanings (book_means self.old) parts.now) in
            IfOk result (λ found. IfNone found (sides_in r ≤ at)) }
    {
        Ok(side(&mut self.rows, rule, parts, at)?)
    }

    /// Whether a side condition holds. What is read of its context and of trees over it is kept for
    /// the next ones.
    fn decide(&mut self, test: SideTest) -> Result<bool, AllocError>
        requires { IsSome (asked (book_means self.old) test) }
        ensures same { self.new ≡ self.old }
        ensures holds { let condition = asked (book_means self.old) test in
            IfOk result (λ holds. IfSome condition (λ c. IsTrue holds ↔ SideHolds c)) }
    {
        let rows = self.rows.len();
        Ok(self.sides.decide(self.alloc, &self.rows, test, rows)?)
    }

    /// The first place at which a side condition of the rule does not hold.
    fn failing_side(&mut self, step: &RuleUse) -> Result<Option<u8>, AllocError>
        requires { IsSome (rule_in self.old step.now) }
        ensures adds { AddsRows self.old self.new }
        ensures some { IfOk result (λ found. IfSome found (FailsAtSide self.old step.now)) }
        ensures none { IfOk result (λ found. IfNone found
            (All SideHolds (sides_of (rule_in self.old step.now)))) }
    {
        let mut at = 0;
        while let Some(test) = self.side_at(step.rule, step.parts.as_slice(), at)? {
            if !self.decide(test)? {
                return Ok(Some(at));
            }
            at += 1;
        }
        Ok(None)
    }

    /// Whether a use of a rule may be concluded, and what is not as the rule has it if it may not.
    /// The rows that the test makes stay, and what it reads of contexts for side conditions is kept
    /// for the next tests.
    ///
    /// # Errors
    /// Only where memory runs out.
    pub fn fit(&mut self, step: &RuleUse) -> Result<Fit, AllocError>
        ensures adds { AddsRows self.old self.new }
        ensures fits { IfOk result (λ found. (found ≡ fit.Fits) ↔ MayConclude self.old step.now) }
        ensures finds { IfOk result (Finds self.old step.now) }
    {
        if !self.are_parts(step.rule, step.parts.as_slice()) {
            return Ok(Fit::Parts);
        }
        if step.premises.as_slice().len() != count_premises(step.rule) as usize {
            return Ok(Fit::Count);
        }
        if let Some(at) = self.failing_premise(step)? {
            return Ok(Fit::Premise(at));
        }
        match self.failing_side(step)? {
            Some(at) => Ok(Fit::Side(at)),
            None => Ok(Fit::Fits),
        }
    }

    /// Concludes a rule, if it fits. Else there is no new node, and the answer says what was found.
    ///
    /// # Errors
    /// Only where memory runs out.
    pub fn try_conclude(&mut self, step: &RuleUse) -> Result<Result<NodeId, Fit>, AllocError>
        ensures extends { Extends self.old self.new }
        ensures concludes { IfOk result (λ answer. IfOk answer (λ node. (J : Judgement) ×
            IsUse (book_means self.old) (book_concludes self.old)
            step.now.rule step.now.parts step.now.premises J ×
            (book_concludes self.new node.0 ≡ Some J))) }
        ensures made { IfOk result (λ answer. IfOk answer (λ node.
            IsMadeBy step.now.rule step.now.parts step.now.premises (book_nodes self.new node.0))) }
        ensures misfit { IfOk result (λ answer. IfErr answer (λ found.
            (found ≡ fit.Fits → ⊥) × Finds self.old step.now found × AddsRows self.old self.new)) }
    {
        match self.fit(step)? {
            Fit::Fits => Ok(Ok(self.conclude(step)?)),
            misfit => Ok(Err(misfit)),
        }
    }
}
