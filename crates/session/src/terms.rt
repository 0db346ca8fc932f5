//! Terms behind definitions that are typed, and what is told of them.

ghost use Rattle.std.specs.Prelude.{◌≡◌, IfOk, Some, None};
ghost use Rattle.trees.specs.Trees.{Tree};
ghost use Rattle.judgement_rows.specs.After.{term_after};
ghost use Rattle.outcomes.specs.declared.refusal.Cause.TheVariants as cause;
ghost use Rattle.outcomes.specs.Refusals.{refusal};
ghost use Rattle.session.specs.Lines.{TellsTerm};
ghost use Rattle.session.specs.Places.{span_of};

use crate::normal_command::normal_text;
use crate::places::span_of;
use crate::refutals::{Refutal, evidence_of, refutal_of};
use answering::{Reached, normalise};
use book::{Book, NodeId};
use codes::{Code, CodeDef};
use evidence::Evidence;
use examining::{CheckFault, ExaminedTerm, examine_term};
use outcomes::{Cause, Outcome, Refusal, refused};
use stated_roots::types_term;
use std::alloc::{AllocError, Global};
use values::Unaligned;

/// Tells of a refusal at a byte, with what shows it.
fn told_with(cause: Cause, at: u32, evidence: Evidence) -> Outcome
    ensures { result ≡ Outcome.Refuted (record { cause = cause; at = Some at; path = None })
        evidence.shown }
{
    let Evidence { shown, bytes: _ } = evidence;
    let refusal = Refusal {
        cause,
        at: Some(at),
        path: None,
    };
    Outcome::Refuted(refusal, shown)
}

/// A term that is asked for behind definitions, which these nodes type.
#[derive(Clone, Copy)]
pub(crate) struct Asked<'a> {
    pub(crate) defs: &'a [CodeDef],
    pub(crate) nodes: &'a [NodeId],
    pub(crate) code: &'a Code,
    /// The budget of each question, in moves.
    pub(crate) turns: u64,
}

impl Asked<'_> {
    /// The first byte of the term.
    fn start(&self) -> u32
        ensures { result ≡ (span_of self.now.code.now).start }
    {
        span_of(self.code).start
    }

    /// Tells that a step was not taken.
    fn not_taken(&self) -> Outcome
        ensures { result ≡
            refusal cause.RefusedForm (Some (span_of self.now.code.now).start) None }
    {
        refused(Cause::RefusedForm, Some(self.start()), None)
    }

    /// Tells that a budget was spent on what begins at a byte.
    fn spent(&self, at: u32) -> Outcome
        ensures { result ≡ Outcome.Spent self.now.turns at None }
    {
        Outcome::Spent {
            turns: self.turns,
            at,
            path: None,
        }
    }

    /// Tells that two types could not be aligned, once the evidence is tested.
    fn unaligned(
        &self,
        alloc: Global,
        book: &mut Book,
        types: &Unaligned,
    ) -> Result<Outcome, AllocError>
        ensures { (t : Tree) → IfOk result
            (TellsTerm self.now.turns (span_of self.now.code.now).start t) }
    {
        match evidence_of(alloc, book, types)? {
            Some(evidence) => Ok(told_with(Cause::Unaligned, self.start(), evidence)),
            None => Ok(self.not_taken()),
        }
    }

    /// The normal form of the term, which a node types, in print.
    fn normal(&self, alloc: Global, book: &mut Book, node: NodeId) -> Result<Outcome, AllocError>
        ensures { let asked = self.now in
            let t = term_after asked.defs.now asked.code.now in
            IfOk result (TellsTerm asked.turns (span_of asked.code.now).start t) }
    {
        let equation = match normalise(alloc, book, node, self.turns)? {
            Reached::Normal(part) => part.equal,
            Reached::Unaligned(types) => return Ok(self.unaligned(alloc, book, &types)?),
            Reached::Spent => return Ok(self.spent(self.start())),
            Reached::NotTaken => return Ok(self.not_taken()),
        };
        if !types_term(alloc, book, node, self.defs, self.code)? {
            return Ok(self.not_taken());
        }
        book.laws_of_nodes();
        match normal_text(alloc, book, equation, node)? {
            Some(text) => Ok(Outcome::Shown(text)),
            None => Ok(self.not_taken()),
        }
    }

    /// Tells why the term is refused at a byte, once the evidence is tested.
    fn refuted(
        &self,
        alloc: Global,
        book: &mut Book,
        at: u32,
        fault: &CheckFault,
    ) -> Result<Outcome, AllocError>
        ensures { (t : Tree) → IfOk result
            (TellsTerm self.now.turns (span_of self.now.code.now).start t) }
    {
        let Some(refutal) = refutal_of(alloc, book, fault)? else {
            return Ok(self.not_taken());
        };
        match refutal {
            Refutal::CannotInfer => Ok(refused(Cause::CannotInfer, Some(at), None)),
            Refutal::Shown(cause, evidence) => Ok(told_with(cause, at, evidence)),
        }
    }

    /// What is told of the term.
    pub(crate) fn told(&self, alloc: Global, book: &mut Book) -> Result<Outcome, AllocError>
        ensures { let asked = self.now in
            let t = term_after asked.defs.now asked.code.now in
            IfOk result (TellsTerm asked.turns (span_of asked.code.now).start t) }
    {
        match examine_term(alloc, book, self.defs, self.nodes, self.code, self.turns)? {
            ExaminedTerm::Typed(node) => self.normal(alloc, book, node),
            ExaminedTerm::Refused(at, fault) => self.refuted(alloc, book, at, &fault),
            ExaminedTerm::Spent(at) => Ok(self.spent(at)),
            ExaminedTerm::NotTaken(_) => Ok(self.not_taken()),
        }
    }
}
