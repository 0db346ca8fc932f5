//! Answers that are kept, by their questions.

use crate::goals::Goal;
use crate::questions::{Part, Question};
use book::NodeId;
use indexmap::IndexMap;
use std::alloc::{AllocError, Global};
use std::marker::Model;

/// An answer that serves again wherever its question is asked.
#[derive(Clone, Copy, Debug, PartialEq, Eq)]
pub enum Kept {
    /// The goal at a term that no rule of computation rewrites by its outermost form.
    Head(Goal),
    /// A normal form.
    Normal(Part),
    /// `H >> A = B`, or `H >> a = b : A`.
    Equal(NodeId),
}

/// The answers that are kept, each with its question, the oldest first. No question stands twice.
/// Contracts see the list of pairs.
#[derive(Drop)]
pub struct Answers {
    pairs: IndexMap<Question, Kept>,
}

impl Model for Answers {
    ghost use Rattle.std.specs.Prelude.{List};
    ghost use Rattle.values.specs.declared.questions.Question.{Question};
    ghost use Rattle.values.specs.declared.answers.Kept.{Kept};

    ghost Value = { List (Question × Kept) };

    ghost view = { λ s. s.pairs.entries };
}

impl Answers {
    ghost use Rattle.std.specs.Prelude.{◌≡◌, ◌≤◌, ◌++◌, ◌∷◌, [], length, take, IfSome, IfNone};
    ghost use Rattle.std.specs.Prelude.{IfOk, OnErr, OnOk, Contains};
    ghost use Rattle.values.specs.Answers.{answer_to, with_answer};

    /// No answer is kept.
    pub fn new(alloc: Global) -> Answers
        ensures { result ≡ [] }
    {
        Answers {
            pairs: IndexMap::new(alloc),
        }
    }

    /// How many answers are kept.
    pub fn len(&self) -> usize
        ensures { result ≡ length self.now }
    {
        self.pairs.len()
    }

    /// The answer that is kept for a question.
    pub fn find(&self, question: &Question) -> Option<Kept>
        ensures answer { result ≡ answer_to self.now question.now }
        ensures some { IfSome result (λ answer. Contains self.now (question.now, answer)) }
        ensures none { IfNone result ((answer : Kept) →
            Contains self.now (question.now, answer) → ⊥) }
    {
        self.pairs.get(question).copied()
    }

    /// Keeps an answer, unless there is one to the question: then this one stays.
    pub fn keep(&mut self, question: Question, answer: Kept) -> Result<(), AllocError>
        ensures ok { OnOk result (self.new ≡ with_answer self.old question answer) }
        ensures err { OnErr result (self.new ≡ self.old) }
    {
        if !self.pairs.contains_key(&question) {
            self.pairs.insert(question, answer)?;
        }
        Ok(())
    }

    /// Only the first so many answers are kept.
    pub fn forget(&mut self, len: usize)
        ensures { self.new ≡ take len self.old }
    {
        self.pairs.truncate(len);
    }
}
