//! Questions of evaluation, each within the budget.

use crate::faults::{CheckFault, Kind, Stop};
use crate::state::Examiner;
use answering::{Outcome, answer};
use book::{Book, NodeId};
use joined_sides::{absurd, fitted, reflexive, same_trees, turned};
use tested_steps::{Fault, always_false, try_make};
use theory::Op;
use values::{Goal, Question, Reply, Trail, suspend};

/// Two types of a context, or two terms of one type there: `ctx G`, what was found, and what is
/// wanted.
#[derive(Clone, Copy, Debug)]
pub struct Pair {
    pub ctx: NodeId,
    pub found: NodeId,
    pub wanted: NodeId,
}

/// What comes of comparing.
#[derive(Drop, Debug)]
pub enum Verdict {
    /// They are equal, by this equation.
    Equal(NodeId),
    /// They differ.
    Differ(Trail),
}

/// Whether nothing is true in a context.
fn is_absurd(book: &mut Book, ctx: NodeId) -> Result<bool, Fault> {
    let top = try_make(book, Op::F1, &[])?;
    always_false(book, ctx, top)
}

impl Examiner {
    /// The reply to a question that is asked for what begins at a byte.
    ///
    /// # Errors
    /// `Unaligned` where that is the reply.
    fn ask(&mut self, book: &mut Book, at: u32, question: Question) -> Result<Reply, Stop> {
        match answer(self.alloc, book, &mut self.answers, question, self.turns)? {
            Outcome::Replied {
                reply: Reply::Unaligned(unaligned),
                ..
            } => Err(Stop::refused(at, CheckFault::Unaligned(unaligned))),
            Outcome::Replied { reply, .. } => Ok(reply),
            Outcome::Spent { .. } => Err(Stop::Spent(at)),
        }
    }

    /// The head of a type of the place.
    pub(crate) fn head_of(&mut self, book: &mut Book, at: u32, ty: NodeId) -> Result<Goal, Stop> {
        let susp = suspend(book, self.ctx(), ty)?;
        match self.ask(book, at, Question::HeadOf(susp))? {
            Reply::Head(goal) => Ok(goal),
            _ => Err(Stop::NotTaken(Fault::Misfit)),
        }
    }

    /// The refusal of a type of the place that is not of the wanted kind, for what is at a byte.
    pub fn wanted(&mut self, book: &mut Book, at: u32, kind: Kind, ty: NodeId) -> Stop {
        match self.normal_of(book, at, ty) {
            Ok(equation) => Stop::refused(at, CheckFault::Wanted(kind, equation)),
            Err(stop) => stop,
        }
    }

    /// The equation of a type of the place and its normal form.
    fn normal_of(&mut self, book: &mut Book, at: u32, ty: NodeId) -> Result<NodeId, Stop> {
        let susp = suspend(book, self.ctx(), ty)?;
        match self.ask(book, at, Question::NormalOf(susp))? {
            Reply::Normal(part) => Ok(part.equal),
            _ => Err(Stop::NotTaken(Fault::Misfit)),
        }
    }

    /// Compares two types, or two terms of one type. Where they are one tree, and where nothing is
    /// true, no question is asked.
    pub fn compared(&mut self, book: &mut Book, at: u32, pair: Pair) -> Result<Verdict, Stop> {
        if same_trees(book, pair.found, pair.wanted)? {
            return Ok(Verdict::Equal(reflexive(book, pair.found)?));
        }
        if is_absurd(book, pair.ctx)? {
            return Ok(Verdict::Equal(absurd(book, pair.found, pair.wanted)?));
        }
        let question = Question::Convert {
            ctx: pair.ctx,
            left: pair.found,
            right: pair.wanted,
        };
        match self.ask(book, at, question)? {
            Reply::Equal(equation) => Ok(Verdict::Equal(equation)),
            Reply::Differ(trail) => Ok(Verdict::Differ(trail)),
            _ => Err(Stop::NotTaken(Fault::Misfit)),
        }
    }

    /// The equation of what was found at the place and what is wanted there.
    ///
    /// # Errors
    /// `Mismatch` where they differ.
    pub fn matched(
        &mut self,
        book: &mut Book,
        at: u32,
        found: NodeId,
        wanted: NodeId,
    ) -> Result<NodeId, Stop> {
        let pair = Pair {
            ctx: self.ctx(),
            found,
            wanted,
        };
        match self.compared(book, at, pair)? {
            Verdict::Equal(equation) => Ok(equation),
            Verdict::Differ(trail) => Err(Stop::refused(at, CheckFault::Mismatch(trail))),
        }
    }

    /// A term of the place at a type that is wanted, of its own type.
    pub fn term_at(
        &mut self,
        book: &mut Book,
        at: u32,
        term: NodeId,
        types: [NodeId; 2],
    ) -> Result<NodeId, Stop> {
        let [found, wanted] = types;
        if same_trees(book, found, wanted)? {
            return Ok(term);
        }
        let equation = self.matched(book, at, found, wanted)?;
        Ok(fitted(book, term, equation)?)
    }
}

/// A term at a type, of one at a type that equals it; or the other way round.
pub(crate) fn term_from(
    book: &mut Book,
    term: NodeId,
    equal: Option<NodeId>,
) -> Result<NodeId, Fault> {
    match equal {
        None => Ok(term),
        Some(equation) => {
            let equation = turned(book, equation)?;
            fitted(book, term, equation)
        }
    }
}
