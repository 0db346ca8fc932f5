//! The loop, which counts moves.

ghost use Rattle.std.specs.Prelude.{◌≡◌, ◌<◌, ◌+◌, ◌^◌, IfOk};
ghost use Rattle.answering.specs.Counts.{CountsOne, IsWithin};

use crate::states::{State, Step, kept_of};
use book::Book;
use std::alloc::Global;
use tested_steps::Fault;
use values::{Answers, Question, Reply};

/// How a question ended.
#[derive(Drop, Debug)]
pub enum Outcome {
    /// With this reply, after so many moves.
    Replied { reply: Reply, moves: u64 },
    /// With no reply after so many moves, which are all that it had.
    Spent { moves: u64 },
}

/// A question that was asked, and how far it is.
#[derive(Drop)]
struct Asked {
    question: Question,
    state: State,
}

impl Asked {
    /// A question of which no move is made yet. Where its answer is kept, that is recalled.
    fn new(alloc: Global, answers: &Answers, question: Question) -> Asked {
        let state = match answers.find(&question) {
            Some(answer) => State::Recalled(answer),
            None => State::new(alloc, question),
        };
        Asked { question, state }
    }
}

/// A question on its way: the one that moves, and those that wait for its reply, each for that of
/// the next.
#[derive(Drop)]
struct Run {
    waiting: Vec<Asked>,
    current: Asked,
    /// The moves so far.
    moves: u64,
}

/// What a run comes to.
#[derive(Drop)]
enum Next {
    /// One move more was made.
    Moved(Run),
    /// No move is left: it has its reply.
    Replied(Reply),
}

impl Run {
    /// A question of which no move is made yet.
    fn new(alloc: Global, answers: &Answers, question: Question) -> Run
        ensures { result.moves ≡ 0 }
    {
        Run {
            waiting: Vec::new(alloc),
            current: Asked::new(alloc, answers, question),
            moves: 0,
        }
    }

    /// Makes one move: a step of the state, a question that it asks, or a reply handed to the state
    /// that waits for it. A reply is kept. That two types could not be aligned is the reply to all
    /// that waits.
    fn moved(self, alloc: Global, book: &mut Book, answers: &mut Answers) -> Result<Next, Fault>
        requires { self.moves + 1 < 2 ^ 64 }
        ensures { IfOk result (λ next. CountsOne self next) }
    {
        let Run {
            mut waiting,
            current: Asked { question, state },
            moves,
        } = self;
        let current = match state.step(alloc, book)? {
            Step::Moved(state) => Asked { question, state },
            Step::Asks(asked, state) => {
                waiting.push(Asked { question, state })?;
                Asked::new(alloc, answers, asked)
            }
            Step::Done(reply) => {
                if let Reply::Unaligned(_) = &reply {
                    return Ok(Next::Replied(reply));
                }
                if let Some(answer) = kept_of(&reply) {
                    answers.keep(question, answer)?;
                }
                let Some(Asked { question, state }) = waiting.pop() else {
                    return Ok(Next::Replied(reply));
                };
                let state = state.answered(reply)?;
                Asked { question, state }
            }
        };
        let moves = moves + 1;
        Ok(Next::Moved(Run {
            waiting,
            current,
            moves,
        }))
    }
}

/// Answers a question in fewer than so many moves, or makes so many. What was answered on the way
/// is kept for later questions, while the nodes of the book stay.
///
/// # Errors
/// `Memory`; `Misfit` and `Unfit` where a step was tried that no rule allows.
pub fn answer(
    alloc: Global,
    book: &mut Book,
    answers: &mut Answers,
    question: Question,
    most: u64,
) -> Result<Outcome, Fault>
    ensures { IfOk result (λ outcome. IsWithin most outcome) }
{
    let mut run = Run::new(alloc, answers, question);
    while run.moves < most {
        let moves = run.moves;
        run = match run.moved(alloc, book, answers)? {
            Next::Moved(next) => next,
            Next::Replied(reply) => return Ok(Outcome::Replied { reply, moves }),
        };
    }
    Ok(Outcome::Spent { moves: run.moves })
}
