//! The states of all questions as one.

use book::Book;
use conversion::{ConvertState, ConvertStep, Pair, step_convert};
use evaluate::{HeadState, HeadStep, step_head};
use normal::{NormalState, NormalStep, step_normal};
use std::alloc::Global;
use tested_steps::Fault;
use values::{Kept, Question, Reply};

/// A state of some question.
#[derive(Drop)]
pub enum State {
    Head(HeadState),
    Normal(NormalState),
    Convert(ConvertState),
    /// Its answer was kept.
    Recalled(Kept),
}

/// What a step came to.
#[derive(Drop)]
pub enum Step {
    Moved(State),
    Asks(Question, State),
    Done(Reply),
}

/// The answer of a reply, where it is one that may be kept.
pub fn kept_of(reply: &Reply) -> Option<Kept> {
    match reply {
        Reply::Head(head) => Some(Kept::Head(*head)),
        Reply::Normal(part) => Some(Kept::Normal(*part)),
        Reply::Equal(node) => Some(Kept::Equal(*node)),
        Reply::Differ(_) | Reply::Unaligned(_) => None,
    }
}

/// The reply that a kept answer is.
fn reply_of(answer: Kept) -> Reply {
    match answer {
        Kept::Head(head) => Reply::Head(head),
        Kept::Normal(part) => Reply::Normal(part),
        Kept::Equal(node) => Reply::Equal(node),
    }
}

impl State {
    /// The state of a question.
    pub fn new(alloc: Global, question: Question) -> State {
        match question {
            Question::HeadOf(susp) => State::Head(HeadState::new(alloc, susp)),
            Question::NormalOf(susp) => State::Normal(NormalState::new(alloc, susp)),
            Question::Convert { ctx, left, right } => {
                State::Convert(ConvertState::new(alloc, Pair { ctx, left, right }))
            }
        }
    }

    /// One step.
    pub fn step(self, alloc: Global, book: &mut Book) -> Result<Step, Fault> {
        match self {
            State::Head(state) => match step_head(alloc, book, state)? {
                HeadStep::Moved(state) => Ok(Step::Moved(State::Head(state))),
                HeadStep::Asks(question, state) => Ok(Step::Asks(question, State::Head(state))),
                HeadStep::Done(reply) => Ok(Step::Done(reply)),
            },
            State::Normal(state) => match step_normal(alloc, book, state)? {
                NormalStep::Moved(state) => Ok(Step::Moved(State::Normal(state))),
                NormalStep::Asks(question, state) => {
                    Ok(Step::Asks(question, State::Normal(state)))
                }
                NormalStep::Done(reply) => Ok(Step::Done(reply)),
            },
            State::Convert(state) => match step_convert(alloc, book, state)? {
                ConvertStep::Moved(state) => Ok(Step::Moved(State::Convert(state))),
                ConvertStep::Asks(question, state) => {
                    Ok(Step::Asks(question, State::Convert(state)))
                }
                ConvertStep::Done(reply) => Ok(Step::Done(reply)),
            },
            State::Recalled(answer) => Ok(Step::Done(reply_of(answer))),
        }
    }

    /// The state with the reply to what it asked.
    pub fn answered(self, reply: Reply) -> Result<State, Fault> {
        match self {
            State::Head(mut state) => {
                state.answer(reply)?;
                Ok(State::Head(state))
            }
            State::Normal(mut state) => {
                state.answer(reply)?;
                Ok(State::Normal(state))
            }
            State::Convert(mut state) => {
                state.answer(reply)?;
                Ok(State::Convert(state))
            }
            State::Recalled(_) => Err(Fault::Misfit),
        }
    }
}
