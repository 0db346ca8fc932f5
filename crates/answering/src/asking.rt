//! Terms that are normalised outright.

use crate::moves::{Outcome, answer};
use book::{Book, NodeId};
use std::alloc::{AllocError, Global};
use tested_steps::{Fault, context_of};
use values::{Answers, Part, Question, Reply, Unaligned, suspend};

/// How a normalisation ended.
#[derive(Drop, Debug)]
pub enum Reached {
    /// With the normal form: the equation with it, and its typing.
    Normal(Part),
    /// With two types that could not be aligned.
    Unaligned(Unaligned),
    /// With none after so many moves.
    Spent,
    /// A step was tried that no rule allows.
    NotTaken,
}

/// The normal form of what a node types, in fewer than so many moves.
fn normal_form(alloc: Global, book: &mut Book, term: NodeId, most: u64) -> Result<Reached, Fault> {
    let ctx = context_of(alloc, book, term)?;
    let question = Question::NormalOf(suspend(book, ctx, term)?);
    let mut answers = Answers::new(alloc);
    match answer(alloc, book, &mut answers, question, most)? {
        Outcome::Replied {
            reply: Reply::Normal(part),
            moves: _,
        } => Ok(Reached::Normal(part)),
        Outcome::Replied {
            reply: Reply::Unaligned(unaligned),
            moves: _,
        } => Ok(Reached::Unaligned(unaligned)),
        Outcome::Replied { reply: _, moves: _ } => Err(Fault::Misfit),
        Outcome::Spent { moves: _ } => Ok(Reached::Spent),
    }
}

/// Normalises the term or the type of a node within so many moves. Nothing is promised of the
/// nodes, which are right whatever made them: what they conclude is to be compared with what was
/// asked.
///
/// # Errors
/// Only where memory runs out.
pub fn normalise(
    alloc: Global,
    book: &mut Book,
    term: NodeId,
    most: u64,
) -> Result<Reached, AllocError> {
    match normal_form(alloc, book, term, most) {
        Ok(reached) => Ok(reached),
        Err(Fault::Memory) => Err(AllocError),
        Err(Fault::Misfit) | Err(Fault::Unfit(..)) => Ok(Reached::NotTaken),
    }
}
