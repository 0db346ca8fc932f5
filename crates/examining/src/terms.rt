//! The types of terms in the scope of definitions.

use crate::examiner::run;
use book::{Book, NodeId};
use codes::{Code, CodeDef};
use examining_state::{CheckFault, Examiner, Refusal, Stop, Task, Tasks};
use std::alloc::{AllocError, Global};
use tested_steps::Fault;
use typing_steps::Root;

/// What was found of a term.
#[derive(Drop, Debug)]
pub enum ExaminedTerm {
    /// It has a type: `[] >> t : A`.
    Typed(NodeId),
    /// It is refused at this byte, and why.
    Refused(u32, CheckFault),
    /// A question that was asked for what begins at this byte has no answer within its budget.
    Spent(u32),
    /// A step was not taken.
    NotTaken(Fault),
}

/// The nodes of a definition, among those of all: each its type and its body, in order.
fn root_of(nodes: &[NodeId], number: u32) -> Result<Root, Fault> {
    let at = 2 * number as usize;
    let Some(ty) = nodes.get(at).copied() else {
        return Err(Fault::Misfit);
    };
    let Some(body) = nodes.get(at + 1).copied() else {
        return Err(Fault::Misfit);
    };
    Ok(Root { ty, body })
}

/// The term that was inferred of a code.
fn infer_term(
    alloc: Global,
    book: &mut Book,
    defs: &[CodeDef],
    nodes: &[NodeId],
    code: &Code,
    turns: u64,
) -> Result<NodeId, Stop> {
    let mut state = Examiner::new(alloc, book, turns)?;
    for def in defs {
        state.know(def.number, root_of(nodes, def.number)?)?;
    }
    let mut tasks = Tasks::new(alloc);
    tasks.plan(&[Task::Infer(code)])?;
    run(&mut state, book, tasks)?;
    Ok(state.take_head()?.term)
}

/// Infers the type of a term in the scope of definitions that are typed by these nodes: each its
/// type and its body, in the order of their numbers. A question of evaluation has so many moves.
///
/// # Errors
/// Only where memory runs out.
pub fn examine_term(
    alloc: Global,
    book: &mut Book,
    defs: &[CodeDef],
    nodes: &[NodeId],
    code: &Code,
    turns: u64,
) -> Result<ExaminedTerm, AllocError> {
    match infer_term(alloc, book, defs, nodes, code, turns) {
        Ok(node) => Ok(ExaminedTerm::Typed(node)),
        Err(Stop::Memory) => Err(AllocError),
        Err(Stop::Refused(Refusal { at, fault })) => Ok(ExaminedTerm::Refused(at, fault)),
        Err(Stop::Spent(at)) => Ok(ExaminedTerm::Spent(at)),
        Err(Stop::NotTaken(fault)) => Ok(ExaminedTerm::NotTaken(fault)),
    }
}
