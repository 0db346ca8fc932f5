//! Terms that were inferred, against types, and the universe.

use book::{Book, NodeId};
use examining_state::{CheckFault, Comparing, Examiner, Head, Kind, OpenHead, Sort, Stop};
use joined_sides::reflexive;
use tested_steps::derive;
use typing_rules::{SMALL_TYPE, SMALL_TYPE_GIVES};

/// What is asked of a term that was inferred last.
pub fn compared(state: &mut Examiner, book: &mut Book, comparing: Comparing) -> Result<(), Stop> {
    match comparing {
        Comparing::At(ty, at) => at_type(state, book, ty, at),
        Comparing::IsSmall(Sort::Small, at) => {
            let universe = state.universe(book)?;
            at_type(state, book, universe, at)
        }
        Comparing::IsSmall(Sort::Large, at) => is_small(state, book, at),
        Comparing::Small => {
            let term = state.take_node()?;
            let universe = state.universe(book)?;
            Ok(state.inferred(term, universe)?)
        }
    }
}

/// The term that was inferred last has a type.
fn at_type(state: &mut Examiner, book: &mut Book, ty: NodeId, at: u32) -> Result<(), Stop> {
    let head = state.take_head()?;
    let term = state.term_at(book, at, head.term, [head.ty, ty])?;
    Ok(state.found(term)?)
}

/// The term that was inferred last is of the universe: a type.
fn is_small(state: &mut Examiner, book: &mut Book, at: u32) -> Result<(), Stop> {
    let OpenHead { term, ty, shape } = state.open_head(book, at)?;
    let Head::Universe = shape.head else {
        return Err(state.wanted(book, at, Kind::Type, ty));
    };
    let [node]: [NodeId; 1] = derive(book, SMALL_TYPE, SMALL_TYPE_GIVES, &[], &[term])?;
    Ok(state.found(node)?)
}

/// The refusal of a form whose type is to be inferred, and cannot.
pub fn cannot_infer(at: u32) -> Stop {
    Stop::refused(at, CheckFault::CannotInfer)
}

/// The refusal of the universe at a type.
pub fn universe_at(state: &mut Examiner, book: &mut Book, ty: NodeId, at: u32) -> Stop {
    match is_universe(state, book, ty, at) {
        Ok(Some(equation)) => Stop::refused(at, CheckFault::UInU(equation)),
        Ok(None) => cannot_infer(at),
        Err(stop) => stop,
    }
}

/// The equation of a type and the universe, if that is its head.
fn is_universe(
    state: &mut Examiner,
    book: &mut Book,
    ty: NodeId,
    at: u32,
) -> Result<Option<NodeId>, Stop> {
    let shape = state.shape(book, at, ty)?;
    match shape.head {
        Head::Universe => Ok(Some(shape.equation(book)?)),
        _ => Ok(None),
    }
}

/// The refusal of the universe as one of its members.
pub fn universe_in_itself(state: &mut Examiner, book: &mut Book, at: u32) -> Result<(), Stop> {
    let universe = state.universe(book)?;
    let equation = reflexive(book, universe)?;
    Err(Stop::refused(at, CheckFault::UInU(equation)))
}
