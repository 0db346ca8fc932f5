//! Pairs, against types.

use crate::paths::{close_name, names};
use book::{Book, NodeId};
use codes::Code;
use eliminators::type_under;
use examining_state::{Examiner, Head, Kind, Pairing, Shape, Stop, Task, Tasks};
use tested_steps::{Fault, derive};
use typed_nodes::Family;
use typing_rules::{PAIR_TERM, PAIR_TERM_GIVES, PUSHED, PUSHED_GIVES};

/// What is asked of pairs and paths against types.
pub fn pairing<'a>(
    state: &mut Examiner,
    book: &mut Book,
    tasks: &mut Tasks<'a>,
    pairing: Pairing<'a>,
) -> Result<(), Stop> {
    match pairing {
        Pairing::Components(list, ty, at) => components(state, book, tasks, list, ty, at),
        Pairing::Second(rest, family, at) => second(state, book, tasks, rest, family, at),
        Pairing::Pair(family, shape) => Ok(pair(state, book, family, shape)?),
        Pairing::Names(count, code, ty, at) => names(state, book, tasks, count, code, ty, at),
        Pairing::CloseName(line, shape, at) => close_name(state, book, line, shape, at),
    }
}

/// Components, against a type: the last at what is left of it.
fn components<'a>(
    state: &mut Examiner,
    book: &mut Book,
    tasks: &mut Tasks<'a>,
    list: &'a [Code],
    ty: NodeId,
    at: u32,
) -> Result<(), Stop> {
    let [first, rest @ ..] = list else {
        return Err(Stop::NotTaken(Fault::Misfit));
    };
    if rest.is_empty() {
        return Ok(tasks.plan(&[Task::Check(first, ty)])?);
    }
    let shape = state.shape(book, at, ty)?;
    let Head::Pair(family) = shape.head else {
        return Err(state.wanted(book, at, Kind::Pair, ty));
    };
    let domain = type_under(book, family.sub, family.domain)?;
    Ok(tasks.plan(&[
        Task::Check(first, domain),
        Task::Pairing(Pairing::Second(rest, family, at)),
        Task::Pairing(Pairing::Pair(family, shape)),
    ])?)
}

/// The other components, where the first was found last.
fn second<'a>(
    state: &mut Examiner,
    book: &mut Book,
    tasks: &mut Tasks<'a>,
    rest: &'a [Code],
    family: Family,
    at: u32,
) -> Result<(), Stop> {
    let first = state.last_node()?;
    let premises = [family.sub, family.domain, first];
    let [pushed]: [NodeId; 1] = derive(book, PUSHED, PUSHED_GIVES, &[], &premises)?;
    let ty = type_under(book, pushed, family.codomain)?;
    Ok(tasks.plan(&[Task::Pairing(Pairing::Components(rest, ty, at))])?)
}

/// The pair of the two components that were found last, at a type of pairs.
fn pair(state: &mut Examiner, book: &mut Book, family: Family, shape: Shape) -> Result<(), Fault> {
    let second = state.take_node()?;
    let first = state.take_node()?;
    let premises = [family.sub, family.domain, family.codomain, first, second];
    let [term]: [NodeId; 1] = derive(book, PAIR_TERM, PAIR_TERM_GIVES, &[], &premises)?;
    let term = shape.closed(book, term)?;
    Ok(state.found(term)?)
}
