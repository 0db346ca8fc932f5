//! Functions against types.

use crate::functions::function;
use book::{Book, NodeId};
use codes::{Binder, Code};
use conversion_rules::{ENTERED_ALONG, ENTERED_ALONG_GIVES, PI_EQUAL, PI_EQUAL_GIVES};
use eliminators::type_under;
use examining_state::{Binding, Examiner, Head, Kind, Shape, Sort, Stop, Task, Tasks};
use joined_sides::{fitted, reflexive};
use tested_steps::{Fault, derive, same_sides};
use typed_nodes::Family;

/// The form of a type of functions.
fn functions_of(state: &mut Examiner, book: &mut Book, ty: NodeId, at: u32) -> Result<Shape, Stop> {
    let shape = state.shape(book, at, ty)?;
    match shape.head {
        Head::Function(_) => Ok(shape),
        _ => Err(state.wanted(book, at, Kind::Function, ty)),
    }
}

/// A function of binders, against a type.
pub(crate) fn lambda<'a>(
    state: &mut Examiner,
    book: &mut Book,
    tasks: &mut Tasks<'a>,
    binders: &'a [Binder],
    code: &'a Code,
    ty: NodeId,
    at: u32,
) -> Result<(), Stop> {
    let [binder, rest @ ..] = binders else {
        return Ok(tasks.plan(&[Task::Check(code, ty)])?);
    };
    let shape = functions_of(state, book, ty, at)?;
    Ok(tasks.plan(&[
        Task::Form(&binder.ty, Sort::Large),
        Task::Binding(Binding::Take(binder.names, rest, code, shape, at)),
    ])?)
}

/// Goes under a variable of the type that was found last, which stays, where that is the domain of
/// a type of functions: the equation of the two, and the type of what stands there.
fn take_variable(
    state: &mut Examiner,
    book: &mut Book,
    family: Family,
    at: u32,
) -> Result<[NodeId; 2], Stop> {
    let Family {
        domain,
        codomain,
        sub,
    } = family;
    let written = state.last_node()?;
    let wanted = type_under(book, sub, domain)?;
    let equation = state.matched(book, at, written, wanted)?;
    let premises = [state.ctx(), sub, domain, written, equation];
    let [along]: [NodeId; 1] = derive(book, ENTERED_ALONG, ENTERED_ALONG_GIVES, &[], &premises)?;
    state.enter(book, written)?;
    let rest = type_under(book, along, codomain)?;
    Ok([equation, rest])
}

/// A function of so many variables of the type that was found last, and then of binders.
pub(crate) fn take<'a>(
    state: &mut Examiner,
    book: &mut Book,
    tasks: &mut Tasks<'a>,
    count: usize,
    binders: &'a [Binder],
    code: &'a Code,
    shape: Shape,
    at: u32,
) -> Result<(), Stop> {
    let Head::Function(family) = shape.head else {
        return Err(Stop::NotTaken(Fault::Misfit));
    };
    let domain = state.last_node()?;
    let [equation, rest] = take_variable(state, book, family, at)?;
    let close = Task::Binding(Binding::CloseFunction(shape, equation, rest));
    if count <= 1 {
        let inner = Task::Binding(Binding::Lambda(binders, code, rest, at));
        return Ok(tasks.plan(&[inner, close])?);
    }
    let here = state.view(book)?;
    let lifted = type_under(book, here.out, domain)?;
    state.found(lifted)?;
    let shape = functions_of(state, book, rest, at)?;
    let inner = Task::Binding(Binding::Take(count - 1, binders, code, shape, at));
    Ok(tasks.plan(&[inner, close])?)
}

/// A function of the last variable, at a type of functions.
pub(crate) fn close_function(
    state: &mut Examiner,
    book: &mut Book,
    shape: Shape,
    domains: NodeId,
    codomain: NodeId,
) -> Result<(), Fault> {
    let body = state.take_node()?;
    let domain = state.take_node()?;
    state.leave();
    let mut term = function(book, domain, body)?;
    if !same_sides(book, domains)? {
        let codomains = reflexive(book, codomain)?;
        let premises = [domains, codomains];
        let [types]: [NodeId; 1] = derive(book, PI_EQUAL, PI_EQUAL_GIVES, &[], &premises)?;
        term = fitted(book, term, types)?;
    }
    let term = shape.closed(book, term)?;
    Ok(state.found(term)?)
}
