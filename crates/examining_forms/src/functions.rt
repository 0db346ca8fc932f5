//! Types of functions and pairs, and functions that are inferred.

use crate::lambdas::{close_function, lambda, take};
use book::{Book, NodeId};
use codes::Binder;
use eliminators::as_type;
use examining_state::{
    Binding, Closing, Defining, Examiner, Former, Inferred, Inner, Sort, Stop, Task, Tasks,
};
use std::alloc::AllocError;
use tested_steps::{Fault, derive};
use typing_rules::{
    FUNCTION, FUNCTION_GIVES, PI_SMALL, PI_SMALL_GIVES, PI_TYPE, PI_TYPE_GIVES, SIG_SMALL,
    SIG_SMALL_GIVES, SIG_TYPE, SIG_TYPE_GIVES,
};
use values::term_under;

/// What is asked of types of functions and pairs, and of functions.
pub fn binding<'a>(
    state: &mut Examiner,
    book: &mut Book,
    tasks: &mut Tasks<'a>,
    binding: Binding<'a>,
) -> Result<(), Stop> {
    match binding {
        Binding::Under(binders, inner) => Ok(under(tasks, binders, inner)?),
        Binding::Over(count, binders, inner) => over(state, book, tasks, count, binders, inner),
        Binding::Close(closing) => Ok(close(state, book, closing)?),
        Binding::Lambda(binders, code, ty, at) => {
            lambda(state, book, tasks, binders, code, ty, at)
        }
        Binding::Take(count, binders, code, shape, at) => {
            take(state, book, tasks, count, binders, code, shape, at)
        }
        Binding::CloseFunction(shape, domains, codomain) => {
            Ok(close_function(state, book, shape, domains, codomain)?)
        }
    }
}

/// What stands under binders.
fn under<'a>(
    tasks: &mut Tasks<'a>,
    binders: &'a [Binder],
    inner: Inner<'a>,
) -> Result<(), AllocError> {
    match (binders, inner) {
        ([], Inner::Family(_, sort, code)) => tasks.plan(&[Task::Form(code, sort)]),
        ([], Inner::Function(code)) => tasks.plan(&[Task::Infer(code)]),
        ([], Inner::Definition(def)) => tasks.plan(&[
            Task::Form(&def.ty, Sort::Large),
            Task::Defining(Defining::Body(&def.body)),
        ]),
        ([binder, rest @ ..], _) => tasks.plan(&[
            Task::Form(&binder.ty, inner.sort()),
            Task::Binding(Binding::Over(binder.names, rest, inner)),
        ]),
    }
}

/// What stands under so many variables of the type that was found last, and then binders.
fn over<'a>(
    state: &mut Examiner,
    book: &mut Book,
    tasks: &mut Tasks<'a>,
    count: usize,
    binders: &'a [Binder],
    inner: Inner<'a>,
) -> Result<(), Stop> {
    if count == 0 {
        let _ty = state.take_node()?;
        return Ok(tasks.plan(&[Task::Binding(Binding::Under(binders, inner))])?);
    }
    let found = state.last_node()?;
    let ty = as_type(book, found)?;
    state.enter(book, ty)?;
    let close = Task::Binding(Binding::Close(inner.closing()));
    if count == 1 {
        return Ok(tasks.plan(&[Task::Binding(Binding::Under(binders, inner)), close])?);
    }
    let here = state.view(book)?;
    let lifted = term_under(book, here.out, found)?;
    state.found(lifted)?;
    let rest = Task::Binding(Binding::Over(count - 1, binders, inner));
    Ok(tasks.plan(&[rest, close])?)
}

/// What is formed over the last variable.
fn close(state: &mut Examiner, book: &mut Book, closing: Closing) -> Result<(), Fault> {
    match closing {
        Closing::Family(former, sort) => close_family(state, book, former, sort),
        Closing::Function => close_inferred(state, book),
        Closing::Definition => close_stated(state, book),
    }
}

/// A type of functions or pairs, over the last variable.
fn close_family(
    state: &mut Examiner,
    book: &mut Book,
    former: Former,
    sort: Sort,
) -> Result<(), Fault> {
    let codomain = state.take_node()?;
    let domain = state.take_node()?;
    state.leave();
    let premises = [domain, codomain];
    let [node]: [NodeId; 1] = match (former, sort) {
        (Former::Pi, Sort::Large) => derive(book, PI_TYPE, PI_TYPE_GIVES, &[], &premises)?,
        (Former::Pi, Sort::Small) => derive(book, PI_SMALL, PI_SMALL_GIVES, &[], &premises)?,
        (Former::Sigma, Sort::Large) => derive(book, SIG_TYPE, SIG_TYPE_GIVES, &[], &premises)?,
        (Former::Sigma, Sort::Small) => derive(book, SIG_SMALL, SIG_SMALL_GIVES, &[], &premises)?,
    };
    Ok(state.found(node)?)
}

/// `H >> lam A b : pi A B`, of `H >> A` and `H.A >> b : B`.
pub(crate) fn function(book: &mut Book, domain: NodeId, body: NodeId) -> Result<NodeId, Fault> {
    let premises = [domain, body];
    let [term]: [NodeId; 1] = derive(book, FUNCTION, FUNCTION_GIVES, &[], &premises)?;
    Ok(term)
}

/// `H >> pi A B`, of `H >> A` and `H.A >> B`.
fn pi_type(book: &mut Book, domain: NodeId, codomain: NodeId) -> Result<NodeId, Fault> {
    let premises = [domain, codomain];
    let [ty]: [NodeId; 1] = derive(book, PI_TYPE, PI_TYPE_GIVES, &[], &premises)?;
    Ok(ty)
}

/// A function of the last variable, whose body was inferred last.
fn close_inferred(state: &mut Examiner, book: &mut Book) -> Result<(), Fault> {
    let Inferred { term, ty } = state.take_head()?;
    let domain = state.take_node()?;
    state.leave();
    let term = function(book, domain, term)?;
    let ty = pi_type(book, domain, ty)?;
    Ok(state.inferred(term, ty)?)
}

/// The type and the body of a definition, over the last variable.
fn close_stated(state: &mut Examiner, book: &mut Book) -> Result<(), Fault> {
    let body = state.take_node()?;
    let codomain = state.take_node()?;
    let domain = state.take_node()?;
    state.leave();
    let ty = pi_type(book, domain, codomain)?;
    let body = function(book, domain, body)?;
    state.found(ty)?;
    Ok(state.found(body)?)
}
