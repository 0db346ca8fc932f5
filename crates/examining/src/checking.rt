//! How each form of a code is checked at a type, and taken as a type.

use crate::inferring::is_former;
use book::{Book, NodeId};
use codes::Code;
use examining_forms::{universe_at, universe_in_itself};
use examining_state::{
    Binding, Comparing, Defining, Examiner, Former, Gluing, Inner, Lining, Pairing, Sort, Stop,
    Task, Tasks, start_of,
};
use std::alloc::AllocError;

/// Whether it is checked by its parts.
fn is_checked(code: &Code) -> bool {
    matches!(
        code,
        Code::Let { .. }
            | Code::Lambda { .. }
            | Code::PathLambda { .. }
            | Code::Tuple { .. }
            | Code::GlueTerm { .. }
    )
}

/// Whether it is `suc` without an argument, which spells a function and its domain at once.
fn is_successor(code: &Code) -> bool {
    match code {
        Code::Lambda { span, binders, .. } => match binders.as_slice() {
            [binder] => start_of(&binder.ty) == span.start,
            _ => false,
        },
        _ => false,
    }
}

/// Checks a code at a type.
pub(crate) fn check<'a>(
    state: &mut Examiner,
    book: &mut Book,
    tasks: &mut Tasks<'a>,
    code: &'a Code,
    ty: NodeId,
) -> Result<(), Stop> {
    if let Code::Universe { span } = code {
        return Err(universe_at(state, book, ty, span.start));
    }
    if is_checked(code) && !is_successor(code) {
        return Ok(by_parts(tasks, code, ty)?);
    }
    let compare = Task::Comparing(Comparing::At(ty, start_of(code)));
    Ok(tasks.plan(&[Task::Infer(code), compare])?)
}

/// What is to be done to check a code by its parts.
fn by_parts<'a>(tasks: &mut Tasks<'a>, code: &'a Code, ty: NodeId) -> Result<(), AllocError> {
    match code {
        Code::Let { locals, body, .. } => tasks.plan(&[
            Task::Defining(Defining::Block(locals)),
            Task::Check(body, ty),
            Task::Defining(Defining::End(locals.len())),
        ]),
        Code::Lambda {
            span,
            binders,
            body,
        } => { tasks.plan(&[Task::Binding(Binding::Lambda(binders, body, ty, span.start))]) }
        Code::Tuple { span, components } => {
            tasks.plan(&[Task::Pairing(Pairing::Components(components, ty, span.start))])
        }
        Code::PathLambda { span, names, body } => {
            tasks.plan(&[Task::Pairing(Pairing::Names(*names, body, ty, span.start))])
        }
        Code::GlueTerm { .. } => tasks.plan(&[Task::Gluing(code, Gluing::Element(ty))]),
        _ => Ok(()),
    }
}

/// Takes a code as a type, or checks it at the universe.
pub(crate) fn form<'a>(
    state: &mut Examiner,
    book: &mut Book,
    tasks: &mut Tasks<'a>,
    code: &'a Code,
    sort: Sort,
) -> Result<(), Stop> {
    if let Code::Universe { span } = code {
        return universe(state, book, sort, span.start);
    }
    if is_former(code) {
        return Ok(former(tasks, code, sort)?);
    }
    if let Code::Let { locals, body, .. } = code {
        return Ok(tasks.plan(&[
            Task::Defining(Defining::Block(locals)),
            Task::Form(body, sort),
            Task::Defining(Defining::End(locals.len())),
        ])?);
    }
    match sort {
        Sort::Large => {
            let small = Task::Comparing(Comparing::IsSmall(Sort::Large, start_of(code)));
            Ok(tasks.plan(&[Task::Infer(code), small])?)
        }
        Sort::Small => {
            let ty = state.universe(book)?;
            Ok(tasks.plan(&[Task::Check(code, ty)])?)
        }
    }
}

/// The universe, as a type.
fn universe(state: &mut Examiner, book: &mut Book, sort: Sort, at: u32) -> Result<(), Stop> {
    match sort {
        Sort::Large => {
            let ty = state.universe(book)?;
            Ok(state.found(ty)?)
        }
        Sort::Small => universe_in_itself(state, book, at),
    }
}

/// What is to be done to take as a type what is formed of types.
fn former<'a>(tasks: &mut Tasks<'a>, code: &'a Code, sort: Sort) -> Result<(), AllocError> {
    match code {
        Code::Pi { binders, body, .. } => tasks.plan(&[Task::Binding(Binding::Under(
            binders,
            Inner::Family(Former::Pi, sort, body),
        ))]),
        Code::Sigma { binders, body, .. } => tasks.plan(&[Task::Binding(Binding::Under(
            binders,
            Inner::Family(Former::Sigma, sort, body),
        ))]),
        Code::PathP {
            line,
            left,
            right,
            ..
        } => tasks.plan(&[
            Task::Lining(Lining::Line(line, sort)),
            Task::Lining(Lining::Left(left)),
            Task::Lining(Lining::Right(right)),
            Task::Lining(Lining::ClosePath(sort)),
        ]),
        Code::GlueType { base, .. } => tasks.plan(&[
            Task::Form(base, sort),
            Task::Gluing(code, Gluing::Start(sort)),
        ]),
        _ => Ok(()),
    }
}
