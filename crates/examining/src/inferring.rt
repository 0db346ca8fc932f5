//! How each form of a code is inferred.

use book::{Book, NodeId};
use codes::Code;
use examining_forms::cannot_infer;
use examining_state::{
    Binding, Comparing, Composing, Defining, Eliminating, Examiner, Gluing, Inferred, Inner,
    Lining, Recurring, Sort, Stop, Task, Tasks, start_of,
};
use std::alloc::AllocError;
use tested_steps::{Fault, derive};
use typing_rules::{ZERO_TERM, ZERO_TERM_GIVES};

/// Whether it is a variable, a defined name, or a number's type or zero.
fn is_atom(code: &Code) -> bool {
    matches!(
        code,
        Code::Bound { .. } | Code::Defined { .. } | Code::Nat { .. } | Code::Zero { .. }
    )
}

/// Whether its type is never inferred.
fn is_checked_only(code: &Code) -> bool {
    matches!(
        code,
        Code::PathLambda { .. } | Code::Tuple { .. } | Code::GlueTerm { .. } | Code::Universe { .. }
    )
}

/// Whether it is a type that is formed of types.
pub(crate) fn is_former(code: &Code) -> bool {
    matches!(
        code,
        Code::Pi { .. } | Code::Sigma { .. } | Code::PathP { .. } | Code::GlueType { .. }
    )
}

/// Whether it is a composition, a filling or a transport.
fn is_composition(code: &Code) -> bool {
    matches!(
        code,
        Code::Comp { .. } | Code::Fill { .. } | Code::Transport { .. }
    )
}

/// Infers a code.
pub(crate) fn infer<'a>(
    state: &mut Examiner,
    book: &mut Book,
    tasks: &mut Tasks<'a>,
    code: &'a Code,
) -> Result<(), Stop> {
    if is_atom(code) {
        let Inferred { term, ty } = atom(state, book, code)?;
        return Ok(state.inferred(term, ty)?);
    }
    if is_checked_only(code) {
        return Err(cannot_infer(start_of(code)));
    }
    if is_former(code) {
        return Ok(tasks.plan(&[
            Task::Form(code, Sort::Small),
            Task::Comparing(Comparing::Small),
        ])?);
    }
    if is_composition(code) {
        return composition(tasks, code);
    }
    if let Code::Suc { argument, .. } = code {
        let [_, ty] = state.numbers(book)?;
        let successor = Task::Eliminating(Eliminating::Successor);
        return Ok(tasks.plan(&[Task::Check(argument, ty), successor])?);
    }
    Ok(compound(tasks, code)?)
}

/// What is inferred at once.
fn atom(state: &mut Examiner, book: &mut Book, code: &Code) -> Result<Inferred, Fault> {
    match code {
        Code::Bound { index, .. } => state.variable(book, *index),
        Code::Defined { number, .. } => state.defined(book, *number),
        Code::Nat { .. } => {
            let [term, _] = state.numbers(book)?;
            let ty = state.universe(book)?;
            Ok(Inferred { term, ty })
        }
        Code::Zero { .. } => {
            let premises = [state.ctx()];
            let [term]: [NodeId; 1] = derive(book, ZERO_TERM, ZERO_TERM_GIVES, &[], &premises)?;
            let [_, ty] = state.numbers(book)?;
            Ok(Inferred { term, ty })
        }
        _ => Err(Fault::Misfit),
    }
}

/// What is to be done to infer a composition, a filling or a transport: first its line.
fn composition<'a>(tasks: &mut Tasks<'a>, code: &'a Code) -> Result<(), Stop> {
    let line = match code {
        Code::Comp { line, .. } => line,
        Code::Fill { line, .. } => line,
        Code::Transport { line, .. } => line,
        _ => return Err(Stop::NotTaken(Fault::Misfit)),
    };
    Ok(tasks.plan(&[
        Task::Lining(Lining::Line(line, Sort::Large)),
        Task::Composing(code, Composing::Base),
    ])?)
}

/// What is to be done to infer a form of parts.
fn compound<'a>(tasks: &mut Tasks<'a>, code: &'a Code) -> Result<(), AllocError> {
    match code {
        Code::Let { locals, body, .. } => tasks.plan(&[
            Task::Defining(Defining::Block(locals)),
            Task::Infer(body),
            Task::Defining(Defining::End(locals.len())),
        ]),
        Code::Lambda { binders, body, .. } => tasks.plan(&[Task::Binding(Binding::Under(
            binders,
            Inner::Function(body),
        ))]),
        _ => eliminated(tasks, code),
    }
}

/// What is to be done to infer what takes a term apart.
fn eliminated<'a>(tasks: &mut Tasks<'a>, code: &'a Code) -> Result<(), AllocError> {
    match code {
        Code::NatRec { .. } => tasks.plan(&[
            Task::Recurring(code, Recurring::Motive),
            Task::Recurring(code, Recurring::Base),
            Task::Recurring(code, Recurring::Step),
            Task::Recurring(code, Recurring::Number),
            Task::Recurring(code, Recurring::Close),
        ]),
        Code::Apply {
            span,
            head,
            elements,
        } => tasks.plan(&[
            Task::Infer(head),
            Task::Eliminating(Eliminating::Elements(elements, start_of(head), span.start)),
        ]),
        Code::Project {
            span,
            pair,
            projections,
        } => tasks.plan(&[
            Task::Infer(pair),
            Task::Eliminating(Eliminating::Project(
                projections.as_slice(),
                start_of(pair),
                span.start,
            )),
        ]),
        Code::Unglue { base, .. } => {
            tasks.plan(&[Task::Infer(base), Task::Gluing(code, Gluing::Unglue)])
        }
        _ => Ok(()),
    }
}
