//! Recursion over numbers.

use crate::eliminations::applied;
use book::{Book, NodeId};
use codes::{Code, Opened};
use eliminators::type_under;
use examining_state::{
    Comparing, Examiner, Head, Inferred, Kind, Lining, Recurring, Sort, Stop, Task, Tasks,
};
use std::alloc::AllocError;
use tested_steps::{Fault, derive};
use typing_rules::{
    MOTIVE_START, MOTIVE_START_GIVES, MOTIVE_STEP, MOTIVE_STEP_GIVES, RECURSION, RECURSION_GIVES,
};
use values::term_under;

/// The parts of a recursion.
#[derive(Clone, Copy)]
struct Parts<'a> {
    motive: &'a Opened,
    base: &'a Code,
    step: &'a Code,
    argument: &'a Code,
}

/// The parts of a recursion.
fn parts_of(code: &Code) -> Result<Parts<'_>, Fault> {
    match code {
        Code::NatRec {
            motive,
            base,
            step,
            argument,
            ..
        } => Ok(Parts {
            motive,
            base,
            step,
            argument,
        }),
        _ => Err(Fault::Misfit),
    }
}

/// What is asked of a recursion.
pub fn recurring<'a>(
    state: &mut Examiner,
    book: &mut Book,
    tasks: &mut Tasks<'a>,
    code: &'a Code,
    recurring: Recurring,
) -> Result<(), Stop> {
    let parts = parts_of(code)?;
    match recurring {
        Recurring::Motive => Ok(form_motive(tasks, code, parts.motive)?),
        Recurring::EnterNumber => {
            let [_, ty] = state.numbers(book)?;
            Ok(state.enter(book, ty)?)
        }
        Recurring::AtNumber(at) => at_number(state, book, at),
        Recurring::Base => base(state, book, tasks, parts.base),
        Recurring::Step => step(state, book, tasks, parts.step),
        Recurring::Number => {
            let [_, ty] = state.numbers(book)?;
            Ok(tasks.plan(&[Task::Check(parts.argument, ty)])?)
        }
        Recurring::Close => Ok(close(state, book)?),
    }
}

/// The motive of a recursion, under a number.
fn form_motive<'a>(
    tasks: &mut Tasks<'a>,
    code: &'a Code,
    motive: &'a Opened,
) -> Result<(), AllocError> {
    let leave = Task::Lining(Lining::Leave);
    let enter = Task::Recurring(code, Recurring::EnterNumber);
    match motive {
        Opened::Under(_, inner) => tasks.plan(&[enter, Task::Form(inner, Sort::Large), leave]),
        Opened::Applied(span, outer) => tasks.plan(&[
            Task::Infer(outer),
            enter,
            Task::Recurring(code, Recurring::AtNumber(span.start)),
            Task::Comparing(Comparing::IsSmall(Sort::Large, span.start)),
            leave,
        ]),
    }
}

/// A family that was inferred last outside, at the new number.
fn at_number(state: &mut Examiner, book: &mut Book, at: u32) -> Result<(), Stop> {
    let head = state.take_head()?;
    let here = state.view(book)?;
    let term = term_under(book, here.out, head.term)?;
    let ty = type_under(book, here.out, head.ty)?;
    let shape = state.shape(book, at, ty)?;
    let Head::Function(family) = shape.head else {
        return Err(state.wanted(book, at, Kind::Function, ty));
    };
    let function = shape.opened(book, term)?;
    let number = state.variable(book, 0)?;
    let domain = type_under(book, family.sub, family.domain)?;
    let number = state.term_at(book, at, number.term, [number.ty, domain])?;
    let Inferred { term, ty } = applied(book, family, function, number)?;
    Ok(state.inferred(term, ty)?)
}

/// The base, where the motive was found last.
fn base<'a>(
    state: &mut Examiner,
    book: &mut Book,
    tasks: &mut Tasks<'a>,
    code: &'a Code,
) -> Result<(), Stop> {
    let motive = state.last_node()?;
    let premises = [state.ctx()];
    let [start]: [NodeId; 1] = derive(book, MOTIVE_START, MOTIVE_START_GIVES, &[], &premises)?;
    let ty = type_under(book, start, motive)?;
    Ok(tasks.plan(&[Task::Check(code, ty)])?)
}

/// The step, where the motive and the base were found last.
fn step<'a>(
    state: &mut Examiner,
    book: &mut Book,
    tasks: &mut Tasks<'a>,
    code: &'a Code,
) -> Result<(), Stop> {
    let base = state.take_node()?;
    let motive = state.last_node()?;
    state.found(base)?;
    let premises = [state.ctx(), motive];
    let [ty]: [NodeId; 1] = derive(book, MOTIVE_STEP, MOTIVE_STEP_GIVES, &[], &premises)?;
    Ok(tasks.plan(&[Task::Check(code, ty)])?)
}

/// The recursion of the motive, the base, the step and the number that were found last.
fn close(state: &mut Examiner, book: &mut Book) -> Result<(), Fault> {
    let number = state.take_node()?;
    let step = state.take_node()?;
    let base = state.take_node()?;
    let motive = state.take_node()?;
    let premises = [state.ctx(), motive, base, step, number];
    let [term, pushed]: [NodeId; 2] = derive(book, RECURSION, RECURSION_GIVES, &[], &premises)?;
    let ty = type_under(book, pushed, motive)?;
    Ok(state.inferred(term, ty)?)
}
