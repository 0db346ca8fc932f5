//! Lines, and types of paths.

use crate::eliminations::path_at;
use book::{Book, NodeId};
use codes::{Code, Opened};
use eliminators::{as_type, type_under};
use examining_state::{Comparing, Examiner, Head, Inferred, Kind, Lining, Sort, Stop, Task, Tasks};
use rows::Maker;
use std::alloc::AllocError;
use tested_steps::{Fault, derive};
use typing_rules::{
    LINE_ENDS, LINE_ENDS_GIVES, PATH_SMALL, PATH_SMALL_GIVES, PATH_TYPE, PATH_TYPE_GIVES,
};
use values::term_under;

/// What is asked of lines and types of paths.
pub fn lining<'a>(
    state: &mut Examiner,
    book: &mut Book,
    tasks: &mut Tasks<'a>,
    lining: Lining<'a>,
) -> Result<(), Stop> {
    match lining {
        Lining::Line(line, sort) => Ok(form_line(tasks, line, sort)?),
        Lining::EnterName => Ok(state.enter_name(book)?),
        Lining::Leave => {
            state.leave();
            Ok(())
        }
        Lining::AtName(at) => at_name(state, book, at),
        Lining::Left(code) => left_end(state, book, tasks, code),
        Lining::Right(code) => right_end(state, book, tasks, code),
        Lining::ClosePath(sort) => Ok(close_path(state, book, sort)?),
    }
}

/// A line, under a name.
fn form_line<'a>(tasks: &mut Tasks<'a>, line: &'a Opened, sort: Sort) -> Result<(), AllocError> {
    let enter = Task::Lining(Lining::EnterName);
    let leave = Task::Lining(Lining::Leave);
    match line {
        Opened::Under(_, code) => tasks.plan(&[enter, Task::Form(code, sort), leave]),
        Opened::Applied(span, code) => tasks.plan(&[
            Task::Infer(code),
            enter,
            Task::Lining(Lining::AtName(span.start)),
            Task::Comparing(Comparing::IsSmall(sort, span.start)),
            leave,
        ]),
    }
}

/// A path that was inferred last outside, at the new name.
fn at_name(state: &mut Examiner, book: &mut Book, at: u32) -> Result<(), Stop> {
    let head = state.take_head()?;
    let here = state.view(book)?;
    let term = term_under(book, here.out, head.term)?;
    let ty = type_under(book, here.out, head.ty)?;
    let shape = state.shape(book, at, ty)?;
    let Head::Path(line) = shape.head else {
        return Err(state.wanted(book, at, Kind::Path, ty));
    };
    let path = shape.opened(book, term)?;
    let name = book.var(0)?;
    let Inferred { term, ty } = path_at(book, line, path, name)?;
    Ok(state.inferred(term, ty)?)
}

/// The types of the ends of paths over a line.
fn ends_of(state: &Examiner, book: &mut Book, line: NodeId) -> Result<[NodeId; 2], Fault> {
    let line = as_type(book, line)?;
    let premises = [state.ctx()];
    let [start, end]: [NodeId; 2] = derive(book, LINE_ENDS, LINE_ENDS_GIVES, &[], &premises)?;
    Ok([type_under(book, start, line)?, type_under(book, end, line)?])
}

/// A code at the start of the line that was found last.
fn left_end<'a>(
    state: &mut Examiner,
    book: &mut Book,
    tasks: &mut Tasks<'a>,
    code: &'a Code,
) -> Result<(), Stop> {
    let line = state.last_node()?;
    let [ty, _] = ends_of(state, book, line)?;
    Ok(tasks.plan(&[Task::Check(code, ty)])?)
}

/// A code at the end of the line that was found before the left end.
fn right_end<'a>(
    state: &mut Examiner,
    book: &mut Book,
    tasks: &mut Tasks<'a>,
    code: &'a Code,
) -> Result<(), Stop> {
    let left = state.take_node()?;
    let line = state.last_node()?;
    state.found(left)?;
    let [_, ty] = ends_of(state, book, line)?;
    Ok(tasks.plan(&[Task::Check(code, ty)])?)
}

/// The type of paths over the line and between the ends that were found last.
fn close_path(state: &mut Examiner, book: &mut Book, sort: Sort) -> Result<(), Fault> {
    let right = state.take_node()?;
    let left = state.take_node()?;
    let line = state.take_node()?;
    let premises = [line, left, right];
    let [node]: [NodeId; 1] = match sort {
        Sort::Large => derive(book, PATH_TYPE, PATH_TYPE_GIVES, &[], &premises)?,
        Sort::Small => derive(book, PATH_SMALL, PATH_SMALL_GIVES, &[], &premises)?,
    };
    Ok(state.found(node)?)
}
