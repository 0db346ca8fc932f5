//! One step of a task, by its family.

ghost use Rattle.std.specs.Prelude.{IfOk};
ghost use Rattle.book.specs.Shown.{Extends};
ghost use Rattle.typing_steps.specs.Steps.{Finishes, MayStep, Steps};
ghost use Rattle.typing_tasks.specs.declared.tasks.Task.TheVariants as task;

use crate::inferring::{check, form, infer};
use book::Book;
use std::alloc::AllocError;
use typing_steps::CheckState;
use typing_tasks::{
    Binding, Comparing, Defining, Eliminating, Lining, Next, Pairing, Recurring, Task, Tasks,
};

/// One step of a task: it is done, or others are planned for it.
pub(crate) fn step<'a>(
    state: &mut CheckState,
    book: &mut Book,
    tasks: &mut Tasks<'a>,
    task: Task<'a>,
) -> Result<Next, AllocError>
    requires { MayStep book.old state.old task }
    ensures extends { Extends book.old book.new }
    ensures steps { IfOk result (Steps book.old book.new state.old state.new
        tasks.old tasks.new task.entry) }
{
    match task {
        Task::Infer(code) => Ok(infer(state, book, tasks, code)?),
        Task::Check(code, ty) => Ok(check(tasks, code, ty)?),
        Task::Form(code, sort) => Ok(form(state, book, tasks, code, sort)?),
        Task::Defining(asked) => Ok(defining(state, book, tasks, asked)?),
        Task::Binding(asked) => Ok(binding(state, book, tasks, asked)?),
        Task::Pairing(asked) => Ok(pairing(state, book, tasks, asked)?),
        Task::Eliminating(asked) => Ok(eliminating(state, book, tasks, asked)?),
        Task::Recurring(asked) => Ok(recurring(state, book, tasks, asked)?),
        Task::Lining(asked) => Ok(lining(state, book, tasks, asked)?),
        Task::Comparing(asked) => Ok(comparing(state, book, asked)?),
    }
}

fn defining<'a>(
    state: &mut CheckState,
    book: &mut Book,
    tasks: &mut Tasks<'a>,
    defining: Defining<'a>,
) -> Result<Next, AllocError>
    requires { MayStep book.old state.old (task.Defining defining) }
    ensures extends { Extends book.old book.new }
    ensures steps { IfOk result (Steps book.old book.new state.old state.new
        tasks.old tasks.new (task.Defining defining.entry)) }
{
    match defining {
        Defining::Block(defs) => Ok(typing_steps::block(tasks, defs)?),
        Defining::Body(code) => Ok(state.body(book, tasks, code)?),
        Defining::Close(number) => Ok(state.close_definition(number)?),
        Defining::End(count) => Ok(state.forget_definitions(count)?),
    }
}

fn binding<'a>(
    state: &mut CheckState,
    book: &mut Book,
    tasks: &mut Tasks<'a>,
    binding: Binding<'a>,
) -> Result<Next, AllocError>
    requires { MayStep book.old state.old (task.Binding binding) }
    ensures extends { Extends book.old book.new }
    ensures steps { IfOk result (Steps book.old book.new state.old state.new
        tasks.old tasks.new (task.Binding binding.entry)) }
{
    match binding {
        Binding::Under(binders, inner) => Ok(typing_steps::under(tasks, binders, inner)?),
        Binding::Over(count, binders, inner) => {
            Ok(state.over(book, tasks, count, binders, inner)?)
        }
        Binding::Close(closing) => Ok(state.close(book, closing)?),
        Binding::Lambda(binders, code, ty) => {
            Ok(typing_steps::lambda(tasks, binders, code, ty)?)
        }
        Binding::Take(count, binders, code, ty) => {
            Ok(state.take(book, tasks, count, binders, code, ty)?)
        }
        Binding::CloseFunction => Ok(state.close_function(book)?),
    }
}

fn pairing<'a>(
    state: &mut CheckState,
    book: &mut Book,
    tasks: &mut Tasks<'a>,
    pairing: Pairing<'a>,
) -> Result<Next, AllocError>
    requires { MayStep book.old state.old (task.Pairing pairing) }
    ensures extends { Extends book.old book.new }
    ensures steps { IfOk result (Steps book.old book.new state.old state.new
        tasks.old tasks.new (task.Pairing pairing.entry)) }
{
    match pairing {
        Pairing::Components(components, ty) => {
            Ok(state.components(book, tasks, components, ty)?)
        }
        Pairing::Second(rest, family) => Ok(state.second(book, tasks, rest, family)?),
        Pairing::Pair(family) => Ok(state.pair(book, family)?),
        Pairing::Names(count, code, ty) => Ok(state.names(book, tasks, count, code, ty)?),
        Pairing::CloseName(ty) => Ok(state.close_name(book, ty)?),
    }
}

fn eliminating<'a>(
    state: &mut CheckState,
    book: &mut Book,
    tasks: &mut Tasks<'a>,
    eliminating: Eliminating<'a>,
) -> Result<Next, AllocError>
    requires { MayStep book.old state.old (task.Eliminating eliminating) }
    ensures extends { Extends book.old book.new }
    ensures steps { IfOk result (Steps book.old book.new state.old state.new
        tasks.old tasks.new (task.Eliminating eliminating.entry)) }
{
    match eliminating {
        Eliminating::Elements(elements) => Ok(state.elements(book, tasks, elements)?),
        Eliminating::Apply(family) => Ok(state.apply(book, family)?),
        Eliminating::Project(projections) => Ok(state.project(book, tasks, projections)?),
        Eliminating::Number(code) => Ok(state.number(book, tasks, code)?),
        Eliminating::Successor => Ok(state.successor_of(book)?),
    }
}

fn recurring<'a>(
    state: &mut CheckState,
    book: &mut Book,
    tasks: &mut Tasks<'a>,
    recurring: Recurring<'a>,
) -> Result<Next, AllocError>
    requires { MayStep book.old state.old (task.Recurring recurring) }
    ensures extends { Extends book.old book.new }
    ensures steps { IfOk result (Steps book.old book.new state.old state.new
        tasks.old tasks.new (task.Recurring recurring.entry)) }
{
    match recurring {
        Recurring::Motive(motive) => Ok(typing_steps::motive(tasks, motive)?),
        Recurring::EnterNumber => Ok(state.enter_number(book)?),
        Recurring::FamilyOfNumbers => Ok(state.family_at_number(book)?),
        Recurring::Base(code) => Ok(state.base(book, tasks, code)?),
        Recurring::Step(code) => Ok(state.step_of(book, tasks, code)?),
        Recurring::Close => Ok(state.close_recursion(book)?),
    }
}

fn lining<'a>(
    state: &mut CheckState,
    book: &mut Book,
    tasks: &mut Tasks<'a>,
    lining: Lining<'a>,
) -> Result<Next, AllocError>
    requires { MayStep book.old state.old (task.Lining lining) }
    ensures extends { Extends book.old book.new }
    ensures steps { IfOk result (Steps book.old book.new state.old state.new
        tasks.old tasks.new (task.Lining lining.entry)) }
{
    match lining {
        Lining::Line(line, sort) => Ok(typing_steps::line(tasks, line, sort)?),
        Lining::EnterName => Ok(state.under_a_name(book)?),
        Lining::Leave => Ok(state.leave_entry()?),
        Lining::PathInUniverse(sort) => Ok(state.path_at_name(book, sort)?),
        Lining::Left(code, sort) => Ok(state.left_end(book, tasks, code, sort)?),
        Lining::Right(code, sort) => Ok(state.right_end(book, tasks, code, sort)?),
        Lining::ClosePath(sort) => Ok(state.close_path(book, sort)?),
        Lining::Transport => Ok(state.transport(book)?),
    }
}

fn comparing(
    state: &mut CheckState,
    book: &mut Book,
    comparing: Comparing,
) -> Result<Next, AllocError>
    requires { MayStep book.old state.old (task.Comparing comparing) }
    ensures extends { Extends book.old book.new }
    ensures done { IfOk result (Finishes book.old book.new state.old state.new
        (task.Comparing comparing)) }
{
    match comparing {
        Comparing::At(ty) => Ok(state.at_type(book, ty)?),
        Comparing::IsSmall => Ok(state.as_small_type(book)?),
        Comparing::Small => Ok(state.small(book)?),
    }
}
