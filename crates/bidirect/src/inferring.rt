//! How each form of a code is inferred, checked, and taken as a type.

ghost use Rattle.std.specs.Prelude.{◌≡◌, ◌≤◌, ◌+◌, IfOk, true};
ghost use Rattle.book.specs.Shown.{Extends};
ghost use Rattle.typing_tasks.specs.Outcomes.{infer as inferred, line_typed, transported, typed};
ghost use Rattle.bidirect.specs.Forms.{AsksNothing, binding_form, checked_form, compound_form};
ghost use Rattle.bidirect.specs.Forms.{former_form, lined_form, universe_form};
ghost use Rattle.typing_steps.specs.Steps.{MayStep, Plans, PlansFor, Steps};
ghost use Rattle.typing_tasks.specs.Weights.{opened_weight, weight, weight_of};
ghost use Rattle.typing_tasks.specs.declared.tasks.Task.{Task as TaskOf};
ghost use Rattle.typing_tasks.specs.declared.tasks.Task.TheVariants.{Check, Form, Infer};

use book::Book;
use codes::{Code, Opened};
use std::alloc::AllocError;
use typed_nodes::{TypeAt, universe_type};
use typing_steps::CheckState;
use typing_tasks::{
    Binding, Comparing, Defining, Eliminating, Former, Inner, Lining, Next, Pairing, Recurring,
    Sort, Task, Tasks,
};

/// Whether it is checked by its parts.
fn is_checked(code: &Code) -> bool
    ensures { result ≡ checked_form code.now }
{
    matches!(
        code,
        Code::Let { .. } | Code::Lambda { .. } | Code::PathLambda { .. } | Code::Tuple { .. }
    )
}

/// Whether it is definitions before a code, a type that binds, or a function.
fn is_binding(code: &Code) -> bool
    ensures { result ≡ binding_form code.now }
{
    matches!(
        code,
        Code::Let { .. } | Code::Pi { .. } | Code::Sigma { .. } | Code::Lambda { .. }
    )
}

/// Whether it is formed of a head or of numbers.
fn is_compound(code: &Code) -> bool
    ensures { result ≡ compound_form code.now }
{
    matches!(
        code,
        Code::Suc { .. } | Code::NatRec { .. } | Code::Apply { .. } | Code::Project { .. }
    )
}

/// Whether it is formed over a line.
fn is_lined(code: &Code) -> bool
    ensures { result ≡ lined_form code.now }
{
    matches!(
        code,
        Code::PathP { .. } | Code::Comp { .. } | Code::Transport { .. }
    )
}

/// What is to be done to check a code at a type.
pub(crate) fn check<'a>(
    tasks: &mut Tasks<'a>,
    code: &'a Code,
    ty: TypeAt,
) -> Result<Next, AllocError>
    ensures { IfOk result (Plans tasks.old tasks.new (Check code.entry ty)) }
{
    if !is_checked(code) {
        return Ok(tasks.plan(&[Task::Infer(code), Task::Comparing(Comparing::At(ty))])?);
    }
    match code {
        Code::Let { locals, body, .. } => Ok(tasks.plan(&[
            Task::Defining(Defining::Block(locals)),
            Task::Check(body, ty),
            Task::Defining(Defining::End(locals.len())),
        ])?),
        Code::Lambda { binders, body, .. } => {
            Ok(tasks.plan(&[Task::Binding(Binding::Lambda(binders, body, ty))])?)
        }
        Code::Tuple { components, .. } => {
            Ok(tasks.plan(&[Task::Pairing(Pairing::Components(components, ty))])?)
        }
        Code::PathLambda { names, body, .. } => {
            Ok(tasks.plan(&[Task::Pairing(Pairing::Names(*names, body, ty))])?)
        }
        _ => unreachable!(),
    }
}

/// Whether it is definitions before a type, or a type of functions, pairs or paths.
fn is_former(code: &Code) -> bool
    ensures { result ≡ former_form code.now }
{
    matches!(
        code,
        Code::Let { .. } | Code::Pi { .. } | Code::Sigma { .. } | Code::PathP { .. }
    )
}

/// Whether it is the universe.
fn is_universe(code: &Code) -> bool
    ensures { result ≡ universe_form code.now }
{
    matches!(code, Code::Universe { .. })
}

/// What is to be done to take such a code as a type.
fn former<'a>(tasks: &mut Tasks<'a>, code: &'a Code, sort: Sort) -> Result<Next, AllocError>
    requires { former_form code.now ≡ true }
    ensures { IfOk result (Plans tasks.old tasks.new (Form code.entry sort)) }
{
    match code {
        Code::Let { locals, body, .. } => Ok(tasks.plan(&[
            Task::Defining(Defining::Block(locals)),
            Task::Form(body, sort),
            Task::Defining(Defining::End(locals.len())),
        ])?),
        Code::Pi { binders, body, .. } => Ok(tasks.plan(&[Task::Binding(Binding::Under(
            binders,
            Inner::Family(Former::Pi, sort, body),
        ))])?),
        Code::Sigma { binders, body, .. } => Ok(tasks.plan(&[Task::Binding(Binding::Under(
            binders,
            Inner::Family(Former::Sigma, sort, body),
        ))])?),
        Code::PathP {
            line,
            left,
            right,
            ..
        } => Ok(tasks.plan(&[
            Task::Lining(Lining::Line(line, sort)),
            Task::Lining(Lining::Left(left, sort)),
            Task::Lining(Lining::Right(right, sort)),
            Task::Lining(Lining::ClosePath(sort)),
        ])?),
        _ => unreachable!(),
    }
}

/// To take a code as a type, or to check it at the universe.
pub(crate) fn form<'a>(
    state: &mut CheckState,
    book: &mut Book,
    tasks: &mut Tasks<'a>,
    code: &'a Code,
    sort: Sort,
) -> Result<Next, AllocError>
    requires { MayStep book.old state.old (Form code sort) }
    ensures extends { Extends book.old book.new }
    ensures steps { IfOk result (Steps book.old book.new state.old state.new
        tasks.old tasks.new (Form code.entry sort)) }
{
    if is_former(code) {
        return Ok(former(tasks, code, sort)?);
    }
    match sort {
        Sort::Large => {
            if is_universe(code) {
                let node = universe_type(book, state.ctx())?;
                state.found(node)?;
                return Ok(Next::Moved);
            }
            Ok(tasks.plan(&[Task::Infer(code), Task::Comparing(Comparing::IsSmall)])?)
        }
        Sort::Small => {
            let ty = state.universe(book)?;
            Ok(tasks.plan(&[Task::Check(code, ty)])?)
        }
    }
}

/// To infer a code.
pub(crate) fn infer<'a>(
    state: &mut CheckState,
    book: &mut Book,
    tasks: &mut Tasks<'a>,
    code: &'a Code,
) -> Result<Next, AllocError>
    requires { MayStep book.old state.old (Infer code) }
    ensures extends { Extends book.old book.new }
    ensures steps { IfOk result (Steps book.old book.new state.old state.new
        tasks.old tasks.new (Infer code.entry)) }
{
    match code {
        Code::Bound { index, .. } => Ok(state.bound(book, *index)?),
        Code::Defined { number, .. } => Ok(state.defined(book, *number)?),
        Code::Nat { .. } => Ok(state.numbers_inferred(book)?),
        Code::Zero { .. } => Ok(state.zero_inferred(book)?),
        _ => Ok(infer_of(tasks, code)?),
    }
}

/// A composition without sides.
fn transport<'a>(
    tasks: &mut Tasks<'a>,
    line: &'a Opened,
    base: &'a Code,
) -> Result<Next, AllocError>
    ensures { (t : TaskOf) → opened_weight line.now + weight_of base.now + 16 ≤ weight t →
        IfOk result (PlansFor tasks.old tasks.new t
        (inferred (transported (line_typed line.now) (typed base.now)))) }
{
    Ok(tasks.plan(&[
        Task::Lining(Lining::Line(line, Sort::Large)),
        Task::Lining(Lining::Left(base, Sort::Large)),
        Task::Lining(Lining::Transport),
    ])?)
}

/// What is to be done to infer a form of parts, which asks nothing of the place.
fn infer_of<'a>(tasks: &mut Tasks<'a>, code: &'a Code) -> Result<Next, AllocError>
    requires { AsksNothing code.now }
    ensures { IfOk result (Plans tasks.old tasks.new (Infer code.entry)) }
{
    if is_binding(code) {
        return Ok(infer_binding(tasks, code)?);
    }
    if is_compound(code) {
        return Ok(infer_compound(tasks, code)?);
    }
    if is_lined(code) {
        return Ok(infer_lined(tasks, code)?);
    }
    Ok(Next::NotDirect)
}

/// Definitions before a code, types that bind, and functions.
fn infer_binding<'a>(tasks: &mut Tasks<'a>, code: &'a Code) -> Result<Next, AllocError>
    requires { binding_form code.now ≡ true }
    ensures { IfOk result (Plans tasks.old tasks.new (Infer code.entry)) }
{
    match code {
        Code::Let { locals, body, .. } => Ok(tasks.plan(&[
            Task::Defining(Defining::Block(locals)),
            Task::Infer(body),
            Task::Defining(Defining::End(locals.len())),
        ])?),
        Code::Pi { binders, body, .. } => Ok(tasks.plan(&[
            Task::Binding(Binding::Under(binders, Inner::Family(Former::Pi, Sort::Small, body))),
            Task::Comparing(Comparing::Small),
        ])?),
        Code::Sigma { binders, body, .. } => Ok(tasks.plan(&[
            Task::Binding(Binding::Under(binders, Inner::Family(Former::Sigma, Sort::Small, body))),
            Task::Comparing(Comparing::Small),
        ])?),
        Code::Lambda { binders, body, .. } => {
            Ok(tasks.plan(&[Task::Binding(Binding::Under(binders, Inner::Function(body)))])?)
        }
        _ => unreachable!(),
    }
}

/// Heads, and numbers.
fn infer_compound<'a>(tasks: &mut Tasks<'a>, code: &'a Code) -> Result<Next, AllocError>
    requires { compound_form code.now ≡ true }
    ensures { IfOk result (Plans tasks.old tasks.new (Infer code.entry)) }
{
    match code {
        Code::Suc { argument, .. } => Ok(tasks.plan(&[
            Task::Eliminating(Eliminating::Number(argument)),
            Task::Eliminating(Eliminating::Successor),
        ])?),
        Code::NatRec {
            motive,
            base,
            step,
            argument,
            ..
        } => Ok(tasks.plan(&[
            Task::Recurring(Recurring::Motive(motive)),
            Task::Recurring(Recurring::Base(base)),
            Task::Recurring(Recurring::Step(step)),
            Task::Eliminating(Eliminating::Number(argument)),
            Task::Recurring(Recurring::Close),
        ])?),
        Code::Apply { head, elements, .. } => Ok(tasks.plan(&[
            Task::Infer(head),
            Task::Eliminating(Eliminating::Elements(elements)),
        ])?),
        Code::Project {
            pair,
            projections,
            ..
        } => Ok(tasks.plan(&[
            Task::Infer(pair),
            Task::Eliminating(Eliminating::Project(projections.as_slice())),
        ])?),
        _ => unreachable!(),
    }
}

/// Types of paths, and compositions without sides.
fn infer_lined<'a>(tasks: &mut Tasks<'a>, code: &'a Code) -> Result<Next, AllocError>
    requires { lined_form code.now ≡ true }
    ensures { IfOk result (Plans tasks.old tasks.new (Infer code.entry)) }
{
    match code {
        Code::PathP {
            line,
            left,
            right,
            ..
        } => Ok(tasks.plan(&[
            Task::Lining(Lining::Line(line, Sort::Small)),
            Task::Lining(Lining::Left(left, Sort::Small)),
            Task::Lining(Lining::Right(right, Sort::Small)),
            Task::Lining(Lining::ClosePath(Sort::Small)),
            Task::Comparing(Comparing::Small),
        ])?),
        Code::Transport { line, base, .. } => Ok(transport(tasks, line, base)?),
        Code::Comp {
            line,
            base,
            sides,
            ..
        } => {
            if sides.is_empty() {
                Ok(transport(tasks, line, base)?)
            } else {
                Ok(Next::NotDirect)
            }
        }
        _ => unreachable!(),
    }
}
