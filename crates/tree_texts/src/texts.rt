//! The text of the tree of a row.

ghost use Rattle.std.specs.Prelude.{◌≡◌, ◌≤◌, ◌<◌, ◌+◌, ◌-◌, ◌^◌, ◌++◌, OnOk, OnErr, IfOk, length};
ghost use Rattle.std.specs.Prelude.{MatchOption, [], ◌∷◌};
ghost use Rattle.std.specs.List.{All};
ghost use Rattle.trees.specs.Operators.{kids_of};
ghost use Rattle.rows.specs.Views.{IsTree};
ghost use Rattle.rows.specs.Tables.{Grows};
ghost use Rattle.closures.specs.Environments.{deepest, listed, IsWithin};
ghost use Rattle.closures.specs.Shown.{lists};
ghost use Rattle.closures.specs.Closures.{IsClosure, Stands};
ghost use Rattle.side_conditions.specs.Shapes.{tree_of};
ghost use Rattle.tree_texts.specs.Show.{shown};
ghost use Rattle.tree_texts.specs.Layouts.{text_as};
ghost use Rattle.tree_texts.specs.declared.tasks.Task.TheVariants as task;
ghost use Rattle.tree_texts.specs.declared.words.Form.TheVariants as form;
ghost use Rattle.tree_texts.specs.declared.words.Sort.TheVariants as sort;
ghost use Rattle.tree_texts.specs.declared.words.Phrase.TheVariants as phrase;
ghost use Rattle.tree_texts.specs.Layouts as layouts;
ghost use Rattle.tree_frames.specs.Frames.{FrameStands, IsKidAt};
ghost use Rattle.tree_texts.specs.Tasks.{Leaves, Opens, TaskStands};
ghost use Rattle.tree_frames.specs.Frames.{tree_in};
ghost use Rattle.tree_texts.specs.Tasks.{LeavesParts, IsSide, HasNoSide, sides_task};

use crate::tasks::{Sides, Task};
use crate::words::{
    Form, Phrase, Sort, Style, after_kid, append_arrow, append_opening, append_variable, begin_of,
    end_of, form_of, kid_sort, words_of,
};
use closures::{Closure, Environments, Head, head_of, kid};
use rows::{Reader, TermId};
use std::alloc::{AllocError, Global};
use tree_frames::{Frame, kid_of};
use trees::{Op, binds, kid_count};

/// Leaves the kids of a frame to do, from its place on.
fn leave<'a, R: Reader>(
    rows: &R,
    environments: &Environments,
    tasks: &mut Vec<Task<'a>>,
    frame: Frame<'a>,
) -> Result<(), AllocError>
    requires stands { FrameStands (R.means rows.now) (lists environments.now) (deepest - 1) frame }
    requires place { frame.at ≤ kids_of frame.op }
    requires few { frame.level + 1 < 2 ^ 64 }
    ensures { OnOk result (Leaves (R.means rows.now) (lists environments.now) frame.entry
        tasks.old.items tasks.new.items) }
{
    if frame.at < kid_count(frame.op) {
        tasks.push(Task::Rest(frame))?;
        let row = frame.kids[frame.at as usize];
        let closure = kid(environments, frame.op, frame.at, row, frame.environment);
        let level = frame.level + u64::from(binds(frame.op, frame.at));
        tasks.push(Task::Write(kid_sort(frame.op, frame.at), level, closure))?;
    }
    Ok(())
}

/// Leaves a term and a system to do, the last parts of a text.
fn leave_system<'a>(
    tasks: &mut Vec<Task<'a>>,
    level: u64,
    base: Closure,
    sides: Sides,
) -> Result<(), AllocError>
    ensures { OnOk result (tasks.new.items ≡ tasks.old.items ++ (task.Say phrase.Close
        ∷ task.System sides ∷ task.Say phrase.Space ∷ task.Write sort.Term level base ∷ [])) }
{
    tasks.extend_from_slice(&[
        Task::Say(Phrase::Close),
        Task::System(sides),
        Task::Say(Phrase::Space),
        Task::Write(Sort::Term, level, base),
    ])?;
    Ok(())
}

/// Leaves the parts of a term with a system to do.
fn leave_parts<'a, R: Reader>(
    rows: &R,
    environments: &Environments,
    tasks: &mut Vec<Task<'a>>,
    frame: &Frame<'a>,
) -> Result<(), AllocError>
    requires stands { FrameStands (R.means rows.now) (lists environments.now) (deepest - 1)
        frame.now }
    requires few { frame.now.level + 1 < 2 ^ 64 }
    requires form { layouts.form_of frame.now.op ≡ form.WithSystem }
    ensures { OnOk result (LeavesParts (R.means rows.now) (lists environments.now) frame.now
        tasks.old.items tasks.new.items) }
{
    let level = frame.level;
    match frame.op {
        Op::Comp => {
            let line = kid_of(rows, environments, frame, 0);
            let body = kid_of(rows, environments, frame, 2);
            let base = kid_of(rows, environments, frame, 3);
            let sides = Sides {
                style: Style::Lines,
                level,
                body,
                second: body,
            };
            tasks.extend_from_slice(&[
                Task::Say(Phrase::Close),
                Task::System(sides),
                Task::Say(Phrase::Space),
                Task::Write(Sort::Term, level, base),
                Task::Say(Phrase::EndLine),
                Task::Write(Sort::Term, level + 1, line),
            ])?;
            Ok(())
        }
        Op::GlueType => {
            let base = kid_of(rows, environments, frame, 0);
            let body = kid_of(rows, environments, frame, 2);
            let second = kid_of(rows, environments, frame, 3);
            let sides = Sides {
                style: Style::Pairs,
                level,
                body,
                second,
            };
            Ok(leave_system(tasks, level, base, sides)?)
        }
        Op::Glue => {
            let base = kid_of(rows, environments, frame, 2);
            let body = kid_of(rows, environments, frame, 1);
            let sides = Sides {
                style: Style::Terms,
                level,
                body,
                second: body,
            };
            Ok(leave_system(tasks, level, base, sides)?)
        }
        Op::Unglue => {
            let base = kid_of(rows, environments, frame, 3);
            let body = kid_of(rows, environments, frame, 1);
            let second = kid_of(rows, environments, frame, 2);
            let sides = Sides {
                style: Style::Pairs,
                level,
                body,
                second,
            };
            Ok(leave_system(tasks, level, base, sides)?)
        }
        _ => Ok(()),
    }
}

/// The parts of the first side of a system, and the sides after it.
#[derive(Clone, Copy, Debug)]
struct Side {
    face: Closure,
    term: Closure,
    rest: Closure,
}

/// The first side of a system, if it has one.
fn side_of<R: Reader>(
    rows: &R,
    environments: &mut Environments,
    body: Closure,
) -> Result<Option<Side>, AllocError>
    requires stands { IsClosure (R.means rows.now) (lists environments.old) (deepest - 1) body }
    ensures grows { Grows (lists environments.old) (lists environments.new) }
    ensures side { let f = R.means rows.now in let old = lists environments.old in
        IfOk result (λ found. MatchOption found (HasNoSide (tree_in f old body))
        (λ side. IsSide f old (lists environments.new) body side.face side.term side.rest)) }
{
    match head_of(rows, environments, body)? {
        Head::Make(Op::Sys, kids, environment) => {
            let frame = Frame {
                op: Op::Sys,
                at: 0,
                kids,
                environment,
                level: 0,
            };
            Ok(Some(Side {
                face: kid_of(rows, environments, &frame, 0),
                term: kid_of(rows, environments, &frame, 2),
                rest: kid_of(rows, environments, &frame, 3),
            }))
        }
        Head::Make(_, _, _) | Head::Var(_) => Ok(None),
    }
}

/// Writes the beginning of a side, or the end of a system, and leaves the rest of it to do.
fn open_sides<'a, R: Reader>(
    rows: &'a R,
    environments: &mut Environments,
    tasks: &mut Vec<Task<'a>>,
    first: bool,
    sides: Sides,
    into: &mut Vec<u8>,
) -> Result<(), AllocError>
    requires body { IsClosure (R.means rows.now) (lists environments.old) (deepest - 1) sides.body }
    requires second { IsClosure (R.means rows.now) (lists environments.old) (deepest - 1)
        sides.second }
    requires few { sides.level + 1 < 2 ^ 64 }
    ensures grows { OnOk result (Grows (lists environments.old) (lists environments.new)) }
    ensures opens { OnOk result (Opens (R.means rows.now) (lists environments.old)
        (lists environments.new) (sides_task first sides)
        into.old.items into.new.items tasks.old.items tasks.new.items) }
{
    let Sides {
        style,
        level,
        body,
        second,
    } = sides;
    let Some(side) = side_of(rows, environments, body)? else {
        return Ok(into.extend_from_slice(end_of(first))?);
    };
    match style {
        Style::Lines => {
            into.extend_from_slice(begin_of(first))?;
            let further = Sides {
                style,
                level,
                body: side.rest,
                second: side.rest,
            };
            tasks.extend_from_slice(&[
                Task::Further(further),
                Task::Write(Sort::Term, level + 1, side.term),
                Task::Arrow(style, level),
                Task::Write(Sort::Conjunction, level + 1, side.face),
            ])?;
        }
        Style::Terms => {
            into.extend_from_slice(begin_of(first))?;
            let further = Sides {
                style,
                level,
                body: side.rest,
                second: side.rest,
            };
            tasks.extend_from_slice(&[
                Task::Further(further),
                Task::Write(Sort::Term, level, side.term),
                Task::Arrow(style, level),
                Task::Write(Sort::Conjunction, level, side.face),
            ])?;
        }
        Style::Pairs => {
            let Some(other) = side_of(rows, environments, second)? else {
                return Ok(into.extend_from_slice(end_of(first))?);
            };
            into.extend_from_slice(begin_of(first))?;
            let further = Sides {
                style,
                level,
                body: side.rest,
                second: other.rest,
            };
            tasks.extend_from_slice(&[
                Task::Further(further),
                Task::Say(Phrase::Close),
                Task::Write(Sort::Term, level, other.term),
                Task::Say(Phrase::Comma),
                Task::Write(Sort::Term, level, side.term),
                Task::Arrow(style, level),
                Task::Write(Sort::Conjunction, level, side.face),
            ])?;
        }
    }
    Ok(())
}

/// Writes what stands outermost in a tree, and leaves its parts to do.
fn open<'a, R: Reader>(
    rows: &'a R,
    environments: &mut Environments,
    tasks: &mut Vec<Task<'a>>,
    sort: Sort,
    level: u64,
    closure: Closure,
    into: &mut Vec<u8>,
) -> Result<(), AllocError>
    requires stands { IsClosure (R.means rows.now) (lists environments.old) (deepest - 1) closure }
    requires few { level + 1 < 2 ^ 64 }
    ensures grows { OnOk result (Grows (lists environments.old) (lists environments.new)) }
    ensures opens { OnOk result (Opens (R.means rows.now) (lists environments.old)
        (lists environments.new) (task.Write sort level closure)
        into.old.items into.new.items tasks.old.items tasks.new.items) }
{
    match head_of(rows, environments, closure)? {
        Head::Var(index) => Ok(append_variable(sort, level, index, into)?),
        Head::Make(op, kids, environment) => match form_of(op) {
            Form::Plain(own) => {
                if own == sort {
                    append_opening(op, level, into)?;
                    let frame = Frame {
                        op,
                        at: 0,
                        kids,
                        environment,
                        level,
                    };
                    leave(rows, environments, tasks, frame)?;
                }
                Ok(())
            }
            Form::WithSystem => {
                if sort == Sort::Term {
                    append_opening(op, level, into)?;
                    let frame = Frame {
                        op,
                        at: 0,
                        kids,
                        environment,
                        level,
                    };
                    leave_parts(rows, environments, tasks, &frame)?;
                }
                Ok(())
            }
            Form::Hidden => Ok(()),
        },
    }
}

/// Writes what stands after a kid, and leaves the kids after it to do.
fn go_on<'a, R: Reader>(
    rows: &'a R,
    environments: &Environments,
    tasks: &mut Vec<Task<'a>>,
    frame: Frame<'a>,
    into: &mut Vec<u8>,
) -> Result<(), AllocError>
    requires stands { FrameStands (R.means rows.now) (lists environments.now) (deepest - 1) frame }
    requires place { frame.at < kids_of frame.op }
    requires few { frame.level + 1 < 2 ^ 64 }
    ensures { OnOk result (Opens (R.means rows.now) (lists environments.now)
        (lists environments.now) (task.Rest frame.entry)
        into.old.items into.new.items tasks.old.items tasks.new.items) }
{
    into.extend_from_slice(after_kid(frame.op, frame.at))?;
    let next = Frame {
        at: frame.at + 1,
        ..frame
    };
    Ok(leave(rows, environments, tasks, next)?)
}

/// The text of the tree of a row, in a context of so many variables and names.
fn text_of<R: Reader>(
    alloc: Global,
    rows: &R,
    sort: Sort,
    level: u64,
    term: TermId,
) -> Result<Vec<u8>, AllocError>
    requires tree { IsTree (R.means rows.now term.0) }
    requires few { level < 2 ^ 62 }
    ensures { IfOk result (λ text. text.items
        ≡ text_as sort level (tree_of (R.means rows.now term.0))) }
{
    let mut text = Vec::new(alloc);
    let mut environments = Environments::new(alloc);
    let mut tasks = Vec::new(alloc);
    tasks.push(Task::Write(sort, level, Closure::of_row(term)))?;
    while let Some(task) = tasks.pop() {
        match task {
            Task::Write(sort, level, closure) => {
                open(
                    rows,
                    &mut environments,
                    &mut tasks,
                    sort,
                    level,
                    closure,
                    &mut text,
                )?;
            }
            Task::Rest(frame) => go_on(rows, &environments, &mut tasks, frame, &mut text)?,
            Task::System(sides) => {
                open_sides(rows, &mut environments, &mut tasks, true, sides, &mut text)?;
            }
            Task::Further(sides) => {
                open_sides(rows, &mut environments, &mut tasks, false, sides, &mut text)?;
            }
            Task::Arrow(style, level) => append_arrow(style, level, &mut text)?,
            Task::Say(phrase) => text.extend_from_slice(words_of(phrase))?,
        }
    }
    Ok(text)
}

/// Appends the text of a term, in a context of so many variables and names. The only error is to be
/// out of memory, and then `into` is as before.
pub fn show<R: Reader>(
    alloc: Global,
    rows: &R,
    level: u64,
    term: TermId,
    into: &mut Vec<u8>,
) -> Result<(), AllocError>
    requires tree { IsTree (R.means rows.now term.0) }
    requires few { level < 2 ^ 62 }
    ensures ok { OnOk result (into.new.items
        ≡ into.old.items ++ shown level (tree_of (R.means rows.now term.0))) }
    ensures err { OnErr result (into.new.items ≡ into.old.items) }
{
    let text = text_of(alloc, rows, Sort::Term, level, term)?;
    into.extend_from_slice(&text)
}
