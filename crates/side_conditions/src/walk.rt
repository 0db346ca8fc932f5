//! The walk that reads a tree.

ghost use Rattle.std.specs.Prelude.{◌≡◌, ◌+◌, ◌^◌, ◌<◌, IfOk, OnOk, IsSome, length, reverse};
ghost use Rattle.std.specs.List.{All};
ghost use Rattle.trees.specs.Judgements.{Context};
ghost use Rattle.rows.specs.Views.{IsTree};
ghost use Rattle.rows.specs.Tables.{Grows};
ghost use Rattle.closures.specs.Shown.{lists};
ghost use Rattle.closures.specs.Closures.{IsClosure};
ghost use Rattle.side_conditions.specs.declared.subtree.Subtree.{Subtree};
ghost use Rattle.side_conditions.specs.Levels.{indices};
ghost use Rattle.side_conditions.specs.Readings.{IsValued, Reads};
ghost use Rattle.side_conditions.specs.Shapes.{tree_of, shape_kids};
ghost use Rattle.side_conditions.specs.Shown.{reading_at};
ghost use Rattle.side_conditions.specs.Walks.{asked, IsCombined, Remembers};

use crate::opening::shape_of;
use crate::reading::{Detail, Reading};
use crate::readings::Readings;
use crate::shapes::Shape;
use crate::subtree::Subtree;
use crate::tasks::Task;
use closures::{Closure, Environments};
use rows::{Reader, TermId};
use std::alloc::{AllocError, Global};

/// Adds the tasks for a subtree of a shape: to put the readings of its kids together, and before
/// that to read them.
fn ask(tasks: &mut Vec<Task>, at: Subtree, shape: Shape) -> Result<(), AllocError>
    ensures { OnOk result (reverse tasks.new.items ≡ asked at shape (reverse tasks.old.items)) }
{
    tasks.push(Task::Combine(at, shape))?;
    match shape {
        Shape::Name(_) | Shape::Nullary(_) => {}
        Shape::Unary(_, kid) => tasks.push(Task::Read(kid))?,
        Shape::Binary(_, left, right) => {
            tasks.push(Task::Read(right))?;
            tasks.push(Task::Read(left))?;
        }
    }
    Ok(())
}

/// The reading of a shape, by those of its kids. None where it is no formula and no face. So many
/// indices are in scope.
fn combined(
    alloc: Global,
    readings: &Readings,
    detail: Detail,
    count: u64,
    shape: Shape,
) -> Result<Option<Reading>, AllocError>
    requires { All (λ kid. IsSome (reading_at readings.now kid)) (shape_kids shape) }
    ensures { IfOk result (IsCombined (IsValued detail) (reading_at readings.now) count shape) }
{
    match shape {
        Shape::Name(level) => Ok(Some(Reading::of_name(alloc, level, detail)?)),
        Shape::Nullary(op) => Ok(Some(Reading::of_nullary(alloc, op)?)),
        Shape::Unary(op, kid) => match readings.get(kid) {
            Some(kid) => Ok(Reading::of_unary(alloc, op, kid, count)?),
            None => Ok(None),
        },
        Shape::Binary(op, left, right) => match (readings.get(left), readings.get(right)) {
            (Some(left), Some(right)) => Ok(Reading::of_binary(op, left, right)?),
            _ => Ok(None),
        },
    }
}

/// Reads a tree, each subtree once, unless it was read before. `readings` then has it. `names`
/// tells of each index of the context whether it is a name, the innermost first, and is the same
/// for all that `readings` has, and so is the detail.
pub fn read<R: Reader>(
    alloc: Global,
    rows: &R,
    names: &[bool],
    detail: Detail,
    environments: &mut Environments,
    readings: &mut Readings,
    root: Subtree,
) -> Result<(), AllocError>
    requires stands { IsClosure (R.means rows.now) (lists environments.old) 0 root.closure }
    requires outermost { root.depth ≡ 0 }
    requires few { length names.now < 2 ^ 63 }
    requires remembers { Remembers (IsValued detail) (R.means rows.now) (lists environments.old)
        names.now (reading_at readings.old) }
    ensures grows { OnOk result (Grows (lists environments.old) (lists environments.new)) }
    ensures remembers { OnOk result (Remembers (IsValued detail) (R.means rows.now)
        (lists environments.new) names.now (reading_at readings.new)) }
    ensures keeps { OnOk result ((s : Subtree) → IsSome (reading_at readings.old s)
        → IsSome (reading_at readings.new s)) }
    ensures there { OnOk result (IsSome (reading_at readings.new root)) }
    ensures mark { OnOk result (readings.new.mark ≡ readings.old.mark) }
{
    let mut tasks = Vec::new(alloc);
    tasks.push(Task::Read(root))?;
    while let Some(task) = tasks.pop() {
        match task {
            Task::Read(at) => {
                if readings.contains(at) {
                    continue;
                }
                match shape_of(rows, environments, names, at)? {
                    Some(shape) => {
                        ask(&mut tasks, at, shape)?;
                    }
                    None => {
                        readings.insert(at, None)?;
                    }
                }
            }
            Task::Combine(at, shape) => {
                let count = at.depth + names.len() as u64;
                let reading = combined(alloc, readings, detail, count, shape)?;
                readings.insert(at, reading)?;
            }
        }
    }
    Ok(())
}

/// What the tree of a row is read as in a context: a form or a face, whose names have their level
/// as number. None where it is no formula and no face. `names` tells of each index of the context
/// whether it is a name, the innermost first.
pub fn read_row<R: Reader>(
    alloc: Global,
    rows: &R,
    names: &[bool],
    detail: Detail,
    tree: TermId,
) -> Result<Option<Reading>, AllocError>
    requires tree { IsTree (R.means rows.now tree.0) }
    requires few { length names.now < 2 ^ 63 }
    ensures { IfOk result (λ found. (G : Context) → indices G ≡ names.now
        → Reads (IsValued detail) G (tree_of (R.means rows.now tree.0)) found) }
{
    let root = Subtree::outermost(Closure::of_row(tree));
    let mut environments = Environments::new(alloc);
    let mut readings = Readings::new(alloc);
    read(
        alloc,
        rows,
        names,
        detail,
        &mut environments,
        &mut readings,
        root,
    )?;
    Ok(readings.take(root))
}
