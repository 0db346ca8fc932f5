//! Subtrees opened by one operator.

ghost use Rattle.std.specs.Prelude.{◌≡◌, ◌+◌, ◌-◌, ◌<◌, ◌^◌, ℕ, suc, false, IsTrue, length};
ghost use Rattle.std.specs.Prelude.{slice_index_or, Some, MatchOption, IfOk};
ghost use Rattle.std.specs.List.{All};
ghost use Rattle.trees.specs.declared.op.Op.{Op};
ghost use Rattle.trees.specs.Operators.{kids_of};
ghost use Rattle.trees.specs.Trees.{Tree};
ghost use Rattle.trees.specs.Things.{ATree, Meanings};
ghost use Rattle.rows.specs.Tables.{Grows};
ghost use Rattle.closures.specs.Environments.{deepest, listed, IsWithin};
ghost use Rattle.closures.specs.Shown.{lists};
ghost use Rattle.closures.specs.Closures.{IsClosure, Stands};
ghost use Rattle.side_conditions.specs.Shapes.{tree_at, with_bound};
ghost use Rattle.side_conditions.specs.Openings.{IsKid, IsShapeOver, IsShapeOf, IsUnreadable};

use crate::shapes::{Connective, Shape};
use crate::subtree::Subtree;
use closures::{Environment, Environments, Head, head_of, kid};
use rows::Reader;
use std::alloc::AllocError;
use trees::{Op, binds};

/// The level of the name of an index below so many bound names, where it is a name. `names` tells
/// of each index above these whether it is one, the innermost first.
fn level_of(names: &[bool], depth: u64, index: u128) -> Option<u64>
    requires { depth + length names.now < 2 ^ 64 }
    ensures { MatchOption result
        (slice_index_or (with_bound depth names.now) index false ≡ false)
        (λ level. (depth + length names.now ≡ suc (level + index)) ×
        IsTrue (slice_index_or (with_bound depth names.now) index false)) }
{
    let count = depth + names.len() as u64;
    if index >= u128::from(count) {
        return None;
    }
    let index = index as u64;
    if index < depth || names[(index - depth) as usize] {
        Some(count - 1 - index)
    } else {
        None
    }
}

/// A kid of an operator that stands below so many bound names.
fn kid_at(
    environments: &Environments,
    op: Op,
    at: u8,
    row: u64,
    environment: Environment,
    depth: u64,
) -> Subtree
    requires place { at < kids_of op }
    requires within { IsWithin (lists environments.now) environment }
    requires shallow { All (λ w. w.depth < deepest) (listed (lists environments.now) environment) }
    requires few { depth + 1 < 2 ^ 64 }
    ensures { IsKid (lists environments.now) op at row environment depth result }
{
    Subtree {
        closure: kid(environments, op, at, row, environment),
        depth: depth + u64::from(binds(op, at)),
    }
}

/// The shape of an operator over the rows of its kids. None where that is no formula and no face.
fn shape_over(
    environments: &Environments,
    op: Op,
    kids: &[u64],
    environment: Environment,
    depth: u64,
) -> Option<Shape>
    requires count { length kids.now ≡ kids_of op }
    requires within { IsWithin (lists environments.now) environment }
    requires shallow { All (λ w. w.depth < deepest) (listed (lists environments.now) environment) }
    requires few { depth + 1 < 2 ^ 64 }
    ensures { IsShapeOver (lists environments.now) op kids.now environment depth result }
{
    match Connective::of(op) {
        None => None,
        Some(Connective::Nullary(nullary)) => Some(Shape::Nullary(nullary)),
        Some(Connective::Unary(unary)) => {
            let kid = kid_at(environments, op, 0, kids[0], environment, depth);
            Some(Shape::Unary(unary, kid))
        }
        Some(Connective::Binary(binary)) => {
            let left = kid_at(environments, op, 0, kids[0], environment, depth);
            let right = kid_at(environments, op, 1, kids[1], environment, depth);
            Some(Shape::Binary(binary, left, right))
        }
    }
}

/// What stands outermost in a subtree. None where it is no formula and no face. `names` tells of
/// each index of the context whether it is a name, the innermost first.
pub fn shape_of<R: Reader>(
    rows: &R,
    environments: &mut Environments,
    names: &[bool],
    at: Subtree,
) -> Result<Option<Shape>, AllocError>
    requires stands { let f = R.means rows.now in
        IsClosure f (lists environments.old) (deepest - 1) at.closure }
    requires few { suc at.depth + length names.now < 2 ^ 64 }
    ensures grows { Grows (lists environments.old) (lists environments.new) }
    ensures shape { let f = R.means rows.now in IfOk result (λ found. MatchOption found
        (IsUnreadable names.now at.depth (tree_at f (lists environments.old) at))
        (IsShapeOf f (lists environments.old) (lists environments.new) names.now at)) }
{
    match head_of(rows, environments, at.closure)? {
        Head::Var(index) => match level_of(names, at.depth, index) {
            Some(level) => Ok(Some(Shape::Name(level))),
            None => Ok(None),
        },
        Head::Make(op, kids, environment) => Ok(shape_over(
            environments,
            op,
            kids,
            environment,
            at.depth,
        )),
    }
}
