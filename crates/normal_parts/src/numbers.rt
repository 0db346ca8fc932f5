//! Compositions over `nat` that compute: their base and sides are all `zero`, or all `suc`.

ghost use Rattle.std.specs.Prelude.{◌≡◌, ◌↔◌, ◌-◌, IfOk, IsTrue};
ghost use Rattle.rows.specs.Tables.{Grows};
ghost use Rattle.closures.specs.Environments.{deepest};
ghost use Rattle.closures.specs.Shown.{lists};
ghost use Rattle.closures.specs.Closures.{IsClosure};
ghost use Rattle.tree_frames.specs.Frames.{tree_in};
ghost use Rattle.normal_parts.specs.Normal.{Begins, SidesBegin, Computes};

use closures::{Closure, Environments};
use rows::Reader;
use std::alloc::AllocError;
use tree_frames::{Opened, kid_of, open_tree};
use trees::Op;

/// Whether a tree begins with an operator.
fn begins<R: Reader>(
    rows: &R,
    environments: &mut Environments,
    op: Op,
    closure: Closure,
) -> Result<bool, AllocError>
    requires { IsClosure (R.means rows.now) (lists environments.old) (deepest - 1) closure }
    ensures grows { Grows (lists environments.old) (lists environments.new) }
    ensures tells { IfOk result (λ yes. IsTrue yes
        ↔ Begins op (tree_in (R.means rows.now) (lists environments.old) closure)) }
{
    match open_tree(rows, environments, closure, 0)? {
        Opened::Variable(_) => Ok(false),
        Opened::Operator(frame) => Ok(frame.op == op),
    }
}

/// Whether all sides of a system do.
fn sides_begin<R: Reader>(
    rows: &R,
    environments: &mut Environments,
    op: Op,
    body: Closure,
) -> Result<bool, AllocError>
    requires { IsClosure (R.means rows.now) (lists environments.old) (deepest - 1) body }
    ensures grows { Grows (lists environments.old) (lists environments.new) }
    ensures tells { IfOk result (λ yes. IsTrue yes
        ↔ SidesBegin op (tree_in (R.means rows.now) (lists environments.old) body)) }
{
    let mut rest = body;
    loop {
        let Opened::Operator(frame) = open_tree(rows, environments, rest, 0)? else {
            return Ok(true);
        };
        if frame.op != Op::Sys {
            return Ok(true);
        }
        let term = kid_of(rows, environments, &frame, 2);
        rest = kid_of(rows, environments, &frame, 3);
        if !begins(rows, environments, op, term)? {
            return Ok(false);
        }
    }
}

/// Whether a base and all sides begin with an operator.
fn all_begin<R: Reader>(
    rows: &R,
    environments: &mut Environments,
    op: Op,
    body: Closure,
    base: Closure,
) -> Result<bool, AllocError>
    requires body { IsClosure (R.means rows.now) (lists environments.old) (deepest - 1) body }
    requires base { IsClosure (R.means rows.now) (lists environments.old) (deepest - 1) base }
    ensures grows { Grows (lists environments.old) (lists environments.new) }
    ensures tells { let f = R.means rows.now in let old = lists environments.old in
        IfOk result (λ yes. IsTrue yes
        ↔ (Begins op (tree_in f old base) × SidesBegin op (tree_in f old body))) }
{
    if !begins(rows, environments, op, base)? {
        return Ok(false);
    }
    Ok(sides_begin(rows, environments, op, body)?)
}

/// Whether a composition over a line computes by what is composed.
pub fn computes<R: Reader>(
    rows: &R,
    environments: &mut Environments,
    line: Closure,
    body: Closure,
    base: Closure,
) -> Result<bool, AllocError>
    requires line { IsClosure (R.means rows.now) (lists environments.old) (deepest - 1) line }
    requires body { IsClosure (R.means rows.now) (lists environments.old) (deepest - 1) body }
    requires base { IsClosure (R.means rows.now) (lists environments.old) (deepest - 1) base }
    ensures grows { Grows (lists environments.old) (lists environments.new) }
    ensures tells { let f = R.means rows.now in let old = lists environments.old in
        IfOk result (λ yes. IsTrue yes
        ↔ Computes (tree_in f old line) (tree_in f old body) (tree_in f old base)) }
{
    if !begins(rows, environments, Op::Nat, line)? {
        return Ok(false);
    }
    if all_begin(rows, environments, Op::Zero, body, base)? {
        return Ok(true);
    }
    Ok(all_begin(rows, environments, Op::Suc, body, base)?)
}
