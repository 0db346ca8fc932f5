//! The sides of systems.

ghost use Rattle.std.specs.Prelude.{◌≡◌, ◌≤◌, ◌-◌, ◌*◌, IfOk};
ghost use Rattle.trees.specs.declared.op.Op.TheVariants as op;
ghost use Rattle.rows.specs.Tables.{Grows};
ghost use Rattle.closures.specs.Environments.{deepest};
ghost use Rattle.closures.specs.Shown.{lists};
ghost use Rattle.closures.specs.Closures.{IsClosure};
ghost use Rattle.tree_frames.specs.Frames.{FrameStands, frame_trees, all_weights};
ghost use Rattle.fixed_names.specs.Scopes.{IsWithin, fixed_in, depth_of};
ghost use Rattle.fixed_names.specs.Shown.{fixed_by};
ghost use Rattle.normal_parts.specs.Normal.{fix_all};
ghost use Rattle.normality.specs.Tests.{Tells, TellsTest, SidePasses, SideStands};
ghost use Rattle.normality.specs.Worlds.{world};
ghost use Rattle.normality.specs.declared.tests.Test.TheVariants as test;

use crate::places::Place;
use crate::tests::{Part, Sides, Test};
use closures::{Closure, Environments};
use fixed_names::{Scope, Scopes};
use normal_formulas::Atom;
use normal_parts::{is_cover_written, written_conjunction};
use rows::Reader;
use std::alloc::{AllocError, Global};
use tree_frames::{Frame, Opened, kid_of, open_tree};
use trees::Op;

/// The scope in which the names of a conjunction are fixed too.
fn fixed_within(scopes: &mut Scopes, scope: Scope, atoms: &[Atom]) -> Result<Scope, AllocError>
    requires { IsWithin (fixed_by scopes.old) scope }
    ensures grows { Grows (fixed_by scopes.old) (fixed_by scopes.new) }
    ensures fixes { IfOk result (λ s. fixed_in (fixed_by scopes.new) s
        ≡ fix_all atoms.now (fixed_in (fixed_by scopes.old) scope)) }
    ensures within { IfOk result (IsWithin (fixed_by scopes.new)) }
    ensures depth { IfOk result (λ s. depth_of s ≤ depth_of scope) }
{
    let mut scope = scope;
    for atom in atoms {
        scope = scopes.fix(scope, atom.index.0)?;
    }
    Ok(scope)
}

/// Tests the first side of a system by its face, and leaves its term and the further sides to test.
#[allow(clippy::too_many_arguments)]
fn open_side<'a, R: Reader>(
    alloc: Global,
    rows: &'a R,
    environments: &mut Environments,
    scopes: &mut Scopes,
    tests: &mut Vec<Test<'a>>,
    sides: Sides,
    face: &Frame<'a>,
    body: &Frame<'a>,
) -> Result<bool, AllocError>
    requires face { FrameStands (R.means rows.now) (lists environments.old) (deepest - 1) face.now }
    requires body { FrameStands (R.means rows.now) (lists environments.old) (deepest - 1) body.now }
    requires joins { face.now.op ≡ op.Join }
    requires sides { body.now.op ≡ op.Sys }
    requires within { IsWithin (fixed_by scopes.old) sides.scope }
    ensures grows { Grows (lists environments.old) (lists environments.new) }
    ensures fixes { Grows (fixed_by scopes.old) (fixed_by scopes.new) }
    ensures tells { let f = R.means rows.now in let old = world f environments.old scopes.old in
        IfOk result (λ yes. Tells (world f environments.new scopes.new)
        (SidePasses old sides face.now body.now) (SideStands old sides face.now body.now)
        (3 * all_weights (frame_trees f (lists environments.old) body.now))
        tests.old.items tests.new.items yes) }
{
    let first = kid_of(rows, environments, face, 0);
    let others = kid_of(rows, environments, face, 1);
    let written = kid_of(rows, environments, body, 0);
    let cover = kid_of(rows, environments, body, 1);
    let term = kid_of(rows, environments, body, 2);
    let rest = kid_of(rows, environments, body, 3);
    if !is_cover_written(alloc, rows, environments, sides.raised, others, cover)? {
        return Ok(false);
    }
    let Some(atoms) = written_conjunction(alloc, rows, environments, sides.raised, first, written)?
    else {
        return Ok(false);
    };
    let scope = fixed_within(scopes, sides.scope, &atoms)?;
    let part = Part {
        place: Place::Anywhere,
        scope,
        closure: term,
    };
    let further = Sides {
        face: others,
        body: rest,
        ..sides
    };
    tests.extend_from_slice(&[Test::Sides(further), Test::Tree(part)])?;
    Ok(true)
}

/// Tests a system up to its first side's term, and leaves the rest of it to test.
pub fn open_sides<'a, R: Reader>(
    alloc: Global,
    rows: &'a R,
    environments: &mut Environments,
    scopes: &mut Scopes,
    tests: &mut Vec<Test<'a>>,
    sides: Sides,
) -> Result<bool, AllocError>
    requires face { IsClosure (R.means rows.now) (lists environments.old) (deepest - 1) sides.face }
    requires body { IsClosure (R.means rows.now) (lists environments.old) (deepest - 1) sides.body }
    requires within { IsWithin (fixed_by scopes.old) sides.scope }
    ensures grows { Grows (lists environments.old) (lists environments.new) }
    ensures fixes { Grows (fixed_by scopes.old) (fixed_by scopes.new) }
    ensures tells { let f = R.means rows.now in IfOk result
        (TellsTest (world f environments.old scopes.old) (world f environments.new scopes.new)
        (test.Sides sides) tests.old.items tests.new.items) }
{
    let Opened::Operator(face) = open_tree(rows, environments, sides.face, 0)? else {
        return Ok(false);
    };
    let Opened::Operator(body) = open_tree(rows, environments, sides.body, 0)? else {
        return Ok(false);
    };
    if face.op == Op::F0 {
        return Ok(body.op == Op::Empty);
    }
    if face.op != Op::Join {
        return Ok(false);
    }
    if body.op != Op::Sys {
        return Ok(false);
    }
    Ok(open_side(
        alloc,
        rows,
        environments,
        scopes,
        tests,
        sides,
        &face,
        &body,
    )?)
}
