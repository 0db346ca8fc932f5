//! Operators that are tested, each with what is left to test of its kids.

ghost use Rattle.std.specs.Prelude.{◌≡◌, ◌≤◌, ◌<◌, ◌-◌, ◌+◌, ◌^◌, IfOk, OnOk, true};
ghost use Rattle.trees.specs.Operators.{kids_of};
ghost use Rattle.trees.specs.declared.op.Op.TheVariants as op;
ghost use Rattle.rows.specs.Tables.{Grows};
ghost use Rattle.closures.specs.Environments.{deepest};
ghost use Rattle.closures.specs.Shown.{lists};
ghost use Rattle.closures.specs.Closures.{IsClosure};
ghost use Rattle.tree_frames.specs.Frames.{FrameStands};
ghost use Rattle.fixed_names.specs.Scopes.{IsWithin, depth_of};
ghost use Rattle.fixed_names.specs.Shown.{fixed_by};
ghost use Rattle.normality.specs.Tests.{TellsTest, TellsFrame};
ghost use Rattle.normality.specs.Worlds.{world};
ghost use Rattle.normality.specs.declared.tests.Test.TheVariants as test;

use crate::places::{Kind, Place, kind_of, may_stand, place_of};
use crate::tests::{Part, Sides, Test};
use closures::{Closure, Environments};
use fixed_names::{Scope, Scopes};
use normal_parts::{computes, is_normal_face, may_apply};
use rows::Reader;
use std::alloc::{AllocError, Global};
use tree_frames::{Frame, Opened, kid_of, open_tree};
use trees::{binds, kid_count};

/// Leaves the next kid of a frame to test, and those after it.
pub fn next_kid<'a, R: Reader>(
    rows: &R,
    environments: &Environments,
    scopes: &Scopes,
    tests: &mut Vec<Test<'a>>,
    scope: Scope,
    frame: Frame<'a>,
) -> Result<(), AllocError>
    requires stands { FrameStands (R.means rows.now) (lists environments.now) (deepest - 1) frame }
    requires place { frame.at ≤ kids_of frame.op }
    requires within { IsWithin (fixed_by scopes.now) scope }
    requires few { depth_of scope + 1 < 2 ^ 64 }
    ensures { let w = world (R.means rows.now) environments.now scopes.now in OnOk result
        (TellsTest w w (test.Kids scope frame.entry) tests.old.items tests.new.items true) }
{
    if frame.at < kid_count(frame.op) {
        let part = Part {
            place: place_of(frame.op, frame.at),
            scope: scopes.below(scope, u64::from(binds(frame.op, frame.at))),
            closure: kid_of(rows, environments, &frame, frame.at),
        };
        let next = Frame {
            at: frame.at + 1,
            ..frame
        };
        tests.extend_from_slice(&[Test::Kids(scope, next), Test::Tree(part)])?;
    }
    Ok(())
}

/// Tests an application of a path by its formula.
fn open_path_application<'a, R: Reader>(
    alloc: Global,
    rows: &'a R,
    environments: &mut Environments,
    scopes: &Scopes,
    tests: &mut Vec<Test<'a>>,
    scope: Scope,
    frame: &Frame<'a>,
) -> Result<bool, AllocError>
    requires stands { FrameStands (R.means rows.now) (lists environments.old) (deepest - 1)
        frame.now }
    requires within { IsWithin (fixed_by scopes.now) scope }
    requires op { frame.now.op ≡ op.PApp }
    ensures grows { Grows (lists environments.old) (lists environments.new) }
    ensures tells { let f = R.means rows.now in IfOk result
        (TellsFrame (world f environments.old scopes.now) (world f environments.new scopes.now)
        scope frame.now tests.old.items tests.new.items) }
{
    let path = kid_of(rows, environments, frame, 0);
    let formula = kid_of(rows, environments, frame, 1);
    if !may_apply(alloc, rows, environments, scopes, scope, formula)? {
        return Ok(false);
    }
    tests.push(Test::Tree(Part {
        place: Place::Path,
        scope,
        closure: path,
    }))?;
    Ok(true)
}

/// Tests a composition by its face and by the operators that it begins with.
fn open_composition<'a, R: Reader>(
    alloc: Global,
    rows: &'a R,
    environments: &mut Environments,
    scopes: &Scopes,
    tests: &mut Vec<Test<'a>>,
    scope: Scope,
    frame: &Frame<'a>,
) -> Result<bool, AllocError>
    requires stands { FrameStands (R.means rows.now) (lists environments.old) (deepest - 2)
        frame.now }
    requires within { IsWithin (fixed_by scopes.now) scope }
    requires few { depth_of scope + 1 < 2 ^ 64 }
    requires op { frame.now.op ≡ op.Comp }
    ensures grows { Grows (lists environments.old) (lists environments.new) }
    ensures tells { let f = R.means rows.now in IfOk result
        (TellsFrame (world f environments.old scopes.now) (world f environments.new scopes.now)
        scope frame.now tests.old.items tests.new.items) }
{
    let line = kid_of(rows, environments, frame, 0);
    let face = kid_of(rows, environments, frame, 1);
    let body = kid_of(rows, environments, frame, 2);
    let base = kid_of(rows, environments, frame, 3);
    if !is_normal_face(alloc, rows, environments, scopes, scope, face)? {
        return Ok(false);
    }
    if computes(rows, environments, line, body, base)? {
        return Ok(false);
    }
    let below = scopes.below(scope, 1);
    let base = Part {
        place: Place::Anywhere,
        scope,
        closure: base,
    };
    let sides = Sides {
        raised: true,
        scope: below,
        face,
        body,
    };
    let line = Part {
        place: Place::Line,
        scope: below,
        closure: line,
    };
    tests.extend_from_slice(&[Test::Tree(base), Test::Sides(sides), Test::Tree(line)])?;
    Ok(true)
}

/// Tests a glued type by its face.
fn open_glue_type<'a, R: Reader>(
    alloc: Global,
    rows: &'a R,
    environments: &mut Environments,
    scopes: &Scopes,
    tests: &mut Vec<Test<'a>>,
    scope: Scope,
    frame: &Frame<'a>,
) -> Result<bool, AllocError>
    requires stands { FrameStands (R.means rows.now) (lists environments.old) (deepest - 1)
        frame.now }
    requires within { IsWithin (fixed_by scopes.now) scope }
    requires op { frame.now.op ≡ op.GlueType }
    ensures grows { Grows (lists environments.old) (lists environments.new) }
    ensures tells { let f = R.means rows.now in IfOk result
        (TellsFrame (world f environments.old scopes.now) (world f environments.new scopes.now)
        scope frame.now tests.old.items tests.new.items) }
{
    let base = kid_of(rows, environments, frame, 0);
    let face = kid_of(rows, environments, frame, 1);
    let first = kid_of(rows, environments, frame, 2);
    let second = kid_of(rows, environments, frame, 3);
    if !is_normal_face(alloc, rows, environments, scopes, scope, face)? {
        return Ok(false);
    }
    tests.extend_from_slice(&[
        Test::Sides(Sides {
            raised: false,
            scope,
            face,
            body: second,
        }),
        Test::Sides(Sides {
            raised: false,
            scope,
            face,
            body: first,
        }),
        Test::Tree(Part {
            place: Place::Anywhere,
            scope,
            closure: base,
        }),
    ])?;
    Ok(true)
}

/// Tests an element of a glued type by its face.
fn open_glue<'a, R: Reader>(
    alloc: Global,
    rows: &'a R,
    environments: &mut Environments,
    scopes: &Scopes,
    tests: &mut Vec<Test<'a>>,
    scope: Scope,
    frame: &Frame<'a>,
) -> Result<bool, AllocError>
    requires stands { FrameStands (R.means rows.now) (lists environments.old) (deepest - 1)
        frame.now }
    requires within { IsWithin (fixed_by scopes.now) scope }
    requires op { frame.now.op ≡ op.Glue }
    ensures grows { Grows (lists environments.old) (lists environments.new) }
    ensures tells { let f = R.means rows.now in IfOk result
        (TellsFrame (world f environments.old scopes.now) (world f environments.new scopes.now)
        scope frame.now tests.old.items tests.new.items) }
{
    let face = kid_of(rows, environments, frame, 0);
    let body = kid_of(rows, environments, frame, 1);
    let base = kid_of(rows, environments, frame, 2);
    if !is_normal_face(alloc, rows, environments, scopes, scope, face)? {
        return Ok(false);
    }
    tests.extend_from_slice(&[
        Test::Sides(Sides {
            raised: false,
            scope,
            face,
            body,
        }),
        Test::Tree(Part {
            place: Place::Anywhere,
            scope,
            closure: base,
        }),
    ])?;
    Ok(true)
}

/// Tests what is unglued by its face.
fn open_unglue<'a, R: Reader>(
    alloc: Global,
    rows: &'a R,
    environments: &mut Environments,
    scopes: &Scopes,
    tests: &mut Vec<Test<'a>>,
    scope: Scope,
    frame: &Frame<'a>,
) -> Result<bool, AllocError>
    requires stands { FrameStands (R.means rows.now) (lists environments.old) (deepest - 1)
        frame.now }
    requires within { IsWithin (fixed_by scopes.now) scope }
    requires op { frame.now.op ≡ op.Unglue }
    ensures grows { Grows (lists environments.old) (lists environments.new) }
    ensures tells { let f = R.means rows.now in IfOk result
        (TellsFrame (world f environments.old scopes.now) (world f environments.new scopes.now)
        scope frame.now tests.old.items tests.new.items) }
{
    let face = kid_of(rows, environments, frame, 0);
    let first = kid_of(rows, environments, frame, 1);
    let second = kid_of(rows, environments, frame, 2);
    let glued = kid_of(rows, environments, frame, 3);
    if !is_normal_face(alloc, rows, environments, scopes, scope, face)? {
        return Ok(false);
    }
    tests.extend_from_slice(&[
        Test::Sides(Sides {
            raised: false,
            scope,
            face,
            body: second,
        }),
        Test::Sides(Sides {
            raised: false,
            scope,
            face,
            body: first,
        }),
        Test::Tree(Part {
            place: Place::Glued,
            scope,
            closure: glued,
        }),
    ])?;
    Ok(true)
}

/// Tests an operator, and leaves what is left to test of its kids.
fn open_frame<'a, R: Reader>(
    alloc: Global,
    rows: &'a R,
    environments: &mut Environments,
    scopes: &Scopes,
    tests: &mut Vec<Test<'a>>,
    scope: Scope,
    frame: Frame<'a>,
) -> Result<bool, AllocError>
    requires stands { FrameStands (R.means rows.now) (lists environments.old) (deepest - 2) frame }
    requires within { IsWithin (fixed_by scopes.now) scope }
    requires start { frame.at ≡ 0 }
    requires few { depth_of scope + 1 < 2 ^ 64 }
    ensures grows { Grows (lists environments.old) (lists environments.new) }
    ensures tells { let f = R.means rows.now in IfOk result
        (TellsFrame (world f environments.old scopes.now) (world f environments.new scopes.now)
        scope frame.entry tests.old.items tests.new.items) }
{
    match kind_of(frame.op) {
        Kind::ByKids => {
            tests.push(Test::Kids(scope, frame))?;
            Ok(true)
        }
        Kind::PathApplication => Ok(open_path_application(
            alloc,
            rows,
            environments,
            scopes,
            tests,
            scope,
            &frame,
        )?),
        Kind::Composition => Ok(open_composition(
            alloc,
            rows,
            environments,
            scopes,
            tests,
            scope,
            &frame,
        )?),
        Kind::GlueType => Ok(open_glue_type(
            alloc,
            rows,
            environments,
            scopes,
            tests,
            scope,
            &frame,
        )?),
        Kind::Glue => Ok(open_glue(alloc, rows, environments, scopes, tests, scope, &frame)?),
        Kind::Unglue => Ok(open_unglue(alloc, rows, environments, scopes, tests, scope, &frame)?),
        Kind::Never => Ok(false),
    }
}

/// Tests what stands outermost in a part, and leaves the rest of it to test.
pub fn open_part<'a, R: Reader>(
    alloc: Global,
    rows: &'a R,
    environments: &mut Environments,
    scopes: &Scopes,
    tests: &mut Vec<Test<'a>>,
    part: Part,
) -> Result<bool, AllocError>
    requires stands { IsClosure (R.means rows.now) (lists environments.old) (deepest - 2)
        part.closure }
    requires within { IsWithin (fixed_by scopes.now) part.scope }
    requires few { depth_of part.scope + 1 < 2 ^ 64 }
    ensures grows { Grows (lists environments.old) (lists environments.new) }
    ensures tells { let f = R.means rows.now in IfOk result
        (TellsTest (world f environments.old scopes.now) (world f environments.new scopes.now)
        (test.Tree part) tests.old.items tests.new.items) }
{
    match open_tree(rows, environments, part.closure, 0)? {
        Opened::Variable(index) => Ok(scopes.is_free(part.scope, index)),
        Opened::Operator(frame) => {
            if !may_stand(part.place, frame.op) {
                return Ok(false);
            }
            tests.push(Test::Keep(part))?;
            Ok(open_frame(alloc, rows, environments, scopes, tests, part.scope, frame)?)
        }
    }
}
