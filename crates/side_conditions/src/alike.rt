//! Substitutions that are alike.

ghost use Rattle.std.specs.Prelude.{◌≡◌, ◌↔◌, [], IfOk, OnOk, IsTrue, true, false};
ghost use Rattle.rows.specs.Tables.{Grows};
ghost use Rattle.rows.specs.Views.{IsSubst};
ghost use Rattle.closures.specs.Closures.{IsClosure, closure_meaning, subst_of};
ghost use Rattle.closures.specs.Shown.{lists};
ghost use Rattle.compare.specs.Pairs.{Asks};
ghost use Rattle.conditions.specs.Sides.{AlikeIn};
ghost use Rattle.side_conditions.specs.Contexts.{context_of};
ghost use Rattle.side_conditions.specs.Formulas.{AreAlike, AreSameFormulas};
ghost use Rattle.side_conditions.specs.Held.{StandsFor};
ghost use Rattle.side_conditions.specs.Readings.{IsValued};
ghost use Rattle.side_conditions.specs.Shapes.{tree_of};
ghost use Rattle.side_conditions.specs.Shown.{reading_at};
ghost use Rattle.side_conditions.specs.Walks.{Remembers};

use crate::context_faces::ContextFaces;
use crate::reading::Detail;
use crate::readings::Readings;
use crate::subtree::Subtree;
use crate::walk::read;
use closures::{Closure, Environments, SubstClosure, SubstHead, subst_head};
use compare::{Pair, add_pair, all_agree};
use indexmap::IndexSet;
use rows::{Reader, SubId};
use std::alloc::AllocError;

/// Whether two trees are formulas of one value wherever the faces of the context are true. None
/// where one of them is no formula over the names of the context.
fn same_formulas<R: Reader>(
    rows: &R,
    faces: &mut ContextFaces,
    environments: &mut Environments,
    readings: &mut Readings,
    left: Closure,
    right: Closure,
) -> Result<Option<bool>, AllocError>
    requires stands { StandsFor (R.means rows.now) faces.old.ctx faces.old }
    requires left { IsClosure (R.means rows.now) (lists environments.old) 0 left }
    requires right { IsClosure (R.means rows.now) (lists environments.old) 0 right }
    requires remembers { Remembers (IsValued Detail.Value) (R.means rows.now)
        (lists environments.old) faces.old.names.items (reading_at readings.old) }
    ensures stands { StandsFor (R.means rows.now) faces.old.ctx faces.new }
    ensures grows { OnOk result (Grows (lists environments.old) (lists environments.new)) }
    ensures remembers { OnOk result (Remembers (IsValued Detail.Value) (R.means rows.now)
        (lists environments.new) faces.new.names.items (reading_at readings.new)) }
    ensures same { let f = R.means rows.now in let known = lists environments.old in
        IfOk result (AreSameFormulas (context_of (f faces.old.ctx.0))
        (tree_of (closure_meaning f known left)) (tree_of (closure_meaning f known right))) }
{
    let alloc = faces.alloc();
    let left = Subtree::outermost(left);
    let right = Subtree::outermost(right);
    read(
        alloc,
        rows,
        faces.names(),
        Detail::Value,
        environments,
        readings,
        left,
    )?;
    read(
        alloc,
        rows,
        faces.names(),
        Detail::Value,
        environments,
        readings,
        right,
    )?;
    match (readings.form(left), readings.form(right)) {
        (Some(left), Some(right)) => Ok(Some(faces.same(left, right)?)),
        _ => Ok(None),
    }
}

/// Asks whether two trees are alike in the context: formulas of one value wherever its faces are
/// true, or equal trees, for which the pairs then ask. The answer is no where they are formulas
/// that differ. One closure is alike to itself, and is not read.
fn ask_trees<R: Reader>(
    rows: &R,
    faces: &mut ContextFaces,
    environments: &mut Environments,
    readings: &mut Readings,
    pairs: &mut IndexSet<Pair>,
    left: Closure,
    right: Closure,
) -> Result<bool, AllocError>
    requires stands { StandsFor (R.means rows.now) faces.old.ctx faces.old }
    requires left { IsClosure (R.means rows.now) (lists environments.old) 0 left }
    requires right { IsClosure (R.means rows.now) (lists environments.old) 0 right }
    requires remembers { Remembers (IsValued Detail.Value) (R.means rows.now)
        (lists environments.old) faces.old.names.items (reading_at readings.old) }
    ensures stands { StandsFor (R.means rows.now) faces.old.ctx faces.new }
    ensures grows { OnOk result (Grows (lists environments.old) (lists environments.new)) }
    ensures remembers { OnOk result (Remembers (IsValued Detail.Value) (R.means rows.now)
        (lists environments.new) faces.new.names.items (reading_at readings.new)) }
    ensures yes { let f = R.means rows.now in let known = lists environments.old in
        IfOk result (λ asked. asked ≡ true → Asks f (lists environments.new)
        (AreAlike (context_of (f faces.old.ctx.0))
        (tree_of (closure_meaning f known left)) (tree_of (closure_meaning f known right)))
        pairs.old.keys pairs.new.keys) }
    ensures no { let f = R.means rows.now in let known = lists environments.old in
        IfOk result (λ asked. asked ≡ false → AreAlike (context_of (f faces.old.ctx.0))
        (tree_of (closure_meaning f known left)) (tree_of (closure_meaning f known right)) → ⊥) }
{
    if left == right {
        return Ok(true);
    }
    match same_formulas(rows, faces, environments, readings, left, right)? {
        Some(same) => Ok(same),
        None => {
            add_pair(pairs, Pair { left, right })?;
            Ok(true)
        }
    }
}

/// Asks whether two substitutions are alike in the context, place by place from the last: that all
/// pairs agree. The answer is no where they have not one shift, or not as many trees, or formulas
/// that differ.
fn ask_places<R: Reader>(
    rows: &R,
    faces: &mut ContextFaces,
    environments: &mut Environments,
    pairs: &mut IndexSet<Pair>,
    left: SubId,
    right: SubId,
) -> Result<bool, AllocError>
    requires stands { StandsFor (R.means rows.now) faces.old.ctx faces.old }
    requires left { IsSubst (R.means rows.now left.0) }
    requires right { IsSubst (R.means rows.now right.0) }
    requires nothing { pairs.old.keys ≡ [] }
    ensures stands { StandsFor (R.means rows.now) faces.old.ctx faces.new }
    ensures yes { let f = R.means rows.now in IfOk result (λ asked. asked ≡ true →
        Asks f (lists environments.new)
        (AlikeIn (context_of (f faces.old.ctx.0)) (subst_of (f left.0)) (subst_of (f right.0)))
        [] pairs.new.keys) }
    ensures no { let f = R.means rows.now in IfOk result (λ asked. asked ≡ false →
        AlikeIn (context_of (f faces.old.ctx.0)) (subst_of (f left.0)) (subst_of (f right.0)) → ⊥) }
{
    let mut readings = Readings::new(faces.alloc());
    let mut left = SubstClosure::of_row(left);
    let mut right = SubstClosure::of_row(right);
    while left != right {
        let first = subst_head(rows, environments, left)?;
        let second = subst_head(rows, environments, right)?;
        match (first, second) {
            (SubstHead::Shift(n), SubstHead::Shift(m)) => return Ok(n == m),
            (SubstHead::Push(d, a), SubstHead::Push(e, b)) => {
                if !ask_trees(rows, faces, environments, &mut readings, pairs, a, b)? {
                    return Ok(false);
                }
                left = d;
                right = e;
            }
            _ => return Ok(false),
        }
    }
    Ok(true)
}

/// Whether two substitutions are alike in the context: they have one shift, and they push equally
/// many trees, which are equal place by place, or formulas of one value wherever the faces of the
/// context are true. Trees that are not both formulas are compared in the end, all at once.
pub fn alike<R: Reader>(
    rows: &R,
    faces: &mut ContextFaces,
    left: SubId,
    right: SubId,
) -> Result<bool, AllocError>
    requires stands { StandsFor (R.means rows.now) faces.old.ctx faces.old }
    requires left { IsSubst (R.means rows.now left.0) }
    requires right { IsSubst (R.means rows.now right.0) }
    ensures stands { StandsFor (R.means rows.now) faces.old.ctx faces.new }
    ensures alike { let f = R.means rows.now in IfOk result (λ alike. IsTrue alike ↔
        AlikeIn (context_of (f faces.old.ctx.0)) (subst_of (f left.0)) (subst_of (f right.0))) }
{
    let mut environments = Environments::new(faces.alloc());
    let mut pairs = IndexSet::new(faces.alloc());
    if !ask_places(rows, faces, &mut environments, &mut pairs, left, right)? {
        return Ok(false);
    }
    Ok(all_agree(rows, &mut environments, &mut pairs)?)
}
