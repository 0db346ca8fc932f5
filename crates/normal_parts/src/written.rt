//! Faces that are written again in a system, which may stand below one binder more.

ghost use Rattle.std.specs.Prelude.{◌≡◌, ◌↔◌, ◌-◌, IfOk, IsTrue, map, option_map};
ghost use Rattle.rows.specs.Tables.{Grows};
ghost use Rattle.closures.specs.Environments.{deepest};
ghost use Rattle.closures.specs.Shown.{lists};
ghost use Rattle.closures.specs.Closures.{IsClosure};
ghost use Rattle.tree_frames.specs.Frames.{tree_in};
ghost use Rattle.normal_formulas.specs.Atoms.{lists_of};
ghost use Rattle.normal_parts.specs.Parts.{written_for, all_written, IsConjunctionOf, IsCoverOf};

use closures::{Closure, Environments};
use normal_formulas::{Atom, Sort, cover_of, product_of};
use rows::Reader;
use std::alloc::{AllocError, Global};

/// Whether an atom is this one, as it is written there.
fn is_written(raised: bool, atom: Atom, written: Atom) -> bool
    ensures { IsTrue result ↔ (written ≡ written_for raised atom) }
{
    if atom.sign != written.sign {
        return false;
    }
    if raised {
        match written.index.0.checked_sub(1) {
            Some(index) => index == atom.index.0,
            None => false,
        }
    } else {
        written.index.0 == atom.index.0
    }
}

/// Whether atoms are these, as they are written there.
fn are_written(raised: bool, atoms: &[Atom], written: &[Atom]) -> bool
    ensures { IsTrue result ↔ (written.now ≡ all_written raised atoms.now) }
{
    if atoms.len() != written.len() {
        return false;
    }
    for i in 0..atoms.len() {
        if !is_written(raised, atoms[i], written[i]) {
            return false;
        }
    }
    true
}

/// Whether lists of atoms are these, as they are written there.
fn are_all_written(raised: bool, lists: &[Vec<Atom>], written: &[Vec<Atom>]) -> bool
    ensures { IsTrue result
        ↔ (lists_of written.now ≡ map (all_written raised) (lists_of lists.now)) }
{
    if lists.len() != written.len() {
        return false;
    }
    for i in 0..lists.len() {
        if !are_written(raised, &lists[i], &written[i]) {
            return false;
        }
    }
    true
}

/// The atoms of a conjunction as they are written in a system, where it is written there.
pub fn written_conjunction<R: Reader>(
    alloc: Global,
    rows: &R,
    environments: &mut Environments,
    raised: bool,
    conjunction: Closure,
    written: Closure,
) -> Result<Option<Vec<Atom>>, AllocError>
    requires first { IsClosure (R.means rows.now) (lists environments.old) (deepest - 1)
        conjunction }
    requires second { IsClosure (R.means rows.now) (lists environments.old) (deepest - 1) written }
    ensures grows { Grows (lists environments.old) (lists environments.new) }
    ensures atoms { let f = R.means rows.now in let old = lists environments.old in
        IfOk result (λ found. IsConjunctionOf raised (tree_in f old conjunction)
        (tree_in f old written) (option_map (λ atoms. atoms.items) found)) }
{
    let Some(atoms) = product_of(alloc, rows, environments, Sort::Equations, conjunction)? else {
        return Ok(None);
    };
    let Some(found) = product_of(alloc, rows, environments, Sort::Equations, written)? else {
        return Ok(None);
    };
    if are_written(raised, &atoms, &found) {
        Ok(Some(found))
    } else {
        Ok(None)
    }
}

/// Whether a face is written in a system.
pub fn is_cover_written<R: Reader>(
    alloc: Global,
    rows: &R,
    environments: &mut Environments,
    raised: bool,
    face: Closure,
    written: Closure,
) -> Result<bool, AllocError>
    requires first { IsClosure (R.means rows.now) (lists environments.old) (deepest - 1) face }
    requires second { IsClosure (R.means rows.now) (lists environments.old) (deepest - 1) written }
    ensures grows { Grows (lists environments.old) (lists environments.new) }
    ensures tells { let f = R.means rows.now in let old = lists environments.old in
        IfOk result (λ yes. IsTrue yes
        ↔ IsCoverOf raised (tree_in f old face) (tree_in f old written)) }
{
    let Some(conjunctions) = cover_of(alloc, rows, environments, face)? else {
        return Ok(false);
    };
    let Some(found) = cover_of(alloc, rows, environments, written)? else {
        return Ok(false);
    };
    Ok(are_all_written(raised, &conjunctions, &found))
}
