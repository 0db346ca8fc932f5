//! Whether faces are normal.

ghost use Rattle.std.specs.Prelude.{◌↔◌, ◌-◌, IfOk, IsTrue};
ghost use Rattle.std.specs.List.{All};
ghost use Rattle.std.specs.List.Sorted.{IsStrictlySortedBy};
ghost use Rattle.rows.specs.Tables.{Grows};
ghost use Rattle.closures.specs.Environments.{deepest};
ghost use Rattle.closures.specs.Shown.{lists};
ghost use Rattle.closures.specs.Closures.{IsClosure};
ghost use Rattle.tree_frames.specs.Frames.{tree_in};
ghost use Rattle.normal_formulas.specs.Atoms.{level_cmp, lists_of};
ghost use Rattle.fixed_names.specs.Scopes.{IsWithin, fixed_in};
ghost use Rattle.fixed_names.specs.Shown.{fixed_by};
ghost use Rattle.normal_parts.specs.Parts.{HasNormalFace, IsRising};

use crate::formulas::are_all_free;
use closures::{Closure, Environments};
use fixed_names::{Scope, Scopes};
use normal_formulas::{Atom, cover_of, is_normal_sum};
use rows::Reader;
use std::alloc::{AllocError, Global};

/// Whether the names come in order of level, none twice.
fn rises(atoms: &[Atom]) -> bool
    ensures { IsTrue result ↔ IsStrictlySortedBy level_cmp atoms.now }
{
    for i in 1..atoms.len() {
        if atoms[i].index.0 >= atoms[i - 1].index.0 {
            return false;
        }
    }
    true
}

/// Whether each of these is a conjunction of some names, in order of level.
fn each_rises(conjunctions: &[Vec<Atom>]) -> bool
    ensures { IsTrue result ↔ All IsRising (lists_of conjunctions.now) }
{
    for conjunction in conjunctions {
        if conjunction.len() == 0 {
            return false;
        }
        if !rises(conjunction) {
            return false;
        }
    }
    true
}

/// Whether a face is normal, and does not hold.
pub fn is_normal_face<R: Reader>(
    alloc: Global,
    rows: &R,
    environments: &mut Environments,
    scopes: &Scopes,
    scope: Scope,
    face: Closure,
) -> Result<bool, AllocError>
    requires stands { IsClosure (R.means rows.now) (lists environments.old) (deepest - 1) face }
    requires within { IsWithin (fixed_by scopes.now) scope }
    ensures grows { Grows (lists environments.old) (lists environments.new) }
    ensures tells { IfOk result (λ yes. IsTrue yes
        ↔ HasNormalFace (fixed_in (fixed_by scopes.now) scope)
        (tree_in (R.means rows.now) (lists environments.old) face)) }
{
    let Some(conjunctions) = cover_of(alloc, rows, environments, face)? else {
        return Ok(false);
    };
    if !each_rises(&conjunctions) {
        return Ok(false);
    }
    if !are_all_free(scopes, scope, &conjunctions) {
        return Ok(false);
    }
    Ok(is_normal_sum(alloc, &conjunctions)?)
}
