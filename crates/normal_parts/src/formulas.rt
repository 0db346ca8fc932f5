//! Whether formulas are normal.

ghost use Rattle.std.specs.Prelude.{◌≡◌, ◌↔◌, ◌-◌, IfOk, IsTrue};
ghost use Rattle.std.specs.List.{All};
ghost use Rattle.rows.specs.Tables.{Grows};
ghost use Rattle.closures.specs.Environments.{deepest};
ghost use Rattle.closures.specs.Shown.{lists};
ghost use Rattle.closures.specs.Closures.{IsClosure};
ghost use Rattle.tree_frames.specs.Frames.{tree_in};
ghost use Rattle.normal_formulas.specs.Atoms.{lists_of};
ghost use Rattle.fixed_names.specs.Fixed.{IsFree};
ghost use Rattle.fixed_names.specs.Scopes.{IsWithin, fixed_in};
ghost use Rattle.fixed_names.specs.Shown.{fixed_by};
ghost use Rattle.normal_parts.specs.Parts.{AreAllFree, IsEnd, MayApply};

use closures::{Closure, Environments};
use fixed_names::{Scope, Scopes};
use normal_formulas::{Atom, is_normal_sum, sum_of};
use rows::Reader;
use std::alloc::{AllocError, Global};

/// Whether no name of these is fixed.
fn are_free(scopes: &Scopes, scope: Scope, atoms: &[Atom]) -> bool
    requires { IsWithin (fixed_by scopes.now) scope }
    ensures { IsTrue result
        ↔ All (λ a. IsFree (fixed_in (fixed_by scopes.now) scope) a.index.0) atoms.now }
{
    for atom in atoms {
        if !scopes.is_free(scope, atom.index.0) {
            return false;
        }
    }
    true
}

/// Whether no name in these lists is fixed.
pub fn are_all_free(scopes: &Scopes, scope: Scope, lists: &[Vec<Atom>]) -> bool
    requires { IsWithin (fixed_by scopes.now) scope }
    ensures { IsTrue result
        ↔ AreAllFree (fixed_in (fixed_by scopes.now) scope) (lists_of lists.now) }
{
    for atoms in lists {
        if !are_free(scopes, scope, atoms) {
            return false;
        }
    }
    true
}

/// Whether the sum of these products is 0 or 1.
fn is_end(products: &[Vec<Atom>]) -> bool
    ensures { IsTrue result ↔ IsEnd (lists_of products.now) }
{
    match products {
        [] => true,
        [product] => product.is_empty(),
        [_, _, ..] => false,
    }
}

/// Whether a path may be applied to the formula in a normal tree.
pub fn may_apply<R: Reader>(
    alloc: Global,
    rows: &R,
    environments: &mut Environments,
    scopes: &Scopes,
    scope: Scope,
    closure: Closure,
) -> Result<bool, AllocError>
    requires stands { IsClosure (R.means rows.now) (lists environments.old) (deepest - 1) closure }
    requires within { IsWithin (fixed_by scopes.now) scope }
    ensures grows { Grows (lists environments.old) (lists environments.new) }
    ensures tells { IfOk result (λ yes. IsTrue yes
        ↔ MayApply (fixed_in (fixed_by scopes.now) scope)
        (tree_in (R.means rows.now) (lists environments.old) closure)) }
{
    let Some(products) = sum_of(alloc, rows, environments, closure)? else {
        return Ok(false);
    };
    if is_end(&products) {
        return Ok(false);
    }
    if !are_all_free(scopes, scope, &products) {
        return Ok(false);
    }
    Ok(is_normal_sum(alloc, &products)?)
}
