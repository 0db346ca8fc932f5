//! Whether the tree of a row is normal.

ghost use Rattle.std.specs.Prelude.{◌≡◌, ◌↔◌, ◌⊎◌, ◌++◌, ◌∷◌, [], IfOk, IsTrue, Contains, OnOk};
ghost use Rattle.rows.specs.Tables.{Grows};
ghost use Rattle.rows.specs.Views.{IsTree};
ghost use Rattle.side_conditions.specs.Shapes.{tree_of};
ghost use Rattle.fixed_names.specs.Fixed.{fix, none_fixed};
ghost use Rattle.fixed_names.specs.Scopes.{IsWithin, fixed_in, depth_of};
ghost use Rattle.fixed_names.specs.Shown.{fixed_by};
ghost use Rattle.normal_parts.specs.Normal.{Normal};
ghost use Rattle.normality.specs.Worlds.{fix_each};

use crate::openings::{next_kid, open_part};
use crate::places::Place;
use crate::sides::open_sides;
use crate::tests::{Part, Test};
use closures::{Closure, Environments};
use fixed_names::{Scope, Scopes};
use indexmap::IndexSet;
use rows::{Reader, TermId};
use std::alloc::{AllocError, Global};

/// The scope in which these names are fixed.
fn scope_of(scopes: &mut Scopes, fixed: &[u128]) -> Result<Scope, AllocError>
    ensures fixes { IfOk result (λ s. fixed_in (fixed_by scopes.new) s ≡ fix_each fixed.now) }
    ensures within { IfOk result (IsWithin (fixed_by scopes.new)) }
    ensures depth { IfOk result (λ s. depth_of s ≡ 0) }
{
    let mut scope = Scope::Open;
    for index in fixed {
        scope = scopes.fix(scope, *index)?;
    }
    Ok(scope)
}

/// Whether a part has passed.
fn has_passed(passed: &IndexSet<Part>, part: Part) -> bool
    ensures { IsTrue result → Contains passed.now.keys part }
{
    passed.contains(&part)
}

/// Keeps a part that has passed.
fn keep(passed: &mut IndexSet<Part>, part: Part) -> Result<(), AllocError>
    ensures { OnOk result ((passed.new.keys ≡ passed.old.keys)
        ⊎ (passed.new.keys ≡ passed.old.keys ++ part ∷ [])) }
{
    match passed.insert_full(part) {
        Ok(_) => Ok(()),
        Err(_) => Err(AllocError),
    }
}

/// Whether the tree of a row is normal where the names of these indices are fixed. A row that
/// stands in it several times under one environment and one scope is looked at once.
pub fn is_normal_where<R: Reader>(
    alloc: Global,
    rows: &R,
    fixed: &[u128],
    term: TermId,
) -> Result<bool, AllocError>
    requires { IsTree (R.means rows.now term.0) }
    ensures { IfOk result (λ yes. IsTrue yes
        ↔ Normal (fix_each fixed.now) (tree_of (R.means rows.now term.0))) }
{
    let mut environments = Environments::new(alloc);
    let mut scopes = Scopes::new(alloc);
    let scope = scope_of(&mut scopes, fixed)?;
    let mut passed = IndexSet::new(alloc);
    let mut tests = Vec::new(alloc);
    tests.push(Test::Tree(Part {
        place: Place::Anywhere,
        scope,
        closure: Closure::of_row(term),
    }))?;
    while let Some(test) = tests.pop() {
        match test {
            Test::Keep(part) => keep(&mut passed, part)?,
            Test::Tree(part) => {
                if !has_passed(&passed, part) {
                    if !open_part(alloc, rows, &mut environments, &scopes, &mut tests, part)? {
                        return Ok(false);
                    }
                }
            }
            Test::Kids(scope, frame) => {
                next_kid(rows, &environments, &scopes, &mut tests, scope, frame)?;
            }
            Test::Sides(sides) => {
                if !open_sides(
                    alloc,
                    rows,
                    &mut environments,
                    &mut scopes,
                    &mut tests,
                    sides,
                )? {
                    return Ok(false);
                }
            }
        }
    }
    Ok(true)
}
