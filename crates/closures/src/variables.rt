//! What a variable becomes under an environment.

ghost use Rattle.std.specs.Prelude.{◌≡◌, ◌<◌, ◌≤◌, ◌+◌, ◌^◌, ◌∷◌, ℕ, length, IfOk};
ghost use Rattle.std.specs.List.{All};
ghost use Rattle.rows.specs.Views.{IsSubst};
ghost use Rattle.rows.specs.Tables.{Grows};
ghost use Rattle.closures.specs.Shown.{lists};
ghost use Rattle.closures.specs.Environments.{deepest, listed, deepened, waiting, IsWithin};
ghost use Rattle.closures.specs.Closures.{Stands, StandsUnder, EnteredStands, FoundStands};
ghost use Rattle.closures.specs.Closures.{IsPassed, IsNear, raised_list, variable_meaning};
ghost use Rattle.closures.specs.Closures.{entered_meaning, found_meaning};
ghost use Rattle.closures.specs.Weights.{row_weight, weight_of, entered_weight, FoundLess};

use crate::chains::chained;
use crate::closure::Closure;
use crate::environments::{Delayed, Environment, Environments};
use rows::{Reader, SubId, SubRow, SubSize};
use std::alloc::AllocError;

/// What a variable becomes.
#[derive(Clone, Copy, Debug)]
pub enum Found {
    /// The variable of this index.
    Index(u128),
    /// The tree of a closure.
    Tree(Closure),
}

/// What a variable becomes that has met one substitution.
#[derive(Clone, Copy, Debug)]
pub enum Entered {
    /// The variable of this index, under what waits after.
    Past(u128, Environment),
    /// The tree of a closure.
    Tree(Closure),
}

/// The environment of a tree that is lifted over so many binders, before what waits after these.
fn raised(
    environments: &mut Environments,
    lift: u64,
    after: Environment,
) -> Result<Environment, AllocError>
    requires within { IsWithin (lists environments.old) after }
    requires shallow { All (λ w. w.depth + lift ≤ deepest) (listed (lists environments.old) after) }
    ensures grows { Grows (lists environments.old) (lists environments.new) }
    ensures list { IfOk result (λ env. listed (lists environments.new) env ≡
        raised_list lift (deepened lift (listed (lists environments.old) after))) }
    ensures within { IfOk result (λ env. IsWithin (lists environments.new) env) }
{
    let rest = environments.deeper(after, lift);
    if lift == 0 {
        return Ok(rest);
    }
    Ok(environments.push(Delayed::Raised(lift), rest)?)
}

/// The index past all the trees that a substitution pushes, under `lift` binders, if a variable
/// passes them.
pub fn passed<R: Reader>(rows: &R, subst: SubId, index: u128, lift: u64) -> Option<u128>
    requires subst { IsSubst (R.means rows.now subst.0) }
    requires above { lift ≤ index }
    requires fits { index + 2 ^ 64 ≤ 2 ^ 128 }
    ensures { IsPassed (R.means rows.now subst.0) lift index result }
{
    let SubSize { pushed, shift } = rows.size(subst);
    let trees = u128::from(pushed?);
    if index - u128::from(lift) < trees {
        return None;
    }
    Some(index - trees + u128::from(shift))
}

/// A variable meets the substitution of a row under `lift` binders, which do not bind it, before
/// what waits after these. It passes in one step where its tree is not among those that are pushed,
/// so that each row of a chain is met at most once.
fn enter<R: Reader>(
    rows: &R,
    environments: &mut Environments,
    subst: SubId,
    index: u128,
    lift: u64,
    after: Environment,
) -> Result<Entered, AllocError>
    requires subst { IsSubst (R.means rows.now subst.0) }
    requires above { lift ≤ index }
    requires fits { index + 2 ^ 64 ≤ 2 ^ 128 }
    requires stands { StandsUnder (R.means rows.now) (lists environments.old) deepest lift after }
    ensures grows { Grows (lists environments.old) (lists environments.new) }
    ensures meaning { let f = R.means rows.now in let ws = listed (lists environments.old) after in
        IfOk result (λ e. entered_meaning f (lists environments.new) e
        ≡ variable_meaning f (waiting lift (Delayed.Under subst) ∷ deepened lift ws) index) }
    ensures stands { let f = R.means rows.now in
        IfOk result (λ e. (n : ℕ) → StandsUnder f (lists environments.old) n lift after
        → EnteredStands f (lists environments.new) n e) }
    ensures weight { IfOk result (λ e. entered_weight (lists environments.new) e
        < row_weight subst.0 + weight_of (listed (lists environments.old) after)) }
    ensures near { IfOk result (IsNear index) }
{
    let (mut subst, mut index, mut after) = (subst, index, after);
    loop {
        if let Some(past) = passed(rows, subst, index, lift) {
            let rest = environments.deeper(after, lift);
            return Ok(Entered::Past(past, rest));
        }
        match rows.subst(subst) {
            SubRow::Push(next, tree) => {
                if index == u128::from(lift) {
                    let environment = raised(environments, lift, after)?;
                    return Ok(Entered::Tree(Closure {
                        row: tree,
                        environment,
                    }));
                }
                index -= 1;
                subst = next;
            }
            SubRow::Then(first, second) => {
                after = environments.push(Delayed::Under(second), after)?;
                subst = first;
            }
            SubRow::Shift(_) => unreachable!(),
        }
    }
}

/// A variable meets what waits at a node, under `lift` binders.
fn pass<R: Reader>(
    rows: &R,
    environments: &mut Environments,
    index: u128,
    at: usize,
    lift: u64,
) -> Result<Entered, AllocError>
    requires fits { index + 2 ^ 64 ≤ 2 ^ 128 }
    requires stands { Stands (R.means rows.now)
        (lists environments.old) deepest (Environment.Node at lift) }
    ensures grows { Grows (lists environments.old) (lists environments.new) }
    ensures meaning { let f = R.means rows.now in
        IfOk result (λ e. entered_meaning f (lists environments.new) e
        ≡ variable_meaning f (listed (lists environments.old) (Environment.Node at lift)) index) }
    ensures stands { let f = R.means rows.now in
        IfOk result (λ e. (n : ℕ) → Stands f (lists environments.old) n (Environment.Node at lift)
        → EnteredStands f (lists environments.new) n e) }
    ensures weight { IfOk result (λ e. entered_weight (lists environments.new) e
        < weight_of (listed (lists environments.old) (Environment.Node at lift))) }
    ensures near { IfOk result (IsNear index) }
{
    let node = environments.node(at);
    if index < u128::from(lift) {
        return Ok(Entered::Past(index, environments.deeper(node.rest, lift)));
    }
    match node.delayed {
        Delayed::Raised(by) => {
            let rest = environments.deeper(node.rest, lift);
            Ok(Entered::Past(index + u128::from(by), rest))
        }
        Delayed::Under(subst) => {
            let alloc = environments.alloc();
            if let Some(past) = chained(alloc, rows, subst, index, lift)? {
                return Ok(Entered::Past(past, environments.deeper(node.rest, lift)));
            }
            Ok(enter(rows, environments, subst, index, lift, node.rest)?)
        }
    }
}

/// What the variable of an index becomes.
pub fn look<R: Reader>(
    rows: &R,
    environments: &mut Environments,
    index: u32,
    environment: Environment,
) -> Result<Found, AllocError>
    requires { Stands (R.means rows.now) (lists environments.old) deepest environment }
    ensures grows { Grows (lists environments.old) (lists environments.new) }
    ensures meaning { let f = R.means rows.now in
        IfOk result (λ x. found_meaning f (lists environments.new) x
        ≡ variable_meaning f (listed (lists environments.old) environment) index) }
    ensures stands { let f = R.means rows.now in
        IfOk result (λ x. (n : ℕ) → Stands f (lists environments.old) n environment
        → FoundStands f (lists environments.new) n x) }
    ensures weight { IfOk result (FoundLess (lists environments.new)
        (weight_of (listed (lists environments.old) environment))) }
{
    let mut index = u128::from(index);
    let mut environment = environment;
    while let Environment::Node(at, lift) = environment {
        match pass(rows, environments, index, at, lift)? {
            Entered::Past(next, rest) => {
                index = next;
                environment = rest;
            }
            Entered::Tree(closure) => return Ok(Found::Tree(closure)),
        }
    }
    Ok(Found::Index(index))
}
