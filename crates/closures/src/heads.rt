//! The head of a closure.

ghost use Rattle.std.specs.Prelude.{◌≡◌, ◌<◌, ◌≤◌, ◌+◌, ℕ, IfOk, IfSome};
ghost use Rattle.std.specs.List.{All};
ghost use Rattle.trees.specs.Operators.{kids_of, binds_of};
ghost use Rattle.rows.specs.Tables.{Grows};
ghost use Rattle.closures.specs.Shown.{lists};
ghost use Rattle.closures.specs.Environments.{deepest, listed, deepened, IsWithin};
ghost use Rattle.rows.specs.Views.{IsSubst};
ghost use Rattle.closures.specs.Closures.{IsClosure, HeadStands, closure_meaning, head_meaning};
ghost use Rattle.closures.specs.Closures.{IsDelayed, delayed_subst, subst_of};
ghost use Rattle.closures.specs.Waits.{WaitsFor};
ghost use Rattle.closures.specs.Weights.{row_weight};
ghost use Rattle.trees.specs.Trees.{shift_by, then};

use crate::closure::Closure;
use crate::environments::{Delayed, Environment, Environments};
use crate::variables::{Found, look};
use rows::{Reader, SubId, SubSize, TermId, TermRow};
use std::alloc::AllocError;
use trees::{Op, binds};

/// What stands outermost in a tree.
#[derive(Clone, Copy, Debug)]
pub enum Head<'a> {
    /// The variable of this index.
    Var(u128),
    /// An operator over the rows of its kids, under the environment.
    Make(Op, &'a [u64], Environment),
}

/// The shift that a shift and then a substitution are, if it drops all the trees that this pushes.
fn shift_past<R: Reader>(rows: &R, shift: u64, delayed: Delayed) -> Option<u64>
    requires { IsDelayed (R.means rows.now) delayed }
    ensures { let f = R.means rows.now in IfSome result (λ both.
        then (shift_by shift) (delayed_subst f delayed) ≡ shift_by both) }
{
    match delayed {
        Delayed::Raised(by) => shift.checked_add(by),
        Delayed::Under(subst) => {
            let SubSize {
                pushed: Some(pushed),
                shift: by,
            } = rows.size(subst)
            else {
                return None;
            };
            let left = shift.checked_sub(pushed)?;
            let both = left.checked_add(by)?;
            Some(both)
        }
    }
}

/// The environment where a shift waits before others. It is one shift with those that wait first,
/// and trees that these push and it drops are gone. So a tree that is weakened has one environment
/// under what it does not depend on.
fn shifted<R: Reader>(
    rows: &R,
    environments: &mut Environments,
    shift: u64,
    rest: Environment,
) -> Result<Environment, AllocError>
    requires within { IsWithin (lists environments.old) rest }
    requires substs { All (λ w. IsDelayed (R.means rows.now) w.delayed)
        (listed (lists environments.old) rest) }
    ensures grows { Grows (lists environments.old) (lists environments.new) }
    ensures list { IfOk result (λ env. WaitsFor (R.means rows.now) (shift_by shift) 1
        (listed (lists environments.old) rest) (listed (lists environments.new) env)) }
    ensures within { IfOk result (λ env. IsWithin (lists environments.new) env) }
{
    let mut shift = shift;
    let mut rest = rest;
    while let Environment::Node(at, 0) = rest {
        let node = environments.node(at);
        match shift_past(rows, shift, node.delayed) {
            Some(both) => shift = both,
            None => break,
        }
        rest = node.rest;
    }
    if shift == 0 {
        return Ok(rest);
    }
    Ok(environments.push(Delayed::Raised(shift), rest)?)
}

/// The environment where the substitution of a row waits before others, as a shift if it is one.
fn before<R: Reader>(
    rows: &R,
    environments: &mut Environments,
    subst: SubId,
    rest: Environment,
) -> Result<Environment, AllocError>
    requires subst { IsSubst (R.means rows.now subst.0) }
    requires within { IsWithin (lists environments.old) rest }
    requires substs { All (λ w. IsDelayed (R.means rows.now) w.delayed)
        (listed (lists environments.old) rest) }
    ensures grows { Grows (lists environments.old) (lists environments.new) }
    ensures list { let f = R.means rows.now in IfOk result (λ env.
        WaitsFor f (subst_of (f subst.0)) (row_weight subst.0)
        (listed (lists environments.old) rest) (listed (lists environments.new) env)) }
    ensures within { IfOk result (λ env. IsWithin (lists environments.new) env) }
{
    match rows.size(subst) {
        SubSize {
            pushed: Some(0),
            shift,
        } => Ok(shifted(rows, environments, shift, rest)?),
        _ => Ok(environments.push(Delayed::Under(subst), rest)?),
    }
}

/// Opens a closure: instances are met and variables looked up, until a variable stays or an
/// operator comes.
pub fn head_of<'a, R: Reader>(
    rows: &'a R,
    environments: &mut Environments,
    closure: Closure,
) -> Result<Head<'a>, AllocError>
    requires { IsClosure (R.means rows.now) (lists environments.old) deepest closure }
    ensures grows { Grows (lists environments.old) (lists environments.new) }
    ensures meaning { let f = R.means rows.now in
        IfOk result (λ h. head_meaning f (lists environments.new) h
        ≡ closure_meaning f (lists environments.old) closure) }
    ensures stands { let f = R.means rows.now in
        IfOk result (λ h. (n : ℕ) → IsClosure f (lists environments.old) n closure
        → HeadStands f (lists environments.new) n h) }
{
    let mut closure = closure;
    loop {
        match rows.term(closure.row) {
            TermRow::Var(index) => match look(rows, environments, index, closure.environment)? {
                Found::Index(index) => return Ok(Head::Var(index)),
                Found::Tree(tree) => closure = tree,
            },
            TermRow::Make(op, kids) => return Ok(Head::Make(op, kids, closure.environment)),
            TermRow::Instance(tree, subst) => {
                closure = Closure {
                    row: tree,
                    environment: before(rows, environments, subst, closure.environment)?,
                };
            }
        }
    }
}

/// The closure of a kid of an operator: its row, under the binders of its place.
pub fn kid(
    environments: &Environments,
    op: Op,
    at: u8,
    row: u64,
    environment: Environment,
) -> Closure
    requires place { at < kids_of op }
    requires within { IsWithin (lists environments.now) environment }
    requires shallow { All (λ w. w.depth < deepest) (listed (lists environments.now) environment) }
    ensures row { result.row.0 ≡ row }
    ensures list { let known = lists environments.now in
        listed known result.environment ≡ deepened (binds_of op at) (listed known environment) }
    ensures within { IsWithin (lists environments.now) result.environment }
{
    Closure {
        row: TermId(row),
        environment: environments.deeper(environment, u64::from(binds(op, at))),
    }
}
