//! The outermost form of a substitution.

ghost use Rattle.std.specs.Prelude.{◌≡◌, ℕ, IfOk};
ghost use Rattle.std.specs.List.{All};
ghost use Rattle.rows.specs.Tables.{Grows};
ghost use Rattle.closures.specs.Environments.{listed, IsWithin};
ghost use Rattle.closures.specs.Shown.{lists};
ghost use Rattle.closures.specs.Substs.{IsPlain, IsFirst, IsSubstClosure, SubstHeadStands};
ghost use Rattle.closures.specs.Substs.{subst_closure_meaning, subst_head_meaning};

use crate::closure::Closure;
use crate::environments::{Delayed, Environment, Environments};
use crate::variables::passed;
use rows::{Reader, SubId, SubRow};
use std::alloc::AllocError;

/// The substitution of a row, and then those of an environment, all under no binder.
#[derive(Clone, Copy, Debug, PartialEq, Eq, Hash)]
pub struct SubstClosure {
    pub row: SubId,
    pub environment: Environment,
}

impl SubstClosure {
    /// The substitution of a row as it is.
    pub fn of_row(row: SubId) -> SubstClosure
        ensures row { result.row ≡ row }
        ensures environment { result.environment ≡ Environment.Empty }
    {
        SubstClosure {
            row,
            environment: Environment::Empty,
        }
    }
}

/// What stands outermost in a substitution.
#[derive(Clone, Copy, Debug)]
pub enum SubstHead {
    /// The shift by so many.
    Shift(u128),
    /// A substitution with the tree of a closure pushed on it.
    Push(SubstClosure, Closure),
}

/// The substitution that waits first, and what waits after it.
fn first_waiting(
    environments: &Environments,
    environment: Environment,
) -> Option<(SubId, Environment)>
    requires within { IsWithin (lists environments.now) environment }
    requires plain { All IsPlain (listed (lists environments.now) environment) }
    ensures { IsFirst (lists environments.now) environment result }
{
    let Environment::Node(at, _) = environment else {
        return None;
    };
    let node = environments.node(at);
    match node.delayed {
        Delayed::Under(subst) => Some((subst, node.rest)),
        Delayed::Raised(_) => unreachable!(),
    }
}

/// Opens a substitution: substitutions that come one after another are carried out until a shift or
/// a push stands outermost.
pub fn subst_head<R: Reader>(
    rows: &R,
    environments: &mut Environments,
    closure: SubstClosure,
) -> Result<SubstHead, AllocError>
    requires { IsSubstClosure (R.means rows.now) (lists environments.old) closure }
    ensures grows { Grows (lists environments.old) (lists environments.new) }
    ensures meaning { let f = R.means rows.now in
        IfOk result (λ h. subst_head_meaning f (lists environments.new) h
        ≡ subst_closure_meaning f (lists environments.old) closure) }
    ensures stands { IfOk result (SubstHeadStands (R.means rows.now) (lists environments.new)) }
{
    let SubstClosure {
        mut row,
        mut environment,
    } = closure;
    // the number of trees that the shifts met so far drop
    let mut dropped = 0;
    loop {
        if let Some(past) = passed(rows, row, dropped, 0) {
            let Some((next, rest)) = first_waiting(environments, environment) else {
                return Ok(SubstHead::Shift(past));
            };
            (dropped, row, environment) = (past, next, rest);
            continue;
        }
        match rows.subst(row) {
            SubRow::Push(next, tree) => {
                if dropped == 0 {
                    let rest = SubstClosure {
                        row: next,
                        environment,
                    };
                    let tree = Closure {
                        row: tree,
                        environment,
                    };
                    return Ok(SubstHead::Push(rest, tree));
                }
                dropped -= 1;
                row = next;
            }
            SubRow::Then(first, second) => {
                environment = environments.push(Delayed::Under(second), environment)?;
                row = first;
            }
            SubRow::Shift(_) => unreachable!(),
        }
    }
}
