//! The walk over pairs of closures.

ghost use Rattle.std.specs.Prelude.{◌≡◌, ◌↔◌, ◌-◌, ℕ, suc, length, drop};
ghost use Rattle.std.specs.Prelude.{IfOk, OnOk, IsTrue, true, false};
ghost use Rattle.std.specs.List.{All};
ghost use Rattle.rows.specs.Tables.{Grows};
ghost use Rattle.closures.specs.Environments.{deepest};
ghost use Rattle.closures.specs.Shown.{lists};
ghost use Rattle.closures.specs.Closures.{Stands};
ghost use Rattle.compare.specs.Pairs.{Agrees, IsPair, Opens};
ghost use Rattle.compare.specs.Kids.{KidsStand, KidsOpen, kids_meant};

use crate::pairs::{Pair, add_pair};
use crate::readings::read_alike;
use closures::{Environment, Environments, Head, head_of, kid};
use indexmap::IndexSet;
use rows::Reader;
use std::alloc::AllocError;
use trees::{Op, kid_count};

/// The rows of an operator's kids, and what waits before them.
#[derive(Clone, Copy, Debug)]
struct Kids<'a> {
    rows: &'a [u64],
    environment: Environment,
}

/// Adds the pairs of the kids of one operator on both sides.
fn add_kids<R: Reader>(
    rows: &R,
    environments: &Environments,
    pairs: &mut IndexSet<Pair>,
    op: Op,
    left: &Kids<'_>,
    right: &Kids<'_>,
) -> Result<(), AllocError>
    requires left { let f = R.means rows.now in let known = lists environments.now in
        KidsStand f known (deepest - 1) op left.now.rows.now left.now.environment }
    requires right { let f = R.means rows.now in let known = lists environments.now in
        KidsStand f known (deepest - 1) op right.now.rows.now right.now.environment }
    ensures opens { let f = R.means rows.now in let known = lists environments.now in
        OnOk result (KidsOpen f known
        (kids_meant f known op left.now.rows.now left.now.environment)
        (kids_meant f known op right.now.rows.now right.now.environment)
        pairs.old.keys pairs.new.keys) }
    ensures stand { let f = R.means rows.now in let known = lists environments.now in
        OnOk result ((n : ℕ) → Stands f known n left.now.environment →
        Stands f known n right.now.environment
        → All (IsPair f known (suc n)) (drop (length pairs.old.keys) pairs.new.keys)) }
{
    for at in 0..kid_count(op) {
        let place = at as usize;
        let pair = Pair {
            left: kid(environments, op, at, left.rows[place], left.environment),
            right: kid(environments, op, at, right.rows[place], right.environment),
        };
        add_pair(pairs, pair)?;
    }
    Ok(())
}

/// Opens both closures of a pair and adds the pairs of their kids. The answer is no where they
/// differ outermost.
fn open_pair<R: Reader>(
    rows: &R,
    environments: &mut Environments,
    pairs: &mut IndexSet<Pair>,
    pair: Pair,
) -> Result<bool, AllocError>
    requires { IsPair (R.means rows.now) (lists environments.old) (deepest - 1) pair }
    ensures grows { Grows (lists environments.old) (lists environments.new) }
    ensures yes { let f = R.means rows.now in
        IfOk result (λ same. same ≡ true →
        Opens f (lists environments.new) pair pairs.old.keys pairs.new.keys) }
    ensures stand { let f = R.means rows.now in
        IfOk result (λ same. same ≡ true → (n : ℕ) → IsPair f (lists environments.old) n pair
        → All (IsPair f (lists environments.new) (suc n))
        (drop (length pairs.old.keys) pairs.new.keys)) }
    ensures no { let f = R.means rows.now in
        IfOk result (λ same. same ≡ false → Agrees f (lists environments.old) pair → ⊥) }
{
    let left = head_of(rows, environments, pair.left)?;
    let right = head_of(rows, environments, pair.right)?;
    match (left, right) {
        (Head::Var(left), Head::Var(right)) => Ok(left == right),
        (Head::Make(op, lefts, left), Head::Make(other, rights, right)) => {
            if op != other {
                return Ok(false);
            }
            let left = Kids {
                rows: lefts,
                environment: left,
            };
            let right = Kids {
                rows: rights,
                environment: right,
            };
            add_kids(rows, environments, pairs, op, &left, &right)?;
            Ok(true)
        }
        (Head::Var(_), Head::Make(_, _, _)) | (Head::Make(_, _, _), Head::Var(_)) => Ok(false),
    }
}

/// Looks at a pair: closures whose rows read alike, under one environment, agree; others are
/// opened.
fn settle_pair<R: Reader>(
    rows: &R,
    environments: &mut Environments,
    pairs: &mut IndexSet<Pair>,
    pair: Pair,
) -> Result<bool, AllocError>
    requires { IsPair (R.means rows.now) (lists environments.old) (deepest - 1) pair }
    ensures grows { Grows (lists environments.old) (lists environments.new) }
    ensures yes { let f = R.means rows.now in
        IfOk result (λ same. same ≡ true →
        Opens f (lists environments.new) pair pairs.old.keys pairs.new.keys) }
    ensures stand { let f = R.means rows.now in
        IfOk result (λ same. same ≡ true → (n : ℕ) → IsPair f (lists environments.old) n pair
        → All (IsPair f (lists environments.new) (suc n))
        (drop (length pairs.old.keys) pairs.new.keys)) }
    ensures no { let f = R.means rows.now in
        IfOk result (λ same. same ≡ false → Agrees f (lists environments.old) pair → ⊥) }
{
    let Pair { left, right } = pair;
    if left.environment == right.environment && read_alike(rows, left.row, right.row) {
        return Ok(true);
    }
    open_pair(rows, environments, pairs, pair)
}

/// Whether all pairs agree. Each pair is opened once, and pairs of kids come after the others.
pub fn all_agree<R: Reader>(
    rows: &R,
    environments: &mut Environments,
    pairs: &mut IndexSet<Pair>,
) -> Result<bool, AllocError>
    requires { All (IsPair (R.means rows.now) (lists environments.old) 0) pairs.old.keys }
    ensures { let f = R.means rows.now in
        IfOk result (λ same. IsTrue same ↔ All (Agrees f (lists environments.old)) pairs.old.keys) }
{
    let mut at = 0;
    while at < pairs.len() {
        let pair = pairs[at];
        if !settle_pair(rows, environments, pairs, pair)? {
            return Ok(false);
        }
        at += 1;
    }
    Ok(true)
}
