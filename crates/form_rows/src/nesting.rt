//! Operators that nest to the right.

ghost use Rattle.std.specs.Prelude.{◌≡◌, List, IfOk};
ghost use Rattle.trees.specs.Trees.{Tree};
ghost use Rattle.trees.specs.Things.{Kept};
ghost use Rattle.trees.specs.Operators.{kids_of};
ghost use Rattle.rows.specs.Views.{IsTree};
ghost use Rattle.form_rows.specs.Meant.{Is, Are, AreTrees, nest, nest_all};

use rows::Maker;
use std::alloc::AllocError;
use trees::Op;

/// An operator of two kids over each of the rows and what comes after it, the last over `last`.
pub fn nested<M: Maker>(maker: &mut M, op: Op, rows: &[u64], last: u64) -> Result<u64, AllocError>
    requires two { kids_of op ≡ 2 }
    requires rows { AreTrees (M.means maker.old) rows.now }
    requires last { IsTree (M.means maker.old last) }
    ensures kept { Kept (M.means maker.old) (M.means maker.new) }
    ensures nested { IfOk result (λ r. (ts : List Tree) (t : Tree) →
        Are (M.means maker.old) rows.now ts → Is (M.means maker.old) last t
        → Is (M.means maker.new) r (nest op ts t)) }
{
    let mut row = last;
    let mut at = rows.len();
    while at > 0 {
        at -= 1;
        row = maker.make(op, &[rows[at], row])?;
    }
    Ok(row)
}

/// The same where the last stands among the rows; of no rows, the other operator.
pub fn tupled<M: Maker>(maker: &mut M, op: Op, none: Op, rows: &[u64]) -> Result<u64, AllocError>
    requires two { kids_of op ≡ 2 }
    requires zero { kids_of none ≡ 0 }
    requires rows { AreTrees (M.means maker.old) rows.now }
    ensures kept { Kept (M.means maker.old) (M.means maker.new) }
    ensures nested { IfOk result (λ r. (ts : List Tree) → Are (M.means maker.old) rows.now ts
        → Is (M.means maker.new) r (nest_all op none ts)) }
{
    match rows {
        [] => Ok(maker.make(none, &[])?),
        [rest @ .., last] => Ok(nested(maker, op, rest, *last)?),
    }
}
