//! Projections, names of the interval, and what is applied to the innermost variable or name.

ghost use Rattle.std.specs.Prelude.{◌≡◌, IfOk};
ghost use Rattle.trees.specs.declared.op.Op.{Op};
ghost use Rattle.trees.specs.Trees.{Tree};
ghost use Rattle.trees.specs.Things.{Kept};
ghost use Rattle.trees.specs.Operators.{kids_of};
ghost use Rattle.rows.specs.Views.{IsTree};
ghost use Rattle.translation.specs.Forms.{project};
ghost use Rattle.form_rows.specs.Meant.{Is};
ghost use Rattle.form_rows.specs.Systems.{at_innermost, path_lambdas, taken_by};

use crate::lifting::lifted;
use rows::Maker;
use std::alloc::AllocError;
use syntax::Projection;
use trees::Op;

fn taken_by(projection: &Projection) -> Op
    ensures { result ≡ taken_by projection.now }
{
    match projection {
        Projection::First(_) => Op::Fst,
        Projection::Second(_) => Op::Snd,
    }
}

/// The components of a pair that projections take, one after the other.
pub fn projected<M: Maker>(
    maker: &mut M,
    pair: u64,
    projections: &[Projection],
) -> Result<u64, AllocError>
    requires { IsTree (M.means maker.old pair) }
    ensures kept { Kept (M.means maker.old) (M.means maker.new) }
    ensures projected { IfOk result (λ r. (t : Tree) → Is (M.means maker.old) pair t
        → Is (M.means maker.new) r (project t projections.now)) }
{
    let mut row = pair;
    for projection in projections {
        row = maker.make(taken_by(projection), &[row])?;
    }
    Ok(row)
}

/// The path lambdas of so many names over a body.
pub fn under_names<M: Maker>(maker: &mut M, names: usize, body: u64) -> Result<u64, AllocError>
    requires { IsTree (M.means maker.old body) }
    ensures kept { Kept (M.means maker.old) (M.means maker.new) }
    ensures lambdas { IfOk result (λ r. (t : Tree) → Is (M.means maker.old) body t
        → Is (M.means maker.new) r (path_lambdas names t)) }
{
    let mut row = body;
    for _name in 0..names {
        row = maker.make(Op::PLam, &[row])?;
    }
    Ok(row)
}

/// A tree from outside, applied by an operator to the innermost variable or name.
pub fn applied_inside<M: Maker>(maker: &mut M, op: Op, row: u64) -> Result<u64, AllocError>
    requires two { kids_of op ≡ 2 }
    requires tree { IsTree (M.means maker.old row) }
    ensures kept { Kept (M.means maker.old) (M.means maker.new) }
    ensures applied { IfOk result (λ r. (t : Tree) → Is (M.means maker.old) row t
        → Is (M.means maker.new) r (at_innermost op t)) }
{
    let outside = lifted(maker, row, 1)?;
    let innermost = maker.var(0)?;
    Ok(maker.make(op, &[outside, innermost])?)
}
