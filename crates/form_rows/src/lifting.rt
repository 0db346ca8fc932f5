//! Weakening.

ghost use Rattle.std.specs.Prelude.{IfOk};
ghost use Rattle.trees.specs.Trees.{Tree, apply, shift_by};
ghost use Rattle.trees.specs.Things.{Kept};
ghost use Rattle.rows.specs.Views.{IsTree};
ghost use Rattle.form_rows.specs.Meant.{Is};

use rows::Maker;
use std::alloc::AllocError;

/// The tree of a row, weakened by so many variables and names.
pub fn lifted<M: Maker>(maker: &mut M, row: u64, by: u32) -> Result<u64, AllocError>
    requires { IsTree (M.means maker.old row) }
    ensures kept { Kept (M.means maker.old) (M.means maker.new) }
    ensures lifted { IfOk result (λ r. (t : Tree) → Is (M.means maker.old) row t
        → Is (M.means maker.new) r (apply t (shift_by by))) }
{
    if by == 0 {
        return Ok(row);
    }
    let shift = maker.shift(u64::from(by))?;
    Ok(maker.instance(row, shift)?)
}
