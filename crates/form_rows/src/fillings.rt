//! Filling.

ghost use Rattle.std.specs.Prelude.{◌≡◌, IfOk, Some};
ghost use Rattle.trees.specs.Trees.{Tree};
ghost use Rattle.trees.specs.Things.{Kept, ASubst};
ghost use Rattle.rows.specs.Views.{IsTree};
ghost use Rattle.translation.specs.Systems.{filling};
ghost use Rattle.form_rows.specs.Meant.{Is};
ghost use Rattle.form_rows.specs.Fillings.{slanted, filled, filled_body, filled_cover};

use crate::formulas::equation;
use crate::lifting::lifted;
use crate::systems::{cover, system};
use codes::Equation;
use rows::Maker;
use std::alloc::AllocError;
use syntax::End;
use trees::Op;

/// The innermost name at 0.
const START: Equation = Equation {
    index: 0,
    end: End::Zero,
};

/// The next name at 0.
const OUTER_START: Equation = Equation {
    index: 1,
    end: End::Zero,
};

/// The substitution that takes a tree over the name of a line to one over two names, at the least
/// of them.
fn slant<M: Maker>(maker: &mut M) -> Result<u64, AllocError>
    ensures kept { Kept (M.means maker.old) (M.means maker.new) }
    ensures slants { IfOk result (λ d. M.means maker.new d ≡ Some (ASubst slanted)) }
{
    let outer = maker.var(1)?;
    let inner = maker.var(0)?;
    let least = maker.make(Op::Min, &[outer, inner])?;
    let past = maker.shift(2)?;
    Ok(maker.push(past, least)?)
}

/// Where the sides of a filling stand: on the cover, and where its name is at 0.
fn filled_on<M: Maker>(maker: &mut M, face: u64) -> Result<u64, AllocError>
    requires { IsTree (M.means maker.old face) }
    ensures kept { Kept (M.means maker.old) (M.means maker.new) }
    ensures covers { IfOk result (λ r. (p : Tree) → Is (M.means maker.old) face p
        → Is (M.means maker.new) r (filled_cover p)) }
{
    let inside = lifted(maker, face, 1)?;
    let start = equation(maker, START)?;
    Ok(cover(maker, &[inside, start])?)
}

/// The sides of a filling: the body, and the base where the name of the filling is at 0.
fn filled_by<M: Maker>(maker: &mut M, face: u64, body: u64, base: u64) -> Result<u64, AllocError>
    requires face { IsTree (M.means maker.old face) }
    requires body { IsTree (M.means maker.old body) }
    requires base { IsTree (M.means maker.old base) }
    ensures kept { Kept (M.means maker.old) (M.means maker.new) }
    ensures sides { IfOk result (λ r. (p b a : Tree) → Is (M.means maker.old) face p
        → Is (M.means maker.old) body b → Is (M.means maker.old) base a
        → Is (M.means maker.new) r (filled_body p b a)) }
{
    let inside = lifted(maker, face, 2)?;
    let start = equation(maker, OUTER_START)?;
    let value = lifted(maker, base, 2)?;
    Ok(system(maker, &[inside, start], &[body, value])?)
}

/// The filling at its name, along a line and over a body that stand at the least of two names.
fn filled<M: Maker>(
    maker: &mut M,
    line: u64,
    face: u64,
    body: u64,
    base: u64,
) -> Result<u64, AllocError>
    requires line { IsTree (M.means maker.old line) }
    requires face { IsTree (M.means maker.old face) }
    requires body { IsTree (M.means maker.old body) }
    requires base { IsTree (M.means maker.old base) }
    ensures kept { Kept (M.means maker.old) (M.means maker.new) }
    ensures filled { IfOk result (λ r. (A p b a : Tree) → Is (M.means maker.old) line A
        → Is (M.means maker.old) face p → Is (M.means maker.old) body b
        → Is (M.means maker.old) base a → Is (M.means maker.new) r (filled A p b a)) }
{
    let sides = filled_by(maker, face, body, base)?;
    let cover = filled_on(maker, face)?;
    let inside = lifted(maker, base, 1)?;
    Ok(maker.make(Op::Comp, &[line, cover, sides, inside])?)
}

/// The path that filling makes, from the base to the composition.
pub fn filling<M: Maker>(
    maker: &mut M,
    line: u64,
    cover: u64,
    body: u64,
    base: u64,
) -> Result<u64, AllocError>
    requires line { IsTree (M.means maker.old line) }
    requires cover { IsTree (M.means maker.old cover) }
    requires body { IsTree (M.means maker.old body) }
    requires base { IsTree (M.means maker.old base) }
    ensures kept { Kept (M.means maker.old) (M.means maker.new) }
    ensures fills { IfOk result (λ r. (A p b a : Tree) → Is (M.means maker.old) line A
        → Is (M.means maker.old) cover p → Is (M.means maker.old) body b
        → Is (M.means maker.old) base a → Is (M.means maker.new) r (filling A p b a)) }
{
    let slant = slant(maker)?;
    let line = maker.instance(line, slant)?;
    let body = maker.instance(body, slant)?;
    let filled = filled(maker, line, cover, body, base)?;
    Ok(maker.make(Op::PLam, &[filled])?)
}
