//! The sides of systems.

ghost use Rattle.std.specs.Prelude.{◌≡◌, List, IfOk, length, map};
ghost use Rattle.trees.specs.Trees.{Tree};
ghost use Rattle.trees.specs.Things.{Kept};
ghost use Rattle.translation.specs.Terms.{lifted as lifted_tree};
ghost use Rattle.form_rows.specs.Meant.{Is, Are, AreTrees};
ghost use Rattle.form_rows.specs.Systems.{cover_of, body_of};

use crate::lifting::lifted;
use crate::nesting::nested;
use rows::Maker;
use std::alloc::{AllocError, Global};
use trees::Op;

/// The join of the faces, where one of the sides stands.
pub fn cover<M: Maker>(maker: &mut M, faces: &[u64]) -> Result<u64, AllocError>
    requires { AreTrees (M.means maker.old) faces.now }
    ensures kept { Kept (M.means maker.old) (M.means maker.new) }
    ensures covers { IfOk result (λ r. (ps : List Tree) → Are (M.means maker.old) faces.now ps
        → Is (M.means maker.new) r (cover_of ps)) }
{
    let none = maker.make(Op::F0, &[])?;
    Ok(nested(maker, Op::Join, faces, none)?)
}

/// The system that is each of the values on its face.
pub fn system<M: Maker>(maker: &mut M, faces: &[u64], values: &[u64]) -> Result<u64, AllocError>
    requires as_many { length faces.now ≡ length values.now }
    requires faces { AreTrees (M.means maker.old) faces.now }
    requires values { AreTrees (M.means maker.old) values.now }
    ensures kept { Kept (M.means maker.old) (M.means maker.new) }
    ensures body { IfOk result (λ r. (ps ts : List Tree) → Are (M.means maker.old) faces.now ps
        → Are (M.means maker.old) values.now ts → Is (M.means maker.new) r (body_of ps ts)) }
{
    let mut others = maker.make(Op::F0, &[])?;
    let mut row = maker.make(Op::Empty, &[])?;
    let mut at = faces.len();
    while at > 0 {
        at -= 1;
        row = maker.make(Op::Sys, &[faces[at], others, values[at], row])?;
        others = maker.make(Op::Join, &[faces[at], others])?;
    }
    Ok(row)
}

/// The trees of the rows, each weakened once.
pub fn all_lifted<M: Maker>(
    alloc: Global,
    maker: &mut M,
    rows: &[u64],
) -> Result<Vec<u64>, AllocError>
    requires { AreTrees (M.means maker.old) rows.now }
    ensures kept { Kept (M.means maker.old) (M.means maker.new) }
    ensures lifted { IfOk result (λ rs. (ts : List Tree) → Are (M.means maker.old) rows.now ts
        → Are (M.means maker.new) rs.items (map lifted_tree ts)) }
{
    let mut all = Vec::new(alloc);
    for row in rows {
        all.push(lifted(maker, *row, 1)?)?;
    }
    Ok(all)
}
