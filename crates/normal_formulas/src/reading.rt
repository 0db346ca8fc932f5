//! Formulas and faces that are read as sums of products, where they are written as such.

ghost use Rattle.std.specs.Prelude.{◌≡◌, ◌≢◌, ◌⊎◌, ◌-◌, ◌++◌, ◌∷◌, [], IfOk, option_map};
ghost use Rattle.trees.specs.Operators.{kids_of};
ghost use Rattle.trees.specs.Trees.{Var};
ghost use Rattle.rows.specs.Tables.{Grows};
ghost use Rattle.closures.specs.Environments.{deepest};
ghost use Rattle.closures.specs.Shown.{lists};
ghost use Rattle.closures.specs.Closures.{IsClosure};
ghost use Rattle.tree_frames.specs.Frames.{tree_in};
ghost use Rattle.normal_formulas.specs.Atoms.{atom_tree, product, sum_of_products, cover, lists_of};
ghost use Rattle.normal_formulas.specs.Reads.{Reads, IsJoiner, AreParts};

use crate::atoms::{Atom, Sort, joiner_of, none_of, sign_of};
use closures::{Closure, Environments};
use rows::Reader;
use std::alloc::{AllocError, Global};
use std::cmp::Reverse;
use tree_frames::{Opened, kid_of, open_tree};
use trees::Op;

/// The name that a tree is.
fn name_of<R: Reader>(
    rows: &R,
    environments: &mut Environments,
    closure: Closure,
) -> Result<Option<u128>, AllocError>
    requires { IsClosure (R.means rows.now) (lists environments.old) (deepest - 1) closure }
    ensures grows { Grows (lists environments.old) (lists environments.new) }
    ensures reads { IfOk result
        (Reads Var (tree_in (R.means rows.now) (lists environments.old) closure)) }
{
    match open_tree(rows, environments, closure, 0)? {
        Opened::Variable(index) => Ok(Some(index)),
        Opened::Operator(_) => Ok(None),
    }
}

/// The atom that a tree is.
fn atom_of<R: Reader>(
    rows: &R,
    environments: &mut Environments,
    sort: Sort,
    closure: Closure,
) -> Result<Option<Atom>, AllocError>
    requires { IsClosure (R.means rows.now) (lists environments.old) (deepest - 1) closure }
    ensures grows { Grows (lists environments.old) (lists environments.new) }
    ensures reads { IfOk result
        (Reads (atom_tree sort) (tree_in (R.means rows.now) (lists environments.old) closure)) }
{
    match open_tree(rows, environments, closure, 0)? {
        Opened::Variable(index) => match sort {
            Sort::Literals => Ok(Some(Atom {
                index: Reverse(index),
                sign: false,
            })),
            Sort::Equations => Ok(None),
        },
        Opened::Operator(frame) => {
            let Some(sign) = sign_of(sort, frame.op) else {
                return Ok(None);
            };
            let name = kid_of(rows, environments, &frame, 0);
            match name_of(rows, environments, name)? {
                Some(index) => Ok(Some(Atom {
                    index: Reverse(index),
                    sign,
                })),
                None => Ok(None),
            }
        }
    }
}

/// The parts, where there are none; else with the rest as one more.
fn or_alone(mut parts: Vec<Closure>, rest: Closure) -> Result<Vec<Closure>, AllocError>
    ensures { IfOk result (λ all. ((parts.items ≡ []) × (all.items ≡ []))
        ⊎ ((parts.items ≡ [] → ⊥) × (all.items ≡ parts.items ++ rest ∷ []))) }
{
    if !parts.is_empty() {
        parts.push(rest)?;
    }
    Ok(parts)
}

/// The trees that a tree joins, nested to the right; none where it is the join of none.
fn parts<R: Reader>(
    alloc: Global,
    rows: &R,
    environments: &mut Environments,
    joiner: Op,
    none: Op,
    closure: Closure,
) -> Result<Vec<Closure>, AllocError>
    requires stands { IsClosure (R.means rows.now) (lists environments.old) (deepest - 1) closure }
    requires joiner { IsJoiner joiner }
    requires none { kids_of none ≡ 0 }
    requires apart { none ≢ joiner }
    ensures grows { Grows (lists environments.old) (lists environments.new) }
    ensures parts { let f = R.means rows.now in IfOk result (λ parts.
        AreParts f (lists environments.new) (deepest - 1) joiner none
        (tree_in f (lists environments.old) closure) parts.items) }
{
    let mut parts = Vec::new(alloc);
    let mut rest = closure;
    loop {
        match open_tree(rows, environments, rest, 0)? {
            Opened::Operator(frame) => {
                if frame.op == joiner {
                    parts.push(kid_of(rows, environments, &frame, 0))?;
                    rest = kid_of(rows, environments, &frame, 1);
                } else if frame.op == none {
                    let all = or_alone(parts, rest)?;
                    return Ok(all);
                } else {
                    parts.push(rest)?;
                    return Ok(parts);
                }
            }
            Opened::Variable(_) => {
                parts.push(rest)?;
                return Ok(parts);
            }
        }
    }
}

/// The atoms of the product or the conjunction that a tree is, in the order in which they stand.
pub fn product_of<R: Reader>(
    alloc: Global,
    rows: &R,
    environments: &mut Environments,
    sort: Sort,
    closure: Closure,
) -> Result<Option<Vec<Atom>>, AllocError>
    requires { IsClosure (R.means rows.now) (lists environments.old) (deepest - 1) closure }
    ensures grows { Grows (lists environments.old) (lists environments.new) }
    ensures reads { IfOk result (λ found.
        Reads (product sort) (tree_in (R.means rows.now) (lists environments.old) closure)
        (option_map (λ atoms. atoms.items) found)) }
{
    let parts = parts(
        alloc,
        rows,
        environments,
        joiner_of(sort),
        none_of(sort),
        closure,
    )?;
    let mut atoms = Vec::new(alloc);
    for part in &parts {
        let Some(atom) = atom_of(rows, environments, sort, *part)? else {
            return Ok(None);
        };
        atoms.push(atom)?;
    }
    Ok(Some(atoms))
}

/// The products of the sum that a tree is, in the order in which they stand.
pub fn sum_of<R: Reader>(
    alloc: Global,
    rows: &R,
    environments: &mut Environments,
    closure: Closure,
) -> Result<Option<Vec<Vec<Atom>>>, AllocError>
    requires { IsClosure (R.means rows.now) (lists environments.old) (deepest - 1) closure }
    ensures grows { Grows (lists environments.old) (lists environments.new) }
    ensures reads { IfOk result (λ found.
        Reads sum_of_products (tree_in (R.means rows.now) (lists environments.old) closure)
        (option_map (λ products. lists_of products.items) found)) }
{
    let parts = parts(alloc, rows, environments, Op::Max, Op::I0, closure)?;
    let mut products = Vec::new(alloc);
    for part in &parts {
        let Some(product) = product_of(alloc, rows, environments, Sort::Literals, *part)? else {
            return Ok(None);
        };
        products.push(product)?;
    }
    Ok(Some(products))
}

/// The conjunctions of the face that a tree is, in the order in which they stand.
pub fn cover_of<R: Reader>(
    alloc: Global,
    rows: &R,
    environments: &mut Environments,
    closure: Closure,
) -> Result<Option<Vec<Vec<Atom>>>, AllocError>
    requires { IsClosure (R.means rows.now) (lists environments.old) (deepest - 1) closure }
    ensures grows { Grows (lists environments.old) (lists environments.new) }
    ensures reads { IfOk result (λ found.
        Reads cover (tree_in (R.means rows.now) (lists environments.old) closure)
        (option_map (λ conjunctions. lists_of conjunctions.items) found)) }
{
    let mut conjunctions = Vec::new(alloc);
    let mut rest = closure;
    loop {
        let Opened::Operator(frame) = open_tree(rows, environments, rest, 0)? else {
            return Ok(None);
        };
        if frame.op == Op::F0 {
            return Ok(Some(conjunctions));
        }
        if frame.op != Op::Join {
            return Ok(None);
        }
        rest = kid_of(rows, environments, &frame, 1);
        let first = kid_of(rows, environments, &frame, 0);
        let Some(conjunction) = product_of(alloc, rows, environments, Sort::Equations, first)?
        else {
            return Ok(None);
        };
        conjunctions.push(conjunction)?;
    }
}
