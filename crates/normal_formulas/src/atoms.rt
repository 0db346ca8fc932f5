//! Names with a sign.

ghost use Rattle.std.specs.Prelude.{◌≡◌};
ghost use Rattle.normal_formulas.specs.Atoms as atoms;

use antichains::Element;
use std::cmp::Reverse;
use trees::Op;

/// The name of an index with a sign: in a formula whether it is negated, in a face at which end it
/// is, 1 for `true`. Atoms go by level, so that a greater index comes first, and `false` before
/// `true`.
#[derive(Clone, Copy, Debug, PartialEq, Eq, PartialOrd, Ord)]
pub struct Atom {
    pub index: Reverse<u128>,
    pub sign: bool,
}

impl Element for Atom {
    ghost use Rattle.std.proofs.Common.{rules};

    ghost exact = { Prim.search (rules) };
}

/// What products are made of.
#[derive(Clone, Copy, Debug, PartialEq, Eq)]
pub enum Sort {
    /// Names and their negations, in a formula.
    Literals,
    /// Names at an end, in a face.
    Equations,
}

/// The sign of an atom that is an operator over a name.
pub fn sign_of(sort: Sort, op: Op) -> Option<bool>
    ensures { result ≡ atoms.sign_of sort op }
{
    match sort {
        Sort::Literals => { if op == Op::Neg { Some(true) } else { None } }
        Sort::Equations => {
            if op == Op::Eq0 {
                Some(false)
            } else if op == Op::Eq1 {
                Some(true)
            } else {
                None
            }
        }
    }
}

/// The operator that joins atoms.
pub fn joiner_of(sort: Sort) -> Op
    ensures { result ≡ atoms.joiner_of sort }
{
    match sort {
        Sort::Literals => Op::Min,
        Sort::Equations => Op::Meet,
    }
}

/// The product of no atoms.
pub fn none_of(sort: Sort) -> Op
    ensures { result ≡ atoms.none_of sort }
{
    match sort {
        Sort::Literals => Op::I1,
        Sort::Equations => Op::F1,
    }
}
