//! A maker of a few rows that are known beforehand.

use rows::{Maker, Rows};
use std::alloc::AllocError;
use theory::Op;

/// `[]`
pub const NIL: u64 = 0;

pub const NAT: u64 = 1;

pub const UNIVERSE: u64 = 2;

pub const ZERO: u64 = 3;

/// `suc zero`
pub const ONE: u64 = 4;

/// `[].nat`
pub const CTX: u64 = 5;

/// `shift 0`
pub const ID: u64 = 6;

/// `shift 1`
pub const UP: u64 = 7;

/// `var 0`
pub const VAR: u64 = 8;

/// `push id zero`
pub const PUSHED: u64 = 9;

/// `pi nat nat`
pub const PI: u64 = 10;

/// `lam nat (var 0)`
pub const LAM: u64 = 11;

/// `app (lam nat (var 0)) zero`
pub const APP: u64 = 12;

/// `[].I`
pub const NAMED: u64 = 13;

/// `f1`
pub const FACE: u64 = 14;

/// `[].f1`
pub const FACED: u64 = 15;

/// `[].f1.I`
pub const FACED_NAMED: u64 = 16;

/// `join f1 f1`
pub const JOINED: u64 = 17;

/// `i0`
pub const START: u64 = 18;

/// `i1`
pub const END: u64 = 19;

/// `push id i0`
pub const AT_START: u64 = 20;

/// `push id i1`
pub const AT_END: u64 = 21;

/// `comp nat f1 zero (var 0)`
pub const COMPOSED: u64 = 22;

/// `comp U f1 (suc zero) (lam nat (var 0))`
pub const COMPOSED_OTHERWISE: u64 = 23;

/// Makes the rows above, and has memory for no other.
#[derive(Drop)]
pub struct KnownRows;

impl Rows for KnownRows {
    ghost use Rattle.std.specs.Prelude.{◌∷◌, [], slice_get};
    ghost use Rattle.trees.specs.declared.op.Op.TheVariants as op;
    ghost use Rattle.trees.specs.Trees.{Var, Make, NoTrees, More, shift_by, push};
    ghost use Rattle.trees.specs.Judgements.{Nil, WithVar, WithName, WithFace};
    ghost use Rattle.trees.specs.Things.{AContext, ATree, ASubst};

    ghost means = { λ s.
        let nat = Make op.Nat NoTrees in
        let zero = Make op.Zero NoTrees in
        let lam = Make op.Lam (More nat (More (Var 0) NoTrees)) in
        let face = Make op.F1 NoTrees in
        let one = Make op.Suc (More zero NoTrees) in
        let universe = Make op.U NoTrees in
        let start = Make op.I0 NoTrees in
        let end = Make op.I1 NoTrees in
        slice_get (AContext Nil ∷ ATree nat ∷ ATree universe ∷ ATree zero ∷ ATree one
        ∷ AContext (WithVar Nil nat) ∷ ASubst (shift_by 0) ∷ ASubst (shift_by 1) ∷ ATree (Var 0)
        ∷ ASubst (push (shift_by 0) zero) ∷ ATree (Make op.Pi (More nat (More nat NoTrees)))
        ∷ ATree lam ∷ ATree (Make op.App (More lam (More zero NoTrees)))
        ∷ AContext (WithName Nil) ∷ ATree face ∷ AContext (WithFace Nil face)
        ∷ AContext (WithName (WithFace Nil face))
        ∷ ATree (Make op.Join (More face (More face NoTrees)))
        ∷ ATree start ∷ ATree end
        ∷ ASubst (push (shift_by 0) start) ∷ ASubst (push (shift_by 0) end)
        ∷ ATree (Make op.Comp (More nat (More face (More zero (More (Var 0) NoTrees)))))
        ∷ ATree (Make op.Comp (More universe (More face (More one (More lam NoTrees)))))
        ∷ []) };
}

impl Maker for KnownRows {
    ghost spare = { λ s. 0 };

    fn var(&mut self, index: u32) -> Result<u64, AllocError> {
        match index {
            0 => Ok(VAR),
            _ => Err(AllocError),
        }
    }

    fn make(&mut self, op: Op, kids: &[u64]) -> Result<u64, AllocError> {
        match (op, kids) {
            (Op::Nat, []) => Ok(NAT),
            (Op::U, []) => Ok(UNIVERSE),
            (Op::Zero, []) => Ok(ZERO),
            (Op::F1, []) => Ok(FACE),
            (Op::Suc, [3]) => Ok(ONE),
            (Op::Pi, [1, 1]) => Ok(PI),
            (Op::Lam, [1, 8]) => Ok(LAM),
            (Op::App, [11, 3]) => Ok(APP),
            (Op::Join, [14, 14]) => Ok(JOINED),
            (Op::I0, []) => Ok(START),
            (Op::I1, []) => Ok(END),
            (Op::Comp, [1, 14, 3, 8]) => Ok(COMPOSED),
            (Op::Comp, [2, 14, 4, 11]) => Ok(COMPOSED_OTHERWISE),
            _ => Err(AllocError),
        }
    }

    fn instance(&mut self, term: u64, sub: u64) -> Result<u64, AllocError> {
        match (term, sub) {
            (1, 6) | (1, 7) | (1, 9) | (1, 20) | (1, 21) => Ok(NAT),
            (3, 20) | (8, 9) => Ok(ZERO),
            (14, 6) => Ok(FACE),
            _ => Err(AllocError),
        }
    }

    fn shift(&mut self, by: u64) -> Result<u64, AllocError> {
        match by {
            0 => Ok(ID),
            1 => Ok(UP),
            _ => Err(AllocError),
        }
    }

    fn push(&mut self, sub: u64, term: u64) -> Result<u64, AllocError> {
        match (sub, term) {
            (6, 3) => Ok(PUSHED),
            (6, 18) => Ok(AT_START),
            (6, 19) => Ok(AT_END),
            _ => Err(AllocError),
        }
    }

    fn then(&mut self, first: u64, second: u64) -> Result<u64, AllocError> {
        match (first, second) {
            (6, 7) => Ok(UP),
            _ => Err(AllocError),
        }
    }

    fn ctx_nil(&mut self) -> Result<u64, AllocError> {
        Ok(NIL)
    }

    fn ctx_var(&mut self, ctx: u64, ty: u64) -> Result<u64, AllocError> {
        match (ctx, ty) {
            (0, 1) => Ok(CTX),
            _ => Err(AllocError),
        }
    }

    fn ctx_name(&mut self, ctx: u64) -> Result<u64, AllocError> {
        match ctx {
            0 => Ok(NAMED),
            15 => Ok(FACED_NAMED),
            _ => Err(AllocError),
        }
    }

    fn ctx_face(&mut self, ctx: u64, face: u64) -> Result<u64, AllocError> {
        match (ctx, face) {
            (0, 14) => Ok(FACED),
            _ => Err(AllocError),
        }
    }
}
