//! Written by tools/write_recipes.py.

use recipes::Row::{Conclude, Make, Nil, Shift, Var, WithVar};
use recipes::{Row, table};
use theory::ContextRule::{CtxNil, CtxVar, SubId, SubWk};
use theory::InstanceRule::{TmSub, TmVar};
use theory::NatRule::NatU;
use theory::Op;
use theory::PiRule::PiTy;
use theory::RuleName::{Contexts, Instances, Naturals, Pi, Universe};
use theory::UniverseRule::TyU;

/// A function of numbers and a number, both variables.
pub static VARIABLES: &[Row] = table! {
    // 0: ctx []
    Conclude(Contexts(CtxNil), [0, 0, 0, 0, 0, 0, 0, 0, 0, 0], [0, 0, 0, 0, 0, 0, 0]),
    Nil,
    // 2: [] >> nat : U
    Conclude(Naturals(NatU), [1, 0, 0, 0, 0, 0, 0, 0, 0, 0], [0, 0, 0, 0, 0, 0, 0]),
    Make(Op::Nat, [0, 0, 0, 0]),
    // 4: [] >> nat
    Conclude(Universe(TyU), [1, 3, 0, 0, 0, 0, 0, 0, 0, 0], [2, 0, 0, 0, 0, 0, 0]),
    // 5: ctx N
    Conclude(Contexts(CtxVar), [1, 3, 0, 0, 0, 0, 0, 0, 0, 0], [4, 0, 0, 0, 0, 0, 0]),
    WithVar(1, 3),
    // 7: N >> nat : U
    Conclude(Naturals(NatU), [6, 0, 0, 0, 0, 0, 0, 0, 0, 0], [5, 0, 0, 0, 0, 0, 0]),
    // 8: N >> nat
    Conclude(Universe(TyU), [6, 3, 0, 0, 0, 0, 0, 0, 0, 0], [7, 0, 0, 0, 0, 0, 0]),
    // 9: [] >> function
    Conclude(Pi(PiTy), [1, 3, 3, 0, 0, 0, 0, 0, 0, 0], [4, 8, 0, 0, 0, 0, 0]),
    Make(Op::Pi, [3, 3, 0, 0]),
    // 11: ctx F
    Conclude(Contexts(CtxVar), [1, 10, 0, 0, 0, 0, 0, 0, 0, 0], [9, 0, 0, 0, 0, 0, 0]),
    WithVar(1, 10),
    // 13: F >> nat : U
    Conclude(Naturals(NatU), [12, 0, 0, 0, 0, 0, 0, 0, 0, 0], [11, 0, 0, 0, 0, 0, 0]),
    // 14: F >> nat
    Conclude(Universe(TyU), [12, 3, 0, 0, 0, 0, 0, 0, 0, 0], [13, 0, 0, 0, 0, 0, 0]),
    // 15: F >> var 0 : function
    Conclude(Instances(TmVar), [1, 10, 0, 0, 0, 0, 0, 0, 0, 0], [9, 0, 0, 0, 0, 0, 0]),
    // 16: id : F to F
    Conclude(Contexts(SubId), [12, 0, 0, 0, 0, 0, 0, 0, 0, 0], [11, 0, 0, 0, 0, 0, 0]),
    Shift(0),
    // 18: up : G to F
    Conclude(Contexts(SubWk), [12, 17, 12, 3, 0, 0, 0, 0, 0, 0], [16, 14, 0, 0, 0, 0, 0]),
    WithVar(12, 3),
    Shift(1),
    Var(0),
    // 22: G >> var 1 : function
    Conclude(Instances(TmSub), [19, 20, 12, 21, 10, 0, 0, 0, 0, 0], [18, 15, 0, 0, 0, 0, 0]),
    // 23: G >> var 0 : nat
    Conclude(Instances(TmVar), [12, 3, 0, 0, 0, 0, 0, 0, 0, 0], [14, 0, 0, 0, 0, 0, 0]),
};

/// The rows of what it gives: function, number.
pub static VARIABLES_GIVES: &[u16] = &[22, 23];
