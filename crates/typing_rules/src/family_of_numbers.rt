//! Written by tools/write_recipes.py.

use recipes::Row::{Conclude, Field, Instance, Make, Premise, Shift, Var, WithVar};
use recipes::{Row, table};
use theory::ContextRule::{SubId, SubWk};
use theory::InstanceRule::{TmSub, TmVar};
use theory::NatRule::NatU;
use theory::Op;
use theory::PiRule::App;
use theory::RuleName::{Contexts, Instances, Naturals, Pi, Universe};
use theory::UniverseRule::TyU;

/// A family of types of the numbers, at a new number.
/// Its parts are H c.
pub static FAMILY_OF_NUMBERS: &[Row] = table! {
    // 0: ctx H
    Premise(0),
    // 1: H >> c : pi nat U
    Premise(1),
    Field(0, 0),
    // 3: H >> nat : U
    Conclude(Naturals(NatU), [2, 0, 0, 0, 0, 0, 0, 0, 0, 0], [0, 0, 0, 0, 0, 0, 0]),
    Make(Op::Nat, [0, 0, 0, 0]),
    // 5: H >> nat
    Conclude(Universe(TyU), [2, 4, 0, 0, 0, 0, 0, 0, 0, 0], [3, 0, 0, 0, 0, 0, 0]),
    // 6: id : H to H
    Conclude(Contexts(SubId), [2, 0, 0, 0, 0, 0, 0, 0, 0, 0], [0, 0, 0, 0, 0, 0, 0]),
    Shift(0),
    // 8: up : H.nat to H
    Conclude(Contexts(SubWk), [2, 7, 2, 4, 0, 0, 0, 0, 0, 0], [6, 5, 0, 0, 0, 0, 0]),
    WithVar(2, 4),
    Shift(1),
    Field(1, 1),
    Make(Op::U, [0, 0, 0, 0]),
    Make(Op::Pi, [4, 12, 0, 0]),
    // 14: H.nat >> c+ : pi nat U
    Conclude(Instances(TmSub), [9, 10, 2, 11, 13, 0, 0, 0, 0, 0], [8, 1, 0, 0, 0, 0, 0]),
    // 15: H.nat >> var 0 : nat
    Conclude(Instances(TmVar), [2, 4, 0, 0, 0, 0, 0, 0, 0, 0], [5, 0, 0, 0, 0, 0, 0]),
    Instance(11, 10),
    Var(0),
    // 18: H.nat >> app c+ (var 0) : U
    Conclude(Pi(App), [9, 16, 17, 4, 12, 0, 0, 0, 0, 0], [14, 15, 0, 0, 0, 0, 0]),
};

/// The rows of what it gives: term.
pub static FAMILY_OF_NUMBERS_GIVES: &[u16] = &[18];
