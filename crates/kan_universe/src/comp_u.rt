//! Written by tools/write_recipes.py.

use recipes::Row::{Conclude, Derive, Field, Make, Part, Premise, Shift, Var};
use recipes::{Row, table};
use theory::CompRule::CompU;
use theory::ContextRule::{CtxFace, SubForm, SubId, SubWkFace, SubWkName};
use theory::EqualityRule::{TmConv, TyEqSym, TyEqTrans};
use theory::GlueRule::GlueU;
use theory::InstanceRule::{TmInt, TmSub, TySub};
use theory::Op;
use theory::RuleName::{Composition, Contexts, Equality, Gluing, Instances, Universe};
use theory::UniverseRule::{TyEqU, TyU};

/// Composition at the universe, as in the paper by Cohen et al., section 7.1: the base, with the
/// sides glued on along the equivalences that their lines give, each turned round.
/// Its parts are G p b a.
pub static COMP_U: &[Row] = table! {
    Premise(0),
    Premise(1),
    Premise(2),
    Premise(3),
    Part(0),
    Part(1),
    Conclude(Contexts(CtxFace), [4, 5, 0, 0, 0, 0, 0, 0, 0, 0], [0, 0, 0, 0, 0, 0, 0]),
    Field(3, 0),
    Conclude(Contexts(SubId), [7, 0, 0, 0, 0, 0, 0, 0, 0, 0], [6, 0, 0, 0, 0, 0, 0]),
    Shift(0),
    Conclude(Contexts(SubWkName), [7, 9, 7, 0, 0, 0, 0, 0, 0, 0], [8, 0, 0, 0, 0, 0, 0]),
    Field(1, 0),
    Shift(1),
    Var(0),
    Make(Op::Neg, [13, 0, 0, 0]),
    Conclude(Contexts(SubForm), [11, 12, 7, 14, 0, 0, 0, 0, 0, 0], [10, 0, 0, 0, 0, 0, 0]),
    Field(15, 1),
    Part(2),
    Field(1, 2),
    Conclude(Instances(TmSub), [11, 16, 11, 17, 18, 0, 0, 0, 0, 0], [15, 1, 0, 0, 0, 0, 0]),
    Field(19, 1),
    Conclude(Universe(TyU), [11, 20, 0, 0, 0, 0, 0, 0, 0, 0], [19, 0, 0, 0, 0, 0, 0]),
    // 22: eqv
    Derive(0, [7, 20, 0, 0, 0, 0, 0, 0, 0, 0], [6, 21, 0, 0, 0, 0, 0, 0, 0, 0, 0, 0, 0, 0, 0, 0]),
    Make(Op::I0, [0, 0, 0, 0]),
    Make(Op::Neg, [23, 0, 0, 0]),
    Conclude(Contexts(SubForm), [7, 9, 7, 24, 0, 0, 0, 0, 0, 0], [8, 0, 0, 0, 0, 0, 0]),
    Make(Op::I1, [0, 0, 0, 0]),
    Conclude(Contexts(SubForm), [7, 9, 7, 26, 0, 0, 0, 0, 0, 0], [8, 0, 0, 0, 0, 0, 0]),
    Field(25, 1),
    Field(27, 1),
    Conclude(Instances(TmInt), [7, 28, 29, 11, 17, 18, 0, 0, 0, 0], [25, 27, 1, 0, 0, 0, 0]),
    Field(30, 1),
    Field(30, 2),
    // 33: b(neg 0) = b(1)
    Conclude(Universe(TyEqU), [7, 31, 32, 0, 0, 0, 0, 0, 0, 0], [30, 0, 0, 0, 0, 0, 0]),
    Part(3),
    Field(3, 2),
    // 36: a = b(0)
    Conclude(Universe(TyEqU), [7, 34, 35, 0, 0, 0, 0, 0, 0, 0], [3, 0, 0, 0, 0, 0, 0]),
    Make(Op::Neg, [26, 0, 0, 0]),
    Conclude(Contexts(SubForm), [7, 9, 7, 37, 0, 0, 0, 0, 0, 0], [8, 0, 0, 0, 0, 0, 0]),
    Conclude(Contexts(SubForm), [7, 9, 7, 23, 0, 0, 0, 0, 0, 0], [8, 0, 0, 0, 0, 0, 0]),
    Field(38, 1),
    Field(39, 1),
    Conclude(Instances(TmInt), [7, 40, 41, 11, 17, 18, 0, 0, 0, 0], [38, 39, 1, 0, 0, 0, 0]),
    Field(42, 1),
    // 44: b(neg 1) = b(0)
    Conclude(Universe(TyEqU), [7, 43, 35, 0, 0, 0, 0, 0, 0, 0], [42, 0, 0, 0, 0, 0, 0]),
    Conclude(Equality(TyEqSym), [7, 34, 35, 0, 0, 0, 0, 0, 0, 0], [36, 0, 0, 0, 0, 0, 0]),
    // 46: b(neg 1) = b(0) = a
    Conclude(Equality(TyEqTrans), [7, 43, 35, 34, 0, 0, 0, 0, 0, 0], [44, 45, 0, 0, 0, 0, 0]),
    Conclude(Instances(TySub), [7, 41, 11, 20, 0, 0, 0, 0, 0, 0], [39, 21, 0, 0, 0, 0, 0]),
    Conclude(Instances(TySub), [7, 29, 11, 20, 0, 0, 0, 0, 0, 0], [27, 21, 0, 0, 0, 0, 0]),
    Conclude(Instances(TmSub), [7, 29, 11, 17, 18, 0, 0, 0, 0, 0], [27, 1, 0, 0, 0, 0, 0]),
    Conclude(Universe(TyU), [7, 32, 0, 0, 0, 0, 0, 0, 0, 0], [49, 0, 0, 0, 0, 0, 0]),
    Conclude(Contexts(SubId), [4, 0, 0, 0, 0, 0, 0, 0, 0, 0], [0, 0, 0, 0, 0, 0, 0]),
    Conclude(Contexts(SubWkFace), [4, 9, 4, 5, 0, 0, 0, 0, 0, 0], [51, 0, 0, 0, 0, 0, 0]),
    Conclude(Instances(TmSub), [7, 9, 4, 34, 18, 0, 0, 0, 0, 0], [52, 2, 0, 0, 0, 0, 0]),
    Conclude(Universe(TyU), [7, 34, 0, 0, 0, 0, 0, 0, 0, 0], [53, 0, 0, 0, 0, 0, 0]),
    // 55: equiv_tycong
    Derive(1, [7, 31, 43, 32, 34, 0, 0, 0, 0, 0],
        [6, 47, 48, 50, 54, 33, 46, 0, 0, 0, 0, 0, 0, 0, 0, 0]),
    Field(22, 1),
    Field(22, 2),
    Field(55, 2),
    // 59: turned_equivalence : equiv b(neg 0) b(neg 1) = equiv b(1) a
    Conclude(Equality(TmConv), [7, 56, 57, 58, 0, 0, 0, 0, 0, 0], [22, 55, 0, 0, 0, 0, 0]),
    // 60: Glue a p b(1) turned_equivalence : U
    Conclude(Gluing(GlueU), [4, 34, 5, 32, 56, 0, 0, 0, 0, 0], [2, 49, 59, 0, 0, 0, 0]),
    // 61: comp (i. U) p (i. b) a = Glue a p b(1) turned_equivalence : U
    Conclude(Composition(CompU), [4, 5, 17, 34, 0, 0, 0, 0, 0, 0], [1, 2, 3, 0, 0, 0, 0]),
};

/// The rows of what it gives: typing, equal.
pub static COMP_U_GIVES: &[u16] = &[60, 61];
