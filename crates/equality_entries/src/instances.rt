//! What stands behind the conclusions of a family of rules. Written by
//! tools/write_entries.py.

ghost use Rattle.std.specs.Prelude.{[], ◌∷◌, List};
ghost use Rattle.theory.specs.declared.rule.RuleName.TheVariants.{Instances};
ghost use Rattle.presuppositions.specs.declared.source.Label.TheVariants as label;
ghost use Rattle.presuppositions.specs.Entries.{Answers};
ghost use Rattle.recipes.specs.Statements.{Statement};

use crate::tm_cong::{TM_CONG_LEFT, TM_CONG_RIGHT, TM_CONG_TYPE};
use crate::tm_int::{TM_INT_LEFT, TM_INT_RIGHT, TM_INT_TYPE};
use crate::tm_sub::TM_SUB_TYPE;
use crate::tm_var::{TM_VAR_CONTEXT, TM_VAR_TYPE};
use crate::tmeq_sub::{TMEQ_SUB_LEFT, TMEQ_SUB_RIGHT, TMEQ_SUB_TYPE};
use crate::ty_cong::{TY_CONG_LEFT, TY_CONG_RIGHT};
use crate::ty_int::{TY_INT_LEFT, TY_INT_RIGHT};
use crate::tyeq_sub::{TYEQ_SUB_LEFT, TYEQ_SUB_RIGHT};
use Source::{Behind, Further, Premise};
use presuppositions::{Entry, Label, Source, at_hand, derived};
use theory::InstanceRule;

/// The contexts.
fn context_of_instance(rule: InstanceRule) -> Option<Entry>
    ensures { (earlier : List Statement) → Answers earlier (Instances rule) label.Context result }
{
    match rule {
        InstanceRule::TySub => at_hand(&[Behind(0, Label::From)]),
        InstanceRule::TyEqSub => at_hand(&[Behind(0, Label::From)]),
        InstanceRule::TmSub => at_hand(&[Behind(0, Label::From)]),
        InstanceRule::TmEqSub => at_hand(&[Behind(0, Label::From)]),
        InstanceRule::TyCong => at_hand(&[Behind(0, Label::From)]),
        InstanceRule::TmCong => at_hand(&[Behind(0, Label::From)]),
        InstanceRule::TyInt => at_hand(&[Behind(0, Label::From)]),
        InstanceRule::TmInt => at_hand(&[Behind(0, Label::From)]),
        InstanceRule::TmVar => derived(&[Premise(0)], TM_VAR_CONTEXT, 3),
    }
}

/// The types of terms.
fn type_of_instance(rule: InstanceRule) -> Option<Entry>
    ensures { (earlier : List Statement) → Answers earlier (Instances rule) label.Type result }
{
    match rule {
        InstanceRule::TmSub => derived(&[Premise(0), Behind(1, Label::Type)], TM_SUB_TYPE, 6),
        InstanceRule::TmEqSub => derived(&[Premise(0), Behind(1, Label::Type)], TMEQ_SUB_TYPE, 6),
        InstanceRule::TmCong => derived(
            &[
                Premise(0),
                Behind(1, Label::Type),
                Behind(2, Label::Left),
                Further(1, Label::Context, Label::Type),
            ],
            TM_CONG_TYPE,
            13,
        ),
        InstanceRule::TmInt => derived(&[Premise(0), Behind(2, Label::Type)], TM_INT_TYPE, 6),
        InstanceRule::TmVar => derived(&[Premise(0), Behind(0, Label::Context)], TM_VAR_TYPE, 9),
        InstanceRule::TySub | InstanceRule::TyEqSub | InstanceRule::TyCong | InstanceRule::TyInt =>
            None,
    }
}

/// The left sides, typed.
fn left_of_instance(rule: InstanceRule) -> Option<Entry>
    ensures { (earlier : List Statement) → Answers earlier (Instances rule) label.Left result }
{
    match rule {
        InstanceRule::TyEqSub => derived(&[Premise(0), Behind(1, Label::Left)], TYEQ_SUB_LEFT, 6),
        InstanceRule::TmEqSub => derived(&[Premise(0), Behind(1, Label::Left)], TMEQ_SUB_LEFT, 7),
        InstanceRule::TyCong => derived(
            &[
                Premise(0),
                Premise(1),
                Behind(2, Label::Left),
                Further(1, Label::Context, Label::Type),
            ],
            TY_CONG_LEFT,
            13,
        ),
        InstanceRule::TmCong => derived(
            &[
                Premise(0),
                Premise(1),
                Behind(2, Label::Left),
                Further(1, Label::Context, Label::Type),
            ],
            TM_CONG_LEFT,
            14,
        ),
        InstanceRule::TyInt => derived(&[Premise(0), Premise(2)], TY_INT_LEFT, 6),
        InstanceRule::TmInt => derived(&[Premise(0), Premise(2)], TM_INT_LEFT, 7),
        InstanceRule::TySub | InstanceRule::TmSub | InstanceRule::TmVar => None,
    }
}

/// The right sides, typed.
fn right_of_instance(rule: InstanceRule) -> Option<Entry>
    ensures { (earlier : List Statement) → Answers earlier (Instances rule) label.Right result }
{
    match rule {
        InstanceRule::TyEqSub => derived(&[Premise(0), Behind(1, Label::Right)], TYEQ_SUB_RIGHT, 6),
        InstanceRule::TmEqSub => derived(&[Premise(0), Behind(1, Label::Right)], TMEQ_SUB_RIGHT, 7),
        InstanceRule::TyCong => derived(
            &[
                Premise(0),
                Premise(1),
                Behind(2, Label::Right),
                Further(1, Label::Context, Label::Type),
            ],
            TY_CONG_RIGHT,
            13,
        ),
        InstanceRule::TmCong => derived(
            &[
                Premise(0),
                Premise(1),
                Premise(2),
                Behind(1, Label::Type),
                Behind(2, Label::Right),
                Further(1, Label::Context, Label::Type),
            ],
            TM_CONG_RIGHT,
            24,
        ),
        InstanceRule::TyInt => derived(&[Premise(1), Premise(2)], TY_INT_RIGHT, 6),
        InstanceRule::TmInt => derived(
            &[Premise(0), Premise(1), Premise(2), Behind(2, Label::Type)],
            TM_INT_RIGHT,
            16,
        ),
        InstanceRule::TySub | InstanceRule::TmSub | InstanceRule::TmVar => None,
    }
}

/// What stands behind the conclusion of a rule of the family.
pub fn instance_entry(rule: InstanceRule, label: Label) -> Option<Entry>
    ensures { (earlier : List Statement) → Answers earlier (Instances rule) label result }
{
    match label {
        Label::Context => context_of_instance(rule),
        Label::Type => type_of_instance(rule),
        Label::Left => left_of_instance(rule),
        Label::Right => right_of_instance(rule),
        Label::From
        | Label::To
        | Label::Domain
        | Label::Codomain
        | Label::Line
        | Label::LeftEnd
        | Label::RightEnd => None,
    }
}
