//! What stands behind the conclusions of a family of rules. Written by
//! tools/write_entries.py.

ghost use Rattle.std.specs.Prelude.{[], ◌∷◌, List};
ghost use Rattle.theory.specs.declared.rule.RuleName.TheVariants.{Naturals};
ghost use Rattle.presuppositions.specs.declared.source.Label.TheVariants as label;
ghost use Rattle.presuppositions.specs.Entries.{Answers};
ghost use Rattle.recipes.specs.Statements.{Statement};

use crate::nat_u::NAT_U_TYPE;
use crate::natrec::NATREC_TYPE;
use crate::natrec_cong::{NATREC_CONG_LEFT, NATREC_CONG_RIGHT, NATREC_CONG_TYPE};
use crate::natrec_suc::{NATREC_SUC_LEFT, NATREC_SUC_RIGHT, NATREC_SUC_TYPE};
use crate::natrec_zero::NATREC_ZERO_LEFT;
use crate::suc::SUC_TYPE;
use crate::suc_cong::{SUC_CONG_LEFT, SUC_CONG_RIGHT, SUC_CONG_TYPE};
use crate::zero::ZERO_TYPE;
use Source::{Behind, Premise};
use presuppositions::{Entry, Label, Source, at_hand, derived};
use theory::NatRule;

/// The contexts.
fn context_of_nat(rule: NatRule) -> Option<Entry>
    ensures { (earlier : List Statement) → Answers earlier (Naturals rule) label.Context result }
{
    match rule {
        NatRule::NatU => at_hand(&[Premise(0)]),
        NatRule::Zero => at_hand(&[Premise(0)]),
        NatRule::Suc => at_hand(&[Behind(0, Label::Context)]),
        NatRule::SucCong => at_hand(&[Behind(0, Label::Context)]),
        NatRule::NatRec => at_hand(&[Behind(1, Label::Context)]),
        NatRule::NatRecCong => at_hand(&[Behind(1, Label::Context)]),
        NatRule::NatRecZero => at_hand(&[Behind(1, Label::Context)]),
        NatRule::NatRecSuc => at_hand(&[Behind(1, Label::Context)]),
    }
}

/// The types of terms.
fn type_of_nat(rule: NatRule) -> Option<Entry>
    ensures { (earlier : List Statement) → Answers earlier (Naturals rule) label.Type result }
{
    match rule {
        NatRule::NatU => derived(&[Premise(0)], NAT_U_TYPE, 2),
        NatRule::Zero => derived(&[Premise(0)], ZERO_TYPE, 4),
        NatRule::Suc => derived(&[Behind(0, Label::Context)], SUC_TYPE, 4),
        NatRule::SucCong => derived(&[Behind(0, Label::Context)], SUC_CONG_TYPE, 4),
        NatRule::NatRec => derived(
            &[Premise(0), Premise(3), Behind(1, Label::Context)],
            NATREC_TYPE,
            14,
        ),
        NatRule::NatRecCong => derived(
            &[
                Behind(0, Label::Left),
                Behind(1, Label::Context),
                Behind(3, Label::Left),
            ],
            NATREC_CONG_TYPE,
            14,
        ),
        NatRule::NatRecZero => at_hand(&[Behind(1, Label::Type)]),
        NatRule::NatRecSuc => derived(
            &[Premise(0), Premise(3), Behind(1, Label::Context)],
            NATREC_SUC_TYPE,
            16,
        ),
    }
}

/// The left sides, typed.
fn left_of_nat(rule: NatRule) -> Option<Entry>
    ensures { (earlier : List Statement) → Answers earlier (Naturals rule) label.Left result }
{
    match rule {
        NatRule::SucCong => derived(&[Behind(0, Label::Left)], SUC_CONG_LEFT, 3),
        NatRule::NatRecCong => derived(
            &[
                Behind(0, Label::Left),
                Behind(1, Label::Left),
                Behind(2, Label::Left),
                Behind(3, Label::Left),
            ],
            NATREC_CONG_LEFT,
            9,
        ),
        NatRule::NatRecZero => derived(
            &[
                Premise(0),
                Premise(1),
                Premise(2),
                Behind(1, Label::Context),
            ],
            NATREC_ZERO_LEFT,
            10,
        ),
        NatRule::NatRecSuc => derived(
            &[Premise(0), Premise(1), Premise(2), Premise(3)],
            NATREC_SUC_LEFT,
            11,
        ),
        NatRule::NatU | NatRule::Zero | NatRule::Suc | NatRule::NatRec => None,
    }
}

/// The right sides, typed.
fn right_of_nat(rule: NatRule) -> Option<Entry>
    ensures { (earlier : List Statement) → Answers earlier (Naturals rule) label.Right result }
{
    match rule {
        NatRule::SucCong => derived(&[Behind(0, Label::Right)], SUC_CONG_RIGHT, 3),
        NatRule::NatRecCong => derived(
            &[
                Premise(0),
                Premise(3),
                Behind(0, Label::Context),
                Behind(0, Label::Left),
                Behind(0, Label::Right),
                Behind(1, Label::Context),
                Behind(1, Label::Right),
                Behind(2, Label::Right),
                Behind(3, Label::Right),
            ],
            NATREC_CONG_RIGHT,
            68,
        ),
        NatRule::NatRecZero => at_hand(&[Premise(1)]),
        NatRule::NatRecSuc => derived(
            &[Premise(0), Premise(1), Premise(2), Premise(3)],
            NATREC_SUC_RIGHT,
            28,
        ),
        NatRule::NatU | NatRule::Zero | NatRule::Suc | NatRule::NatRec => None,
    }
}

/// What stands behind the conclusion of a rule of the family.
pub fn nat_entry(rule: NatRule, label: Label) -> Option<Entry>
    ensures { (earlier : List Statement) → Answers earlier (Naturals rule) label result }
{
    match label {
        Label::Context => context_of_nat(rule),
        Label::Type => type_of_nat(rule),
        Label::Left => left_of_nat(rule),
        Label::Right => right_of_nat(rule),
        Label::From
        | Label::To
        | Label::Domain
        | Label::Codomain
        | Label::Line
        | Label::LeftEnd
        | Label::RightEnd => None,
    }
}
