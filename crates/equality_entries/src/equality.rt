//! What stands behind the conclusions of a family of rules. Written by
//! tools/write_entries.py.

ghost use Rattle.std.specs.Prelude.{[], ◌∷◌, List};
ghost use Rattle.theory.specs.declared.rule.RuleName.TheVariants.{Equality};
ghost use Rattle.presuppositions.specs.declared.source.Label.TheVariants as label;
ghost use Rattle.presuppositions.specs.Entries.{Answers};
ghost use Rattle.recipes.specs.Statements.{Statement};

use crate::tmeq_conv::{TMEQ_CONV_LEFT, TMEQ_CONV_RIGHT};
use Source::{Behind, Premise};
use presuppositions::{Entry, Label, Source, at_hand, derived};
use theory::EqualityRule;

/// The contexts.
fn context_of_equality(rule: EqualityRule) -> Option<Entry>
    ensures { (earlier : List Statement) → Answers earlier (Equality rule) label.Context result }
{
    match rule {
        EqualityRule::TyEqRefl => at_hand(&[Behind(0, Label::Context)]),
        EqualityRule::TyEqSym => at_hand(&[Behind(0, Label::Context)]),
        EqualityRule::TyEqTrans => at_hand(&[Behind(0, Label::Context)]),
        EqualityRule::TmEqRefl => at_hand(&[Behind(0, Label::Context)]),
        EqualityRule::TmEqSym => at_hand(&[Behind(0, Label::Context)]),
        EqualityRule::TmEqTrans => at_hand(&[Behind(0, Label::Context)]),
        EqualityRule::TmConv => at_hand(&[Behind(0, Label::Context)]),
        EqualityRule::TmEqConv => at_hand(&[Behind(0, Label::Context)]),
        EqualityRule::TyEqCover => at_hand(&[Behind(0, Label::Context)]),
        EqualityRule::TmEqCover => at_hand(&[Behind(0, Label::Context)]),
        EqualityRule::TyEqAbsurd => at_hand(&[Behind(0, Label::Context)]),
        EqualityRule::TmEqAbsurd => at_hand(&[Behind(0, Label::Context)]),
    }
}

/// The types of terms.
fn type_of_equality(rule: EqualityRule) -> Option<Entry>
    ensures { (earlier : List Statement) → Answers earlier (Equality rule) label.Type result }
{
    match rule {
        EqualityRule::TmEqRefl => at_hand(&[Behind(0, Label::Type)]),
        EqualityRule::TmEqSym => at_hand(&[Behind(0, Label::Type)]),
        EqualityRule::TmEqTrans => at_hand(&[Behind(0, Label::Type)]),
        EqualityRule::TmConv => at_hand(&[Behind(1, Label::Right)]),
        EqualityRule::TmEqConv => at_hand(&[Behind(1, Label::Right)]),
        EqualityRule::TmEqCover => at_hand(&[Behind(0, Label::Type)]),
        EqualityRule::TmEqAbsurd => at_hand(&[Behind(0, Label::Type)]),
        EqualityRule::TyEqRefl
        | EqualityRule::TyEqSym
        | EqualityRule::TyEqTrans
        | EqualityRule::TyEqCover
        | EqualityRule::TyEqAbsurd => None,
    }
}

/// The left sides, typed.
fn left_of_equality(rule: EqualityRule) -> Option<Entry>
    ensures { (earlier : List Statement) → Answers earlier (Equality rule) label.Left result }
{
    match rule {
        EqualityRule::TyEqRefl => at_hand(&[Premise(0)]),
        EqualityRule::TyEqSym => at_hand(&[Behind(0, Label::Right)]),
        EqualityRule::TyEqTrans => at_hand(&[Behind(0, Label::Left)]),
        EqualityRule::TmEqRefl => at_hand(&[Premise(0)]),
        EqualityRule::TmEqSym => at_hand(&[Behind(0, Label::Right)]),
        EqualityRule::TmEqTrans => at_hand(&[Behind(0, Label::Left)]),
        EqualityRule::TmEqConv => derived(&[Premise(1), Behind(0, Label::Left)], TMEQ_CONV_LEFT, 6),
        EqualityRule::TyEqCover => at_hand(&[Premise(0)]),
        EqualityRule::TmEqCover => at_hand(&[Premise(0)]),
        EqualityRule::TyEqAbsurd => at_hand(&[Premise(0)]),
        EqualityRule::TmEqAbsurd => at_hand(&[Premise(0)]),
        EqualityRule::TmConv => None,
    }
}

/// The right sides, typed.
fn right_of_equality(rule: EqualityRule) -> Option<Entry>
    ensures { (earlier : List Statement) → Answers earlier (Equality rule) label.Right result }
{
    match rule {
        EqualityRule::TyEqRefl => at_hand(&[Premise(0)]),
        EqualityRule::TyEqSym => at_hand(&[Behind(0, Label::Left)]),
        EqualityRule::TyEqTrans => at_hand(&[Behind(1, Label::Right)]),
        EqualityRule::TmEqRefl => at_hand(&[Premise(0)]),
        EqualityRule::TmEqSym => at_hand(&[Behind(0, Label::Left)]),
        EqualityRule::TmEqTrans => at_hand(&[Behind(1, Label::Right)]),
        EqualityRule::TmEqConv => derived(
            &[Premise(1), Behind(0, Label::Right)],
            TMEQ_CONV_RIGHT,
            6,
        ),
        EqualityRule::TyEqCover => at_hand(&[Premise(1)]),
        EqualityRule::TmEqCover => at_hand(&[Premise(1)]),
        EqualityRule::TyEqAbsurd => at_hand(&[Premise(1)]),
        EqualityRule::TmEqAbsurd => at_hand(&[Premise(1)]),
        EqualityRule::TmConv => None,
    }
}

/// What stands behind the conclusion of a rule of the family.
pub fn equality_entry(rule: EqualityRule, label: Label) -> Option<Entry>
    ensures { (earlier : List Statement) → Answers earlier (Equality rule) label result }
{
    match label {
        Label::Context => context_of_equality(rule),
        Label::Type => type_of_equality(rule),
        Label::Left => left_of_equality(rule),
        Label::Right => right_of_equality(rule),
        Label::From
        | Label::To
        | Label::Domain
        | Label::Codomain
        | Label::Line
        | Label::LeftEnd
        | Label::RightEnd => None,
    }
}
