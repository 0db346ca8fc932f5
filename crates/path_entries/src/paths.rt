//! What stands behind the conclusions of a family of rules. Written by
//! tools/write_entries.py.

ghost use Rattle.std.specs.Prelude.{[], ◌∷◌, List};
ghost use Rattle.theory.specs.declared.rule.RuleName.TheVariants.{Paths};
ghost use Rattle.presuppositions.specs.declared.source.Label.TheVariants as label;
ghost use Rattle.presuppositions.specs.Entries.{Answers};
ghost use Rattle.recipes.specs.Statements.{Statement};

use crate::papp::PAPP_TYPE;
use crate::papp_cong::{PAPP_CONG_LEFT, PAPP_CONG_RIGHT, PAPP_CONG_TYPE};
use crate::path_beta::{PATH_BETA_LEFT, PATH_BETA_RIGHT, PATH_BETA_TYPE};
use crate::path_left::{PATH_LEFT_LEFT, PATH_LEFT_TYPE};
use crate::path_right::{PATH_RIGHT_LEFT, PATH_RIGHT_TYPE};
use crate::path_tycong::{PATH_TYCONG_LEFT, PATH_TYCONG_RIGHT};
use crate::path_u::PATH_U_TYPE;
use crate::path_ucong::{PATH_UCONG_LEFT, PATH_UCONG_RIGHT, PATH_UCONG_TYPE};
use crate::plam::PLAM_TYPE;
use Source::{Behind, Further, Premise};
use presuppositions::{Entry, Label, Source, at_hand, derived};
use theory::PathRule;

/// The contexts.
fn context_of_path(rule: PathRule) -> Option<Entry>
    ensures { (earlier : List Statement) → Answers earlier (Paths rule) label.Context result }
{
    match rule {
        PathRule::PathTy => at_hand(&[Behind(1, Label::Context)]),
        PathRule::PathU => at_hand(&[Behind(1, Label::Context)]),
        PathRule::PathTyCong => at_hand(&[Behind(1, Label::Context)]),
        PathRule::PathUCong => at_hand(&[Behind(1, Label::Context)]),
        PathRule::PLam => at_hand(&[Behind(1, Label::Context)]),
        PathRule::PApp => at_hand(&[Behind(0, Label::Context)]),
        PathRule::PAppCong => at_hand(&[Behind(0, Label::Context)]),
        PathRule::PathLeft => at_hand(&[Behind(0, Label::Context)]),
        PathRule::PathRight => at_hand(&[Behind(0, Label::Context)]),
        PathRule::PathBeta => at_hand(&[Further(0, Label::Context, Label::Context)]),
        PathRule::PathEta => at_hand(&[Behind(0, Label::Context)]),
    }
}

/// The types of terms.
fn type_of_path(rule: PathRule) -> Option<Entry>
    ensures { (earlier : List Statement) → Answers earlier (Paths rule) label.Type result }
{
    match rule {
        PathRule::PathU => derived(&[Behind(1, Label::Context)], PATH_U_TYPE, 2),
        PathRule::PathUCong => derived(&[Behind(1, Label::Context)], PATH_UCONG_TYPE, 2),
        PathRule::PLam => derived(
            &[
                Behind(0, Label::Type),
                Behind(1, Label::Right),
                Behind(2, Label::Right),
            ],
            PLAM_TYPE,
            7,
        ),
        PathRule::PApp => derived(
            &[
                Behind(0, Label::Context),
                Further(0, Label::Type, Label::Line),
            ],
            PAPP_TYPE,
            10,
        ),
        PathRule::PAppCong => derived(
            &[
                Behind(0, Label::Context),
                Further(0, Label::Type, Label::Line),
            ],
            PAPP_CONG_TYPE,
            10,
        ),
        PathRule::PathLeft => derived(
            &[
                Behind(0, Label::Context),
                Further(0, Label::Type, Label::Line),
            ],
            PATH_LEFT_TYPE,
            10,
        ),
        PathRule::PathRight => derived(
            &[
                Behind(0, Label::Context),
                Further(0, Label::Type, Label::Line),
            ],
            PATH_RIGHT_TYPE,
            10,
        ),
        PathRule::PathBeta => derived(
            &[
                Behind(0, Label::Type),
                Further(0, Label::Context, Label::Context),
            ],
            PATH_BETA_TYPE,
            10,
        ),
        PathRule::PathEta => at_hand(&[Behind(0, Label::Type)]),
        PathRule::PathTy | PathRule::PathTyCong => None,
    }
}

/// The left sides, typed.
fn left_of_path(rule: PathRule) -> Option<Entry>
    ensures { (earlier : List Statement) → Answers earlier (Paths rule) label.Left result }
{
    match rule {
        PathRule::PathTyCong => derived(
            &[
                Behind(0, Label::Left),
                Behind(1, Label::Left),
                Behind(2, Label::Left),
            ],
            PATH_TYCONG_LEFT,
            7,
        ),
        PathRule::PathUCong => derived(
            &[
                Behind(0, Label::Left),
                Behind(1, Label::Left),
                Behind(2, Label::Left),
            ],
            PATH_UCONG_LEFT,
            7,
        ),
        PathRule::PAppCong => derived(&[Behind(0, Label::Left)], PAPP_CONG_LEFT, 7),
        PathRule::PathLeft => derived(&[Premise(0)], PATH_LEFT_LEFT, 7),
        PathRule::PathRight => derived(&[Premise(0)], PATH_RIGHT_LEFT, 7),
        PathRule::PathBeta => derived(
            &[Premise(0), Further(0, Label::Context, Label::Context)],
            PATH_BETA_LEFT,
            25,
        ),
        PathRule::PathEta => at_hand(&[Premise(0)]),
        PathRule::PathTy | PathRule::PathU | PathRule::PLam | PathRule::PApp => None,
    }
}

/// The right sides, typed.
fn right_of_path(rule: PathRule) -> Option<Entry>
    ensures { (earlier : List Statement) → Answers earlier (Paths rule) label.Right result }
{
    match rule {
        PathRule::PathTyCong => derived(
            &[
                Premise(0),
                Behind(0, Label::Right),
                Behind(1, Label::Context),
                Behind(1, Label::Right),
                Behind(2, Label::Right),
            ],
            PATH_TYCONG_RIGHT,
            27,
        ),
        PathRule::PathUCong => derived(
            &[
                Premise(0),
                Behind(0, Label::Right),
                Behind(1, Label::Context),
                Behind(1, Label::Right),
                Behind(2, Label::Right),
            ],
            PATH_UCONG_RIGHT,
            28,
        ),
        PathRule::PAppCong => derived(&[Behind(0, Label::Right)], PAPP_CONG_RIGHT, 7),
        PathRule::PathLeft => at_hand(&[Further(0, Label::Type, Label::LeftEnd)]),
        PathRule::PathRight => at_hand(&[Further(0, Label::Type, Label::RightEnd)]),
        PathRule::PathBeta => derived(
            &[Premise(0), Further(0, Label::Context, Label::Context)],
            PATH_BETA_RIGHT,
            11,
        ),
        PathRule::PathEta => at_hand(&[Premise(1)]),
        PathRule::PathTy | PathRule::PathU | PathRule::PLam | PathRule::PApp => None,
    }
}

/// The lines.
fn line_of_path(rule: PathRule) -> Option<Entry>
    ensures { (earlier : List Statement) → Answers earlier (Paths rule) label.Line result }
{
    match rule {
        PathRule::PathTy => at_hand(&[Premise(0)]),
        PathRule::PathU
        | PathRule::PathTyCong
        | PathRule::PathUCong
        | PathRule::PLam
        | PathRule::PApp
        | PathRule::PAppCong
        | PathRule::PathLeft
        | PathRule::PathRight
        | PathRule::PathBeta
        | PathRule::PathEta => None,
    }
}

/// The left ends, typed.
fn left_end_of_path(rule: PathRule) -> Option<Entry>
    ensures { (earlier : List Statement) → Answers earlier (Paths rule) label.LeftEnd result }
{
    match rule {
        PathRule::PathTy => at_hand(&[Premise(1)]),
        PathRule::PathU
        | PathRule::PathTyCong
        | PathRule::PathUCong
        | PathRule::PLam
        | PathRule::PApp
        | PathRule::PAppCong
        | PathRule::PathLeft
        | PathRule::PathRight
        | PathRule::PathBeta
        | PathRule::PathEta => None,
    }
}

/// The right ends, typed.
fn right_end_of_path(rule: PathRule) -> Option<Entry>
    ensures { (earlier : List Statement) → Answers earlier (Paths rule) label.RightEnd result }
{
    match rule {
        PathRule::PathTy => at_hand(&[Premise(2)]),
        PathRule::PathU
        | PathRule::PathTyCong
        | PathRule::PathUCong
        | PathRule::PLam
        | PathRule::PApp
        | PathRule::PAppCong
        | PathRule::PathLeft
        | PathRule::PathRight
        | PathRule::PathBeta
        | PathRule::PathEta => None,
    }
}

/// What stands behind the conclusion of a rule of the family.
pub fn path_entry(rule: PathRule, label: Label) -> Option<Entry>
    ensures { (earlier : List Statement) → Answers earlier (Paths rule) label result }
{
    match label {
        Label::Context => context_of_path(rule),
        Label::Type => type_of_path(rule),
        Label::Left => left_of_path(rule),
        Label::Right => right_of_path(rule),
        Label::Line => line_of_path(rule),
        Label::LeftEnd => left_end_of_path(rule),
        Label::RightEnd => right_end_of_path(rule),
        Label::From | Label::To | Label::Domain | Label::Codomain => None,
    }
}
