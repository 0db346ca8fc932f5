//! What stands behind the conclusions of a family of rules. Written by
//! tools/write_entries.py.

ghost use Rattle.std.specs.Prelude.{[], ◌∷◌, List};
ghost use Rattle.theory.specs.declared.rule.RuleName.TheVariants.{Pi};
ghost use Rattle.presuppositions.specs.declared.source.Label.TheVariants as label;
ghost use Rattle.presuppositions.specs.Entries.{Answers};
ghost use Rattle.recipes.specs.Statements.{Statement};

use crate::app::APP_TYPE;
use crate::app_cong::{APP_CONG_LEFT, APP_CONG_RIGHT, APP_CONG_TYPE};
use crate::lam::LAM_TYPE;
use crate::pi_beta::{PI_BETA_LEFT, PI_BETA_RIGHT, PI_BETA_TYPE};
use crate::pi_tycong::{PI_TYCONG_LEFT, PI_TYCONG_RIGHT};
use crate::pi_u::PI_U_TYPE;
use crate::pi_ucong::{PI_UCONG_LEFT, PI_UCONG_RIGHT, PI_UCONG_TYPE};
use Source::{Behind, Further, Premise};
use presuppositions::{Entry, Label, Source, at_hand, derived};
use theory::PiRule;

/// The contexts.
fn context_of_pi(rule: PiRule) -> Option<Entry>
    ensures { (earlier : List Statement) → Answers earlier (Pi rule) label.Context result }
{
    match rule {
        PiRule::PiTy => at_hand(&[Behind(0, Label::Context)]),
        PiRule::PiU => at_hand(&[Behind(0, Label::Context)]),
        PiRule::PiTyCong => at_hand(&[Behind(0, Label::Context)]),
        PiRule::PiUCong => at_hand(&[Behind(0, Label::Context)]),
        PiRule::Lam => at_hand(&[Behind(0, Label::Context)]),
        PiRule::App => at_hand(&[Behind(0, Label::Context)]),
        PiRule::AppCong => at_hand(&[Behind(0, Label::Context)]),
        PiRule::PiBeta => at_hand(&[Behind(1, Label::Context)]),
        PiRule::PiEta => at_hand(&[Behind(0, Label::Context)]),
    }
}

/// The types of terms.
fn type_of_pi(rule: PiRule) -> Option<Entry>
    ensures { (earlier : List Statement) → Answers earlier (Pi rule) label.Type result }
{
    match rule {
        PiRule::PiU => derived(&[Behind(0, Label::Context)], PI_U_TYPE, 2),
        PiRule::PiUCong => derived(&[Behind(0, Label::Context)], PI_UCONG_TYPE, 2),
        PiRule::Lam => derived(&[Premise(0), Behind(1, Label::Type)], LAM_TYPE, 5),
        PiRule::App => derived(
            &[
                Premise(1),
                Behind(0, Label::Context),
                Further(0, Label::Type, Label::Domain),
                Further(0, Label::Type, Label::Codomain),
            ],
            APP_TYPE,
            13,
        ),
        PiRule::AppCong => derived(
            &[
                Behind(0, Label::Context),
                Further(0, Label::Type, Label::Domain),
                Behind(1, Label::Left),
                Further(0, Label::Type, Label::Codomain),
            ],
            APP_CONG_TYPE,
            13,
        ),
        PiRule::PiBeta => derived(
            &[
                Premise(1),
                Behind(0, Label::Type),
                Behind(1, Label::Context),
                Behind(1, Label::Type),
            ],
            PI_BETA_TYPE,
            13,
        ),
        PiRule::PiEta => at_hand(&[Behind(0, Label::Type)]),
        PiRule::PiTy | PiRule::PiTyCong => None,
    }
}

/// The left sides, typed.
fn left_of_pi(rule: PiRule) -> Option<Entry>
    ensures { (earlier : List Statement) → Answers earlier (Pi rule) label.Left result }
{
    match rule {
        PiRule::PiTyCong => derived(
            &[Behind(0, Label::Left), Behind(1, Label::Left)],
            PI_TYCONG_LEFT,
            5,
        ),
        PiRule::PiUCong => derived(
            &[Behind(0, Label::Left), Behind(1, Label::Left)],
            PI_UCONG_LEFT,
            5,
        ),
        PiRule::AppCong => derived(
            &[Behind(0, Label::Left), Behind(1, Label::Left)],
            APP_CONG_LEFT,
            7,
        ),
        PiRule::PiBeta => derived(
            &[Premise(0), Premise(1), Behind(1, Label::Type)],
            PI_BETA_LEFT,
            10,
        ),
        PiRule::PiEta => at_hand(&[Premise(0)]),
        PiRule::PiTy | PiRule::PiU | PiRule::Lam | PiRule::App => None,
    }
}

/// The right sides, typed.
fn right_of_pi(rule: PiRule) -> Option<Entry>
    ensures { (earlier : List Statement) → Answers earlier (Pi rule) label.Right result }
{
    match rule {
        PiRule::PiTyCong => derived(
            &[
                Premise(0),
                Behind(0, Label::Context),
                Behind(0, Label::Left),
                Behind(0, Label::Right),
                Behind(1, Label::Right),
            ],
            PI_TYCONG_RIGHT,
            25,
        ),
        PiRule::PiUCong => derived(
            &[
                Premise(0),
                Behind(0, Label::Context),
                Behind(0, Label::Right),
                Behind(1, Label::Right),
                Further(1, Label::Context, Label::Type),
            ],
            PI_UCONG_RIGHT,
            28,
        ),
        PiRule::AppCong => derived(
            &[
                Premise(1),
                Behind(0, Label::Context),
                Behind(0, Label::Right),
                Behind(1, Label::Right),
                Further(0, Label::Type, Label::Codomain),
            ],
            APP_CONG_RIGHT,
            21,
        ),
        PiRule::PiBeta => derived(
            &[
                Premise(0),
                Premise(1),
                Behind(1, Label::Context),
                Behind(1, Label::Type),
            ],
            PI_BETA_RIGHT,
            14,
        ),
        PiRule::PiEta => at_hand(&[Premise(1)]),
        PiRule::PiTy | PiRule::PiU | PiRule::Lam | PiRule::App => None,
    }
}

/// The domains.
fn domain_of_pi(rule: PiRule) -> Option<Entry>
    ensures { (earlier : List Statement) → Answers earlier (Pi rule) label.Domain result }
{
    match rule {
        PiRule::PiTy => at_hand(&[Premise(0)]),
        PiRule::PiU
        | PiRule::PiTyCong
        | PiRule::PiUCong
        | PiRule::Lam
        | PiRule::App
        | PiRule::AppCong
        | PiRule::PiBeta
        | PiRule::PiEta => None,
    }
}

/// The codomains.
fn codomain_of_pi(rule: PiRule) -> Option<Entry>
    ensures { (earlier : List Statement) → Answers earlier (Pi rule) label.Codomain result }
{
    match rule {
        PiRule::PiTy => at_hand(&[Premise(1)]),
        PiRule::PiU
        | PiRule::PiTyCong
        | PiRule::PiUCong
        | PiRule::Lam
        | PiRule::App
        | PiRule::AppCong
        | PiRule::PiBeta
        | PiRule::PiEta => None,
    }
}

/// What stands behind the conclusion of a rule of the family.
pub fn pi_entry(rule: PiRule, label: Label) -> Option<Entry>
    ensures { (earlier : List Statement) → Answers earlier (Pi rule) label result }
{
    match label {
        Label::Context => context_of_pi(rule),
        Label::Type => type_of_pi(rule),
        Label::Left => left_of_pi(rule),
        Label::Right => right_of_pi(rule),
        Label::Domain => domain_of_pi(rule),
        Label::Codomain => codomain_of_pi(rule),
        Label::From | Label::To | Label::Line | Label::LeftEnd | Label::RightEnd => None,
    }
}
