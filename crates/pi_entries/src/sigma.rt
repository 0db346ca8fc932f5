//! What stands behind the conclusions of a family of rules. Written by
//! tools/write_entries.py.

ghost use Rattle.std.specs.Prelude.{[], ◌∷◌, List};
ghost use Rattle.theory.specs.declared.rule.RuleName.TheVariants.{Sigma};
ghost use Rattle.presuppositions.specs.declared.source.Label.TheVariants as label;
ghost use Rattle.presuppositions.specs.Entries.{Answers};
ghost use Rattle.recipes.specs.Statements.{Statement};

use crate::fst_cong::{FST_CONG_LEFT, FST_CONG_RIGHT};
use crate::pair::PAIR_TYPE;
use crate::sig_beta1::SIG_BETA1_LEFT;
use crate::sig_beta2::SIG_BETA2_LEFT;
use crate::sig_tycong::{SIG_TYCONG_LEFT, SIG_TYCONG_RIGHT};
use crate::sig_u::SIG_U_TYPE;
use crate::sig_ucong::{SIG_UCONG_LEFT, SIG_UCONG_RIGHT, SIG_UCONG_TYPE};
use crate::snd::SND_TYPE;
use crate::snd_cong::{SND_CONG_LEFT, SND_CONG_RIGHT, SND_CONG_TYPE};
use Source::{Behind, Further, Premise};
use presuppositions::{Entry, Label, Source, at_hand, derived};
use theory::SigmaRule;

/// The contexts.
fn context_of_sigma(rule: SigmaRule) -> Option<Entry>
    ensures { (earlier : List Statement) → Answers earlier (Sigma rule) label.Context result }
{
    match rule {
        SigmaRule::SigTy => at_hand(&[Behind(0, Label::Context)]),
        SigmaRule::SigU => at_hand(&[Behind(0, Label::Context)]),
        SigmaRule::SigTyCong => at_hand(&[Behind(0, Label::Context)]),
        SigmaRule::SigUCong => at_hand(&[Behind(0, Label::Context)]),
        SigmaRule::Pair => at_hand(&[Behind(1, Label::Context)]),
        SigmaRule::Fst => at_hand(&[Behind(0, Label::Context)]),
        SigmaRule::Snd => at_hand(&[Behind(0, Label::Context)]),
        SigmaRule::FstCong => at_hand(&[Behind(0, Label::Context)]),
        SigmaRule::SndCong => at_hand(&[Behind(0, Label::Context)]),
        SigmaRule::SigBeta1 => at_hand(&[Behind(1, Label::Context)]),
        SigmaRule::SigBeta2 => at_hand(&[Behind(1, Label::Context)]),
        SigmaRule::SigEta => at_hand(&[Behind(0, Label::Context)]),
    }
}

/// The types of terms.
fn type_of_sigma(rule: SigmaRule) -> Option<Entry>
    ensures { (earlier : List Statement) → Answers earlier (Sigma rule) label.Type result }
{
    match rule {
        SigmaRule::SigU => derived(&[Behind(0, Label::Context)], SIG_U_TYPE, 2),
        SigmaRule::SigUCong => derived(&[Behind(0, Label::Context)], SIG_UCONG_TYPE, 2),
        SigmaRule::Pair => derived(&[Premise(0), Behind(1, Label::Type)], PAIR_TYPE, 5),
        SigmaRule::Fst => at_hand(&[Further(0, Label::Type, Label::Domain)]),
        SigmaRule::Snd => derived(
            &[
                Premise(0),
                Behind(0, Label::Context),
                Further(0, Label::Type, Label::Domain),
                Further(0, Label::Type, Label::Codomain),
            ],
            SND_TYPE,
            15,
        ),
        SigmaRule::FstCong => at_hand(&[Further(0, Label::Type, Label::Domain)]),
        SigmaRule::SndCong => derived(
            &[
                Behind(0, Label::Context),
                Behind(0, Label::Left),
                Further(0, Label::Type, Label::Domain),
                Further(0, Label::Type, Label::Codomain),
            ],
            SND_CONG_TYPE,
            15,
        ),
        SigmaRule::SigBeta1 => at_hand(&[Behind(1, Label::Type)]),
        SigmaRule::SigBeta2 => at_hand(&[Behind(2, Label::Type)]),
        SigmaRule::SigEta => at_hand(&[Behind(0, Label::Type)]),
        SigmaRule::SigTy | SigmaRule::SigTyCong => None,
    }
}

/// The left sides, typed.
fn left_of_sigma(rule: SigmaRule) -> Option<Entry>
    ensures { (earlier : List Statement) → Answers earlier (Sigma rule) label.Left result }
{
    match rule {
        SigmaRule::SigTyCong => derived(
            &[Behind(0, Label::Left), Behind(1, Label::Left)],
            SIG_TYCONG_LEFT,
            5,
        ),
        SigmaRule::SigUCong => derived(
            &[Behind(0, Label::Left), Behind(1, Label::Left)],
            SIG_UCONG_LEFT,
            5,
        ),
        SigmaRule::FstCong => derived(&[Behind(0, Label::Left)], FST_CONG_LEFT, 5),
        SigmaRule::SndCong => derived(&[Behind(0, Label::Left)], SND_CONG_LEFT, 5),
        SigmaRule::SigBeta1 => derived(&[Premise(0), Premise(1), Premise(2)], SIG_BETA1_LEFT, 10),
        SigmaRule::SigBeta2 => derived(
            &[
                Premise(0),
                Premise(1),
                Premise(2),
                Behind(1, Label::Context),
            ],
            SIG_BETA2_LEFT,
            22,
        ),
        SigmaRule::SigEta => at_hand(&[Premise(0)]),
        SigmaRule::SigTy | SigmaRule::SigU | SigmaRule::Pair | SigmaRule::Fst | SigmaRule::Snd =>
            None,
    }
}

/// The right sides, typed.
fn right_of_sigma(rule: SigmaRule) -> Option<Entry>
    ensures { (earlier : List Statement) → Answers earlier (Sigma rule) label.Right result }
{
    match rule {
        SigmaRule::SigTyCong => derived(
            &[
                Premise(0),
                Behind(0, Label::Context),
                Behind(0, Label::Left),
                Behind(0, Label::Right),
                Behind(1, Label::Right),
            ],
            SIG_TYCONG_RIGHT,
            25,
        ),
        SigmaRule::SigUCong => derived(
            &[
                Premise(0),
                Behind(0, Label::Context),
                Behind(0, Label::Right),
                Behind(1, Label::Right),
                Further(1, Label::Context, Label::Type),
            ],
            SIG_UCONG_RIGHT,
            28,
        ),
        SigmaRule::FstCong => derived(&[Behind(0, Label::Right)], FST_CONG_RIGHT, 5),
        SigmaRule::SndCong => derived(
            &[
                Premise(0),
                Behind(0, Label::Context),
                Behind(0, Label::Right),
                Further(0, Label::Type, Label::Codomain),
            ],
            SND_CONG_RIGHT,
            22,
        ),
        SigmaRule::SigBeta1 => at_hand(&[Premise(1)]),
        SigmaRule::SigBeta2 => at_hand(&[Premise(2)]),
        SigmaRule::SigEta => at_hand(&[Premise(1)]),
        SigmaRule::SigTy | SigmaRule::SigU | SigmaRule::Pair | SigmaRule::Fst | SigmaRule::Snd =>
            None,
    }
}

/// The domains.
fn domain_of_sigma(rule: SigmaRule) -> Option<Entry>
    ensures { (earlier : List Statement) → Answers earlier (Sigma rule) label.Domain result }
{
    match rule {
        SigmaRule::SigTy => at_hand(&[Premise(0)]),
        SigmaRule::SigU
        | SigmaRule::SigTyCong
        | SigmaRule::SigUCong
        | SigmaRule::Pair
        | SigmaRule::Fst
        | SigmaRule::Snd
        | SigmaRule::FstCong
        | SigmaRule::SndCong
        | SigmaRule::SigBeta1
        | SigmaRule::SigBeta2
        | SigmaRule::SigEta => None,
    }
}

/// The codomains.
fn codomain_of_sigma(rule: SigmaRule) -> Option<Entry>
    ensures { (earlier : List Statement) → Answers earlier (Sigma rule) label.Codomain result }
{
    match rule {
        SigmaRule::SigTy => at_hand(&[Premise(1)]),
        SigmaRule::SigU
        | SigmaRule::SigTyCong
        | SigmaRule::SigUCong
        | SigmaRule::Pair
        | SigmaRule::Fst
        | SigmaRule::Snd
        | SigmaRule::FstCong
        | SigmaRule::SndCong
        | SigmaRule::SigBeta1
        | SigmaRule::SigBeta2
        | SigmaRule::SigEta => None,
    }
}

/// What stands behind the conclusion of a rule of the family.
pub fn sigma_entry(rule: SigmaRule, label: Label) -> Option<Entry>
    ensures { (earlier : List Statement) → Answers earlier (Sigma rule) label result }
{
    match label {
        Label::Context => context_of_sigma(rule),
        Label::Type => type_of_sigma(rule),
        Label::Left => left_of_sigma(rule),
        Label::Right => right_of_sigma(rule),
        Label::Domain => domain_of_sigma(rule),
        Label::Codomain => codomain_of_sigma(rule),
        Label::From | Label::To | Label::Line | Label::LeftEnd | Label::RightEnd => None,
    }
}
