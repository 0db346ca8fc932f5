//! What stands behind the conclusions of a family of rules. Written by
//! tools/write_entries.py.

ghost use Rattle.std.specs.Prelude.{[], ◌∷◌, List};
ghost use Rattle.theory.specs.declared.rule.RuleName.TheVariants.{Composition};
ghost use Rattle.presuppositions.specs.declared.source.Label.TheVariants as label;
ghost use Rattle.presuppositions.specs.Entries.{Answers};
ghost use Rattle.recipes.specs.Statements.{Statement};

use crate::comp::COMP_TYPE;
use crate::comp_cong::{COMP_CONG_LEFT, COMP_CONG_RIGHT, COMP_CONG_TYPE};
use crate::comp_face::{COMP_FACE_LEFT, COMP_FACE_RIGHT, COMP_FACE_TYPE};
use crate::comp_glue::{COMP_GLUE_LEFT, COMP_GLUE_TYPE};
use crate::comp_path::{COMP_PATH_LEFT, COMP_PATH_TYPE};
use crate::comp_pi::{COMP_PI_LEFT, COMP_PI_TYPE};
use crate::comp_sig::{COMP_SIG_LEFT, COMP_SIG_TYPE};
use crate::comp_suc::{COMP_SUC_LEFT, COMP_SUC_RIGHT, COMP_SUC_TYPE};
use crate::comp_u::{COMP_U_LEFT, COMP_U_TYPE};
use crate::comp_zero::{COMP_ZERO_LEFT, COMP_ZERO_RIGHT, COMP_ZERO_TYPE};
use Source::{Behind, Premise};
use presuppositions::{Entry, Label, Source, at_hand, derived};
use theory::CompRule;

/// The contexts.
fn context_of_comp(rule: CompRule) -> Option<Entry>
    ensures { (earlier : List Statement) → Answers earlier (Composition rule) label.Context result }
{
    match rule {
        CompRule::Comp => at_hand(&[Behind(2, Label::Context)]),
        CompRule::CompFace => at_hand(&[Behind(3, Label::Context)]),
        CompRule::CompCong => at_hand(&[Behind(2, Label::Context)]),
        CompRule::CompPi => at_hand(&[Behind(3, Label::Context)]),
        CompRule::CompSig => at_hand(&[Behind(3, Label::Context)]),
        CompRule::CompPath => at_hand(&[Behind(4, Label::Context)]),
        CompRule::CompZero => at_hand(&[Premise(0)]),
        CompRule::CompSuc => at_hand(&[Behind(1, Label::Context)]),
        CompRule::CompGlue => at_hand(&[Behind(4, Label::Context)]),
        CompRule::CompU => at_hand(&[Behind(1, Label::Context)]),
    }
}

/// The types of terms.
fn type_of_comp(rule: CompRule) -> Option<Entry>
    ensures { (earlier : List Statement) → Answers earlier (Composition rule) label.Type result }
{
    match rule {
        CompRule::Comp => derived(&[Premise(0), Behind(2, Label::Context)], COMP_TYPE, 10),
        CompRule::CompFace => derived(&[Premise(0), Behind(2, Label::Context)], COMP_FACE_TYPE, 13),
        CompRule::CompCong => derived(
            &[Behind(0, Label::Left), Behind(2, Label::Context)],
            COMP_CONG_TYPE,
            10,
        ),
        CompRule::CompPi => derived(
            &[Premise(0), Premise(1), Behind(3, Label::Context)],
            COMP_PI_TYPE,
            26,
        ),
        CompRule::CompSig => derived(
            &[Premise(0), Premise(1), Behind(3, Label::Context)],
            COMP_SIG_TYPE,
            26,
        ),
        CompRule::CompPath => derived(
            &[
                Premise(0),
                Premise(1),
                Premise(2),
                Behind(4, Label::Context),
            ],
            COMP_PATH_TYPE,
            32,
        ),
        CompRule::CompZero => derived(&[Premise(0)], COMP_ZERO_TYPE, 4),
        CompRule::CompSuc => derived(&[Behind(1, Label::Context)], COMP_SUC_TYPE, 4),
        CompRule::CompGlue => derived(
            &[
                Premise(0),
                Premise(1),
                Premise(2),
                Behind(4, Label::Context),
            ],
            COMP_GLUE_TYPE,
            48,
        ),
        CompRule::CompU => derived(&[Behind(1, Label::Context)], COMP_U_TYPE, 2),
    }
}

/// The left sides, typed.
fn left_of_comp(rule: CompRule) -> Option<Entry>
    ensures { (earlier : List Statement) → Answers earlier (Composition rule) label.Left result }
{
    match rule {
        CompRule::CompFace => derived(
            &[
                Premise(0),
                Premise(1),
                Premise(2),
                Premise(3),
                Behind(2, Label::Context),
            ],
            COMP_FACE_LEFT,
            19,
        ),
        CompRule::CompCong => derived(
            &[Premise(1), Premise(2), Premise(3), Behind(0, Label::Left)],
            COMP_CONG_LEFT,
            9,
        ),
        CompRule::CompPi => derived(
            &[Premise(0), Premise(1), Premise(2), Premise(3), Premise(4)],
            COMP_PI_LEFT,
            14,
        ),
        CompRule::CompSig => derived(
            &[Premise(0), Premise(1), Premise(2), Premise(3), Premise(4)],
            COMP_SIG_LEFT,
            14,
        ),
        CompRule::CompPath => derived(
            &[
                Premise(0),
                Premise(1),
                Premise(2),
                Premise(3),
                Premise(4),
                Premise(5),
            ],
            COMP_PATH_LEFT,
            16,
        ),
        CompRule::CompZero => derived(&[Premise(0)], COMP_ZERO_LEFT, 20),
        CompRule::CompSuc => derived(
            &[
                Premise(0),
                Premise(1),
                Premise(2),
                Behind(1, Label::Context),
            ],
            COMP_SUC_LEFT,
            24,
        ),
        CompRule::CompGlue => derived(
            &[
                Premise(0),
                Premise(1),
                Premise(2),
                Premise(3),
                Premise(4),
                Premise(5),
            ],
            COMP_GLUE_LEFT,
            17,
        ),
        CompRule::CompU => derived(
            &[
                Premise(0),
                Premise(1),
                Premise(2),
                Behind(1, Label::Context),
            ],
            COMP_U_LEFT,
            12,
        ),
        CompRule::Comp => None,
    }
}

/// The right sides, typed.
fn right_of_comp(rule: CompRule) -> Option<Entry>
    ensures { (earlier : List Statement) → Answers earlier (Composition rule) label.Right result }
{
    match rule {
        CompRule::CompFace => derived(
            &[Premise(1), Behind(3, Label::Context)],
            COMP_FACE_RIGHT,
            13,
        ),
        CompRule::CompCong => derived(
            &[
                Premise(0),
                Premise(3),
                Premise(4),
                Premise(5),
                Behind(0, Label::Right),
                Behind(2, Label::Context),
                Behind(3, Label::Context),
                Behind(4, Label::Right),
                Behind(5, Label::Right),
            ],
            COMP_CONG_RIGHT,
            67,
        ),
        CompRule::CompZero => derived(&[Premise(0)], COMP_ZERO_RIGHT, 2),
        CompRule::CompSuc => derived(
            &[
                Premise(0),
                Premise(1),
                Premise(2),
                Behind(1, Label::Context),
            ],
            COMP_SUC_RIGHT,
            15,
        ),
        CompRule::Comp
        | CompRule::CompPi
        | CompRule::CompSig
        | CompRule::CompPath
        | CompRule::CompGlue
        | CompRule::CompU => None,
    }
}

/// What stands behind the conclusion of a rule of the family.
pub fn comp_entry(rule: CompRule, label: Label) -> Option<Entry>
    ensures { (earlier : List Statement) → Answers earlier (Composition rule) label result }
{
    match label {
        Label::Context => context_of_comp(rule),
        Label::Type => type_of_comp(rule),
        Label::Left => left_of_comp(rule),
        Label::Right => right_of_comp(rule),
        Label::From
        | Label::To
        | Label::Domain
        | Label::Codomain
        | Label::Line
        | Label::LeftEnd
        | Label::RightEnd => None,
    }
}
