//! What stands behind the conclusions of a family of rules. Written by
//! tools/write_entries.py.

ghost use Rattle.std.specs.Prelude.{[], ◌∷◌, List};
ghost use Rattle.theory.specs.declared.rule.RuleName.TheVariants.{Gluing};
ghost use Rattle.presuppositions.specs.declared.source.Label.TheVariants as label;
ghost use Rattle.presuppositions.specs.Entries.{Answers};
ghost use Rattle.glue_entries.specs.Statements.{equiv_tycong_statement};

use crate::glue::GLUE_TYPE;
use crate::glue_beta::GLUE_BETA_LEFT;
use crate::glue_face::GLUE_FACE_LEFT;
use crate::glue_tycong::{GLUE_TYCONG_LEFT, GLUE_TYCONG_RIGHT};
use crate::glue_tyface::GLUE_TYFACE_LEFT;
use crate::glue_u::GLUE_U_TYPE;
use crate::glue_ucong::{GLUE_UCONG_LEFT, GLUE_UCONG_RIGHT, GLUE_UCONG_TYPE};
use crate::glue_uface::{GLUE_UFACE_LEFT, GLUE_UFACE_TYPE};
use crate::unglue_cong::{UNGLUE_CONG_LEFT, UNGLUE_CONG_RIGHT};
use crate::unglue_face::{UNGLUE_FACE_LEFT, UNGLUE_FACE_RIGHT, UNGLUE_FACE_TYPE};
use Source::{Behind, Premise};
use presuppositions::{Entry, Label, Source, at_hand, derived};
use theory::GlueRule;

/// The contexts.
fn context_of_glue(rule: GlueRule) -> Option<Entry>
    ensures { Answers (equiv_tycong_statement ∷ []) (Gluing rule) label.Context result }
{
    match rule {
        GlueRule::GlueTy => at_hand(&[Behind(0, Label::Context)]),
        GlueRule::GlueU => at_hand(&[Behind(0, Label::Context)]),
        GlueRule::GlueTyFace => at_hand(&[Behind(1, Label::Context)]),
        GlueRule::GlueUFace => at_hand(&[Behind(1, Label::Context)]),
        GlueRule::GlueTyCong => at_hand(&[Behind(0, Label::Context)]),
        GlueRule::GlueUCong => at_hand(&[Behind(0, Label::Context)]),
        GlueRule::Glue => at_hand(&[Behind(0, Label::Context)]),
        GlueRule::GlueFace => at_hand(&[Behind(1, Label::Context)]),
        GlueRule::Unglue => at_hand(&[Behind(0, Label::Context)]),
        GlueRule::UnglueFace => at_hand(&[Behind(1, Label::Context)]),
        GlueRule::UnglueCong => at_hand(&[Behind(0, Label::Context)]),
        GlueRule::GlueBeta => at_hand(&[Behind(0, Label::Context)]),
        GlueRule::GlueEta => at_hand(&[Behind(0, Label::Context)]),
    }
}

/// The types of terms.
fn type_of_glue(rule: GlueRule) -> Option<Entry>
    ensures { Answers (equiv_tycong_statement ∷ []) (Gluing rule) label.Type result }
{
    match rule {
        GlueRule::GlueU => derived(&[Behind(0, Label::Context)], GLUE_U_TYPE, 2),
        GlueRule::GlueUFace => derived(&[Behind(1, Label::Context)], GLUE_UFACE_TYPE, 4),
        GlueRule::GlueUCong => derived(&[Behind(0, Label::Context)], GLUE_UCONG_TYPE, 2),
        GlueRule::Glue => derived(&[Premise(0), Premise(1), Premise(2)], GLUE_TYPE, 8),
        GlueRule::GlueFace => at_hand(&[Premise(1)]),
        GlueRule::Unglue => at_hand(&[Premise(0)]),
        GlueRule::UnglueFace => derived(
            &[Premise(0), Behind(0, Label::Context)],
            UNGLUE_FACE_TYPE,
            9,
        ),
        GlueRule::UnglueCong => at_hand(&[Premise(0)]),
        GlueRule::GlueBeta => at_hand(&[Premise(0)]),
        GlueRule::GlueEta => at_hand(&[Behind(3, Label::Type)]),
        GlueRule::GlueTy | GlueRule::GlueTyFace | GlueRule::GlueTyCong => None,
    }
}

/// The left sides, typed.
fn left_of_glue(rule: GlueRule) -> Option<Entry>
    ensures { Answers (equiv_tycong_statement ∷ []) (Gluing rule) label.Left result }
{
    match rule {
        GlueRule::GlueTyFace => derived(
            &[
                Premise(0),
                Premise(1),
                Premise(2),
                Behind(0, Label::Context),
            ],
            GLUE_TYFACE_LEFT,
            15,
        ),
        GlueRule::GlueUFace => derived(
            &[
                Premise(0),
                Premise(1),
                Premise(2),
                Behind(0, Label::Context),
            ],
            GLUE_UFACE_LEFT,
            16,
        ),
        GlueRule::GlueTyCong => derived(
            &[
                Behind(0, Label::Left),
                Behind(1, Label::Left),
                Behind(2, Label::Left),
            ],
            GLUE_TYCONG_LEFT,
            8,
        ),
        GlueRule::GlueUCong => derived(
            &[
                Behind(0, Label::Left),
                Behind(1, Label::Left),
                Behind(2, Label::Left),
            ],
            GLUE_UCONG_LEFT,
            8,
        ),
        GlueRule::GlueFace => derived(
            &[
                Premise(0),
                Premise(1),
                Premise(2),
                Premise(3),
                Premise(4),
                Premise(5),
                Behind(0, Label::Context),
            ],
            GLUE_FACE_LEFT,
            23,
        ),
        GlueRule::UnglueFace => derived(
            &[
                Premise(0),
                Premise(1),
                Premise(2),
                Premise(3),
                Behind(0, Label::Context),
            ],
            UNGLUE_FACE_LEFT,
            17,
        ),
        GlueRule::UnglueCong => derived(
            &[Premise(0), Premise(1), Premise(2), Behind(5, Label::Left)],
            UNGLUE_CONG_LEFT,
            10,
        ),
        GlueRule::GlueBeta => derived(
            &[
                Premise(0),
                Premise(1),
                Premise(2),
                Premise(3),
                Premise(4),
                Premise(5),
            ],
            GLUE_BETA_LEFT,
            15,
        ),
        GlueRule::GlueEta => at_hand(&[Premise(3)]),
        GlueRule::GlueTy | GlueRule::GlueU | GlueRule::Glue | GlueRule::Unglue => None,
    }
}

/// The right sides, typed.
fn right_of_glue(rule: GlueRule) -> Option<Entry>
    ensures { Answers (equiv_tycong_statement ∷ []) (Gluing rule) label.Right result }
{
    match rule {
        GlueRule::GlueTyFace => at_hand(&[Premise(1)]),
        GlueRule::GlueUFace => at_hand(&[Premise(1)]),
        GlueRule::GlueTyCong => derived(
            &[
                Premise(0),
                Premise(1),
                Behind(0, Label::Context),
                Behind(0, Label::Left),
                Behind(0, Label::Right),
                Behind(1, Label::Context),
                Behind(1, Label::Left),
                Behind(1, Label::Right),
                Behind(2, Label::Right),
            ],
            GLUE_TYCONG_RIGHT,
            66,
        ),
        GlueRule::GlueUCong => derived(
            &[
                Premise(0),
                Premise(1),
                Behind(0, Label::Context),
                Behind(0, Label::Left),
                Behind(0, Label::Right),
                Behind(1, Label::Context),
                Behind(1, Label::Left),
                Behind(1, Label::Right),
                Behind(2, Label::Right),
            ],
            GLUE_UCONG_RIGHT,
            73,
        ),
        GlueRule::GlueFace => at_hand(&[Premise(3)]),
        GlueRule::UnglueFace => derived(
            &[
                Premise(0),
                Premise(1),
                Premise(2),
                Premise(3),
                Behind(0, Label::Context),
                Behind(1, Label::Context),
            ],
            UNGLUE_FACE_RIGHT,
            70,
        ),
        GlueRule::UnglueCong => derived(
            &[
                Premise(0),
                Premise(1),
                Premise(3),
                Premise(4),
                Behind(0, Label::Context),
                Behind(1, Label::Context),
                Behind(3, Label::Right),
                Behind(4, Label::Right),
                Behind(5, Label::Right),
            ],
            UNGLUE_CONG_RIGHT,
            67,
        ),
        GlueRule::GlueBeta => at_hand(&[Premise(4)]),
        GlueRule::GlueEta => at_hand(&[Premise(4)]),
        GlueRule::GlueTy | GlueRule::GlueU | GlueRule::Glue | GlueRule::Unglue => None,
    }
}

/// What stands behind the conclusion of a rule of the family.
pub fn glue_entry(rule: GlueRule, label: Label) -> Option<Entry>
    ensures { Answers (equiv_tycong_statement ∷ []) (Gluing rule) label result }
{
    match label {
        Label::Context => context_of_glue(rule),
        Label::Type => type_of_glue(rule),
        Label::Left => left_of_glue(rule),
        Label::Right => right_of_glue(rule),
        Label::From
        | Label::To
        | Label::Domain
        | Label::Codomain
        | Label::Line
        | Label::LeftEnd
        | Label::RightEnd => None,
    }
}
