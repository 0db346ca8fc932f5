//! What stands behind the conclusions of a family of rules. Written by
//! tools/write_entries.py.

ghost use Rattle.std.specs.Prelude.{[], ◌∷◌, List};
ghost use Rattle.theory.specs.declared.rule.RuleName.TheVariants.{Contexts};
ghost use Rattle.presuppositions.specs.declared.source.Label.TheVariants as label;
ghost use Rattle.presuppositions.specs.Entries.{Answers};
ghost use Rattle.recipes.specs.Statements.{Statement};

use crate::sub_face::SUB_FACE_TO;
use crate::sub_form::SUB_FORM_TO;
use crate::sub_var::SUB_VAR_TO;
use crate::sub_wk::SUB_WK_FROM;
use crate::sub_wkface::SUB_WKFACE_FROM;
use crate::sub_wkname::SUB_WKNAME_FROM;
use Source::{Behind, Premise};
use presuppositions::{Entry, Label, Source, at_hand, derived};
use theory::ContextRule;

/// The contexts.
fn context_of_context(rule: ContextRule) -> Option<Entry>
    ensures { (earlier : List Statement) → Answers earlier (Contexts rule) label.Context result }
{
    match rule {
        ContextRule::CtxVar => at_hand(&[Behind(0, Label::Context)]),
        ContextRule::CtxName => at_hand(&[Premise(0)]),
        ContextRule::CtxFace => at_hand(&[Premise(0)]),
        ContextRule::CtxNil
        | ContextRule::SubId
        | ContextRule::SubWk
        | ContextRule::SubWkName
        | ContextRule::SubWkFace
        | ContextRule::SubVar
        | ContextRule::SubForm
        | ContextRule::SubFace
        | ContextRule::SubComp => None,
    }
}

/// The types of terms.
fn type_of_context(rule: ContextRule) -> Option<Entry>
    ensures { (earlier : List Statement) → Answers earlier (Contexts rule) label.Type result }
{
    match rule {
        ContextRule::CtxVar => at_hand(&[Premise(0)]),
        ContextRule::CtxNil
        | ContextRule::CtxName
        | ContextRule::CtxFace
        | ContextRule::SubId
        | ContextRule::SubWk
        | ContextRule::SubWkName
        | ContextRule::SubWkFace
        | ContextRule::SubVar
        | ContextRule::SubForm
        | ContextRule::SubFace
        | ContextRule::SubComp => None,
    }
}

/// The contexts from which substitutions go.
fn from_of_context(rule: ContextRule) -> Option<Entry>
    ensures { (earlier : List Statement) → Answers earlier (Contexts rule) label.From result }
{
    match rule {
        ContextRule::SubId => at_hand(&[Premise(0)]),
        ContextRule::SubWk => derived(&[Premise(1)], SUB_WK_FROM, 3),
        ContextRule::SubWkName => derived(&[Behind(0, Label::From)], SUB_WKNAME_FROM, 2),
        ContextRule::SubWkFace => derived(&[Behind(0, Label::From)], SUB_WKFACE_FROM, 3),
        ContextRule::SubVar => at_hand(&[Behind(0, Label::From)]),
        ContextRule::SubForm => at_hand(&[Behind(0, Label::From)]),
        ContextRule::SubFace => at_hand(&[Behind(0, Label::From)]),
        ContextRule::SubComp => at_hand(&[Behind(0, Label::From)]),
        ContextRule::CtxNil | ContextRule::CtxVar | ContextRule::CtxName | ContextRule::CtxFace =>
            None,
    }
}

/// The contexts to which substitutions go.
fn to_of_context(rule: ContextRule) -> Option<Entry>
    ensures { (earlier : List Statement) → Answers earlier (Contexts rule) label.To result }
{
    match rule {
        ContextRule::SubId => at_hand(&[Premise(0)]),
        ContextRule::SubWk => at_hand(&[Behind(0, Label::To)]),
        ContextRule::SubWkName => at_hand(&[Behind(0, Label::To)]),
        ContextRule::SubWkFace => at_hand(&[Behind(0, Label::To)]),
        ContextRule::SubVar => derived(&[Premise(1)], SUB_VAR_TO, 3),
        ContextRule::SubForm => derived(&[Behind(0, Label::To)], SUB_FORM_TO, 2),
        ContextRule::SubFace => derived(&[Behind(0, Label::To)], SUB_FACE_TO, 3),
        ContextRule::SubComp => at_hand(&[Behind(1, Label::To)]),
        ContextRule::CtxNil | ContextRule::CtxVar | ContextRule::CtxName | ContextRule::CtxFace =>
            None,
    }
}

/// What stands behind the conclusion of a rule of the family.
pub fn context_entry(rule: ContextRule, label: Label) -> Option<Entry>
    ensures { (earlier : List Statement) → Answers earlier (Contexts rule) label result }
{
    match label {
        Label::Context => context_of_context(rule),
        Label::Type => type_of_context(rule),
        Label::From => from_of_context(rule),
        Label::To => to_of_context(rule),
        Label::Left
        | Label::Right
        | Label::Domain
        | Label::Codomain
        | Label::Line
        | Label::LeftEnd
        | Label::RightEnd => None,
    }
}
