//! What stands behind the conclusions of a family of rules. Written by
//! tools/write_entries.py.

ghost use Rattle.std.specs.Prelude.{[], ◌∷◌, List};
ghost use Rattle.theory.specs.declared.rule.RuleName.TheVariants.{Systems};
ghost use Rattle.presuppositions.specs.declared.source.Label.TheVariants as label;
ghost use Rattle.presuppositions.specs.Entries.{Answers};
ghost use Rattle.recipes.specs.Statements.{Statement};

use crate::sys_left::SYS_LEFT_LEFT;
use crate::sys_right::SYS_RIGHT_LEFT;
use crate::sys_tyleft::SYS_TYLEFT_LEFT;
use crate::sys_tyright::SYS_TYRIGHT_LEFT;
use Source::{Behind, Further, Premise};
use presuppositions::{Entry, Label, Source, at_hand, derived};
use theory::SystemRule;

/// The contexts.
fn context_of_system(rule: SystemRule) -> Option<Entry>
    ensures { (earlier : List Statement) → Answers earlier (Systems rule) label.Context result }
{
    match rule {
        SystemRule::SysTy => at_hand(&[Further(0, Label::Context, Label::Context)]),
        SystemRule::SysTm => at_hand(&[Behind(0, Label::Context)]),
        SystemRule::SysTyLeft => at_hand(&[Behind(0, Label::Context)]),
        SystemRule::SysTyRight => at_hand(&[Behind(1, Label::Context)]),
        SystemRule::SysLeft => at_hand(&[Behind(1, Label::Context)]),
        SystemRule::SysRight => at_hand(&[Behind(2, Label::Context)]),
        SystemRule::EmptyTy => at_hand(&[Premise(0)]),
        SystemRule::EmptyTm => at_hand(&[Behind(0, Label::Context)]),
    }
}

/// The types of terms.
fn type_of_system(rule: SystemRule) -> Option<Entry>
    ensures { (earlier : List Statement) → Answers earlier (Systems rule) label.Type result }
{
    match rule {
        SystemRule::SysTm => at_hand(&[Premise(0)]),
        SystemRule::SysLeft => at_hand(&[Behind(1, Label::Type)]),
        SystemRule::SysRight => at_hand(&[Behind(2, Label::Type)]),
        SystemRule::EmptyTm => at_hand(&[Premise(0)]),
        SystemRule::SysTy | SystemRule::SysTyLeft | SystemRule::SysTyRight | SystemRule::EmptyTy =>
            None,
    }
}

/// The left sides, typed.
fn left_of_system(rule: SystemRule) -> Option<Entry>
    ensures { (earlier : List Statement) → Answers earlier (Systems rule) label.Left result }
{
    match rule {
        SystemRule::SysTyLeft => derived(
            &[
                Premise(0),
                Premise(1),
                Premise(2),
                Further(0, Label::Context, Label::Context),
            ],
            SYS_TYLEFT_LEFT,
            15,
        ),
        SystemRule::SysTyRight => derived(
            &[
                Premise(0),
                Premise(1),
                Premise(2),
                Further(0, Label::Context, Label::Context),
            ],
            SYS_TYRIGHT_LEFT,
            15,
        ),
        SystemRule::SysLeft => derived(
            &[
                Premise(0),
                Premise(1),
                Premise(2),
                Premise(3),
                Behind(0, Label::Context),
            ],
            SYS_LEFT_LEFT,
            17,
        ),
        SystemRule::SysRight => derived(
            &[
                Premise(0),
                Premise(1),
                Premise(2),
                Premise(3),
                Behind(0, Label::Context),
            ],
            SYS_RIGHT_LEFT,
            17,
        ),
        SystemRule::SysTy | SystemRule::SysTm | SystemRule::EmptyTy | SystemRule::EmptyTm => None,
    }
}

/// The right sides, typed.
fn right_of_system(rule: SystemRule) -> Option<Entry>
    ensures { (earlier : List Statement) → Answers earlier (Systems rule) label.Right result }
{
    match rule {
        SystemRule::SysTyLeft => at_hand(&[Premise(0)]),
        SystemRule::SysTyRight => at_hand(&[Premise(1)]),
        SystemRule::SysLeft => at_hand(&[Premise(1)]),
        SystemRule::SysRight => at_hand(&[Premise(2)]),
        SystemRule::SysTy | SystemRule::SysTm | SystemRule::EmptyTy | SystemRule::EmptyTm => None,
    }
}

/// What stands behind the conclusion of a rule of the family.
pub fn system_entry(rule: SystemRule, label: Label) -> Option<Entry>
    ensures { (earlier : List Statement) → Answers earlier (Systems rule) label result }
{
    match label {
        Label::Context => context_of_system(rule),
        Label::Type => type_of_system(rule),
        Label::Left => left_of_system(rule),
        Label::Right => right_of_system(rule),
        Label::From
        | Label::To
        | Label::Domain
        | Label::Codomain
        | Label::Line
        | Label::LeftEnd
        | Label::RightEnd => None,
    }
}
