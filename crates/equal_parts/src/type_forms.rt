//! Types by their outermost forms.

use crate::paths::{Line, large_line, line_of};
use crate::types::{Family, family_of, small_family};
use book::Book;
use tested_steps::{Fault, rule_of};
use theory::{GlueRule, RuleName};
use values::{Goal, Susp};

/// A type by its outermost form, with parts that are types.
#[derive(Clone, Copy, Debug)]
pub enum TypeForm {
    Family(Family),
    Line(Line),
    /// A glued type, which may be a term of the universe.
    Glued(Susp),
    Other,
}

/// A glued type, or another.
fn glued_or_other(book: &Book, susp: Susp) -> Result<TypeForm, Fault> {
    match rule_of(book, susp.typing)? {
        RuleName::Gluing(GlueRule::GlueTy | GlueRule::GlueU) => Ok(TypeForm::Glued(susp)),
        _ => Ok(TypeForm::Other),
    }
}

/// The form of a type.
pub fn form_of_type(book: &Book, susp: Susp) -> Result<TypeForm, Fault> {
    if let Some(family) = family_of(book, susp)? {
        return Ok(TypeForm::Family(family));
    }
    match line_of(book, susp)? {
        Some(line) => Ok(TypeForm::Line(line)),
        None => glued_or_other(book, susp),
    }
}

/// The form of the head of a type of the universe.
pub fn form_of_small(book: &mut Book, head: Goal) -> Result<TypeForm, Fault> {
    if let Some(family) = small_family(book, head)? {
        return Ok(TypeForm::Family(family));
    }
    match line_of(book, head.susp)? {
        Some(line) => Ok(TypeForm::Line(large_line(book, line)?)),
        None => glued_or_other(book, head.susp),
    }
}
