//! Names and formulas of a text.

use crate::words::{code_is, formula_is};
use codes::Code;
use layout_lexer::Span;
use name_resolution::References;
use scopes::{Binding, Place, Scope, ScopeNames};
use std::alloc::AllocError;
use std::process::Abort;
use std::test::Fail;
use syntax::{End, Equation, Formula};
use translation::{Cause, Refusal};

/// `x i suc natrec`, each name by its place.
const TEXT: &[u8] = b"x i suc natrec";

const X: Span = Span { start: 0, end: 1 };

const I: Span = Span { start: 2, end: 3 };

const SUC: Span = Span { start: 4, end: 7 };

const NATREC: Span = Span { start: 8, end: 14 };

/// Binds the first name as a variable, and the second as a name of the interval.
fn bind<'a>(text: References<'a>, place: &mut Place<'a>) -> Result<(), AllocError> {
    text.bind_all(place, &[X], Binding::Variable)?;
    text.bind_all(place, &[I], Binding::Interval)
}

/// A name where a term is wanted.
fn term<'a>(text: References<'a>, place: &mut Place<'a>, name: Span) -> Result<Code, AllocError> {
    text.name(place, name)
}

/// The negation of a name of the interval.
fn negation<'a>(
    text: References<'a>,
    place: &mut Place<'a>,
    name: Span,
) -> Result<codes::Formula, AllocError> {
    let negated = Formula::negate(text.alloc, name, Formula::Name(name))?;
    text.formula(place, &negated)
}

/// How many equations are read of one, of a name of the interval.
fn equations<'a>(
    text: References<'a>,
    place: &mut Place<'a>,
    name: Span,
) -> Result<usize, AllocError> {
    let end = End::One;
    let equations = text.equations(place, &[Equation { name, end }])?;
    Ok(equations.len())
}

/// What the names are at a place where none is bound yet.
///
/// The place is lent: whoever owns it drops it wherever a step may fail, and each of these ways out
/// is proved.
fn names_are_read<'a>(
    rt: &impl Abort,
    text: References<'a>,
    place: &mut Place<'a>,
) -> Result<(), Fail> {
    bind(text, place)?;
    code_is(rt, term(text, place, X), "#1")?;
    code_is(rt, term(text, place, SUC), "lambda")?;
    formula_is(rt, negation(text, place, I), "-")?;
    assert_eq!(rt; equations(text, place, I)?, 1);
    assert_eq!(rt; place.refusal(), None);
    text.define(place, 0, X, 4)?;
    code_is(rt, term(text, place, X), "@4")?;
    code_is(rt, term(text, place, NATREC), "U")?;
    let cause = Cause::NameKind;
    assert_eq!(rt; place.refusal(), Some(Refusal { at: 8, cause }));
    Ok(())
}

#[test]
fn names_are_read_by_what_they_are(rt: HostRuntime) -> Result<(), Fail> {
    let alloc = rt.alloc();
    let scope = Scope {
        names: ScopeNames::new(alloc),
        next: 0,
    };
    let text = References { alloc, bytes: TEXT };
    let mut place = Place::new(alloc, &scope)?;
    names_are_read(&rt, text, &mut place)
}
