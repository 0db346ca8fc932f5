//! Refusals and pieces of texts, by general arguments.

use crate::{Cause, Refusal, ScopeFault, earlier, laws_of_texts, span_of};
use layout_lexer::Span;
use std::rt::HostRuntime;
use syntax::Exp;

const UNBOUND: Refusal = Refusal {
    at: 7,
    cause: Cause::Unbound,
};

const NO_PAIR: Refusal = Refusal {
    at: 7,
    cause: Cause::GlueSide,
};

#[test]
fn the_first_refusal_is_named(rt: HostRuntime) {
    assert_eq!(&rt; earlier(Some(NO_PAIR), Some(UNBOUND)), Some(UNBOUND));
    assert_eq!(&rt; UNBOUND.fault(), ScopeFault::Unbound(7));
}

#[test]
fn an_expression_has_its_span(rt: HostRuntime) {
    let span = Span { start: 3, end: 5 };
    assert_eq!(&rt; span_of(&Exp::Universe { span }), span);
    laws_of_texts();
}
