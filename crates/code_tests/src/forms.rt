//! Codes by their forms.
//!
//! Each is made in a function of its own, whose result nothing is known of: in one function the
//! proof of each step would carry what is known of all the codes before it.

use crate::words::{code_is, formula_is};
use codes::{Binder, Code, Element, Formula, Opened};
use layout_lexer::Span;
use std::alloc::{AllocError, Global};
use std::test::Fail;
use syntax::Projections;

const SPAN: Span = Span { start: 3, end: 5 };

fn zero() -> Code {
    Code::Zero { span: SPAN }
}

fn line() -> Opened {
    Opened::Under(SPAN, zero())
}

/// `zero @ 1`
fn applied(alloc: Global) -> Result<Code, AllocError> {
    let mut elements = Vec::new(alloc);
    elements.push(Element::At(SPAN, Formula::One(SPAN)))?;
    Code::apply(alloc, SPAN, zero(), elements)
}

/// `zero`, applied to nothing.
fn bare(alloc: Global) -> Result<Code, AllocError> {
    Code::apply(alloc, SPAN, zero(), Vec::new(alloc))
}

fn one_more(alloc: Global) -> Result<Code, AllocError> {
    Code::suc(alloc, SPAN, zero())
}

fn successor(alloc: Global) -> Result<Code, AllocError> {
    Code::successor(alloc, SPAN)
}

fn path_lambda(alloc: Global) -> Result<Code, AllocError> {
    Code::path_lambda(alloc, SPAN, 2, zero())
}

fn recursion(alloc: Global) -> Result<Code, AllocError> {
    Code::natrec(alloc, SPAN, line(), zero(), zero(), zero())
}

fn projected(alloc: Global) -> Result<Code, AllocError> {
    Code::project(alloc, SPAN, zero(), Projections::new(alloc))
}

fn local(alloc: Global) -> Result<Code, AllocError> {
    Code::let_in(alloc, SPAN, Vec::new(alloc), zero())
}

/// `(_ : zero) -> zero`
fn product(alloc: Global) -> Result<Code, AllocError> {
    let mut binders = Vec::new(alloc);
    binders.push(Binder {
        names: 1,
        ty: zero(),
    })?;
    Code::pi(alloc, SPAN, binders, zero())
}

fn sum(alloc: Global) -> Result<Code, AllocError> {
    Code::sigma(alloc, SPAN, Vec::new(alloc), zero())
}

fn path(alloc: Global) -> Result<Code, AllocError> {
    Code::path_type(alloc, SPAN, line(), zero(), zero())
}

fn composed(alloc: Global) -> Result<Code, AllocError> {
    Code::comp(alloc, SPAN, line(), zero(), Vec::new(alloc))
}

fn filled(alloc: Global) -> Result<Code, AllocError> {
    Code::fill(alloc, SPAN, line(), zero(), Vec::new(alloc))
}

fn moved(alloc: Global) -> Result<Code, AllocError> {
    Code::transport(alloc, SPAN, line(), zero())
}

fn glue_type(alloc: Global) -> Result<Code, AllocError> {
    Code::glue_type(alloc, SPAN, zero(), Vec::new(alloc))
}

fn glue_term(alloc: Global) -> Result<Code, AllocError> {
    Code::glue_term(alloc, SPAN, zero(), Vec::new(alloc))
}

fn unglued(alloc: Global) -> Result<Code, AllocError> {
    Code::unglue(alloc, SPAN, zero(), Vec::new(alloc))
}

/// `- 0 /\ i \/ 1`
fn join(alloc: Global) -> Result<Formula, AllocError> {
    let negated = Formula::negate(alloc, SPAN, Formula::Zero(SPAN))?;
    let meet = Formula::meet(alloc, SPAN, negated, Formula::Bound(SPAN, 0))?;
    Formula::join(alloc, SPAN, meet, Formula::One(SPAN))
}

#[test]
fn forms_of_terms_are_made(rt: HostRuntime) -> Result<(), Fail> {
    let alloc = rt.alloc();
    code_is(&rt, applied(alloc), "apply")?;
    code_is(&rt, bare(alloc), "zero")?;
    code_is(&rt, one_more(alloc), "suc")?;
    code_is(&rt, successor(alloc), "lambda")?;
    code_is(&rt, recursion(alloc), "natrec")?;
    code_is(&rt, path_lambda(alloc), "<2>")?;
    code_is(&rt, projected(alloc), "project")?;
    code_is(&rt, local(alloc), "let")
}

#[test]
fn forms_of_types_are_made(rt: HostRuntime) -> Result<(), Fail> {
    let alloc = rt.alloc();
    code_is(&rt, product(alloc), "pi")?;
    code_is(&rt, sum(alloc), "sigma")?;
    code_is(&rt, path(alloc), "PathP")
}

#[test]
fn forms_of_systems_are_made(rt: HostRuntime) -> Result<(), Fail> {
    let alloc = rt.alloc();
    code_is(&rt, composed(alloc), "comp")?;
    code_is(&rt, filled(alloc), "fill")?;
    code_is(&rt, moved(alloc), "transport")?;
    code_is(&rt, glue_type(alloc), "Glue")?;
    code_is(&rt, glue_term(alloc), "glue")?;
    code_is(&rt, unglued(alloc), "unglue")
}

#[test]
fn forms_of_formulas_are_made(rt: HostRuntime) -> Result<(), Fail> {
    formula_is(&rt, join(rt.alloc()), "\\/")
}
