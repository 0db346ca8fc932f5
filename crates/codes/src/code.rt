//! Codes, which are resolved texts.

use crate::formula::{Equation, Formula};
use layout_lexer::Span;
use std::alloc::Global;
use syntax::Projections;

/// An expression, as a tree with the pieces of the text that its parts spell.
///
/// A list of the text stays a list, so a code is no deeper than its text. A pair of brackets round
/// one expression is no form.
#[cycle(code)]
#[derive(Drop)]
pub enum Code {
    /// A variable, by its index.
    Bound {
        span: Span,
        index: u32,
    },
    /// A definition, by its number.
    Defined {
        span: Span,
        number: u32,
    },
    /// Definitions, which may stand in `body`.
    Let {
        span: Span,
        locals: Vec<CodeDef>,
        body: Box<Code>,
    },
    Universe {
        span: Span,
    },
    Nat {
        span: Span,
    },
    Zero {
        span: Span,
    },
    Suc {
        span: Span,
        argument: Box<Code>,
    },
    /// `natrec motive base step argument`, the motive under its variable
    NatRec {
        span: Span,
        motive: Box<Opened>,
        base: Box<Code>,
        step: Box<Code>,
        argument: Box<Code>,
    },
    Pi {
        span: Span,
        binders: Vec<Binder>,
        body: Box<Code>,
    },
    Sigma {
        span: Span,
        binders: Vec<Binder>,
        body: Box<Code>,
    },
    Lambda {
        span: Span,
        binders: Vec<Binder>,
        body: Box<Code>,
    },
    /// The body under so many names of the interval.
    PathLambda {
        span: Span,
        names: usize,
        body: Box<Code>,
    },
    /// The head, applied to one element or more.
    Apply {
        span: Span,
        head: Box<Code>,
        elements: Vec<Element>,
    },
    Project {
        span: Span,
        pair: Box<Code>,
        projections: Projections,
    },
    /// Two components or more, as pairs nested to the right.
    Tuple {
        span: Span,
        components: Vec<Code>,
    },
    PathP {
        span: Span,
        line: Box<Opened>,
        left: Box<Code>,
        right: Box<Code>,
    },
    Comp {
        span: Span,
        line: Box<Opened>,
        base: Box<Code>,
        sides: Vec<LineSide>,
    },
    Fill {
        span: Span,
        line: Box<Opened>,
        base: Box<Code>,
        sides: Vec<LineSide>,
    },
    Transport {
        span: Span,
        line: Box<Opened>,
        base: Box<Code>,
    },
    GlueType {
        span: Span,
        base: Box<Code>,
        sides: Vec<PairSide>,
    },
    GlueTerm {
        span: Span,
        base: Box<Code>,
        sides: Vec<Side>,
    },
    Unglue {
        span: Span,
        base: Box<Code>,
        sides: Vec<PairSide>,
    },
}

/// What an expression is applied to.
#[cycle(code)]
#[derive(Drop)]
pub enum Element {
    Argument(Code),
    /// `@ formula`
    At(Span, Formula),
}

/// So many variables of one type, which stands before them all.
#[cycle(code)]
#[derive(Drop)]
pub struct Binder {
    pub names: usize,
    pub ty: Code,
}

/// A line over a name of the interval, or the motive of `natrec` over a number. The span is that of
/// the text that was opened, with any brackets round it.
#[cycle(code)]
#[derive(Drop)]
pub enum Opened {
    /// `<i> body` or `\(x : nat) -> body`: the body, under the name or variable.
    Under(Span, Code),
    /// Any other text, which stands outside, and is applied to the name or variable.
    Applied(Span, Code),
}

/// A side of `glue`. The span is that of the expression, with any brackets round it.
#[cycle(code)]
#[derive(Drop)]
pub struct Side {
    pub equations: Vec<Equation>,
    pub span: Span,
    pub body: Code,
}

/// A side of `comp` or `fill`.
#[cycle(code)]
#[derive(Drop)]
pub struct LineSide {
    pub equations: Vec<Equation>,
    pub body: Opened,
}

/// A side of `Glue` or `unglue`: a type, and an equivalence from it. The span is that of the pair,
/// with any brackets round it.
#[cycle(code)]
#[derive(Drop)]
pub struct PairSide {
    pub equations: Vec<Equation>,
    pub span: Span,
    pub ty: Code,
    pub equivalence: Code,
}

/// A definition. Its type is the Pi type of `ty` over the binders, and its body is `body` under as
/// many lambdas; a `where` block is a `Let` at the head of `body`.
#[cycle(code)]
#[derive(Drop)]
pub struct CodeDef {
    pub name: Span,
    pub number: u32,
    pub binders: Vec<Binder>,
    pub ty: Code,
    pub body: Code,
}
