//! What has no expression in it: formulas, equations of sides, and projections.

ghost use Rattle.std.specs.Prelude.{◌≡◌, [], ◌∷◌, ◌++◌, IfOk, OnOk, OnErr};
ghost use Rattle.syntax.specs.Tree.{Negate as a_negation, Meet as a_meet, Join as a_join};
ghost use Rattle.syntax.specs.View.{formula_of};

use layout_lexer::Span;
use std::alloc::{AllocError, Global};
use std::marker::Model;

/// An end of the interval.
#[derive(Clone, Copy, Debug, PartialEq, Eq)]
pub enum End {
    Zero,
    One,
}

/// `(name = end)` of a side.
#[derive(Clone, Copy, Debug, PartialEq, Eq)]
pub struct Equation {
    pub name: Span,
    pub end: End,
}

/// `.1` or `.2`
#[derive(Clone, Copy, Debug, PartialEq, Eq)]
pub enum Projection {
    First(Span),
    Second(Span),
}

/// A formula of the interval. Meets and joins of more than two nest to the right.
#[derive(Drop)]
pub enum Formula {
    Zero(Span),
    One(Span),
    Name(Span),
    Negate(Span, Box<Formula>),
    Meet(Span, Box<Formula>, Box<Formula>),
    Join(Span, Box<Formula>, Box<Formula>),
}

impl Formula {
    /// `- formula`
    pub fn negate(alloc: Global, span: Span, formula: Formula) -> Result<Formula, AllocError>
        ensures { IfOk result (λ f. formula_of f ≡ a_negation span (formula_of formula)) }
    {
        Ok(Formula::Negate(span, Box::new(alloc, formula)?))
    }

    /// `left /\ right`
    pub fn meet(
        alloc: Global,
        span: Span,
        left: Formula,
        right: Formula,
    ) -> Result<Formula, AllocError>
        ensures { IfOk result (λ f.
            formula_of f ≡ a_meet span (formula_of left) (formula_of right)) }
    {
        Ok(Formula::Meet(span, Box::new(alloc, left)?, Box::new(alloc, right)?))
    }

    /// `left \/ right`
    pub fn join(
        alloc: Global,
        span: Span,
        left: Formula,
        right: Formula,
    ) -> Result<Formula, AllocError>
        ensures { IfOk result (λ f.
            formula_of f ≡ a_join span (formula_of left) (formula_of right)) }
    {
        Ok(Formula::Join(span, Box::new(alloc, left)?, Box::new(alloc, right)?))
    }
}

/// Equations, in order.
#[derive(Drop)]
pub struct Equations {
    items: Vec<Equation>,
}

impl Model for Equations {
    ghost use Rattle.std.specs.Prelude.{List};
    ghost use Rattle.syntax.specs.declared.formula.Equation.{Equation};

    ghost Value = { List Equation };

    ghost view = { λ a. a.items.items };
}

impl Equations {
    /// The empty list, which takes no memory.
    pub fn new(alloc: Global) -> Equations
        ensures { result ≡ [] }
    {
        Equations {
            items: Vec::new(alloc),
        }
    }

    /// Appends an equation.
    pub fn push(&mut self, equation: Equation) -> Result<(), AllocError>
        ensures ok { OnOk result (self.new ≡ self.old ++ equation ∷ []) }
        ensures err { OnErr result (self.new ≡ self.old) }
    {
        self.items.push(equation)?;
        Ok(())
    }

    /// The equations, in order.
    pub fn as_slice(&self) -> &[Equation]
        ensures { result.now ≡ self.now }
    {
        &self.items
    }
}

/// Projections, in order.
#[derive(Drop)]
pub struct Projections {
    items: Vec<Projection>,
}

impl Model for Projections {
    ghost use Rattle.std.specs.Prelude.{List};
    ghost use Rattle.syntax.specs.declared.formula.Projection.{Projection};

    ghost Value = { List Projection };

    ghost view = { λ a. a.items.items };
}

impl Projections {
    /// The empty list, which takes no memory.
    pub fn new(alloc: Global) -> Projections
        ensures { result ≡ [] }
    {
        Projections {
            items: Vec::new(alloc),
        }
    }

    /// Appends a projection.
    pub fn push(&mut self, projection: Projection) -> Result<(), AllocError>
        ensures ok { OnOk result (self.new ≡ self.old ++ projection ∷ []) }
        ensures err { OnErr result (self.new ≡ self.old) }
    {
        self.items.push(projection)?;
        Ok(())
    }

    /// The projections, in order.
    pub fn as_slice(&self) -> &[Projection]
        ensures { result.now ≡ self.now }
    {
        &self.items
    }
}
