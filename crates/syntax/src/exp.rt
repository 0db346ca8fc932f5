//! Expressions and modules.

ghost use Rattle.std.specs.Prelude.{◌≡◌, ◌∷◌, IfOk, OnOk, OnErr};
ghost use Rattle.syntax.specs.Tree.{
  none,
  with,
  Apply as an_application,
  Arrow as an_arrow,
  At as an_at,
  Brackets as brackets_round,
  Comp as a_composition,
  Fill as a_filling,
  GlueTerm as a_glue_term,
  GlueType as a_glue_type,
  Lambda as a_lambda,
  Let as a_let,
  PathLambda as a_path_lambda,
  PathP as a_path_type,
  Pi as a_pi,
  Project as a_projection,
  Sigma as a_sigma,
  Transport as a_transport,
  Unglue as an_unglue,
};
ghost use Rattle.syntax.specs.View.{
  def_items,
  def_of,
  defs_of,
  element_items,
  element_of,
  elements_of,
  exp_items,
  exps_of,
  side_items,
  side_of,
  sides_of,
  tele_items,
  tele_of,
  teles_of,
  tree_of,
};

use crate::formula::{Equations, Formula, Projections};
use layout_lexer::{Span, Spans};
use std::alloc::{AllocError, Global};

/// An expression. The name of each production is that of the grammar in `docs/LANGUAGE.md`.
#[cycle(ast)]
#[derive(Drop)]
pub enum Exp {
    /// `let block in body`
    Let {
        span: Span,
        defs: Defs,
        body: Box<Exp>,
    },
    /// `\ teles -> body`
    Lambda {
        span: Span,
        teles: Teles,
        body: Box<Exp>,
    },
    /// `< names > body`
    PathLambda {
        span: Span,
        names: Spans,
        body: Box<Exp>,
    },
    /// `teles -> body`
    Pi {
        span: Span,
        teles: Teles,
        body: Box<Exp>,
    },
    /// `teles * body`
    Sigma {
        span: Span,
        teles: Teles,
        body: Box<Exp>,
    },
    /// `from -> to`
    Arrow {
        span: Span,
        from: Box<Exp>,
        to: Box<Exp>,
    },
    /// `head element ..`, with one element or more
    Apply {
        span: Span,
        head: Box<Exp>,
        elements: Elements,
    },
    /// `PathP line left right`
    PathP {
        span: Span,
        line: Box<Exp>,
        left: Box<Exp>,
        right: Box<Exp>,
    },
    /// `comp line base sides`
    Comp {
        span: Span,
        line: Box<Exp>,
        base: Box<Exp>,
        sides: Sides,
    },
    /// `fill line base sides`
    Fill {
        span: Span,
        line: Box<Exp>,
        base: Box<Exp>,
        sides: Sides,
    },
    /// `transport line base`
    Transport {
        span: Span,
        line: Box<Exp>,
        base: Box<Exp>,
    },
    /// `Glue base sides`
    GlueType {
        span: Span,
        base: Box<Exp>,
        sides: Sides,
    },
    /// `glue base sides`
    GlueTerm {
        span: Span,
        base: Box<Exp>,
        sides: Sides,
    },
    /// `unglue base sides`
    Unglue {
        span: Span,
        base: Box<Exp>,
        sides: Sides,
    },
    /// `pair.1.2 ..`, with one projection or more
    Project {
        span: Span,
        pair: Box<Exp>,
        projections: Projections,
    },
    /// `U`
    Universe {
        span: Span,
    },
    /// A name.
    Name {
        span: Span,
    },
    /// `( components )`, with one component or more, unless these stand too deep to be read
    Brackets {
        span: Span,
        components: Exps,
    },
}

impl Exp {
    /// `let defs in body`
    pub fn let_in(alloc: Global, span: Span, defs: Defs, body: Exp) -> Result<Exp, AllocError>
        ensures { IfOk result (λ e. tree_of e ≡ a_let span (defs_of defs) (tree_of body)) }
    {
        let body = Box::new(alloc, body)?;
        Ok(Exp::Let { span, defs, body })
    }

    /// `\ teles -> body`
    pub fn lambda(alloc: Global, span: Span, teles: Teles, body: Exp) -> Result<Exp, AllocError>
        ensures { IfOk result (λ e. tree_of e ≡ a_lambda span (teles_of teles) (tree_of body)) }
    {
        let body = Box::new(alloc, body)?;
        Ok(Exp::Lambda { span, teles, body })
    }

    /// `< names > body`
    pub fn path_lambda(
        alloc: Global,
        span: Span,
        names: Spans,
        body: Exp,
    ) -> Result<Exp, AllocError>
        ensures { IfOk result (λ e. tree_of e ≡ a_path_lambda span names (tree_of body)) }
    {
        let body = Box::new(alloc, body)?;
        Ok(Exp::PathLambda { span, names, body })
    }

    /// `teles -> body`
    pub fn pi(alloc: Global, span: Span, teles: Teles, body: Exp) -> Result<Exp, AllocError>
        ensures { IfOk result (λ e. tree_of e ≡ a_pi span (teles_of teles) (tree_of body)) }
    {
        let body = Box::new(alloc, body)?;
        Ok(Exp::Pi { span, teles, body })
    }

    /// `teles * body`
    pub fn sigma(alloc: Global, span: Span, teles: Teles, body: Exp) -> Result<Exp, AllocError>
        ensures { IfOk result (λ e. tree_of e ≡ a_sigma span (teles_of teles) (tree_of body)) }
    {
        let body = Box::new(alloc, body)?;
        Ok(Exp::Sigma { span, teles, body })
    }

    /// `from -> to`
    pub fn arrow(alloc: Global, span: Span, from: Exp, to: Exp) -> Result<Exp, AllocError>
        ensures { IfOk result (λ e. tree_of e ≡ an_arrow span (tree_of from) (tree_of to)) }
    {
        let from = Box::new(alloc, from)?;
        let to = Box::new(alloc, to)?;
        Ok(Exp::Arrow { span, from, to })
    }

    /// `head elements`
    pub fn apply(
        alloc: Global,
        span: Span,
        head: Exp,
        elements: Elements,
    ) -> Result<Exp, AllocError>
        ensures { IfOk result (λ e.
            tree_of e ≡ an_application span (tree_of head) (elements_of elements)) }
    {
        Ok(Exp::Apply {
            span,
            head: Box::new(alloc, head)?,
            elements,
        })
    }

    /// `PathP line left right`
    pub fn path_type(
        alloc: Global,
        span: Span,
        line: Exp,
        left: Exp,
        right: Exp,
    ) -> Result<Exp, AllocError>
        ensures { IfOk result (λ e.
            tree_of e ≡ a_path_type span (tree_of line) (tree_of left) (tree_of right)) }
    {
        let line = Box::new(alloc, line)?;
        let left = Box::new(alloc, left)?;
        let right = Box::new(alloc, right)?;
        Ok(Exp::PathP {
            span,
            line,
            left,
            right,
        })
    }

    /// `comp line base sides`
    pub fn composition(
        alloc: Global,
        span: Span,
        line: Exp,
        base: Exp,
        sides: Sides,
    ) -> Result<Exp, AllocError>
        ensures { IfOk result (λ e.
            tree_of e ≡ a_composition span (tree_of line) (tree_of base) (sides_of sides)) }
    {
        let line = Box::new(alloc, line)?;
        let base = Box::new(alloc, base)?;
        Ok(Exp::Comp {
            span,
            line,
            base,
            sides,
        })
    }

    /// `fill line base sides`
    pub fn filling(
        alloc: Global,
        span: Span,
        line: Exp,
        base: Exp,
        sides: Sides,
    ) -> Result<Exp, AllocError>
        ensures { IfOk result (λ e.
            tree_of e ≡ a_filling span (tree_of line) (tree_of base) (sides_of sides)) }
    {
        let line = Box::new(alloc, line)?;
        let base = Box::new(alloc, base)?;
        Ok(Exp::Fill {
            span,
            line,
            base,
            sides,
        })
    }

    /// `transport line base`
    pub fn transport(alloc: Global, span: Span, line: Exp, base: Exp) -> Result<Exp, AllocError>
        ensures { IfOk result (λ e. tree_of e ≡ a_transport span (tree_of line) (tree_of base)) }
    {
        let line = Box::new(alloc, line)?;
        let base = Box::new(alloc, base)?;
        Ok(Exp::Transport { span, line, base })
    }

    /// `Glue base sides`
    pub fn glue_type(alloc: Global, span: Span, base: Exp, sides: Sides) -> Result<Exp, AllocError>
        ensures { IfOk result (λ e. tree_of e ≡ a_glue_type span (tree_of base) (sides_of sides)) }
    {
        let base = Box::new(alloc, base)?;
        Ok(Exp::GlueType { span, base, sides })
    }

    /// `glue base sides`
    pub fn glue_term(alloc: Global, span: Span, base: Exp, sides: Sides) -> Result<Exp, AllocError>
        ensures { IfOk result (λ e. tree_of e ≡ a_glue_term span (tree_of base) (sides_of sides)) }
    {
        let base = Box::new(alloc, base)?;
        Ok(Exp::GlueTerm { span, base, sides })
    }

    /// `unglue base sides`
    pub fn unglue(alloc: Global, span: Span, base: Exp, sides: Sides) -> Result<Exp, AllocError>
        ensures { IfOk result (λ e. tree_of e ≡ an_unglue span (tree_of base) (sides_of sides)) }
    {
        let base = Box::new(alloc, base)?;
        Ok(Exp::Unglue { span, base, sides })
    }

    /// `pair projections`
    pub fn project(
        alloc: Global,
        span: Span,
        pair: Exp,
        projections: Projections,
    ) -> Result<Exp, AllocError>
        ensures { IfOk result (λ e. tree_of e ≡ a_projection span (tree_of pair) projections) }
    {
        let pair = Box::new(alloc, pair)?;
        Ok(Exp::Project {
            span,
            pair,
            projections,
        })
    }

    /// `( components )`
    pub fn brackets(span: Span, components: Exps) -> Exp
        ensures { tree_of result ≡ brackets_round span (exps_of components) }
    {
        Exp::Brackets { span, components }
    }
}

/// What an expression is applied to.
#[cycle(ast)]
#[derive(Drop)]
pub enum Element {
    Argument(Exp),
    /// `@ formula`
    At(Span, Formula),
}

/// `( names : ty )`
#[cycle(ast)]
#[derive(Drop)]
pub struct Tele {
    pub names: Spans,
    pub ty: Exp,
}

/// A side of a system: its equations, and its expression.
#[cycle(ast)]
#[derive(Drop)]
pub struct Side {
    pub equations: Equations,
    pub body: Exp,
}

/// `name teles : ty = body where locals`
#[cycle(ast)]
#[derive(Drop)]
pub struct Def {
    pub name: Span,
    pub teles: Teles,
    pub ty: Exp,
    pub body: Exp,
    pub locals: Defs,
}

/// Expressions, in order.
#[cycle(ast)]
#[derive(Drop)]
pub struct Exps {
    items: Vec<Exp>,
}

impl Exps {
    /// The empty list, which takes no memory.
    pub fn new(alloc: Global) -> Exps
        ensures { exps_of result ≡ none }
    {
        Exps {
            items: Vec::new(alloc),
        }
    }

    /// Appends an expression.
    pub fn push(&mut self, exp: Exp) -> Result<(), AllocError>
        ensures ok { OnOk result (exps_of self.new ≡ with (exps_of self.old) (tree_of exp)) }
        ensures err { OnErr result (exps_of self.new ≡ exps_of self.old) }
    {
        self.items.push(exp)?;
        Ok(())
    }

    /// The items, in order.
    pub fn as_slice(&self) -> &[Exp]
        ensures { result.now ≡ exp_items self.now }
    {
        &self.items
    }
}

/// Elements, in order.
#[cycle(ast)]
#[derive(Drop)]
pub struct Elements {
    items: Vec<Element>,
}

impl Elements {
    /// The empty list, which takes no memory.
    pub fn new(alloc: Global) -> Elements
        ensures { elements_of result ≡ none }
    {
        Elements {
            items: Vec::new(alloc),
        }
    }

    /// Appends an element.
    pub fn push(&mut self, element: Element) -> Result<(), AllocError>
        ensures ok { OnOk result
            (elements_of self.new ≡ with (elements_of self.old) (element_of element)) }
        ensures err { OnErr result (elements_of self.new ≡ elements_of self.old) }
    {
        self.items.push(element)?;
        Ok(())
    }

    /// The items, in order.
    pub fn as_slice(&self) -> &[Element]
        ensures { result.now ≡ element_items self.now }
    {
        &self.items
    }
}

/// Teles, in order.
#[cycle(ast)]
#[derive(Drop)]
pub struct Teles {
    items: Vec<Tele>,
}

impl Teles {
    /// The empty list, which takes no memory.
    pub fn new(alloc: Global) -> Teles
        ensures { teles_of result ≡ none }
    {
        Teles {
            items: Vec::new(alloc),
        }
    }

    /// Appends a tele.
    pub fn push(&mut self, tele: Tele) -> Result<(), AllocError>
        ensures ok { OnOk result (teles_of self.new ≡ with (teles_of self.old) (tele_of tele)) }
        ensures err { OnErr result (teles_of self.new ≡ teles_of self.old) }
    {
        self.items.push(tele)?;
        Ok(())
    }

    /// The items, in order.
    pub fn as_slice(&self) -> &[Tele]
        ensures { result.now ≡ tele_items self.now }
    {
        &self.items
    }
}

/// Sides, in order.
#[cycle(ast)]
#[derive(Drop)]
pub struct Sides {
    items: Vec<Side>,
}

impl Sides {
    /// The empty list, which takes no memory.
    pub fn new(alloc: Global) -> Sides
        ensures { sides_of result ≡ none }
    {
        Sides {
            items: Vec::new(alloc),
        }
    }

    /// Appends a side.
    pub fn push(&mut self, side: Side) -> Result<(), AllocError>
        ensures ok { OnOk result (sides_of self.new ≡ with (sides_of self.old) (side_of side)) }
        ensures err { OnErr result (sides_of self.new ≡ sides_of self.old) }
    {
        self.items.push(side)?;
        Ok(())
    }

    /// The items, in order.
    pub fn as_slice(&self) -> &[Side]
        ensures { result.now ≡ side_items self.now }
    {
        &self.items
    }
}

/// Definitions, in order.
#[cycle(ast)]
#[derive(Drop)]
pub struct Defs {
    items: Vec<Def>,
}

impl Defs {
    /// The empty list, which takes no memory.
    pub fn new(alloc: Global) -> Defs
        ensures { defs_of result ≡ none }
    {
        Defs {
            items: Vec::new(alloc),
        }
    }

    /// Appends a definition.
    pub fn push(&mut self, def: Def) -> Result<(), AllocError>
        ensures ok { OnOk result (defs_of self.new ≡ with (defs_of self.old) (def_of def)) }
        ensures err { OnErr result (defs_of self.new ≡ defs_of self.old) }
    {
        self.items.push(def)?;
        Ok(())
    }

    /// The items, in order.
    pub fn as_slice(&self) -> &[Def]
        ensures { result.now ≡ def_items self.now }
    {
        &self.items
    }
}

/// A module.
#[derive(Drop)]
pub struct Module {
    pub name: Span,
    pub imports: Spans,
    pub defs: Defs,
}
