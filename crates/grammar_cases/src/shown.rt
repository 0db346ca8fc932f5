//! Trees as lists in brackets, whose first word names the form.

use layout_lexer::Span;
use std::alloc::{AllocError, Global};
use syntax::{Def, Element, End, Equation, Exp, Formula, Module, Projection, Side, Tele};

/// What is still to be written.
#[derive(Clone, Copy)]
enum Part<'a> {
    Word(&'static str),
    Piece(Span),
    Exp(&'a Exp),
    Formula(&'a Formula),
    Names(&'a [Span]),
    Exps(&'a [Exp]),
    Elements(&'a [Element]),
    Projections(&'a [Projection]),
    Equations(&'a [Equation]),
    Teles(&'a [Tele]),
    Sides(&'a [Side]),
    Defs(&'a [Def]),
}

/// How many parts a tree that is shown has at most.
const MOST: u32 = 10_000;

/// A text, what was shown of its tree, the parts that are still to be written, the last one first,
/// and whether each form is shown with its span.
#[derive(Drop)]
struct Shown<'a> {
    text: &'a str,
    into: String,
    parts: Vec<Part<'a>>,
    spans: bool,
}

impl<'a> Shown<'a> {
    /// Of a text, nothing yet.
    fn new(alloc: Global, text: &'a str, spans: bool) -> Shown<'a> {
        Shown {
            text,
            into: String::new(alloc),
            parts: Vec::new(alloc),
            spans,
        }
    }

    fn then(&mut self, parts: &[Part<'a>]) -> Result<(), AllocError> {
        for part in parts.iter().rev() {
            self.parts.push(*part)?;
        }
        Ok(())
    }

    fn form(
        &mut self,
        word: &'static str,
        span: Span,
        parts: &[Part<'a>],
    ) -> Result<(), AllocError> {
        self.into.push_str(" (")?;
        self.into.push_str(word)?;
        if self.spans {
            let start = span.start;
            let end = span.end;
            write!(self.into, "@{start}-{end}")?;
        }
        self.parts.push(Part::Word(")"))?;
        self.then(parts)
    }

    fn piece(&mut self, span: Span) -> Result<(), AllocError> {
        self.into.push(' ')?;
        match self.text.get(span.start as usize..span.end as usize) {
            Some(piece) => self.into.push_str(piece),
            None => self.into.push('?'),
        }
    }

    fn formula(&mut self, formula: &'a Formula) -> Result<(), AllocError> {
        match formula {
            Formula::Zero(span) | Formula::One(span) | Formula::Name(span) => self.piece(*span),
            Formula::Negate(span, formula) => self.form("-", *span, &[Part::Formula(formula)]),
            Formula::Meet(span, left, right) => {
                self.form("/\\", *span, &[Part::Formula(left), Part::Formula(right)])
            }
            Formula::Join(span, left, right) => {
                self.form("\\/", *span, &[Part::Formula(left), Part::Formula(right)])
            }
        }
    }

    fn binder(&mut self, exp: &'a Exp) -> Result<(), AllocError> {
        match exp {
            Exp::Let { span, defs, body } => {
                self.form(
                    "let",
                    *span,
                    &[Part::Defs(defs.as_slice()), Part::Exp(body)],
                )
            }
            Exp::Lambda { span, teles, body } => {
                self.form(
                    "\\",
                    *span,
                    &[Part::Teles(teles.as_slice()), Part::Exp(body)],
                )
            }
            Exp::PathLambda { span, names, body } => {
                let parts = [
                    Part::Names(names.as_slice()),
                    Part::Word(" ."),
                    Part::Exp(body),
                ];
                self.form("<>", *span, &parts)
            }
            Exp::Pi { span, teles, body } => {
                self.form(
                    "pi",
                    *span,
                    &[Part::Teles(teles.as_slice()), Part::Exp(body)],
                )
            }
            Exp::Sigma { span, teles, body } => {
                self.form(
                    "sigma",
                    *span,
                    &[Part::Teles(teles.as_slice()), Part::Exp(body)],
                )
            }
            Exp::Arrow { span, from, to } => {
                self.form("->", *span, &[Part::Exp(from), Part::Exp(to)])
            }
            _ => Ok(()),
        }
    }

    fn line_form(&mut self, exp: &'a Exp) -> Result<(), AllocError> {
        match exp {
            Exp::PathP {
                span,
                line,
                left,
                right,
            } => self.form(
                "PathP",
                *span,
                &[Part::Exp(line), Part::Exp(left), Part::Exp(right)],
            ),
            Exp::Comp {
                span,
                line,
                base,
                sides,
            } => {
                let parts = [
                    Part::Exp(line),
                    Part::Exp(base),
                    Part::Sides(sides.as_slice()),
                ];
                self.form("comp", *span, &parts)
            }
            Exp::Fill {
                span,
                line,
                base,
                sides,
            } => {
                let parts = [
                    Part::Exp(line),
                    Part::Exp(base),
                    Part::Sides(sides.as_slice()),
                ];
                self.form("fill", *span, &parts)
            }
            Exp::Transport { span, line, base } => {
                self.form("transport", *span, &[Part::Exp(line), Part::Exp(base)])
            }
            _ => self.binder(exp),
        }
    }

    fn glue_form(&mut self, exp: &'a Exp) -> Result<(), AllocError> {
        match exp {
            Exp::GlueType { span, base, sides } => {
                self.form(
                    "Glue",
                    *span,
                    &[Part::Exp(base), Part::Sides(sides.as_slice())],
                )
            }
            Exp::GlueTerm { span, base, sides } => {
                self.form(
                    "glue",
                    *span,
                    &[Part::Exp(base), Part::Sides(sides.as_slice())],
                )
            }
            Exp::Unglue { span, base, sides } => {
                self.form(
                    "unglue",
                    *span,
                    &[Part::Exp(base), Part::Sides(sides.as_slice())],
                )
            }
            _ => self.line_form(exp),
        }
    }

    fn exp(&mut self, exp: &'a Exp) -> Result<(), AllocError> {
        match exp {
            Exp::Universe { span } | Exp::Name { span } => self.piece(*span),
            Exp::Apply {
                span,
                head,
                elements,
            } => {
                let parts = [Part::Exp(head), Part::Elements(elements.as_slice())];
                self.form("app", *span, &parts)
            }
            Exp::Project {
                span,
                pair,
                projections,
            } => {
                let parts = [Part::Exp(pair), Part::Projections(projections.as_slice())];
                self.form(".", *span, &parts)
            }
            Exp::Brackets { span, components } => {
                self.form("br", *span, &[Part::Exps(components.as_slice())])
            }
            _ => self.glue_form(exp),
        }
    }

    fn element(&mut self, element: &'a Element) -> Result<(), AllocError> {
        match element {
            Element::Argument(exp) => self.exp(exp),
            Element::At(span, formula) => self.form("@", *span, &[Part::Formula(formula)]),
        }
    }

    fn equation(&mut self, equation: Equation) -> Result<(), AllocError> {
        self.piece(equation.name)?;
        match equation.end {
            End::Zero => self.into.push_str("=0"),
            End::One => self.into.push_str("=1"),
        }
    }

    fn def(&mut self, def: &'a Def) -> Result<(), AllocError> {
        let parts = [
            Part::Word(" (def"),
            Part::Piece(def.name),
            Part::Teles(def.teles.as_slice()),
            Part::Word(" :"),
            Part::Exp(&def.ty),
            Part::Word(" ="),
            Part::Exp(&def.body),
            Part::Defs(def.locals.as_slice()),
            Part::Word(")"),
        ];
        self.then(&parts)
    }

    fn part(&mut self, part: Part<'a>) -> Result<(), AllocError> {
        match part {
            Part::Word(word) => self.into.push_str(word),
            Part::Piece(span) => self.piece(span),
            Part::Exp(exp) => self.exp(exp),
            Part::Formula(formula) => self.formula(formula),
            _ => self.list(part),
        }
    }

    /// The first of a list; the others come later.
    fn list(&mut self, part: Part<'a>) -> Result<(), AllocError> {
        match part {
            Part::Names([name, rest @ ..]) => {
                self.parts.push(Part::Names(rest))?;
                self.piece(*name)
            }
            Part::Exps([exp, rest @ ..]) => {
                self.parts.push(Part::Exps(rest))?;
                self.exp(exp)
            }
            Part::Elements([element, rest @ ..]) => {
                self.parts.push(Part::Elements(rest))?;
                self.element(element)
            }
            Part::Projections([projection, rest @ ..]) => {
                self.parts.push(Part::Projections(rest))?;
                match projection {
                    Projection::First(span) | Projection::Second(span) => self.piece(*span),
                }
            }
            Part::Equations([equation, rest @ ..]) => {
                self.parts.push(Part::Equations(rest))?;
                self.equation(*equation)
            }
            _ => self.long_list(part),
        }
    }

    fn long_list(&mut self, part: Part<'a>) -> Result<(), AllocError> {
        match part {
            Part::Teles([tele, rest @ ..]) => {
                let names = Part::Names(tele.names.as_slice());
                let ty = Part::Exp(&tele.ty);
                let rest = Part::Teles(rest);
                self.then(&[
                    Part::Word(" (tele"),
                    names,
                    Part::Word(" :"),
                    ty,
                    Part::Word(")"),
                    rest,
                ])
            }
            Part::Sides([side, rest @ ..]) => {
                let equations = Part::Equations(side.equations.as_slice());
                let body = Part::Exp(&side.body);
                let rest = Part::Sides(rest);
                self.then(&[Part::Word(" (side"), equations, body, Part::Word(")"), rest])
            }
            Part::Defs([def, rest @ ..]) => {
                self.parts.push(Part::Defs(rest))?;
                self.def(def)
            }
            _ => Ok(()),
        }
    }

    /// Writes all parts, unless they are very many.
    fn all(&mut self) -> Result<(), AllocError> {
        for _ in 0..MOST {
            let Some(part) = self.parts.pop() else {
                return Ok(());
            };
            self.part(part)?;
        }
        Ok(())
    }

    /// Writes an expression with all that it has.
    fn whole_exp(&mut self, exp: &'a Exp) -> Result<(), AllocError> {
        self.parts.push(Part::Exp(exp))?;
        self.all()
    }

    /// Writes a module with all that it has.
    fn whole_module(&mut self, module: &'a Module) -> Result<(), AllocError> {
        self.piece(module.name)?;
        if !module.imports.as_slice().is_empty() {
            self.into.push_str(" import")?;
        }
        self.parts.push(Part::Defs(module.defs.as_slice()))?;
        self.parts.push(Part::Names(module.imports.as_slice()))?;
        self.all()
    }

    /// What was written.
    fn written(self) -> String {
        let Shown { into, parts, .. } = self;
        drop(parts);
        into
    }
}

/// An expression of a text; with spans, the span of each form.
pub fn exp_shown<'a>(
    alloc: Global,
    text: &'a str,
    exp: &'a Exp,
    spans: bool,
) -> Result<String, AllocError> {
    let mut shown = Shown::new(alloc, text, spans);
    shown.whole_exp(exp)?;
    Ok(shown.written())
}

/// A module of a text.
pub fn module_shown<'a>(
    alloc: Global,
    text: &'a str,
    module: &'a Module,
) -> Result<String, AllocError> {
    let mut shown = Shown::new(alloc, text, false);
    shown.whole_module(module)?;
    Ok(shown.written())
}
