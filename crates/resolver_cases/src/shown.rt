//! Codes as texts: `#0` is an index, `@0` a number, `{..}` is what stands under a name or variable
//! of its own, `[..]` what is applied to one.

use resolver::{
    Binder, Code, CodeDef, Element, Equation, Formula, LineSide, Opened, PairSide, Side,
};
use std::alloc::{AllocError, Global};
use syntax::{End, Projection};

/// What is still to be written.
#[derive(Clone, Copy)]
enum Part<'a> {
    Open(&'static str),
    Close(&'static str),
    Code(&'a Code),
    Opened(&'a Opened),
    Formula(&'a Formula),
    Codes(&'a [Code]),
    Projections(&'a [Projection]),
    Elements(&'a [Element]),
    Equations(&'a [Equation]),
    Binders(&'a [Binder]),
    Defs(&'a [CodeDef]),
    Sides(&'a [Side]),
    LineSides(&'a [LineSide]),
    PairSides(&'a [PairSide]),
}

/// How many parts a code that is shown has at most.
const MOST: u32 = 100_000;

/// What was shown of a code, and the parts that are still to be written, the last one first.
#[derive(Drop)]
struct Shown<'a> {
    into: String,
    parts: Vec<Part<'a>>,
}

impl<'a> Shown<'a> {
    /// Nothing yet.
    fn new(alloc: Global) -> Shown<'a> {
        Shown {
            into: String::new(alloc),
            parts: Vec::new(alloc),
        }
    }

    fn then(&mut self, parts: &[Part<'a>]) -> Result<(), AllocError> {
        for part in parts.iter().rev() {
            self.parts.push(*part)?;
        }
        Ok(())
    }

    /// A word, with a space before it where it follows another.
    fn open(&mut self, word: &str) -> Result<(), AllocError> {
        let text = self.into.as_str();
        if !text.is_empty() && !text.ends_with("{") && !text.ends_with("[") {
            self.into.push(' ')?;
        }
        self.into.push_str(word)
    }

    fn number(&mut self, sign: &str, number: usize) -> Result<(), AllocError> {
        self.open(sign)?;
        write!(self.into, "{number}")
    }

    fn form(&mut self, word: &'static str, parts: &[Part<'a>]) -> Result<(), AllocError> {
        self.open(word)?;
        self.parts.push(Part::Close(")"))?;
        self.then(parts)
    }

    fn formula(&mut self, formula: &'a Formula) -> Result<(), AllocError> {
        match formula {
            Formula::Zero(_) => self.open("0"),
            Formula::One(_) => self.open("1"),
            Formula::Bound(_, index) => self.number("#", *index as usize),
            Formula::Negate(_, formula) => self.form("(-", &[Part::Formula(formula)]),
            Formula::Meet(_, left, right) => {
                self.form("(/\\", &[Part::Formula(left), Part::Formula(right)])
            }
            Formula::Join(_, left, right) => {
                self.form("(\\/", &[Part::Formula(left), Part::Formula(right)])
            }
        }
    }

    fn opened(&mut self, opened: &'a Opened) -> Result<(), AllocError> {
        match opened {
            Opened::Under(_, body) => {
                self.open("{")?;
                self.then(&[Part::Code(body), Part::Close("}")])
            }
            Opened::Applied(_, text) => {
                self.open("[")?;
                self.then(&[Part::Code(text), Part::Close("]")])
            }
        }
    }

    fn code(&mut self, code: &'a Code) -> Result<(), AllocError> {
        match code {
            Code::Bound { span: _, index } => self.number("#", *index as usize),
            Code::Defined { span: _, number } => self.number("@", *number as usize),
            Code::Universe { span: _ } => self.open("U"),
            Code::Nat { span: _ } => self.open("nat"),
            Code::Zero { span: _ } => self.open("zero"),
            _ => self.term(code),
        }
    }

    fn term(&mut self, code: &'a Code) -> Result<(), AllocError> {
        match code {
            Code::Apply {
                span: _,
                head,
                elements,
            } => {
                let elements = Part::Elements(elements.as_slice());
                self.form("(app", &[Part::Code(head), elements])
            }
            Code::Project {
                span: _,
                pair,
                projections,
            } => {
                let projections = Part::Projections(projections.as_slice());
                self.form("(.", &[Part::Code(pair), projections])
            }
            Code::Tuple {
                span: _,
                components,
            } => self.form("(pair", &[Part::Codes(components.as_slice())]),
            Code::Suc { span: _, argument } => self.form("(suc", &[Part::Code(argument)]),
            Code::NatRec {
                span: _,
                motive,
                base,
                step,
                argument,
            } => {
                let (base, step) = (Part::Code(base), Part::Code(step));
                let parts = [Part::Opened(motive), base, step, Part::Code(argument)];
                self.form("(natrec", &parts)
            }
            _ => self.binding(code),
        }
    }

    fn binding(&mut self, code: &'a Code) -> Result<(), AllocError> {
        match code {
            Code::Let {
                span: _,
                locals,
                body,
            } => self.form("(let", &[Part::Defs(locals.as_slice()), Part::Code(body)]),
            Code::Pi {
                span: _,
                binders,
                body,
            } => self.form(
                "(pi",
                &[Part::Binders(binders.as_slice()), Part::Code(body)],
            ),
            Code::Sigma {
                span: _,
                binders,
                body,
            } => self.form(
                "(sig",
                &[Part::Binders(binders.as_slice()), Part::Code(body)],
            ),
            Code::Lambda {
                span: _,
                binders,
                body,
            } => self.form(
                "(lam",
                &[Part::Binders(binders.as_slice()), Part::Code(body)],
            ),
            Code::PathLambda {
                span: _,
                names,
                body,
            } => {
                self.number("(plam ", *names)?;
                self.then(&[Part::Code(body), Part::Close(")")])
            }
            _ => self.line(code),
        }
    }

    fn line(&mut self, code: &'a Code) -> Result<(), AllocError> {
        match code {
            Code::PathP {
                span: _,
                line,
                left,
                right,
            } => {
                let parts = [Part::Opened(line), Part::Code(left), Part::Code(right)];
                self.form("(pathp", &parts)
            }
            Code::Comp {
                span: _,
                line,
                base,
                sides,
            } => {
                let sides = Part::LineSides(sides.as_slice());
                self.form("(comp", &[Part::Opened(line), Part::Code(base), sides])
            }
            Code::Fill {
                span: _,
                line,
                base,
                sides,
            } => {
                let sides = Part::LineSides(sides.as_slice());
                self.form("(fill", &[Part::Opened(line), Part::Code(base), sides])
            }
            Code::Transport {
                span: _,
                line,
                base,
            } => self.form("(transport", &[Part::Opened(line), Part::Code(base)]),
            _ => self.glueing(code),
        }
    }

    fn glueing(&mut self, code: &'a Code) -> Result<(), AllocError> {
        match code {
            Code::GlueType {
                span: _,
                base,
                sides,
            } => self.form(
                "(Glue",
                &[Part::Code(base), Part::PairSides(sides.as_slice())],
            ),
            Code::GlueTerm {
                span: _,
                base,
                sides,
            } => self.form("(glue", &[Part::Code(base), Part::Sides(sides.as_slice())]),
            Code::Unglue {
                span: _,
                base,
                sides,
            } => {
                let sides = Part::PairSides(sides.as_slice());
                self.form("(unglue", &[Part::Code(base), sides])
            }
            _ => Ok(()),
        }
    }

    fn element(&mut self, element: &'a Element) -> Result<(), AllocError> {
        match element {
            Element::Argument(code) => self.code(code),
            Element::At(_, formula) => {
                self.open("@")?;
                self.formula(formula)
            }
        }
    }

    fn equation(&mut self, equation: Equation) -> Result<(), AllocError> {
        self.number("#", equation.index as usize)?;
        match equation.end {
            End::Zero => self.into.push_str("=0"),
            End::One => self.into.push_str("=1"),
        }
    }

    fn def(&mut self, def: &'a CodeDef) -> Result<(), AllocError> {
        self.number("(def ", def.number as usize)?;
        let parts = [
            Part::Binders(def.binders.as_slice()),
            Part::Open(":"),
            Part::Code(&def.ty),
            Part::Open("="),
            Part::Code(&def.body),
            Part::Close(")"),
        ];
        self.then(&parts)
    }

    fn part(&mut self, part: Part<'a>) -> Result<(), AllocError> {
        match part {
            Part::Open(word) => self.open(word),
            Part::Close(word) => self.into.push_str(word),
            Part::Code(code) => self.code(code),
            Part::Opened(opened) => self.opened(opened),
            Part::Formula(formula) => self.formula(formula),
            _ => self.list(part),
        }
    }

    /// The first of a list; the others come later.
    fn list(&mut self, part: Part<'a>) -> Result<(), AllocError> {
        match part {
            Part::Codes([code, rest @ ..]) => {
                self.parts.push(Part::Codes(rest))?;
                self.code(code)
            }
            Part::Projections([projection, rest @ ..]) => {
                self.parts.push(Part::Projections(rest))?;
                match projection {
                    Projection::First(_) => self.open("1"),
                    Projection::Second(_) => self.open("2"),
                }
            }
            Part::Elements([element, rest @ ..]) => {
                self.parts.push(Part::Elements(rest))?;
                self.element(element)
            }
            Part::Equations([equation, rest @ ..]) => {
                self.parts.push(Part::Equations(rest))?;
                self.equation(*equation)
            }
            _ => self.long_list(part),
        }
    }

    fn long_list(&mut self, part: Part<'a>) -> Result<(), AllocError> {
        match part {
            Part::Binders([binder, rest @ ..]) => {
                self.number("(", binder.names)?;
                self.then(&[
                    Part::Code(&binder.ty),
                    Part::Close(")"),
                    Part::Binders(rest),
                ])
            }
            Part::Defs([def, rest @ ..]) => {
                self.parts.push(Part::Defs(rest))?;
                self.def(def)
            }
            _ => self.sides(part),
        }
    }

    fn sides(&mut self, part: Part<'a>) -> Result<(), AllocError> {
        match part {
            Part::Sides([side, rest @ ..]) => {
                let equations = Part::Equations(side.equations.as_slice());
                let body = Part::Code(&side.body);
                self.then(&[equations, Part::Open("->"), body, Part::Sides(rest)])
            }
            Part::LineSides([side, rest @ ..]) => {
                let equations = Part::Equations(side.equations.as_slice());
                let body = Part::Opened(&side.body);
                self.then(&[equations, Part::Open("->"), body, Part::LineSides(rest)])
            }
            Part::PairSides([side, rest @ ..]) => {
                let equations = Part::Equations(side.equations.as_slice());
                let (ty, equivalence) = (Part::Code(&side.ty), Part::Code(&side.equivalence));
                let rest = Part::PairSides(rest);
                self.then(&[equations, Part::Open("->"), ty, equivalence, rest])
            }
            _ => Ok(()),
        }
    }

    /// Writes all parts, unless they are very many.
    fn all(&mut self) -> Result<(), AllocError> {
        for _ in 0..MOST {
            let Some(part) = self.parts.pop() else {
                return Ok(());
            };
            self.part(part)?;
        }
        Ok(())
    }

    /// Writes a part with all that it has.
    fn whole(&mut self, part: Part<'a>) -> Result<(), AllocError> {
        self.parts.push(part)?;
        self.all()
    }

    /// What was written.
    fn written(self) -> String {
        let Shown { into, parts } = self;
        drop(parts);
        into
    }
}

fn part_shown<'a>(alloc: Global, part: Part<'a>) -> Result<String, AllocError> {
    let mut shown = Shown::new(alloc);
    shown.whole(part)?;
    Ok(shown.written())
}

pub fn code_shown(alloc: Global, code: &Code) -> Result<String, AllocError> {
    part_shown(alloc, Part::Code(code))
}

pub fn defs_shown(alloc: Global, defs: &[CodeDef]) -> Result<String, AllocError> {
    part_shown(alloc, Part::Defs(defs))
}
