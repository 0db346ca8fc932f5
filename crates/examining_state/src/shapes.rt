//! Types by their heads.

use crate::faults::Stop;
use crate::questions::term_from;
use crate::state::{Examiner, Inferred};
use book::{Book, NodeId};
use eliminators::{as_type, glue_parts};
use joined_sides::{Glued, fitted, reflexive, same_trees};
use literal_types::Literal;
use tested_steps::{Fault, kids_of, premise_of, rule_of};
use theory::{GlueRule, RuleName};
use typed_nodes::{Family, Line};
use values::{Goal, term_under};

/// The outermost form of a type.
#[derive(Clone, Copy, Debug)]
pub enum Head {
    /// A type of functions.
    Function(Family),
    /// A type of pairs.
    Pair(Family),
    /// A type of paths.
    Path(Line),
    /// A glued type.
    Glued(Glued),
    /// The universe.
    Universe,
    /// Another.
    Other,
}

/// A type by its head.
#[derive(Clone, Copy, Debug)]
pub struct Shape {
    pub head: Head,
    /// `G >> H`, where H is the head.
    pub ty: NodeId,
    /// `G >> T = H`, of the type T that was asked; None where the head is that as it stands.
    pub equal: Option<NodeId>,
}

impl Shape {
    /// A term of the type that was asked, at the head.
    pub fn opened(self, book: &mut Book, term: NodeId) -> Result<NodeId, Fault> {
        match self.equal {
            None => Ok(term),
            Some(equation) => fitted(book, term, equation),
        }
    }

    /// A term of the head, at the type that was asked.
    pub fn closed(self, book: &mut Book, term: NodeId) -> Result<NodeId, Fault> {
        term_from(book, term, self.equal)
    }

    /// The equation of the type that was asked and the head.
    pub fn equation(self, book: &mut Book) -> Result<NodeId, Fault> {
        match self.equal {
            None => reflexive(book, self.ty),
            Some(equation) => Ok(equation),
        }
    }
}

/// The parts of a glued type, of the head that it is.
fn glued_of(book: &mut Book, goal: Goal) -> Result<Glued, Fault> {
    let node = goal.susp.typing;
    let base = premise_of(book, node, 0)?;
    let base = as_type(book, base)?;
    let ty = premise_of(book, node, 1)?;
    let ty = as_type(book, ty)?;
    let parts = glue_parts(book, goal.susp.sub, node, base, ty)?;
    Ok(Glued {
        ctx: goal.susp.ctx,
        base: parts.base,
        face: parts.face,
        ty: parts.ty,
        map: parts.map,
    })
}

impl Examiner {
    /// The form that a type of the place literally is, if it is one of functions, pairs or paths or
    /// the universe.
    fn literally(&mut self, book: &mut Book, ty: NodeId) -> Result<Head, Fault> {
        match kids_of(self.alloc, book, ty)? {
            Literal::Pi(family) => Ok(Head::Function(family)),
            Literal::Sigma(family) => Ok(Head::Pair(family)),
            Literal::Path(line) => Ok(Head::Path(line)),
            Literal::Other => {
                let universe = self.universe(book)?;
                if same_trees(book, ty, universe)? {
                    Ok(Head::Universe)
                } else {
                    Ok(Head::Other)
                }
            }
        }
    }

    /// A type of the place by its head. Where it literally is one of functions, pairs or paths or
    /// the universe, no question is asked.
    pub fn shape(&mut self, book: &mut Book, at: u32, ty: NodeId) -> Result<Shape, Stop> {
        let head = self.literally(book, ty)?;
        if !matches!(head, Head::Other) {
            return Ok(Shape {
                head,
                ty,
                equal: None,
            });
        }
        let goal = self.head_of(book, at, ty)?;
        let equal = Some(goal.way.equal);
        let ty = term_under(book, goal.susp.sub, goal.susp.typing)?;
        let ty = as_type(book, ty)?;
        let head = match rule_of(book, goal.susp.typing)? {
            RuleName::Gluing(GlueRule::GlueTy | GlueRule::GlueU) => {
                Head::Glued(glued_of(book, goal)?)
            }
            _ => self.literally(book, ty)?,
        };
        Ok(Shape { head, ty, equal })
    }

    /// The term that was inferred last, at the head of its type, which stays known.
    pub fn open_head(&mut self, book: &mut Book, at: u32) -> Result<OpenHead, Stop> {
        let Inferred { term, ty } = self.take_head()?;
        let shape = self.shape(book, at, ty)?;
        let term = shape.opened(book, term)?;
        Ok(OpenHead { term, ty, shape })
    }
}

/// A term that was inferred.
#[derive(Clone, Copy, Debug)]
pub struct OpenHead {
    /// At the head of its type.
    pub term: NodeId,
    /// The type that it was inferred at.
    pub ty: NodeId,
    pub shape: Shape,
}
