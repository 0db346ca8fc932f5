//! Systems of sides.

use crate::agreements::{Probe, agreement};
use crate::conclusions::{conclude, context_row, subject};
use crate::views::{Reach, View, formula_at, into, where_all};
use book::{Book, NodeId};
use eliminators::{OnFace, equation_under, type_under};
use std::alloc::Global;
use tested_steps::{Fault, try_make};
use theory::{Op, RuleName, SystemRule};
use values::term_under;

/// A face of G, and what stands where it is true: a type or a term in G.p or G.p.I.
#[derive(Clone, Copy, Debug)]
pub struct Side {
    pub face: u64,
    pub typing: NodeId,
}

/// A type over G, over a name more, or where a face is true.
#[derive(Clone, Copy, Debug)]
pub struct TypeOn {
    pub face: Option<u64>,
    pub ty: NodeId,
}

/// What all sides of a system have in common.
#[derive(Clone, Copy, Debug)]
pub struct Home {
    /// `ctx G`
    pub ctx: NodeId,
    pub reach: Reach,
    /// The type of the sides; None where they are types.
    pub ty: Option<TypeOn>,
}

/// What a system is on the face of its first side, and on the cover of the others.
#[derive(Clone, Copy, Debug)]
pub struct Joins {
    pub face: u64,
    /// The face, and that cover, where the system stands.
    pub faces: [u64; 2],
    pub first: NodeId,
    pub others: NodeId,
}

/// The system of some last sides.
#[derive(Clone, Copy, Debug)]
pub struct Level {
    /// The cover of their faces.
    pub cover: u64,
    /// Where that is true.
    pub body: NodeId,
    /// None of no sides.
    pub joins: Option<Joins>,
}

impl Home {
    /// Where a face is true.
    pub(crate) fn view(self, book: &mut Book, face: u64) -> Result<View, Fault> {
        where_all(book, self.ctx, &[face], self.reach)
    }

    /// From a view to where some faces are true.
    fn into(self, book: &mut Book, from: View, faces: &[u64]) -> Result<NodeId, Fault> {
        let name = formula_at(book, self.reach)?;
        into(book, from, faces, self.reach, name)
    }

    /// The type of the sides in a view, if they are terms.
    fn type_in(self, book: &mut Book, from: View) -> Result<Option<NodeId>, Fault> {
        let Some(on) = self.ty else {
            return Ok(None);
        };
        let sub = match on.face {
            None => self.into(book, from, &[])?,
            Some(face) => self.into(book, from, &[face])?,
        };
        let ty = type_under(book, sub, on.ty)?;
        Ok(Some(ty))
    }
}

/// The system of no sides.
fn nothing(book: &mut Book, home: Home) -> Result<Level, Fault> {
    let cover = try_make(book, Op::F0, &[])?;
    let here = home.view(book, cover)?;
    let body = match home.type_in(book, here)? {
        None => {
            let rule = RuleName::Systems(SystemRule::EmptyTy);
            let row = context_row(book, here.ctx)?;
            conclude(book, rule, &[row], &[here.ctx])?
        }
        Some(ty) => {
            let rule = RuleName::Systems(SystemRule::EmptyTm);
            conclude(book, rule, &subject(book, ty)?, &[ty])?
        }
    };
    Ok(Level {
        cover,
        body,
        joins: None,
    })
}

/// A side and the system of the sides after it, with what the rules of systems want of them.
#[derive(Clone, Copy)]
struct Parts {
    /// In the context of the system: the faces, and the first and the other sides where they stand.
    ctx: u64,
    faces: [u64; 2],
    trees: [u64; 2],
    /// The type, if the sides are terms.
    ty: Option<NodeId>,
    typings: [NodeId; 2],
    equal: NodeId,
}

/// Uses a rule of systems at the parts of one.
fn joined_by(book: &mut Book, parts: &Parts, rule: SystemRule) -> Result<NodeId, Fault> {
    let rule = RuleName::Systems(rule);
    let [p, q] = parts.faces;
    let [one, other] = parts.trees;
    let [first, second] = parts.typings;
    match parts.ty {
        None => {
            let rows = [parts.ctx, p, q, one, other];
            conclude(book, rule, &rows, &[first, second, parts.equal])
        }
        Some(ty) => {
            let [_, row] = subject(book, ty)?;
            let rows = [parts.ctx, p, q, one, other, row];
            conclude(book, rule, &rows, &[ty, first, second, parts.equal])
        }
    }
}

/// A side and the system of the sides after it, where one of all is true. The equation says that
/// they agree where both are.
fn parts_of(
    book: &mut Book,
    home: Home,
    side: Side,
    below: &Level,
    equation: NodeId,
    here: View,
) -> Result<Parts, Fault> {
    let faces = [here.face(book, side.face)?, here.face(book, below.cover)?];
    let first = here.with_face(book, side.face)?;
    let to_side = home.into(book, first, &[side.face])?;
    let one = term_under(book, to_side, side.typing)?;
    let others = here.with_face(book, below.cover)?;
    let to_others = home.into(book, others, &[below.cover])?;
    let other = term_under(book, to_others, below.body)?;
    let both = first.with_face(book, below.cover)?;
    let to_both = home.into(book, both, &[side.face, below.cover])?;
    let equal = equation_under(book, to_both, equation)?;
    let [_, one_tree] = subject(book, one)?;
    let [_, other_tree] = subject(book, other)?;
    Ok(Parts {
        ctx: context_row(book, here.ctx)?,
        faces,
        trees: [one_tree, other_tree],
        ty: home.type_in(book, here)?,
        typings: [one, other],
        equal,
    })
}

/// The system of one side more before others, with which it agrees by an equation where both are.
fn with_side(
    book: &mut Book,
    home: Home,
    side: Side,
    below: &Level,
    equation: NodeId,
) -> Result<Level, Fault> {
    let cover = try_make(book, Op::Join, &[side.face, below.cover])?;
    let here = home.view(book, cover)?;
    let parts = parts_of(book, home, side, below, equation, here)?;
    let [whole, first, others] = match parts.ty {
        None => [
            SystemRule::SysTy,
            SystemRule::SysTyLeft,
            SystemRule::SysTyRight,
        ],
        Some(_) => [SystemRule::SysTm, SystemRule::SysLeft, SystemRule::SysRight],
    };
    let body = joined_by(book, &parts, whole)?;
    let first = joined_by(book, &parts, first)?;
    let others = joined_by(book, &parts, others)?;
    Ok(Level {
        cover,
        body,
        joins: Some(Joins {
            face: side.face,
            faces: parts.faces,
            first,
            others,
        }),
    })
}

/// The systems of the last sides, of none of them first and of all last. Of each side there is a
/// list of equations with the sides after it, in order, where the faces of both are true.
pub fn system(
    alloc: Global,
    book: &mut Book,
    home: Home,
    sides: &[Side],
    agree: &[Vec<OnFace>],
) -> Result<Vec<Level>, Fault> {
    let mut levels = Vec::new(alloc);
    levels.push(nothing(book, home)?)?;
    for (side, equations) in sides.iter().rev().zip(agree.iter().rev()) {
        let probe = Probe {
            face: Some(side.face),
            reach: home.reach,
            typing: side.typing,
        };
        let equation = agreement(book, home, &levels, probe, equations)?;
        let Some(below) = levels.last() else {
            return Err(Fault::Misfit);
        };
        let next = with_side(book, home, *side, below, equation)?;
        levels.push(next)?;
    }
    Ok(levels)
}
