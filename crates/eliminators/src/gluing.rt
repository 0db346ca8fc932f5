//! Terms of glued types, unglued.

use crate::under::equation_under;
use book::{Book, NodeId};
use kan_rules::{
    GLUE_PARTS, GLUE_PARTS_GIVES, UNGLUE_GLUE, UNGLUE_GLUE_GIVES, UNGLUE_STAYS, UNGLUE_STAYS_GIVES,
};
use tested_steps::{Fault, derive, part_of, premise_of, substitution_row, try_instance};
use values::{Goal, Susp, advance, aligned, rebuilt, term_under};

/// The parts of a glued type in the context of what was asked: `H >> A`, and T and w where the face
/// is true; and the substitution from there.
#[derive(Clone, Copy, Debug)]
pub struct GlueParts {
    pub base: NodeId,
    pub ty: NodeId,
    pub map: NodeId,
    pub lifted: NodeId,
    pub face: u64,
}

/// The parts of a glued type, of a node whose first premises they are, under a substitution.
pub fn glue_parts(
    book: &mut Book,
    sub: NodeId,
    node: NodeId,
    base: NodeId,
    ty: NodeId,
) -> Result<GlueParts, Fault> {
    let face = part_of(book, node, 2)?;
    let premises = [sub, base, ty, premise_of(book, node, 2)?];
    let [base, ty, map, lifted]: [NodeId; 4] = derive(
        book,
        GLUE_PARTS,
        GLUE_PARTS_GIVES,
        &[face],
        &premises,
    )?;
    let row = substitution_row(book, sub)?;
    let face = try_instance(book, face, row)?;
    Ok(GlueParts {
        base,
        ty,
        map,
        lifted,
        face,
    })
}

/// The parts of the glued type of a `glue` or an `unglue`.
pub fn glued_of(book: &mut Book, goal: Goal) -> Result<GlueParts, Fault> {
    let node = goal.susp.typing;
    let base = premise_of(book, node, 0)?;
    let ty = premise_of(book, node, 1)?;
    glue_parts(book, goal.susp.sub, node, base, ty)
}

/// The base of what was glued, at the type that was asked.
pub fn fire_glue(book: &mut Book, goal: Goal, head: Goal) -> Result<Goal, Fault> {
    let parts = glued_of(book, head)?;
    let node = head.susp.typing;
    let above = premise_of(book, node, 3)?;
    let base = premise_of(book, node, 4)?;
    let image = premise_of(book, node, 5)?;
    let premises = [
        parts.base,
        parts.ty,
        parts.map,
        term_under(book, parts.lifted, above)?,
        term_under(book, head.susp.sub, base)?,
        equation_under(book, parts.lifted, image)?,
        head.way.equal,
    ];
    let [equal]: [NodeId; 1] = derive(
        book,
        UNGLUE_GLUE,
        UNGLUE_GLUE_GIVES,
        &[parts.face],
        &premises,
    )?;
    let way = advance(book, goal.way, equal, None)?;
    let susp = Susp {
        ctx: goal.susp.ctx,
        typing: base,
        sub: head.susp.sub,
    };
    Ok(Goal { susp, way })
}

/// A term of a glued type that no rule rewrites, unglued.
pub fn close_unglue(book: &mut Book, goal: Goal, head: Goal) -> Result<Goal, Fault> {
    let parts = glued_of(book, goal)?;
    let term = aligned(book, head)?;
    let premises = [parts.base, parts.ty, parts.map, head.way.equal, term];
    let [equal, term]: [NodeId; 2] = derive(
        book,
        UNGLUE_STAYS,
        UNGLUE_STAYS_GIVES,
        &[parts.face],
        &premises,
    )?;
    rebuilt(book, goal, equal, None, term)
}
