//! Compositions.

use crate::faces_of_forms::Faces;
use crate::splits::Split;
use book::{Book, NodeId};
use eliminators::{equation_under, type_under};
use equal_parts::{Pair, at_left, ends_fit};
use face_rules::{COMP_EQUAL, COMP_EQUAL_GIVES};
use normal_closings::{enter_name, faced};
use settled_sides::{Reach, where_true};
use tested_steps::{Fault, derive, premise_of};
use typing_rules::{UNDER_NAME, UNDER_NAME_GIVES};
use values::{Goal, term_under};

/// Two compositions in H, at faces that are true at the same points.
#[derive(Clone, Copy, Debug)]
pub struct Comps {
    pub left: Goal,
    pub right: Goal,
    pub faces: Faces,
}

/// The line of a composition, in H.I.
fn line_of(book: &mut Book, goal: Goal) -> Result<[NodeId; 2], Fault> {
    let within = enter_name(book, goal.susp.ctx, goal.susp.sub)?;
    let line = premise_of(book, goal.susp.typing, 0)?;
    Ok([within.ctx, type_under(book, within.sub, line)?])
}

/// Their lines.
pub fn comp_lines(book: &mut Book, left: Goal, right: Goal) -> Result<Pair, Fault> {
    let [ctx, left] = line_of(book, left)?;
    let [_, right] = line_of(book, right)?;
    Ok(Pair { ctx, left, right })
}

/// The sides of a composition, in H.p.I, where the face p implies its own.
fn sides_of(book: &mut Book, goal: Goal, face: u64) -> Result<NodeId, Fault> {
    let sides = faced(book, goal, 1, Reach::Line)?;
    let there = where_true(book, sides, face)?;
    term_under(book, there.sub, sides.typing)
}

/// Their sides, at the line of the left one, where the lines are equal.
pub fn comp_sides(book: &mut Book, both: Comps, lines: NodeId) -> Result<Split, Fault> {
    let face = both.faces.left;
    let left = sides_of(book, both.left, face)?;
    let right = sides_of(book, both.right, face)?;
    let premises = [both.faces.within.out];
    let [out]: [NodeId; 1] = derive(book, UNDER_NAME, UNDER_NAME_GIVES, &[], &premises)?;
    let fits = equation_under(book, out, lines)?;
    Ok(Split {
        ctx: both.left.susp.ctx,
        face,
        left,
        right: at_left(book, right, fits)?,
        reach: Reach::Line,
    })
}

/// The base of a composition.
fn base_of(book: &mut Book, goal: Goal) -> Result<NodeId, Fault> {
    let base = premise_of(book, goal.susp.typing, 2)?;
    term_under(book, goal.susp.sub, base)
}

/// Their bases, at the start of the line of the left one, where the lines are equal.
pub fn comp_bases(book: &mut Book, both: Comps, lines: NodeId) -> Result<Pair, Fault> {
    let ctx = both.left.susp.ctx;
    let [start, _] = ends_fit(book, ctx, lines)?;
    let left = base_of(book, both.left)?;
    let right = base_of(book, both.right)?;
    let right = at_left(book, right, start)?;
    Ok(Pair { ctx, left, right })
}

/// Compositions of equal lines, sides and bases.
pub fn close_comp(book: &mut Book, both: Comps, found: [NodeId; 3]) -> Result<NodeId, Fault> {
    let [lines, sides, bases] = found;
    let face = both.faces.left;
    let start = faced(book, both.left, 3, Reach::Face)?;
    let there = where_true(book, start, face)?;
    let premises = [
        lines,
        sides_of(book, both.left, face)?,
        sides,
        base_of(book, both.left)?,
        bases,
        equation_under(book, there.sub, start.typing)?,
    ];
    let parts = [face, both.faces.right];
    let [equal]: [NodeId; 1] = derive(book, COMP_EQUAL, COMP_EQUAL_GIVES, &parts, &premises)?;
    Ok(equal)
}
