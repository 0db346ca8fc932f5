//! Elements of a glued type by the eta rule.

use crate::splits::Split;
use book::{Book, NodeId};
use eliminators::{GlueParts, glue_parts};
use equal_parts::{Pair, at_own};
use face_rules::{AT_FACE, AT_FACE_GIVES, GLUE_EQUAL, GLUE_EQUAL_GIVES};
use settled_sides::Reach;
use tested_steps::{Fault, derive, premise_of};
use values::Goal;

/// An element of a glued type in H; unglued; and as one of what is glued, where the face is true.
#[derive(Clone, Copy, Debug)]
struct Element {
    term: NodeId,
    base: NodeId,
    face: NodeId,
}

/// Two elements of one glued type.
#[derive(Clone, Copy, Debug)]
pub struct Elements {
    ctx: NodeId,
    parts: GlueParts,
    left: Element,
    right: Element,
}

/// An element at the glued type of another.
fn element_at(book: &mut Book, own: Goal, parts: GlueParts, head: Goal) -> Result<Element, Fault> {
    let term = at_own(book, own, head)?;
    let premises = [own.susp.ctx, parts.base, parts.ty, parts.map, term];
    let [base, face]: [NodeId; 2] = derive(book, AT_FACE, AT_FACE_GIVES, &[parts.face], &premises)?;
    Ok(Element { term, base, face })
}

/// Two elements of the glued type at which one is literally glued.
pub fn elements_of(book: &mut Book, own: Goal, heads: [Goal; 2]) -> Result<Elements, Fault> {
    let [left, right] = heads;
    let node = own.susp.typing;
    let base = premise_of(book, node, 0)?;
    let ty = premise_of(book, node, 1)?;
    let parts = glue_parts(book, own.susp.sub, node, base, ty)?;
    Ok(Elements {
        ctx: own.susp.ctx,
        parts,
        left: element_at(book, own, parts, left)?,
        right: element_at(book, own, parts, right)?,
    })
}

impl Elements {
    /// Both, unglued.
    pub fn bases(self) -> Pair {
        Pair {
            ctx: self.ctx,
            left: self.left.base,
            right: self.right.base,
        }
    }
}

/// Both, where the face is true.
pub fn element_sides(both: Elements) -> Split {
    Split {
        ctx: both.ctx,
        face: both.parts.face,
        left: both.left.face,
        right: both.right.face,
        reach: Reach::Face,
    }
}

/// Elements that are equal unglued and where the face is true.
pub fn close_elements(
    book: &mut Book,
    both: Elements,
    bases: NodeId,
    sides: NodeId,
) -> Result<NodeId, Fault> {
    let own = both.parts;
    let premises = [
        own.base,
        own.ty,
        own.map,
        both.left.term,
        both.right.term,
        bases,
        sides,
    ];
    let [equal]: [NodeId; 1] = derive(book, GLUE_EQUAL, GLUE_EQUAL_GIVES, &[own.face], &premises)?;
    Ok(equal)
}
