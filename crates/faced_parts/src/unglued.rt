//! Elements of glued types, unglued.

use crate::glued::Glues;
use book::{Book, NodeId};
use equal_parts::{Pair, are_one, reflexive};
use face_rules::{UNGLUE_EQUAL, UNGLUE_EQUAL_GIVES};
use tested_steps::{Fault, derive};
use values::Question;

/// Whether the bases of two glued types are equal.
#[derive(Clone, Copy, Debug)]
pub enum Bases {
    /// They are one tree: their equation.
    Equal(NodeId),
    Asks(Question),
}

/// Whether the bases of the glued types of two elements are equal.
pub fn unglue_bases(book: &mut Book, both: Glues) -> Result<Bases, Fault> {
    let (ctx, left, right) = (both.ctx, both.left.parts.base, both.right.parts.base);
    if are_one(book, Pair { ctx, left, right })? {
        return Ok(Bases::Equal(reflexive(book, left)?));
    }
    Ok(Bases::Asks(Question::Convert { ctx, left, right }))
}

/// Equal elements unglued, of equal types and equivalences.
pub fn close_unglued(book: &mut Book, both: Glues, found: [NodeId; 3]) -> Result<NodeId, Fault> {
    let [types, elements, maps] = found;
    let own = both.left.parts;
    let premises = [own.base, own.ty, own.map, types, maps, elements];
    let parts = [both.faces.left, both.faces.right];
    let [equal]: [NodeId; 1] = derive(book, UNGLUE_EQUAL, UNGLUE_EQUAL_GIVES, &parts, &premises)?;
    Ok(equal)
}
