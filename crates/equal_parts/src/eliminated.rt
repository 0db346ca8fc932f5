//! Terms that take others apart, and successors.

use crate::sides::{Pair, at_left, kid};
use book::{Book, NodeId};
use conversion_rules::{
    APP_EQUAL, APP_EQUAL_GIVES, FST_EQUAL, FST_EQUAL_GIVES, NATREC_EQUAL, NATREC_EQUAL_GIVES,
    SND_EQUAL, SND_EQUAL_GIVES, SUC_EQUAL, SUC_EQUAL_GIVES,
};
use eliminators::{Parts, parts_of, type_at};
use normal_rules::{NATREC_FITS, NATREC_FITS_GIVES};
use std::alloc::Global;
use tested_steps::{Fault, derive, part_of, premise_of, substitution_row};
use values::{Goal, Question};

/// Two recursions with their parts in the context of what was asked; the parts of the right one are
/// at the types of the left one, as soon as these are known to be equal.
#[derive(Clone, Copy, Debug)]
pub struct Recursions {
    pub left: Goal,
    pub right: Goal,
    pub left_parts: Parts,
    pub right_parts: Parts,
}

/// Two applications whose functions are equal.
#[derive(Clone, Copy, Debug)]
pub struct Applied {
    pub goal: Goal,
    pub functions: NodeId,
    pub arguments: Pair,
}

/// The kids of two heads at a place.
pub fn kids(book: &mut Book, left: Goal, right: Goal, at: usize) -> Result<Pair, Fault> {
    let ctx = left.susp.ctx;
    let left = kid(book, left, at)?;
    let right = kid(book, right, at)?;
    Ok(Pair { ctx, left, right })
}

/// Whether the types of the arguments are equal.
pub fn types_of_arguments(
    alloc: Global,
    book: &mut Book,
    left: Goal,
    right: Goal,
) -> Result<Question, Fault> {
    let ctx = left.susp.ctx;
    let at = premise_of(book, left.susp.typing, 1)?;
    let left = type_at(alloc, book, left.susp.sub, at)?;
    let at = premise_of(book, right.susp.typing, 1)?;
    let right = type_at(alloc, book, right.susp.sub, at)?;
    Ok(Question::Convert { ctx, left, right })
}

/// Recursions of equal parts.
pub fn close_natrec(book: &mut Book, found: [NodeId; 4]) -> Result<NodeId, Fault> {
    let [equal]: [NodeId; 1] = derive(book, NATREC_EQUAL, NATREC_EQUAL_GIVES, &[], &found)?;
    Ok(equal)
}

/// Successors of equal numbers.
pub fn close_suc(book: &mut Book, equal: NodeId) -> Result<NodeId, Fault> {
    let [equal]: [NodeId; 1] = derive(book, SUC_EQUAL, SUC_EQUAL_GIVES, &[], &[equal])?;
    Ok(equal)
}

/// Applications of equal parts.
pub fn close_app(
    book: &mut Book,
    goal: Goal,
    functions: NodeId,
    arguments: NodeId,
) -> Result<NodeId, Fault> {
    let parts = [
        substitution_row(book, goal.susp.sub)?,
        part_of(book, goal.susp.typing, 3)?,
        part_of(book, goal.susp.typing, 4)?,
    ];
    let premises = [functions, arguments];
    let [equal]: [NodeId; 1] = derive(book, APP_EQUAL, APP_EQUAL_GIVES, &parts, &premises)?;
    Ok(equal)
}

/// The substitution of a goal at a half of a pair, and the parts of the type of the pair.
fn half_parts(book: &Book, goal: Goal) -> Result<[u64; 3], Fault> {
    Ok([
        substitution_row(book, goal.susp.sub)?,
        part_of(book, goal.susp.typing, 2)?,
        part_of(book, goal.susp.typing, 3)?,
    ])
}

/// First halves of what is equal.
pub fn close_first(book: &mut Book, goal: Goal, equal: NodeId) -> Result<NodeId, Fault> {
    let parts = half_parts(book, goal)?;
    let [equal]: [NodeId; 1] = derive(book, FST_EQUAL, FST_EQUAL_GIVES, &parts, &[equal])?;
    Ok(equal)
}

/// Second halves of what is equal.
pub fn close_second(book: &mut Book, goal: Goal, equal: NodeId) -> Result<NodeId, Fault> {
    let parts = half_parts(book, goal)?;
    let [equal]: [NodeId; 1] = derive(book, SND_EQUAL, SND_EQUAL_GIVES, &parts, &[equal])?;
    Ok(equal)
}

/// Two recursions, with their parts.
pub fn recursions_of(
    alloc: Global,
    book: &mut Book,
    left: Goal,
    right: Goal,
) -> Result<Recursions, Fault> {
    Ok(Recursions {
        left,
        right,
        left_parts: parts_of(alloc, book, left)?,
        right_parts: parts_of(alloc, book, right)?,
    })
}

/// Two recursions of equal motives: the base and the step of the right one at the types that those
/// of the left one have.
pub fn at_motive(book: &mut Book, both: Recursions, motives: NodeId) -> Result<Recursions, Fault> {
    let premises = [both.left.susp.ctx, both.left_parts.motive, motives];
    let [base, step]: [NodeId; 2] = derive(book, NATREC_FITS, NATREC_FITS_GIVES, &[], &premises)?;
    let mut both = both;
    both.right_parts.base = at_left(book, both.right_parts.base, base)?;
    both.right_parts.step = at_left(book, both.right_parts.step, step)?;
    Ok(both)
}
