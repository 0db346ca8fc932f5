//! What is compared where a face is true: on each of its conjunctions, from the last to the first.

use book::{Book, NodeId};
use eliminators::equation_under;
use equal_parts::{Pair, absurd, are_one, is_type, reflexive};
use face_rules::{
    COVER_LINES, COVER_LINES_GIVES, COVER_TERMS, COVER_TERMS_GIVES, COVER_TYPES, COVER_TYPES_GIVES,
};
use settled_sides::{Faced, Reach, where_true};
use tested_steps::{Fault, conjunction, count_conjunctions, derive, try_make};
use theory::Op;
use values::{identity, term_under};

/// Two types, or two terms at one type, where a face p of H is true.
#[derive(Clone, Copy, Debug)]
pub struct Split {
    /// `ctx H`
    pub ctx: NodeId,
    pub face: u64,
    /// In H.p or H.p.I, as `reach` says.
    pub left: NodeId,
    pub right: NodeId,
    pub reach: Reach,
}

/// A split on one conjunction of its face, where it is done on those behind.
#[derive(Clone, Copy, Debug)]
pub struct Sided {
    split: Split,
    /// The number of the conjunction.
    pub at: usize,
    conjunction: u64,
    /// The face that is true where one of those behind is, and the equation there.
    rest: u64,
    equal: NodeId,
}

/// What a split goes on with.
#[derive(Clone, Copy, Debug)]
pub enum Sides {
    /// Both sides on one conjunction.
    One(Sided, Pair),
    /// The equation in H.p or H.p.I.
    All(NodeId),
}

/// Something of H.p or H.p.I.
fn faced(book: &mut Book, split: Split, typing: NodeId) -> Result<Faced, Fault> {
    Ok(Faced {
        ctx: split.ctx,
        sub: identity(book, split.ctx)?,
        face: split.face,
        typing,
        reach: split.reach,
    })
}

/// Both sides where a face is true which implies that of the split.
fn on(book: &mut Book, split: Split, face: u64) -> Result<Pair, Fault> {
    let left = faced(book, split, split.left)?;
    let there = where_true(book, left, face)?;
    Ok(Pair {
        ctx: there.ctx,
        left: term_under(book, there.sub, split.left)?,
        right: term_under(book, there.sub, split.right)?,
    })
}

/// The conjunction before those that are done; once all are, the equation where the face is true.
fn next_side(
    book: &mut Book,
    split: Split,
    left: usize,
    rest: u64,
    equal: NodeId,
) -> Result<Sides, Fault> {
    let Some(at) = left.checked_sub(1) else {
        let mut whole = faced(book, split, equal)?;
        whole.face = rest;
        let there = where_true(book, whole, split.face)?;
        return Ok(Sides::All(equation_under(book, there.sub, equal)?));
    };
    let conjunction = conjunction(book, split.ctx, split.face, at, 0)?;
    let pair = on(book, split, conjunction)?;
    let sided = Sided {
        split,
        at,
        conjunction,
        rest,
        equal,
    };
    Ok(Sides::One(sided, pair))
}

/// A split on the last conjunction of its face; or its equation, where it has none, or where both
/// sides are one tree.
pub fn begin_sides(book: &mut Book, split: Split) -> Result<Sides, Fault> {
    let whole = Pair {
        ctx: split.ctx,
        left: split.left,
        right: split.right,
    };
    if are_one(book, whole)? {
        return Ok(Sides::All(reflexive(book, split.left)?));
    }
    let nowhere = try_make(book, Op::F0, &[])?;
    let pair = on(book, split, nowhere)?;
    let equal = absurd(book, pair.left, pair.right)?;
    let count = count_conjunctions(book, split.ctx, split.face)?;
    next_side(book, split, count, nowhere, equal)
}

/// A split whose sides are equal on a conjunction.
pub fn after_side(book: &mut Book, sided: Sided, equal: NodeId) -> Result<Sides, Fault> {
    let split = sided.split;
    let face = try_make(book, Op::Join, &[sided.conjunction, sided.rest])?;
    let pair = on(book, split, face)?;
    let parts = [sided.conjunction, sided.rest];
    let premises = [split.ctx, pair.left, pair.right, equal, sided.equal];
    let [equal]: [NodeId; 1] = if is_type(book, pair.left)? {
        derive(book, COVER_TYPES, COVER_TYPES_GIVES, &parts, &premises)?
    } else {
        match split.reach {
            Reach::Face => derive(book, COVER_TERMS, COVER_TERMS_GIVES, &parts, &premises)?,
            Reach::Line => derive(book, COVER_LINES, COVER_LINES_GIVES, &parts, &premises)?,
        }
    };
    next_side(book, split, sided.at, face, equal)
}
