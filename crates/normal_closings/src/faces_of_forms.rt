//! Faces of forms, settled, and what stands under them.

use book::{Book, NodeId};
use settled_sides::{Faced, Reach, conjunctions_of, cover_of, face_under, is_same_tree};
use std::alloc::Global;
use tested_steps::{Fault, part_of, premise_of};
use values::Goal;

/// The face of a form as it stands, and as a normal tree.
#[derive(Clone, Copy, Debug)]
pub struct Faces {
    pub own: u64,
    pub settled: u64,
}

impl Faces {
    /// Whether both are one tree.
    pub fn are_same(self, book: &Book) -> Result<bool, Fault> {
        is_same_tree(book, self.own, self.settled)
    }
}

/// The face of a form, which is part 2 of its rule.
pub fn faces_of(alloc: Global, book: &mut Book, goal: Goal) -> Result<Faces, Fault> {
    let face = part_of(book, goal.susp.typing, 2)?;
    let own = face_under(book, goal.susp.sub, face)?;
    let conjunctions = conjunctions_of(alloc, book, goal.susp.ctx, own)?;
    let settled = cover_of(book, &conjunctions)?;
    Ok(Faces { own, settled })
}

/// What stands under the face of a form, by its place among the premises.
pub fn faced(book: &Book, goal: Goal, at: usize, reach: Reach) -> Result<Faced, Fault> {
    let susp = goal.susp;
    Ok(Faced {
        ctx: susp.ctx,
        sub: susp.sub,
        face: part_of(book, susp.typing, 2)?,
        typing: premise_of(book, susp.typing, at)?,
        reach,
    })
}
