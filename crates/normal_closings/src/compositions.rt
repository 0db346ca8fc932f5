//! Compositions of parts in normal form.

use crate::faces_of_forms::{faced, faces_of};
use crate::parts::are_same;
use crate::within::enter_name;
use book::{Book, NodeId};
use eliminators::{equation_under, type_under};
use settled_sides::{Reach, where_true};
use side_rules::{COMP_NORMAL, COMP_NORMAL_GIVES};
use std::alloc::Global;
use tested_steps::{Fault, derive, premise_of};
use values::{Goal, Part, rebuilt, term_under};

/// A composition whose parts are in normal form.
pub fn closed_comp(
    alloc: Global,
    book: &mut Book,
    goal: Goal,
    found: [Part; 3],
) -> Result<Goal, Fault> {
    let faces = faces_of(alloc, book, goal)?;
    if are_same(book, &found)? && faces.are_same(book)? {
        return Ok(goal);
    }
    let [line, sides, base] = found;
    let susp = goal.susp;
    let within = enter_name(book, susp.ctx, susp.sub)?;
    let line_own = premise_of(book, susp.typing, 0)?;
    let line_own = type_under(book, within.sub, line_own)?;
    let sides_faced = faced(book, goal, 1, Reach::Line)?;
    let there = where_true(book, sides_faced, faces.own)?;
    let sides_own = term_under(book, there.sub, sides_faced.typing)?;
    let start_faced = faced(book, goal, 3, Reach::Face)?;
    let there = where_true(book, start_faced, faces.own)?;
    let start = equation_under(book, there.sub, start_faced.typing)?;
    let base_own = premise_of(book, susp.typing, 2)?;
    let base_own = term_under(book, susp.sub, base_own)?;
    let premises = [
        susp.ctx,
        line_own,
        line.equal,
        line.typing,
        sides_own,
        sides.equal,
        sides.typing,
        base_own,
        base.equal,
        base.typing,
        start,
    ];
    let parts = [faces.own, faces.settled];
    let [equal, turn, typing]: [NodeId; 3] = derive(
        book,
        COMP_NORMAL,
        COMP_NORMAL_GIVES,
        &parts,
        &premises,
    )?;
    rebuilt(book, goal, equal, Some(turn), typing)
}
