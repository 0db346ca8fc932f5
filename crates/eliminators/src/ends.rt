//! Ends of paths that no rule rewrites.

use crate::asks::ask_type;
use crate::frames::{Frame, Known, Pending, Settled};
use crate::functions::type_under;
use crate::under::at_formula;
use book::{Book, NodeId};
use kan_rules::{
    PAPP_STAYS, PAPP_STAYS_GIVES, PATH_AT_END, PATH_AT_END_GIVES, PATH_AT_START,
    PATH_AT_START_GIVES,
};
use literal_types::Literal;
use std::alloc::Global;
use tested_steps::{
    Fault, derive, is_formula_end, kids_of, part_of, premise_of, substitution_row, try_instance,
    try_make, type_of,
};
use theory::Op;
use typed_nodes::Line;
use values::{Goal, Susp, advance, aligned, composed, equal_at_own, rebuilt, term_under};

/// The formula that a path is at, in the context of what was asked.
pub fn formula_of(book: &mut Book, goal: Goal) -> Result<u64, Fault> {
    let formula = part_of(book, goal.susp.typing, 2)?;
    let row = substitution_row(book, goal.susp.sub)?;
    try_instance(book, formula, row)
}

/// An end of a path.
#[derive(Clone, Copy)]
enum End {
    Start,
    Finish,
}

/// The end that the formula of a goal is, if it is one.
fn end_of(book: &mut Book, goal: Goal) -> Result<Option<End>, Fault> {
    let formula = formula_of(book, goal)?;
    if is_formula_end(book, goal.susp.ctx, formula, Op::I0)? {
        return Ok(Some(End::Start));
    }
    if is_formula_end(book, goal.susp.ctx, formula, Op::I1)? {
        return Ok(Some(End::Finish));
    }
    Ok(None)
}

/// A path that was found, at a type of paths.
#[derive(Clone, Copy)]
struct Found {
    line: Line,
    /// What the path was, and that it is this one,
    equal: NodeId,
    /// which is of that type.
    path: NodeId,
}

/// The line of the type of a path under a substitution, if it is literally a type of paths.
fn line_of(
    alloc: Global,
    book: &mut Book,
    sub: NodeId,
    path: NodeId,
) -> Result<Option<Line>, Fault> {
    let ty = type_of(alloc, book, path)?;
    let Literal::Path(line) = kids_of(alloc, book, ty)? else {
        return Ok(None);
    };
    let sub = composed(book, sub, line.sub)?;
    Ok(Some(Line { sub, ..line }))
}

/// A path at the type that was asked.
fn found_as_asked(alloc: Global, book: &mut Book, goal: Goal, head: Goal) -> Result<Found, Fault> {
    let path = premise_of(book, goal.susp.typing, 0)?;
    let Some(line) = line_of(alloc, book, goal.susp.sub, path)? else {
        return Err(Fault::Misfit);
    };
    Ok(Found {
        line,
        equal: head.way.equal,
        path: aligned(book, head)?,
    })
}

/// A path at its own type.
fn found_at_own(alloc: Global, book: &mut Book, head: Goal) -> Result<Found, Fault> {
    let Some(line) = line_of(alloc, book, head.susp.sub, head.susp.typing)? else {
        return Err(Fault::Misfit);
    };
    Ok(Found {
        line,
        equal: equal_at_own(book, head.way)?,
        path: term_under(book, head.susp.sub, head.susp.typing)?,
    })
}

/// The goal at the end of a path that no rule rewrites. The turn is from the type of the end to the
/// one that was asked, if these need not be equal by the rules of the interval.
fn fire_end(
    book: &mut Book,
    goal: Goal,
    found: Found,
    end: End,
    turn: Option<NodeId>,
) -> Result<Goal, Fault> {
    let line = found.line;
    let premises = [
        goal.susp.ctx,
        line.sub,
        line.ty,
        line.left,
        line.right,
        found.equal,
        found.path,
    ];
    let parts = [formula_of(book, goal)?];
    let [equal, own]: [NodeId; 2] = match end {
        End::Start => derive(book, PATH_AT_START, PATH_AT_START_GIVES, &parts, &premises)?,
        End::Finish => derive(book, PATH_AT_END, PATH_AT_END_GIVES, &parts, &premises)?,
    };
    let way = advance(book, goal.way, equal, turn.or(Some(own)))?;
    let susp = Susp {
        ctx: goal.susp.ctx,
        typing: match end {
            End::Start => line.left,
            End::Finish => line.right,
        },
        sub: line.sub,
    };
    Ok(Goal { susp, way })
}

/// A path that no rule rewrites, at a formula that is no end.
fn close_path(book: &mut Book, goal: Goal, head: Goal) -> Result<Goal, Fault> {
    let path = aligned(book, head)?;
    let node = goal.susp.typing;
    let parts = [
        formula_of(book, goal)?,
        substitution_row(book, goal.susp.sub)?,
        part_of(book, node, 3)?,
        part_of(book, node, 4)?,
        part_of(book, node, 5)?,
    ];
    let premises = [head.way.equal, path];
    let [equal, term]: [NodeId; 2] = derive(book, PAPP_STAYS, PAPP_STAYS_GIVES, &parts, &premises)?;
    rebuilt(book, goal, equal, None, term)
}

/// The goal at the end of a path, as its type that was asked has it.
fn fire_asked(
    alloc: Global,
    book: &mut Book,
    goal: Goal,
    head: Goal,
    end: End,
) -> Result<Goal, Fault> {
    let found = found_as_asked(alloc, book, goal, head)?;
    fire_end(book, goal, found, end, None)
}

/// Whether the type of the end of a path, as its own type has it, is that of the path there.
fn ask_end(
    alloc: Global,
    book: &mut Book,
    pending: Pending,
    line: Line,
    end: End,
) -> Result<Settled, Fault> {
    let op = match end {
        End::Start => Op::I0,
        End::Finish => Op::I1,
    };
    let formula = try_make(book, op, &[])?;
    let sub = at_formula(book, line.sub, formula)?;
    let left = type_under(book, sub, line.ty)?;
    ask_type(alloc, book, pending, left)
}

/// A path that no rule rewrites, at a formula: its end, if the formula is one.
pub fn settle_end(
    alloc: Global,
    book: &mut Book,
    frame: Frame,
    head: Goal,
) -> Result<Settled, Fault> {
    let goal = frame.goal;
    let Some(end) = end_of(book, goal)? else {
        return Ok(Settled::Closed(close_path(book, goal, head)?));
    };
    if head.way.fits.is_some() {
        let own = line_of(alloc, book, head.susp.sub, head.susp.typing)?;
        if let Some(line) = own {
            let pending = Pending {
                frame,
                head,
                known: Known::Nothing,
            };
            return ask_end(alloc, book, pending, line, end);
        }
    }
    Ok(Settled::Fired(fire_asked(alloc, book, goal, head, end)?))
}

/// A path of another type that no rule rewrites, with the equation that it asked for: the end of
/// its own type.
pub fn resume_end(
    alloc: Global,
    book: &mut Book,
    pending: Pending,
    equation: NodeId,
) -> Result<Settled, Fault> {
    let (goal, head) = (pending.frame.goal, pending.head);
    let Some(end) = end_of(book, goal)? else {
        return Err(Fault::Misfit);
    };
    let found = found_at_own(alloc, book, head)?;
    Ok(Settled::Fired(fire_end(book, goal, found, end, Some(equation))?))
}
