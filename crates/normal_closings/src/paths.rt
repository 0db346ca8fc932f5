//! Paths, paths at formulas and types of paths, of parts in normal form.

use crate::parts::{are_same, closed, is_same};
use book::{Book, NodeId};
use inversion_rules::{OPEN_PLAM, OPEN_PLAM_GIVES};
use kan_rules::{PAPP_STAYS, PAPP_STAYS_GIVES};
use literal_types::Literal;
use normal_rules::{
    PAPP_NORMAL, PAPP_NORMAL_GIVES, PATH_NORMAL, PATH_NORMAL_GIVES, PATH_SMALL_NORMAL,
    PATH_SMALL_NORMAL_GIVES, PLAM_NORMAL, PLAM_NORMAL_GIVES,
};
use settled_sides::{face_under, is_same_tree, settled_formula};
use std::alloc::Global;
use tested_steps::{
    Fault, derive, kids_of, part_of, premise_of, rule_of, substitution_row, type_of,
};
use theory::{PathRule, RuleName};
use values::{Goal, Part, composed, rebuilt};

/// A path whose body is in normal form.
pub fn closed_path(book: &mut Book, goal: Goal, body: Part) -> Result<Goal, Fault> {
    if is_same(book, body)? {
        return Ok(goal);
    }
    let susp = goal.susp;
    let premises = [
        susp.sub,
        premise_of(book, susp.typing, 0)?,
        premise_of(book, susp.typing, 1)?,
        premise_of(book, susp.typing, 2)?,
    ];
    let [before, left, right]: [NodeId; 3] = derive(
        book,
        OPEN_PLAM,
        OPEN_PLAM_GIVES,
        &[],
        &premises,
    )?;
    let premises = [susp.ctx, before, left, right, body.equal, body.typing];
    let nodes: [NodeId; 2] = derive(book, PLAM_NORMAL, PLAM_NORMAL_GIVES, &[], &premises)?;
    closed(book, goal, nodes)
}

/// A path in normal form at a formula, which is settled.
pub fn closed_path_at(
    alloc: Global,
    book: &mut Book,
    goal: Goal,
    path: Part,
) -> Result<Goal, Fault> {
    let formula = part_of(book, goal.susp.typing, 2)?;
    let own = face_under(book, goal.susp.sub, formula)?;
    let formula = settled_formula(alloc, book, goal.susp.ctx, own)?;
    match (is_same(book, path)?, is_same_tree(book, own, formula)?) {
        (true, true) => Ok(goal),
        (false, true) => stays_at(book, goal, path, formula),
        (_, false) => moves_to(alloc, book, goal, path, [own, formula]),
    }
}

/// What a path equals, at the path's formula.
fn stays_at(book: &mut Book, goal: Goal, path: Part, formula: u64) -> Result<Goal, Fault> {
    let node = goal.susp.typing;
    let parts = [
        formula,
        substitution_row(book, goal.susp.sub)?,
        part_of(book, node, 3)?,
        part_of(book, node, 4)?,
        part_of(book, node, 5)?,
    ];
    let premises = [path.equal, path.typing];
    let [equal, term]: [NodeId; 2] = derive(book, PAPP_STAYS, PAPP_STAYS_GIVES, &parts, &premises)?;
    rebuilt(book, goal, equal, None, term)
}

/// What a path equals, at a formula that is the same as the path's.
fn moves_to(
    alloc: Global,
    book: &mut Book,
    goal: Goal,
    path: Part,
    formulas: [u64; 2],
) -> Result<Goal, Fault> {
    let asked = premise_of(book, goal.susp.typing, 0)?;
    let ty = type_of(alloc, book, asked)?;
    let Literal::Path(line) = kids_of(alloc, book, ty)? else {
        return Err(Fault::Misfit);
    };
    let sub = composed(book, goal.susp.sub, line.sub)?;
    let premises = [
        goal.susp.ctx,
        sub,
        line.ty,
        line.left,
        line.right,
        path.equal,
        path.typing,
    ];
    let [equal, turn, term]: [NodeId; 3] = derive(
        book,
        PAPP_NORMAL,
        PAPP_NORMAL_GIVES,
        &formulas,
        &premises,
    )?;
    rebuilt(book, goal, equal, Some(turn), term)
}

/// A type of paths whose line, left end and right end are in normal form.
pub fn closed_path_type(book: &mut Book, goal: Goal, found: [Part; 3]) -> Result<Goal, Fault> {
    if are_same(book, &found)? {
        return Ok(goal);
    }
    let [line, left, right] = found;
    let premises = [
        goal.susp.ctx,
        line.equal,
        line.typing,
        left.equal,
        left.typing,
        right.equal,
        right.typing,
    ];
    let nodes: [NodeId; 2] = match rule_of(book, goal.susp.typing)? {
        RuleName::Paths(PathRule::PathTy) => {
            derive(book, PATH_NORMAL, PATH_NORMAL_GIVES, &[], &premises)?
        }
        RuleName::Paths(PathRule::PathU) => {
            derive(
                book,
                PATH_SMALL_NORMAL,
                PATH_SMALL_NORMAL_GIVES,
                &[],
                &premises,
            )?
        }
        _ => return Err(Fault::Misfit),
    };
    closed(book, goal, nodes)
}
