//! Types of paths, paths at formulas, and paths by the eta rule.

use crate::sides::{Pair, at_left, at_one_type, kid};
use crate::types::small_type;
use book::{Book, NodeId};
use conversion_rules::{
    AT_NAME, AT_NAME_GIVES, ENDS_FIT, ENDS_FIT_GIVES, PAPP_EQUAL, PAPP_EQUAL_GIVES, PAPP_MOVED,
    PAPP_MOVED_GIVES, PATH_EQUAL, PATH_EQUAL_GIVES, PATH_SMALL_EQUAL, PATH_SMALL_EQUAL_GIVES,
    PLAM_LEFT, PLAM_LEFT_GIVES, PLAM_RIGHT, PLAM_RIGHT_GIVES,
};
use inversion_rules::{OPEN_PLAM, OPEN_PLAM_GIVES};
use literal_types::Literal;
use normal_closings::{Within, enter_name};
use normal_rules::{PLAM_NORMAL, PLAM_NORMAL_GIVES};
use rows::{CtxId, TermId};
use settled_sides::is_same_tree;
use std::alloc::Global;
use tested_steps::{
    Fault, claim_of, derive, kids_of, part_of, premise_of, rule_of, substitution_row, try_instance,
    type_of,
};
use theory::{Claim, PartKind, PathRule, RuleName};
use values::{Goal, Susp, composed, term_under};
use way_rules::{SMALL_EQUAL, SMALL_EQUAL_GIVES};

/// A type of paths, by the nodes of its parts at home: its line, which may be a term of the
/// universe, and its ends.
#[derive(Clone, Copy, Debug)]
pub struct Line {
    pub sub: NodeId,
    pub line: NodeId,
    pub left: NodeId,
    pub right: NodeId,
}

/// Two types of paths in H, or two that are terms of the universe: `ctx H`, and each.
#[derive(Clone, Copy, Debug)]
pub struct Lines {
    pub ctx: NodeId,
    pub left: Line,
    pub right: Line,
}

/// Two paths, under a name.
#[derive(Clone, Copy, Debug)]
pub enum Named {
    /// Both are paths of a name, with lines that are one tree: the first, and both bodies.
    Bodies {
        path: Goal,
        left: NodeId,
        right: NodeId,
    },
    /// One is: it, its body, and the other at its type.
    Body {
        path: Goal,
        body: NodeId,
        other: NodeId,
        is_left: bool,
    },
}

/// The parts of a type of paths.
pub fn line_of(book: &Book, susp: Susp) -> Result<Option<Line>, Fault> {
    match rule_of(book, susp.typing)? {
        RuleName::Paths(PathRule::PathTy | PathRule::PathU) => Ok(Some(Line {
            sub: susp.sub,
            line: premise_of(book, susp.typing, 0)?,
            left: premise_of(book, susp.typing, 1)?,
            right: premise_of(book, susp.typing, 2)?,
        })),
        _ => Ok(None),
    }
}

/// The same with its line as a type.
pub fn large_line(book: &mut Book, line: Line) -> Result<Line, Fault> {
    match claim_of(book, line.line)? {
        Claim::Ty(..) => Ok(line),
        _ => Ok(Line {
            line: small_type(book, line.line)?,
            ..line
        }),
    }
}

/// The lines of two types of paths, under a name.
pub fn lines_within(book: &mut Book, both: Lines) -> Result<Pair, Fault> {
    let left = enter_name(book, both.ctx, both.left.sub)?;
    let right = enter_name(book, both.ctx, both.right.sub)?;
    Ok(Pair {
        ctx: left.ctx,
        left: term_under(book, left.sub, both.left.line)?,
        right: term_under(book, right.sub, both.right.line)?,
    })
}

/// `H >> A{0} = B{0}` and `H >> A{1} = B{1}`, of equal lines.
pub fn ends_fit(book: &mut Book, ctx: NodeId, lines: NodeId) -> Result<[NodeId; 2], Fault> {
    let types = match claim_of(book, lines)? {
        Claim::TyEq(..) => lines,
        _ => {
            let [types]: [NodeId; 1] = derive(book, SMALL_EQUAL, SMALL_EQUAL_GIVES, &[], &[lines])?;
            types
        }
    };
    derive(book, ENDS_FIT, ENDS_FIT_GIVES, &[], &[ctx, types])
}

/// The left and the right ends of two types of paths, at the types of the ends of the left one.
pub fn ends_of(book: &mut Book, both: Lines, lines: NodeId) -> Result<[Pair; 2], Fault> {
    let [start, end] = ends_fit(book, both.ctx, lines)?;
    let left = one_end(book, both, [both.left.left, both.right.left], start)?;
    let right = one_end(book, both, [both.left.right, both.right.right], end)?;
    Ok([left, right])
}

/// An end of each of two types of paths, at the type of the left one.
fn one_end(book: &mut Book, both: Lines, ends: [NodeId; 2], fits: NodeId) -> Result<Pair, Fault> {
    let [left, right] = ends;
    let right = term_under(book, both.right.sub, right)?;
    Ok(Pair {
        ctx: both.ctx,
        left: term_under(book, both.left.sub, left)?,
        right: at_left(book, right, fits)?,
    })
}

/// Types of paths of equal lines and ends.
pub fn close_lines(book: &mut Book, found: [NodeId; 3]) -> Result<NodeId, Fault> {
    let [lines, _, _] = found;
    let [equal]: [NodeId; 1] = match claim_of(book, lines)? {
        Claim::TyEq(..) => derive(book, PATH_EQUAL, PATH_EQUAL_GIVES, &[], &found)?,
        _ => derive(book, PATH_SMALL_EQUAL, PATH_SMALL_EQUAL_GIVES, &[], &found)?,
    };
    Ok(equal)
}

/// The formula of a path at a formula, here.
fn formula_of(book: &mut Book, goal: Goal) -> Result<u64, Fault> {
    let formula = part_of(book, goal.susp.typing, 2)?;
    let sub = substitution_row(book, goal.susp.sub)?;
    try_instance(book, formula, sub)
}

/// Equal paths at their formulas; None where these are not the same.
pub fn close_at(
    alloc: Global,
    book: &mut Book,
    heads: [Goal; 2],
    paths: NodeId,
) -> Result<Option<NodeId>, Fault> {
    let [left, right] = heads;
    let formulas = [formula_of(book, left)?, formula_of(book, right)?];
    let [one, other] = formulas;
    if is_same_tree(book, one, other)? {
        let node = left.susp.typing;
        let parts = [
            one,
            substitution_row(book, left.susp.sub)?,
            part_of(book, node, 3)?,
            part_of(book, node, 4)?,
            part_of(book, node, 5)?,
        ];
        let [equal]: [NodeId; 1] = derive(book, PAPP_EQUAL, PAPP_EQUAL_GIVES, &parts, &[paths])?;
        return Ok(Some(equal));
    }
    if !are_same_formula(book, left.susp.ctx, formulas)? {
        return Ok(None);
    }
    Ok(Some(close_moved(alloc, book, left, formulas, paths)?))
}

/// Whether two formulas have one value wherever the faces of a context are true.
fn are_same_formula(book: &Book, ctx: NodeId, formulas: [u64; 2]) -> Result<bool, Fault> {
    let [one, other] = formulas;
    let Claim::Ctx(row) = claim_of(book, ctx)? else {
        return Err(Fault::Misfit);
    };
    let are_trees = book.is_of_kind(one, PartKind::Term) && book.is_of_kind(other, PartKind::Term);
    if !are_trees || !book.is_of_kind(row, PartKind::Context) {
        return Err(Fault::Misfit);
    }
    Ok(book.same_form(CtxId(row), TermId(one), TermId(other))?)
}

/// Equal paths at formulas that are the same and not one tree.
fn close_moved(
    alloc: Global,
    book: &mut Book,
    left: Goal,
    formulas: [u64; 2],
    paths: NodeId,
) -> Result<NodeId, Fault> {
    let [one, other] = formulas;
    let home = premise_of(book, left.susp.typing, 0)?;
    let ty = type_of(alloc, book, home)?;
    let Literal::Path(line) = kids_of(alloc, book, ty)? else {
        return Err(Fault::Misfit);
    };
    let sub = composed(book, left.susp.sub, line.sub)?;
    let (Claim::Tm(_, start, _), Claim::Tm(_, end, _)) = (
        claim_of(book, line.left)?,
        claim_of(book, line.right)?,
    ) else {
        return Err(Fault::Misfit);
    };
    let path = kid(book, left, 0)?;
    let premises = [left.susp.ctx, sub, line.ty, path, paths];
    let [equal]: [NodeId; 1] = derive(
        book,
        PAPP_MOVED,
        PAPP_MOVED_GIVES,
        &[one, other, start, end],
        &premises,
    )?;
    Ok(equal)
}

/// The body of a path of a name, under it.
pub fn path_body(book: &mut Book, path: Goal) -> Result<(Within, NodeId), Fault> {
    let susp = path.susp;
    let within = enter_name(book, susp.ctx, susp.sub)?;
    let body = premise_of(book, susp.typing, 0)?;
    let body = term_under(book, within.sub, body)?;
    Ok((within, body))
}

/// The body of another path of a name, if it is of the same type as a first one.
pub fn same_path_body(book: &mut Book, other: Goal, body: NodeId) -> Result<Option<Pair>, Fault> {
    if rule_of(book, other.susp.typing)? != RuleName::Paths(PathRule::PLam) {
        return Ok(None);
    }
    let (within, right) = path_body(book, other)?;
    let pair = Pair {
        ctx: within.ctx,
        left: body,
        right,
    };
    Ok(if at_one_type(book, pair)? {
        Some(pair)
    } else {
        None
    })
}

/// A path at the type of another, at the name of that one.
pub fn at_name(book: &mut Book, own: Goal, path: NodeId) -> Result<NodeId, Fault> {
    let node = own.susp.typing;
    let parts = [
        part_of(book, node, 1)?,
        part_of(book, node, 3)?,
        part_of(book, node, 4)?,
    ];
    let premises = [own.susp.ctx, own.susp.sub, path];
    let [term]: [NodeId; 1] = derive(book, AT_NAME, AT_NAME_GIVES, &parts, &premises)?;
    Ok(term)
}

/// The ends of the body of a path of a name, here.
fn ends_of_body(book: &mut Book, path: Goal) -> Result<[NodeId; 2], Fault> {
    let susp = path.susp;
    let premises = [
        susp.sub,
        premise_of(book, susp.typing, 0)?,
        premise_of(book, susp.typing, 1)?,
        premise_of(book, susp.typing, 2)?,
    ];
    let [_, left, right]: [NodeId; 3] = derive(book, OPEN_PLAM, OPEN_PLAM_GIVES, &[], &premises)?;
    Ok([left, right])
}

/// Paths that agree at a name.
pub fn close_named(book: &mut Book, named: Named, equal: NodeId) -> Result<NodeId, Fault> {
    match named {
        Named::Bodies { path, left, right } => {
            let [start, end] = ends_of_body(book, path)?;
            let premises = [path.susp.ctx, left, start, end, equal, right];
            let [equal, _]: [NodeId; 2] = derive(
                book,
                PLAM_NORMAL,
                PLAM_NORMAL_GIVES,
                &[],
                &premises,
            )?;
            Ok(equal)
        }
        Named::Body {
            path,
            body,
            other,
            is_left,
        } => {
            let [start, end] = ends_of_body(book, path)?;
            let premises = [path.susp.ctx, body, start, end, other, equal];
            let [equal]: [NodeId; 1] = if is_left {
                derive(book, PLAM_LEFT, PLAM_LEFT_GIVES, &[], &premises)?
            } else {
                derive(book, PLAM_RIGHT, PLAM_RIGHT_GIVES, &[], &premises)?
            };
            Ok(equal)
        }
    }
}
