//! Forms of which a face is true.

use book::{Book, Few, NodeId, RuleUse};
use eliminators::{add, at_formula, equation_under, into_face};
use kan_rules::{UNGLUED, UNGLUED_GIVES};
use std::alloc::Global;
use tested_steps::{
    Fault, context_of, derive, holds_under, part_of, premise_of, rule_of, try_conclude, try_make,
};
use theory::{CompRule, GlueRule, Op, RuleName, SystemRule, count_parts, count_premises};
use values::{Goal, Susp, advance};
use way_rules::{TYPE_TURNED, TYPE_TURNED_GIVES};

/// What a form becomes where a face of it is true.
#[derive(Clone, Copy)]
struct Faced {
    /// The place of the face among the parts of the node, counted from 0.
    face: usize,
    /// The rule that says what it becomes.
    rule: RuleName,
    /// The premise that types that.
    typing: usize,
}

/// The faces of a form, in the order in which they are tried.
fn faces_of(rule: RuleName) -> [Option<Faced>; 2] {
    match rule {
        RuleName::Composition(CompRule::Comp) => {
            one(2, RuleName::Composition(CompRule::CompFace), 1)
        }
        RuleName::Systems(SystemRule::SysTm) => [
            at_part(1, RuleName::Systems(SystemRule::SysLeft), 1),
            at_part(2, RuleName::Systems(SystemRule::SysRight), 2),
        ],
        RuleName::Systems(SystemRule::SysTy) => [
            at_part(1, RuleName::Systems(SystemRule::SysTyLeft), 0),
            at_part(2, RuleName::Systems(SystemRule::SysTyRight), 1),
        ],
        RuleName::Gluing(GlueRule::GlueTy) => one(2, RuleName::Gluing(GlueRule::GlueTyFace), 1),
        RuleName::Gluing(GlueRule::GlueU) => one(2, RuleName::Gluing(GlueRule::GlueUFace), 1),
        RuleName::Gluing(GlueRule::Glue) => one(2, RuleName::Gluing(GlueRule::GlueFace), 3),
        RuleName::Gluing(GlueRule::Unglue) => one(2, RuleName::Gluing(GlueRule::UnglueFace), 3),
        _ => [None, None],
    }
}

fn at_part(face: usize, rule: RuleName, typing: usize) -> Option<Faced> {
    Some(Faced { face, rule, typing })
}

fn one(face: usize, rule: RuleName, typing: usize) -> [Option<Faced>; 2] {
    [at_part(face, rule, typing), None]
}

/// Another rule, at the first parts and premises of a node.
fn twin(book: &mut Book, node: NodeId, rule: RuleName) -> Result<NodeId, Fault> {
    let mut parts = Few::new();
    for at in 0..count_parts(rule) {
        add(&mut parts, part_of(book, node, usize::from(at))?)?;
    }
    let mut premises = Few::new();
    for at in 0..count_premises(rule) {
        add(&mut premises, premise_of(book, node, usize::from(at))?.0)?;
    }
    let step = RuleUse {
        rule,
        parts,
        premises,
    };
    try_conclude(book, &step)
}

/// The goal at an element of a glued type where the face is true.
fn fired_glue(book: &mut Book, goal: Goal, faced: Faced, there: NodeId) -> Result<Goal, Fault> {
    let node = goal.susp.typing;
    let types = twin(book, node, RuleName::Gluing(GlueRule::GlueTyFace))?;
    let premises = [equation_under(book, there, types)?];
    let [turn]: [NodeId; 1] = derive(book, TYPE_TURNED, TYPE_TURNED_GIVES, &[], &premises)?;
    let equation = twin(book, node, faced.rule)?;
    let equation = equation_under(book, there, equation)?;
    let susp = Susp {
        typing: premise_of(book, node, faced.typing)?,
        sub: there,
        ..goal.susp
    };
    let way = advance(book, goal.way, equation, Some(turn))?;
    Ok(Goal { susp, way })
}

/// The goal at an unglued element where the face is true: at its image.
fn fired_unglue(
    alloc: Global,
    book: &mut Book,
    goal: Goal,
    face: u64,
    there: NodeId,
) -> Result<Goal, Fault> {
    let node = goal.susp.typing;
    let base = premise_of(book, node, 0)?;
    let premises = [
        context_of(alloc, book, base)?,
        base,
        premise_of(book, node, 1)?,
        premise_of(book, node, 2)?,
        premise_of(book, node, 3)?,
    ];
    let [typing, equation]: [NodeId; 2] = derive(book, UNGLUED, UNGLUED_GIVES, &[face], &premises)?;
    let equation = equation_under(book, there, equation)?;
    let susp = Susp {
        typing,
        sub: there,
        ..goal.susp
    };
    let way = advance(book, goal.way, equation, None)?;
    Ok(Goal { susp, way })
}

/// The goal at a part of its form where the face is true. A side of a composition is at its end.
fn fired_part(book: &mut Book, goal: Goal, faced: Faced, there: NodeId) -> Result<Goal, Fault> {
    let node = goal.susp.typing;
    let equation = twin(book, node, faced.rule)?;
    let equation = equation_under(book, there, equation)?;
    let sub = if faced.rule == RuleName::Composition(CompRule::CompFace) {
        let end = try_make(book, Op::I1, &[])?;
        at_formula(book, there, end)?
    } else {
        there
    };
    let susp = Susp {
        typing: premise_of(book, node, faced.typing)?,
        sub,
        ..goal.susp
    };
    let way = advance(book, goal.way, equation, None)?;
    Ok(Goal { susp, way })
}

/// The goal at what the form of a goal becomes where its face is true.
fn fired(alloc: Global, book: &mut Book, goal: Goal, faced: Faced) -> Result<Goal, Fault> {
    let face = part_of(book, goal.susp.typing, faced.face)?;
    let there = into_face(book, goal.susp.sub, face)?;
    match faced.rule {
        RuleName::Gluing(GlueRule::GlueFace) => fired_glue(book, goal, faced, there),
        RuleName::Gluing(GlueRule::UnglueFace) => fired_unglue(alloc, book, goal, face, there),
        _ => fired_part(book, goal, faced, there),
    }
}

/// The goal at what the form of a goal becomes, if a face of it is true.
pub fn at_face(alloc: Global, book: &mut Book, goal: Goal) -> Result<Option<Goal>, Fault> {
    let node = goal.susp.typing;
    for found in faces_of(rule_of(book, node)?) {
        let Some(faced) = found else {
            return Ok(None);
        };
        let face = part_of(book, node, faced.face)?;
        if holds_under(book, goal.susp.ctx, goal.susp.sub, face)? {
            return Ok(Some(fired(alloc, book, goal, faced)?));
        }
    }
    Ok(None)
}
