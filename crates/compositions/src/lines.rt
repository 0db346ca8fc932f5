//! Compositions, by the heads of their lines.

use crate::unfolding::unfolded;
use book::{Book, Few, NodeId, RuleUse};
use eliminators::{Eliminator, Frame, Settled, add, as_type, glue_parts, type_under};
use kan_rules::{COMP_BASE, COMP_BASE_GIVES, COMP_LINE, COMP_LINE_GIVES};
use tested_steps::{
    Fault, claim_of, derive, part_of, premise_of, rule_of, substitution_row, try_instance,
};
use theory::{
    Claim, CompRule, GlueRule, NatRule, PathRule, PiRule, RuleName, SigmaRule, UniverseRule,
};
use typing_rules::{
    UNDER_NAME, UNDER_NAME_GIVES, UNDER_VARIABLE, UNDER_VARIABLE_GIVES, WITH_NAME, WITH_NAME_GIVES,
};
use values::{Goal, Question, Susp, advance, begin, identity, rebuilt, term_under};

/// A substitution under a name.
fn under_name(book: &mut Book, sub: NodeId) -> Result<NodeId, Fault> {
    let [sub]: [NodeId; 1] = derive(book, UNDER_NAME, UNDER_NAME_GIVES, &[], &[sub])?;
    Ok(sub)
}

/// What the line of a composition is.
pub fn ask_line(book: &mut Book, goal: Goal) -> Result<Question, Fault> {
    let [ctx]: [NodeId; 1] = derive(book, WITH_NAME, WITH_NAME_GIVES, &[], &[goal.susp.ctx])?;
    let typing = premise_of(book, goal.susp.typing, 0)?;
    let sub = under_name(book, goal.susp.sub)?;
    Ok(Question::HeadOf(Susp { ctx, typing, sub }))
}

/// A composition along a line, of which the head was found: its parts in the context of what was
/// asked.
#[derive(Clone, Copy)]
struct Along {
    face: u64,
    /// The head of the line, as a type.
    line: NodeId,
    side: NodeId,
    base: NodeId,
    start: NodeId,
    /// What was asked is the composition along the head,
    equal: NodeId,
    /// whose type is equal to the one that was asked.
    turn: NodeId,
}

/// The parts of a composition, along the head of its line.
fn parts_along(book: &mut Book, goal: Goal, line: Goal) -> Result<Along, Fault> {
    let node = goal.susp.typing;
    let face = part_of(book, node, 2)?;
    let premises = [
        goal.susp.ctx,
        goal.susp.sub,
        premise_of(book, node, 0)?,
        premise_of(book, node, 1)?,
        premise_of(book, node, 2)?,
        premise_of(book, node, 3)?,
        line.way.equal,
    ];
    let [equal, turn, side, base, start]: [NodeId; 5] = derive(
        book,
        COMP_LINE,
        COMP_LINE_GIVES,
        &[face],
        &premises,
    )?;
    let row = substitution_row(book, goal.susp.sub)?;
    let face = try_instance(book, face, row)?;
    let ty = term_under(book, line.susp.sub, line.susp.typing)?;
    let line = as_type(book, ty)?;
    Ok(Along {
        face,
        line,
        side,
        base,
        start,
        equal,
        turn,
    })
}

/// The tree that a node types.
fn subject(book: &Book, node: NodeId) -> Result<u64, Fault> {
    match claim_of(book, node)? {
        Claim::Tm(_, row, _) | Claim::Ty(_, row) => Ok(row),
        _ => Err(Fault::Misfit),
    }
}

/// A line that a rule of composition goes by.
#[derive(Drop)]
struct Form {
    rule: CompRule,
    /// The trees that the line is made of, as the rule has them.
    trees: Few,
    /// The nodes that type them, as the rule has them.
    typings: Few,
}

/// A line that is made of what these nodes type.
fn form_of(book: &Book, rule: CompRule, nodes: &[NodeId]) -> Result<Form, Fault> {
    let mut trees = Few::new();
    let mut typings = Few::new();
    for node in nodes {
        add(&mut trees, subject(book, *node)?)?;
        add(&mut typings, node.0)?;
    }
    Ok(Form {
        rule,
        trees,
        typings,
    })
}

/// A rule of composition, along a line of its form.
fn rule_along(book: &Book, goal: Goal, along: Along, form: &Form) -> Result<RuleUse, Fault> {
    let Claim::Ctx(here) = claim_of(book, goal.susp.ctx)? else {
        return Err(Fault::Misfit);
    };
    let mut parts = Few::of(&[here]);
    for tree in form.trees.as_slice() {
        add(&mut parts, *tree)?;
    }
    add(&mut parts, along.face)?;
    add(&mut parts, subject(book, along.side)?)?;
    add(&mut parts, subject(book, along.base)?)?;
    let mut premises = Few::new();
    for node in form.typings.as_slice() {
        add(&mut premises, *node)?;
    }
    for node in [along.side, along.base, along.start] {
        add(&mut premises, node.0)?;
    }
    Ok(RuleUse {
        rule: RuleName::Composition(form.rule),
        parts,
        premises,
    })
}

/// The goal at the right side of an unfolding.
fn fired(book: &mut Book, goal: Goal, along: Along, form: &Form) -> Result<Settled, Fault> {
    let step = rule_along(book, goal, along, form)?;
    let unfolded = unfolded(book, goal.susp.ctx, &step)?;
    let ctx = goal.susp.ctx;
    let way = advance(book, goal.way, along.equal, Some(along.turn))?;
    let way = advance(book, way, unfolded.equal, None)?;
    let sub = identity(book, ctx)?;
    let typing = unfolded.typing;
    let susp = Susp { ctx, typing, sub };
    Ok(Settled::Fired(Goal { susp, way }))
}

/// A line of functions or of pairs, by its head.
fn family(book: &mut Book, rule: CompRule, line: Goal) -> Result<Form, Fault> {
    let domain = premise_of(book, line.susp.typing, 0)?;
    let domain = as_type(book, domain)?;
    let codomain = premise_of(book, line.susp.typing, 1)?;
    let codomain = as_type(book, codomain)?;
    let premises = [line.susp.sub, domain];
    let [under]: [NodeId; 1] = derive(book, UNDER_VARIABLE, UNDER_VARIABLE_GIVES, &[], &premises)?;
    let domain = type_under(book, line.susp.sub, domain)?;
    let codomain = type_under(book, under, codomain)?;
    form_of(book, rule, &[domain, codomain])
}

/// A line of paths, by its head.
fn paths(book: &mut Book, line: Goal) -> Result<Form, Fault> {
    let ty = premise_of(book, line.susp.typing, 0)?;
    let ty = as_type(book, ty)?;
    let left = premise_of(book, line.susp.typing, 1)?;
    let right = premise_of(book, line.susp.typing, 2)?;
    let under = under_name(book, line.susp.sub)?;
    let ty = type_under(book, under, ty)?;
    let left = term_under(book, line.susp.sub, left)?;
    let right = term_under(book, line.susp.sub, right)?;
    form_of(book, CompRule::CompPath, &[ty, left, right])
}

/// A line of glued types, by its head.
fn glued(book: &mut Book, line: Goal) -> Result<Form, Fault> {
    let node = line.susp.typing;
    let base = premise_of(book, node, 0)?;
    let base = as_type(book, base)?;
    let ty = premise_of(book, node, 1)?;
    let ty = as_type(book, ty)?;
    let parts = glue_parts(book, line.susp.sub, node, base, ty)?;
    let base = subject(book, parts.base)?;
    let ty = subject(book, parts.ty)?;
    let map = subject(book, parts.map)?;
    Ok(Form {
        rule: CompRule::CompGlue,
        trees: Few::of(&[base, parts.face, ty, map]),
        typings: Few::of(&[parts.base.0, parts.ty.0, parts.map.0]),
    })
}

/// A composition along a line that no rule goes by: the goal at it.
fn close_comp(book: &mut Book, goal: Goal, along: Along) -> Result<Goal, Fault> {
    let premises = [along.line, along.side, along.base, along.start];
    let [term]: [NodeId; 1] = derive(book, COMP_BASE, COMP_BASE_GIVES, &[along.face], &premises)?;
    rebuilt(book, goal, along.equal, Some(along.turn), term)
}

/// A composition along a line of numbers: its base is sought.
fn seek_base(book: &mut Book, goal: Goal, along: Along) -> Result<Settled, Fault> {
    let goal = close_comp(book, goal, along)?;
    let ctx = goal.susp.ctx;
    let sub = identity(book, ctx)?;
    let typing = along.base;
    let main = begin(book, Susp { ctx, typing, sub })?;
    let form = Eliminator::CompNat;
    Ok(Settled::Pushed(Frame { form, goal }, main))
}

/// A composition, of which the head of the line was found.
pub fn settle_line(book: &mut Book, goal: Goal, line: Goal) -> Result<Settled, Fault> {
    let along = parts_along(book, goal, line)?;
    let form = match rule_of(book, line.susp.typing)? {
        RuleName::Pi(PiRule::PiTy | PiRule::PiU) => family(book, CompRule::CompPi, line)?,
        RuleName::Sigma(SigmaRule::SigTy | SigmaRule::SigU) => {
            family(book, CompRule::CompSig, line)?
        }
        RuleName::Paths(PathRule::PathTy | PathRule::PathU) => paths(book, line)?,
        RuleName::Gluing(GlueRule::GlueTy | GlueRule::GlueU) => glued(book, line)?,
        RuleName::Universe(UniverseRule::TyUniv) => form_of(book, CompRule::CompU, &[])?,
        RuleName::Naturals(NatRule::NatU) => return seek_base(book, goal, along),
        _ => return Ok(Settled::Closed(close_comp(book, goal, along)?)),
    };
    fired(book, goal, along, &form)
}
