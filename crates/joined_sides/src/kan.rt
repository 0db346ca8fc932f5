//! Compositions and fillings.

use crate::conclusions::{conclude, context_row, subject};
use crate::systems::Level;
use crate::views::{Reach, View, formula_at, into};
use book::{Book, NodeId};
use eliminators::{at_formula, equation_under, into_face, type_under};
use kan_fill::{FILL, FILL_GIVES};
use tested_steps::{Fault, claim_of, derive, try_make};
use theory::{Claim, CompRule, Op, PathRule, RuleName};
use typing_rules::{PATH_TYPE, PATH_TYPE_GIVES, UNDER_NAME, UNDER_NAME_GIVES};
use values::{identity, term_under};

/// What a composition is made of.
#[derive(Clone, Copy, Debug)]
pub struct Composition {
    /// `ctx G`
    pub ctx: NodeId,
    /// `G.I >> A`
    pub line: NodeId,
    /// `G >> a : A{0}`
    pub base: NodeId,
    /// The face p.
    pub face: u64,
    /// `G.p.I >> b : A`
    pub body: NodeId,
    /// `G.p >> a = b{0} : A{0}`
    pub start: NodeId,
}

impl Composition {
    /// What a composition is made of, by the system of its sides.
    pub fn new(
        ctx: NodeId,
        line: NodeId,
        base: NodeId,
        system: &Level,
        start: NodeId,
    ) -> Composition {
        Composition {
            ctx,
            line,
            base,
            face: system.cover,
            body: system.body,
            start,
        }
    }

    /// The rows of G, A, p, b and a.
    fn rows(self, book: &Book) -> Result<[u64; 5], Fault> {
        let ctx = context_row(book, self.ctx)?;
        let [_, line] = subject(book, self.line)?;
        let [_, body] = subject(book, self.body)?;
        let [_, base] = subject(book, self.base)?;
        Ok([ctx, line, self.face, body, base])
    }

    /// The same under one more name.
    fn under_name(self, book: &mut Book) -> Result<Composition, Fault> {
        let name = formula_at(book, Reach::Line)?;
        let here = View::new(book, self.ctx)?.with_name(book)?;
        let premises = [here.out];
        let [along]: [NodeId; 1] = derive(book, UNDER_NAME, UNDER_NAME_GIVES, &[], &premises)?;
        let there = here.with_face(book, self.face)?;
        let to_start = into(book, there, &[self.face], Reach::Face, name)?;
        let under = there.with_name(book)?;
        let to_body = into(book, under, &[self.face], Reach::Line, name)?;
        Ok(Composition {
            ctx: here.ctx,
            line: type_under(book, along, self.line)?,
            base: term_under(book, here.out, self.base)?,
            face: here.face(book, self.face)?,
            body: term_under(book, to_body, self.body)?,
            start: equation_under(book, to_start, self.start)?,
        })
    }
}

/// `comp A p b a : A{1}`, with its type.
pub fn composed(book: &mut Book, parts: Composition) -> Result<[NodeId; 2], Fault> {
    let rows = parts.rows(book)?;
    let premises = [parts.line, parts.body, parts.base, parts.start];
    let rule = RuleName::Composition(CompRule::Comp);
    let term = conclude(book, rule, &rows, &premises)?;
    let here = identity(book, parts.ctx)?;
    let end = try_make(book, Op::I1, &[])?;
    let end = at_formula(book, here, end)?;
    let ty = type_under(book, end, parts.line)?;
    Ok([term, ty])
}

/// An equation at a new name that stands where the name is at an end, at that end.
fn at_end(
    book: &mut Book,
    ctx: NodeId,
    end: Op,
    face: Op,
    equation: NodeId,
) -> Result<NodeId, Fault> {
    let here = identity(book, ctx)?;
    let end = try_make(book, end, &[])?;
    let sub = at_formula(book, here, end)?;
    let name = formula_at(book, Reach::Line)?;
    let face = try_make(book, face, &[name])?;
    let sub = into_face(book, sub, face)?;
    equation_under(book, sub, equation)
}

/// The right side of an equation of terms.
fn right_of(book: &Book, equation: NodeId) -> Result<u64, Fault> {
    match claim_of(book, equation)? {
        Claim::TmEq(_, _, right, _) => Ok(right),
        _ => Err(Fault::Misfit),
    }
}

/// The path that filling makes, from the base to the composition, with its type.
pub fn filled(book: &mut Book, parts: Composition) -> Result<[NodeId; 2], Fault> {
    let under = parts.under_name(book)?;
    let [ctx, line, face, body, base] = under.rows(book)?;
    let name = formula_at(book, Reach::Line)?;
    let rows = [ctx, line, face, body, base, name];
    let premises = [under.ctx, under.line, under.body, under.base, under.start];
    let [term, first, last, _]: [NodeId; 4] = derive(book, FILL, FILL_GIVES, &rows, &premises)?;
    let first = at_end(book, parts.ctx, Op::I0, Op::Eq0, first)?;
    let last = at_end(book, parts.ctx, Op::I1, Op::Eq1, last)?;
    let [ctx, line, ..] = parts.rows(book)?;
    let [_, term_row] = subject(book, term)?;
    let rows = [
        ctx,
        line,
        term_row,
        right_of(book, first)?,
        right_of(book, last)?,
    ];
    let rule = RuleName::Paths(PathRule::PLam);
    let path = conclude(book, rule, &rows, &[term, first, last])?;
    let [end, _] = composed(book, parts)?;
    let premises = [parts.line, parts.base, end];
    let [ty]: [NodeId; 1] = derive(book, PATH_TYPE, PATH_TYPE_GIVES, &[], &premises)?;
    Ok([path, ty])
}
