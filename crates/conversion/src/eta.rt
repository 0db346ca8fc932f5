//! Functions and paths by their eta rules.

use crate::state::{Focus, Frame};
use book::Book;
use equal_parts::{
    Named, Pair, Under, at_name, at_own, at_variable, body, path_body, same_body, same_path_body,
};
use tested_steps::{Fault, rule_of};
use theory::{PathRule, PiRule, RuleName};
use values::Goal;

/// A pair of which one side was made by an eta rule: where the other head is a literal too, a rule
/// rewrites what was made.
fn made(pair: Pair, is_literal: bool) -> Focus {
    if is_literal {
        Focus::Made(pair)
    } else {
        Focus::Fresh(pair)
    }
}

/// Two functions, of which one is a function of a variable: its body, and the other at the
/// variable, or its body.
pub(crate) fn bind(
    book: &mut Book,
    frames: &mut Vec<Frame>,
    own: Goal,
    heads: [Goal; 2],
) -> Result<Focus, Fault> {
    let [left, right] = heads;
    let is_left = own == left;
    let other = if is_left { right } else { left };
    let (within, domain, body) = body(book, own)?;
    if let Some(second) = same_body(book, other, domain, body)? {
        frames.push(Frame::Under(Under::Bodies {
            ctx: own.susp.ctx,
            domain,
            left: body,
            right: second,
        }))?;
        return Ok(Focus::Fresh(Pair {
            ctx: within.ctx,
            left: body,
            right: second,
        }));
    }
    let function = at_own(book, own, other)?;
    let term = at_variable(book, own, function)?;
    let (left, right) = if is_left { (body, term) } else { (term, body) };
    frames.push(Frame::Under(Under::Body {
        ctx: own.susp.ctx,
        domain,
        body,
        function,
        is_left,
    }))?;
    let ctx = within.ctx;
    let is_literal = rule_of(book, other.susp.typing)? == RuleName::Pi(PiRule::Lam);
    Ok(made(Pair { ctx, left, right }, is_literal))
}

/// Two paths, of which one is a path of a name: its body, and the other at the name, or its body.
pub(crate) fn bind_name(
    book: &mut Book,
    frames: &mut Vec<Frame>,
    own: Goal,
    heads: [Goal; 2],
) -> Result<Focus, Fault> {
    let [left, right] = heads;
    let is_left = own == left;
    let other = if is_left { right } else { left };
    let (within, body) = path_body(book, own)?;
    if let Some(pair) = same_path_body(book, other, body)? {
        let Pair { left, right, .. } = pair;
        let path = own;
        frames.push(Frame::Named(Named::Bodies { path, left, right }))?;
        return Ok(Focus::Fresh(pair));
    }
    let path = at_own(book, own, other)?;
    let term = at_name(book, own, path)?;
    let (left, right) = if is_left { (body, term) } else { (term, body) };
    frames.push(Frame::Named(Named::Body {
        path: own,
        body,
        other: path,
        is_left,
    }))?;
    let ctx = within.ctx;
    let is_literal = rule_of(book, other.susp.typing)? == RuleName::Paths(PathRule::PLam);
    Ok(made(Pair { ctx, left, right }, is_literal))
}
