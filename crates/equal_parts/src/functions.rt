//! Functions by the eta rule.

use crate::sides::{Pair, at_one_type};
use book::{Book, NodeId};
use conversion_rules::{
    AT_VARIABLE, AT_VARIABLE_GIVES, LAM_LEFT, LAM_LEFT_GIVES, LAM_RIGHT, LAM_RIGHT_GIVES,
};
use eliminators::type_under;
use normal_closings::{Within, enter};
use normal_rules::{LAMS_EQUAL, LAMS_EQUAL_GIVES};
use tested_steps::{Fault, derive, part_of, premise_of, rule_of, same_type};
use theory::{PiRule, RuleName};
use values::{Goal, term_under};

/// Two functions, under a variable.
#[derive(Clone, Copy, Debug)]
pub enum Under {
    /// Both are functions of a variable of one type: that type in the context, and their bodies.
    Bodies {
        ctx: NodeId,
        domain: NodeId,
        left: NodeId,
        right: NodeId,
    },
    /// One is: its body, and the other at its type.
    Body {
        ctx: NodeId,
        domain: NodeId,
        body: NodeId,
        function: NodeId,
        is_left: bool,
    },
}

/// The body of a function of a variable, in the context with it; and the domain.
pub fn body(book: &mut Book, head: Goal) -> Result<(Within, NodeId, NodeId), Fault> {
    let susp = head.susp;
    let domain = premise_of(book, susp.typing, 0)?;
    let within = enter(book, susp.sub, domain)?;
    let domain = type_under(book, susp.sub, domain)?;
    let body = premise_of(book, susp.typing, 1)?;
    let body = term_under(book, within.sub, body)?;
    Ok((within, domain, body))
}

/// The body of a function, if it is one of a variable of this domain, and of this type.
pub fn same_body(
    book: &mut Book,
    head: Goal,
    domain: NodeId,
    like: NodeId,
) -> Result<Option<NodeId>, Fault> {
    if rule_of(book, head.susp.typing)? != RuleName::Pi(PiRule::Lam) {
        return Ok(None);
    }
    let (within, other, body) = body(book, head)?;
    if !same_type(book, domain, other)? {
        return Ok(None);
    }
    let pair = Pair {
        ctx: within.ctx,
        left: like,
        right: body,
    };
    if !at_one_type(book, pair)? {
        return Ok(None);
    }
    Ok(Some(body))
}

/// A function at the type of another, applied to the variable of that one.
pub fn at_variable(book: &mut Book, own: Goal, function: NodeId) -> Result<NodeId, Fault> {
    let parts = [part_of(book, own.susp.typing, 3)?];
    let domain = premise_of(book, own.susp.typing, 0)?;
    let premises = [own.susp.ctx, own.susp.sub, domain, function];
    let [term]: [NodeId; 1] = derive(book, AT_VARIABLE, AT_VARIABLE_GIVES, &parts, &premises)?;
    Ok(term)
}

/// Functions that agree on a variable.
pub fn close_under(book: &mut Book, under: Under, equal: NodeId) -> Result<NodeId, Fault> {
    match under {
        Under::Bodies {
            ctx,
            domain,
            left,
            right,
        } => {
            let premises = [ctx, domain, left, right, equal];
            let [equal, _]: [NodeId; 2] = derive(
                book,
                LAMS_EQUAL,
                LAMS_EQUAL_GIVES,
                &[],
                &premises,
            )?;
            Ok(equal)
        }
        Under::Body {
            ctx,
            domain,
            body,
            function,
            is_left,
        } => {
            let premises = [ctx, domain, body, function, equal];
            let [equal]: [NodeId; 1] = if is_left {
                derive(book, LAM_LEFT, LAM_LEFT_GIVES, &[], &premises)?
            } else {
                derive(book, LAM_RIGHT, LAM_RIGHT_GIVES, &[], &premises)?
            };
            Ok(equal)
        }
    }
}
