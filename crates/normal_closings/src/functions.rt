//! Functions and applications of parts in normal form.

use crate::parts::{closed, is_same};
use crate::within::Within;
use book::{Book, NodeId};
use eliminators::type_under;
use head_rules::{APP_STAYS, APP_STAYS_GIVES};
use normal_rules::{
    APP_NORMAL, APP_NORMAL_GIVES, LAM_NORMAL, LAM_NORMAL_GIVES, LAMS_EQUAL, LAMS_EQUAL_GIVES,
};
use std::alloc::Global;
use tested_steps::{Fault, codomain_of, derive, part_of, premise_of, substitution_row, type_of};
use values::{Goal, Part, rebuilt, term_under};

/// A body in normal form, and where it is.
#[derive(Clone, Copy, Debug)]
pub struct Body {
    pub part: Part,
    pub within: Within,
}

/// A function whose domain and body are in normal form.
pub fn closed_lambda(
    alloc: Global,
    book: &mut Book,
    goal: Goal,
    domain: Part,
    body: Body,
) -> Result<Goal, Fault> {
    match (is_same(book, domain)?, is_same(book, body.part)?) {
        (true, true) => Ok(goal),
        (true, false) => with_body(book, goal, body),
        (false, _) => with_domain(alloc, book, goal, domain, body),
    }
}

/// A function of another body.
fn with_body(book: &mut Book, goal: Goal, body: Body) -> Result<Goal, Fault> {
    let susp = goal.susp;
    let at = premise_of(book, susp.typing, 0)?;
    let at = type_under(book, susp.sub, at)?;
    let before = premise_of(book, susp.typing, 1)?;
    let before = term_under(book, body.within.sub, before)?;
    let premises = [susp.ctx, at, before, body.part.typing, body.part.equal];
    let nodes: [NodeId; 2] = derive(book, LAMS_EQUAL, LAMS_EQUAL_GIVES, &[], &premises)?;
    closed(book, goal, nodes)
}

/// A function of another domain and another body.
fn with_domain(
    alloc: Global,
    book: &mut Book,
    goal: Goal,
    domain: Part,
    body: Body,
) -> Result<Goal, Fault> {
    let Body { part, within } = body;
    let susp = goal.susp;
    let at = premise_of(book, susp.typing, 0)?;
    let at = type_under(book, susp.sub, at)?;
    let before = premise_of(book, susp.typing, 1)?;
    let codomain = type_of(alloc, book, before)?;
    let codomain = type_under(book, within.sub, codomain)?;
    let before = term_under(book, within.sub, before)?;
    let premises = [
        susp.ctx,
        at,
        domain.typing,
        domain.equal,
        codomain,
        before,
        part.typing,
        part.equal,
    ];
    let nodes: [NodeId; 2] = derive(book, LAM_NORMAL, LAM_NORMAL_GIVES, &[], &premises)?;
    closed(book, goal, nodes)
}

/// An application whose function and argument are in normal form.
pub fn closed_application(
    alloc: Global,
    book: &mut Book,
    goal: Goal,
    function: Part,
    argument: Part,
) -> Result<Goal, Fault> {
    match (is_same(book, function)?, is_same(book, argument)?) {
        (true, true) => Ok(goal),
        (false, true) => with_function(book, goal, function, argument),
        (_, false) => with_parts(alloc, book, goal, function, argument),
    }
}

/// An application of what its function equals.
fn with_function(
    book: &mut Book,
    goal: Goal,
    function: Part,
    argument: Part,
) -> Result<Goal, Fault> {
    let susp = goal.susp;
    let parts = [
        substitution_row(book, susp.sub)?,
        part_of(book, susp.typing, 4)?,
    ];
    let premises = [argument.typing, function.equal, function.typing];
    let [equal, term]: [NodeId; 2] = derive(book, APP_STAYS, APP_STAYS_GIVES, &parts, &premises)?;
    rebuilt(book, goal, equal, None, term)
}

/// An application of what its function equals to what its argument equals.
fn with_parts(
    alloc: Global,
    book: &mut Book,
    goal: Goal,
    function: Part,
    argument: Part,
) -> Result<Goal, Fault> {
    let susp = goal.susp;
    let before = premise_of(book, susp.typing, 0)?;
    let codomain = codomain_of(alloc, book, before)?;
    let parts = [part_of(book, susp.typing, 3)?];
    let premises = [
        susp.sub,
        codomain,
        function.equal,
        function.typing,
        argument.equal,
        argument.typing,
    ];
    let [equal, turn, term]: [NodeId; 3] = derive(
        book,
        APP_NORMAL,
        APP_NORMAL_GIVES,
        &parts,
        &premises,
    )?;
    rebuilt(book, goal, equal, Some(turn), term)
}
