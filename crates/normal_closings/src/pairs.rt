//! Pairs and halves of what is in normal form.

use crate::parts::{are_same, closed, is_same};
use book::{Book, NodeId};
use eliminators::{Halves, halves_of};
use head_rules::{FST_STAYS, FST_STAYS_GIVES, SND_STAYS, SND_STAYS_GIVES};
use inversion_rules::{OPEN_PAIR, OPEN_PAIR_GIVES};
use normal_rules::{PAIR_NORMAL, PAIR_NORMAL_GIVES};
use std::alloc::Global;
use tested_steps::{Fault, codomain_of, derive, part_of, premise_of, substitution_row};
use values::{Goal, Part, is_identity, rebuilt};

/// What a pair was made of, in the context of what was asked.
pub fn halves_here(alloc: Global, book: &mut Book, goal: Goal) -> Result<Halves, Fault> {
    let home = halves_of(alloc, book, goal.susp.typing)?;
    if is_identity(book, goal.susp.sub)? {
        return Ok(home);
    }
    let premises = [
        goal.susp.sub,
        home.domain,
        home.codomain,
        home.first,
        home.second,
    ];
    let [domain, codomain, first, second]: [NodeId; 4] = derive(
        book,
        OPEN_PAIR,
        OPEN_PAIR_GIVES,
        &[],
        &premises,
    )?;
    Ok(Halves {
        domain,
        codomain,
        first,
        second,
    })
}

/// A pair whose halves are in normal form.
pub fn closed_pair(
    alloc: Global,
    book: &mut Book,
    goal: Goal,
    first: Part,
    second: Part,
) -> Result<Goal, Fault> {
    if are_same(book, &[first, second])? {
        return Ok(goal);
    }
    let halves = halves_here(alloc, book, goal)?;
    let premises = [
        goal.susp.ctx,
        halves.domain,
        halves.codomain,
        halves.first,
        halves.second,
        first.equal,
        first.typing,
        second.equal,
        second.typing,
    ];
    let nodes: [NodeId; 2] = derive(book, PAIR_NORMAL, PAIR_NORMAL_GIVES, &[], &premises)?;
    closed(book, goal, nodes)
}

/// The first half of what is in normal form.
pub fn closed_first(book: &mut Book, goal: Goal, part: Part) -> Result<Goal, Fault> {
    if is_same(book, part)? {
        return Ok(goal);
    }
    let parts = [
        substitution_row(book, goal.susp.sub)?,
        part_of(book, goal.susp.typing, 2)?,
        part_of(book, goal.susp.typing, 3)?,
    ];
    let premises = [part.equal, part.typing];
    let [equal, term]: [NodeId; 2] = derive(book, FST_STAYS, FST_STAYS_GIVES, &parts, &premises)?;
    rebuilt(book, goal, equal, None, term)
}

/// The second half of what is in normal form.
pub fn closed_second(
    alloc: Global,
    book: &mut Book,
    goal: Goal,
    part: Part,
) -> Result<Goal, Fault> {
    if is_same(book, part)? {
        return Ok(goal);
    }
    let main = premise_of(book, goal.susp.typing, 0)?;
    let codomain = codomain_of(alloc, book, main)?;
    let parts = [
        part_of(book, goal.susp.typing, 2)?,
        part_of(book, goal.susp.typing, 3)?,
    ];
    let premises = [goal.susp.sub, codomain, part.equal, part.typing];
    let [equal, turn, term]: [NodeId; 3] = derive(
        book,
        SND_STAYS,
        SND_STAYS_GIVES,
        &parts,
        &premises,
    )?;
    rebuilt(book, goal, equal, Some(turn), term)
}
