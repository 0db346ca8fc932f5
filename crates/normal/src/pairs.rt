//! Pairs and their halves: from kid to kid.

use crate::kids::{enter_kid, enter_main, made_by, ready, settled};
use crate::state::{Focus, Frame};
use crate::systems::Around;
use crate::types::enter_former;
use book::Book;
use normal_closings::{closed_first, closed_pair, closed_second};
use std::alloc::Global;
use tested_steps::Fault;
use theory::{RuleName, SigmaRule};
use values::{Goal, Part};

/// A pair or a half of one whose kid is sought.
#[derive(Clone, Copy, Debug)]
pub enum PairFrame {
    /// What a first half is of.
    First(Goal),
    /// What a second half is of.
    Second(Goal),
    /// The left half of a pair.
    Left(Goal),
    /// Its right half, of the left one.
    Right(Goal, Part),
}

/// Goes on from a pair, a half of one, or a type of pairs.
pub(crate) fn enter_pair(
    book: &mut Book,
    around: &mut Around,
    goal: Goal,
    rule: SigmaRule,
) -> Result<Focus, Fault> {
    match rule {
        SigmaRule::Pair => {
            let frame = Frame::Pair(PairFrame::Left(goal));
            enter_kid(book, around, goal, frame, 1)
        }
        SigmaRule::Fst => {
            let frame = Frame::Pair(PairFrame::First(goal));
            enter_main(book, around, goal, frame, 0)
        }
        SigmaRule::Snd => {
            let frame = Frame::Pair(PairFrame::Second(goal));
            enter_main(book, around, goal, frame, 0)
        }
        SigmaRule::SigTy | SigmaRule::SigU => enter_former(book, around, goal),
        _ => ready(book, goal),
    }
}

/// Goes on from a kid of a pair or of a half that is in normal form.
pub(crate) fn after_pair(
    alloc: Global,
    book: &mut Book,
    around: &mut Around,
    frame: PairFrame,
    part: Part,
) -> Result<Focus, Fault> {
    match frame {
        PairFrame::First(goal) => {
            let fires = is_pair(alloc, book, goal, part)?;
            let goal = closed_first(book, goal, part)?;
            settled(book, goal, fires)
        }
        PairFrame::Second(goal) => {
            let fires = is_pair(alloc, book, goal, part)?;
            let goal = closed_second(alloc, book, goal, part)?;
            settled(book, goal, fires)
        }
        PairFrame::Left(goal) => {
            let frame = Frame::Pair(PairFrame::Right(goal, part));
            enter_kid(book, around, goal, frame, 2)
        }
        PairFrame::Right(goal, first) => {
            let goal = closed_pair(alloc, book, goal, first, part)?;
            ready(book, goal)
        }
    }
}

/// Whether a part is a pair.
fn is_pair(alloc: Global, book: &mut Book, goal: Goal, part: Part) -> Result<bool, Fault> {
    let rule = made_by(alloc, book, goal.susp.ctx, part)?;
    Ok(rule == RuleName::Sigma(SigmaRule::Pair))
}
