//! Systems without sides, which stand where nothing is true.

use book::{Book, NodeId};
use eliminators::{Eliminator, Frame, type_under};
use kan_rules::{
    EMPTY_SMALL, EMPTY_SMALL_GIVES, EMPTY_TERM, EMPTY_TERM_GIVES, EMPTY_TYPE, EMPTY_TYPE_GIVES,
};
use tested_steps::{Fault, derive, premise_of, rule_of};
use theory::{RuleName, SystemRule};
use values::{Goal, rebuilt};

/// The goal at the type of the numbers, from a type without sides.
fn numbers(book: &mut Book, goal: Goal) -> Result<Goal, Fault> {
    let premises = [goal.susp.ctx];
    let [equal, term]: [NodeId; 2] = derive(book, EMPTY_TYPE, EMPTY_TYPE_GIVES, &[], &premises)?;
    rebuilt(book, goal, equal, None, term)
}

/// The goal at the type of the numbers as a term of the universe.
fn small_numbers(book: &mut Book, goal: Goal) -> Result<Goal, Fault> {
    let premises = [goal.susp.ctx];
    let [equal, term]: [NodeId; 2] = derive(book, EMPTY_SMALL, EMPTY_SMALL_GIVES, &[], &premises)?;
    rebuilt(book, goal, equal, None, term)
}

/// The goal at zero, from a term without sides.
fn nought(book: &mut Book, goal: Goal) -> Result<Goal, Fault> {
    let ty = premise_of(book, goal.susp.typing, 0)?;
    let ty = type_under(book, goal.susp.sub, ty)?;
    let premises = [goal.susp.ctx, ty];
    let [equal, turn, term]: [NodeId; 3] = derive(
        book,
        EMPTY_TERM,
        EMPTY_TERM_GIVES,
        &[],
        &premises,
    )?;
    rebuilt(book, goal, equal, Some(turn), term)
}

/// What a goal at a system without sides settles as: the numbers where it is a type, and zero where
/// it is a term. None where it is no such system. The frame is the innermost one around it.
pub fn at_nothing(
    book: &mut Book,
    goal: Goal,
    frame: Option<Frame>,
) -> Result<Option<Goal>, Fault> {
    match rule_of(book, goal.susp.typing)? {
        RuleName::Systems(SystemRule::EmptyTy) => Ok(Some(numbers(book, goal)?)),
        RuleName::Systems(SystemRule::EmptyTm) => match frame {
            Some(
                Frame {
                    form: Eliminator::Small,
                    ..
                },
            ) => Ok(Some(small_numbers(book, goal)?)),
            _ => Ok(Some(nought(book, goal)?)),
        },
        _ => Ok(None),
    }
}
