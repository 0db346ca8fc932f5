//! What a frame makes of an equation of parts, and which step leads to these.

use crate::eta_pairs::second_halves;
use crate::faced::{after_faced, link_of_faced};
use crate::match_terms::{bases, recursion_numbers, steps};
use crate::match_types::{codomains, small_codomains};
use crate::state::{Focus, Frame};
use book::{Book, NodeId};
use equal_parts::{
    Lines, close_app, close_at, close_first, close_fitted, close_halves, close_joined, close_lines,
    close_named, close_natrec, close_second, close_small, close_small_types, close_suc,
    close_types, close_types_joined, close_under, ends_of,
};
use std::alloc::Global;
use tested_steps::Fault;
use trails::{Link, Step};
use values::Goal;

/// The equation of what a frame is about, of that of its last part.
fn closed(book: &mut Book, frame: Frame, equal: NodeId) -> Result<NodeId, Fault> {
    match frame {
        Frame::Joined { left, right, fits } => close_joined(book, left, right, fits, equal),
        Frame::Fitted(fits) => close_fitted(book, fits, equal),
        Frame::Small => close_small(book, equal),
        Frame::TypesJoined(left, right) => close_types_joined(book, left, right, equal),
        Frame::Suc => close_suc(book, equal),
        Frame::First(goal) => close_first(book, goal, equal),
        Frame::Second(goal) => close_second(book, goal, equal),
        Frame::Argument(goal, functions) => close_app(book, goal, functions, equal),
        Frame::Number(motives, bases, steps) => {
            close_natrec(book, [motives, bases, steps, equal])
        }
        Frame::TypeCodomain(former, domains) => close_types(book, former, domains, equal),
        Frame::SmallCodomain(former, domains) => close_small_types(book, former, domains, equal),
        Frame::RightEnd(lines, starts) => close_lines(book, [lines, starts, equal]),
        Frame::Under(under) => close_under(book, under, equal),
        Frame::Named(named) => close_named(book, named, equal),
        Frame::SecondHalf(halved, first, right) => {
            close_halves(book, halved, first, right, equal)
        }
        _ => Err(Fault::Misfit),
    }
}

/// The ends of two types of paths whose lines are equal: the left ones.
fn left_ends(
    book: &mut Book,
    frames: &mut Vec<Frame>,
    both: Lines,
    lines: NodeId,
) -> Result<Focus, Fault> {
    let [left, right] = ends_of(book, both, lines)?;
    frames.push(Frame::LeftEnd(lines, right))?;
    Ok(Focus::Fresh(left))
}

/// Equal paths at formulas, which may differ.
fn at_formulas(
    alloc: Global,
    book: &mut Book,
    frames: &mut Vec<Frame>,
    heads: [Goal; 2],
    paths: NodeId,
) -> Result<Focus, Fault> {
    match close_at(alloc, book, heads, paths)? {
        Some(equal) => Ok(Focus::Equal(equal)),
        None => {
            frames.push(Frame::Formula)?;
            Ok(Focus::Differ)
        }
    }
}

/// A frame with an equation of its part: its next part, or its own equation. A frame at a function
/// is none of them.
pub(crate) fn after(
    alloc: Global,
    book: &mut Book,
    frames: &mut Vec<Frame>,
    frame: Frame,
    equal: NodeId,
) -> Result<Focus, Fault> {
    match frame {
        Frame::Motive(both) => bases(book, frames, both, equal),
        Frame::Base(both, motives) => steps(frames, both, motives, equal),
        Frame::Step(both, motives, bases) => {
            recursion_numbers(book, frames, both, [motives, bases, equal])
        }
        Frame::TypeDomain(ctx, left, right) => codomains(book, frames, ctx, [left, right], equal),
        Frame::SmallDomain(former, left, right) => {
            small_codomains(book, frames, former, [left, right], equal)
        }
        Frame::Line(both) => left_ends(book, frames, both, equal),
        Frame::LeftEnd(lines, right) => {
            frames.push(Frame::RightEnd(lines, equal))?;
            Ok(Focus::Fresh(right))
        }
        Frame::At(left, right) => at_formulas(alloc, book, frames, [left, right], equal),
        Frame::FirstHalf(halved) => second_halves(book, frames, halved, equal),
        Frame::Faced(faced) => after_faced(book, frames, faced, equal),
        _ => Ok(Focus::Equal(closed(book, frame, equal)?)),
    }
}

/// The step from what a frame is about to its part.
fn step_of(frame: Frame) -> Option<Step> {
    match frame {
        Frame::Joined { .. } | Frame::Fitted(_) | Frame::Small | Frame::TypesJoined(..) => None,
        Frame::Faced(_) => None,
        Frame::Suc | Frame::Function(..) | Frame::First(_) | Frame::Second(_) => {
            Some(Step::Into(0))
        }
        Frame::Motive(_) | Frame::SmallDomain(..) | Frame::TypeDomain(..) => Some(Step::Into(0)),
        Frame::Line(_) | Frame::At(..) => Some(Step::Into(0)),
        Frame::Argument(..) | Frame::Base(..) => Some(Step::Into(1)),
        Frame::SmallCodomain(..) | Frame::TypeCodomain(..) => Some(Step::Into(1)),
        Frame::LeftEnd(..) | Frame::Formula => Some(Step::Into(1)),
        Frame::Step(..) | Frame::RightEnd(..) => Some(Step::Into(2)),
        Frame::Number(..) => Some(Step::Into(3)),
        Frame::Under(_) | Frame::Named(_) => Some(Step::Under),
        Frame::FirstHalf(_) => Some(Step::First),
        Frame::SecondHalf(..) => Some(Step::Second),
    }
}

/// The link of a trail from what a frame is about to its part.
pub(crate) fn link_of(frame: Frame) -> Result<Option<Link>, Fault> {
    if let Frame::Faced(faced) = frame {
        return link_of_faced(faced);
    }
    match step_of(frame) {
        Some(step) => Ok(Some(Link::Step(step))),
        None => Ok(None),
    }
}
