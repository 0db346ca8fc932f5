//! Steps of comparison.

use crate::closings::{after, link_of};
use crate::differing::{differ, is_parted};
use crate::faced::FacedFrame;
use crate::headed::{headed, opened, spine};
use crate::match_terms::compare_arguments;
use crate::match_types::{Typed, right_type, types};
use crate::matched_faced::{Elements, after_elements, unglue_maps};
use crate::sides::sides_of;
use crate::state::{ConvertState, Focus, Frame, Sides, Unglued};
use book::{Book, NodeId};
use equal_parts::{
    Applied, Pair, absurd, are_one, at_one_type, close_joined, close_types_joined, is_absurd,
    is_type, kids, reflexive, types_of_arguments,
};
use faced_parts::after_side;
use std::alloc::Global;
use tested_steps::Fault;
use values::{Goal, Question, Reply, suspend};

/// What a step came to.
#[derive(Drop)]
pub enum ConvertStep {
    Moved(ConvertState),
    Asks(Question, ConvertState),
    Done(Reply),
}

/// What a state goes on with.
#[derive(Clone, Copy, Debug)]
enum Next {
    Goes(Focus),
    Asks(Question, Focus),
    /// The sides that are compared are equal.
    Equals(NodeId),
    /// The sides differ, of which these are the normal forms.
    Differs(Sides),
}

/// Two terms of one type, or two types, of which nothing is known yet, or which are in normal form.
fn fresh(
    alloc: Global,
    book: &mut Book,
    frames: &mut Vec<Frame>,
    pair: Pair,
    is_normal: bool,
) -> Result<Next, Fault> {
    if are_one(book, pair)? {
        return Ok(Next::Goes(Focus::Equal(reflexive(book, pair.left)?)));
    }
    if is_absurd(book, pair.ctx)? {
        return Ok(Next::Goes(Focus::Equal(absurd(book, pair.left, pair.right)?)));
    }
    if !is_type(book, pair.left)? {
        if is_normal {
            let left = opened(alloc, book, pair.ctx, pair.left)?;
            let right = opened(alloc, book, pair.ctx, pair.right)?;
            let focus = headed(alloc, book, frames, [left, right])?;
            return Ok(Next::Goes(focus));
        }
        let susp = suspend(book, pair.ctx, pair.left)?;
        return Ok(Next::Asks(Question::HeadOf(susp), Focus::LeftAsked(pair)));
    }
    Ok(after_types(types(alloc, book, frames, pair, is_normal)?))
}

/// What two types go on with.
fn after_types(next: Typed) -> Next {
    match next {
        Typed::Goes(focus) => Next::Goes(focus),
        Typed::Asks(question, focus) => Next::Asks(question, focus),
    }
}

/// Two types, or two terms, of which the left one has its head.
fn left_headed(alloc: Global, book: &mut Book, pair: Pair, left: Goal) -> Result<Next, Fault> {
    if is_type(book, pair.right)? {
        return Ok(after_types(right_type(alloc, book, pair, left, false)?));
    }
    let susp = suspend(book, pair.ctx, pair.right)?;
    Ok(Next::Asks(Question::HeadOf(susp), Focus::RightAsked(left)))
}

/// Two terms whose parts a rule may rewrite, though those around them are in normal form: their
/// normal forms are asked.
fn rough(book: &mut Book, focus: Focus, frames: &mut Vec<Frame>) -> Result<Next, Fault> {
    match focus {
        Focus::Rough(pair) => {
            let susp = suspend(book, pair.ctx, pair.left)?;
            Ok(Next::Asks(Question::NormalOf(susp), Focus::RoughAsked(pair)))
        }
        Focus::RoughLeft(pair, left) => {
            let susp = suspend(book, pair.ctx, pair.right)?;
            let focus = Focus::RoughRightAsked(pair.ctx, left);
            Ok(Next::Asks(Question::NormalOf(susp), focus))
        }
        Focus::RoughNormal(ctx, left, right) => {
            let frame = FacedFrame::Settled(left.equal, right.equal);
            frames.push(Frame::Faced(frame))?;
            Ok(Next::Goes(Focus::Fresh(Pair {
                ctx,
                left: left.typing,
                right: right.typing,
            })))
        }
        _ => Err(Fault::Misfit),
    }
}

/// Two applications whose functions are equal.
fn after_functions(
    alloc: Global,
    book: &mut Book,
    frames: &mut Vec<Frame>,
    heads: [Goal; 2],
    functions: NodeId,
) -> Result<Next, Fault> {
    let [left, right] = heads;
    let arguments = kids(book, left, right, 1)?;
    let applied = Applied {
        goal: left,
        functions,
        arguments,
    };
    if at_one_type(book, arguments)? {
        let focus = compare_arguments(book, frames, applied, None)?;
        return Ok(Next::Goes(focus));
    }
    let question = types_of_arguments(alloc, book, left, right)?;
    Ok(Next::Asks(question, Focus::TypesAsked(applied)))
}

/// What an equation goes to.
fn equal(
    alloc: Global,
    book: &mut Book,
    frames: &mut Vec<Frame>,
    node: NodeId,
) -> Result<Next, Fault> {
    match frames.pop() {
        None => Ok(Next::Equals(node)),
        Some(Frame::Function(left, right)) => {
            after_functions(alloc, book, frames, [left, right], node)
        }
        Some(Frame::Faced(FacedFrame::UnglueElements(both, types))) => {
            let elements = node;
            let unglued = Unglued {
                both,
                types,
                elements,
            };
            match after_elements(book, frames, unglued)? {
                Elements::Goes(focus) => Ok(Next::Goes(focus)),
                Elements::Asks(question, focus) => Ok(Next::Asks(question, focus)),
            }
        }
        Some(frame) => Ok(Next::Goes(after(alloc, book, frames, frame, node)?)),
    }
}

/// That the sides are equal, of an equation of their normal forms.
fn of_sides(book: &mut Book, sides: Sides, equal: NodeId) -> Result<NodeId, Fault> {
    let (left, right) = (sides.left.equal, sides.right.equal);
    if is_type(book, sides.left.typing)? {
        return close_types_joined(book, left, right, equal);
    }
    close_joined(book, left, right, None, equal)
}

/// The reply that the sides are equal.
fn are_equal(book: &mut Book, parted: Option<Sides>, equal: NodeId) -> Result<Reply, Fault> {
    match parted {
        None => Ok(Reply::Equal(equal)),
        Some(sides) => Ok(Reply::Equal(of_sides(book, sides, equal)?)),
    }
}

/// Goes on with parts, which the normal forms of what was asked have if that is so.
fn onward(
    alloc: Global,
    book: &mut Book,
    frames: &mut Vec<Frame>,
    focus: Focus,
    is_normal: bool,
) -> Result<Next, Fault> {
    match focus {
        Focus::Fresh(pair) => fresh(alloc, book, frames, pair, is_normal),
        Focus::Made(pair) => fresh(alloc, book, frames, pair, false),
        Focus::Rough(pair) if !is_normal => fresh(alloc, book, frames, pair, false),
        Focus::Rough(_) | Focus::RoughLeft(..) | Focus::RoughNormal(..) => {
            rough(book, focus, frames)
        }
        Focus::LeftHeaded(pair, left) => left_headed(alloc, book, pair, left),
        Focus::Headed(left, right) => Ok(Next::Goes(headed(alloc, book, frames, [left, right])?)),
        Focus::Spine(pair) => Ok(Next::Goes(spine(alloc, book, frames, pair)?)),
        Focus::TypesEqual(applied, types) => {
            Ok(Next::Goes(compare_arguments(book, frames, applied, Some(types))?))
        }
        Focus::BasesEqual(unglued, bases) => {
            Ok(Next::Goes(unglue_maps(book, frames, unglued, bases)?))
        }
        Focus::Equal(node) => equal(alloc, book, frames, node),
        _ => Err(Fault::Misfit),
    }
}

/// Takes off a frame whose parts differ. Once there is none, the normal forms of what was asked are
/// asked, if they were not.
fn part(book: &mut Book, state: &mut ConvertState) -> Result<Next, Fault> {
    if let Some(frame) = state.frames.pop() {
        if let Some(link) = link_of(frame)? {
            state.links.push(link)?;
        }
        return Ok(Next::Goes(Focus::Differ));
    }
    if let Some(sides) = state.parted {
        return Ok(Next::Differs(sides));
    }
    let susp = suspend(book, state.question.ctx, state.question.left)?;
    Ok(Next::Asks(Question::NormalOf(susp), Focus::LeftNormalAsked))
}

/// Compares the normal forms of what was asked.
fn compare_normal(state: &mut ConvertState, sides: Sides) -> Next {
    state.parted = Some(sides);
    state.links.clear();
    Next::Goes(Focus::Fresh(Pair {
        ctx: state.question.ctx,
        left: sides.left.typing,
        right: sides.right.typing,
    }))
}

/// What was asked, where one conjunction after the other is true.
fn on_sides(sides: faced_parts::Sides) -> Next {
    match sides {
        faced_parts::Sides::All(equal) => Next::Equals(equal),
        faced_parts::Sides::One(sided, Pair { ctx, left, right }) => {
            let question = Question::Convert { ctx, left, right };
            Next::Asks(question, Focus::SideAsked(sided))
        }
    }
}

/// Goes on with what was asked.
fn begun(alloc: Global, book: &mut Book, state: &mut ConvertState) -> Result<Next, Fault> {
    match sides_of(book, state.question)? {
        Some(sides) => Ok(on_sides(sides)),
        None => fresh(alloc, book, &mut state.frames, state.question, false),
    }
}

/// What a state goes on with.
fn next_of(alloc: Global, book: &mut Book, state: &mut ConvertState) -> Result<Next, Fault> {
    match state.focus {
        Focus::Asked => begun(alloc, book, state),
        Focus::SideEqual(sided, node) => Ok(on_sides(after_side(book, sided, node)?)),
        Focus::Differ => part(book, state),
        Focus::LeftNormal(left) => {
            let susp = suspend(book, state.question.ctx, state.question.right)?;
            Ok(Next::Asks(Question::NormalOf(susp), Focus::RightNormalAsked(left)))
        }
        Focus::Normal(left, right) => Ok(compare_normal(state, Sides { left, right })),
        focus => {
            let is_normal = state.parted.is_some();
            onward(alloc, book, &mut state.frames, focus, is_normal)
        }
    }
}

/// One step.
///
/// # Errors
/// `Memory`; and `Misfit` where a rule does not fit what it was used at, where the state waits for
/// a reply, or where the steps that were taken are no trail.
pub fn step_convert(
    alloc: Global,
    book: &mut Book,
    state: ConvertState,
) -> Result<ConvertStep, Fault> {
    let mut state = state;
    if let Some(trail) = state.apart.take() {
        return Ok(ConvertStep::Done(Reply::Differ(trail)));
    }
    match next_of(alloc, book, &mut state)? {
        Next::Goes(focus) => {
            state.focus = focus;
            Ok(ConvertStep::Moved(state))
        }
        Next::Asks(asked, focus) => {
            state.focus = focus;
            Ok(ConvertStep::Asks(asked, state))
        }
        Next::Equals(node) => Ok(ConvertStep::Done(are_equal(book, state.parted, node)?)),
        Next::Differs(sides) => {
            let ConvertState {
                question,
                mut links,
                ..
            } = state;
            links.reverse();
            if !is_parted(alloc, book, question.ctx, sides, links.as_slice())? {
                return Err(Fault::Misfit);
            }
            Ok(ConvertStep::Done(differ(alloc, sides, links.as_slice())?))
        }
    }
}
