//! States of the evaluator.

use book::NodeId;
use eliminators::{Frame, Pending, Sides, Waiting};
use std::alloc::Global;
use tested_steps::Fault;
use values::{Goal, Reply, Susp, Unaligned};

/// What a state is about.
#[derive(Drop, Debug)]
pub enum Focus {
    /// What is asked.
    Fresh(Susp),
    /// A term whose head is sought.
    Seek(Goal),
    /// A term that no rule rewrites by its outermost form.
    Found(Goal),
    /// A frame that waits for a reply.
    Waits(Waiting),
    /// It has the equation that it asked for,
    Replied(Pending, NodeId),
    /// or the sides differ.
    Apart(Pending),
    /// The type of a head and the one that it was asked at differ in normal form.
    Unaligned(Unaligned),
    /// A composition, with the head of its line.
    Lined(Goal, Goal),
    /// A composition of numbers, with the heads of its base and of its side.
    Sided(Sides, Goal),
}

/// A state: a focus, and the frames around it, the innermost last.
#[derive(Drop)]
pub struct HeadState {
    pub(crate) focus: Focus,
    pub(crate) frames: Vec<Frame>,
}

impl HeadState {
    /// The state of a question.
    pub fn new(alloc: Global, question: Susp) -> HeadState {
        HeadState {
            focus: Focus::Fresh(question),
            frames: Vec::new(alloc),
        }
    }

    /// Hands it the reply to what it asked.
    pub fn answer(&mut self, reply: Reply) -> Result<(), Fault> {
        let Focus::Waits(waiting) = &self.focus else {
            return Err(Fault::Misfit);
        };
        self.focus = match (*waiting, reply) {
            (Waiting::Equation(pending), Reply::Equal(node)) => Focus::Replied(pending, node),
            (Waiting::Equation(pending), Reply::Differ(_)) => Focus::Apart(pending),
            (Waiting::Alignment(types), Reply::Differ(trail)) => {
                Focus::Unaligned(Unaligned { types, trail })
            }
            (Waiting::Line(goal), Reply::Head(line)) => Focus::Lined(goal, line),
            (Waiting::Side(sides), Reply::Head(side)) => Focus::Sided(sides, side),
            _ => return Err(Fault::Misfit),
        };
        Ok(())
    }
}
