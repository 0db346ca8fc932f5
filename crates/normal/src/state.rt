//! States of normal forms.

use crate::composing::CompFrame;
use crate::functions::FunctionFrame;
use crate::gluing::GlueFrame;
use crate::pairs::PairFrame;
use crate::paths::PathFrame;
use crate::recursion::NatFrame;
use crate::systems::{Around, Sides};
use crate::types::TypeFrame;
use std::alloc::Global;
use tested_steps::Fault;
use values::{Goal, Part, Reply, Susp, Way};

/// What a state is about.
#[derive(Clone, Copy, Debug)]
pub enum Focus {
    /// What is asked, or a kid of a head: a term or a type.
    Fresh(Susp),
    /// A term or a type with the way to it, which a rule may rewrite.
    Seek(Goal),
    /// A term or a type whose head was asked, with the way to it.
    Waits(Option<Way>),
    /// A head, with the way to that of which it is the head.
    Headed(Way, Goal),
    /// A term or a type that is its head.
    Walk(Goal),
    /// A normal form.
    Ready(Part),
}

/// A head whose kid is sought, with the kids that were found.
#[derive(Clone, Copy, Debug)]
pub enum Frame {
    Function(FunctionFrame),
    Pair(PairFrame),
    Number(NatFrame),
    Path(PathFrame),
    Type(TypeFrame),
    Glue(GlueFrame),
    Comp(CompFrame),
    /// A side of what stands under a face.
    Side(Sides),
}

/// A state: a focus, and what is around it.
#[derive(Drop)]
pub struct NormalState {
    pub(crate) focus: Focus,
    pub(crate) around: Around,
}

impl NormalState {
    /// The state of a question.
    pub fn new(alloc: Global, question: Susp) -> NormalState {
        NormalState {
            focus: Focus::Fresh(question),
            around: Around {
                frames: Vec::new(alloc),
                sides: Vec::new(alloc),
            },
        }
    }

    /// Hands it the reply to what it asked.
    ///
    /// # Errors
    /// `Misfit` where it waits for no reply, or for another kind.
    pub fn answer(&mut self, reply: Reply) -> Result<(), Fault> {
        let Focus::Waits(before) = self.focus else {
            return Err(Fault::Misfit);
        };
        let Reply::Head(head) = reply else {
            return Err(Fault::Misfit);
        };
        self.focus = match before {
            None => Focus::Walk(head),
            Some(way) => Focus::Headed(way, head),
        };
        Ok(())
    }
}
