//! What a checker knows at a place, and what it found.

use crate::places::Places;
use book::{Book, NodeId};
use eliminators::type_under;
use joined_sides::View;
use numbered_scope::{ByNumber, Numbered};
use std::alloc::{AllocError, Global};
use tested_steps::{Fault, derive};
use typing_rules::{NUMBERS_TYPE, NUMBERS_TYPE_GIVES, UNIVERSE_TYPE, UNIVERSE_TYPE_GIVES};
use typing_steps::Root;
use values::{Answers, term_under};

/// A term that was inferred, with its type: `G >> a : A` and `G >> A`.
#[derive(Clone, Copy, Debug)]
pub struct Inferred {
    pub term: NodeId,
    pub ty: NodeId,
}

/// A definition in scope, and the depth of the place where it stands.
#[derive(Clone, Copy, Debug)]
struct InScope {
    root: Root,
    depth: usize,
}

/// What a checker knows at a place, and what it found.
#[derive(Drop)]
pub struct Examiner {
    /// Where its stacks grow.
    pub alloc: Global,
    /// The most moves of a question.
    pub(crate) turns: u64,
    /// What was answered before.
    pub(crate) answers: Answers,
    places: Places,
    scope: ByNumber<InScope>,
    /// Typings that were found.
    nodes: Vec<NodeId>,
    /// Terms that were inferred.
    heads: Vec<Inferred>,
    /// The definitions that were stated, in order.
    pub roots: Vec<Root>,
}

impl Examiner {
    /// Where there are no entries, with so many moves for a question.
    pub fn new(alloc: Global, book: &mut Book, turns: u64) -> Result<Examiner, Fault> {
        Ok(Examiner {
            alloc,
            turns,
            answers: Answers::new(alloc),
            places: Places::new(alloc, book)?,
            scope: ByNumber::new(alloc),
            nodes: Vec::new(alloc),
            heads: Vec::new(alloc),
            roots: Vec::new(alloc),
        })
    }

    // what was found

    /// The typing that was found last, which stays.
    pub fn last_node(&self) -> Result<NodeId, Fault> {
        match self.nodes.as_slice().last() {
            Some(last) => Ok(*last),
            None => Err(Fault::Misfit),
        }
    }

    /// The typing that was found last.
    pub fn take_node(&mut self) -> Result<NodeId, Fault> {
        match self.nodes.pop() {
            Some(node) => Ok(node),
            None => Err(Fault::Misfit),
        }
    }

    /// The last so many typings that were found, in order.
    pub fn take_nodes(&mut self, count: usize) -> Result<Vec<NodeId>, Fault> {
        let mut taken = Vec::new(self.alloc);
        let Some(from) = self.nodes.len().checked_sub(count) else {
            return Err(Fault::Misfit);
        };
        for node in self.nodes.as_slice().iter().skip(from) {
            taken.push(*node)?;
        }
        self.nodes.truncate(from);
        Ok(taken)
    }

    /// The term that was inferred last, which stays.
    pub fn last_head(&self) -> Result<Inferred, Fault> {
        match self.heads.as_slice().last() {
            Some(last) => Ok(*last),
            None => Err(Fault::Misfit),
        }
    }

    /// The term that was inferred last.
    pub fn take_head(&mut self) -> Result<Inferred, Fault> {
        match self.heads.pop() {
            Some(head) => Ok(head),
            None => Err(Fault::Misfit),
        }
    }

    /// A typing was found.
    pub fn found(&mut self, node: NodeId) -> Result<(), AllocError> {
        self.nodes.push(node)?;
        Ok(())
    }

    /// A term was inferred.
    pub fn inferred(&mut self, term: NodeId, ty: NodeId) -> Result<(), AllocError> {
        self.heads.push(Inferred { term, ty })?;
        Ok(())
    }

    // definitions

    /// Knows a definition of the top from now on.
    pub fn know(&mut self, number: u32, root: Root) -> Result<(), AllocError> {
        self.scope.push(Numbered {
            number,
            value: InScope { root, depth: 0 },
        })?;
        Ok(())
    }

    /// States a definition, which is known from then on.
    pub fn define(&mut self, number: u32, root: Root) -> Result<(), AllocError> {
        let depth = self.places.depth();
        self.scope.push(Numbered {
            number,
            value: InScope { root, depth },
        })?;
        self.roots.push(root)?;
        Ok(())
    }

    /// Forgets so many definitions.
    pub fn forget(&mut self, count: usize) {
        let mark = self.scope.mark();
        self.scope.cut(mark.saturating_sub(count));
    }

    /// A defined name, which is its body weakened.
    pub fn defined(&self, book: &mut Book, number: u32) -> Result<Inferred, Fault> {
        let Some(def) = self.scope.find(number) else {
            return Err(Fault::Misfit);
        };
        let sub = self.places.weakening(book, def.depth)?;
        Ok(Inferred {
            term: term_under(book, sub, def.root.body)?,
            ty: type_under(book, sub, def.root.ty)?,
        })
    }

    // the place

    /// The node of its context.
    pub fn ctx(&self) -> NodeId {
        self.places.ctx()
    }

    /// A variable, by its index.
    pub fn variable(&self, book: &mut Book, index: u32) -> Result<Inferred, Fault> {
        self.places.variable(book, index)
    }

    /// Goes under a variable of this type.
    pub fn enter(&mut self, book: &mut Book, ty: NodeId) -> Result<(), Fault> {
        self.places.enter(book, ty)
    }

    /// Goes under a name of the interval.
    pub fn enter_name(&mut self, book: &mut Book) -> Result<(), Fault> {
        self.places.enter_name(book)
    }

    /// Goes to where a face is true.
    pub fn enter_face(&mut self, book: &mut Book, face: u64) -> Result<(), Fault> {
        self.places.enter_face(book, face)
    }

    /// Leaves the last entry.
    pub fn leave(&mut self) {
        self.places.leave();
    }

    /// The place as a view of the one without its last entry.
    pub fn view(&self, book: &mut Book) -> Result<View, Fault> {
        self.places.view(book)
    }

    /// The type of numbers there.
    pub fn numbers(&self, book: &mut Book) -> Result<[NodeId; 2], Fault> {
        derive(book, NUMBERS_TYPE, NUMBERS_TYPE_GIVES, &[], &[self.ctx()])
    }

    /// The universe there.
    pub fn universe(&self, book: &mut Book) -> Result<NodeId, Fault> {
        let premises = [self.ctx()];
        let [ty]: [NodeId; 1] = derive(book, UNIVERSE_TYPE, UNIVERSE_TYPE_GIVES, &[], &premises)?;
        Ok(ty)
    }
}
