//! Places: the entries round what is looked at.

use crate::state::Inferred;
use book::{Book, NodeId};
use eliminators::{type_under, within_face};
use joined_sides::View;
use std::alloc::{AllocError, Global};
use tested_steps::{Fault, derive};
use typing_rules::{
    NO_ENTRIES, NO_ENTRIES_GIVES, PAST_NAME, PAST_NAME_GIVES, PAST_VARIABLE, PAST_VARIABLE_GIVES,
    VARIABLE, VARIABLE_GIVES, WITH_ENTRY, WITH_ENTRY_GIVES, WITH_NAME, WITH_NAME_GIVES,
};
use values::{composed, identity};

/// What an entry is.
#[derive(Clone, Copy, Debug)]
enum Kind {
    /// A variable of this type, which stands before it.
    Variable(NodeId),
    /// A name of the interval.
    Name,
    /// A face that is true, by what leads from there to where it need not be.
    Face(NodeId),
}

/// An entry, and the context with it.
#[derive(Clone, Copy, Debug)]
struct Entry {
    ctx: NodeId,
    kind: Kind,
}

/// The entries of a place, the outermost first.
#[derive(Drop)]
pub(crate) struct Places {
    empty: NodeId,
    entries: Vec<Entry>,
}

impl Places {
    /// The place with no entries.
    pub(crate) fn new(alloc: Global, book: &mut Book) -> Result<Places, Fault> {
        let [empty]: [NodeId; 1] = derive(book, NO_ENTRIES, NO_ENTRIES_GIVES, &[], &[])?;
        Ok(Places {
            empty,
            entries: Vec::new(alloc),
        })
    }

    /// How many entries there are.
    pub(crate) fn depth(&self) -> usize {
        self.entries.len()
    }

    /// The node of the context of the first so many entries.
    fn context_at(&self, depth: usize) -> NodeId {
        match self.entries.as_slice().get(depth.wrapping_sub(1)) {
            Some(entry) if depth > 0 => entry.ctx,
            _ => self.empty,
        }
    }

    /// The node of the context.
    pub(crate) fn ctx(&self) -> NodeId {
        self.context_at(self.entries.len())
    }

    fn push(&mut self, ctx: NodeId, kind: Kind) -> Result<(), AllocError> {
        self.entries.push(Entry { ctx, kind })?;
        Ok(())
    }

    /// Goes under a variable of this type.
    pub(crate) fn enter(&mut self, book: &mut Book, ty: NodeId) -> Result<(), Fault> {
        let [ctx]: [NodeId; 1] = derive(book, WITH_ENTRY, WITH_ENTRY_GIVES, &[], &[ty])?;
        self.push(ctx, Kind::Variable(ty))?;
        Ok(())
    }

    /// Goes under a name of the interval.
    pub(crate) fn enter_name(&mut self, book: &mut Book) -> Result<(), Fault> {
        let [ctx]: [NodeId; 1] = derive(book, WITH_NAME, WITH_NAME_GIVES, &[], &[self.ctx()])?;
        self.push(ctx, Kind::Name)?;
        Ok(())
    }

    /// Goes to where a face is true.
    pub(crate) fn enter_face(&mut self, book: &mut Book, face: u64) -> Result<(), Fault> {
        let within = within_face(book, self.ctx(), face)?;
        self.push(within.ctx, Kind::Face(within.out))?;
        Ok(())
    }

    /// Leaves the last entry.
    pub(crate) fn leave(&mut self) {
        let _entry = self.entries.pop();
    }

    /// From the place to that of the first so many entries.
    pub(crate) fn weakening(&self, book: &mut Book, depth: usize) -> Result<NodeId, Fault> {
        let mut sub = identity(book, self.context_at(depth))?;
        for entry in self.entries.as_slice().iter().skip(depth) {
            sub = past(book, sub, entry.kind)?;
        }
        Ok(sub)
    }

    /// The place as a view of the one without its last entry.
    pub(crate) fn view(&self, book: &mut Book) -> Result<View, Fault> {
        let depth = self.entries.len().saturating_sub(1);
        Ok(View {
            ctx: self.ctx(),
            out: self.weakening(book, depth)?,
        })
    }

    /// The depth of the place with the variable or name of an index as its last entry.
    fn depth_of(&self, index: u32) -> Result<usize, Fault> {
        let mut left = index;
        let mut depth = self.entries.len();
        for entry in self.entries.as_slice().iter().rev() {
            match entry.kind {
                Kind::Face(_) => {}
                Kind::Variable(_) | Kind::Name => {
                    if left == 0 {
                        return Ok(depth);
                    }
                    left -= 1;
                }
            }
            depth = depth.saturating_sub(1);
        }
        Err(Fault::Misfit)
    }

    /// A variable, by its index, with its type.
    pub(crate) fn variable(&self, book: &mut Book, index: u32) -> Result<Inferred, Fault> {
        let depth = self.depth_of(index)?;
        let Some(entry) = self.entries.as_slice().get(depth.wrapping_sub(1)) else {
            return Err(Fault::Misfit);
        };
        let Kind::Variable(before) = entry.kind else {
            return Err(Fault::Misfit);
        };
        let sub = self.weakening(book, depth)?;
        let [term]: [NodeId; 1] = derive(book, VARIABLE, VARIABLE_GIVES, &[], &[sub, before])?;
        let sub = self.weakening(book, depth.saturating_sub(1))?;
        let ty = type_under(book, sub, before)?;
        Ok(Inferred { term, ty })
    }
}

/// A substitution from past one more entry.
fn past(book: &mut Book, sub: NodeId, kind: Kind) -> Result<NodeId, Fault> {
    let [sub]: [NodeId; 1] = match kind {
        Kind::Variable(ty) => { derive(book, PAST_VARIABLE, PAST_VARIABLE_GIVES, &[], &[sub, ty])? }
        Kind::Name => derive(book, PAST_NAME, PAST_NAME_GIVES, &[], &[sub])?,
        Kind::Face(out) => [composed(book, out, sub)?],
    };
    Ok(sub)
}
