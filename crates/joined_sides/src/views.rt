//! Contexts with faces and a name more, seen from where they are made.

use book::{Book, NodeId};
use eliminators::{at_formula, into_face, within_face};
use rows::Maker;
use tested_steps::{Fault, derive, substitution_row, try_instance, try_make};
use theory::Op;
use typing_rules::{PAST_NAME, PAST_NAME_GIVES, WITH_NAME, WITH_NAME_GIVES};
use values::{composed, identity};

/// Whether what stands where a face is true stands under one more name.
#[derive(Clone, Copy, Debug, PartialEq, Eq)]
pub enum Reach {
    /// In G.p.
    Face,
    /// In G.p.I.
    Line,
}

/// A context H that goes on from G by faces and names.
#[derive(Clone, Copy, Debug)]
pub struct View {
    /// `ctx H`
    pub ctx: NodeId,
    /// From H to G.
    pub out: NodeId,
}

impl View {
    /// A context as it stands.
    pub fn new(book: &mut Book, ctx: NodeId) -> Result<View, Fault> {
        let out = identity(book, ctx)?;
        Ok(View { ctx, out })
    }

    /// Where a face of G is true too.
    pub fn with_face(self, book: &mut Book, face: u64) -> Result<View, Fault> {
        let here = self.face(book, face)?;
        let within = within_face(book, self.ctx, here)?;
        let out = composed(book, within.out, self.out)?;
        Ok(View {
            ctx: within.ctx,
            out,
        })
    }

    /// Under one more name.
    pub fn with_name(self, book: &mut Book) -> Result<View, Fault> {
        let [ctx]: [NodeId; 1] = derive(book, WITH_NAME, WITH_NAME_GIVES, &[], &[self.ctx])?;
        let [out]: [NodeId; 1] = derive(book, PAST_NAME, PAST_NAME_GIVES, &[], &[self.out])?;
        Ok(View { ctx, out })
    }

    /// A face of G, in H.
    pub fn face(self, book: &mut Book, face: u64) -> Result<u64, Fault> {
        let row = substitution_row(book, self.out)?;
        try_instance(book, face, row)
    }
}

/// Where all of some faces of a context are true, under one more name if the reach says so.
pub fn where_all(book: &mut Book, ctx: NodeId, faces: &[u64], reach: Reach) -> Result<View, Fault> {
    let mut view = View::new(book, ctx)?;
    for face in faces {
        view = view.with_face(book, *face)?;
    }
    match reach {
        Reach::Face => Ok(view),
        Reach::Line => view.with_name(book),
    }
}

/// From a view to where some faces are true, which the view makes true; under a name at a formula.
pub fn into(
    book: &mut Book,
    from: View,
    faces: &[u64],
    reach: Reach,
    formula: u64,
) -> Result<NodeId, Fault> {
    let mut sub = from.out;
    for face in faces {
        sub = into_face(book, sub, *face)?;
    }
    match reach {
        Reach::Face => Ok(sub),
        Reach::Line => at_formula(book, sub, formula),
    }
}

/// What the name of a line is, seen from where there is this: the innermost name, or the start.
pub fn formula_at(book: &mut Book, reach: Reach) -> Result<u64, Fault> {
    match reach {
        Reach::Face => try_make(book, Op::I0, &[]),
        Reach::Line => Ok(book.var(0)?),
    }
}
