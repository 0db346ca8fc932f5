//! What holds in the contexts of a book.

use crate::kernel::Book;
use faces::Face;
use interval::Form;
use rows::{CtxId, TermId};
use side_conditions::ContextFaces;
use std::alloc::AllocError;

impl Book {
    ghost use Rattle.std.specs.Prelude.{◌↔◌, IfOk, IsTrue, MatchOption};
    ghost use Rattle.rows.specs.Views.{IsTree, IsContext};
    ghost use Rattle.conditions.specs.Sides.{is_formula, is_face, HoldsIn, SameIn};
    ghost use Rattle.side_conditions.specs.Readings.{IsFormOf, IsFaceOf};
    ghost use Rattle.side_conditions.specs.Shapes.{tree_of};
    ghost use Rattle.side_conditions.specs.Contexts.{context_of};
    ghost use Rattle.side_conditions.specs.Held.{StandsFor};
    ghost use Rattle.book.specs.Shown.{book_means};

    /// The names and the faces of a context, read once for any number of questions under it.
    pub fn context_faces(&self, ctx: CtxId) -> Result<ContextFaces, AllocError>
        requires { IsContext (book_means self.now ctx.0) }
        ensures { IfOk result (StandsFor (book_means self.now) ctx) }
    {
        Ok(ContextFaces::read(self.alloc, &self.rows, ctx)?)
    }

    /// Whether a tree is a face that is true at every point at which all faces of the context are.
    pub fn holds(&self, ctx: CtxId, face: TermId) -> Result<bool, AllocError>
        requires ctx { IsContext (book_means self.now ctx.0) }
        requires face { IsTree (book_means self.now face.0) }
        ensures { let f = book_means self.now in
            let G = context_of (f ctx.0) in
            let p = tree_of (f face.0) in
            IfOk result (λ holds. IsTrue holds ↔ (IsTrue (is_face G p) × HoldsIn G p)) }
    {
        let faces = self.context_faces(ctx)?;
        Ok(faces.holds(&self.rows, face)?)
    }

    /// Whether two trees are formulas, and of one value wherever all faces of the context are true.
    pub fn same_form(&self, ctx: CtxId, left: TermId, right: TermId) -> Result<bool, AllocError>
        requires ctx { IsContext (book_means self.now ctx.0) }
        requires left { IsTree (book_means self.now left.0) }
        requires right { IsTree (book_means self.now right.0) }
        ensures { let f = book_means self.now in IfOk result (λ same. IsTrue same ↔
            SameIn (context_of (f ctx.0)) (tree_of (f left.0)) (tree_of (f right.0))) }
    {
        let mut faces = self.context_faces(ctx)?;
        Ok(faces.same_form(&self.rows, left, right)?)
    }

    /// The form of a formula, with its value under every valuation. None exactly where the tree is
    /// no formula over the names of the context. A name has its level as number.
    pub fn form_of(&self, ctx: CtxId, tree: TermId) -> Result<Option<Form>, AllocError>
        requires ctx { IsContext (book_means self.now ctx.0) }
        requires tree { IsTree (book_means self.now tree.0) }
        ensures { let f = book_means self.now in
            let G = context_of (f ctx.0) in
            let t = tree_of (f tree.0) in
            IfOk result (λ found.
            MatchOption found (IsTrue (is_formula G t) → ⊥) (IsFormOf G t)) }
    {
        let faces = self.context_faces(ctx)?;
        Ok(faces.form_of(&self.rows, tree)?)
    }

    /// The face of a tree, with its truth at every point. None exactly where the tree is no face
    /// over the names of the context. A name has its level as number.
    pub fn face_of(&self, ctx: CtxId, tree: TermId) -> Result<Option<Face>, AllocError>
        requires ctx { IsContext (book_means self.now ctx.0) }
        requires tree { IsTree (book_means self.now tree.0) }
        ensures { let f = book_means self.now in
            let G = context_of (f ctx.0) in
            let t = tree_of (f tree.0) in
            IfOk result (λ found.
            MatchOption found (IsTrue (is_face G t) → ⊥) (IsFaceOf G t)) }
    {
        let faces = self.context_faces(ctx)?;
        Ok(faces.face_of(&self.rows, tree)?)
    }
}
