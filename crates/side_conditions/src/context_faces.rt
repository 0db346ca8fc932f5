//! What holds, and what has one value, under the faces of a context.

ghost use Rattle.std.specs.Prelude.{IfOk, IfSome};
ghost use Rattle.side_conditions.specs.Contexts.{IsMeetOf};

use crate::alike::alike;
use crate::contexts::{faces_of, meet_of, names_of};
use crate::reading::{Detail, Reading};
use crate::restriction::same_under;
use crate::walk::read_row;
use faces::Face;
use interval::Form;
use rows::{CtxId, Reader, SubId, TermId};
use std::alloc::{AllocError, Global};

/// The names and the faces of a context, read once. It stands for the context of its row as long as
/// this row means the same.
#[derive(Drop)]
pub struct ContextFaces {
    ctx: CtxId,
    names: Vec<bool>,
    faces: Vec<Face>,
    met: Option<Face>,
}

impl ContextFaces {
    ghost use Rattle.std.specs.Prelude.{◌≡◌, ◌↔◌, IfOk, IfSome, IsTrue, MatchOption};
    ghost use Rattle.std.specs.Prelude.{option_copied};
    ghost use Rattle.trees.specs.Trees.{Tree};
    ghost use Rattle.trees.specs.Things.{Meanings};
    ghost use Rattle.rows.specs.Views.{IsTree, IsSubst, IsContext};
    ghost use Rattle.closures.specs.Closures.{subst_of};
    ghost use Rattle.conditions.specs.Sides.{is_formula, is_face, HoldsIn, SameIn, AlikeIn};
    ghost use Rattle.side_conditions.specs.Readings.{IsFormOf, IsFaceOf};
    ghost use Rattle.side_conditions.specs.Formulas.{IsFaceOr};
    ghost use Rattle.side_conditions.specs.Shapes.{tree_of};
    ghost use Rattle.side_conditions.specs.Contexts.{context_of, IsMeetOf};
    ghost use Rattle.side_conditions.specs.Held.{StandsFor};

    /// Reads the names and the faces of a context.
    pub fn read<R: Reader>(alloc: Global, rows: &R, ctx: CtxId) -> Result<ContextFaces, AllocError>
        requires { IsContext (R.means rows.now ctx.0) }
        ensures { IfOk result (StandsFor (R.means rows.now) ctx) }
    {
        let names = names_of(alloc, rows, ctx)?;
        let faces = faces_of(alloc, rows, &names, ctx)?;
        Ok(ContextFaces {
            ctx,
            names,
            faces,
            met: None,
        })
    }

    /// The row of the context.
    pub fn ctx(&self) -> CtxId
        ensures { result ≡ self.now.ctx }
    {
        self.ctx
    }

    /// The form of a formula, with its value under every valuation. None exactly where the tree is
    /// no formula over the names of the context. A name has its level as number.
    pub fn form_of<R: Reader>(&self, rows: &R, tree: TermId) -> Result<Option<Form>, AllocError>
        requires stands { StandsFor (R.means rows.now) self.now.ctx self.now }
        requires tree { IsTree (R.means rows.now tree.0) }
        ensures { IfOk result (λ found.
            let f = R.means rows.now in
            let G = context_of (f self.now.ctx.0) in
            let t = tree_of (f tree.0) in
            MatchOption found (IsTrue (is_formula G t) → ⊥) (IsFormOf G t)) }
    {
        match read_row(self.alloc(), rows, &self.names, Detail::Value, tree)? {
            Some(Reading::Form(form)) => Ok(Some(form)),
            Some(Reading::Face(_)) => Ok(None),
            None => Ok(None),
        }
    }

    /// The face of a tree, with its truth at every point. None exactly where the tree is no face
    /// over the names of the context. A name has its level as number.
    pub fn face_of<R: Reader>(&self, rows: &R, tree: TermId) -> Result<Option<Face>, AllocError>
        requires stands { StandsFor (R.means rows.now) self.now.ctx self.now }
        requires tree { IsTree (R.means rows.now tree.0) }
        ensures { IfOk result (λ found.
            let f = R.means rows.now in
            let G = context_of (f self.now.ctx.0) in
            let t = tree_of (f tree.0) in
            MatchOption found (IsTrue (is_face G t) → ⊥) (IsFaceOf G t)) }
    {
        match read_row(self.alloc(), rows, &self.names, Detail::Value, tree)? {
            Some(Reading::Face(face)) => Ok(Some(face)),
            Some(Reading::Form(_)) => Ok(None),
            None => Ok(None),
        }
    }

    /// Whether the tree is a face that is true at every point at which all faces of the context
    /// are.
    pub fn holds<R: Reader>(&self, rows: &R, tree: TermId) -> Result<bool, AllocError>
        requires stands { StandsFor (R.means rows.now) self.now.ctx self.now }
        requires tree { IsTree (R.means rows.now tree.0) }
        ensures { IfOk result (λ holds.
            let f = R.means rows.now in
            let G = context_of (f self.now.ctx.0) in
            let t = tree_of (f tree.0) in
            IsTrue holds ↔ (IsTrue (is_face G t) × HoldsIn G t)) }
    {
        match self.face_of(rows, tree)? {
            Some(face) => Ok(face.holds_under(&self.faces)?),
            None => Ok(false),
        }
    }

    /// Whether a tree is true at every point at which all faces of the context are, by its face. A
    /// tree that is no face is true at no point, so that this holds of it where the faces of the
    /// context are never true together.
    pub(crate) fn make_true(&self, face: Option<&Face>) -> Result<bool, AllocError>
        ensures { IfOk result (λ holds. (f : Meanings) → StandsFor f self.now.ctx self.now
            → let G = context_of (f self.now.ctx.0) in
            (t : Tree) → IsFaceOr G t (option_copied face.entry) → IsTrue holds ↔ HoldsIn G t) }
    {
        match face {
            Some(face) => Ok(face.holds_under(&self.faces)?),
            None => Ok(Face::bottom(self.alloc())?.holds_under(&self.faces)?),
        }
    }

    /// Whether two substitutions are alike: they have one shift, and push equally many trees, which
    /// are equal place by place, or formulas of one value wherever all faces of the context are
    /// true. After an error what the value stands for is as before.
    pub fn alike<R: Reader>(
        &mut self,
        rows: &R,
        left: SubId,
        right: SubId,
    ) -> Result<bool, AllocError>
        requires stands { StandsFor (R.means rows.now) self.old.ctx self.old }
        requires left { IsSubst (R.means rows.now left.0) }
        requires right { IsSubst (R.means rows.now right.0) }
        ensures stands { StandsFor (R.means rows.now) self.old.ctx self.new }
        ensures alike { let f = R.means rows.now in IfOk result (λ alike. IsTrue alike ↔
            AlikeIn (context_of (f self.old.ctx.0)) (subst_of (f left.0)) (subst_of (f right.0))) }
    {
        Ok(alike(rows, self, left, right)?)
    }

    /// Whether both trees are formulas, and of one value wherever all faces of the context are
    /// true. After an error what the value stands for is as before.
    pub fn same_form<R: Reader>(
        &mut self,
        rows: &R,
        left: TermId,
        right: TermId,
    ) -> Result<bool, AllocError>
        requires stands { StandsFor (R.means rows.now) self.old.ctx self.old }
        requires left { IsTree (R.means rows.now left.0) }
        requires right { IsTree (R.means rows.now right.0) }
        ensures stands { StandsFor (R.means rows.now) self.old.ctx self.new }
        ensures same { let f = R.means rows.now in IfOk result (λ same. IsTrue same ↔
            SameIn (context_of (f self.old.ctx.0)) (tree_of (f left.0)) (tree_of (f right.0))) }
    {
        let Some(left) = self.form_of(rows, left)? else {
            return Ok(false);
        };
        let Some(right) = self.form_of(rows, right)? else {
            return Ok(false);
        };
        Ok(self.same(&left, &right)?)
    }

    /// Whether two forms are of one value wherever all faces of the context are true.
    pub(crate) fn same(&mut self, left: &Form, right: &Form) -> Result<bool, AllocError>
        requires { IfSome self.old.met (IsMeetOf self.old.faces.items) }
        ensures stands { (f : Meanings) → StandsFor f self.old.ctx self.old
            → StandsFor f self.old.ctx self.new }
        ensures same { IfOk result (λ same. (f : Meanings) → StandsFor f self.old.ctx self.old
            → let G = context_of (f self.old.ctx.0) in (r s : Tree) → IsFormOf G r left.now
            → IsFormOf G s right.now → IsTrue same ↔ SameIn G r s) }
    {
        if left.same(right) {
            return Ok(true);
        }
        let met = met_or_meet(self.alloc(), self.met.take(), &self.faces)?;
        let same = same_under(&met, left, right)?;
        self.met = Some(met);
        Ok(same)
    }

    /// Whether each index of the context is that of a name, the innermost first.
    pub(crate) fn names(&self) -> &[bool]
        ensures { result.now ≡ self.now.names.items }
    {
        &self.names
    }

    /// The allocator that the lists keep.
    pub(crate) fn alloc(&self) -> Global {
        *self.faces.allocator()
    }
}

/// The meet of the faces, which may be there already.
fn met_or_meet(alloc: Global, met: Option<Face>, faces: &[Face]) -> Result<Face, AllocError>
    requires { IfSome met (IsMeetOf faces.now) }
    ensures { IfOk result (IsMeetOf faces.now) }
{
    match met {
        Some(met) => Ok(met),
        None => Ok(meet_of(alloc, faces)?),
    }
}
