//! What was read of a context, and of trees over it.

ghost use Rattle.std.specs.Prelude.{◌≡◌, Option, Some, IfOk, IsSome, OnOk};
ghost use Rattle.trees.specs.Judgements.{Context};
ghost use Rattle.rows.specs.Views.{IsTree};
ghost use Rattle.side_conditions.specs.declared.reading.Reading.{Reading as read_as};
ghost use Rattle.side_conditions.specs.declared.readings.Readings.{Readings as readings_of};
ghost use Rattle.side_conditions.specs.Held.{StandsFor};
ghost use Rattle.side_conditions.specs.Levels.{indices};
ghost use Rattle.side_conditions.specs.Readings.{IsValued, Reads};
ghost use Rattle.side_conditions.specs.Remembered.{AreKept};
ghost use Rattle.side_conditions.specs.Shapes.{tree_of};
ghost use Rattle.side_conditions.specs.Shown.{reading_at, IsForgotten};

use crate::context_faces::ContextFaces;
use crate::reading::Detail;
use crate::readings::Readings;
use crate::subtree::Subtree;
use crate::walk::read;
use closures::{Closure, Environments};
use conditions::SideTest;
use rows::{CtxId, Reader, SubId, TermId};
use std::alloc::{AllocError, Global};

/// The names and the faces of a context, and what trees of rows were read as over it: of some
/// whether they are formulas or faces, of others their values too.
#[derive(Drop)]
pub struct Asked {
    faces: ContextFaces,
    kinds: Readings,
    values: Readings,
}

/// Reads the tree of a row over the names of a context, unless what it was read as is remembered.
/// Rows before `mark` are remembered for later questions. The readings then have what this answers.
fn read_tree<R: Reader>(
    rows: &R,
    faces: &ContextFaces,
    detail: Detail,
    readings: &mut Readings,
    tree: TermId,
    mark: u64,
) -> Result<Subtree, AllocError>
    requires stands { StandsFor (R.means rows.now) faces.now.ctx faces.now }
    requires kept { AreKept (IsValued detail) (R.means rows.now) faces.now.names.items
        readings.old }
    requires tree { IsTree (R.means rows.now tree.0) }
    ensures mark { OnOk result (readings.new.mark ≡ mark) }
    ensures there { IfOk result (λ root. IsSome (reading_at readings.new root)) }
    ensures reads { IfOk result (λ root. (found : Option read_as)
        → reading_at readings.new root ≡ Some found
        → (G : Context) → indices G ≡ faces.now.names.items
        → Reads (IsValued detail) G (tree_of (R.means rows.now tree.0)) found) }
    ensures keeps { OnOk result ((after : readings_of) → IsForgotten readings.new after
        → AreKept (IsValued detail) (R.means rows.now) faces.now.names.items after) }
{
    readings.remember_below(mark);
    let root = Subtree::outermost(Closure::of_row(tree));
    let mut environments = Environments::new(faces.alloc());
    if !readings.contains(root) {
        read(
            faces.alloc(),
            rows,
            faces.names(),
            detail,
            &mut environments,
            readings,
            root,
        )?;
    }
    Ok(root)
}

impl Asked {
    ghost use Rattle.std.specs.Prelude.{◌≡◌, ◌↔◌, ◌<◌, ℕ, IfOk, IfSome, IsSome, IsTrue, OnOk};
    ghost use Rattle.conditions.specs.SideTests.{asked};
    ghost use Rattle.conditions.specs.Sides.{is_formula, is_face, HoldsIn, AlikeIn, SideHolds};
    ghost use Rattle.rows.specs.Views.{IsContext, IsTree, IsSubst};
    ghost use Rattle.closures.specs.Closures.{subst_of};
    ghost use Rattle.side_conditions.specs.Asked.{ctx_in};
    ghost use Rattle.side_conditions.specs.Contexts.{context_of};
    ghost use Rattle.side_conditions.specs.Kept.{IsAsked, IsAskedNext, StaysBelow};
    ghost use Rattle.side_conditions.specs.Shapes.{tree_of};

    /// Reads the names and the faces of a context.
    pub fn read<R: Reader>(alloc: Global, rows: &R, ctx: CtxId) -> Result<Asked, AllocError>
        requires { IsContext (R.means rows.now ctx.0) }
        ensures ctx { IfOk result (λ a. a.faces.ctx ≡ ctx) }
        ensures asked { IfOk result (IsAsked (R.means rows.now)) }
        ensures stays { IfOk result (λ a. (mark : ℕ) → ctx.0 < mark → StaysBelow mark a) }
    {
        Ok(Asked {
            faces: ContextFaces::read(alloc, rows, ctx)?,
            kinds: Readings::new(alloc),
            values: Readings::new(alloc),
        })
    }

    /// The row of the context.
    pub fn ctx(&self) -> CtxId
        ensures { result ≡ self.now.faces.ctx }
    {
        self.faces.ctx()
    }

    /// Whether the tree is a formula over the names of the context. No normal form is made.
    fn accepts_formula<R: Reader>(
        &mut self,
        rows: &R,
        tree: TermId,
        mark: u64,
    ) -> Result<bool, AllocError>
        requires asked { IsAsked (R.means rows.now) self.old }
        requires tree { IsTree (R.means rows.now tree.0) }
        ensures next { OnOk result (IsAskedNext (R.means rows.now) mark self.old self.new) }
        ensures accepts { let f = R.means rows.now in
            IfOk result (λ accepts. IsTrue accepts ↔
            IsTrue (is_formula (context_of (f self.old.faces.ctx.0)) (tree_of (f tree.0)))) }
    {
        let root = read_tree(rows, &self.faces, Detail::Kind, &mut self.kinds, tree, mark)?;
        let accepts = self.kinds.form(root).is_some();
        self.kinds.forget();
        Ok(accepts)
    }

    /// Whether the tree is a face over the names of the context. No normal form is made.
    fn accepts_face<R: Reader>(
        &mut self,
        rows: &R,
        tree: TermId,
        mark: u64,
    ) -> Result<bool, AllocError>
        requires asked { IsAsked (R.means rows.now) self.old }
        requires tree { IsTree (R.means rows.now tree.0) }
        ensures next { OnOk result (IsAskedNext (R.means rows.now) mark self.old self.new) }
        ensures accepts { let f = R.means rows.now in
            IfOk result (λ accepts. IsTrue accepts ↔
            IsTrue (is_face (context_of (f self.old.faces.ctx.0)) (tree_of (f tree.0)))) }
    {
        let root = read_tree(rows, &self.faces, Detail::Kind, &mut self.kinds, tree, mark)?;
        let accepts = self.kinds.face(root).is_some();
        self.kinds.forget();
        Ok(accepts)
    }

    /// Whether the tree is true at every point at which all faces of the context are.
    fn follows<R: Reader>(&mut self, rows: &R, tree: TermId, mark: u64) -> Result<bool, AllocError>
        requires asked { IsAsked (R.means rows.now) self.old }
        requires tree { IsTree (R.means rows.now tree.0) }
        ensures next { OnOk result (IsAskedNext (R.means rows.now) mark self.old self.new) }
        ensures follows { let f = R.means rows.now in IfOk result (λ follows. IsTrue follows ↔
            HoldsIn (context_of (f self.old.faces.ctx.0)) (tree_of (f tree.0))) }
    {
        let root = read_tree(
            rows,
            &self.faces,
            Detail::Value,
            &mut self.values,
            tree,
            mark,
        )?;
        let follows = self.faces.make_true(self.values.face(root))?;
        self.values.forget();
        Ok(follows)
    }

    /// Whether the side condition holds that a test over this context asks for. What is read of
    /// rows before `mark` is kept for later tests.
    pub fn decide<R: Reader>(
        &mut self,
        rows: &R,
        test: SideTest,
        mark: u64,
    ) -> Result<bool, AllocError>
        requires asked { IsAsked (R.means rows.now) self.old }
        requires context { self.old.faces.ctx.0 ≡ ctx_in test }
        requires test { IsSome (asked (R.means rows.now) test) }
        ensures next { OnOk result (IsAskedNext (R.means rows.now) mark self.old self.new) }
        ensures holds { let condition = asked (R.means rows.now) test in
            IfOk result (λ holds. IfSome condition (λ c. IsTrue holds ↔ SideHolds c)) }
    {
        match test {
            SideTest::IsFormula(_, r) => Ok(self.accepts_formula(rows, TermId(r), mark)?),
            SideTest::IsFace(_, p) => Ok(self.accepts_face(rows, TermId(p), mark)?),
            SideTest::Holds(_, p) => Ok(self.follows(rows, TermId(p), mark)?),
            SideTest::Alike(_, d, e) => Ok(self.faces.alike(rows, SubId(d), SubId(e))?),
        }
    }
}
