//! What a tree is read as, and how the readings of kids are put together.

ghost use Rattle.std.specs.Prelude.{◌≡◌, ◌+◌, ℕ, suc, IsTrue, IfOk, option_copied};
ghost use Rattle.trees.specs.Trees.{Tree, Var, Make, NoTrees, More};
ghost use Rattle.trees.specs.Judgements.{Context};
ghost use Rattle.conditions.specs.Sides.{is_name};
ghost use Rattle.side_conditions.specs.Levels.{count_indices};
ghost use Rattle.side_conditions.specs.Shapes.{nullary_op, unary_op, binary_op, within};
ghost use Rattle.side_conditions.specs.Readings.{IsReadingOf, IsValued, Reads, form_in, face_in};

use crate::shapes::{Binary, Nullary, Unary};
use faces::{Face, Lattice};
use interval::Form;
use std::alloc::{AllocError, Global};

/// What is told of a tree that is read.
#[derive(Clone, Copy, Debug, PartialEq, Eq)]
pub enum Detail {
    /// Whether it is a formula or a face. Then each name is read as 0, so that no reading is long.
    Kind,
    /// Its value, too.
    Value,
}

/// A tree read as a formula or as a face.
#[derive(Drop)]
pub enum Reading {
    Form(Form),
    Face(Face),
}

impl Reading {
    /// The form, where it is that of a formula.
    pub fn form(&self) -> Option<&Form>
        ensures { option_copied result ≡ form_in self.now }
    {
        match self {
            Reading::Form(form) => Some(form),
            Reading::Face(_) => None,
        }
    }

    /// The face, where it is one.
    pub fn face(&self) -> Option<&Face>
        ensures { option_copied result ≡ face_in self.now }
    {
        match self {
            Reading::Form(_) => None,
            Reading::Face(face) => Some(face),
        }
    }

    /// That of a name, by its level.
    pub fn of_name(alloc: Global, level: u64, detail: Detail) -> Result<Reading, AllocError>
        ensures { IfOk result (λ reading. (G : Context) (k : ℕ) → count_indices G ≡ suc (level + k)
            → IsTrue (is_name G k) → IsReadingOf (IsValued detail) G (Var k) reading) }
    {
        match detail {
            Detail::Kind => Ok(Reading::Form(Form::zero(alloc)?)),
            Detail::Value => Ok(Reading::Form(Form::name(alloc, level)?)),
        }
    }

    /// That of an operator with no kid.
    pub fn of_nullary(alloc: Global, op: Nullary) -> Result<Reading, AllocError>
        ensures { IfOk result (λ reading. (detail : Detail) (G : Context)
            → IsReadingOf (IsValued detail) G (Make (nullary_op op) NoTrees) reading) }
    {
        match op {
            Nullary::Zero => Ok(Reading::Form(Form::zero(alloc)?)),
            Nullary::One => Ok(Reading::Form(Form::one(alloc)?)),
            Nullary::Bottom => Ok(Reading::Face(Face::bottom(alloc)?)),
            Nullary::Top => Ok(Reading::Face(Face::top(alloc)?)),
        }
    }

    /// That of an operator over one kid. None where it is no formula and no face. What `all` binds
    /// has the given level.
    pub fn of_unary(
        alloc: Global,
        op: Unary,
        kid: &Reading,
        level: u64,
    ) -> Result<Option<Reading>, AllocError>
        ensures { IfOk result (λ found. (detail : Detail) (G : Context) (t : Tree)
            → level ≡ count_indices G → IsReadingOf (IsValued detail) (within op G) t kid.now
            → Reads (IsValued detail) G (Make (unary_op op) (More t NoTrees)) found) }
    {
        match op {
            Unary::Neg => match kid.form() {
                Some(form) => Ok(Some(Reading::Form(form.neg()?))),
                None => Ok(None),
            },
            Unary::IsZero => match kid.form() {
                Some(form) => Ok(Some(Reading::Face(Face::eq(alloc, form, false)?))),
                None => Ok(None),
            },
            Unary::IsOne => match kid.form() {
                Some(form) => Ok(Some(Reading::Face(Face::eq(alloc, form, true)?))),
                None => Ok(None),
            },
            Unary::All => match kid.face() {
                Some(face) => Ok(Some(Reading::Face(face.forall(level)?))),
                None => Ok(None),
            },
        }
    }

    /// That of an operator over two kids. None where it is no formula and no face.
    pub fn of_binary(
        op: Binary,
        left: &Reading,
        right: &Reading,
    ) -> Result<Option<Reading>, AllocError>
        ensures { IfOk result (λ found. (detail : Detail) (G : Context) (s t : Tree)
            → IsReadingOf (IsValued detail) G s left.now
            → IsReadingOf (IsValued detail) G t right.now
            → Reads (IsValued detail) G (Make (binary_op op) (More s (More t NoTrees))) found) }
    {
        match op {
            Binary::Min => match (left.form(), right.form()) {
                (Some(left), Some(right)) => Ok(Some(Reading::Form(left.meet(right)?))),
                _ => Ok(None),
            },
            Binary::Max => match (left.form(), right.form()) {
                (Some(left), Some(right)) => Ok(Some(Reading::Form(left.join(right)?))),
                _ => Ok(None),
            },
            Binary::Meet => match (left.face(), right.face()) {
                (Some(left), Some(right)) => Ok(Some(Reading::Face(left.meet(right)?))),
                _ => Ok(None),
            },
            Binary::Join => match (left.face(), right.face()) {
                (Some(left), Some(right)) => Ok(Some(Reading::Face(left.join(right)?))),
                _ => Ok(None),
            },
        }
    }
}
