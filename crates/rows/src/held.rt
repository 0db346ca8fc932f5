//! Rows as they are held in memory.

ghost use Rattle.std.specs.Prelude.{◌≡◌, ◌≤◌, IfOk};
ghost use Rattle.rows.specs.Counts.{most_counted};

use crate::views::{CtxRow, SubId, SubRow, TermId};
use std::alloc::AllocError;
use trees::{Op, PartKind, kid_count};

/// The number up to which pushed trees are counted: 2^127 - 1.
pub const MOST_COUNTED: u128 = u128::MAX / 2;

/// A row as it is held. Numbers of rows take half the room that they take elsewhere.
#[derive(Clone, Copy, Debug)]
pub enum Held {
    /// The variable of this index.
    Var(u32),
    /// An operator, whose kids stand in the list of kids from this place on.
    Make(Op, u32),
    /// A tree under a substitution.
    Instance(u32, u32),
    /// The substitution at this place of the list of substitutions.
    Subst(u32),
    /// The empty context.
    CtxNil,
    /// A context with a variable of a type.
    CtxVar(u32, u32),
    /// A context with a name.
    CtxName(u32),
    /// A context with a face.
    CtxFace(u32, u32),
}

/// A substitution, with its size.
#[derive(Clone, Copy, Debug)]
pub struct HeldSub {
    pub row: HeldSubRow,
    pub size: HeldSize,
}

/// The row of a substitution as it is held.
#[derive(Clone, Copy, Debug)]
pub enum HeldSubRow {
    /// The shift by so many.
    Shift(u64),
    /// A substitution with a tree pushed on it.
    Push(u32, u32),
    /// The first substitution, then the second.
    Then(u32, u32),
}

/// How many trees a substitution pushes, counted up to a bound that is far above 2^64, and its
/// shift.
#[derive(Clone, Copy, Debug)]
pub struct HeldSize {
    pub pushed: u128,
    pub shift: u64,
    ghost few: { pushed ≤ most_counted },
}

impl HeldSize {
    ghost use Rattle.std.specs.Prelude.{◌≡◌, ◌≤◌, ◌<◌, ◌+◌, ◌-◌, ◌^◌, min};
    ghost use Rattle.rows.specs.Counts.{most_counted};

    /// That of a shift.
    pub fn of_shift(by: u64) -> HeldSize
        ensures pushed { result.pushed ≡ 0 }
        ensures shift { result.shift ≡ by }
    {
        HeldSize {
            pushed: 0,
            shift: by,
        }
    }

    /// That with one more tree pushed.
    pub fn with_tree(self) -> HeldSize
        ensures pushed { result.pushed ≡ min (self.pushed + 1) most_counted }
        ensures shift { result.shift ≡ self.shift }
    {
        HeldSize {
            pushed: (self.pushed + 1).min(MOST_COUNTED),
            shift: self.shift,
        }
    }

    /// That of this substitution and then the second, whose first trees the shift of this drops.
    pub fn then(self, second: HeldSize) -> HeldSize
        requires { self.shift + second.shift < 2 ^ 64 }
        ensures pushed { result.pushed ≡
            min (self.pushed + (second.pushed - self.shift)) most_counted }
        ensures shift { result.shift ≡ second.shift + (self.shift - second.pushed) }
    {
        let dropped = u128::from(self.shift);
        let kept = second.pushed.saturating_sub(dropped);
        let past = dropped.saturating_sub(second.pushed) as u64;
        HeldSize {
            pushed: (self.pushed + kept).min(MOST_COUNTED),
            shift: second.shift + past,
        }
    }
}

impl Held {
    ghost use Rattle.std.specs.Prelude.{◌≡◌, [], IfOk, IsTrue};
    ghost use Rattle.trees.specs.Things.{Meanings};
    ghost use Rattle.rows.specs.Views.{ctx_meaning};
    ghost use Rattle.rows.specs.Held.{held_meaning, is_alone, kind_held, kid_cells, sub_cells};

    /// A row of a context, as it is held.
    pub fn of_context(row: CtxRow) -> Result<Held, AllocError>
        ensures alone { IfOk result (λ held. IsTrue (is_alone held)) }
        ensures meaning { IfOk result (λ held. (f : Meanings) →
            held_meaning f [] [] held ≡ ctx_meaning f row) }
    {
        match row {
            CtxRow::Nil => Ok(Held::CtxNil),
            CtxRow::Var(ctx, ty) => Ok(Held::CtxVar(kept(ctx.0)?, kept(ty.0)?)),
            CtxRow::Name(ctx) => Ok(Held::CtxName(kept(ctx.0)?)),
            CtxRow::Face(ctx, face) => Ok(Held::CtxFace(kept(ctx.0)?, kept(face.0)?)),
        }
    }

    /// What kind of thing the row means.
    #[inline(always)]
    pub fn kind(&self) -> PartKind
        ensures { result ≡ kind_held self.now }
    {
        match self {
            Held::Var(_) | Held::Make(_, _) | Held::Instance(_, _) => PartKind::Term,
            Held::Subst(_) => PartKind::Subst,
            Held::CtxNil | Held::CtxVar(_, _) | Held::CtxName(_) | Held::CtxFace(_, _) =>
                PartKind::Context,
        }
    }

    /// How many kids stand beside it.
    pub fn kids_beside(&self) -> usize
        ensures { result ≡ kid_cells self.now }
    {
        match self {
            Held::Make(op, _) => kid_count(*op) as usize,
            _ => 0,
        }
    }

    /// How many substitutions stand beside it.
    pub fn subs_beside(&self) -> usize
        ensures { result ≡ sub_cells self.now }
    {
        match self {
            Held::Subst(_) => 1,
            _ => 0,
        }
    }
}

impl HeldSubRow {
    ghost use Rattle.std.specs.Prelude.{◌≡◌, IfOk};
    ghost use Rattle.trees.specs.Things.{Meanings};
    ghost use Rattle.rows.specs.Views.{sub_meaning, sub_names};
    ghost use Rattle.rows.specs.Held.{held_row_meaning, held_row_names};

    /// A row as it is held.
    pub fn of(row: SubRow) -> Result<HeldSubRow, AllocError>
        ensures { IfOk result (λ held. (f : Meanings) →
            held_row_meaning f held ≡ sub_meaning f row) }
    {
        match row {
            SubRow::Shift(by) => Ok(HeldSubRow::Shift(by)),
            SubRow::Push(sub, term) => Ok(HeldSubRow::Push(kept(sub.0)?, kept(term.0)?)),
            SubRow::Then(first, second) => Ok(HeldSubRow::Then(kept(first.0)?, kept(second.0)?)),
        }
    }

    /// The row.
    #[inline(always)]
    pub fn row(self) -> SubRow
        ensures meaning { (f : Meanings) → held_row_meaning f self ≡ sub_meaning f result }
        ensures names { held_row_names self ≡ sub_names result }
    {
        match self {
            HeldSubRow::Shift(by) => SubRow::Shift(by),
            HeldSubRow::Push(sub, term) => SubRow::Push(
                SubId(u64::from(sub)),
                TermId(u64::from(term)),
            ),
            HeldSubRow::Then(first, second) => SubRow::Then(
                SubId(u64::from(first)),
                SubId(u64::from(second)),
            ),
        }
    }
}

/// A number of a row as it is kept, in half the room. Out of memory is the answer where there are
/// more rows than such numbers.
#[inline(always)]
pub fn kept(number: u64) -> Result<u32, AllocError>
    ensures { IfOk result (λ kept. kept ≡ number) }
{
    match u32::try_from(number) {
        Ok(kept) => Ok(kept),
        Err(_) => Err(AllocError),
    }
}
