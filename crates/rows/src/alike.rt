//! Rows that read alike.

use crate::views::{CtxRow, Row, SubRow, TermRow};
use trees::Op;

/// An odd number whose bits are mixed.
const FACTOR: u64 = 0x517c_c1b7_2722_0a95;

impl Row<'_> {
    ghost use Rattle.std.specs.Prelude.{◌≡◌, IsTrue};
    ghost use Rattle.trees.specs.Things.{Meanings};
    ghost use Rattle.rows.specs.Views.{row_meaning};

    /// Whether two rows read alike. Then they mean the same, whatever the rows mean that they name.
    #[inline(always)]
    pub fn reads_as(self, other: Row<'_>) -> bool
        ensures { IsTrue result → (f : Meanings) →
            row_meaning f self.entry ≡ row_meaning f other.entry }
    {
        match (self, other) {
            (Row::Term(row), Row::Term(other)) => row.reads_as(other),
            (Row::Subst(row), Row::Subst(other)) => row == other,
            (Row::Context(row), Row::Context(other)) => row == other,
            _ => false,
        }
    }

    /// A number that rows which read alike share, and others mostly do not.
    #[inline(always)]
    pub fn digest(self) -> u64 {
        match self {
            Row::Term(TermRow::Var(index)) => mixed(0, u64::from(index)),
            Row::Term(TermRow::Make(op, kids)) => mixed_kids(op, kids),
            Row::Term(TermRow::Instance(term, sub)) => mixed(mixed(2, term.0), sub.0),
            Row::Subst(SubRow::Shift(by)) => mixed(3, by),
            Row::Subst(SubRow::Push(sub, term)) => mixed(mixed(4, sub.0), term.0),
            Row::Subst(SubRow::Then(first, second)) => mixed(mixed(5, first.0), second.0),
            Row::Context(CtxRow::Nil) => mixed(6, 0),
            Row::Context(CtxRow::Var(ctx, ty)) => mixed(mixed(7, ctx.0), ty.0),
            Row::Context(CtxRow::Name(ctx)) => mixed(8, ctx.0),
            Row::Context(CtxRow::Face(ctx, face)) => mixed(mixed(9, ctx.0), face.0),
        }
    }
}

impl TermRow<'_> {
    ghost use Rattle.std.specs.Prelude.{◌≡◌, IsTrue};
    ghost use Rattle.trees.specs.Things.{Meanings};
    ghost use Rattle.rows.specs.Views.{term_meaning};

    /// Whether two rows of trees read alike. Then they mean the same, whatever the rows mean that
    /// they name.
    #[inline(always)]
    pub fn reads_as(self, other: TermRow<'_>) -> bool
        ensures { IsTrue result → (f : Meanings) →
            term_meaning f self.entry ≡ term_meaning f other.entry }
    {
        match (self, other) {
            (TermRow::Var(index), TermRow::Var(other)) => index == other,
            (TermRow::Make(op, kids), TermRow::Make(with, others)) => op == with && kids == others,
            (TermRow::Instance(term, sub), TermRow::Instance(other, with)) => term == other
                && sub == with,
            _ => false,
        }
    }
}

/// A digest with one more number, as in the hash of Firefox.
#[inline(always)]
fn mixed(digest: u64, number: u64) -> u64 {
    (digest.rotate_left(5) ^ number).wrapping_mul(FACTOR)
}

/// The digest of an operator over its kids.
#[inline(always)]
fn mixed_kids(op: Op, kids: &[u64]) -> u64 {
    let mut digest = mixed(1, u64::from(op as u8));
    for kid in kids {
        digest = mixed(digest, *kid);
    }
    digest
}
