//! Judgements by the numbers of rows.

ghost use Rattle.std.specs.Prelude.{◌≡◌};
ghost use Rattle.trees.specs.Claims.{form_of, rows_of};

use std::marker::Model;

/// The form of a judgement.
#[derive(Clone, Copy, Debug, PartialEq, Eq)]
pub enum JudgementForm {
    /// `ctx G`
    Ctx,
    /// `G >> A`
    Ty,
    /// `G >> A = B`
    TyEq,
    /// `G >> a : A`
    Tm,
    /// `G >> a = b : A`
    TmEq,
    /// `d : H to G`
    Sb,
}

/// A judgement whose context, trees and substitution are named by the numbers of their rows, in the
/// order in which the judgement is written.
#[derive(Clone, Copy, Debug, PartialEq, Eq)]
pub enum Claim {
    /// `ctx G`
    Ctx(u64),
    /// `G >> A`
    Ty(u64, u64),
    /// `G >> A = B`
    TyEq(u64, u64, u64),
    /// `G >> a : A`
    Tm(u64, u64, u64),
    /// `G >> a = b : A`
    TmEq(u64, u64, u64, u64),
    /// `d : H to G`, as H, d and G
    Sb(u64, u64, u64),
}

/// The rows of a claim, held in place. Contracts see the list of their numbers.
#[derive(Drop)]
pub struct ClaimRows {
    cells: [u64; 4],
    count: usize,
}

impl Model for ClaimRows {
    ghost use Rattle.std.specs.Prelude.{ℕ, List, ◌≤◌, take};

    ghost Value = { List ℕ };

    ghost view = { λ s. take s.count s.cells };

    ghost invariant = { λ s. s.count ≤ 4 };
}

impl ClaimRows {
    pub fn as_slice(&self) -> &[u64]
        ensures { result.now ≡ self.now }
    {
        &self.cells[..self.count]
    }
}

impl Claim {
    pub fn form(&self) -> JudgementForm
        ensures { result ≡ form_of self.now }
    {
        match self {
            Claim::Ctx(_) => JudgementForm::Ctx,
            Claim::Ty(_, _) => JudgementForm::Ty,
            Claim::TyEq(_, _, _) => JudgementForm::TyEq,
            Claim::Tm(_, _, _) => JudgementForm::Tm,
            Claim::TmEq(_, _, _, _) => JudgementForm::TmEq,
            Claim::Sb(_, _, _) => JudgementForm::Sb,
        }
    }

    /// The numbers of the rows, in order.
    pub fn rows(&self) -> ClaimRows
        ensures { result ≡ rows_of self.now }
    {
        match *self {
            Claim::Ctx(g) => ClaimRows {
                cells: [g, 0, 0, 0],
                count: 1,
            },
            Claim::Ty(g, a) => ClaimRows {
                cells: [g, a, 0, 0],
                count: 2,
            },
            Claim::TyEq(g, a, b) | Claim::Tm(g, a, b) | Claim::Sb(g, a, b) => ClaimRows {
                cells: [g, a, b, 0],
                count: 3,
            },
            Claim::TmEq(g, a, b, t) => ClaimRows {
                cells: [g, a, b, t],
                count: 4,
            },
        }
    }
}
