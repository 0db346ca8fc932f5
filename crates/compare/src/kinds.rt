//! What the rows of a claim mean.

ghost use Rattle.compare.specs.Kinds.{AreKindsOf};

use trees::{JudgementForm, PartKind};

/// What the rows of a claim are, in order.
pub fn kinds(form: JudgementForm) -> &'static [PartKind]
    ensures { AreKindsOf form result.now }
{
    match form {
        JudgementForm::Ctx => &[PartKind::Context],
        JudgementForm::Ty => &[PartKind::Context, PartKind::Term],
        JudgementForm::TyEq | JudgementForm::Tm => &[
            PartKind::Context,
            PartKind::Term,
            PartKind::Term,
        ],
        JudgementForm::TmEq => &[
            PartKind::Context,
            PartKind::Term,
            PartKind::Term,
            PartKind::Term,
        ],
        JudgementForm::Sb => &[PartKind::Context, PartKind::Subst, PartKind::Context],
    }
}
