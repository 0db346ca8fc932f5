//! What the kids of operators are.

ghost use Rattle.std.specs.Prelude.{◌≡◌, slice_get};
ghost use Rattle.trails.specs.Parts.{parts_of, is_made};
ghost use Rattle.trails.specs.Trails.{sort_of, face_at};

use crate::station::Sort;
use theory::Op;

/// What a kid of an operator is, and in which context it stands.
#[derive(Clone, Copy, Debug, PartialEq, Eq)]
pub(crate) enum Part {
    /// A term or a type.
    Term,
    /// A formula.
    Formula,
    /// A face.
    Face,
    /// A type over the first kid.
    Family,
    /// A type over the natural numbers.
    Motive,
    /// A type at a name.
    Line,
    /// A system on the face that is the kid at this place.
    Sides(u8),
    /// A system at a name, on the face that is the kid at this place.
    Lines(u8),
}

/// The kids of an operator of terms that no eta rule takes apart; of any other, none.
fn parts_of(op: Op) -> &'static [Part]
    ensures { result.now ≡ parts_of op }
{
    match op {
        Op::Suc | Op::Fst | Op::Snd => &[Part::Term],
        Op::App => &[Part::Term, Part::Term],
        Op::PApp => &[Part::Term, Part::Formula],
        Op::Pi | Op::Sig => &[Part::Term, Part::Family],
        Op::NatRec => &[Part::Motive, Part::Term, Part::Term, Part::Term],
        Op::PathP => &[Part::Line, Part::Term, Part::Term],
        Op::Comp => &[Part::Line, Part::Face, Part::Lines(1), Part::Term],
        Op::GlueType => &[Part::Term, Part::Face, Part::Sides(1), Part::Sides(1)],
        Op::Unglue => &[Part::Face, Part::Sides(0), Part::Sides(0), Part::Term],
        _ => &[],
    }
}

/// What the kid at a place of an operator is.
pub(crate) fn part_at(op: Op, at: u8) -> Option<Part>
    ensures { result ≡ slice_get (parts_of op) at }
{
    parts_of(op).get(usize::from(at)).copied()
}

/// Whether an eta rule takes an operator apart.
pub(crate) fn is_made(op: Op) -> bool
    ensures { result ≡ is_made op }
{
    matches!(&op, Op::Lam | Op::Pair | Op::PLam | Op::Glue)
}

impl Part {
    /// What the two kids are to which a step leads, unless they stand under a face.
    pub(crate) fn sort(self) -> Option<Sort>
        ensures { result ≡ sort_of self }
    {
        match self {
            Part::Formula => Some(Sort::Formula),
            Part::Face => Some(Sort::Face),
            Part::Sides(_) | Part::Lines(_) => None,
            Part::Term | Part::Family | Part::Motive | Part::Line => Some(Sort::Term),
        }
    }

    /// The place of the face above the kid.
    pub(crate) fn face(self) -> Option<u8>
        ensures { result ≡ face_at self }
    {
        match self {
            Part::Sides(place) | Part::Lines(place) => Some(place),
            _ => None,
        }
    }
}
