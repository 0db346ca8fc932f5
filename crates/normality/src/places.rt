//! Where trees stand, and which operators compute there.

ghost use Rattle.std.specs.Prelude.{◌≡◌, ◌↔◌, IsTrue};
ghost use Rattle.trees.specs.Trees.{Trees, Make};
ghost use Rattle.normality.specs.Places as places;
ghost use Rattle.normality.specs.Places.{MayStand};

use trees::Op;

/// Where a tree stands: some operators would compute there.
#[derive(Clone, Copy, Debug, PartialEq, Eq, Hash)]
pub enum Place {
    Anywhere,
    /// What is applied.
    Function,
    /// What a projection is of.
    Pair,
    /// What is applied to a formula.
    Path,
    /// What recursion is over.
    Number,
    /// The line of a composition.
    Line,
    /// What is unglued.
    Glued,
}

/// How an operator is tested.
#[derive(Clone, Copy, Debug, PartialEq, Eq)]
pub enum Kind {
    ByKids,
    PathApplication,
    Composition,
    GlueType,
    Glue,
    Unglue,
    /// It is in no normal tree but in a formula, a face or a system.
    Never,
}

/// The place of a kid.
pub fn place_of(op: Op, at: u8) -> Place
    ensures { result ≡ places.place_of op at }
{
    match op {
        Op::App => {
            if at == 0 {
                Place::Function
            } else {
                Place::Anywhere
            }
        }
        Op::Fst | Op::Snd => {
            if at == 0 {
                Place::Pair
            } else {
                Place::Anywhere
            }
        }
        Op::NatRec => {
            if at == 3 {
                Place::Number
            } else {
                Place::Anywhere
            }
        }
        _ => Place::Anywhere,
    }
}

/// Whether no rule of computation fires for an operator at a place.
pub fn may_stand(place: Place, op: Op) -> bool
    ensures { (kids : Trees) → IsTrue result ↔ MayStand place (Make op kids) }
{
    match place {
        Place::Anywhere => true,
        Place::Function => op != Op::Lam,
        Place::Pair => op != Op::Pair,
        Place::Path => op != Op::PLam,
        Place::Number => op != Op::Zero && op != Op::Suc,
        Place::Line => {
            op != Op::Pi && op != Op::Sig && op != Op::PathP && op != Op::GlueType && op != Op::U
        }
        Place::Glued => op != Op::Glue,
    }
}

/// How an operator is tested.
pub fn kind_of(op: Op) -> Kind
    ensures { result ≡ places.kind_of op }
{
    match op {
        Op::PApp => Kind::PathApplication,
        Op::Comp => Kind::Composition,
        Op::GlueType => Kind::GlueType,
        Op::Glue => Kind::Glue,
        Op::Unglue => Kind::Unglue,
        Op::U
        | Op::Pi
        | Op::Lam
        | Op::App
        | Op::Sig
        | Op::Pair
        | Op::Fst
        | Op::Snd
        | Op::PathP
        | Op::PLam
        | Op::Nat
        | Op::Zero
        | Op::Suc
        | Op::NatRec => Kind::ByKids,
        Op::I0
        | Op::I1
        | Op::Neg
        | Op::Min
        | Op::Max
        | Op::F0
        | Op::F1
        | Op::Eq0
        | Op::Eq1
        | Op::Meet
        | Op::Join
        | Op::All
        | Op::Sys
        | Op::Empty => Kind::Never,
    }
}
