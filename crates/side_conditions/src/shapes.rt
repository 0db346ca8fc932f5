//! What stands outermost in a formula or a face.

use crate::subtree::Subtree;
use trees::Op;

/// A formula or a face with no kid.
#[derive(Clone, Copy, Debug, PartialEq, Eq)]
pub enum Nullary {
    /// The formula 0.
    Zero,
    /// The formula 1.
    One,
    /// The face that is true nowhere.
    Bottom,
    /// The face that is true everywhere.
    Top,
}

/// An operator over one formula or face.
#[derive(Clone, Copy, Debug, PartialEq, Eq)]
pub enum Unary {
    /// The negation of a formula.
    Neg,
    /// The face where a formula is 0.
    IsZero,
    /// The face where a formula is 1.
    IsOne,
    /// The face that is true where its kid is with the bound name free.
    All,
}

/// An operator over two formulas or two faces.
#[derive(Clone, Copy, Debug, PartialEq, Eq)]
pub enum Binary {
    /// The meet of formulas.
    Min,
    /// The join of formulas.
    Max,
    /// The meet of faces.
    Meet,
    /// The join of faces.
    Join,
}

/// An operator of formulas and faces.
#[derive(Clone, Copy, Debug, PartialEq, Eq)]
pub enum Connective {
    Nullary(Nullary),
    Unary(Unary),
    Binary(Binary),
}

impl Connective {
    ghost use Rattle.std.specs.Prelude.{◌≡◌};
    ghost use Rattle.side_conditions.specs.Shapes.{connective_of};

    /// The operator among those of formulas and faces, if it is one.
    pub fn of(op: Op) -> Option<Connective>
        ensures { result ≡ connective_of op }
    {
        match op {
            Op::I0 => Some(Connective::Nullary(Nullary::Zero)),
            Op::I1 => Some(Connective::Nullary(Nullary::One)),
            Op::F0 => Some(Connective::Nullary(Nullary::Bottom)),
            Op::F1 => Some(Connective::Nullary(Nullary::Top)),
            Op::Neg => Some(Connective::Unary(Unary::Neg)),
            Op::Eq0 => Some(Connective::Unary(Unary::IsZero)),
            Op::Eq1 => Some(Connective::Unary(Unary::IsOne)),
            Op::All => Some(Connective::Unary(Unary::All)),
            Op::Min => Some(Connective::Binary(Binary::Min)),
            Op::Max => Some(Connective::Binary(Binary::Max)),
            Op::Meet => Some(Connective::Binary(Binary::Meet)),
            Op::Join => Some(Connective::Binary(Binary::Join)),
            _ => None,
        }
    }
}

/// What stands outermost in a formula or a face.
#[derive(Clone, Copy, Debug)]
pub enum Shape {
    /// The name of this level.
    Name(u64),
    Nullary(Nullary),
    Unary(Unary, Subtree),
    Binary(Binary, Subtree, Subtree),
}
