//! Equations of a name with an end of the interval.

use antichains::Element;
use interval::Literal;

/// That a name is at an end, 1 for `true` and 0 for `false`.
#[derive(Clone, Copy, Debug, PartialEq, Eq, PartialOrd, Ord)]
pub struct Equation {
    pub name: u64,
    pub end: bool,
}

impl Element for Equation {
    ghost use Rattle.std.proofs.Common.{rules};

    ghost exact = { Prim.search (rules) };
}

impl Equation {
    ghost use Rattle.std.specs.Prelude.{◌≡◌};
    ghost use Rattle.points.specs.Points.{Point, valuation_of};
    ghost use Rattle.interval.specs.Literals.{literal_value};
    ghost use Rattle.faces.specs.Equations.{opposite, equation_truth, equals_end};

    /// The equation that is true where the literal is equal to the end.
    pub fn of(literal: Literal, end: bool) -> Equation
        ensures { (x : Point) → equation_truth result x
            ≡ equals_end (literal_value literal (valuation_of x)) end }
    {
        Equation {
            name: literal.name,
            end: literal.negated != end,
        }
    }

    /// The equation of the same name with the other end.
    pub fn opposite(self) -> Equation
        ensures { result ≡ opposite self }
    {
        Equation {
            name: self.name,
            end: !self.end,
        }
    }
}
