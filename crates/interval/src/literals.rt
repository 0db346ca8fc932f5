//! Names of the interval and their negations.

use antichains::Element;

/// A name of the interval, or its negation.
#[derive(Clone, Copy, Debug, PartialEq, Eq, PartialOrd, Ord)]
pub struct Literal {
    pub name: u64,
    pub negated: bool,
}

impl Element for Literal {
    ghost use Rattle.std.proofs.Common.{rules};

    ghost exact = { Prim.search (rules) };
}

impl Literal {
    ghost use Rattle.std.specs.Prelude.{◌≡◌};
    ghost use Rattle.points.specs.Values.{Valuation, negation};
    ghost use Rattle.interval.specs.Literals.{literal_value};

    /// The negation of this literal.
    pub fn negation(self) -> Literal
        ensures { (valuation : Valuation) →
            literal_value result valuation ≡ negation (literal_value self valuation) }
    {
        Literal {
            name: self.name,
            negated: !self.negated,
        }
    }
}
