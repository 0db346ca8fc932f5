//! Gates and wires.

/// The truth of a gate, or the negation of it.
#[derive(Clone, Copy, Debug, PartialEq, Eq, Hash)]
pub struct Wire {
    /// The number of the gate in its circuit.
    pub gate: usize,
    pub negated: bool,
}

/// What is true where its kids, which are wires of earlier gates, say so.
#[derive(Clone, Copy, Debug, PartialEq, Eq, Hash)]
pub enum Gate {
    /// True always.
    Top,
    /// True where it is said to be.
    Input,
    /// True where both wires are.
    Both(Wire, Wire),
}

impl Wire {
    ghost use Rattle.std.specs.Prelude.{◌≡◌, not};
    ghost use Rattle.circuits.specs.Circuits.{Labels, wire_truth};

    /// The wire that is true where this one is not.
    pub fn negation(self) -> Wire
        ensures gate { result.gate ≡ self.gate }
        ensures truth { (w : Labels) → wire_truth w result ≡ not (wire_truth w self) }
    {
        Wire {
            gate: self.gate,
            negated: !self.negated,
        }
    }
}
