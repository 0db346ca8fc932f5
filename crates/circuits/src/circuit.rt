//! Circuits: gates, each kept once.

ghost use Rattle.circuits.specs.Circuits.{AreOrdered, IsOver-prop};

use crate::gates::{Gate, Wire};
use crate::search::can_be_true;
use indexmap::IndexMap;
use std::alloc::{AllocError, Global};

/// Gates over inputs. A gate has its place as number, and gates over the same kids are one.
#[derive(Drop)]
pub struct Circuit {
    gates: Vec<Gate>,
    /// Where a gate was put.
    places: IndexMap<Gate, usize>,
    ghost ordered: { AreOrdered gates.items } by { Prim.hlevel IsOver-prop },
}

impl Circuit {
    ghost use Rattle.std.specs.Prelude.{◌≡◌, ◌↔◌, ◌&&◌, ◌||◌, [], false, true, length, IfOk};
    ghost use Rattle.std.specs.Prelude.{IsTrue, OnOk, Some, slice_get};
    ghost use Rattle.std.specs.List.{All};
    ghost use Rattle.circuits.specs.declared.gates.Gate.TheVariants as kind;
    ghost use Rattle.circuits.specs.Circuits.{Labels, Obeys, IsIn, IsOver, CanBeTrue, wire_truth};
    ghost use Rattle.circuits.specs.Circuits.{IsGrown, IsPlaced};

    /// No gates.
    pub fn new(alloc: Global) -> Circuit
        ensures { result.gates.items ≡ [] }
    {
        Circuit {
            gates: Vec::new(alloc),
            places: IndexMap::new(alloc),
        }
    }

    /// The gates, each after its kids.
    pub fn gates(&self) -> &[Gate]
        ensures gates { result.now ≡ self.now.gates.items }
        ensures ordered { AreOrdered self.now.gates.items }
    {
        &self.gates
    }

    /// Puts a gate behind the others.
    fn push(&mut self, gate: Gate) -> Result<Wire, AllocError>
        requires { IsOver (length self.old.gates.items) gate }
        ensures grown { OnOk result (IsGrown self.old.gates.items self.new.gates.items) }
        ensures placed { IfOk result (IsPlaced self.new.gates.items gate) }
    {
        let wire = Wire {
            gate: self.gates.len(),
            negated: false,
        };
        self.gates.push(gate)?;
        Ok(wire)
    }

    /// One more input, as the wire that is true where it is.
    pub fn input(&mut self) -> Result<Wire, AllocError>
        ensures grown { OnOk result (IsGrown self.old.gates.items self.new.gates.items) }
        ensures placed { IfOk result (IsPlaced self.new.gates.items kind.Input) }
    {
        Ok(self.push(Gate::Input)?)
    }

    /// The wire of a gate that is no input, which is put behind the others if it is not there.
    fn place(&mut self, gate: Gate) -> Result<Wire, AllocError>
        requires { IsOver (length self.old.gates.items) gate }
        ensures grown { OnOk result (IsGrown self.old.gates.items self.new.gates.items) }
        ensures placed { IfOk result (IsPlaced self.new.gates.items gate) }
    {
        if let Some(at) = self.places.get(&gate) {
            let at = *at;
            if at < self.gates.len() && self.gates[at] == gate {
                return Ok(Wire {
                    gate: at,
                    negated: false,
                });
            }
        }
        let wire = self.push(gate)?;
        self.places.insert(gate, wire.gate)?;
        Ok(wire)
    }

    /// The wire that is true always.
    pub fn top(&mut self) -> Result<Wire, AllocError>
        ensures grown { OnOk result (IsGrown self.old.gates.items self.new.gates.items) }
        ensures within { IfOk result (IsIn self.new.gates.items) }
        ensures truth { IfOk result (λ x. (w : Labels) → Obeys self.new.gates.items w
            → wire_truth w x ≡ true) }
    {
        Ok(self.place(Gate::Top)?)
    }

    /// The wire that is true where both are.
    pub fn both(&mut self, left: Wire, right: Wire) -> Result<Wire, AllocError>
        requires left { IsIn self.old.gates.items left }
        requires right { IsIn self.old.gates.items right }
        ensures grown { OnOk result (IsGrown self.old.gates.items self.new.gates.items) }
        ensures within { IfOk result (IsIn self.new.gates.items) }
        ensures truth { IfOk result (λ x. (w : Labels) → Obeys self.new.gates.items w
            → wire_truth w x ≡ (wire_truth w left && wire_truth w right)) }
    {
        Ok(self.place(Gate::Both(left, right))?)
    }

    /// The wire that is true where one of them is.
    pub fn either(&mut self, left: Wire, right: Wire) -> Result<Wire, AllocError>
        requires left { IsIn self.old.gates.items left }
        requires right { IsIn self.old.gates.items right }
        ensures grown { OnOk result (IsGrown self.old.gates.items self.new.gates.items) }
        ensures within { IfOk result (IsIn self.new.gates.items) }
        ensures truth { IfOk result (λ x. (w : Labels) → Obeys self.new.gates.items w
            → wire_truth w x ≡ (wire_truth w left || wire_truth w right)) }
    {
        let neither = self.both(left.negation(), right.negation())?;
        Ok(neither.negation())
    }

    /// Whether truths of the inputs make all these wires true.
    pub fn can_be_true(&self, wires: &[Wire]) -> Result<bool, AllocError>
        requires { All (IsIn self.now.gates.items) wires.now }
        ensures { IfOk result (λ can. IsTrue can ↔ CanBeTrue self.now.gates.items wires.now) }
    {
        Ok(can_be_true(*self.gates.allocator(), &self.gates, wires)?)
    }
}
