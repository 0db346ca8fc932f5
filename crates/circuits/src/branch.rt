//! A branch of the search: what is fixed in it, and what is still to be seen to.

ghost use Rattle.std.specs.Prelude.{◌<◌, length};

use crate::gates::{Gate, Wire};
use std::alloc::{AllocError, Global};

/// What is fixed of the truths of gates, and what is to be made true.
#[derive(Drop)]
pub struct Branch {
    /// Of each gate its truth, where that is fixed.
    pub known: Vec<Option<bool>>,
    /// Wires that are to be true.
    pub wanted: Vec<Wire>,
    /// Gates that are fixed as false and of which no kid was found false yet.
    pub unsettled: Vec<usize>,
}

/// What two wires ask for that are not both true.
#[derive(Clone, Copy, Debug)]
pub enum Asks {
    /// Nothing more: one is false.
    Nothing,
    /// That this wire is true.
    One(Wire),
    /// That one of them is false.
    Either,
}

impl Branch {
    ghost use Rattle.std.specs.Prelude.{◌≡◌, ◌<◌, ◌≤◌, ◌+◌, ◌*◌, IfOk, OnOk, IsTrue, length};
    ghost use Rattle.std.specs.Prelude.{IfSome, IsNone};
    ghost use Rattle.std.specs.Prelude.{◌⊎◌, ◌++◌, ◌∷◌, [], slice_get, Some, None, false};
    ghost use Rattle.std.specs.List.{All};
    ghost use Rattle.circuits.specs.Circuits.{Labels, wire_truth, Obeys, AreOrdered, IsIn};
    ghost use Rattle.circuits.specs.Branches.{IsWithin, Fits, AsksOf, IsTakenOut, weight};

    /// Nothing is fixed, and these wires are to be true.
    pub fn new(alloc: Global, gates: &[Gate], goals: &[Wire]) -> Result<Branch, AllocError>
        requires goals { All (IsIn gates.now) goals.now }
        ensures within { IfOk result (IsWithin gates.now) }
        ensures fits { IfOk result (λ b. (w : Labels) →
            All (λ x. IsTrue (wire_truth w x)) goals.now → Fits w b) }
    {
        let mut known = Vec::with_capacity(alloc, gates.len())?;
        for gate in gates {
            known.push(None)?;
        }
        Ok(Branch {
            known,
            wanted: Vec::from_slice(alloc, goals)?,
            unsettled: Vec::new(alloc),
        })
    }

    /// The same branch once more.
    pub fn copied(&self, alloc: Global) -> Result<Branch, AllocError>
        ensures known { IfOk result (λ b. b.known.items ≡ self.now.known.items) }
        ensures wanted { IfOk result (λ b. b.wanted.items ≡ self.now.wanted.items) }
        ensures unsettled { IfOk result (λ b. b.unsettled.items ≡ self.now.unsettled.items) }
    {
        Ok(Branch {
            known: Vec::from_slice(alloc, &self.known)?,
            wanted: Vec::from_slice(alloc, &self.wanted)?,
            unsettled: Vec::from_slice(alloc, &self.unsettled)?,
        })
    }

    /// Whether a wire is fixed as true.
    fn is_known(&self, wire: Wire) -> bool
        requires { wire.gate < length self.now.known.items }
        ensures { (w : Labels) → Fits w self.now → IsTrue result → IsTrue (wire_truth w wire) }
    {
        match self.known[wire.gate] {
            Some(truth) => truth != wire.negated,
            None => false,
        }
    }

    /// Fixes the gate of a wire so that the wire is true. False where it cannot be.
    pub fn fix(&mut self, gates: &[Gate], wire: Wire) -> Result<bool, AllocError>
        requires ordered { AreOrdered gates.now }
        requires within { IsWithin gates.now self.old }
        requires wire { IsIn gates.now wire }
        ensures within { OnOk result (IsWithin gates.now self.new) }
        ensures fits { IfOk result (λ can. (w : Labels) → Obeys gates.now w → Fits w self.old
            → IsTrue (wire_truth w wire) → IsTrue can × Fits w self.new) }
        ensures no_more { OnOk result (weight self.new ≤ weight self.old) }
        ensures less { OnOk result (slice_get self.old.known.items wire.gate ≡ Some None
            → weight self.new < weight self.old) }
    {
        let truth = !wire.negated;
        if let Some(known) = self.known[wire.gate] {
            return Ok(known == truth);
        }
        self.known[wire.gate] = Some(truth);
        let gate = gates[wire.gate];
        match gate {
            Gate::Top => Ok(truth),
            Gate::Input => Ok(true),
            Gate::Both(left, right) => {
                if truth {
                    self.wanted.push(left)?;
                    self.wanted.push(right)?;
                } else {
                    self.unsettled.push(wire.gate)?;
                }
                Ok(true)
            }
        }
    }

    /// Fixes the gates of all wires that are to be true. False where that cannot be.
    fn fix_wanted(&mut self, gates: &[Gate]) -> Result<bool, AllocError>
        requires ordered { AreOrdered gates.now }
        requires within { IsWithin gates.now self.old }
        ensures within { OnOk result (IsWithin gates.now self.new) }
        ensures fits { IfOk result (λ can. (w : Labels) → Obeys gates.now w → Fits w self.old
            → IsTrue can × Fits w self.new) }
        ensures no_more { OnOk result (weight self.new ≤ weight self.old) }
        ensures all { IfOk result (λ can. IsTrue can → self.new.wanted.items ≡ []) }
    {
        while let Some(wire) = self.wanted.pop() {
            if !self.fix(gates, wire)? {
                return Ok(false);
            }
        }
        Ok(true)
    }

    /// What two wires ask for that are not both true.
    fn asks_of(&self, left: Wire, right: Wire) -> Asks
        requires left { left.gate < length self.now.known.items }
        requires right { right.gate < length self.now.known.items }
        ensures { AsksOf self.now left right result }
    {
        if self.is_known(left.negation()) || self.is_known(right.negation()) {
            Asks::Nothing
        } else if self.is_known(left) {
            Asks::One(right.negation())
        } else if self.is_known(right) {
            Asks::One(left.negation())
        } else {
            Asks::Either
        }
    }

    /// Sees to a gate that is false: it stays unsettled if nothing is known of its kids.
    fn see_to(
        &mut self,
        gates: &[Gate],
        gate: usize,
        unsettled: &mut Vec<usize>,
    ) -> Result<(), AllocError>
        requires ordered { AreOrdered gates.now }
        requires known { length self.old.known.items ≡ length gates.now }
        requires gate { gate < length gates.now }
        ensures known { self.new.known.items ≡ self.old.known.items }
        ensures same { self.new.unsettled.items ≡ self.old.unsettled.items }
        ensures wanted { OnOk result (All (IsIn gates.now) self.old.wanted.items
            → All (IsIn gates.now) self.new.wanted.items) }
        ensures fits { OnOk result ((w : Labels) → Obeys gates.now w → Fits w self.old
            → w gate ≡ false → Fits w self.new) }
        ensures among { OnOk result ((unsettled.new.items ≡ unsettled.old.items)
            ⊎ (unsettled.new.items ≡ unsettled.old.items ++ gate ∷ [])) }
        ensures less { OnOk result (length self.new.wanted.items + length unsettled.new.items
            ≤ length self.old.wanted.items + length unsettled.old.items + 1) }
    {
        if let Gate::Both(left, right) = gates[gate] {
            match self.asks_of(left, right) {
                Asks::Nothing => {}
                Asks::One(wire) => self.wanted.push(wire)?,
                Asks::Either => unsettled.push(gate)?,
            }
        }
        Ok(())
    }

    /// Sees to the gates that are unsettled, once each.
    fn review(&mut self, gates: &[Gate]) -> Result<(), AllocError>
        requires ordered { AreOrdered gates.now }
        requires within { IsWithin gates.now self.old }
        ensures within { OnOk result (IsWithin gates.now self.new) }
        ensures fits { OnOk result ((w : Labels) → Obeys gates.now w → Fits w self.old
            → Fits w self.new) }
        ensures less { OnOk result (weight self.new + 2 * length self.new.wanted.items
            ≤ weight self.old + 2 * length self.old.wanted.items) }
    {
        let mut unsettled = Vec::new(*self.unsettled.allocator());
        for at in 0..self.unsettled.len() {
            let gate = self.unsettled[at];
            self.see_to(gates, gate, &mut unsettled)?;
        }
        self.unsettled = unsettled;
        Ok(())
    }

    /// Fixes all that is forced. False where that cannot be.
    pub fn settle(&mut self, gates: &[Gate]) -> Result<bool, AllocError>
        requires ordered { AreOrdered gates.now }
        requires within { IsWithin gates.now self.old }
        ensures within { OnOk result (IsWithin gates.now self.new) }
        ensures fits { IfOk result (λ can. (w : Labels) → Obeys gates.now w → Fits w self.old
            → IsTrue can × Fits w self.new) }
        ensures no_more { OnOk result (weight self.new ≤ weight self.old) }
    {
        while self.fix_wanted(gates)? {
            self.review(gates)?;
            if self.wanted.is_empty() {
                return Ok(true);
            }
        }
        Ok(false)
    }

    /// Takes out the unsettled gate that stands highest, if there is one.
    pub fn take_highest(&mut self, heights: &[u32]) -> Option<usize>
        ensures same { IsNone result → self.new ≡ self.old }
        ensures taken { IfSome result (IsTakenOut self.old self.new) }
    {
        if self.unsettled.is_empty() {
            return None;
        }
        let at = highest(&self.unsettled, heights);
        Some(self.unsettled.swap_remove(at))
    }
}

/// The place of the gate that stands highest.
fn highest(gates: &[usize], heights: &[u32]) -> usize
    requires { 0 < length gates.now }
    ensures { result < length gates.now }
{
    let mut best = 0;
    for at in 0..gates.len() {
        if heights.get(gates[at]) > heights.get(gates[best]) {
            best = at;
        }
    }
    best
}
