//! The search for truths of inputs that make wires true together.

ghost use Rattle.std.specs.Prelude.{◌≡◌, ◌<◌, ◌↔◌, ◌+◌, ◌*◌, ◌^◌, List, length, Some, None, false};
ghost use Rattle.std.specs.Prelude.{IfOk, OnOk, IfSome, IsTrue, slice_get};
ghost use Rattle.std.specs.List.{All};
ghost use Rattle.circuits.specs.Circuits.{Labels, wire_truth, Obeys, AreOrdered, IsIn, AreTrue};
ghost use Rattle.circuits.specs.Circuits.{CanBeTrue, IsOver};
ghost use Rattle.circuits.specs.Branches.{IsWithin, Fits, Adds, Follows, weight};
ghost use Rattle.circuits.specs.Evaluations.{labels_of, evaluated_gate, IsEvaluated};
ghost use Rattle.circuits.specs.Evaluations.{IsFree, NoneIsFree};

use crate::branch::Branch;
use crate::gates::{Gate, Wire};
use std::alloc::{AllocError, Global};

/// Whether a wire is true, by the truths of gates.
fn truth_of(truths: &[bool], wire: Wire) -> bool
    requires { wire.gate < length truths.now }
    ensures { result ≡ wire_truth (labels_of truths.now) wire }
{
    truths[wire.gate] != wire.negated
}

/// The truth of a gate, by those of the gates before it. An input that is not fixed is false.
fn gate_truth(gate: Gate, known: Option<bool>, truths: &[bool]) -> bool
    requires { IsOver (length truths.now) gate }
    ensures { result ≡ evaluated_gate (labels_of truths.now) known gate }
{
    match gate {
        Gate::Top => true,
        Gate::Input => known.unwrap_or(false),
        Gate::Both(left, right) => truth_of(truths, left) && truth_of(truths, right),
    }
}

/// The truths of gates where inputs are as they are fixed, and the others false.
fn evaluated(alloc: Global, gates: &[Gate], known: &[Option<bool>]) -> Result<Vec<bool>, AllocError>
    requires ordered { AreOrdered gates.now }
    requires known { length known.now ≡ length gates.now }
    ensures { IfOk result (λ truths. IsEvaluated gates.now known.now truths.items
        (length gates.now)) }
{
    let mut truths = Vec::with_capacity(alloc, gates.len())?;
    for at in 0..gates.len() {
        let truth = gate_truth(gates[at], known[at], &truths);
        truths.push(truth)?;
    }
    Ok(truths)
}

/// Whether all wires are true, by the truths of gates.
fn are_true(truths: &[bool], wires: &[Wire]) -> bool
    requires { All (λ x. x.gate < length truths.now) wires.now }
    ensures { IsTrue result ↔ AreTrue (labels_of truths.now) wires.now }
{
    for wire in wires {
        if !truth_of(truths, *wire) {
            return false;
        }
    }
    true
}

/// An input whose truth is not fixed, if there is one.
fn free_input(gates: &[Gate], known: &[Option<bool>]) -> Option<usize>
    requires { length known.now ≡ length gates.now }
    ensures some { IfSome result (IsFree gates.now known.now) }
    ensures none { result ≡ None → NoneIsFree gates.now known.now }
{
    for at in 0..gates.len() {
        if gates[at] == Gate::Input && known[at].is_none() {
            return Some(at);
        }
    }
    None
}

/// Adds a branch in which these wires are to be true, too.
fn push_wanting(
    mut branch: Branch,
    wires: &[Wire],
    branches: &mut Vec<Branch>,
) -> Result<(), AllocError>
    ensures { OnOk result ((gates : List Gate) → IsWithin gates branch
        → All (IsIn gates) wires.now → Adds gates (λ w. Fits w branch × AreTrue w wires.now)
        (3 ^ (weight branch + length wires.now + 1)) branches.old.items branches.new.items) }
{
    branch.wanted.extend_from_slice(wires)?;
    branches.push(branch)?;
    Ok(())
}

/// Adds a branch in which a wire is fixed as true, unless it cannot be.
fn push_fixed(
    gates: &[Gate],
    mut branch: Branch,
    wire: Wire,
    branches: &mut Vec<Branch>,
) -> Result<(), AllocError>
    requires ordered { AreOrdered gates.now }
    requires within { IsWithin gates.now branch }
    requires wire { IsIn gates.now wire }
    requires unfixed { slice_get branch.known.items wire.gate ≡ Some None }
    ensures { OnOk result (Adds gates.now (λ w. Fits w branch × IsTrue (wire_truth w wire))
        (3 ^ weight branch) branches.old.items branches.new.items) }
{
    if branch.fix(gates, wire)? {
        branches.push(branch)?;
    }
    Ok(())
}

/// Adds two branches: in one the left kid of a gate that is false is false, in the other its right
/// one alone. A gate that has no kids is not split.
fn split_gate(
    gates: &[Gate],
    branch: Branch,
    gate: usize,
    branches: &mut Vec<Branch>,
) -> Result<(), AllocError>
    requires ordered { AreOrdered gates.now }
    requires within { IsWithin gates.now branch }
    requires gate { gate < length gates.now }
    ensures { OnOk result (Adds gates.now (λ w. Fits w branch × (w gate ≡ false))
        (2 * 3 ^ (weight branch + 3)) branches.old.items branches.new.items) }
{
    let alloc = *branches.allocator();
    match gates[gate] {
        Gate::Both(left, right) => {
            let other = branch.copied(alloc)?;
            push_wanting(other, &[left, right.negation()], branches)?;
            push_wanting(branch, &[left.negation()], branches)?;
        }
        Gate::Top | Gate::Input => push_wanting(branch, &[], branches)?,
    }
    Ok(())
}

/// Adds two branches, in which an input is false and true.
fn split_input(
    gates: &[Gate],
    branch: Branch,
    input: usize,
    branches: &mut Vec<Branch>,
) -> Result<(), AllocError>
    requires ordered { AreOrdered gates.now }
    requires within { IsWithin gates.now branch }
    requires unfixed { slice_get branch.known.items input ≡ Some None }
    ensures { OnOk result (Adds gates.now (λ w. Fits w branch)
        (2 * 3 ^ weight branch) branches.old.items branches.new.items) }
{
    let alloc = *branches.allocator();
    let wire = Wire {
        gate: input,
        negated: true,
    };
    let other = branch.copied(alloc)?;
    push_fixed(gates, other, wire, branches)?;
    push_fixed(gates, branch, wire.negation(), branches)?;
    Ok(())
}

/// Goes on with a branch: true where truths are found, else it adds branches that stand for it.
fn follow(
    gates: &[Gate],
    goals: &[Wire],
    heights: &[u32],
    mut branch: Branch,
    branches: &mut Vec<Branch>,
) -> Result<bool, AllocError>
    requires ordered { AreOrdered gates.now }
    requires goals { All (IsIn gates.now) goals.now }
    requires within { IsWithin gates.now branch }
    ensures { IfOk result
        (Follows gates.now goals.now branch branches.old.items branches.new.items) }
{
    if !branch.settle(gates)? {
        return Ok(false);
    }
    if let Some(gate) = branch.take_highest(heights) {
        split_gate(gates, branch, gate, branches)?;
        return Ok(false);
    }
    let truths = evaluated(*branches.allocator(), gates, &branch.known)?;
    if are_true(&truths, goals) {
        return Ok(true);
    }
    if let Some(input) = free_input(gates, &branch.known) {
        split_input(gates, branch, input, branches)?;
    }
    Ok(false)
}

/// How high each gate stands over those that have no kids.
fn heights_of(alloc: Global, gates: &[Gate]) -> Result<Vec<u32>, AllocError> {
    let mut heights: Vec<u32> = Vec::with_capacity(alloc, gates.len())?;
    for gate in gates {
        let height = match *gate {
            Gate::Both(left, right) => {
                let left = heights.get(left.gate).copied().unwrap_or(0);
                let right = heights.get(right.gate).copied().unwrap_or(0);
                left.max(right).saturating_add(1)
            }
            Gate::Top | Gate::Input => 0,
        };
        heights.push(height)?;
    }
    Ok(heights)
}

/// Whether truths of the inputs make all these wires true.
pub fn can_be_true(alloc: Global, gates: &[Gate], goals: &[Wire]) -> Result<bool, AllocError>
    requires ordered { AreOrdered gates.now }
    requires goals { All (IsIn gates.now) goals.now }
    ensures { IfOk result (λ found. IsTrue found ↔ CanBeTrue gates.now goals.now) }
{
    let heights = heights_of(alloc, gates)?;
    let mut branches = Vec::new(alloc);
    branches.push(Branch::new(alloc, gates, goals)?)?;
    while let Some(branch) = branches.pop() {
        if follow(gates, goals, &heights, branch, &mut branches)? {
            return Ok(true);
        }
    }
    Ok(false)
}
