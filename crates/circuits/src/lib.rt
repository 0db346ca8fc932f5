//! Circuits of gates over inputs, each gate kept once, and whether inputs make some wires true
//! together.
//!
//! Whether they do is as hard a question as satisfiability, so that in general no bound on its time
//! is known that is better than exponential. It is answered by splitting: what is forced is fixed
//! first, and where nothing is, the highest gate whose reason is open is split.
//!
//! ```text
//! let mut circuit = Circuit::new(alloc)?;
//! let p = circuit.input()?;
//! let q = circuit.input()?;
//! let both = circuit.both(p, q)?;
//! circuit.can_be_true(&[both])?                   // true
//! circuit.can_be_true(&[both, p.negation()])?     // false: where both are true, p is
//! ```
#![tactic(auto)]

mod branch;
mod circuit;
mod gates;
mod search;

pub use circuit::Circuit;
pub use gates::{Gate, Wire};
