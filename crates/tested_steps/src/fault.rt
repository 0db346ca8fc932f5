//! Why a step was not taken.

ghost use Rattle.std.specs.Prelude.{◌≡◌};
ghost use Rattle.tested_steps.specs.declared.fault.Fault.TheVariants.{Memory};

use book::Fit;
use std::alloc::{AllocError, AllocFailed};
use theory::RuleName;

/// Why a step was not taken.
#[derive(Clone, Copy, Debug, PartialEq, Eq)]
pub enum Fault {
    /// Out of memory.
    Memory,
    /// A node, a row or a state is not of the form that a step takes.
    Misfit,
    /// A rule does not fit its parts and premises.
    Unfit(RuleName, Fit),
}

impl From<AllocError> for Fault {
    ghost from_gives = { λ _ fault. fault ≡ Memory };

    fn from(_error: AllocError) -> Fault {
        Fault::Memory
    }
}

impl<T: Drop> From<AllocFailed<T>> for Fault {
    ghost from_gives = { λ _ fault. fault ≡ Memory };

    fn from(_failed: AllocFailed<T>) -> Fault {
        Fault::Memory
    }
}
