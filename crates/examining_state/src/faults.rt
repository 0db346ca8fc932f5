//! Why a checker ends.

use book::NodeId;
use std::alloc::{AllocError, AllocFailed};
use tested_steps::Fault;
use values::{Trail, Unaligned};

/// What a type is wanted to be.
#[derive(Clone, Copy, Debug, PartialEq, Eq)]
pub enum Kind {
    /// A type of functions.
    Function,
    /// A type of pairs.
    Pair,
    /// A type of paths.
    Path,
    /// A glued type, whose face is that of the sides.
    Glue,
    /// The universe.
    Type,
}

/// Why a text is refused, with the nodes that show it.
#[derive(Drop, Debug)]
pub enum CheckFault {
    /// A pair, a path, an element of a glued type or the universe stands where a type is to be
    /// inferred.
    CannotInfer,
    /// A type is not of the kind that is wanted: `G >> T = N`, and N is normal.
    Wanted(Kind, NodeId),
    /// The universe is wanted as a member of a type that is the universe: `G >> W = U`.
    UInU(NodeId),
    /// What was found and what is wanted differ: two types, or an end of a path and that of its
    /// type. The left side of the trail is what was found.
    Mismatch(Trail),
    /// Two sides differ where both are, or a side and the base where the side starts: on this face.
    SidesDiffer(u64, Trail),
    /// Two types that are equal have normal forms that differ, and a term of the one is taken apart
    /// as one of the other.
    Unaligned(Unaligned),
}

/// A refusal, at a place of the text, which is counted in bytes.
#[derive(Drop, Debug)]
pub struct Refusal {
    pub at: u32,
    pub fault: CheckFault,
}

/// Why a checker ends before all is done.
#[derive(Drop, Debug)]
pub enum Stop {
    /// Out of memory.
    Memory,
    /// The text is refused.
    Refused(Refusal),
    /// A question that was asked for what stands at this place has no answer within its budget.
    Spent(u32),
    /// A step was not taken.
    NotTaken(Fault),
}

impl Stop {
    /// The text is refused at a place.
    pub fn refused(at: u32, fault: CheckFault) -> Stop {
        Stop::Refused(Refusal { at, fault })
    }
}

impl From<AllocError> for Stop {
    fn from(_error: AllocError) -> Stop {
        Stop::Memory
    }
}

impl<T: Drop> From<AllocFailed<T>> for Stop {
    fn from(_failed: AllocFailed<T>) -> Stop {
        Stop::Memory
    }
}

impl From<Fault> for Stop {
    fn from(fault: Fault) -> Stop {
        match fault {
            Fault::Memory => Stop::Memory,
            Fault::Misfit | Fault::Unfit(..) => Stop::NotTaken(fault),
        }
    }
}
