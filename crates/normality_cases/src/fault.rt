//! Why a case has no answer.

use std::alloc::{AllocError, AllocFailed};

/// It was out of memory, or a row, a number or a word of the case is not one that can stand there.
#[derive(Clone, Copy, Debug)]
pub(crate) enum Fault {
    Memory,
    Misfit,
}

impl From<AllocError> for Fault {
    fn from(_error: AllocError) -> Fault {
        Fault::Memory
    }
}

impl<T: Drop> From<AllocFailed<T>> for Fault {
    fn from(_error: AllocFailed<T>) -> Fault {
        Fault::Memory
    }
}
