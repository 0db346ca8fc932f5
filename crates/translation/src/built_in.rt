//! The names that every text knows.

/// A built-in name.
#[derive(Clone, Copy, Debug, PartialEq, Eq)]
pub enum BuiltIn {
    Nat,
    Zero,
    Suc,
    NatRec,
}
