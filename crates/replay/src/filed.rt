//! The rows of a file, as the judge keeps them.

use theory::Claim;

/// A row of the file that is right.
#[derive(Clone, Copy, Debug)]
pub enum Filed {
    /// A tree, a substitution or a context: the number of its row in the store.
    Thing(u64),
    /// A node, with its conclusion.
    Node(Claim),
    /// The header or a root.
    Nothing,
}
