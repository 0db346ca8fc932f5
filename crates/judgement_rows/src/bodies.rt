//! The bodies of the definitions in scope.

use numbered_scope::ByNumber;

/// The body of a definition, as it was spelt at a place of that depth.
#[derive(Clone, Copy, Debug)]
pub(crate) struct Body {
    pub(crate) row: u64,
    pub(crate) depth: u32,
}

/// The bodies of the definitions in scope, by their numbers.
pub(crate) type Bodies = ByNumber<Body>;
