//! What is left to test of a tree.

use crate::places::Place;
use closures::Closure;
use fixed_names::Scope;
use tree_frames::Frame;

/// The tree of a closure at a place, where a scope fixes names.
#[derive(Clone, Copy, Debug, PartialEq, Eq, Hash)]
pub struct Part {
    pub place: Place,
    pub scope: Scope,
    pub closure: Closure,
}

/// The sides of a system, one for each conjunction of the face.
#[derive(Clone, Copy, Debug)]
pub struct Sides {
    /// Whether the system stands below one binder more than the face.
    pub raised: bool,
    pub scope: Scope,
    pub face: Closure,
    pub body: Closure,
}

/// A part of a tree that is not tested yet.
#[derive(Clone, Copy, Debug)]
pub enum Test<'a> {
    Tree(Part),
    /// The kids of an operator from the place of the frame on, in the scope of the operator.
    Kids(Scope, Frame<'a>),
    Sides(Sides),
    /// The part has passed once the tests before this one have.
    Keep(Part),
}
