//! The tasks of a walk.

use crate::shapes::Shape;
use crate::subtree::Subtree;

/// What is left to do.
#[derive(Clone, Copy, Debug)]
pub enum Task {
    /// To read a subtree.
    Read(Subtree),
    /// To put the readings of the kids of a subtree together, which has this shape.
    Combine(Subtree, Shape),
}
