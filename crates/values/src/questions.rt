//! Questions and replies.

use crate::goals::Goal;
use crate::susp::Susp;
use book::NodeId;

/// A question.
#[derive(Clone, Copy, Debug, PartialEq, Eq, Hash)]
pub enum Question {
    /// What a term is by its outermost form.
    HeadOf(Susp),
    /// The normal form of a term or of a type.
    NormalOf(Susp),
    /// Whether two types of one context, or two terms of one type, are equal: `ctx H`, `H >> A` and
    /// `H >> B`.
    Convert {
        ctx: NodeId,
        left: NodeId,
        right: NodeId,
    },
}

/// A term in normal form: `H >> t = n : A`, where t was asked at A, and `H >> n : A`. Of a type
/// `H >> T = N` and `H >> N`.
#[derive(Clone, Copy, Debug, PartialEq, Eq)]
pub struct Part {
    pub equal: NodeId,
    pub typing: NodeId,
}

/// A step from two terms or types to parts of them.
#[derive(Clone, Copy, Debug, PartialEq, Eq)]
pub enum Step {
    /// To the kid at this place of each.
    Into(u8),
    /// To each, applied to a variable.
    Under,
    /// To the first halves.
    First,
    /// To the second halves.
    Second,
}

/// Where two terms or types differ: the equations of each with its normal form, and the steps to
/// two that differ by their outermost forms.
#[derive(Drop, Debug)]
pub struct Trail {
    pub left: NodeId,
    pub right: NodeId,
    pub steps: Vec<Step>,
}

/// Two types that are equal while their normal forms differ, where a term of the one is taken apart
/// as one of the other: `H >> B = A`, and where the normal forms of B and A differ.
#[derive(Drop, Debug)]
pub struct Unaligned {
    pub types: NodeId,
    pub trail: Trail,
}

/// A reply.
#[derive(Drop, Debug)]
pub enum Reply {
    /// The goal at a term that no rule of computation rewrites by its outermost form.
    Head(Goal),
    Normal(Part),
    /// `H >> A = B`, or `H >> a = b : A`.
    Equal(NodeId),
    Differ(Trail),
    /// None of these: two types could not be aligned.
    Unaligned(Unaligned),
}
