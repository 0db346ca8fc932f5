//! Equations of sides, of equations of what they lead to.

use crate::sides::{is_type, reflexive};
use book::{Book, NodeId};
use conversion_rules::{
    ABSURD_TERMS, ABSURD_TERMS_GIVES, ABSURD_TYPES, ABSURD_TYPES_GIVES, EQUAL_FITTED,
    EQUAL_FITTED_GIVES, JOINED, JOINED_FITS, JOINED_FITS_GIVES, JOINED_GIVES, MET, MET_GIVES,
    TYPES_JOINED, TYPES_JOINED_GIVES,
};
use tested_steps::{Fault, derive};
use way_rules::{SMALL_EQUAL, SMALL_EQUAL_GIVES};

/// Two terms that lead to one.
pub fn meet(book: &mut Book, left: NodeId, right: NodeId) -> Result<NodeId, Fault> {
    let [equal]: [NodeId; 1] = derive(book, MET, MET_GIVES, &[], &[left, right])?;
    Ok(equal)
}

/// Two types that lead to one, of which this is the typing.
pub fn meet_types(
    book: &mut Book,
    left: NodeId,
    right: NodeId,
    typing: NodeId,
) -> Result<NodeId, Fault> {
    let same = reflexive(book, typing)?;
    close_types_joined(book, left, right, same)
}

/// Two terms, of the equation of what they lead to, at its own type where that is not theirs.
pub fn close_joined(
    book: &mut Book,
    left: NodeId,
    right: NodeId,
    fits: Option<NodeId>,
    equal: NodeId,
) -> Result<NodeId, Fault> {
    let [equal]: [NodeId; 1] = match fits {
        None => derive(book, JOINED, JOINED_GIVES, &[], &[left, equal, right])?,
        Some(fits) => {
            let premises = [left, equal, right, fits];
            derive(book, JOINED_FITS, JOINED_FITS_GIVES, &[], &premises)?
        }
    };
    Ok(equal)
}

/// An equation at another type.
pub fn close_fitted(book: &mut Book, fits: NodeId, equal: NodeId) -> Result<NodeId, Fault> {
    let premises = [equal, fits];
    let [equal]: [NodeId; 1] = derive(book, EQUAL_FITTED, EQUAL_FITTED_GIVES, &[], &premises)?;
    Ok(equal)
}

/// Types that are equal as terms of the universe.
pub fn close_small(book: &mut Book, equal: NodeId) -> Result<NodeId, Fault> {
    let [equal]: [NodeId; 1] = derive(book, SMALL_EQUAL, SMALL_EQUAL_GIVES, &[], &[equal])?;
    Ok(equal)
}

/// Two types, of the equation of what they lead to.
pub fn close_types_joined(
    book: &mut Book,
    left: NodeId,
    right: NodeId,
    equal: NodeId,
) -> Result<NodeId, Fault> {
    let premises = [left, equal, right];
    let [equal]: [NodeId; 1] = derive(book, TYPES_JOINED, TYPES_JOINED_GIVES, &[], &premises)?;
    Ok(equal)
}

/// Two terms at one type, or two types, in a context whose faces are true nowhere.
pub fn absurd(book: &mut Book, left: NodeId, right: NodeId) -> Result<NodeId, Fault> {
    let premises = [left, right];
    let [equal]: [NodeId; 1] = if is_type(book, left)? {
        derive(book, ABSURD_TYPES, ABSURD_TYPES_GIVES, &[], &premises)?
    } else {
        derive(book, ABSURD_TERMS, ABSURD_TERMS_GIVES, &[], &premises)?
    };
    Ok(equal)
}
