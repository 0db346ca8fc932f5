//! Ways from what was asked to what is at hand.

use crate::substitutions::is_identity;
use book::{Book, NodeId};
use tested_steps::{Fault, claim_of, derive, same_sides};
use theory::Claim;
use way_rules::{
    EQUAL_AFTER, EQUAL_AFTER_FITS, EQUAL_AFTER_FITS_GIVES, EQUAL_AFTER_GIVES, EQUAL_AT_OWN,
    EQUAL_AT_OWN_GIVES, FITS_JOINED, FITS_JOINED_GIVES, FITS_UNDER, FITS_UNDER_GIVES,
};

/// How what was asked leads to what is at hand.
#[derive(Clone, Copy, Debug, PartialEq, Eq)]
pub struct Way {
    /// `H >> t = u : A`, where t was asked at A, and u is at hand.
    pub equal: NodeId,
    /// `H >> B = A`, where u has the type B; None where A is it.
    pub fits: Option<NodeId>,
}

/// `H >> B[d] = A[d]`, of `d : H to G` and `G >> B = A`.
pub fn fits_under(book: &mut Book, sub: NodeId, fits: NodeId) -> Result<NodeId, Fault> {
    if is_identity(book, sub)? {
        return Ok(fits);
    }
    let [fits]: [NodeId; 1] = derive(book, FITS_UNDER, FITS_UNDER_GIVES, &[], &[sub, fits])?;
    Ok(fits)
}

/// `H >> C = A`, of `H >> C = B` and `H >> B = A`, each none where its sides are one.
pub fn fits_joined(
    book: &mut Book,
    turn: Option<NodeId>,
    fits: Option<NodeId>,
) -> Result<Option<NodeId>, Fault> {
    let (Some(first), Some(second)) = (turn, fits) else {
        return told(book, turn.or(fits));
    };
    let premises = [first, second];
    let [joined]: [NodeId; 1] = derive(book, FITS_JOINED, FITS_JOINED_GIVES, &[], &premises)?;
    told(book, Some(joined))
}

/// An equation of types, if its sides differ as trees.
fn told(book: &Book, turn: Option<NodeId>) -> Result<Option<NodeId>, Fault> {
    match turn {
        Some(node) if same_sides(book, node)? => Ok(None),
        _ => Ok(turn),
    }
}

/// The way on to v, of `H >> u = v : C` where v has the type C, and of `H >> C = B`, which is none
/// where C is the type of u.
pub fn advance(
    book: &mut Book,
    way: Way,
    equal: NodeId,
    turn: Option<NodeId>,
) -> Result<Way, Fault> {
    if let Claim::TyEq(..) = claim_of(book, equal)? {
        let premises = [way.equal, equal];
        let [equal]: [NodeId; 1] = derive(book, FITS_JOINED, FITS_JOINED_GIVES, &[], &premises)?;
        return Ok(Way { equal, fits: None });
    }
    let turn = told(book, turn)?;
    let fits = fits_joined(book, turn, way.fits)?;
    let [equal]: [NodeId; 1] = match fits {
        None => {
            let premises = [way.equal, equal];
            derive(book, EQUAL_AFTER, EQUAL_AFTER_GIVES, &[], &premises)?
        }
        Some(fits) => {
            let premises = [way.equal, equal, fits];
            derive(
                book,
                EQUAL_AFTER_FITS,
                EQUAL_AFTER_FITS_GIVES,
                &[],
                &premises,
            )?
        }
    };
    Ok(Way { equal, fits })
}

/// One way after another: of a way to u, and of one from u.
pub fn follow(book: &mut Book, way: Way, next: Way) -> Result<Way, Fault> {
    let equal = match next.fits {
        None => next.equal,
        Some(fits) => {
            let premises = [next.equal, fits];
            let [equal]: [NodeId; 1] = derive(
                book,
                EQUAL_AT_OWN,
                EQUAL_AT_OWN_GIVES,
                &[],
                &premises,
            )?;
            equal
        }
    };
    advance(book, way, equal, next.fits)
}
