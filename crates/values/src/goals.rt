//! Goals: terms that were led to.

use crate::questions::Part;
use crate::substitutions::{identity, is_identity};
use crate::susp::{Susp, term_under};
use crate::ways::{Way, advance};
use book::{Book, NodeId};
use tested_steps::{Fault, claim_of, derive};
use theory::Claim;
use way_rules::{
    EQUAL_AT_OWN, EQUAL_AT_OWN_GIVES, TERM_FITTED, TERM_FITTED_GIVES, TYPE_SAME, TYPE_SAME_GIVES,
    WAY_BEGUN, WAY_BEGUN_GIVES, WAY_BEGUN_TYPE, WAY_BEGUN_TYPE_GIVES, WAY_HOME, WAY_HOME_GIVES,
};

/// A term under a substitution, and the way there from what was asked.
#[derive(Clone, Copy, Debug, PartialEq, Eq)]
pub struct Goal {
    pub susp: Susp,
    pub way: Way,
}

/// The goal of what is asked.
pub fn begin(book: &mut Book, susp: Susp) -> Result<Goal, Fault> {
    let home = is_identity(book, susp.sub)?;
    let [equal]: [NodeId; 1] = if let Claim::Ty(..) = claim_of(book, susp.typing)? {
        if home {
            derive(book, TYPE_SAME, TYPE_SAME_GIVES, &[], &[susp.typing])?
        } else {
            let premises = [susp.sub, susp.typing];
            derive(book, WAY_BEGUN_TYPE, WAY_BEGUN_TYPE_GIVES, &[], &premises)?
        }
    } else if home {
        derive(book, WAY_HOME, WAY_HOME_GIVES, &[], &[susp.typing])?
    } else {
        let premises = [susp.sub, susp.typing];
        derive(book, WAY_BEGUN, WAY_BEGUN_GIVES, &[], &premises)?
    };
    let way = Way { equal, fits: None };
    Ok(Goal { susp, way })
}

/// `H >> u : A`, of the term u at hand, at the type A that was asked.
pub fn aligned(book: &mut Book, goal: Goal) -> Result<NodeId, Fault> {
    let term = term_under(book, goal.susp.sub, goal.susp.typing)?;
    match goal.way.fits {
        None => Ok(term),
        Some(fits) => {
            let premises = [term, fits];
            let [term]: [NodeId; 1] = derive(book, TERM_FITTED, TERM_FITTED_GIVES, &[], &premises)?;
            Ok(term)
        }
    }
}

/// `H >> t = u : B`, at the type of u.
pub fn equal_at_own(book: &mut Book, way: Way) -> Result<NodeId, Fault> {
    match way.fits {
        None => Ok(way.equal),
        Some(fits) => {
            let premises = [way.equal, fits];
            let [equal]: [NodeId; 1] = derive(
                book,
                EQUAL_AT_OWN,
                EQUAL_AT_OWN_GIVES,
                &[],
                &premises,
            )?;
            Ok(equal)
        }
    }
}

/// The goal at a term in the context of what was asked, of its typing, and of the equation and the
/// turn that lead on to it.
pub fn rebuilt(
    book: &mut Book,
    goal: Goal,
    equal: NodeId,
    turn: Option<NodeId>,
    typing: NodeId,
) -> Result<Goal, Fault> {
    let way = advance(book, goal.way, equal, turn)?;
    let ctx = goal.susp.ctx;
    let sub = identity(book, ctx)?;
    let susp = Susp { ctx, typing, sub };
    Ok(Goal { susp, way })
}

/// A goal as a part: the equation of what was asked with the term at hand, and its typing there.
pub fn finished(book: &mut Book, goal: Goal) -> Result<Part, Fault> {
    let typing = aligned(book, goal)?;
    let equal = goal.way.equal;
    Ok(Part { equal, typing })
}
