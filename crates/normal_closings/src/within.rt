//! Under a variable or a name.

use book::{Book, NodeId};
use normal_rules::{ENTERED, ENTERED_GIVES, ENTERED_HOME, ENTERED_HOME_GIVES};
use tested_steps::{Fault, derive};
use typing_rules::{UNDER_NAME, UNDER_NAME_GIVES, WITH_NAME, WITH_NAME_GIVES};
use values::{Susp, identity, is_identity};

/// `ctx H.A[d]`, and the substitution from there to G.A; or `ctx H.I`, and that to G.I.
#[derive(Clone, Copy, Debug, PartialEq, Eq)]
pub struct Within {
    pub ctx: NodeId,
    pub sub: NodeId,
}

impl Within {
    /// What is typed in G.A or G.I, here.
    pub fn susp(self, typing: NodeId) -> Susp {
        Susp {
            ctx: self.ctx,
            typing,
            sub: self.sub,
        }
    }
}

/// Under a variable, of `d : H to G` and `G >> A`.
pub fn enter(book: &mut Book, sub: NodeId, domain: NodeId) -> Result<Within, Fault> {
    if is_identity(book, sub)? {
        let [ctx, sub]: [NodeId; 2] = derive(
            book,
            ENTERED_HOME,
            ENTERED_HOME_GIVES,
            &[],
            &[domain],
        )?;
        return Ok(Within { ctx, sub });
    }
    let premises = [sub, domain];
    let [_, ctx, sub]: [NodeId; 3] = derive(book, ENTERED, ENTERED_GIVES, &[], &premises)?;
    Ok(Within { ctx, sub })
}

/// Under a name, of `ctx H` and `d : H to G`.
pub fn enter_name(book: &mut Book, ctx: NodeId, sub: NodeId) -> Result<Within, Fault> {
    let is_home = is_identity(book, sub)?;
    let [ctx]: [NodeId; 1] = derive(book, WITH_NAME, WITH_NAME_GIVES, &[], &[ctx])?;
    if is_home {
        let sub = identity(book, ctx)?;
        return Ok(Within { ctx, sub });
    }
    let [sub]: [NodeId; 1] = derive(book, UNDER_NAME, UNDER_NAME_GIVES, &[], &[sub])?;
    Ok(Within { ctx, sub })
}
