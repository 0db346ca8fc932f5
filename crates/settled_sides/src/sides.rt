//! What stands under a face, as the system of its sides.

use book::{Book, Few, NodeId, RuleUse};
use eliminators::{into_face, type_at};
use side_rules::{
    NOTHING_TERM, NOTHING_TERM_GIVES, NOTHING_TYPE, NOTHING_TYPE_GIVES, SIDE_LINE, SIDE_LINE_GIVES,
    SIDE_TERM, SIDE_TERM_GIVES, SIDE_TYPE, SIDE_TYPE_GIVES,
};
use std::alloc::Global;
use tested_steps::{Fault, claim_of, derive, try_conclude, try_make};
use theory::{Claim, ContextRule, Op, RuleName};
use typing_rules::{UNDER_NAME, UNDER_NAME_GIVES, WITH_NAME, WITH_NAME_GIVES};
use values::{Part, Susp, term_under};

/// Where what stands under a face p of G is typed.
#[derive(Clone, Copy, Debug, PartialEq, Eq)]
pub enum Reach {
    /// In G.p.
    Face,
    /// In G.p.I.
    Line,
}

/// A type or a term under a face p of G, and `d : H to G`.
#[derive(Clone, Copy, Debug)]
pub struct Faced {
    /// `ctx H`
    pub ctx: NodeId,
    pub sub: NodeId,
    pub face: u64,
    /// `G.p >> T` or `G.p >> t : A`; or these in G.p.I.
    pub typing: NodeId,
    pub reach: Reach,
}

/// `ctx K`, and a substitution from K.
#[derive(Clone, Copy, Debug)]
pub struct There {
    pub ctx: NodeId,
    pub sub: NodeId,
}

/// A face q of H, and what stands under the face p, as it is in H.q or H.q.I.
#[derive(Clone, Copy, Debug)]
pub struct Side {
    pub face: u64,
    pub part: Part,
}

/// `ctx H.q`, of `ctx H`.
fn with_face(book: &mut Book, ctx: NodeId, face: u64) -> Result<NodeId, Fault> {
    let Claim::Ctx(row) = claim_of(book, ctx)? else {
        return Err(Fault::Misfit);
    };
    let step = RuleUse {
        rule: RuleName::Contexts(ContextRule::CtxFace),
        parts: Few::of(&[row, face]),
        premises: Few::of(&[ctx.0]),
    };
    try_conclude(book, &step)
}

/// `d : H.q to G`, of `d : H to G`.
pub fn past_face(book: &mut Book, sub: NodeId, face: u64) -> Result<NodeId, Fault> {
    let Claim::Sb(from, row, to) = claim_of(book, sub)? else {
        return Err(Fault::Misfit);
    };
    let step = RuleUse {
        rule: RuleName::Contexts(ContextRule::SubWkFace),
        parts: Few::of(&[from, row, to, face]),
        premises: Few::of(&[sub.0]),
    };
    try_conclude(book, &step)
}

/// Where a face q of H is true which implies p[d]: H.q with the substitution to G.p, or these with
/// one more name.
pub fn where_true(book: &mut Book, faced: Faced, face: u64) -> Result<There, Fault> {
    let ctx = with_face(book, faced.ctx, face)?;
    let sub = past_face(book, faced.sub, face)?;
    let sub = into_face(book, sub, faced.face)?;
    match faced.reach {
        Reach::Face => Ok(There { ctx, sub }),
        Reach::Line => {
            let [ctx]: [NodeId; 1] = derive(book, WITH_NAME, WITH_NAME_GIVES, &[], &[ctx])?;
            let [sub]: [NodeId; 1] = derive(book, UNDER_NAME, UNDER_NAME_GIVES, &[], &[sub])?;
            Ok(There { ctx, sub })
        }
    }
}

/// What stands under the face, where a conjunction is true.
pub fn side_at(book: &mut Book, faced: Faced, conjunction: u64) -> Result<Susp, Fault> {
    let There { ctx, sub } = where_true(book, faced, conjunction)?;
    let typing = faced.typing;
    Ok(Susp { ctx, typing, sub })
}

/// The system of no sides, where nothing is true.
pub fn no_sides(alloc: Global, book: &mut Book, faced: Faced) -> Result<Side, Fault> {
    let face = try_make(book, Op::F0, &[])?;
    let there = where_true(book, faced, face)?;
    let typing = term_under(book, there.sub, faced.typing)?;
    let [equal, typing]: [NodeId; 2] = if let Claim::Ty(..) = claim_of(book, typing)? {
        let premises = [there.ctx, typing];
        derive(book, NOTHING_TYPE, NOTHING_TYPE_GIVES, &[], &premises)?
    } else {
        let premises = [type_at(alloc, book, there.sub, faced.typing)?, typing];
        derive(book, NOTHING_TERM, NOTHING_TERM_GIVES, &[], &premises)?
    };
    let part = Part { equal, typing };
    Ok(Side { face, part })
}

/// The system of a side and of the sides of a system.
pub fn one_more(
    alloc: Global,
    book: &mut Book,
    faced: Faced,
    side: Side,
    rest: Side,
) -> Result<Side, Fault> {
    let face = try_make(book, Op::Join, &[side.face, rest.face])?;
    let there = where_true(book, faced, face)?;
    let whole = term_under(book, there.sub, faced.typing)?;
    let parts = [side.face, rest.face];
    let (Part { equal, typing }, other) = (side.part, rest.part);
    let [equal, typing]: [NodeId; 2] = if let Claim::Ty(..) = claim_of(book, whole)? {
        let premises = [faced.ctx, whole, equal, typing, other.equal, other.typing];
        derive(book, SIDE_TYPE, SIDE_TYPE_GIVES, &parts, &premises)?
    } else {
        let ty = type_at(alloc, book, there.sub, faced.typing)?;
        let premises = [
            faced.ctx,
            ty,
            whole,
            equal,
            typing,
            other.equal,
            other.typing,
        ];
        match faced.reach {
            Reach::Face => derive(book, SIDE_TERM, SIDE_TERM_GIVES, &parts, &premises)?,
            Reach::Line => derive(book, SIDE_LINE, SIDE_LINE_GIVES, &parts, &premises)?,
        }
    };
    let part = Part { equal, typing };
    Ok(Side { face, part })
}
