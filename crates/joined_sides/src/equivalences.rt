//! Types of equivalences.

use crate::conclusions::{context_row, reflexive, subject};
use book::{Book, NodeId};
use checking_rules::{EQUIV_TYPE, EQUIV_TYPE_GIVES};
use glue_entries::{EQUIV_TYCONG, EQUIV_TYCONG_GIVES};
use tested_steps::{Fault, derive};

/// `G >> equiv T A`, of `ctx G`, `G >> T` and `G >> A`.
pub fn equivalence_type(
    book: &mut Book,
    ctx: NodeId,
    ty: NodeId,
    base: NodeId,
) -> Result<NodeId, Fault> {
    let premises = [ctx, ty, base];
    let [ty]: [NodeId; 1] = derive(book, EQUIV_TYPE, EQUIV_TYPE_GIVES, &[], &premises)?;
    Ok(ty)
}

/// `G >> equiv T A = equiv V A`, of `ctx G`, `G >> T`, `G >> V`, `G >> A` and `G >> T = V`.
pub fn equal_equivalences(
    book: &mut Book,
    ctx: NodeId,
    types: [NodeId; 2],
    base: NodeId,
    equal: NodeId,
) -> Result<NodeId, Fault> {
    let [from, to] = types;
    let bases = reflexive(book, base)?;
    let [_, from_row] = subject(book, from)?;
    let [_, to_row] = subject(book, to)?;
    let [_, base_row] = subject(book, base)?;
    let parts = [
        context_row(book, ctx)?,
        from_row,
        base_row,
        to_row,
        base_row,
    ];
    let premises = [ctx, from, base, to, base, equal, bases];
    let [equal]: [NodeId; 1] = derive(book, EQUIV_TYCONG, EQUIV_TYCONG_GIVES, &parts, &premises)?;
    Ok(equal)
}
