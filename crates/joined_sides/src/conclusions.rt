//! Uses of rules, for types and for terms alike.

use book::{Book, Few, NodeId, RuleUse};
use eliminators::add;
use rows::TermId;
use tested_steps::{Fault, claim_of, try_conclude};
use theory::{Claim, EqualityRule, PartKind, RuleName, UniverseRule};

/// Uses a rule at parts and premises, if it fits.
///
/// # Errors
/// `Unfit` where it does not, and `Memory`.
pub fn conclude(
    book: &mut Book,
    rule: RuleName,
    parts: &[u64],
    premises: &[NodeId],
) -> Result<NodeId, Fault> {
    let mut rows = Few::new();
    for part in parts {
        add(&mut rows, *part)?;
    }
    let mut nodes = Few::new();
    for premise in premises {
        add(&mut nodes, premise.0)?;
    }
    let step = RuleUse {
        rule,
        parts: rows,
        premises: nodes,
    };
    try_conclude(book, &step)
}

/// Uses a rule of equality.
fn equate(
    book: &mut Book,
    rule: EqualityRule,
    parts: &[u64],
    premises: &[NodeId],
) -> Result<NodeId, Fault> {
    conclude(book, RuleName::Equality(rule), parts, premises)
}

/// That a type or a term equals itself.
pub fn reflexive(book: &mut Book, typing: NodeId) -> Result<NodeId, Fault> {
    match claim_of(book, typing)? {
        Claim::Ty(ctx, ty) => equate(book, EqualityRule::TyEqRefl, &[ctx, ty], &[typing]),
        Claim::Tm(ctx, term, ty) => {
            equate(book, EqualityRule::TmEqRefl, &[ctx, term, ty], &[typing])
        }
        _ => Err(Fault::Misfit),
    }
}

/// An equation, turned.
pub fn turned(book: &mut Book, equation: NodeId) -> Result<NodeId, Fault> {
    match claim_of(book, equation)? {
        Claim::TyEq(ctx, left, right) => {
            equate(
                book,
                EqualityRule::TyEqSym,
                &[ctx, left, right],
                &[equation],
            )
        }
        Claim::TmEq(ctx, left, right, ty) => {
            equate(
                book,
                EqualityRule::TmEqSym,
                &[ctx, left, right, ty],
                &[equation],
            )
        }
        _ => Err(Fault::Misfit),
    }
}

/// One equation after another.
pub fn followed(book: &mut Book, first: NodeId, second: NodeId) -> Result<NodeId, Fault> {
    let premises = [first, second];
    match (claim_of(book, first)?, claim_of(book, second)?) {
        (Claim::TyEq(ctx, left, middle), Claim::TyEq(_, _, right)) => {
            let parts = [ctx, left, middle, right];
            equate(book, EqualityRule::TyEqTrans, &parts, &premises)
        }
        (Claim::TmEq(ctx, left, middle, ty), Claim::TmEq(_, _, right, _)) => {
            let parts = [ctx, left, middle, right, ty];
            equate(book, EqualityRule::TmEqTrans, &parts, &premises)
        }
        _ => Err(Fault::Misfit),
    }
}

/// A term, or an equation of terms, at another type that equals its own.
pub fn fitted(book: &mut Book, node: NodeId, types: NodeId) -> Result<NodeId, Fault> {
    let Claim::TyEq(_, _, wanted) = claim_of(book, types)? else {
        return Err(Fault::Misfit);
    };
    let premises = [node, types];
    match claim_of(book, node)? {
        Claim::Tm(ctx, term, ty) => {
            let parts = [ctx, term, ty, wanted];
            equate(book, EqualityRule::TmConv, &parts, &premises)
        }
        Claim::TmEq(ctx, left, right, ty) => {
            let parts = [ctx, left, right, ty, wanted];
            equate(book, EqualityRule::TmEqConv, &parts, &premises)
        }
        _ => Err(Fault::Misfit),
    }
}

/// Equal types of the universe, as types.
pub fn as_types(book: &mut Book, equation: NodeId) -> Result<NodeId, Fault> {
    match claim_of(book, equation)? {
        Claim::TmEq(ctx, left, right, _) => {
            let rule = RuleName::Universe(UniverseRule::TyEqU);
            conclude(book, rule, &[ctx, left, right], &[equation])
        }
        _ => Ok(equation),
    }
}

/// That two types, or two terms of one type, are equal where nothing is true.
pub fn absurd(book: &mut Book, left: NodeId, right: NodeId) -> Result<NodeId, Fault> {
    let premises = [left, right];
    match (claim_of(book, left)?, claim_of(book, right)?) {
        (Claim::Ty(ctx, one), Claim::Ty(_, other)) => {
            equate(
                book,
                EqualityRule::TyEqAbsurd,
                &[ctx, one, other],
                &premises,
            )
        }
        (Claim::Tm(ctx, one, ty), Claim::Tm(_, other, _)) => {
            equate(
                book,
                EqualityRule::TmEqAbsurd,
                &[ctx, one, other, ty],
                &premises,
            )
        }
        _ => Err(Fault::Misfit),
    }
}

/// That two types, or two terms of one type, are equal where they are on two faces of which one is
/// true everywhere: of their typings, the faces, and the equations there.
pub(crate) fn covered(
    book: &mut Book,
    typings: [NodeId; 2],
    faces: [u64; 2],
    equations: [NodeId; 2],
) -> Result<NodeId, Fault> {
    let [left, right] = typings;
    let [p, q] = faces;
    let [first, second] = equations;
    let premises = [left, right, first, second];
    match (claim_of(book, left)?, claim_of(book, right)?) {
        (Claim::Ty(ctx, one), Claim::Ty(_, other)) => {
            equate(
                book,
                EqualityRule::TyEqCover,
                &[ctx, p, q, one, other],
                &premises,
            )
        }
        (Claim::Tm(ctx, one, ty), Claim::Tm(_, other, _)) => {
            let parts = [ctx, p, q, one, other, ty];
            equate(book, EqualityRule::TmEqCover, &parts, &premises)
        }
        _ => Err(Fault::Misfit),
    }
}

/// The row of G, of `ctx G`.
pub(crate) fn context_row(book: &Book, ctx: NodeId) -> Result<u64, Fault> {
    match claim_of(book, ctx)? {
        Claim::Ctx(row) => Ok(row),
        _ => Err(Fault::Misfit),
    }
}

/// The context of a typing, and the tree that it types.
pub(crate) fn subject(book: &Book, typing: NodeId) -> Result<[u64; 2], Fault> {
    match claim_of(book, typing)? {
        Claim::Ty(ctx, tree) | Claim::Tm(ctx, tree, _) => Ok([ctx, tree]),
        _ => Err(Fault::Misfit),
    }
}

/// Whether two typings type the same tree.
pub fn same_trees(book: &Book, left: NodeId, right: NodeId) -> Result<bool, Fault> {
    let [_, left] = subject(book, left)?;
    let [_, right] = subject(book, right)?;
    if !book.is_of_kind(left, PartKind::Term) || !book.is_of_kind(right, PartKind::Term) {
        return Err(Fault::Misfit);
    }
    Ok(book.same_tree(TermId(left), TermId(right))?)
}
