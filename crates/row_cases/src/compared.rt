//! Whether rows, and claims about rows, mean the same.

ghost use Rattle.std.specs.Prelude.{IsSome, IsTrue};
ghost use Rattle.trees.specs.Claimed.{claimed};
ghost use Rattle.rows.specs.Shown.{store_means};

use crate::fault::Fault;
use crate::stored::{number_at, numbers_of};
use compare::Comparison;
use rows::RowStore;
use std::alloc::Global;
use trees::{Claim, PartKind};

fn kind_named(word: &str) -> Result<PartKind, Fault> {
    match word {
        "term" => Ok(PartKind::Term),
        "subst" => Ok(PartKind::Subst),
        "context" => Ok(PartKind::Context),
        _ => Err(Fault::Misfit),
    }
}

/// What two answers of one comparison, of which the second is the other way round, say.
fn both_told(there: bool, exchanged: bool) -> &'static str {
    match (there, exchanged) {
        (true, true) => "yes",
        (false, false) => "no",
        _ => "another answer the other way round",
    }
}

/// Whether two rows of a kind mean the same, whichever comes first.
pub(crate) fn are_same(
    comparison: &mut Comparison,
    rows: &RowStore,
    kind: PartKind,
    (left, right): (u64, u64),
) -> Result<&'static str, Fault> {
    if !(rows.is_of_kind(left, kind) && rows.is_of_kind(right, kind)) {
        return Err(Fault::Misfit);
    }
    let there = comparison.same(rows, kind, left, right)?;
    let exchanged = comparison.same(rows, kind, right, left)?;
    Ok(both_told(there, exchanged))
}

/// Whether two rows mean the same, of `KIND LEFT RIGHT`.
pub(crate) fn same_told(
    alloc: Global,
    comparison: &mut Comparison,
    rows: &RowStore,
    input: &str,
) -> Result<String, Fault> {
    let (kind, numbers) = input.split_once(" ").unwrap_or((input, ""));
    let kind = kind_named(kind)?;
    let numbers = numbers_of(alloc, numbers)?;
    let pair = (
        number_at(numbers.as_slice(), 0),
        number_at(numbers.as_slice(), 1),
    );
    Ok(String::from_str(alloc, are_same(comparison, rows, kind, pair)?)?)
}

/// Whether the rows of a claim are of the kinds that its form names.
fn is_judgement(rows: &RowStore, claim: Claim) -> bool
    ensures { IsTrue result → IsSome (claimed (store_means rows.now) claim) }
{
    let is_context = |row| rows.is_of_kind(row, PartKind::Context);
    let is_tree = |row| rows.is_of_kind(row, PartKind::Term);
    match claim {
        Claim::Ctx(g) => is_context(g),
        Claim::Ty(g, a) => is_context(g) && is_tree(a),
        Claim::TyEq(g, a, b) => is_context(g) && is_tree(a) && is_tree(b),
        Claim::Tm(g, t, a) => is_context(g) && is_tree(t) && is_tree(a),
        Claim::TmEq(g, t, s, a) => is_context(g) && is_tree(t) && is_tree(s) && is_tree(a),
        Claim::Sb(h, d, g) => is_context(h) && rows.is_of_kind(d, PartKind::Subst) && is_context(g),
    }
}

/// The claim of a form, over these rows.
fn claim_of(alloc: Global, text: &str) -> Result<Claim, Fault> {
    let (form, rows) = text.split_once(" ").unwrap_or((text, ""));
    let numbers = numbers_of(alloc, rows)?;
    let at = |place| number_at(numbers.as_slice(), place);
    match form {
        "ctx" => Ok(Claim::Ctx(at(0))),
        "ty" => Ok(Claim::Ty(at(0), at(1))),
        "ty-eq" => Ok(Claim::TyEq(at(0), at(1), at(2))),
        "tm" => Ok(Claim::Tm(at(0), at(1), at(2))),
        "tm-eq" => Ok(Claim::TmEq(at(0), at(1), at(2), at(3))),
        "sb" => Ok(Claim::Sb(at(0), at(1), at(2))),
        _ => Err(Fault::Misfit),
    }
}

/// Whether two claims are one judgement, of `CLAIM | CLAIM`.
pub(crate) fn claims_told(
    alloc: Global,
    comparison: &mut Comparison,
    rows: &RowStore,
    input: &str,
) -> Result<String, Fault> {
    let (left, right) = input.split_once(" | ").unwrap_or((input, ""));
    let (left, right) = (claim_of(alloc, left)?, claim_of(alloc, right)?);
    if !(is_judgement(rows, left) && is_judgement(rows, right)) {
        return Err(Fault::Misfit);
    }
    let same = comparison.same_claim(rows, left, right)?;
    Ok(String::from_str(alloc, if same { "yes" } else { "no" })?)
}
