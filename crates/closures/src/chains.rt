//! Which trees are variables, found without a walk through all that they are written by.
//!
//! A chain of substitutions and instances may name a row many times over, so that a walk through
//! all of it takes long. Here each row is asked once, and what it answers is noted.

ghost use Rattle.std.specs.Prelude.{◌≡◌, ◌≤◌, ◌+◌, ◌^◌, ◌∷◌, List, IfOk, OnOk, IfSome, reverse};
ghost use Rattle.trees.specs.Things.{Meanings};
ghost use Rattle.rows.specs.Views.{IsSubst, IsTree};
ghost use Rattle.closures.specs.Environments.{Waiting, waiting, deepest};
ghost use Rattle.closures.specs.Closures.{variable_meaning};
ghost use Rattle.closures.specs.declared.notes.Source.{Source};
ghost use Rattle.closures.specs.Chains.{AreRight, IsSource, Ends, Leads};
ghost use Rattle.closures.specs.Chains.{SentFrom, SentBack, IsSent};

use crate::environments::Delayed;
use crate::notes::{Notes, Source};
use crate::variables::passed;
use rows::{Reader, SubId, SubRow, TermId, TermRow};
use std::alloc::{AllocError, Global};

/// What waits for a variable to be known.
#[derive(Clone, Copy, Debug)]
enum Wait {
    /// To send it on by the substitution of this row.
    Next(SubId),
    /// To note it as what this is.
    Note(Source),
}

/// What is known of a tree.
#[derive(Clone, Copy, Debug)]
enum Sent {
    /// It is the variable of this index.
    To(u128),
    /// It is what comes of this one, when what waits has been done.
    On(Source),
    /// It is no variable, or was not followed further.
    Unknown,
}

/// One step of the way of a variable through the substitution of a row.
fn enter_row<R: Reader>(
    rows: &R,
    waits: &mut Vec<Wait>,
    subst: SubId,
    index: u128,
) -> Result<Sent, AllocError>
    requires { IsSubst (R.means rows.now subst.0) }
    ensures { let f = R.means rows.now in IfOk result (λ sent. (root : Source) →
        SentFrom f root (reverse waits.old.items) (reverse waits.new.items)
        (Source.Entry subst index) sent) }
{
    if index >= 1 << 127 {
        return Ok(Sent::Unknown);
    }
    if let Some(past) = passed(rows, subst, index, 0) {
        return Ok(Sent::To(past));
    }
    match rows.subst(subst) {
        SubRow::Push(next, tree) => {
            if index > 0 {
                return Ok(Sent::On(Source::Entry(next, index - 1)));
            }
            Ok(Sent::On(Source::Tree(tree)))
        }
        SubRow::Then(first, second) => {
            waits.push(Wait::Note(Source::Entry(subst, index)))?;
            waits.push(Wait::Next(second))?;
            Ok(Sent::On(Source::Entry(first, index)))
        }
        SubRow::Shift(_) => Ok(Sent::Unknown),
    }
}

/// One step of the way into the tree of a row.
fn enter_tree<R: Reader>(rows: &R, waits: &mut Vec<Wait>, tree: TermId) -> Result<Sent, AllocError>
    requires { IsTree (R.means rows.now tree.0) }
    ensures { let f = R.means rows.now in IfOk result (λ sent. (root : Source) →
        SentFrom f root (reverse waits.old.items) (reverse waits.new.items)
        (Source.Tree tree) sent) }
{
    match rows.term(tree) {
        TermRow::Var(index) => Ok(Sent::To(u128::from(index))),
        TermRow::Make(_, _) => Ok(Sent::Unknown),
        TermRow::Instance(inner, subst) => {
            waits.push(Wait::Note(Source::Tree(tree)))?;
            waits.push(Wait::Next(subst))?;
            Ok(Sent::On(Source::Tree(inner)))
        }
    }
}

/// One step: what waits grows where a substitution comes after.
fn step<R: Reader>(
    rows: &R,
    notes: &Notes,
    waits: &mut Vec<Wait>,
    at: Source,
) -> Result<Sent, AllocError>
    requires stands { IsSource (R.means rows.now) at }
    requires right { AreRight (R.means rows.now) notes.now }
    ensures { let f = R.means rows.now in IfOk result (λ sent. (root : Source) →
        SentFrom f root (reverse waits.old.items) (reverse waits.new.items) at sent) }
{
    if let Some(index) = notes.get(at) {
        return Ok(Sent::To(index));
    }
    match at {
        Source::Entry(subst, index) => Ok(enter_row(rows, waits, subst, index)?),
        Source::Tree(tree) => Ok(enter_tree(rows, waits, tree)?),
    }
}

/// Does what waits for a variable that is known, up to the next substitution.
fn unwind(notes: &mut Notes, waits: &mut Vec<Wait>, index: u128) -> Result<Sent, AllocError>
    ensures right { OnOk result ((f : Meanings) (root : Source) → AreRight f notes.old
        → Ends f root (reverse waits.old.items) index → AreRight f notes.new) }
    ensures sent { IfOk result (λ sent. (f : Meanings) (root : Source) → AreRight f notes.old
        → Ends f root (reverse waits.old.items) index
        → SentBack f root (reverse waits.new.items) sent) }
{
    while let Some(wait) = waits.pop() {
        match wait {
            Wait::Next(subst) => return Ok(Sent::On(Source::Entry(subst, index))),
            Wait::Note(at) => notes.insert(at, index)?,
        }
    }
    Ok(Sent::To(index))
}

/// One step, and then what waits where the variable is known.
fn advance<R: Reader>(
    rows: &R,
    notes: &mut Notes,
    waits: &mut Vec<Wait>,
    at: Source,
) -> Result<Sent, AllocError>
    requires stands { IsSource (R.means rows.now) at }
    requires right { AreRight (R.means rows.now) notes.old }
    ensures right { let f = R.means rows.now in OnOk result ((root : Source) →
        Leads f root (reverse waits.old.items) at → AreRight f notes.new) }
    ensures sent { let f = R.means rows.now in IfOk result (λ sent. (root : Source) →
        Leads f root (reverse waits.old.items) at
        → SentBack f root (reverse waits.new.items) sent) }
{
    match step(rows, notes, waits, at)? {
        Sent::To(index) => Ok(unwind(notes, waits, index)?),
        Sent::On(next) => Ok(Sent::On(next)),
        Sent::Unknown => Ok(Sent::Unknown),
    }
}

/// The variable that a variable becomes in the substitution of a row, if it is found before the
/// steps are too many: a few for each earlier row.
fn sent_to<R: Reader>(
    alloc: Global,
    rows: &R,
    subst: SubId,
    index: u128,
) -> Result<Option<u128>, AllocError>
    requires { IsSubst (R.means rows.now subst.0) }
    ensures { IfOk result (IsSent (R.means rows.now) (Source.Entry subst index)) }
{
    let mut notes = Notes::new(alloc);
    let mut waits = Vec::new(alloc);
    let mut at = Source::Entry(subst, index);
    for _ in 0..subst.0.saturating_mul(8) {
        match advance(rows, &mut notes, &mut waits, at)? {
            Sent::To(index) => return Ok(Some(index)),
            Sent::On(next) => at = next,
            Sent::Unknown => return Ok(None),
        }
    }
    Ok(None)
}

/// Whether a chain may have to be followed to tell what a variable becomes in the substitution of a
/// row: not where it passes, and not where this pushes a variable or an operator for it.
fn is_chained<R: Reader>(rows: &R, subst: SubId, index: u128) -> bool
    requires subst { IsSubst (R.means rows.now subst.0) }
    requires fits { index + 2 ^ 64 ≤ 2 ^ 128 }
{
    if passed(rows, subst, index, 0).is_some() {
        return false;
    }
    match rows.subst(subst) {
        SubRow::Push(_, tree) => index > 0 || matches!(rows.term(tree), TermRow::Instance(_, _)),
        SubRow::Then(_, _) => true,
        SubRow::Shift(_) => false,
    }
}

/// The variable that one becomes which meets the substitution of a row under so many binders, which
/// do not bind it: where that takes a chain to be followed, and is found without a walk through all
/// of it.
pub fn chained<R: Reader>(
    alloc: Global,
    rows: &R,
    subst: SubId,
    index: u128,
    lift: u64,
) -> Result<Option<u128>, AllocError>
    requires subst { IsSubst (R.means rows.now subst.0) }
    requires above { lift ≤ index }
    requires fits { index + 2 ^ 64 ≤ 2 ^ 128 }
    ensures near { IfOk result (λ found. IfSome found (λ past. past ≤ index + deepest)) }
    ensures meaning { let f = R.means rows.now in IfOk result (λ found. IfSome found (λ past.
        (ws : List Waiting) → variable_meaning f (waiting lift (Delayed.Under subst) ∷ ws) index
        ≡ variable_meaning f ws past)) }
{
    let lift = u128::from(lift);
    let index = index - lift;
    if !is_chained(rows, subst, index) {
        return Ok(None);
    }
    match sent_to(alloc, rows, subst, index)? {
        Some(past) if past <= index + u128::from(u64::MAX) => Ok(Some(past + lift)),
        _ => Ok(None),
    }
}
