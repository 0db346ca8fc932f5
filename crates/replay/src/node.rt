//! Whether a node is an instance of its rule.

ghost use Rattle.std.specs.Prelude.{◌≡◌, ◌<◌, ◌↔◌, length, IfOk, OnOk, IfSome};
ghost use Rattle.std.specs.Prelude.{IfNone, IsSome, IsTrue, Some};
ghost use Rattle.std.specs.List.{All};
ghost use Rattle.theory.specs.RuleNames.{kinds_of, premises_of};
ghost use Rattle.trees.specs.Judgements.{Judgement};
ghost use Rattle.trees.specs.Things.{Kept};
ghost use Rattle.trees.specs.Claimed.{claimed};
ghost use Rattle.rows.specs.Shown.{things, store_means};
ghost use Rattle.rules.specs.Claims.{premise_at};
ghost use Rattle.conditions.specs.Sides.{SideHolds};
ghost use Rattle.derivation.specs.Meanings.{conclusion_at, conclusions_at};
ghost use Rattle.derivation.specs.Right.{RightNode};
ghost use Rattle.replay.specs.Filed.{file_meanings, AllFiled, AllFit, wants_of};
ghost use Rattle.replay.specs.Premises.{rule_at_rows};
ghost use Rattle.replay.specs.Sides.{Keeps, sides_of};

use crate::filed::Filed;
use crate::filed_rows::FiledRows;
use crate::named::named_rows;
use compare::Comparison;
use rows::RowStore;
use rules::{concluded, side, wanted};
use side_conditions::SideConditions;
use std::alloc::{AllocError, Global};
use theory::{Claim, RuleName, count_premises, part_kinds};

/// Whether a row is a node with the premise that a rule wants at a place. The store is as before.
fn premise_holds(
    comparison: &mut Comparison,
    store: &mut RowStore,
    filed: &FiledRows,
    rule: RuleName,
    rows: &[u64],
    premise: u64,
    at: u8,
) -> Result<bool, AllocError>
    requires filed { AllFiled (things store.old) filed.now }
    requires parts { IsSome (rule_at_rows (things store.old) rule rows.now) }
    requires within { at < premises_of rule }
    requires earlier { premise < length filed.now }
    ensures kept { Kept (store_means store.old) (store_means store.new) }
    ensures same { OnOk result (things store.new ≡ things store.old) }
    ensures holds { let xs = things store.old in IfOk result (λ holds. IsTrue holds ↔
        (conclusion_at (file_meanings xs filed.now) premise ≡
        premise_at at (rule_at_rows xs rule rows.now))) }
{
    let claim = match filed.row(premise) {
        Filed::Node(claim) => claim,
        Filed::Thing(_) => return Ok(false),
        Filed::Nothing => return Ok(false),
    };
    let mark = store.len();
    let wanted = wanted(store, rule, rows, at)?;
    let same = comparison.same_claim(store, wanted, claim)?;
    store.truncate(mark);
    Ok(same)
}

/// Whether rows are nodes with the premises that a rule wants, in order. The store is as before.
fn premises_hold(
    comparison: &mut Comparison,
    store: &mut RowStore,
    filed: &FiledRows,
    rule: RuleName,
    rows: &[u64],
    premises: &[u64],
) -> Result<bool, AllocError>
    requires filed { AllFiled (things store.old) filed.now }
    requires parts { IsSome (rule_at_rows (things store.old) rule rows.now) }
    requires count { length premises.now ≡ premises_of rule }
    requires earlier { All (λ k. k < length filed.now) premises.now }
    ensures kept { Kept (store_means store.old) (store_means store.new) }
    ensures same { OnOk result (things store.new ≡ things store.old) }
    ensures hold { let xs = things store.old in IfOk result (λ hold. IsTrue hold ↔
        (conclusions_at (file_meanings xs filed.now) premises.now ≡
        wants_of (rule_at_rows xs rule rows.now))) }
{
    for at in 0..count_premises(rule) {
        let premise = premises[at as usize];
        if !premise_holds(comparison, store, filed, rule, rows, premise, at)? {
            return Ok(false);
        }
    }
    Ok(true)
}

/// Whether all side conditions of a rule hold. The store is as before.
fn sides_hold(
    alloc: Global,
    sides: &mut SideConditions,
    store: &mut RowStore,
    rule: RuleName,
    rows: &[u64],
) -> Result<bool, AllocError>
    requires parts { IsSome (rule_at_rows (things store.old) rule rows.now) }
    requires keeps { Keeps sides.old store.old }
    ensures kept { Kept (store_means store.old) (store_means store.new) }
    ensures same { OnOk result (things store.new ≡ things store.old) }
    ensures keeps { Keeps sides.new store.new }
    ensures hold { let rule = rule_at_rows (things store.old) rule rows.now in
        IfOk result (λ hold. IsTrue hold ↔ All SideHolds (sides_of rule)) }
{
    let len = store.len();
    let mut at = 0;
    while let Some(test) = side(store, rule, rows, at)? {
        let holds = sides.decide(alloc, store, test, len as u64)?;
        store.truncate(len);
        if !holds {
            return Ok(false);
        }
        at += 1;
    }
    store.truncate(len);
    Ok(true)
}

/// The conclusion of a node, if it is an instance of its rule.
pub fn node_claim(
    alloc: Global,
    comparison: &mut Comparison,
    sides: &mut SideConditions,
    store: &mut RowStore,
    filed: &FiledRows,
    rule: RuleName,
    parts: &[u64],
    premises: &[u64],
) -> Result<Option<Claim>, AllocError>
    requires filed { AllFiled (things store.old) filed.now }
    requires fit { AllFit (file_meanings (things store.old) filed.now) }
    requires parts { length parts.now ≡ length (kinds_of rule) }
    requires premises { length premises.now ≡ premises_of rule }
    requires earlier_parts { All (λ k. k < length filed.now) parts.now }
    requires earlier_premises { All (λ k. k < length filed.now) premises.now }
    requires keeps { Keeps sides.old store.old }
    ensures kept { Kept (store_means store.old) (store_means store.new) }
    ensures keeps { Keeps sides.new store.new }
    ensures some { let before = file_meanings (things store.old) filed.now in
        IfOk result (λ found. IfSome found (λ claim. (J : Judgement) ×
        RightNode before rule parts.now premises.now J ×
        (claimed (store_means store.new) claim ≡ Some J))) }
    ensures none { let before = file_meanings (things store.old) filed.now in
        IfOk result (λ found. IfNone found ((J : Judgement) →
        RightNode before rule parts.now premises.now J → ⊥)) }
{
    let Some(rows) = named_rows(alloc, store, filed, parts, part_kinds(rule))? else {
        return Ok(None);
    };
    if !premises_hold(comparison, store, filed, rule, &rows, premises)? {
        return Ok(None);
    }
    if !sides_hold(alloc, sides, store, rule, &rows)? {
        return Ok(None);
    }
    Ok(Some(concluded(store, rule, &rows)?))
}
