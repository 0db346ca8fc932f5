//! What a rule wants and gives, as rows.

ghost use Rattle.std.specs.Prelude.{◌≡◌, ◌≤◌, ◌<◌, ◌+◌, IfOk, IfSome, IfNone};
ghost use Rattle.std.specs.Prelude.{IsOk, IsSome, IsTrue, true};
ghost use Rattle.std.specs.List.{list_all, list_any};
ghost use Rattle.theory.specs.RuleNames.{premises_of};
ghost use Rattle.trees.specs.Things.{Kept, meanings};
ghost use Rattle.trees.specs.Claimed.{claimed};
ghost use Rattle.rules.specs.Run.{rows_of_all};
ghost use Rattle.rules.specs.Shifts.{ShiftsFit};
ghost use Rattle.rules.specs.Schemas.{judgement_of, condition_of, places_of, test_places};
ghost use Rattle.rules.specs.Schemas.{fits, has_then, most_rows, most_wanted};
ghost use Rattle.conditions.specs.SideTests.{asked};
ghost use Rattle.rules.specs.Claims.{rule_over, premise_at, side_at};
ghost use Rattle.rules.specs.Claims.{conclusion_of, sides_in};

use crate::machine::rows_of;
use crate::program::{Program, Test};
use crate::table::schema_of;
use conditions::SideTest;
use rows::Maker;
use std::alloc::AllocError;
use theory::{Claim, RuleName};

/// The claim that a program makes.
pub(crate) fn claim_of<M: Maker>(
    maker: &mut M,
    parts: &[u64],
    program: Program,
) -> Result<Claim, AllocError>
    requires fits { list_all fits (places_of program) ≡ true }
    requires live { IsSome (meanings (M.means maker.old) parts.now) }
    requires says { IsSome (judgement_of (meanings (M.means maker.old) parts.now) program) }
    requires shifts { IsTrue (list_any has_then (places_of program)) →
        ShiftsFit (meanings (M.means maker.old) parts.now) }
    ensures covered { rows_of_all (places_of program) ≤ M.spare maker.old → IsOk result }
    ensures spends { M.spare maker.old ≤ M.spare maker.new + rows_of_all (places_of program) }
    ensures kept { Kept (M.means maker.old) (M.means maker.new) }
    ensures claim { IfOk result (λ claim. claimed (M.means maker.new) claim ≡
        judgement_of (meanings (M.means maker.old) parts.now) program) }
{
    match program {
        Program::Ctx(g) => {
            let [g]: [u64; 1] = rows_of(maker, parts, &[g])?;
            Ok(Claim::Ctx(g))
        }
        Program::Ty(g, a) => {
            let [g, a]: [u64; 2] = rows_of(maker, parts, &[g, a])?;
            Ok(Claim::Ty(g, a))
        }
        Program::TyEq(g, a, b) => {
            let [g, a, b]: [u64; 3] = rows_of(maker, parts, &[g, a, b])?;
            Ok(Claim::TyEq(g, a, b))
        }
        Program::Tm(g, a, t) => {
            let [g, a, t]: [u64; 3] = rows_of(maker, parts, &[g, a, t])?;
            Ok(Claim::Tm(g, a, t))
        }
        Program::TmEq(g, a, b, t) => {
            let [g, a, b, t]: [u64; 4] = rows_of(maker, parts, &[g, a, b, t])?;
            Ok(Claim::TmEq(g, a, b, t))
        }
        Program::Sb(h, d, g) => {
            let [h, d, g]: [u64; 3] = rows_of(maker, parts, &[h, d, g])?;
            Ok(Claim::Sb(h, d, g))
        }
    }
}

/// The side test that a program makes.
pub(crate) fn test_of<M: Maker>(
    maker: &mut M,
    parts: &[u64],
    test: Test,
) -> Result<SideTest, AllocError>
    requires fits { list_all fits (test_places test) ≡ true }
    requires live { IsSome (meanings (M.means maker.old) parts.now) }
    requires says { IsSome (condition_of (meanings (M.means maker.old) parts.now) test) }
    requires shifts { IsTrue (list_any has_then (test_places test)) →
        ShiftsFit (meanings (M.means maker.old) parts.now) }
    ensures covered { rows_of_all (test_places test) ≤ M.spare maker.old → IsOk result }
    ensures spends { M.spare maker.old ≤ M.spare maker.new + rows_of_all (test_places test) }
    ensures kept { Kept (M.means maker.old) (M.means maker.new) }
    ensures test { IfOk result (λ side. asked (M.means maker.new) side ≡
        condition_of (meanings (M.means maker.old) parts.now) test) }
{
    match test {
        Test::IsFormula(g, r) => {
            let [g, r]: [u64; 2] = rows_of(maker, parts, &[g, r])?;
            Ok(SideTest::IsFormula(g, r))
        }
        Test::IsFace(g, p) => {
            let [g, p]: [u64; 2] = rows_of(maker, parts, &[g, p])?;
            Ok(SideTest::IsFace(g, p))
        }
        Test::Holds(g, p) => {
            let [g, p]: [u64; 2] = rows_of(maker, parts, &[g, p])?;
            Ok(SideTest::Holds(g, p))
        }
        Test::Alike(h, d, e) => {
            let [h, d, e]: [u64; 3] = rows_of(maker, parts, &[h, d, e])?;
            Ok(SideTest::Alike(h, d, e))
        }
    }
}

/// The premise that a rule wants at a place, counted from 0. The parts are live rows of the
/// rule's kinds. It adds fewer than `most_wanted` rows.
pub fn wanted<M: Maker>(
    maker: &mut M,
    rule: RuleName,
    parts: &[u64],
    at: u8,
) -> Result<Claim, AllocError>
    requires parts { IsSome (rule_over rule (meanings (M.means maker.old) parts.now)) }
    requires within { at < premises_of rule }
    ensures covered { most_wanted ≤ M.spare maker.old + 1 → IsOk result }
    ensures spends { M.spare maker.old < M.spare maker.new + most_wanted }
    ensures kept { Kept (M.means maker.old) (M.means maker.new) }
    ensures claim { let r = rule_over rule (meanings (M.means maker.old) parts.now) in
        IfOk result (λ claim. claimed (M.means maker.new) claim ≡ premise_at at r) }
{
    claim_of(maker, parts, schema_of(rule).wants[at as usize])
}

/// The test of a rule's side condition at a place, counted from 0, and none past the last. The
/// parts are live rows of the rule's kinds. It adds fewer than `most_wanted` rows.
pub fn side<M: Maker>(
    maker: &mut M,
    rule: RuleName,
    parts: &[u64],
    at: u8,
) -> Result<Option<SideTest>, AllocError>
    requires { IsSome (rule_over rule (meanings (M.means maker.old) parts.now)) }
    ensures covered { most_wanted ≤ M.spare maker.old + 1 → IsOk result }
    ensures spends { M.spare maker.old < M.spare maker.new + most_wanted }
    ensures kept { Kept (M.means maker.old) (M.means maker.new) }
    ensures some { let r = rule_over rule (meanings (M.means maker.old) parts.now) in
        IfOk result (λ found. IfSome found (λ test.
        asked (M.means maker.new) test ≡ side_at at r)) }
    ensures place { let r = rule_over rule (meanings (M.means maker.old) parts.now) in
        IfOk result (λ found. IfSome found (λ _. at < sides_in r)) }
    ensures none { let r = rule_over rule (meanings (M.means maker.old) parts.now) in
        IfOk result (λ found. IfNone found (sides_in r ≤ at)) }
{
    let sides = schema_of(rule).sides;
    let at = at as usize;
    if at >= sides.len() {
        return Ok(None);
    }
    Ok(Some(test_of(maker, parts, sides[at])?))
}

/// The conclusion of a rule. The parts are live rows of the rule's kinds, and the shifts of the
/// substitutions among them are those that `then` takes. With the row of its node it adds at most
/// `most_rows` rows.
///
/// # Errors
/// Only where memory runs out; so for `wanted` and `side`.
pub fn concluded<M: Maker>(
    maker: &mut M,
    rule: RuleName,
    parts: &[u64],
) -> Result<Claim, AllocError>
    requires parts { IsSome (rule_over rule (meanings (M.means maker.old) parts.now)) }
    requires shifts { ShiftsFit (meanings (M.means maker.old) parts.now) }
    ensures covered { most_rows rule ≤ M.spare maker.old + 1 → IsOk result }
    ensures spends { M.spare maker.old < M.spare maker.new + most_rows rule }
    ensures kept { Kept (M.means maker.old) (M.means maker.new) }
    ensures claim { let r = rule_over rule (meanings (M.means maker.old) parts.now) in
        IfOk result (λ claim. claimed (M.means maker.new) claim ≡ conclusion_of r) }
{
    claim_of(maker, parts, schema_of(rule).gives)
}
