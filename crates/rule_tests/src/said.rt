//! What each rule wants, asks and gives.

ghost use Rattle.std.specs.Prelude.{IsSome};
ghost use Rattle.trees.specs.Things.{meanings};
ghost use Rattle.rules.specs.Claims.{rule_over};
ghost use Rattle.rules.specs.Shifts.{ShiftsFit};

use crate::known_rows::{
    APP, AT_START, COMPOSED, COMPOSED_OTHERWISE, CTX, FACE, FACED, FACED_NAMED, ID, JOINED,
    KnownRows, LAM, NAMED, NAT, NIL, ONE, PI, PUSHED, START, UNIVERSE, UP, VAR, ZERO,
};
use rows::Rows;
use rules::{SideTest, concluded, side, wanted};
use std::alloc::AllocError;
use std::process::Abort;
use std::test::Fail;
use theory::{
    Claim, CompRule, ContextRule, EqualityRule, InstanceRule, NatRule, PiRule, RuleName,
    UniverseRule, count_premises,
};

/// Over these parts the rule wants these premises.
fn wants_these(
    rt: &impl Abort,
    maker: &mut KnownRows,
    rule: RuleName,
    parts: &[u64],
    wants: &[Claim],
) -> Result<(), AllocError>
    requires parts { IsSome
        (rule_over rule (meanings (⟦<KnownRows as Rows>⟧.means maker.old) parts.now)) }
{
    assert_eq!(rt; count_premises(rule) as usize, wants.len(), "at {rule:?}");
    for at in 0..count_premises(rule) {
        let got = wanted(maker, rule, parts, at)?;
        assert_eq!(rt; Some(got), wants.get(at as usize).copied(), "at {rule:?}");
    }
    Ok(())
}

/// Over these parts the rule has these side conditions, at most four.
fn asks_these(
    rt: &impl Abort,
    maker: &mut KnownRows,
    rule: RuleName,
    parts: &[u64],
    asks: &[SideTest],
) -> Result<(), AllocError>
    requires parts { IsSome
        (rule_over rule (meanings (⟦<KnownRows as Rows>⟧.means maker.old) parts.now)) }
{
    for at in 0..5 {
        let got = side(maker, rule, parts, at)?;
        assert_eq!(rt; got, asks.get(at as usize).copied(), "at {rule:?}");
    }
    Ok(())
}

/// Over these parts the rule wants these premises, has these side conditions, and gives that.
fn says(
    rt: &impl Abort,
    maker: &mut KnownRows,
    rule: RuleName,
    parts: &[u64],
    wants: &[Claim],
    asks: &[SideTest],
    gives: Claim,
) -> Result<(), AllocError>
    requires parts { IsSome
        (rule_over rule (meanings (⟦<KnownRows as Rows>⟧.means maker.old) parts.now)) }
    requires shifts { ShiftsFit (meanings (⟦<KnownRows as Rows>⟧.means maker.old) parts.now) }
{
    wants_these(rt, maker, rule, parts, wants)?;
    asks_these(rt, maker, rule, parts, asks)?;
    let got = concluded(maker, rule, parts)?;
    assert_eq!(rt; got, gives, "at {rule:?}");
    Ok(())
}

#[test]
#[tactic(auto, unfolding(rules::specs::Rules::rule_at))]
fn contexts_say(rt: HostRuntime) -> Result<(), Fail> {
    let maker = &mut KnownRows;

    let rule = RuleName::Contexts(ContextRule::CtxNil);
    says(&rt, maker, rule, &[], &[], &[], Claim::Ctx(NIL))?;

    let rule = RuleName::Contexts(ContextRule::CtxVar);
    let wants = [Claim::Ty(NIL, NAT)];
    says(&rt, maker, rule, &[NIL, NAT], &wants, &[], Claim::Ctx(CTX))?;

    let rule = RuleName::Contexts(ContextRule::CtxFace);
    let wants = [Claim::Ctx(NIL)];
    let asks = [SideTest::IsFace(NIL, FACE)];
    says(
        &rt,
        maker,
        rule,
        &[NIL, FACE],
        &wants,
        &asks,
        Claim::Ctx(FACED),
    )?;
    Ok(())
}

#[test]
#[tactic(auto, unfolding(rules::specs::Rules::rule_at))]
fn substitutions_say(rt: HostRuntime) -> Result<(), Fail> {
    let maker = &mut KnownRows;

    let rule = RuleName::Contexts(ContextRule::SubId);
    let wants = [Claim::Ctx(NIL)];
    says(
        &rt,
        maker,
        rule,
        &[NIL],
        &wants,
        &[],
        Claim::Sb(NIL, ID, NIL),
    )?;

    let rule = RuleName::Contexts(ContextRule::SubWk);
    let wants = [Claim::Sb(NIL, ID, NIL), Claim::Ty(NIL, NAT)];
    says(
        &rt,
        maker,
        rule,
        &[NIL, ID, NIL, NAT],
        &wants,
        &[],
        Claim::Sb(CTX, UP, NIL),
    )?;

    let rule = RuleName::Contexts(ContextRule::SubVar);
    let wants = [
        Claim::Sb(NIL, ID, NIL),
        Claim::Ty(NIL, NAT),
        Claim::Tm(NIL, ZERO, NAT),
    ];
    says(
        &rt,
        maker,
        rule,
        &[NIL, ID, NIL, NAT, ZERO],
        &wants,
        &[],
        Claim::Sb(NIL, PUSHED, CTX),
    )?;
    Ok(())
}

#[test]
#[tactic(auto, unfolding(rules::specs::Rules::rule_at))]
fn instances_say(rt: HostRuntime) -> Result<(), Fail> {
    let maker = &mut KnownRows;

    let rule = RuleName::Instances(InstanceRule::TySub);
    let wants = [Claim::Sb(CTX, UP, NIL), Claim::Ty(NIL, NAT)];
    says(
        &rt,
        maker,
        rule,
        &[CTX, UP, NIL, NAT],
        &wants,
        &[],
        Claim::Ty(CTX, NAT),
    )?;

    let rule = RuleName::Instances(InstanceRule::TmSub);
    let wants = [Claim::Sb(NIL, PUSHED, CTX), Claim::Tm(CTX, VAR, NAT)];
    says(
        &rt,
        maker,
        rule,
        &[NIL, PUSHED, CTX, VAR, NAT],
        &wants,
        &[],
        Claim::Tm(NIL, ZERO, NAT),
    )?;

    let rule = RuleName::Instances(InstanceRule::TmVar);
    let wants = [Claim::Ty(NIL, NAT)];
    says(
        &rt,
        maker,
        rule,
        &[NIL, NAT],
        &wants,
        &[],
        Claim::Tm(CTX, VAR, NAT),
    )?;
    Ok(())
}

#[test]
#[tactic(auto, unfolding(rules::specs::Rules::rule_at))]
fn functions_say(rt: HostRuntime) -> Result<(), Fail> {
    let maker = &mut KnownRows;

    let rule = RuleName::Pi(PiRule::PiTy);
    let wants = [Claim::Ty(NIL, NAT), Claim::Ty(CTX, NAT)];
    says(
        &rt,
        maker,
        rule,
        &[NIL, NAT, NAT],
        &wants,
        &[],
        Claim::Ty(NIL, PI),
    )?;

    let rule = RuleName::Pi(PiRule::PiU);
    let wants = [Claim::Tm(NIL, NAT, UNIVERSE), Claim::Tm(CTX, NAT, UNIVERSE)];
    says(
        &rt,
        maker,
        rule,
        &[NIL, NAT, NAT],
        &wants,
        &[],
        Claim::Tm(NIL, PI, UNIVERSE),
    )?;

    let rule = RuleName::Pi(PiRule::Lam);
    let wants = [Claim::Ty(NIL, NAT), Claim::Tm(CTX, VAR, NAT)];
    says(
        &rt,
        maker,
        rule,
        &[NIL, NAT, VAR, NAT],
        &wants,
        &[],
        Claim::Tm(NIL, LAM, PI),
    )?;

    let rule = RuleName::Pi(PiRule::App);
    let wants = [Claim::Tm(NIL, LAM, PI), Claim::Tm(NIL, ZERO, NAT)];
    says(
        &rt,
        maker,
        rule,
        &[NIL, LAM, ZERO, NAT, NAT],
        &wants,
        &[],
        Claim::Tm(NIL, APP, NAT),
    )?;
    Ok(())
}

#[test]
#[tactic(auto, unfolding(rules::specs::Rules::rule_at))]
fn numbers_say(rt: HostRuntime) -> Result<(), Fail> {
    let maker = &mut KnownRows;

    let rule = RuleName::Universe(UniverseRule::TyU);
    let wants = [Claim::Tm(NIL, NAT, UNIVERSE)];
    says(
        &rt,
        maker,
        rule,
        &[NIL, NAT],
        &wants,
        &[],
        Claim::Ty(NIL, NAT),
    )?;

    let rule = RuleName::Naturals(NatRule::NatU);
    let wants = [Claim::Ctx(NIL)];
    says(
        &rt,
        maker,
        rule,
        &[NIL],
        &wants,
        &[],
        Claim::Tm(NIL, NAT, UNIVERSE),
    )?;

    let rule = RuleName::Naturals(NatRule::Zero);
    let wants = [Claim::Ctx(NIL)];
    says(
        &rt,
        maker,
        rule,
        &[NIL],
        &wants,
        &[],
        Claim::Tm(NIL, ZERO, NAT),
    )?;

    let rule = RuleName::Naturals(NatRule::Suc);
    let wants = [Claim::Tm(NIL, ZERO, NAT)];
    says(
        &rt,
        maker,
        rule,
        &[NIL, ZERO],
        &wants,
        &[],
        Claim::Tm(NIL, ONE, NAT),
    )?;
    Ok(())
}

#[test]
#[tactic(auto, unfolding(rules::specs::Rules::rule_at))]
fn equations_say(rt: HostRuntime) -> Result<(), Fail> {
    let maker = &mut KnownRows;

    let rule = RuleName::Equality(EqualityRule::TmEqCover);
    let parts = [NIL, FACE, FACE, ZERO, ONE, NAT];
    let wants = [
        Claim::Tm(NIL, ZERO, NAT),
        Claim::Tm(NIL, ONE, NAT),
        Claim::TmEq(FACED, ZERO, ONE, NAT),
        Claim::TmEq(FACED, ZERO, ONE, NAT),
    ];
    let asks = [
        SideTest::IsFace(NIL, FACE),
        SideTest::IsFace(NIL, FACE),
        SideTest::Holds(NIL, JOINED),
    ];
    let gives = Claim::TmEq(NIL, ZERO, ONE, NAT);
    says(&rt, maker, rule, &parts, &wants, &asks, gives)?;

    let rule = RuleName::Composition(CompRule::CompCong);
    let parts = [NIL, NAT, UNIVERSE, FACE, FACE, ZERO, ONE, VAR, LAM];
    let wants = [
        Claim::TyEq(NAMED, NAT, UNIVERSE),
        Claim::Tm(FACED_NAMED, ZERO, NAT),
        Claim::Tm(NIL, VAR, NAT),
        Claim::TmEq(FACED, VAR, ZERO, NAT),
        Claim::TmEq(FACED_NAMED, ZERO, ONE, NAT),
        Claim::TmEq(NIL, VAR, LAM, NAT),
    ];
    let asks = [
        SideTest::IsFace(NIL, FACE),
        SideTest::IsFace(NIL, FACE),
        SideTest::Holds(FACED, FACE),
        SideTest::Holds(FACED, FACE),
    ];
    let gives = Claim::TmEq(NIL, COMPOSED, COMPOSED_OTHERWISE, NAT);
    says(&rt, maker, rule, &parts, &wants, &asks, gives)?;
    Ok(())
}

#[test]
#[tactic(auto, unfolding(rules::specs::Rules::rule_at))]
fn side_conditions_say(rt: HostRuntime) -> Result<(), Fail> {
    let maker = &mut KnownRows;

    let rule = RuleName::Contexts(ContextRule::SubForm);
    let wants = [Claim::Sb(NIL, ID, NIL)];
    let asks = [SideTest::IsFormula(NIL, START)];
    let gives = Claim::Sb(NIL, AT_START, NAMED);
    says(
        &rt,
        maker,
        rule,
        &[NIL, ID, NIL, START],
        &wants,
        &asks,
        gives,
    )?;

    let rule = RuleName::Contexts(ContextRule::SubFace);
    let wants = [Claim::Sb(NIL, ID, NIL)];
    let asks = [SideTest::IsFace(NIL, FACE), SideTest::Holds(NIL, FACE)];
    let gives = Claim::Sb(NIL, ID, FACED);
    says(
        &rt,
        maker,
        rule,
        &[NIL, ID, NIL, FACE],
        &wants,
        &asks,
        gives,
    )?;

    let rule = RuleName::Instances(InstanceRule::TyInt);
    let wants = [
        Claim::Sb(NIL, ID, CTX),
        Claim::Sb(NIL, PUSHED, CTX),
        Claim::Ty(CTX, NAT),
    ];
    let asks = [SideTest::Alike(NIL, ID, PUSHED)];
    let gives = Claim::TyEq(NIL, NAT, NAT);
    says(
        &rt,
        maker,
        rule,
        &[NIL, ID, PUSHED, CTX, NAT],
        &wants,
        &asks,
        gives,
    )?;
    Ok(())
}
