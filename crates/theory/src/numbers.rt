//! The numbers of the rules, for what keeps a rule in a word.

ghost use Rattle.std.specs.Prelude.{◌≡◌, slice_get, Some};
ghost use Rattle.theory.specs.declared.rule.TheConstants.{RULES};

use crate::rule::{
    CompRule, ContextRule, EqualityRule, GlueRule, InstanceRule, NatRule, PathRule, PiRule,
    RuleName, SigmaRule, SystemRule, UniverseRule,
};

// Written by tools/write_rules.py from here on.

fn context_number(rule: ContextRule) -> u64
    ensures { slice_get RULES.now result ≡ Some (RuleName.Contexts rule) }
{
    match rule {
        ContextRule::CtxNil => 14,
        ContextRule::CtxVar => 15,
        ContextRule::CtxName => 13,
        ContextRule::CtxFace => 12,
        ContextRule::SubId => 66,
        ContextRule::SubWk => 68,
        ContextRule::SubWkName => 70,
        ContextRule::SubWkFace => 69,
        ContextRule::SubVar => 67,
        ContextRule::SubForm => 65,
        ContextRule::SubFace => 64,
        ContextRule::SubComp => 63,
    }
}

fn instance_number(rule: InstanceRule) -> u64
    ensures { slice_get RULES.now result ≡ Some (RuleName.Instances rule) }
{
    match rule {
        InstanceRule::TySub => 93,
        InstanceRule::TyEqSub => 99,
        InstanceRule::TmSub => 82,
        InstanceRule::TmEqSub => 88,
        InstanceRule::TyCong => 91,
        InstanceRule::TmCong => 79,
        InstanceRule::TyInt => 92,
        InstanceRule::TmInt => 81,
        InstanceRule::TmVar => 83,
    }
}

fn equality_number(rule: EqualityRule) -> u64
    ensures { slice_get RULES.now result ≡ Some (RuleName.Equality rule) }
{
    match rule {
        EqualityRule::TyEqRefl => 98,
        EqualityRule::TyEqSym => 100,
        EqualityRule::TyEqTrans => 101,
        EqualityRule::TmEqRefl => 87,
        EqualityRule::TmEqSym => 89,
        EqualityRule::TmEqTrans => 90,
        EqualityRule::TmConv => 80,
        EqualityRule::TmEqConv => 85,
        EqualityRule::TyEqCover => 97,
        EqualityRule::TmEqCover => 86,
        EqualityRule::TyEqAbsurd => 96,
        EqualityRule::TmEqAbsurd => 84,
    }
}

fn universe_number(rule: UniverseRule) -> u64
    ensures { slice_get RULES.now result ≡ Some (RuleName.Universe rule) }
{
    match rule {
        UniverseRule::TyUniv => 95,
        UniverseRule::TyU => 94,
        UniverseRule::TyEqU => 102,
    }
}

fn pi_number(rule: PiRule) -> u64
    ensures { slice_get RULES.now result ≡ Some (RuleName.Pi rule) }
{
    match rule {
        PiRule::PiTy => 49,
        PiRule::PiU => 51,
        PiRule::PiTyCong => 50,
        PiRule::PiUCong => 52,
        PiRule::Lam => 30,
        PiRule::App => 0,
        PiRule::AppCong => 1,
        PiRule::PiBeta => 47,
        PiRule::PiEta => 48,
    }
}

fn sigma_number(rule: SigmaRule) -> u64
    ensures { slice_get RULES.now result ≡ Some (RuleName.Sigma rule) }
{
    match rule {
        SigmaRule::SigTy => 57,
        SigmaRule::SigU => 59,
        SigmaRule::SigTyCong => 58,
        SigmaRule::SigUCong => 60,
        SigmaRule::Pair => 36,
        SigmaRule::Fst => 18,
        SigmaRule::Snd => 61,
        SigmaRule::FstCong => 19,
        SigmaRule::SndCong => 62,
        SigmaRule::SigBeta1 => 54,
        SigmaRule::SigBeta2 => 55,
        SigmaRule::SigEta => 56,
    }
}

fn path_number(rule: PathRule) -> u64
    ensures { slice_get RULES.now result ≡ Some (RuleName.Paths rule) }
{
    match rule {
        PathRule::PathTy => 43,
        PathRule::PathU => 45,
        PathRule::PathTyCong => 44,
        PathRule::PathUCong => 46,
        PathRule::PLam => 53,
        PathRule::PApp => 37,
        PathRule::PAppCong => 38,
        PathRule::PathLeft => 41,
        PathRule::PathRight => 42,
        PathRule::PathBeta => 39,
        PathRule::PathEta => 40,
    }
}

fn nat_number(rule: NatRule) -> u64
    ensures { slice_get RULES.now result ≡ Some (RuleName.Naturals rule) }
{
    match rule {
        NatRule::NatU => 31,
        NatRule::Zero => 106,
        NatRule::Suc => 71,
        NatRule::SucCong => 72,
        NatRule::NatRec => 32,
        NatRule::NatRecCong => 33,
        NatRule::NatRecZero => 35,
        NatRule::NatRecSuc => 34,
    }
}

fn system_number(rule: SystemRule) -> u64
    ensures { slice_get RULES.now result ≡ Some (RuleName.Systems rule) }
{
    match rule {
        SystemRule::SysTy => 76,
        SystemRule::SysTm => 75,
        SystemRule::SysTyLeft => 77,
        SystemRule::SysTyRight => 78,
        SystemRule::SysLeft => 73,
        SystemRule::SysRight => 74,
        SystemRule::EmptyTy => 17,
        SystemRule::EmptyTm => 16,
    }
}

fn comp_number(rule: CompRule) -> u64
    ensures { slice_get RULES.now result ≡ Some (RuleName.Composition rule) }
{
    match rule {
        CompRule::Comp => 2,
        CompRule::CompFace => 4,
        CompRule::CompCong => 3,
        CompRule::CompPi => 7,
        CompRule::CompSig => 8,
        CompRule::CompPath => 6,
        CompRule::CompZero => 11,
        CompRule::CompSuc => 9,
        CompRule::CompGlue => 5,
        CompRule::CompU => 10,
    }
}

fn glue_number(rule: GlueRule) -> u64
    ensures { slice_get RULES.now result ≡ Some (RuleName.Gluing rule) }
{
    match rule {
        GlueRule::GlueTy => 24,
        GlueRule::GlueU => 27,
        GlueRule::GlueTyFace => 26,
        GlueRule::GlueUFace => 29,
        GlueRule::GlueTyCong => 25,
        GlueRule::GlueUCong => 28,
        GlueRule::Glue => 20,
        GlueRule::GlueFace => 23,
        GlueRule::Unglue => 103,
        GlueRule::UnglueFace => 105,
        GlueRule::UnglueCong => 104,
        GlueRule::GlueBeta => 21,
        GlueRule::GlueEta => 22,
    }
}

/// The number of a rule among all of them, which are in the order of their names.
pub fn rule_number(rule: RuleName) -> u64
    ensures { slice_get RULES.now result ≡ Some rule }
{
    match rule {
        RuleName::Contexts(rule) => context_number(rule),
        RuleName::Instances(rule) => instance_number(rule),
        RuleName::Equality(rule) => equality_number(rule),
        RuleName::Universe(rule) => universe_number(rule),
        RuleName::Pi(rule) => pi_number(rule),
        RuleName::Sigma(rule) => sigma_number(rule),
        RuleName::Paths(rule) => path_number(rule),
        RuleName::Naturals(rule) => nat_number(rule),
        RuleName::Systems(rule) => system_number(rule),
        RuleName::Composition(rule) => comp_number(rule),
        RuleName::Gluing(rule) => glue_number(rule),
    }
}
