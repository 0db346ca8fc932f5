//! The rules, and how a name finds one.

ghost use Rattle.std.specs.Prelude.{◌≡◌, ◌<◌, ◌≤◌, IfSome, IfNone, length, slice_get, Some};
ghost use Rattle.theory.specs.RuleNames.{kinds_of, premises_of, name_of, first_version, IsRule};
ghost use Rattle.theory.specs.declared.rule.RuleName.{RuleName};

use crate::signatures::signature_of;
use trees::PartKind;

// Written by tools/write_rules.py from here on.

/// The rules that conclude a context or a substitution.
#[derive(Clone, Copy, Debug, PartialEq, Eq)]
pub enum ContextRule {
    CtxNil,
    CtxVar,
    CtxName,
    CtxFace,
    SubId,
    SubWk,
    SubWkName,
    SubWkFace,
    SubVar,
    SubForm,
    SubFace,
    SubComp,
}

/// The rules that apply a substitution, and that of the variable.
#[derive(Clone, Copy, Debug, PartialEq, Eq)]
pub enum InstanceRule {
    TySub,
    TyEqSub,
    TmSub,
    TmEqSub,
    TyCong,
    TmCong,
    TyInt,
    TmInt,
    TmVar,
}

/// The rules of equality: an equivalence, kept by conversion, and decided on faces that cover all.
#[derive(Clone, Copy, Debug, PartialEq, Eq)]
pub enum EqualityRule {
    TyEqRefl,
    TyEqSym,
    TyEqTrans,
    TmEqRefl,
    TmEqSym,
    TmEqTrans,
    TmConv,
    TmEqConv,
    TyEqCover,
    TmEqCover,
    TyEqAbsurd,
    TmEqAbsurd,
}

/// The rules of the universe.
#[derive(Clone, Copy, Debug, PartialEq, Eq)]
pub enum UniverseRule {
    TyUniv,
    TyU,
    TyEqU,
}

/// The rules of functions.
#[derive(Clone, Copy, Debug, PartialEq, Eq)]
pub enum PiRule {
    PiTy,
    PiU,
    PiTyCong,
    PiUCong,
    Lam,
    App,
    AppCong,
    PiBeta,
    PiEta,
}

/// The rules of pairs.
#[derive(Clone, Copy, Debug, PartialEq, Eq)]
pub enum SigmaRule {
    SigTy,
    SigU,
    SigTyCong,
    SigUCong,
    Pair,
    Fst,
    Snd,
    FstCong,
    SndCong,
    SigBeta1,
    SigBeta2,
    SigEta,
}

/// The rules of paths.
#[derive(Clone, Copy, Debug, PartialEq, Eq)]
pub enum PathRule {
    PathTy,
    PathU,
    PathTyCong,
    PathUCong,
    PLam,
    PApp,
    PAppCong,
    PathLeft,
    PathRight,
    PathBeta,
    PathEta,
}

/// The rules of the natural numbers.
#[derive(Clone, Copy, Debug, PartialEq, Eq)]
pub enum NatRule {
    NatU,
    Zero,
    Suc,
    SucCong,
    NatRec,
    NatRecCong,
    NatRecZero,
    NatRecSuc,
}

/// The rules of systems.
#[derive(Clone, Copy, Debug, PartialEq, Eq)]
pub enum SystemRule {
    SysTy,
    SysTm,
    SysTyLeft,
    SysTyRight,
    SysLeft,
    SysRight,
    EmptyTy,
    EmptyTm,
}

/// The rules of composition.
#[derive(Clone, Copy, Debug, PartialEq, Eq)]
pub enum CompRule {
    Comp,
    CompFace,
    CompCong,
    CompPi,
    CompSig,
    CompPath,
    CompZero,
    CompSuc,
    CompGlue,
    CompU,
}

/// The rules of Glue.
#[derive(Clone, Copy, Debug, PartialEq, Eq)]
pub enum GlueRule {
    GlueTy,
    GlueU,
    GlueTyFace,
    GlueUFace,
    GlueTyCong,
    GlueUCong,
    Glue,
    GlueFace,
    Unglue,
    UnglueFace,
    UnglueCong,
    GlueBeta,
    GlueEta,
}

/// A rule. The rules stand in families.
#[derive(Clone, Copy, Debug, PartialEq, Eq)]
pub enum RuleName {
    Contexts(ContextRule),
    Instances(InstanceRule),
    Equality(EqualityRule),
    Universe(UniverseRule),
    Pi(PiRule),
    Sigma(SigmaRule),
    Paths(PathRule),
    Naturals(NatRule),
    Systems(SystemRule),
    Composition(CompRule),
    Gluing(GlueRule),
}

/// Every rule, in the order of their names.
pub static RULES: &[RuleName] = &[
    RuleName::Pi(PiRule::App),
    RuleName::Pi(PiRule::AppCong),
    RuleName::Composition(CompRule::Comp),
    RuleName::Composition(CompRule::CompCong),
    RuleName::Composition(CompRule::CompFace),
    RuleName::Composition(CompRule::CompGlue),
    RuleName::Composition(CompRule::CompPath),
    RuleName::Composition(CompRule::CompPi),
    RuleName::Composition(CompRule::CompSig),
    RuleName::Composition(CompRule::CompSuc),
    RuleName::Composition(CompRule::CompU),
    RuleName::Composition(CompRule::CompZero),
    RuleName::Contexts(ContextRule::CtxFace),
    RuleName::Contexts(ContextRule::CtxName),
    RuleName::Contexts(ContextRule::CtxNil),
    RuleName::Contexts(ContextRule::CtxVar),
    RuleName::Systems(SystemRule::EmptyTm),
    RuleName::Systems(SystemRule::EmptyTy),
    RuleName::Sigma(SigmaRule::Fst),
    RuleName::Sigma(SigmaRule::FstCong),
    RuleName::Gluing(GlueRule::Glue),
    RuleName::Gluing(GlueRule::GlueBeta),
    RuleName::Gluing(GlueRule::GlueEta),
    RuleName::Gluing(GlueRule::GlueFace),
    RuleName::Gluing(GlueRule::GlueTy),
    RuleName::Gluing(GlueRule::GlueTyCong),
    RuleName::Gluing(GlueRule::GlueTyFace),
    RuleName::Gluing(GlueRule::GlueU),
    RuleName::Gluing(GlueRule::GlueUCong),
    RuleName::Gluing(GlueRule::GlueUFace),
    RuleName::Pi(PiRule::Lam),
    RuleName::Naturals(NatRule::NatU),
    RuleName::Naturals(NatRule::NatRec),
    RuleName::Naturals(NatRule::NatRecCong),
    RuleName::Naturals(NatRule::NatRecSuc),
    RuleName::Naturals(NatRule::NatRecZero),
    RuleName::Sigma(SigmaRule::Pair),
    RuleName::Paths(PathRule::PApp),
    RuleName::Paths(PathRule::PAppCong),
    RuleName::Paths(PathRule::PathBeta),
    RuleName::Paths(PathRule::PathEta),
    RuleName::Paths(PathRule::PathLeft),
    RuleName::Paths(PathRule::PathRight),
    RuleName::Paths(PathRule::PathTy),
    RuleName::Paths(PathRule::PathTyCong),
    RuleName::Paths(PathRule::PathU),
    RuleName::Paths(PathRule::PathUCong),
    RuleName::Pi(PiRule::PiBeta),
    RuleName::Pi(PiRule::PiEta),
    RuleName::Pi(PiRule::PiTy),
    RuleName::Pi(PiRule::PiTyCong),
    RuleName::Pi(PiRule::PiU),
    RuleName::Pi(PiRule::PiUCong),
    RuleName::Paths(PathRule::PLam),
    RuleName::Sigma(SigmaRule::SigBeta1),
    RuleName::Sigma(SigmaRule::SigBeta2),
    RuleName::Sigma(SigmaRule::SigEta),
    RuleName::Sigma(SigmaRule::SigTy),
    RuleName::Sigma(SigmaRule::SigTyCong),
    RuleName::Sigma(SigmaRule::SigU),
    RuleName::Sigma(SigmaRule::SigUCong),
    RuleName::Sigma(SigmaRule::Snd),
    RuleName::Sigma(SigmaRule::SndCong),
    RuleName::Contexts(ContextRule::SubComp),
    RuleName::Contexts(ContextRule::SubFace),
    RuleName::Contexts(ContextRule::SubForm),
    RuleName::Contexts(ContextRule::SubId),
    RuleName::Contexts(ContextRule::SubVar),
    RuleName::Contexts(ContextRule::SubWk),
    RuleName::Contexts(ContextRule::SubWkFace),
    RuleName::Contexts(ContextRule::SubWkName),
    RuleName::Naturals(NatRule::Suc),
    RuleName::Naturals(NatRule::SucCong),
    RuleName::Systems(SystemRule::SysLeft),
    RuleName::Systems(SystemRule::SysRight),
    RuleName::Systems(SystemRule::SysTm),
    RuleName::Systems(SystemRule::SysTy),
    RuleName::Systems(SystemRule::SysTyLeft),
    RuleName::Systems(SystemRule::SysTyRight),
    RuleName::Instances(InstanceRule::TmCong),
    RuleName::Equality(EqualityRule::TmConv),
    RuleName::Instances(InstanceRule::TmInt),
    RuleName::Instances(InstanceRule::TmSub),
    RuleName::Instances(InstanceRule::TmVar),
    RuleName::Equality(EqualityRule::TmEqAbsurd),
    RuleName::Equality(EqualityRule::TmEqConv),
    RuleName::Equality(EqualityRule::TmEqCover),
    RuleName::Equality(EqualityRule::TmEqRefl),
    RuleName::Instances(InstanceRule::TmEqSub),
    RuleName::Equality(EqualityRule::TmEqSym),
    RuleName::Equality(EqualityRule::TmEqTrans),
    RuleName::Instances(InstanceRule::TyCong),
    RuleName::Instances(InstanceRule::TyInt),
    RuleName::Instances(InstanceRule::TySub),
    RuleName::Universe(UniverseRule::TyU),
    RuleName::Universe(UniverseRule::TyUniv),
    RuleName::Equality(EqualityRule::TyEqAbsurd),
    RuleName::Equality(EqualityRule::TyEqCover),
    RuleName::Equality(EqualityRule::TyEqRefl),
    RuleName::Instances(InstanceRule::TyEqSub),
    RuleName::Equality(EqualityRule::TyEqSym),
    RuleName::Equality(EqualityRule::TyEqTrans),
    RuleName::Universe(UniverseRule::TyEqU),
    RuleName::Gluing(GlueRule::Unglue),
    RuleName::Gluing(GlueRule::UnglueCong),
    RuleName::Gluing(GlueRule::UnglueFace),
    RuleName::Naturals(NatRule::Zero),
];

// Written by hand from here on.

/// The name of a rule in derivation files.
pub fn rule_name(rule: RuleName) -> &'static str
    ensures { result.now ≡ name_of rule }
{
    signature_of(rule).name
}

/// The kinds of the parts of a rule, in its order.
pub fn part_kinds(rule: RuleName) -> &'static [PartKind]
    ensures kinds { result.now ≡ kinds_of rule }
    ensures few { length result.now ≤ 16 }
{
    signature_of(rule).parts
}

/// The number of parts of a rule.
pub fn count_parts(rule: RuleName) -> u8
    ensures { result ≡ length (kinds_of rule) }
{
    part_kinds(rule).len() as u8
}

/// The kind of a part of a rule; parts are counted from 0.
pub fn part_kind(rule: RuleName, at: u8) -> PartKind
    requires { at < length (kinds_of rule) }
    ensures { slice_get (kinds_of rule) at ≡ Some result }
{
    part_kinds(rule)[at as usize]
}

/// The number of premises of a rule.
pub fn count_premises(rule: RuleName) -> u8
    ensures { result ≡ premises_of rule }
{
    signature_of(rule).premises
}

/// The rule of this name in any version, if any.
fn named(name: &[u8]) -> Option<RuleName>
    ensures some { IfSome result (λ rule. name.now ≡ name_of rule) }
    ensures none { IfNone result ((rule : RuleName) → name.now ≡ name_of rule → ⊥) }
{
    let place = RULES.binary_search_by(|rule| rule_name(*rule).as_bytes().cmp(name));
    match place {
        Ok(at) => Some(RULES[at]),
        Err(_) => None,
    }
}

/// The rule of this name in a version of the rules, if any.
pub fn rule_of(name: &[u8], version: u32) -> Option<RuleName>
    ensures some { IfSome result (IsRule version name.now) }
    ensures none { IfNone result ((rule : RuleName) → IsRule version name.now rule → ⊥) }
{
    let rule = named(name)?;
    if signature_of(rule).version <= version {
        Some(rule)
    } else {
        None
    }
}

/// The rule of a number.
pub fn numbered_rule(number: u64) -> RuleName
    requires { number < length RULES.now }
    ensures { slice_get RULES.now number ≡ Some result }
{
    nth(RULES, number)
}

/// One of some rules.
fn nth(rules: &[RuleName], at: u64) -> RuleName
    requires { at < length rules.now }
    ensures { slice_get rules.now at ≡ Some result }
{
    rules[at as usize]
}
