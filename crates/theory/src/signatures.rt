//! The signatures of the rules, a line each.

ghost use Rattle.std.specs.Prelude.{◌≡◌};
ghost use Rattle.theory.specs.RuleNames.{signed, context_signature, instance_signature};
ghost use Rattle.theory.specs.RuleNames.{equality_signature, universe_signature, pi_signature};
ghost use Rattle.theory.specs.RuleNames.{sigma_signature, path_signature, nat_signature};
ghost use Rattle.theory.specs.RuleNames.{system_signature, comp_signature, glue_signature};
ghost use Rattle.theory.specs.RuleNames.{signature_of, Shows};

use crate::rule::{
    CompRule, ContextRule, EqualityRule, GlueRule, InstanceRule, NatRule, PathRule, PiRule,
    RuleName, SigmaRule, SystemRule, UniverseRule,
};
use PartKind::{Context, Subst, Term};
use trees::PartKind;

/// What files say of a rule.
#[derive(Clone, Copy, Debug)]
pub struct Signature {
    /// The name in derivation files.
    pub name: &'static str,
    /// The kinds of the parts, in their order.
    pub parts: &'static [PartKind],
    /// The number of premises.
    pub premises: u8,
    /// The version of the rules from which on the rule stands in files.
    pub version: u32,
}

/// The signature of a rule of version 1.
fn signed(name: &'static str, parts: &'static [PartKind], premises: u8) -> Signature
    ensures { Shows (signed name.now parts.now premises) result }
{
    Signature {
        name,
        parts,
        premises,
        version: 1,
    }
}

// Written by tools/write_rules.py from here on.

fn context_signature(rule: ContextRule) -> Signature
    ensures { Shows (context_signature rule) result }
{
    match rule {
        ContextRule::CtxNil => signed("ctx.nil", &[], 0),
        ContextRule::CtxVar => signed("ctx.var", &[Context, Term], 1),
        ContextRule::CtxName => signed("ctx.name", &[Context], 1),
        ContextRule::CtxFace => signed("ctx.face", &[Context, Term], 1),
        ContextRule::SubId => signed("sub.id", &[Context], 1),
        ContextRule::SubWk => signed("sub.wk", &[Context, Subst, Context, Term], 2),
        ContextRule::SubWkName => signed("sub.wkname", &[Context, Subst, Context], 1),
        ContextRule::SubWkFace => signed("sub.wkface", &[Context, Subst, Context, Term], 1),
        ContextRule::SubVar => signed("sub.var", &[Context, Subst, Context, Term, Term], 3),
        ContextRule::SubForm => signed("sub.form", &[Context, Subst, Context, Term], 1),
        ContextRule::SubFace => signed("sub.face", &[Context, Subst, Context, Term], 1),
        ContextRule::SubComp => signed("sub.comp", &[Context, Subst, Context, Subst, Context], 2),
    }
}

fn instance_signature(rule: InstanceRule) -> Signature
    ensures { Shows (instance_signature rule) result }
{
    match rule {
        InstanceRule::TySub => signed("ty.sub", &[Context, Subst, Context, Term], 2),
        InstanceRule::TyEqSub => signed("tyeq.sub", &[Context, Subst, Context, Term, Term], 2),
        InstanceRule::TmSub => signed("tm.sub", &[Context, Subst, Context, Term, Term], 2),
        InstanceRule::TmEqSub => signed(
            "tmeq.sub",
            &[Context, Subst, Context, Term, Term, Term],
            2,
        ),
        InstanceRule::TyCong => signed(
            "ty.cong",
            &[Context, Subst, Context, Term, Term, Term, Term],
            3,
        ),
        InstanceRule::TmCong => signed(
            "tm.cong",
            &[Context, Subst, Context, Term, Term, Term, Term, Term],
            3,
        ),
        InstanceRule::TyInt => signed("ty.int", &[Context, Subst, Subst, Context, Term], 3),
        InstanceRule::TmInt => signed("tm.int", &[Context, Subst, Subst, Context, Term, Term], 3),
        InstanceRule::TmVar => signed("tm.var", &[Context, Term], 1),
    }
}

fn equality_signature(rule: EqualityRule) -> Signature
    ensures { Shows (equality_signature rule) result }
{
    match rule {
        EqualityRule::TyEqRefl => signed("tyeq.refl", &[Context, Term], 1),
        EqualityRule::TyEqSym => signed("tyeq.sym", &[Context, Term, Term], 1),
        EqualityRule::TyEqTrans => signed("tyeq.trans", &[Context, Term, Term, Term], 2),
        EqualityRule::TmEqRefl => signed("tmeq.refl", &[Context, Term, Term], 1),
        EqualityRule::TmEqSym => signed("tmeq.sym", &[Context, Term, Term, Term], 1),
        EqualityRule::TmEqTrans => signed("tmeq.trans", &[Context, Term, Term, Term, Term], 2),
        EqualityRule::TmConv => signed("tm.conv", &[Context, Term, Term, Term], 2),
        EqualityRule::TmEqConv => signed("tmeq.conv", &[Context, Term, Term, Term, Term], 2),
        EqualityRule::TyEqCover => signed("tyeq.cover", &[Context, Term, Term, Term, Term], 4),
        EqualityRule::TmEqCover => signed(
            "tmeq.cover",
            &[Context, Term, Term, Term, Term, Term],
            4,
        ),
        EqualityRule::TyEqAbsurd => signed("tyeq.absurd", &[Context, Term, Term], 2),
        EqualityRule::TmEqAbsurd => signed("tmeq.absurd", &[Context, Term, Term, Term], 2),
    }
}

fn universe_signature(rule: UniverseRule) -> Signature
    ensures { Shows (universe_signature rule) result }
{
    match rule {
        UniverseRule::TyUniv => signed("ty.univ", &[Context], 1),
        UniverseRule::TyU => signed("ty.u", &[Context, Term], 1),
        UniverseRule::TyEqU => signed("tyeq.u", &[Context, Term, Term], 1),
    }
}

fn pi_signature(rule: PiRule) -> Signature
    ensures { Shows (pi_signature rule) result }
{
    match rule {
        PiRule::PiTy => signed("pi.ty", &[Context, Term, Term], 2),
        PiRule::PiU => signed("pi.u", &[Context, Term, Term], 2),
        PiRule::PiTyCong => signed("pi.tycong", &[Context, Term, Term, Term, Term], 2),
        PiRule::PiUCong => signed("pi.ucong", &[Context, Term, Term, Term, Term], 2),
        PiRule::Lam => signed("lam", &[Context, Term, Term, Term], 2),
        PiRule::App => signed("app", &[Context, Term, Term, Term, Term], 2),
        PiRule::AppCong => signed(
            "app.cong",
            &[Context, Term, Term, Term, Term, Term, Term],
            2,
        ),
        PiRule::PiBeta => signed("pi.beta", &[Context, Term, Term, Term, Term], 2),
        PiRule::PiEta => signed("pi.eta", &[Context, Term, Term, Term, Term], 3),
    }
}

fn sigma_signature(rule: SigmaRule) -> Signature
    ensures { Shows (sigma_signature rule) result }
{
    match rule {
        SigmaRule::SigTy => signed("sig.ty", &[Context, Term, Term], 2),
        SigmaRule::SigU => signed("sig.u", &[Context, Term, Term], 2),
        SigmaRule::SigTyCong => signed("sig.tycong", &[Context, Term, Term, Term, Term], 2),
        SigmaRule::SigUCong => signed("sig.ucong", &[Context, Term, Term, Term, Term], 2),
        SigmaRule::Pair => signed("pair", &[Context, Term, Term, Term, Term], 3),
        SigmaRule::Fst => signed("fst", &[Context, Term, Term, Term], 1),
        SigmaRule::Snd => signed("snd", &[Context, Term, Term, Term], 1),
        SigmaRule::FstCong => signed("fst.cong", &[Context, Term, Term, Term, Term], 1),
        SigmaRule::SndCong => signed("snd.cong", &[Context, Term, Term, Term, Term], 1),
        SigmaRule::SigBeta1 => signed("sig.beta1", &[Context, Term, Term, Term, Term], 3),
        SigmaRule::SigBeta2 => signed("sig.beta2", &[Context, Term, Term, Term, Term], 3),
        SigmaRule::SigEta => signed("sig.eta", &[Context, Term, Term, Term, Term], 4),
    }
}

fn path_signature(rule: PathRule) -> Signature
    ensures { Shows (path_signature rule) result }
{
    match rule {
        PathRule::PathTy => signed("path.ty", &[Context, Term, Term, Term], 3),
        PathRule::PathU => signed("path.u", &[Context, Term, Term, Term], 3),
        PathRule::PathTyCong => signed(
            "path.tycong",
            &[Context, Term, Term, Term, Term, Term, Term],
            3,
        ),
        PathRule::PathUCong => signed(
            "path.ucong",
            &[Context, Term, Term, Term, Term, Term, Term],
            3,
        ),
        PathRule::PLam => signed("plam", &[Context, Term, Term, Term, Term], 3),
        PathRule::PApp => signed("papp", &[Context, Term, Term, Term, Term, Term], 1),
        PathRule::PAppCong => signed(
            "papp.cong",
            &[Context, Term, Term, Term, Term, Term, Term],
            1,
        ),
        PathRule::PathLeft => signed("path.left", &[Context, Term, Term, Term, Term], 1),
        PathRule::PathRight => signed("path.right", &[Context, Term, Term, Term, Term], 1),
        PathRule::PathBeta => signed("path.beta", &[Context, Term, Term, Term], 1),
        PathRule::PathEta => signed("path.eta", &[Context, Term, Term, Term, Term, Term], 3),
    }
}

fn nat_signature(rule: NatRule) -> Signature
    ensures { Shows (nat_signature rule) result }
{
    match rule {
        NatRule::NatU => signed("nat.u", &[Context], 1),
        NatRule::Zero => signed("zero", &[Context], 1),
        NatRule::Suc => signed("suc", &[Context, Term], 1),
        NatRule::SucCong => signed("suc.cong", &[Context, Term, Term], 1),
        NatRule::NatRec => signed("natrec", &[Context, Term, Term, Term, Term], 4),
        NatRule::NatRecCong => signed(
            "natrec.cong",
            &[Context, Term, Term, Term, Term, Term, Term, Term, Term],
            4,
        ),
        NatRule::NatRecZero => signed("natrec.zero", &[Context, Term, Term, Term], 3),
        NatRule::NatRecSuc => signed("natrec.suc", &[Context, Term, Term, Term, Term], 4),
    }
}

fn system_signature(rule: SystemRule) -> Signature
    ensures { Shows (system_signature rule) result }
{
    match rule {
        SystemRule::SysTy => signed("sys.ty", &[Context, Term, Term, Term, Term], 3),
        SystemRule::SysTm => signed("sys.tm", &[Context, Term, Term, Term, Term, Term], 4),
        SystemRule::SysTyLeft => signed("sys.tyleft", &[Context, Term, Term, Term, Term], 3),
        SystemRule::SysTyRight => signed("sys.tyright", &[Context, Term, Term, Term, Term], 3),
        SystemRule::SysLeft => signed("sys.left", &[Context, Term, Term, Term, Term, Term], 4),
        SystemRule::SysRight => signed("sys.right", &[Context, Term, Term, Term, Term, Term], 4),
        SystemRule::EmptyTy => signed("empty.ty", &[Context], 1),
        SystemRule::EmptyTm => signed("empty.tm", &[Context, Term], 1),
    }
}

fn comp_signature(rule: CompRule) -> Signature
    ensures { Shows (comp_signature rule) result }
{
    match rule {
        CompRule::Comp => signed("comp", &[Context, Term, Term, Term, Term], 4),
        CompRule::CompFace => signed("comp.face", &[Context, Term, Term, Term, Term], 4),
        CompRule::CompCong => signed(
            "comp.cong",
            &[Context, Term, Term, Term, Term, Term, Term, Term, Term],
            6,
        ),
        CompRule::CompPi => signed("comp.pi", &[Context, Term, Term, Term, Term, Term], 5),
        CompRule::CompSig => signed("comp.sig", &[Context, Term, Term, Term, Term, Term], 5),
        CompRule::CompPath => signed(
            "comp.path",
            &[Context, Term, Term, Term, Term, Term, Term],
            6,
        ),
        CompRule::CompZero => signed("comp.zero", &[Context, Term], 1),
        CompRule::CompSuc => signed("comp.suc", &[Context, Term, Term, Term], 3),
        CompRule::CompGlue => signed(
            "comp.glue",
            &[Context, Term, Term, Term, Term, Term, Term, Term],
            6,
        ),
        CompRule::CompU => signed("comp.u", &[Context, Term, Term, Term], 3),
    }
}

fn glue_signature(rule: GlueRule) -> Signature
    ensures { Shows (glue_signature rule) result }
{
    match rule {
        GlueRule::GlueTy => signed("glue.ty", &[Context, Term, Term, Term, Term], 3),
        GlueRule::GlueU => signed("glue.u", &[Context, Term, Term, Term, Term], 3),
        GlueRule::GlueTyFace => signed("glue.tyface", &[Context, Term, Term, Term, Term], 3),
        GlueRule::GlueUFace => signed("glue.uface", &[Context, Term, Term, Term, Term], 3),
        GlueRule::GlueTyCong => signed(
            "glue.tycong",
            &[Context, Term, Term, Term, Term, Term, Term, Term, Term],
            3,
        ),
        GlueRule::GlueUCong => signed(
            "glue.ucong",
            &[Context, Term, Term, Term, Term, Term, Term, Term, Term],
            3,
        ),
        GlueRule::Glue => signed("glue", &[Context, Term, Term, Term, Term, Term, Term], 6),
        GlueRule::GlueFace => signed(
            "glue.face",
            &[Context, Term, Term, Term, Term, Term, Term],
            6,
        ),
        GlueRule::Unglue => signed("unglue", &[Context, Term, Term, Term, Term, Term], 4),
        GlueRule::UnglueFace => signed("unglue.face", &[Context, Term, Term, Term, Term, Term], 4),
        GlueRule::UnglueCong => signed(
            "unglue.cong",
            &[
                Context, Term, Term, Term, Term, Term, Term, Term, Term, Term,
            ],
            6,
        ),
        GlueRule::GlueBeta => signed(
            "glue.beta",
            &[Context, Term, Term, Term, Term, Term, Term],
            6,
        ),
        GlueRule::GlueEta => signed(
            "glue.eta",
            &[Context, Term, Term, Term, Term, Term, Term],
            7,
        ),
    }
}

/// The signature of a rule.
pub fn signature_of(rule: RuleName) -> Signature
    ensures { Shows (signature_of rule) result }
{
    match rule {
        RuleName::Contexts(rule) => context_signature(rule),
        RuleName::Instances(rule) => instance_signature(rule),
        RuleName::Equality(rule) => equality_signature(rule),
        RuleName::Universe(rule) => universe_signature(rule),
        RuleName::Pi(rule) => pi_signature(rule),
        RuleName::Sigma(rule) => sigma_signature(rule),
        RuleName::Paths(rule) => path_signature(rule),
        RuleName::Naturals(rule) => nat_signature(rule),
        RuleName::Systems(rule) => system_signature(rule),
        RuleName::Composition(rule) => comp_signature(rule),
        RuleName::Gluing(rule) => glue_signature(rule),
    }
}
