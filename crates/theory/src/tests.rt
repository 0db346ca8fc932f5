//! What files say of each rule, and what a name finds in each version.

use crate::{
    ContextRule, EqualityRule, InstanceRule, NatRule, Op, PartKind, PathRule, PiRule, RuleName,
    SigmaRule, UniverseRule, count_parts, count_premises, op_of, part_kind, part_kinds, rule_name,
    rule_of,
};
use PartKind::{Context, Subst, Term};

#[test]
fn names_find_operators(rt: HostRuntime) {
    for (name, version, want) in [
        ("U", 1, Some(Op::U)),
        ("nat", 1, Some(Op::Nat)),
        ("zero", 1, Some(Op::Zero)),
        ("suc", 1, Some(Op::Suc)),
        ("suc", 2, Some(Op::Suc)),
        ("suc", 0, None),
        ("u", 1, None),
        ("su", 1, None),
        ("succ", 1, None),
        ("", 1, None),
        ("pi", 1, Some(Op::Pi)),
        ("Glue", 1, Some(Op::GlueType)),
        ("zero", 0, None),
        ("zeros", 1, None),
    ] {
        assert_eq!(rt;
            op_of(name.as_bytes(), version),
            want,
            "at {name} in {version}"
        );
    }
}

// A rule of each family with its name, the kinds of its parts and the number of its premises.
const RULES: [(RuleName, &[u8], &[PartKind], u8); 9] = [
    (RuleName::Contexts(ContextRule::CtxNil), b"ctx.nil", &[], 0),
    (
        RuleName::Contexts(ContextRule::SubVar),
        b"sub.var",
        &[Context, Subst, Context, Term, Term],
        3,
    ),
    (
        RuleName::Instances(InstanceRule::TmVar),
        b"tm.var",
        &[Context, Term],
        1,
    ),
    (
        RuleName::Equality(EqualityRule::TmEqTrans),
        b"tmeq.trans",
        &[Context, Term, Term, Term, Term],
        2,
    ),
    (
        RuleName::Universe(UniverseRule::TyU),
        b"ty.u",
        &[Context, Term],
        1,
    ),
    (
        RuleName::Pi(PiRule::App),
        b"app",
        &[Context, Term, Term, Term, Term],
        2,
    ),
    (
        RuleName::Sigma(SigmaRule::SigEta),
        b"sig.eta",
        &[Context, Term, Term, Term, Term],
        4,
    ),
    (
        RuleName::Paths(PathRule::PathRight),
        b"path.right",
        &[Context, Term, Term, Term, Term],
        1,
    ),
    (
        RuleName::Naturals(NatRule::Suc),
        b"suc",
        &[Context, Term],
        1,
    ),
];

#[test]
fn rules_have_names_parts_and_premises(rt: HostRuntime) {
    for (rule, name, kinds, premises) in RULES {
        assert_eq!(rt; rule_name(rule).as_bytes(), name);
        assert_eq!(rt; rule_of(name, 1), Some(rule));
        assert_eq!(rt; part_kinds(rule), kinds, "at {rule:?}");
        assert_eq!(rt; count_parts(rule) as usize, kinds.len(), "at {rule:?}");
        for at in 0..count_parts(rule) {
            let want = kinds.get(at as usize).copied();
            assert_eq!(rt; Some(part_kind(rule, at)), want, "at part {at} of {rule:?}");
        }
        assert_eq!(rt; count_premises(rule), premises, "at {rule:?}");
    }
}

#[test]
fn other_names_find_no_rule(rt: HostRuntime) {
    for (name, version) in [
        ("suc", 0),
        ("ctx.nil", 0),
        ("ctx", 1),
        ("ctx.names", 1),
        ("pi", 1),
        ("zzz", 1),
        ("suc.u", 1),
        ("SUC", 1),
        ("", 1),
    ] {
        assert_eq!(rt;
            rule_of(name.as_bytes(), version),
            None,
            "at {name} in {version}"
        );
    }
}
