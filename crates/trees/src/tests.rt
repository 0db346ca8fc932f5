//! The table of operators, and the rows of each claim.

use crate::{Claim, JudgementForm, Op, binds, kid_count, op_name};

// Each operator with its name, and how much each of its kids binds.
const OPERATORS: [(Op, &[u8], &[u8]); 33] = [
    (Op::I0, b"i0", &[]),
    (Op::I1, b"i1", &[]),
    (Op::Neg, b"neg", &[0]),
    (Op::Min, b"min", &[0, 0]),
    (Op::Max, b"max", &[0, 0]),
    (Op::F0, b"f0", &[]),
    (Op::F1, b"f1", &[]),
    (Op::Eq0, b"eq0", &[0]),
    (Op::Eq1, b"eq1", &[0]),
    (Op::Meet, b"meet", &[0, 0]),
    (Op::Join, b"join", &[0, 0]),
    (Op::All, b"all", &[1]),
    (Op::U, b"U", &[]),
    (Op::Pi, b"pi", &[0, 1]),
    (Op::Lam, b"lam", &[0, 1]),
    (Op::App, b"app", &[0, 0]),
    (Op::Sig, b"sig", &[0, 1]),
    (Op::Pair, b"pair", &[0, 0]),
    (Op::Fst, b"fst", &[0]),
    (Op::Snd, b"snd", &[0]),
    (Op::PathP, b"pathp", &[1, 0, 0]),
    (Op::PLam, b"plam", &[1]),
    (Op::PApp, b"papp", &[0, 0]),
    (Op::Nat, b"nat", &[]),
    (Op::Zero, b"zero", &[]),
    (Op::Suc, b"suc", &[0]),
    (Op::NatRec, b"natrec", &[1, 0, 0, 0]),
    (Op::Sys, b"sys", &[0, 0, 0, 0]),
    (Op::Empty, b"empty", &[]),
    (Op::Comp, b"comp", &[1, 0, 1, 0]),
    (Op::GlueType, b"Glue", &[0, 0, 0, 0]),
    (Op::Glue, b"glue", &[0, 0, 0]),
    (Op::Unglue, b"unglue", &[0, 0, 0, 0]),
];

#[test]
fn operators_have_names_and_kids(rt: HostRuntime) {
    for (op, name, bound) in OPERATORS {
        assert_eq!(rt; op_name(op).as_bytes(), name);
        assert_eq!(rt; kid_count(op) as usize, bound.len(), "at {op:?}");
        for kid in 0..kid_count(op) {
            let want = bound.get(kid as usize).copied();
            assert_eq!(rt; Some(binds(op, kid)), want, "at kid {kid} of {op:?}");
        }
    }
}

#[test]
fn claims_have_forms_and_rows(rt: HostRuntime) {
    let claims: [(Claim, JudgementForm, &[u64]); 6] = [
        (Claim::Ctx(9), JudgementForm::Ctx, &[9]),
        (Claim::Ty(9, 8), JudgementForm::Ty, &[9, 8]),
        (Claim::TyEq(9, 8, 7), JudgementForm::TyEq, &[9, 8, 7]),
        (Claim::Tm(9, 8, 7), JudgementForm::Tm, &[9, 8, 7]),
        (Claim::TmEq(9, 8, 7, 6), JudgementForm::TmEq, &[9, 8, 7, 6]),
        (Claim::Sb(9, 8, 7), JudgementForm::Sb, &[9, 8, 7]),
    ];
    for (claim, form, rows) in claims {
        assert_eq!(rt; claim.form(), form);
        assert_eq!(rt; claim.rows().as_slice(), rows, "at {form:?}");
    }
}
