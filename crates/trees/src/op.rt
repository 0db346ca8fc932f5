//! The operators of trees.

ghost use Rattle.std.specs.Prelude.{◌≡◌, ◌<◌, ◌≤◌, length};
ghost use Rattle.trees.specs.Operators.{signed, signature_of, Shows, kids_of, binds_of, name_of};

/// An operator. A tree is a variable or an operator with its kids.
#[derive(Clone, Copy, Debug, PartialEq, Eq)]
pub enum Op {
    // formulas of the interval
    I0,
    I1,
    Neg,
    Min,
    Max,
    // faces
    F0,
    F1,
    Eq0,
    Eq1,
    Meet,
    Join,
    All,
    // types and terms
    U,
    Pi,
    Lam,
    App,
    Sig,
    Pair,
    Fst,
    Snd,
    PathP,
    PLam,
    PApp,
    Nat,
    Zero,
    Suc,
    NatRec,
    Sys,
    Empty,
    Comp,
    GlueType,
    Glue,
    Unglue,
}

/// What the table of operators says of one.
#[derive(Clone, Copy, Debug)]
pub struct OpSignature {
    /// The name in derivation files.
    pub name: &'static str,
    /// How many variables or names each kid binds.
    pub binds: &'static [u8],
}

fn signed(name: &'static str, binds: &'static [u8]) -> OpSignature
    ensures { Shows (signed name.now binds.now) result }
{
    OpSignature { name, binds }
}

/// The line of an operator in the table.
pub fn op_signature(op: Op) -> OpSignature
    ensures { Shows (signature_of op) result }
{
    match op {
        Op::I0 => signed("i0", &[]),
        Op::I1 => signed("i1", &[]),
        Op::Neg => signed("neg", &[0]),
        Op::Min => signed("min", &[0, 0]),
        Op::Max => signed("max", &[0, 0]),
        Op::F0 => signed("f0", &[]),
        Op::F1 => signed("f1", &[]),
        Op::Eq0 => signed("eq0", &[0]),
        Op::Eq1 => signed("eq1", &[0]),
        Op::Meet => signed("meet", &[0, 0]),
        Op::Join => signed("join", &[0, 0]),
        Op::All => signed("all", &[1]),
        Op::U => signed("U", &[]),
        Op::Pi => signed("pi", &[0, 1]),
        Op::Lam => signed("lam", &[0, 1]),
        Op::App => signed("app", &[0, 0]),
        Op::Sig => signed("sig", &[0, 1]),
        Op::Pair => signed("pair", &[0, 0]),
        Op::Fst => signed("fst", &[0]),
        Op::Snd => signed("snd", &[0]),
        Op::PathP => signed("pathp", &[1, 0, 0]),
        Op::PLam => signed("plam", &[1]),
        Op::PApp => signed("papp", &[0, 0]),
        Op::Nat => signed("nat", &[]),
        Op::Zero => signed("zero", &[]),
        Op::Suc => signed("suc", &[0]),
        Op::NatRec => signed("natrec", &[1, 0, 0, 0]),
        Op::Sys => signed("sys", &[0, 0, 0, 0]),
        Op::Empty => signed("empty", &[]),
        Op::Comp => signed("comp", &[1, 0, 1, 0]),
        Op::GlueType => signed("Glue", &[0, 0, 0, 0]),
        Op::Glue => signed("glue", &[0, 0, 0]),
        Op::Unglue => signed("unglue", &[0, 0, 0, 0]),
    }
}

/// The number of kids of an operator.
pub fn kid_count(op: Op) -> u8
    ensures { result ≡ kids_of op }
{
    op_signature(op).binds.len() as u8
}

/// How many variables or names a kid of an operator binds; kids are counted from 0.
pub fn binds(op: Op, kid: u8) -> u8
    requires { kid < kids_of op }
    ensures { result ≡ binds_of op kid }
{
    op_signature(op).binds[kid as usize]
}

/// The name of an operator in derivation files.
pub fn op_name(op: Op) -> &'static str
    ensures { result.now ≡ name_of op }
{
    op_signature(op).name
}
