//! What the first word of a row says.

ghost use Rattle.std.specs.Prelude.{◌≡◌, IsSome, Some, slice_get};
ghost use Rattle.interned.specs.Heads.{head_coded};

use trees::Op;

/// What a row is.
#[derive(Clone, Copy, Debug, PartialEq, Eq)]
pub enum Head {
    Var,
    Instance,
    Shift,
    Push,
    Then,
    CtxNil,
    CtxVar,
    CtxName,
    CtxFace,
    Make(Op),
}

/// Every head, at the place that its word says.
static HEADS: [Head; 42] = [
    Head::Var,
    Head::Instance,
    Head::Shift,
    Head::Push,
    Head::Then,
    Head::CtxNil,
    Head::CtxVar,
    Head::CtxName,
    Head::CtxFace,
    Head::Make(Op::I0),
    Head::Make(Op::I1),
    Head::Make(Op::Neg),
    Head::Make(Op::Min),
    Head::Make(Op::Max),
    Head::Make(Op::F0),
    Head::Make(Op::F1),
    Head::Make(Op::Eq0),
    Head::Make(Op::Eq1),
    Head::Make(Op::Meet),
    Head::Make(Op::Join),
    Head::Make(Op::All),
    Head::Make(Op::U),
    Head::Make(Op::Pi),
    Head::Make(Op::Lam),
    Head::Make(Op::App),
    Head::Make(Op::Sig),
    Head::Make(Op::Pair),
    Head::Make(Op::Fst),
    Head::Make(Op::Snd),
    Head::Make(Op::PathP),
    Head::Make(Op::PLam),
    Head::Make(Op::PApp),
    Head::Make(Op::Nat),
    Head::Make(Op::Zero),
    Head::Make(Op::Suc),
    Head::Make(Op::NatRec),
    Head::Make(Op::Sys),
    Head::Make(Op::Empty),
    Head::Make(Op::Comp),
    Head::Make(Op::GlueType),
    Head::Make(Op::Glue),
    Head::Make(Op::Unglue),
];

/// The place of the first operator among the heads.
const FIRST_OPERATOR: u64 = 9;

/// The word of a head.
pub fn head_word(head: Head) -> u64
    ensures { slice_get HEADS result ≡ Some head }
{
    match head {
        Head::Var => 0,
        Head::Instance => 1,
        Head::Shift => 2,
        Head::Push => 3,
        Head::Then => 4,
        Head::CtxNil => 5,
        Head::CtxVar => 6,
        Head::CtxName => 7,
        Head::CtxFace => 8,
        Head::Make(op) => FIRST_OPERATOR + op as u64,
    }
}

/// The head of a row.
pub fn row_head(words: &[u64]) -> Head
    requires { IsSome (head_coded words.now) }
    ensures { head_coded words.now ≡ Some result }
{
    HEADS[words[0] as usize]
}
