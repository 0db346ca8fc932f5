//! The operators that files may name, and how a name finds one.

ghost use Rattle.std.specs.Prelude.{◌≡◌, ◌<◌, IfSome, IfNone, length};
ghost use Rattle.trees.specs.Operators.{name_of};
ghost use Rattle.theory.specs.OperatorNames.{first_version, IsOperator};
ghost use Rattle.trees.specs.declared.op.Op.{Op};

use trees::{Op, op_name};

/// Every operator, in the order of their names.
static OPERATORS: &[Op] = &[
    Op::GlueType,
    Op::U,
    Op::All,
    Op::App,
    Op::Comp,
    Op::Empty,
    Op::Eq0,
    Op::Eq1,
    Op::F0,
    Op::F1,
    Op::Fst,
    Op::Glue,
    Op::I0,
    Op::I1,
    Op::Join,
    Op::Lam,
    Op::Max,
    Op::Meet,
    Op::Min,
    Op::Nat,
    Op::NatRec,
    Op::Neg,
    Op::Pair,
    Op::PApp,
    Op::PathP,
    Op::Pi,
    Op::PLam,
    Op::Sig,
    Op::Snd,
    Op::Suc,
    Op::Sys,
    Op::Unglue,
    Op::Zero,
];

/// The version of the rules from which on files may name an operator, whether a rule speaks of it
/// or not.
fn first_version(_op: Op) -> u32
    ensures { result ≡ first_version _op }
{
    1
}

/// The operator of this name in any version, if any.
fn named(name: &[u8]) -> Option<Op>
    ensures some { IfSome result (λ op. name.now ≡ name_of op) }
    ensures none { IfNone result ((op : Op) → name.now ≡ name_of op → ⊥) }
{
    let place = OPERATORS.binary_search_by(|op| op_name(*op).as_bytes().cmp(name));
    match place {
        Ok(at) => Some(OPERATORS[at]),
        Err(_) => None,
    }
}

/// The operator of this name in a version of the rules, if any.
pub fn op_of(name: &[u8], version: u32) -> Option<Op>
    ensures some { IfSome result (IsOperator version name.now) }
    ensures none { IfNone result ((op : Op) → IsOperator version name.now op → ⊥) }
{
    let op = named(name)?;
    if first_version(op) <= version {
        Some(op)
    } else {
        None
    }
}
