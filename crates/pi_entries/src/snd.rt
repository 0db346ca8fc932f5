//! Written by tools/write_entries.py.

use recipes::Row::{Conclude, Make, Part, Premise, Push, Shift, WithVar};
use recipes::{Row, table};
use theory::ContextRule::{SubId, SubVar};
use theory::InstanceRule::TySub;
use theory::Op;
use theory::RuleName::{Contexts, Instances, Sigma};
use theory::SigmaRule::Fst;

/// `Type` of what snd concludes. Its parts are G c A B.
pub static SND_TYPE: &[Row] = table! {
    // 0: G >> c : sig A B
    Premise(0),
    // 1: ctx G
    Premise(1),
    // 2: G >> A
    Premise(2),
    // 3: G.A >> B
    Premise(3),
    Part(0),
    // 5: id : G to G
    Conclude(Contexts(SubId), [4, 0, 0, 0, 0, 0, 0, 0, 0, 0], [1, 0, 0, 0, 0, 0, 0]),
    Part(1),
    Part(2),
    Part(3),
    // 9: G >> fst c : A
    Conclude(Sigma(Fst), [4, 6, 7, 8, 0, 0, 0, 0, 0, 0], [0, 0, 0, 0, 0, 0, 0]),
    Shift(0),
    Make(Op::Fst, [6, 0, 0, 0]),
    // 12: push id (fst c) : G to G.A
    Conclude(Contexts(SubVar), [4, 10, 4, 7, 11, 0, 0, 0, 0, 0], [5, 2, 9, 0, 0, 0, 0]),
    Push(10, 11),
    WithVar(4, 7),
    // 15: G >> B{fst c}
    Conclude(Instances(TySub), [4, 13, 14, 8, 0, 0, 0, 0, 0, 0], [12, 3, 0, 0, 0, 0, 0]),
};
