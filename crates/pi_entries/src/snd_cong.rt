//! Written by tools/write_entries.py.

use recipes::Row::{Conclude, Instance, Make, Part, Premise, Push, Shift, WithVar};
use recipes::{Row, table};
use theory::ContextRule::{SubId, SubVar};
use theory::EqualityRule::{TmConv, TmEqSym};
use theory::InstanceRule::{TyCong, TySub};
use theory::Op;
use theory::RuleName::{Contexts, Equality, Instances, Sigma};
use theory::SigmaRule::{Fst, FstCong, Snd};

/// `Type` of what snd.cong concludes. Its parts are G c k A B.
pub static SND_CONG_TYPE: &[Row] = table! {
    // 0: ctx G
    Premise(0),
    // 1: G >> c : sig A B
    Premise(1),
    // 2: G >> A
    Premise(2),
    // 3: G.A >> B
    Premise(3),
    Part(0),
    // 5: id : G to G
    Conclude(Contexts(SubId), [4, 0, 0, 0, 0, 0, 0, 0, 0, 0], [0, 0, 0, 0, 0, 0, 0]),
    Part(1),
    Part(3),
    Part(4),
    // 9: G >> fst c : A
    Conclude(Sigma(Fst), [4, 6, 7, 8, 0, 0, 0, 0, 0, 0], [1, 0, 0, 0, 0, 0, 0]),
    Shift(0),
    Make(Op::Fst, [6, 0, 0, 0]),
    // 12: push id (fst c) : G to G.A
    Conclude(Contexts(SubVar), [4, 10, 4, 7, 11, 0, 0, 0, 0, 0], [5, 2, 9, 0, 0, 0, 0]),
    Push(10, 11),
    WithVar(4, 7),
    // 15: G >> B{fst c}
    Conclude(Instances(TySub), [4, 13, 14, 8, 0, 0, 0, 0, 0, 0], [12, 3, 0, 0, 0, 0, 0]),
};

/// `Left` of what snd.cong concludes. Its parts are G c k A B.
pub static SND_CONG_LEFT: &[Row] = table! {
    // 0: G >> c : sig A B
    Premise(0),
    Part(0),
    Part(1),
    Part(3),
    Part(4),
    // 5: G >> snd c : B{fst c}
    Conclude(Sigma(Snd), [1, 2, 3, 4, 0, 0, 0, 0, 0, 0], [0, 0, 0, 0, 0, 0, 0]),
};

/// `Right` of what snd.cong concludes. Its parts are G c k A B.
pub static SND_CONG_RIGHT: &[Row] = table! {
    // 0: G >> c = k : sig A B
    Premise(0),
    // 1: ctx G
    Premise(1),
    // 2: G >> k : sig A B
    Premise(2),
    // 3: G.A >> B
    Premise(3),
    Part(0),
    // 5: id : G to G
    Conclude(Contexts(SubId), [4, 0, 0, 0, 0, 0, 0, 0, 0, 0], [1, 0, 0, 0, 0, 0, 0]),
    Part(2),
    Part(3),
    Part(4),
    // 9: G >> snd k : B{fst k}
    Conclude(Sigma(Snd), [4, 6, 7, 8, 0, 0, 0, 0, 0, 0], [2, 0, 0, 0, 0, 0, 0]),
    Part(1),
    // 11: G >> fst c = fst k : A
    Conclude(Sigma(FstCong), [4, 10, 6, 7, 8, 0, 0, 0, 0, 0], [0, 0, 0, 0, 0, 0, 0]),
    Make(Op::Fst, [10, 0, 0, 0]),
    Make(Op::Fst, [6, 0, 0, 0]),
    // 14: G >> fst k = fst c : A
    Conclude(Equality(TmEqSym), [4, 12, 13, 7, 0, 0, 0, 0, 0, 0], [11, 0, 0, 0, 0, 0, 0]),
    Shift(0),
    // 16: G >> B{fst k} = B{fst c}
    Conclude(Instances(TyCong), [4, 15, 4, 7, 13, 12, 8, 0, 0, 0], [5, 3, 14, 0, 0, 0, 0]),
    Make(Op::Snd, [6, 0, 0, 0]),
    Push(15, 13),
    Instance(8, 18),
    Push(15, 12),
    Instance(8, 20),
    // 22: G >> snd k : B{fst c}
    Conclude(Equality(TmConv), [4, 17, 19, 21, 0, 0, 0, 0, 0, 0], [9, 16, 0, 0, 0, 0, 0]),
};
