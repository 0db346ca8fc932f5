//! Written by tools/write_recipes.py.

use recipes::Row::{Conclude, Make, Part, Premise, WithFace};
use recipes::{Row, table};
use theory::EqualityRule::{TmEqCover, TmEqSym, TmEqTrans};
use theory::Op;
use theory::RuleName::{Equality, Systems};
use theory::SystemRule::{SysLeft, SysRight, SysTm};

/// Systems of equal sides are equal.
/// Its parts are G p q a b u v A.
pub static SYS_CONG: &[Row] = table! {
    // 0: G.{join p q} >> A
    Premise(1),
    // 1: G.{join p q}.{p} >> a : A
    Premise(2),
    // 2: G.{join p q}.{q} >> b : A
    Premise(3),
    // 3: G.{join p q}.{p}.{q} >> a = b : A
    Premise(4),
    // 4: G.{join p q}.{p} >> u : A
    Premise(5),
    // 5: G.{join p q}.{q} >> v : A
    Premise(6),
    // 6: G.{join p q}.{p}.{q} >> u = v : A
    Premise(7),
    // 7: G.{join p q}.{p} >> a = u : A
    Premise(8),
    // 8: G.{join p q}.{q} >> b = v : A
    Premise(9),
    Part(0),
    Part(1),
    Part(2),
    Make(Op::Join, [10, 11, 0, 0]),
    WithFace(9, 12),
    Part(3),
    Part(4),
    Part(7),
    // 17: G.{join p q} >> first : A
    Conclude(Systems(SysTm), [13, 10, 11, 14, 15, 16, 0, 0, 0, 0], [0, 1, 2, 3, 0, 0, 0]),
    Part(5),
    Part(6),
    // 20: G.{join p q} >> second : A
    Conclude(Systems(SysTm), [13, 10, 11, 18, 19, 16, 0, 0, 0, 0], [0, 4, 5, 6, 0, 0, 0]),
    // 21: G.{join p q}.{p} >> first = a : A
    Conclude(Systems(SysLeft), [13, 10, 11, 14, 15, 16, 0, 0, 0, 0], [0, 1, 2, 3, 0, 0, 0]),
    // 22: G.{join p q}.{p} >> second = u : A
    Conclude(Systems(SysLeft), [13, 10, 11, 18, 19, 16, 0, 0, 0, 0], [0, 4, 5, 6, 0, 0, 0]),
    WithFace(13, 10),
    Make(Op::Sys, [10, 11, 18, 19]),
    // 25: G.{join p q}.{p} >> u = second : A
    Conclude(Equality(TmEqSym), [23, 24, 18, 16, 0, 0, 0, 0, 0, 0], [22, 0, 0, 0, 0, 0, 0]),
    // 26: G.{join p q}.{p} >> a = second : A
    Conclude(Equality(TmEqTrans), [23, 14, 18, 24, 16, 0, 0, 0, 0, 0], [7, 25, 0, 0, 0, 0, 0]),
    Make(Op::Sys, [10, 11, 14, 15]),
    // 28: G.{join p q}.{p} >> first = second : A
    Conclude(Equality(TmEqTrans), [23, 27, 14, 24, 16, 0, 0, 0, 0, 0], [21, 26, 0, 0, 0, 0, 0]),
    // 29: G.{join p q}.{q} >> first = b : A
    Conclude(Systems(SysRight), [13, 10, 11, 14, 15, 16, 0, 0, 0, 0], [0, 1, 2, 3, 0, 0, 0]),
    // 30: G.{join p q}.{q} >> second = v : A
    Conclude(Systems(SysRight), [13, 10, 11, 18, 19, 16, 0, 0, 0, 0], [0, 4, 5, 6, 0, 0, 0]),
    WithFace(13, 11),
    // 32: G.{join p q}.{q} >> v = second : A
    Conclude(Equality(TmEqSym), [31, 24, 19, 16, 0, 0, 0, 0, 0, 0], [30, 0, 0, 0, 0, 0, 0]),
    // 33: G.{join p q}.{q} >> b = second : A
    Conclude(Equality(TmEqTrans), [31, 15, 19, 24, 16, 0, 0, 0, 0, 0], [8, 32, 0, 0, 0, 0, 0]),
    // 34: G.{join p q}.{q} >> first = second : A
    Conclude(Equality(TmEqTrans), [31, 27, 15, 24, 16, 0, 0, 0, 0, 0], [29, 33, 0, 0, 0, 0, 0]),
    // 35: G.{join p q} >> first = second : A
    Conclude(Equality(TmEqCover), [13, 10, 11, 27, 24, 16, 0, 0, 0, 0], [17, 20, 28, 34, 0, 0, 0]),
};

/// The rows of what it gives: equal.
pub static SYS_CONG_GIVES: &[u16] = &[35];
