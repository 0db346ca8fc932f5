//! How rows are coded: a word for the head, and then what the row names. Of a substitution the size
//! stands between them.

ghost use Rattle.std.specs.Prelude.{◌≡◌, ◌≤◌, IsSome, length};
ghost use Rattle.trees.specs.Trees.{greatest_shift};
ghost use Rattle.trees.specs.Things.{Meanings};
ghost use Rattle.rows.specs.Counts.{most_counted};
ghost use Rattle.rows.specs.Views.{IsSubst, term_meaning, sub_meaning};
ghost use Rattle.rows.specs.Views.{ctx_meaning, row_meaning};
ghost use Rattle.interned.specs.Heads.{head_coded, IsHeaded};
ghost use Rattle.interned.specs.Coding.{thing_coded, pushed_coded, shift_coded, IsTermFit};
ghost use Rattle.interned.specs.Coding.{IsShiftFit};

use crate::heads::{Head, head_word, row_head};
use crate::words::Words;
use rows::{CtxId, CtxRow, HeldSize, Row, SubId, SubRow, TermId, TermRow};

/// The most words of a row of a tree, a substitution or a context.
pub const MOST_WORDS: usize = 8;

/// 2^64: what the first word of a count of trees counts.
const HIGH: u128 = 1 << 64;

/// A head and what follows it.
fn headed(head: Head, cells: &[u64]) -> Words<MOST_WORDS>
    requires { length cells.now ≤ 7 }
    ensures headed { IsHeaded head cells.now result }
    ensures few { length result ≤ 8 }
{
    let mut words = Words::new();
    words.append(&[head_word(head)]);
    words.append(cells);
    words
}

/// The words of a row of a tree.
pub fn term_words(row: &TermRow<'_>) -> Words<MOST_WORDS>
    requires { IsTermFit row.now }
    ensures meaning { (f : Meanings) → thing_coded f result ≡ term_meaning f row.now }
    ensures few { length result ≤ 8 }
{
    match row {
        TermRow::Var(index) => headed(Head::Var, &[u64::from(*index)]),
        TermRow::Make(op, kids) => headed(Head::Make(*op), kids),
        TermRow::Instance(term, sub) => headed(Head::Instance, &[term.0, sub.0]),
    }
}

/// The words of a row of a substitution of this size.
pub fn sub_words(row: &SubRow, size: HeldSize) -> Words<MOST_WORDS>
    requires { IsShiftFit row.now }
    ensures meaning { (f : Meanings) → thing_coded f result ≡ sub_meaning f row.now }
    ensures pushed { pushed_coded result ≡ size.pushed }
    ensures shift { shift_coded result ≡ size.shift }
    ensures few { length result ≤ 8 }
{
    let high = (size.pushed / HIGH) as u64;
    let low = (size.pushed % HIGH) as u64;
    let shift = size.shift;
    match row {
        SubRow::Shift(by) => headed(Head::Shift, &[high, low, shift, *by]),
        SubRow::Push(sub, term) => headed(Head::Push, &[high, low, shift, sub.0, term.0]),
        SubRow::Then(first, second) => {
            headed(Head::Then, &[high, low, shift, first.0, second.0])
        }
    }
}

/// The words of a row of a context.
pub fn ctx_words(row: &CtxRow) -> Words<MOST_WORDS>
    ensures meaning { (f : Meanings) → thing_coded f result ≡ ctx_meaning f row.now }
    ensures few { length result ≤ 8 }
{
    match row {
        CtxRow::Nil => headed(Head::CtxNil, &[]),
        CtxRow::Var(ctx, ty) => headed(Head::CtxVar, &[ctx.0, ty.0]),
        CtxRow::Name(ctx) => headed(Head::CtxName, &[ctx.0]),
        CtxRow::Face(ctx, face) => headed(Head::CtxFace, &[ctx.0, face.0]),
    }
}

/// The head of a row, and what follows it.
fn opened(words: &[u64]) -> (Head, &[u64])
    requires { IsSome (head_coded words.now) }
    ensures { IsHeaded result.0 result.1.now words.now }
{
    (row_head(words), words.split_at(1).1)
}

/// The row that has these words.
pub fn coded_row(words: &[u64]) -> Row<'_>
    requires { (f : Meanings) × IsSome (thing_coded f words.now) }
    ensures { (f : Meanings) → thing_coded f words.now ≡ row_meaning f result }
{
    let (head, cells) = opened(words);
    match head {
        Head::Var => Row::Term(TermRow::Var(cells[0] as u32)),
        Head::Make(op) => Row::Term(TermRow::Make(op, cells)),
        Head::Instance => Row::Term(TermRow::Instance(TermId(cells[0]), SubId(cells[1]))),
        Head::Shift => Row::Subst(SubRow::Shift(cells[3])),
        Head::Push => Row::Subst(SubRow::Push(SubId(cells[3]), TermId(cells[4]))),
        Head::Then => Row::Subst(SubRow::Then(SubId(cells[3]), SubId(cells[4]))),
        Head::CtxNil => Row::Context(CtxRow::Nil),
        Head::CtxVar => Row::Context(CtxRow::Var(CtxId(cells[0]), TermId(cells[1]))),
        Head::CtxName => Row::Context(CtxRow::Name(CtxId(cells[0]))),
        Head::CtxFace => Row::Context(CtxRow::Face(CtxId(cells[0]), TermId(cells[1]))),
    }
}

/// The size of a substitution that has these words.
pub fn sub_size(words: &[u64]) -> HeldSize
    requires subst { (f : Meanings) × IsSubst (thing_coded f words.now) }
    requires few { pushed_coded words.now ≤ most_counted }
    ensures pushed { result.pushed ≡ pushed_coded words.now }
    ensures shift { result.shift ≡ shift_coded words.now }
{
    HeldSize {
        pushed: u128::from(words[1]) * HIGH + u128::from(words[2]),
        shift: words[3],
    }
}
