//! The words of the text of a tree.

ghost use Rattle.std.specs.Prelude.{◌≡◌, ◌++◌, ℕ, List, OnOk};
ghost use Rattle.tree_texts.specs.Layouts as layouts;
ghost use Rattle.tree_texts.specs.Layouts.{chosen, begun, text_as, arrow};
ghost use Rattle.trees.specs.Trees.{Var};

use itoa::Buffer;
use std::alloc::AllocError;
use trees::Op;

/// What is shown of a tree.
#[derive(Clone, Copy, Debug, PartialEq, Eq)]
pub enum Sort {
    Term,
    Formula,
    /// Equations of one conjunction.
    Conjunction,
}

/// How an operator is shown.
#[derive(Clone, Copy, Debug, PartialEq, Eq)]
pub enum Form {
    /// Its kids in order, with words between them, in a text of this sort.
    Plain(Sort),
    /// A term with a system.
    WithSystem,
    /// Not at all.
    Hidden,
}

/// How the sides of a system are shown.
#[derive(Clone, Copy, Debug, PartialEq, Eq)]
pub enum Style {
    /// Lines along a name.
    Lines,
    Terms,
    Pairs,
}

/// Words between the parts of a term with a system.
#[derive(Clone, Copy, Debug, PartialEq, Eq)]
pub enum Phrase {
    EndLine,
    Space,
    Comma,
    Close,
}

/// The words of a phrase.
pub fn words_of(phrase: Phrase) -> &'static [u8]
    ensures { result.now ≡ layouts.words_of phrase }
{
    match phrase {
        Phrase::EndLine => b") ",
        Phrase::Space => b" ",
        Phrase::Comma => b",",
        Phrase::Close => b")",
    }
}

/// What stands before a side.
pub fn begin_of(first: bool) -> &'static [u8]
    ensures { result.now ≡ layouts.begin_of first }
{
    if first { b"[ " } else { b", " }
}

/// What stands where a system ends, as its first side or after one.
pub fn end_of(first: bool) -> &'static [u8]
    ensures { result.now ≡ layouts.end_of first }
{
    if first { b"[]" } else { b" ]" }
}

/// Appends what stands between the face of a side and its term.
pub fn append_arrow(style: Style, level: u64, into: &mut Vec<u8>) -> Result<(), AllocError>
    ensures { OnOk result (into.new.items ≡ into.old.items ++ arrow style level) }
{
    match style {
        Style::Lines => {
            let mut digits = Buffer::new();
            into.extend_from_slice(b" -> <i")?;
            into.extend_from_slice(digits.format(level).as_bytes())?;
            into.extend_from_slice(b"> ")?;
            Ok(())
        }
        Style::Terms => Ok(into.extend_from_slice(b" -> ")?),
        Style::Pairs => Ok(into.extend_from_slice(b" -> (")?),
    }
}

/// How an operator is shown.
pub fn form_of(op: Op) -> Form
    ensures { result ≡ layouts.form_of op }
{
    match op {
        Op::I0 | Op::I1 | Op::Neg | Op::Min | Op::Max => Form::Plain(Sort::Formula),
        Op::F1 | Op::Eq0 | Op::Eq1 | Op::Meet => Form::Plain(Sort::Conjunction),
        Op::F0 | Op::Join | Op::All | Op::Sys | Op::Empty => Form::Hidden,
        Op::Comp | Op::GlueType | Op::Glue | Op::Unglue => Form::WithSystem,
        Op::U
        | Op::Pi
        | Op::Lam
        | Op::App
        | Op::Sig
        | Op::Pair
        | Op::Fst
        | Op::Snd
        | Op::PathP
        | Op::PLam
        | Op::PApp
        | Op::Nat
        | Op::Zero
        | Op::Suc
        | Op::NatRec => Form::Plain(Sort::Term),
    }
}

/// What stands first.
fn opening(op: Op) -> &'static [u8]
    ensures { result.now ≡ layouts.opening op }
{
    match op {
        Op::I0 => b"0",
        Op::I1 => b"1",
        Op::Neg => b"-",
        Op::F1 | Op::Meet | Op::Fst | Op::Snd => b"",
        Op::U => b"U",
        Op::Pi | Op::Sig => b"((x",
        Op::Lam => b"(\\(x",
        Op::PathP => b"(PathP (<i",
        Op::PLam => b"(<i",
        Op::Nat => b"nat",
        Op::Zero => b"zero",
        Op::Suc => b"(suc ",
        Op::NatRec => b"(natrec (\\(x",
        Op::Comp => b"(comp (<i",
        Op::GlueType => b"(Glue ",
        Op::Glue => b"(glue ",
        Op::Unglue => b"(unglue ",
        Op::Min
        | Op::Max
        | Op::F0
        | Op::Eq0
        | Op::Eq1
        | Op::Join
        | Op::All
        | Op::App
        | Op::Pair
        | Op::PApp
        | Op::Sys
        | Op::Empty => b"(",
    }
}

/// What stands after the level, of an operator that binds.
fn after_level(op: Op) -> &'static [u8]
    ensures { result.now ≡ layouts.after_level op }
{
    match op {
        Op::Pi | Op::Lam | Op::Sig => b" : ",
        Op::PathP | Op::PLam | Op::Comp => b"> ",
        Op::NatRec => b" : nat) -> ",
        Op::I0
        | Op::I1
        | Op::Neg
        | Op::Min
        | Op::Max
        | Op::F0
        | Op::F1
        | Op::Eq0
        | Op::Eq1
        | Op::Meet
        | Op::Join
        | Op::All
        | Op::U
        | Op::App
        | Op::Pair
        | Op::Fst
        | Op::Snd
        | Op::PApp
        | Op::Nat
        | Op::Zero
        | Op::Suc
        | Op::Sys
        | Op::Empty
        | Op::GlueType
        | Op::Glue
        | Op::Unglue => b"",
    }
}

fn choose(
    first: &'static [u8],
    second: &'static [u8],
    third: &'static [u8],
    fourth: &'static [u8],
    at: u8,
) -> &'static [u8]
    ensures { result.now ≡ chosen first.now second.now third.now fourth.now at }
{
    if at == 0 {
        first
    } else if at == 1 {
        second
    } else if at == 2 {
        third
    } else {
        fourth
    }
}

/// What stands after the kid at a place.
pub fn after_kid(op: Op, at: u8) -> &'static [u8]
    ensures { result.now ≡ layouts.after_kid op at }
{
    match op {
        Op::Min => choose(b" /\\ ", b")", b"", b"", at),
        Op::Max => choose(b" \\/ ", b")", b"", b"", at),
        Op::Eq0 => b"=0)",
        Op::Eq1 => b"=1)",
        Op::Pi | Op::Lam => choose(b") -> ", b")", b"", b"", at),
        Op::App => choose(b" ", b")", b"", b"", at),
        Op::Sig => choose(b") * ", b")", b"", b"", at),
        Op::Pair => choose(b",", b")", b"", b"", at),
        Op::Fst => b".1",
        Op::Snd => b".2",
        Op::PathP => choose(b") ", b" ", b")", b"", at),
        Op::PLam | Op::Suc => b")",
        Op::PApp => choose(b" @ ", b")", b"", b"", at),
        Op::NatRec => choose(b") ", b" ", b" ", b")", at),
        Op::I0
        | Op::I1
        | Op::Neg
        | Op::F0
        | Op::F1
        | Op::Meet
        | Op::Join
        | Op::All
        | Op::U
        | Op::Nat
        | Op::Zero
        | Op::Sys
        | Op::Empty
        | Op::Comp
        | Op::GlueType
        | Op::Glue
        | Op::Unglue => b"",
    }
}

/// What is shown of the kid at a place.
pub fn kid_sort(op: Op, at: u8) -> Sort
    ensures { result ≡ layouts.kid_sort op at }
{
    match op {
        Op::Neg | Op::Min | Op::Max | Op::Eq0 | Op::Eq1 => Sort::Formula,
        Op::Meet => Sort::Conjunction,
        Op::PApp => { if at == 0 { Sort::Term } else { Sort::Formula } }
        Op::I0
        | Op::I1
        | Op::F0
        | Op::F1
        | Op::Join
        | Op::All
        | Op::U
        | Op::Pi
        | Op::Lam
        | Op::App
        | Op::Sig
        | Op::Pair
        | Op::Fst
        | Op::Snd
        | Op::PathP
        | Op::PLam
        | Op::Nat
        | Op::Zero
        | Op::Suc
        | Op::NatRec
        | Op::Sys
        | Op::Empty
        | Op::Comp
        | Op::GlueType
        | Op::Glue
        | Op::Unglue => Sort::Term,
    }
}

/// Appends the variable or the name of an index, by its level, in a context of so many.
pub fn append_variable(
    sort: Sort,
    count: u64,
    index: u128,
    into: &mut Vec<u8>,
) -> Result<(), AllocError>
    ensures { OnOk result (into.new.items ≡ into.old.items ++ text_as sort count (Var index)) }
{
    let level = if index < u128::from(count) {
        count - 1 - index as u64
    } else {
        0
    };
    let mut digits = Buffer::new();
    match sort {
        Sort::Term => {
            into.extend_from_slice(b"x")?;
            into.extend_from_slice(digits.format(level).as_bytes())?;
            Ok(())
        }
        Sort::Formula => {
            into.extend_from_slice(b"i")?;
            into.extend_from_slice(digits.format(level).as_bytes())?;
            Ok(())
        }
        Sort::Conjunction => Ok(()),
    }
}

/// Appends what stands before the first kid of an operator that binds this level, or binds nothing.
pub fn append_opening(op: Op, level: u64, into: &mut Vec<u8>) -> Result<(), AllocError>
    ensures { OnOk result ((rest : List ℕ) →
        into.new.items ++ rest ≡ into.old.items ++ begun op level rest) }
{
    into.extend_from_slice(opening(op))?;
    let words = after_level(op);
    if !words.is_empty() {
        let mut digits = Buffer::new();
        into.extend_from_slice(digits.format(level).as_bytes())?;
        into.extend_from_slice(words)?;
    }
    Ok(())
}
