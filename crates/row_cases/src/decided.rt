//! How side conditions are decided over contexts and trees that are written in postfix.

use crate::fault::Fault;
use crate::stored::add;
use crate::written::{Written, add_tree, in_context, pop, sub, tree, write};
use conditions::SideTest;
use rows::{CtxId, Row, RowStore, SubId, TermId, TermRow};
use side_conditions::{ContextFaces, SideConditions};
use std::alloc::{AllocError, Global};
use trees::Op;

/// The text of a word; `.` stands for the empty one.
fn text_of(word: Option<&str>) -> &str {
    match word {
        Some(".") | None => "",
        Some(text) => text,
    }
}

fn yes_or_no(is: bool) -> &'static str {
    if is { "yes" } else { "no" }
}

/// Whether a tree holds in the context, and whether it follows there.
fn holds_and_follows(
    alloc: Global,
    written: &Written,
    face: TermId,
) -> Result<(bool, bool), Fault> {
    let (rows, ctx) = (&written.rows, CtxId(written.ctx));
    if !(rows.is_context(ctx) && rows.is_term(face)) {
        return Err(Fault::Misfit);
    }
    let faces = ContextFaces::read(alloc, rows, ctx)?;
    let mut conditions = SideConditions::new(alloc);
    let follows = conditions.decide(alloc, rows, SideTest::Holds(ctx.0, face.0), 0)?;
    Ok((faces.holds(rows, face)?, follows))
}

/// Whether the tree of a text holds in the context of another, and whether it follows there.
pub(crate) fn holds_told(alloc: Global, input: &str) -> Result<String, Fault> {
    let mut words = input.split(" ");
    let mut written = in_context(alloc, text_of(words.next()))?;
    let face = tree(&mut written, text_of(words.next()))?;
    let (holds, follows) = holds_and_follows(alloc, &written, face)?;
    let (holds, follows) = (yes_or_no(holds), yes_or_no(follows));
    Ok(format!(in alloc; "holds {holds}, follows {follows}")?)
}

/// Whether two trees are formulas of one value in the context.
fn are_of_one_value(
    alloc: Global,
    written: &Written,
    (left, right): (TermId, TermId),
) -> Result<bool, Fault> {
    let (rows, ctx) = (&written.rows, CtxId(written.ctx));
    if !(rows.is_context(ctx) && rows.is_term(left) && rows.is_term(right)) {
        return Err(Fault::Misfit);
    }
    let mut faces = ContextFaces::read(alloc, rows, ctx)?;
    Ok(faces.same_form(rows, left, right)?)
}

fn told(alloc: Global, is: bool) -> Result<String, Fault> {
    Ok(String::from_str(alloc, yes_or_no(is))?)
}

/// Whether the trees of two texts are formulas of one value in the context of a third.
pub(crate) fn value_told(alloc: Global, input: &str) -> Result<String, Fault> {
    let mut words = input.split(" ");
    let mut written = in_context(alloc, text_of(words.next()))?;
    let left = tree(&mut written, text_of(words.next()))?;
    let right = tree(&mut written, text_of(words.next()))?;
    told(alloc, are_of_one_value(alloc, &written, (left, right))?)
}

/// Whether a tree is a formula, and whether it is a face, in the context.
fn is_formula_or_face(
    alloc: Global,
    written: &Written,
    tree: TermId,
) -> Result<(bool, bool), Fault> {
    let (rows, ctx) = (&written.rows, CtxId(written.ctx));
    if !(rows.is_context(ctx) && rows.is_term(tree)) {
        return Err(Fault::Misfit);
    }
    let faces = ContextFaces::read(alloc, rows, ctx)?;
    Ok((
        faces.form_of(rows, tree)?.is_some(),
        faces.face_of(rows, tree)?.is_some(),
    ))
}

/// The same, told without a normal form.
fn kind_told(
    alloc: Global,
    rows: &RowStore,
    ctx: CtxId,
    tree: TermId,
) -> Result<(bool, bool), Fault> {
    if !(rows.is_context(ctx) && rows.is_term(tree)) {
        return Err(Fault::Misfit);
    }
    let mut conditions = SideConditions::new(alloc);
    let is_formula = conditions.decide(alloc, rows, SideTest::IsFormula(ctx.0, tree.0), 0)?;
    let is_face = conditions.decide(alloc, rows, SideTest::IsFace(ctx.0, tree.0), 0)?;
    Ok((is_formula, is_face))
}

fn kind_named(kind: (bool, bool)) -> &'static str {
    match kind {
        (true, false) => "formula",
        (false, true) => "face",
        (false, false) => "neither",
        (true, true) => "both",
    }
}

/// Whether the tree of a text is a formula, or a face, in the context of another, where both ways
/// to tell agree.
pub(crate) fn kind_of_text(alloc: Global, input: &str) -> Result<String, Fault> {
    let mut words = input.split(" ");
    let mut written = in_context(alloc, text_of(words.next()))?;
    let tree = tree(&mut written, text_of(words.next()))?;
    let kind = is_formula_or_face(alloc, &written, tree)?;
    if kind_told(alloc, &written.rows, CtxId(written.ctx), tree)? != kind {
        return Ok(String::from_str(alloc, "told otherwise without a normal form")?);
    }
    Ok(String::from_str(alloc, kind_named(kind))?)
}

/// Whether two substitutions are alike in the context.
fn are_alike(
    alloc: Global,
    written: &Written,
    (left, right): (SubId, SubId),
) -> Result<bool, Fault> {
    let (rows, ctx) = (&written.rows, written.ctx);
    if !(rows.is_context(CtxId(ctx)) && rows.is_subst(left) && rows.is_subst(right)) {
        return Err(Fault::Misfit);
    }
    let mut conditions = SideConditions::new(alloc);
    Ok(conditions.decide(alloc, rows, SideTest::Alike(ctx, left.0, right.0), 0)?)
}

/// A shift and the trees that are pushed on it, as `2:ab`.
fn shifted(word: Option<&str>) -> (u64, &str) {
    let (shift, trees) = word.unwrap_or("").split_once(":").unwrap_or(("", ""));
    (shift.parse::<u64>().unwrap_or(0), trees)
}

/// Whether two substitutions are alike in the context of a text.
pub(crate) fn alike_told(alloc: Global, input: &str) -> Result<String, Fault> {
    let mut words = input.split(" ");
    let mut written = in_context(alloc, text_of(words.next()))?;
    let left = sub(&mut written, shifted(words.next()))?;
    let right = sub(&mut written, shifted(words.next()))?;
    told(alloc, are_alike(alloc, &written, (left, right))?)
}

/// How tests about a formula and a face are decided one after another, over two contexts of which
/// the inner has the face.
fn decided_in_order(
    alloc: Global,
    rows: &RowStore,
    (outer, inner): (u64, u64),
    (form, face): (u64, u64),
) -> Result<String, Fault> {
    if !(rows.is_context(CtxId(outer)) && rows.is_context(CtxId(inner))) {
        return Err(Fault::Misfit);
    }
    if !(rows.is_term(TermId(form)) && rows.is_term(TermId(face))) {
        return Err(Fault::Misfit);
    }
    let mut conditions = SideConditions::new(alloc);
    let mut found = String::new(alloc);
    for test in [
        SideTest::IsFormula(outer, form),
        SideTest::IsFace(outer, form),
        SideTest::Holds(outer, face),
        SideTest::Holds(inner, face),
        SideTest::Holds(inner, form),
        // what was read is remembered
        SideTest::Holds(outer, face),
        SideTest::IsFormula(outer, form),
    ] {
        let holds = conditions.decide(alloc, rows, test, inner)?;
        found.push_str(if holds { " yes" } else { " no" })?;
    }
    Ok(found)
}

/// The answers to these, of a formula and a face that holds in the inner context.
pub(crate) fn in_order_told(alloc: Global) -> Result<String, Fault> {
    let mut written = in_context(alloc, "nnb0f")?;
    let outer = written.ctx;
    let form = tree(&mut written, "bb-&")?.0;
    let face = tree(&mut written, "b1")?.0;
    write(&mut written, "b1f")?;
    let contexts = (outer, written.ctx);
    decided_in_order(alloc, &written.rows, contexts, (form, face))
}

/// The tree that joins a tree with itself, that with itself, and so on, 40 times.
fn doubled(rows: &mut RowStore, tree: TermId) -> Result<TermId, Fault> {
    let mut last = tree.0;
    for _ in 0..40 {
        last = add(rows, Row::Term(TermRow::Make(Op::Max, &[last, last])))?;
    }
    Ok(TermId(last))
}

/// Whether a name, joined with itself again and again, has the value of the name.
pub(crate) fn shared_formula_told(alloc: Global) -> Result<String, Fault> {
    let mut written = in_context(alloc, "nn")?;
    let first = tree(&mut written, "b")?;
    let last = doubled(&mut written.rows, first)?;
    told(alloc, are_of_one_value(alloc, &written, (last, first))?)
}

/// The meet of so many joins of two names each, all of them names of the context.
fn long_formula(alloc: Global, count: u32) -> Result<(Written, TermId), Fault> {
    let mut written = in_context(alloc, "H")?;
    for k in 0..count.min(1000) {
        write(&mut written, "nn")?;
        add_tree(&mut written, TermRow::Var(2 * k))?;
        add_tree(&mut written, TermRow::Var(2 * k + 1))?;
        write(&mut written, "|&")?;
    }
    let tree = TermId(pop(&mut written)?);
    Ok((written, tree))
}

/// What a tree is whose normal form has 2^40 products.
pub(crate) fn long_formula_told(alloc: Global) -> Result<String, Fault> {
    let (written, tree) = long_formula(alloc, 40)?;
    let kind = kind_told(alloc, &written.rows, CtxId(written.ctx), tree)?;
    Ok(String::from_str(alloc, kind_named(kind))?)
}
