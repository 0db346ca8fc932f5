//! The interpreter of recipes.

ghost use Rattle.std.specs.Prelude.{◌≡◌, ◌≤◌, ◌<◌, ◌+◌, ℕ, List, Some, IfOk, IsOk, length};
ghost use Rattle.std.specs.Prelude.{slice_index, take};
ghost use Rattle.std.specs.List.{All};
ghost use Rattle.theory.specs.RuleNames.{kinds_of, premises_of};
ghost use Rattle.trees.specs.Judgements.{Judgement};
ghost use Rattle.trees.specs.Things.{Thing, meanings};
ghost use Rattle.rules.specs.Schemas.{most_rows};
ghost use Rattle.book.specs.Shown.{book_means, book_concludes, Extends};
ghost use Rattle.recipes.specs.Made.{Made};
ghost use Rattle.recipes.specs.declared.row.Row.TheVariants as row;
ghost use Rattle.recipe_runner.specs.Running.{MayRun, MakesAll, MakesOne, Builds, Infers, Supplies};
ghost use Rattle.recipe_runner.specs.Running.{IsNumberOf, AreNumbersOf, numbers_at};
ghost use Rattle.recipe_runner.specs.Running.{most_added, most_added_by, most_made, most_made_by};

use crate::earlier::Earlier;
use crate::numbers::Numbers;
use book::{Book, Few, NodeId, RuleUse};
use recipes::{MOST_PARTS, MOST_PREMISES, MOST_WANTED, Row};
use rows::Maker;
use std::alloc::AllocError;
use theory::{Op, RuleName, count_parts, count_premises, kid_count};

/// The numbers at these places.
fn picked(made: &[u64], places: &[u16]) -> Few
    requires few { length places.now ≤ 16 }
    requires within { All (λ place. place < length made.now) places.now }
    ensures { result ≡ numbers_at made.now places.now }
{
    let mut few = Few::new();
    for place in places {
        few.push(made[*place as usize]);
    }
    few
}

/// An operator over the trees that earlier rows made.
fn over_kids(book: &mut Book, made: &[u64], op: Op, kids: &[u16; 4]) -> Result<u64, AllocError>
    requires { (x : Thing) × Builds book.old made.now (row.Make op kids.now) x }
    ensures covered { 0 < book.old.spare → IsOk result }
    ensures spends { book.old.spare ≤ book.new.spare + 1 }
    ensures extends { Extends book.old book.new }
    ensures meaning { IfOk result (λ at. (x : Thing) →
        Builds book.old made.now (row.Make op kids.now) x → book_means book.new at ≡ Some x) }
{
    let kids = picked(made, kids.split_at(kid_count(op) as usize).0);
    Ok(book.make(op, kids.as_slice())?)
}

/// A rule over the parts and nodes that earlier rows made.
fn infer(
    book: &mut Book,
    made: &[u64],
    rule: RuleName,
    parts: &[u16; MOST_PARTS],
    nodes: &[u16; MOST_WANTED],
) -> Result<u64, AllocError>
    requires { (J : Judgement) × Infers book.old made.now rule parts.now nodes.now J }
    ensures covered { most_rows rule ≤ book.old.spare → IsOk result }
    ensures spends { book.old.spare ≤ book.new.spare + most_rows rule }
    ensures extends { Extends book.old book.new }
    ensures concludes { IfOk result (λ node. (J : Judgement) →
        Infers book.old made.now rule parts.now nodes.now J →
        book_concludes book.new node ≡ Some J) }
{
    let parts = picked(made, parts.split_at(count_parts(rule) as usize).0);
    let premises = picked(made, nodes.split_at(count_premises(rule) as usize).0);
    let NodeId(node) = book.conclude(&RuleUse {
        rule,
        parts,
        premises,
    })?;
    Ok(node)
}

/// What stands at a place of a node's conclusion.
fn field(book: &Book, made: &[u64], node: u16, at: u16) -> u64
    requires { (x : Thing) × Builds book.now made.now (row.Field node at) x }
    ensures { (x : Thing) → Builds book.now made.now (row.Field node at) x →
        book_means book.now result ≡ Some x }
{
    let rows = book.conclusion(NodeId(made[node as usize])).rows();
    rows.as_slice()[at as usize]
}

/// A thing of what earlier rows made. A row that makes no thing is not asked for.
fn build(book: &mut Book, made: &[u64], row: &Row) -> Result<u64, AllocError>
    requires { (x : Thing) × Builds book.old made.now row.now x }
    ensures covered { 0 < book.old.spare → IsOk result }
    ensures spends { book.old.spare ≤ book.new.spare + 1 }
    ensures extends { Extends book.old book.new }
    ensures meaning { IfOk result (λ at. (x : Thing) →
        Builds book.old made.now row.now x → book_means book.new at ≡ Some x) }
{
    match *row {
        Row::Var(index) => Ok(book.var(u32::from(index))?),
        Row::Shift(by) => Ok(book.shift(u64::from(by))?),
        Row::Field(node, at) => Ok(field(book, made, node, at)),
        Row::Make(op, kids) => Ok(over_kids(book, made, op, &kids)?),
        Row::Instance(tree, sub) => { Ok(book.instance(made[tree as usize], made[sub as usize])?) }
        Row::Push(sub, tree) => Ok(book.push(made[sub as usize], made[tree as usize])?),
        Row::Then(first, second) => { Ok(book.then(made[first as usize], made[second as usize])?) }
        Row::WithVar(ctx, ty) => Ok(book.ctx_var(made[ctx as usize], made[ty as usize])?),
        Row::WithName(ctx) => Ok(book.ctx_name(made[ctx as usize])?),
        Row::WithFace(ctx, face) => Ok(book.ctx_face(made[ctx as usize], made[face as usize])?),
        _ => Ok(book.ctx_nil()?),
    }
}

/// What a row makes over parts, premises and what earlier rows made: the number of its row or node.
/// A row of an earlier recipe is not asked for.
fn make(
    book: &mut Book,
    parts: &[u64],
    premises: &[u64],
    made: &[u64],
    row: &Row,
) -> Result<u64, AllocError>
    requires { (m : Made) × MakesOne book.old parts.now premises.now made.now row.now m }
    ensures covered { most_added (λ k. 1) row.now ≤ book.old.spare → IsOk result }
    ensures spends { book.old.spare ≤ book.new.spare + most_added (λ k. 1) row.now }
    ensures extends { Extends book.old book.new }
    ensures makes { IfOk result (λ at. (m : Made) →
        MakesOne book.old parts.now premises.now made.now row.now m → IsNumberOf book.new m at) }
{
    match *row {
        Row::Premise(at) => Ok(premises[at as usize]),
        Row::Part(at) => Ok(parts[at as usize]),
        Row::Conclude(rule, rule_parts, nodes) => {
            Ok(infer(book, made, rule, &rule_parts, &nodes)?)
        }
        _ => Ok(build(book, made, row)?),
    }
}

/// An earlier recipe over the parts and nodes that earlier rows made.
fn derive<E: Earlier>(
    book: &mut Book,
    earlier: &E,
    made: &[u64],
    recipe: u16,
    parts: &[u16; MOST_PARTS],
    nodes: &[u16; MOST_PREMISES],
) -> Result<Few, AllocError>
    requires { (gives : List Judgement) ×
        Supplies (E.states earlier.now) book.old made.now recipe parts.now nodes.now gives }
    ensures covered { E.most earlier.now recipe ≤ book.old.spare → IsOk result }
    ensures spends { book.old.spare ≤ book.new.spare + E.most earlier.now recipe }
    ensures extends { Extends book.old book.new }
    ensures concludes { IfOk result (λ numbers. (gives : List Judgement) →
        Supplies (E.states earlier.now) book.old made.now recipe parts.now nodes.now gives →
        meanings (book_concludes book.new) numbers ≡ Some gives) }
{
    let parts = picked(made, parts.split_at(earlier.count_parts(recipe)).0);
    let premises = picked(made, nodes.split_at(earlier.count_premises(recipe)).0);
    Ok(earlier.derive(book, recipe, parts.as_slice(), premises.as_slice())?)
}

/// What a row makes: one number, or of an earlier recipe those of what it gives.
fn make_all<E: Earlier>(
    book: &mut Book,
    earlier: &E,
    parts: &[u64],
    premises: &[u64],
    made: &[u64],
    row: &Row,
) -> Result<Few, AllocError>
    requires { (new : List Made) ×
        MakesAll (E.states earlier.now) book.old parts.now premises.now made.now row.now new }
    ensures covered { most_added (E.most earlier.now) row.now ≤ book.old.spare → IsOk result }
    ensures spends { book.old.spare ≤ book.new.spare + most_added (E.most earlier.now) row.now }
    ensures extends { Extends book.old book.new }
    ensures few { IfOk result (λ numbers. length numbers ≤ most_made row.now) }
    ensures makes { IfOk result (λ numbers. (new : List Made) →
        MakesAll (E.states earlier.now) book.old parts.now premises.now made.now row.now new →
        AreNumbersOf book.new new numbers) }
{
    match *row {
        Row::Derive(recipe, at, nodes) => Ok(derive(book, earlier, made, recipe, &at, &nodes)?),
        _ => Ok(Few::of(&[make(book, parts, premises, made, row)?])),
    }
}

/// Runs a recipe at parts, which are rows, and premises, which are nodes: the nodes that `outs`
/// names. It adds at most as many rows and nodes as its rows say, those of earlier recipes among
/// them.
///
/// # Errors
/// Only where memory runs out that the spare does not cover.
pub fn run<E: Earlier>(
    book: &mut Book,
    earlier: &E,
    rows: &[Row],
    outs: &[u16],
    parts: &[u64],
    premises: &[u64],
) -> Result<Few, AllocError>
    requires rows { most_made_by rows.now ≤ 512 }
    requires outs { length outs.now ≤ 16 }
    requires right { (gives : List Judgement) × MayRun (E.states earlier.now) book.old
        rows.now outs.now parts.now premises.now gives }
    ensures covered { most_added_by (E.most earlier.now) rows.now ≤ book.old.spare →
        IsOk result }
    ensures spends { book.old.spare ≤
        book.new.spare + most_added_by (E.most earlier.now) rows.now }
    ensures extends { Extends book.old book.new }
    ensures concludes { IfOk result (λ nodes. (gives : List Judgement) →
        MayRun (E.states earlier.now) book.old rows.now outs.now parts.now premises.now gives →
        meanings (book_concludes book.new) nodes ≡ Some gives) }
{
    let mut made = Numbers::new();
    for row in rows {
        let numbers = make_all(book, earlier, parts, premises, made.as_slice(), row)?;
        made.append(numbers.as_slice());
    }
    Ok(picked(made.as_slice(), outs))
}
