//! Tables of derivations, run row by row with each row tested.

ghost use Rattle.std.specs.Prelude.{◌≡◌, IfOk, length};
ghost use Rattle.book.specs.Shown.{Extends};

use crate::conclude::try_conclude;
use crate::fault::Fault;
use crate::making::{
    try_instance, try_make, try_push, try_then, try_with_face, try_with_name, try_with_variable,
};
use crate::reading::claim_of;
use book::{Book, Few, NodeId, RuleUse};
use recipe_runner::{MOST_NUMBERS, Numbers};
use recipes::{MOST_PARTS, MOST_WANTED, Row};
use rows::Maker;
use theory::{Op, RuleName, count_parts, count_premises, kid_count};

/// The most numbers of a short list.
const MOST_FEW: usize = 16;

/// The number at a place.
fn number(numbers: &[u64], place: u16) -> Result<u64, Fault> {
    match numbers.get(usize::from(place)) {
        Some(number) => Ok(*number),
        None => Err(Fault::Misfit),
    }
}

/// The numbers at these places.
fn picked(numbers: &[u64], places: &[u16]) -> Result<Few, Fault>
    ensures { IfOk result (λ few. length few ≡ length places.now) }
{
    if places.len() > MOST_FEW {
        return Err(Fault::Misfit);
    }
    let mut few = Few::new();
    for place in places {
        few.push(number(numbers, *place)?);
    }
    Ok(few)
}

/// An operator over the trees that earlier rows made.
fn over_kids(book: &mut Book, made: &[u64], op: Op, kids: &[u16; 4]) -> Result<u64, Fault>
    ensures { Extends book.old book.new }
{
    let kids = picked(made, kids.split_at(kid_count(op) as usize).0)?;
    try_make(book, op, kids.as_slice())
}

/// A rule over the parts and nodes that earlier rows made.
fn infer(
    book: &mut Book,
    made: &[u64],
    rule: RuleName,
    parts: &[u16; MOST_PARTS],
    nodes: &[u16; MOST_WANTED],
) -> Result<u64, Fault>
    ensures { Extends book.old book.new }
{
    let parts = picked(made, parts.split_at(count_parts(rule) as usize).0)?;
    let premises = picked(made, nodes.split_at(count_premises(rule) as usize).0)?;
    let step = RuleUse {
        rule,
        parts,
        premises,
    };
    let NodeId(node) = try_conclude(book, &step)?;
    Ok(node)
}

/// What stands at a place of a node's conclusion.
fn field(book: &Book, node: u64, at: u16) -> Result<u64, Fault> {
    let rows = claim_of(book, NodeId(node))?.rows();
    number(rows.as_slice(), at)
}

/// A thing of what earlier rows made.
fn build(book: &mut Book, made: &[u64], row: &Row) -> Result<u64, Fault>
    ensures { Extends book.old book.new }
{
    match *row {
        Row::Var(index) => Ok(book.var(u32::from(index))?),
        Row::Shift(by) => Ok(book.shift(u64::from(by))?),
        Row::Field(node, at) => field(book, number(made, node)?, at),
        Row::Make(op, kids) => over_kids(book, made, op, &kids),
        Row::Instance(tree, sub) => try_instance(book, number(made, tree)?, number(made, sub)?),
        Row::Push(sub, tree) => try_push(book, number(made, sub)?, number(made, tree)?),
        Row::Then(first, second) => try_then(book, number(made, first)?, number(made, second)?),
        Row::WithVar(ctx, ty) => try_with_variable(book, number(made, ctx)?, number(made, ty)?),
        Row::WithName(ctx) => try_with_name(book, number(made, ctx)?),
        Row::WithFace(ctx, face) => try_with_face(book, number(made, ctx)?, number(made, face)?),
        Row::Nil => Ok(book.ctx_nil()?),
        _ => Err(Fault::Misfit),
    }
}

/// What a row makes over parts, premises and what earlier rows made: the number of its row or node.
/// Earlier recipes are not run.
fn make(
    book: &mut Book,
    parts: &[u64],
    premises: &[u64],
    made: &[u64],
    row: &Row,
) -> Result<u64, Fault>
    ensures { Extends book.old book.new }
{
    match *row {
        Row::Premise(at) => number(premises, at),
        Row::Part(at) => number(parts, at),
        Row::Conclude(rule, rule_parts, nodes) => { infer(book, made, rule, &rule_parts, &nodes) }
        _ => build(book, made, row),
    }
}

/// Runs a table at parts, which are rows, and premises, which are nodes: what `gives` names of what
/// its rows make.
///
/// # Errors
/// `Misfit` at the first row that names what is not there, `Unfit` at the first use of a rule that
/// does not fit, and `Memory`. The rows and nodes before it stay.
pub fn try_run(
    book: &mut Book,
    rows: &[Row],
    gives: &[u16],
    parts: &[u64],
    premises: &[u64],
) -> Result<Few, Fault>
    ensures extends { Extends book.old book.new }
    ensures count { IfOk result (λ numbers. length numbers ≡ length gives.now) }
{
    if rows.len() > MOST_NUMBERS {
        return Err(Fault::Misfit);
    }
    let mut made = Numbers::new();
    for row in rows {
        let number = make(book, parts, premises, made.as_slice(), row)?;
        made.push(number);
    }
    picked(made.as_slice(), gives)
}

/// The numbers of some nodes.
fn numbers_of(nodes: &[NodeId]) -> Result<Few, Fault> {
    if nodes.len() > MOST_FEW {
        return Err(Fault::Misfit);
    }
    let mut numbers = Few::new();
    for node in nodes {
        numbers.push(node.0);
    }
    Ok(numbers)
}

/// The nodes that a table gives, as many as are asked for, at parts, which are rows, and premises.
///
/// # Errors
/// `Misfit` at the first row that names what is not there, and where it gives another number of
/// nodes, `Unfit` at the first use of a rule that does not fit, and `Memory`. The rows and nodes
/// before it stay.
pub fn derive<const N: usize>(
    book: &mut Book,
    rows: &[Row],
    gives: &[u16],
    parts: &[u64],
    premises: &[NodeId],
) -> Result<[NodeId; N], Fault>
    ensures { Extends book.old book.new }
{
    let premises = numbers_of(premises)?;
    let given = try_run(book, rows, gives, parts, premises.as_slice())?;
    let given = given.as_slice();
    if given.len() != N {
        return Err(Fault::Misfit);
    }
    let mut nodes = [NodeId(0); N];
    for at in 0..N {
        nodes[at] = NodeId(given[at]);
    }
    Ok(nodes)
}
