//! What terms are applied to, projections, and successors.

use book::{Book, NodeId};
use codes::{Code, Element, Formula};
use eliminators::type_under;
use examining_state::{Eliminating, Examiner, Head, Inferred, Kind, OpenHead, Stop, Task, Tasks};
use form_rows::formula as formula_row;
use syntax::Projection;
use tested_steps::{Fault, derive};
use typed_nodes::{Family, Line};
use typing_rules::{
    APPLIED, APPLIED_GIVES, FIRST, FIRST_GIVES, PATH_APPLIED, PATH_APPLIED_GIVES, SECOND,
    SECOND_GIVES, SUCCESSOR_TERM, SUCCESSOR_TERM_GIVES,
};

/// What is asked of terms that were inferred last and are taken apart.
pub fn eliminating<'a>(
    state: &mut Examiner,
    book: &mut Book,
    tasks: &mut Tasks<'a>,
    eliminating: Eliminating<'a>,
) -> Result<(), Stop> {
    match eliminating {
        Eliminating::Elements(list, at, whole) => elements(state, book, tasks, list, at, whole),
        Eliminating::Apply(family) => Ok(apply(state, book, family)?),
        Eliminating::Project(list, at, whole) => project(state, book, tasks, list, at, whole),
        Eliminating::Successor => Ok(successor(state, book)?),
    }
}

/// What a term is applied to.
fn elements<'a>(
    state: &mut Examiner,
    book: &mut Book,
    tasks: &mut Tasks<'a>,
    list: &'a [Element],
    at: u32,
    whole: u32,
) -> Result<(), Stop> {
    let [element, rest @ ..] = list else {
        return Ok(());
    };
    let rest = Task::Eliminating(Eliminating::Elements(rest, whole, whole));
    match element {
        Element::Argument(code) => argument(state, book, tasks, code, at, rest),
        Element::At(_, formula) => {
            at_formula(state, book, formula, at)?;
            Ok(tasks.plan(&[rest])?)
        }
    }
}

/// To apply the term that was inferred last to an argument, and then the rest.
fn argument<'a>(
    state: &mut Examiner,
    book: &mut Book,
    tasks: &mut Tasks<'a>,
    code: &'a Code,
    at: u32,
    rest: Task<'a>,
) -> Result<(), Stop> {
    let OpenHead { term, ty, shape } = state.open_head(book, at)?;
    let Head::Function(family) = shape.head else {
        return Err(state.wanted(book, at, Kind::Function, ty));
    };
    state.inferred(term, shape.ty)?;
    let domain = type_under(book, family.sub, family.domain)?;
    let apply = Task::Eliminating(Eliminating::Apply(family));
    Ok(tasks.plan(&[Task::Check(code, domain), apply, rest])?)
}

/// A function applied to an argument, with its type.
pub(crate) fn applied(
    book: &mut Book,
    family: Family,
    function: NodeId,
    argument: NodeId,
) -> Result<Inferred, Fault> {
    let Family {
        domain,
        codomain,
        sub,
    } = family;
    let premises = [sub, domain, codomain, function, argument];
    let [term, pushed]: [NodeId; 2] = derive(book, APPLIED, APPLIED_GIVES, &[], &premises)?;
    let ty = type_under(book, pushed, codomain)?;
    Ok(Inferred { term, ty })
}

/// A term, applied to the argument that was found last.
fn apply(state: &mut Examiner, book: &mut Book, family: Family) -> Result<(), Fault> {
    let argument = state.take_node()?;
    let head = state.take_head()?;
    let Inferred { term, ty } = applied(book, family, head.term, argument)?;
    Ok(state.inferred(term, ty)?)
}

/// A path at a formula, which is a row, with its type.
pub(crate) fn path_at(
    book: &mut Book,
    line: Line,
    path: NodeId,
    formula: u64,
) -> Result<Inferred, Fault> {
    let Line {
        ty,
        left,
        right,
        sub,
    } = line;
    let premises = [sub, ty, left, right, path];
    let [term, pushed]: [NodeId; 2] = derive(
        book,
        PATH_APPLIED,
        PATH_APPLIED_GIVES,
        &[formula],
        &premises,
    )?;
    let ty = type_under(book, pushed, ty)?;
    Ok(Inferred { term, ty })
}

/// The term that was inferred last, at a formula.
fn at_formula(
    state: &mut Examiner,
    book: &mut Book,
    formula: &Formula,
    at: u32,
) -> Result<(), Stop> {
    let OpenHead { term, ty, shape } = state.open_head(book, at)?;
    let Head::Path(line) = shape.head else {
        return Err(state.wanted(book, at, Kind::Path, ty));
    };
    let row = formula_row(book, formula)?;
    let Inferred { term, ty } = path_at(book, line, term, row)?;
    Ok(state.inferred(term, ty)?)
}

/// Projections of the pair that was inferred last.
fn project<'a>(
    state: &mut Examiner,
    book: &mut Book,
    tasks: &mut Tasks<'a>,
    list: &'a [Projection],
    at: u32,
    whole: u32,
) -> Result<(), Stop> {
    let [projection, rest @ ..] = list else {
        return Ok(());
    };
    let OpenHead { term, ty, shape } = state.open_head(book, at)?;
    let Head::Pair(family) = shape.head else {
        return Err(state.wanted(book, at, Kind::Pair, ty));
    };
    let Inferred { term, ty } = component(book, family, term, projection)?;
    state.inferred(term, ty)?;
    let rest = Task::Eliminating(Eliminating::Project(rest, whole, whole));
    Ok(tasks.plan(&[rest])?)
}

/// The component of a pair that a projection takes, with its type.
fn component(
    book: &mut Book,
    family: Family,
    pair: NodeId,
    projection: &Projection,
) -> Result<Inferred, Fault> {
    let Family {
        domain,
        codomain,
        sub,
    } = family;
    let premises = [sub, domain, codomain, pair];
    match projection {
        Projection::First(_) => {
            let [term]: [NodeId; 1] = derive(book, FIRST, FIRST_GIVES, &[], &premises)?;
            let ty = type_under(book, sub, domain)?;
            Ok(Inferred { term, ty })
        }
        Projection::Second(_) => {
            let [term, pushed]: [NodeId; 2] = derive(book, SECOND, SECOND_GIVES, &[], &premises)?;
            let ty = type_under(book, pushed, codomain)?;
            Ok(Inferred { term, ty })
        }
    }
}

/// The successor of the number that was found last.
fn successor(state: &mut Examiner, book: &mut Book) -> Result<(), Fault> {
    let number = state.take_node()?;
    let premises = [number];
    let [term]: [NodeId; 1] = derive(book, SUCCESSOR_TERM, SUCCESSOR_TERM_GIVES, &[], &premises)?;
    let [_, ty] = state.numbers(book)?;
    Ok(state.inferred(term, ty)?)
}
