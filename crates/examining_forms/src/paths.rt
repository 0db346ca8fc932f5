//! Paths, against types.

use book::{Book, NodeId};
use codes::Code;
use eliminators::type_under;
use examining_state::{Examiner, Head, Kind, Pairing, Shape, Stop, Task, Tasks};
use joined_sides::conclude;
use tested_steps::{Fault, claim_of, derive};
use theory::{Claim, PathRule, RuleName};
use typed_nodes::Line;
use typing_rules::{LINE_ENDS, LINE_ENDS_GIVES, UNDER_NAME, UNDER_NAME_GIVES};
use values::term_under;

/// A body under so many names, against a type.
pub(crate) fn names<'a>(
    state: &mut Examiner,
    book: &mut Book,
    tasks: &mut Tasks<'a>,
    count: usize,
    code: &'a Code,
    ty: NodeId,
    at: u32,
) -> Result<(), Stop> {
    if count == 0 {
        return Ok(tasks.plan(&[Task::Check(code, ty)])?);
    }
    let shape = state.shape(book, at, ty)?;
    let Head::Path(line) = shape.head else {
        return Err(state.wanted(book, at, Kind::Path, ty));
    };
    let [along]: [NodeId; 1] = derive(book, UNDER_NAME, UNDER_NAME_GIVES, &[], &[line.sub])?;
    state.enter_name(book)?;
    let inner = type_under(book, along, line.ty)?;
    Ok(tasks.plan(&[
        Task::Pairing(Pairing::Names(count - 1, code, inner, at)),
        Task::Pairing(Pairing::CloseName(line, shape, at)),
    ])?)
}

/// The right side of an equation of terms.
fn right_of(book: &Book, equation: NodeId) -> Result<u64, Fault> {
    match claim_of(book, equation)? {
        Claim::TmEq(_, _, right, _) => Ok(right),
        _ => Err(Fault::Misfit),
    }
}

/// A path over the last name, whose body was found last. Its ends are those of a type of paths.
pub(crate) fn close_name(
    state: &mut Examiner,
    book: &mut Book,
    line: Line,
    shape: Shape,
    at: u32,
) -> Result<(), Stop> {
    let body = state.take_node()?;
    state.leave();
    let premises = [state.ctx()];
    let [start, end]: [NodeId; 2] = derive(book, LINE_ENDS, LINE_ENDS_GIVES, &[], &premises)?;
    let found = term_under(book, start, body)?;
    let wanted = term_under(book, line.sub, line.left)?;
    let left = state.matched(book, at, found, wanted)?;
    let found = term_under(book, end, body)?;
    let wanted = term_under(book, line.sub, line.right)?;
    let right = state.matched(book, at, found, wanted)?;
    let path = path(state, book, body, [left, right])?;
    let path = shape.closed(book, path)?;
    Ok(state.found(path)?)
}

/// `G >> plam b : pathp A u v`, of `G.I >> b : A` and the equations of its ends with u and v.
fn path(
    state: &Examiner,
    book: &mut Book,
    body: NodeId,
    ends: [NodeId; 2],
) -> Result<NodeId, Fault> {
    let Claim::Ctx(ctx) = claim_of(book, state.ctx())? else {
        return Err(Fault::Misfit);
    };
    let Claim::Tm(_, tree, ty) = claim_of(book, body)? else {
        return Err(Fault::Misfit);
    };
    let [left, right] = ends;
    let parts = [ctx, ty, tree, right_of(book, left)?, right_of(book, right)?];
    let rule = RuleName::Paths(PathRule::PLam);
    conclude(book, rule, &parts, &[body, left, right])
}
