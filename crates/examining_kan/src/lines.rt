//! Compositions and fillings.

use crate::overlaps::{Overlap, Written, agreed, face_of, overlaps, sides_of};
use book::{Book, NodeId};
use codes::{Code, LineSide, Opened};
use eliminators::{OnFace, type_under};
use examining_state::{Comparing, Composing, Examiner, Lining, Pair, Stop, Task, Tasks};
use joined_sides::{
    Composition, Home, Probe, Reach, TypeOn, agreement, composed, filled, formula_at, into, system,
    turned, where_all,
};
use tested_steps::{Fault, derive};
use typing_rules::{LINE_ENDS, LINE_ENDS_GIVES};
use values::term_under;

/// The parts of a composition, a filling or a transport, beside its line.
#[derive(Clone, Copy)]
struct Parts<'a> {
    base: &'a Code,
    sides: &'a [LineSide],
    /// Whether it is the path from the base to the composition.
    fills: bool,
}

/// The parts of a composition, a filling or a transport.
fn parts_of(code: &Code) -> Result<Parts<'_>, Fault> {
    match code {
        Code::Comp { base, sides, .. } => Ok(Parts {
            base,
            sides,
            fills: false,
        }),
        Code::Fill { base, sides, .. } => Ok(Parts {
            base,
            sides,
            fills: true,
        }),
        Code::Transport { base, .. } => Ok(Parts {
            base,
            sides: &[],
            fills: false,
        }),
        _ => Err(Fault::Misfit),
    }
}

/// What is asked of a composition, a filling or a transport.
pub fn composing<'a>(
    state: &mut Examiner,
    book: &mut Book,
    tasks: &mut Tasks<'a>,
    code: &'a Code,
    composing: Composing,
) -> Result<(), Stop> {
    let parts = parts_of(code)?;
    match composing {
        Composing::Base => check_base(state, book, tasks, code, parts.base),
        Composing::Start => start(state, tasks, code),
        Composing::Sides(line, number) => match parts.sides.get(number) {
            None => Ok(()),
            Some(next) => {
                let rest = Task::Composing(code, Composing::Sides(line, number + 1));
                side(state, book, tasks, next, line, rest)
            }
        },
        Composing::Close(line, base) => close(state, book, parts, line, base),
    }
}

/// The base, where the line was found last.
fn check_base<'a>(
    state: &mut Examiner,
    book: &mut Book,
    tasks: &mut Tasks<'a>,
    code: &'a Code,
    base: &'a Code,
) -> Result<(), Stop> {
    let line = state.last_node()?;
    let premises = [state.ctx()];
    let [start, _]: [NodeId; 2] = derive(book, LINE_ENDS, LINE_ENDS_GIVES, &[], &premises)?;
    let ty = type_under(book, start, line)?;
    Ok(tasks.plan(&[
        Task::Check(base, ty),
        Task::Composing(code, Composing::Start),
    ])?)
}

/// The sides, where the line and the base were found last.
fn start<'a>(state: &mut Examiner, tasks: &mut Tasks<'a>, code: &'a Code) -> Result<(), Stop> {
    let base = state.take_node()?;
    let line = state.take_node()?;
    Ok(tasks.plan(&[
        Task::Composing(code, Composing::Sides(line, 0)),
        Task::Composing(code, Composing::Close(line, base)),
    ])?)
}

/// A side at a line, where its face is true, and then the rest.
fn side<'a>(
    state: &mut Examiner,
    book: &mut Book,
    tasks: &mut Tasks<'a>,
    side: &'a LineSide,
    line: NodeId,
    rest: Task<'a>,
) -> Result<(), Stop> {
    let face = face_of(state, book, &side.equations)?;
    let here = state.ctx();
    let there = where_all(book, here, &[face], Reach::Line)?;
    let name = formula_at(book, Reach::Line)?;
    let sub = into(book, there, &[], Reach::Line, name)?;
    let ty = type_under(book, sub, line)?;
    state.enter_face(book, face)?;
    let enter = Task::Lining(Lining::EnterName);
    let leave = Task::Lining(Lining::Leave);
    match &side.body {
        Opened::Under(_, code) => {
            Ok(tasks.plan(&[enter, Task::Check(code, ty), leave, leave, rest])?)
        }
        Opened::Applied(span, code) => Ok(tasks.plan(&[
            Task::Infer(code),
            enter,
            Task::Lining(Lining::AtName(span.start)),
            Task::Comparing(Comparing::At(ty, span.start)),
            leave,
            leave,
            rest,
        ])?),
    }
}

/// The first byte of a text that was opened.
fn start_of_opened(opened: &Opened) -> u32 {
    match opened {
        Opened::Under(span, _) => span.start,
        Opened::Applied(span, _) => span.start,
    }
}

/// The sides of a composition that were found last.
fn written(
    state: &mut Examiner,
    book: &mut Book,
    list: &[LineSide],
) -> Result<Vec<Written>, Fault> {
    let nodes = state.take_nodes(list.len())?;
    let mut found = Vec::new(state.alloc);
    for (side, typing) in list.iter().zip(nodes.iter()) {
        found.push(Written {
            face: face_of(state, book, &side.equations)?,
            typing: *typing,
            at: start_of_opened(&side.body),
        })?;
    }
    Ok(found)
}

/// The equation of a base with a side where that is true and starts.
fn started(
    state: &mut Examiner,
    book: &mut Book,
    base: NodeId,
    side: Written,
) -> Result<OnFace, Stop> {
    let here = state.ctx();
    let view = where_all(book, here, &[side.face], Reach::Face)?;
    let name = formula_at(book, Reach::Face)?;
    let sub = into(book, view, &[side.face], Reach::Line, name)?;
    let pair = Pair {
        ctx: view.ctx,
        found: term_under(book, sub, side.typing)?,
        wanted: term_under(book, view.out, base)?,
    };
    let on = Overlap {
        face: side.face,
        view,
    };
    let OnFace { face, equation } = agreed(state, book, side.at, on, pair)?;
    let equation = turned(book, equation)?;
    Ok(OnFace { face, equation })
}

/// The equations of a base with the sides.
fn starts(
    state: &mut Examiner,
    book: &mut Book,
    base: NodeId,
    sides: &[Written],
) -> Result<Vec<OnFace>, Stop> {
    let mut found = Vec::new(state.alloc);
    for side in sides {
        let equation = started(state, book, base, *side)?;
        found.push(equation)?;
    }
    Ok(found)
}

/// A composition or a filling of a line, a base, and the sides that were found last.
fn close(
    state: &mut Examiner,
    book: &mut Book,
    form: Parts,
    line: NodeId,
    base: NodeId,
) -> Result<(), Stop> {
    let written = written(state, book, form.sides)?;
    let pairs = overlaps(state, book, &written, Reach::Line)?;
    let starts = starts(state, book, base, &written)?;
    let home = Home {
        ctx: state.ctx(),
        reach: Reach::Line,
        ty: Some(TypeOn {
            face: None,
            ty: line,
        }),
    };
    let sides = sides_of(state.alloc, &written)?;
    let levels = system(state.alloc, book, home, &sides, &pairs)?;
    let probe = Probe {
        face: None,
        reach: Reach::Face,
        typing: base,
    };
    let start = agreement(book, home, &levels, probe, &starts)?;
    let Some(whole) = levels.last() else {
        return Err(Stop::NotTaken(Fault::Misfit));
    };
    let parts = Composition::new(home.ctx, line, base, whole, start);
    let [term, ty] = if form.fills {
        filled(book, parts)?
    } else {
        composed(book, parts)?
    };
    Ok(state.inferred(term, ty)?)
}
