//! Sides of glued types: types, and equivalences from them.

use crate::elements::{close_element, element, element_sides, more_sides};
use crate::overlaps::{Overlap, agreed, face_of, meeting, seen};
use crate::ungluing::{close_unglued, unglue};
use book::{Book, NodeId};
use codes::{Code, PairSide};
use eliminators::{OnFace, as_type, equation_under, type_under};
use examining_state::{Examiner, Gluing, Lining, Pair, Sort, Stop, Task, Tasks};
use joined_sides::{
    Glued, Home, Level, Reach, Side, TypeOn, View, as_types, equal_equivalences, equivalence_type,
    fitted, glued_type, into, picked, small_glued_type, system, turned, where_all,
};
use std::alloc::Global;
use tested_steps::Fault;
use values::term_under;

/// The sides of a glued type, or of an element of one that is unglued.
pub(crate) fn pair_sides(code: &Code) -> Result<&[PairSide], Fault> {
    match code {
        Code::GlueType { sides, .. } => Ok(sides),
        Code::Unglue { sides, .. } => Ok(sides),
        _ => Err(Fault::Misfit),
    }
}

/// What is asked of a glued type, an element of one, or such an element unglued.
pub fn gluing<'a>(
    state: &mut Examiner,
    book: &mut Book,
    tasks: &mut Tasks<'a>,
    code: &'a Code,
    gluing: Gluing,
) -> Result<(), Stop> {
    match gluing {
        Gluing::Start(sort) => start(state, tasks, code, sort),
        Gluing::Sides(base, sort, number) => sides(state, book, tasks, code, base, sort, number),
        Gluing::Map(base, number) => map(state, book, tasks, code, base, number),
        Gluing::Close(base, sort) => close_type(state, book, code, base, sort),
        Gluing::Unglue => unglue(state, book, tasks, code),
        Gluing::CloseUnglued(element, base) => close_unglued(state, book, code, element, base),
        Gluing::Element(ty) => element(state, book, tasks, code, ty),
        Gluing::ElementSides(parts, shape) => element_sides(state, tasks, code, parts, shape),
        Gluing::MoreSides(parts, number) => more_sides(state, book, tasks, code, parts, number),
        Gluing::CloseElement(parts, shape, base) => {
            close_element(state, book, code, parts, shape, base)
        }
    }
}

/// The sides of a glued type over the base that was found last.
fn start<'a>(
    state: &mut Examiner,
    tasks: &mut Tasks<'a>,
    code: &'a Code,
    sort: Sort,
) -> Result<(), Stop> {
    let base = state.take_node()?;
    Ok(tasks.plan(&[
        Task::Gluing(code, Gluing::Sides(base, sort, 0)),
        Task::Gluing(code, Gluing::Close(base, sort)),
    ])?)
}

/// Sides from one on, each where its face is true.
fn sides<'a>(
    state: &mut Examiner,
    book: &mut Book,
    tasks: &mut Tasks<'a>,
    code: &'a Code,
    base: NodeId,
    sort: Sort,
    number: usize,
) -> Result<(), Stop> {
    let Some(side) = pair_sides(code)?.get(number) else {
        return Ok(());
    };
    let face = face_of(state, book, &side.equations)?;
    state.enter_face(book, face)?;
    Ok(tasks.plan(&[
        Task::Form(&side.ty, sort),
        Task::Gluing(code, Gluing::Map(base, number)),
        Task::Lining(Lining::Leave),
        Task::Gluing(code, Gluing::Sides(base, sort, number + 1)),
    ])?)
}

/// The equivalence of a side over a base, where the type was found last.
fn map<'a>(
    state: &mut Examiner,
    book: &mut Book,
    tasks: &mut Tasks<'a>,
    code: &'a Code,
    base: NodeId,
    number: usize,
) -> Result<(), Stop> {
    let Some(side) = pair_sides(code)?.get(number) else {
        return Err(Stop::NotTaken(Fault::Misfit));
    };
    let found = state.last_node()?;
    let ty = as_type(book, found)?;
    let here = state.view(book)?;
    let base = as_type(book, base)?;
    let base = type_under(book, here.out, base)?;
    let wanted = equivalence_type(book, here.ctx, ty, base)?;
    Ok(tasks.plan(&[Task::Check(&side.equivalence, wanted)])?)
}

/// A side: its face, its type and the equivalence there, and its first byte.
#[derive(Clone, Copy, Debug)]
pub(crate) struct Piece {
    face: u64,
    ty: NodeId,
    map: NodeId,
    at: u32,
}

/// The sides that were found last.
fn pieces(state: &mut Examiner, book: &mut Book, list: &[PairSide]) -> Result<Vec<Piece>, Fault> {
    let count = list.len().checked_mul(2).ok_or(Fault::Misfit)?;
    let nodes = state.take_nodes(count)?;
    let mut found = Vec::new(state.alloc);
    let mut left = nodes.as_slice();
    for side in list {
        let [ty, map, rest @ ..] = left else {
            return Err(Fault::Misfit);
        };
        found.push(Piece {
            face: face_of(state, book, &side.equations)?,
            ty: *ty,
            map: *map,
            at: side.span.start,
        })?;
        left = rest;
    }
    Ok(found)
}

/// What two sides agree on: their types, and their equivalences at the type of the earlier.
#[derive(Clone, Copy, Debug)]
struct Equations {
    types: OnFace,
    maps: OnFace,
}

/// The equation of the types of two sides where both are true, the later one's first.
fn agree_in_type(
    state: &mut Examiner,
    book: &mut Book,
    earlier: Piece,
    later: Piece,
    on: Overlap,
) -> Result<OnFace, Stop> {
    let pair = Pair {
        ctx: on.view.ctx,
        found: seen(book, on.view, later.face, Reach::Face, later.ty)?,
        wanted: seen(book, on.view, earlier.face, Reach::Face, earlier.ty)?,
    };
    agreed(state, book, later.at, on, pair)
}

/// The equation of types of equivalences in a view, of an equation of the types that they are from.
fn maps_fit(
    book: &mut Book,
    from: View,
    base: NodeId,
    types: [NodeId; 2],
    equal: NodeId,
) -> Result<NodeId, Fault> {
    let [one, other] = types;
    let one = as_type(book, one)?;
    let other = as_type(book, other)?;
    let base = as_type(book, base)?;
    let base = type_under(book, from.out, base)?;
    let equal = as_types(book, equal)?;
    equal_equivalences(book, from.ctx, [one, other], base, equal)
}

/// What two sides agree on where both are true.
fn agree(
    state: &mut Examiner,
    book: &mut Book,
    earlier: Piece,
    later: Piece,
    base: NodeId,
) -> Result<Equations, Stop> {
    let ctx = state.ctx();
    let on = meeting(book, ctx, [earlier.face, later.face], Reach::Face)?;
    let types = agree_in_type(state, book, earlier, later, on)?;
    let from = seen(book, on.view, later.face, Reach::Face, later.ty)?;
    let to = seen(book, on.view, earlier.face, Reach::Face, earlier.ty)?;
    let fits = maps_fit(book, on.view, base, [from, to], types.equation)?;
    let found = seen(book, on.view, later.face, Reach::Face, later.map)?;
    let pair = Pair {
        ctx: on.view.ctx,
        found: fitted(book, found, fits)?,
        wanted: seen(book, on.view, earlier.face, Reach::Face, earlier.map)?,
    };
    let maps = agreed(state, book, later.at, on, pair)?;
    Ok(Equations {
        types: earlier_first(book, types)?,
        maps: earlier_first(book, maps)?,
    })
}

/// An equation of two sides, the earlier one's first.
fn earlier_first(book: &mut Book, on: OnFace) -> Result<OnFace, Fault> {
    let equation = turned(book, on.equation)?;
    Ok(OnFace { equation, ..on })
}

/// What each side agrees on with those after it.
#[derive(Drop)]
struct AllPairs {
    types: Vec<Vec<OnFace>>,
    maps: Vec<Vec<OnFace>>,
}

/// What each side agrees on with those after it.
fn overlaps(
    state: &mut Examiner,
    book: &mut Book,
    sides: &[Piece],
    base: NodeId,
) -> Result<AllPairs, Stop> {
    let mut types: Vec<Vec<OnFace>> = Vec::new(state.alloc);
    let mut maps: Vec<Vec<OnFace>> = Vec::new(state.alloc);
    for later in sides {
        let both = types.iter_mut().zip(maps.iter_mut());
        for ((of_types, of_maps), earlier) in both.zip(sides.iter()) {
            let found = agree(state, book, *earlier, *later, base)?;
            of_types.push(found.types)?;
            of_maps.push(found.maps)?;
        }
        types.push(Vec::new(state.alloc))?;
        maps.push(Vec::new(state.alloc))?;
    }
    Ok(AllPairs { types, maps })
}

/// The systems of the types of sides.
fn type_levels(
    alloc: Global,
    book: &mut Book,
    home: Home,
    sides: &[Piece],
    agree: &[Vec<OnFace>],
) -> Result<Vec<Level>, Fault> {
    let mut list = Vec::new(alloc);
    for side in sides {
        list.push(Side {
            face: side.face,
            typing: side.ty,
        })?;
    }
    system(alloc, book, home, &list, agree)
}

/// That the equivalences from the type of a side are those from the system of all types, where the
/// side is true.
fn fit_of(
    book: &mut Book,
    home: Home,
    levels: &[Level],
    side: Piece,
    number: usize,
    base: NodeId,
) -> Result<NodeId, Fault> {
    let Some(whole) = levels.last() else {
        return Err(Fault::Misfit);
    };
    let there = where_all(book, home.ctx, &[side.face], Reach::Face)?;
    let equal = picked(book, home, levels, side.face, number)?;
    let equal = turned(book, equal)?;
    let sub = into(book, there, &[whole.cover], Reach::Face, whole.cover)?;
    let body = term_under(book, sub, whole.body)?;
    let own = seen(book, there, side.face, Reach::Face, side.ty)?;
    maps_fit(book, there, base, [own, body], equal)
}

/// The equations of a side's equivalence with those after it, at the type that it is given.
fn fitted_overlaps(
    alloc: Global,
    book: &mut Book,
    ctx: NodeId,
    face: u64,
    fits: NodeId,
    agree: &[OnFace],
) -> Result<Vec<OnFace>, Fault> {
    let mut found = Vec::new(alloc);
    for on in agree {
        let there = where_all(book, ctx, &[on.face], Reach::Face)?;
        let sub = into(book, there, &[face], Reach::Face, face)?;
        let fits = equation_under(book, sub, fits)?;
        let equation = fitted(book, on.equation, fits)?;
        found.push(OnFace { equation, ..*on })?;
    }
    Ok(found)
}

/// The system of the equivalences of sides, of the systems of their types.
fn map_system(
    alloc: Global,
    book: &mut Book,
    home: Home,
    types: &[Level],
    sides: &[Piece],
    agree: &[Vec<OnFace>],
    base: NodeId,
) -> Result<NodeId, Fault> {
    let Some(whole) = types.last() else {
        return Err(Fault::Misfit);
    };
    let mut list = Vec::new(alloc);
    let mut pairs = Vec::new(alloc);
    for (number, side) in sides.iter().enumerate() {
        let Some(equations) = agree.get(number) else {
            return Err(Fault::Misfit);
        };
        let fits = fit_of(book, home, types, *side, number, base)?;
        let there = where_all(book, home.ctx, &[side.face], Reach::Face)?;
        let own = seen(book, there, side.face, Reach::Face, side.map)?;
        list.push(Side {
            face: side.face,
            typing: fitted(book, own, fits)?,
        })?;
        let equations = fitted_overlaps(alloc, book, home.ctx, side.face, fits, equations)?;
        pairs.push(equations)?;
    }
    let there = where_all(book, home.ctx, &[whole.cover], Reach::Face)?;
    let ty = as_type(book, whole.body)?;
    let base = as_type(book, base)?;
    let base = type_under(book, there.out, base)?;
    let on = TypeOn {
        face: Some(whole.cover),
        ty: equivalence_type(book, there.ctx, ty, base)?,
    };
    let home = Home {
        ctx: home.ctx,
        reach: Reach::Face,
        ty: Some(on),
    };
    let levels = system(alloc, book, home, &list, &pairs)?;
    match levels.last() {
        Some(level) => Ok(level.body),
        None => Err(Fault::Misfit),
    }
}

/// What a glued type over a base is made of, by the sides that were found last.
pub(crate) fn glued_parts(
    state: &mut Examiner,
    book: &mut Book,
    list: &[PairSide],
    sort: Sort,
    base: NodeId,
) -> Result<Glued, Stop> {
    let sides = pieces(state, book, list)?;
    let agree = overlaps(state, book, &sides, base)?;
    let ty = match sort {
        Sort::Large => None,
        Sort::Small => Some(TypeOn {
            face: None,
            ty: state.universe(book)?,
        }),
    };
    let home = Home {
        ctx: state.ctx(),
        reach: Reach::Face,
        ty,
    };
    let alloc = state.alloc;
    let types = type_levels(alloc, book, home, &sides, &agree.types)?;
    let map = map_system(alloc, book, home, &types, &sides, &agree.maps, base)?;
    let Some(whole) = types.last() else {
        return Err(Stop::NotTaken(Fault::Misfit));
    };
    Ok(Glued {
        ctx: home.ctx,
        base,
        face: whole.cover,
        ty: whole.body,
        map,
    })
}

/// A glued type over a base, by the sides that were found last.
fn close_type(
    state: &mut Examiner,
    book: &mut Book,
    code: &Code,
    base: NodeId,
    sort: Sort,
) -> Result<(), Stop> {
    let parts = glued_parts(state, book, pair_sides(code)?, sort, base)?;
    let node = match sort {
        Sort::Large => glued_type(book, parts)?,
        Sort::Small => small_glued_type(book, parts)?,
    };
    Ok(state.found(node)?)
}
