//! That a type or a term agrees with a system, as it agrees with each of its sides.

use crate::conclusions::{absurd, covered, followed, turned};
use crate::systems::{Home, Joins, Level};
use crate::views::{Reach, View, formula_at, into, where_all};
use book::{Book, Few, NodeId};
use eliminators::{OnFace, add, equation_under, into_face};
use tested_steps::Fault;
use values::term_under;

/// What is compared with the sides of a system: a type or a term in G, or where a face of G is
/// true, under the name of the system or where that is at its start.
#[derive(Clone, Copy, Debug)]
pub struct Probe {
    pub face: Option<u64>,
    pub reach: Reach,
    pub typing: NodeId,
}

impl Probe {
    /// Its face, if it has one, and another.
    fn faces(self, other: u64) -> Result<Few, Fault> {
        let mut faces = Few::new();
        if let Some(face) = self.face {
            add(&mut faces, face)?;
        }
        add(&mut faces, other)?;
        Ok(faces)
    }

    /// Its typing in a view.
    fn typing_in(self, book: &mut Book, from: View) -> Result<NodeId, Fault> {
        let sub = match self.face {
            None => self.into(book, from, &[])?,
            Some(face) => self.into(book, from, &[face])?,
        };
        term_under(book, sub, self.typing)
    }

    /// From a view to where some faces are true, and the name is what it is for the probe.
    fn into(self, book: &mut Book, from: View, faces: &[u64]) -> Result<NodeId, Fault> {
        let name = formula_at(book, self.reach)?;
        into(book, from, faces, self.reach, name)
    }

    /// From a view to where a system stands, as the probe sees it.
    fn to_system(
        self,
        book: &mut Book,
        from: View,
        home: Home,
        level: &Level,
    ) -> Result<NodeId, Fault> {
        let name = formula_at(book, self.reach)?;
        into(book, from, &[level.cover], home.reach, name)
    }
}

/// That a probe is a system where the first side of this is true: in a view with that face.
fn on_first(
    book: &mut Book,
    from: View,
    home: Home,
    probe: Probe,
    level: &Level,
    joins: Joins,
    side: OnFace,
) -> Result<NodeId, Fault> {
    let to_side = probe.into(book, from, &[side.face])?;
    let equal = equation_under(book, to_side, side.equation)?;
    let [face, _] = joins.faces;
    let to_system = probe.to_system(book, from, home, level)?;
    let to_first = into_face(book, to_system, face)?;
    let first = equation_under(book, to_first, joins.first)?;
    let first = turned(book, first)?;
    followed(book, equal, first)
}

/// The same where one of the other sides is, of the equation with the system of these.
fn on_others(
    book: &mut Book,
    from: View,
    home: Home,
    probe: Probe,
    level: &Level,
    joins: Joins,
    others: OnFace,
) -> Result<NodeId, Fault> {
    let faces = probe.faces(others.face)?;
    let to_others = probe.into(book, from, faces.as_slice())?;
    let equal = equation_under(book, to_others, others.equation)?;
    let [_, face] = joins.faces;
    let to_system = probe.to_system(book, from, home, level)?;
    let to_others = into_face(book, to_system, face)?;
    let others = equation_under(book, to_others, joins.others)?;
    let others = turned(book, others)?;
    followed(book, equal, others)
}

/// That a probe agrees with a system of no sides.
fn with_nothing(book: &mut Book, home: Home, probe: Probe, level: &Level) -> Result<NodeId, Fault> {
    let faces = probe.faces(level.cover)?;
    let here = where_all(book, home.ctx, faces.as_slice(), probe.reach)?;
    let left = probe.typing_in(book, here)?;
    let to_system = probe.to_system(book, here, home, level)?;
    let right = term_under(book, to_system, level.body)?;
    absurd(book, left, right)
}

/// That a probe agrees with a system of one side more than one with which it agrees.
fn with_one_more(
    book: &mut Book,
    home: Home,
    probe: Probe,
    level: &Level,
    side: OnFace,
    others: OnFace,
) -> Result<NodeId, Fault> {
    let Some(joins) = level.joins else {
        return Err(Fault::Misfit);
    };
    let faces = probe.faces(level.cover)?;
    let here = where_all(book, home.ctx, faces.as_slice(), probe.reach)?;
    let left = probe.typing_in(book, here)?;
    let to_system = probe.to_system(book, here, home, level)?;
    let right = term_under(book, to_system, level.body)?;
    let faces = [here.face(book, joins.face)?, here.face(book, others.face)?];
    let there = here.with_face(book, joins.face)?;
    let first = on_first(book, there, home, probe, level, joins, side)?;
    let there = here.with_face(book, others.face)?;
    let second = on_others(book, there, home, probe, level, joins, others)?;
    covered(book, [left, right], faces, [first, second])
}

/// That a probe agrees with the last of some systems, where one of the sides is true and the face
/// of the probe is: of its equations with the sides, in order. Each stands where a face is true,
/// which is where those of the probe and of the side are.
pub fn agreement(
    book: &mut Book,
    home: Home,
    levels: &[Level],
    probe: Probe,
    equations: &[OnFace],
) -> Result<NodeId, Fault> {
    let Some((none, more)) = levels.split_first() else {
        return Err(Fault::Misfit);
    };
    let mut others = OnFace {
        face: none.cover,
        equation: with_nothing(book, home, probe, none)?,
    };
    for (level, side) in more.iter().zip(equations.iter().rev()) {
        let equation = with_one_more(book, home, probe, level, *side, others)?;
        others = OnFace {
            face: level.cover,
            equation,
        };
    }
    Ok(others.equation)
}
