//! Glued types, their elements, and elements unglued.

use crate::conclusions::{conclude, context_row, followed, reflexive, subject};
use crate::equivalences::equivalence_type;
use crate::systems::{Home, Joins, Level};
use crate::views::{Reach, View, formula_at, into, where_all};
use book::{Book, NodeId};
use eliminators::{as_type, equation_under, into_face, type_under};
use literal_types::Literal;
use std::alloc::Global;
use tested_steps::{Fault, claim_of, codomain_of, derive, kids_of};
use theory::{Claim, GlueRule, PiRule, RuleName};
use typed_nodes::Family;
use typing_rules::{APPLIED, APPLIED_GIVES, FIRST, FIRST_GIVES};
use values::term_under;

/// What a glued type is made of.
#[derive(Clone, Copy, Debug)]
pub struct Glued {
    /// `ctx G`
    pub ctx: NodeId,
    /// `G >> A`, or of the universe.
    pub base: NodeId,
    /// The face p.
    pub face: u64,
    /// `G.p >> T`, or of the universe.
    pub ty: NodeId,
    /// `G.p >> w : equiv T A`
    pub map: NodeId,
}

impl Glued {
    /// The rows of G, A, p, T and w.
    fn rows(self, book: &Book) -> Result<[u64; 5], Fault> {
        let ctx = context_row(book, self.ctx)?;
        let [_, base] = subject(book, self.base)?;
        let [_, ty] = subject(book, self.ty)?;
        let [_, map] = subject(book, self.map)?;
        Ok([ctx, base, self.face, ty, map])
    }

    /// The same over a face that is true where its own is.
    pub fn over(self, book: &mut Book, face: u64) -> Result<Glued, Fault> {
        let there = where_all(book, self.ctx, &[face], Reach::Face)?;
        let sub = self.into(book, there)?;
        Ok(Glued {
            face,
            ty: type_under(book, sub, self.ty)?,
            map: term_under(book, sub, self.map)?,
            ..self
        })
    }

    /// From a view to where its face is true.
    pub fn into(self, book: &mut Book, from: View) -> Result<NodeId, Fault> {
        into_face(book, from.out, self.face)
    }
}

/// `G >> Glue A p T w`
pub fn glued_type(book: &mut Book, parts: Glued) -> Result<NodeId, Fault> {
    let rows = parts.rows(book)?;
    let premises = [parts.base, parts.ty, parts.map];
    conclude(book, RuleName::Gluing(GlueRule::GlueTy), &rows, &premises)
}

/// `G >> Glue A p T w : U`, of parts of the universe.
pub fn small_glued_type(book: &mut Book, parts: Glued) -> Result<NodeId, Fault> {
    let rows = parts.rows(book)?;
    let premises = [parts.base, parts.ty, parts.map];
    conclude(book, RuleName::Gluing(GlueRule::GlueU), &rows, &premises)
}

/// `G >> Glue A p T w = Glue A q T w`, of what is glued over q, and where p is true exactly where q
/// is.
pub fn glued_by(book: &mut Book, parts: Glued, over: Glued) -> Result<NodeId, Fault> {
    let [ctx, base, face, ty, map] = over.rows(book)?;
    let bases = reflexive(book, parts.base)?;
    let types = reflexive(book, over.ty)?;
    let maps = reflexive(book, over.map)?;
    let rows = [ctx, base, base, face, parts.face, ty, ty, map, map];
    let rule = RuleName::Gluing(GlueRule::GlueTyCong);
    conclude(book, rule, &rows, &[bases, types, maps])
}

/// `G >> glue p c a : Glue A p T w`, of `G.p >> c : T`, `G >> a : A`, and that a is the image of c.
pub fn glue(
    book: &mut Book,
    parts: Glued,
    element: NodeId,
    base: NodeId,
    images: NodeId,
) -> Result<NodeId, Fault> {
    let [ctx, base_type, face, ty, map] = parts.rows(book)?;
    let [_, element_row] = subject(book, element)?;
    let [_, base_row] = subject(book, base)?;
    let rows = [ctx, base_type, face, ty, map, element_row, base_row];
    let premises = [parts.base, parts.ty, parts.map, element, base, images];
    conclude(book, RuleName::Gluing(GlueRule::Glue), &rows, &premises)
}

/// `G >> unglue p T w b : A`, of `G >> b : Glue A p T w`.
pub fn unglued(book: &mut Book, parts: Glued, element: NodeId) -> Result<NodeId, Fault> {
    let [ctx, base, face, ty, map] = parts.rows(book)?;
    let [_, row] = subject(book, element)?;
    let premises = [parts.base, parts.ty, parts.map, element];
    let rule = RuleName::Gluing(GlueRule::Unglue);
    conclude(book, rule, &[ctx, base, face, ty, map, row], &premises)
}

/// Where a side of a system is true, that the system is the side: of all levels, and the number of
/// the side.
pub fn picked(
    book: &mut Book,
    home: Home,
    levels: &[Level],
    face: u64,
    at: usize,
) -> Result<NodeId, Fault> {
    let here = where_all(book, home.ctx, &[face], home.reach)?;
    let mut equal = None;
    for (number, level) in levels.iter().rev().enumerate() {
        let Some(joins) = level.joins else {
            return Err(Fault::Misfit);
        };
        let name = formula_at(book, home.reach)?;
        let sub = into(book, here, &[level.cover], home.reach, name)?;
        let [first, others] = joins.faces;
        let next = if number == at {
            let sub = into_face(book, sub, first)?;
            equation_under(book, sub, joins.first)?
        } else {
            let sub = into_face(book, sub, others)?;
            equation_under(book, sub, joins.others)?
        };
        let through = match equal {
            None => next,
            Some(before) => followed(book, before, next)?,
        };
        if number == at {
            return Ok(through);
        }
        equal = Some(through);
    }
    Err(Fault::Misfit)
}

/// The function of an equivalence, in a context where its face is true.
#[derive(Clone, Copy, Debug)]
struct Map {
    /// `H >> fst w : pi T A+`
    function: NodeId,
    /// The parts of that type.
    family: Family,
}

/// The function of the equivalence of a glued type, in a view where its face is true.
fn map_in(alloc: Global, book: &mut Book, parts: Glued, from: View) -> Result<Map, Fault> {
    let sub = parts.into(book, from)?;
    let ty = as_type(book, parts.ty)?;
    let ty = type_under(book, sub, ty)?;
    let base = as_type(book, parts.base)?;
    let base = type_under(book, from.out, base)?;
    let map = term_under(book, sub, parts.map)?;
    let whole = equivalence_type(book, from.ctx, ty, base)?;
    let Literal::Sigma(pair) = kids_of(alloc, book, whole)? else {
        return Err(Fault::Misfit);
    };
    let premises = [pair.sub, pair.domain, pair.codomain, map];
    let [function]: [NodeId; 1] = derive(book, FIRST, FIRST_GIVES, &[], &premises)?;
    let ty = type_under(book, pair.sub, pair.domain)?;
    match kids_of(alloc, book, ty)? {
        Literal::Pi(family) => Ok(Map { function, family }),
        _ => Err(Fault::Misfit),
    }
}

impl Map {
    /// The image of an element.
    fn image(self, book: &mut Book, element: NodeId) -> Result<NodeId, Fault> {
        let Family {
            domain,
            codomain,
            sub,
        } = self.family;
        let premises = [sub, domain, codomain, self.function, element];
        let [term, _]: [NodeId; 2] = derive(book, APPLIED, APPLIED_GIVES, &[], &premises)?;
        Ok(term)
    }

    /// That the images of equal elements are equal.
    fn equal_images(
        self,
        alloc: Global,
        book: &mut Book,
        equation: NodeId,
    ) -> Result<NodeId, Fault> {
        let Claim::TmEq(ctx, left, right, _) = claim_of(book, equation)? else {
            return Err(Fault::Misfit);
        };
        let [_, function] = subject(book, self.function)?;
        let domain = type_under(book, self.family.sub, self.family.domain)?;
        let [_, domain] = subject(book, domain)?;
        let codomain = codomain_of(alloc, book, self.function)?;
        let [_, codomain] = subject(book, codomain)?;
        let functions = reflexive(book, self.function)?;
        let rows = [ctx, function, function, left, right, domain, codomain];
        let rule = RuleName::Pi(PiRule::AppCong);
        conclude(book, rule, &rows, &[functions, equation])
    }
}

/// The image of an element, in a view where the face of a glued type is true.
pub fn image(
    alloc: Global,
    book: &mut Book,
    parts: Glued,
    from: View,
    element: NodeId,
) -> Result<NodeId, Fault> {
    let map = map_in(alloc, book, parts, from)?;
    map.image(book, element)
}

/// The image of a system of elements.
fn level_image(
    alloc: Global,
    book: &mut Book,
    parts: Glued,
    level: &Level,
    below: Option<u64>,
) -> Result<Level, Fault> {
    let here = where_all(book, parts.ctx, &[level.cover], Reach::Face)?;
    let body = image(alloc, book, parts, here, level.body)?;
    let joins = match (level.joins, below) {
        (Some(joins), Some(below)) => {
            let there = here.with_face(book, joins.face)?;
            let map = map_in(alloc, book, parts, there)?;
            let first = map.equal_images(alloc, book, joins.first)?;
            let there = here.with_face(book, below)?;
            let map = map_in(alloc, book, parts, there)?;
            let others = map.equal_images(alloc, book, joins.others)?;
            Some(Joins {
                first,
                others,
                ..joins
            })
        }
        _ => None,
    };
    Ok(Level {
        cover: level.cover,
        body,
        joins,
    })
}

/// The images of systems of elements of a glued type, each of the system before it and a side.
pub fn images(
    alloc: Global,
    book: &mut Book,
    parts: Glued,
    levels: &[Level],
) -> Result<Vec<Level>, Fault> {
    let mut found = Vec::new(alloc);
    let mut below = None;
    for level in levels {
        found.push(level_image(alloc, book, parts, level, below)?)?;
        below = Some(level.cover);
    }
    Ok(found)
}
