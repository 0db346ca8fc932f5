//! Glued types, and the parts that they share with their elements unglued.

use crate::faces_of_forms::Faces;
use crate::splits::Split;
use book::{Book, NodeId};
use eliminators::{GlueParts, as_type, equation_under, glue_parts, type_under};
use equal_parts::{Pair, at_left};
use face_rules::{
    GLUE_SMALL_EQUAL, GLUE_SMALL_EQUAL_GIVES, GLUE_TYPE_EQUAL, GLUE_TYPE_EQUAL_GIVES,
};
use glue_entries::{EQUIV_TYCONG, EQUIV_TYCONG_GIVES};
use settled_sides::Reach;
use tested_steps::{Fault, claim_of, derive, premise_of};
use theory::Claim;
use values::{Susp, term_under};
use way_rules::{SMALL_EQUAL, SMALL_EQUAL_GIVES};

/// A glued type in H: its parts, and its base and what is glued as they stand: types, or terms of
/// the universe.
#[derive(Clone, Copy, Debug)]
pub(crate) struct Glued {
    pub(crate) parts: GlueParts,
    base: NodeId,
    ty: NodeId,
}

/// Two glued types in H, at faces that are true at the same points. Both are types, or both are
/// terms of the universe.
#[derive(Clone, Copy, Debug)]
pub struct Glues {
    pub(crate) ctx: NodeId,
    pub(crate) left: Glued,
    pub(crate) right: Glued,
    pub(crate) faces: Faces,
}

/// The parts of a glued type, of a node whose first premises they are.
fn glued_of(book: &mut Book, form: Susp, is_small: bool) -> Result<Glued, Fault> {
    let base = premise_of(book, form.typing, 0)?;
    let ty = premise_of(book, form.typing, 1)?;
    let large_base = as_type(book, base)?;
    let large_ty = as_type(book, ty)?;
    let parts = glue_parts(book, form.sub, form.typing, large_base, large_ty)?;
    if !is_small {
        let (base, ty) = (parts.base, parts.ty);
        return Ok(Glued { parts, base, ty });
    }
    let base = term_under(book, form.sub, base)?;
    let ty = term_under(book, parts.lifted, ty)?;
    Ok(Glued { parts, base, ty })
}

/// The parts of two glued types, or of those of two terms unglued: as types, or as terms of the
/// universe.
pub fn glues_of(
    book: &mut Book,
    ctx: NodeId,
    forms: [Susp; 2],
    faces: Faces,
    is_small: bool,
) -> Result<Glues, Fault> {
    let [left, right] = forms;
    Ok(Glues {
        ctx,
        left: glued_of(book, left, is_small)?,
        right: glued_of(book, right, is_small)?,
        faces,
    })
}

/// Their bases.
pub fn glue_bases(both: Glues) -> Pair {
    Pair {
        ctx: both.ctx,
        left: both.left.base,
        right: both.right.base,
    }
}

/// What is glued.
pub fn glue_types(book: &mut Book, both: Glues) -> Result<Split, Fault> {
    Ok(Split {
        ctx: both.ctx,
        face: both.faces.left,
        left: both.left.ty,
        right: term_under(book, both.faces.over, both.right.ty)?,
        reach: Reach::Face,
    })
}

/// An equation of types, of that or of one of terms of the universe.
fn as_equation(book: &mut Book, equation: NodeId) -> Result<NodeId, Fault> {
    if let Claim::TyEq(..) = claim_of(book, equation)? {
        return Ok(equation);
    }
    let [equal]: [NodeId; 1] = derive(book, SMALL_EQUAL, SMALL_EQUAL_GIVES, &[], &[equation])?;
    Ok(equal)
}

/// The row of A, of `G >> A`.
fn tree_of(book: &Book, ty: NodeId) -> Result<u64, Fault> {
    match claim_of(book, ty)? {
        Claim::Ty(_, tree) => Ok(tree),
        _ => Err(Fault::Misfit),
    }
}

/// `H.p >> equiv T A = equiv V B`, of `H >> A = B` and `H.p >> T = V`.
fn maps_fit(book: &mut Book, both: Glues, bases: NodeId, types: NodeId) -> Result<NodeId, Fault> {
    let within = both.faces.within;
    let Claim::Ctx(ctx) = claim_of(book, within.ctx)? else {
        return Err(Fault::Misfit);
    };
    let left = both.left.parts.ty;
    let left_base = type_under(book, within.out, both.left.parts.base)?;
    let right = type_under(book, both.faces.over, both.right.parts.ty)?;
    let right_base = type_under(book, within.out, both.right.parts.base)?;
    let parts = [
        ctx,
        tree_of(book, left)?,
        tree_of(book, left_base)?,
        tree_of(book, right)?,
        tree_of(book, right_base)?,
    ];
    let bases = as_equation(book, bases)?;
    let premises = [
        within.ctx,
        left,
        left_base,
        right,
        right_base,
        as_equation(book, types)?,
        equation_under(book, within.out, bases)?,
    ];
    let [fits]: [NodeId; 1] = derive(book, EQUIV_TYCONG, EQUIV_TYCONG_GIVES, &parts, &premises)?;
    Ok(fits)
}

/// The equivalences, at the parts of the left one, where the bases and what is glued are equal.
pub fn glue_maps(
    book: &mut Book,
    both: Glues,
    bases: NodeId,
    types: NodeId,
) -> Result<Split, Fault> {
    let fits = maps_fit(book, both, bases, types)?;
    let right = term_under(book, both.faces.over, both.right.parts.map)?;
    Ok(Split {
        ctx: both.ctx,
        face: both.faces.left,
        left: both.left.parts.map,
        right: at_left(book, right, fits)?,
        reach: Reach::Face,
    })
}

/// Glued types of equal bases, types and equivalences.
pub fn close_glues(book: &mut Book, both: Glues, found: [NodeId; 3]) -> Result<NodeId, Fault> {
    let [bases, _, _] = found;
    let parts = [both.faces.left, both.faces.right];
    let [equal]: [NodeId; 1] = match claim_of(book, bases)? {
        Claim::TyEq(..) => { derive(book, GLUE_TYPE_EQUAL, GLUE_TYPE_EQUAL_GIVES, &parts, &found)? }
        _ => derive(
            book,
            GLUE_SMALL_EQUAL,
            GLUE_SMALL_EQUAL_GIVES,
            &parts,
            &found,
        )?,
    };
    Ok(equal)
}
