//! Glued types, their elements, and these unglued, of parts in normal form.

use crate::faces_of_forms::{faced, faces_of};
use crate::parts::{are_same, closed};
use book::{Book, NodeId};
use eliminators::{GlueParts, as_type, equation_under, glue_parts};
use glue_entries::{EQUIV_TYCONG, EQUIV_TYCONG_GIVES};
use settled_sides::{Reach, past_face, where_true};
use side_rules::{
    GLUE_NORMAL, GLUE_NORMAL_GIVES, GLUE_SMALL_NORMAL, GLUE_SMALL_NORMAL_GIVES, GLUE_TYPE_NORMAL,
    GLUE_TYPE_NORMAL_GIVES, UNGLUE_NORMAL, UNGLUE_NORMAL_GIVES,
};
use std::alloc::Global;
use tested_steps::{Fault, claim_of, derive, premise_of, rule_of};
use theory::{Claim, GlueRule, RuleName};
use values::{Goal, Part, identity, rebuilt, term_under};
use way_rules::{SMALL_EQUAL, SMALL_EQUAL_GIVES, TYPE_SAME, TYPE_SAME_GIVES};

/// The base of a glued type, and what it equals.
#[derive(Clone, Copy, Debug)]
struct Base {
    own: NodeId,
    part: Part,
}

/// The parts of the glued type of a form, in the context of what was asked.
fn parts_here(book: &mut Book, goal: Goal) -> Result<GlueParts, Fault> {
    let node = goal.susp.typing;
    let base = premise_of(book, node, 0)?;
    let base = as_type(book, base)?;
    let ty = premise_of(book, node, 1)?;
    let ty = as_type(book, ty)?;
    glue_parts(book, goal.susp.sub, node, base, ty)
}

/// An equation of types, of that or of one of terms of the universe.
fn as_equation(book: &mut Book, equation: NodeId) -> Result<NodeId, Fault> {
    if let Claim::TyEq(..) = claim_of(book, equation)? {
        return Ok(equation);
    }
    let [equal]: [NodeId; 1] = derive(book, SMALL_EQUAL, SMALL_EQUAL_GIVES, &[], &[equation])?;
    Ok(equal)
}

/// A of `G >> A`.
fn tree_of(book: &Book, ty: NodeId) -> Result<u64, Fault> {
    match claim_of(book, ty)? {
        Claim::Ty(_, tree) => Ok(tree),
        _ => Err(Fault::Misfit),
    }
}

/// `H.q >> equiv T A = equiv V B`, of the face q, of `H >> A`, of `H >> A = B` and `H >> B`, and of
/// `H.q >> T = V` and `H.q >> V`. The last four may be of the universe.
fn equivalences_equal(
    book: &mut Book,
    goal: Goal,
    face: u64,
    base: Base,
    ty: Part,
) -> Result<NodeId, Fault> {
    let faced = faced(book, goal, 1, Reach::Face)?;
    let there = where_true(book, faced, face)?;
    let own = as_type(book, faced.typing)?;
    let own = term_under(book, there.sub, own)?;
    let out = identity(book, goal.susp.ctx)?;
    let out = past_face(book, out, face)?;
    let base_own = term_under(book, out, base.own)?;
    let base_new = as_type(book, base.part.typing)?;
    let base_new = term_under(book, out, base_new)?;
    let base_equal = as_equation(book, base.part.equal)?;
    let base_equal = equation_under(book, out, base_equal)?;
    let new = as_type(book, ty.typing)?;
    let equal = as_equation(book, ty.equal)?;
    let Claim::Ctx(ctx) = claim_of(book, there.ctx)? else {
        return Err(Fault::Misfit);
    };
    let parts = [
        ctx,
        tree_of(book, own)?,
        tree_of(book, base_own)?,
        tree_of(book, new)?,
        tree_of(book, base_new)?,
    ];
    let premises = [there.ctx, own, base_own, new, base_new, equal, base_equal];
    let [equal]: [NodeId; 1] = derive(book, EQUIV_TYCONG, EQUIV_TYCONG_GIVES, &parts, &premises)?;
    Ok(equal)
}

/// A glued type whose parts are in normal form.
pub fn closed_glue_type(
    alloc: Global,
    book: &mut Book,
    goal: Goal,
    found: [Part; 3],
) -> Result<Goal, Fault> {
    let faces = faces_of(alloc, book, goal)?;
    if are_same(book, &found)? && faces.are_same(book)? {
        return Ok(goal);
    }
    let [base, ty, map] = found;
    let own = parts_here(book, goal)?;
    let changed = Base {
        own: own.base,
        part: base,
    };
    let fits = equivalences_equal(book, goal, faces.settled, changed, ty)?;
    let parts = [faces.own, faces.settled];
    let ctx = goal.susp.ctx;
    let nodes: [NodeId; 2] = match rule_of(book, goal.susp.typing)? {
        RuleName::Gluing(GlueRule::GlueTy) => {
            let premises = [
                ctx,
                own.base,
                base.equal,
                base.typing,
                own.ty,
                ty.equal,
                ty.typing,
                own.map,
                map.equal,
                map.typing,
                fits,
            ];
            derive(
                book,
                GLUE_TYPE_NORMAL,
                GLUE_TYPE_NORMAL_GIVES,
                &parts,
                &premises,
            )?
        }
        _ => {
            let premises = [
                ctx,
                base.equal,
                base.typing,
                ty.equal,
                ty.typing,
                map.equal,
                map.typing,
                fits,
            ];
            derive(
                book,
                GLUE_SMALL_NORMAL,
                GLUE_SMALL_NORMAL_GIVES,
                &parts,
                &premises,
            )?
        }
    };
    closed(book, goal, nodes)
}

/// An element of a glued type whose parts are in normal form.
pub fn closed_glue(
    alloc: Global,
    book: &mut Book,
    goal: Goal,
    element: Part,
    image: Part,
) -> Result<Goal, Fault> {
    let faces = faces_of(alloc, book, goal)?;
    if are_same(book, &[element, image])? && faces.are_same(book)? {
        return Ok(goal);
    }
    let own = parts_here(book, goal)?;
    let node = goal.susp.typing;
    let above = premise_of(book, node, 3)?;
    let below = premise_of(book, node, 4)?;
    let agree = premise_of(book, node, 5)?;
    let premises = [
        goal.susp.ctx,
        own.base,
        own.ty,
        own.map,
        term_under(book, own.lifted, above)?,
        term_under(book, goal.susp.sub, below)?,
        equation_under(book, own.lifted, agree)?,
        element.equal,
        element.typing,
        image.equal,
        image.typing,
    ];
    let parts = [faces.own, faces.settled];
    let nodes: [NodeId; 2] = derive(book, GLUE_NORMAL, GLUE_NORMAL_GIVES, &parts, &premises)?;
    closed(book, goal, nodes)
}

/// A term unglued whose parts are in normal form.
pub fn closed_unglue(
    alloc: Global,
    book: &mut Book,
    goal: Goal,
    found: [Part; 3],
) -> Result<Goal, Fault> {
    let [ty, map, term] = found;
    let faces = faces_of(alloc, book, goal)?;
    if are_same(book, &found)? && faces.are_same(book)? {
        return Ok(goal);
    }
    let own = parts_here(book, goal)?;
    let [equal]: [NodeId; 1] = derive(book, TYPE_SAME, TYPE_SAME_GIVES, &[], &[own.base])?;
    let stays = Base {
        own: own.base,
        part: Part {
            equal,
            typing: own.base,
        },
    };
    let fits = equivalences_equal(book, goal, faces.settled, stays, ty)?;
    let premises = [
        goal.susp.ctx,
        own.base,
        own.ty,
        own.map,
        ty.equal,
        ty.typing,
        map.equal,
        map.typing,
        fits,
        term.equal,
        term.typing,
    ];
    let parts = [faces.own, faces.settled];
    let [equal, typing]: [NodeId; 2] = derive(
        book,
        UNGLUE_NORMAL,
        UNGLUE_NORMAL_GIVES,
        &parts,
        &premises,
    )?;
    rebuilt(book, goal, equal, None, typing)
}
