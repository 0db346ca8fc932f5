//! Rows of the file that are trees, substitutions and contexts.

ghost use Rattle.std.specs.Prelude.{◌≡◌, ◌<◌, ℕ, length, IfOk};
ghost use Rattle.std.specs.List.{All};
ghost use Rattle.trees.specs.Operators.{kids_of};
ghost use Rattle.trees.specs.Things.{Kept};
ghost use Rattle.rows.specs.Shown.{things, store_means};
ghost use Rattle.deriv_file.specs.Spelling.{MayStand};
ghost use Rattle.deriv_file.specs.declared.row.Row.TheVariants as row;
ghost use Rattle.derivation.specs.Meanings.{thing_at};
ghost use Rattle.derivation.specs.Right.{thing_made};
ghost use Rattle.replay.specs.Filed.{file_meanings, AllFiled, MadeAs};

use crate::filed_rows::FiledRows;
use crate::named::{named, named_rows, named_two};
use PartKind::{Context, Subst, Term};
use deriv_file::Row;
use rows::{Maker, RowStore};
use std::alloc::{AllocError, Global};
use theory::{Op, PartKind};

/// The kinds of kids, of which there are four at most.
static TERMS: [PartKind; 4] = [PartKind::Term; 4];

/// The row of an operator over kids, where these are trees.
fn made_row(
    alloc: Global,
    store: &mut RowStore,
    filed: &FiledRows,
    op: Op,
    kids: &[u64],
) -> Result<Option<u64>, AllocError>
    requires filed { AllFiled (things store.old) filed.now }
    requires count { length kids.now ≡ kids_of op }
    requires earlier { All (λ k. k < length filed.now) kids.now }
    ensures kept { Kept (store_means store.old) (store_means store.new) }
    ensures made { let before = file_meanings (things store.old) filed.now in
        IfOk result (MadeAs (thing_made (thing_at before) (row.Make op kids.now))
        (things store.new)) }
{
    let Some(rows) = named_rows(alloc, store, filed, kids, &TERMS[..kids.len()])? else {
        return Ok(None);
    };
    Ok(Some(store.make(op, &rows)?))
}

/// The row of the store for a row of the file that is a tree, a substitution or a context, where
/// the rows that it names are things of the right kinds.
pub fn thing_row(
    alloc: Global,
    store: &mut RowStore,
    filed: &FiledRows,
    row: &Row,
) -> Result<Option<u64>, AllocError>
    requires filed { AllFiled (things store.old) filed.now }
    requires stands { (version : ℕ) × MayStand version (length filed.now) row.now }
    ensures kept { Kept (store_means store.old) (store_means store.new) }
    ensures made { let before = file_meanings (things store.old) filed.now in
        IfOk result (MadeAs (thing_made (thing_at before) row.now) (things store.new)) }
{
    match row {
        Row::Var(index) => Ok(Some(store.var(*index)?)),
        Row::Make(op, kids) => Ok(made_row(alloc, store, filed, *op, kids.as_slice())?),
        Row::Instance(term, sub) => {
            let Some((term, sub)) = named_two(store, filed, (*term, Term), (*sub, Subst)) else {
                return Ok(None);
            };
            Ok(Some(store.instance(term, sub)?))
        }
        Row::Shift(by) => Ok(Some(store.shift(*by)?)),
        Row::Push(sub, term) => {
            let Some((sub, term)) = named_two(store, filed, (*sub, Subst), (*term, Term)) else {
                return Ok(None);
            };
            Ok(Some(store.push(sub, term)?))
        }
        Row::CtxNil => Ok(Some(store.ctx_nil()?)),
        Row::CtxVar(ctx, ty) => {
            let Some((ctx, ty)) = named_two(store, filed, (*ctx, Context), (*ty, Term)) else {
                return Ok(None);
            };
            Ok(Some(store.ctx_var(ctx, ty)?))
        }
        Row::CtxName(ctx) => {
            let Some(ctx) = named(store, filed, *ctx, Context) else {
                return Ok(None);
            };
            Ok(Some(store.ctx_name(ctx)?))
        }
        Row::CtxFace(ctx, face) => {
            let Some((ctx, face)) = named_two(store, filed, (*ctx, Context), (*face, Term)) else {
                return Ok(None);
            };
            Ok(Some(store.ctx_face(ctx, face)?))
        }
        Row::Header(_) | Row::Node(_, _, _) | Row::Root(_) => Ok(None),
    }
}
