//! Whether the roots of a file are the judgements of a module.

ghost use Rattle.std.specs.Prelude.{◌≡◌, ◌<◌, IfOk, IsSome, Some, map};
ghost use Rattle.std.specs.List.{All};
ghost use Rattle.trees.specs.Claimed.{claimed};
ghost use Rattle.translation.specs.Translated.{judgements_of};
ghost use Rattle.replay.specs.Shown.{root_judgements, rows_mean};
ghost use Rattle.session.specs.Modules.{Compares};
ghost use Rattle.session.specs.Loaded.{stated_by};

use judgement_rows::claims_of;
use replay::JudgedRows;
use resolver::CodeDef;
use std::alloc::{AllocError, Global};
use theory::Claim;

/// The claims of the roots of a file, in order.
fn root_claims(alloc: Global, rows: &JudgedRows) -> Result<Vec<Claim>, AllocError>
    ensures { IfOk result (λ cs.
        map (claimed (rows_mean rows.now)) cs.items ≡ map Some (root_judgements rows.now)) }
{
    let mut claims = Vec::new(alloc);
    for at in 0..rows.root_count() {
        claims.push(rows.root_claim(at))?;
    }
    Ok(claims)
}

/// The first place where two claims are not the same judgement, or where there are more of the ones
/// than of the others, if there is one.
fn first_difference(
    rows: &mut JudgedRows,
    roots: &[Claim],
    claims: &[Claim],
) -> Result<Option<u64>, AllocError>
    requires roots { All (λ c. IsSome (claimed (rows_mean rows.old) c)) roots.now }
    requires claims { All (λ c. IsSome (claimed (rows_mean rows.old) c)) claims.now }
    ensures { let judgements = map (claimed (rows_mean rows.old)) in
        IfOk result (Compares (judgements roots.now) (judgements claims.now)) }
{
    let both = roots.len().min(claims.len());
    for at in 0..both {
        if !rows.same_claim(roots[at], claims[at])? {
            return Ok(Some(at as u64));
        }
    }
    if roots.len() == claims.len() {
        return Ok(None);
    }
    Ok(Some(both as u64))
}

/// The same over rows that are lent: of the rows of a file each early return would drop many parts.
fn first_other(
    alloc: Global,
    rows: &mut JudgedRows,
    defs: &[CodeDef],
) -> Result<Option<u64>, AllocError>
    ensures { IfOk result
        (Compares (root_judgements rows.old) (judgements_of (stated_by defs.now))) }
{
    let roots = root_claims(alloc, rows)?;
    let claims = claims_of(alloc, rows, defs)?;
    first_difference(rows, &roots, &claims)
}

/// The first root of a file that is not the judgement of the definitions at its place, or where
/// there are more of the ones than of the others, if there is one.
pub(crate) fn first_other_root(
    alloc: Global,
    mut rows: JudgedRows,
    defs: &[CodeDef],
) -> Result<Option<u64>, AllocError>
    ensures { IfOk result
        (Compares (root_judgements rows) (judgements_of (stated_by defs.now))) }
{
    first_other(alloc, &mut rows, defs)
}
