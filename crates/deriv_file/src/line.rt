//! The row that a line spells.

ghost use Rattle.std.specs.Prelude.{◌∷◌, IfOk, codes};
ghost use Rattle.deriv_file.specs.Words.{line_words, Reads, ReadsLine};

use crate::row::{GREATEST_SHIFT, NEWEST, Place, Row};
use crate::words::{Words, split_at_first};
use std::alloc::{AllocError, Global};
use theory::{count_parts, count_premises, kid_count, op_of, rule_of};

/// The row that the first line of the bytes spells at a place, with the bytes after the line, if it
/// spells one.
pub(crate) fn first_row(
    alloc: Global,
    bytes: &[u8],
    place: Place,
) -> Result<Option<(Row, &[u8])>, AllocError>
    ensures { IfOk result (ReadsLine place.version place.at bytes.now) }
{
    let Some((line, rest)) = split_at_first(bytes, b'\n') else {
        return Ok(None);
    };
    match row_of(alloc, line, place)? {
        Some(row) => Ok(Some((row, rest))),
        None => Ok(None),
    }
}

/// The row that a line without its newline spells at a place, if any.
fn row_of(alloc: Global, line: &[u8], place: Place) -> Result<Option<Row>, AllocError>
    ensures { IfOk result (Reads place.version place.at (line_words line.now)) }
{
    let mut words = Words::new(line);
    let Some(kind) = words.take() else {
        return Ok(None);
    };
    match kind {
        b"rules" => Ok(header(&mut words, place)),
        b"t" => tree(alloc, &mut words, place),
        b"x" => Ok(instance(&mut words, place)),
        b"s" => Ok(substitution(&mut words, place)),
        b"c" => Ok(context(&mut words, place)),
        b"n" => node(alloc, &mut words, place),
        b"r" => Ok(root(&mut words, place)),
        _ => Ok(None),
    }
}

/// The rest of a line `rules V`.
fn header(words: &mut Words<'_>, place: Place) -> Option<Row>
    ensures { Reads place.version place.at (codes "rules" ∷ words.old) result }
{
    let version = words.last_below(u64::from(NEWEST) + 1)?;
    if version > 0 && place.at == 0 {
        Some(Row::Header(version as u32))
    } else {
        None
    }
}

/// The rest of a line `t var N` or `t OP K1 .. Kn`.
fn tree(alloc: Global, words: &mut Words<'_>, place: Place) -> Result<Option<Row>, AllocError>
    ensures { IfOk result (Reads place.version place.at (codes "t" ∷ words.old)) }
{
    let Some(name) = words.take() else {
        return Ok(None);
    };
    if name == b"var".as_slice() {
        let Some(index) = words.last_below(1 << 32) else {
            return Ok(None);
        };
        return Ok(Some(Row::Var(index as u32)));
    }
    let Some(op) = op_of(name, place.version) else {
        return Ok(None);
    };
    let Some(kids) = words.numbers(alloc, kid_count(op), place.at)? else {
        return Ok(None);
    };
    if !words.is_empty() {
        return Ok(None);
    }
    Ok(Some(Row::Make(op, kids)))
}

/// The rest of a line `x T S`.
fn instance(words: &mut Words<'_>, place: Place) -> Option<Row>
    ensures { Reads place.version place.at (codes "x" ∷ words.old) result }
{
    let (term, sub) = words.last_two(place.at)?;
    Some(Row::Instance(term, sub))
}

/// The rest of a line `s shift N` or `s push S T`.
fn substitution(words: &mut Words<'_>, place: Place) -> Option<Row>
    ensures { Reads place.version place.at (codes "s" ∷ words.old) result }
{
    match words.take()? {
        b"shift" => {
            let by = words.last_below(GREATEST_SHIFT + 1)?;
            Some(Row::Shift(by))
        }
        b"push" => {
            let (sub, term) = words.last_two(place.at)?;
            Some(Row::Push(sub, term))
        }
        _ => None,
    }
}

/// The rest of a line `c nil`, `c var C T`, `c name C` or `c face C T`.
fn context(words: &mut Words<'_>, place: Place) -> Option<Row>
    ensures { Reads place.version place.at (codes "c" ∷ words.old) result }
{
    match words.take()? {
        b"nil" if words.is_empty() => Some(Row::CtxNil),
        b"var" => {
            let (ctx, ty) = words.last_two(place.at)?;
            Some(Row::CtxVar(ctx, ty))
        }
        b"name" => Some(Row::CtxName(words.last_below(place.at)?)),
        b"face" => {
            let (ctx, face) = words.last_two(place.at)?;
            Some(Row::CtxFace(ctx, face))
        }
        _ => None,
    }
}

/// The rest of a line `n RULE P1 .. Pa Q1 .. Qb`.
fn node(alloc: Global, words: &mut Words<'_>, place: Place) -> Result<Option<Row>, AllocError>
    ensures { IfOk result (Reads place.version place.at (codes "n" ∷ words.old)) }
{
    let Some(name) = words.take() else {
        return Ok(None);
    };
    let Some(rule) = rule_of(name, place.version) else {
        return Ok(None);
    };
    let Some(parts) = words.numbers(alloc, count_parts(rule), place.at)? else {
        return Ok(None);
    };
    let Some(premises) = words.numbers(alloc, count_premises(rule), place.at)? else {
        return Ok(None);
    };
    if !words.is_empty() {
        return Ok(None);
    }
    Ok(Some(Row::Node(rule, parts, premises)))
}

/// The rest of a line `r N`.
fn root(words: &mut Words<'_>, place: Place) -> Option<Row>
    ensures { Reads place.version place.at (codes "r" ∷ words.old) result }
{
    Some(Row::Root(words.last_below(place.at)?))
}
