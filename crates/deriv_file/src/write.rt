//! The spelling of rows.

ghost use Rattle.std.specs.Prelude.{◌≡◌, ◌∷◌, ◌++◌, [], OnOk, OnErr, decimal};
ghost use Rattle.std.specs.List.{flat_map};
ghost use Rattle.deriv_file.specs.Spelling.{spelled};
ghost use Rattle.deriv_file.specs.Writing.{spaced, Extends};

use crate::row::Row;
use itoa::Buffer;
use std::alloc::AllocError;
use theory::{op_name, rule_name};

/// Appends the line that spells the row. The only error is to be out of memory, and then `into` is
/// as before.
pub fn write_row(row: &Row, into: &mut Vec<u8>) -> Result<(), AllocError>
    ensures ok { OnOk result (into.new.items ≡ into.old.items ++ spelled row.now) }
    ensures err { OnErr result (into.new.items ≡ into.old.items) }
{
    let before = into.len();
    let written = append_row(row, into);
    if written.is_err() {
        into.truncate(before);
    }
    written
}

/// The same, but after the error a part of the line may stand there.
fn append_row(row: &Row, into: &mut Vec<u8>) -> Result<(), AllocError>
    ensures ok { OnOk result (into.new.items ≡ into.old.items ++ spelled row.now) }
    ensures err { OnErr result (Extends into.old.items into.new.items) }
{
    match row {
        Row::Header(version) => append_line(b"rules", b"", &[u64::from(*version)], &[], into),
        Row::Var(index) => append_line(b"t var", b"", &[u64::from(*index)], &[], into),
        Row::Make(op, kids) => {
            append_line(b"t ", op_name(*op).as_bytes(), kids.as_slice(), &[], into)
        }
        Row::Instance(term, sub) => append_line(b"x", b"", &[*term, *sub], &[], into),
        Row::Shift(by) => append_line(b"s shift", b"", &[*by], &[], into),
        Row::Push(sub, term) => append_line(b"s push", b"", &[*sub, *term], &[], into),
        Row::CtxNil => append_line(b"c nil", b"", &[], &[], into),
        Row::CtxVar(ctx, ty) => append_line(b"c var", b"", &[*ctx, *ty], &[], into),
        Row::CtxName(ctx) => append_line(b"c name", b"", &[*ctx], &[], into),
        Row::CtxFace(ctx, face) => append_line(b"c face", b"", &[*ctx, *face], &[], into),
        Row::Node(rule, parts, premises) => append_line(
            b"n ",
            rule_name(*rule).as_bytes(),
            parts.as_slice(),
            premises.as_slice(),
            into,
        ),
        Row::Root(node) => append_line(b"r", b"", &[*node], &[], into),
    }
}

/// Appends a line: its beginning in two parts, and after them numbers, a space before each.
fn append_line(
    kind: &[u8],
    name: &[u8],
    first: &[u64],
    second: &[u64],
    into: &mut Vec<u8>,
) -> Result<(), AllocError>
    ensures ok { OnOk result (into.new.items
        ≡ into.old.items ++
        (kind.now ++ name.now ++ spaced first.now ++ spaced second.now ++ 10 ∷ [])) }
    ensures err { OnErr result (Extends into.old.items into.new.items) }
{
    into.extend_from_slice(kind)?;
    into.extend_from_slice(name)?;
    append_numbers(first, into)?;
    append_numbers(second, into)?;
    into.extend_from_slice(b"\n")
}

/// Appends the numbers, with a space before each.
fn append_numbers(numbers: &[u64], into: &mut Vec<u8>) -> Result<(), AllocError>
    ensures ok { OnOk result (into.new.items ≡ into.old.items ++ spaced numbers.now) }
    ensures err { OnErr result (Extends into.old.items into.new.items) }
{
    let mut digits = Buffer::new();
    for number in numbers {
        into.extend_from_slice(b" ")?;
        into.extend_from_slice(digits.format(*number).as_bytes())?;
    }
    Ok(())
}
