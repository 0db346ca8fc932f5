//! What lines spell, and what is written of rows.

ghost use Rattle.std.specs.Prelude.{◌<◌};

use deriv_file::{Next, Row, RowReader, write_row};
use std::alloc::{AllocError, Global};

/// More lines than a case has.
const MOST: u32 = 1000;

/// The row, shown, and written behind the others.
fn rewritten(alloc: Global, row: &Row, written: &mut Vec<u8>) -> Result<String, AllocError> {
    write_row(row, written)?;
    format!(in alloc; "{row:?}")
}

/// Reads the rows to the end and writes them again, and answers the last one as it is shown.
fn last_row(
    alloc: Global,
    reader: &mut RowReader<'_>,
    written: &mut Vec<u8>,
) -> Result<String, AllocError> {
    let mut last = String::from_str(alloc, "no row")?;
    for _ in 0..MOST {
        match reader.next(alloc)? {
            Next::Row(row) => last = rewritten(alloc, &row, written)?,
            Next::End => return Ok(last),
            Next::BadSpelling(at) => return format!(in alloc; "no row at {at}"),
        }
    }
    String::from_str(alloc, "too many rows")
}

fn is_at_end(alloc: Global, reader: &mut RowReader<'_>) -> Result<bool, AllocError> {
    Ok(matches!(&reader.next(alloc)?, Next::End))
}

/// The last row of some lines, where what is written of all rows is these lines.
pub(crate) fn row_told(alloc: Global, bytes: &[u8]) -> Result<String, AllocError> {
    let mut written: Vec<u8> = Vec::new(alloc);
    let mut reader = RowReader::new(bytes);
    let last = last_row(alloc, &mut reader, &mut written)?;
    if !is_at_end(alloc, &mut reader)? {
        return String::from_str(alloc, "no end");
    }
    if written.as_slice() != bytes {
        return String::from_str(alloc, "other lines are written");
    }
    Ok(last)
}

/// The hexadecimal digit of a byte.
fn digit_of(byte: u8) -> u8
    ensures { result < 16 }
{
    match byte {
        b'0'..=b'9' => byte - b'0',
        b'a'..=b'f' => byte - b'a' + 10,
        _ => 0,
    }
}

/// Appends a text in which `\n`, `\r`, `\t` and `\xHH` stand for bytes.
fn push_escaped(bytes: &mut Vec<u8>, mut text: &[u8]) -> Result<(), AllocError> {
    for _ in 0..text.len() {
        let (byte, rest) = match text {
            [] => return Ok(()),
            [b'\\', b'n', rest @ ..] => (b'\n', rest),
            [b'\\', b'r', rest @ ..] => (b'\r', rest),
            [b'\\', b't', rest @ ..] => (b'\t', rest),
            [b'\\', b'x', high, low, rest @ ..] => { (digit_of(*high) * 16 + digit_of(*low), rest) }
            [byte, rest @ ..] => (*byte, rest),
        };
        bytes.push(byte)?;
        text = rest;
    }
    Ok(())
}

/// How many rows are read of the bytes before a line that spells none, which is told twice.
fn rows_before_a_bad_line(alloc: Global, bytes: &[u8]) -> Result<Option<u64>, AllocError> {
    let mut reader = RowReader::new(bytes);
    for count in 0..u64::from(MOST) {
        match reader.next(alloc)? {
            Next::Row(_) => {}
            Next::End => return Ok(None),
            Next::BadSpelling(at) => {
                let again = matches!(&reader.next(alloc)?, Next::BadSpelling(row) if *row == count);
                return Ok(if again && at == count {
                    Some(count)
                } else {
                    None
                });
            }
        }
    }
    Ok(None)
}

/// Which row a line behind others does not spell.
pub(crate) fn ending_told(alloc: Global, lines: &str, line: &str) -> Result<String, AllocError> {
    let mut bytes = Vec::from_slice(alloc, lines.as_bytes())?;
    push_escaped(&mut bytes, line.as_bytes())?;
    match rows_before_a_bad_line(alloc, &bytes)? {
        Some(row) => format!(in alloc; "no row {row}"),
        None => String::from_str(alloc, "rows alone"),
    }
}
