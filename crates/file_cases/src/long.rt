//! Files that are too long for a table.

ghost use Rattle.std.specs.Prelude.{◌<◌, ◌^◌};

use std::alloc::{AllocError, Global};

/// One more successor on both towers, and a node for that on the first, whose top is at a row.
fn push_storey(alloc: Global, text: &mut String, row: u64) -> Result<(), AllocError>
    requires { row < 2 ^ 63 }
{
    let (second, node) = (row + 1, row + 2);
    let lines = format!(in alloc; "t suc {row}\nt suc {second}\nn suc 1 {row} {node}\n")?;
    text.push_str(lines.as_str())
}

/// A node about the top of the second tower, which is at a row, and a root.
fn push_top(alloc: Global, text: &mut String, row: u64) -> Result<(), AllocError>
    requires { row < 2 ^ 63 }
{
    let (node, top) = (row + 1, row + 2);
    let lines = format!(in alloc; "n suc 1 {row} {node}\nr {top}\n")?;
    text.push_str(lines.as_str())
}

/// A file that makes a tower of successors twice, at most 100,000 high, and has a node for each
/// tree of the first; and then a node about a tree of the second.
pub(crate) fn towers(alloc: Global, height: usize) -> Result<String, AllocError> {
    let height = (height as u64).min(100_000);
    let mut text = String::new(alloc);
    text.push_str("rules 1\nc nil\nn ctx.nil\nt zero\nt zero\nn zero 1 2\n")?;
    for at in 0..height {
        push_storey(alloc, &mut text, 3 * at + 3)?;
    }
    push_top(alloc, &mut text, 3 * height + 4)?;
    Ok(text)
}

/// The empty context so many times over, a node about it, and roots of the rows of some numbers.
pub(crate) fn long_file(alloc: Global, count: usize, roots: &str) -> Result<String, AllocError> {
    let mut text = String::from_str(alloc, "rules 1\n")?;
    for _ in 0..count {
        text.push_str("c nil\n")?;
    }
    text.push_str("n ctx.nil\n")?;
    for root in roots.split_whitespace() {
        let line = format!(in alloc; "r {root}\n")?;
        text.push_str(line.as_str())?;
    }
    Ok(text)
}
