//! The marked rows of a file, with numbers of their own.

ghost use Rattle.std.specs.Prelude.{◌≡◌, ◌<◌, ◌++◌, IfOk, OnOk, OnErr, length, map};
ghost use Rattle.std.specs.Prelude.{slice_get, slice_index_or, Some};
ghost use Rattle.std.specs.List.{All, flat_map};
ghost use Rattle.deriv_file.specs.declared.row.Row.{Row};
ghost use Rattle.deriv_file.specs.declared.row.Row.TheVariants.{Root};
ghost use Rattle.deriv_file.specs.Spelling.{spelled};
ghost use Rattle.deriv_file.specs.Writing.{Extends};
ghost use Rattle.book_writer.specs.Held.{names_of, row_of};
ghost use Rattle.book_writer.specs.Names.{AreNumbers, number, numbered, renamed};

use crate::copies::placed;
use crate::lines::{Lines, RowHead};
use deriv_file::{Ids, NEWEST, Row, write_row};
use std::alloc::{AllocError, Global};
use theory::count_parts;

/// The number of each row among the marked ones, and how many these are.
#[derive(Drop)]
pub struct Numbering {
    pub of: Vec<u64>,
    pub count: u64,
}

/// The marked rows, counted from 0.
pub fn numbers(alloc: Global, marks: &[bool]) -> Result<Numbering, AllocError>
    ensures of { IfOk result (λ numbers. AreNumbers marks.now numbers.of.items) }
    ensures count { IfOk result (λ numbers. numbers.count ≡ number marks.now (length marks.now)) }
{
    let mut of = Vec::new(alloc);
    let mut count = 0;
    for marked in marks {
        of.push(count)?;
        if *marked {
            count += 1;
        }
    }
    Ok(Numbering { of, count })
}

/// The list of these numbers.
fn ids(alloc: Global, numbers: &[u64]) -> Result<Ids, AllocError>
    ensures { IfOk result (λ ids. ids ≡ numbers.now) }
{
    let mut ids = Ids::new(alloc);
    for number in numbers {
        ids.push(*number)?;
    }
    Ok(ids)
}

/// The row of this head and these names.
fn file_row(alloc: Global, head: RowHead, names: &[u64]) -> Result<Row, AllocError>
    requires { length names.now ≡ names_of head }
    ensures { IfOk result (λ row. row ≡ row_of head names.now) }
{
    match head {
        RowHead::Header => Ok(Row::Header(NEWEST)),
        RowHead::Var(index) => Ok(Row::Var(index)),
        RowHead::Make(op) => Ok(Row::Make(op, ids(alloc, names)?)),
        RowHead::Instance => Ok(Row::Instance(names[0], names[1])),
        RowHead::Shift(by) => Ok(Row::Shift(by)),
        RowHead::Push => Ok(Row::Push(names[0], names[1])),
        RowHead::CtxNil => Ok(Row::CtxNil),
        RowHead::CtxVar => Ok(Row::CtxVar(names[0], names[1])),
        RowHead::CtxName => Ok(Row::CtxName(names[0])),
        RowHead::CtxFace => Ok(Row::CtxFace(names[0], names[1])),
        RowHead::Node(rule) => {
            let (parts, premises) = names.split_at(count_parts(rule) as usize);
            Ok(Row::Node(rule, ids(alloc, parts)?, ids(alloc, premises)?))
        }
    }
}

/// Appends a root for each of these nodes.
pub fn append_roots(numbers: &[u64], roots: &[u64], into: &mut Vec<u8>) -> Result<(), AllocError>
    requires { All (λ k. k < length numbers.now) roots.now }
    ensures ok { let rows = map (λ k. Root (slice_index_or numbers.now k 0)) roots.now in
        OnOk result (into.new.items ≡ into.old.items ++ flat_map spelled rows) }
    ensures err { OnErr result (Extends into.old.items into.new.items) }
{
    for root in roots {
        write_row(&Row::Root(numbers[*root as usize]), into)?;
    }
    Ok(())
}

impl Lines {
    /// Appends a marked row.
    fn append_row(&self, at: u64, numbers: &[u64], into: &mut Vec<u8>) -> Result<(), AllocError>
        requires row { at < length self.now }
        requires all { length numbers.now ≡ length self.now }
        ensures ok { (row : Row) → slice_get self.now at ≡ Some row →
            let line = spelled (renamed (λ k. slice_index_or numbers.now k 0) row) in
            OnOk result (into.new.items ≡ into.old.items ++ line) }
        ensures err { OnErr result (into.new.items ≡ into.old.items) }
    {
        let _ = &self.alloc;
        let (head, names) = self.line(at);
        let names = placed(numbers, names);
        let row = file_row(self.alloc, head, names.as_slice())?;
        write_row(&row, into)?;
        Ok(())
    }

    /// Appends the marked rows.
    pub(crate) fn append_marked(
        &self,
        marks: &[bool],
        numbers: &[u64],
        into: &mut Vec<u8>,
    ) -> Result<(), AllocError>
        requires count { length marks.now ≡ length self.now }
        requires numbers { AreNumbers marks.now numbers.now }
        ensures ok { let rows = numbered marks.now self.now in
            OnOk result (into.new.items ≡ into.old.items ++ flat_map spelled rows) }
        ensures err { OnErr result (Extends into.old.items into.new.items) }
    {
        let _ = &self.alloc;
        for at in 0..self.len() {
            if marks[at as usize] {
                self.append_row(at, numbers, into)?;
            }
        }
        Ok(())
    }
}
