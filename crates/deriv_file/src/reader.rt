//! The reader of rows.

ghost use Rattle.std.specs.Prelude.{◌≡◌, IfOk, OnErr};
ghost use Rattle.deriv_file.specs.Reader.{start, NextIs};

use crate::line::first_row;
use crate::row::{NEWEST, Place, Row, version_after};
use std::alloc::{AllocError, Global};
use std::marker::Model;

/// What a reader answers.
#[derive(Debug, Drop)]
pub enum Next {
    /// The row that the next line spells.
    Row(Row),
    /// No byte is left.
    End,
    /// The next line spells no row, or lacks its newline; the number of its row.
    BadSpelling(u64),
}

/// Reads the rows of a derivation file from its bytes, one after the other. It answers
/// `BadSpelling` at the first line that spells no row, and goes on answering it.
#[derive(Drop)]
pub struct RowReader<'a> {
    rest: &'a [u8],
    place: Place,
}

impl<'a> Model for RowReader<'a> {
    ghost use Rattle.std.specs.Prelude.{◌+◌, ◌<◌, ◌^◌, length};
    ghost use Rattle.deriv_file.specs.Reading.{Reading};

    ghost Value = { Reading };

    ghost view = { λ a. record { rest = a.rest.now; at = a.place.at; version = a.place.version } };

    // each row took a byte
    ghost invariant = { λ a. a.place.at + length a.rest.now < 2 ^ 64 };
}

impl<'a> RowReader<'a> {
    /// A reader of a whole file.
    pub fn new(bytes: &'a [u8]) -> RowReader<'a>
        ensures { result ≡ start bytes.now }
    {
        RowReader {
            rest: bytes,
            place: Place {
                at: 0,
                version: NEWEST,
            },
        }
    }

    /// The next row. The only error is to be out of memory, and then the reader stands where it
    /// stood.
    pub fn next(&mut self, alloc: Global) -> Result<Next, AllocError>
        ensures next { IfOk result (NextIs self.old self.new) }
        ensures err { OnErr result (self.new ≡ self.old) }
    {
        if self.rest.is_empty() {
            return Ok(Next::End);
        }
        match first_row(alloc, self.rest, self.place)? {
            Some((row, rest)) => {
                self.place = Place {
                    at: self.place.at + 1,
                    version: version_after(self.place.version, &row),
                };
                self.rest = rest;
                Ok(Next::Row(row))
            }
            None => Ok(Next::BadSpelling(self.place.at)),
        }
    }
}
