//! A text that is read by characters.

ghost use Rattle.std.specs.Prelude.{◌≡◌, ◌+◌, ◌^◌, ◌<◌, ◌≤◌, [], ◌++◌};
ghost use Rattle.std.specs.Prelude.{List, ℕ, length, true, false};
ghost use Rattle.std.specs.Str.{chars};
ghost use Rattle.layout_lexer.specs.Places.{CharRead, column_after, first_of, noted};
ghost use Rattle.layout_lexer.specs.Texts.{whole, IsBefore, BytesBefore};

use std::marker::Model;

/// What is left of a text, and where it stands.
#[derive(Drop)]
pub(crate) struct Cursor<'a> {
    rest: &'a str,
    at: u32,
    column: u32,
    fresh: bool,
}

impl<'a> Model for Cursor<'a> {
    ghost use Rattle.std.specs.Prelude.{◌+◌, ◌*◌, ◌≤◌, length};
    ghost use Rattle.std.specs.Str.{chars, IsUtf8};
    ghost use Rattle.layout_lexer.specs.Places.{Reading};

    ghost Value = { Reading };

    ghost view = { λ c. record {
      place = record { at = c.at; column = c.column };
      fresh = c.fresh;
      rest = chars c.rest.now;
    } };

    ghost invariant = { λ c.
        IsUtf8 c.rest.now × (c.at + length c.rest.now ≤ 16777216) × (c.column ≤ 8 * c.at + 1) };
}

impl<'a> Cursor<'a> {
    /// Before the first character of a text.
    pub(crate) fn new(text: &'a str) -> Cursor<'a>
        requires { length text.now ≤ 16777216 }
        ensures { result ≡ whole (chars text.now) }
    {
        Cursor {
            rest: text,
            at: 0,
            column: 1,
            fresh: true,
        }
    }

    /// The place, in bytes.
    pub(crate) fn at(&self) -> u32
        ensures { result ≡ self.now.place.at }
    {
        self.at
    }

    /// The column of the place.
    pub(crate) fn column(&self) -> u32
        ensures { result ≡ self.now.place.column }
    {
        self.column
    }

    /// Whether the line has no token yet.
    pub(crate) fn is_fresh(&self) -> bool
        ensures { result ≡ self.now.fresh }
    {
        self.fresh
    }

    /// Notes that the line has a token.
    pub(crate) fn note_token(&mut self)
        ensures { self.new ≡ noted self.old }
    {
        self.fresh = false;
    }

    /// What is left of the text.
    pub(crate) fn rest(&self) -> &'a str
        ensures { chars result.now ≡ self.now.rest }
    {
        self.rest
    }

    /// The character that comes.
    pub(crate) fn peek(&self) -> Option<char>
        ensures { result ≡ first_of self.now.rest }
    {
        self.rest.chars().next()
    }

    /// Reads a character.
    pub(crate) fn next(&mut self) -> Option<char>
        ensures { CharRead self.old self.new result }
    {
        let mut chars = self.rest.chars();
        let c = chars.next()?;
        self.rest = chars.as_str();
        self.at += c.len_utf8() as u32;
        self.column = column_after(c, self.column);
        self.fresh |= c == '\n';
        Some(c)
    }
}

/// The column after a character: a tab moves to the next one of the form 8k + 1.
fn column_after(c: char, column: u32) -> u32
    requires { column < 2 ^ 31 }
    ensures value { result ≡ column_after c column }
    ensures near { result ≤ column + 8 }
{
    match c {
        '\n' => 1,
        '\t' => (column + 7) / 8 * 8 + 1,
        _ => column + 1,
    }
}

/// The bytes of a text that stand before the rest of it.
pub(crate) fn bytes_between<'a>(text: &'a str, rest: &str) -> &'a [u8]
    requires { (read : List ℕ) × IsBefore text.now rest.now read }
    ensures { BytesBefore text.now rest.now result.now }
{
    &text.as_bytes()[..text.len() - rest.len()]
}
