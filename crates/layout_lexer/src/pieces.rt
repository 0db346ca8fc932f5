//! The pieces of a text: space, comments and tokens.

ghost use Rattle.std.specs.Prelude.{◌≡◌, ◌∷◌, [], Some, None, false, if◌then◌else◌};
ghost use Rattle.std.specs.List.{prefix_len};
ghost use Rattle.std.specs.Str.{chars};
ghost use Rattle.layout_lexer.specs.Places.{moved};
ghost use Rattle.layout_lexer.specs.Words.{signs};
ghost use Rattle.layout_lexer.specs.Pieces.{spelled_in, word_kind, starts_name, continues_name};
ghost use Rattle.layout_lexer.specs.Pieces.{name_rest, name_from, is_space, stays_on_line};
ghost use Rattle.layout_lexer.specs.Scanning.{PieceRead, SignRead, closed, begins_as};
ghost use Rattle.layout_lexer.specs.Scanning.{sign_of_two, one_sign};

use crate::cursor::{self, Cursor};
use crate::fault::LexFault;
use crate::token::Kind;
use crate::words;

/// What was read where a piece begins.
#[derive(Clone, Copy, Debug, PartialEq, Eq)]
pub(crate) enum Piece {
    /// Space or a comment.
    Gap,
    Token(Kind),
    /// No piece begins there.
    Fault(LexFault),
}

/// Whether a name may begin with the character.
fn starts_name(c: char) -> bool
    ensures { result ≡ starts_name c }
{
    unicode_ident::is_xid_start(c) | (c == '_')
}

/// Whether a name may go on with the character.
fn continues_name(c: char) -> bool
    ensures { result ≡ continues_name c }
{
    unicode_ident::is_xid_continue(c) | (c == '\'')
}

fn is_space(c: char) -> bool
    ensures { result ≡ is_space c }
{
    matches!(c, ' ' | '\t' | '\r' | '\n')
}

/// Whether two characters are these, of which the first was read and the next may come.
fn begins(a: char, b: char, first: char, next: Option<char>) -> bool
    ensures { result ≡ begins_as a b first next }
{
    match next {
        Some(second) => first == a && second == b,
        None => false,
    }
}

/// The sign of two characters, of which the first was read and the next may come.
fn sign_of_two(first: char, next: Option<char>) -> Option<Kind>
    ensures { result ≡ sign_of_two first next }
{
    match (first, next?) {
        ('-', '>') => Some(Kind::Arrow),
        ('/', '\\') => Some(Kind::And),
        ('\\', '/') => Some(Kind::Or),
        ('.', '1') => Some(Kind::First),
        ('.', '2') => Some(Kind::Second),
        _ => None,
    }
}

/// The sign of one character.
fn sign_of_one(c: char) -> Option<Kind>
    ensures { result ≡ spelled_in signs (c ∷ []) }
{
    match c {
        '(' => Some(Kind::LeftParen),
        ')' => Some(Kind::RightParen),
        '[' => Some(Kind::LeftBracket),
        ']' => Some(Kind::RightBracket),
        ',' => Some(Kind::Comma),
        ':' => Some(Kind::Colon),
        '=' => Some(Kind::Equals),
        '@' => Some(Kind::At),
        '*' => Some(Kind::Star),
        '<' => Some(Kind::Less),
        '>' => Some(Kind::Greater),
        '?' => Some(Kind::Question),
        '|' => Some(Kind::Bar),
        '\\' => Some(Kind::Backslash),
        '-' => Some(Kind::Minus),
        '0' => Some(Kind::Zero),
        '1' => Some(Kind::One),
        _ => None,
    }
}

/// Reads the rest of a name.
fn skip_name(cursor: &mut Cursor<'_>)
    ensures { cursor.new ≡ moved (name_rest cursor.old.rest) cursor.old }
{
    while let Some(c) = cursor.peek() {
        if !continues_name(c) {
            return;
        }
        cursor.next();
    }
}

/// Reads the rest of a line.
fn skip_line(cursor: &mut Cursor<'_>)
    ensures { cursor.new ≡ moved (prefix_len stays_on_line cursor.old.rest) cursor.old }
{
    while let Some(c) = cursor.peek() {
        if c == '\n' {
            return;
        }
        cursor.next();
    }
}

/// Reads up to and with the next `-}`, and tells whether there is one.
fn skip_block(cursor: &mut Cursor<'_>) -> bool
    ensures { closed cursor.old ≡ (if result then Some cursor.new else None) }
{
    while let Some(c) = cursor.next() {
        if begins('-', '}', c, cursor.peek()) {
            cursor.next();
            return true;
        }
    }
    false
}

/// Reads the rest of a comment or a sign, which begins with a character at a place.
fn read_sign(cursor: &mut Cursor<'_>, first: char, at: u32) -> Piece
    requires no_name { starts_name first ≡ false }
    requires no_space { is_space first ≡ false }
    ensures { SignRead first at cursor.old cursor.new result }
{
    let next = cursor.peek();
    if begins('-', '-', first, next) {
        skip_line(cursor);
        return Piece::Gap;
    }
    if begins('{', '-', first, next) {
        cursor.next();
        if skip_block(cursor) {
            return Piece::Gap;
        }
        return Piece::Fault(LexFault::OpenComment(at));
    }
    match sign_of_two(first, next) {
        Some(kind) => {
            cursor.next();
            Piece::Token(kind)
        }
        None => one_sign(first, at),
    }
}

/// The sign of one character, which begins no longer one, or the fault that there is none.
fn one_sign(c: char, at: u32) -> Piece
    ensures { result ≡ one_sign c at }
{
    match sign_of_one(c) {
        Some(kind) => Piece::Token(kind),
        None => Piece::Fault(LexFault::BadByte(at)),
    }
}

/// Reads the rest of a name, which begins with a character that was read, as the text did.
fn read_name(cursor: &mut Cursor<'_>, first: char, text: &str) -> Kind
    requires { chars text.now ≡ first ∷ cursor.old.rest }
    ensures moved { cursor.new ≡ moved (name_rest cursor.old.rest) cursor.old }
    ensures kind { result ≡ word_kind (name_from first cursor.old.rest) }
{
    skip_name(cursor);
    words::name_kind(cursor::bytes_between(text, cursor.rest()))
}

/// Reads a piece, if the text has more.
pub(crate) fn read_piece(cursor: &mut Cursor<'_>) -> Option<Piece>
    ensures { PieceRead cursor.old cursor.new result }
{
    let at = cursor.at();
    let text = cursor.rest();
    let first = cursor.next()?;
    if starts_name(first) {
        return Some(Piece::Token(read_name(cursor, first, text)));
    }
    if is_space(first) {
        return Some(Piece::Gap);
    }
    Some(read_sign(cursor, first, at))
}
