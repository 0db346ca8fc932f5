//! The tokens that the characters of a text spell, before layout.

ghost use Rattle.layout_lexer.specs.Scanning.{TokenAnswer};

use crate::cursor::Cursor;
use crate::fault::LexFault;
use crate::pieces::{self, Piece};
use crate::token::Token;

/// A token that the text spells.
#[derive(Clone, Copy, Debug, PartialEq, Eq)]
pub(crate) struct Plain {
    pub(crate) token: Token,
    /// Whether it is the first on its line.
    pub(crate) first: bool,
}

/// Reads the next token, if any.
pub(crate) fn next_token(cursor: &mut Cursor<'_>) -> Result<Option<Plain>, LexFault>
    ensures { TokenAnswer cursor.old cursor.new result }
{
    'pieces: loop {
        let start = cursor.at();
        let column = cursor.column();
        let first = cursor.is_fresh();
        match pieces::read_piece(cursor) {
            None => return Ok(None),
            Some(Piece::Gap) => {}
            Some(Piece::Fault(fault)) => return Err(fault),
            Some(Piece::Token(kind)) => {
                cursor.note_token();
                let end = cursor.at();
                let token = Token {
                    kind,
                    start,
                    end,
                    column,
                };
                return Ok(Some(Plain { token, first }));
            }
        }
    }
}
