//! What is known after some tokens.

ghost use Rattle.std.specs.Prelude.{◌≡◌};
ghost use Rattle.productions.specs.Grammar.{begin as begins, note as notes, skip as skips};

use layout_lexer::Token;

/// What is known after some tokens: where the last one ended, and the first place that is too deep,
/// if there was one.
#[derive(Clone, Copy)]
pub struct Past {
    pub end: u32,
    pub deep: Option<u32>,
}

/// The first place that is too deep, where something begins at `start` that has this room.
#[inline(always)]
pub fn note(room: u32, start: u32, deep: Option<u32>) -> Option<u32>
    ensures { result ≡ notes room start deep }
{
    match deep {
        Some(place) => Some(place),
        None => if room == 0 { Some(start) } else { None },
    }
}

impl Past {
    /// After a token that begins something of this room.
    #[inline(always)]
    pub fn begin(self, room: u32, token: Token) -> Past
        ensures { result ≡ begins room token.start token.end self }
    {
        Past {
            end: token.end,
            deep: note(room, token.start, self.deep),
        }
    }

    /// After a token that begins nothing.
    #[inline(always)]
    pub fn skip(self, token: Token) -> Past
        ensures { result ≡ skips token.end self }
    {
        Past {
            end: token.end,
            deep: self.deep,
        }
    }
}
