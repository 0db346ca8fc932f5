//! The tokens of a text.

ghost use Rattle.std.specs.Prelude.{◌≡◌, ◌≤◌, IfOk, IfErr, Ok, length};
ghost use Rattle.std.specs.Str.{chars};
ghost use Rattle.layout_lexer.specs.Slices.{InText};
ghost use Rattle.layout_lexer.specs.Texts.{tokens_of, spelled_tokens, Fails};

use crate::cursor::Cursor;
use crate::fault::LexFault;
use crate::layout::Layout;
use crate::scanner;
use crate::token::Tokens;
use std::alloc::Global;

/// The most bytes that a text may have.
pub const MAX_LEN: usize = 16_777_216;

/// The tokens of a text, with the marks that its layout stands for.
///
/// Of the faults `TooLong` comes first, before a byte is read, then `NotUtf8`; of `BadByte` and
/// `OpenComment` the one that comes first in the text.
pub fn tokens(alloc: Global, bytes: &[u8]) -> Result<Tokens, LexFault>
    ensures ok { IfOk result (λ tokens. tokens_of bytes.now ≡ Ok tokens) }
    ensures err { IfErr result (Fails (tokens_of bytes.now)) }
    ensures in_text { IfOk result (InText bytes.now 0) }
{
    if bytes.len() > MAX_LEN {
        return Err(LexFault::TooLong);
    }
    match str::from_utf8(bytes) {
        Ok(text) => spelled_tokens(alloc, text),
        Err(fault) => Err(LexFault::NotUtf8(fault.valid_up_to() as u32)),
    }
}

/// The tokens that the characters of a text spell.
fn spelled_tokens(alloc: Global, text: &str) -> Result<Tokens, LexFault>
    requires { length text.now ≤ MAX_LEN }
    ensures ok { IfOk result (λ tokens. spelled_tokens (chars text.now) ≡ Ok tokens) }
    ensures err { IfErr result (Fails (spelled_tokens (chars text.now))) }
{
    let mut cursor = Cursor::new(text);
    let mut layout = Layout::new(alloc);
    while let Some(plain) = scanner::next_token(&mut cursor)? {
        layout.push(plain).map_err(|_| LexFault::Memory)?;
    }
    layout
        .finish(cursor.at(), cursor.column())
        .map_err(|_| LexFault::Memory)?;
    Ok(layout.tokens)
}
