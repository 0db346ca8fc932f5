//! Names in words.

ghost use Rattle.std.specs.Prelude.{◌≡◌, IfOk};
ghost use Rattle.command_words.specs.Words.{is_name, may_name};

use layout_lexer::{Kind, LexFault, tokens};
use std::alloc::{AllocError, Global};

/// Whether a token of this kind may be a name: an identifier, and no keyword. A word that texts
/// refuse may, though no text can hold it.
fn may_name(kind: Kind) -> bool
    ensures { result ≡ may_name kind }
{
    matches!(
        kind,
        Kind::Identifier
            | Kind::Data
            | Kind::Hdata
            | Kind::Split
            | Kind::Mutual
            | Kind::Undefined
            | Kind::Opaque
            | Kind::Transparent
            | Kind::TransparentAll
    )
}

/// Whether a word is the name of a module or of a definition, and nothing else.
pub(crate) fn is_name(alloc: Global, word: &str) -> Result<bool, AllocError>
    ensures { IfOk result (λ is. is ≡ is_name word.now) }
{
    let tokens = match tokens(alloc, word.as_bytes()) {
        Ok(tokens) => tokens,
        Err(LexFault::Memory) => return Err(AllocError),
        Err(_) => return Ok(false),
    };
    match tokens.as_slice() {
        [token] => {
            Ok(may_name(token.kind) && token.start == 0 && token.end as usize == word.len())
        }
        _ => Ok(false),
    }
}
