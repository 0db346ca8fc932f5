//! How tokens are spelled.

ghost use Rattle.std.specs.Prelude.{◌≡◌, true};
ghost use Rattle.std.specs.Option.{unwrap_or};
ghost use Rattle.layout_lexer.specs.Words.{spelling, rises};
ghost use Rattle.layout_lexer.specs.Pieces.{spelled_in};
ghost use Rattle.layout_lexer.specs.declared.token.Kind.TheVariants.{Identifier};

use crate::token::Kind;

/// The words that are no identifiers: keywords, and words that every grammar refuses. The shorter
/// stand first.
static WORDS: &[Kind] = &[
    Kind::U,
    Kind::In,
    Kind::Let,
    Kind::Comp,
    Kind::Fill,
    Kind::GlueType,
    Kind::GlueTerm,
    Kind::Data,
    Kind::Where,
    Kind::PathP,
    Kind::Hdata,
    Kind::Split,
    Kind::Module,
    Kind::Import,
    Kind::Unglue,
    Kind::Mutual,
    Kind::Opaque,
    Kind::Transport,
    Kind::Undefined,
    Kind::Transparent,
    Kind::TransparentAll,
];

/// How a token of this kind is spelled: a mark by nothing, and an identifier in no one way, so by
/// nothing too.
pub fn spelling(kind: Kind) -> &'static str
    ensures { result.now ≡ spelling kind }
{
    match kind {
        Kind::Open | Kind::Next | Kind::Close | Kind::Identifier => "",
        Kind::LeftParen => "(",
        Kind::RightParen => ")",
        Kind::LeftBracket => "[",
        Kind::RightBracket => "]",
        Kind::Comma => ",",
        Kind::Colon => ":",
        Kind::Equals => "=",
        Kind::At => "@",
        Kind::Star => "*",
        Kind::Less => "<",
        Kind::Greater => ">",
        Kind::Question => "?",
        Kind::Bar => "|",
        Kind::Backslash => "\\",
        Kind::Minus => "-",
        Kind::Arrow => "->",
        Kind::And => "/\\",
        Kind::Or => "\\/",
        Kind::First => ".1",
        Kind::Second => ".2",
        Kind::Zero => "0",
        Kind::One => "1",
        Kind::Module => "module",
        Kind::Where => "where",
        Kind::Import => "import",
        Kind::Let => "let",
        Kind::In => "in",
        Kind::PathP => "PathP",
        Kind::Comp => "comp",
        Kind::Fill => "fill",
        Kind::Transport => "transport",
        Kind::GlueType => "Glue",
        Kind::GlueTerm => "glue",
        Kind::Unglue => "unglue",
        Kind::U => "U",
        Kind::Data => "data",
        Kind::Hdata => "hdata",
        Kind::Split => "split",
        Kind::Mutual => "mutual",
        Kind::Undefined => "undefined",
        Kind::Opaque => "opaque",
        Kind::Transparent => "transparent",
        Kind::TransparentAll => "transparent_all",
    }
}

/// The first of these kinds that is so spelled. The search ends before the first whose spelling is
/// longer.
fn first_spelled(kinds: &[Kind], text: &[u8]) -> Option<Kind>
    requires { rises 0 kinds.now ≡ true }
    ensures { result ≡ spelled_in kinds.now text.now }
{
    for kind in kinds {
        let word = spelling(*kind).as_bytes();
        if text.len() < word.len() {
            return None;
        }
        if text == word {
            return Some(*kind);
        }
    }
    None
}

/// The kind of a name: that of its word, or of an identifier.
pub(crate) fn name_kind(name: &[u8]) -> Kind
    ensures { result ≡ unwrap_or (spelled_in WORDS.now name.now) Identifier }
{
    first_spelled(WORDS, name).unwrap_or(Kind::Identifier)
}
