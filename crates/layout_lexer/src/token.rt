//! Tokens and where they stand.

ghost use Rattle.std.specs.Prelude.{◌≡◌, [], ◌∷◌, ◌++◌, slice_range, OnOk, OnErr};

use std::alloc::{AllocError, Global};
use std::fmt;
use std::marker::Model;

/// What a token is.
#[derive(Clone, Copy, Debug, PartialEq, Eq)]
pub enum Kind {
    /// The mark before a block, which no byte spells.
    Open,
    /// The mark between two items of a block.
    Next,
    /// The mark after a block.
    Close,
    /// `(`
    LeftParen,
    /// `)`
    RightParen,
    /// `[`
    LeftBracket,
    /// `]`
    RightBracket,
    /// `,`
    Comma,
    /// `:`
    Colon,
    /// `=`
    Equals,
    /// `@`
    At,
    /// `*`
    Star,
    /// `<`
    Less,
    /// `>`
    Greater,
    /// `?`, which every grammar refuses
    Question,
    /// `|`, which every grammar refuses
    Bar,
    /// `\`
    Backslash,
    /// `-`
    Minus,
    /// `->`
    Arrow,
    /// `/\`
    And,
    /// `\/`
    Or,
    /// `.1`
    First,
    /// `.2`
    Second,
    /// `0`
    Zero,
    /// `1`
    One,
    /// `module`
    Module,
    /// `where`
    Where,
    /// `import`
    Import,
    /// `let`
    Let,
    /// `in`
    In,
    /// `PathP`
    PathP,
    /// `comp`
    Comp,
    /// `fill`
    Fill,
    /// `transport`
    Transport,
    /// `Glue`
    GlueType,
    /// `glue`
    GlueTerm,
    /// `unglue`
    Unglue,
    /// `U`
    U,
    /// `data`, a refused word
    Data,
    /// `hdata`, a refused word
    Hdata,
    /// `split`, a refused word
    Split,
    /// `mutual`, a refused word
    Mutual,
    /// `undefined`, a refused word
    Undefined,
    /// `opaque`, a refused word
    Opaque,
    /// `transparent`, a refused word
    Transparent,
    /// `transparent_all`, a refused word
    TransparentAll,
    /// A name.
    Identifier,
}

/// A token of a text: the bytes from `start` to before `end` are its own, and its first character
/// stands in that column. A mark has no bytes: it starts and ends where the next token starts, at
/// the end of the text where there is none, and has the column of that place.
#[derive(Clone, Copy, Debug, PartialEq, Eq)]
pub struct Token {
    pub kind: Kind,
    /// In bytes.
    pub start: u32,
    /// In bytes.
    pub end: u32,
    /// In characters from 1, where a tab moves to the next column of the form 8k + 1.
    pub column: u32,
}

/// A piece of a text: the bytes from `start` to before `end`.
#[derive(Clone, Copy, Debug, PartialEq, Eq)]
pub struct Span {
    pub start: u32,
    pub end: u32,
}

impl Span {
    /// The bytes of the piece, as many as the text has.
    pub fn slice(self, bytes: &[u8]) -> &[u8]
        ensures { result.now ≡ slice_range bytes.now self.start self.end }
    {
        let end = (self.end as usize).min(bytes.len());
        let start = (self.start as usize).min(end);
        &bytes[start..end]
    }
}

/// A list of tokens.
#[derive(Drop)]
pub struct Tokens {
    items: Vec<Token>,
}

impl Model for Tokens {
    ghost use Rattle.std.specs.Prelude.{List};
    ghost use Rattle.layout_lexer.specs.declared.token.Token.{Token};

    ghost Value = { List Token };

    ghost view = { λ a. a.items.items };
}

impl Tokens {
    /// The empty list, which takes no memory.
    pub fn new(alloc: Global) -> Tokens
        ensures { result ≡ [] }
    {
        Tokens {
            items: Vec::new(alloc),
        }
    }

    /// Appends a token.
    pub fn push(&mut self, token: Token) -> Result<(), AllocError>
        ensures ok { OnOk result (self.new ≡ self.old ++ token ∷ []) }
        ensures err { OnErr result (self.new ≡ self.old) }
    {
        self.items.push(token)?;
        Ok(())
    }

    /// The tokens, in order.
    pub fn as_slice(&self) -> &[Token]
        ensures { result.now ≡ self.now }
    {
        &self.items
    }
}

impl fmt::Debug for Tokens {
    fn fmt<W: fmt::Write>(&self, f: &mut fmt::Formatter<W>) -> fmt::Result {
        self.items.fmt(f)
    }
}

/// A list of spans.
#[derive(Drop)]
pub struct Spans {
    items: Vec<Span>,
}

impl Model for Spans {
    ghost use Rattle.std.specs.Prelude.{List};
    ghost use Rattle.layout_lexer.specs.declared.token.Span.{Span};

    ghost Value = { List Span };

    ghost view = { λ a. a.items.items };
}

impl Spans {
    /// The empty list, which takes no memory.
    pub fn new(alloc: Global) -> Spans
        ensures { result ≡ [] }
    {
        Spans {
            items: Vec::new(alloc),
        }
    }

    /// Appends a span.
    pub fn push(&mut self, span: Span) -> Result<(), AllocError>
        ensures ok { OnOk result (self.new ≡ self.old ++ span ∷ []) }
        ensures err { OnErr result (self.new ≡ self.old) }
    {
        self.items.push(span)?;
        Ok(())
    }

    /// The spans, in order.
    pub fn as_slice(&self) -> &[Span]
        ensures { result.now ≡ self.now }
    {
        &self.items
    }
}

impl fmt::Debug for Spans {
    fn fmt<W: fmt::Write>(&self, f: &mut fmt::Formatter<W>) -> fmt::Result {
        self.items.fmt(f)
    }
}
