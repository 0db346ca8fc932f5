//! Layout: the marks `{`, `;` and `}` between the tokens of a text.

ghost use Rattle.std.specs.Prelude.{◌≡◌, ◌∷◌, [], OnOk};
ghost use Rattle.layout_lexer.specs.declared.layout.Opener.TheVariants.{Nothing};
ghost use Rattle.layout_lexer.specs.declared.token.Kind.TheVariants.{Open};
ghost use Rattle.layout_lexer.specs.Places.{place_at};
ghost use Rattle.layout_lexer.specs.Layouts.{opener_of, asks, is_let, is_in, mark, start_of};
ghost use Rattle.layout_lexer.specs.Layouts.{begins_block, empty_block, ended_by_in, right_of};
ghost use Rattle.layout_lexer.specs.Layouts.{marked, ending, line_begun, blocks_ended};
ghost use Rattle.layout_lexer.specs.Layouts.{appended, finished};

use crate::blocks::{Block, Blocks};
use crate::scanner::Plain;
use crate::token::{Kind, Token, Tokens};
use std::alloc::{AllocError, Global};

/// What the last token asks of the next.
#[derive(Clone, Copy, Debug, PartialEq, Eq)]
pub(crate) enum Opener {
    Nothing,
    /// To begin a block that `where` opens.
    ByWhere,
    /// To begin a block that `let` opens.
    ByLet,
}

/// Tokens with their marks, as far as they are laid out.
#[derive(Drop)]
pub(crate) struct Layout {
    pub(crate) tokens: Tokens,
    pub(crate) blocks: Blocks,
    pub(crate) opener: Opener,
}

fn opener_of(kind: Kind) -> Opener
    ensures { result ≡ opener_of kind }
{
    match kind {
        Kind::Where => Opener::ByWhere,
        Kind::Let => Opener::ByLet,
        _ => Opener::Nothing,
    }
}

fn asks(opener: Opener) -> bool
    ensures { result ≡ asks opener }
{
    match opener {
        Opener::Nothing => false,
        Opener::ByWhere | Opener::ByLet => true,
    }
}

fn is_let(opener: Opener) -> bool
    ensures { result ≡ is_let opener }
{
    match opener {
        Opener::ByLet => true,
        Opener::Nothing | Opener::ByWhere => false,
    }
}

fn is_in(kind: Kind) -> bool
    ensures { result ≡ is_in kind }
{
    matches!(kind, Kind::In)
}

/// A mark that has no bytes.
fn mark(kind: Kind, at: u32, column: u32) -> Token
    ensures { result ≡ mark (place_at at column) kind }
{
    Token {
        kind,
        start: at,
        end: at,
        column,
    }
}

impl Layout {
    /// Before the first token.
    pub(crate) fn new(alloc: Global) -> Layout
        ensures { result ≡ record { tokens = []; blocks = []; opener = Nothing } }
    {
        Layout {
            tokens: Tokens::new(alloc),
            blocks: Blocks::new(alloc),
            opener: Opener::Nothing,
        }
    }

    /// Appends a token, with the marks before it.
    pub(crate) fn push(&mut self, plain: Plain) -> Result<(), AllocError>
        ensures { OnOk result (self.new ≡ appended self.old plain) }
    {
        if self.begins_block(plain) {
            self.begin_block(plain.token)?;
        } else {
            self.end_blocks(plain)?;
        }
        self.tokens.push(plain.token)?;
        self.opener = opener_of(plain.token.kind);
        Ok(())
    }

    /// Appends the marks at the end of a text.
    pub(crate) fn finish(&mut self, at: u32, column: u32) -> Result<(), AllocError>
        ensures { OnOk result (self.new.tokens ≡ finished self.old (place_at at column)) }
    {
        self.empty_block(at, column)?;
        while let Some(_) = self.blocks.pop() {
            self.push_mark(Kind::Close, at, column)?;
        }
        Ok(())
    }

    /// Appends a mark.
    fn push_mark(&mut self, kind: Kind, at: u32, column: u32) -> Result<(), AllocError>
        ensures { OnOk result (
            self.new ≡ marked self.old (place_at at column) (kind ∷ []) self.old.blocks) }
    {
        self.tokens.push(mark(kind, at, column))
    }

    /// Whether a token begins the block that was asked for.
    fn begins_block(&self, plain: Plain) -> bool
        ensures { result ≡ begins_block self.now.opener self.now.blocks plain }
    {
        asks(self.opener) && self.blocks.top() < plain.token.column && !is_in(plain.token.kind)
    }

    /// Begins the block that was asked for.
    fn begin_block(&mut self, token: Token) -> Result<(), AllocError>
        ensures { OnOk result (self.new ≡ marked self.old (start_of token) (Open ∷ []) (
            record { column = token.column; by_let = is_let self.old.opener } ∷ self.old.blocks)) }
    {
        self.push_mark(Kind::Open, token.start, token.column)?;
        self.blocks.push(Block {
            column: token.column,
            by_let: is_let(self.opener),
        })
    }

    /// Ends the blocks that end before a token that begins none, and begins an item where it does.
    fn end_blocks(&mut self, plain: Plain) -> Result<(), AllocError>
        ensures { OnOk result (self.new ≡ blocks_ended self.old plain) }
    {
        self.empty_block(plain.token.start, plain.token.column)?;
        if is_in(plain.token.kind) {
            return self.end_let(plain.token);
        }
        if plain.first {
            return self.begin_line(plain.token);
        }
        Ok(())
    }

    /// Appends the marks of an empty block, where a block was asked for.
    fn empty_block(&mut self, at: u32, column: u32) -> Result<(), AllocError>
        ensures { OnOk result (self.new ≡ marked self.old (place_at at column) (
            empty_block self.old.opener) self.old.blocks) }
    {
        if asks(self.opener) {
            self.push_mark(Kind::Open, at, column)?;
            self.push_mark(Kind::Close, at, column)?;
        }
        Ok(())
    }

    /// Ends the blocks up to the nearest that `let` opened, where `in` comes. An empty block of
    /// `let` has ended already.
    fn end_let(&mut self, token: Token) -> Result<(), AllocError>
        ensures { OnOk result (
            self.new ≡ ending (ended_by_in self.old.opener self.old.blocks)
            self.old (start_of token)) }
    {
        if is_let(self.opener) || !self.blocks.has_let() {
            return Ok(());
        }
        while let Some(block) = self.blocks.pop() {
            self.push_mark(Kind::Close, token.start, token.column)?;
            if block.by_let {
                return Ok(());
            }
        }
        Ok(())
    }

    /// Ends the blocks that the first token of a line stands left of, and begins an item of the
    /// block that it fits.
    fn begin_line(&mut self, token: Token) -> Result<(), AllocError>
        ensures { OnOk result (self.new ≡ line_begun self.old token) }
    {
        self.end_right_of(token)?;
        if self.blocks.top() == token.column {
            self.push_mark(Kind::Next, token.start, token.column)?;
        }
        Ok(())
    }

    /// Ends the blocks that a token stands left of.
    fn end_right_of(&mut self, token: Token) -> Result<(), AllocError>
        ensures { OnOk result (
            self.new ≡ ending (right_of token.column self.old.blocks) self.old (start_of token)) }
    {
        while token.column < self.blocks.top() {
            self.blocks.pop();
            self.push_mark(Kind::Close, token.start, token.column)?;
        }
        Ok(())
    }
}
